ghost use Rattle.std.specs.Prelude.{◌≡◌, ◌<◌, length, slice_get, slice_set, IfOk};

use crate::edge::EdgeId;
use crate::value::Value;
use cov_base::{List, Memory};
use std::alloc::Global;
use std::marker::Model;

/// The values of the edges at an instant, by their places.
#[derive(Debug, Drop)]
pub struct Frame {
    values: List<Value>,
}

impl Model for Frame {
    ghost use Rattle.std.specs.Prelude.{List as Seq};
    ghost use Rattle.op_network.specs.declared.value.Value.{Value as EdgeValue};

    ghost Value = { Seq EdgeValue };

    ghost view = { λ frame. frame.values };
}

impl Frame {
    /// The frame of these values.
    pub fn of(values: List<Value>) -> Frame
        ensures { result ≡ values }
    {
        Frame { values }
    }

    /// The value of an edge. In constant time.
    pub fn value(&self, e: EdgeId) -> Value
        requires { e.0 < length self.now }
        ensures { slice_get self.now e.0 ≡ Some result }
    {
        self.values.as_slice()[e.0 as usize]
    }

    /// Sets the value of an edge. In constant time.
    pub fn set(&mut self, e: EdgeId, value: Value)
        requires { e.0 < length self.old }
        ensures { self.new ≡ slice_set self.old e.0 value }
    {
        self.values.items_mut()[e.0 as usize] = value;
    }

    /// A copy. Linear in the number of edges.
    pub fn copy(&self, alloc: Global) -> Result<Frame, Memory>
        ensures { IfOk result (λ copy. copy ≡ self.now) }
    {
        let mut values = List::new(alloc);
        values.extend_from_slice(self.values.as_slice())?;
        Ok(Frame { values })
    }

    /// The values, by the places of their edges.
    pub fn values(&self) -> &[Value]
        ensures { result.now ≡ self.now }
    {
        self.values.as_slice()
    }
}
