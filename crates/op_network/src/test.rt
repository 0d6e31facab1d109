ghost use Rattle.std.specs.Prelude.{◌≡◌, IfOk};

use crate::value::Value;
use cov_base::{List, Memory, Text};
use std::alloc::Global;

/// A test: its name, and a sequence of inputs. The values stand instant by instant, at each
/// instant in the order of the inputs.
#[derive(Debug, Drop)]
pub struct Test {
    pub name: Text,
    pub instants: u32,
    pub values: List<Value>,
}

impl Test {
    /// A copy. Linear in the length of the name and in the number of values.
    pub fn copy(&self, alloc: Global) -> Result<Test, Memory>
        ensures { IfOk result (λ copy. copy ≡ self.now) }
    {
        let name = self.name.copy(alloc)?;
        let mut values = List::new(alloc);
        values.extend_from_slice(self.values.as_slice())?;
        Ok(Test {
            name,
            instants: self.instants,
            values,
        })
    }
}
