ghost use Rattle.std.specs.Prelude.{◌≡◌, ◌<◌, ◌↔◌, length, slice_get, IfOk, IsTrue};
ghost use Rattle.op_network.specs.Operators.{operands_of};
ghost use Rattle.op_network.specs.Readers.{IsReaderList};
ghost use Rattle.op_network.specs.Valid.{IsValid, FitsTest};

use crate::edge::{EdgeId, Parts};
use crate::fits::fits;
use crate::operands::{operand_within, ports};
use crate::readers::readers;
use crate::test::Test;
use cov_base::{List, Memory};
use std::alloc::Global;
use std::marker::Model;

/// A valid network.
#[derive(Debug, Drop)]
pub struct Network {
    parts: Parts,
}

impl Model for Network {
    ghost use Rattle.op_network.specs.declared.edge.Parts.{Parts as PartsValue};
    ghost use Rattle.op_network.specs.Valid.{IsValid as IsValidParts};

    ghost Value = { PartsValue };

    ghost view = { λ net. net.parts };

    ghost invariant = { λ net. IsValidParts net.parts };
}

impl Network {
    /// The network of valid parts.
    pub fn build(parts: Parts) -> Network
        requires { IsValid parts }
        ensures { result ≡ parts }
    {
        Network { parts }
    }

    /// What the network is made of.
    pub fn parts(&self) -> &Parts
        ensures same { result.now ≡ self.now }
        ensures valid { IsValid self.now }
    {
        &self.parts
    }

    /// How many ports an edge has: as many as its operator has operands, at most 3. In constant
    /// time.
    pub fn ports(&self, e: EdgeId) -> u8
        requires { e.0 < length self.now.edges }
        ensures { result ≡ length (operands_of self.now.edges e) }
    {
        ports(self.parts.edges.as_slice(), e)
    }

    /// The operand at a port of an edge. In constant time.
    pub fn operand(&self, e: EdgeId, port: u8) -> EdgeId
        requires edge { e.0 < length self.now.edges }
        requires port { port < length (operands_of self.now.edges e) }
        ensures operand { slice_get (operands_of self.now.edges e) port ≡ Some result }
        ensures edge { result.0 < length self.now.edges }
    {
        operand_within(self.parts().edges.as_slice(), e, port)
    }

    /// The ports whose operand is the edge, by edge and port. Linear in the number of edges.
    pub fn readers(&self, alloc: Global, e: EdgeId) -> Result<List<(EdgeId, u8)>, Memory>
        requires { e.0 < length self.now.edges }
        ensures { IfOk result (IsReaderList self.now.edges e) }
    {
        readers(alloc, self.parts.edges.as_slice(), e)
    }

    /// Whether the test has at least one instant, and at each a value of each input's type.
    /// Linear in the number of values.
    pub fn fits(&self, test: &Test) -> bool
        ensures { IsTrue result ↔ FitsTest self.now test.now }
    {
        fits(&self.parts, test)
    }
}
