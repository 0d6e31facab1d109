ghost use Rattle.std.specs.Prelude.{◌≡◌, ◌<◌};
ghost use Rattle.unroll_cnf.specs.Made.{word_at};

use bit_blast::{Maker, Word};
use cov_base::List;
use op_network::EdgeId;
use std::marker::Model;

/// The formula of a network over some instants, and the word of each edge at each instant.
#[derive(Debug, Drop)]
pub struct Unrolled {
    pub(crate) maker: Maker,
    pub(crate) edges: usize,
    pub(crate) instants: u32,
    pub(crate) words: List<List<Word>>,
}

impl Model for Unrolled {
    ghost use Rattle.unroll_cnf.specs.Made.{Streams, IsGrid};

    ghost Value = { Streams };

    ghost view = { λ it. record {
      formula = it.maker;
      edges = it.edges;
      instants = it.instants;
      words = it.words;
    } };

    ghost invariant = { λ it. IsGrid it.edges it.instants it.words };
}

impl Unrolled {
    /// The word of an edge at an instant, from 0. The edge is one of the network's, and the instant
    /// below `instants`. Constant time.
    pub fn word(&self, e: EdgeId, t: u32) -> &Word
        requires edge { e.0 < self.now.edges }
        requires instant { t < self.now.instants }
        ensures { result.now ≡ word_at self.now.words t e.0 }
    {
        &self.words.as_slice()[t as usize].as_slice()[e.0 as usize]
    }

    /// How many instants there are. Constant time.
    pub fn instants(&self) -> u32
        ensures { result ≡ self.now.instants }
    {
        self.instants
    }

    /// The maker of the formula. Constant time.
    pub fn maker(&self) -> &Maker
        ensures { result.now ≡ self.now.formula }
    {
        &self.maker
    }
}
