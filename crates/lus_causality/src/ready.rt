ghost use Rattle.std.specs.Prelude.{◌≡◌, ◌≤◌, [], ◌∷◌, ℕ, IfSome, IfNone, OnOk};
ghost use Rattle.lus_causality.specs.Sets.{IsAdded, IsTaken};

use cov_base::Memory;
use op_network::EdgeId;
use std::alloc::Global;
use std::collections::BTreeSet;
use std::marker::Model;

/// The edges that can be taken next.
#[derive(Drop)]
pub(crate) struct Ready {
    edges: BTreeSet<u32>,
}

impl Model for Ready {
    ghost use Rattle.std.specs.Prelude.{ℕ, List as Seq};
    ghost use Rattle.std.specs.Coded.{coded_list, coded_ℕ};

    ghost Value = { Seq ℕ };

    ghost coded = { coded_list coded_ℕ };

    ghost view = { λ it. it.edges.keys };
}

impl Ready {
    /// No edge.
    pub(crate) fn new(alloc: Global) -> Ready
        ensures { result ≡ [] }
    {
        Ready {
            edges: BTreeSet::new(alloc),
        }
    }

    /// Adds an edge, if it isn't there. Logarithmic.
    #[tactic(auto, using(crate::proofs::Members::is_added))]
    pub(crate) fn insert(&mut self, e: EdgeId) -> Result<(), Memory>
        ensures { OnOk result (IsAdded self.old e.0 self.new) }
    {
        match self.edges.insert(e.0) {
            Ok(_) => Ok(()),
            Err(_) => Err(Memory),
        }
    }

    /// Takes the least edge. Logarithmic.
    #[tactic(auto, using(crate::proofs::Members::is_taken))]
    pub(crate) fn take_least(&mut self) -> Option<EdgeId>
        ensures some { IfSome result (λ e. IsTaken self.old e.0 self.new) }
        ensures none { IfNone result (self.old ≡ []) }
    {
        let e = self.edges.pop_first()?;
        Some(EdgeId(e))
    }
}
