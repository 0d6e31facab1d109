ghost use Rattle.std.specs.Prelude.{◌≡◌};
ghost use Rattle.dep_paths.specs.Duties.{IsWithinLimits};

use crate::path::{Condition, Obligation, Path};
use cov_base::List;
use std::marker::Model;

/// A plan: the paths of a network up to a length, its conditions, and the obligations that a suite
/// has to meet.
#[derive(Debug, Drop)]
pub struct Plan {
    length: u32,
    paths: List<Path>,
    conditions: List<Condition>,
    duties: List<Obligation>,
}

impl Model for Plan {
    ghost use Rattle.dep_paths.specs.Duties.{Planned, IsWithinLimits as IsWithin};

    ghost Value = { Planned };

    ghost view = { λ plan. record {
      length = plan.length;
      paths = plan.paths;
      conditions = plan.conditions;
      duties = plan.duties;
    } };

    ghost invariant = { λ plan. IsWithin (record {
      length = plan.length;
      paths = plan.paths;
      conditions = plan.conditions;
      duties = plan.duties;
    }) };
}

impl Plan {
    pub(crate) fn new(
        length: u32,
        paths: List<Path>,
        conditions: List<Condition>,
        duties: List<Obligation>,
    ) -> Plan
        requires { IsWithinLimits (record {
          length = length;
          paths = paths;
          conditions = conditions;
          duties = duties;
        }) }
        ensures { result
            ≡ record { length = length; paths = paths; conditions = conditions; duties = duties } }
    {
        Plan {
            length,
            paths,
            conditions,
            duties,
        }
    }

    /// The most edges that a path may have. Each plan is within its limits. In constant time, as
    /// the calls below.
    pub fn length(&self) -> u32
        ensures same { result ≡ self.now.length }
        ensures limits { IsWithinLimits self.now }
    {
        self.length
    }

    /// The complete paths of at most that many edges, in order.
    pub fn paths(&self) -> &[Path]
        ensures { result.now ≡ self.now.paths }
    {
        self.paths.as_slice()
    }

    /// The conditions, by edge and port.
    pub fn conditions(&self) -> &[Condition]
        ensures { result.now ≡ self.now.conditions }
    {
        self.conditions.as_slice()
    }

    /// The obligations, criterion by criterion: for basic coverage each path; for elementary
    /// conditions each path with true and then with false of its first edge; for multiple
    /// conditions each path with true and then with false of each edge on it; for observable MC/DC
    /// each condition with true and then with false. On a path only a Truth is asked for, and a
    /// path with none to ask for has one plain obligation instead.
    pub fn duties(&self) -> &[Obligation]
        ensures { result.now ≡ self.now.duties }
    {
        self.duties.as_slice()
    }
}
