//! The search, turn by turn.
ghost use Rattle.std.specs.Prelude.{◌≡◌, ◌+◌, ◌^◌, ◌<◌, [], length, IfOk, OnOk};
ghost use Rattle.sat_core.specs.Logs.{Ends, IsSearching};
ghost use Rattle.sat_core.specs.Solving.{vars_of, IsSolving};

use crate::decision::decision;
use crate::propagation::propagate;
use crate::trail::{Entry, Trail};
use crate::turn::turn;
use cnf_form::Clause;
use cov_base::{List, Memory};
use proof_check::ProofStep;
use sat_choose::Chooser;
use std::alloc::Global;

/// How the search ends: all variables are set, a clause is false with nothing decided, or the
/// budget is spent.
#[derive(Clone, Copy, Debug, PartialEq, Eq)]
pub(crate) enum Ending {
    Full,
    Stuck(usize),
    Spent,
}

pub(crate) fn search(
    alloc: Global,
    formula: &[Clause],
    budget: u64,
    log: &mut List<ProofStep>,
    trail: &mut Trail,
    chooser: &mut dyn Chooser,
) -> Result<Ending, Memory>
    requires solving { IsSolving formula.now log.old trail.old }
    requires empty { log.old ≡ [] }
    requires room { length formula.now + budget + 2 < 2 ^ 32 }
    requires size { size chooser.old ≡ vars_of trail.old }
    ensures searching { OnOk result
        (IsSearching formula.now log.new trail.new (vars_of trail.old) budget) }
    ensures ends { IfOk result (Ends formula.now budget log.new trail.new) }
{
    'turns: loop {
        match propagate(formula, log.as_slice(), trail)? {
            None => match trail.free_lit() {
                None => return Ok(Ending::Full),
                Some(free) => {
                    let lit = decision(chooser, trail, free);
                    trail.push(Entry { lit, reason: None })?;
                }
            },
            Some(at) => match trail.last_decision() {
                None => return Ok(Ending::Stuck(at)),
                Some(from) => {
                    if log.len() as u64 == budget {
                        return Ok(Ending::Spent);
                    }
                    turn(alloc, formula, log, trail, chooser, at, from)?;
                }
            },
        }
    }
}
