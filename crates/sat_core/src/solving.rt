ghost use Rattle.std.specs.Prelude.{◌≡◌, ◌≤◌, IfOk};
ghost use Rattle.sat_core.specs.Verdicts.{IsVerdict};

use crate::bits::bits_of;
use crate::limits::MOST_BUDGET;
use crate::refutation::last_step;
use crate::search::{Ending, search};
use crate::trail::Trail;
use crate::verdict::Verdict;
use cnf_form::Formula;
use cov_base::{List, Memory};
use sat_choose::{Chooser, Fixed};
use std::alloc::Global;

/// Searches for an assignment that satisfies a formula, and learns at most `budget` clauses, which
/// is at most 1,000,000,000. Calls `begin` once, `pick` at each decision, and `learnt` at each
/// clause that it learns; where nothing is picked, or a variable that is set already, the least
/// variable that is free is set false. A conflict on propagated literals alone ends with `Refuted`;
/// any other conflict ends with `Spent` where `budget` clauses were learnt already. Answers
/// `Memory`, at any time, for want of it, also that of `begin`. Each literal that is set may take a
/// pass over all clauses, and each decision a walk over the variables; there may be exponentially
/// many of both.
pub fn solve(
    alloc: Global,
    formula: &Formula,
    budget: u64,
    chooser: &mut Box<dyn Chooser>,
) -> Result<Verdict, Memory>
    requires { budget ≤ MOST_BUDGET }
    ensures { IfOk result (IsVerdict formula.now budget) }
{
    solve_with(alloc, formula, budget, &mut **chooser)
}

/// As `solve`, with no chooser.
pub fn solve_plain(alloc: Global, formula: &Formula, budget: u64) -> Result<Verdict, Memory>
    requires { budget ≤ MOST_BUDGET }
    ensures { IfOk result (IsVerdict formula.now budget) }
{
    solve_with(alloc, formula, budget, &mut Fixed::new())
}

/// As `solve`, with a chooser that isn't in a box.
pub fn solve_with(
    alloc: Global,
    formula: &Formula,
    budget: u64,
    chooser: &mut dyn Chooser,
) -> Result<Verdict, Memory>
    requires { budget ≤ MOST_BUDGET }
    ensures { IfOk result (IsVerdict formula.now budget) }
{
    let vars = formula.vars();
    let clauses = formula.clauses();
    chooser.begin(vars)?;
    let mut log = List::new(alloc);
    let mut trail = Trail::new(alloc, vars)?;
    match search(alloc, clauses, budget, &mut log, &mut trail, chooser)? {
        Ending::Full => Ok(Verdict::Found(bits_of(alloc, vars, trail.entries())?)),
        Ending::Stuck(at) => {
            let last = last_step(alloc, clauses, log.as_slice(), &trail, at)?;
            log.add(last)?;
            Ok(Verdict::Refuted(log))
        }
        Ending::Spent => Ok(Verdict::Spent(log)),
    }
}
