//! One clause under the trail.
ghost use Rattle.std.specs.Prelude.{◌≡◌, IsTrue};
ghost use Rattle.cnf_form.specs.Lits.{below};
ghost use Rattle.proof_check.specs.Check.{open_lits};
ghost use Rattle.sat_core.specs.Passes.{look_of};
ghost use Rattle.sat_core.specs.Solving.{entries_of, vars_of};
ghost use Rattle.sat_core.specs.Trail.{lits, is_false};

use crate::trail::Trail;
use cnf_form::Lit;

/// How many literals of a clause aren't false: none, one, or more.
#[derive(Clone, Copy, Debug, PartialEq, Eq)]
pub(crate) enum Standing {
    Closed,
    One(Lit),
    Many,
}

/// Looks at a clause. The cost is linear in its literals.
#[tactic(auto, using(crate::proofs::Opens::looks))]
pub(crate) fn look(trail: &Trail, clause: &[Lit]) -> Standing
    requires { IsTrue (below (vars_of trail.now) clause.now) }
    ensures { result ≡ look_of (open_lits (is_false (lits (entries_of trail.now))) clause.now) }
{
    let mut found = None;
    for lit in clause {
        if !trail.is_set(lit.negated()) {
            if found.is_some() {
                return Standing::Many;
            }
            found = Some(*lit);
        }
    }
    match found {
        Some(lit) => Standing::One(lit),
        None => Standing::Closed,
    }
}
