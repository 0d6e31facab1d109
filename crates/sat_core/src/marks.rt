//! Marks at the places of the trail.
ghost use Rattle.std.specs.Prelude.{◌≡◌, ◌^◌, ◌<◌, ℕ, Some, length, IsTrue};
ghost use Rattle.cnf_form.specs.declared.lit.Lit.{Lit as Literal};
ghost use Rattle.cnf_form.specs.Lits.{below};
ghost use Rattle.sat_core.specs.Marks.{open_from, marked_at, skipped, AreMarked};
ghost use Rattle.sat_core.specs.Trail.{place_of};

use crate::same::is_same;
use cnf_form::Lit;

/// Marks the place of a literal that is false, and counts the marks from `from` on.
#[tactic(auto, using(crate::proofs::Marking::marks_of_places))]
fn mark_lit(places: &[Option<u32>], seen: &mut [bool], count: &mut usize, from: usize, lit: Lit)
    requires inside { lit.var < length places.now }
    requires fits { (k : ℕ) → place_of places.now lit ≡ Some k → k < length seen.old }
    requires few { length seen.old < 2 ^ 32 }
    requires count { count.old ≡ open_from from seen.old }
    ensures seen { seen.new ≡ marked_at (place_of places.now lit) seen.old }
    ensures count { count.new ≡ open_from from seen.new }
{
    match places[lit.var as usize] {
        Some(at) => {
            let at = at as usize;
            if !seen[at] {
                seen[at] = true;
                if at >= from {
                    *count += 1;
                }
            }
        }
        None => {}
    }
}

fn is_skipped(skip: Option<Lit>, lit: Lit) -> bool
    ensures { result ≡ skipped skip lit }
{
    match skip {
        Some(other) => is_same(lit, other),
        None => false,
    }
}

/// Marks the places of a clause's literals, but for one. The cost is linear in the literals.
pub(crate) fn mark_clause(
    places: &[Option<u32>],
    seen: &mut [bool],
    count: &mut usize,
    from: usize,
    lits: &[Lit],
    skip: Option<Lit>,
)
    requires inside { IsTrue (below (length places.now) lits.now) }
    requires fits { (x : Literal) (k : ℕ) → place_of places.now x ≡ Some k → k < length seen.old }
    requires few { length seen.old < 2 ^ 32 }
    requires count { count.old ≡ open_from from seen.old }
    ensures marks { AreMarked places.now lits.now skip seen.old seen.new }
    ensures count { count.new ≡ open_from from seen.new }
{
    for lit in lits {
        if !is_skipped(skip, *lit) {
            mark_lit(places, seen, count, from, *lit);
        }
    }
}
