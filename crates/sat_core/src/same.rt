//! Whether two literals are one.
ghost use Rattle.std.specs.Prelude.{◌≡◌};
ghost use Rattle.cnf_form.specs.Lits.{same};

use cnf_form::Lit;

#[tactic(auto, unfolding(cnf_form::specs::Lits::same))]
pub(crate) fn is_same(lit: Lit, other: Lit) -> bool
    ensures { result ≡ same lit other }
{
    lit.var == other.var && lit.positive == other.positive
}
