//! What a search may be asked for.
ghost use Rattle.std.specs.Prelude.{◌≡◌};
ghost use Rattle.sat_core.specs.declared.limits.TheConstants.{MOST_BUDGET};

/// The greatest budget, as a number. Does nothing: its clause is the law.
pub fn numbers_of_budgets()
    ensures most { MOST_BUDGET ≡ 1000000000 }
{}
