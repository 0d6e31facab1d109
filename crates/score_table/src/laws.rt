ghost use Rattle.std.specs.Prelude.{◌≡◌};
ghost use Rattle.dep_paths.specs.declared.path.Criterion.TheVariants.{Bc, Ecc, Mcc};
ghost use Rattle.score_table.specs.declared.limits.TheConstants.{MOST_INSTANTS, MOST_TESTS};
ghost use Rattle.score_table.specs.Laws.{FullScoreImplies, OneListOfRuns};

use dep_paths::criteria_imply;

/// Where multiple conditions are full elementary conditions are, and where these are, basic
/// coverage is. Does nothing: its clauses are the law.
pub fn full_scores_imply()
    ensures elementary { FullScoreImplies Mcc Ecc }
    ensures basic { FullScoreImplies Ecc Bc }
{
    criteria_imply();
}

/// The tests of a table have one list of runs. Does nothing: its clause is the law.
#[tactic(auto, using(crate::proofs::OneTestRun::one_list))]
pub fn one_list_of_runs()
    ensures { OneListOfRuns }
{}

/// How much a table keeps at most, as numbers. Does nothing: its clauses are the law.
pub fn numbers_of_tables()
    ensures tests { MOST_TESTS ≡ 210000 }
    ensures instants { MOST_INSTANTS ≡ 7400000 }
{}
