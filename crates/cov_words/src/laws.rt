ghost use Rattle.cov_words.specs.Jobs.{AreDetermined, AreInRange};

/// `clap`'s statement determines its answer to each command line: it never leaves open whether the
/// line is taken. Does nothing: its clause is the law.
#[tactic(auto, using(crate::proofs::Simple::simple))]
pub fn answers_are_determined()
    ensures { AreDetermined }
{}

/// The numbers of each job that a command line names are in their ranges. Does nothing: its clause
/// is the law.
pub fn jobs_are_in_range()
    ensures { AreInRange }
{}
