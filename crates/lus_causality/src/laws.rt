ghost use Rattle.lus_causality.specs.Laws.{FramesHaveTypes, OneRun, OneSequence, RunOfPrefix, SomeRun};

/// Without a cycle each list of inputs has exactly one run. Does nothing: its clauses are the law.
pub fn one_run()
    ensures some { SomeRun }
    ensures only { OneRun }
{}

/// Without a cycle each frame of a run over rows that fit has for each edge a value of its type.
/// Does nothing: its clause is the law.
pub fn frames_have_types()
    ensures { FramesHaveTypes }
{}

/// The run of a prefix of the inputs is the prefix of the run. Does nothing: its clause is the law.
pub fn run_of_prefix()
    ensures { RunOfPrefix }
{}

/// A network has at most one sequence. Does nothing: its clause is the law.
pub fn one_sequence()
    ensures { OneSequence }
{}
