//! What holds of the formula of an unrolled network.
ghost use Rattle.unroll_cnf.specs.Laws.{ModelsAreRuns, RowsHaveModels};

/// The assignments that satisfy the formula are the runs of the network: in each one the words of
/// the edges are the run of the words of the inputs, and for each list of rows that fit there is
/// one. Does nothing: its clauses are the law.
pub fn models_are_runs()
    ensures runs { ModelsAreRuns }
    ensures models { RowsHaveModels }
{}
