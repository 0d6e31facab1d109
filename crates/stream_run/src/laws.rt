ghost use Rattle.stream_run.specs.Laws.{SomeEdgeIsReady, SameFrame, CausalListIsReady, FullListFinishes};
ghost use Rattle.stream_run.specs.Laws.{KeptByAsserts, OneKept};

/// In a network without a cycle an open instant that isn't finished has a ready edge. Does nothing:
/// its clause is the law.
pub fn some_edge_is_ready()
    ensures { SomeEdgeIsReady }
{}

/// Over the same inputs the last ended instant of a firing, in whatever order its edges were fired,
/// has the frame that the interpreter's step gives. Does nothing: its clause is the law.
pub fn same_frame()
    ensures { SameFrame }
{}

/// In an instant that began each edge of a causal list is ready once those before it are fired, and
/// the instant is finished once all edges of a full one are. Does nothing: its clauses are the law.
pub fn causal_list_fires()
    ensures ready { CausalListIsReady }
    ensures finished { FullListFinishes }
{}

/// What is kept of inputs ends before the first instant at which an assertion fails, and is one
/// number. Does nothing: its clauses are the law.
pub fn kept_by_asserts()
    ensures first { KeptByAsserts }
    ensures only { OneKept }
{}
