//! What holds of the formula of a goal, and what it says of coverage.
ghost use Rattle.goal_cnf.specs.Laws.{GoalEncodes, HitsStandForInstants, ModelsMeetGoals};
ghost use Rattle.goal_cnf.specs.Laws.{ReachableIsCoverable};

/// The formula of a goal over `k` instants is satisfiable exactly where some rows of inputs that
/// fit, one or more and at most `k`, are admissible and meet the obligation at their last instant.
/// In each assignment that satisfies it the words are a run, and the hit of some instant is true;
/// where the hit of an instant is true, the rows up to it are admissible and meet the obligation at
/// that instant. There is a hit for each of the `k` instants. Does nothing: its clauses are the
/// law.
pub fn goal_encodes()
    ensures encodes { GoalEncodes }
    ensures models { ModelsMeetGoals }
    ensures hits { HitsStandForInstants }
{}

/// An obligation is reachable within `k` instants exactly where the run of some admissible rows of
/// inputs that fit, at most `k`, covers it, at whichever instant: one that is not reachable is
/// covered by no such rows. Does nothing: its clause is the law.
pub fn reachable_is_coverable()
    ensures { ReachableIsCoverable }
{}
