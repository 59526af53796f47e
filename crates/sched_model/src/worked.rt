//! Worked examples of the schedulers. Each function has an empty body, and its clause states values
//! of definitions. The examples are in specs/Worked.antt.

ghost use Rattle.sched_model.specs.Worked.{
  AlikeRunsAreJoined,
  FlushesAreJoined,
  FlushesGoToLevels,
  RequestsAreAnswered,
  StretchesAreAccepted,
  WholeTreesAreMerged,
};

/// Four runs of one size are joined into the oldest of them. If that run is much larger, none are
/// joined.
pub fn alike_runs_are_joined()
    ensures { AlikeRunsAreJoined }
{}

/// The eight oldest of ten flushes make the first fresh run, and the four flushes of another
/// segment the next. If one job may be under way, only the first is proposed.
pub fn flushes_are_joined()
    ensures { FlushesAreJoined }
{}

/// The scheduler accepts a job of the oldest flush. It refuses one that leaves out a flush between
/// its sources, and one without sources.
pub fn stretches_are_accepted()
    ensures { StretchesAreAccepted }
{}

/// A spec gives itself. A segment without runs, or without a tree, gives nothing.
pub fn requests_are_answered()
    ensures { RequestsAreAnswered }
{}

/// All runs of a tree are merged into the lowest of them, wherever it stands. Trees without runs
/// give nothing to a request for all trees.
pub fn whole_trees_are_merged()
    ensures { WholeTreesAreMerged }
{}

/// The levelled scheduler takes all flushes into the newest run while that is small, and into a
/// fresh run otherwise. The oldest run is not held to a limit.
pub fn flushes_go_to_levels()
    ensures { FlushesGoToLevels }
{}
