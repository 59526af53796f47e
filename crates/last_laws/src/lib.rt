//! Laws on sweeps, scans and settle lines. Each function has an empty body, and its clause states a
//! law about every run of lines from a fresh fleet, or about what such lines reply.
#![tactic(auto)]

ghost use Rattle.last_laws.specs.Levels.{LevelLinesSettle, LevelsSettle, WeightsCount};
ghost use Rattle.last_laws.specs.Pages.{ScansResume};
ghost use Rattle.last_laws.specs.Rounds.{CountedRoundsSettle};
ghost use Rattle.last_laws.specs.ScanLines.{ScansAnswer};
ghost use Rattle.last_laws.specs.ScriptSweeps.{ScriptsSweepClean};
ghost use Rattle.last_laws.specs.Settling.{SettleLinesSettle};
ghost use Rattle.last_laws.specs.Weights.{PollsLighten, StepsLighten};
ghost use Rattle.last_laws.specs.WorkedSettling.{WorkedSettling};

/// A scan is refused below the horizon and before the tick. Each other scan prints the first
/// answers over the rows that were flushed into its segment and not drained. These are the answers
/// of reads, and the stored tables give the same.
pub fn scans_answer()
    ensures { ScansAnswer }
{}

/// A scan that stopped at its limit may be gone on with from the key that its reply names. The two
/// pages are together the page up to both limits: no key is skipped, and none comes twice.
pub fn scans_resume()
    ensures { ScansResume }
{}

/// The sweeps of a script leave no trace in its history, apart from the tables that they delete.
/// Without their entries, the history gives the same trees, jobs, live parties and attempts.
pub fn scripts_sweep_clean()
    ensures { ScriptsSweepClean }
{}

/// A flush weighs 2 and a run weighs 1. A step of a commit that makes one run of sources that
/// weigh at least 2 makes the trees lighter.
pub fn steps_lighten()
    ensures { StepsLighten }
{}

/// A poll makes the trees lighter by at least 1 for each join and each move, if the jobs that it
/// finds, and those that it adds, make runs of sources that weigh at least 2. So there are at most
/// as many joins and moves as the trees weigh.
pub fn polls_lighten()
    ensures { PollsLighten }
{}

/// If each round of a settle line that goes on lowers a count, a line of more rounds than the count
/// settles in at most one round more than the count, unless a step is refused.
pub fn counted_rounds_settle()
    ensures { CountedRoundsSettle }
{}

/// A settle line of enough rounds settles, if its scheduler is settling and no step is refused. The
/// rounds are enough if they are more than the trees weigh: twice the flushes and the runs. By then
/// no job is active, and each tree is within the sizes of the scheduler.
pub fn settle_lines_settle()
    ensures { SettleLinesSettle }
{}

/// The trees weigh twice their flushes and their runs.
pub fn weights_count()
    ensures { WeightsCount }
{}

/// The levelled scheduler is settling: each job that it proposes makes the trees lighter, and it
/// rests beside no jobs only where each tree is within its sizes. A poll refuses none of its jobs,
/// unless they make the run 4,294,967,295.
pub fn levels_settle()
    ensures { LevelsSettle }
{}

/// With the levelled scheduler, a settle line of more rounds than twice the flushes and the runs
/// settles, if no step is refused. By then no job is active, and each tree is within its sizes.
pub fn level_lines_settle()
    ensures { LevelLinesSettle }
{}

/// A settle line with the levelled scheduler that joins two flushes and then two runs. So the
/// premises of its law can be met.
pub fn a_worked_settle_line()
    ensures { WorkedSettling }
{}
