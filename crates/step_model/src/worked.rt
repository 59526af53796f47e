//! Worked examples of steps. Each function has an empty body, and its clauses state the calls that
//! a step makes.

ghost use Rattle.std.specs.Prelude.{None, Some, true};
ghost use Rattle.step_model.specs.Worked.{Commits, Fences, MergesUpToWatermark, Starts};
ghost use Rattle.step_model.specs.Worked.{StopsStruck, merged_root, polled_end, started_end};

/// A coordinator starts over a fresh store. The definition `Starts` states its calls and its
/// answer.
pub fn a_start()
    ensures { Starts started_end }
{}

/// Three coordinators poll over a store with one Compacted job. The first has the stored epoch, and
/// the second an older epoch. A fault strikes the third call of the third one.
pub fn polls()
    ensures commits { Commits (polled_end 1 None) }
    ensures fenced { Fences (polled_end 0 None) }
    ensures struck { StopsStruck (polled_end 1 (Some (record { k = 3; stands = true }))) }
{}

/// A coordinator merges a stored tree into its local one. The stored flushes that its own job took
/// before do not come back.
pub fn a_merge()
    ensures { MergesUpToWatermark merged_root }
{}
