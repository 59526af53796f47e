//! The line settle, and each line of a script as one call.

ghost use Rattle.std.specs.Prelude.{◌≡◌, IfOk, IsOkUnless, OnOk, true};
ghost use Rattle.fleet_rows.specs.declared.errors.SlateDBError.TheVariants as SlateDBError;
ghost use Rattle.fleet_text.specs.Lines.{line_of};
ghost use Rattle.script_model.specs.Follows.{LineStep, SettleStep};
ghost use Rattle.script_model.specs.Grammars.{is_served};
ghost use Rattle.script_model.specs.Lines.Settles.{are_live};
ghost use Rattle.script_model.specs.Script.{IsInBounds};
ghost use Rattle.fleet_lines.specs.Fleets.{IsServing, state_of};
ghost use Rattle.fleet_settle.specs.Steps.{inputs_of};

use crate::rounds::run_rounds;
use fleet_fold::MergeOperator;
use fleet_lines::Fleet;
use fleet_rows::SlateDBError;
use fleet_sched::CompactionScheduler;
use fleet_text::{Line, Reply, answers};
use std::thread::Threads;

/// Runs a settle line with this number, counted from 1: rounds of a poll of the coordinator, a
/// claim of the worker, and finishes of all jobs that it runs. The line ends when a poll leaves
/// nothing to do, when a step is refused, or after so many rounds. Each step does what its line
/// alone would do.
///
/// If a party is not live, the reply says so, and nothing is run. After `Memory` some steps may
/// have been made, and the last one in part.
pub fn settle<R: Threads + Sync, O: MergeOperator>(
    fleet: &mut Fleet,
    rt: &R,
    operator: &O,
    scheduler: &(dyn CompactionScheduler + Send + Sync),
    number: u64,
    coordinator: u64,
    worker: u64,
    rounds: u64,
) -> Result<Reply, SlateDBError>
    requires serving { IsServing (O.merged (O.settings operator.now)) fleet.old }
    ensures ran { IfOk result (λ answer. SettleStep
        (are_live coordinator worker (state_of fleet.old))
        (inputs_of (O.merged (O.settings operator.now)) (answers scheduler.now))
        number (state_of fleet.old) coordinator worker rounds answer (state_of fleet.new)) }
    ensures serving { OnOk result (IsServing (O.merged (O.settings operator.now)) fleet.new) }
    ensures memory { IsOkUnless result SlateDBError.Memory }
{
    if !fleet.are_live(coordinator, worker) {
        return answers::no_such_party(fleet.allocator());
    }
    run_rounds(
        fleet,
        rt,
        operator,
        scheduler,
        number,
        coordinator,
        worker,
        rounds,
    )
}

/// Runs the line with this number, counted from 1, and gives its reply. A fault, a party that is
/// not live and a refused step are replies. After `Memory` the line's calls may have been made in
/// part, and the party that made them may be no longer live. A finish makes the tables of its
/// ranges as `fleet_exec::finish_ranges` does. The line is no together line.
pub fn serve_line<R: Threads + Sync, O: MergeOperator>(
    fleet: &mut Fleet,
    rt: &R,
    operator: &O,
    scheduler: &(dyn CompactionScheduler + Send + Sync),
    number: u64,
    line: Line,
) -> Result<Reply, SlateDBError>
    requires serving { IsServing (O.merged (O.settings operator.now)) fleet.old }
    requires bounds { IsInBounds (line_of line) }
    requires served { is_served (line_of line) ≡ true }
    ensures step { IfOk result (λ answer. LineStep
        (inputs_of (O.merged (O.settings operator.now)) (answers scheduler.now))
        number (state_of fleet.old) (line_of line) answer (state_of fleet.new)) }
    ensures serving { OnOk result (IsServing (O.merged (O.settings operator.now)) fleet.new) }
    ensures memory { IsOkUnless result SlateDBError.Memory }
{
    match line {
        Line::Settle {
            coordinator,
            worker,
            rounds,
        } => settle(
            fleet,
            rt,
            operator,
            scheduler,
            number,
            coordinator,
            worker,
            rounds,
        ),
        line => fleet.serve(rt, operator, scheduler, number, line),
    }
}
