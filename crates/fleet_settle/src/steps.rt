//! The steps of a settle line.

ghost use Rattle.std.specs.Prelude.{◌≡◌, ◌≤◌, [], IfOk, IsOkUnless, OnOk, true};
ghost use Rattle.std.specs.List.{All};
ghost use Rattle.fleet_rows.specs.declared.errors.SlateDBError.TheVariants as SlateDBError;
ghost use Rattle.fleet_text.specs.Lines.{line_of};
ghost use Rattle.script_model.specs.Follows.{runs_one_course};
ghost use Rattle.script_model.specs.Lines.Settles as settles;
ghost use Rattle.script_model.specs.Script.{IsInBounds};
ghost use Rattle.fleet_lines.specs.Fleets.{IsServing, state_of};
ghost use Rattle.fleet_settle.specs.Steps.{FinishesEach, Stepped, inputs_of};

use fleet_fold::MergeOperator;
use fleet_lines::Fleet;
use fleet_rows::SlateDBError;
use fleet_sched::CompactionScheduler;
use fleet_text::{Line, Reply};
use std::thread::Threads;

// Whether the reply is not a refusal.
fn is_ok(reply: &Reply) -> bool
    ensures { result ≡ settles.is_ok reply.now }
{
    reply.as_slice().starts_with("ok".as_bytes())
}

/// Runs the line as a step of the line with this number. Gives the reply if the step is refused.
pub(crate) fn step<R: Threads + Sync, O: MergeOperator>(
    fleet: &mut Fleet,
    rt: &R,
    operator: &O,
    scheduler: &(dyn CompactionScheduler + Send + Sync),
    number: u64,
    line: Line,
) -> Result<Option<Reply>, SlateDBError>
    requires serving { IsServing (O.merged (O.settings operator.now)) fleet.old }
    requires bounds { IsInBounds (line_of line) }
    requires kind { runs_one_course (line_of line) ≡ true }
    ensures step { IfOk result (Stepped
        (inputs_of (O.merged (O.settings operator.now)) (answers scheduler.now))
        number (line_of line) (state_of fleet.old) (state_of fleet.new)) }
    ensures serving { OnOk result (IsServing (O.merged (O.settings operator.now)) fleet.new) }
    ensures memory { IsOkUnless result SlateDBError.Memory }
{
    let reply = fleet.serve(rt, operator, scheduler, number, line)?;
    if is_ok(&reply) {
        Ok(None)
    } else {
        Ok(Some(reply))
    }
}

/// The worker finishes these jobs in their order. Gives the reply of a finish that is refused.
pub(crate) fn finish_jobs<R: Threads + Sync, O: MergeOperator>(
    fleet: &mut Fleet,
    rt: &R,
    operator: &O,
    scheduler: &(dyn CompactionScheduler + Send + Sync),
    number: u64,
    worker: u64,
    jobs: &[u64],
) -> Result<Option<Reply>, SlateDBError>
    requires serving { IsServing (O.merged (O.settings operator.now)) fleet.old }
    requires counted { All (λ job. 1 ≤ job) jobs.now }
    ensures finishes { IfOk result (FinishesEach
        (inputs_of (O.merged (O.settings operator.now)) (answers scheduler.now))
        number worker jobs.now (state_of fleet.old) [] (state_of fleet.new)) }
    ensures serving { OnOk result (IsServing (O.merged (O.settings operator.now)) fleet.new) }
    ensures memory { IsOkUnless result SlateDBError.Memory }
{
    'jobs: for job in jobs {
        let line = Line::Finish { worker, job: *job };
        let refused = step(fleet, rt, operator, scheduler, number, line)?;
        if refused.is_some() {
            return Ok(refused);
        }
    }
    Ok(None)
}
