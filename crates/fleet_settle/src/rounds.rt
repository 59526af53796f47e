//! The rounds of a settle line.

ghost use Rattle.std.specs.Prelude.{◌≡◌, ◌+◌, ℕ, suc, IfOk, IsOkUnless, OnOk, true};
ghost use Rattle.fleet_rows.specs.declared.errors.SlateDBError.TheVariants as SlateDBError;
ghost use Rattle.script_model.specs.Lines.Settles.{BeforePoll, HasPolled, SettleRun, has_active};
ghost use Rattle.fleet_lines.specs.Fleets.{IsServing, state_of};
ghost use Rattle.fleet_settle.specs.Steps.{Goes, inputs_of};

use crate::steps::{finish_jobs, step};
use fleet_fold::MergeOperator;
use fleet_lines::Fleet;
use fleet_rows::SlateDBError;
use fleet_sched::CompactionScheduler;
use fleet_text::{Line, Reply, answers};
use std::thread::Threads;

// The worker claims jobs and finishes all that it runs. Gives the reply of a step that is refused.
fn work<R: Threads + Sync, O: MergeOperator>(
    fleet: &mut Fleet,
    rt: &R,
    operator: &O,
    scheduler: &(dyn CompactionScheduler + Send + Sync),
    number: u64,
    worker: u64,
) -> Result<Option<Reply>, SlateDBError>
    requires serving { IsServing (O.merged (O.settings operator.now)) fleet.old }
    requires active { has_active (state_of fleet.old) ≡ true }
    ensures works { (coordinator left begun : ℕ) → IfOk result (Goes
        (inputs_of (O.merged (O.settings operator.now)) (answers scheduler.now))
        number coordinator worker (HasPolled left begun) (state_of fleet.old)
        (BeforePoll left begun) (state_of fleet.new)) }
    ensures serving { OnOk result (IsServing (O.merged (O.settings operator.now)) fleet.new) }
    ensures memory { IsOkUnless result SlateDBError.Memory }
{
    let line = Line::Claim { worker };
    let refused = step(fleet, rt, operator, scheduler, number, line)?;
    if refused.is_some() {
        return Ok(refused);
    }
    let jobs = fleet.jobs_run(worker)?;
    finish_jobs(fleet, rt, operator, scheduler, number, worker, &jobs)
}

// What follows the poll of this round, up to the next round. Gives the reply of the line if it has
// settled, or that of a step that is refused.
fn after_poll<R: Threads + Sync, O: MergeOperator>(
    fleet: &mut Fleet,
    rt: &R,
    operator: &O,
    scheduler: &(dyn CompactionScheduler + Send + Sync),
    number: u64,
    coordinator: u64,
    worker: u64,
    round: u64,
) -> Result<Option<Reply>, SlateDBError>
    requires serving { IsServing (O.merged (O.settings operator.now)) fleet.old }
    ensures goes { (left : ℕ) → IfOk result (Goes
        (inputs_of (O.merged (O.settings operator.now)) (answers scheduler.now))
        number coordinator worker (HasPolled left round) (state_of fleet.old)
        (BeforePoll left round) (state_of fleet.new)) }
    ensures serving { OnOk result (IsServing (O.merged (O.settings operator.now)) fleet.new) }
    ensures memory { IsOkUnless result SlateDBError.Memory }
{
    if fleet.has_active_jobs() {
        return work(fleet, rt, operator, scheduler, number, worker);
    }
    if fleet.has_added(coordinator) {
        return Ok(None);
    }
    Ok(Some(answers::settled(fleet.allocator(), round)?))
}

// Runs the round with this number, counted from 1. Gives the reply of the line if it has settled,
// or that of a step that is refused.
fn one_round<R: Threads + Sync, O: MergeOperator>(
    fleet: &mut Fleet,
    rt: &R,
    operator: &O,
    scheduler: &(dyn CompactionScheduler + Send + Sync),
    number: u64,
    coordinator: u64,
    worker: u64,
    round: u64,
) -> Result<Option<Reply>, SlateDBError>
    requires serving { IsServing (O.merged (O.settings operator.now)) fleet.old }
    ensures goes { (left begun : ℕ) → begun + 1 ≡ round → IfOk result (Goes
        (inputs_of (O.merged (O.settings operator.now)) (answers scheduler.now))
        number coordinator worker (BeforePoll (suc left) begun) (state_of fleet.old)
        (BeforePoll left round) (state_of fleet.new)) }
    ensures serving { OnOk result (IsServing (O.merged (O.settings operator.now)) fleet.new) }
    ensures memory { IsOkUnless result SlateDBError.Memory }
{
    let line = Line::Poll { coordinator };
    let refused = step(fleet, rt, operator, scheduler, number, line)?;
    if refused.is_some() {
        return Ok(refused);
    }
    after_poll(
        fleet,
        rt,
        operator,
        scheduler,
        number,
        coordinator,
        worker,
        round,
    )
}

/// Runs rounds until the line settles, a step is refused, or so many rounds were run. Both parties
/// are live.
pub(crate) fn run_rounds<R: Threads + Sync, O: MergeOperator>(
    fleet: &mut Fleet,
    rt: &R,
    operator: &O,
    scheduler: &(dyn CompactionScheduler + Send + Sync),
    number: u64,
    coordinator: u64,
    worker: u64,
    rounds: u64,
) -> Result<Reply, SlateDBError>
    requires serving { IsServing (O.merged (O.settings operator.now)) fleet.old }
    ensures ran { IfOk result (λ answer. SettleRun
        (inputs_of (O.merged (O.settings operator.now)) (answers scheduler.now))
        number coordinator worker rounds (state_of fleet.old) answer (state_of fleet.new)) }
    ensures serving { OnOk result (IsServing (O.merged (O.settings operator.now)) fleet.new) }
    ensures memory { IsOkUnless result SlateDBError.Memory }
{
    'rounds: for begun in 0..rounds {
        let round = begun + 1;
        let ended = one_round(
            fleet,
            rt,
            operator,
            scheduler,
            number,
            coordinator,
            worker,
            round,
        )?;
        if let Some(reply) = ended {
            return Ok(reply);
        }
    }
    answers::rounds_taken(fleet.allocator(), rounds)
}
