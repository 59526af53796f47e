//! Rule 0: what the scheduler says of a job.

ghost use Rattle.std.specs.Prelude.{◌≡◌, IfOk, IsOkUnless, None};
ghost use Rattle.fleet_tree.specs.Trees.{RunFlushes};
ghost use Rattle.fleet_jobs.specs.Specs.{spec_of};
ghost use Rattle.fleet_gates.specs.Rules.{asked_last, rule_number};
ghost use Rattle.fleet_gates.specs.Shown.{accepted_on};

use crate::Rule;
use fleet_book::CompactorStateView;
use fleet_jobs::CompactionSpec;
use fleet_rows::SlateDBError;
use fleet_sched::CompactionScheduler;
use std::alloc::Global;

/// Rule 0 if the scheduler refuses the job on this view, or None if it accepts it.
pub fn scheduler_rule(
    alloc: Global,
    scheduler: &(dyn CompactionScheduler + Send + Sync),
    view: &CompactorStateView,
    spec: &CompactionSpec,
) -> Result<Option<Rule>, SlateDBError>
    ensures rule { (flushes : RunFlushes) → IfOk result (λ rule. rule_number rule ≡ asked_last
        (accepted_on flushes view.now (answers scheduler.now) (spec_of spec.now)) None) }
    ensures memory { IsOkUnless result SlateDBError.Memory }
{
    if accepts(alloc, scheduler, view, spec)? {
        Ok(None)
    } else {
        Ok(Some(Rule::Scheduler))
    }
}

// Whether the scheduler accepts the job.
fn accepts(
    alloc: Global,
    scheduler: &(dyn CompactionScheduler + Send + Sync),
    view: &CompactorStateView,
    spec: &CompactionSpec,
) -> Result<bool, SlateDBError>
    ensures accepted { (flushes : RunFlushes) → IfOk result (λ accepted. accepted
        ≡ accepted_on flushes view.now (answers scheduler.now) (spec_of spec.now)) }
    ensures memory { IsOkUnless result SlateDBError.Memory }
{
    match scheduler.validate(alloc, view, spec) {
        Ok(()) => Ok(true),
        Err(error) => match error {
            SlateDBError::InvalidCompaction => Ok(false),
            error => Err(error),
        },
    }
}
