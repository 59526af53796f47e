//! What a poll asks the scheduler about what it has reached.

ghost use Rattle.std.specs.Prelude.{◌≡◌, map, IfOk, IsOkUnless};
ghost use Rattle.fleet_tree.specs.Trees.{RunFlushes};
ghost use Rattle.fleet_jobs.specs.Specs.{spec_of};
ghost use Rattle.fleet_sched.specs.Views.{view_of};
ghost use Rattle.fleet_poll.specs.Shown.{open_view};

use fleet_book::{CompactionSpec, CompactorState};
use fleet_rows::SlateDBError;
use fleet_sched::CompactionScheduler;
use std::alloc::Global;

// The jobs that the scheduler proposes on what it is shown of this state.
pub(crate) fn all_proposals(
    alloc: Global,
    scheduler: &(dyn CompactionScheduler + Send + Sync),
    state: &CompactorState,
) -> Result<Vec<CompactionSpec>, SlateDBError>
    ensures specs { (flushes : RunFlushes) → IfOk result (λ specs. map spec_of specs.items
        ≡ (answers scheduler.now).propose (view_of flushes (open_view state.now))) }
    ensures memory { IsOkUnless result SlateDBError.Memory }
{
    let view = state.view(alloc)?;
    scheduler.propose(alloc, &view)
}
