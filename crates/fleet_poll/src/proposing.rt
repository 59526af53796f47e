//! Step 3 of a poll: what the scheduler proposes.

ghost use Rattle.std.specs.Prelude.{◌≡◌, ◌-◌, [], ◌∷◌, count_by, map, IfOk, IsOkUnless};
ghost use Rattle.fleet_model.specs.Jobs.{Running, has_status};
ghost use Rattle.fleet_model.specs.Work.Polls.{proposals};
ghost use Rattle.fleet_model.specs.Work.PollStates.{PollInput};
ghost use Rattle.fleet_tree.specs.Trees.{RunFlushes};
ghost use Rattle.fleet_jobs.specs.Jobs.{job_of, jobs_of};
ghost use Rattle.fleet_jobs.specs.Specs.{spec_of};
ghost use Rattle.fleet_poll.specs.Polls.{poll_of};
ghost use Rattle.fleet_poll.specs.Seen.{Sees};

use crate::Poll;
use crate::asking::all_proposals;
use fleet_book::{Compaction, CompactionSpec, CompactionStatus, VersionedCompactions};
use fleet_rows::SlateDBError;
use fleet_sched::{CompactionScheduler, CompactorOptions};
use std::alloc::Global;

impl Poll {
    /// What the scheduler proposes on what the poll has reached, as many jobs as the Running ones
    /// leave room for. An id has to be drawn for each, and `add_drawn` then adds them.
    pub fn proposals(
        &self,
        alloc: Global,
        scheduler: &(dyn CompactionScheduler + Send + Sync),
        options: &CompactorOptions,
    ) -> Result<Vec<CompactionSpec>, SlateDBError>
        ensures proposals { (flushes : RunFlushes) (input : PollInput)
            → Sees input (answers scheduler.now) self.now.state
            → input.options.concurrent ≡ options.now.max_concurrent_compactions
            → IfOk result (λ specs. map spec_of specs.items
            ≡ proposals input (poll_of flushes self.now)) }
        ensures memory { IsOkUnless result SlateDBError.Memory }
    {
        let room = room_for(self.state.compactions(), options.max_concurrent_compactions);
        let mut specs = all_proposals(alloc, scheduler, &self.state)?;
        specs.truncate(room as usize);
        Ok(specs)
    }
}

// How many of this many jobs at once the Running ones leave.
fn room_for(records: &VersionedCompactions, most: u64) -> u64
    ensures { result
        ≡ most - count_by (has_status Running) (jobs_of records.now.compactions.jobs) }
{
    let mut room = most;
    'jobs: for job in records.recent_compactions() {
        room = room_beside(room, job);
    }
    room
}

// What the job leaves of this room.
fn room_beside(room: u64, job: &Compaction) -> u64
    ensures { result ≡ room - count_by (has_status Running) (job_of job.now ∷ []) }
{
    if job.status() == CompactionStatus::Running {
        room.saturating_sub(1)
    } else {
        room
    }
}
