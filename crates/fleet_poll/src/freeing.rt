//! Step 1 of a poll: stale jobs wait for a worker again.

ghost use Rattle.std.specs.Prelude.{◌≡◌, ◌++◌, [], ◌∷◌, filter, map, IfOk, IsOkUnless, OnOk};
ghost use Rattle.std.specs.Option.{option_copied};
ghost use Rattle.std.specs.Prelude.{option_map};
ghost use Rattle.fleet_model.specs.Jobs.{ids, is_overdue, is_stale};
ghost use Rattle.fleet_model.specs.Work.Polls.{free_stale};
ghost use Rattle.fleet_model.specs.Work.PollStates.{PollInput};
ghost use Rattle.fleet_tree.specs.Trees.{RunFlushes};
ghost use Rattle.fleet_jobs.specs.Jobs.{job_of, jobs_of};
ghost use Rattle.fleet_jobs.specs.Workers.{lease_of};
ghost use Rattle.fleet_book.specs.Records.{AreRising};
ghost use Rattle.fleet_book.specs.States.{own_jobs};
ghost use Rattle.fleet_poll.specs.Polls.{HasSameObjects, changed_record, poll_of, waiting_record};

use crate::Poll;
use fleet_book::{Compaction, CompactionStatus, CompactorState, VersionedCompactions, WorkerSpec};
use fleet_rows::{JobList, SlateDBError, Ulid};
use fleet_sched::CompactorOptions;
use std::alloc::Global;

impl Poll {
    /// Frees the stale jobs, so that they wait for a worker again. A Running job is stale if it has
    /// no worker, or if its worker was not heard of for longer than the timeout.
    pub fn free_stale(
        &mut self,
        alloc: Global,
        options: &CompactorOptions,
        moment: u64,
    ) -> Result<(), SlateDBError>
        ensures poll { (flushes : RunFlushes) (input : PollInput)
            → input.options.timeout ≡ options.now.worker_heartbeat_timeout_ms
            → input.moment ≡ moment
            → OnOk result (poll_of flushes self.new ≡ free_stale input (poll_of flushes self.old)) }
        ensures jobs { OnOk result (own_jobs self.new.state
            ≡ map (changed_record waiting_record self.new.freed) (own_jobs self.old.state)) }
        ensures same { OnOk result (HasSameObjects self.old.state self.new.state) }
        ensures lost { OnOk result (self.new.lost ≡ self.old.lost) }
        ensures memory { IsOkUnless result SlateDBError.Memory }
    {
        let timeout = options.worker_heartbeat_timeout_ms;
        let stale = stale_jobs(alloc, self.state.compactions(), timeout, moment)?;
        free_jobs(&mut self.state, stale.as_slice())?;
        self.freed = stale;
        Ok(())
    }
}

// The ids of the stale jobs.
fn stale_jobs(
    alloc: Global,
    records: &VersionedCompactions,
    timeout: u64,
    moment: u64,
) -> Result<JobList, SlateDBError>
    ensures stale { IfOk result (λ stale. stale
        ≡ ids (filter (is_stale timeout moment) (jobs_of records.now.compactions.jobs))) }
    ensures memory { IsOkUnless result SlateDBError.Memory }
{
    let mut stale = JobList::new(alloc);
    'jobs: for job in records.recent_compactions() {
        add_stale(&mut stale, job, timeout, moment)?;
    }
    Ok(stale)
}

// Adds the id of the job, if it is stale.
fn add_stale(
    stale: &mut JobList,
    job: &Compaction,
    timeout: u64,
    moment: u64,
) -> Result<(), SlateDBError>
    ensures ok { OnOk result (stale.new
        ≡ stale.old ++ ids (filter (is_stale timeout moment) (job_of job.now ∷ []))) }
    ensures memory { IsOkUnless result SlateDBError.Memory }
{
    if is_stale(job, timeout, moment) {
        stale.push(job.id())?;
    }
    Ok(())
}

fn is_stale(job: &Compaction, timeout: u64, moment: u64) -> bool
    ensures { result ≡ is_stale timeout moment (job_of job.now) }
{
    job.status() == CompactionStatus::Running && is_overdue(job.worker(), timeout, moment)
}

// Whether more than the timeout has passed since the last heartbeat, or there is no worker.
fn is_overdue(worker: Option<&WorkerSpec>, timeout: u64, moment: u64) -> bool
    ensures { result
        ≡ is_overdue timeout moment (option_map lease_of (option_copied worker.entry)) }
{
    match worker {
        Some(worker) => timeout < moment.saturating_sub(worker.last_heartbeat_ms),
        None => true,
    }
}

// Makes these jobs wait for a worker.
fn free_jobs(state: &mut CompactorState, jobs: &[Ulid]) -> Result<(), SlateDBError>
    ensures jobs { OnOk result
        (own_jobs state.new ≡ map (changed_record waiting_record jobs.now) (own_jobs state.old)) }
    ensures same { OnOk result (HasSameObjects state.old state.new) }
    ensures memory { IsOkUnless result SlateDBError.Memory }
{
    'jobs: for job in jobs {
        free_job(state, *job)?;
    }
    Ok(())
}

// Makes the job wait for a worker, if it is there.
fn free_job(state: &mut CompactorState, id: Ulid) -> Result<(), SlateDBError>
    ensures jobs { OnOk result
        (own_jobs state.new ≡ map (changed_record waiting_record (id ∷ [])) (own_jobs state.old)) }
    ensures same { OnOk result (HasSameObjects state.old state.new) }
    ensures memory { IsOkUnless result SlateDBError.Memory }
{
    know_rising(state.compactions());
    let Some(job) = state.compactions().compactions().get(&id) else {
        return Ok(());
    };
    let mut freed = job.clone()?;
    freed.set_status(CompactionStatus::Scheduled);
    freed.set_worker(None);
    state.set_compaction(freed);
    Ok(())
}

// The ids of the jobs rise.
pub(crate) fn know_rising(records: &VersionedCompactions)
    ensures { AreRising records.now.compactions.jobs }
{
    let _jobs = records.recent_compactions();
}
