//! Which jobs a claim takes, and which it stops.

ghost use Rattle.std.specs.Prelude.{◌≡◌, ◌==◌, ◌-◌, ◌++◌, [], ◌∷◌, is_none, length, option_map, IfOk, IsOkUnless, OnOk};
ghost use Rattle.std.specs.List.{list_any};
ghost use Rattle.std.specs.Option.{option_copied};
ghost use Rattle.fleet_model.specs.Work.Claims.{has_no_cut, is_waiting, may_take};
ghost use Rattle.fleet_model.specs.Jobs.{contains, knows_cut};
ghost use Rattle.fleet_jobs.specs.Contexts.{context_of};
ghost use Rattle.fleet_jobs.specs.Jobs.{job_of};
ghost use Rattle.fleet_jobs.specs.Workers.{lease_of, release_of};
ghost use Rattle.fleet_claim.specs.Choices.{AreClaimed, AreStopped, is_stopped, is_taken, stopped_ids};

use fleet_jobs::{Compaction, CompactionContext, CompactionStatus, Release, WorkerSpec};
use fleet_rows::{JobList, SlateDBError, Ulid};
use std::alloc::Global;

fn is_free(worker: Option<&WorkerSpec>) -> bool
    ensures { result ≡ is_none (option_map lease_of (option_copied worker.entry)) }
{
    match worker {
        Some(_) => false,
        None => true,
    }
}

fn is_waiting(job: &Compaction) -> bool
    ensures { result ≡ is_waiting (job_of job.now) }
{
    matches!(job.status(), CompactionStatus::Scheduled) && is_free(job.worker())
}

fn knows_cut(release: Release) -> bool
    ensures { result ≡ knows_cut (release_of release) }
{
    match release {
        Release::One => false,
        Release::Two => true,
    }
}

// Whether there is no context, or the context has no cut.
fn has_no_cut(ctx: Option<&CompactionContext>) -> bool
    ensures { result ≡ has_no_cut (option_map context_of (option_copied ctx.entry)) }
{
    match ctx {
        Some(ctx) => !knows_cut(ctx.release()),
        None => true,
    }
}

fn may_take(release: Release, job: &Compaction) -> bool
    ensures { result ≡ may_take (release_of release) (job_of job.now) }
{
    knows_cut(release) || has_no_cut(job.ctx())
}

fn has(ids: &[Ulid], id: Ulid) -> bool
    ensures { result ≡ list_any (λ other. other == id) ids.now }
{
    ids.iter().any(|other| *other == id)
}

fn contains(ids: &[Ulid], id: Ulid) -> bool
    ensures { result ≡ contains ids.now id }
{
    has(ids, id)
}

// Whether a worker that runs these jobs takes the job, if it has a free slot.
fn is_taken(job: &Compaction, running: &[Ulid], release: Release) -> bool
    ensures { result ≡ is_taken running.now (release_of release) (job_of job.now) }
{
    is_waiting(job) && !contains(running, job.id()) && may_take(release, job)
}

fn free_slots(slots: u64, running: &[Ulid]) -> usize
    ensures { result ≡ slots - length running.now }
{
    slots.saturating_sub(running.len() as u64) as usize
}

/// The jobs that a worker of this release takes, which runs these jobs: the first waiting jobs that
/// it does not run and may take, at most as many as the slots that are free as the claim begins.
pub fn claimed_jobs(
    jobs: Vec<Compaction>,
    running: &[Ulid],
    release: Release,
    slots: u64,
) -> Vec<Compaction>
    ensures { AreClaimed slots running.now release jobs.items result.items }
{
    let mut taken = jobs;
    taken.retain(|job| is_taken(job, running, release));
    taken.truncate(free_slots(slots, running));
    taken
}

// Whether the job waits, although the worker runs it.
fn is_stopped(job: &Compaction, running: &[Ulid]) -> bool
    ensures { result ≡ is_stopped running.now (job_of job.now) }
{
    is_waiting(job) && contains(running, job.id())
}

// Adds the id of the job, if the claim stops it.
fn add_stopped(
    stopped: &mut Vec<Ulid>,
    job: &Compaction,
    running: &[Ulid],
) -> Result<(), SlateDBError>
    ensures ok { OnOk result (stopped.new.items
        ≡ stopped.old.items ++ stopped_ids running.now (job.now ∷ [])) }
    ensures memory { IsOkUnless result SlateDBError.Memory }
{
    if is_stopped(job, running) {
        stopped.push(job.id())?;
    }
    Ok(())
}

/// The jobs that wait although a worker runs them, among these jobs that it runs. Its claim stops
/// them.
pub fn stopped_jobs(
    alloc: Global,
    jobs: &[Compaction],
    running: &[Ulid],
) -> Result<JobList, SlateDBError>
    ensures jobs { IfOk result (AreStopped running.now jobs.now) }
    ensures memory { IsOkUnless result SlateDBError.Memory }
{
    let mut stopped = Vec::new(alloc);
    'jobs: for job in jobs {
        add_stopped(&mut stopped, job, running)?;
    }
    Ok(JobList::from_vec(stopped))
}
