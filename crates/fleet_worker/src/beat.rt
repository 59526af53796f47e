//! Heartbeats.

ghost use Rattle.std.specs.Prelude.{◌≡◌, ◌==◌, ◌&&◌, ◌∷◌, ◌++◌, [], map, IfOk, IsOkUnless, OnOk};
ghost use Rattle.std.specs.Option.{option_copied};
ghost use Rattle.fleet_model.specs.Work.Parties.{is_live};
ghost use Rattle.fleet_jobs.specs.Jobs.{jobs_of};
ghost use Rattle.fleet_worker.specs.Beats.{BeatenRecords, beaten_record, live_at, live_ids, lost_ids};
ghost use Rattle.fleet_store.specs.Records.{jobs_or_none};
ghost use Rattle.fleet_worker.specs.Workers.{attempt_of};

use crate::RunAttempt;
use crate::attempt::is_live;
use fleet_book::{Compactions, JobMap, VersionedCompactions};
use fleet_jobs::{Compaction, WorkerSpec};
use fleet_rows::{JobList, SlateDBError, Ulid};
use fleet_store::RecordChange;
use std::alloc::Global;

/// What a heartbeat did: the jobs whose leases it renewed, and the jobs that the worker stops,
/// since it owns them no longer.
#[derive(Debug, Drop)]
pub struct BeatReport {
    pub beat: JobList,
    pub not_owner: JobList,
}

// A put of the records that renews leases.
#[derive(Drop)]
pub(crate) struct BeatPut {
    pub version: u64,
    pub value: Compactions,
    pub why: RecordChange,
}

fn is_live_at(records: &Compactions, worker: u64, attempt: &RunAttempt, job: Ulid) -> bool
    ensures { result ≡ ((attempt.now.job == job)
        && is_live (jobs_of records.now.jobs) worker (attempt_of attempt.now)) }
{
    attempt.job() == job && is_live(records, worker, attempt)
}

// The live attempt at the job.
fn live_at<'a>(
    records: &Compactions,
    worker: u64,
    attempts: &'a [RunAttempt],
    job: Ulid,
) -> Option<&'a RunAttempt>
    ensures { option_copied result ≡ live_at records.now.jobs worker attempts.now job }
{
    attempts
        .iter()
        .find(|attempt| is_live_at(records, worker, attempt, job))
}

// The job, beaten by the live attempt at it if there is one.
fn beaten(
    mut job: Compaction,
    records: &Compactions,
    worker: u64,
    moment: u64,
    attempts: &[RunAttempt],
) -> Result<Compaction, SlateDBError>
    ensures job { IfOk result (λ new. new ≡ beaten_record worker moment
        (live_at records.now.jobs worker attempts.now job.id) job) }
    ensures memory { IsOkUnless result SlateDBError.Memory }
{
    if let Some(attempt) = live_at(records, worker, attempts, job.id()) {
        let ctx = attempt.ctx().clone()?;
        job.set_worker(Some(WorkerSpec::new(worker, moment)));
        // That the context extends the published one is a condition of the put of these records.
        job.set_ctx(None);
        job.set_ctx(Some(ctx));
    }
    Ok(job)
}

// The jobs, each beaten by the live attempt at it.
fn all_beaten(
    alloc: Global,
    jobs: Vec<Compaction>,
    records: &Compactions,
    worker: u64,
    moment: u64,
    attempts: &[RunAttempt],
) -> Result<Vec<Compaction>, SlateDBError>
    ensures jobs { IfOk result (λ new. new.items ≡ map (λ job. beaten_record worker moment
        (live_at records.now.jobs worker attempts.now job.id) job) jobs.items) }
    ensures memory { IsOkUnless result SlateDBError.Memory }
{
    let mut new = Vec::with_capacity(alloc, jobs.len())?;
    'jobs: for job in jobs {
        new.push(beaten(job, records, worker, moment, attempts)?)?;
    }
    Ok(new)
}

// Adds the job of the attempt, if it is live.
fn add_live(
    jobs: &mut Vec<Ulid>,
    records: &Compactions,
    worker: u64,
    attempt: &RunAttempt,
) -> Result<(), SlateDBError>
    ensures ok { OnOk result (jobs.new.items
        ≡ jobs.old.items ++ live_ids records.now.jobs worker (attempt.now ∷ [])) }
    ensures memory { IsOkUnless result SlateDBError.Memory }
{
    if is_live(records, worker, attempt) {
        jobs.push(attempt.job())?;
    }
    Ok(())
}

/// The jobs of the attempts that are live.
pub(crate) fn live_jobs(
    alloc: Global,
    records: &Compactions,
    worker: u64,
    attempts: &[RunAttempt],
) -> Result<JobList, SlateDBError>
    ensures jobs { IfOk result (λ jobs. jobs ≡ live_ids records.now.jobs worker attempts.now) }
    ensures memory { IsOkUnless result SlateDBError.Memory }
{
    let mut jobs = Vec::new(alloc);
    'attempts: for attempt in attempts {
        add_live(&mut jobs, records, worker, attempt)?;
    }
    Ok(JobList::from_vec(jobs))
}

// Adds the job of the attempt, if it is not live.
fn add_lost(
    jobs: &mut Vec<Ulid>,
    records: &Compactions,
    worker: u64,
    attempt: &RunAttempt,
) -> Result<(), SlateDBError>
    ensures ok { OnOk result (jobs.new.items
        ≡ jobs.old.items ++ lost_ids records.now.jobs worker (attempt.now ∷ [])) }
    ensures memory { IsOkUnless result SlateDBError.Memory }
{
    if !is_live(records, worker, attempt) {
        jobs.push(attempt.job())?;
    }
    Ok(())
}

/// The jobs of the attempts that are not live.
pub(crate) fn lost_jobs(
    alloc: Global,
    records: &Compactions,
    worker: u64,
    attempts: &[RunAttempt],
) -> Result<JobList, SlateDBError>
    ensures jobs { IfOk result (λ jobs. jobs ≡ lost_ids records.now.jobs worker attempts.now) }
    ensures memory { IsOkUnless result SlateDBError.Memory }
{
    let mut jobs = Vec::new(alloc);
    'attempts: for attempt in attempts {
        add_lost(&mut jobs, records, worker, attempt)?;
    }
    Ok(JobList::from_vec(jobs))
}

/// The records after the live attempts were beaten.
pub(crate) fn beaten_records(
    alloc: Global,
    records: &Compactions,
    worker: u64,
    moment: u64,
    attempts: &[RunAttempt],
) -> Result<Compactions, SlateDBError>
    ensures made { IfOk result (BeatenRecords worker moment attempts.now records.now) }
    ensures memory { IsOkUnless result SlateDBError.Memory }
{
    let Compactions {
        compactor_epoch,
        jobs,
    } = records.clone()?;
    let beaten = all_beaten(alloc, jobs.into_vec(), records, worker, moment, attempts)?;
    let mut new = Compactions {
        compactor_epoch,
        jobs: JobMap::from_vec(beaten),
    };
    new.retain_active_and_last_finished();
    Ok(new)
}

/// Whether the attempt is live by these records, if there are any.
pub(crate) fn is_live_in(
    got: &Option<VersionedCompactions>,
    worker: u64,
    attempt: &RunAttempt,
) -> bool
    ensures { result ≡ is_live (jobs_of (jobs_or_none got.now)) worker (attempt_of attempt.now) }
{
    match got {
        Some(got) => is_live(got.compactions(), worker, attempt),
        None => false,
    }
}

/// The report of a worker without attempts.
pub(crate) fn no_report(alloc: Global) -> BeatReport
    ensures { result ≡ record { beat = []; not_owner = [] } }
{
    BeatReport {
        beat: JobList::new(alloc),
        not_owner: JobList::new(alloc),
    }
}
