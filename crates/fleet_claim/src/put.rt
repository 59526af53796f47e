//! The records that a claim puts.

ghost use Rattle.std.specs.Prelude.{◌≡◌, ◌+◌, ◌++◌, [], ◌∷◌, map, IfOk, IsOkUnless, OnOk};
ghost use Rattle.fleet_claim.specs.Puts.{ClaimsRecords, claimed_record, is_named, next_numbers};

use fleet_book::{Compactions, JobMap};
use fleet_jobs::{Compaction, CompactionStatus, WorkerSpec};
use fleet_rows::{AttemptList, SlateDBError, Ulid};
use std::alloc::Global;

/// One more than the number of an attempt, if there is room.
pub fn next_attempt(number: u64) -> Result<u64, SlateDBError>
    ensures next { IfOk result (λ next. next ≡ number + 1) }
    ensures memory { IsOkUnless result SlateDBError.Memory }
{
    match number.checked_add(1) {
        Some(next) => Ok(next),
        None => Err(SlateDBError::Memory),
    }
}

// Adds the attempt with which a claim goes on with the job.
fn add_next(attempts: &mut Vec<(Ulid, u64)>, job: &Compaction) -> Result<(), SlateDBError>
    ensures ok { OnOk result (attempts.new.items
        ≡ attempts.old.items ++ next_numbers (job.now ∷ [])) }
    ensures memory { IsOkUnless result SlateDBError.Memory }
{
    attempts.push((job.id(), next_attempt(job.attempt())?))?;
    Ok(())
}

/// The attempts with which a claim goes on with these jobs.
pub fn next_attempts(alloc: Global, jobs: &[Compaction]) -> Result<AttemptList, SlateDBError>
    ensures attempts { IfOk result (λ attempts. attempts ≡ next_numbers jobs.now) }
    ensures memory { IsOkUnless result SlateDBError.Memory }
{
    let mut attempts = Vec::new(alloc);
    'jobs: for job in jobs {
        add_next(&mut attempts, job)?;
    }
    Ok(AttemptList::from_vec(attempts))
}

fn is_named(attempts: &[(Ulid, u64)], job: Ulid) -> bool
    ensures { result ≡ is_named attempts.now job }
{
    attempts.iter().any(|attempt| attempt.0 == job)
}

// The job, claimed if one of the attempts is at it.
fn claimed(
    mut job: Compaction,
    worker: u64,
    moment: u64,
    attempts: &[(Ulid, u64)],
) -> Result<Compaction, SlateDBError>
    ensures job { IfOk result (λ new. new ≡ claimed_record worker moment attempts.now job) }
    ensures memory { IsOkUnless result SlateDBError.Memory }
{
    if is_named(attempts, job.id()) {
        let number = next_attempt(job.attempt())?;
        job.set_status(CompactionStatus::Running);
        job.set_worker(Some(WorkerSpec::new(worker, moment)));
        job.set_attempt(number);
    }
    Ok(job)
}

// The jobs, each claimed if one of the attempts is at it.
fn all_claimed(
    alloc: Global,
    jobs: Vec<Compaction>,
    worker: u64,
    moment: u64,
    attempts: &[(Ulid, u64)],
) -> Result<Vec<Compaction>, SlateDBError>
    ensures jobs { IfOk result
        (λ new. new.items ≡ map (claimed_record worker moment attempts.now) jobs.items) }
    ensures memory { IsOkUnless result SlateDBError.Memory }
{
    let mut new = Vec::with_capacity(alloc, jobs.len())?;
    'jobs: for job in jobs {
        new.push(claimed(job, worker, moment, attempts)?)?;
    }
    Ok(new)
}

/// The records after the worker claimed these attempts at this moment. They are Running with the
/// worker, and their attempt numbers are raised by one. Of the jobs that are over only the last one
/// stays.
pub fn claimed_records(
    alloc: Global,
    records: &Compactions,
    worker: u64,
    moment: u64,
    attempts: &[(Ulid, u64)],
) -> Result<Compactions, SlateDBError>
    ensures made { IfOk result (ClaimsRecords worker moment attempts.now records.now) }
    ensures memory { IsOkUnless result SlateDBError.Memory }
{
    let Compactions {
        compactor_epoch,
        jobs,
    } = records.clone()?;
    let claimed = all_claimed(alloc, jobs.into_vec(), worker, moment, attempts)?;
    let mut new = Compactions {
        compactor_epoch,
        jobs: JobMap::from_vec(claimed),
    };
    new.retain_active_and_last_finished();
    Ok(new)
}
