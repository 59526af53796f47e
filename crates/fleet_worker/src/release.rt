//! Records in which jobs are given back.

ghost use Rattle.std.specs.Prelude.{◌≡◌, map, IfOk, IsOkUnless};
ghost use Rattle.fleet_model.specs.History as model;
ghost use Rattle.fleet_model.specs.Work.Records.{firsts};
ghost use Rattle.fleet_worker.specs.Releases.{MakesRecords, given_back, is_named, is_over};

use fleet_book::{Compactions, JobMap};
use fleet_jobs::{Compaction, CompactionStatus};
use fleet_rows::{JobList, SlateDBError, Ulid};
use fleet_step::stops;
use fleet_store::RecordChange;
use std::alloc::Global;

// A put of the records that gives jobs back.
#[derive(Drop)]
pub(crate) struct ReleasePut {
    pub version: u64,
    pub value: Compactions,
    pub why: RecordChange,
    pub jobs: JobList,
}

// Whether the job is among these attempts.
fn is_among(attempts: &[(Ulid, u64)], job: Ulid) -> bool
    ensures { result ≡ is_named attempts.now job }
{
    attempts.iter().any(|attempt| attempt.0 == job)
}

// The job, given back if it is among these attempts.
fn given_back(mut job: Compaction, attempts: &[(Ulid, u64)]) -> Compaction
    ensures { result ≡ given_back attempts.now job }
{
    if is_among(attempts, job.id()) {
        job.set_status(CompactionStatus::Scheduled);
        job.set_worker(None);
    }
    job
}

// The jobs, those among the attempts given back.
fn all_given_back(
    alloc: Global,
    jobs: Vec<Compaction>,
    attempts: &[(Ulid, u64)],
) -> Result<Vec<Compaction>, SlateDBError>
    ensures jobs { IfOk result (λ new. new.items ≡ map (given_back attempts.now) jobs.items) }
    ensures memory { IsOkUnless result SlateDBError.Memory }
{
    Ok(
        jobs.into_iter()
            .map(|job| given_back(job, attempts))
            .collect(alloc)?,
    )
}

/// The records after these attempts of the worker were given back.
pub(crate) fn released(
    alloc: Global,
    records: &Compactions,
    worker: u64,
    attempts: &[(Ulid, u64)],
) -> Result<Compactions, SlateDBError>
    ensures made { IfOk result (λ new.
        MakesRecords records.now new (model.Release worker attempts.now)) }
    ensures memory { IsOkUnless result SlateDBError.Memory }
{
    let Compactions {
        compactor_epoch,
        jobs,
    } = records.clone()?;
    let mut new = Compactions {
        compactor_epoch,
        jobs: JobMap::from_vec(all_given_back(alloc, jobs.into_vec(), attempts)?),
    };
    new.retain_active_and_last_finished();
    Ok(new)
}

/// The jobs of these attempts.
pub(crate) fn jobs_of(alloc: Global, attempts: &[(Ulid, u64)]) -> Result<JobList, SlateDBError>
    ensures jobs { IfOk result (λ jobs. jobs ≡ firsts attempts.now) }
    ensures memory { IsOkUnless result SlateDBError.Memory }
{
    let jobs = attempts.iter().map(|attempt| attempt.0).collect(alloc)?;
    Ok(JobList::from_vec(jobs))
}

/// Whether a worker is stopped after the release with this result: it has given its jobs back, or a
/// fault struck a call.
pub(crate) fn is_over<T>(released: &Result<T, SlateDBError>) -> bool
    ensures { result ≡ is_over released.now }
{
    match released {
        Ok(_) => true,
        Err(_) => stops(released),
    }
}
