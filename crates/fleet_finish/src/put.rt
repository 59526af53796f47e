//! The records that the end of a job puts.

ghost use Rattle.std.specs.Prelude.{◌≡◌, ◌++◌, [], ◌∷◌, map, IfOk, IsOkUnless};
ghost use Rattle.fleet_model.specs.Work.Attempts.{finish_cut};
ghost use Rattle.fleet_jobs.specs.Contexts.{context_of, table_ids};
ghost use Rattle.fleet_jobs.specs.Workers.{release_of};
ghost use Rattle.fleet_finish.specs.Puts.{EndsRecords, IsFinishPut, ended_record};

use fleet_book::{Compactions, JobMap, VersionedCompactions};
use fleet_jobs::{Compaction, CompactionContext, CompactionStatus, Release, WorkerSpec};
use fleet_rows::{JobList, NamesList, SlateDBError, Ulid};
use fleet_store::RecordChange;
use fleet_tree::{OutputList, SsTableHandle, TableList};
use std::alloc::Global;

/// An attempt that ends: its worker, the moment in milliseconds, its job, its number, and the cut
/// that the job keeps of it.
#[derive(Debug, Drop)]
pub struct EndedAttempt {
    pub worker: u64,
    pub moment: u64,
    pub job: Ulid,
    pub number: u64,
    pub cut: Option<u64>,
}

/// A put of the records that ends a job.
#[derive(Drop)]
pub struct FinishPut {
    pub version: u64,
    pub value: Compactions,
    pub why: RecordChange,
}

/// The cut that a job keeps of an attempt with this context, by a worker of this release.
pub fn kept_cut(release: Release, ctx: &CompactionContext) -> Option<u64>
    ensures { result ≡ finish_cut (release_of release) (context_of ctx.now) }
{
    match release {
        Release::One => None,
        Release::Two => Some(ctx.settings().cut),
    }
}

// The ids of these tables.
fn ids_of(alloc: Global, tables: &[SsTableHandle]) -> Result<JobList, SlateDBError>
    ensures ids { IfOk result (λ ids. ids ≡ table_ids tables.now) }
    ensures memory { IsOkUnless result SlateDBError.Memory }
{
    let ids = tables.iter().map(|table| table.id).collect(alloc)?;
    Ok(JobList::from_vec(ids))
}

// The ids of these tables, range by range.
fn names_of(alloc: Global, outputs: &[TableList]) -> Result<NamesList, SlateDBError>
    ensures names { IfOk result (λ names. names ≡ map table_ids outputs.now) }
    ensures memory { IsOkUnless result SlateDBError.Memory }
{
    let mut names = Vec::with_capacity(alloc, outputs.len())?;
    'lists: for tables in outputs {
        names.push(ids_of(alloc, tables.as_slice())?)?;
    }
    Ok(NamesList::from_vec(names))
}

// The job, ended with these tables if it is the job of the attempt.
fn ended(
    mut job: Compaction,
    attempt: &EndedAttempt,
    outputs: &OutputList,
) -> Result<Compaction, SlateDBError>
    ensures job { IfOk result (λ new. new ≡ ended_record attempt.now outputs.now job) }
    ensures memory { IsOkUnless result SlateDBError.Memory }
{
    if attempt.job == job.id() {
        let outputs = outputs.clone()?;
        job.set_status(CompactionStatus::Compacted);
        job.set_worker(Some(WorkerSpec::new(attempt.worker, attempt.moment)));
        job.set_ctx(None);
        job.set_outputs(outputs);
        job.set_cut(attempt.cut);
    }
    Ok(job)
}

// The jobs, with that of the attempt ended.
fn all_ended(
    alloc: Global,
    jobs: Vec<Compaction>,
    attempt: &EndedAttempt,
    outputs: &OutputList,
) -> Result<Vec<Compaction>, SlateDBError>
    ensures jobs { IfOk result
        (λ new. new.items ≡ map (ended_record attempt.now outputs.now) jobs.items) }
    ensures memory { IsOkUnless result SlateDBError.Memory }
{
    let mut new = Vec::with_capacity(alloc, jobs.len())?;
    'jobs: for job in jobs {
        new.push(ended(job, attempt, outputs)?)?;
    }
    Ok(new)
}

// The records after the attempt ended with these tables.
fn ended_records(
    alloc: Global,
    records: &Compactions,
    attempt: &EndedAttempt,
    outputs: &OutputList,
) -> Result<Compactions, SlateDBError>
    ensures made { IfOk result (EndsRecords attempt.now outputs.now records.now) }
    ensures memory { IsOkUnless result SlateDBError.Memory }
{
    let Compactions {
        compactor_epoch,
        jobs,
    } = records.clone()?;
    let ended = all_ended(alloc, jobs.into_vec(), attempt, outputs)?;
    let mut new = Compactions {
        compactor_epoch,
        jobs: JobMap::from_vec(ended),
    };
    new.retain_active_and_last_finished();
    Ok(new)
}

/// The put of the records that ends the job of the attempt with these tables, range by range. The
/// job is Compacted, keeps the worker with this moment, and has no context. Of the jobs that are
/// over only the last one stays.
pub fn finish_put(
    alloc: Global,
    got: &VersionedCompactions,
    attempt: &EndedAttempt,
    outputs: &OutputList,
) -> Result<FinishPut, SlateDBError>
    ensures put { IfOk result (IsFinishPut attempt.now outputs.now got.now) }
    ensures memory { IsOkUnless result SlateDBError.Memory }
{
    let names = names_of(alloc, outputs.as_slice())?;
    Ok(FinishPut {
        version: got.id(),
        value: ended_records(alloc, got.compactions(), attempt, outputs)?,
        why: RecordChange::Finish(attempt.worker, attempt.job, attempt.number, names),
    })
}
