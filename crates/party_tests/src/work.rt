// The steps of a worker at job 1, over any store.
ghost use Rattle.std.specs.Prelude.{◌≡◌, false};
ghost use Rattle.party_tests.specs.Callers.{GoesOn, IsHand, MayHire};

use fleet_exec::OpenGate;
use fleet_fold::MergeOperator;
use fleet_jobs::Release;
use fleet_rows::{JobList, SlateDBError, Ulid};
use fleet_store::Store;
use fleet_tree::SsTableHandle;
use fleet_worker::{BeatReport, ClaimReport, CompactionWorkerOptions, Worker};
use std::alloc::Global;
use std::thread::Threads;

/// The id of the job with this number.
pub(crate) fn job(number: u64) -> Ulid {
    Ulid::from_parts(0, number as u128)
}

/// Whether these are the jobs with these numbers.
pub(crate) fn are(jobs: &JobList, numbers: &[u64]) -> bool {
    jobs.as_slice()
        .iter()
        .copied()
        .eq(numbers.iter().map(|number| job(*number)))
}

/// A step of a worker at job 1.
#[derive(Clone, Copy, PartialEq, Eq)]
pub(crate) enum Task {
    Claim,
    Beat,
    /// An output of so many rows of the first range.
    Output(u64),
    Finish,
    Release,
}

// Four attempts at once, with this many ranges each. Each table has one row.
fn options(ranges: u32) -> CompactionWorkerOptions
    ensures { result.max_subcompactions ≡ ranges }
{
    CompactionWorkerOptions {
        max_concurrent_compactions: 4,
        max_subcompactions: ranges as u64,
        max_sst_size: 1,
        retention_ms: 0,
    }
}

// Whether the list has job 1 alone.
fn is_job(jobs: Result<JobList, SlateDBError>) -> Result<bool, SlateDBError> {
    Ok(are(&jobs?, &[1]))
}

fn claimed(report: Result<ClaimReport, SlateDBError>) -> Result<bool, SlateDBError> {
    Ok(are(&report?.claimed, &[1]))
}

fn beaten(report: Result<BeatReport, SlateDBError>) -> Result<bool, SlateDBError> {
    Ok(are(&report?.beat, &[1]))
}

// Whether a table was written.
fn written(table: Result<Option<SsTableHandle>, SlateDBError>) -> Result<bool, SlateDBError> {
    Ok(table?.is_some())
}

// True if the step was done, and false if the worker does not own the job.
fn owned<T: Drop>(done: Result<T, SlateDBError>) -> Result<bool, SlateDBError> {
    match done {
        Ok(_) => Ok(true),
        Err(SlateDBError::NotOwner) => Ok(false),
        Err(error) => Err(error),
    }
}

// Writes all that is left of job 1, and ends it.
fn finish<R: Threads + Sync, S: Store, O: MergeOperator>(
    rt: &R,
    store: &mut S,
    operator: &O,
    worker: &mut Worker,
) -> Result<bool, SlateDBError>
    requires folds { O.merged (O.settings operator.now) ≡ (S.view store.old).who.merge }
    requires hand { IsHand (S.view store.old) worker.old }
    ensures { GoesOn (S.view store.old) (S.view store.new) worker.old worker.new }
{
    let id = job(1);
    if worker.stopped() || worker.ranges(id).is_none() {
        return Err(SlateDBError::InvalidDBState);
    }
    owned(worker.finish(rt, store, operator, &options(1), &OpenGate, 1, id))
}

// Writes so many rows of the first range of job 1.
fn output<S: Store, O: MergeOperator>(
    store: &mut S,
    operator: &O,
    worker: &mut Worker,
    rows: u64,
) -> Result<bool, SlateDBError>
    requires folds { O.merged (O.settings operator.now) ≡ (S.view store.old).who.merge }
    requires hand { IsHand (S.view store.old) worker.old }
    ensures { GoesOn (S.view store.old) (S.view store.new) worker.old worker.new }
{
    let id = job(1);
    match worker.ranges(id) {
        Some(ranges) if ranges > 0 && rows > 0 && !worker.stopped() => {
            written(worker.output(store, operator, 1, id, 1, rows))
        }
        _ => Err(SlateDBError::InvalidDBState),
    }
}

/// A worker that is to call the store.
pub(crate) fn hire<S: Store>(alloc: Global, store: &S, number: u64, release: Release) -> Worker
    requires { MayHire (S.view store.now) number }
    ensures { IsHand (S.view store.now) result }
{
    let _called = store;
    Worker::start(alloc, number, release)
}

/// Claims jobs with so many ranges at most. The answer tells whether job 1 was claimed alone.
pub(crate) fn claim<S: Store>(
    store: &mut S,
    worker: &mut Worker,
    ranges: u32,
    moment: u64,
) -> Result<bool, SlateDBError>
    requires hand { IsHand (S.view store.old) worker.old }
    ensures { GoesOn (S.view store.old) (S.view store.new) worker.old worker.new }
{
    if worker.stopped() {
        return Err(SlateDBError::InvalidDBState);
    }
    claimed(worker.claim(store, &options(ranges), moment))
}

/// Sends a heartbeat for the jobs that the worker runs. The answer tells whether that is job 1.
pub(crate) fn beat<S: Store>(
    store: &mut S,
    worker: &mut Worker,
    moment: u64,
) -> Result<bool, SlateDBError>
    requires hand { IsHand (S.view store.old) worker.old }
    ensures { GoesOn (S.view store.old) (S.view store.new) worker.old worker.new }
{
    if worker.stopped() {
        return Err(SlateDBError::InvalidDBState);
    }
    beaten(worker.heartbeat(store, moment))
}

/// Gives the jobs of the worker back. The answer tells whether that is job 1.
pub(crate) fn release<S: Store>(store: &mut S, worker: &mut Worker) -> Result<bool, SlateDBError>
    requires hand { IsHand (S.view store.old) worker.old }
    ensures { GoesOn (S.view store.old) (S.view store.new) worker.old worker.new }
{
    if worker.stopped() {
        return Err(SlateDBError::InvalidDBState);
    }
    is_job(worker.release_all(store))
}

/// Makes the step at this moment, with so many ranges at most. The answer tells whether the worker
/// claimed the job, beat it, wrote a table, ended the job, or gave it back.
pub(crate) fn work<R: Threads + Sync, S: Store, O: MergeOperator>(
    rt: &R,
    store: &mut S,
    operator: &O,
    worker: &mut Worker,
    ranges: u32,
    moment: u64,
    work: Task,
) -> Result<bool, SlateDBError>
    requires folds { O.merged (O.settings operator.now) ≡ (S.view store.old).who.merge }
    requires hand { IsHand (S.view store.old) worker.old }
    ensures { GoesOn (S.view store.old) (S.view store.new) worker.old worker.new }
{
    match work {
        Task::Claim => claim(store, worker, ranges, moment),
        Task::Beat => beat(store, worker, moment),
        Task::Output(rows) => output(store, operator, worker, rows),
        Task::Finish => finish(rt, store, operator, worker),
        Task::Release => release(store, worker),
    }
}
