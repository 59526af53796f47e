//! Attempts that run.

ghost use Rattle.std.specs.Prelude.{◌≡◌, ◌++◌, [], ◌∷◌, filter, not, option_map, IfOk, IsOkUnless, OnOk, Some};
ghost use Rattle.std.specs.Option.{option_copied};
ghost use Rattle.fleet_model.specs.Jobs.{contains};
ghost use Rattle.fleet_model.specs.Work.Parties.{is_leased_to, is_live, runs_attempt};
ghost use Rattle.fleet_jobs.specs.Jobs.{job_of, jobs_of};
ghost use Rattle.fleet_jobs.specs.Workers.{lease_of};
ghost use Rattle.fleet_worker.specs.Claims.{parts_of};
ghost use Rattle.fleet_worker.specs.Messages.{if_numbered};
ghost use Rattle.fleet_worker.specs.Releases.{live_named};
ghost use Rattle.fleet_worker.specs.Workers.{attempt_of, run_at, run_of_number};

use fleet_book::Compactions;
use fleet_claim::ClaimedAttempt;
use fleet_jobs::{Compaction, CompactionContext, CompactionStatus, WorkerSpec};
use fleet_rows::{AttemptList, IdList, SlateDBError, Ulid};
use fleet_tree::{SsTableHandle, TableList};
use std::alloc::Global;
use std::marker::Model;

/// An attempt that a worker runs. Contracts see its parts.
#[derive(Debug, Drop)]
pub struct RunAttempt {
    job: Ulid,
    number: u64,
    sources: IdList,
    tables: TableList,
    ctx: CompactionContext,
}

impl Model for RunAttempt {
    ghost use Rattle.fleet_worker.specs.Workers.{AttemptParts};

    ghost Value = { AttemptParts };

    ghost view = { λ a. record {
      job = a.job;
      number = a.number;
      sources = a.sources;
      tables = a.tables;
      ctx = a.ctx;
    } };
}

impl RunAttempt {
    /// The attempt that a claim begins.
    pub(crate) fn from_claimed(attempt: ClaimedAttempt) -> RunAttempt
        ensures { result ≡ parts_of attempt }
    {
        RunAttempt {
            job: attempt.job,
            number: attempt.number,
            sources: attempt.sources,
            tables: attempt.tables,
            ctx: attempt.ctx,
        }
    }

    /// A copy.
    pub(crate) fn clone(&self) -> Result<RunAttempt, SlateDBError>
        ensures copy { IfOk result (λ copy. copy ≡ self.now) }
        ensures memory { IsOkUnless result SlateDBError.Memory }
    {
        Ok(RunAttempt {
            job: self.job,
            number: self.number,
            sources: self.sources.clone()?,
            tables: self.tables.clone()?,
            ctx: self.ctx.clone()?,
        })
    }

    /// A copy with this context.
    pub(crate) fn with_ctx(&self, ctx: CompactionContext) -> Result<RunAttempt, SlateDBError>
        ensures changed { IfOk result (λ changed. changed ≡ record self.now { ctx = ctx }) }
        ensures memory { IsOkUnless result SlateDBError.Memory }
    {
        Ok(RunAttempt {
            job: self.job,
            number: self.number,
            sources: self.sources.clone()?,
            tables: self.tables.clone()?,
            ctx,
        })
    }

    /// The id of the job.
    pub fn job(&self) -> Ulid
        ensures { result ≡ self.now.job }
    {
        self.job
    }

    /// The number of the attempt.
    pub fn number(&self) -> u64
        ensures { result ≡ self.now.number }
    {
        self.number
    }

    /// The source tables of the job.
    pub fn sources(&self) -> &[Ulid]
        ensures { result.now ≡ self.now.sources }
    {
        self.sources.as_slice()
    }

    /// The descriptions of the source tables, in the same order.
    pub fn tables(&self) -> &[SsTableHandle]
        ensures { result.now ≡ self.now.tables }
    {
        self.tables.as_slice()
    }

    /// The context, with the tables that were noted so far.
    pub fn ctx(&self) -> &CompactionContext
        ensures { result.now ≡ self.now.ctx }
    {
        &self.ctx
    }
}

fn is_leased(worker: Option<&WorkerSpec>, id: u64) -> bool
    ensures { result ≡ is_leased_to id (option_map lease_of (option_copied worker.entry)) }
{
    match worker {
        Some(worker) => id == worker.worker_id,
        None => false,
    }
}

// Whether the job is Running with this worker and this attempt number.
fn runs(job: &Compaction, worker: u64, number: u64) -> bool
    ensures { result ≡ runs_attempt worker number (Some (job_of job.now)) }
{
    matches!(job.status(), CompactionStatus::Running)
        && is_leased(job.worker(), worker)
        && number == job.attempt()
}

/// Whether the attempt is live.
pub(crate) fn is_live(records: &Compactions, worker: u64, attempt: &RunAttempt) -> bool
    ensures { result ≡ is_live (jobs_of records.now.jobs) worker (attempt_of attempt.now) }
{
    let (id, number) = (attempt.job(), attempt.number());
    match records.get(&id) {
        Some(job) => runs(job, worker, number),
        None => false,
    }
}

// Adds the attempt, if it is live.
fn add_live(
    live: &mut Vec<(Ulid, u64)>,
    records: &Compactions,
    worker: u64,
    attempt: &RunAttempt,
) -> Result<(), SlateDBError>
    ensures ok { OnOk result (live.new.items
        ≡ live.old.items ++ live_named records.now.jobs worker (attempt.now ∷ [])) }
    ensures memory { IsOkUnless result SlateDBError.Memory }
{
    if is_live(records, worker, attempt) {
        live.push((attempt.job(), attempt.number()))?;
    }
    Ok(())
}

/// The live ones of these attempts, by job and number.
pub(crate) fn live_attempts(
    alloc: Global,
    records: &Compactions,
    worker: u64,
    attempts: &[RunAttempt],
) -> Result<AttemptList, SlateDBError>
    ensures live { IfOk result (λ live.
        live ≡ live_named records.now.jobs worker attempts.now) }
    ensures memory { IsOkUnless result SlateDBError.Memory }
{
    let mut live = Vec::new(alloc);
    'attempts: for attempt in attempts {
        add_live(&mut live, records, worker, attempt)?;
    }
    Ok(AttemptList::from_vec(live))
}

/// The attempt at the job, if there is one.
pub(crate) fn run_at(attempts: &[RunAttempt], job: Ulid) -> Option<&RunAttempt>
    ensures { option_copied result ≡ run_at attempts.now job }
{
    attempts.iter().find(|attempt| attempt.job() == job)
}

/// The attempt at the job whose id has this number, if there is one.
pub(crate) fn run_of_number(attempts: &[RunAttempt], number: u64) -> Option<&RunAttempt>
    ensures { option_copied result ≡ run_of_number attempts.now number }
{
    attempts
        .iter()
        .find(|attempt| number as u128 == attempt.job().number())
}

/// The attempt, if there is one and it has this number.
pub(crate) fn if_numbered(number: u64, attempt: Option<&RunAttempt>) -> Option<&RunAttempt>
    ensures { option_copied result ≡ if_numbered number (option_copied attempt.entry) }
{
    match attempt {
        Some(attempt) if number == attempt.number() => Some(attempt),
        _ => None,
    }
}

/// Whether the attempt is at another job than this one.
pub(crate) fn is_elsewhere(attempt: &RunAttempt, job: Ulid) -> bool
    ensures { result ≡ not (contains (job ∷ []) attempt.now.job) }
{
    job != attempt.job()
}

/// The attempt, by its job and its number.
pub(crate) fn one_named(alloc: Global, attempt: &RunAttempt) -> Result<AttemptList, SlateDBError>
    ensures named { IfOk result
        (λ named. named ≡ (attempt.now.job, attempt.now.number) ∷ []) }
    ensures memory { IsOkUnless result SlateDBError.Memory }
{
    let mut named = AttemptList::new(alloc);
    named.push((attempt.job(), attempt.number()))?;
    Ok(named)
}
