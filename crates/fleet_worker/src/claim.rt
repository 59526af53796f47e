//! Claims.

ghost use Rattle.std.specs.Prelude.{◌≡◌, ◌==◌, ◌++◌, [], ◌∷◌, map, not, nat_lt, IfOk, IsOkUnless, OnOk};
ghost use Rattle.std.specs.List.{list_any, prefix_len};
ghost use Rattle.fleet_model.specs.Jobs.{contains};
ghost use Rattle.fleet_claim.specs.Beginnings.{noted_events};
ghost use Rattle.fleet_worker.specs.Claims.{MayNoteEach, NotesEach, next_parts, part_jobs, parts_of, put_part, without_parts};

use crate::RunAttempt;
use fleet_book::Compactions;
use fleet_claim::ClaimedAttempt;
use fleet_rows::{JobList, ListOf, SlateDBError, Ulid};
use fleet_store::{Note, RecordChange, Store};
use std::alloc::{AllocError, Global};

/// What a claim did: the jobs of the attempts that it began, the jobs that it stopped since they
/// wait again, and the jobs that it claimed but did not start since the manifest lacks their
/// sources or has other tables for them.
#[derive(Debug, Drop)]
pub struct ClaimReport {
    pub claimed: JobList,
    pub stopped: JobList,
    pub released: JobList,
}

// A put of the records that claims jobs.
#[derive(Drop)]
pub(crate) struct ClaimPut {
    pub version: u64,
    pub value: Compactions,
    pub why: RecordChange,
}

// How claimed jobs start: the report of the claim, the attempts that the worker runs then, and the
// notes that it makes.
#[derive(Drop)]
pub(crate) struct ClaimStart {
    pub report: ClaimReport,
    pub attempts: ListOf<RunAttempt>,
    pub notes: Vec<Note>,
}

/// The jobs of these attempts.
pub(crate) fn run_jobs(alloc: Global, attempts: &[RunAttempt]) -> Result<JobList, SlateDBError>
    ensures jobs { IfOk result (λ jobs. jobs ≡ part_jobs attempts.now) }
    ensures memory { IsOkUnless result SlateDBError.Memory }
{
    let jobs = attempts.iter().map(|attempt| attempt.job()).collect(alloc)?;
    Ok(JobList::from_vec(jobs))
}

/// The jobs of the attempts that a claim begins.
pub(crate) fn begun_jobs(
    alloc: Global,
    attempts: &[ClaimedAttempt],
) -> Result<JobList, SlateDBError>
    ensures jobs { IfOk result (λ jobs. jobs ≡ map (λ a. a.job) attempts.now) }
    ensures memory { IsOkUnless result SlateDBError.Memory }
{
    let jobs = attempts.iter().map(|attempt| attempt.job).collect(alloc)?;
    Ok(JobList::from_vec(jobs))
}

fn has(ids: &[Ulid], id: Ulid) -> bool
    ensures { result ≡ list_any (λ other. other == id) ids.now }
{
    ids.iter().any(|other| *other == id)
}

fn contains(ids: &[Ulid], id: Ulid) -> bool
    ensures { result ≡ contains ids.now id }
{
    has(ids, id)
}

// Adds a copy of the attempt, unless it is at one of these jobs.
fn add_other(
    kept: &mut Vec<RunAttempt>,
    attempt: &RunAttempt,
    stopped: &[Ulid],
) -> Result<(), SlateDBError>
    ensures ok { OnOk result (kept.new.items
        ≡ kept.old.items ++ without_parts stopped.now (attempt.now ∷ [])) }
    ensures memory { IsOkUnless result SlateDBError.Memory }
{
    if !contains(stopped, attempt.job()) {
        kept.push(attempt.clone()?)?;
    }
    Ok(())
}

/// Copies of the attempts that are not at one of these jobs.
pub(crate) fn other_attempts(
    alloc: Global,
    attempts: &[RunAttempt],
    stopped: &[Ulid],
) -> Result<Vec<RunAttempt>, SlateDBError>
    ensures others { IfOk result (λ kept. kept.items ≡ without_parts stopped.now attempts.now) }
    ensures memory { IsOkUnless result SlateDBError.Memory }
{
    let mut kept = Vec::new(alloc);
    'attempts: for attempt in attempts {
        add_other(&mut kept, attempt, stopped)?;
    }
    Ok(kept)
}

// The number of attempts in front of the first one at a job with a greater id.
fn place_after(attempts: &[RunAttempt], job: Ulid) -> usize
    ensures { result ≡ prefix_len (λ a. not (nat_lt job a.job)) attempts.now }
{
    attempts
        .iter()
        .take_while(|attempt| attempt.job() <= job)
        .count()
}

/// Inserts the attempt by its job.
pub(crate) fn put_attempt(
    attempts: &mut Vec<RunAttempt>,
    attempt: RunAttempt,
) -> Result<(), AllocError>
    ensures { OnOk result (attempts.new.items ≡ put_part attempt attempts.old.items) }
{
    let place = place_after(attempts, attempt.job());
    attempts.insert(place, attempt)?;
    Ok(())
}

/// The attempts that a worker runs after a claim, given those that it ran before.
pub(crate) fn attempts_after(
    alloc: Global,
    attempts: &[RunAttempt],
    stopped: &[Ulid],
    begun: Vec<ClaimedAttempt>,
) -> Result<Vec<RunAttempt>, SlateDBError>
    ensures next { IfOk result
        (λ next. next.items ≡ next_parts stopped.now begun.items attempts.now) }
    ensures memory { IsOkUnless result SlateDBError.Memory }
{
    let mut next = other_attempts(alloc, attempts, stopped)?;
    'begun: for attempt in begun {
        put_attempt(&mut next, RunAttempt::from_claimed(attempt))?;
    }
    Ok(next)
}

/// Makes these notes, one after the other.
pub(crate) fn note_each<S: Store>(store: &mut S, notes: Vec<Note>) -> Result<(), SlateDBError>
    requires lawful { MayNoteEach notes.items (S.view store.old) }
    ensures { NotesEach notes.items (S.view store.old) (S.view store.new) result }
{
    'notes: for note in notes {
        store.note(note)?;
    }
    Ok(())
}
