//! One try of a poll: what it gets, what it reaches, and what it puts.

ghost use Rattle.std.specs.Prelude.{◌≡◌, ◌<◌, ℕ, List, [], IfErr, IfOk, IsOkUnless, if◌then◌else◌, map};
ghost use Rattle.fleet_model.specs.Work.PollStates.{PollInput, PollState};
ghost use Rattle.fleet_model.specs.Work.Polls.{proposals};
ghost use Rattle.fleet_model.specs.Jobs.{JobSpec};
ghost use Rattle.step_model.specs.Courses.Course.{Course, draws_jobs};
ghost use Rattle.step_model.specs.Courses.StepEnds.{StepEnd, most_refused};
ghost use Rattle.step_model.specs.Courses.Tries.{counted_tries};
ghost use Rattle.step_model.specs.Steps.PollSteps.{PollAsk, poll_try};
ghost use Rattle.fleet_tree.specs.Trees.{RunFlushes};
ghost use Rattle.fleet_jobs.specs.Specs.{spec_of};
ghost use Rattle.fleet_poll.specs.Polls.{poll_of};
ghost use Rattle.fleet_poll.specs.Seen.{Sees};
ghost use Rattle.fleet_coordinator.specs.Polling.{Fails, GetsPoll, IsCommit, IsGot, MayPoll, MayPut, MayTry, NamesDrawn, TriesPoll, as_tried, ask_of, fenced_at, puts_of};

use crate::recording::{or_none, record_poll};
use crate::submission::with_ids;
use fleet_book::{Compactions, CompactorState, VersionedCompactions};
use fleet_change::is_unchanged;
use fleet_history::ManifestChange;
use fleet_jobs::CompactionSpec;
use fleet_poll::Poll;
use fleet_rows::{SlateDBError, Ulid};
use fleet_sched::{CompactionScheduler, CompactorOptions};
use fleet_step::{MOST_REFUSED, draw_jobs, refused_at};
use fleet_store::Store;
use fleet_tree::{Manifest, ManifestCore, VersionedManifest};
use std::alloc::Global;
use std::snapshot::Snapshot;

/// What a poll is asked with: the coordinator's epoch, the moment in milliseconds, and whether it
/// only commits.
#[derive(Clone, Copy, Debug, PartialEq, Eq)]
pub(crate) struct Turn {
    pub epoch: u64,
    pub moment: u64,
    pub commits_only: bool,
}

/// How a try of a poll ends. If its put of the manifest was refused, another try follows.
#[derive(Drop)]
pub(crate) enum Tried {
    Done(Poll),
    Refused(u64),
}

// A poll before its first step, the contents of the manifest that it got, and the epoch of the
// records that it got.
#[derive(Drop)]
struct GotPoll {
    poll: Poll,
    core: ManifestCore,
    epoch: u64,
}

// A put of the manifest for the version that was got. The jobs are those that the commit does.
#[derive(Drop)]
struct CommitPut {
    version: u64,
    value: Manifest,
    why: ManifestChange,
    jobs: Snapshot<Compactions>,
}

// Refuses a stored epoch that is above the coordinator's.
fn unless_fenced(epoch: u64, stored: u64) -> Result<(), SlateDBError>
    ensures { result ≡ fenced_at epoch stored }
{
    if epoch < stored {
        return Err(SlateDBError::Fenced { stored });
    }
    Ok(())
}

// A poll over these objects, before its first step.
fn poll_over(
    alloc: Global,
    manifest: VersionedManifest,
    records: VersionedCompactions,
) -> Result<GotPoll, SlateDBError>
    requires { manifest.manifest.compactor_epoch ≡ records.compactions.compactor_epoch }
    ensures got { IfOk result (IsGot manifest records) }
    ensures memory { IsOkUnless result SlateDBError.Memory }
{
    let core = manifest.core().clone()?;
    let epoch = records.compactor_epoch();
    let poll = Poll::new(alloc, CompactorState::new(manifest, records));
    Ok(GotPoll { poll, core, epoch })
}

// Gets both objects. The coordinator is fenced if one of them has an epoch above its own.
fn get_poll<S: Store>(alloc: Global, store: &mut S, epoch: u64) -> Result<GotPoll, SlateDBError>
    requires ready { MayPoll (S.view store.old) epoch }
    ensures got { IfOk result (GetsPoll epoch (S.view store.old) (S.view store.new)) }
    ensures failed { (ask : PollAsk) (left seen : _) (again : _) → ask.epoch ≡ epoch
        → IfErr result (Fails (poll_try ask left seen again)
        (S.view store.old) (S.view store.new)) }
{
    let manifest = store.get_manifest()?;
    unless_fenced(epoch, manifest.compactor_epoch())?;
    let records = or_none(alloc, store.get_records()?);
    unless_fenced(epoch, records.compactor_epoch())?;
    poll_over(alloc, manifest, records)
}

// The proposals that a poll takes. A poll that only commits takes none.
fn proposed(
    alloc: Global,
    poll: &Poll,
    scheduler: &(dyn CompactionScheduler + Send + Sync),
    options: &CompactorOptions,
    commits_only: bool,
) -> Result<Vec<CompactionSpec>, SlateDBError>
    ensures specs { (flushes : RunFlushes) (input : PollInput)
        → Sees input (answers scheduler.now) poll.now.state
        → input.options.concurrent ≡ options.now.max_concurrent_compactions
        → IfOk result (λ specs. map spec_of specs.items
        ≡ (if commits_only then [] else proposals input (poll_of flushes poll.now))) }
    ensures memory { IsOkUnless result SlateDBError.Memory }
{
    if commits_only {
        return Ok(Vec::new(alloc));
    }
    poll.proposals(alloc, scheduler, options)
}

// Draws an id for each of these specs.
fn draw_named<S: Store>(
    alloc: Global,
    store: &mut S,
    moment: u64,
    specs: &[CompactionSpec],
) -> Result<Vec<(Ulid, CompactionSpec)>, SlateDBError>
    ensures drawn { IfOk result (λ drawn. NamesDrawn moment specs.now
        (S.view store.old) (S.view store.new) drawn.items) }
    ensures failed { (next : List (ℕ × JobSpec) → Course (StepEnd PollState)) → IfErr result
        (Fails (draws_jobs moment (map spec_of specs.now) next)
        (S.view store.old) (S.view store.new)) }
{
    let ids = draw_jobs(alloc, store, moment, specs.len())?;
    with_ids(alloc, ids.as_slice(), specs)
}

// The put of the manifest by the poll.
fn commit_put(poll: &Poll) -> Result<CommitPut, SlateDBError>
    ensures put { IfOk result (IsCommit poll.now) }
    ensures memory { IsOkUnless result SlateDBError.Memory }
{
    let got = poll.state.manifest();
    Ok(CommitPut {
        version: got.id(),
        value: got.manifest.clone()?,
        why: ManifestChange::Commit(poll.steps.clone()?),
        jobs: Snapshot::of(poll.state.compactions().compactions()),
    })
}

// A try that ends with these puts of the records.
fn as_tried(polled: Result<Poll, SlateDBError>) -> Result<Tried, SlateDBError>
    ensures { result ≡ as_tried polled }
{
    match polled {
        Ok(poll) => Ok(Tried::Done(poll)),
        Err(error) => Err(error),
    }
}

// Puts what the poll reached: the manifest, if it changed a tree or the horizon, and then the
// records. `core` is what was got of the manifest, and `got` the epoch of the records that were
// got. `left` and `seen` count on for the records if the manifest is not put.
fn put_poll<S: Store>(
    alloc: Global,
    store: &mut S,
    poll: Poll,
    core: &ManifestCore,
    epoch: u64,
    got: u64,
    left: u64,
    seen: u64,
) -> Result<Tried, SlateDBError>
    requires may { MayPut (S.view store.old) poll core.now epoch got left seen }
    ensures { (may : MayPut (S.view store.old) poll core.now epoch got left seen)
        → TriesPoll (puts_of may) may.again (S.view store.old) (S.view store.new) result }
{
    if is_unchanged(core, poll.state.manifest().core()) {
        return as_tried(record_poll(alloc, store, poll, epoch, got, left, seen));
    }
    let put = commit_put(&poll)?;
    let made = store.put_manifest(put.version, put.value, put.why, Some(put.jobs));
    if let Some(version) = refused_at(&made) {
        return Ok(Tried::Refused(version));
    }
    made?;
    as_tried(record_poll(alloc, store, poll, epoch, got, MOST_REFUSED, 0))
}

/// One try of a poll. `left` tries may follow it, and `seen` is the version that the last refused
/// put met.
pub(crate) fn try_poll<S: Store>(
    alloc: Global,
    store: &mut S,
    scheduler: &(dyn CompactionScheduler + Send + Sync),
    options: &CompactorOptions,
    turn: Turn,
    left: u64,
    seen: u64,
) -> Result<Tried, SlateDBError>
    requires few { left < most_refused }
    requires may { MayTry (S.view store.old)
        (ask_of (answers scheduler.now) options.now turn) left seen }
    ensures { TriesPoll (poll_try (ask_of (answers scheduler.now) options.now turn) left seen
        (counted_tries (poll_try (ask_of (answers scheduler.now) options.now turn)) left))
        (counted_tries (poll_try (ask_of (answers scheduler.now) options.now turn)) left)
        (S.view store.old) (S.view store.new) result }
{
    let GotPoll {
        mut poll,
        core,
        epoch,
    } = get_poll(alloc, store, turn.epoch)?;
    poll.first_steps(alloc, scheduler, options, turn.moment, turn.commits_only)?;
    let specs = proposed(alloc, &poll, scheduler, options, turn.commits_only)?;
    let drawn = draw_named(alloc, store, turn.moment, specs.as_slice())?;
    poll.last_steps(
        alloc,
        scheduler,
        options,
        drawn.as_slice(),
        turn.commits_only,
    )?;
    put_poll(alloc, store, poll, &core, turn.epoch, epoch, left + 1, seen)
}
