//! The steps of the parties over the store of a fleet, lent to them in a line of a script.

ghost use Rattle.std.specs.Prelude.{◌≡◌, ℕ, ◌≤◌, ◌<◌, ◌^◌, ◌∷◌, [], false, map, IfOk, IsOkUnless, IsSome, OnErr, OnOk, if◌then◌else◌};
ghost use Rattle.std.specs.Bool.{OnFalse};
ghost use Rattle.fleet_model.specs.Work.Scheduler.{Scheduler};
ghost use Rattle.step_model.specs.Courses.StepEnds.{Reports};
ghost use Rattle.step_model.specs.Entries as entries;
ghost use Rattle.step_model.specs.Fits.{CoordinatorHolds};
ghost use Rattle.step_model.specs.Kept.Keeps.{Keeps};
ghost use Rattle.step_model.specs.Steps.BeatSteps.{heartbeat, release_all};
ghost use Rattle.step_model.specs.Steps.ClaimSteps.{claim};
ghost use Rattle.step_model.specs.Steps.FlushSteps as flushing;
ghost use Rattle.step_model.specs.Steps.PollSteps as polling;
ghost use Rattle.step_model.specs.Steps.SubmitSteps as submitting;
ghost use Rattle.course_laws.specs.Flushes.{MayAsk};
ghost use Rattle.fleet_rows.specs.declared.errors.SlateDBError.TheVariants as SlateDBError;
ghost use Rattle.fleet_jobs.specs.Specs.{spec_of};
ghost use Rattle.fleet_book.specs.Requests.{request_of};
ghost use Rattle.fleet_history.specs.Entries.{event_of};
ghost use Rattle.fleet_history.specs.Notes.{event_of_note};
ghost use Rattle.fleet_history.specs.declared.party.Party.TheVariants as actor;
ghost use Rattle.fleet_claim.specs.Beginnings.{options_of};
ghost use Rattle.fleet_coordinator.specs.Flushes.{ask_of, ends};
ghost use Rattle.fleet_coordinator.specs.Polling as asks;
ghost use Rattle.fleet_coordinator.specs.declared.handling.CompactorMessage.TheVariants as messages;
ghost use Rattle.fleet_history.specs.Parties.{party_of};
ghost use Rattle.fleet_worker.specs.Beats.{beat_ends};
ghost use Rattle.fleet_worker.specs.Claims.{claim_ends};
ghost use Rattle.fleet_worker.specs.Finishing.{left_finished};
ghost use Rattle.fleet_worker.specs.Outputs.{RunsRange, left_by};
ghost use Rattle.fleet_worker.specs.Workers.{live_of, ranges_at};
ghost use Rattle.fleet_step.specs.Steps.{stops};
ghost use Rattle.script_model.specs.States.{State};
ghost use Rattle.fleet_lines.specs.Steps.{Made, MayWork, Noted, note_event, Polled};
ghost use Rattle.fleet_lines.specs.Sweeps.{Swept};
ghost use Rattle.fleet_lines.specs.Work.{FinishMade, OutputMade};
ghost use Rattle.script_model.specs.Lines.Starts.{killed_first};

use crate::parties::LiveCoordinator;
use fleet_book::CompactionRequest;
use fleet_coordinator as coordinator;
use fleet_coordinator::{CompactorMessage, Coordinator, FlushAsk, FlushFault};
use fleet_exec::OpenGate;
use fleet_fold::MergeOperator;
use fleet_jobs::CompactionSpec;
use fleet_poll::PollReport;
use fleet_rows::{IdList, JobList, SlateDBError, Ulid};
use fleet_sched::{CompactionScheduler, CompactorOptions};
use fleet_store::{MemStore, Note, Party, Store};
use fleet_tree::{OutputList, SsTableHandle};
use fleet_worker::{BeatReport, ClaimReport, CompactionWorkerOptions, Worker};
use std::alloc::Global;
use std::thread::Threads;

/// The submitter submits jobs of these specs.
pub(crate) fn submitted<O: MergeOperator>(
    alloc: Global,
    store: &mut MemStore,
    operator: &O,
    number: u64,
    moment: u64,
    specs: Vec<CompactionSpec>,
) -> Result<JobList, SlateDBError>
    requires { Keeps (O.merged (O.settings operator.now)) store.old.world }
    ensures { Made Reports (submitting.submit moment (map spec_of specs.items))
        (O.merged (O.settings operator.now)) number actor.Submitter store.old store.new result }
{
    let mut under = store.under(operator);
    under.set_actor(number, Party::Submitter);
    coordinator::submit(alloc, &mut under, moment, specs)
}

/// The submitter submits the jobs that the scheduler makes of this request.
pub(crate) fn requested<O: MergeOperator>(
    alloc: Global,
    store: &mut MemStore,
    operator: &O,
    number: u64,
    moment: u64,
    scheduler: &(dyn CompactionScheduler + Send + Sync),
    request: &CompactionRequest,
) -> Result<JobList, SlateDBError>
    requires { Keeps (O.merged (O.settings operator.now)) store.old.world }
    ensures { Made Reports
        (submitting.submit_request moment (answers scheduler.now) (request_of request.now))
        (O.merged (O.settings operator.now)) number actor.Submitter store.old store.new result }
{
    let mut under = store.under(operator);
    under.set_actor(number, Party::Submitter);
    coordinator::submit_request(alloc, &mut under, moment, scheduler, request)
}

/// The writer flushes rows.
pub(crate) fn flushed<O: MergeOperator>(
    alloc: Global,
    store: &mut MemStore,
    operator: &O,
    number: u64,
    moment: u64,
    retention_ms: u64,
    last_name: u64,
    ask: FlushAsk,
) -> Result<Option<FlushFault>, SlateDBError>
    requires keeps { Keeps (O.merged (O.settings operator.now)) store.old.world }
    requires may { MayAsk (ask_of ask) }
    requires names { entries.last_name store.old.world.store.history ≤ last_name }
    ensures { Made ends (flushing.flush moment retention_ms last_name (ask_of ask))
        (O.merged (O.settings operator.now)) number actor.Writer store.old store.new result }
{
    let mut under = store.under(operator);
    under.set_actor(number, Party::Writer);
    coordinator::flush(alloc, &mut under, moment, retention_ms, last_name, ask)
}

/// The party makes a note that it comes or goes.
pub(crate) fn noted<O: MergeOperator>(
    store: &mut MemStore,
    operator: &O,
    number: u64,
    party: Party,
    comes: bool,
) -> Result<(), SlateDBError>
    requires { Keeps (O.merged (O.settings operator.now)) store.old.world }
    ensures made { OnOk result (Noted (O.merged (O.settings operator.now)) number party
        (note_event comes party ∷ []) store.old store.new) }
    ensures memory { IsOkUnless result SlateDBError.Memory }
{
    let note = coming(party, comes);
    let mut under = store.under(operator);
    under.set_actor(number, party);
    under.note(note)
}

/// The party makes a note that it goes, if it was live.
pub(crate) fn killed<O: MergeOperator>(
    store: &mut MemStore,
    operator: &O,
    number: u64,
    party: Party,
    was_live: bool,
) -> Result<(), SlateDBError>
    requires { Keeps (O.merged (O.settings operator.now)) store.old.world }
    ensures made { OnOk result (Noted (O.merged (O.settings operator.now)) number party
        (killed_first was_live (party_of party)) store.old store.new) }
    ensures keeps { OnOk result (Keeps (O.merged (O.settings operator.now)) store.new.world) }
    ensures memory { IsOkUnless result SlateDBError.Memory }
{
    if was_live {
        noted(store, operator, number, party, false)
    } else {
        Ok(())
    }
}

// The note that the party comes or goes.
fn coming(party: Party, comes: bool) -> Note
    ensures { event_of (event_of_note result) ≡ note_event comes party }
{
    if comes {
        Note::Start(party)
    } else {
        Note::Kill(party)
    }
}

/// The worker claims jobs.
pub(crate) fn claimed<O: MergeOperator>(
    store: &mut MemStore,
    operator: &O,
    number: u64,
    worker: &mut Worker,
    options: &CompactionWorkerOptions,
    moment: u64,
) -> Result<ClaimReport, SlateDBError>
    requires running { worker.old.stopped ≡ false }
    requires may { MayWork (O.merged (O.settings operator.now)) store.old.world worker.old }
    requires few { options.now.max_subcompactions < 2 ^ 32 }
    ensures made { Made (claim_ends worker.new.attempts)
        (claim (options_of options.now) moment (live_of worker.old))
        (O.merged (O.settings operator.now)) number (actor.Worker worker.old.number)
        store.old store.new result }
    ensures stopped { worker.new.stopped ≡ stops result }
    ensures same { worker.new ≡ record worker.old {
      attempts = worker.new.attempts;
      stopped = worker.new.stopped;
    } }
    ensures err { OnErr result (worker.new.attempts ≡ worker.old.attempts) }
    ensures may { OnFalse worker.new.stopped
        (MayWork (O.merged (O.settings operator.now)) store.new.world worker.new) }
{
    let mut under = store.under(operator);
    under.set_actor(number, Party::Worker(worker.id()));
    worker.claim(&mut under, options, moment)
}

/// The worker writes the next rows of the range at this place of its attempt at the job.
pub(crate) fn written<O: MergeOperator>(
    store: &mut MemStore,
    operator: &O,
    number: u64,
    worker: &mut Worker,
    moment: u64,
    job: Ulid,
    range: u32,
    rows: u64,
) -> Result<Option<SsTableHandle>, SlateDBError>
    requires running { worker.old.stopped ≡ false }
    requires may { MayWork (O.merged (O.settings operator.now)) store.old.world worker.old }
    requires runs { RunsRange worker.old job range }
    requires some { 1 ≤ rows }
    ensures made { (scheduler : Scheduler) (s : State) → s.moment ≡ moment
        → s.store ≡ store.old.world.store → OutputMade (record {
          merge = O.merged (O.settings operator.now);
          scheduler = scheduler;
        }) s number worker.old store.old store.new worker.new.attempts range rows result job }
    ensures stopped { worker.new.stopped ≡ stops result }
    ensures same { worker.new ≡ record worker.old {
      attempts = worker.new.attempts;
      stopped = worker.new.stopped;
    } }
    ensures err { OnErr result (worker.new.attempts ≡ left_by result job worker.old.attempts) }
    ensures may { OnFalse worker.new.stopped
        (MayWork (O.merged (O.settings operator.now)) store.new.world worker.new) }
{
    let mut under = store.under(operator);
    under.set_actor(number, Party::Worker(worker.id()));
    worker.output(&mut under, operator, moment, job, range, rows)
}

/// The worker finishes its attempt at the job. Nothing delays the tables of its ranges.
pub(crate) fn finished<R: Threads + Sync, O: MergeOperator>(
    rt: &R,
    store: &mut MemStore,
    operator: &O,
    number: u64,
    worker: &mut Worker,
    options: &CompactionWorkerOptions,
    moment: u64,
    job: Ulid,
) -> Result<OutputList, SlateDBError>
    requires running { worker.old.stopped ≡ false }
    requires may { MayWork (O.merged (O.settings operator.now)) store.old.world worker.old }
    requires runs { IsSome (ranges_at worker.old.attempts job) }
    ensures made { (scheduler : Scheduler) (s : State) → s.moment ≡ moment
        → s.options.table_size ≡ options.now.max_sst_size → s.store ≡ store.old.world.store
        → FinishMade (record {
          merge = O.merged (O.settings operator.now);
          scheduler = scheduler;
        }) s number worker.old store.old store.new worker.new.attempts result job }
    ensures stopped { worker.new.stopped ≡ stops result }
    ensures same { worker.new ≡ record worker.old {
      attempts = worker.new.attempts;
      stopped = worker.new.stopped;
    } }
    ensures left { worker.new.attempts ≡ left_finished result job worker.old.attempts }
    ensures may { OnFalse worker.new.stopped
        (MayWork (O.merged (O.settings operator.now)) store.new.world worker.new) }
{
    let mut under = store.under(operator);
    under.set_actor(number, Party::Worker(worker.id()));
    worker.finish(rt, &mut under, operator, options, &OpenGate, moment, job)
}

/// The worker sends a heartbeat.
pub(crate) fn beaten<O: MergeOperator>(
    store: &mut MemStore,
    operator: &O,
    number: u64,
    worker: &mut Worker,
    moment: u64,
) -> Result<BeatReport, SlateDBError>
    requires running { worker.old.stopped ≡ false }
    requires may { MayWork (O.merged (O.settings operator.now)) store.old.world worker.old }
    ensures made { Made (beat_ends worker.new.attempts) (heartbeat moment (live_of worker.old))
        (O.merged (O.settings operator.now)) number (actor.Worker worker.old.number)
        store.old store.new result }
    ensures stopped { worker.new.stopped ≡ stops result }
    ensures same { worker.new ≡ record worker.old {
      attempts = worker.new.attempts;
      stopped = worker.new.stopped;
    } }
    ensures err { OnErr result (worker.new.attempts ≡ worker.old.attempts) }
    ensures may { OnFalse worker.new.stopped
        (MayWork (O.merged (O.settings operator.now)) store.new.world worker.new) }
{
    let mut under = store.under(operator);
    under.set_actor(number, Party::Worker(worker.id()));
    worker.heartbeat(&mut under, moment)
}

/// The worker gives its live attempts back.
pub(crate) fn released<O: MergeOperator>(
    store: &mut MemStore,
    operator: &O,
    number: u64,
    worker: &mut Worker,
) -> Result<JobList, SlateDBError>
    requires running { worker.old.stopped ≡ false }
    requires may { MayWork (O.merged (O.settings operator.now)) store.old.world worker.old }
    ensures { Made Reports (release_all (live_of worker.old)) (O.merged (O.settings operator.now))
        number (actor.Worker worker.old.number) store.old store.new result }
{
    let mut under = store.under(operator);
    under.set_actor(number, Party::Worker(worker.id()));
    worker.release_all(&mut under)
}

/// The coordinator with this number starts.
pub(crate) fn started<O: MergeOperator>(
    alloc: Global,
    store: &mut MemStore,
    operator: &O,
    number: u64,
    coordinator: u64,
) -> Result<LiveCoordinator, SlateDBError>
    requires { Keeps (O.merged (O.settings operator.now)) store.old.world }
    ensures made { Made (λ c. Reports c.epoch) polling.start
        (O.merged (O.settings operator.now)) number (actor.Coordinator coordinator)
        store.old store.new result }
    ensures number { IfOk result (λ c. c.number ≡ coordinator) }
    ensures holds { IfOk result (λ c. CoordinatorHolds store.new.world c None) }
    ensures keeps { Keeps (O.merged (O.settings operator.now)) store.new.world }
{
    let mut under = store.under(operator);
    under.set_actor(number, Party::Coordinator(coordinator));
    match Coordinator::start(alloc, &mut under) {
        Ok(started) => Ok(LiveCoordinator {
            number: coordinator,
            coordinator: started,
        }),
        Err(error) => Err(error),
    }
}

// The message by which a coordinator polls, or only commits.
fn message_for(commits_only: bool) -> CompactorMessage
    ensures { result ≡ (if commits_only then messages.CommitCompacted else messages.PollManifest) }
{
    if commits_only {
        CompactorMessage::CommitCompacted
    } else {
        CompactorMessage::PollManifest
    }
}

/// The coordinator polls, or only commits. It comes back with what the poll reports. A poll that
/// does not report drops it.
pub(crate) fn polled<O: MergeOperator>(
    store: &mut MemStore,
    operator: &O,
    number: u64,
    live: LiveCoordinator,
    scheduler: &(dyn CompactionScheduler + Send + Sync),
    options: &CompactorOptions,
    moment: u64,
    commits_only: bool,
) -> Result<(LiveCoordinator, PollReport), SlateDBError>
    requires keeps { Keeps (O.merged (O.settings operator.now)) store.old.world }
    requires holds { CoordinatorHolds store.old.world live None }
    ensures { Polled (polling.poll (asks.ask_of (answers scheduler.now) options.now (record {
      epoch = live.epoch;
      moment = moment;
      commits_only = commits_only;
    }))) (O.merged (O.settings operator.now)) number live store.old store.new result }
{
    let LiveCoordinator {
        number: party,
        mut coordinator,
    } = live;
    let message = message_for(commits_only);
    let mut under = store.under(operator);
    under.set_actor(number, Party::Coordinator(party));
    match coordinator.handle(&mut under, scheduler, options, moment, message) {
        Ok(report) => Ok((
            LiveCoordinator {
                number: party,
                coordinator,
            },
            report,
        )),
        Err(error) => Err(error),
    }
}

/// The sweeper deletes the tables that nothing can need and that are not pinned.
pub(crate) fn swept<O: MergeOperator>(
    alloc: Global,
    store: &mut MemStore,
    operator: &O,
    number: u64,
    pins: &IdList,
) -> Result<IdList, SlateDBError>
    requires keeps { Keeps (O.merged (O.settings operator.now)) store.old.world }
    requires none_pending { (table : ℕ)
        → entries.is_pending store.old.world.store.history table ≡ false }
    ensures { Swept pins.now (O.merged (O.settings operator.now)) number
        store.old store.new result }
{
    let mut under = store.under(operator);
    under.set_actor(number, Party::Sweeper);
    fleet_sweep::sweep(alloc, &mut under, pins)
}
