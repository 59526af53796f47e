//! Coordinators, and the messages that they handle.

ghost use Rattle.std.specs.Prelude.{◌≡◌, IfOk, false};
ghost use Rattle.std.specs.Bool.{OnFalse};
ghost use Rattle.step_model.specs.Courses.StepEnds.{Reports};
ghost use Rattle.step_model.specs.Kept.Keeps.{Keeps};
ghost use Rattle.step_model.specs.Steps.PollSteps.{poll, start};
ghost use Rattle.fleet_coordinator.specs.Handling.{HasHandled, IsReady, handles};
ghost use Rattle.fleet_coordinator.specs.Polling.{MayPoll, Polls, ask_of};
ghost use Rattle.fleet_coordinator.specs.Starts.{IsCoordinator};
ghost use Rattle.fleet_step.specs.Steps.{StepRan, stops};

use crate::coordinator::start;
use crate::polling::{Tried, Turn, try_poll};
use fleet_poll::{Poll, PollReport};
use fleet_rows::SlateDBError;
use fleet_sched::{CompactionScheduler, CompactorOptions};
use fleet_step::{MOST_REFUSED, stops};
use fleet_store::Store;
use std::alloc::Global;
use std::marker::Model;

/// A message to a coordinator.
#[derive(Clone, Copy, Debug, PartialEq, Eq)]
pub enum CompactorMessage {
    /// It is time to log figures. A coordinator logs none.
    LogStats,
    /// It is time for a poll.
    PollManifest,
    /// It is time to commit what workers finished.
    CommitCompacted,
}

/// A coordinator: it decides which jobs are opened, and commits what workers finished. Contracts
/// see its parts.
#[derive(Debug, Drop)]
pub struct Coordinator {
    alloc: Global,
    epoch: u64,
    stopped: bool,
}

impl Model for Coordinator {
    ghost use Rattle.fleet_coordinator.specs.Handling.{CoordinatorParts};

    ghost Value = { CoordinatorParts };

    ghost view = { λ c. record { epoch = c.epoch; stopped = c.stopped } };
}

// All tries of a poll.
fn poll_all<S: Store>(
    alloc: Global,
    store: &mut S,
    scheduler: &(dyn CompactionScheduler + Send + Sync),
    options: &CompactorOptions,
    turn: Turn,
) -> Result<Poll, SlateDBError>
    requires may { MayPoll (S.view store.old) turn.epoch }
    ensures { Polls (poll (ask_of (answers scheduler.now) options.now turn))
        (S.view store.old) (S.view store.new) result }
{
    let mut seen = 0;
    'tries: for tries in 0..MOST_REFUSED {
        let left = MOST_REFUSED - (tries + 1);
        match try_poll(alloc, store, scheduler, options, turn, left, seen)? {
            Tried::Done(poll) => return Ok(poll),
            Tried::Refused(version) => seen = version,
        }
    }
    Err(SlateDBError::Conflict { seen })
}

// A poll, and what it did.
fn report_poll<S: Store>(
    alloc: Global,
    store: &mut S,
    scheduler: &(dyn CompactionScheduler + Send + Sync),
    options: &CompactorOptions,
    turn: Turn,
) -> Result<PollReport, SlateDBError>
    requires may { MayPoll (S.view store.old) turn.epoch }
    ensures { HasHandled (poll (ask_of (answers scheduler.now) options.now turn))
        (S.view store.old) (S.view store.new) result }
{
    let poll = poll_all(alloc, store, scheduler, options, turn)?;
    poll.into_report(alloc)
}

impl Coordinator {
    /// Starts a coordinator: it puts an epoch above both stored ones, into the manifest and then
    /// into the records, which it creates if there are none.
    ///
    /// `Fenced` means that another coordinator started meanwhile, `Conflict` that 64 puts were
    /// refused in all. After `StoreFault`, `Fenced`, `Conflict` or `Memory` the epoch may stand in
    /// the manifest or in both objects; a start tried anew takes a higher one.
    pub fn start<S: Store>(alloc: Global, store: &mut S) -> Result<Coordinator, SlateDBError>
        requires by { IsCoordinator (S.view store.old) }
        requires keeps { Keeps (S.view store.old).who.merge (S.view store.old).world }
        ensures ran { StepRan (λ c. Reports c.epoch) start
            (S.view store.old) (S.view store.new) result }
        ensures running { IfOk result (λ c. c.stopped ≡ false) }
        ensures ready { IfOk result (IsReady (S.view store.new)) }
        ensures keeps { Keeps (S.view store.new).who.merge (S.view store.new).world }
    {
        match start(alloc, store) {
            Ok(epoch) => Ok(Coordinator {
                alloc,
                epoch,
                stopped: false,
            }),
            Err(error) => Err(error),
        }
    }

    /// The epoch of the coordinator.
    pub fn epoch(&self) -> u64
        ensures { result ≡ self.now.epoch }
    {
        self.epoch
    }

    /// Whether the coordinator is stopped, so that it handles no message any more.
    pub fn stopped(&self) -> bool
        ensures { result ≡ self.now.stopped }
    {
        self.stopped
    }

    /// Handles the message at this moment in milliseconds. A poll frees stale jobs, commits
    /// Compacted ones, adds what the scheduler proposes, opens, moves or drains submitted jobs, and
    /// puts the manifest and the records where it changed them. With `CommitCompacted` it commits
    /// alone. With `LogStats` nothing is done.
    ///
    /// `Fenced` means that a stored epoch is above the coordinator's, and `Conflict` that 64 puts
    /// were refused in a row. After these, `StoreFault` or `Memory` what was put before stands.
    /// After `StoreFault` or `Fenced` the coordinator is stopped. After `Conflict` or `Memory` it
    /// polls anew with what it then gets.
    pub fn handle<S: Store>(
        &mut self,
        store: &mut S,
        scheduler: &(dyn CompactionScheduler + Send + Sync),
        options: &CompactorOptions,
        moment: u64,
        message: CompactorMessage,
    ) -> Result<PollReport, SlateDBError>
        requires running { self.old.stopped ≡ false }
        requires ready { IsReady (S.view store.old) self.old }
        ensures ran { HasHandled
            (handles message (answers scheduler.now) options.now self.old.epoch moment)
            (S.view store.old) (S.view store.new) result }
        ensures stopped { self.new.stopped ≡ stops result }
        ensures epoch { self.new.epoch ≡ self.old.epoch }
        ensures ready { OnFalse self.new.stopped (IsReady (S.view store.new) self.new) }
        ensures keeps { Keeps (S.view store.new).who.merge (S.view store.new).world }
    {
        let commits_only = match message {
            CompactorMessage::LogStats => return Ok(PollReport::new(self.alloc)),
            CompactorMessage::PollManifest => false,
            CompactorMessage::CommitCompacted => true,
        };
        let turn = Turn {
            epoch: self.epoch,
            moment,
            commits_only,
        };
        let done = report_poll(self.alloc, store, scheduler, options, turn);
        self.stopped = stops(&done);
        done
    }
}
