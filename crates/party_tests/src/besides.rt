// A store before one of whose calls other parties step in.
ghost use Rattle.std.specs.Prelude.{◌≡◌, false, IfOk};
ghost use Rattle.fleet_coordinator.specs.Handling.{IsReady};
ghost use Rattle.party_tests.specs.Callers.{MayHire};
ghost use Rattle.party_tests.specs.Starts.{MayStart};

use crate::schedulers::Willing;
use crate::sites::options;
use crate::work::{beat, claim, hire};
use fleet_book::{Compactions, VersionedCompactions};
use fleet_coordinator::{CompactorMessage, Coordinator};
use fleet_jobs::Release;
use fleet_poll::PollReport;
use fleet_rows::{SlateDBError, Ulid};
use fleet_store::{ManifestChange, Note, RecordChange, Store};
use fleet_table::TableData;
use fleet_tree::{Manifest, VersionedManifest};
use fleet_worker::Worker;
use std::alloc::Global;
use std::marker::Model;
use std::snapshot::Snapshot;

/// What others do when they step in.
#[derive(Clone, Copy, Debug, PartialEq, Eq)]
pub(crate) enum Act {
    /// A coordinator starts.
    Start,
    /// A coordinator starts and frees the job of a silent worker, and another worker claims it.
    TakeJob,
    /// A worker claims the job and sends a heartbeat, or sends one more.
    Beat,
}

/// When others step in: before the get or put with this number, counted from 1, or before each put
/// of the records.
#[derive(Clone, Copy, Debug, PartialEq, Eq)]
pub(crate) enum When {
    Call(u32),
    PutsOfRecords,
}

/// A coordinator and a worker, each with its own way to a store, and when they step in.
#[derive(Drop)]
pub(crate) struct Others<S: Store + Drop> {
    alloc: Global,
    coordinator: S,
    second: S,
    worker: Worker,
    act: Act,
    when: When,
    calls: u32,
}

impl<S: Store + Drop> Model for Others<S> {
    ghost use Rattle.std.specs.Prelude.{ℕ};
    ghost use Rattle.party_tests.specs.Starts.{MayAct};

    ghost Value = { ℕ };

    ghost view = { λ o. 0 };

    ghost invariant = { λ o. MayAct (S.view o.coordinator) (S.view o.second) o.worker };
}

impl<S: Store + Drop> Others<S> {
    /// A coordinator, and the worker 2.
    pub(crate) fn new(alloc: Global, coordinator: S, second: S, act: Act, when: When) -> Others<S>
        requires starts { MayStart (S.view coordinator) }
        requires works { MayHire (S.view second) 2 }
    {
        let worker = hire(alloc, &second, 2, Release::Two);
        Others {
            alloc,
            coordinator,
            second,
            worker,
            act,
            when,
            calls: 0,
        }
    }

    fn act(&mut self) {
        match self.act {
            Act::Start => {
                let _started = start(self.alloc, &mut self.coordinator);
            }
            Act::TakeJob => {
                let _freed = free_jobs(self.alloc, &mut self.coordinator);
                let _claimed = claim(&mut self.second, &mut self.worker, 1, 3000);
            }
            Act::Beat => {
                let _claimed = claim(&mut self.second, &mut self.worker, 1, 3000);
                let _beaten = beat(&mut self.second, &mut self.worker, 3000);
            }
        }
    }

    // Steps in, if it is time for that.
    fn wait(&mut self, puts_records: bool) {
        self.calls = self.calls.saturating_add(1);
        let is_time = match self.when {
            When::Call(number) => number == self.calls,
            When::PutsOfRecords => puts_records,
        };
        if is_time {
            self.act();
        }
    }
}

/// A coordinator starts.
pub(crate) fn start<S: Store>(alloc: Global, store: &mut S) -> Result<Coordinator, SlateDBError>
    requires { MayStart (S.view store.old) }
    ensures may { MayStart (S.view store.new) }
    ensures running { IfOk result (λ c. c.stopped ≡ false) }
    ensures ready { IfOk result (IsReady (S.view store.new)) }
{
    Coordinator::start(alloc, store)
}

/// A coordinator starts and polls much later.
pub(crate) fn free_jobs<S: Store>(alloc: Global, store: &mut S) -> Result<PollReport, SlateDBError>
    requires { MayStart (S.view store.old) }
    ensures { MayStart (S.view store.new) }
{
    let mut coordinator = start(alloc, store)?;
    let scheduler = Willing::new(alloc);
    let message = CompactorMessage::PollManifest;
    coordinator.handle(store, &scheduler, &options(false), 3000, message)
}

/// A store before one of whose calls others step in.
#[derive(Drop)]
pub(crate) struct Beside<S: Store + Drop> {
    pub store: S,
    pub others: Others<S>,
}

impl<S: Store + Drop> Store for Beside<S> {
    ghost view = { λ b. S.view b.store };

    ghost lawful = { λ b. S.lawful b.store };

    fn get_manifest(&mut self) -> Result<VersionedManifest, SlateDBError> {
        self.others.wait(false);
        self.store.get_manifest()
    }

    fn put_manifest(
        &mut self,
        version: u64,
        value: Manifest,
        why: ManifestChange,
        jobs: Option<Snapshot<Compactions>>,
    ) -> Result<u64, SlateDBError> {
        self.others.wait(false);
        self.store.put_manifest(version, value, why, jobs)
    }

    fn get_records(&mut self) -> Result<Option<VersionedCompactions>, SlateDBError> {
        self.others.wait(false);
        self.store.get_records()
    }

    fn put_records(
        &mut self,
        version: u64,
        value: Compactions,
        why: RecordChange,
    ) -> Result<u64, SlateDBError> {
        self.others.wait(true);
        self.store.put_records(version, value, why)
    }

    fn put_table(&mut self, id: Ulid, table: TableData) -> Result<(), SlateDBError> {
        self.others.wait(false);
        self.store.put_table(id, table)
    }

    fn get_table(&mut self, id: Ulid) -> Result<Option<TableData>, SlateDBError> {
        self.others.wait(false);
        self.store.get_table(id)
    }

    fn draw_job(&mut self, moment: u64) -> Result<Ulid, SlateDBError> {
        self.store.draw_job(moment)
    }

    fn note(&mut self, note: Note) -> Result<(), SlateDBError> {
        self.store.note(note)
    }

    fn draw_table(&mut self, moment: u64) -> Result<Ulid, SlateDBError> {
        self.store.draw_table(moment)
    }
}
