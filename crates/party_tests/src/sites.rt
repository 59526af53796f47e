// A store in memory that meets the invariant, and the steps of all parties over it.
ghost use Rattle.std.specs.Prelude.{◌≡◌, fold, max, IfOk};
ghost use Rattle.course_laws.specs.Flushes.{MayAsk};
ghost use Rattle.fleet_coordinator.specs.Flushes.{ask_of};
ghost use Rattle.fleet_history.specs.Entries.{event_of, history_of};
ghost use Rattle.step_model.specs.Entries as entries;
ghost use Rattle.party_tests.specs.Callers.{IsIdle};

use crate::schedulers::Willing;
use crate::work::{Task, job, work};
use bytes::Bytes;
use fleet_book::CompactionRequest;
use fleet_coordinator::{
    CompactorMessage, Coordinator, FlushAsk, FlushFault, flush, submit, submit_request,
};
use fleet_fold::{AppendOperator, MergeOperator};
use fleet_history::{Answer, Event, HistoryEntry, Party};
use fleet_jobs::{Compaction, CompactionSpec, CompactionStatus, Release, SourceId};
use fleet_poll::PollReport;
use fleet_rows::{DRAWN_BASE, JobList, ListOf, RowEntry, SlateDBError, Ulid, ValueDeletable};
use fleet_sched::{CompactorOptions, SizeTieredCompactionSchedulerOptions};
use fleet_store::MemStore;
use fleet_table::are_in_bounds;
use fleet_worker::Worker;
use std::alloc::Global;
use std::marker::Model;
use std::thread::Threads;
use step_laws::fresh_keeps;

/// A row: its key, its sequence, and its operand, or None for a tombstone.
pub(crate) type Cell = (&'static str, u64, Option<&'static str>);

fn row(alloc: Global, cell: Cell) -> Result<RowEntry, SlateDBError> {
    let (key, seq, operand) = cell;
    let key = Bytes::copy_from_slice(alloc, key.as_bytes())?;
    let value = match operand {
        Some(text) => ValueDeletable::Merge(Bytes::copy_from_slice(alloc, text.as_bytes())?),
        None => ValueDeletable::Tombstone,
    };
    Ok(RowEntry::new(key, value, seq, None, None))
}

/// What the writer asks with under this name: a flush of these rows into the segment.
pub(crate) fn ask(
    alloc: Global,
    name: u64,
    segment: &'static str,
    floor: u64,
    cells: &[Cell],
) -> Result<FlushAsk, SlateDBError>
    ensures { IfOk result (λ ask. MayAsk (ask_of ask)) }
{
    let mut rows = ListOf::new(alloc);
    for cell in cells {
        rows.push(row(alloc, *cell)?)?;
    }
    if rows.is_empty() || !are_in_bounds(rows.as_slice()) {
        return Err(SlateDBError::InvalidDBState);
    }
    Ok(FlushAsk {
        name,
        segment: Bytes::copy_from_slice(alloc, segment.as_bytes())?,
        floor,
        tick: 0,
        rows,
    })
}

// The number of the table, if a flush put it, or 0.
fn flush_name(table: Ulid) -> u128
    ensures { result ≡ entries.name_in (event_of (Event.PutTable table 0)) }
{
    if table < Ulid::from_parts(0, DRAWN_BASE) {
        table.number()
    } else {
        0
    }
}

// The greater one of the name and that of the entry.
fn with_entry(last: u128, entry: &HistoryEntry) -> u128
    ensures { result ≡ max last (entries.name_in (event_of entry.now.event)) }
{
    match &entry.event {
        Event::PutTable(table, _) => last.max(flush_name(*table)),
        _ => last,
    }
}

/// The greatest name that a flush has used, or 0.
pub(crate) fn last_name(history: &[HistoryEntry]) -> Result<u64, SlateDBError>
    ensures { IfOk result (λ name. name ≡ entries.last_name (history_of history.now)) }
{
    let last = history.iter().fold(0, with_entry);
    if last > u64::MAX as u128 {
        return Err(SlateDBError::Memory);
    }
    Ok(last as u64)
}

// Nothing, if the flush had no fault.
fn whole(flushed: Result<Option<FlushFault>, SlateDBError>) -> Result<(), SlateDBError> {
    match flushed? {
        None => Ok(()),
        Some(_) => Err(SlateDBError::InvalidDBState),
    }
}

/// Four jobs at once, and one second of silence.
pub(crate) fn options(moves: bool) -> CompactorOptions {
    CompactorOptions {
        max_concurrent_compactions: 4,
        worker_heartbeat_timeout_ms: 1000,
        enable_trivial_move: moves,
        scheduler_options: SizeTieredCompactionSchedulerOptions::default(),
    }
}

/// The spec that merges these flushes of the segment to the run, or drains them without a run.
pub(crate) fn spec(
    alloc: Global,
    segment: &'static str,
    flushes: &[u64],
    run: Option<u32>,
) -> Result<CompactionSpec, SlateDBError> {
    let segment = Bytes::copy_from_slice(alloc, segment.as_bytes())?;
    let mut sources = Vec::new(alloc);
    for name in flushes {
        sources.push(SourceId::SstView(Ulid::from_parts(0, *name as u128)))?;
    }
    Ok(match run {
        Some(run) => CompactionSpec::for_segment(segment, sources, run),
        None => CompactionSpec::drain_segment(segment, sources),
    })
}

// A worker that runs nothing.
fn idle(alloc: Global) -> Worker
    ensures { IsIdle result }
{
    Worker::start(alloc, 0, Release::One)
}

/// A store in memory that meets the invariant, and a worker that nobody else disturbs. A step of
/// another party ends the worker's time.
#[derive(Drop)]
pub(crate) struct Site<O: MergeOperator + Copy> {
    pub alloc: Global,
    pub operator: O,
    pub store: MemStore,
    pub worker: Worker,
}

impl<O: MergeOperator + Copy> Model for Site<O> {
    ghost use Rattle.std.specs.Prelude.{ℕ};
    ghost use Rattle.party_tests.specs.Callers.{IsStaffed};

    ghost Value = { ℕ };

    ghost view = { λ s. 0 };

    ghost invariant = { λ s. IsStaffed (O.merged (O.settings s.operator)) s.store.world s.worker };
}

impl<O: MergeOperator + Copy> Site<O> {
    /// A site with a fresh store.
    pub(crate) fn new(alloc: Global, operator: O) -> Result<Site<O>, SlateDBError> {
        fresh_keeps();
        let store = MemStore::new(alloc)?;
        Ok(Site {
            alloc,
            operator,
            store,
            worker: idle(alloc),
        })
    }

    /// A worker of this release starts, and no other one works.
    pub(crate) fn hire(&mut self, number: u64, release: Release) {
        self.worker = Worker::start(self.alloc, number, release);
    }

    /// Makes the step of the worker at this moment, with so many ranges at most.
    pub(crate) fn work<R: Threads + Sync>(
        &mut self,
        rt: &R,
        ranges: u32,
        moment: u64,
        step: Task,
    ) -> Result<bool, SlateDBError> {
        self.store.set_actor(0, Party::Worker(self.worker.id()));
        let mut under = self.store.under(&self.operator);
        work(
            rt,
            &mut under,
            &self.operator,
            &mut self.worker,
            ranges,
            moment,
            step,
        )
    }

    /// Flushes these rows into the segment, under the next name.
    pub(crate) fn flush(
        &mut self,
        segment: &'static str,
        floor: u64,
        cells: &[Cell],
    ) -> Result<(), SlateDBError> {
        let last = last_name(self.store.history())?;
        let ask = ask(self.alloc, last.saturating_add(1), segment, floor, cells)?;
        self.worker = idle(self.alloc);
        self.store.set_actor(0, Party::Writer);
        let mut under = self.store.under(&self.operator);
        whole(flush(self.alloc, &mut under, 0, 0, last, ask))
    }

    // Submits these jobs.
    fn submit_all(&mut self, specs: Vec<CompactionSpec>) -> Result<JobList, SlateDBError> {
        self.worker = idle(self.alloc);
        self.store.set_actor(0, Party::Submitter);
        let mut under = self.store.under(&self.operator);
        submit(self.alloc, &mut under, 0, specs)
    }

    // Requests what the scheduler makes of this.
    fn request(
        &mut self,
        scheduler: &Willing,
        request: &CompactionRequest,
    ) -> Result<JobList, SlateDBError> {
        self.worker = idle(self.alloc);
        self.store.set_actor(0, Party::Submitter);
        let mut under = self.store.under(&self.operator);
        submit_request(self.alloc, &mut under, 0, scheduler, request)
    }

    /// Submits a job that merges these flushes to the run, or drains them without a run. With a
    /// scheduler it requests that job.
    pub(crate) fn submit(
        &mut self,
        scheduler: Option<&Willing>,
        segment: &'static str,
        flushes: &[u64],
        run: Option<u32>,
    ) -> Result<JobList, SlateDBError> {
        let spec = spec(self.alloc, segment, flushes, run)?;
        match scheduler {
            Some(scheduler) => self.request(scheduler, &CompactionRequest::Spec(spec)),
            None => {
                let specs = vec![in self.alloc; spec]?;
                self.submit_all(specs)
            }
        }
    }

    /// The coordinator 1 starts anew, and handles the message at this moment.
    pub(crate) fn handle(
        &mut self,
        scheduler: &Willing,
        moves: bool,
        moment: u64,
        message: CompactorMessage,
    ) -> Result<PollReport, SlateDBError> {
        self.worker = idle(self.alloc);
        self.store.set_actor(0, Party::Coordinator(1));
        let mut under = self.store.under(&self.operator);
        let mut coordinator = Coordinator::start(self.alloc, &mut under)?;
        coordinator.handle(&mut under, scheduler, &options(moves), moment, message)
    }

    /// The coordinator 1 starts anew and polls, with a scheduler that proposes nothing.
    pub(crate) fn poll(&mut self, moves: bool, moment: u64) -> Result<PollReport, SlateDBError> {
        let scheduler = Willing::new(self.alloc);
        self.handle(&scheduler, moves, moment, CompactorMessage::PollManifest)
    }

    /// The record of the job with this number, if it is stored.
    pub(crate) fn record(&self, number: u64) -> Option<&Compaction> {
        self.store.records()?.compactions().get(&job(number))
    }

    /// The status of the job with this number, if it is stored.
    pub(crate) fn status(&self, number: u64) -> Option<CompactionStatus> {
        Some(self.record(number)?.status())
    }

    /// Whether a fault ended the step. The last entry says whether the struck call stands.
    pub(crate) fn is_struck<T>(&self, ended: &Result<T, SlateDBError>, stands: bool) -> bool {
        let answer = if stands { Answer::Stands } else { Answer::Lost };
        match (ended, self.store.history().last()) {
            (Err(SlateDBError::StoreFault), Some(entry)) => entry.answer == answer,
            _ => false,
        }
    }
}

/// The versions of the manifest and of the records.
pub(crate) fn versions(store: &MemStore) -> (u64, u64) {
    let records = match store.records() {
        Some(records) => records.id(),
        None => 0,
    };
    (store.manifest().id, records)
}

/// A site with a job that waits for a worker and merges two flushes of the key `a` to the run 0.
pub(crate) fn small(alloc: Global) -> Result<Site<AppendOperator>, SlateDBError> {
    waiting(
        alloc,
        AppendOperator,
        0,
        &[("a", 1, Some("1"))],
        &[("a", 2, Some("2"))],
    )
}

/// The same, of flushes with these rows and this floor.
pub(crate) fn waiting<O: MergeOperator + Copy>(
    alloc: Global,
    operator: O,
    floor: u64,
    older: &[Cell],
    newer: &[Cell],
) -> Result<Site<O>, SlateDBError> {
    let mut site = Site::new(alloc, operator)?;
    site.flush("", floor, older)?;
    site.flush("", floor, newer)?;
    site.poll(false, 0)?;
    site.submit(None, "", &[2, 1], Some(0))?;
    site.poll(false, 0)?;
    Ok(site)
}
