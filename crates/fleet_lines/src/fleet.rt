//! The fleet on which a script runs.

ghost use Rattle.std.specs.Prelude.{◌≡◌, ◌<◌, ◌^◌, IfOk, IsOkUnless, OnOk, true};
ghost use Rattle.fleet_model.specs.Work.Scheduler.{Scheduler};
ghost use Rattle.fleet_rows.specs.declared.errors.SlateDBError.TheVariants as SlateDBError;
ghost use Rattle.fleet_text.specs.Lines.{line_of};
ghost use Rattle.script_model.specs.Follows.{runs_one_course};
ghost use Rattle.script_model.specs.LineSteps.{OneCourse};
ghost use Rattle.script_model.specs.Script.{IsInBounds};
ghost use Rattle.fleet_lines.specs.Fleets.{IsFresh, IsServing, state_of};
ghost use Rattle.fleet_lines.specs.Lines.{Serves, calls_store, looks_or_calls, works, works_or_asks};

use crate::names::last_name;
use crate::options::FleetOptions;
use crate::parties::LiveCoordinator;
use crate::submits::{drain_of, spec_of};
use fleet_coordinator::FlushAsk;
use fleet_fold::MergeOperator;
use fleet_looks::{dump, read_key, scan_keys, show_jobs, show_tables, show_trees};
use fleet_rows::SlateDBError;
use fleet_sched::CompactionScheduler;
use fleet_store::{HistoryEntry, MemStore};
use fleet_text::{Line, Reply};
use fleet_worker::Worker;
use std::alloc::Global;
use std::marker::Model;
use std::thread::Threads;

/// A fleet: a store in memory, and the live parties that call it. It runs the lines of a script.
#[derive(Drop)]
pub struct Fleet {
    pub(crate) alloc: Global,
    pub(crate) options: FleetOptions,
    /// In milliseconds.
    pub(crate) moment: u64,
    /// The greatest name that a flush has used, or 0 if none has.
    pub(crate) last_name: u64,
    pub(crate) store: MemStore,
    /// The last one that started first.
    pub(crate) coordinators: Vec<LiveCoordinator>,
    /// The last one that started or made a step first.
    pub(crate) workers: Vec<Worker>,
}

impl Model for Fleet {
    ghost use Rattle.fleet_lines.specs.Fleets.{FleetParts};

    ghost Value = { FleetParts };

    ghost view = { λ f. record {
      options = f.options;
      moment = f.moment;
      last_name = f.last_name;
      store = f.store;
      coordinators = f.coordinators.items;
      workers = f.workers.items;
    } };
}

impl Fleet {
    /// A fresh fleet with these options: its store is fresh, no party is live, and the moment is 0.
    pub fn new(alloc: Global, options: FleetOptions) -> Result<Fleet, SlateDBError>
        requires few { options.worker.max_subcompactions < 2 ^ 32 }
        ensures options { IfOk result (λ fleet. fleet.options ≡ options) }
        ensures fresh { IfOk result IsFresh }
        ensures memory { IsOkUnless result SlateDBError.Memory }
    {
        Ok(Fleet {
            alloc,
            options,
            moment: 0,
            last_name: 0,
            store: MemStore::new(alloc)?,
            coordinators: Vec::new(alloc),
            workers: Vec::new(alloc),
        })
    }

    /// The history of the store.
    pub fn history(&self) -> &[HistoryEntry]
        ensures { result.now ≡ self.now.store.history }
    {
        self.store.history()
    }

    /// The store.
    pub fn store(&self) -> &MemStore
        ensures { result.now ≡ self.now.store }
    {
        &self.store
    }

    /// Runs the line with this number, counted from 1, and gives its reply. A fault, a party that
    /// is not live and a refused step are replies. After `Memory` the line's calls may have been
    /// made in part, and the party that made them may be no longer live. A finish makes the tables
    /// of its ranges as `fleet_exec::finish_ranges` does. The line is no settle line and no
    /// together line.
    pub fn serve<R: Threads + Sync, O: MergeOperator>(
        &mut self,
        rt: &R,
        operator: &O,
        scheduler: &(dyn CompactionScheduler + Send + Sync),
        number: u64,
        line: Line,
    ) -> Result<Reply, SlateDBError>
        requires serving { IsServing (O.merged (O.settings operator.now)) self.old }
        requires bounds { IsInBounds (line_of line) }
        requires kind { runs_one_course (line_of line) ≡ true }
        ensures course { IfOk result (λ answer. OneCourse (record {
          merge = O.merged (O.settings operator.now);
          scheduler = answers scheduler.now;
        }) number (state_of self.old) (line_of line) answer (state_of self.new)) }
        ensures serving { OnOk result (IsServing (O.merged (O.settings operator.now)) self.new) }
        ensures memory { IsOkUnless result SlateDBError.Memory }
    {
        let known = self.store.history().len();
        let reply = self.run(rt, operator, scheduler, number, line)?;
        self.last_name = last_name(self.store.history(), known, self.last_name)?;
        Ok(reply)
    }

    // Runs the line.
    fn run<R: Threads + Sync, O: MergeOperator>(
        &mut self,
        rt: &R,
        operator: &O,
        scheduler: &(dyn CompactionScheduler + Send + Sync),
        number: u64,
        line: Line,
    ) -> Result<Reply, SlateDBError>
        requires serving { IsServing (O.merged (O.settings operator.now)) self.old }
        requires bounds { IsInBounds (line_of line) }
        requires kind { runs_one_course (line_of line) ≡ true }
        ensures served { IfOk result (Serves (record {
          merge = O.merged (O.settings operator.now);
          scheduler = answers scheduler.now;
        }) number (line_of line) self.old self.new) }
        ensures memory { IsOkUnless result SlateDBError.Memory }
    {
        match line {
            Line::Options {
                timeout,
                concurrent,
                slots,
                ranges,
                table_size,
                moves,
                retention,
            } => self.set_options(
                timeout, concurrent, slots, ranges, table_size, moves, retention,
            ),
            Line::Clock { moment } => self.set_clock(moment),
            Line::Fault { k, stands } => self.set_fault(k, stands),
            line => self.look(rt, operator, scheduler, number, line),
        }
    }

    // Runs a line that looks at the store, or that calls it and runs one course.
    fn look<R: Threads + Sync, O: MergeOperator>(
        &mut self,
        rt: &R,
        operator: &O,
        scheduler: &(dyn CompactionScheduler + Send + Sync),
        number: u64,
        line: Line,
    ) -> Result<Reply, SlateDBError>
        requires serving { IsServing (O.merged (O.settings operator.now)) self.old }
        requires bounds { IsInBounds (line_of line) }
        requires looks { looks_or_calls (line_of line) ≡ true }
        ensures served { IfOk result (Serves (record {
          merge = O.merged (O.settings operator.now);
          scheduler = answers scheduler.now;
        }) number (line_of line) self.old self.new) }
        ensures memory { IsOkUnless result SlateDBError.Memory }
    {
        match line {
            Line::Trees => show_trees(self.alloc, &self.store),
            Line::Jobs => show_jobs(self.alloc, &self.store),
            Line::Tables { segment, node } => {
                show_tables(self.alloc, &self.store, segment.as_slice(), node)
            }
            Line::Dump { segment, node } => {
                dump(self.alloc, &self.store, segment.as_slice(), node)
            }
            Line::Read {
                segment,
                key,
                seq,
                now,
            } => {
                let (segment, key) = (segment.as_slice(), key.as_slice());
                read_key(self.alloc, &self.store, operator, segment, key, seq, now)
            }
            Line::Scan {
                segment,
                from,
                to,
                seq,
                now,
                limit,
            } => {
                let segment = segment.as_slice();
                let (from, to) = (from.as_slice(), to.as_slice());
                scan_keys(
                    self.alloc,
                    &self.store,
                    operator,
                    segment,
                    from,
                    to,
                    seq,
                    now,
                    limit,
                )
            }
            line => self.call(rt, operator, scheduler, number, line),
        }
    }

    // Runs a line that calls the store and runs one course.
    fn call<R: Threads + Sync, O: MergeOperator>(
        &mut self,
        rt: &R,
        operator: &O,
        scheduler: &(dyn CompactionScheduler + Send + Sync),
        number: u64,
        line: Line,
    ) -> Result<Reply, SlateDBError>
        requires serving { IsServing (O.merged (O.settings operator.now)) self.old }
        requires bounds { IsInBounds (line_of line) }
        requires calls { calls_store (line_of line) ≡ true }
        ensures served { IfOk result (Serves (record {
          merge = O.merged (O.settings operator.now);
          scheduler = answers scheduler.now;
        }) number (line_of line) self.old self.new) }
        ensures memory { IsOkUnless result SlateDBError.Memory }
    {
        match line {
            Line::StartCoordinator { number: party } => {
                self.start_coordinator(operator, number, party)
            }
            Line::KillCoordinator { number: party } => {
                self.end_coordinator(operator, number, party)
            }
            Line::StopCoordinator { number: party } => {
                self.end_coordinator(operator, number, party)
            }
            Line::Poll { coordinator } => {
                self.poll(operator, scheduler, number, coordinator, false)
            }
            Line::Commit { coordinator } => {
                self.poll(operator, scheduler, number, coordinator, true)
            }
            Line::Sweep => self.sweep(operator, number),
            line => self.ask(rt, operator, scheduler, number, line),
        }
    }

    // Runs a line of the writer, the submitter or a worker.
    fn ask<R: Threads + Sync, O: MergeOperator>(
        &mut self,
        rt: &R,
        operator: &O,
        scheduler: &(dyn CompactionScheduler + Send + Sync),
        number: u64,
        line: Line,
    ) -> Result<Reply, SlateDBError>
        requires serving { IsServing (O.merged (O.settings operator.now)) self.old }
        requires bounds { IsInBounds (line_of line) }
        requires asks { works_or_asks (line_of line) ≡ true }
        ensures served { IfOk result (Serves (record {
          merge = O.merged (O.settings operator.now);
          scheduler = answers scheduler.now;
        }) number (line_of line) self.old self.new) }
        ensures memory { IsOkUnless result SlateDBError.Memory }
    {
        match line {
            Line::Flush {
                name,
                segment,
                floor,
                tick,
                rows,
            } => {
                let ask = FlushAsk {
                    name,
                    segment,
                    floor,
                    tick,
                    rows,
                };
                self.flush(operator, number, ask)
            }
            Line::Submit {
                segment,
                destination,
                sources,
            } => {
                let spec = spec_of(self.alloc, segment, sources.as_slice(), destination)?;
                self.submit(operator, number, spec)
            }
            Line::Drain { segment, sources } => {
                let spec = drain_of(self.alloc, segment, sources.as_slice())?;
                self.submit(operator, number, spec)
            }
            Line::Full { segment } => self.full(operator, scheduler, number, segment),
            line => self.work(rt, operator, number, line),
        }
    }

    // Runs a line of a worker.
    fn work<R: Threads + Sync, O: MergeOperator>(
        &mut self,
        rt: &R,
        operator: &O,
        number: u64,
        line: Line,
    ) -> Result<Reply, SlateDBError>
        requires serving { IsServing (O.merged (O.settings operator.now)) self.old }
        requires bounds { IsInBounds (line_of line) }
        requires works { works (line_of line) ≡ true }
        ensures served { (scheduler : Scheduler) → IfOk result (Serves (record {
          merge = O.merged (O.settings operator.now);
          scheduler = scheduler;
        }) number (line_of line) self.old self.new) }
        ensures memory { IsOkUnless result SlateDBError.Memory }
    {
        match line {
            Line::StartWorker {
                number: worker,
                release,
            } => self.start_worker(operator, number, worker, release),
            Line::KillWorker { number: worker } => self.kill_worker(operator, number, worker),
            Line::StopWorker { number: worker } => self.stop_worker(operator, number, worker),
            Line::Heartbeat { worker } => self.heartbeat(operator, number, worker),
            Line::Claim { worker } => self.claim(operator, number, worker),
            Line::Output {
                worker,
                job,
                range,
                rows,
            } => self.output(operator, number, worker, job, range, rows),
            Line::Finish { worker, job } => self.finish(rt, operator, number, worker, job),

            // No other line is a worker's.
            _ => unreachable!(),
        }
    }
}
