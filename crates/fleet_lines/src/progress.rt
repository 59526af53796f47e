//! What a fleet shows of its work: which parties are live, and what is left for them to do.

ghost use Rattle.std.specs.Prelude.{◌≡◌, ◌≤◌, ◌==◌, find, map, reverse, IfOk, IsOkUnless, Some};
ghost use Rattle.std.specs.List.{All, list_any};
ghost use Rattle.std.specs.Option.{option_copied};
ghost use Rattle.fleet_model.specs.History.{Coordinator};
ghost use Rattle.fleet_model.specs.Jobs.{number_of};
ghost use Rattle.fleet_rows.specs.declared.errors.SlateDBError.TheVariants as SlateDBError;
ghost use Rattle.fleet_history.specs.Changes.{record_change_of};
ghost use Rattle.fleet_history.specs.Entries.{event_of};
ghost use Rattle.fleet_history.specs.Parties.{party_of};
ghost use Rattle.fleet_jobs.specs.Jobs.{is_open};
ghost use Rattle.fleet_model.specs.History as model;
ghost use Rattle.step_model.specs.Entries.{party_eq};
ghost use Rattle.script_model.specs.Lines.Settles as settles;
ghost use Rattle.script_model.specs.Lines.Settles.{is_adding};
ghost use Rattle.fleet_lines.specs.Fleets.{state_of};

use crate::Fleet;
use crate::lookups::worker_with;
use crate::parties::LiveCoordinator;
use fleet_book::VersionedCompactions;
use fleet_rows::{SlateDBError, Ulid};
use fleet_store::{Event, HistoryEntry, Party, RecordChange};
use fleet_worker::{RunAttempt, Worker};
use std::alloc::Global;

// Whether a coordinator has this number.
fn has_coordinator(coordinators: &[LiveCoordinator], number: u64) -> bool
    ensures { result ≡ list_any (λ c. number == c.number) coordinators.now }
{
    coordinators
        .iter()
        .any(|coordinator| number == coordinator.number)
}

// Whether a worker has this number.
fn has_worker(workers: &[Worker], number: u64) -> bool
    ensures { result ≡ list_any (λ w. number == w.number) workers.now }
{
    workers.iter().any(|worker| number == worker.id())
}

// Whether a job of the records is not over.
fn has_open(records: &VersionedCompactions) -> bool
    ensures { result ≡ list_any is_open records.now.compactions.jobs }
{
    records.recent_compactions().any(|job| job.active())
}

// Whether the entry is of a call of this coordinator.
fn is_by(entry: &HistoryEntry, coordinator: u64) -> bool
    ensures { result ≡ party_eq (Coordinator coordinator) (party_of entry.now.party) }
{
    match entry.party {
        Party::Coordinator(number) => coordinator == number,
        _ => false,
    }
}

// The last entry of a call of this coordinator.
fn last_entry(history: &[HistoryEntry], coordinator: u64) -> Option<&HistoryEntry>
    ensures { option_copied result
        ≡ find (λ entry. party_eq (Coordinator coordinator) (party_of entry.party))
        (reverse history.now) }
{
    history.iter().rev().find(|entry| is_by(entry, coordinator))
}

// Whether the change of the records is by a poll that added a job.
fn adds_job(change: &RecordChange) -> bool
    ensures { result ≡ is_adding (Some (model.PutRecords (record_change_of change.now))) }
{
    match change {
        RecordChange::Poll(change) => !change.added.is_empty(),
        _ => false,
    }
}

// Whether the event is a put of the records by a poll that added a job.
fn is_adding(event: &Event) -> bool
    ensures { result ≡ is_adding (Some (event_of event.now)) }
{
    match event {
        Event::PutRecords(change) => adds_job(change),
        _ => false,
    }
}

// The number of the job, which is not 0. A number that 64 bits have no room for is out of memory,
// and so is 0, which no job has.
fn job_number(job: Ulid) -> Result<u64, SlateDBError>
    ensures number { IfOk result (λ number. number ≡ number_of job) }
    ensures counted { IfOk result (λ number. 1 ≤ number) }
    ensures memory { IsOkUnless result SlateDBError.Memory }
{
    match u64::try_from(job.number()) {
        Ok(number) if number > 0 => Ok(number),
        _ => Err(SlateDBError::Memory),
    }
}

// The numbers of the jobs of these attempts.
fn job_numbers(alloc: Global, attempts: &[RunAttempt]) -> Result<Vec<u64>, SlateDBError>
    ensures numbers { IfOk result
        (λ numbers. numbers.items ≡ map (λ a. number_of a.job) attempts.now) }
    ensures counted { IfOk result (λ numbers. All (λ number. 1 ≤ number) numbers.items) }
    ensures memory { IsOkUnless result SlateDBError.Memory }
{
    let mut numbers = Vec::with_capacity(alloc, attempts.len())?;
    'attempts: for attempt in attempts {
        numbers.push(job_number(attempt.job())?)?;
    }
    Ok(numbers)
}

impl Fleet {
    /// The allocator of the fleet.
    pub fn allocator(&self) -> Global {
        self.alloc
    }

    /// Whether the coordinator and the worker of these numbers are both live.
    pub fn are_live(&self, coordinator: u64, worker: u64) -> bool
        ensures { result ≡ settles.are_live coordinator worker (state_of self.now) }
    {
        has_coordinator(self.coordinators.as_slice(), coordinator)
            && has_worker(self.workers.as_slice(), worker)
    }

    /// Whether a stored job is active.
    pub fn has_active_jobs(&self) -> bool
        ensures { result ≡ settles.has_active (state_of self.now) }
    {
        match self.store.records() {
            Some(records) => has_open(records),
            None => false,
        }
    }

    /// Whether the coordinator's last call put the records of a poll that added a job.
    pub fn has_added(&self, coordinator: u64) -> bool
        ensures { result ≡ settles.has_added coordinator (state_of self.now) }
    {
        match last_entry(self.store.history(), coordinator) {
            Some(entry) => is_adding(&entry.event),
            None => false,
        }
    }

    /// The numbers of the jobs that the worker runs, by rising id. There are none if no worker has
    /// this number. No job has the number 0, and a number that 64 bits have no room for is out of
    /// memory.
    pub fn jobs_run(&self, worker: u64) -> Result<Vec<u64>, SlateDBError>
        ensures jobs { IfOk result
            (λ jobs. jobs.items ≡ settles.jobs_run worker (state_of self.now)) }
        ensures counted { IfOk result (λ jobs. All (λ job. 1 ≤ job) jobs.items) }
        ensures memory { IsOkUnless result SlateDBError.Memory }
    {
        match worker_with(self.workers.as_slice(), worker) {
            Some(worker) => job_numbers(self.alloc, worker.attempts()),
            None => Ok(Vec::new(self.alloc)),
        }
    }
}
