//! The live parties of a fleet, by number.

ghost use Rattle.std.specs.Prelude.{◌≡◌, ◌≢◌, ◌≤◌, ◌==◌, ◌∷◌, filter, find, length, not, option_map, IfSome, IsOkUnless, OnOk, if◌then◌else◌};
ghost use Rattle.std.specs.List.{insert, position};
ghost use Rattle.row_model.specs.Lists.{Pairs};
ghost use Rattle.fleet_rows.specs.declared.errors.SlateDBError.TheVariants as SlateDBError;
ghost use Rattle.fleet_lines.specs.Lists.{IsTaken};

use fleet_coordinator::Coordinator;
use fleet_rows::SlateDBError;
use fleet_worker::Worker;
use std::marker::Model;

/// A live coordinator. It is never stopped.
#[derive(Debug, Drop)]
pub(crate) struct LiveCoordinator {
    pub number: u64,
    pub coordinator: Coordinator,
}

impl Model for LiveCoordinator {
    ghost use Rattle.std.specs.Prelude.{◌≡◌, false};
    ghost use Rattle.fleet_model.specs.Work.Parties as model;

    ghost Value = { model.LiveCoordinator };

    ghost view = { λ c. record { number = c.number; epoch = c.coordinator.epoch } };

    ghost invariant = { λ c. c.coordinator.stopped ≡ false };
}

impl LiveCoordinator {
    /// The epoch of the coordinator.
    pub(crate) fn epoch(&self) -> u64
        ensures { result ≡ self.now.epoch }
    {
        self.coordinator.epoch()
    }
}

// Whether the coordinator has this number.
fn is_it(coordinator: &LiveCoordinator, number: u64) -> bool
    ensures { result ≡ (number == coordinator.now.number) }
{
    number == coordinator.number
}

// The place of the first coordinator with this number.
fn coordinator_place(coordinators: &[LiveCoordinator], number: u64) -> Option<usize>
    ensures { result ≡ position (λ c. number == c.number) coordinators.now }
{
    coordinators
        .iter()
        .position(|coordinator| is_it(coordinator, number))
}

/// Takes the coordinator with this number from the others, and tells its place.
pub(crate) fn take_coordinator(
    coordinators: &mut Vec<LiveCoordinator>,
    number: u64,
) -> Option<(usize, LiveCoordinator)>
    requires { Pairs (λ b c. b.number ≢ c.number) coordinators.old.items }
    ensures found { option_map (λ taken. taken.1) result
        ≡ find (λ c. number == c.number) coordinators.old.items }
    ensures others { coordinators.new.items
        ≡ filter (λ c. not (number == c.number)) coordinators.old.items }
    ensures place { IfSome result (λ taken.
        IsTaken coordinators.old.items taken.0 taken.1 coordinators.new.items) }
{
    let place = coordinator_place(coordinators.as_slice(), number)?;
    Some((place, coordinators.remove(place)))
}

/// Puts a coordinator before the one at `place`, counted from 0.
pub(crate) fn put_back(
    coordinators: &mut Vec<LiveCoordinator>,
    place: usize,
    coordinator: LiveCoordinator,
) -> Result<(), SlateDBError>
    requires { place ≤ length coordinators.old.items }
    ensures items { OnOk result
        (coordinators.new.items ≡ insert coordinators.old.items place coordinator) }
    ensures memory { IsOkUnless result SlateDBError.Memory }
{
    Ok(coordinators.insert(place, coordinator)?)
}

/// Puts a coordinator in front of the others.
pub(crate) fn put_coordinator(
    coordinators: &mut Vec<LiveCoordinator>,
    coordinator: LiveCoordinator,
) -> Result<(), SlateDBError>
    ensures items { OnOk result (coordinators.new.items ≡ coordinator ∷ coordinators.old.items) }
    ensures memory { IsOkUnless result SlateDBError.Memory }
{
    Ok(coordinators.insert(0, coordinator)?)
}

// The place of the first worker with this number.
fn place_of(workers: &[Worker], number: u64) -> Option<usize>
    ensures { result ≡ position (λ w. number == w.number) workers.now }
{
    workers.iter().position(|worker| number == worker.id())
}

/// Takes the worker with this number from the others.
pub(crate) fn take_worker(workers: &mut Vec<Worker>, number: u64) -> Option<Worker>
    requires { Pairs (λ v w. v.number ≢ w.number) workers.old.items }
    ensures found { result ≡ find (λ w. number == w.number) workers.old.items }
    ensures others { workers.new.items ≡ filter (λ w. not (number == w.number)) workers.old.items }
{
    let place = place_of(workers.as_slice(), number)?;
    Some(workers.remove(place))
}

// Puts a worker in front of the others.
fn put_worker(workers: &mut Vec<Worker>, worker: Worker) -> Result<(), SlateDBError>
    ensures items { OnOk result (workers.new.items ≡ worker ∷ workers.old.items) }
    ensures memory { IsOkUnless result SlateDBError.Memory }
{
    Ok(workers.insert(0, worker)?)
}

/// Keeps a worker after its step, unless the step stopped it.
pub(crate) fn keep_worker(workers: &mut Vec<Worker>, worker: Worker) -> Result<(), SlateDBError>
    ensures items { OnOk result (workers.new.items
        ≡ (if worker.stopped then workers.old.items else worker ∷ workers.old.items)) }
    ensures memory { IsOkUnless result SlateDBError.Memory }
{
    if worker.stopped() {
        return Ok(());
    }
    put_worker(workers, worker)
}
