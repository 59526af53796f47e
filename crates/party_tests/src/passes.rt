// Passes of a shared store, split off for parties.
ghost use Rattle.std.specs.Prelude.{◌≡◌, ◌+◌, ◌-◌, ◌<◌, ℕ, IfOk};
ghost use Rattle.row_model.specs.Append.{append};
ghost use Rattle.fleet_lock.specs.Locks.{table_of, view_through};
ghost use Rattle.fleet_lock.specs.Names.{name_of};
ghost use Rattle.fleet_model.specs.History.{Coordinator, Worker};
ghost use Rattle.step_model.specs.Kept.Keeps.{Keeps};
ghost use Rattle.party_tests.specs.Callers.{MayHire};
ghost use Rattle.party_tests.specs.Passes.{Leads, MayLend, Serves, folds_append};
ghost use Rattle.party_tests.specs.Starts.{MayStart};

use fleet_fold::AppendOperator;
use fleet_history::Party;
use fleet_lock::{Holds, Lock, Pass, PassStore, SharedStore};
use fleet_rows::SlateDBError;
use fleet_store::MemStore;
use std::alloc::Global;
use std::sync::Wait;

/// A store in memory that several parties call. Its rows are merged by appending.
pub(crate) type Shared<'a> = SharedStore<'a, AppendOperator>;

/// Shares the store. The first pass has so many parts.
pub(crate) fn share<'a>(
    alloc: Global,
    store: MemStore,
    operator: &'a AppendOperator,
    parts: u32,
) -> Result<(Shared<'a>, Pass), SlateDBError>
    requires parts { 0 < parts }
    requires keeps { Keeps append store.world }
    ensures own { IfOk result (λ shared. shared.1.table ≡ table_of shared.0) }
    ensures parts { IfOk result (λ shared. shared.1.sight.parts ≡ parts) }
    ensures lends { IfOk result (λ shared. (least : ℕ) → MayLend least shared.1) }
{
    match SharedStore::share(alloc, store, operator, parts) {
        Ok(shared) => Ok(shared),
        Err((_, error)) => Err(error),
    }
}

/// Splits a pass off for the coordinator with this number, from one that holds its name and all
/// later ones.
pub(crate) fn lead<S: Holds>(shared: &Lock<S>, pass: &mut Pass, number: u64) -> Pass
    requires own { pass.old.table ≡ table_of shared.now }
    requires parts { 1 < pass.old.sight.parts }
    requires lends { MayLend (name_of (Coordinator number)) pass.old }
    ensures own { pass.new.table ≡ table_of shared.now }
    ensures parts { pass.new.sight.parts ≡ pass.old.sight.parts - 1 }
    ensures lends { MayLend (name_of (Coordinator number) + 1) pass.new }
    ensures its_own { result.table ≡ table_of shared.now }
    ensures leads { Leads result }
{
    shared.split(pass, Party::Coordinator(number))
}

/// Splits a pass off for the worker with this number, from one that holds its name and all later
/// ones.
pub(crate) fn serve<S: Holds>(shared: &Lock<S>, pass: &mut Pass, number: u64) -> Pass
    requires own { pass.old.table ≡ table_of shared.now }
    requires parts { 1 < pass.old.sight.parts }
    requires lends { MayLend (name_of (Worker number)) pass.old }
    ensures own { pass.new.table ≡ table_of shared.now }
    ensures parts { pass.new.sight.parts ≡ pass.old.sight.parts - 1 }
    ensures lends { MayLend (name_of (Worker number) + 1) pass.new }
    ensures its_own { result.table ≡ table_of shared.now }
    ensures serves { Serves number result }
{
    shared.split(pass, Party::Worker(number))
}

/// The store, as a coordinator calls it through its pass.
pub(crate) fn led<'a, 'o, R: Wait>(
    shared: &'a Shared<'o>,
    rt: &'a R,
    pass: &'a mut Pass,
) -> PassStore<'a, 'o, AppendOperator, R>
    requires own { pass.old.table ≡ table_of shared.now }
    requires leads { Leads pass.old }
    ensures { MayStart (view_through folds_append result) }
{
    shared.at(rt, pass)
}

/// The store, as the worker with this number calls it through its pass.
pub(crate) fn served<'a, 'o, R: Wait>(
    shared: &'a Shared<'o>,
    rt: &'a R,
    pass: &'a mut Pass,
    number: u64,
) -> PassStore<'a, 'o, AppendOperator, R>
    requires own { pass.old.table ≡ table_of shared.now }
    requires serves { Serves number pass.old }
    ensures { MayHire (view_through folds_append result) number }
{
    let _served = number;
    shared.at(rt, pass)
}

/// Joins a pass to another one of the same store.
pub(crate) fn join_to<S: Holds>(shared: &Lock<S>, into: &mut Pass, from: Pass)
    requires own { into.old.table ≡ table_of shared.now }
    requires other { from.table ≡ table_of shared.now }
    ensures own { into.new.table ≡ table_of shared.now }
{
    shared.join(into, from);
}
