//! The first records of a store.

ghost use Rattle.std.specs.Prelude.{◌≡◌, None, IfOk, OnOk};
ghost use Rattle.fleet_rival.specs.Starts.{epoch_world, next_epoch, records_world};

use fleet_book::Compactions;
use fleet_fold::AppendOperator;
use fleet_history::{ManifestChange, Party, RecordChange};
use fleet_rows::SlateDBError;
use fleet_store::{MemStore, Store};
use std::alloc::Global;

/// Puts the first records, which have no jobs, as the coordinator 1 does at its start: it puts the
/// next epoch into the manifest, and then records of that epoch. The answer is their version. If the
/// second put fails, the first one stands.
pub fn first_records(store: &mut MemStore, alloc: Global) -> Result<u64, SlateDBError>
    requires { store.old.world.store.records ≡ None }
    ensures version { IfOk result (λ version. version ≡ 1) }
    ensures world { OnOk result (store.new.world ≡ records_world store.old.world) }
{
    let epoch = raise_epoch(store, alloc)?;
    let records = Compactions::new(alloc, epoch);
    store.set_actor(0, Party::Coordinator(1));
    let mut under = store.under(&AppendOperator);
    under.put_records(0, records, RecordChange::Epoch(epoch))
}

// Puts the next epoch into the manifest, by the coordinator 1. The answer is that epoch.
fn raise_epoch(store: &mut MemStore, alloc: Global) -> Result<u64, SlateDBError>
    ensures epoch { IfOk result (λ epoch. epoch ≡ next_epoch store.old.world) }
    ensures world { OnOk result (store.new.world ≡ epoch_world store.old.world) }
{
    let stored = store.manifest();
    let version = stored.id;
    let mut value = stored.manifest.clone()?;
    let Some(epoch) = value.compactor_epoch.checked_add(1) else {
        return Err(SlateDBError::Memory);
    };
    value.compactor_epoch = epoch;
    store.set_actor(0, Party::Coordinator(1));
    let mut under = store.under(&AppendOperator);
    under.put_manifest(version, value, ManifestChange::Epoch(epoch), None)?;
    Ok(epoch)
}
