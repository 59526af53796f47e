//! The step that deletes the tables that nothing can need.

ghost use Rattle.std.specs.Prelude.{IfOk};
ghost use Rattle.fleet_sweep.specs.Sweeps.{FindsSwept, IsSwept, MaySweep, SweepRan};

use crate::unneeded_tables::unneeded;
use fleet_rows::{IdList, SlateDBError};
use fleet_store::SweepStore;
use std::alloc::Global;

// Gets the manifest and the records, lists the held tables, and finds those that nothing can need.
fn find<S: SweepStore>(alloc: Global, store: &mut S, pins: &IdList) -> Result<IdList, SlateDBError>
    ensures { FindsSwept pins.now (S.view store.old) (S.view store.new) result }
{
    let manifest = store.get_manifest()?;
    let records = store.get_records()?;
    let held = store.list_tables(alloc)?;
    let tables = unneeded(
        alloc,
        manifest.core(),
        &records,
        pins.as_slice(),
        held.as_slice(),
    )?;
    Ok(IdList::from_vec(tables))
}

/// Gets the manifest and the records, lists the held tables, and deletes those that no node of a
/// tree names, that no job that is not over names in its context or in its outputs, and that are
/// not pinned. They are deleted by rising id. The answer is their ids. Nobody else calls the store
/// meanwhile, and no flush is about to bring a table to a tree.
///
/// If a fault strikes a call, the error is `StoreFault`. The tables that were deleted before stay
/// deleted, and so it is if memory runs out.
pub fn sweep<S: SweepStore>(
    alloc: Global,
    store: &mut S,
    pins: &IdList,
) -> Result<IdList, SlateDBError>
    requires may { MaySweep (S.view store.old) }
    ensures ran { SweepRan pins.now (S.view store.old) (S.view store.new) result }
    ensures swept { IfOk result (λ tables. IsSwept pins.now tables
        (S.view store.old).world.store (S.view store.new).world.store) }
{
    let tables = find(alloc, store, pins)?;
    'tables: for id in tables.as_slice() {
        store.delete_table(*id)?;
    }
    Ok(tables)
}
