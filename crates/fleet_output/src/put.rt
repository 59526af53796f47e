//! Puts of tables under new ids.

ghost use Rattle.std.specs.Prelude.{IfOk};
ghost use Rattle.fleet_model.specs.Invariants.TreesFit.{IsTable};
ghost use Rattle.fleet_rows.specs.Row.{rows_of};
ghost use Rattle.fleet_store.specs.Handles.{IsDescribed};
ghost use Rattle.fleet_output.specs.Puts.{MayPutNew, PutsNew};

use fleet_rows::{ListOf, RowEntry, SlateDBError};
use fleet_store::Store;
use fleet_table::TableData;
use fleet_tree::SsTableHandle;
use std::alloc::Global;

/// Draws an id with this moment in milliseconds, and puts these rows as a table under it. The
/// answer describes the table.
///
/// After `Memory` and after `StoreFault` the id may be drawn. After `StoreFault` the table may be
/// put or not.
pub fn put_output<S: Store>(
    alloc: Global,
    store: &mut S,
    moment: u64,
    rows: ListOf<RowEntry>,
) -> Result<SsTableHandle, SlateDBError>
    requires sound { IsTable (rows_of rows) }
    requires may { MayPutNew (S.view store.old) moment (rows_of rows) }
    ensures put { PutsNew moment (rows_of rows) (S.view store.old) (S.view store.new) result }
    ensures described { IfOk result
        (λ handle. IsDescribed (S.view store.new).world.store.tables handle) }
{
    let table = TableData::from_rows(alloc, rows.into_vec())?;
    let id = store.draw_table(moment)?;
    let handle = table.describe(id)?;
    store.put_table(id, table)?;
    Ok(handle)
}
