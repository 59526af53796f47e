//! Puts of the tables of ranges, each under a new id.

ghost use Rattle.std.specs.Prelude.{IfOk, map};
ghost use Rattle.std.specs.List.{AllByRecursion};
ghost use Rattle.fleet_model.specs.Invariants.TreesFit.{IsTable};
ghost use Rattle.fleet_rows.specs.Row.{rows_of};
ghost use Rattle.fleet_store.specs.Handles.{IsDescribed};
ghost use Rattle.fleet_output.specs.RangePuts.{
  AreDescribed,
  MayPutEach,
  MayPutRanges,
  PutsEach,
  PutsRanges,
};

use crate::put::put_output;
use crate::ranges_left::LeftTables;
use fleet_exec::RangeTables;
use fleet_rows::{ListOf, SlateDBError};
use fleet_store::Store;
use fleet_tree::SsTableHandle;
use std::alloc::Global;

// Puts these tables in order, each under a new id. The answer describes them.
fn put_tables<S: Store>(
    alloc: Global,
    store: &mut S,
    moment: u64,
    tables: RangeTables,
) -> Result<ListOf<SsTableHandle>, SlateDBError>
    requires sound { AllByRecursion IsTable (map rows_of tables) }
    requires may { MayPutEach (S.view store.old) moment (map rows_of tables) }
    ensures put { PutsEach moment (map rows_of tables)
        (S.view store.old) (S.view store.new) result }
    ensures described { IfOk result
        (AllByRecursion (IsDescribed (S.view store.new).world.store.tables)) }
{
    let mut handles = ListOf::new(alloc);
    'tables: for rows in tables.into_vec() {
        let handle = put_output(alloc, store, moment, rows)?;
        handles.push(handle)?;
    }
    Ok(handles)
}

/// Puts the tables of each range, range after range. For each table an id is drawn with this moment
/// in milliseconds, and then the table is put under it. The answer describes the tables, range by
/// range.
///
/// After `Memory` and after `StoreFault` the first tables are put, and the next one may be put too.
pub fn put_ranges<S: Store>(
    alloc: Global,
    store: &mut S,
    moment: u64,
    ranges: LeftTables,
) -> Result<ListOf<ListOf<SsTableHandle>>, SlateDBError>
    requires sound { AllByRecursion (AllByRecursion IsTable) (map (map rows_of) ranges) }
    requires may { MayPutRanges (S.view store.old) moment (map (map rows_of) ranges) }
    ensures put { PutsRanges moment (map (map rows_of) ranges)
        (S.view store.old) (S.view store.new) result }
    ensures described { IfOk result (AreDescribed (S.view store.new).world.store.tables) }
{
    let mut outputs = ListOf::new(alloc);
    'each: for tables in ranges.into_vec() {
        let handles = put_tables(alloc, store, moment, tables)?;
        outputs.push(handles)?;
    }
    Ok(outputs)
}
