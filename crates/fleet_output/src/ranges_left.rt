//! All that is left of the ranges of a job.

ghost use Rattle.std.specs.Prelude.{◌≡◌, ◌<◌, ◌^◌, IfOk, IsOkUnless, length};
ghost use Rattle.fleet_jobs.specs.Contexts.{table_ids};
ghost use Rattle.fleet_output.specs.Left.{CanFinish, ReadsLeft};

use crate::gets::get_tables;
use crate::job::range_jobs;
use fleet_exec::{RangeGate, RangeTables, finish_ranges};
use fleet_fold::MergeOperator;
use fleet_plan::Subcompaction;
use fleet_rows::{IdList, ListOf, Settings, SlateDBError};
use fleet_store::Store;
use fleet_tree::SsTableHandle;
use std::alloc::Global;
use std::thread::Threads;

/// The tables of ranges, in the order of the ranges. Each table is its rows.
pub type LeftTables = ListOf<RangeTables>;

// The ids of these tables.
fn ids_of(alloc: Global, tables: &[SsTableHandle]) -> Result<IdList, SlateDBError>
    ensures ids { IfOk result (λ ids. ids ≡ table_ids tables.now) }
    ensures memory { IsOkUnless result SlateDBError.Memory }
{
    let ids = tables.iter().map(|table| table.id).collect(alloc)?;
    Ok(IdList::from_vec(ids))
}

/// Gets all source tables in order, each once, and makes of them all that is left of each range
/// after the tables that are noted for it. It is cut into tables: each ends with the row with which
/// its sum of `estimated_size` exceeds `size` bytes, or at the range's end. The ranges are made as
/// `fleet_exec::finish_ranges` makes them, and each table is reported to the gate when it is made.
/// `tables` describe all source tables, in source order.
///
/// Where the operator refuses a fold, the error is its own, of the first range in which one is
/// refused. The other errors are those of the gets, and `Memory`.
pub fn read_left<R: Threads + Sync, S: Store, O: MergeOperator, G: RangeGate>(
    rt: &R,
    alloc: Global,
    store: &mut S,
    operator: &O,
    settings: Settings,
    tables: &[SsTableHandle],
    parts: &[Subcompaction],
    size: u64,
    gate: &G,
) -> Result<LeftTables, SlateDBError>
    requires few { length parts.now < 2 ^ 32 }
    requires can { CanFinish (O.merged (O.settings operator.now)) (S.view store.old).world.store
        settings tables.now parts.now }
    ensures { ReadsLeft (O.merged (O.settings operator.now)) settings tables.now parts.now size
        (S.view store.old) (S.view store.new) result }
{
    let ids = ids_of(alloc, tables)?;
    let sources = get_tables(alloc, store, ids.as_slice())?;
    let jobs = range_jobs(alloc, settings, parts)?;
    let left = finish_ranges(rt, alloc, jobs.as_slice(), &sources, operator, size, gate)?;
    Ok(LeftTables::from_vec(left))
}
