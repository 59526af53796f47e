//! All that is left of the ranges of a job, written as tables.

ghost use Rattle.std.specs.Prelude.{◌<◌, ◌^◌, IfOk, length};
ghost use Rattle.fleet_output.specs.Finishes.{MayWriteLeft, WritesLeft};
ghost use Rattle.fleet_output.specs.Left.{CanFinish};
ghost use Rattle.fleet_output.specs.RangePuts.{AreDescribed};

use crate::outputs::all_outputs;
use crate::ranges::put_ranges;
use crate::ranges_left::read_left;
use fleet_exec::RangeGate;
use fleet_fold::MergeOperator;
use fleet_plan::Subcompaction;
use fleet_rows::{Settings, SlateDBError};
use fleet_store::Store;
use fleet_tree::{OutputList, SsTableHandle};
use std::alloc::Global;
use std::thread::Threads;

/// Writes all that is left of each range: gets all source tables, each once, makes the tables as
/// `read_left` does, and puts them range after range, each under an id that is drawn with this
/// moment in milliseconds. The answer describes all tables of each range, first those that are
/// noted for it. `tables` describe all source tables, in source order.
///
/// Where the operator refuses a fold, the error is its own, and nothing is drawn. After `Memory`
/// and `StoreFault` some of the tables may be put.
pub fn finish_left<R: Threads + Sync, S: Store, O: MergeOperator, G: RangeGate>(
    rt: &R,
    alloc: Global,
    store: &mut S,
    operator: &O,
    moment: u64,
    settings: Settings,
    tables: &[SsTableHandle],
    parts: &[Subcompaction],
    size: u64,
    gate: &G,
) -> Result<OutputList, SlateDBError>
    requires few { length parts.now < 2 ^ 32 }
    requires can { CanFinish (O.merged (O.settings operator.now)) (S.view store.old).world.store
        settings tables.now parts.now }
    requires may { MayWriteLeft (O.merged (O.settings operator.now)) settings tables.now parts.now
        size moment (S.view store.old) }
    ensures wrote { WritesLeft (O.merged (O.settings operator.now)) settings tables.now parts.now
        size moment (S.view store.old) (S.view store.new) result }
    ensures described { IfOk result (AreDescribed (S.view store.new).world.store.tables) }
{
    let left = read_left(
        rt, alloc, store, operator, settings, tables, parts, size, gate,
    )?;
    let handles = put_ranges(alloc, store, moment, left)?;
    let outputs = all_outputs(alloc, parts, handles)?;
    Ok(outputs)
}
