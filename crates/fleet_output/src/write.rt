//! The next rows of a range, written as a table.

ghost use Rattle.std.specs.Prelude.{◌≤◌, IfOk, IfSome};
ghost use Rattle.fleet_store.specs.Handles.{IsDescribed};
ghost use Rattle.fleet_output.specs.Next.{CanResume};
ghost use Rattle.fleet_output.specs.Writes.{MayWrite, WritesNext};

use crate::next::read_next;
use crate::put::put_output;
use fleet_fold::MergeOperator;
use fleet_plan::Subcompaction;
use fleet_rows::{Settings, SlateDBError};
use fleet_store::Store;
use fleet_tree::SsTableHandle;
use std::alloc::Global;

/// Writes the next rows of the range as a table, at most `rows` of them: gets the source tables
/// whose keys meet the range, makes the rows, draws an id with this moment in milliseconds, and
/// puts the table. The answer describes the table. None says that nothing is left; then nothing is
/// drawn. `tables` describe all source tables, in source order.
///
/// Where the operator refuses a fold, the error is its own, and nothing is drawn. After `Memory`
/// and `StoreFault` the table may be put or not.
pub fn write_next<S: Store, O: MergeOperator>(
    alloc: Global,
    store: &mut S,
    operator: &O,
    moment: u64,
    settings: Settings,
    tables: &[SsTableHandle],
    part: &Subcompaction,
    rows: u64,
) -> Result<Option<SsTableHandle>, SlateDBError>
    requires some { 1 ≤ rows }
    requires can { CanResume (O.merged (O.settings operator.now)) (S.view store.old).world.store
        settings tables.now part.now }
    requires may { MayWrite (O.merged (O.settings operator.now)) settings tables.now part.now rows
        moment (S.view store.old) }
    ensures wrote { WritesNext (O.merged (O.settings operator.now)) settings tables.now part.now
        rows moment (S.view store.old) (S.view store.new) result }
    ensures described { IfOk result (λ table. IfSome table
        (λ handle. IsDescribed (S.view store.new).world.store.tables handle)) }
{
    let Some(table) = read_next(alloc, store, operator, settings, tables, part, rows)? else {
        return Ok(None);
    };
    let handle = put_output(alloc, store, moment, table)?;
    Ok(Some(handle))
}
