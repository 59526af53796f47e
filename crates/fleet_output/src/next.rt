//! The next rows of a range.

ghost use Rattle.std.specs.Prelude.{◌≤◌};
ghost use Rattle.fleet_output.specs.Next.{CanResume, ReadsNext};

use crate::gets::{get_tables, tables_in};
use crate::job::range_job;
use fleet_exec::next_table;
use fleet_fold::MergeOperator;
use fleet_plan::Subcompaction;
use fleet_rows::{ListOf, RowEntry, Settings, SlateDBError};
use fleet_store::Store;
use fleet_tree::SsTableHandle;
use std::alloc::Global;

/// Gets the source tables whose keys meet the range, and makes of them the next rows of the range
/// after the tables that are noted for it. There are at most `rows` of them. None says that nothing
/// is left. `tables` describe all source tables, in source order.
///
/// Where the operator refuses a fold, the error is its own. The other errors are those of the gets,
/// and `Memory`.
pub fn read_next<S: Store, O: MergeOperator>(
    alloc: Global,
    store: &mut S,
    operator: &O,
    settings: Settings,
    tables: &[SsTableHandle],
    part: &Subcompaction,
    rows: u64,
) -> Result<Option<ListOf<RowEntry>>, SlateDBError>
    requires some { 1 ≤ rows }
    requires can { CanResume (O.merged (O.settings operator.now)) (S.view store.old).world.store
        settings tables.now part.now }
    ensures { ReadsNext (O.merged (O.settings operator.now)) settings tables.now part.now rows
        (S.view store.old) (S.view store.new) result }
{
    let ids = tables_in(alloc, tables, part.range())?;
    let sources = get_tables(alloc, store, ids.as_slice())?;
    let job = range_job(settings, part)?;
    match next_table(alloc, &job, &sources, operator, rows)? {
        Some(table) => Ok(Some(ListOf::from_vec(table))),
        None => Ok(None),
    }
}
