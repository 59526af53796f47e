//! The next table of a range.

ghost use Rattle.std.specs.Prelude.{◌≤◌, IfOk, IfErr, option_map};
ghost use Rattle.fleet_exec.specs.Ranges.{AreSources, made_of};
ghost use Rattle.fleet_exec.specs.Tables.{GivesTable, RefusesJobTable};

use crate::open::open_range;
use crate::take::take_rows;
use crate::{RangeJob, SourceSet};
use fleet_fold::MergeOperator;
use fleet_rows::{RowEntry, SlateDBError};
use std::alloc::Global;

/// The next rows that a job makes of a range after its cursor: merged, folded and kept by
/// retention. There are at most `rows` of them. Returns None if nothing is left. Of each source its
/// first row in the range is read, and then the rows from the cursor's key on, no further than
/// these rows need.
pub fn next_table<O: MergeOperator>(
    alloc: Global,
    job: &RangeJob,
    sources: &SourceSet,
    operator: &O,
    rows: u64,
) -> Result<Option<Vec<RowEntry>>, SlateDBError>
    requires some { 1 ≤ rows }
    requires sources { AreSources sources.now }
    ensures table { IfOk result (λ table. GivesTable
        (made_of (O.merged (O.settings operator.now)) sources.now job.now) rows
        (option_map (λ t. t.items) table)) }
    ensures refused { IfErr result
        (RefusesJobTable (O.merged (O.settings operator.now)) sources.now job.now rows) }
{
    let mut left = open_range(alloc, job, sources.as_slice(), operator, false)?;
    let table = take_rows(alloc, &mut left, &job.cursor, rows)?;
    if table.is_empty() {
        return Ok(None);
    }
    Ok(Some(table))
}
