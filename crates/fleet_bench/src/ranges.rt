//! The sources as tables, and the finishing of their ranges.

ghost use Rattle.std.specs.Prelude.{IfOk};
ghost use Rattle.fleet_exec.specs.Ranges.{AreSources};

use crate::sources::{Load, key_of, rows_of};
use bytes::Bytes;
use fleet_exec::{OpenGate, RangeJob, RangeTables, SourceSet, are_sources, finish_ranges};
use fleet_fold::AppendOperator;
use fleet_range::BytesRange;
use fleet_rows::{RowEntry, Settings, SlateDBError};
use fleet_table::{RunData, TableData, are_in_bounds, are_strictly_ordered};
use std::alloc::Global;
use std::ops::Bound;
use std::thread::Threads;

// A table ends with the row with which it exceeds this many bytes.
const TABLE_SIZE: u64 = 16 << 20;

// A source of one table with these rows. It is an error if there are no rows, or if they are not
// ordered or not in bounds.
fn run_of(alloc: Global, rows: Vec<RowEntry>) -> Result<RunData, SlateDBError> {
    if rows.is_empty() || !are_strictly_ordered(&rows) || !are_in_bounds(&rows) {
        return Err(SlateDBError::InvalidDBState);
    }
    let mut run = RunData::new(alloc);
    run.push(TableData::from_rows(alloc, rows)?)?;
    Ok(run)
}

/// All sources, each with one table.
pub fn make_runs(alloc: Global, load: Load) -> Result<SourceSet, SlateDBError>
    ensures { IfOk result (λ runs. AreSources runs) }
{
    let mut runs = SourceSet::new(alloc);
    'sources: for source in 0..load.sources {
        runs.push(run_of(alloc, rows_of(alloc, load, source)?)?)?;
    }
    if are_sources(alloc, &runs)? {
        Ok(runs)
    } else {
        Err(SlateDBError::InvalidDBState)
    }
}

/// The number of rows in the sources.
pub fn count_rows(sources: &SourceSet) -> u64 {
    let mut rows: u64 = 0;
    'sources: for run in sources.as_slice() {
        'tables: for table in run.tables() {
            rows = rows.saturating_add(table.rows());
        }
    }
    rows
}

fn range_of(
    start: Bound<Bytes>,
    end: Bound<Bytes>,
    settings: Settings,
) -> Result<RangeJob, SlateDBError> {
    match BytesRange::try_new(start, end) {
        Some(range) => Ok(RangeJob {
            range,
            cursor: None,
            settings,
        }),
        None => Err(SlateDBError::InvalidDBState),
    }
}

// All keys, cut into `count` ranges with about equally many rows. The ranges have no cursors.
fn ranges_of(
    alloc: Global,
    load: Load,
    count: u64,
    settings: Settings,
) -> Result<Vec<RangeJob>, SlateDBError> {
    let mut ranges = Vec::new(alloc);
    let mut start = Bound::Unbounded;
    'cuts: for place in 1..count {
        let cut = key_of(alloc, load.rows / count * place)?;
        ranges.push(range_of(start, Bound::Excluded(cut.clone()?), settings)?)?;
        start = Bound::Included(cut);
    }
    ranges.push(range_of(start, Bound::Unbounded, settings)?)?;
    Ok(ranges)
}

fn count_given(ranges: &[RangeTables]) -> u64 {
    let mut given: u64 = 0;
    'ranges: for tables in ranges {
        'tables: for table in tables.as_slice() {
            given = given.saturating_add(table.len());
        }
    }
    given
}

/// Finishes this many ranges at once, and counts the rows given. More than 64 ranges are an error.
pub fn count_finished<R: Threads + Sync>(
    rt: &R,
    alloc: Global,
    load: Load,
    sources: &SourceSet,
    count: u64,
    settings: Settings,
) -> Result<u64, SlateDBError>
    requires { AreSources sources.now }
{
    let ranges = ranges_of(alloc, load, count, settings)?;
    let jobs = ranges.as_slice();
    if jobs.len() > 64 {
        return Err(SlateDBError::InvalidDBState);
    }
    let operator = AppendOperator;
    let finished = finish_ranges(rt, alloc, jobs, sources, &operator, TABLE_SIZE, &OpenGate)?;
    Ok(count_given(finished.as_slice()))
}
