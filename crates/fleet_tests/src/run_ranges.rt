// Ranges of runs whose tables have several blocks.

use crate::loads::{Load, row_at, table};
use bytes::Bytes;
use fleet_iter::RowEntryIterator;
use fleet_range::BytesRange;
use fleet_rows::SlateDBError;
use fleet_table::{RunData, RunIterator};
use std::alloc::Global;
use std::ops::Bound;

// A run of two tables with half of the keys each.
fn run(alloc: Global, load: Load) -> Result<RunData, SlateDBError> {
    let mut run = RunData::new(alloc);
    run.push(table(alloc, load, 0, load.keys / 2)?)?;
    run.push(table(alloc, load, load.keys / 2, load.keys)?)?;
    Ok(run)
}

// A bound at a key: none, with the key or without it.
fn bound(alloc: Global, kind: u64, key: u64) -> Result<Bound<Bytes>, SlateDBError> {
    if kind == 0 {
        return Ok(Bound::Unbounded);
    }
    let digits = format!(in alloc; "{key:04}")?;
    let key = Bytes::copy_from_slice(alloc, digits.as_bytes())?;
    if kind == 1 {
        Ok(Bound::Included(key))
    } else {
        Ok(Bound::Excluded(key))
    }
}

// Whether an iterator over a range gives just the rows of the run that lie in it.
fn gives_range(
    alloc: Global,
    load: Load,
    run: &RunData,
    range: &BytesRange,
) -> Result<bool, SlateDBError> {
    let mut rows = RunIterator::new(run, range);
    rows.init(alloc)?;
    'places: for place in 0..load.keys.saturating_mul(load.versions) {
        let Some(row) = row_at(alloc, load, place)? else {
            return Ok(false);
        };
        if range.contains(row.key.as_slice()) && rows.next(alloc)? != Some(row) {
            return Ok(false);
        }
    }
    Ok(rows.next(alloc)?.is_none())
}

// Whether that holds for each range that begins at this key, and of these kinds of bounds.
fn gives_ranges(
    alloc: Global,
    load: Load,
    run: &RunData,
    key: u64,
    kinds: (u64, u64),
) -> Result<bool, SlateDBError> {
    'ends: for end in 0..load.keys.saturating_add(1) {
        let start = bound(alloc, kinds.0, key)?;
        let end = bound(alloc, kinds.1, end)?;
        if let Some(range) = BytesRange::try_new(start, end)
            && !gives_range(alloc, load, run, &range)?
        {
            return Ok(false);
        }
    }
    Ok(true)
}

// Whether ranges of all kinds have the right rows.
fn ranges(alloc: Global, load: Load) -> Result<bool, SlateDBError> {
    let run = run(alloc, load)?;
    'keys: for key in 0..load.keys {
        'kinds: for kind in 0..9 {
            if !gives_ranges(alloc, load, &run, key, (kind / 3, kind % 3))? {
                return Ok(false);
            }
        }
    }
    Ok(true)
}

// The rows of a key begin and end inside blocks.
#[test]
fn ranges_among_many_versions(rt: HostRuntime) {
    let load = Load {
        keys: 6,
        versions: 50,
        len: 100,
    };
    assert!(rt; ranges(rt.alloc(), load).expect(&rt, "memory"));
}

// A block has the rows of several keys.
#[test]
fn ranges_in_blocks(rt: HostRuntime) {
    let load = Load {
        keys: 12,
        versions: 3,
        len: 300,
    };
    assert!(rt; ranges(rt.alloc(), load).expect(&rt, "memory"));
}
