// Rows of two sources whose keys begin alike.
ghost use Rattle.fleet_exec.specs.Ranges.{AreSources};

use bytes::Bytes;
use fleet_exec::{OpenGate, RangeJob, RangeTables, SourceSet, are_sources, finish_ranges};
use fleet_fold::AppendOperator;
use fleet_range::BytesRange;
use fleet_rows::{RowEntry, Settings, SlateDBError, ValueDeletable};
use fleet_table::{RunData, TableData, are_in_bounds, are_strictly_ordered};
use std::alloc::Global;
use std::process::Abort;
use std::thread::Threads;

// Keys in order. They differ in length alone, at byte 9, at byte 8, at byte 16 and at the first.
const KEYS: [&[u8]; 9] = [
    b"a",
    b"a2345678",
    b"a23456789",
    b"a2345678X",
    b"a234567Z",
    b"a234567Z9012345A",
    b"a234567Z9012345B",
    b"a234567Z9012345B0",
    b"b",
];

fn row(alloc: Global, key: &[u8], seq: u64, len: usize) -> Result<RowEntry, SlateDBError> {
    let key = Bytes::copy_from_slice(alloc, key)?;
    let value = Bytes::from_vec(vec![in alloc; b'v'; len]?)?;
    Ok(RowEntry::new(key, ValueDeletable::Value(value), seq, None, None))
}

// A row of each key, with this sequence and with so many bytes in its value.
fn rows(alloc: Global, seq: u64, len: usize) -> Result<Vec<RowEntry>, SlateDBError> {
    let mut rows = Vec::new(alloc);
    'keys: for key in KEYS {
        rows.push(row(alloc, key, seq, len)?)?;
    }
    Ok(rows)
}

fn run(rt: &impl Abort, alloc: Global, seq: u64, len: usize) -> RunData {
    let rows = rows(alloc, seq, len).expect(rt, "rows");
    assert!(rt; !rows.is_empty());
    assert!(rt; are_strictly_ordered(&rows));
    assert!(rt; are_in_bounds(&rows));
    let table = TableData::from_rows(alloc, rows).expect(rt, "a table");
    let mut run = RunData::new(alloc);
    run.push(table).expect(rt, "memory");
    run
}

// Two sources with the same keys. The first one has the newer rows, with values of `len` bytes.
fn sources(rt: &impl Abort, alloc: Global, len: usize) -> SourceSet
    ensures { AreSources result }
{
    let mut sources = SourceSet::new(alloc);
    sources.push(run(rt, alloc, 2, len)).expect(rt, "memory");
    sources.push(run(rt, alloc, 1, 3)).expect(rt, "memory");
    assert!(rt; are_sources(alloc, &sources).expect(rt, "memory"));
    sources
}

fn job() -> RangeJob {
    RangeJob {
        range: BytesRange::unbounded(),
        cursor: None,
        settings: Settings {
            floor: 2,
            tick: 0,
            last_run: true,
            cut: 2,
        },
    }
}

// Whether the tables of a range have the newer row of each key, so many rows a table.
fn are_newer(
    alloc: Global,
    made: &RangeTables,
    len: usize,
    of_table: usize,
) -> Result<bool, SlateDBError> {
    let mut place: usize = 0;
    'tables: for table in made.as_slice() {
        if table.as_slice().len() != of_table {
            return Ok(false);
        }
        'rows: for given in table.as_slice() {
            let Some(key) = KEYS.get(place) else {
                return Ok(false);
            };
            if row(alloc, key, 2, len)? != *given {
                return Ok(false);
            }
            place = place.saturating_add(1);
        }
    }
    Ok(place == KEYS.len())
}

// The tables of all rows of the two sources.
fn made<R: Abort + Threads + Sync>(rt: &R, alloc: Global, len: usize, size: u64) -> RangeTables {
    let sources = sources(rt, alloc, len);
    let jobs = [job()];
    let made = finish_ranges(rt, alloc, &jobs, &sources, &AppendOperator, size, &OpenGate);
    let mut made = made.expect(rt, "tables");
    made.pop().expect(rt, "a range")
}

#[test]
fn values_of_no_bytes_are_merged(rt: HostRuntime) {
    let alloc = rt.alloc();
    let made = made(&rt, alloc, 0, 1 << 20);
    assert!(rt; are_newer(alloc, &made, 0, 9).expect(&rt, "memory"));
}

// Each row is greater than a table may be.
#[test]
fn great_rows_have_tables_of_their_own(rt: HostRuntime) {
    let alloc = rt.alloc();
    let made = made(&rt, alloc, 5_000, 4_000);
    assert!(rt; are_newer(alloc, &made, 5_000, 1).expect(&rt, "memory"));
}
