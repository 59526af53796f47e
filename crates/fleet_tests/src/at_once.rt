// The ranges of a job are made at once.
ghost use Rattle.fleet_exec.specs.Ranges.{AreSources};

use bytes::Bytes;
use fleet_exec::{RangeGate, RangeJob, SourceSet, are_sources, finish_ranges};
use fleet_fold::AppendOperator;
use fleet_range::BytesRange;
use fleet_rows::{RowEntry, Settings, SlateDBError, ValueDeletable};
use fleet_table::{RunData, TableData, are_in_bounds, are_strictly_ordered};
use std::alloc::Global;
use std::ops::Bound::{Excluded, Included, Unbounded};
use std::process::Abort;
use std::sync::atomic::{AtomicBool, Ordering};
use std::thread;

// How often the first range looks whether the second one has given a table.
const TURNS: u32 = 1_000_000;

// A gate that holds range 1 back after its first table, until range 2 has given one.
#[derive(Drop)]
struct Meeting {
    second: AtomicBool,
    met: AtomicBool,
}

impl RangeGate for Meeting {
    fn given(&self, range: u32, table: u32) {
        if range != 1 {
            self.second.store(true, Ordering::SeqCst);
            return;
        }
        if table != 1 {
            return;
        }
        'turns: for _turn in 0..TURNS {
            if self.second.load(Ordering::SeqCst) {
                self.met.store(true, Ordering::SeqCst);
                return;
            }
            thread::yield_now();
        }
    }
}

fn row(alloc: Global, key: &[u8], seq: u64) -> Result<RowEntry, SlateDBError> {
    let key = Bytes::copy_from_slice(alloc, key)?;
    let value = Bytes::copy_from_slice(alloc, b"v")?;
    Ok(RowEntry::new(key, ValueDeletable::Value(value), seq, None, None))
}

// A row of each of four keys.
fn rows(rt: &impl Abort, alloc: Global) -> Vec<RowEntry> {
    let rows = vec![in alloc;
        row(alloc, b"a", 1).expect(rt, "a row"),
        row(alloc, b"b", 2).expect(rt, "a row"),
        row(alloc, b"c", 3).expect(rt, "a row"),
        row(alloc, b"d", 4).expect(rt, "a row"),
    ];
    rows.expect(rt, "memory")
}

fn run(rt: &impl Abort, alloc: Global) -> RunData {
    let rows = rows(rt, alloc);
    assert!(rt; !rows.is_empty());
    assert!(rt; are_strictly_ordered(&rows));
    assert!(rt; are_in_bounds(&rows));
    let table = TableData::from_rows(alloc, rows).expect(rt, "a table");
    let mut run = RunData::new(alloc);
    run.push(table).expect(rt, "memory");
    run
}

// One source with one table.
fn sources(rt: &impl Abort, alloc: Global) -> SourceSet
    ensures { AreSources result }
{
    let mut sources = SourceSet::new(alloc);
    sources.push(run(rt, alloc)).expect(rt, "memory");
    assert!(rt; are_sources(alloc, &sources).expect(rt, "memory"));
    sources
}

fn job(range: Option<BytesRange>) -> Option<RangeJob> {
    let settings = Settings {
        floor: 4,
        tick: 0,
        last_run: true,
        cut: 4,
    };
    Some(RangeJob {
        range: range?,
        cursor: None,
        settings,
    })
}

// The jobs of the two ranges below and above a key.
fn jobs(rt: &impl Abort, alloc: Global) -> [RangeJob; 2] {
    let cut = Bytes::copy_from_slice(alloc, b"c").expect(rt, "a key");
    let below = BytesRange::try_new(Unbounded, Excluded(cut.clone().expect(rt, "a key")));
    let above = BytesRange::try_new(Included(cut), Unbounded);
    [
        job(below).expect(rt, "a range"),
        job(above).expect(rt, "a range"),
    ]
}

#[test]
fn ranges_are_made_at_once(rt: HostRuntime) {
    let alloc = rt.alloc();
    let gate = Meeting {
        second: AtomicBool::new(false),
        met: AtomicBool::new(false),
    };
    let jobs = jobs(&rt, alloc);
    let sources = sources(&rt, alloc);
    // Each row exceeds the size of a table.
    let made = finish_ranges(&rt, alloc, &jobs, &sources, &AppendOperator, 0, &gate);
    let made = made.expect(&rt, "tables");
    assert!(rt; gate.met.load(Ordering::SeqCst));
    assert!(rt; made.len() == 2);
    assert!(rt; made[0].len() == 2);
    assert!(rt; made[1].len() == 2);
}
