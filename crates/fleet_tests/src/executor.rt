// The jobs that run, the tables that they write, and copies of what starts them.
use bytes::Bytes;
use fleet_book::CompactionRequest;
use fleet_exec::{Executor, StartCompactionJobArgs};
use fleet_jobs::{Compaction, CompactionContext, CompactionSpec, Release, SourceId};
use fleet_plan::Subcompaction;
use fleet_range::BytesRange;
use fleet_rows::{Settings, SlateDBError, Ulid};
use fleet_tree::{BlockList, OutputList, SharedList, SsTableHandle, TableList, ViewList};
use std::alloc::{AllocError, Global};
use std::process::Abort;

fn id(number: u64) -> Ulid {
    Ulid::from_parts(0, number as u128)
}

fn key(alloc: Global) -> Result<Bytes, AllocError> {
    Bytes::copy_from_slice(alloc, b"k")
}

// A table with one row.
fn table(rt: &impl Abort, alloc: Global, number: u64) -> SsTableHandle {
    SsTableHandle {
        id: id(number),
        first_key: key(alloc).expect(rt, "a key"),
        last_key: key(alloc).expect(rt, "a key"),
        last_seq: number,
        rows: 1,
        size: 100,
        blocks: BlockList::new(alloc),
    }
}

fn tables(rt: &impl Abort, alloc: Global, numbers: &[u64]) -> TableList {
    let mut tables = TableList::new(alloc);
    for number in numbers {
        tables.push(table(rt, alloc, *number)).expect(rt, "memory");
    }
    tables
}

// What starts a job without sources. A context for it has one range.
fn args(alloc: Global, number: u64) -> StartCompactionJobArgs {
    StartCompactionJobArgs {
        id: id(number),
        compaction_id: id(number),
        attempt: 3,
        destination: 7,
        l0_sst_views: ViewList::new(alloc),
        sorted_runs: SharedList::new(alloc),
        compaction_clock_tick: -5,
        is_dest_last_run: true,
        retention_min_seq: Some(4),
        cut: 6,
        release: Release::Two,
        ctx: None,
    }
}

// A context with one range, for which these tables were written.
fn context(rt: &impl Abort, alloc: Global, numbers: &[u64]) -> CompactionContext {
    let settings = Settings {
        floor: 4,
        tick: -5,
        last_run: true,
        cut: 6,
    };
    let part = Subcompaction::new(alloc, BytesRange::unbounded());
    let part = part.with_output_ssts(tables(rt, alloc, numbers));
    let ranges = vec![in alloc; part].expect(rt, "memory");
    CompactionContext::new(ranges, settings, Release::Two)
}

// Starts a job, unless one with its id is active or it lacks a floor.
fn start(
    executor: &mut Executor,
    alloc: Global,
    args: StartCompactionJobArgs,
) -> Result<(), SlateDBError> {
    if executor.args(args.id).is_some() || args.retention_min_seq.is_none() {
        return Err(SlateDBError::InvalidDBState);
    }
    executor.start_compaction_job(alloc, args, 4)
}

// Adds a table to the first range of a job, if the job is active and has a range.
fn add(executor: &mut Executor, number: u64, table: SsTableHandle) -> Result<(), SlateDBError> {
    let job = id(number);
    match executor.ctx(job) {
        Some(ctx) if !ctx.subcompactions().is_empty() => {}
        _ => return Err(SlateDBError::InvalidDBState),
    }
    executor.add_table(job, 1, table)
}

// An executor with the jobs 2 and 1.
fn with_two(rt: &impl Abort, alloc: Global) -> Executor {
    let mut executor = Executor::new(alloc);
    start(&mut executor, alloc, args(alloc, 2)).expect(rt, "a start");
    start(&mut executor, alloc, args(alloc, 1)).expect(rt, "a start");
    executor
}

fn has_context(executor: &Executor, number: u64, wanted: &CompactionContext) -> bool {
    match executor.ctx(id(number)) {
        Some(ctx) => *ctx == *wanted,
        None => false,
    }
}

#[test]
fn no_jobs(rt: HostRuntime) {
    let mut executor = Executor::new(rt.alloc());
    assert!(rt; executor.is_empty() && executor.len() == 0);
    assert!(rt; executor.attempt(id(1)).is_none());
    assert!(rt; executor.args(id(1)).is_none() && executor.ctx(id(1)).is_none());
    assert!(rt; !executor.stop_compaction_job(id(1)));
}

#[test]
fn jobs_start(rt: HostRuntime) {
    let executor = with_two(&rt, rt.alloc());
    assert!(rt; !executor.is_empty() && executor.len() == 2);
    assert!(rt; executor.attempt(id(1)) == Some(3) && executor.attempt(id(2)) == Some(3));
    assert!(rt; executor.args(id(1)) == Some(&args(rt.alloc(), 1)));
    assert!(rt; executor.args(id(2)) == Some(&args(rt.alloc(), 2)));
    assert!(rt; has_context(&executor, 1, &context(&rt, rt.alloc(), &[])));
    assert!(rt; has_context(&executor, 2, &context(&rt, rt.alloc(), &[])));
    assert!(rt; executor.attempt(id(3)).is_none());
}

#[test]
fn a_job_goes_on_from_a_context(rt: HostRuntime) {
    let mut executor = Executor::new(rt.alloc());
    let mut later = args(rt.alloc(), 1);
    later.ctx = Some(context(&rt, rt.alloc(), &[8]));
    start(&mut executor, rt.alloc(), later).expect(&rt, "a start");
    add(&mut executor, 1, table(&rt, rt.alloc(), 9)).expect(&rt, "a table");
    assert!(rt; has_context(&executor, 1, &context(&rt, rt.alloc(), &[8, 9])));
    let given = executor.args(id(1)).and_then(|args| args.ctx.as_ref());
    assert!(rt; given == Some(&context(&rt, rt.alloc(), &[8])));
}

#[test]
fn tables_are_added(rt: HostRuntime) {
    let mut executor = with_two(&rt, rt.alloc());
    add(&mut executor, 1, table(&rt, rt.alloc(), 8)).expect(&rt, "a table");
    add(&mut executor, 1, table(&rt, rt.alloc(), 9)).expect(&rt, "a table");
    assert!(rt; has_context(&executor, 1, &context(&rt, rt.alloc(), &[8, 9])));
    assert!(rt; has_context(&executor, 2, &context(&rt, rt.alloc(), &[])));
    assert!(rt; executor.len() == 2);
}

#[test]
fn jobs_end(rt: HostRuntime) {
    let mut executor = with_two(&rt, rt.alloc());
    assert!(rt; executor.stop_compaction_job(id(1)) && !executor.stop_compaction_job(id(1)));
    assert!(rt; executor.len() == 1 && executor.args(id(1)).is_none());
    assert!(rt; executor.args(id(2)) == Some(&args(rt.alloc(), 2)));
    executor.stop();
    assert!(rt; executor.is_empty() && executor.args(id(2)).is_none());
    start(&mut executor, rt.alloc(), args(rt.alloc(), 3)).expect(&rt, "no start");
    assert!(rt; executor.is_empty() && executor.attempt(id(3)).is_none());
}

#[test]
fn arguments_are_copied(rt: HostRuntime) {
    let mut given = args(rt.alloc(), 1);
    given.ctx = Some(context(&rt, rt.alloc(), &[8]));
    let mut copy = given.clone().expect(&rt, "a copy");
    assert!(rt; copy == given);
    copy.ctx = None;
    assert!(rt; copy == args(rt.alloc(), 1));
    assert!(rt; given.ctx == Some(context(&rt, rt.alloc(), &[8])));
}

#[test]
fn contexts_are_copied(rt: HostRuntime) {
    let given = context(&rt, rt.alloc(), &[8]);
    let mut copy = given.clone().expect(&rt, "a copy");
    assert!(rt; copy == given && !copy.subcompactions().is_empty());
    let added = copy.push_output_sst(0, table(&rt, rt.alloc(), 9));
    added.expect(&rt, "a table");
    assert!(rt; copy == context(&rt, rt.alloc(), &[8, 9]));
    assert!(rt; given == context(&rt, rt.alloc(), &[8]));
}

fn spec(rt: &impl Abort, alloc: Global) -> CompactionSpec {
    let sources = vec![in alloc; SourceId::SortedRun(3)].expect(rt, "memory");
    CompactionSpec::new(sources, 7)
}

#[test]
fn requests_are_copied(rt: HostRuntime) {
    let segment = key(rt.alloc()).expect(&rt, "a key");
    let requests = [
        CompactionRequest::Full,
        CompactionRequest::FullSegment { segment },
        CompactionRequest::Spec(spec(&rt, rt.alloc())),
    ];
    for request in requests {
        assert!(rt; request.clone().expect(&rt, "a copy") == request);
    }
}

#[test]
fn outputs_are_joined(rt: HostRuntime) {
    let mut job = Compaction::new(rt.alloc(), id(1), spec(&rt, rt.alloc()));
    let none = job.output_ssts(rt.alloc()).expect(&rt, "tables");
    assert!(rt; none.is_empty());
    let mut outputs = OutputList::new(rt.alloc());
    for numbers in [[8, 9].as_slice(), [].as_slice(), [10].as_slice()] {
        let list = tables(&rt, rt.alloc(), numbers);
        outputs.push(list).expect(&rt, "memory");
    }
    job.set_outputs(outputs);
    let joined = job.output_ssts(rt.alloc()).expect(&rt, "tables");
    assert!(rt; joined == tables(&rt, rt.alloc(), &[8, 9, 10]));
    assert!(rt; job.outputs().len() == 3);
}
