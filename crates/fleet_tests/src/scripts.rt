//! Tests of scripts with sources and sinks that fail.

use fleet_fold::AppendOperator;
use fleet_run::{
    Failed, Fleet, FleetError, FleetOptions, MemSink, MemSource, SafeSink, SafeSource, Sink,
    Source, fleet_main, run_script,
};
use fleet_sched::{CompactionScheduler, SizeTieredCompactionScheduler};
use std::alloc::Global;
use std::process::Abort;
use std::thread::Threads;

const FLUSH_AND_READ: &str =
    "flush 1 - 3 0 61:t:-:4:-:-,61:v:7631:2:-:-,61:v:7630:1:-:-\nread - 61 3 0\nread - 61 4 0\nread - 61 2 0\nread - 62 9 0\n";

const REPLIES: &str = "ok\nvalue 7631\nnone\nvalue 7631\nnone\n";

// The scheduler of a program without words for another one.
fn scheduler(rt: &impl Abort, alloc: Global) -> Box<dyn CompactionScheduler + Send + Sync> {
    Box::new(alloc, SizeTieredCompactionScheduler::default()).expect(rt, "a scheduler")
}

// Runs a script on a fresh fleet.
fn run<R: Threads + Sync + Abort, K: Sink>(
    rt: &R,
    alloc: Global,
    script: &[u8],
    sink: &mut K,
) -> Result<(), FleetError> {
    let mut fleet = Fleet::new(alloc, FleetOptions::default()).expect(rt, "a fleet");
    let scheduler = scheduler(rt, alloc);
    run_script(
        rt,
        alloc,
        script,
        &AppendOperator,
        scheduler,
        &mut fleet,
        sink,
    )
}

// Whether a script is refused at a line, with nothing written.
fn is_bad_at<R: Threads + Sync + Abort>(rt: &R, alloc: Global, script: &str, line: u64) -> bool {
    let mut sink = MemSink::new(alloc, &[]);
    let result = run(rt, alloc, script.as_bytes(), &mut sink);
    result == Err(FleetError::BadLine(line)) && sink.as_slice().is_empty()
}

#[test]
fn bad_lines_are_named(rt: HostRuntime) {
    let rows: [(&str, u64); 7] = [
        ("read - 61 1 0\nread - 61 2 0\nread - 6 1 0\n", 3),
        ("read - 61 1 0", 1),
        ("\n", 1),
        ("clock 1\noptions 1 1 1 1 1 no\n", 2),
        ("start worker 1\nstart worker 1 3\n", 2),
        ("start coordinator 1\npoll 2\nsettle 1 1 0\n", 3),
        ("together 1 1\n", 1),
    ];
    for (script, line) in rows {
        assert!(rt; is_bad_at(&rt, rt.alloc(), script, line), "{script}");
    }
}

#[test]
fn second_write_fails(rt: HostRuntime) {
    let mut sink = MemSink::new(rt.alloc(), &[2]);
    let result = run(
        &rt,
        rt.alloc(),
        b"read - 61 1 0\nread - 61 2 0\n",
        &mut sink,
    );
    assert!(rt; result == Err(FleetError::WriteFault));
    assert!(rt; sink.as_slice() == b"none\n".as_slice());
}

// A sink that takes one byte at a time.
struct SlowSink<'a> {
    inner: MemSink<'a>,
}

impl Sink for SlowSink<'_> {
    ghost use Rattle.fleet_run.specs.Memory.{sink_view};

    ghost view = { λ s. sink_view s.inner };

    fn write(&mut self, from: &[u8]) -> Result<usize, Failed> {
        self.inner.write(&from[..from.len().min(1)])
    }
}

#[test]
fn pieces_are_written_whole(rt: HostRuntime) {
    let mut sink = SlowSink {
        inner: MemSink::new(rt.alloc(), &[]),
    };
    let result = run(&rt, rt.alloc(), FLUSH_AND_READ.as_bytes(), &mut sink);
    assert!(rt; result == Ok(()));
    assert!(rt; sink.inner.as_slice() == REPLIES.as_bytes());
    let SlowSink { inner } = sink;
    drop(inner);
}

// The status with which the program ends with these words, if the source and the sink fail at these
// calls. It must have written this text.
fn status<R: Threads + Sync + Abort>(
    rt: &R,
    alloc: Global,
    words: &[&str],
    no_reads: &[u64],
    no_writes: &[u64],
    written: &str,
) -> u8 {
    let mut fleet = Fleet::new(alloc, FleetOptions::default()).expect(rt, "a fleet");
    let scheduler = scheduler(rt, alloc);
    let mut source = MemSource::new(FLUSH_AND_READ.as_bytes(), no_reads);
    let mut sink = MemSink::new(alloc, no_writes);
    let status = fleet_main(
        rt,
        alloc,
        words,
        &mut source,
        &AppendOperator,
        scheduler,
        &mut fleet,
        &mut sink,
    );
    assert!(rt; sink.as_slice() == written.as_bytes());
    status
}

#[test]
fn statuses(rt: HostRuntime) {
    let alloc = rt.alloc();
    assert!(rt; status(&rt, alloc, &["run"], &[], &[], REPLIES) == 0);
    let levels = ["run", "level", "2", "20", "2"];
    assert!(rt; status(&rt, alloc, &levels, &[], &[], REPLIES) == 0);
    assert!(rt; status(&rt, alloc, &["run"], &[1], &[], "") == 4);
    assert!(rt; status(&rt, alloc, &["run"], &[2], &[], "") == 4);
    assert!(rt; status(&rt, alloc, &["run"], &[], &[2], "ok\n") == 5);
}

const SUMMARY: &str = "rounds 0 lines 2 script 35 replies 14\n";

#[test]
fn generated_scripts_are_summed_up(rt: HostRuntime) {
    let alloc = rt.alloc();
    assert!(rt; status(&rt, alloc, &["generate", "7", "0"], &[1], &[], SUMMARY) == 0);
    assert!(rt; status(&rt, alloc, &["generate", "7", "0"], &[], &[1], "") == 5);
}

#[test]
fn other_words_are_refused(rt: HostRuntime) {
    let alloc = rt.alloc();
    let other: [&[&str]; 9] = [
        &[],
        &["runs"],
        &["run", "level", "0", "1", "2"],
        &["run", "levels", "1", "1", "2"],
        &["run", "1", "1"],
        &["generate", "1"],
        &["generate", "01", "1"],
        &["generate", "1", "2001"],
        &["generate", "18446744073709551616", "1"],
    ];
    for words in other {
        assert!(rt; status(&rt, alloc, words, &[], &[], "") == 2);
    }
}

#[test]
fn sources_give_and_end(rt: HostRuntime) {
    let mut buffer = [0u8; 4];
    let mut memory = MemSource::new(b"abcdef", &[2]);
    assert!(rt; memory.read(&mut buffer) == Ok(4));
    assert!(rt; buffer.as_slice() == b"abcd".as_slice());
    assert!(rt; memory.read(&mut buffer) == Err(Failed));
    assert!(rt; memory.read(&mut buffer) == Ok(2));
    assert!(rt; memory.read(&mut buffer) == Ok(0));
}

#[test]
fn safe_sources_give_and_end(rt: HostRuntime) {
    let mut buffer = [0u8; 4];
    let mut safe = SafeSource::new(b"abcdef");
    assert!(rt; safe.read(&mut buffer) == Ok(4));
    assert!(rt; safe.read(&mut []) == Ok(0));
    assert!(rt; safe.read(&mut buffer) == Ok(2));
    assert!(rt; safe.read(&mut buffer) == Ok(0));
    assert!(rt; SafeSink::new().taken() == 0);
}
