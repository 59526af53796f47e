//! Tests of the reader: each form of line, with its fields at their bounds and beyond them. There
//! are also tests of whole replies.

use bytes::Bytes;
use fleet_rows::{DRAWN_BASE, IdList, JobList, ListOf, NamesList, PlaceList, RuleList, Ulid};
use fleet_text::{Begun, FlushFault, Page, PollReport, Reply, ScanEnd, answers, line_at, listings};
use std::alloc::Global;
use std::process::Abort;

const LINES: [&str; 80] = [
    "options 0 0 0 0 0 0",
    "options 0 0 0 0 0 1 0",
    "options 18446744073709551615 18446744073709551615 18446744073709551615 64 0 1",
    "options 0 0 0 0 18446744073709551615 1",
    "options 0 0 0 64 0 0 18446744073709551615",
    "clock 0",
    "clock 18446744073709551615",
    "start coordinator 0",
    "start coordinator 18446744073709551615",
    "start worker 0",
    "start worker 18446744073709551615",
    "start worker 0 1",
    "start worker 0 2",
    "kill coordinator 0",
    "kill coordinator 18446744073709551615",
    "kill worker 0",
    "kill worker 18446744073709551615",
    "stop coordinator 0",
    "stop coordinator 18446744073709551615",
    "stop worker 0",
    "stop worker 18446744073709551615",
    "flush 1 - 0 0 61:v:-:0:-:-",
    "flush 1099511627775 61 18446744073709551615 9223372036854775807 61:m:00:1:-:-",
    "flush 1 00ff 0 -9223372036854775808 61:t:-:18446744073709551615:-:-",
    "flush 1 - 0 0 61:v:62:1:9223372036854775807:-9223372036854775808",
    "flush 1 - 0 0 61:v:62:1:0:-,61:v:62:1:-:0,62:t:-:2:-1:1",
    "read - 61 0 0",
    "read 61 62 18446744073709551615 9223372036854775807",
    "read 61 62 1 -9223372036854775808",
    "submit - 0 -",
    "submit 61 4294967295 l1,r0,l1099511627775,r4294967295",
    "drain - -",
    "drain 61 l1,r1",
    "full",
    "full -",
    "full 61",
    "poll 0",
    "poll 18446744073709551615",
    "commit 0",
    "commit 18446744073709551615",
    "claim 0",
    "claim 18446744073709551615",
    "heartbeat 0",
    "heartbeat 18446744073709551615",
    "output 0 1 1 1",
    "output 18446744073709551615 18446744073709551615 64 4294967295",
    "finish 0 1",
    "finish 18446744073709551615 18446744073709551615",
    "fault 1 lost",
    "fault 1 stands",
    "fault 4294967295 lost",
    "fault 4294967295 stands",
    "trees",
    "jobs",
    "tables - l1",
    "tables 61 l1099511627775",
    "tables - r0",
    "tables - r4294967295",
    "dump - l1",
    "dump 61 l1099511627775",
    "dump - r0",
    "dump - r4294967295",
    "sweep",
    "scan - - - 0 0 1",
    "scan 61 62 63 18446744073709551615 9223372036854775807 4294967295",
    "scan 61 - 63 0 -9223372036854775808 1",
    "scan 61 62 - 0 -1 1",
    "settle 0 0 1",
    "settle 18446744073709551615 18446744073709551615 1000000",
    "together 1 1",
    "together 16 100000",
    "scan - 61 61 1 1 1",
    "scan - 62 61 1 1 1",
    "clock 1000000000000000000",
    "read - 00 9 9",
    "submit - 1 r1,r1",
    "drain - l10",
    "output 1 1 10 10",
    "fault 10 lost",
    "settle 1 1 999999",
];

const NO_LINES: [&str; 92] = [
    "",
    " ",
    "options 0 0 0 0 0",
    "options 0 0 0 0 0 2",
    "options 0 0 0 65 0 0",
    "options 0 0 0 0 0 0 -",
    "options 0 0 0 0 0 0 0 0",
    "options 18446744073709551616 0 0 0 0 0",
    "options 0 18446744073709551616 0 0 0 0",
    "options 0 0 18446744073709551616 0 0 0",
    "options 0 0 0 0 18446744073709551616 0",
    "options 0 0 0 0 0 0 18446744073709551616",
    "options 00 0 0 0 0 0",
    "options 0 0 0 0 0 00",
    "clock",
    "clock -1",
    "clock +1",
    "clock 01",
    "clock 1 ",
    "clock 18446744073709551616",
    "start 1",
    "start coordinator",
    "start coordinator 1 1",
    "start coordinator 18446744073709551616",
    "start worker 1 0",
    "start worker 1 3",
    "start worker 1 -",
    "start worker 1 1 1",
    "start Worker 1",
    "kill 1",
    "kill worker",
    "kill worker 1 1",
    "kill party 1",
    "stop worker 18446744073709551616",
    "stop coordinator -",
    "flush 0 - 0 0 61:v:-:0:-:-",
    "flush 1099511627776 - 0 0 61:v:-:0:-:-",
    "flush 1 - 18446744073709551616 0 61:v:-:0:-:-",
    "flush 1 - 0 9223372036854775808 61:v:-:0:-:-",
    "flush 1 - 0 -9223372036854775809 61:v:-:0:-:-",
    "flush 1 - 0 0 -",
    "flush 1 - 0 0 61:v:-:0:-:-,",
    "flush 1 - 0 0 61:v:-:0:-",
    "flush 1 - 0 0 61:v:-:0:-:-:-",
    "flush 1 - 0 0 -:v:-:0:-:-",
    "flush 1 - 0 0 61:t:00:0:-:-",
    "flush 1 - 0 0 61:x:-:0:-:-",
    "flush 1 - 0 0 61:v:-:0:-0:-",
    "flush 1 - 0 0 61:v:-:0::-",
    "flush 1 - 0 0 61:v:-:0:-:9223372036854775808",
    "flush 1 - 0 0 61:v:-:18446744073709551616:-:-",
    "flush 1 - 0 0 61:v:6A:0:-:-",
    "flush 1 - 0 0 61:v:616:0:-:-",
    "read - - 0 0",
    "read - 61 18446744073709551616 0",
    "read - 61 0 -0",
    "submit - 4294967296 -",
    "submit - 0 l0",
    "submit - 0 l1099511627776",
    "submit - 0 r4294967296",
    "submit - 0 l1,-",
    "submit - 0 -,l1",
    "submit - 0 l1;l2",
    "submit - 0",
    "drain -",
    "drain - l1 l2",
    "full - -",
    "full 6",
    "output 1 0 1 1",
    "output 1 1 0 1",
    "output 1 1 65 1",
    "output 1 1 1 0",
    "output 1 1 1 4294967296",
    "output 1 18446744073709551616 1 1",
    "finish 1 0",
    "fault 0 lost",
    "fault 4294967296 lost",
    "fault 1 Lost",
    "fault 1",
    "trees 1",
    "Trees",
    "jobs ",
    "sweep 1",
    "scan - - - 0 0 0",
    "scan - - - 0 0 4294967296",
    "scan - - - 0 0",
    "settle 1 1 0",
    "settle 1 1 1000001",
    "together 0 1",
    "together 17 1",
    "together 1 0",
    "together 1 100001",
];

fn is_line(alloc: Global, text: &[u8]) -> bool {
    matches!(line_at(alloc, text), Ok(Some(_)))
}

#[test]
fn lines(rt: HostRuntime) {
    for line in LINES {
        assert!(rt; is_line(rt.alloc(), line.as_bytes()), "{line}");
    }
}

#[test]
fn no_lines(rt: HostRuntime) {
    for line in NO_LINES {
        assert!(rt; !is_line(rt.alloc(), line.as_bytes()), "{line}");
    }
}

// A line of these bytes after `read - `, with this key.
fn with_key(rt: &impl Abort, alloc: Global, length: usize) -> Vec<u8> {
    let mut text = Vec::new(alloc);
    text.extend_from_slice(b"read - ").expect(rt, "memory");
    for _ in 0..length {
        text.extend_from_slice(b"61").expect(rt, "memory");
    }
    text.extend_from_slice(b" 1 0").expect(rt, "memory");
    text
}

#[test]
fn long_keys(rt: HostRuntime) {
    let alloc = rt.alloc();
    assert!(rt; is_line(alloc, with_key(&rt, alloc, 65_535).as_slice()));
    assert!(rt; !is_line(alloc, with_key(&rt, alloc, 65_536).as_slice()));
}

#[test]
fn bytes_that_are_no_letters(rt: HostRuntime) {
    assert!(rt; !is_line(rt.alloc(), b"trees\n"));
    assert!(rt; !is_line(rt.alloc(), b"trees\r"));
    assert!(rt; !is_line(rt.alloc(), b"clock\t1"));
    assert!(rt; !is_line(rt.alloc(), b"clock \xc2\xb2"));
    assert!(rt; !is_line(rt.alloc(), b"\xffclock 1"));
    assert!(rt; !is_line(rt.alloc(), b"clock 1\x00"));
}

fn says(rt: &impl Abort, reply: Reply, text: &str) {
    assert!(rt; reply.as_slice() == text.as_bytes(), "{text}");
}

#[test]
fn short_replies(rt: HostRuntime) {
    let alloc = rt.alloc();
    let drawn = Ulid::from_parts(5, DRAWN_BASE + 7);
    let replies = [
        (answers::done(alloc), "ok\n"),
        (answers::store_fault(alloc), "storefault\n"),
        (answers::no_such_party(alloc), "nosuchparty\n"),
        (answers::no_records(alloc), "invaliddbstate\n"),
        (answers::invalid_compaction(alloc), "invalidcompaction\n"),
        (answers::not_owner(alloc), "notowner\n"),
        (answers::none(alloc), "none\n"),
        (answers::absent(alloc), "ok absent\n"),
        (answers::no_output(alloc), "ok none\n"),
        (answers::started(alloc, 3), "ok epoch 3\n"),
        (answers::fenced(alloc, 4), "fenced 4\n"),
        (answers::conflict(alloc, 5), "conflict 5\n"),
        (answers::settled(alloc, 6), "ok settled 6\n"),
        (answers::rounds_taken(alloc, 7), "ok rounds 7\n"),
        (answers::not_retained(alloc, 8, -9), "notretained 8 -9\n"),
        (answers::idle(alloc, 1, 2), "ok idle claims 1 commits 2\n"),
        (answers::turns(alloc, 0, 0), "ok turns claims 0 commits 0\n"),
        (answers::value(alloc, b""), "value -\n"),
        (answers::value(alloc, b"v"), "value 76\n"),
        (answers::callback(alloc, b"no"), "callback 6e6f\n"),
        (answers::generate_refused(alloc, b"no"), "generate 6e6f\n"),
        (
            answers::bad_flush(alloc, FlushFault::Name),
            "badflush name\n",
        ),
        (
            answers::bad_flush(alloc, FlushFault::Segment),
            "badflush segment\n",
        ),
        (
            answers::bad_flush(alloc, FlushFault::Order),
            "badflush order\n",
        ),
        (
            answers::bad_flush(alloc, FlushFault::Sequence),
            "badflush sequence\n",
        ),
        (
            answers::bad_flush(alloc, FlushFault::Floor),
            "badflush floor\n",
        ),
        (
            answers::bad_flush(alloc, FlushFault::Tick),
            "badflush tick\n",
        ),
        (answers::output(alloc, drawn, 2), "ok t7 2\n"),
    ];
    for (reply, text) in replies {
        says(&rt, reply.expect(&rt, "memory"), text);
    }
}

fn jobs(rt: &impl Abort, alloc: Global, numbers: &[u64]) -> JobList {
    let mut jobs = JobList::new(alloc);
    for number in numbers {
        jobs.push(Ulid::from_parts(1, *number as u128))
            .expect(rt, "memory");
    }
    jobs
}

#[test]
fn replies_with_jobs(rt: HostRuntime) {
    let alloc = rt.alloc();
    let none = jobs(&rt, alloc, &[]);
    let two = jobs(&rt, alloc, &[1, 2]);
    let replies = [
        (
            listings::submitted(alloc, &jobs(&rt, alloc, &[3])),
            "ok job 3\n",
        ),
        (listings::submitted_all(alloc, &two), "ok jobs 1,2\n"),
        (listings::submitted_all(alloc, &none), "ok jobs -\n"),
        (listings::released(alloc, &two), "ok released 1,2\n"),
        (
            listings::beat(alloc, &two, &none),
            "ok beat 1,2 notowner -\n",
        ),
        (
            listings::claimed(alloc, &[], &two),
            "ok claimed - stopped 1,2\n",
        ),
    ];
    for (reply, text) in replies {
        says(&rt, reply.expect(&rt, "memory"), text);
    }
}

fn report(rt: &impl Abort, alloc: Global) -> PollReport {
    let mut lost = RuleList::new(alloc);
    lost.push((Ulid::from_parts(1, 3), 6)).expect(rt, "memory");
    let mut dropped = PlaceList::new(alloc);
    dropped.push((2, 9)).expect(rt, "memory");
    PollReport {
        freed: jobs(rt, alloc, &[1]),
        done: jobs(rt, alloc, &[2]),
        lost,
        added: jobs(rt, alloc, &[4]),
        dropped,
        opened: jobs(rt, alloc, &[5]),
        moved: jobs(rt, alloc, &[6]),
        drained: jobs(rt, alloc, &[7, 8]),
        refused: RuleList::new(alloc),
    }
}

#[test]
fn polls(rt: HostRuntime) {
    let alloc = rt.alloc();
    let report = report(&rt, alloc);
    let polled = listings::polled(alloc, &report).expect(&rt, "memory");
    let text = "ok freed 1 done 2 lost 3:6 added 4 dropped 2:9 open 5 moved 6 drained 7,8 bad -\n";
    says(&rt, polled, text);
    let committed = listings::committed(alloc, &report.done, &report.lost).expect(&rt, "memory");
    says(&rt, committed, "ok done 2 lost 3:6\n");
}

// A claim that takes over the tables 1 and 2 of the first of two ranges.
fn begun(rt: &impl Abort, alloc: Global) -> Begun {
    let mut tables = NamesList::new(alloc);
    let mut first = JobList::new(alloc);
    first
        .push(Ulid::from_parts(1, DRAWN_BASE + 1))
        .expect(rt, "memory");
    first
        .push(Ulid::from_parts(1, DRAWN_BASE + 2))
        .expect(rt, "memory");
    tables.push(first).expect(rt, "memory");
    tables.push(JobList::new(alloc)).expect(rt, "memory");
    Begun {
        job: Ulid::from_parts(1, 9),
        number: 2,
        tables,
    }
}

#[test]
fn claims_and_finishes(rt: HostRuntime) {
    let alloc = rt.alloc();
    let attempts = [begun(&rt, alloc), begun(&rt, alloc)];
    let claimed = listings::claimed(alloc, &attempts, &jobs(&rt, alloc, &[])).expect(&rt, "memory");
    says(
        &rt,
        claimed,
        "ok claimed 9.2:t1,t2|-;9.2:t1,t2|- stopped -\n",
    );
    let finished = listings::finished(alloc, &attempts[0].tables).expect(&rt, "memory");
    says(&rt, finished, "ok t1,t2|-\n");
}

#[test]
fn sweeps(rt: HostRuntime) {
    let alloc = rt.alloc();
    let mut tables = IdList::new(alloc);
    let none = listings::swept(alloc, &tables).expect(&rt, "memory");
    says(&rt, none, "ok -\n");
    tables.push(Ulid::from_parts(0, 1)).expect(&rt, "memory");
    tables
        .push(Ulid::from_parts(0, DRAWN_BASE + 1))
        .expect(&rt, "memory");
    let swept = listings::swept(alloc, &tables).expect(&rt, "memory");
    says(&rt, swept, "ok l1,t1\n");
}

fn page(rt: &impl Abort, alloc: Global, ends: ScanEnd) -> Page {
    let mut pairs = ListOf::new(alloc);
    let key = Bytes::copy_from_slice(alloc, b"a").expect(rt, "memory");
    pairs.push((key, Bytes::new())).expect(rt, "memory");
    let key = Bytes::copy_from_slice(alloc, b"c").expect(rt, "memory");
    let value = Bytes::copy_from_slice(alloc, b"3").expect(rt, "memory");
    pairs.push((key, value)).expect(rt, "memory");
    Page { pairs, ends }
}

#[test]
fn scans(rt: HostRuntime) {
    let alloc = rt.alloc();
    let whole = page(&rt, alloc, ScanEnd::NoneLeft);
    let whole = listings::scanned(alloc, &whole).expect(&rt, "memory");
    says(&rt, whole, "ok 61:-,63:33 end\n");
    let key = Bytes::copy_from_slice(alloc, b"d").expect(&rt, "memory");
    let more = page(&rt, alloc, ScanEnd::StopsBefore { key });
    let more = listings::scanned(alloc, &more).expect(&rt, "memory");
    says(&rt, more, "ok 61:-,63:33 more 64\n");
    let ends = ScanEnd::RefusedAt {
        key: Bytes::copy_from_slice(alloc, b"b").expect(&rt, "memory"),
        message: Bytes::copy_from_slice(alloc, b"no").expect(&rt, "memory"),
    };
    let refused = Page {
        pairs: ListOf::new(alloc),
        ends,
    };
    let refused = listings::scanned(alloc, &refused).expect(&rt, "memory");
    says(&rt, refused, "ok - callback 62 6e6f\n");
}
