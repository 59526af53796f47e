//! Tests of the lines of scripts and of the texts of replies.

use bytes::Bytes;
use fleet_rows::{
    DRAWN_BASE, JobList, PlaceList, RowEntry, RuleList, SlateDBError, Ulid, ValueDeletable,
};
use fleet_text::{Line, Reply, TextError, read_script};
use std::alloc::Global;
use std::process::Abort;

const BAD: [(&str, u64); 39] = [
    ("\n", 1),
    ("read - 61 1 0", 1),
    ("read - 61 1 0\nread - 61 1 0", 2),
    ("read - 61 1 0\n\nread - 61 1 0\n", 2),
    ("read - 61 1 0\nread - 61 1 0\nread\n", 3),
    ("read  - 61 1 0\n", 1),
    ("read - 61  1 0\n", 1),
    (" read - 61 1 0\n", 1),
    ("read - 61 1 0 \n", 1),
    ("read - 61 1 0\r\n", 1),
    ("read\t- 61 1 0\n", 1),
    ("Read - 61 1 0\n", 1),
    ("write - 61 1 0\n", 1),
    ("read - 61 1\n", 1),
    ("read - 61 1 0 0\n", 1),
    ("read - 61 01 0\n", 1),
    ("read - 61 00 0\n", 1),
    ("read - 61 +1 0\n", 1),
    ("read - 61 -1 0\n", 1),
    ("read - 61 1 -0\n", 1),
    ("read - 61 1 +1\n", 1),
    ("read - 61 1 -01\n", 1),
    ("read - 61 1 -\n", 1),
    ("read - 61 18446744073709551616 0\n", 1),
    ("read - 61 1 9223372036854775808\n", 1),
    ("read - 61 1 -9223372036854775809\n", 1),
    ("read - 6A 1 0\n", 1),
    ("read - 611 1 0\n", 1),
    ("read - 6g 1 0\n", 1),
    ("read - - 1 0\n", 1),
    ("flush 0 - 0 0 61:t:-:1:-:-\n", 1),
    ("flush 1099511627776 - 0 0 61:t:-:1:-:-\n", 1),
    ("flush 1 - 0 9223372036854775808 61:t:-:1:-:-\n", 1),
    ("flush 1 - 0 -9223372036854775809 61:t:-:1:-:-\n", 1),
    ("flush 1 - 0 0 -\n", 1),
    ("flush 1 - 0 0 61:t:-:1:-:-,\n", 1),
    ("flush 1 - 0 0 61:t:00:1:-:-\n", 1),
    ("flush 1 - 0 0 -:v:00:1:-:-\n", 1),
    ("flush 1 - 0 0 61:v:00:1:-:-:-\n", 1),
];

const BAD_PARTIES: [(&str, u64); 48] = [
    ("start worker 01\n", 1),
    ("start worker\n", 1),
    ("start 1\n", 1),
    ("start party 1\n", 1),
    ("submit - 4294967296 l1\n", 1),
    ("submit - 01 l1\n", 1),
    ("submit - l1\n", 1),
    ("submit - 1 l0\n", 1),
    ("submit - 1 l01\n", 1),
    ("submit - 1 l1099511627776\n", 1),
    ("submit - 1 l\n", 1),
    ("submit - 1 1\n", 1),
    ("poll\n", 1),
    ("poll 1 1\n", 1),
    ("claim 01\n", 1),
    ("claim -\n", 1),
    ("finish 1 0\n", 1),
    ("finish 1 01\n", 1),
    ("finish 1\n", 1),
    ("finish 1 18446744073709551616\n", 1),
    ("dump - l0\n", 1),
    ("dump - l1099511627776\n", 1),
    ("dump - r4294967296\n", 1),
    ("dump - r01\n", 1),
    ("dump - r\n", 1),
    ("dump - x1\n", 1),
    ("dump - 1\n", 1),
    ("dump - -\n", 1),
    ("dump r0\n", 1),
    ("sweep -\n", 1),
    ("scan - - - 1 0 0\n", 1),
    ("settle 1 1 0\n", 1),
    ("together 1 1\n", 1),
    ("options 1 1 1 65 1 0\n", 1),
    ("options 1 1 1 1 1 2\n", 1),
    ("clock 1\noptions 1 1 1 1 1 0\n", 2),
    ("start worker 1 3\n", 1),
    ("start worker 1 0\n", 1),
    ("fault 0 lost\n", 1),
    ("fault 1 struck\n", 1),
    ("output 1 1 0 1\n", 1),
    ("output 1 1 65 1\n", 1),
    ("output 1 1 1 0\n", 1),
    ("full - -\n", 1),
    ("drain - l0\n", 1),
    ("trees -\n", 1),
    ("clock 18446744073709551616\n", 1),
    ("flush 1 61 0 0 6:t:-:1:-:-\n", 1),
];

fn bad_line(alloc: Global, text: &str) -> u64 {
    match read_script(alloc, text.as_bytes()) {
        Err(TextError::BadLine(n)) => n,
        _ => 0,
    }
}

#[test]
fn bad_lines(rt: HostRuntime) {
    for (text, line) in BAD {
        assert!(rt; bad_line(rt.alloc(), text) == line, "{text}");
    }
    for (text, line) in BAD_PARTIES {
        assert!(rt; bad_line(rt.alloc(), text) == line, "{text}");
    }
}

// Whether the line names only the root segment, or only the first coordinator or worker, as each of
// `LINES` does.
fn is_of_root_or_first(line: &Line) -> bool {
    match line {
        Line::StartCoordinator { number } | Line::StartWorker { number, .. } => *number == 1,
        Line::Poll { coordinator } => *coordinator == 1,
        Line::Claim { worker } | Line::Finish { worker, .. } => *worker == 1,
        Line::Flush { segment, .. }
        | Line::Read { segment, .. }
        | Line::Submit { segment, .. }
        | Line::Dump { segment, .. } => segment.is_empty(),
        _ => false,
    }
}

const LINES: &str = "flush 7 - 3 -5 61:v:7a:2:-:-,61:t:-:1:-:-\n\
     read - 6100 4 9\n\
     start coordinator 1\n\
     start worker 1\n\
     submit - 4 l7\n\
     poll 1\n\
     claim 1\n\
     finish 1 8\n\
     dump - l9\n\
     dump - r3\n";

#[test]
fn copies(rt: HostRuntime) {
    let lines = read_script(rt.alloc(), LINES.as_bytes()).expect(&rt, "a script");
    assert!(rt; lines.len() == 10);
    for line in lines.as_slice() {
        assert!(rt; is_of_root_or_first(line));
        assert!(rt; line.clone().expect(&rt, "a copy") == *line);
    }
}

#[test]
fn reads_the_same_again(rt: HostRuntime) {
    let lines = read_script(rt.alloc(), LINES.as_bytes()).expect(&rt, "a script");
    let again = read_script(rt.alloc(), LINES.as_bytes()).expect(&rt, "a script");
    assert!(rt; again.as_slice() == lines.as_slice());
}

// Appends the jobs, the names of the tables with their numbers, and a space after each.
fn print_jobs(reply: &mut Reply, jobs: &JobList) -> Result<(), SlateDBError> {
    reply.jobs(jobs)?;
    reply.word(" ")?;
    reply.table_names(jobs)?;
    reply.word(" ")
}

#[test]
fn jobs_and_tables(rt: HostRuntime) {
    let mut jobs = JobList::new(rt.alloc());
    let mut reply = Reply::new(rt.alloc());
    print_jobs(&mut reply, &jobs).expect(&rt, "memory");
    jobs.push(Ulid::from_parts(0, 7)).expect(&rt, "memory");
    print_jobs(&mut reply, &jobs).expect(&rt, "memory");
    let drawn = Ulid::from_parts(1_700, DRAWN_BASE + 3);
    jobs.push(drawn).expect(&rt, "memory");
    print_jobs(&mut reply, &jobs).expect(&rt, "memory");
    let printed = b"- - 7 l7 7,604462909807314587353091 l7,t3 ";
    assert!(rt; reply.as_slice() == printed.as_slice());
    assert!(rt; reply == reply);
}

// Appends the rules, the places, and a space after each.
fn print_rules(
    reply: &mut Reply,
    rules: &RuleList,
    places: &PlaceList,
) -> Result<(), SlateDBError> {
    reply.rules(rules)?;
    reply.word(" ")?;
    reply.places(places)?;
    reply.word(" ")
}

#[test]
fn rules_and_places(rt: HostRuntime) {
    let mut rules = RuleList::new(rt.alloc());
    let mut places = PlaceList::new(rt.alloc());
    let mut reply = Reply::new(rt.alloc());
    print_rules(&mut reply, &rules, &places).expect(&rt, "memory");
    let rule = (Ulid::from_parts(1_700, 3), 6);
    rules.push(rule).expect(&rt, "memory");
    places.push((1, 9)).expect(&rt, "memory");
    print_rules(&mut reply, &rules, &places).expect(&rt, "memory");
    let rule = (Ulid::from_parts(0, 4), 12);
    rules.push(rule).expect(&rt, "memory");
    places.push((u64::MAX, 255)).expect(&rt, "memory");
    print_rules(&mut reply, &rules, &places).expect(&rt, "memory");
    let printed = b"- - 3:6 1:9 3:6,4:12 1:9,18446744073709551615:255 ";
    assert!(rt; reply.as_slice() == printed.as_slice());
}

// A row of the key `a`, with its sequence and its stamps.
fn row(
    rt: &impl Abort,
    alloc: Global,
    value: ValueDeletable,
    seq: u64,
    stamps: (Option<i64>, Option<i64>),
) -> RowEntry {
    let key = Bytes::copy_from_slice(alloc, b"a").expect(rt, "a key");
    let (created, expires) = stamps;
    RowEntry::new(key, value, seq, created, expires)
}

fn value(rt: &impl Abort, alloc: Global) -> ValueDeletable {
    ValueDeletable::Value(Bytes::copy_from_slice(alloc, b"z").expect(rt, "a value"))
}

// Appends rows, and a space after them.
fn print_rows(reply: &mut Reply, rows: &[RowEntry]) -> Result<(), SlateDBError> {
    reply.rows(rows)?;
    reply.word(" ")
}

#[test]
fn rows(rt: HostRuntime) {
    let alloc = rt.alloc();
    let mut reply = Reply::new(alloc);
    print_rows(&mut reply, &[]).expect(&rt, "memory");
    let set = row(&rt, alloc, value(&rt, alloc), 2, (None, None));
    let deleted = row(&rt, alloc, ValueDeletable::Tombstone, 1, (None, None));
    let rows = [set, deleted];
    print_rows(&mut reply, &rows[..1]).expect(&rt, "memory");
    print_rows(&mut reply, &rows).expect(&rt, "memory");
    let printed = b"- 61:v:7a:2:-:- 61:v:7a:2:-:-,61:t:-:1:-:- ";
    assert!(rt; reply.as_slice() == printed.as_slice());
}

#[test]
fn rows_with_stamps(rt: HostRuntime) {
    let alloc = rt.alloc();
    let set = row(&rt, alloc, value(&rt, alloc), 2, (Some(5), Some(i64::MIN)));
    let none = ValueDeletable::Merge(Bytes::new());
    let operand = row(&rt, alloc, none, 0, (None, Some(0)));
    let deleted = row(&rt, alloc, ValueDeletable::Tombstone, 1, (Some(-1), None));
    let mut reply = Reply::new(alloc);
    print_rows(&mut reply, &[set, operand, deleted]).expect(&rt, "memory");
    let printed = b"61:v:7a:2:5:-9223372036854775808,61:m:-:0:-:0,61:t:-:1:-1:- ";
    assert!(rt; reply.as_slice() == printed.as_slice());
}

#[test]
fn errors(rt: HostRuntime) {
    let bad = TextError::BadLine(3)
        .to_string(rt.alloc())
        .expect(&rt, "a text");
    assert!(rt; bad.as_str() == "line 3 is no line of a script");
    let memory = TextError::Memory
        .to_string(rt.alloc())
        .expect(&rt, "a text");
    assert!(rt; memory.as_str() == "Memory");
}
