// Jobs that workers make over a store in memory.
use crate::sites::{Cell, Site, waiting};
use crate::work::{Task, are, job};
use bytes::Bytes;
use fleet_fold::{AppendOperator, MergeOperator};
use fleet_jobs::{CompactionStatus, Release};
use fleet_rows::{MergeOperatorError, SlateDBError, Text};
use std::alloc::Global;
use std::process::Abort;
use std::test::*;
use std::thread::Threads;

// A site with a job that waits, whose rows are not folded, since no sequence is below the floor.
fn plain(alloc: Global) -> Result<Site<AppendOperator>, SlateDBError> {
    let older = [
        ("a", 1, Some("1")),
        ("b", 3, Some("3")),
        ("b", 2, Some("2")),
    ];
    let newer = [
        ("b", 5, Some("5")),
        ("b", 4, Some("4")),
        ("c", 6, Some("6")),
    ];
    waiting(alloc, AppendOperator, 0, &older, &newer)
}

// The sequences of the rows that the ended job 1 wrote, and the number of rows of each table.
fn written(rt: &impl Abort, site: &Site<AppendOperator>) -> (Vec<u64>, Vec<u64>) {
    let mut seqs = Vec::new(site.alloc);
    let mut lens = Vec::new(site.alloc);
    let Some(record) = site.record(1) else {
        return (seqs, lens);
    };
    for tables in record.outputs().as_slice() {
        for handle in tables.as_slice() {
            let table = site.store.table(handle.id).expect(rt, "a table");
            for row in table.to_rows().expect(rt, "a step") {
                seqs.push(row.seq).expect(rt, "a step");
            }
            lens.push(handle.rows).expect(rt, "a step");
        }
    }
    (seqs, lens)
}

// The sequences of the rows of the plain site, by key, and newest first within a key.
static SEQS: [u64; 6] = [1, 5, 4, 3, 2, 6];

fn waits<O: MergeOperator + Copy>(site: &Site<O>) -> bool {
    match site.record(1) {
        Some(job) => job.status() == CompactionStatus::Scheduled && job.worker().is_none(),
        None => false,
    }
}

// Makes the steps of a new worker. The answer tells whether each of them was done.
fn all<R: Threads + Sync>(
    rt: &R,
    site: &mut Site<AppendOperator>,
    worker: (u64, Release),
    moment: u64,
    steps: &[Task],
) -> Result<bool, SlateDBError> {
    site.hire(worker.0, worker.1);
    let mut done = true;
    for step in steps {
        done = site.work(rt, 1, moment, *step)? && done;
    }
    Ok(done)
}

// The first worker writes a part, publishes it and gives the job back. The second one goes on,
// publishes that and is silent. A poll frees the job, and the third one ends it.
fn is_handed_on<R: Threads + Abort + Sync>(rt: &R, alloc: Global) -> bool {
    let mut site = plain(alloc).expect(rt, "a step");
    let first = [Task::Claim, Task::Output(2), Task::Beat, Task::Release];
    let began = all(rt, &mut site, (1, Release::One), 1, &first).expect(rt, "a step")
        && site.worker.stopped();
    let given_back = waits(&site);
    let second = [Task::Claim, Task::Output(1), Task::Beat];
    let went_on = all(rt, &mut site, (2, Release::Two), 2, &second).expect(rt, "a step");
    let freed = are(&site.poll(false, 1003).expect(rt, "a step").freed, &[1]) && waits(&site);
    let third = [Task::Claim, Task::Output(1), Task::Finish];
    let ended = all(rt, &mut site, (3, Release::Two), 1004, &third).expect(rt, "a step");
    let (seqs, lens) = written(rt, &site);
    // The cuts after the first tables are inside the key b.
    let cut = lens.as_slice() == [2, 1, 1, 1, 1].as_slice();
    let same = seqs.as_slice() == SEQS.as_slice();
    began && given_back && went_on && freed && ended && cut && same
}

#[test]
fn a_job_goes_from_worker_to_worker(rt: HostRuntime) {
    assert!(rt; is_handed_on(&rt, rt.alloc()));
}

// The steps, with the number of their gets and puts.
static STEPS: [(Task, u32); 5] = [
    (Task::Claim, 3),
    (Task::Beat, 2),
    (Task::Output(2), 3),
    (Task::Finish, 10),
    (Task::Release, 2),
];

// Makes the step, whose call with this number a fault is to strike.
fn make<R: Threads + Sync>(
    rt: &R,
    site: &mut Site<AppendOperator>,
    step: Task,
    call: u32,
    stands: bool,
) -> Result<bool, SlateDBError> {
    site.hire(1, Release::One);
    if step != Task::Claim {
        site.work(rt, 1, 1, Task::Claim)?;
    }
    site.store.set_fault(call, stands);
    site.work(rt, 1, 1, step)
}

// Whether a fault at this call of the step stops the worker, and another one then ends the job with
// the same rows, if it is not ended.
fn is_struck<R: Threads + Abort + Sync>(
    rt: &R,
    alloc: Global,
    step: Task,
    call: u32,
    stands: bool,
) -> bool {
    let mut site = plain(alloc).expect(rt, "a step");
    let made = make(rt, &mut site, step, call, stands);
    let struck = site.is_struck(&made, stands) && site.worker.stopped();
    site.poll(false, 3000).expect(rt, "a step");
    site.hire(2, Release::Two);
    if site.work(rt, 1, 3001, Task::Claim).expect(rt, "a step") {
        site.work(rt, 1, 3001, Task::Finish).expect(rt, "a step");
    }
    struck && written(rt, &site).0.as_slice() == SEQS.as_slice()
}

#[test]
fn a_fault_stops_a_worker_and_another_one_ends_the_job(rt: HostRuntime) {
    for (step, calls) in STEPS {
        for call in 1..=calls {
            for stands in [false, true] {
                let struck = is_struck(&rt, rt.alloc(), step, call, stands);
                assert!(rt; struck, "{call} {stands}");
            }
        }
        let mut site = plain(rt.alloc()).expect(&rt, "a job");
        assert!(rt;
            matches!(
                make(&rt, &mut site, step, calls.saturating_add(1), false),
                Ok(true)
            ),
            "{calls}"
        );
    }
}

// Whether nothing is left of a range whose only rows are a key that was deleted.
fn is_without_rows<R: Threads + Abort + Sync>(rt: &R, alloc: Global) -> bool {
    let older: [Cell; 1] = [("a", 1, Some("1"))];
    let mut site = waiting(alloc, AppendOperator, 2, &older, &[("a", 2, None)]).expect(
        rt, "a step",
    );
    let none = !all(
        rt,
        &mut site,
        (1, Release::Two),
        1,
        &[Task::Claim, Task::Output(1)],
    )
    .expect(rt, "a step");
    let ended = site.work(rt, 1, 1, Task::Finish).expect(rt, "a step");
    let (seqs, lens) = written(rt, &site);
    let ranges = site.record(1).map_or(0, |job| job.outputs().len());
    none && ended && seqs.is_empty() && lens.is_empty() && ranges == 1
}

// Whether a job of 64 flushes is made in 64 ranges.
fn has_64_ranges<R: Threads + Abort + Sync>(rt: &R, alloc: Global) -> bool {
    let mut site = Site::new(alloc, AppendOperator).expect(rt, "a step");
    let mut flushes = Vec::new(alloc);
    for (place, key) in KEYS.split(' ').enumerate() {
        let name = (place as u64).saturating_add(1);
        site.flush("", 0, &[(key, name, Some("1"))])
            .expect(rt, "a step");
        flushes.insert(0, name).expect(rt, "a step");
    }
    site.poll(false, 0).expect(rt, "a step");
    site.submit(None, "", flushes.as_slice(), Some(0))
        .expect(rt, "a step");
    site.poll(false, 0).expect(rt, "a step");
    site.hire(1, Release::Two);
    site.work(rt, 64, 1, Task::Claim).expect(rt, "a step");
    let ranges = site.worker.ranges(job(1));
    let ended = site.work(rt, 64, 1, Task::Finish).expect(rt, "a step");
    ranges == Some(64) && ended && written(rt, &site).1.len() == 64
}

// Refuses every operand.
#[derive(Clone, Copy, Debug)]
struct Refusing;

impl MergeOperator for Refusing {
    ghost use Rattle.std.specs.Prelude.{[]};
    ghost use Rattle.party_tests.specs.Refusing.{refusing, refusing_is_lawful};

    ghost settings = { λ _. [] };

    ghost merged = { λ _. refusing };

    ghost lawful = { λ _. refusing_is_lawful };

    fn merge(
        &self,
        alloc: Global,
        _key: &Bytes,
        _existing_value: Option<Bytes>,
        _value: Bytes,
    ) -> Result<Bytes, MergeOperatorError> {
        Err(MergeOperatorError::Callback {
            message: Text::new(String::from_str(alloc, "no")?),
        })
    }
}

// Whether the operator refuses in the second range, and the job is given back then.
fn is_refused<R: Threads + Abort + Sync>(rt: &R, alloc: Global) -> bool {
    let older = [("a", 1, None), ("aa", 2, None)];
    let mut site = waiting(alloc, Refusing, 9, &older, &[("b", 3, Some("3"))]).expect(rt, "a step");
    site.hire(1, Release::Two);
    let claimed = site.work(rt, 2, 1, Task::Claim).expect(rt, "a step")
        && site.worker.ranges(job(1)) == Some(2);
    let ended = site.work(rt, 2, 1, Task::Finish);
    let refused = matches!(ended, Err(SlateDBError::MergeOperator(_)));
    let gone = site.worker.attempt(job(1)).is_none() && !site.worker.stopped();
    claimed && refused && gone && waits(&site)
}

static KEYS: &str =
    "00 01 02 03 04 05 06 07 10 11 12 13 14 15 16 17 20 21 22 23 24 25 26 27 30 31 32 33 34 35 36 37 40 41 42 43 44 45 46 47 50 51 52 53 54 55 56 57 60 61 62 63 64 65 66 67 70 71 72 73 74 75 76 77";

#[test]
fn workers_meet_ranges_of_all_kinds(rt: HostRuntime) {
    assert!(rt; is_without_rows(&rt, rt.alloc()));
    assert!(rt; is_refused(&rt, rt.alloc()));
    assert!(rt; has_64_ranges(&rt, rt.alloc()));
}
