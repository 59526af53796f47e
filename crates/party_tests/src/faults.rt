// Steps of a coordinator, a submitter and the writer that a fault strikes, at each of their gets and
// puts.
use crate::schedulers::Willing;
use crate::sites::{Site, small, versions};
use crate::work::{Task, are, job};
use fleet_fold::AppendOperator;
use fleet_jobs::{CompactionStatus, Release};
use fleet_rows::SlateDBError;
use std::alloc::Global;
use std::process::Abort;
use std::test::*;
use std::thread::Threads;

// A site at which a poll has everything to do: job 1 is ended, job 2 merges flushes that overlap,
// job 3 can move its flush, and job 4 drains a segment. Nothing takes the last flushes.
fn busy<R: Threads + Abort + Sync>(rt: &R, alloc: Global) -> Site<AppendOperator> {
    let mut site = small(alloc).expect(rt, "a step");
    site.hire(1, Release::Two);
    site.work(rt, 1, 1, Task::Claim).expect(rt, "a step");
    site.work(rt, 1, 1, Task::Finish).expect(rt, "a step");
    site.flush("b", 0, &[("b1", 4, Some("4")), ("b3", 5, Some("5"))])
        .expect(rt, "a step");
    site.flush("b", 0, &[("b2", 6, Some("6"))])
        .expect(rt, "a step");
    site.flush("c", 0, &[("c1", 7, Some("7"))])
        .expect(rt, "a step");
    site.flush("d", 0, &[("d1", 8, Some("8"))])
        .expect(rt, "a step");
    site.flush("e", 0, &[("e1", 9, Some("9")), ("e3", 10, None)])
        .expect(rt, "a step");
    site.flush("e", 0, &[("e2", 11, None)]).expect(rt, "a step");
    site.submit(None, "b", &[4, 3], Some(2))
        .expect(rt, "a step");
    site.submit(None, "c", &[5], Some(1)).expect(rt, "a step");
    site.submit(None, "d", &[6], None).expect(rt, "a step");
    site
}

// A poll comes after a start.
#[derive(Clone, Copy)]
enum Step {
    Poll,
    Submit,
    Request,
    Flush,
}

// The steps, with the numbers of their puts of the manifest and of the records among their calls, and
// the number of their calls.
static STEPS: [(Step, &[u32], &[u32], u32); 4] = [
    (Step::Poll, &[3, 9], &[4, 10], 10),
    (Step::Submit, &[], &[2], 2),
    (Step::Request, &[], &[3], 3),
    (Step::Flush, &[3], &[], 3),
];

fn make(site: &mut Site<AppendOperator>, step: Step) -> Result<(), SlateDBError> {
    let scheduler = Willing::new(site.alloc);
    match step {
        Step::Poll => {
            site.poll(true, 1)?;
        }
        Step::Submit => {
            site.submit(None, "e", &[8, 7], Some(3))?;
        }
        Step::Request => {
            site.submit(Some(&scheduler), "e", &[8, 7], Some(3))?;
        }
        Step::Flush => site.flush("f", 0, &[("f", 12, None)])?,
    }
    Ok(())
}

// How many of these puts take effect if the call with this number is struck.
fn stood(puts: &[u32], call: u32, stands: bool) -> u64 {
    let mut count: u64 = 0;
    for put in puts {
        if *put < call || (stands && *put == call) {
            count = count.saturating_add(1);
        }
    }
    count
}

// Whether the fault strikes the call with this number, and leaves what it has to leave. A later poll
// does what is left. If a poll put the manifest but not the records, that one finds that the nodes of
// the jobs are gone, as in the worked script `takeover`.
fn strikes<R: Threads + Abort + Sync>(
    rt: &R,
    alloc: Global,
    step: (Step, &'static [u32], &'static [u32], u32),
    call: u32,
    stands: bool,
) -> bool {
    let mut site = busy(rt, alloc);
    let (manifest, records) = versions(&site.store);
    site.store.set_fault(call, stands);
    let made = make(&mut site, step.0);
    let (puts, more) = (stood(step.1, call, stands), stood(step.2, call, stands));
    let wanted = (manifest.saturating_add(puts), records.saturating_add(more));
    let struck = site.is_struck(&made, stands) && versions(&site.store) == wanted;
    let report = site.poll(true, 1).expect(rt, "a step");
    let opened = site.status(2) == Some(CompactionStatus::Scheduled);
    let left = if puts == 2 && more == 1 {
        let lost = report.lost.get(0) == Some(&(job(1), 4)) && report.refused.len() == 2;
        lost && site.status(4) == Some(CompactionStatus::Failed)
    } else {
        let none = report.lost.is_empty() && report.refused.is_empty();
        none && site.status(4) == Some(CompactionStatus::Completed)
    };
    struck && opened && left
}

#[test]
fn a_poll_does_everything_at_once(rt: HostRuntime) {
    let mut site = busy(&rt, rt.alloc());
    let report = site.poll(true, 1).expect(&rt, "a poll");
    assert!(rt; are(&report.committed, &[1]) && are(&report.opened, &[2]));
    assert!(rt; are(&report.moved, &[3]) && are(&report.drained, &[4]));
    assert!(rt; report.lost.is_empty() && report.refused.is_empty() && report.freed.is_empty());
}

#[test]
fn a_fault_strikes_each_call_of_a_step(rt: HostRuntime) {
    for step in STEPS {
        for call in 1..=step.3 {
            for stands in [false, true] {
                let struck = strikes(&rt, rt.alloc(), step, call, stands);
                assert!(rt; struck, "{call} {stands}");
            }
        }
        let mut site = busy(&rt, rt.alloc());
        site.store.set_fault(step.3.saturating_add(1), false);
        assert!(rt; make(&mut site, step.0).is_ok(), "no further call");
    }
}
