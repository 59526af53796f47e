// Jobs from submit to commit, and schedulers that propose and refuse at will.
use crate::schedulers::Willing;
use crate::sites::{Site, spec, versions, waiting};
use crate::work::{Task, are, job};
use fleet_coordinator::CompactorMessage;
use fleet_fold::AppendOperator;
use fleet_jobs::{CompactionStatus, Release};
use fleet_poll::PollReport;
use fleet_rows::{RuleList, SlateDBError};
use std::alloc::Global;
use std::process::Abort;
use std::test::*;
use std::thread::Threads;

// A site with a job that waits, whose flushes overlap.
fn overlapping(alloc: Global) -> Result<Site<AppendOperator>, SlateDBError> {
    let older = [("a", 1, Some("1")), ("c", 2, Some("2"))];
    let newer = [("b", 3, Some("3")), ("c", 4, None)];
    waiting(alloc, AppendOperator, 0, &older, &newer)
}

// The status of job 1 when it is opened, claimed, freed, ended and committed, and whether a next job
// of the run that it made is only submitted.
fn statuses<R: Threads + Abort + Sync>(rt: &R, alloc: Global) -> [Option<CompactionStatus>; 6] {
    let mut site = overlapping(alloc).expect(rt, "a step");
    let opened = site.status(1);
    site.hire(1, Release::Two);
    site.work(rt, 1, 1, Task::Claim).expect(rt, "a step");
    let claimed = site.status(1);
    // A second of silence is not too long, and more than that is.
    let spared = site.poll(true, 1001).expect(rt, "a step").freed.is_empty();
    let freed = spared && are(&site.poll(true, 1002).expect(rt, "a step").freed, &[1]);
    let waits = if freed { site.status(1) } else { None };
    site.hire(2, Release::Two);
    site.work(rt, 1, 2000, Task::Claim).expect(rt, "a step");
    site.work(rt, 1, 2000, Task::Finish).expect(rt, "a step");
    let ended = site.status(1);
    site.poll(true, 2001).expect(rt, "a step");
    let committed = site.status(1);
    site.submit(None, "", &[7], Some(0)).expect(rt, "a step");
    [opened, claimed, waits, ended, committed, site.status(2)]
}

#[test]
fn a_job_goes_from_submit_to_commit(rt: HostRuntime) {
    let seen = statuses(&rt, rt.alloc());
    let wanted = [
        Some(CompactionStatus::Scheduled),
        Some(CompactionStatus::Running),
        Some(CompactionStatus::Scheduled),
        Some(CompactionStatus::Compacted),
        Some(CompactionStatus::Completed),
        Some(CompactionStatus::Submitted),
    ];
    assert!(rt; seen == wanted);
}

// What a poll reports over a site with the flush 1 of the root, and the versions that it leaves. The
// scheduler proposes moves of the flush, or drains of it.
fn polled(
    rt: &impl Abort,
    alloc: Global,
    accepts: bool,
    runs: &[Option<u32>],
    message: CompactorMessage,
) -> (PollReport, (u64, u64)) {
    let mut site = Site::new(alloc, AppendOperator).expect(rt, "a step");
    site.flush("", 0, &[("a", 1, Some("1"))])
        .expect(rt, "a step");
    let mut scheduler = Willing::new(alloc);
    scheduler.accepts = accepts;
    for run in runs {
        scheduler
            .specs
            .push(spec(alloc, "", &[1], *run).expect(rt, "a step"))
            .expect(rt, "a step");
    }
    let report = site
        .handle(&scheduler, true, 0, message)
        .expect(rt, "a step");
    (report, versions(&site.store))
}

// Whether job 1 alone failed, by this rule.
fn is_one(refused: &RuleList, rule: u8) -> bool {
    refused.len() == 1 && refused.get(0) == Some(&(job(1), rule))
}

#[test]
fn a_scheduler_proposes_at_will(rt: HostRuntime) {
    let alloc = rt.alloc();
    let message = CompactorMessage::PollManifest;
    // The second one is dropped, since the first one takes its source.
    let moves = [Some(0), Some(0)];
    let (report, versions) = polled(&rt, alloc, true, &moves, message);
    assert!(rt; report.dropped.len() == 1 && report.dropped.get(0) == Some(&(2, 9)));
    assert!(rt; are(&report.added, &[1]) && are(&report.moved, &[1]));
    assert!(rt; report.refused.is_empty() && report.opened.is_empty());
    // The flush and the start leave version 3 of the manifest, and the start version 1 of the records.
    assert!(rt; versions == (4, 2));
    let (report, versions) = polled(&rt, alloc, false, &moves, message);
    assert!(rt; is_one(&report.refused, 0) && versions == (3, 2));
    // A drain of the root breaks the rule 2, so the scheduler is not asked.
    let (report, versions) = polled(&rt, alloc, false, &[None], message);
    assert!(rt; is_one(&report.refused, 2) && versions == (3, 2));
    let idle = (PollReport::new(alloc), (3, 1));
    for message in [
        CompactorMessage::CommitCompacted,
        CompactorMessage::LogStats,
    ] {
        assert!(rt; polled(&rt, alloc, true, &moves, message) == idle);
    }
}

// A commit of an ended job that the scheduler refuses.
fn refused_at_commit<R: Threads + Abort + Sync>(rt: &R, alloc: Global) -> bool {
    let mut site = overlapping(alloc).expect(rt, "a step");
    site.hire(1, Release::Two);
    site.work(rt, 1, 1, Task::Claim).expect(rt, "a step");
    site.work(rt, 1, 1, Task::Finish).expect(rt, "a step");
    let mut scheduler = Willing::new(alloc);
    scheduler.accepts = false;
    let report = site
        .handle(&scheduler, true, 1, CompactorMessage::CommitCompacted)
        .expect(rt, "a step");
    let lost = is_one(&report.lost, 0) && report.committed.is_empty();
    lost && site.status(1) == Some(CompactionStatus::Failed)
}

// What a request gives over a site with a job: one job more, or none if it is declined.
fn requested(rt: &impl Abort, alloc: Global, accepts: bool) -> bool {
    let mut site = overlapping(alloc).expect(rt, "a step");
    let (manifest, records) = versions(&site.store);
    let mut scheduler = Willing::new(alloc);
    scheduler.accepts = accepts;
    match site.submit(Some(&scheduler), "", &[1], Some(7)) {
        Ok(jobs) => {
            are(&jobs, &[2]) && versions(&site.store) == (manifest, records.saturating_add(1))
        }
        Err(SlateDBError::Generate { .. }) => {
            !accepts && versions(&site.store) == (manifest, records)
        }
        Err(_) => false,
    }
}

#[test]
fn a_scheduler_refuses_at_will(rt: HostRuntime) {
    assert!(rt; refused_at_commit(&rt, rt.alloc()));
    for accepts in [false, true] {
        assert!(rt; requested(&rt, rt.alloc(), accepts), "{accepts}");
    }
}
