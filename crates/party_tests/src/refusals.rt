// Steps over a store that another party calls too, which refuses each put.
ghost use Rattle.std.specs.Prelude.{◌≡◌, false, IfOk};
ghost use Rattle.std.specs.Bool.{OnFalse};
ghost use Rattle.row_model.specs.Append.{append};
ghost use Rattle.step_model.specs.Kept.Keeps.{Keeps};
ghost use Rattle.fleet_history.specs.Parties.{party_of};
ghost use Rattle.fleet_rival.specs.Rival.{view_of};
ghost use Rattle.party_tests.specs.Callers.{IsStaffed};
ghost use Rattle.party_tests.specs.Starts.{MayLead};

use crate::schedulers::Willing;
use crate::sites::{Site, ask, last_name, options, small, spec, versions};
use crate::work::{Task, job, work};
use fleet_book::CompactionRequest;
use fleet_coordinator::{CompactorMessage, Coordinator, flush, submit, submit_request};
use fleet_fold::AppendOperator;
use fleet_history::Party;
use fleet_jobs::Release;
use fleet_poll::PollReport;
use fleet_rival::Rival;
use fleet_rows::SlateDBError;
use fleet_store::MemStore;
use fleet_worker::Worker;
use std::alloc::Global;
use std::test::*;
use std::thread::Threads;

// The version that the last of 64 refused puts met, and the versions of both objects then.
type Refused = (Option<u64>, (u64, u64));

fn seen<T: Drop>(made: Result<T, SlateDBError>) -> Option<u64> {
    match made {
        Err(SlateDBError::Conflict { seen }) => Some(seen),
        _ => None,
    }
}

// The store, where the party calls it beside another one.
fn beside(store: &mut MemStore, alloc: Global, party: Party) -> Rival<'_>
    requires { Keeps append store.old.world }
    ensures party { (view_of result).who.party ≡ party_of party }
    ensures folds { (view_of result).who.merge ≡ append }
    ensures world { (view_of result).world ≡ store.old.world }
    ensures keeps { Keeps (view_of result).who.merge (view_of result).world }
{
    Rival::new(store.under(&AppendOperator), alloc, 1, party)
}

// The store and the worker of the site.
fn parts(site: Site<AppendOperator>) -> (MemStore, Worker)
    ensures { IsStaffed append result.0.world result.1 }
{
    let Site { store, worker, .. } = site;
    (store, worker)
}

// A site with the flush 1 of the root.
fn flushed(alloc: Global) -> Result<Site<AppendOperator>, SlateDBError> {
    let mut site = Site::new(alloc, AppendOperator)?;
    site.flush("", 0, &[("a", 1, None)])?;
    Ok(site)
}

fn start_refused(alloc: Global) -> Result<Refused, SlateDBError> {
    let (mut store, _worker) = parts(flushed(alloc)?);
    let mut rival = beside(&mut store, alloc, Party::Coordinator(1));
    let made = Coordinator::start(alloc, &mut rival);
    Ok((seen(made), versions(&store)))
}

// The coordinator 1 starts.
fn lead(alloc: Global, store: &mut MemStore) -> Result<Coordinator, SlateDBError>
    requires { Keeps append store.old.world }
    ensures running { IfOk result (λ coordinator. coordinator.stopped ≡ false) }
    ensures leads { IfOk result (MayLead store.new.world) }
{
    store.set_actor(1, Party::Coordinator(1));
    let mut under = store.under(&AppendOperator);
    Coordinator::start(alloc, &mut under)
}

// The coordinator 1 polls, beside another party.
fn poll_beside(
    alloc: Global,
    store: &mut MemStore,
    coordinator: &mut Coordinator,
    scheduler: &Willing,
) -> Result<PollReport, SlateDBError>
    requires running { coordinator.old.stopped ≡ false }
    requires leads { MayLead store.old.world coordinator.old }
    ensures { OnFalse coordinator.new.stopped (MayLead store.new.world coordinator.new) }
{
    let under = store.under(&AppendOperator);
    let mut rival = Rival::new(under, alloc, 1, Party::Coordinator(1));
    let message = CompactorMessage::PollManifest;
    coordinator.handle(&mut rival, scheduler, &options(true), 1, message)
}

// The coordinator 1 polls alone.
fn poll_alone(
    store: &mut MemStore,
    coordinator: &mut Coordinator,
    scheduler: &Willing,
) -> Result<PollReport, SlateDBError>
    requires running { coordinator.old.stopped ≡ false }
    requires leads { MayLead store.old.world coordinator.old }
{
    store.set_actor(1, Party::Coordinator(1));
    let mut under = store.under(&AppendOperator);
    let message = CompactorMessage::PollManifest;
    coordinator.handle(&mut under, scheduler, &options(true), 1, message)
}

// A poll that moves the flush 1, or refuses to drain it, and whether the same coordinator does so at
// its next poll.
fn poll_refused(alloc: Global, run: Option<u32>) -> Result<(Refused, bool), SlateDBError> {
    let (mut store, _worker) = parts(flushed(alloc)?);
    let mut scheduler = Willing::new(alloc);
    scheduler.specs.push(spec(alloc, "", &[1], run)?)?;
    let mut coordinator = lead(alloc, &mut store)?;
    let made = poll_beside(alloc, &mut store, &mut coordinator, &scheduler);
    let refused = (seen(made), versions(&store));
    if coordinator.stopped() {
        return Ok((refused, false));
    }
    let report = poll_alone(&mut store, &mut coordinator, &scheduler)?;
    let count = if run.is_some() {
        report.moved.len()
    } else {
        report.refused.len()
    };
    Ok((refused, count == 1))
}

// A submission, or a request for the same job.
fn submit_refused(alloc: Global, is_request: bool) -> Result<Refused, SlateDBError> {
    let mut site = flushed(alloc)?;
    site.poll(false, 0)?;
    let (mut store, _worker) = parts(site);
    let spec = spec(alloc, "", &[1], Some(0))?;
    let mut rival = beside(&mut store, alloc, Party::Submitter);
    let made = if is_request {
        let request = CompactionRequest::Spec(spec);
        submit_request(alloc, &mut rival, 1, &Willing::new(alloc), &request)
    } else {
        submit(alloc, &mut rival, 1, vec![in alloc; spec]?)
    };
    Ok((seen(made), versions(&store)))
}

// The first flush into a store.
fn flush_refused(alloc: Global) -> Result<Refused, SlateDBError> {
    let (mut store, _worker) = parts(Site::new(alloc, AppendOperator)?);
    let last = last_name(store.history())?;
    let ask = ask(alloc, last.saturating_add(1), "", 0, &[("a", 1, None)])?;
    let mut rival = beside(&mut store, alloc, Party::Writer);
    let made = flush(alloc, &mut rival, 0, 0, last, ask);
    Ok((seen(made), versions(&store)))
}

#[test]
fn coordinators_give_up_after_64_refused_puts(rt: HostRuntime) {
    let alloc = rt.alloc();
    // The flush leaves version 2 of the manifest, and the start version 3 and version 1 of the records.
    let started = start_refused(alloc).expect(&rt, "a step");
    assert!(rt; started == (Some(66), (66, 0)));
    for (run, wanted) in [(None, (Some(65), (3, 65))), (Some(0), (Some(67), (67, 1)))] {
        let polled = poll_refused(alloc, run).expect(&rt, "a step");
        assert!(rt; polled == (wanted, true), "{}", run.is_some());
    }
    for is_request in [false, true] {
        let submitted = submit_refused(alloc, is_request).expect(&rt, "a step");
        assert!(rt; submitted == (Some(65), (3, 65)), "{is_request}");
    }
    let flushed = flush_refused(alloc).expect(&rt, "a step");
    assert!(rt; flushed == (Some(65), (65, 0)));
}

// A step of a worker, and whether the worker still runs the job.
fn work_refused<R: Threads + Sync>(
    rt: &R,
    alloc: Global,
    step: Task,
) -> Result<(Option<u64>, bool), SlateDBError> {
    let mut site = small(alloc)?;
    site.hire(1, Release::Two);
    if step != Task::Claim {
        site.work(rt, 1, 1, Task::Claim)?;
    }
    let (mut store, mut worker) = parts(site);
    let mut rival = beside(&mut store, alloc, Party::Worker(worker.id()));
    let made = work(rt, &mut rival, &AppendOperator, &mut worker, 1, 1, step);
    let runs = !worker.stopped() && worker.attempt(job(1)).is_some();
    Ok((seen(made), runs))
}

#[test]
fn workers_give_up_after_64_refused_puts(rt: HostRuntime) {
    // The start, the submission, the next start and the poll leave version 4 of the records.
    for (step, version, runs) in [
        (Task::Claim, 68, false),
        (Task::Beat, 69, true),
        (Task::Finish, 69, true),
        (Task::Release, 69, true),
    ] {
        let refused = work_refused(&rt, rt.alloc(), step).expect(&rt, "a step");
        assert!(rt; refused == (Some(version), runs), "{version}");
    }
}
