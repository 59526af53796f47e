// Parties that step in between the calls of a coordinator or a worker, through passes of one store.
ghost use Rattle.std.specs.Prelude.{◌≡◌, IfOk};
ghost use Rattle.fleet_lock.specs.Locks.{table_of};
ghost use Rattle.step_model.specs.Views.{SameCaller};
ghost use Rattle.party_tests.specs.Callers.{IsHand, MayHire};
ghost use Rattle.party_tests.specs.Passes.{MayLend};
ghost use Rattle.party_tests.specs.Starts.{MayStart};

use crate::besides::{Act, Beside, Others, When, start};
use crate::passes::{Shared, lead, led, serve, served, share};
use crate::schedulers::Willing;
use crate::sites::{Site, options, small, spec, versions};
use crate::work::{Task, are, claim, hire, job, work};
use fleet_coordinator::CompactorMessage;
use fleet_fold::AppendOperator;
use fleet_jobs::{CompactionStatus, Release};
use fleet_lock::Pass;
use fleet_rows::SlateDBError;
use fleet_store::{MemStore, Store};
use fleet_worker::Worker;
use std::alloc::Global;
use std::process::Abort;
use std::sync::Wait;
use std::test::*;
use std::thread::Threads;

// How a step ended: a coordinator with its epoch, with the epoch that fenced it, or with the version
// that the last of 64 refused puts met; or a step that was done or not.
#[derive(Clone, Copy, Debug, PartialEq, Eq)]
enum End {
    Epoch(u64),
    Fenced(u64),
    Conflict(u64),
    Did(bool),
}

fn end_of(done: Result<End, SlateDBError>) -> Result<End, SlateDBError> {
    match done {
        Err(SlateDBError::Fenced { stored }) => Ok(End::Fenced(stored)),
        Err(SlateDBError::Conflict { seen }) => Ok(End::Conflict(seen)),
        done => done,
    }
}

// A step of the coordinator 1 or of the worker 1.
#[derive(Clone, Copy, PartialEq, Eq)]
enum Step {
    Start,
    Poll,
    Work(Task),
}

// A start.
fn starts_beside<S: Store + Drop>(
    alloc: Global,
    store: S,
    others: Others<S>,
) -> Result<End, SlateDBError>
    requires { MayStart (S.view store) }
{
    let mut store = Beside { store, others };
    Ok(End::Epoch(start(alloc, &mut store)?.epoch()))
}

// A poll that moves the flush 3. Its coordinator started before others come.
fn polls_beside<S: Store + Drop>(
    alloc: Global,
    mut store: S,
    others: Others<S>,
) -> Result<End, SlateDBError>
    requires { MayStart (S.view store) }
{
    let mut coordinator = start(alloc, &mut store)?;
    let mut store = Beside { store, others };
    let mut scheduler = Willing::new(alloc);
    scheduler.specs.push(spec(alloc, "b", &[3], Some(1))?)?;
    let message = CompactorMessage::PollManifest;
    let report = coordinator.handle(&mut store, &scheduler, &options(true), 0, message)?;
    Ok(End::Did(are(&report.moved, &[2])))
}

// The worker 1. It has claimed job 1, unless it is to do so.
fn hired<S: Store>(alloc: Global, store: &mut S, step: Task) -> Result<Worker, SlateDBError>
    requires { MayHire (S.view store.old) 1 }
    ensures same { SameCaller (S.view store.old) (S.view store.new) }
    ensures hand { IfOk result (IsHand (S.view store.new)) }
{
    let mut worker = hire(alloc, store, 1, Release::One);
    if step == Task::Claim {
        return Ok(worker);
    }
    claim(store, &mut worker, 1, 1)?;
    Ok(worker)
}

// A step of the worker 1 at job 1, which it claimed before others come.
fn works_beside<R: Threads + Sync, S: Store + Drop>(
    rt: &R,
    alloc: Global,
    mut store: S,
    others: Others<S>,
    step: Task,
) -> Result<End, SlateDBError>
    requires { MayHire (S.view store) 1 }
{
    let mut worker = hired(alloc, &mut store, step)?;
    let mut store = Beside { store, others };
    Ok(End::Did(work(rt, &mut store, &AppendOperator, &mut worker, 1, 1, step)?))
}

// Makes the step, where others step in through passes of their own.
fn made<R: Threads + Wait + Sync>(
    rt: &R,
    alloc: Global,
    shared: &Shared<'_>,
    first: &mut Pass,
    step: Step,
    act: Act,
    when: When,
) -> Result<End, SlateDBError>
    requires own { first.old.table ≡ table_of shared.now }
    requires parts { first.old.sight.parts ≡ 5 }
    requires lends { MayLend 5 first.old }
    ensures { first.new.table ≡ table_of shared.now }
{
    let mut one = lead(shared, first, 1);
    let mut four = serve(shared, first, 1);
    let mut coordinator = lead(shared, first, 2);
    let mut second = serve(shared, first, 2);
    let coordinator = led(shared, rt, &mut coordinator);
    let others = Others::new(
        alloc,
        coordinator,
        served(shared, rt, &mut second, 2),
        act,
        when,
    );
    match step {
        Step::Start => starts_beside(alloc, led(shared, rt, &mut one), others),
        Step::Poll => polls_beside(alloc, led(shared, rt, &mut one), others),
        Step::Work(work) => works_beside(rt, alloc, served(shared, rt, &mut four, 1), others, work),
    }
}

// The end of the step over a store with a job that waits and the flush 3, and the store then.
fn ended<R: Threads + Wait + Abort + Sync>(
    rt: &R,
    alloc: Global,
    step: Step,
    act: Act,
    when: When,
) -> (End, MemStore) {
    let mut site = small(alloc).expect(rt, "a step");
    let flushed = site.flush("b", 0, &[("b", 3, None)]);
    flushed.expect(rt, "a step");
    let Site { store, .. } = site;
    let (shared, mut first) = share(alloc, store, &AppendOperator, 5).expect(rt, "a step");
    let end = end_of(made(rt, alloc, &shared, &mut first, step, act, when));
    let end = end.expect(rt, "a step");
    (end, shared.close(rt, first))
}

#[test]
fn another_coordinator_starts_at_each_call(rt: HostRuntime) {
    // The site has version 6 of the manifest and 4 of the records, and epoch 2. A start adds one to
    // each. At the last call of a poll the move is in the manifest, and not in the records.
    for (step, call, end, wanted) in [
        (Step::Start, 1, End::Epoch(4), (8, 6)),
        (Step::Start, 2, End::Epoch(4), (8, 6)),
        (Step::Start, 3, End::Epoch(4), (8, 6)),
        (Step::Start, 4, End::Epoch(5), (9, 6)),
        (Step::Start, 5, End::Fenced(4), (8, 6)),
        (Step::Start, 6, End::Fenced(4), (8, 6)),
        (Step::Start, 7, End::Epoch(3), (7, 5)),
        (Step::Poll, 1, End::Fenced(4), (8, 6)),
        (Step::Poll, 2, End::Fenced(4), (8, 6)),
        (Step::Poll, 3, End::Fenced(4), (8, 6)),
        (Step::Poll, 4, End::Fenced(4), (9, 6)),
        (Step::Poll, 5, End::Did(true), (8, 6)),
    ] {
        let (found, store) = ended(&rt, rt.alloc(), step, Act::Start, When::Call(call));
        assert!(rt; found == end && versions(&store) == wanted, "{call}");
    }
}

#[test]
fn the_records_change_before_each_put_of_them(rt: HostRuntime) {
    // Each try of a start puts the manifest. A poll puts it once.
    for (step, wanted) in [(Step::Start, (70, 69)), (Step::Poll, (8, 70))] {
        let (found, store) = ended(&rt, rt.alloc(), step, Act::Beat, When::PutsOfRecords);
        assert!(rt;
            found == End::Conflict(wanted.1) && versions(&store) == wanted,
            "a step"
        );
    }
}

#[test]
fn an_older_attempt_does_not_own_the_job(rt: HostRuntime) {
    // Others take the job before each of the first calls. After its put a claim goes on, and finds
    // out later.
    for (step, calls, status, claimed) in [
        (Task::Claim, 2u32, CompactionStatus::Running, 1),
        (Task::Beat, 2, CompactionStatus::Running, 2),
        (Task::Finish, 6, CompactionStatus::Compacted, 2),
        (Task::Release, 2, CompactionStatus::Scheduled, 2),
    ] {
        let last = if step == Task::Claim {
            4
        } else {
            calls.saturating_add(1)
        };
        for call in 1..=last {
            let (found, store) = ended(
                &rt,
                rt.alloc(),
                Step::Work(step),
                Act::TakeJob,
                When::Call(call),
            );
            let wanted = if call == last {
                (status, 1)
            } else {
                (
                    CompactionStatus::Running,
                    if call > calls { 2 } else { claimed },
                )
            };
            let records = store.records().expect(&rt, "records").compactions();
            let job = records.get(&job(1)).expect(&rt, "a job");
            assert!(rt; found == End::Did(call > calls), "{call}");
            assert!(rt; (job.status(), job.attempt()) == wanted, "{call}");
        }
    }
}
