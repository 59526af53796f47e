// Threads that call one store at once, each through a pass of its own.
ghost use Rattle.std.specs.Prelude.{◌≡◌};
ghost use Rattle.step_model.specs.Views.{SameCaller};
ghost use Rattle.fleet_lock.specs.Locks.{table_of};
ghost use Rattle.party_tests.specs.Callers.{IsHand, MayHire};
ghost use Rattle.party_tests.specs.Passes.{Leads, MayLend, Serves, folds_append};
ghost use Rattle.party_tests.specs.Starts.{MayStart};

use crate::besides::{free_jobs, start};
use crate::passes::{join_to, lead, led, serve, served, share};
use crate::sites::{Site, small};
use crate::work::{Task, beat, claim, hire, job, release, work};
use fleet_fold::AppendOperator;
use fleet_history::{ManifestChange, Party, StepList};
use fleet_jobs::{CompactionStatus, Release};
use fleet_lock::{Holds, Lock, Pass, callers_keep_passes};
use fleet_rows::SlateDBError;
use fleet_store::{MemStore, Store};
use fleet_worker::Worker;
use std::alloc::Global;
use std::sync::Wait;
use std::test::*;
use std::thread::{Threads, join};
use step_laws::fresh_keeps;

// How many rounds a worker and a coordinator make.
const ROUNDS: u64 = 30;

// How often a thread tries to put.
const TRIES: u32 = 1_000_000;

// Gets the manifest, and puts it once more, unchanged.
fn put_again<S: Store>(store: &mut S, alloc: Global) -> Result<u64, SlateDBError>
    ensures { SameCaller (S.view store.old) (S.view store.new) }
{
    let got = store.get_manifest()?;
    let id = got.id;
    let why = ManifestChange::Commit(StepList::new(alloc));
    store.put_manifest(id, got.manifest, why, None)
}

// Puts until so many puts have stood. The answer is the number of calls that a fault struck.
fn put_many<S: Store>(store: &mut S, alloc: Global, many: u32) -> u32
    ensures { SameCaller (S.view store.old) (S.view store.new) }
{
    let mut stood: u32 = 0;
    let mut struck: u32 = 0;
    'tries: for _try in 0..TRIES {
        if stood >= many {
            break 'tries;
        }
        match put_again(store, alloc) {
            Ok(_) => stood = stood.saturating_add(1),
            Err(SlateDBError::StoreFault) => struck = struck.saturating_add(1),
            Err(_) => {}
        }
    }
    struck
}

// Puts through a pass.
fn put_through<R: Wait, S: Holds>(
    rt: &R,
    shared: &Lock<S>,
    alloc: Global,
    mut pass: Pass,
    many: u32,
) -> (Pass, u32)
    requires { pass.table ≡ table_of shared.now }
    ensures { result.0.table ≡ pass.table }
{
    callers_keep_passes();
    let mut store = shared.at(rt, &mut pass);
    let struck = put_many(&mut store, alloc, many);
    (pass, struck)
}

// Puts through two passes at once, and joins them. The answer tells how many calls a fault struck.
fn two_put<R: Threads + Wait + Sync, S: Holds + Send>(
    rt: &R,
    shared: &Lock<S>,
    alloc: Global,
    one: Pass,
    two: Pass,
    many: u32,
) -> (Pass, u32)
    requires one { one.table ≡ table_of shared.now }
    requires two { two.table ≡ table_of shared.now }
    ensures { result.0.table ≡ table_of shared.now }
{
    let ((mut pass, struck), (other, more)) = join(
        rt,
        move || -> (Pass, u32)
            requires { one.table ≡ table_of shared.now }
            ensures { result.0.table ≡ one.table }
        { put_through(rt, shared, alloc, one, many) },
        move || -> (Pass, u32)
            requires { two.table ≡ table_of shared.now }
            ensures { result.0.table ≡ two.table }
        { put_through(rt, shared, alloc, two, many) },
    );
    join_to(shared, &mut pass, other);
    (pass, struck.saturating_add(more))
}

// Puts through four passes at once, and joins them.
fn four_put<R: Threads + Wait + Sync, S: Holds + Send>(
    rt: &R,
    shared: &Lock<S>,
    alloc: Global,
    one: (Pass, Pass),
    two: (Pass, Pass),
) -> (Pass, u32)
    requires one { one.0.table ≡ table_of shared.now }
    requires other_one { one.1.table ≡ table_of shared.now }
    requires two { two.0.table ≡ table_of shared.now }
    requires other_two { two.1.table ≡ table_of shared.now }
    ensures { result.0.table ≡ table_of shared.now }
{
    let (first, second) = one;
    let (third, fourth) = two;
    let ((mut pass, struck), (other, more)) = join(
        rt,
        move || -> (Pass, u32)
            requires one { first.table ≡ table_of shared.now }
            requires two { second.table ≡ table_of shared.now }
            ensures { result.0.table ≡ table_of shared.entry.now }
        { two_put(rt, shared, alloc, first, second, 25) },
        move || -> (Pass, u32)
            requires one { third.table ≡ table_of shared.now }
            requires two { fourth.table ≡ table_of shared.now }
            ensures { result.0.table ≡ table_of shared.entry.now }
        { two_put(rt, shared, alloc, third, fourth, 25) },
    );
    join_to(shared, &mut pass, other);
    (pass, struck.saturating_add(more))
}

#[test]
fn two_threads_put(rt: HostRuntime) {
    let alloc: Global = rt.alloc();
    fresh_keeps();
    let store = MemStore::new(alloc).expect(&rt, "memory");
    let Ok((shared, mut one)) = share(alloc, store, &AppendOperator, 2) else {
        return;
    };
    let two = serve(&shared, &mut one, 1);
    let (pass, struck) = two_put(&rt, &shared, alloc, one, two, 100);
    assert!(rt; pass.parts() == 2 && struck == 0);
    let store = shared.close(&rt, pass);
    assert!(rt; store.manifest().id == 201);
}

#[test]
fn a_fault_strikes_one_of_four_threads(rt: HostRuntime) {
    let alloc: Global = rt.alloc();
    fresh_keeps();
    for stands in [false, true] {
        let mut store = MemStore::new(alloc).expect(&rt, "memory");
        store.set_fault(7, stands);
        let Ok((shared, mut one)) = share(alloc, store, &AppendOperator, 4) else {
            return;
        };
        let two = lead(&shared, &mut one, 1);
        let three = serve(&shared, &mut one, 1);
        let last = lead(&shared, &mut one, 2);
        let (pass, struck) = four_put(&rt, &shared, alloc, (one, two), (three, last));
        assert!(rt; struck == 1 && pass.parts() == 4);
        let store = shared.close(&rt, pass);
        // A put that stands raises the version, though it meets the fault.
        let id = store.manifest().id;
        assert!(rt; id == 101 || (stands && id == 102), "{id}");
    }
}

#[test]
fn passes_are_joined_in_another_order(rt: HostRuntime) {
    let alloc: Global = rt.alloc();
    fresh_keeps();
    let store = MemStore::new(alloc).expect(&rt, "memory");
    let Ok((shared, mut pass)) = share(alloc, store, &AppendOperator, 11) else {
        return;
    };
    let mut one = lead(&shared, &mut pass, 1);
    let two = serve(&shared, &mut pass, 1);
    let three = lead(&shared, &mut pass, 2);
    let mut four = serve(&shared, &mut pass, 2);
    let five = lead(&shared, &mut pass, 3);
    let six = serve(&shared, &mut pass, 3);
    let seven = lead(&shared, &mut pass, 4);
    let eight = serve(&shared, &mut pass, 4);
    let mut nine = lead(&shared, &mut pass, 5);
    let ten = serve(&shared, &mut pass, 5);
    join_to(&shared, &mut nine, two);
    join_to(&shared, &mut nine, ten);
    join_to(&shared, &mut four, nine);
    join_to(&shared, &mut four, seven);
    join_to(&shared, &mut one, six);
    join_to(&shared, &mut one, three);
    join_to(&shared, &mut one, four);
    join_to(&shared, &mut pass, eight);
    join_to(&shared, &mut pass, one);
    join_to(&shared, &mut pass, five);
    assert!(rt; pass.parts() == 11);
    let store = shared.close(&rt, pass);
    assert!(rt; store.manifest().id == 1);
}

// The worker claims the job, sends heartbeats, and then gives the job back.
fn works<S: Store>(store: &mut S, worker: &mut Worker) -> Result<bool, SlateDBError>
    requires { IsHand (S.view store.old) worker.old }
{
    let mut done = claim(store, worker, 1, 1)?;
    'beats: for moment in 2..ROUNDS {
        done = beat(store, worker, moment)? && done;
    }
    Ok(done && release(store, worker)?)
}

// A coordinator starts again and again. Whether its epochs rise, and the last one.
fn starts<S: Store>(alloc: Global, store: &mut S) -> Result<(bool, u64), SlateDBError>
    requires { MayStart (S.view store.old) }
{
    let mut rise = true;
    let mut last = 0;
    'starts: for _round in 2..ROUNDS {
        let epoch = start(alloc, store)?.epoch();
        rise = rise && last < epoch;
        last = epoch;
    }
    Ok((rise, last))
}

// What the worker 1 does through its pass.
fn works_through<R: Wait, S: Holds>(
    rt: &R,
    alloc: Global,
    shared: &Lock<S>,
    mut pass: Pass,
) -> Result<bool, SlateDBError>
    requires folds { S.folds ≡ folds_append }
    requires own { pass.table ≡ table_of shared.now }
    requires serves { Serves 1 pass }
{
    let mut store = shared.at(rt, &mut pass);
    let mut worker = hire(alloc, &store, 1, Release::Two);
    works(&mut store, &mut worker)
}

// What a coordinator does through its pass.
fn starts_through<R: Wait, S: Holds>(
    rt: &R,
    alloc: Global,
    shared: &Lock<S>,
    mut pass: Pass,
) -> Result<(bool, u64), SlateDBError>
    requires folds { S.folds ≡ folds_append }
    requires own { pass.table ≡ table_of shared.now }
    requires leads { Leads pass }
{
    let mut store = shared.at(rt, &mut pass);
    starts(alloc, &mut store)
}

// What a worker and a coordinator do at once.
fn at_once<R: Threads + Wait + Sync, S: Holds + Send>(
    rt: &R,
    alloc: Global,
    shared: &Lock<S>,
    first: &mut Pass,
) -> Result<(bool, (bool, u64)), SlateDBError>
    requires folds { S.folds ≡ folds_append }
    requires own { first.old.table ≡ table_of shared.now }
    requires parts { first.old.sight.parts ≡ 3 }
    requires lends { MayLend 5 first.old }
    ensures { first.new.table ≡ table_of shared.now }
{
    let one = lead(shared, first, 1);
    let two = serve(shared, first, 1);
    let (worked, started) = join(
        rt,
        move || -> Result<bool, SlateDBError>
            requires folds { S.folds ≡ folds_append }
            requires own { two.table ≡ table_of shared.now }
            requires serves { Serves 1 two }
        { works_through(rt, alloc, shared, two) },
        move || -> Result<(bool, u64), SlateDBError>
            requires folds { S.folds ≡ folds_append }
            requires own { one.table ≡ table_of shared.now }
            requires leads { Leads one }
        { starts_through(rt, alloc, shared, one) },
    );
    Ok((worked?, started?))
}

#[test]
fn a_worker_and_a_coordinator_call_at_once(rt: HostRuntime) {
    let alloc: Global = rt.alloc();
    let Site { store, .. } = small(alloc).expect(&rt, "a job");
    let Ok((shared, mut first)) = share(alloc, store, &AppendOperator, 3) else {
        return;
    };
    let done = at_once(&rt, alloc, &shared, &mut first).expect(&rt, "both");
    let store = shared.close(&rt, first);
    let (worked, (rise, epoch)) = done;
    assert!(rt; worked && rise && store.manifest().compactor_epoch() == epoch);
    let records = store.records().expect(&rt, "records");
    let status = records.compactions().get(&job(1)).map(|job| job.status());
    assert!(rt; status == Some(CompactionStatus::Scheduled));
}

// The worker 1 claims job 1 and ends it.
fn ends<R: Threads + Sync, S: Store>(
    rt: &R,
    alloc: Global,
    store: &mut S,
) -> Result<bool, SlateDBError>
    requires { MayHire (S.view store.old) 1 }
{
    let mut worker = hire(alloc, store, 1, Release::Two);
    let claimed = claim(store, &mut worker, 1, 1)?;
    let ended = work(rt, store, &AppendOperator, &mut worker, 1, 1, Task::Finish)?;
    Ok(claimed && ended)
}

#[test]
fn passes_tell_claims_and_commits(rt: HostRuntime) {
    let alloc: Global = rt.alloc();
    let Site { store, .. } = small(alloc).expect(&rt, "a job");
    let Ok((shared, mut first)) = share(alloc, store, &AppendOperator, 3) else {
        return;
    };
    let mut one = lead(&shared, &mut first, 1);
    let mut two = serve(&shared, &mut first, 1);
    let ended = ends(&rt, alloc, &mut served(&shared, &rt, &mut two, 1)).expect(&rt, "a step");
    assert!(rt; ended && two.claims() == 1 && two.commits() == 0);
    free_jobs(alloc, &mut led(&shared, &rt, &mut one)).expect(&rt, "a step");
    assert!(rt; one.claims() == 0 && one.commits() == 1);
}
