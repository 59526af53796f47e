// Draws from a store in memory, and puts into it.
ghost use Rattle.std.specs.Prelude.{◌≢◌, ◌<◌, ◌^◌};

use fleet_book::Compactions;
use fleet_fold::AppendOperator;
use fleet_history::{Answer, ManifestChange, Party, RecordChange, StepList};
use fleet_jobs::SpecList;
use fleet_rival::first_records;
use fleet_rows::{DRAWN_BASE, SlateDBError, Ulid};
use fleet_store::{MemStore, Store};
use std::alloc::Global;
use std::test::*;

/// Whether a test passes over a fresh store.
pub(crate) fn passes<F: FnOnce(&mut MemStore, Global) -> bool>(
    alloc: Global,
    test: F,
) -> Result<bool, SlateDBError>
    requires { F.IsAlwaysCallable test }
{
    let mut store = MemStore::new(alloc)?;
    Ok(test(&mut store, alloc))
}

// Whether a job and a table are drawn with the first numbers.
fn draws_first(store: &mut MemStore, _alloc: Global) -> bool {
    let mut under = store.under(&AppendOperator);
    let job = under.draw_job(5);
    let table = under.draw_table(5);
    is_drawn(job, 1) && is_drawn(table, DRAWN_BASE + 1)
}

// Whether this number was drawn at the moment 5.
fn is_drawn(id: Result<Ulid, SlateDBError>, number: u128) -> bool
    requires { number < 2 ^ 80 }
{
    match id {
        Ok(id) => id == Ulid::from_parts(5, number),
        Err(_) => false,
    }
}

#[test]
fn a_job_and_a_table_are_drawn(rt: HostRuntime) {
    assert!(rt; passes(rt.alloc(), draws_first).expect(&rt, "memory"));
}

/// Puts the stored manifest once more, unchanged, in the place of the one with this version.
pub(crate) fn put_manifest(
    store: &mut MemStore,
    alloc: Global,
    version: u64,
) -> Result<u64, SlateDBError> {
    let value = store.manifest().manifest.clone()?;
    let why = ManifestChange::Commit(StepList::new(alloc));
    let mut under = store.under(&AppendOperator);
    under.put_manifest(version, value, why, None)
}

/// Puts the first records, if there are none.
pub(crate) fn start(store: &mut MemStore, alloc: Global) -> Result<u64, SlateDBError> {
    match store.records() {
        Some(_) => Err(SlateDBError::InvalidDBState),
        None => first_records(store, alloc),
    }
}

/// Puts the stored records once more, unchanged, in the place of those with this version. The put
/// is a submit of no jobs.
pub(crate) fn put_records(
    store: &mut MemStore,
    alloc: Global,
    version: u64,
) -> Result<u64, SlateDBError> {
    let Some(records) = store.records() else {
        return Err(SlateDBError::InvalidDBState);
    };
    let mut value = records.compactions().clone()?;
    value.retain_active_and_last_finished();
    let why = RecordChange::Submit(SpecList::new(alloc));
    store.set_actor(0, Party::Submitter);
    let mut under = store.under(&AppendOperator);
    under.put_records(version, value, why)
}

// Puts records where there are none, over a version that is not stored.
fn put_over_none(store: &mut MemStore, alloc: Global, version: u64) -> Result<u64, SlateDBError>
    requires { version ≢ 0 }
{
    if store.records().is_some() {
        return Err(SlateDBError::InvalidDBState);
    }
    let value = Compactions::new(alloc, 0);
    let why = RecordChange::Submit(SpecList::new(alloc));
    let mut under = store.under(&AppendOperator);
    under.put_records(version, value, why)
}

/// Whether the last entry has this answer.
pub(crate) fn ends_with(store: &MemStore, answer: Answer) -> bool {
    match store.history().last() {
        Some(entry) => entry.answer == answer,
        None => false,
    }
}

// Whether a put gave this answer, and its entry has it.
fn is_answered(put: Result<u64, SlateDBError>, store: &MemStore, answer: Answer) -> bool {
    let given = match put {
        Ok(version) => Answer::Done(version),
        Err(SlateDBError::Conflict { seen }) => Answer::Conflict(seen),
        Err(_) => Answer::Absent,
    };
    given == answer && ends_with(store, answer)
}

// Whether puts of the manifest give these answers. One of them is over an old version.
fn puts_manifests(store: &mut MemStore, alloc: Global) -> bool {
    for (version, answer) in [
        (1, Answer::Done(2)),
        (2, Answer::Done(3)),
        (2, Answer::Conflict(3)),
        (3, Answer::Done(4)),
    ] {
        let put = put_manifest(store, alloc, version);
        if !is_answered(put, store, answer) {
            return false;
        }
    }
    store.manifest().id == 4
}

#[test]
fn an_old_version_of_the_manifest_is_refused(rt: HostRuntime) {
    assert!(rt; passes(rt.alloc(), puts_manifests).expect(&rt, "memory"));
}

// Whether puts of records give these answers. Two of them are over versions that are not stored.
fn puts_records(store: &mut MemStore, alloc: Global) -> bool {
    let put = put_over_none(store, alloc, 1);
    if !is_answered(put, store, Answer::Conflict(0)) {
        return false;
    }
    let put = start(store, alloc);
    is_answered(put, store, Answer::Done(1)) && puts_later_records(store, alloc)
}

fn puts_later_records(store: &mut MemStore, alloc: Global) -> bool {
    for (version, answer) in [(0, Answer::Conflict(1)), (1, Answer::Done(2))] {
        let put = put_records(store, alloc, version);
        if !is_answered(put, store, answer) {
            return false;
        }
    }
    true
}

#[test]
fn an_old_version_of_the_records_is_refused(rt: HostRuntime) {
    assert!(rt; passes(rt.alloc(), puts_records).expect(&rt, "memory"));
}
