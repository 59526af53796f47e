// Puts into a store that another party calls too.
ghost use Rattle.std.specs.Prelude.{◌≡◌};
ghost use Rattle.fleet_model.specs.History as model;

use crate::stores::{passes, start};
use fleet_fold::AppendOperator;
use fleet_history::{ManifestChange, Party, RecordChange, StepList};
use fleet_jobs::SpecList;
use fleet_rival::Rival;
use fleet_rows::SlateDBError;
use fleet_store::{MemStore, Store};
use std::alloc::Global;
use std::test::*;

// Whether a put was refused since this version is stored.
fn is_conflict(put: Result<u64, SlateDBError>, stored: u64) -> bool {
    match put {
        Err(SlateDBError::Conflict { seen }) => seen == stored,
        _ => false,
    }
}

// Whether this version of the manifest is got, and a put in its place, unchanged, is refused.
fn refuses_manifest<S: Store>(
    store: &mut S,
    alloc: Global,
    version: u64,
    stored: u64,
) -> Result<bool, SlateDBError> {
    let got = store.get_manifest()?;
    let id = got.id;
    let why = ManifestChange::Commit(StepList::new(alloc));
    let put = store.put_manifest(id, got.manifest, why, None);
    let refused = is_conflict(put, stored);
    Ok(refused && id == version)
}

// Whether a rival's store refuses each put of a manifest that was got.
fn rival_refuses_manifests(memory: &mut MemStore, alloc: Global) -> bool {
    let under = memory.under(&AppendOperator);
    let mut store = Rival::new(under, alloc, 1, Party::Coordinator(1));
    for (version, stored) in [(1, 2), (2, 3), (3, 4)] {
        let refused = refuses_manifest(&mut store, alloc, version, stored);
        if !refused.unwrap_or(false) {
            return false;
        }
    }
    true
}

#[test]
fn each_put_of_a_manifest_that_was_got_is_refused(rt: HostRuntime) {
    assert!(rt; passes(rt.alloc(), rival_refuses_manifests).expect(&rt, "memory"));
}

// Whether this version of the records is got, and a put in its place, unchanged, is refused. The put
// is a submit of no jobs.
fn refuses_records<S: Store>(
    store: &mut S,
    alloc: Global,
    version: u64,
    stored: u64,
) -> Result<bool, SlateDBError>
    requires { (S.view store.old).who.party ≡ model.Submitter }
{
    let Some(got) = store.get_records()? else {
        return Ok(false);
    };
    let id = got.id();
    let mut value = got.compactions().clone()?;
    value.retain_active_and_last_finished();
    let why = RecordChange::Submit(SpecList::new(alloc));
    let put = store.put_records(id, value, why);
    let refused = is_conflict(put, stored);
    Ok(refused && id == version)
}

// Whether a rival's store refuses a put of the first records that were got.
fn rival_refuses_records(memory: &mut MemStore, alloc: Global) -> bool {
    if start(memory, alloc).is_err() {
        return false;
    }
    let under = memory.under(&AppendOperator);
    let mut store = Rival::new(under, alloc, 1, Party::Submitter);
    refuses_records(&mut store, alloc, 1, 2).unwrap_or(false)
}

#[test]
fn a_put_of_records_that_were_got_is_refused(rt: HostRuntime) {
    assert!(rt; passes(rt.alloc(), rival_refuses_records).expect(&rt, "memory"));
}
