// Which calls of a store in memory a fault strikes, and what they leave.
ghost use Rattle.std.specs.Prelude.{◌≡◌, None, List, OnOk};
ghost use Rattle.row_model.specs.Rows.{Row};
ghost use Rattle.fleet_model.specs.Exchanges.{Plain, PutsTable};
ghost use Rattle.fleet_model.specs.History as model;
ghost use Rattle.step_model.specs.LawfulTables.{DeletionFits};
ghost use Rattle.step_model.specs.Past.{fresh_world};
ghost use Rattle.step_model.specs.Rivals.{after_call};

use crate::stores::{ends_with, passes, put_manifest, put_records, start};
use bytes::Bytes;
use fleet_fold::AppendOperator;
use fleet_history::{Answer, Note, Party};
use fleet_rows::{RowEntry, SlateDBError, Ulid, ValueDeletable};
use fleet_store::{MemStore, Store, SweepStore};
use fleet_table::{TableData, are_in_bounds, are_strictly_ordered};
use std::alloc::Global;
use std::process::Abort;
use std::test::*;

// What a struck call leaves: its answer in the history, given whether puts stand.
static FAULTS: [(bool, Answer); 2] = [(false, Answer::Lost), (true, Answer::Stands)];

#[derive(Clone, Copy)]
enum Get {
    Manifest,
    Records,
    Table,
    Ids,
}

// A call that a fault is to strike.
#[derive(Clone, Copy)]
enum Call {
    Get(Get),
    PutManifest,
    PutOldManifest,
    PutRecords,
    PutTable,
    DeleteTable,
}

// Whether the fault strikes the call over a fresh store, and leaves what it has to leave.
fn strikes(alloc: Global, call: Call, stands: bool, answer: Answer) -> Result<bool, SlateDBError> {
    let mut store = MemStore::new(alloc)?;
    Ok(is_struck_over(&mut store, alloc, call, stands, answer))
}

fn is_struck_over(
    store: &mut MemStore,
    alloc: Global,
    call: Call,
    stands: bool,
    answer: Answer,
) -> bool
    requires { store.old.world ≡ fresh_world }
{
    match call {
        Call::Get(call) => strikes_get(store, alloc, call, stands, answer),
        Call::PutManifest => strikes_manifest(store, alloc, stands, answer),
        Call::PutOldManifest => strikes_old_manifest(store, alloc, stands),
        Call::PutRecords => strikes_records(store, alloc, stands, answer),
        Call::PutTable => strikes_table(store, alloc, stands, answer),
        Call::DeleteTable => strikes_deletion(store, alloc, stands, answer),
    }
}

// Tries the call with either fault.
fn try_faults(rt: &impl Abort, alloc: Global, call: Call) {
    for (stands, answer) in FAULTS {
        let struck = strikes(alloc, call, stands, answer).expect(rt, "memory");
        assert!(rt; struck, "{stands}");
    }
}

// Whether the call met a fault, and its entry has this answer.
fn is_struck<T: Drop>(called: Result<T, SlateDBError>, store: &MemStore, answer: Answer) -> bool {
    matches!(called, Err(SlateDBError::StoreFault)) && ends_with(store, answer)
}

// The end of a call, without its answer.
fn end_of<T: Drop>(called: Result<T, SlateDBError>) -> Result<(), SlateDBError> {
    match called {
        Ok(_) => Ok(()),
        Err(error) => Err(error),
    }
}

fn make_get(store: &mut MemStore, alloc: Global, call: Get) -> Result<(), SlateDBError> {
    let mut under = store.under(&AppendOperator);
    match call {
        Get::Manifest => end_of(under.get_manifest()),
        Get::Records => end_of(under.get_records()),
        Get::Table => end_of(under.get_table(id())),
        Get::Ids => end_of(under.list_tables(alloc)),
    }
}

// Whether the get is struck, and the next one is not.
fn strikes_get(
    store: &mut MemStore,
    alloc: Global,
    call: Get,
    stands: bool,
    answer: Answer,
) -> bool {
    store.set_fault(1, stands);
    let got = make_get(store, alloc, call);
    is_struck(got, store, answer) && make_get(store, alloc, call).is_ok()
}

#[test]
fn a_get_is_struck(rt: HostRuntime) {
    for call in [Get::Manifest, Get::Records, Get::Table, Get::Ids] {
        try_faults(&rt, rt.alloc(), Call::Get(call));
    }
}

// Whether a put of the manifest is struck, and raises its version only if it stands.
fn strikes_manifest(store: &mut MemStore, alloc: Global, stands: bool, answer: Answer) -> bool {
    let id = if stands { 2 } else { 1 };
    store.set_fault(1, stands);
    let put = put_manifest(store, alloc, 1);
    is_struck(put, store, answer) && store.manifest().id == id
}

#[test]
fn a_put_of_the_manifest_is_struck(rt: HostRuntime) {
    try_faults(&rt, rt.alloc(), Call::PutManifest);
}

// Whether a put over an old version of the manifest is struck and lost.
fn strikes_old_manifest(store: &mut MemStore, alloc: Global, stands: bool) -> bool {
    store.set_fault(1, stands);
    let put = put_manifest(store, alloc, 0);
    is_struck(put, store, Answer::Lost) && store.manifest().id == 1
}

#[test]
fn a_struck_put_of_an_old_version_is_lost(rt: HostRuntime) {
    try_faults(&rt, rt.alloc(), Call::PutOldManifest);
}

// Whether a put of the first records is struck and leaves records only if it stands. The put of the
// manifest that comes before it is not struck.
fn strikes_records(store: &mut MemStore, alloc: Global, stands: bool, answer: Answer) -> bool {
    store.set_fault(2, stands);
    let put = start(store, alloc);
    let raised = store.manifest().id == 2;
    is_struck(put, store, answer) && raised && store.records().is_some() == stands
}

#[test]
fn a_put_of_the_records_is_struck(rt: HostRuntime) {
    try_faults(&rt, rt.alloc(), Call::PutRecords);
}

// Whether a fault that replaces another one strikes the put that it waits for, and no other.
fn strikes_second_put(store: &mut MemStore, alloc: Global) -> bool {
    if start(store, alloc).is_err() {
        return false;
    }
    store.set_fault(1, false);
    store.set_fault(2, true);
    let first = put_records(store, alloc, 1);
    let second = put_records(store, alloc, 2);
    first.is_ok() && is_struck(second, store, Answer::Stands)
}

#[test]
fn the_last_fault_counts(rt: HostRuntime) {
    assert!(rt; passes(rt.alloc(), strikes_second_put).expect(&rt, "memory"));
}

// Notes that the writer comes.
fn note_writer(store: &mut MemStore) -> Result<(), SlateDBError>
    ensures { OnOk result (store.new.world
        ≡ after_call 0 model.Writer (Plain (model.Start model.Writer)) None store.old.world) }
{
    store.set_actor(0, Party::Writer);
    let mut under = store.under(&AppendOperator);
    under.note(Note::Start(Party::Writer))
}

fn draw(store: &mut MemStore) -> Result<(), SlateDBError> {
    let mut under = store.under(&AppendOperator);
    under.draw_job(5)?;
    under.draw_table(5)?;
    Ok(())
}

// Whether a fault spares draws and notes, and strikes the get after them.
fn strikes_get_alone(store: &mut MemStore, alloc: Global) -> bool {
    store.set_fault(1, false);
    if draw(store).is_err() || note_writer(store).is_err() {
        return false;
    }
    let got = make_get(store, alloc, Get::Records);
    is_struck(got, store, Answer::Lost)
}

#[test]
fn draws_and_notes_are_not_struck(rt: HostRuntime) {
    assert!(rt; passes(rt.alloc(), strikes_get_alone).expect(&rt, "memory"));
}

// The id of the table that is put.
fn id() -> Ulid
    ensures { result ≡ 1 }
{
    Ulid::from_parts(0, 1)
}

fn table(alloc: Global) -> Result<TableData, SlateDBError> {
    let key = Bytes::copy_from_slice(alloc, b"a")?;
    let mut rows = Vec::new(alloc);
    rows.push(RowEntry::new(key, ValueDeletable::Tombstone, 1, None, None))?;
    if rows.is_empty() || !are_strictly_ordered(&rows) || !are_in_bounds(&rows) {
        return Err(SlateDBError::InvalidDBState);
    }
    TableData::from_rows(alloc, rows)
}

// Puts a table into a fresh store, as the writer.
fn put_table(store: &mut MemStore, alloc: Global) -> Result<(), SlateDBError>
    requires { store.old.world ≡ fresh_world }
    ensures { OnOk result ((rows : List Row) × (store.new.world
        ≡ after_call 0 model.Writer (PutsTable 1 rows) None fresh_world)) }
{
    let table = table(alloc)?;
    table.know_table();
    store.set_actor(0, Party::Writer);
    let mut under = store.under(&AppendOperator);
    under.put_table(id(), table)
}

// Whether a put of a table is struck and leaves the table only if it stands.
fn strikes_table(store: &mut MemStore, alloc: Global, stands: bool, answer: Answer) -> bool
    requires { store.old.world ≡ fresh_world }
{
    store.set_fault(1, stands);
    let put = put_table(store, alloc);
    is_struck(put, store, answer) && store.table(id()).is_some() == stands
}

#[test]
fn a_put_of_a_table_is_struck(rt: HostRuntime) {
    try_faults(&rt, rt.alloc(), Call::PutTable);
}

// Puts a table that a sweep may delete into a fresh store: the writer, which put it, goes on without
// a flush.
fn put_loose_table(store: &mut MemStore, alloc: Global) -> Result<(), SlateDBError>
    requires { store.old.world ≡ fresh_world }
    ensures { OnOk result (DeletionFits model.Sweeper store.new.world.store 1) }
{
    put_table(store, alloc)?;
    note_writer(store)
}

// Whether the deletion of a table is struck and drops the table only if it stands.
fn strikes_deletion(store: &mut MemStore, alloc: Global, stands: bool, answer: Answer) -> bool
    requires { store.old.world ≡ fresh_world }
{
    let Ok(()) = put_loose_table(store, alloc) else {
        return false;
    };
    store.set_fault(1, stands);
    let deleted = delete(store);
    is_struck(deleted, store, answer) && store.table(id()).is_none() == stands
}

fn delete(store: &mut MemStore) -> Result<(), SlateDBError>
    requires { DeletionFits model.Sweeper store.old.world.store 1 }
{
    store.set_actor(0, Party::Sweeper);
    let mut under = store.under(&AppendOperator);
    under.delete_table(id())
}

#[test]
fn a_deletion_is_struck(rt: HostRuntime) {
    try_faults(&rt, rt.alloc(), Call::DeleteTable);
}
