// Copies of rows, texts and lists, and how values compare.
use bytes::Bytes;
use fleet_rows::{
    Copies, DRAWN_BASE, KeyValue, ListOf, RowEntry, SlateDBError, Text, Ulid, ValueDeletable,
};
use std::alloc::Global;
use std::process::Abort;

fn row(alloc: Global, value: ValueDeletable) -> Result<RowEntry, SlateDBError> {
    let key = Bytes::copy_from_slice(alloc, b"hello")?;
    Ok(RowEntry::new(key, value, 1, None, None))
}

fn val(alloc: Global) -> Result<ValueDeletable, SlateDBError> {
    Ok(ValueDeletable::Value(Bytes::copy_from_slice(alloc, b"val")?))
}

fn row_of_val(alloc: Global) -> Result<RowEntry, SlateDBError> {
    row(alloc, val(alloc)?)
}

fn is_copied<T: Copies + PartialEq + Drop>(value: &T) -> bool {
    match value.copied() {
        Ok(copy) => copy == *value,
        Err(_) => false,
    }
}

fn is_send_and_sync<T: Send + Sync + Drop>(_value: T) {}

#[test]
fn copies(rt: HostRuntime) {
    let value = val(rt.alloc()).expect(&rt, "a value");
    assert!(rt; value.clone().expect(&rt, "a copy") == value);
    let bytes = value.as_bytes().expect(&rt, "memory");
    assert!(rt; is_copied(&bytes.expect(&rt, "bytes")));
    assert!(rt; is_copied(&7u64) && is_copied(&7u8));
}

#[test]
fn copies_rows(rt: HostRuntime) {
    let set = row_of_val(rt.alloc()).expect(&rt, "a row");
    assert!(rt; set.clone().expect(&rt, "a copy") == set);
    assert!(rt; is_copied(&set.value));
    is_send_and_sync(set);
}

#[test]
fn copies_texts(rt: HostRuntime) {
    let words = Text::new(String::from_str(rt.alloc(), "no").expect(&rt, "a text"));
    assert!(rt; words.clone().expect(&rt, "a copy") == words);
    assert!(rt; is_copied(&words));
    is_send_and_sync(words);
}

fn held(rt: &impl Abort, alloc: Global, created: Option<i64>) -> KeyValue {
    let mut row = row_of_val(alloc).expect(rt, "a row");
    row.create_ts = created;
    KeyValue::from_row(row).expect(rt, "a value")
}

#[test]
fn holds_a_value(rt: HostRuntime) {
    let one = held(&rt, rt.alloc(), None);
    assert!(rt; one < held(&rt, rt.alloc(), Some(5)));
    assert!(rt; one.clone().expect(&rt, "a copy") == one);
}

fn two_rows(rt: &impl Abort, alloc: Global) -> ListOf<RowEntry> {
    let mut rows = ListOf::new(alloc);
    let first = row_of_val(alloc).expect(rt, "a row");
    rows.push(first).expect(rt, "memory");
    let second = row(alloc, ValueDeletable::Tombstone).expect(rt, "a row");
    rows.push(second).expect(rt, "memory");
    rows
}

#[test]
fn lists(rt: HostRuntime) {
    let rows = two_rows(&rt, rt.alloc());
    let again = rows.clone().expect(&rt, "a copy");
    assert!(rt; again.len() == 2);
    assert!(rt; again == rows);
}

#[test]
fn lists_of_lists(rt: HostRuntime) {
    let mut lists = ListOf::new(rt.alloc());
    lists.push(two_rows(&rt, rt.alloc())).expect(&rt, "memory");
    assert!(rt; lists.clone().expect(&rt, "a copy") == lists);
    assert!(rt; lists.get(0) == Some(&two_rows(&rt, rt.alloc())));
    is_send_and_sync(lists);
}

#[test]
fn lists_of_pairs(rt: HostRuntime) {
    let mut pairs = ListOf::from_vec(Vec::new(rt.alloc()));
    let pair = (Ulid::from_parts(5, DRAWN_BASE + 1), 6u64);
    pairs.push(pair).expect(&rt, "memory");
    let copied = pairs.clone().expect(&rt, "a copy").into_vec();
    let (job, number) = *copied.first().expect(&rt, "a pair");
    assert!(rt; (job.moment_ms(), job.number(), number) == (5, DRAWN_BASE + 1, 6));
}
