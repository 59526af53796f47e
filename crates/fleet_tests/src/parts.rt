// Subcompactions of a job.
use bytes::Bytes;
use fleet_plan::Subcompaction;
use fleet_range::BytesRange;
use fleet_rows::{SlateDBError, Ulid};
use fleet_tree::{BlockList, BlockMeta, SsTableHandle, TableList};
use std::alloc::{AllocError, Global};
use std::ops::Bound::{Excluded, Included};
use std::process::Abort;

fn key(alloc: Global, byte: u8) -> Result<Bytes, AllocError> {
    Bytes::copy_from_slice(alloc, &[byte])
}

fn range(alloc: Global, start: u8, end: u8) -> Result<BytesRange, SlateDBError> {
    let range = BytesRange::try_new(Included(key(alloc, start)?), Excluded(key(alloc, end)?));
    range.ok_or(SlateDBError::InvalidDBState)
}

fn push_block(
    alloc: Global,
    blocks: &mut BlockList,
    byte: u8,
    offset: u64,
) -> Result<(), SlateDBError> {
    let first_key = key(alloc, byte)?;
    Ok(blocks.push(BlockMeta { first_key, offset })?)
}

// Two blocks that begin with these keys. Each has 100 bytes.
fn blocks(alloc: Global, first: u8, last: u8) -> Result<BlockList, SlateDBError> {
    let mut blocks = BlockList::new(alloc);
    push_block(alloc, &mut blocks, first, 0)?;
    push_block(alloc, &mut blocks, last, 100)?;
    Ok(blocks)
}

// A table of two blocks that begin with these keys.
fn table(rt: &impl Abort, alloc: Global, first: u8, last: u8) -> SsTableHandle {
    SsTableHandle {
        id: Ulid::from_parts(0, 1),
        first_key: key(alloc, first).expect(rt, "a key"),
        last_key: key(alloc, last).expect(rt, "a key"),
        last_seq: 0,
        rows: 2,
        size: 200,
        blocks: blocks(alloc, first, last).expect(rt, "blocks"),
    }
}

fn tables(rt: &impl Abort, alloc: Global) -> TableList {
    let mut tables = TableList::new(alloc);
    let table = table(rt, alloc, b'a', b'b');
    tables.push(table).expect(rt, "memory");
    tables
}

// A part of a job, for which no table was written.
fn part(rt: &impl Abort, alloc: Global) -> Subcompaction {
    Subcompaction::new(alloc, range(alloc, b'a', b'c').expect(rt, "a range"))
}

#[test]
fn parts(rt: HostRuntime) {
    let part = part(&rt, rt.alloc());
    let keys = range(rt.alloc(), b'a', b'c').expect(&rt, "a range");
    assert!(rt; *part.range() == keys);
    assert!(rt; part.output_ssts().is_empty());
}

#[test]
fn parts_with_tables(rt: HostRuntime) {
    let alloc = rt.alloc();
    let keys = range(alloc, b'a', b'c').expect(&rt, "a range");
    let mut written = Subcompaction::new(alloc, keys);
    written.set_output_ssts(tables(&rt, alloc).clone().expect(&rt, "a copy"));
    let again = written.clone().expect(&rt, "a copy");
    assert!(rt; again.output_ssts().len() == 1);
    assert!(rt; again == part(&rt, alloc).with_output_ssts(tables(&rt, alloc)));
}
