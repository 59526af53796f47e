//! Tables, runs and descriptions of tables that are read from words.

use crate::flaw::Flaw;
use crate::parse::rows;
use crate::words::{Parse, number, parse_list, parse_pair};
use bytes::Bytes;
use fleet_plan::Anchor;
use fleet_rows::Ulid;
use fleet_table::{RunData, TableData, are_in_bounds, are_strictly_ordered};
use fleet_tree::{BlockList, BlockMeta, SortedRun, SsTableHandle, SsTableView, Tracked, ViewList};
use std::alloc::Global;

impl Parse for TableData {
    fn parse(alloc: Global, word: &str) -> Result<TableData, Flaw> {
        let rows = rows(alloc, word)?;
        if rows.is_empty() || !are_strictly_ordered(&rows) {
            return Err(Flaw::Order);
        }
        if !are_in_bounds(&rows) {
            return Err(Flaw::Length);
        }
        Ok(TableData::from_rows(alloc, rows)?)
    }
}

// The word of a run has `;` between its tables. `-` is a run without tables.
impl Parse for RunData {
    fn parse(alloc: Global, word: &str) -> Result<RunData, Flaw> {
        let mut run = RunData::new(alloc);
        if word != "-" {
            'tables: for part in word.split(';') {
                run.push(TableData::parse(alloc, part)?)?;
            }
        }
        Ok(run)
    }
}

impl Parse for BlockMeta {
    fn parse(alloc: Global, word: &str) -> Result<BlockMeta, Flaw> {
        let (first_key, offset) = parse_pair(alloc, word)?;
        Ok(BlockMeta { first_key, offset })
    }
}

/// A view of a table with this id, these keys, this size and these blocks.
pub fn view_of(
    id: u64,
    first_key: Bytes,
    last_key: Bytes,
    size: u64,
    blocks: BlockList,
) -> Result<SsTableView, Flaw> {
    if !first_key.cmp(&last_key).is_le() {
        return Err(Flaw::Order);
    }
    Ok(SsTableView::identity(SsTableHandle {
        id: Ulid::from_parts(0, id as u128),
        first_key,
        last_key,
        last_seq: 0,
        rows: 1,
        size,
        blocks,
    })?)
}

/// A view of a table with this id. Nothing else about the table matters.
pub fn named_view(alloc: Global, id: u64) -> Result<SsTableView, Flaw> {
    view_of(id, Bytes::new(), Bytes::new(), 0, BlockList::new(alloc))
}

// A view of a table with these blocks. Its last key is the first key of the last block.
fn view_of_blocks(size: u64, blocks: BlockList) -> Result<SsTableView, Flaw> {
    let (Some(first), Some(last)) = (blocks.as_slice().first(), blocks.as_slice().last()) else {
        return Err(Flaw::Order);
    };
    let first_key = first.first_key.clone()?;
    let last_key = last.first_key.clone()?;
    view_of(0, first_key, last_key, size, blocks)
}

// The word of a table's description is its size and its blocks, with `=` between them.
impl Parse for SsTableView {
    fn parse(alloc: Global, word: &str) -> Result<SsTableView, Flaw> {
        let Some((size, blocks)) = word.split_once('=') else {
            return Err(Flaw::Pair);
        };
        let size = number(size)?;
        let blocks = BlockList::from_vec(alloc, parse_list(alloc, blocks, ',')?)?;
        view_of_blocks(size, blocks)
    }
}

// The word of a run has `;` between the descriptions of its tables.
impl Parse for SortedRun {
    fn parse(alloc: Global, word: &str) -> Result<SortedRun, Flaw> {
        let views = ViewList::from_vec(alloc, parse_list(alloc, word, ';')?)?;
        Ok(SortedRun::new(0, views))
    }
}

impl Parse for Tracked {
    fn parse(alloc: Global, word: &str) -> Result<Tracked, Flaw> {
        let (least_seq, moment) = parse_pair(alloc, word)?;
        Ok(Tracked { least_seq, moment })
    }
}

impl Parse for Anchor {
    fn parse(alloc: Global, word: &str) -> Result<Anchor, Flaw> {
        let (key, bytes) = parse_pair(alloc, word)?;
        Ok(Anchor { key, bytes })
    }
}
