//! The rows that are made.

ghost use Rattle.std.specs.Prelude.{◌≤◌, IfOk};
ghost use Rattle.std.specs.List.{AllByRecursion};
ghost use Rattle.fleet_iter.specs.Iteration.{AreRising};

use bytes::Bytes;
use fleet_iter::{ListIterator, are_rising};
use fleet_rows::{RowEntry, SlateDBError, ValueDeletable};
use std::alloc::Global;

/// The number of sources, if the command line gives none.
pub const SOURCES: u64 = 8;

// The number of rows of a key. The last key may have fewer.
const VERSIONS: u64 = 4;

/// What is made: the number of rows, how many of each 100 rows are operands, and the number of
/// sources.
#[derive(Clone, Copy, Debug)]
pub struct Load {
    pub rows: u64,
    pub operands: u64,
    pub sources: u64,
}

// The source of a row, of two sources at least. The rows of a key are spread over two of them, by
// turns.
fn source_of(row: u64, sources: u64) -> u64
    requires { 2 ≤ sources }
{
    let key = row / VERSIONS;
    match row % 2 {
        0 => key % sources,
        _ => (key + 1).wrapping_add(key / sources % (sources - 1)) % sources,
    }
}

/// The key of a row: 16 decimal digits. Keys rise with the rows.
pub fn key_of(alloc: Global, row: u64) -> Result<Bytes, SlateDBError> {
    let key = row / VERSIONS;
    let digits = format!(in alloc; "{key:016}")?;
    Ok(Bytes::copy_from_slice(alloc, digits.as_bytes())?)
}

// 100 bytes, as a value or as an operand. The load says how many of each 100 rows are operands.
// They are spread evenly.
fn value_of(alloc: Global, load: Load, row: u64) -> Result<ValueDeletable, SlateDBError> {
    let bytes = Bytes::copy_from_slice(alloc, &[b'v'; 100])?;
    if row % 100 * 37 % 100 < load.operands {
        Ok(ValueDeletable::Merge(bytes))
    } else {
        Ok(ValueDeletable::Value(bytes))
    }
}

// A row. The sequences fall from row to row, and the first one is the number of rows.
fn entry(alloc: Global, load: Load, row: u64) -> Result<RowEntry, SlateDBError>
    requires { row ≤ load.rows }
{
    let key = key_of(alloc, row)?;
    let value = value_of(alloc, load, row)?;
    Ok(RowEntry::new(key, value, load.rows - row, None, None))
}

/// The rows of a source, in order.
pub fn rows_of(alloc: Global, load: Load, source: u64) -> Result<Vec<RowEntry>, SlateDBError> {
    let mut rows = Vec::new(alloc);
    for row in 0..load.rows {
        if source_of(row, load.sources.max(2)) == source {
            rows.push(entry(alloc, load, row)?)?;
        }
    }
    Ok(rows)
}

/// Sources whose rows rise, and the number of their rows.
#[derive(Drop)]
pub struct Sources {
    pub lists: Vec<ListIterator>,
    pub rows: u64,
}

impl Sources {
    // Adds a source with these rows. It is an error if their keys do not rise.
    fn add(&mut self, rows: Vec<RowEntry>) -> Result<(), SlateDBError>
        requires { AllByRecursion (λ l. AreRising l.rows) self.old.lists.items }
        ensures { AllByRecursion (λ l. AreRising l.rows) self.new.lists.items }
    {
        if !are_rising(&rows) {
            return Err(SlateDBError::InvalidDBState);
        }
        let count = self.rows.saturating_add(rows.len() as u64);
        self.lists.push(ListIterator::new(rows))?;
        self.rows = count;
        Ok(())
    }
}

/// All sources, as lists of rows.
pub fn make_sources(alloc: Global, load: Load) -> Result<Sources, SlateDBError>
    ensures { IfOk result (λ sources. AllByRecursion (λ l. AreRising l.rows) sources.lists.items) }
{
    let mut sources = Sources {
        lists: Vec::new(alloc),
        rows: 0,
    };
    'sources: for source in 0..load.sources {
        sources.add(rows_of(alloc, load, source)?)?;
    }
    Ok(sources)
}
