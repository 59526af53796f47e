// Rows that are made in number, and tables of them.

ghost use Rattle.std.specs.Prelude.{IfOk};
ghost use Rattle.row_model.specs.Rows.{IsStrictlyOrdered};

use bytes::Bytes;
use fleet_rows::{RowEntry, SlateDBError, ValueDeletable};
use fleet_table::{TableData, are_in_bounds, are_strictly_ordered};
use std::alloc::Global;

/// How many keys there are, how many versions each has, and how many bytes each value has.
#[derive(Clone, Copy)]
pub(crate) struct Load {
    pub(crate) keys: u64,
    pub(crate) versions: u64,
    pub(crate) len: usize,
}

// A version of a key. The sequences fall from version to version.
fn row(alloc: Global, load: Load, key: u64, seq: u64) -> Result<RowEntry, SlateDBError> {
    let digits = format!(in alloc; "{key:04}")?;
    let key = Bytes::copy_from_slice(alloc, digits.as_bytes())?;
    let value = Bytes::from_vec(vec![in alloc; b'v'; load.len]?)?;
    Ok(RowEntry::new(key, ValueDeletable::Value(value), seq, None, None))
}

/// A table of the rows of these keys. It is an error if there are none.
pub(crate) fn table(
    alloc: Global,
    load: Load,
    start: u64,
    end: u64,
) -> Result<TableData, SlateDBError>
    ensures { IfOk result (λ table. IsStrictlyOrdered table) }
{
    let mut rows = Vec::new(alloc);
    'keys: for key in start..end {
        'versions: for version in 0..load.versions {
            rows.push(row(alloc, load, key, load.versions - version)?)?;
        }
    }
    if rows.is_empty() || !are_strictly_ordered(&rows) || !are_in_bounds(&rows) {
        return Err(SlateDBError::InvalidDBState);
    }
    TableData::from_rows(alloc, rows)
}

/// The row with so many rows before it, if there is one.
pub(crate) fn row_at(
    alloc: Global,
    load: Load,
    place: u64,
) -> Result<Option<RowEntry>, SlateDBError> {
    if load.versions == 0 || load.keys <= place / load.versions {
        return Ok(None);
    }
    let key = place / load.versions;
    let seq = load.versions - place % load.versions;
    Ok(Some(row(alloc, load, key, seq)?))
}
