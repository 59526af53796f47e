//! Tables with their rows.

ghost use Rattle.std.specs.Prelude.{◌≡◌, ◌≢◌, ◌||◌, false, true, [], length, IfOk, IfSome, IsOkUnless, IsTrue, option_map, slice_get};
ghost use Rattle.std.specs.Ordering.{is_gt, is_le, is_lt};
ghost use Rattle.std.specs.List.{AllByRecursion};
ghost use Rattle.row_model.specs.Bounds.{IsInBounds};
ghost use Rattle.row_model.specs.Ranges.{rows_in};
ghost use Rattle.row_model.specs.Read.{seen_at};
ghost use Rattle.row_model.specs.Rows.{key_cmp, rows_of_key, IsStrictlyOrdered};
ghost use Rattle.row_model.specs.Written.Sizes.{blocks};
ghost use Rattle.row_model.specs.Written.TableBytes.{table_bytes, IsTaken};
ghost use Rattle.fleet_model.specs.Handles.{describe, seq_of_last};
ghost use Rattle.fleet_model.specs.Trees.{first_key, last_key};
ghost use Rattle.fleet_block.specs.Finds.{Reads};
ghost use Rattle.fleet_range.specs.Keys.{range_of};
ghost use Rattle.fleet_rows.specs.Row.{row_of, rows_of};
ghost use Rattle.fleet_tree.specs.Handles.{blocks_of, handle_of};
ghost use Rattle.fleet_table.specs.Table.{AreEndKeys, IsTableRows};

use crate::TableIterator;
use crate::order::{first_of, last_of};
use crate::span::Span;
use crate::table_bytes::TableBytes;
use bytes::Bytes;
use fleet_block::rows_from_bytes;
use fleet_range::BytesRange;
use fleet_rows::{Copies, RowEntry, SlateDBError, Ulid};
use fleet_tree::{BlockMeta, SsTableHandle};
use std::alloc::{AllocError, Global};
use std::marker::Model;
use std::sync::Arc;

/// A table. It has at least one row. Contracts see its rows.
#[derive(Debug, Drop)]
pub struct TableData {
    // The keys of the first and the last row stand here, so that a key outside the table is found
    // without a look at what is kept.
    first_key: Bytes,
    last_key: Bytes,
    kept: Arc<TableBytes>,
}

impl Model for TableData {
    ghost use Rattle.std.specs.Prelude.{List};
    ghost use Rattle.std.specs.Arc.{arc_value};
    ghost use Rattle.row_model.specs.Rows.{Row};
    ghost use Rattle.fleet_table.specs.Table.{AreEndKeys};

    ghost Value = { List Row };

    ghost view = { λ t. arc_value t.kept };

    ghost invariant = { λ t. AreEndKeys (arc_value t.kept) t.first_key t.last_key };
}

impl TableData {
    /// A table of these rows, which are copied into its bytes. There is at least one, and they are
    /// strictly ordered and in bounds.
    pub fn from_rows(alloc: Global, rows: Vec<RowEntry>) -> Result<TableData, SlateDBError>
        requires some { rows.items ≢ [] }
        requires ordered { IsStrictlyOrdered (rows_of rows.items) }
        requires in_bounds { AllByRecursion IsInBounds (rows_of rows.items) }
        ensures table { IfOk result (λ table. table ≡ rows_of rows.items) }
        ensures memory { IsOkUnless result SlateDBError.Memory }
    {
        let kept = TableBytes::from_rows(alloc, &rows)?;
        table_of(alloc, &rows, kept)
    }

    /// The table that has these bytes, or None if no table has them. It keeps a copy of the bytes.
    pub fn from_bytes(alloc: Global, bytes: &[u8]) -> Result<Option<TableData>, SlateDBError>
        ensures table { IfOk result (Reads (λ table. table) table_bytes IsTaken bytes.now) }
        ensures memory { IsOkUnless result SlateDBError.Memory }
    {
        let copy = Bytes::copy_from_slice(alloc, bytes)?;
        let Some((rows, places)) = rows_from_bytes(alloc, &copy)? else {
            return Ok(None);
        };
        let kept = TableBytes::of_written(alloc, &rows, copy, places)?;
        Ok(Some(table_of(alloc, &rows, kept)?))
    }

    /// The bytes of the table.
    pub fn as_bytes(&self) -> &[u8]
        ensures { result.now ≡ table_bytes self.now }
    {
        self.kept.bytes.as_slice()
    }

    /// A table has at least one row, and its rows are strictly ordered and in bounds.
    pub fn know_table(&self)
        ensures { IsTableRows self.now }
    {
        self.kept.know_table();
    }

    /// The number of rows.
    pub fn rows(&self) -> u64
        ensures { result ≡ length self.now }
    {
        self.kept.count() as u64
    }

    /// The rows, by rising key and, within a key, by falling sequence. They are decoded.
    pub fn to_rows(&self) -> Result<Vec<RowEntry>, SlateDBError>
        ensures rows { IfOk result (λ rows. rows_of rows.items ≡ self.now) }
        ensures memory { IsOkUnless result SlateDBError.Memory }
    {
        let alloc = self.kept.alloc;
        let mut rows = Vec::new(alloc);
        let mut left = Span::all(&self.kept);
        let mut failed = false;
        'left: while let Some(row) = left.next(alloc, &mut failed)? {
            rows.push(row)?;
        }
        Ok(rows)
    }

    /// The rows whose keys lie in the range.
    pub fn iter(&self, range: &BytesRange) -> TableIterator<'_>
        ensures { result ≡ record { left = rows_in (range_of range.now) self.now; broken = false } }
    {
        self.iter_in(range, false)
    }

    /// The rows whose keys lie in the range. `shared` tells whether other threads may read other
    /// rows at once.
    pub(crate) fn iter_in(&self, range: &BytesRange, shared: bool) -> TableIterator<'_>
        ensures { result ≡ record { left = rows_in (range_of range.now) self.now; broken = false } }
    {
        TableIterator::new(Span::new(&self.kept, range, shared))
    }

    /// The blocks, in order. The first block begins with the first row.
    pub fn index(&self) -> &[BlockMeta]
        ensures { blocks_of result.now ≡ blocks self.now }
    {
        self.kept.blocks.as_slice()
    }

    /// The key and the sequence of the last row.
    pub fn last_row(&self) -> (&[u8], u64)
        ensures key { result.0.now ≡ last_key [] self.now }
        ensures seq { result.1 ≡ seq_of_last 0 self.now }
    {
        (self.last_key.as_slice(), self.kept.last_seq)
    }

    /// The description of the table, under this id.
    pub fn describe(&self, id: Ulid) -> Result<SsTableHandle, SlateDBError>
        ensures handle { IfOk result (λ handle. handle_of handle ≡ describe id self.now) }
        // `SsTableView::new` requires this.
        ensures keys { IfOk result
            (λ handle. is_le (key_cmp handle.first_key handle.last_key) ≡ true) }
        ensures memory { IsOkUnless result SlateDBError.Memory }
    {
        self.kept
            .describe(id, self.first_key.clone()?, self.last_key.clone()?)
    }

    /// Whether the key is before the first key or after the last one, so that the table has no row
    /// of it.
    pub fn is_outside(&self, key: &[u8]) -> bool
        ensures value { result ≡ (is_lt (key_cmp key.now (first_key self.now))
            || is_gt (key_cmp key.now (last_key [] self.now))) }
        ensures none { IsTrue result → rows_of_key key.now self.now ≡ [] }
    {
        self.know_table();
        key.cmp(self.first_key.as_slice()).is_lt() || key.cmp(self.last_key.as_slice()).is_gt()
    }

    /// The newest row of a key with a sequence of at most `seq`. At most one row is decoded,
    /// perhaps of another key. A key that is before the first or after the last key of the table
    /// costs at most two comparisons.
    pub fn newest_at(&self, key: &[u8], seq: u64) -> Result<Option<RowEntry>, SlateDBError>
        ensures row { IfOk result (λ row. option_map row_of row
            ≡ slice_get (seen_at seq (rows_of_key key.now self.now)) 0) }
        ensures memory { IsOkUnless result SlateDBError.Memory }
    {
        if self.is_outside(key) {
            return Ok(None);
        }
        self.kept.newest_at(key, seq)
    }

    /// A copy, which shares the bytes.
    pub fn clone(&self) -> Result<TableData, SlateDBError>
        ensures copy { IfOk result (λ copy. copy ≡ self.now) }
        ensures memory { IsOkUnless result SlateDBError.Memory }
    {
        Ok(Clone::clone(self)?)
    }
}

impl Clone for TableData {
    ghost is_clone = { λ t copy. copy ≡ t };

    fn clone(&self) -> Result<TableData, AllocError> {
        Ok(TableData {
            first_key: Clone::clone(&self.first_key)?,
            last_key: Clone::clone(&self.last_key)?,
            kept: Arc::try_clone(&self.kept)?,
        })
    }
}

impl Copies for TableData {
    fn copied(&self) -> Result<TableData, AllocError> {
        Clone::clone(self)
    }
}

// The table that keeps these rows.
fn table_of(alloc: Global, rows: &[RowEntry], kept: TableBytes) -> Result<TableData, SlateDBError>
    requires some { rows.now ≢ [] }
    requires kept { kept ≡ rows_of rows.now }
    ensures table { IfOk result (λ table. table ≡ rows_of rows.now) }
    ensures memory { IsOkUnless result SlateDBError.Memory }
{
    let (first_key, last_key) = end_keys(alloc, rows)?;
    Ok(TableData {
        first_key,
        last_key,
        kept: Arc::new(alloc, kept)?,
    })
}

// The keys of the first and the last row, one after the other in memory of their own.
fn end_keys(alloc: Global, rows: &[RowEntry]) -> Result<(Bytes, Bytes), SlateDBError>
    requires { rows.now ≢ [] }
    ensures keys { IfOk result (λ keys. AreEndKeys (rows_of rows.now) keys.0 keys.1) }
    ensures memory { IsOkUnless result SlateDBError.Memory }
{
    copied_keys(
        alloc,
        first_of(rows).key.as_slice(),
        last_of(rows).key.as_slice(),
    )
}

fn copied_keys(alloc: Global, first: &[u8], last: &[u8]) -> Result<(Bytes, Bytes), SlateDBError>
    ensures first { IfOk result (λ keys. keys.0 ≡ first.now) }
    ensures last { IfOk result (λ keys. keys.1 ≡ last.now) }
    ensures memory { IsOkUnless result SlateDBError.Memory }
{
    let mut both = Vec::with_capacity(alloc, first.len() + last.len())?;
    both.extend_from_slice(first)?;
    both.extend_from_slice(last)?;
    let both = Bytes::from_vec(both)?;
    Ok((both.slice(..first.len())?, both.slice(first.len()..)?))
}
