//! Rows of a table that are read one after another.

ghost use Rattle.std.specs.Prelude.{◌≡◌, ◌↔◌, ◌≤◌, true, [], length, IfOk, IsOkUnless, IsTrue, OnErr, OnOk};
ghost use Rattle.std.specs.List.{prefix_len};
ghost use Rattle.row_model.specs.Ranges.{rows_in};
ghost use Rattle.fleet_iter.specs.Iteration.{from_key};
ghost use Rattle.fleet_range.specs.Keys.{range_of};
ghost use Rattle.fleet_table.specs.Cursors.{IsCursor, Takes};
ghost use Rattle.fleet_table.specs.Order.{is_before_range, is_not_after_range};

use crate::cursor::{Cursor, Ties};
use crate::piece::Piece;
use crate::table_bytes::TableBytes;
use bytes::BytesMut;
use fleet_range::{ByteRangeBounds, BytesRange};
use fleet_rows::{RowEntry, SlateDBError};
use std::alloc::Global;
use std::marker::Model;
use std::ops::Bound;

/// Rows of a table that stand one after another. Each is decoded when it is taken. Contracts see
/// the rows.
#[derive(Debug, Drop)]
pub(crate) struct Span<'a> {
    table: &'a TableBytes,
    cursor: Cursor,
    // The number of rows of the table up to the last row.
    end: usize,
    // Memory for keys of the next rows.
    keys: BytesMut,
    // Where rows are read while they stand there.
    piece: Piece,
    // Whether the pieces have memory of their own.
    copies: bool,
}

impl<'a> Model for Span<'a> {
    ghost use Rattle.std.specs.Prelude.{◌≤◌, List, length};
    ghost use Rattle.row_model.specs.Rows.{Row};
    ghost use Rattle.fleet_table.specs.Cursors.{rows_between, IsCursor};
    ghost use Rattle.fleet_table.specs.Pieces.{IsPiece};

    ghost Value = { List Row };

    ghost view = { λ s. rows_between s.cursor.row s.end s.table.now };

    ghost invariant = { λ s. (s.end ≤ length s.table.now) × IsCursor s.table.now s.cursor
        × IsPiece s.table.now s.piece };
}

impl<'a> Span<'a> {
    /// The rows of a table whose keys lie in the range. `shared` tells whether other threads may
    /// read other rows at once.
    ///
    /// A value that shares a table's memory counts there, in turn with the values of the other
    /// threads, which takes far more time than a copy. So rows of a shared table are read in
    /// copies, unless all its rows lie in the range.
    pub(crate) fn new(table: &'a TableBytes, range: &BytesRange, shared: bool) -> Span<'a>
        ensures { result ≡ rows_in (range_of range.now) table.now }
    {
        table.know_table();
        let cursor = start_of(table, range);
        let end = end_of(table, cursor, range);
        Span {
            table,
            cursor,
            end,
            keys: BytesMut::new(table.alloc),
            piece: Piece::new(),
            copies: shared && !is_whole(table, cursor, end),
        }
    }

    /// All rows of a table.
    pub(crate) fn all(table: &'a TableBytes) -> Span<'a>
        ensures { result ≡ table.now }
    {
        table.know_table();
        Span {
            table,
            cursor: table.block_start(0),
            end: table.count(),
            keys: BytesMut::new(table.alloc),
            piece: Piece::new(),
            copies: false,
        }
    }
}

impl Span<'_> {
    pub(crate) fn is_empty(&self) -> bool
        ensures { IsTrue result ↔ (self.now ≡ []) }
    {
        self.end <= self.cursor.row
    }

    /// Takes the first row. If this fails, `failed` is set.
    #[inline]
    pub(crate) fn next(
        &mut self,
        alloc: Global,
        failed: &mut bool,
    ) -> Result<Option<RowEntry>, SlateDBError>
        ensures row { IfOk result (Takes self.old self.new) }
        ensures fine { OnOk result (failed.new ≡ failed.old) }
        ensures err { OnErr result (self.new ≡ self.old) }
        ensures failed { OnErr result (failed.new ≡ true) }
        ensures memory { IsOkUnless result SlateDBError.Memory }
    {
        if self.end <= self.cursor.row {
            return Ok(None);
        }
        if let Err(error) = self
            .piece
            .reach(alloc, self.table, self.cursor, self.copies)
        {
            *failed = true;
            return Err(error);
        }
        let found = self
            .table
            .packed_row(alloc, &mut self.keys, self.cursor, &self.piece);
        let (row, cursor) = match found {
            Ok(found) => found,
            Err(error) => {
                *failed = true;
                return Err(error);
            }
        };
        self.cursor = cursor;
        Ok(Some(row))
    }

    /// Drops rows at the front while their keys are below this key. The index tells where to go on.
    pub(crate) fn skip_to(&mut self, key: &[u8])
        ensures { self.new ≡ from_key key.now self.old }
    {
        self.table.know_table();
        let cursor = self.table.find(key, Ties::After);
        if self.cursor.row < cursor.row {
            self.cursor = cursor;
        }
    }
}

// Where the first row stands that is not before the range.
fn start_of(table: &TableBytes, range: &BytesRange) -> Cursor
    ensures row { result.row ≡ prefix_len (is_before_range (range_of range.now)) table.now }
    ensures stands { IsCursor table.now result }
{
    table.know_table();
    match ByteRangeBounds::start_bound(range) {
        Bound::Included(start) => table.find(start, Ties::After),
        Bound::Excluded(start) => table.find(start, Ties::Before),
        Bound::Unbounded => table.block_start(0),
    }
}

// The number of rows that are not after the range, which are looked for from the cursor on.
fn end_of(table: &TableBytes, from: Cursor, range: &BytesRange) -> usize
    requires { IsCursor table.now from }
    ensures value { result ≡ prefix_len (is_not_after_range (range_of range.now)) table.now }
    ensures within { result ≤ length table.now }
{
    match ByteRangeBounds::end_bound(range) {
        Bound::Included(end) => table.find_from(from, end, Ties::Before).row,
        Bound::Excluded(end) => table.find_from(from, end, Ties::After).row,
        Bound::Unbounded => table.count(),
    }
}

// Whether the rows from the cursor on up to this many are all rows of the table.
fn is_whole(table: &TableBytes, cursor: Cursor, end: usize) -> bool {
    cursor.row == 0 && end == table.count()
}
