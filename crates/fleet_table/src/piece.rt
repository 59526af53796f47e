//! Pieces of a table's bytes, in which rows are read.

ghost use Rattle.std.specs.Prelude.{◌≡◌, ◌↔◌, ◌<◌, ◌≤◌, ◌++◌, drop, length, slice_range, IfOk, IsOkUnless, IsTrue, OnOk};
ghost use Rattle.std.specs.List.{flat_map};
ghost use Rattle.row_model.specs.Written.TableBytes.{blocks_of_rows, rows_bytes, table_bytes};
ghost use Rattle.fleet_table.specs.Cursors.{IsCursor};
ghost use Rattle.fleet_table.specs.Pieces.{HasCursor, IsPiece};

use crate::cursor::Cursor;
use crate::table_bytes::TableBytes;
use bytes::Bytes;
use fleet_rows::SlateDBError;
use std::alloc::Global;

// The number of blocks that are copied at once.
const COPIED_BLOCKS: usize = 2;

/// The bytes of a table from one place on, up to one of its blocks or to its end.
#[derive(Debug, Drop)]
pub(crate) struct Piece {
    pub(crate) bytes: Bytes,
    /// The number of bytes of the table before the piece.
    pub(crate) start: usize,
    /// The number of blocks of the table before the end of the piece.
    pub(crate) end: usize,
}

impl Piece {
    /// A piece that ends before all blocks.
    pub(crate) fn new() -> Piece
        ensures { result.end ≡ 0 }
    {
        Piece {
            bytes: Bytes::new(),
            start: 0,
            end: 0,
        }
    }

    // Whether the row at the cursor stands in the piece.
    fn has(&self, cursor: Cursor) -> bool
        ensures { IsTrue result ↔ HasCursor self.now cursor }
    {
        self.start <= cursor.place && cursor.block < self.end
    }

    /// Makes this a piece of the table in which the row at the cursor stands. If out of memory, it
    /// stays what it was. `copies` tells whether the piece has memory of its own.
    #[inline]
    pub(crate) fn reach(
        &mut self,
        alloc: Global,
        table: &TableBytes,
        cursor: Cursor,
        copies: bool,
    ) -> Result<(), SlateDBError>
        requires row { cursor.row < length table.now }
        requires stands { IsCursor table.now cursor }
        requires piece { IsPiece table.now self.old }
        ensures piece { IsPiece table.now self.new }
        ensures reached { OnOk result (HasCursor self.new cursor) }
        ensures memory { IsOkUnless result SlateDBError.Memory }
    {
        if !self.has(cursor) {
            *self = piece_at(alloc, table, cursor, copies)?;
        }
        Ok(())
    }
}

// A piece that begins at the cursor.
#[inline(never)]
fn piece_at(
    alloc: Global,
    table: &TableBytes,
    cursor: Cursor,
    copies: bool,
) -> Result<Piece, SlateDBError>
    requires row { cursor.row < length table.now }
    requires stands { IsCursor table.now cursor }
    ensures piece { IfOk result (IsPiece table.now) }
    ensures reached { IfOk result (λ piece. HasCursor piece cursor) }
    ensures memory { IsOkUnless result SlateDBError.Memory }
{
    if copies {
        copied_piece(alloc, table, cursor)
    } else {
        shared_piece(table, cursor)
    }
}

// Where a piece ends that begins at the cursor and has bytes of so many blocks, or of all that are
// left: the number of blocks of the table before that place, and the place.
fn end_of_piece(table: &TableBytes, cursor: Cursor, blocks: usize) -> (usize, usize)
    requires row { cursor.row < length table.now }
    requires stands { IsCursor table.now cursor }
    requires some { 0 < blocks }
    ensures block { cursor.block < result.0 }
    ensures place { cursor.place ≤ result.1 }
    ensures within { result.1 ≤ length (table_bytes table.now) }
    ensures piece { drop cursor.place (table_bytes table.now)
        ≡ slice_range (table_bytes table.now) cursor.place result.1
        ++ flat_map rows_bytes (drop result.0 (blocks_of_rows 0 table.now)) }
{
    let left = table.block_count() - cursor.block;
    let end = cursor.block + left.min(blocks);
    (end, table.block_place(end))
}

// All bytes from the cursor on. They share the table's memory.
fn shared_piece(table: &TableBytes, cursor: Cursor) -> Result<Piece, SlateDBError>
    requires row { cursor.row < length table.now }
    requires stands { IsCursor table.now cursor }
    ensures piece { IfOk result (IsPiece table.now) }
    ensures reached { IfOk result (λ piece. HasCursor piece cursor) }
    ensures memory { IsOkUnless result SlateDBError.Memory }
{
    let start = cursor.place;
    let (end, place) = end_of_piece(table, cursor, usize::MAX);
    let bytes = table.bytes().slice(start..place)?;
    Ok(Piece { bytes, start, end })
}

// A copy of the bytes of some blocks from the cursor on.
fn copied_piece(alloc: Global, table: &TableBytes, cursor: Cursor) -> Result<Piece, SlateDBError>
    requires row { cursor.row < length table.now }
    requires stands { IsCursor table.now cursor }
    ensures piece { IfOk result (IsPiece table.now) }
    ensures reached { IfOk result (λ piece. HasCursor piece cursor) }
    ensures memory { IsOkUnless result SlateDBError.Memory }
{
    let start = cursor.place;
    let (end, place) = end_of_piece(table, cursor, COPIED_BLOCKS);
    let bytes = Bytes::copy_from_slice(alloc, &table.bytes().as_slice()[start..place])?;
    Ok(Piece { bytes, start, end })
}
