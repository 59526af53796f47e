//! The rows of a table, kept as the bytes of the table.

ghost use Rattle.std.specs.Prelude.{◌≡◌, ◌≢◌, ◌≤◌, ◌<◌, ◌+◌, ◌++◌, ◌∷◌, true, false, [], drop, length, option_map, slice_get, Some, IfOk, IsOkUnless, IsTrue};
ghost use Rattle.std.specs.List.{AllByRecursion, flat_map, prefix_len};
ghost use Rattle.std.specs.Ordering.{is_le};
ghost use Rattle.row_model.specs.Bounds.{IsInBounds};
ghost use Rattle.row_model.specs.Read.{seen_at};
ghost use Rattle.row_model.specs.Rows.{key_cmp, rows_of_key, IsStrictlyOrdered};
ghost use Rattle.row_model.specs.Written.TableBytes.{blocks_of_rows, row_bytes, rows_bytes, table_bytes, IsTaken};
ghost use Rattle.fleet_block.specs.Places.{places_from};
ghost use Rattle.fleet_model.specs.Handles.{describe};
ghost use Rattle.fleet_rows.specs.Row.{row_of, rows_of};
ghost use Rattle.fleet_table.specs.Cursors.{is_before_spot, key_after, rows_before, IsCursor, StandsAt};
ghost use Rattle.fleet_table.specs.Pieces.{HasCursor, IsPiece};
ghost use Rattle.fleet_tree.specs.Handles.{handle_of};
ghost use Rattle.fleet_table.specs.Table.{AreEndKeys, IsTableRows};

use crate::cursor::{Cursor, Ties, is_before_spot};
use crate::cutting::cut_blocks;
use crate::order::last_of;
use crate::piece::Piece;
use bytes::{Bytes, BytesMut};
use fleet_block::{
    BlockPlace, bytes_are_decoded, compared_at, packed_row_at, row_at, written_rows,
};
use fleet_rows::{RowEntry, SlateDBError, Ulid};
use fleet_tree::{BlockList, SsTableHandle};
use std::alloc::Global;
use std::fmt;
use std::marker::Model;

// The number of bytes in front of the headers of blocks.
const COUNT_BYTES: usize = 8;

// The number of bytes of a block's header.
const HEADER_BYTES: usize = 10;

/// The rows of a table as its bytes, with its index. There is at least one row. Contracts see the
/// rows.
#[derive(Drop)]
pub(crate) struct TableBytes {
    pub(crate) alloc: Global,
    pub(crate) bytes: Bytes,
    pub(crate) places: Vec<BlockPlace>,
    pub(crate) blocks: BlockList,
    pub(crate) size: u64,
    pub(crate) count: usize,
    pub(crate) last_seq: u64,
}

impl Model for TableBytes {
    ghost use Rattle.std.specs.Prelude.{List};
    ghost use Rattle.row_model.specs.Rows.{Row};
    ghost use Rattle.fleet_block.specs.Decoded.{decoded_rows};
    ghost use Rattle.fleet_table.specs.Table.{IsKept};

    ghost Value = { List Row };

    ghost view = { λ t. decoded_rows t.bytes };

    ghost invariant = { λ t. IsKept (decoded_rows t.bytes) t.bytes t.places.items t.blocks t.size t.count
        t.last_seq };
}

impl TableBytes {
    /// These rows as bytes.
    pub(crate) fn from_rows(alloc: Global, rows: &[RowEntry]) -> Result<TableBytes, SlateDBError>
        requires some { rows.now ≢ [] }
        requires ordered { IsStrictlyOrdered (rows_of rows.now) }
        requires in_bounds { AllByRecursion IsInBounds (rows_of rows.now) }
        ensures rows { IfOk result (λ kept. kept ≡ rows_of rows.now) }
        ensures memory { IsOkUnless result SlateDBError.Memory }
    {
        let (bytes, places) = written_rows(alloc, rows)?;
        TableBytes::of_written(alloc, rows, Bytes::from_vec(bytes)?, places)
    }

    /// These rows, which are written as these bytes, and whose blocks begin at these places.
    pub(crate) fn of_written(
        alloc: Global,
        rows: &[RowEntry],
        bytes: Bytes,
        places: Vec<BlockPlace>,
    ) -> Result<TableBytes, SlateDBError>
        requires taken { IsTaken (rows_of rows.now) }
        requires bytes { bytes ≡ table_bytes (rows_of rows.now) }
        requires places { places.items ≡ places_from 0 0 (blocks_of_rows 0 (rows_of rows.now)) }
        ensures rows { IfOk result (λ kept. kept ≡ rows_of rows.now) }
        ensures memory { IsOkUnless result SlateDBError.Memory }
    {
        bytes_are_decoded();
        let (size, blocks) = cut_blocks(alloc, rows)?;
        Ok(TableBytes {
            alloc,
            bytes,
            places,
            blocks,
            size,
            count: rows.len(),
            last_seq: last_of(rows).seq,
        })
    }

    /// A table has at least one row, and its rows are in order and in bounds.
    pub(crate) fn know_table(&self)
        ensures { IsTableRows self.now }
    {
        let _count = self.count;
    }

    /// The bytes of the table.
    pub(crate) fn bytes(&self) -> &Bytes
        ensures { result.now ≡ table_bytes self.now }
    {
        &self.bytes
    }

    /// The number of rows.
    pub(crate) fn count(&self) -> usize
        ensures { result ≡ length self.now }
    {
        self.count
    }

    /// The description of the table, under this id and with its end keys.
    pub(crate) fn describe(
        &self,
        id: Ulid,
        first_key: Bytes,
        last_key: Bytes,
    ) -> Result<SsTableHandle, SlateDBError>
        requires { AreEndKeys self.now first_key last_key }
        ensures handle { IfOk result (λ handle. handle_of handle ≡ describe id self.now) }
        ensures keys { IfOk result
            (λ handle. is_le (key_cmp handle.first_key handle.last_key) ≡ true) }
        ensures memory { IsOkUnless result SlateDBError.Memory }
    {
        Ok(SsTableHandle {
            id,
            first_key,
            last_key,
            last_seq: self.last_seq,
            rows: self.count as u64,
            size: self.size,
            blocks: self.blocks.clone()?,
        })
    }

    /// The newest row of a key with a sequence of at most `seq`.
    pub(crate) fn newest_at(&self, key: &[u8], seq: u64) -> Result<Option<RowEntry>, SlateDBError>
        ensures row { IfOk result (λ row. option_map row_of row
            ≡ slice_get (seen_at seq (rows_of_key key.now self.now)) 0) }
        ensures memory { IsOkUnless result SlateDBError.Memory }
    {
        let cursor = self.find(key, Ties::Newer(seq));
        if cursor.row == self.count {
            return Ok(None);
        }
        let (row, _) = self.row(self.alloc, cursor)?;
        if key == row.key.as_slice() {
            Ok(Some(row))
        } else {
            Ok(None)
        }
    }

    /// The number of blocks.
    pub(crate) fn block_count(&self) -> usize
        ensures { result ≡ length (blocks_of_rows 0 self.now) }
    {
        self.places.len()
    }

    /// The number of rows in the blocks before this one.
    fn rows_before(&self, block: usize) -> usize
        ensures { result ≡ rows_before block self.now }
    {
        match self.places.as_slice().get(block) {
            Some(start) => start.row,
            None => self.count,
        }
    }

    /// The first row of a block.
    pub(crate) fn block_start(&self, block: usize) -> Cursor
        requires { block < length (blocks_of_rows 0 self.now) }
        ensures block { result.block ≡ block }
        ensures row { result.row ≡ rows_before block self.now }
        ensures within { result.row < length self.now }
        ensures stands { IsCursor self.now result }
    {
        let _small = self.bytes.len();
        let start = self.places[block];
        let headers = COUNT_BYTES + HEADER_BYTES * self.places.len();
        Cursor {
            block,
            row: start.row,
            place: headers + start.place,
        }
    }

    /// The place at which a block begins. After all blocks it is the end of the bytes.
    pub(crate) fn block_place(&self, block: usize) -> usize
        ensures within { result ≤ length (table_bytes self.now) }
        ensures later { drop result (table_bytes self.now)
            ≡ flat_map rows_bytes (drop block (blocks_of_rows 0 self.now)) }
    {
        if block < self.block_count() {
            self.block_start(block).place
        } else {
            self.bytes.len()
        }
    }

    // The key after which the row at the cursor is written.
    fn key_before(&self, cursor: Cursor) -> &[u8]
        requires row { cursor.row < length self.now }
        requires stands { IsCursor self.now cursor }
        ensures { (at : StandsAt self.now cursor) → result.now ≡ key_after at.front }
    {
        if cursor.row == self.rows_before(cursor.block) {
            return &[];
        }
        match self.blocks.get(cursor.block as u64) {
            Some(block) => block.first_key.as_slice(),
            None => unreachable!(),
        }
    }

    // Where the next row stands, if it begins at this place.
    fn next(&self, cursor: Cursor, place: usize) -> Cursor
        requires row { cursor.row < length self.now }
        requires stands { IsCursor self.now cursor }
        requires place { (at : StandsAt self.now cursor) → drop place (table_bytes self.now)
            ≡ flat_map (row_bytes (key_after (at.front ++ at.here ∷ []))) at.later
            ++ flat_map rows_bytes at.after }
        ensures row { result.row ≡ cursor.row + 1 }
        ensures stands { IsCursor self.now result }
    {
        let _few = (self.count(), self.block_count());
        let row = cursor.row + 1;
        if row == self.rows_before(cursor.block + 1) {
            Cursor {
                block: cursor.block + 1,
                row,
                place,
            }
        } else {
            Cursor {
                block: cursor.block,
                row,
                place,
            }
        }
    }

    // Whether the row at the cursor is before a spot, and where the next row stands.
    fn look(&self, cursor: Cursor, key: &[u8], ties: Ties) -> (bool, Cursor)
        requires row { cursor.row < length self.now }
        requires stands { IsCursor self.now cursor }
        ensures before { IsTrue result.0
            → cursor.row < prefix_len (is_before_spot key.now ties) self.now }
        ensures after { result.0 ≡ false
            → prefix_len (is_before_spot key.now ties) self.now ≤ cursor.row }
        ensures row { result.1.row ≡ cursor.row + 1 }
        ensures stands { IsCursor self.now result.1 }
    {
        let first = self.key_before(cursor);
        let Some(((order, seq), place)) = compared_at(&self.bytes, cursor.place, first, key) else {
            unreachable!()
        };
        (is_before_spot(order, seq, ties), self.next(cursor, place))
    }

    /// The row at the cursor, and where the next row stands.
    pub(crate) fn row(
        &self,
        alloc: Global,
        cursor: Cursor,
    ) -> Result<(RowEntry, Cursor), SlateDBError>
        requires row { cursor.row < length self.now }
        requires stands { IsCursor self.now cursor }
        ensures value { IfOk result
            (λ found. slice_get self.now cursor.row ≡ Some (row_of found.0)) }
        ensures row { IfOk result (λ found. found.1.row ≡ cursor.row + 1) }
        ensures stands { IfOk result (λ found. IsCursor self.now found.1) }
        ensures memory { IsOkUnless result SlateDBError.Memory }
    {
        let first = self.key_before(cursor);
        let Some((row, place)) = row_at(alloc, &self.bytes, cursor.place, first)? else {
            unreachable!()
        };
        Ok((row, self.next(cursor, place)))
    }

    /// What `row` gives, read in a piece of the table. The key may lie in memory that it shares with
    /// other keys.
    #[inline]
    pub(crate) fn packed_row(
        &self,
        alloc: Global,
        keys: &mut BytesMut,
        cursor: Cursor,
        piece: &Piece,
    ) -> Result<(RowEntry, Cursor), SlateDBError>
        requires row { cursor.row < length self.now }
        requires stands { IsCursor self.now cursor }
        requires piece { IsPiece self.now piece.now }
        requires reached { HasCursor piece.now cursor }
        ensures value { IfOk result
            (λ found. slice_get self.now cursor.row ≡ Some (row_of found.0)) }
        ensures row { IfOk result (λ found. found.1.row ≡ cursor.row + 1) }
        ensures stands { IfOk result (λ found. IsCursor self.now found.1) }
        ensures memory { IsOkUnless result SlateDBError.Memory }
    {
        let _small = self.bytes.len();
        let first = self.key_before(cursor);
        let place = cursor.place - piece.start;
        let Some((row, place)) = packed_row_at(alloc, keys, &piece.bytes, place, first)? else {
            unreachable!()
        };
        Ok((row, self.next(cursor, piece.start + place)))
    }

    // The last block whose first row is before a spot, or the first block. It is found by halves.
    fn find_block(&self, key: &[u8], ties: Ties) -> usize
        ensures within { result < length (blocks_of_rows 0 self.now) }
        ensures start { rows_before result self.now
            ≤ prefix_len (is_before_spot key.now ties) self.now }
        ensures end { prefix_len (is_before_spot key.now ties) self.now
            ≤ rows_before (result + 1) self.now }
    {
        self.know_table();
        let mut low = 0;
        let mut high = self.block_count();
        'halves: while 1 < high - low {
            let middle = low + (high - low) / 2;
            let (is_before, _) = self.look(self.block_start(middle), key, ties);
            if is_before {
                low = middle;
            } else {
                high = middle;
            }
        }
        low
    }

    // The first row from the cursor on that is not before a spot. The row at `end` is not.
    fn scan(&self, cursor: Cursor, end: usize, key: &[u8], ties: Ties) -> Cursor
        requires stands { IsCursor self.now cursor }
        requires start { cursor.row ≤ prefix_len (is_before_spot key.now ties) self.now }
        requires end { prefix_len (is_before_spot key.now ties) self.now ≤ end }
        requires within { end ≤ length self.now }
        ensures row { result.row ≡ prefix_len (is_before_spot key.now ties) self.now }
        ensures stands { IsCursor self.now result }
    {
        let mut cursor = cursor;
        'rows: while cursor.row < end {
            let (is_before, next) = self.look(cursor, key, ties);
            if !is_before {
                return cursor;
            }
            cursor = next;
        }
        cursor
    }

    // The row after the one at `from`, if that one is before a spot and comes after `start`. Else
    // `start`.
    fn onward(&self, start: Cursor, from: Cursor, key: &[u8], ties: Ties) -> Cursor
        requires stands { IsCursor self.now start }
        requires start { start.row ≤ prefix_len (is_before_spot key.now ties) self.now }
        requires from { IsCursor self.now from }
        ensures row { result.row ≤ prefix_len (is_before_spot key.now ties) self.now }
        ensures stands { IsCursor self.now result }
    {
        if start.row < from.row && from.row < self.count() {
            let (is_before, next) = self.look(from, key, ties);
            if is_before {
                return next;
            }
        }
        start
    }

    /// The first row that is not before a spot. If the row at `from` is before it, the rows of its
    /// block up to that one are not looked at.
    pub(crate) fn find_from(&self, from: Cursor, key: &[u8], ties: Ties) -> Cursor
        requires { IsCursor self.now from }
        ensures row { result.row ≡ prefix_len (is_before_spot key.now ties) self.now }
        ensures stands { IsCursor self.now result }
    {
        let _few = self.block_count();
        let block = self.find_block(key, ties);
        let end = self.rows_before(block + 1);
        let start = self.onward(self.block_start(block), from, key, ties);
        self.scan(start, end, key, ties)
    }

    /// The first row that is not before a spot.
    pub(crate) fn find(&self, key: &[u8], ties: Ties) -> Cursor
        ensures row { result.row ≡ prefix_len (is_before_spot key.now ties) self.now }
        ensures stands { IsCursor self.now result }
    {
        let _few = self.block_count();
        let block = self.find_block(key, ties);
        let end = self.rows_before(block + 1);
        self.scan(self.block_start(block), end, key, ties)
    }
}

/// Prints the bytes and the index.
impl fmt::Debug for TableBytes {
    fn fmt<W: fmt::Write>(&self, f: &mut fmt::Formatter<W>) -> fmt::Result {
        f.debug_struct("TableBytes")
            .field("bytes", &self.bytes)
            .field("blocks", &self.blocks)
            .finish()
    }
}
