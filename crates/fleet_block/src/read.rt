//! Reading the rows of a table from its bytes.

ghost use Rattle.std.specs.Prelude.{◌≡◌, ◌≢◌, ◌↔◌, ◌<◌, ◌≤◌, ◌^◌, ◌++◌, [], length, IfOk, IfSome, IsOkUnless, IsTrue, OnOk};
ghost use Rattle.std.specs.List.{AllByRecursion};
ghost use Rattle.row_model.specs.Bounds.{IsInBounds};
ghost use Rattle.row_model.specs.Rows.{IsStrictlyOrdered};
ghost use Rattle.row_model.specs.Written.TableBytes.{blocks_of_rows, table_bytes, IsTaken};
ghost use Rattle.fleet_rows.specs.Row.{rows_of};
ghost use Rattle.fleet_block.specs.Finds.{FindsAll, FindsBlocks, Reads};
ghost use Rattle.fleet_block.specs.Places.{places_from};

use crate::BlockPlace;
use crate::block::block_at;
use crate::number::{u16_at, u64_at};
use crate::write::written_rows;
use bytes::Bytes;
use fleet_rows::{RowEntry, SlateDBError, are_in_bounds, are_strictly_ordered};
use std::alloc::Global;

// The number of bytes of a block's header.
const HEADER_BYTES: usize = 10;

// The greatest number of rows of a block. Each row counts at least 8 of its 4,096 bytes.
const MAX_BLOCK_ROWS: u16 = 512;

/// The rows of the table that has these bytes, and where its blocks begin, or None if no table has
/// them. A table has at least one row, its rows are strictly ordered, and their lengths are in
/// bounds. The only error is `Memory`.
pub fn rows_from_bytes(
    alloc: Global,
    bytes: &Bytes,
) -> Result<Option<(Vec<RowEntry>, Vec<BlockPlace>)>, SlateDBError>
    ensures rows { IfOk result (Reads (λ v. rows_of v.0.items) table_bytes IsTaken bytes.now) }
    ensures places { IfOk result (λ found. IfSome found
        (λ v. v.1.items ≡ places_from 0 0 (blocks_of_rows 0 (rows_of v.0.items)))) }
    ensures memory { IsOkUnless result SlateDBError.Memory }
{
    let Some(rows) = all_rows(alloc, bytes)? else {
        return Ok(None);
    };
    if !are_taken(&rows) {
        return Ok(None);
    }
    let (again, places) = written_rows(alloc, &rows)?;
    if again.as_slice() != bytes.as_slice() {
        return Ok(None);
    }
    Ok(Some((rows, places)))
}

// Whether there is at least one row, the rows are strictly ordered, and their lengths are in bounds.
fn are_taken(rows: &[RowEntry]) -> bool
    ensures { IsTrue result ↔ ((rows.now ≢ []) × IsStrictlyOrdered (rows_of rows.now)
        × AllByRecursion IsInBounds (rows_of rows.now)) }
{
    !rows.is_empty() && are_strictly_ordered(rows) && are_in_bounds(rows)
}

// Reads the rows of all blocks, if blocks are written there. It does not test that the blocks are
// cut and written as those of a table.
fn all_rows(alloc: Global, bytes: &Bytes) -> Result<Option<Vec<RowEntry>>, SlateDBError>
    ensures rows { IfOk result (FindsAll (λ v. rows_of v.items) bytes.now) }
    ensures memory { IsOkUnless result SlateDBError.Memory }
{
    let size = bytes.len();
    let Some((count, header)) = u64_at(bytes, 0) else {
        return Ok(None);
    };
    let most = (size - header) / HEADER_BYTES;
    if (most as u64) < count {
        return Ok(None);
    }
    let place = header + count as usize * HEADER_BYTES;
    let Some((rows, _)) = blocks_at(alloc, bytes, header, place, count)? else {
        return Ok(None);
    };
    Ok(Some(rows))
}

// Reads so many blocks. Their headers begin at one place, and their rows at another. The lengths in
// the headers are passed over, since the rows tell them too.
fn blocks_at(
    alloc: Global,
    bytes: &Bytes,
    header: usize,
    place: usize,
    count: u64,
) -> Result<Option<(Vec<RowEntry>, usize)>, SlateDBError>
    requires header { header ≤ length bytes.now }
    requires place { place ≤ length bytes.now }
    requires small { length bytes.now < 2 ^ 64 }
    ensures found { IfOk result
        (FindsBlocks (λ v. rows_of v.items) count [] bytes.now header place) }
    ensures memory { IsOkUnless result SlateDBError.Memory }
{
    let mut rows = Vec::new(alloc);
    let mut header = header;
    let mut place = place;
    let mut left = count;
    'left: while 0 < left {
        let Some((len, after)) = u16_at(bytes, header) else {
            return Ok(None);
        };
        let Some((_, after)) = u64_at(bytes, after) else {
            return Ok(None);
        };
        if MAX_BLOCK_ROWS < len {
            return Ok(None);
        }
        let Some((block, next)) = block_at(alloc, bytes, place, len)? else {
            return Ok(None);
        };
        append(&mut rows, block)?;
        header = after;
        place = next;
        left -= 1;
    }
    Ok(Some((rows, place)))
}

fn append(rows: &mut Vec<RowEntry>, block: Vec<RowEntry>) -> Result<(), SlateDBError>
    ensures rows { OnOk result (rows.new.items ≡ rows.old.items ++ block.items) }
    ensures memory { IsOkUnless result SlateDBError.Memory }
{
    'block: for row in block {
        rows.push(row)?;
    }
    Ok(())
}
