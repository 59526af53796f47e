//! Reading the rows of a block at a place in some bytes.

ghost use Rattle.std.specs.Prelude.{◌≤◌, length, IfOk, IfSome, IsOkUnless};
ghost use Rattle.row_model.specs.Written.TableBytes.{rows_bytes};
ghost use Rattle.fleet_rows.specs.Row.{rows_of};
ghost use Rattle.fleet_block.specs.Finds.{AreRows, Finds, FindsLater};

use crate::cut::BLOCK_BYTES;
use crate::row::row_at;
use bytes::Bytes;
use fleet_rows::{RowEntry, SlateDBError};
use std::alloc::Global;

/// The rows of the block that begins at this place and has so many rows, and the place after it.
/// Where no such block is written, the answer is None or any rows. The only error is `Memory`.
pub fn block_at(
    alloc: Global,
    bytes: &Bytes,
    place: usize,
    count: u16,
) -> Result<Option<(Vec<RowEntry>, usize)>, SlateDBError>
    requires { place ≤ length bytes.now }
    ensures found { IfOk result
        (Finds (λ v. rows_of v.items) rows_bytes (AreRows 0 count) bytes.now place) }
    ensures within { IfOk result (λ found. IfSome found (λ f. f.1 ≤ length bytes.now)) }
    ensures memory { IsOkUnless result SlateDBError.Memory }
{
    let mut rows = Vec::new(alloc);
    if count == 0 {
        return Ok(Some((rows, place)));
    }
    let Some((row, place)) = row_at(alloc, bytes, place, &[])? else {
        return Ok(None);
    };
    if !row.is_in_bounds() {
        return Ok(None);
    }
    let first = row.key.clone()?;
    let filled = row.estimated_size();
    rows.push(row)?;
    later_at(
        alloc,
        bytes,
        place,
        first.as_slice(),
        filled,
        count - 1,
        rows,
    )
}

// Reads so many further rows of a block with this first key, and puts them after the other rows,
// which have `filled` bytes. It reads none after the row with which the block is full, so it never
// copies a long first key more often than a block can hold it.
fn later_at(
    alloc: Global,
    bytes: &Bytes,
    place: usize,
    first: &[u8],
    filled: usize,
    count: u16,
    before: Vec<RowEntry>,
) -> Result<Option<(Vec<RowEntry>, usize)>, SlateDBError>
    requires { place ≤ length bytes.now }
    ensures found { IfOk result (FindsLater (λ v. rows_of v.items) first.now filled
        count (rows_of before.items) bytes.now place) }
    ensures within { IfOk result (λ found. IfSome found (λ f. f.1 ≤ length bytes.now)) }
    ensures memory { IsOkUnless result SlateDBError.Memory }
{
    let mut rows = before;
    let mut place = place;
    let mut filled = filled;
    let mut left = count;
    'left: while 0 < left {
        if BLOCK_BYTES <= filled {
            return Ok(None);
        }
        let Some((row, next)) = row_at(alloc, bytes, place, first)? else {
            return Ok(None);
        };
        if !row.is_in_bounds() {
            return Ok(None);
        }
        filled += row.estimated_size();
        rows.push(row)?;
        place = next;
        left -= 1;
    }
    Ok(Some((rows, place)))
}
