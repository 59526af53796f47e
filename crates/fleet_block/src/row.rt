//! Reading a row at a place in some bytes.

ghost use Rattle.std.specs.Prelude.{◌≡◌, ◌≤◌, length, IfOk, IfSome, IsOkUnless};
ghost use Rattle.row_model.specs.Written.TableBytes.{fields_bytes, row_bytes, IsWritable};
ghost use Rattle.fleet_rows.specs.Row.{row_of};
ghost use Rattle.fleet_block.specs.Finds.{Finds};

use crate::field::{content_at, key_at, packed_key_at, stamp_at};
use crate::number::{byte_at, u64_at};
use bytes::{Bytes, BytesMut};
use fleet_rows::{RowEntry, SlateDBError};
use std::alloc::Global;

/// The row at this place in a block with this first key, and the place after it. The block's first
/// row is read after the empty key. Where no row is written so, the answer is None or any row. The
/// only error is `Memory`.
pub fn row_at(
    alloc: Global,
    bytes: &Bytes,
    place: usize,
    first: &[u8],
) -> Result<Option<(RowEntry, usize)>, SlateDBError>
    requires { place ≤ length bytes.now }
    ensures found { IfOk result
        (Finds row_of (row_bytes first.now) IsWritable bytes.now place) }
    ensures within { IfOk result (λ found. IfSome found (λ f. f.1 ≤ length bytes.now)) }
    ensures memory { IsOkUnless result SlateDBError.Memory }
{
    let Some((key, place)) = key_at(alloc, bytes, place, first)? else {
        return Ok(None);
    };
    row_with(bytes, place, key)
}

/// The row that `row_at` gives. A key that shares bytes with the first key is put into memory that
/// it shares with other keys: the room that is left in `keys`, or new room.
#[inline(always)]
pub fn packed_row_at(
    alloc: Global,
    keys: &mut BytesMut,
    bytes: &Bytes,
    place: usize,
    first: &[u8],
) -> Result<Option<(RowEntry, usize)>, SlateDBError>
    requires { place ≤ length bytes.now }
    ensures found { IfOk result
        (Finds row_of (row_bytes first.now) IsWritable bytes.now place) }
    ensures within { IfOk result (λ found. IfSome found (λ f. f.1 ≤ length bytes.now)) }
    ensures memory { IsOkUnless result SlateDBError.Memory }
{
    let Some((key, place)) = packed_key_at(alloc, keys, bytes, place, first)? else {
        return Ok(None);
    };
    row_with(bytes, place, key)
}

// The row with this key whose other fields stand at this place.
#[inline(always)]
fn row_with(
    bytes: &Bytes,
    place: usize,
    key: Bytes,
) -> Result<Option<(RowEntry, usize)>, SlateDBError>
    requires { place ≤ length bytes.now }
    ensures found { IfOk result
        (Finds row_of fields_bytes (λ r. IsWritable r × (key ≡ r.key)) bytes.now place) }
    ensures within { IfOk result (λ found. IfSome found (λ f. f.1 ≤ length bytes.now)) }
    ensures memory { IsOkUnless result SlateDBError.Memory }
{
    let Some((seq, place)) = u64_at(bytes, place) else {
        return Ok(None);
    };
    let Some((flags, place)) = byte_at(bytes, place) else {
        return Ok(None);
    };
    let Some((create_ts, place)) = stamp_at(bytes, place, flags / 4 % 2 == 1) else {
        return Ok(None);
    };
    let Some((expire_ts, place)) = stamp_at(bytes, place, flags / 8 % 2 == 1) else {
        return Ok(None);
    };
    let Some((value, place)) = content_at(bytes, place, flags)? else {
        return Ok(None);
    };
    let row = RowEntry::new(key, value, seq, create_ts, expire_ts);
    Ok(Some((row, place)))
}
