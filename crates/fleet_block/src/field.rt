//! Reading the fields of a row at a place in some bytes.

ghost use Rattle.std.specs.Prelude.{◌≡◌, ◌<◌, ◌≤◌, ◌^◌, ◌%◌, ◌+◌, ◌++◌, is_some, length, slice_range, IfOk, IfSome, IsOkUnless};
ghost use Rattle.std.specs.Int.{w32, to_be_bytes};
ghost use Rattle.row_model.specs.Bounds.{IsStampOrNone};
ghost use Rattle.row_model.specs.Written.Sizes.{content_len};
ghost use Rattle.row_model.specs.Written.TableBytes.{content_bytes, content_flag, key_bytes, shared_len, stamp_bytes};
ghost use Rattle.fleet_rows.specs.Row.{content_of};
ghost use Rattle.fleet_block.specs.Finds.{Finds};
ghost use Rattle.fleet_block.specs.Comparisons.{key_of};

use crate::number::{u16_at, u32_at, u64_at};
use bytes::{Bytes, BytesMut};
use fleet_rows::{SlateDBError, ValueDeletable};
use std::alloc::Global;

// The bytes of memory that is taken at once for keys.
const KEYS_BYTES: usize = 1024;

/// Where a key stands: it has so many bytes of its block's first key, and then `len` bytes from
/// `start` on.
#[derive(Clone, Copy, Debug)]
pub(crate) struct KeyParts {
    pub(crate) shared: usize,
    pub(crate) start: usize,
    pub(crate) len: usize,
}

/// Where the key at this place stands, which may share bytes with the block's first key, and the
/// place after it.
#[inline(always)]
pub(crate) fn key_parts_at(bytes: &Bytes, place: usize, first: &[u8]) -> Option<(KeyParts, usize)>
    requires { place ≤ length bytes.now }
    ensures found { Finds (key_of first.now bytes.now)
        (λ k. key_bytes (shared_len first.now k) k) (λ k. length k ≤ 65535) bytes.now place result }
    ensures within { IfSome result (λ f. (f.0.shared ≤ length first.now)
        × (f.0.start + f.0.len ≡ f.1) × (f.1 ≤ length bytes.now)) }
{
    let Some((shared, place)) = u16_at(bytes, place) else {
        return None;
    };
    let Some((len, start)) = u16_at(bytes, place) else {
        return None;
    };
    let shared = shared as usize;
    let len = len as usize;
    if first.len() < shared {
        return None;
    }
    if bytes.len() - start < len {
        return None;
    }
    Some((KeyParts { shared, start, len }, start + len))
}

/// The key at this place, which may share bytes with the block's first key, and the place after
/// it.
#[inline(always)]
pub(crate) fn key_at(
    alloc: Global,
    bytes: &Bytes,
    place: usize,
    first: &[u8],
) -> Result<Option<(Bytes, usize)>, SlateDBError>
    requires { place ≤ length bytes.now }
    ensures found { IfOk result (Finds (λ k. k) (λ k. key_bytes (shared_len first.now k) k)
        (λ k. length k ≤ 65535) bytes.now place) }
    ensures within { IfOk result (λ found. IfSome found (λ f. f.1 ≤ length bytes.now)) }
    ensures memory { IsOkUnless result SlateDBError.Memory }
{
    let Some((parts, end)) = key_parts_at(bytes, place, first) else {
        return Ok(None);
    };
    let key = joined(alloc, &first[..parts.shared], bytes, parts.start, end)?;
    Ok(Some((key, end)))
}

// The front and the bytes from `place` to `end`. If the front is empty, they share the table's
// memory.
#[inline(always)]
fn joined(
    alloc: Global,
    front: &[u8],
    bytes: &Bytes,
    place: usize,
    end: usize,
) -> Result<Bytes, SlateDBError>
    requires { (place ≤ end) × (end ≤ length bytes.now) }
    ensures bytes { IfOk result (λ key. key ≡ front.now ++ slice_range bytes.now place end) }
    ensures memory { IsOkUnless result SlateDBError.Memory }
{
    if front.is_empty() {
        return Ok(bytes.slice(place..end)?);
    }
    let rest = &bytes.as_slice()[place..end];
    let mut key = Vec::with_capacity(alloc, front.len() + rest.len())?;
    key.extend_from_slice(front)?;
    key.extend_from_slice(rest)?;
    Ok(Bytes::from_vec(key)?)
}

/// The key that `key_at` gives. If it shares bytes with the block's first key, it is put into memory
/// that it shares with other keys.
#[inline(always)]
pub(crate) fn packed_key_at(
    alloc: Global,
    keys: &mut BytesMut,
    bytes: &Bytes,
    place: usize,
    first: &[u8],
) -> Result<Option<(Bytes, usize)>, SlateDBError>
    requires { place ≤ length bytes.now }
    ensures found { IfOk result (Finds (λ k. k) (λ k. key_bytes (shared_len first.now k) k)
        (λ k. length k ≤ 65535) bytes.now place) }
    ensures within { IfOk result (λ found. IfSome found (λ f. f.1 ≤ length bytes.now)) }
    ensures memory { IsOkUnless result SlateDBError.Memory }
{
    let Some((parts, end)) = key_parts_at(bytes, place, first) else {
        return Ok(None);
    };
    let key = packed(alloc, keys, &first[..parts.shared], bytes, parts.start, end)?;
    Ok(Some((key, end)))
}

// The front and the bytes from `place` to `end`. If the front is empty, they share the table's
// memory, and else that of other keys.
#[inline(always)]
fn packed(
    alloc: Global,
    keys: &mut BytesMut,
    front: &[u8],
    bytes: &Bytes,
    place: usize,
    end: usize,
) -> Result<Bytes, SlateDBError>
    requires { (place ≤ end) × (end ≤ length bytes.now) }
    ensures bytes { IfOk result (λ key. key ≡ front.now ++ slice_range bytes.now place end) }
    ensures memory { IsOkUnless result SlateDBError.Memory }
{
    if front.is_empty() {
        return Ok(bytes.slice(place..end)?);
    }
    let rest = &bytes.as_slice()[place..end];
    let len = front.len() + rest.len();
    keys.clear();
    if keys.capacity() < len {
        *keys = BytesMut::with_capacity(alloc, KEYS_BYTES.max(len))?;
    }
    keys.extend_from_slice(front)?;
    keys.extend_from_slice(rest)?;
    Ok(keys.freeze_to(keys.len())?)
}

/// The stamp at this place, if it is there, and the place after it.
#[inline(always)]
pub(crate) fn stamp_at(bytes: &Bytes, place: usize, is_there: bool) -> Option<(Option<i64>, usize)>
    requires { place ≤ length bytes.now }
    ensures found { Finds (λ s. s) stamp_bytes (λ s. IsStampOrNone s × (is_some s ≡ is_there))
        bytes.now place result }
    ensures within { IfSome result (λ f. f.1 ≤ length bytes.now) }
{
    if !is_there {
        return Some((None, place));
    }
    let (number, place) = u64_at(bytes, place)?;
    Some((Some(number.cast_signed()), place))
}

/// The content at this place, of the kind that the flags tell, and the place after it.
#[inline(always)]
pub(crate) fn content_at(
    bytes: &Bytes,
    place: usize,
    flags: u8,
) -> Result<Option<(ValueDeletable, usize)>, SlateDBError>
    requires { place ≤ length bytes.now }
    ensures found { IfOk result (Finds content_of content_bytes
        (λ x. (content_len x < 2 ^ 32) × (flags % 4 ≡ content_flag x)) bytes.now place) }
    ensures within { IfOk result (λ found. IfSome found (λ f. f.1 ≤ length bytes.now)) }
    ensures memory { IsOkUnless result SlateDBError.Memory }
{
    let kind = flags % 4;
    if kind == 1 {
        return Ok(Some((ValueDeletable::Tombstone, place)));
    }
    let Some((value, place)) = value_at(bytes, place)? else {
        return Ok(None);
    };
    if kind == 2 {
        Ok(Some((ValueDeletable::Merge(value), place)))
    } else {
        Ok(Some((ValueDeletable::Value(value), place)))
    }
}

// The bytes of a value or of an operand. They share the table's memory.
#[inline(always)]
fn value_at(bytes: &Bytes, place: usize) -> Result<Option<(Bytes, usize)>, SlateDBError>
    requires { place ≤ length bytes.now }
    ensures found { IfOk result (Finds (λ v. v) (λ v. to_be_bytes w32 (length v) ++ v)
        (λ v. length v < 2 ^ 32) bytes.now place) }
    ensures within { IfOk result (λ found. IfSome found (λ f. f.1 ≤ length bytes.now)) }
    ensures memory { IsOkUnless result SlateDBError.Memory }
{
    let Some((len, place)) = u32_at(bytes, place) else {
        return Ok(None);
    };
    if bytes.len() - place < len as usize {
        return Ok(None);
    }
    let end = place + len as usize;
    Ok(Some((bytes.slice(place..end)?, end)))
}
