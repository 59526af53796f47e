//! What a row's bytes tell without memory.

ghost use Rattle.std.specs.Prelude.{◌≡◌, ◌≤◌, ◌++◌, length, IfSome};
ghost use Rattle.row_model.specs.Rows.{key_cmp};
ghost use Rattle.fleet_block.specs.Comparisons.{PassesContent, PassesFields, Tells};

use crate::field::{key_parts_at, stamp_at};
use crate::number::{byte_at, u32_at, u64_at};
use bytes::Bytes;
use std::cmp::Ordering;

/// How the key of the row at this place compares with a key, the sequence of the row, and the place
/// after the row. The row stands in a block with this first key, and the block's first row is read
/// after the empty key. Where no row is written so, the answer is None or anything.
pub fn compared_at(
    bytes: &Bytes,
    place: usize,
    first: &[u8],
    key: &[u8],
) -> Option<((Ordering, u64), usize)>
    requires { place ≤ length bytes.now }
    ensures found { Tells (λ r. (key_cmp r.key key.now, r.seq)) first.now bytes.now place result }
    ensures within { IfSome result (λ f. f.1 ≤ length bytes.now) }
{
    let Some((parts, place)) = key_parts_at(bytes, place, first) else {
        return None;
    };
    let rest = &bytes.as_slice()[parts.start..place];
    let order = joined_cmp(&first[..parts.shared], rest, key);
    let Some((seq, place)) = u64_at(bytes, place) else {
        return None;
    };
    let Some(end) = fields_end(bytes, place) else {
        return None;
    };
    Some(((order, seq), end))
}

// Compares a key that is given in two parts with another key.
fn joined_cmp(front: &[u8], rest: &[u8], key: &[u8]) -> Ordering
    ensures { result ≡ key_cmp (front.now ++ rest.now) key.now }
{
    let len = front.len().min(key.len());
    match front.cmp(&key[..len]) {
        Ordering::Equal => rest.cmp(&key[len..]),
        Ordering::Less => Ordering::Less,
        Ordering::Greater => Ordering::Greater,
    }
}

// The place after the fields of a row that follow its sequence.
fn fields_end(bytes: &Bytes, place: usize) -> Option<usize>
    requires { place ≤ length bytes.now }
    ensures passed { PassesFields bytes.now place result }
    ensures within { IfSome result (λ end. end ≤ length bytes.now) }
{
    let Some((flags, place)) = byte_at(bytes, place) else {
        return None;
    };
    let Some((_, place)) = stamp_at(bytes, place, flags / 4 % 2 == 1) else {
        return None;
    };
    let Some((_, place)) = stamp_at(bytes, place, flags / 8 % 2 == 1) else {
        return None;
    };
    content_end(bytes, place, flags)
}

// The place after the content of a row.
fn content_end(bytes: &Bytes, place: usize, flags: u8) -> Option<usize>
    requires { place ≤ length bytes.now }
    ensures passed { PassesContent flags bytes.now place result }
    ensures within { IfSome result (λ end. end ≤ length bytes.now) }
{
    if flags % 4 == 1 {
        return Some(place);
    }
    let Some((len, place)) = u32_at(bytes, place) else {
        return None;
    };
    if bytes.len() - place < len as usize {
        return None;
    }
    Some(place + len as usize)
}
