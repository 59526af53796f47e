//! The bounds of the keys that begin with a prefix.

ghost use Rattle.std.specs.Prelude.{◌≡◌, ◌++◌, IfOk};
ghost use Rattle.std.specs.Range.Bound.{bound_map};
ghost use Rattle.fleet_range.specs.Keys.{end_before, placed_range, prefix_start, successor};

use bytes::Bytes;
use std::alloc::{AllocError, Global};
use std::ops::Bound;

// The prefix up to its last byte below 0xff, with that byte raised by one. None if the prefix has
// no such byte.
fn successor(alloc: Global, prefix: &[u8]) -> Result<Option<Bytes>, AllocError>
    ensures { IfOk result (λ end. end ≡ successor prefix.now) }
{
    let mut kept = prefix.len();
    'trailing: while kept > 0 {
        let byte = prefix[kept - 1];
        if byte < u8::MAX {
            let mut end = Vec::from_slice(alloc, &prefix[..kept - 1])?;
            end.push(byte + 1)?;
            return Ok(Some(Bytes::from_vec(end)?));
        }
        kept -= 1;
    }
    Ok(None)
}

// The prefix followed by the suffix.
fn concatenated(alloc: Global, prefix: &[u8], suffix: &[u8]) -> Result<Bytes, AllocError>
    ensures { IfOk result (λ key. key ≡ prefix.now ++ suffix.now) }
{
    let mut key = Vec::from_slice(alloc, prefix)?;
    key.extend_from_slice(suffix)?;
    Ok(Bytes::from_vec(key)?)
}

/// The start of the range of the keys that begin with the prefix.
pub(crate) fn prefix_start(alloc: Global, prefix: &[u8]) -> Result<Bound<Bytes>, AllocError>
    ensures { IfOk result (λ start. start ≡ prefix_start prefix.now) }
{
    if prefix.is_empty() {
        Ok(Bound::Unbounded)
    } else {
        Ok(Bound::Included(Bytes::copy_from_slice(alloc, prefix)?))
    }
}

/// The end of the range of the keys that begin with the prefix.
pub(crate) fn prefix_end(alloc: Global, prefix: &[u8]) -> Result<Bound<Bytes>, AllocError>
    ensures { IfOk result (λ end. end ≡ end_before (successor prefix.now)) }
{
    match successor(alloc, prefix)? {
        Some(end) => Ok(Bound::Excluded(end)),
        None => Ok(Bound::Unbounded),
    }
}

/// The start of the range of the keys that begin with the prefix and whose rest is in a range with
/// this start.
pub(crate) fn placed_start(
    alloc: Global,
    prefix: &[u8],
    start: Bound<&[u8]>,
) -> Result<Bound<Bytes>, AllocError>
    ensures { IfOk result (λ b. b
        ≡ placed_range prefix.now (prefix_start prefix.now)
        (bound_map (λ key. key.now) start.entry)) }
{
    match start {
        Bound::Included(suffix) => Ok(Bound::Included(concatenated(alloc, prefix, suffix)?)),
        Bound::Excluded(suffix) => Ok(Bound::Excluded(concatenated(alloc, prefix, suffix)?)),
        Bound::Unbounded => prefix_start(alloc, prefix),
    }
}

/// The end of the range of the keys that begin with the prefix and whose rest is in a range with
/// this end.
pub(crate) fn placed_end(
    alloc: Global,
    prefix: &[u8],
    end: Bound<&[u8]>,
) -> Result<Bound<Bytes>, AllocError>
    ensures { IfOk result (λ b. b ≡ placed_range prefix.now
        (end_before (successor prefix.now)) (bound_map (λ key. key.now) end.entry)) }
{
    match end {
        Bound::Included(suffix) => Ok(Bound::Included(concatenated(alloc, prefix, suffix)?)),
        Bound::Excluded(suffix) => Ok(Bound::Excluded(concatenated(alloc, prefix, suffix)?)),
        Bound::Unbounded => prefix_end(alloc, prefix),
    }
}
