// Copies of ranges, their texts and hashes, ranges of 32-bit numbers, and ranges of other types.
use bytes::Bytes;
use fleet_range::{BytesRange, ComparableRange, EndBound, StartBound};
use fleet_rows::{Copies, SlateDBError};
use std::alloc::{AllocError, Global};
use std::cmp::Ordering;
use std::hash::{FoldHasher, Hash, Hasher};
use std::ops::Bound;
use std::ops::Bound::{Excluded, Included, Unbounded};

// A bound in text. Before a key, `i` is an included bound and `x` an excluded one. Any other text
// is no bound.
fn bound(alloc: Global, text: &[u8]) -> Result<Bound<Bytes>, AllocError> {
    match text.split_first() {
        Some((b'i', key)) => Ok(Included(Bytes::copy_from_slice(alloc, key)?)),
        Some((b'x', key)) => Ok(Excluded(Bytes::copy_from_slice(alloc, key)?)),
        _ => Ok(Unbounded),
    }
}

fn range(alloc: Global, start: &[u8], end: &[u8]) -> Result<BytesRange, SlateDBError> {
    let range = BytesRange::try_new(bound(alloc, start)?, bound(alloc, end)?);
    range.ok_or(SlateDBError::InvalidDBState)
}

#[test]
fn starts_in_order(rt: HostRuntime) {
    let start = StartBound::from(Included(1u32));
    assert!(rt; start.cmp(&StartBound::from(Excluded(1))) == Ordering::Less);
    assert!(rt; StartBound::from(Unbounded).cmp(&start) == Ordering::Less);
    assert!(rt; start.clone().expect(&rt, "a copy") == start);
    let cloned = StartBound::from(Included(&1u32)).cloned();
    assert!(rt; cloned.expect(&rt, "a copy") == start);
    assert!(rt; Bound::from(start) == Included(1));
}

#[test]
fn ends_in_order(rt: HostRuntime) {
    let end = EndBound::from(Included(100u32));
    assert!(rt; end.cmp(&EndBound::from(Excluded(100))) == Ordering::Greater);
    let last = EndBound::from(Unbounded);
    assert!(rt; EndBound::from(Included(1)).cmp(&last) == Ordering::Less);
    assert!(rt; end.clone().expect(&rt, "a copy") == end);
    let sooner = EndBound::from(Excluded(&1u32)).cloned();
    assert!(rt; sooner.expect(&rt, "a copy") == EndBound::from(Excluded(1)));
    assert!(rt; Bound::from(end) == Included(100));
}

fn numbers(start: Bound<u32>, end: Bound<u32>) -> ComparableRange<u32> {
    ComparableRange::new(start, end)
}

#[test]
fn clones(rt: HostRuntime) {
    let half = range(rt.alloc(), b"ia", b"xb").expect(&rt, "a range");
    assert!(rt; half.clone().expect(&rt, "a copy") == half);
    assert!(rt; half.copied().expect(&rt, "a copy") == half);
}

#[test]
fn clones_of_numbers(rt: HostRuntime) {
    let tens = numbers(Included(10), Excluded(15));
    assert!(rt; tens.clone().expect(&rt, "a copy") == tens);
    assert!(rt; tens < numbers(Included(10), Included(15)));
}

fn copied_keys(alloc: Global) -> Result<BytesRange, SlateDBError> {
    let keys = Bytes::copy_from_slice(alloc, b"a")?..Bytes::copy_from_slice(alloc, b"b")?;
    Ok(BytesRange::from(keys)?)
}

fn copied_range() -> Result<BytesRange, SlateDBError> {
    Ok(BytesRange::from(BytesRange::unbounded())?)
}

#[test]
fn copies(rt: HostRuntime) {
    let half = range(rt.alloc(), b"ia", b"xb").expect(&rt, "a range");
    assert!(rt; copied_keys(rt.alloc()).expect(&rt, "keys") == half);
    assert!(rt; copied_range().expect(&rt, "a copy") == BytesRange::unbounded());
}

fn hashed<T: Hash>(item: &T) -> u64 {
    let mut state = FoldHasher::default();
    item.hash(&mut state);
    state.finish()
}

#[test]
fn hashes(rt: HostRuntime) {
    let half = range(rt.alloc(), b"ia", b"xb").expect(&rt, "a range");
    let hash = hashed(&half);
    assert!(rt; hash == hashed(&half.clone().expect(&rt, "a copy")));
    let other = range(rt.alloc(), b"xa", b"xb").expect(&rt, "a range");
    assert!(rt; hash != hashed(&other));
}

#[test]
fn printed(rt: HostRuntime) {
    let half = range(rt.alloc(), b"ia", b"xb").expect(&rt, "a range");
    let text = format!(in rt.alloc(); "{half:?}").expect(&rt, "a text");
    let wanted =
        "BytesRange { range: ComparableRange { start: StartBound { bound: Included(b\"a\") }, end: EndBound { bound: Excluded(b\"b\") } } }";
    assert!(rt; text.as_str() == wanted);
}

#[test]
fn a_range_after_a_prefix(rt: HostRuntime) {
    let above = range(rt.alloc(), b"xa", b"*").expect(&rt, "a range");
    let after = BytesRange::from_prefix_and_subrange(rt.alloc(), b"p", above);
    let wanted = range(rt.alloc(), b"xpa", b"xq").expect(&rt, "a range");
    assert!(rt; after.expect(&rt, "memory") == Some(wanted));
}
