//! Cutting all keys into ranges, by the bytes of anchors.

ghost use Rattle.std.specs.Prelude.{◌≡◌, ◌≤◌, ◌+◌, length, max, sum_by, IfOk, IsOkUnless};
ghost use Rattle.std.specs.List.Sorted.{IsStrictlySortedBy};
ghost use Rattle.row_model.specs.Written.Plan.{anchors_by_key, cut_anchors, select_boundaries};
ghost use Rattle.row_model.specs.Ranges.{Unbounded, ranges_from};
ghost use Rattle.row_model.specs.Rows.{key_cmp};
ghost use Rattle.row_model.specs.Written.Sizes.{saturated_sum};
ghost use Rattle.row_laws.specs.Turns.{AreCut};
ghost use Rattle.fleet_plan.specs.Anchors.{anchors_of};
ghost use Rattle.fleet_plan.specs.Boundaries.{HoldEveryKeyOnce, boundary_keys, ranges_of};

use crate::Anchor;
use bytes::Bytes;
use fleet_range::BytesRange;
use fleet_rows::SlateDBError;
use std::alloc::{AllocError, Global};
use std::ops::Bound;

/// The ranges of keys for the subcompactions of a job. The anchors are sorted by key. A cut is made
/// at an anchor where the bytes of all anchors before it reach a threshold, its key is above that
/// of the last cut, or above the smallest key, and fewer than `max_subcompactions - 1` cuts were
/// made. The threshold begins with the target, and rises by the target at each cut. The target is
/// the share of one range in all bytes, but at least `min_range_bytes`. A range may still have
/// fewer bytes than the target: after an anchor of many bytes, the next threshold may be reached at
/// once. If the target is 0, or all bytes are at most the target, there is one range.
pub fn select_boundaries(
    alloc: Global,
    anchors: Vec<Anchor>,
    max_subcompactions: u64,
    min_range_bytes: u64,
) -> Result<Vec<BytesRange>, SlateDBError>
    ensures ranges { IfOk result (λ ranges. ranges_of ranges.items
        ≡ select_boundaries (anchors_of anchors.items) max_subcompactions min_range_bytes) }
    ensures at_most { IfOk result (λ ranges. length ranges.items ≤ max max_subcompactions 1) }
    // The ranges follow one another, cut at rising edges.
    ensures rising { IfOk result (λ ranges. AreCut (ranges_of ranges.items)) }
    ensures every_key { IfOk result (λ ranges. HoldEveryKeyOnce (ranges_of ranges.items)) }
    ensures memory { IsOkUnless result SlateDBError.Memory }
{
    let keys = boundary_keys(alloc, anchors, max_subcompactions, min_range_bytes)?;
    ranges_between(alloc, &keys)
}

// The keys at which the ranges after the first one begin.
fn boundary_keys(
    alloc: Global,
    anchors: Vec<Anchor>,
    max_subcompactions: u64,
    min_range_bytes: u64,
) -> Result<Vec<Bytes>, AllocError>
    ensures { IfOk result (λ keys. keys.items
        ≡ boundary_keys (anchors_of anchors.items) max_subcompactions min_range_bytes) }
{
    if max_subcompactions <= 1 {
        return Ok(Vec::new(alloc));
    }
    let total = total_bytes(&anchors);
    let target = (total / max_subcompactions).max(min_range_bytes);
    if target == 0 || total <= target {
        return Ok(Vec::new(alloc));
    }
    cut_keys(alloc, &by_key(anchors)?, max_subcompactions, target)
}

fn total_bytes(anchors: &[Anchor]) -> u64
    ensures { result ≡ saturated_sum (sum_by (λ a. a.bytes) (anchors_of anchors.now)) }
{
    anchors.iter().fold(0, with_bytes)
}

fn with_bytes(total: u64, anchor: &Anchor) -> u64
    ensures { result ≡ saturated_sum (total + anchor.now.bytes) }
{
    total.saturating_add(anchor.bytes)
}

// The anchors by rising key. Anchors of one key keep their order.
fn by_key(anchors: Vec<Anchor>) -> Result<Vec<Anchor>, AllocError>
    ensures { IfOk result
        (λ sorted. anchors_of sorted.items ≡ anchors_by_key (anchors_of anchors.items)) }
{
    let mut sorted = anchors;
    sorted.sort_by(|a, b| a.key.cmp(&b.key))?;
    Ok(sorted)
}

// The keys at which the ranges after the first one begin, for anchors by rising key. The threshold
// and the sum of bytes stop at `u64::MAX`.
fn cut_keys(
    alloc: Global,
    anchors: &[Anchor],
    most: u64,
    target: u64,
) -> Result<Vec<Bytes>, AllocError>
    ensures { IfOk result (λ keys. keys.items ≡ cut_anchors most target (anchors_of anchors.now)) }
{
    let mut keys = Vec::new(alloc);
    let Some(first) = anchors.first() else {
        return Ok(keys);
    };
    let mut last = &first.key;
    let mut before = 0u64;
    let mut threshold = target;
    'anchors: for anchor in anchors {
        let room = (keys.len() as u64) + 1 < most;
        if threshold <= before && room && *last < anchor.key {
            keys.push(anchor.key.clone()?)?;
            last = &anchor.key;
            threshold = threshold.saturating_add(target);
        }
        before = before.saturating_add(anchor.bytes);
    }
    Ok(keys)
}

// The ranges into which these keys cut all keys. The first one ends before the first key, and each
// later one begins at a key.
fn ranges_between(alloc: Global, keys: &[Bytes]) -> Result<Vec<BytesRange>, SlateDBError>
    requires { IsStrictlySortedBy key_cmp keys.now }
    ensures ranges { IfOk result
        (λ ranges. ranges_of ranges.items ≡ ranges_from Unbounded keys.now) }
    ensures memory { IsOkUnless result SlateDBError.Memory }
{
    let mut ranges = Vec::new(alloc);
    let mut start = Bound::Unbounded;
    'keys: for key in keys {
        let end = Bound::Excluded(key.clone()?);
        ranges.push(BytesRange::new(start, end))?;
        start = Bound::Included(key.clone()?);
    }
    ranges.push(BytesRange::new(start, Bound::Unbounded))?;
    Ok(ranges)
}
