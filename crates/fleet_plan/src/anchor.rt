//! Anchors: keys of a table with the bytes that follow them.

ghost use Rattle.std.specs.Prelude.{◌≡◌, ◌-◌, ◌+◌, ◌/◌, drop, length, max, IfOk, IsOkUnless};
ghost use Rattle.row_model.specs.Written.Plan.{sample_anchors};
ghost use Rattle.fleet_range.specs.Keys.{range_of};
ghost use Rattle.fleet_tree.specs.Handles.{blocks_of};
ghost use Rattle.fleet_plan.specs.Anchors.{anchors_of, end_of};

use bytes::Bytes;
use fleet_range::BytesRange;
use fleet_rows::SlateDBError;
use fleet_tree::BlockMeta;
use std::alloc::Global;

/// The greatest number of anchors that a plan takes from one table.
pub const MAX_ANCHORS_PER_SST: u64 = 128;

/// An anchor: the first key of a group of blocks, and the size of the group in bytes.
#[derive(Debug, Drop, PartialEq, Eq)]
pub struct Anchor {
    pub key: Bytes,
    pub bytes: u64,
}

/// The anchors of a table with these blocks. The blocks are put into at most `max_anchors` groups
/// of neighbours, where 0 counts as 1. Each group gives an anchor with its first key and its bytes,
/// unless the key lies outside `effective_range`. The last group ends at `data_end_offset`, in
/// bytes.
pub fn sample_anchors(
    alloc: Global,
    blocks: &[BlockMeta],
    data_end_offset: u64,
    max_anchors: u64,
    effective_range: &BytesRange,
) -> Result<Vec<Anchor>, SlateDBError>
    ensures anchors { IfOk result (λ anchors. anchors_of anchors.items ≡ sample_anchors
        (blocks_of blocks.now) data_end_offset max_anchors (range_of effective_range.now)) }
    ensures memory { IsOkUnless result SlateDBError.Memory }
{
    let stride = stride(blocks, max_anchors);
    let mut anchors = Vec::new(alloc);
    let mut rest = blocks;
    'groups: while let [first, ..] = rest {
        let later = after_group(rest, stride);
        if effective_range.contains(first.first_key.as_slice()) {
            let end = end_of_group(later, data_end_offset);
            anchors.push(Anchor {
                key: first.first_key.clone()?,
                bytes: end.saturating_sub(first.offset),
            })?;
        }
        rest = later;
    }
    Ok(anchors)
}

// The number of blocks in a group. The last group may have fewer.
fn stride(blocks: &[BlockMeta], max_anchors: u64) -> usize
    ensures { result ≡ (length blocks.now + max max_anchors 1 - 1) / max max_anchors 1 }
{
    let groups = max_anchors.max(1);
    (blocks.len() as u64).div_ceil(groups) as usize
}

// The blocks after the first group.
fn after_group<'a>(blocks: &'a [BlockMeta], stride: usize) -> &'a [BlockMeta]
    ensures { result.now ≡ drop stride blocks.now }
{
    &blocks[stride.min(blocks.len())..]
}

// The offset, in bytes, at which the group before these blocks ends.
fn end_of_group(later: &[BlockMeta], data_end_offset: u64) -> u64
    ensures { result ≡ end_of data_end_offset (blocks_of later.now) }
{
    match later {
        [next, ..] => next.offset,
        [] => data_end_offset,
    }
}
