//! The index of the blocks into which rows are cut.

ghost use Rattle.std.specs.Prelude.{◌≡◌, ◌+◌, IfOk, IsOkUnless, sum_by};
ghost use Rattle.std.specs.List.{AllByRecursion};
ghost use Rattle.row_model.specs.Bounds.{IsInBounds};
ghost use Rattle.row_model.specs.Written.Sizes.{blocks, estimated_size, saturated_sum, table_size};
ghost use Rattle.fleet_rows.specs.Row.{rows_of};
ghost use Rattle.fleet_tree.specs.Handles.{blocks_of};

use bytes::Bytes;
use fleet_block::{rows_are_cut_into_blocks, split_block};
use fleet_rows::{RowEntry, SlateDBError};
use fleet_tree::{BlockList, BlockMeta, SharedList};
use std::alloc::Global;

/// The sum of `estimated_size` of the rows, in bytes, and the blocks into which they are cut. The
/// first keys are copied, so that the blocks keep no memory of the rows.
pub(crate) fn cut_blocks(alloc: Global, rows: &[RowEntry]) -> Result<(u64, BlockList), SlateDBError>
    requires { AllByRecursion IsInBounds (rows_of rows.now) }
    ensures size { IfOk result (λ cut. cut.0 ≡ table_size (rows_of rows.now)) }
    ensures blocks { IfOk result (λ cut. blocks_of cut.1 ≡ blocks (rows_of rows.now)) }
    ensures memory { IsOkUnless result SlateDBError.Memory }
{
    rows_are_cut_into_blocks();
    let mut blocks = SharedList::new(alloc);
    let mut offset = 0;
    let mut rest = rows;
    'rest: while let [first, ..] = rest {
        let (block, later) = split_block(rest);
        let first_key = Bytes::copy_from_slice(alloc, first.key.as_slice())?;
        blocks.push(BlockMeta { first_key, offset })?;
        offset = size_with(offset, block);
        rest = later;
    }
    Ok((offset, blocks))
}

// A size with the sizes of these rows added.
fn size_with(size: u64, rows: &[RowEntry]) -> u64
    requires { AllByRecursion IsInBounds (rows_of rows.now) }
    ensures { result ≡ saturated_sum (size + sum_by estimated_size (rows_of rows.now)) }
{
    let mut sum = size;
    let mut rest = rows;
    'rest: while let [row, later @ ..] = rest {
        sum = sum.saturating_add(row.estimated_size() as u64);
        rest = later;
    }
    sum
}
