//! Cutting rows into blocks.

ghost use Rattle.std.specs.Prelude.{◌≡◌, ◌≢◌, ◌++◌, ◌∷◌, ◌<◌, ◌≤◌, ◌^◌, [], length};
ghost use Rattle.std.specs.List.{AllByRecursion};
ghost use Rattle.row_model.specs.Bounds.{IsInBounds};
ghost use Rattle.row_model.specs.Written.TableBytes.{blocks_of_rows};
ghost use Rattle.fleet_rows.specs.Row.{rows_of};
ghost use Rattle.fleet_block.specs.Cuts.{first_block_len};

use fleet_rows::RowEntry;

// A block ends with the row with which its sum of `estimated_size` reaches this many bytes.
pub(crate) const BLOCK_BYTES: usize = 4096;

/// The rows of the first block, and the rows after them.
pub fn split_block(rows: &[RowEntry]) -> (&[RowEntry], &[RowEntry])
    requires some { rows.now ≢ [] }
    requires in_bounds { AllByRecursion IsInBounds (rows_of rows.now) }
    ensures cut { blocks_of_rows 0 (rows_of rows.now)
        ≡ rows_of result.0.now ∷ blocks_of_rows 0 (rows_of result.1.now) }
    ensures all { rows.now ≡ result.0.now ++ result.1.now }
    ensures filled { result.0.now ≢ [] }
    ensures short { length result.0.now < 2 ^ 16 }
{
    rows.split_at(first_block_len(rows))
}

// How many of the rows are in the first block.
fn first_block_len(rows: &[RowEntry]) -> usize
    requires { AllByRecursion IsInBounds (rows_of rows.now) }
    ensures value { result ≡ first_block_len 0 (rows_of rows.now) }
{
    let mut filled = 0;
    let mut len = 0;
    let mut rest = rows;
    'rest: while let [row, later @ ..] = rest {
        len += 1;
        filled += row.estimated_size();
        if BLOCK_BYTES <= filled {
            return len;
        }
        rest = later;
    }
    len
}
