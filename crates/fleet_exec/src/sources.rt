//! A test of what is required of a job's sources.

ghost use Rattle.std.specs.Prelude.{◌≡◌, ◌↔◌, IsTrue, IfOk, IfErr, IsOkUnless};
ghost use Rattle.row_model.specs.Rows.{are_ordered};
ghost use Rattle.fleet_iter.specs.Iteration.{CanFail};
ghost use Rattle.fleet_rows.specs.declared.errors.SlateDBError.TheVariants as SlateDBError;
ghost use Rattle.fleet_fold.specs.Retention.{IsReadable};
ghost use Rattle.fleet_exec.specs.Ranges.{AreSources};

use crate::SourceSet;
use crate::open::merged_in;
use fleet_iter::{RowSource, merges_sort};
use fleet_range::BytesRange;
use fleet_rows::{SlateDBError, row_order};
use std::alloc::Global;

// Whether each row comes before the next.
fn stand_in_order<T: RowSource>(alloc: Global, source: &mut T) -> Result<bool, SlateDBError>
    requires sound { T.sound source.old }
    requires readable { IsReadable (T.state source.old) }
    ensures ok { IfOk result (λ answer. answer ≡ are_ordered (T.state source.old).rows) }
    ensures err { IfErr result (CanFail (T.state source.old).whole) }
{
    let Some(first) = source.next_row(alloc)? else {
        return Ok(true);
    };
    let mut last = first;
    'rows: while let Some(row) = source.next_row(alloc)? {
        if !row_order(&last, &row).is_lt() {
            return Ok(false);
        }
        last = row;
    }
    Ok(true)
}

/// Whether each source is strictly ordered, and no two rows of the sources have both key and
/// sequence in common. `next_table` and `finish_ranges` require this. Each row is read at most
/// once, as a merge gives it.
pub fn are_sources(alloc: Global, sources: &SourceSet) -> Result<bool, SlateDBError>
    ensures answer { IfOk result (λ answer. IsTrue answer ↔ AreSources sources.now) }
    ensures memory { IsOkUnless result SlateDBError.Memory }
{
    merges_sort();
    let all = BytesRange::unbounded();
    let mut rows = merged_in(alloc, sources.as_slice(), &all, false)?;
    Ok(stand_in_order(alloc, &mut rows)?)
}
