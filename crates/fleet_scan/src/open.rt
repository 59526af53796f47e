//! The rows of a scan, in order.

ghost use Rattle.std.specs.Prelude.{◌≡◌, map, ⊤, IfOk, IsOkUnless};
ghost use Rattle.fleet_iter.specs.MergeState as merge;
ghost use Rattle.fleet_exec.specs.Ranges.{AreSources, opened_states, reading};
ghost use Rattle.fleet_range.specs.Keys.{range_of};
ghost use Rattle.fleet_rows.specs.declared.errors.SlateDBError.TheVariants as SlateDBError;
ghost use Rattle.fleet_scan.specs.Sources.{ranged_rows};
ghost use Rattle.fleet_table.specs.Iterator.{state_of};

use fleet_iter::{MergeIterator, RowEntryIterator, merges_sort};
use fleet_range::BytesRange;
use fleet_rows::SlateDBError;
use fleet_table::{RunData, RunIterator};
use std::alloc::Global;

// An iterator for each source over its rows in the range.
fn range_iterators<'a>(
    alloc: Global,
    sources: &'a [RunData],
    range: &'a BytesRange,
) -> Result<Vec<RunIterator<'a>>, SlateDBError>
    ensures rows { IfOk result
        (λ iterators. map state_of iterators.items
        ≡ opened_states (range_of range.now) sources.now) }
    ensures memory { IsOkUnless result SlateDBError.Memory }
{
    let mut iterators = Vec::with_capacity(alloc, sources.len())?;
    'sources: for source in sources {
        iterators.push(RunIterator::new(source, range))?;
    }
    Ok(iterators)
}

/// An initialised merge that gives the sources' rows in a range in order.
pub(crate) fn ranged_merge<'a>(
    alloc: Global,
    sources: &'a [RunData],
    range: &'a BytesRange,
) -> Result<MergeIterator<RunIterator<'a>>, SlateDBError>
    requires { AreSources sources.now }
    ensures rows { IfOk result (λ rows. merge.state_of state_of rows
        ≡ reading (ranged_rows (range_of range.now) sources.now)) }
    ensures sound { IfOk result (λ rows. merge.IsSound (λ _. ⊤) state_of rows) }
    ensures memory { IsOkUnless result SlateDBError.Memory }
{
    merges_sort();
    let iterators = range_iterators(alloc, sources, range)?;
    let mut rows = MergeIterator::new(alloc, iterators).with_dedup(false);
    rows.init(alloc)?;
    Ok(rows)
}
