//! The rows of a range, from its cursor's key on.

ghost use Rattle.std.specs.Prelude.{◌≡◌, map, ⊤, IfOk, IsOkUnless};
ghost use Rattle.row_laws.specs.Sources.{merged_rows};
ghost use Rattle.fleet_iter.specs.Merge.{merged_lists};
ghost use Rattle.fleet_iter.specs.MergeState as merge;
ghost use Rattle.fleet_iter.specs.declared.iterator.IterationOrder.TheVariants.{Ascending};
ghost use Rattle.fleet_range.specs.Keys.{range_of};
ghost use Rattle.fleet_rows.specs.declared.errors.SlateDBError.TheVariants as SlateDBError;
ghost use Rattle.fleet_rows.specs.Settings.{settings_of};
ghost use Rattle.fleet_table.specs.Iterator.{state_of};
ghost use Rattle.fleet_fold.specs.Jobs.{GivesJob};
ghost use Rattle.fleet_fold.specs.Retention.{IsReadable};
ghost use Rattle.fleet_fold.specs.JobState as job_state;
ghost use Rattle.fleet_exec.specs.Ranges.{AreSources, opened_states, ranged_sources, rows_read, reading};

use crate::RangeJob;
use fleet_fold::{JobIterator, MergeOperator, job_iterator};
use fleet_iter::{MergeIterator, RowEntryIterator, merges_sort, ordered_rows_rise};
use fleet_range::BytesRange;
use fleet_rows::SlateDBError;
use fleet_table::{RunData, RunIterator};
use std::alloc::Global;

// An iterator for each source over its rows in the range.
fn range_iterators<'s>(
    alloc: Global,
    sources: &'s [RunData],
    range: &'s BytesRange,
    shared: bool,
) -> Result<Vec<RunIterator<'s>>, SlateDBError>
    ensures rows { IfOk result
        (λ iterators. map state_of iterators.items
        ≡ opened_states (range_of range.now) sources.now) }
    ensures memory { IsOkUnless result SlateDBError.Memory }
{
    let mut iterators = Vec::with_capacity(alloc, sources.len())?;
    'sources: for source in sources {
        iterators.push(RunIterator::over(source, range, shared))?;
    }
    Ok(iterators)
}

/// An initialised merge of the sources' rows in a range, without dedup. `shared` tells whether
/// other threads may read other rows of the sources at once.
pub(crate) fn merged_in<'s>(
    alloc: Global,
    sources: &'s [RunData],
    range: &'s BytesRange,
    shared: bool,
) -> Result<MergeIterator<RunIterator<'s>>, SlateDBError>
    ensures rows { IfOk result (λ rows. merge.state_of state_of rows
        ≡ reading (merged_lists Ascending (ranged_sources (range_of range.now) sources.now))) }
    ensures sound { IfOk result (λ rows. merge.IsSound (λ _. ⊤) state_of rows) }
    ensures memory { IsOkUnless result SlateDBError.Memory }
{
    let iterators = range_iterators(alloc, sources, range, shared)?;
    let mut rows = MergeIterator::new(alloc, iterators).with_dedup(false);
    rows.init(alloc)?;
    Ok(rows)
}

// A merge that gives the sources' rows in a range in order.
fn ready_merge<'s>(
    alloc: Global,
    sources: &'s [RunData],
    range: &'s BytesRange,
    shared: bool,
) -> Result<MergeIterator<RunIterator<'s>>, SlateDBError>
    requires { AreSources sources.now }
    ensures rows { IfOk result (λ rows. merge.state_of state_of rows
        ≡ reading (merged_rows (ranged_sources (range_of range.now) sources.now))) }
    ensures sound { IfOk result (λ rows. merge.IsSound (λ _. ⊤) state_of rows) }
    ensures memory { IsOkUnless result SlateDBError.Memory }
{
    merges_sort();
    Ok(merged_in(alloc, sources, range, shared)?)
}

/// A merge that gives the sources' rows in a job's range in order, from its cursor's key on.
pub(crate) fn merged_sources<'s>(
    alloc: Global,
    job: &'s RangeJob,
    sources: &'s [RunData],
    shared: bool,
) -> Result<MergeIterator<RunIterator<'s>>, SlateDBError>
    requires { AreSources sources.now }
    ensures rows { IfOk result (λ rows. merge.state_of state_of rows
        ≡ reading (rows_read sources.now job.now)) }
    ensures sound { IfOk result (λ rows. merge.IsSound (λ _. ⊤) state_of rows) }
    ensures memory { IsOkUnless result SlateDBError.Memory }
{
    ordered_rows_rise();
    let mut rows = ready_merge(alloc, sources, &job.range, shared)?;
    match &job.cursor {
        Some((key, _)) => {
            rows.seek(alloc, key.as_slice())?;
            Ok(rows)
        }
        None => Ok(rows),
    }
}

/// What a job makes of a range, from its cursor's key on. Rows of that key that are written already
/// are not left out. `shared` tells whether other threads may read other rows of the sources at
/// once.
pub(crate) fn open_range<'s, 'o, O: MergeOperator>(
    alloc: Global,
    job: &'s RangeJob,
    sources: &'s [RunData],
    operator: &'o O,
    shared: bool,
) -> Result<JobIterator<'o, O, MergeIterator<RunIterator<'s>>>, SlateDBError>
    requires { AreSources sources.now }
    ensures job { IfOk result
        (λ rows. GivesJob (O.merged (O.settings operator.now)) (settings_of job.now.settings)
        (rows_read sources.now job.now)
        (job_state.state_of O.settings O.merged (merge.state_of state_of) rows)) }
    ensures readable { IfOk result (λ rows. IsReadable
        (job_state.state_of O.settings O.merged (merge.state_of state_of) rows)) }
    ensures sound { IfOk result (λ rows. job_state.IsSound O.settings O.merged
        (merge.IsSound (λ _. ⊤) state_of) (merge.state_of state_of) rows) }
    ensures memory { IsOkUnless result SlateDBError.Memory }
{
    let rows = merged_sources(alloc, job, sources, shared)?;
    Ok(job_iterator(alloc, operator, rows, job.settings))
}
