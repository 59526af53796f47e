//! The sources of a scan over a store.

ghost use Rattle.std.specs.Prelude.{◌≡◌, ◌++◌, ◌∷◌, [], IfOk, IsOkUnless, OnOk};
ghost use Rattle.row_model.specs.Ranges.{is_after_start, is_before_end};
ghost use Rattle.fleet_range.specs.Keys.{range_of};
ghost use Rattle.fleet_rows.specs.declared.errors.SlateDBError.TheVariants as SlateDBError;
ghost use Rattle.fleet_read.specs.Sources.{flush_sources, meets_range, run_sources, tree_sources, view_tables};

use fleet_range::{ByteRangeBounds, BytesRange};
use fleet_rows::SlateDBError;
use fleet_scan::ScanSources;
use fleet_store::MemStore;
use fleet_table::RunData;
use fleet_tree::{FlushList, LsmTreeState, Runs, SsTableView};
use std::alloc::Global;
use std::ops::Bound;

// Whether the key is not before the start of the range.
fn is_after_start(range: &BytesRange, key: &[u8]) -> bool
    ensures { result ≡ is_after_start (range_of range.now).from key.now }
{
    match ByteRangeBounds::start_bound(range) {
        Bound::Included(start) => !start.cmp(key).is_gt(),
        Bound::Excluded(start) => start.cmp(key).is_lt(),
        Bound::Unbounded => true,
    }
}

// Whether the key is not after the end of the range.
fn is_before_end(range: &BytesRange, key: &[u8]) -> bool
    ensures { result ≡ is_before_end (range_of range.now).to key.now }
{
    match ByteRangeBounds::end_bound(range) {
        Bound::Included(end) => !key.cmp(end).is_gt(),
        Bound::Excluded(end) => key.cmp(end).is_lt(),
        Bound::Unbounded => true,
    }
}

// Whether the keys of the table, from its first to its last one, meet the range.
fn meets(view: &SsTableView, range: &BytesRange) -> bool
    ensures { result ≡ meets_range (range_of range.now) view.now }
{
    is_before_end(range, view.sst.first_key.as_slice())
        && is_after_start(range, view.sst.last_key.as_slice())
}

// Adds the table that the view names, if it is held and its keys meet the range.
fn add_table(
    store: &MemStore,
    view: &SsTableView,
    range: &BytesRange,
    run: &mut RunData,
) -> Result<(), SlateDBError>
    ensures added { OnOk result (run.new ≡ run.old
        ++ view_tables store.now.world.store (range_of range.now) (view.now ∷ [])) }
    ensures memory { IsOkUnless result SlateDBError.Memory }
{
    if !meets(view, range) {
        return Ok(());
    }
    let Some(table) = store.table(view.sst.id) else {
        return Ok(());
    };
    run.push(table.clone()?)
}

// The tables that these views name, as one source. Those whose keys do not meet the range are left
// out.
fn run_source(
    alloc: Global,
    store: &MemStore,
    views: &[SsTableView],
    range: &BytesRange,
) -> Result<RunData, SlateDBError>
    ensures source { IfOk result (λ source. source
        ≡ view_tables store.now.world.store (range_of range.now) views.now) }
    ensures memory { IsOkUnless result SlateDBError.Memory }
{
    let mut run = RunData::new(alloc);
    'views: for view in views {
        add_table(store, view, range, &mut run)?;
    }
    Ok(run)
}

// The table of a flush, as a source of its own.
fn flush_source(
    alloc: Global,
    store: &MemStore,
    view: &SsTableView,
    range: &BytesRange,
) -> Result<RunData, SlateDBError>
    ensures source { IfOk result (λ source. source
        ≡ view_tables store.now.world.store (range_of range.now) (view.now ∷ [])) }
    ensures memory { IsOkUnless result SlateDBError.Memory }
{
    let mut run = RunData::new(alloc);
    add_table(store, view, range, &mut run)?;
    Ok(run)
}

// Adds a source for each flush.
fn add_flushes(
    alloc: Global,
    store: &MemStore,
    flushes: &FlushList,
    range: &BytesRange,
    sources: &mut ScanSources,
) -> Result<(), SlateDBError>
    ensures added { OnOk result (sources.new ≡ sources.old
        ++ flush_sources store.now.world.store (range_of range.now) flushes.now) }
    ensures memory { IsOkUnless result SlateDBError.Memory }
{
    'flushes: for view in flushes.iter() {
        sources.push(flush_source(alloc, store, view, range)?)?;
    }
    Ok(())
}

// Adds a source for each run.
fn add_runs(
    alloc: Global,
    store: &MemStore,
    runs: Runs<'_>,
    range: &BytesRange,
    sources: &mut ScanSources,
) -> Result<(), SlateDBError>
    ensures added { OnOk result (sources.new ≡ sources.old
        ++ run_sources store.now.world.store (range_of range.now) runs.entry) }
    ensures memory { IsOkUnless result SlateDBError.Memory }
{
    'runs: for run in runs {
        sources.push(run_source(alloc, store, run.views.as_slice(), range)?)?;
    }
    Ok(())
}

/// The sources of a scan of the range over a tree: one for each flush, and one for each run. They
/// share the tables of the store, and read none of them.
pub(crate) fn tree_sources(
    alloc: Global,
    store: &MemStore,
    tree: &LsmTreeState,
    range: &BytesRange,
) -> Result<ScanSources, SlateDBError>
    ensures sources { IfOk result (λ sources. sources
        ≡ tree_sources store.now.world.store (range_of range.now) tree.now) }
    ensures memory { IsOkUnless result SlateDBError.Memory }
{
    let mut sources = ScanSources::new(alloc);
    add_flushes(alloc, store, &tree.l0, range, &mut sources)?;
    add_runs(alloc, store, tree.compacted.iter(), range, &mut sources)?;
    Ok(sources)
}
