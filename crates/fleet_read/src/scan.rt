//! The scan of a range of keys over a store.

ghost use Rattle.std.specs.Prelude.{◌≡◌, IfOk, IsOkUnless};
ghost use Rattle.row_model.specs.Fold.{Operator};
ghost use Rattle.fleet_model.specs.Invariants.Invariant.{StoreInvariant};
ghost use Rattle.fleet_range.specs.Keys.{range_of};
ghost use Rattle.fleet_rows.specs.declared.errors.SlateDBError.TheVariants as SlateDBError;
ghost use Rattle.fleet_read.specs.Pages.{scan_answer};
ghost use Rattle.fleet_read.specs.Sources.{AreScanSources};

use crate::ScanAnswer;
use crate::page::take_page;
use crate::read::is_not_retained;
use crate::sources::tree_sources;
use fleet_fold::MergeOperator;
use fleet_range::BytesRange;
use fleet_rows::SlateDBError;
use fleet_scan::{Scan, ScanSources};
use fleet_store::MemStore;
use std::alloc::Global;

// The sources of a scan of the range in the segment with this prefix.
fn segment_sources(
    alloc: Global,
    store: &MemStore,
    segment: &[u8],
    range: &BytesRange,
) -> Result<ScanSources, SlateDBError>
    ensures sources { (merge : Operator) → StoreInvariant merge store.now.world.store
        → IfOk result (AreScanSources store.now.world.store segment.now (range_of range.now)) }
    ensures memory { IsOkUnless result SlateDBError.Memory }
{
    match store.manifest().manifest.core.tree_for_segment(segment) {
        Some(tree) => tree_sources(alloc, store, tree, range),
        None => Ok(ScanSources::new(alloc)),
    }
}

/// Scans a range of keys in the segment with this prefix, as it was at the sequence `seq` and the
/// moment `now`, over the tables that the store's manifest names. It looks at the store, and calls
/// nothing. The page has at most `limit` pairs, and ends at the first refusal. A scan below the
/// horizon or before the tick is not answered. A table whose keys lie outside of the range costs at
/// most two comparisons. Of each source at most one row is decoded that comes after the next key
/// with an answer past the page.
pub fn scan_stored<O: MergeOperator>(
    alloc: Global,
    store: &MemStore,
    operator: &O,
    segment: &[u8],
    range: &BytesRange,
    seq: u64,
    now: i64,
    limit: u32,
) -> Result<ScanAnswer, SlateDBError>
    requires { StoreInvariant (O.merged (O.settings operator.now)) store.now.world.store }
    ensures answer { IfOk result (λ answer. answer
        ≡ scan_answer (O.merged (O.settings operator.now)) store.now.world.store segment.now
        (range_of range.now) seq now limit) }
    ensures memory { IsOkUnless result SlateDBError.Memory }
{
    let core = &store.manifest().manifest.core;
    if is_not_retained(store, seq, now) {
        return Ok(ScanAnswer::NotRetained {
            least: core.horizon,
            tick: core.last_l0_clock_tick,
        });
    }
    let sources = segment_sources(alloc, store, segment, range)?;
    let mut scan = Scan::new(alloc, &sources, range, seq, now, operator)?;
    Ok(ScanAnswer::Page(take_page(alloc, &mut scan, limit)?))
}
