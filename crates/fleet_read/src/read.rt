//! The read of a key over a store.

ghost use Rattle.std.specs.Prelude.{◌≡◌, ◌||◌, [], ◌∷◌, IfOk, IsOkUnless, OnOk};
ghost use Rattle.std.specs.List.{AllByRecursion};
ghost use Rattle.std.specs.Ordering.{is_gt, is_lt};
ghost use Rattle.row_model.specs.Fold.{fold_bytes};
ghost use Rattle.row_model.specs.Rows.{key_cmp};
ghost use Rattle.fleet_model.specs.Invariants.Invariant.{StoreInvariant};
ghost use Rattle.fleet_range.specs.Keys.{range_of};
ghost use Rattle.fleet_rows.specs.declared.errors.SlateDBError.TheVariants as SlateDBError;
ghost use Rattle.fleet_scan.specs.KeyReads.{TakesRows, found_with};
ghost use Rattle.fleet_store.specs.Manifests.{tree_views};
ghost use Rattle.script_model.specs.Lines.Looks.{is_not_retained};
ghost use Rattle.fleet_read.specs.Answers.{answer_of, stored_answer};
ghost use Rattle.fleet_read.specs.Stored.{IsHeldView, only_key, view_rows};

use crate::ReadAnswer;
use bytes::Bytes;
use fleet_fold::MergeOperator;
use fleet_range::BytesRange;
use fleet_rows::{SlateDBError, key_order};
use fleet_scan::{KeyAnswer, KeyRead};
use fleet_store::MemStore;
use fleet_tree::{LsmTreeState, SsTableView, Views};
use std::alloc::Global;
use std::ops::Bound;

// Whether the key is before the table's first key or after its last one.
fn is_outside(view: &SsTableView, key: &[u8]) -> bool
    ensures { result ≡ (is_lt (key_cmp key.now view.now.sst.first_key)
        || is_gt (key_cmp key.now view.now.sst.last_key)) }
{
    key_order(key, view.sst.first_key.as_slice()).is_lt()
        || key_order(key, view.sst.last_key.as_slice()).is_gt()
}

/// Whether reads at this sequence or moment are not answered any more.
pub(crate) fn is_not_retained(store: &MemStore, seq: u64, now: i64) -> bool
    ensures { result ≡ is_not_retained store.now.world.store.manifest seq now }
{
    let core = &store.manifest().manifest.core;
    seq < core.horizon || now < core.last_l0_clock_tick
}

// The range of this key alone.
fn only(alloc: Global, key: &[u8]) -> Result<BytesRange, SlateDBError>
    ensures range { IfOk result (λ range. range_of range ≡ only_key key.now) }
    ensures memory { IsOkUnless result SlateDBError.Memory }
{
    let start = Bytes::copy_from_slice(alloc, key)?;
    let end = Bytes::copy_from_slice(alloc, key)?;
    Ok(BytesRange::new(Bound::Included(start), Bound::Included(end)))
}

// Takes the rows of the key in the table that the view names. The range is that of the key.
fn take_table(
    alloc: Global,
    store: &MemStore,
    view: &SsTableView,
    key: &[u8],
    range: &BytesRange,
    read: &mut KeyRead,
) -> Result<(), SlateDBError>
    requires range { range_of range.now ≡ only_key key.now }
    requires held { IsHeldView store.now.world.store view.now }
    ensures taken { OnOk result (TakesRows read.old
        (view_rows store.now.world.store key.now (view.now ∷ [])) read.new) }
    ensures memory { IsOkUnless result SlateDBError.Memory }
{
    if is_outside(view, key) {
        return Ok(());
    }
    let Some(table) = store.table(view.sst.id) else {
        return Ok(());
    };
    read.take(alloc, &mut table.iter(range))
}

// Takes the rows of the key in the tables that these views name, newest first.
fn take_tables(
    alloc: Global,
    store: &MemStore,
    views: Views<'_>,
    key: &[u8],
    range: &BytesRange,
    read: &mut KeyRead,
) -> Result<(), SlateDBError>
    requires range { range_of range.now ≡ only_key key.now }
    requires held { AllByRecursion (IsHeldView store.now.world.store) views }
    ensures taken { OnOk result (TakesRows read.old
        (view_rows store.now.world.store key.now views.entry) read.new) }
    ensures memory { IsOkUnless result SlateDBError.Memory }
{
    'views: for view in views {
        if read.is_hiding() {
            return Ok(());
        }
        take_table(alloc, store, view, key, range, read)?;
    }
    Ok(())
}

// Takes the rows of the key in all tables of the tree, newest first.
fn take_tree(
    alloc: Global,
    store: &MemStore,
    tree: &LsmTreeState,
    key: &[u8],
    range: &BytesRange,
    read: &mut KeyRead,
) -> Result<(), SlateDBError>
    requires range { range_of range.now ≡ only_key key.now }
    requires held { AllByRecursion (IsHeldView store.now.world.store) (tree_views tree.now) }
    ensures taken { OnOk result (TakesRows read.old
        (view_rows store.now.world.store key.now (tree_views tree.now)) read.new) }
    ensures memory { IsOkUnless result SlateDBError.Memory }
{
    take_tables(alloc, store, tree.l0.iter(), key, range, read)?;
    'runs: for run in tree.compacted.iter() {
        let views = Views::of_slice(run.views.as_slice());
        take_tables(alloc, store, views, key, range, read)?;
    }
    Ok(())
}

// The answer of the read, once all rows are taken.
fn answered<O: MergeOperator>(
    alloc: Global,
    operator: &O,
    read: KeyRead,
) -> Result<ReadAnswer, SlateDBError>
    ensures answer { IfOk result (λ answer. answer
        ≡ answer_of (fold_bytes (O.merged (O.settings operator.now)) read.key
        (found_with read []).0 (found_with read []).1)) }
    ensures memory { IsOkUnless result SlateDBError.Memory }
{
    match read.answer(alloc, operator)? {
        Some(KeyAnswer::Found(_, value)) => Ok(ReadAnswer::Value(value)),
        Some(KeyAnswer::Refused(_, message)) => Ok(ReadAnswer::Callback(message)),
        None => Ok(ReadAnswer::Nothing),
    }
}

/// Reads a key in the segment with this prefix, as it was at the sequence `seq` and the moment `now`,
/// over the tables that the store's manifest names. It looks at the store, and calls nothing. A read
/// below the horizon or before the tick is not answered. A table whose keys lie apart from the key
/// costs two comparisons, and no row is decoded after one that hides the others.
pub fn read_stored<O: MergeOperator>(
    alloc: Global,
    store: &MemStore,
    operator: &O,
    segment: &[u8],
    key: &[u8],
    seq: u64,
    now: i64,
) -> Result<ReadAnswer, SlateDBError>
    requires { StoreInvariant (O.merged (O.settings operator.now)) store.now.world.store }
    ensures answer { IfOk result (λ answer. answer
        ≡ stored_answer (O.merged (O.settings operator.now))
        store.now.world.store segment.now key.now seq now) }
    ensures memory { IsOkUnless result SlateDBError.Memory }
{
    let core = &store.manifest().manifest.core;
    if is_not_retained(store, seq, now) {
        return Ok(ReadAnswer::NotRetained {
            least: core.horizon,
            tick: core.last_l0_clock_tick,
        });
    }
    let Some(tree) = core.tree_for_segment(segment) else {
        return Ok(ReadAnswer::Nothing);
    };
    let range = only(alloc, key)?;
    let mut read = KeyRead::new(alloc, Bytes::copy_from_slice(alloc, key)?, seq, now);
    take_tree(alloc, store, tree, key, &range, &mut read)?;
    answered(alloc, operator, read)
}
