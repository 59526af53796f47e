//! Flushes.

ghost use Rattle.std.specs.Prelude.{◌≡◌, ◌≢◌, ◌≤◌, [], Some, None, fold, max, min, nat_eq, false, option_map, suc, true, IfOk, IsOkUnless};
ghost use Rattle.std.specs.List.{list_all, starts_with};
ghost use Rattle.row_model.specs.Rows.{IsStrictlyOrdered};
ghost use Rattle.fleet_model.specs.Nodes.{last_seq_of, segment_at};
ghost use Rattle.fleet_model.specs.Invariants.TreesFit.{IsTable};
ghost use Rattle.fleet_model.specs.Trees.{greatest_seq};
ghost use Rattle.fleet_model.specs.Tracker.{least_seq_of};
ghost use Rattle.step_model.specs.Entries as entries;
ghost use Rattle.step_model.specs.Steps.FlushSteps as step;
ghost use Rattle.step_model.specs.Kept.Keeps.{Keeps};
ghost use Rattle.step_model.specs.Courses.StepEnds.{most_refused};
ghost use Rattle.course_laws.specs.Flushes.{MayAsk};
ghost use Rattle.fleet_rows.specs.Row.{rows_of};
ghost use Rattle.fleet_history.specs.declared.manifest_change.ManifestChange.TheVariants as change;
ghost use Rattle.fleet_tree.specs.Manifests.{manifest_of};
ghost use Rattle.fleet_tree.specs.Trees.{trees_of};
ghost use Rattle.fleet_step.specs.Steps.{StepRan, TryRan, refused_at};
ghost use Rattle.fleet_coordinator.specs.Flushes.{HasSeqs, IsFlushOf, IsFlushPut, IsPutTable, IsWriter, MayFlush, MayPutOnce, MayTry, PutsOnce, ask_of, asked_of, ends, fault_of};

use bytes::Bytes;
use fleet_rows::{ListOf, RowEntry, SlateDBError, Ulid};
use fleet_step::{MOST_REFUSED, put_answer, refused_at};
use fleet_store::{ManifestChange, Store};
use fleet_table::{TableData, are_strictly_ordered};
use fleet_tree::{Manifest, ManifestCore, SsTableView, VersionedManifest};
use std::alloc::Global;

/// The rule that a flush breaks.
#[derive(Clone, Copy, Debug, PartialEq, Eq)]
pub enum FlushFault {
    /// Its name is not above all used ones.
    Name,
    /// A key does not begin with the prefix of the segment.
    Segment,
    /// The rows are not strictly ordered.
    Order,
    /// A sequence is not above all that were flushed into the segment.
    Sequence,
    /// The floor is below the stored one.
    Floor,
    /// The tick is below the stored one.
    Tick,
}

/// Rows that the writer brings into the tree of a segment, under a name and with a floor and a
/// tick.
#[derive(Debug, Drop)]
pub struct FlushAsk {
    pub name: u64,
    pub segment: Bytes,
    pub floor: u64,
    /// In milliseconds.
    pub tick: i64,
    pub rows: ListOf<RowEntry>,
}

// A flush with its table, and with the least and the greatest sequence of its rows.
#[derive(Drop)]
struct MadeFlush {
    name: u64,
    segment: Bytes,
    floor: u64,
    tick: i64,
    least_seq: u64,
    greatest_seq: u64,
    table: TableData,
}

// Whether each key begins with the prefix of the segment.
fn are_of_segment(rows: &[RowEntry], segment: &[u8]) -> bool
    ensures { result
        ≡ list_all (λ r. starts_with nat_eq r.key segment.now) (rows_of rows.now) }
{
    all_begin_with(rows, segment)
}

fn all_begin_with(rows: &[RowEntry], prefix: &[u8]) -> bool
    ensures { result ≡ list_all (λ row. starts_with nat_eq row.key prefix.now) rows.now }
{
    rows.iter()
        .all(|row| row.key.as_slice().starts_with(prefix))
}

// The first rule that the flush breaks by itself. `last_name` is the greatest name that a flush has
// used.
fn fault_before_get(last_name: u64, ask: &FlushAsk) -> Option<FlushFault>
    ensures fault { option_map fault_of result ≡ step.fault_before_get last_name (ask_of ask.now) }
    ensures ordered { result ≡ None → IsStrictlyOrdered (rows_of ask.now.rows) }
{
    if ask.name <= last_name {
        return Some(FlushFault::Name);
    }
    let rows = ask.rows.as_slice();
    if !are_of_segment(rows, ask.segment.as_slice()) {
        return Some(FlushFault::Segment);
    }
    if !are_strictly_ordered(rows) {
        return Some(FlushFault::Order);
    }
    None
}

fn least(seq: u64, row: &RowEntry) -> u64
    ensures { result ≡ min seq row.now.seq }
{
    seq.min(row.seq)
}

// The least of a sequence and those of the rows.
fn least_from(seq: u64, rows: &[RowEntry]) -> u64
    ensures { result ≡ fold (λ seq row. min seq row.seq) seq rows.now }
{
    rows.iter().fold(seq, least)
}

// The least sequence of the rows.
fn least_seq(rows: &[RowEntry]) -> u64
    requires { rows.now ≢ [] }
    ensures { result ≡ least_seq_of (rows_of rows.now) }
{
    least_from(rows[0].seq, rows)
}

fn greatest(seq: u64, row: &RowEntry) -> u64
    ensures { result ≡ max seq row.now.seq }
{
    seq.max(row.seq)
}

// The greatest of a sequence and those of the rows.
fn greatest_from(seq: u64, rows: &[RowEntry]) -> u64
    ensures { result ≡ fold (λ seq row. max seq row.seq) seq rows.now }
{
    rows.iter().fold(seq, greatest)
}

// The greatest sequence of the rows.
fn greatest_seq(rows: &[RowEntry]) -> u64
    requires { rows.now ≢ [] }
    ensures { greatest_seq None (rows_of rows.now) ≡ Some result }
{
    greatest_from(rows[0].seq, rows)
}

// Makes the table of a flush.
fn flush_of(alloc: Global, ask: FlushAsk) -> Result<MadeFlush, SlateDBError>
    requires { IsTable (rows_of ask.rows) }
    ensures flush { IfOk result (IsFlushOf (ask_of ask)) }
    ensures memory { IsOkUnless result SlateDBError.Memory }
{
    let FlushAsk {
        name,
        segment,
        floor,
        tick,
        rows,
    } = ask;
    let from = least_seq(rows.as_slice());
    let to = greatest_seq(rows.as_slice());
    let table = TableData::from_rows(alloc, rows.into_vec())?;
    Ok(MadeFlush {
        name,
        segment,
        floor,
        tick,
        least_seq: from,
        greatest_seq: to,
        table,
    })
}

// The greatest sequence that was flushed into the segment.
fn last_seq(core: &ManifestCore, segment: &[u8]) -> Option<u64>
    ensures { result
        ≡ last_seq_of (segment_at segment.now (trees_of (λ prefix run. []) core.now)) }
{
    match core.tree_for_segment(segment) {
        Some(tree) => tree.last_seq,
        None => None,
    }
}

fn is_above(last_seq: Option<u64>, seq: u64) -> bool
    ensures { result ≡ step.is_above last_seq seq }
{
    match last_seq {
        Some(last) => last < seq,
        None => true,
    }
}

// Whether each sequence of the flush is above all that were flushed into its segment.
fn are_above(core: &ManifestCore, flush: &MadeFlush) -> bool
    requires { HasSeqs flush.now }
    ensures { result ≡ list_all (λ r. step.is_above (last_seq_of (segment_at flush.now.segment
        (trees_of (λ prefix run. []) core.now))) r.seq) flush.now.table }
{
    is_above(last_seq(core, flush.segment.as_slice()), flush.least_seq)
}

// The first rule that the flush breaks over this manifest.
fn fault_after_get(core: &ManifestCore, flush: &MadeFlush) -> Option<FlushFault>
    requires { HasSeqs flush.now }
    ensures { option_map fault_of result ≡ step.fault_after_get
        (manifest_of (λ prefix run. []) 0 0 core.now) (asked_of flush.now) }
{
    if !are_above(core, flush) {
        return Some(FlushFault::Sequence);
    }
    if flush.floor < core.recent_snapshot_min_seq {
        return Some(FlushFault::Floor);
    }
    if flush.tick < core.last_l0_clock_tick {
        return Some(FlushFault::Tick);
    }
    None
}

// The id of a flush's table.
fn id_of(name: u64) -> Ulid
    ensures { result ≡ name }
{
    Ulid::from_parts(0, name as u128)
}

// Puts the table of the flush, unless an earlier try has put it.
fn put_once<S: Store>(store: &mut S, flush: &MadeFlush, is_put: bool) -> Result<(), SlateDBError>
    requires { MayPutOnce (S.view store.old) (asked_of flush.now) is_put }
    ensures { PutsOnce (S.view store.old) (S.view store.new) (asked_of flush.now) is_put result }
{
    if is_put {
        return Ok(());
    }
    let table = flush.table.clone()?;
    store.put_table(id_of(flush.name), table)
}

// The version and the value of the put of the manifest.
fn flush_put(
    alloc: Global,
    got: VersionedManifest,
    moment: u64,
    retention_ms: u64,
    flush: &MadeFlush,
) -> Result<(u64, Manifest), SlateDBError>
    ensures put { IfOk result (λ put. IsFlushPut moment retention_ms got flush.now put.0 put.1) }
    ensures memory { IsOkUnless result SlateDBError.Memory }
{
    let VersionedManifest { id, mut manifest } = got;
    let handle = flush.table.describe(id_of(flush.name))?;
    manifest.core.add_flush(
        alloc,
        &flush.segment,
        SsTableView::identity(handle)?,
        flush.greatest_seq,
        flush.least_seq,
        flush.floor,
        flush.tick,
        moment,
        retention_ms,
    )?;
    Ok((id, manifest))
}

fn change_of(flush: &MadeFlush) -> Result<ManifestChange, SlateDBError>
    ensures change { IfOk result (λ made. made ≡ change.Flush
        flush.now.name flush.now.segment flush.now.floor flush.now.tick) }
    ensures memory { IsOkUnless result SlateDBError.Memory }
{
    let segment = flush.segment.clone()?;
    Ok(ManifestChange::Flush(flush.name, segment, flush.floor, flush.tick))
}

// One try of a flush. `is_put` says whether an earlier try has put the table.
fn try_flush<S: Store>(
    alloc: Global,
    store: &mut S,
    moment: u64,
    retention_ms: u64,
    flush: &MadeFlush,
    is_put: bool,
) -> Result<Option<FlushFault>, SlateDBError>
    requires seqs { HasSeqs flush.now }
    requires may { MayTry (S.view store.old) moment retention_ms (asked_of flush.now) is_put }
    ensures ran { (left seen : _) → TryRan ends
        (step.flushes_from moment retention_ms (asked_of flush.now) (suc left) is_put seen)
        (step.flushes_from moment retention_ms (asked_of flush.now) left true)
        (S.view store.old) (S.view store.new) result }
    ensures put { (seen : _) → refused_at result ≡ Some seen
        → IsPutTable (S.view store.new) (asked_of flush.now) }
{
    let got = store.get_manifest()?;
    if let Some(fault) = fault_after_get(&got.manifest.core, flush) {
        return Ok(Some(fault));
    }
    put_once(store, flush, is_put)?;
    let why = change_of(flush)?;
    let (version, manifest) = flush_put(alloc, got, moment, retention_ms, flush)?;
    let made = store.put_manifest(version, manifest, why, None);
    put_answer(made, None)
}

// The tries of a flush.
fn all_tries<S: Store>(
    alloc: Global,
    store: &mut S,
    moment: u64,
    retention_ms: u64,
    flush: &MadeFlush,
) -> Result<Option<FlushFault>, SlateDBError>
    requires seqs { HasSeqs flush.now }
    requires may { MayFlush (S.view store.old) moment retention_ms (asked_of flush.now) }
    ensures { StepRan ends
        (step.flushes_from moment retention_ms (asked_of flush.now) most_refused false 0)
        (S.view store.old) (S.view store.new) result }
{
    let mut seen = 0;
    let mut is_put = false;
    'tries: for tries in 0..MOST_REFUSED {
        let tried = try_flush(alloc, store, moment, retention_ms, flush, is_put);
        let Some(version) = refused_at(&tried) else {
            return tried;
        };
        seen = version;
        is_put = true;
    }
    Err(SlateDBError::Conflict { seen })
}

/// Puts the rows as a table under the flush's name, and then the manifest with the flush in its
/// tree. The answer is the rule that the flush breaks, or None if the flush took effect.
/// `last_name` is at least the greatest name that flushes have used. With a retention the flush is
/// tracked from this moment on; both are in milliseconds.
///
/// A flush that breaks a rule is in no tree. After `Name`, `Segment` and `Order` no call was made.
/// `Sequence`, `Floor` and `Tick` leave the table if an earlier try put it. `Conflict` means that
/// 64 puts of the manifest were refused in a row; it leaves the table. After `StoreFault` and after
/// `Memory` the table may be put, and the flush may have taken effect. A name whose table may be
/// put must not be used again.
///
/// A flush has at least one row, its rows are in bounds, and its name is one of flushes.
pub fn flush<S: Store>(
    alloc: Global,
    store: &mut S,
    moment: u64,
    retention_ms: u64,
    last_name: u64,
    ask: FlushAsk,
) -> Result<Option<FlushFault>, SlateDBError>
    requires by { IsWriter (S.view store.old) }
    requires keeps { Keeps (S.view store.old).who.merge (S.view store.old).world }
    requires may { MayAsk (ask_of ask) }
    requires names { entries.last_name (S.view store.old).world.store.history ≤ last_name }
    ensures ran { StepRan ends (step.flush moment retention_ms last_name (ask_of ask))
        (S.view store.old) (S.view store.new) result }
    ensures keeps { Keeps (S.view store.new).who.merge (S.view store.new).world }
{
    if let Some(fault) = fault_before_get(last_name, &ask) {
        return Ok(Some(fault));
    }
    let flush = flush_of(alloc, ask)?;
    all_tries(alloc, store, moment, retention_ms, &flush)
}
