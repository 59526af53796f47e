//! Manifests: the trees of all segments, the floor, the tick, the tracked flushes and the horizon.

ghost use Rattle.std.specs.Prelude.{◌≡◌, [], ◌∷◌, length, map, option_map, find, take_while, bytes_eq, IfOk, IsOkUnless, OnOk, OnErr};
ghost use Rattle.std.specs.Option.{option_copied};
ghost use Rattle.std.specs.List.{prefix_len};
ghost use Rattle.std.specs.Ordering.{is_lt};
ghost use Rattle.fleet_model.specs.Tracker.{tracked_after};
ghost use Rattle.row_model.specs.Rows.{key_cmp};
ghost use Rattle.fleet_tree.specs.Manifests.{cut_of, tracker_of};
ghost use Rattle.fleet_tree.specs.Trees.{flushed_segments, tree_or_empty, trees_with_prefix};

use crate::tracker::{cut_before, tracked_after};
use crate::{LsmTreeState, SegmentList, SsTableView, TrackerList, Trees, TreesWithPrefix};
use bytes::Bytes;
use fleet_rows::{Copies, SlateDBError};
use std::alloc::{AllocError, Global};

/// What a manifest keeps: the trees, the floor, the tick, the flushes within the retention, and the
/// horizon. No snapshot reads below the floor. Rows expire by the tick. Reads are answered from the
/// horizon and the tick on.
#[derive(Clone, Debug, Drop, PartialEq, Eq)]
pub struct ManifestCore {
    /// The root: the tree of the segment with the empty prefix.
    pub tree: LsmTreeState,
    /// The other segments, by rising prefix.
    pub segments: SegmentList,
    pub recent_snapshot_min_seq: u64,
    /// In milliseconds.
    pub last_l0_clock_tick: i64,
    /// The flushes within the retention. A fresh manifest has none.
    pub tracker: TrackerList,
    /// A sequence. It is 0 in a fresh manifest.
    pub horizon: u64,
}

impl ManifestCore {
    /// The tree of the segment with this prefix, if there is one. The empty prefix gives the root's
    /// tree.
    pub fn tree_for_segment(&self, segment: &[u8]) -> Option<&LsmTreeState>
        ensures { option_copied result ≡ option_map
            (λ s. s.1) (find (λ s. bytes_eq segment.now s.0) (trees_with_prefix self.now)) }
    {
        if segment.is_empty() {
            return Some(&self.tree);
        }
        let found = found(self.segments.as_slice(), segment)?;
        Some(&found.1)
    }

    /// The trees: the root's first, and then the others by rising prefix.
    pub fn trees(&self) -> Trees<'_>
        ensures { result ≡ map (λ s. s.1) (trees_with_prefix self.now) }
    {
        Trees::new(&self.tree, self.segments.as_slice())
    }

    /// The trees, each with the prefix of its segment. The root's prefix is empty.
    pub fn trees_with_prefix(&self) -> TreesWithPrefix<'_>
        ensures { result ≡ trees_with_prefix self.now }
    {
        TreesWithPrefix::new(&self.tree, self.segments.as_slice())
    }

    /// Puts a flush in front of its segment's tree, sets the floor and the tick, and tracks the
    /// flush for the retention. `last_seq` is the greatest sequence of the segment's flushes, this
    /// one included. `least_seq` is the least sequence of this flush's rows. `moment` is the moment
    /// of its put, in milliseconds.
    pub fn add_flush(
        &mut self,
        alloc: Global,
        segment: &Bytes,
        view: SsTableView,
        last_seq: u64,
        least_seq: u64,
        floor: u64,
        tick: i64,
        moment: u64,
        retention_ms: u64,
    ) -> Result<(), SlateDBError>
        ensures trees { OnOk result (trees_with_prefix self.new
            ≡ flushed_segments segment.now view last_seq (trees_with_prefix self.old)) }
        ensures floor { OnOk result (self.new.recent_snapshot_min_seq ≡ floor) }
        ensures tick { OnOk result (self.new.last_l0_clock_tick ≡ tick) }
        ensures tracker { OnOk result (tracker_of self.new.tracker
            ≡ tracked_after moment retention_ms least_seq (tracker_of self.old.tracker)) }
        ensures horizon { OnOk result (self.new.horizon ≡ self.old.horizon) }
        ensures err { OnErr result (self.new ≡ self.old) }
        ensures memory { IsOkUnless result SlateDBError.Memory }
    {
        let tracker = tracked_after(alloc, &self.tracker, least_seq, moment, retention_ms)?;
        flush_tree(
            alloc,
            &mut self.tree,
            &mut self.segments,
            segment,
            view,
            last_seq,
        )?;
        self.recent_snapshot_min_seq = floor;
        self.last_l0_clock_tick = tick;
        self.tracker = tracker;
        Ok(())
    }

    /// The sequence from which a compaction at this moment keeps all reads. Without a retention it
    /// is the floor. With one it is the least of the floor and of one sequence for each flush that
    /// is retained at this moment. That is the sequence before the flush's least one, or 0 if the
    /// least one is 0.
    pub fn cut(&self, moment: u64, retention_ms: u64) -> u64
        ensures { result ≡ cut_of self.now moment retention_ms }
    {
        let floor = self.recent_snapshot_min_seq;
        if retention_ms == 0 {
            floor
        } else {
            cut_before(floor, moment, retention_ms, self.tracker.as_slice())
        }
    }

    /// A copy, which shares the lists of the trees.
    pub fn clone(&self) -> Result<ManifestCore, SlateDBError>
        ensures copy { IfOk result (λ copy. copy ≡ self.now) }
        ensures memory { IsOkUnless result SlateDBError.Memory }
    {
        Ok(Clone::clone(self)?)
    }
}

// The segment with this prefix.
fn found<'a>(
    segments: &'a [(Bytes, LsmTreeState)],
    prefix: &[u8],
) -> Option<&'a (Bytes, LsmTreeState)>
    ensures { option_copied result ≡ find (λ s. bytes_eq prefix.now s.0) segments.now }
{
    segments.iter().find(|s| prefix == s.0.as_slice())
}

// Puts a flush in front of the tree of its segment, which may be the root.
fn flush_tree(
    alloc: Global,
    root: &mut LsmTreeState,
    segments: &mut SegmentList,
    prefix: &Bytes,
    view: SsTableView,
    last_seq: u64,
) -> Result<(), SlateDBError>
    ensures ok { OnOk result (([], root.new) ∷ segments.new
        ≡ flushed_segments prefix.now view last_seq (([], root.old) ∷ segments.old)) }
    ensures root { OnErr result (root.new ≡ root.old) }
    ensures segments { OnErr result (segments.new ≡ segments.old) }
    ensures memory { IsOkUnless result SlateDBError.Memory }
{
    if prefix.is_empty() {
        root.add_l0(view, last_seq)
    } else {
        flush_segment(alloc, segments, prefix, view, last_seq)
    }
}

// Puts a flush in front of the tree of a segment other than the root.
fn flush_segment(
    alloc: Global,
    segments: &mut SegmentList,
    prefix: &Bytes,
    view: SsTableView,
    last_seq: u64,
) -> Result<(), SlateDBError>
    ensures ok { OnOk result
        (segments.new ≡ flushed_segments prefix.now view last_seq segments.old) }
    ensures err { OnErr result (segments.new ≡ segments.old) }
    ensures memory { IsOkUnless result SlateDBError.Memory }
{
    let wanted = prefix.as_slice();
    let place = segments_below(segments.as_slice(), wanted);
    let (is_there, mut tree) = tree_or_empty(alloc, segments.get(place), wanted)?;
    tree.add_l0(view, last_seq)?;
    let segment = (prefix.clone()?, tree);
    if is_there {
        segments.replace(place, segment)
    } else {
        segments.insert(place, segment)
    }
}

// Whether the segment has this prefix, and a copy of its tree if it does. Otherwise the tree is
// empty.
fn tree_or_empty(
    alloc: Global,
    segment: Option<&(Bytes, LsmTreeState)>,
    prefix: &[u8],
) -> Result<(bool, LsmTreeState), SlateDBError>
    ensures tree { IfOk result
        (λ found. found ≡ tree_or_empty prefix.now (option_copied segment.entry)) }
    ensures memory { IsOkUnless result SlateDBError.Memory }
{
    match segment {
        Some(segment) if prefix == segment.0.as_slice() => Ok((true, segment.1.clone()?)),
        _ => Ok((false, LsmTreeState::new(alloc))),
    }
}

// The number of segments at the front whose prefixes are below this one.
fn segments_below(segments: &[(Bytes, LsmTreeState)], prefix: &[u8]) -> u64
    ensures { result ≡ prefix_len (λ s. is_lt (key_cmp s.0 prefix.now)) segments.now }
{
    prefixes_below(segments, prefix) as u64
}

fn prefixes_below(segments: &[(Bytes, LsmTreeState)], prefix: &[u8]) -> usize
    ensures { result ≡ length (take_while (λ s. is_lt (key_cmp s.0 prefix.now)) segments.now) }
{
    segments
        .iter()
        .take_while(|s| s.0.as_slice().cmp(prefix).is_lt())
        .count()
}

/// A manifest, with the epoch of the coordinator that may put it.
#[derive(Clone, Debug, Drop, PartialEq, Eq)]
pub struct Manifest {
    pub compactor_epoch: u64,
    pub core: ManifestCore,
}

impl Manifest {
    /// A copy, which shares the lists of the trees.
    pub fn clone(&self) -> Result<Manifest, SlateDBError>
        ensures copy { IfOk result (λ copy. copy ≡ self.now) }
        ensures memory { IsOkUnless result SlateDBError.Memory }
    {
        Ok(Clone::clone(self)?)
    }
}

/// A manifest with its version. Each put raises the version by one.
#[derive(Clone, Debug, Drop, PartialEq, Eq)]
pub struct VersionedManifest {
    pub id: u64,
    pub manifest: Manifest,
}

impl VersionedManifest {
    /// The version of the manifest.
    pub fn id(&self) -> u64
        ensures { result ≡ self.now.id }
    {
        self.id
    }

    pub fn core(&self) -> &ManifestCore
        ensures { result.now ≡ self.now.manifest.core }
    {
        &self.manifest.core
    }

    pub fn compactor_epoch(&self) -> u64
        ensures { result ≡ self.now.manifest.compactor_epoch }
    {
        self.manifest.compactor_epoch
    }

    /// A copy, which shares the lists of the trees.
    pub fn clone(&self) -> Result<VersionedManifest, SlateDBError>
        ensures copy { IfOk result (λ copy. copy ≡ self.now) }
        ensures memory { IsOkUnless result SlateDBError.Memory }
    {
        Ok(Clone::clone(self)?)
    }
}
