//! A manifest after a job is finished.

ghost use Rattle.std.specs.Prelude.{◌≡◌, ◌==◌, ◌+◌, ◌≤◌, ◌<◌, ◌++◌, ◌∷◌, [], false, true, bytes_eq, filter, find, length, map, nat_lt, not, slice_get, slice_set, take_while, IfOk, IfSome, IsOkUnless, IsTrue, OnErr, OnOk};
ghost use Rattle.std.specs.List.{list_any};
ghost use Rattle.std.specs.Option.{option_copied};
ghost use Rattle.fleet_model.specs.Nodes.{L0};
ghost use Rattle.fleet_tree.specs.Changes.{changed_tree};
ghost use Rattle.fleet_jobs.specs.Specs.{sources_of};
ghost use Rattle.fleet_book.specs.Exchanges.{IsLone, is_absent, is_flush};
ghost use Rattle.fleet_book.specs.Finishes.{core_after, finished_tree, horizon_by, is_named, kept_runs, kept_views, mark_after, put_run, segment_after, tree_after, with_output};

use crate::exchange::{behind, exchanged_part, is_flush};
use crate::sources::Sources;
use bytes::Bytes;
use fleet_jobs::{Compaction, CompactionSpec, CompactionStatus, SourceId};
use fleet_rows::{SlateDBError, Ulid};
use fleet_tree::{
    FlushList, LsmTreeState, ManifestCore, RunList, Runs, SegmentList, SortedRun, SsTableView,
    TreeChange,
};
use std::alloc::{AllocError, Global};

/// Finishes a job, which made this run unless it was a drain. If out of memory, nothing changes.
///
/// If one tree alone has the job's segment, the ids of its runs fall before and after, and the job
/// names its flushes first and then its runs as they stand, one after the other, these are exchanged
/// in its list, as `RunList::splice` does it. Else its list of runs is made anew.
pub(crate) fn finish_core(
    alloc: Global,
    job: &Compaction,
    output: Option<&SortedRun>,
    core: &mut ManifestCore,
) -> Result<(), SlateDBError>
    ensures ok { OnOk result
        (core.new ≡ core_after job.now (option_copied output.entry) core.old) }
    ensures err { OnErr result (core.new ≡ core.old) }
    ensures memory { IsOkUnless result SlateDBError.Memory }
{
    let horizon = horizon_by(job, core);
    finish_trees(
        alloc,
        job.spec(),
        output,
        &mut core.tree,
        &mut core.segments,
    )?;
    core.horizon = horizon;
    Ok(())
}

// A job that joins its sources raises the horizon to the cut that it kept, or to the floor.
fn horizon_by(job: &Compaction, core: &ManifestCore) -> u64
    ensures { result ≡ horizon_by job.now core.now }
{
    if job.spec().is_drain() || job.status() != CompactionStatus::Compacted {
        return core.horizon;
    }
    match job.cut() {
        Some(cut) => core.horizon.max(cut),
        None => core.horizon.max(core.recent_snapshot_min_seq),
    }
}

// Finishes a job in the tree of its segment.
fn finish_trees(
    alloc: Global,
    spec: &CompactionSpec,
    output: Option<&SortedRun>,
    root: &mut LsmTreeState,
    segments: &mut SegmentList,
) -> Result<(), SlateDBError>
    ensures root { OnOk result
        (root.new ≡ tree_after spec.now (option_copied output.entry) [] root.old) }
    ensures segments { OnOk result (segments.new
        ≡ map (segment_after spec.now (option_copied output.entry)) segments.old) }
    ensures root_err { OnErr result (root.new ≡ root.old) }
    ensures segments_err { OnErr result (segments.new ≡ segments.old) }
    ensures memory { IsOkUnless result SlateDBError.Memory }
{
    let prefix = spec.segment();
    if is_root_alone(prefix.as_slice(), segments.as_slice()) {
        return finish_tree(alloc, spec.sources(), output, root);
    }
    if let Some(place) = lone_segment(prefix.as_slice(), segments.as_slice()) {
        return finish_segment(alloc, spec, output, place, segments);
    }
    copy_trees(alloc, spec, output, root, segments)
}

// Finishes a job in copies of all trees with the prefix of its segment.
fn copy_trees(
    alloc: Global,
    spec: &CompactionSpec,
    output: Option<&SortedRun>,
    root: &mut LsmTreeState,
    segments: &mut SegmentList,
) -> Result<(), SlateDBError>
    ensures root { OnOk result
        (root.new ≡ tree_after spec.now (option_copied output.entry) [] root.old) }
    ensures segments { OnOk result (segments.new
        ≡ map (segment_after spec.now (option_copied output.entry)) segments.old) }
    ensures root_err { OnErr result (root.new ≡ root.old) }
    ensures segments_err { OnErr result (segments.new ≡ segments.old) }
    ensures memory { IsOkUnless result SlateDBError.Memory }
{
    let after = segments_after(alloc, spec, output, segments.as_slice())?;
    let listed = SegmentList::from_vec(alloc, after)?;
    *root = tree_after(alloc, spec, output, &[], root)?;
    *segments = listed;
    Ok(())
}

// Whether the root has this prefix, and no other segment has it.
fn is_root_alone(prefix: &[u8], segments: &[(Bytes, LsmTreeState)]) -> bool
    ensures { IsTrue result → (prefix.now ≡ []) × (is_absent prefix.now segments.now ≡ true) }
{
    prefix.is_empty() && is_absent(prefix, segments)
}

// The place of the segment with this prefix, if it is the only one, and not the root.
fn lone_segment(prefix: &[u8], segments: &[(Bytes, LsmTreeState)]) -> Option<usize>
    ensures lone { IfSome result (λ place. IsLone place prefix.now segments.now) }
    ensures not_root { IfSome result (λ _. bytes_eq prefix.now [] ≡ false) }
    ensures within { IfSome result (λ place. place < length segments.now) }
{
    let place = first_with(prefix, segments);
    if prefix.is_empty()
        || place >= segments.len()
        || !is_absent(prefix, behind(segments, place + 1))
    {
        return None;
    }
    Some(place)
}

// The number of segments before the first one with this prefix.
fn first_with(prefix: &[u8], segments: &[(Bytes, LsmTreeState)]) -> usize
    ensures { result
        ≡ length (take_while (λ s. not (bytes_eq prefix.now s.0)) segments.now) }
{
    segments
        .iter()
        .take_while(|s| prefix != s.0.as_slice())
        .count()
}

// Whether no segment has this prefix.
fn is_absent(prefix: &[u8], segments: &[(Bytes, LsmTreeState)]) -> bool
    ensures { result ≡ is_absent prefix.now segments.now }
{
    !is_there(prefix, segments)
}

fn is_there(prefix: &[u8], segments: &[(Bytes, LsmTreeState)]) -> bool
    ensures { result ≡ list_any (λ s. bytes_eq prefix.now s.0) segments.now }
{
    segments.iter().any(|s| prefix == s.0.as_slice())
}

// Finishes a job in its tree.
fn finish_tree(
    alloc: Global,
    sources: &[SourceId],
    output: Option<&SortedRun>,
    tree: &mut LsmTreeState,
) -> Result<(), SlateDBError>
    ensures ok { OnOk result (tree.new
        ≡ finished_tree sources.now (option_copied output.entry) tree.old) }
    ensures err { OnErr result (tree.new ≡ tree.old) }
    ensures memory { IsOkUnless result SlateDBError.Memory }
{
    match tree_change(alloc, sources, output, tree)? {
        Some(change) => tree.apply(change),
        None => {
            *tree = finished_tree(alloc, sources, output, tree)?;
            Ok(())
        }
    }
}

// Finishes a job in the tree of the segment at this place.
fn finish_segment(
    alloc: Global,
    spec: &CompactionSpec,
    output: Option<&SortedRun>,
    place: usize,
    segments: &mut SegmentList,
) -> Result<(), SlateDBError>
    requires { place < length segments.old }
    ensures ok { OnOk result (IfSome (slice_get segments.old place) (λ s. segments.new
        ≡ slice_set segments.old place
        (s.0, finished_tree (sources_of spec.now) (option_copied output.entry) s.1))) }
    ensures err { OnErr result (segments.new ≡ segments.old) }
    ensures memory { IsOkUnless result SlateDBError.Memory }
{
    let segment = &segments.as_slice()[place];
    match tree_change(alloc, spec.sources(), output, &segment.1)? {
        Some(change) => segments.change_tree(place as u64, change),
        None => {
            let tree = finished_tree(alloc, spec.sources(), output, &segment.1)?;
            let prefix = segment.0.clone()?;
            segments.replace(place as u64, (prefix, tree))
        }
    }
}

// How the tree changes if the runs that are sources stand one after the other and the output fits
// in their place. Otherwise None.
fn tree_change(
    alloc: Global,
    sources: &[SourceId],
    output: Option<&SortedRun>,
    tree: &LsmTreeState,
) -> Result<Option<TreeChange>, SlateDBError>
    ensures within { IfOk result (λ found. IfSome found
        (λ change. change.place + change.count ≤ length tree.now.compacted)) }
    ensures tree { IfOk result (λ found. IfSome found (λ change. changed_tree change tree.now
        ≡ finished_tree sources.now (option_copied output.entry) tree.now)) }
    ensures memory { IsOkUnless result SlateDBError.Memory }
{
    let Some(part) = exchanged_part(sources, output, &tree.compacted) else {
        return Ok(None);
    };
    let (l0, mark) = flushes_after(alloc, sources, tree)?;
    Ok(Some(TreeChange {
        l0,
        last_compacted_l0_sst_view_id: mark,
        place: part.place,
        count: part.count,
        run: copied(output)?,
    }))
}

// A copy of the run, if one is given.
fn copied(run: Option<&SortedRun>) -> Result<Option<SortedRun>, AllocError>
    ensures { IfOk result (λ copy. copy ≡ option_copied run.entry) }
{
    match run {
        Some(run) => Ok(Some(Clone::clone(run)?)),
        None => Ok(None),
    }
}

// The flushes that are no sources, and the watermark afterwards. If no source is a flush, the list
// of the flushes is shared.
fn flushes_after(
    alloc: Global,
    sources: &[SourceId],
    tree: &LsmTreeState,
) -> Result<(FlushList, Option<Ulid>), SlateDBError>
    ensures views { IfOk result (λ after. after.0 ≡ kept_views sources.now tree.now.l0) }
    ensures mark { IfOk result (λ after. after.1 ≡ mark_after sources.now tree.now) }
    ensures memory { IsOkUnless result SlateDBError.Memory }
{
    if !has_flush(sources) {
        return Ok((tree.l0.clone()?, tree.last_compacted_l0_sst_view_id));
    }
    let named = Sources::new(alloc, sources)?;
    let views = kept_views(alloc, &named, &tree.l0)?;
    Ok((FlushList::from_vec(alloc, views)?, mark_after(&named, tree)))
}

// Whether a source is a flush.
fn has_flush(sources: &[SourceId]) -> bool
    ensures { result ≡ list_any is_flush sources.now }
{
    sources.iter().any(|source| is_flush(source))
}

fn segments_after(
    alloc: Global,
    spec: &CompactionSpec,
    output: Option<&SortedRun>,
    segments: &[(Bytes, LsmTreeState)],
) -> Result<Vec<(Bytes, LsmTreeState)>, SlateDBError>
    ensures segments { IfOk result (λ after. after.items
        ≡ map (segment_after spec.now (option_copied output.entry)) segments.now) }
    ensures memory { IsOkUnless result SlateDBError.Memory }
{
    let mut after = Vec::new(alloc);
    'segments: for segment in segments {
        after.push(segment_after(alloc, spec, output, segment)?)?;
    }
    Ok(after)
}

fn segment_after(
    alloc: Global,
    spec: &CompactionSpec,
    output: Option<&SortedRun>,
    segment: &(Bytes, LsmTreeState),
) -> Result<(Bytes, LsmTreeState), SlateDBError>
    ensures segment { IfOk result
        (λ after. after ≡ segment_after spec.now (option_copied output.entry) segment.now) }
    ensures memory { IsOkUnless result SlateDBError.Memory }
{
    let tree = tree_after(alloc, spec, output, segment.0.as_slice(), &segment.1)?;
    Ok((segment.0.clone()?, tree))
}

// The tree of the segment with this prefix. Only the tree of the job's segment changes.
fn tree_after(
    alloc: Global,
    spec: &CompactionSpec,
    output: Option<&SortedRun>,
    prefix: &[u8],
    tree: &LsmTreeState,
) -> Result<LsmTreeState, SlateDBError>
    ensures tree { IfOk result
        (λ after. after ≡ tree_after spec.now (option_copied output.entry) prefix.now tree.now) }
    ensures memory { IsOkUnless result SlateDBError.Memory }
{
    if spec.segment().as_slice() == prefix {
        finished_tree(alloc, spec.sources(), output, tree)
    } else {
        tree.clone()
    }
}

// The tree without the sources, and with the run that was made of them.
fn finished_tree(
    alloc: Global,
    sources: &[SourceId],
    output: Option<&SortedRun>,
    tree: &LsmTreeState,
) -> Result<LsmTreeState, SlateDBError>
    ensures tree { IfOk result (λ finished. finished
        ≡ finished_tree sources.now (option_copied output.entry) tree.now) }
    ensures memory { IsOkUnless result SlateDBError.Memory }
{
    let (l0, mark) = flushes_after(alloc, sources, tree)?;
    let named = Sources::new(alloc, sources)?;
    let mut runs = kept_runs(alloc, &named, tree.compacted.iter())?;
    add_output(&mut runs, output)?;
    Ok(LsmTreeState {
        l0,
        compacted: RunList::from_vec(alloc, runs)?,
        last_compacted_l0_sst_view_id: mark,
        last_seq: tree.last_seq,
    })
}

// The newest flush among the sources, or the old watermark if no source is a flush of the tree.
fn mark_after(sources: &Sources<'_>, tree: &LsmTreeState) -> Option<Ulid>
    ensures { result ≡ mark_after sources.now tree.now }
{
    match newest_named(sources, &tree.l0) {
        Some(view) => Some(view.id),
        None => tree.last_compacted_l0_sst_view_id,
    }
}

fn newest_named<'a>(sources: &Sources<'_>, views: &'a FlushList) -> Option<&'a SsTableView>
    ensures { option_copied result ≡ find (λ view. is_named sources.now (L0 view.id)) views.now }
{
    'views: for view in views.iter() {
        if sources.has_view(view.id) {
            return Some(view);
        }
    }
    None
}

// Copies of the flushes that are no sources.
fn kept_views(
    alloc: Global,
    sources: &Sources<'_>,
    views: &FlushList,
) -> Result<Vec<SsTableView>, AllocError>
    ensures { IfOk result (λ kept. kept.items ≡ kept_views sources.now views.now) }
{
    let mut kept = Vec::new(alloc);
    'views: for view in views.iter() {
        keep_view(&mut kept, sources, view)?;
    }
    Ok(kept)
}

// Adds a copy of the flush, unless it is a source.
fn keep_view(
    kept: &mut Vec<SsTableView>,
    sources: &Sources<'_>,
    view: &SsTableView,
) -> Result<(), AllocError>
    ensures { OnOk result
        (kept.new.items ≡ kept.old.items ++ kept_views sources.now (view.now ∷ [])) }
{
    if !sources.has_view(view.id) {
        kept.push(Clone::clone(view)?)?;
    }
    Ok(())
}

// Copies of the runs that are no sources.
fn kept_runs(
    alloc: Global,
    sources: &Sources<'_>,
    runs: Runs<'_>,
) -> Result<Vec<SortedRun>, AllocError>
    ensures { IfOk result (λ kept. kept.items ≡ kept_runs sources.now runs.entry) }
{
    let mut kept = Vec::new(alloc);
    'runs: for run in runs {
        keep_run(&mut kept, sources, run)?;
    }
    Ok(kept)
}

// Adds a copy of the run, unless it is a source.
fn keep_run(
    kept: &mut Vec<SortedRun>,
    sources: &Sources<'_>,
    run: &SortedRun,
) -> Result<(), AllocError>
    ensures { OnOk result
        (kept.new.items ≡ kept.old.items ++ kept_runs sources.now (run.now ∷ [])) }
{
    if !sources.has_run(run.id) {
        kept.push(Clone::clone(run)?)?;
    }
    Ok(())
}

// Adds a copy of the run, if one is given, before the first run with a lower id.
fn add_output(runs: &mut Vec<SortedRun>, output: Option<&SortedRun>) -> Result<(), AllocError>
    ensures { OnOk result
        (runs.new.items ≡ with_output (option_copied output.entry) runs.old.items) }
{
    match output {
        Some(run) => put_run(runs, Clone::clone(run)?),
        None => Ok(()),
    }
}

fn put_run(runs: &mut Vec<SortedRun>, run: SortedRun) -> Result<(), AllocError>
    ensures { OnOk result (runs.new.items ≡ put_run run runs.old.items) }
{
    let place = runs_from(runs, run.id);
    Ok(runs.insert(place, run)?)
}

// The number of runs at the front whose ids are not below this one.
fn runs_from(runs: &[SortedRun], id: u32) -> usize
    ensures { result ≡ length (take_while (λ run. not (nat_lt run.id id)) runs.now) }
{
    runs.iter().take_while(|run| run.id >= id).count()
}
