//! Which jobs the size-tiered scheduler accepts.

ghost use Rattle.std.specs.Prelude.{◌≡◌, ◌&&◌, map, Some, IfOk, is_some};
ghost use Rattle.fleet_model.specs.Work.Gates.{is_nonempty};
ghost use Rattle.fleet_model.specs.Sources.{older_nodes};
ghost use Rattle.sched_model.specs.SizeTiered.{agree, lowest_run, tiered_validate};
ghost use Rattle.fleet_tree.specs.Trees.{RunFlushes};
ghost use Rattle.fleet_jobs.specs.Places.{nodes_in};
ghost use Rattle.fleet_jobs.specs.Sources.{name_of};
ghost use Rattle.fleet_jobs.specs.Specs.{destination_of, segment_of, sources_of, spec_of};
ghost use Rattle.fleet_sched.specs.Answers.{Validates};
ghost use Rattle.fleet_sched.specs.Stretches.{accepts, stands_in_tree, tree_found};
ghost use Rattle.fleet_sched.specs.Views.{view_of};

use fleet_book::CompactorStateView;
use fleet_jobs::{CompactionSpec, SourceId, is_run_stretch, is_stretch, lowest_run, tree_nodes};
use fleet_rows::SlateDBError;
use fleet_tree::LsmTreeState;
use std::alloc::{AllocError, Global};

/// Refuses the job with `InvalidCompaction` unless the size-tiered scheduler accepts it.
pub fn check(
    alloc: Global,
    state: &CompactorStateView,
    spec: &CompactionSpec,
) -> Result<(), SlateDBError>
    ensures { (flushes : RunFlushes)
        → Validates (tiered_validate (view_of flushes state.now) (spec_of spec.now)) result }
{
    if accepts(alloc, state, spec)? {
        Ok(())
    } else {
        Err(SlateDBError::InvalidCompaction)
    }
}

fn accepts(
    alloc: Global,
    state: &CompactorStateView,
    spec: &CompactionSpec,
) -> Result<bool, AllocError>
    ensures { IfOk result (λ accepted. accepted ≡ accepts (destination_of spec.now)
        (map name_of (sources_of spec.now)) (tree_found (segment_of spec.now) state.now)) }
{
    let Some(destination) = spec.destination() else {
        return Ok(true);
    };
    let core = state.manifest().core();
    let Some(tree) = core.tree_for_segment(spec.segment().as_slice()) else {
        return Ok(false);
    };
    stands_in_tree(alloc, spec.sources(), destination, tree)
}

// Whether the sources are in the tree one after the other, and may be joined into the destination.
fn stands_in_tree(
    alloc: Global,
    sources: &[SourceId],
    destination: u32,
    tree: &LsmTreeState,
) -> Result<bool, AllocError>
    ensures { IfOk result (λ stands. stands
        ≡ stands_in_tree (map name_of sources.now) (Some destination) tree.now) }
{
    Ok(stands_in(alloc, sources, tree)? && is_into_lowest(sources, destination))
}

// Whether there are sources, and they are in the tree one after the other.
fn stands_in(alloc: Global, sources: &[SourceId], tree: &LsmTreeState) -> Result<bool, AllocError>
    ensures { IfOk result (λ stands. stands ≡ (is_nonempty (map name_of sources.now)
        && is_some (older_nodes (map name_of sources.now) (nodes_in tree.now)))) }
{
    if sources.is_empty() {
        return Ok(false);
    }
    is_stretch_in(alloc, sources, tree)
}

// Whether the sources are in the tree one after the other. Most jobs join runs. If their sources
// are, no list of the tree's nodes is made.
fn is_stretch_in(
    alloc: Global,
    sources: &[SourceId],
    tree: &LsmTreeState,
) -> Result<bool, AllocError>
    ensures { IfOk result (λ stands. stands
        ≡ is_some (older_nodes (map name_of sources.now) (nodes_in tree.now))) }
{
    if is_run_stretch(sources, &tree.compacted) {
        return Ok(true);
    }
    let nodes = tree_nodes(alloc, tree)?;
    Ok(is_stretch(sources, nodes.as_slice()))
}

// Whether the destination is the lowest source run, or no run is a source.
fn is_into_lowest(sources: &[SourceId], destination: u32) -> bool
    ensures { result ≡ agree (lowest_run (map name_of sources.now)) (Some destination) }
{
    match lowest_run(sources) {
        Some(lowest) => lowest == destination,
        None => true,
    }
}
