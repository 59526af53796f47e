//! Tests of the rules for jobs.

ghost use Rattle.std.specs.Prelude.{◌≡◌, ◌==◌, ◌++◌, ◌||◌, [], ◌∷◌, map, nat_lt, IfOk, OnOk};
ghost use Rattle.std.specs.List.{list_all, list_any};
ghost use Rattle.fleet_model.specs.Work.Gates.{destination_fits, reserves_nodes};
ghost use Rattle.fleet_model.specs.Jobs.{contains};
ghost use Rattle.fleet_model.specs.Sources.{all_run_ids, is_lowest_or_above, run_ids};
ghost use Rattle.fleet_tree.specs.Trees.{RunFlushes, trees_of, trees_with_prefix};
ghost use Rattle.fleet_jobs.specs.Jobs.{job_of, jobs_of};
ghost use Rattle.fleet_jobs.specs.Places.{held_nodes, may_drop, may_merge, nodes_at, sources_stand};
ghost use Rattle.fleet_jobs.specs.Sources.{name_of};

use crate::places::{is_whole_stretch, lowest_run, names_older, tree_nodes};
use crate::{Compaction, CompactionSpec, CompactionStatus, NodeSet, SourceId};
use bytes::Bytes;
use fleet_rows::Ulid;
use fleet_tree::{LsmTreeState, ManifestCore};
use std::alloc::{AllocError, Global};

/// Whether the sources of a job stand in the tree of its segment, so that the job may be finished.
pub fn sources_stand(
    alloc: Global,
    spec: &CompactionSpec,
    core: &ManifestCore,
) -> Result<bool, AllocError>
    ensures { IfOk result (λ stand. stand ≡ sources_stand spec.now core.now) }
{
    let nodes = nodes_at(alloc, spec.segment().as_slice(), core)?;
    match spec.destination() {
        Some(run) => Ok(may_merge(&nodes, spec.sources(), run)),
        None => may_drop(alloc, &nodes, spec.sources()),
    }
}

/// The nodes of the tree that a segment has, newest first. Without a tree there are none.
pub fn nodes_at(
    alloc: Global,
    segment: &[u8],
    core: &ManifestCore,
) -> Result<Vec<SourceId>, AllocError>
    ensures { IfOk result (λ nodes. map name_of nodes.items ≡ nodes_at segment.now core.now) }
{
    match core.tree_for_segment(segment) {
        Some(tree) => tree_nodes(alloc, tree),
        None => Ok(Vec::new(alloc)),
    }
}

fn may_merge(nodes: &[SourceId], sources: &[SourceId], run: u32) -> bool
    ensures { result ≡ may_merge (map name_of nodes.now) (map name_of sources.now) run }
{
    !sources.is_empty()
        && is_whole_stretch(sources, nodes)
        && is_lowest_or_above(run, sources, nodes)
}

fn may_drop(alloc: Global, nodes: &[SourceId], sources: &[SourceId]) -> Result<bool, AllocError>
    ensures { IfOk result
        (λ may. may ≡ may_drop (map name_of nodes.now) (map name_of sources.now)) }
{
    let there = NodeSet::of_nodes(alloc, nodes)?;
    let dropped = NodeSet::of_nodes(alloc, sources)?;
    Ok(there.contains_all(sources) && names_older(&dropped, nodes))
}

/// Whether the run is the lowest run among the sources or, if no run is a source, above all runs
/// among the nodes.
pub fn is_lowest_or_above(run: u32, sources: &[SourceId], nodes: &[SourceId]) -> bool
    ensures { result ≡ is_lowest_or_above run
        (run_ids (map name_of sources.now)) (run_ids (map name_of nodes.now)) }
{
    match lowest_run(sources) {
        Some(lowest) => lowest == run,
        None => is_above(run, nodes),
    }
}

// Whether the run is above all runs among the nodes.
fn is_above(run: u32, nodes: &[SourceId]) -> bool
    ensures { result
        ≡ list_all
        (λ node. list_all (λ id. nat_lt id run) (run_ids (name_of node ∷ []))) nodes.now }
{
    nodes.iter().all(|node| is_above_node(run, node))
}

fn is_above_node(run: u32, node: &SourceId) -> bool
    ensures { result ≡ list_all (λ id. nat_lt id run) (run_ids (name_of node.now ∷ [])) }
{
    match node {
        SourceId::SortedRun(id) => *id < run,
        SourceId::SstView(_) => true,
    }
}

/// Whether a destination fits the sources. A drain has none, and fits. The destination must not be
/// 4,294,967,295. It must be the lowest source run or, if no run is a source, above all runs of all
/// trees.
pub fn destination_fits(core: &ManifestCore, sources: &[SourceId], destination: Option<u32>) -> bool
    ensures { (flushes : RunFlushes) → result
        ≡ destination_fits (trees_of flushes core.now) (map name_of sources.now) destination }
{
    let Some(run) = destination else {
        return true;
    };
    run != u32::MAX && is_lowest_or_above_all(core, sources, run)
}

fn is_lowest_or_above_all(core: &ManifestCore, sources: &[SourceId], run: u32) -> bool
    ensures { (flushes : RunFlushes) → result ≡ is_lowest_or_above run
        (run_ids (map name_of sources.now)) (all_run_ids (trees_of flushes core.now)) }
{
    match lowest_run(sources) {
        Some(lowest) => lowest == run,
        None => is_above_all(core, run),
    }
}

// Whether the run is above all runs of all trees.
fn is_above_all(core: &ManifestCore, run: u32) -> bool
    ensures { result ≡ list_all
        (λ s. list_all (λ other. nat_lt other.id run) s.1.compacted) (trees_with_prefix core.now) }
{
    is_above_tree(&core.tree, run) && is_above_segments(core.segments.as_slice(), run)
}

fn is_above_segments(segments: &[(Bytes, LsmTreeState)], run: u32) -> bool
    ensures { result ≡ list_all
        (λ s. list_all (λ other. nat_lt other.id run) s.1.compacted) segments.now }
{
    segments
        .iter()
        .all(|segment| is_above_tree(&segment.1, run))
}

fn is_above_tree(tree: &LsmTreeState, run: u32) -> bool
    ensures { result ≡ list_all (λ other. nat_lt other.id run) tree.now.compacted }
{
    tree.compacted.are_below(run)
}

/// The nodes of the jobs that hold nodes: their destinations and their sources. A Scheduled,
/// Running or Compacted job holds its nodes, and so does a job whose id is in the list.
pub fn held_nodes(alloc: Global, jobs: &[Compaction], lost: &[Ulid]) -> Result<NodeSet, AllocError>
    ensures { IfOk result (λ nodes. nodes ≡ held_nodes (jobs_of jobs.now) lost.now) }
{
    let mut nodes = NodeSet::new(alloc);
    'jobs: for job in jobs {
        add_held(&mut nodes, job, lost)?;
    }
    Ok(nodes)
}

// Adds the nodes of the job, if it holds them.
fn add_held(nodes: &mut NodeSet, job: &Compaction, lost: &[Ulid]) -> Result<(), AllocError>
    ensures { OnOk result
        (nodes.new ≡ nodes.old ++ held_nodes (job_of job.now ∷ []) lost.now) }
{
    if holds(job, lost) {
        nodes.add_nodes_of(job.spec())?;
    }
    Ok(())
}

fn holds(job: &Compaction, lost: &[Ulid]) -> bool
    ensures { result ≡ (reserves_nodes (job_of job.now) || contains lost.now job.now.id) }
{
    reserves_nodes(job) || contains(lost, job.id())
}

/// Whether the job holds its sources and its destination: a Scheduled, Running or Compacted one
/// does.
pub fn reserves_nodes(job: &Compaction) -> bool
    ensures { result ≡ reserves_nodes (job_of job.now) }
{
    match job.status() {
        CompactionStatus::Scheduled | CompactionStatus::Running | CompactionStatus::Compacted => {
            true
        }
        CompactionStatus::Submitted | CompactionStatus::Completed | CompactionStatus::Failed => {
            false
        }
    }
}

fn contains(ids: &[Ulid], id: Ulid) -> bool
    ensures { result ≡ contains ids.now id }
{
    has(ids, id)
}

fn has(ids: &[Ulid], id: Ulid) -> bool
    ensures { result ≡ list_any (λ other. other == id) ids.now }
{
    ids.iter().any(|other| *other == id)
}
