//! The nodes of trees, and where sources are among them.

ghost use Rattle.std.specs.Prelude.{◌≡◌, ◌≤◌, ◌++◌, ◌||◌, [], ◌∷◌, drop, fold, is_some, length, map, not, option_map, IfOk, OnOk};
ghost use Rattle.std.specs.List.{list_all, list_any};
ghost use Rattle.std.specs.Option.{option_copied};
ghost use Rattle.fleet_model.specs.Work.Gates.{are_distinct, names_older};
ghost use Rattle.fleet_model.specs.Nodes.{L0, Run, is_l0, name_eq, names_contain};
ghost use Rattle.fleet_model.specs.Sources.{after_front, begins_with_run, older_nodes, reaches_oldest, run_ids};
ghost use Rattle.fleet_model.specs.Work.Scheduler.{lower};
ghost use Rattle.sched_model.specs.SizeTiered.{lowest_run};
ghost use Rattle.fleet_jobs.specs.Places.{nodes_in};
ghost use Rattle.fleet_jobs.specs.Sources.{name_of};

use crate::{NodeSet, SourceId};
use fleet_rows::Ulid;
use fleet_tree::{FlushList, LsmTreeState, Runs};
use std::alloc::{AllocError, Global};

/// The nodes of a tree, newest first: its flushes, and then its runs.
pub fn tree_nodes(alloc: Global, tree: &LsmTreeState) -> Result<Vec<SourceId>, AllocError>
    ensures { IfOk result (λ nodes. map name_of nodes.items ≡ nodes_in tree.now) }
{
    let mut nodes = Vec::new(alloc);
    add_flushes(&mut nodes, &tree.l0)?;
    add_runs(&mut nodes, tree.compacted.iter())?;
    Ok(nodes)
}

fn add_flushes(nodes: &mut Vec<SourceId>, views: &FlushList) -> Result<(), AllocError>
    ensures { OnOk result (map name_of nodes.new.items
        ≡ map name_of nodes.old.items ++ map (λ view. L0 view.id) views.now) }
{
    'views: for view in views.iter() {
        nodes.push(SourceId::SstView(view.id))?;
    }
    Ok(())
}

fn add_runs(nodes: &mut Vec<SourceId>, runs: Runs<'_>) -> Result<(), AllocError>
    ensures { OnOk result (map name_of nodes.new.items
        ≡ map name_of nodes.old.items ++ map (λ run. Run run.id) runs.entry) }
{
    'runs: for run in runs {
        nodes.push(SourceId::SortedRun(run.id))?;
    }
    Ok(())
}

/// Whether no node is named twice.
pub fn are_distinct(alloc: Global, nodes: &[SourceId]) -> Result<bool, AllocError>
    ensures { IfOk result (λ distinct. distinct ≡ are_distinct (map name_of nodes.now)) }
{
    let mut seen = NodeSet::new(alloc);
    'nodes: for node in nodes {
        if seen.contains(*node) {
            return Ok(false);
        }
        seen.add(*node)?;
    }
    Ok(true)
}

/// The nodes that are older than the sources, if the sources are among the nodes, one after the
/// other.
pub fn older_nodes<'a>(sources: &[SourceId], nodes: &'a [SourceId]) -> Option<&'a [SourceId]>
    ensures { option_map (λ older. map name_of older) (option_copied result)
        ≡ older_nodes (map name_of sources.now) (map name_of nodes.now) }
{
    let mut rest = nodes;
    'places: while !rest.is_empty() {
        let older = after_front(sources, rest);
        if older.is_some() {
            return older;
        }
        rest = &rest[1..];
    }
    after_front(sources, rest)
}

// The nodes that follow the sources, if the nodes begin with them.
fn after_front<'a>(sources: &[SourceId], nodes: &'a [SourceId]) -> Option<&'a [SourceId]>
    ensures { option_map (λ older. map name_of older) (option_copied result)
        ≡ after_front (map name_of sources.now) (map name_of nodes.now) }
{
    let mut rest = nodes;
    'sources: for source in sources {
        if rest.is_empty() || !is_same(source, rest[0]) {
            return None;
        }
        rest = &rest[1..];
    }
    Some(rest)
}

/// Whether the sources are among the nodes, one after the other.
pub fn is_stretch(sources: &[SourceId], nodes: &[SourceId]) -> bool
    ensures { result
        ≡ is_some (older_nodes (map name_of sources.now) (map name_of nodes.now)) }
{
    older_nodes(sources, nodes).is_some()
}

/// Whether the sources are among the nodes, one after the other, and reach the oldest flush if one
/// of them is a flush.
pub fn is_whole_stretch(sources: &[SourceId], nodes: &[SourceId]) -> bool
    ensures { result ≡ reaches_oldest (map name_of sources.now)
        (older_nodes (map name_of sources.now) (map name_of nodes.now)) }
{
    match older_nodes(sources, nodes) {
        Some(older) => !has_flush(sources) || begins_with_run(older),
        None => false,
    }
}

fn has_flush(nodes: &[SourceId]) -> bool
    ensures { result ≡ list_any (λ node. is_l0 (name_of node)) nodes.now }
{
    nodes.iter().any(|node| is_flush(node))
}

fn is_flush(node: &SourceId) -> bool
    ensures { result ≡ is_l0 (name_of node.now) }
{
    matches!(node, SourceId::SstView(_))
}

// Whether the nodes begin with a run. It is true if there are none.
fn begins_with_run(nodes: &[SourceId]) -> bool
    ensures { result ≡ begins_with_run (map name_of nodes.now) }
{
    match nodes.first() {
        Some(node) => !is_flush(node),
        None => true,
    }
}

/// Whether each flush that is older than a source is a source too.
pub fn names_older(sources: &NodeSet, nodes: &[SourceId]) -> bool
    ensures { result ≡ names_older sources.now (map name_of nodes.now) }
{
    let mut rest = nodes;
    'rest: while !rest.is_empty() {
        let node = rest[0];
        if is_flush(&node) && sources.contains(node) {
            return has_flushes(sources, after_first(rest));
        }
        rest = after_first(rest);
    }
    true
}

fn after_first(nodes: &[SourceId]) -> &[SourceId]
    requires { 1 ≤ length nodes.now }
    ensures { result.now ≡ drop 1 nodes.now }
{
    &nodes[1..]
}

// Whether each flush among the nodes is a source.
fn has_flushes(sources: &NodeSet, nodes: &[SourceId]) -> bool
    ensures { result ≡ list_all
        (λ node. not (is_l0 (name_of node)) || names_contain sources.now (name_of node)) nodes.now }
{
    nodes
        .iter()
        .all(|node| !is_flush(node) || sources.contains(*node))
}

/// The lowest run among the sources, if one is a run.
pub fn lowest_run(sources: &[SourceId]) -> Option<u32>
    ensures { result ≡ lowest_run (map name_of sources.now) }
{
    let mut lowest = None;
    'sources: for source in sources {
        lowest = lower_of(lowest, source);
    }
    lowest
}

fn lower_of(lowest: Option<u32>, source: &SourceId) -> Option<u32>
    ensures { result ≡ fold lower lowest (run_ids (name_of source.now ∷ [])) }
{
    match source.maybe_unwrap_sorted_run() {
        Some(id) => lower(lowest, id),
        None => lowest,
    }
}

fn lower(lowest: Option<u32>, id: u32) -> Option<u32>
    ensures { result ≡ lower lowest id }
{
    match lowest {
        Some(lowest) => Some(lowest.min(id)),
        None => Some(id),
    }
}

/// Whether both are one node.
pub fn is_same(node: &SourceId, other: SourceId) -> bool
    ensures { result ≡ name_eq (name_of node.now) (name_of other) }
{
    match other {
        SourceId::SortedRun(id) => is_run(node, id),
        SourceId::SstView(id) => is_view(node, id),
    }
}

fn is_run(node: &SourceId, id: u32) -> bool
    ensures { result ≡ name_eq (name_of node.now) (Run id) }
{
    match node {
        SourceId::SortedRun(run) => *run == id,
        SourceId::SstView(_) => false,
    }
}

fn is_view(node: &SourceId, id: Ulid) -> bool
    ensures { result ≡ name_eq (name_of node.now) (L0 id) }
{
    match node {
        SourceId::SortedRun(_) => false,
        SourceId::SstView(view) => *view == id,
    }
}
