//! Where the sources of a job are in its tree.

ghost use Rattle.std.specs.Prelude.{◌≡◌, count_by, is_some, map, nat_le, length, IfOk};
ghost use Rattle.std.specs.List.{list_all, list_any};
ghost use Rattle.fleet_model.specs.Nodes.{name_eq, names_contain};
ghost use Rattle.fleet_jobs.specs.Sources.{name_of, view_id_of};

use fleet_jobs::{NodeSet, SourceId, is_same};
use std::alloc::{AllocError, Global};

// Up to this many sources are looked for one by one. For more of them a map of the tree, or of its
// flushes, is made, which costs as much as some hundred looks.
const FEW: usize = 32;

/// Whether the sources are so few that each of them is looked for on its own.
pub(crate) fn are_few(sources: &[SourceId]) -> bool
    ensures { result ≡ nat_le (length sources.now) 32 }
{
    sources.len() <= FEW
}

/// Whether so few of the sources are flushes that each of these is looked for on its own.
pub(crate) fn has_few_flushes(sources: &[SourceId]) -> bool
    ensures { result
        ≡ nat_le (count_by (λ source. is_some (view_id_of source)) sources.now) 32 }
{
    let flushes = sources
        .iter()
        .filter(|source| source.maybe_unwrap_sst_view().is_some());
    flushes.count() <= FEW
}

/// Whether each source is among the nodes.
pub(crate) fn has_all(
    alloc: Global,
    nodes: &[SourceId],
    sources: &[SourceId],
) -> Result<bool, AllocError>
    ensures { IfOk result (λ has. has
        ≡ list_all (names_contain (map name_of nodes.now)) (map name_of sources.now)) }
{
    if are_few(sources) {
        return Ok(has_each(nodes, sources));
    }
    let there = NodeSet::of_nodes(alloc, nodes)?;
    Ok(there.contains_all(sources))
}

// The same, with a look at the nodes for each source.
fn has_each(nodes: &[SourceId], sources: &[SourceId]) -> bool
    ensures { result ≡ list_all (λ source.
        list_any (λ node. name_eq (name_of node) (name_of source)) nodes.now) sources.now }
{
    sources.iter().all(|source| has(nodes, *source))
}

fn has(nodes: &[SourceId], source: SourceId) -> bool
    ensures { result ≡ list_any (λ node. name_eq (name_of node) (name_of source)) nodes.now }
{
    nodes.iter().any(|node| is_same(node, source))
}
