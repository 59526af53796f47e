//! The sources of a job, as a manifest has them.

ghost use Rattle.std.specs.Prelude.{◌≡◌, ◌&&◌, ◌++◌, flat_map, map, IfOk, OnOk};
ghost use Rattle.std.specs.List.{list_all};
ghost use Rattle.std.specs.Option.{option_copied, option_to_list};
ghost use Rattle.fleet_model.specs.Work.Attempts.{is_last};
ghost use Rattle.fleet_model.specs.Jobs.{ids_eq};
ghost use Rattle.fleet_model.specs.Nodes.{names_contain};
ghost use Rattle.fleet_model.specs.Sources.{run_ids};
ghost use Rattle.fleet_jobs.specs.Laws.{view_tables};
ghost use Rattle.fleet_jobs.specs.Sources.{name_of};
ghost use Rattle.fleet_claim.specs.Sources.{is_last_after, is_last_in, run_views, source_views, views_at};

use fleet_jobs::{CompactionSpec, NodeSet, SourceId};
use fleet_rows::{Copies, Ulid};
use fleet_tree::{LsmTreeState, ManifestCore, SortedRun, SsTableView};
use std::alloc::{AllocError, Global};

// Adds a copy of the view, if there is one.
fn add_view(views: &mut Vec<SsTableView>, view: Option<&SsTableView>) -> Result<(), AllocError>
    ensures { OnOk result
        (views.new.items ≡ views.old.items ++ option_to_list (option_copied view.entry)) }
{
    if let Some(view) = view {
        views.push(view.copied()?)?;
    }
    Ok(())
}

// Adds copies of these views.
fn add_views(views: &mut Vec<SsTableView>, more: &[SsTableView]) -> Result<(), AllocError>
    ensures { OnOk result (views.new.items ≡ views.old.items ++ more.now) }
{
    'more: for view in more {
        views.push(view.copied()?)?;
    }
    Ok(())
}

// Adds copies of the run's views, if there is a run.
fn add_run(views: &mut Vec<SsTableView>, run: Option<&SortedRun>) -> Result<(), AllocError>
    ensures { OnOk result
        (views.new.items ≡ views.old.items ++ run_views (option_copied run.entry)) }
{
    match run {
        Some(run) => add_views(views, run.sst_views()),
        None => Ok(()),
    }
}

// Adds copies of the views that the source has in the tree.
fn add_source(
    views: &mut Vec<SsTableView>,
    tree: &LsmTreeState,
    source: &SourceId,
) -> Result<(), AllocError>
    ensures { OnOk result (views.new.items ≡ views.old.items ++ views_at tree.now source.now) }
{
    match source {
        SourceId::SstView(id) => add_view(views, tree.l0.with_id(*id)),
        SourceId::SortedRun(id) => add_run(views, tree.compacted.with_id(*id)),
    }
}

// Copies of the views that the sources have in the tree, source by source.
fn views_in(
    alloc: Global,
    tree: &LsmTreeState,
    sources: &[SourceId],
) -> Result<Vec<SsTableView>, AllocError>
    ensures { IfOk result (λ views. views.items ≡ flat_map (views_at tree.now) sources.now) }
{
    let mut views = Vec::new(alloc);
    'sources: for source in sources {
        add_source(&mut views, tree, source)?;
    }
    Ok(views)
}

/// Copies of the views that the job's sources have in the tree of its segment, source by source.
pub(crate) fn source_views(
    alloc: Global,
    spec: &CompactionSpec,
    core: &ManifestCore,
) -> Result<Vec<SsTableView>, AllocError>
    ensures { IfOk result (λ views. views.items ≡ source_views spec.now core.now) }
{
    match core.tree_for_segment(spec.segment().as_slice()) {
        Some(tree) => views_in(alloc, tree, spec.sources()),
        None => Ok(Vec::new(alloc)),
    }
}

// The ids of the tables of these views.
fn tables_of(alloc: Global, views: &[SsTableView]) -> Result<Vec<Ulid>, AllocError>
    ensures { IfOk result (λ tables. tables.items ≡ view_tables views.now) }
{
    let mut tables = Vec::with_capacity(alloc, views.len())?;
    'views: for view in views {
        tables.push(view.sst.id)?;
    }
    Ok(tables)
}

// Whether these are the same ids in the same order.
fn are_same(ids: &[Ulid], others: &[Ulid]) -> bool
    ensures { result ≡ ids_eq ids.now others.now }
{
    ids == others
}

// Whether each source is among the nodes.
fn has_sources(alloc: Global, nodes: &[SourceId], sources: &[SourceId]) -> Result<bool, AllocError>
    ensures { IfOk result (λ has. has
        ≡ list_all (names_contain (map name_of nodes.now)) (map name_of sources.now)) }
{
    Ok(NodeSet::of_nodes(alloc, nodes)?.contains_all(sources))
}

/// Whether each source is among the nodes, and the views are of exactly these tables.
pub(crate) fn are_there(
    alloc: Global,
    nodes: &[SourceId],
    sources: &[SourceId],
    views: &[SsTableView],
    tables: &[Ulid],
) -> Result<bool, AllocError>
    ensures { IfOk result (λ there. there
        ≡ (list_all (names_contain (map name_of nodes.now)) (map name_of sources.now)
        && ids_eq (view_tables views.now) tables.now)) }
{
    let found = has_sources(alloc, nodes, sources)?;
    let found_tables = tables_of(alloc, views)?;
    Ok(found && are_same(&found_tables, tables))
}

// Whether the run is the last one, given whether it is the last one of the nodes before.
fn is_last_after(last: bool, run: u32, node: &SourceId) -> bool
    ensures { result ≡ is_last_after last run (name_of node.now) }
{
    match node {
        SourceId::SortedRun(id) => *id == run,
        SourceId::SstView(_) => last,
    }
}

// Whether the run is the last one among the nodes, or no node is a run.
fn is_last(run: u32, nodes: &[SourceId]) -> bool
    ensures { result ≡ is_last run (run_ids (map name_of nodes.now)) }
{
    let mut last = true;
    'nodes: for node in nodes {
        last = is_last_after(last, run, node);
    }
    last
}

/// Whether a job with this destination makes the last run of a tree with these nodes.
pub(crate) fn is_last_run(destination: Option<u32>, nodes: &[SourceId]) -> bool
    ensures { result ≡ is_last_in destination (map name_of nodes.now) }
{
    match destination {
        Some(run) => is_last(run, nodes),
        None => false,
    }
}
