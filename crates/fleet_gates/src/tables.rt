//! The tables of the sources of a job.

ghost use Rattle.std.specs.Option.{option_or};
ghost use Rattle.std.specs.Prelude.{◌≡◌, ◌==◌, ◌++◌, ℕ, map, option_map, IfOk, None, OnOk, Some, if◌then◌else◌};
ghost use Rattle.std.specs.BTreeMap.{get};
ghost use Rattle.std.specs.Option.{option_copied, option_to_list};
ghost use Rattle.std.specs.Ordering.{nat_cmp};
ghost use Rattle.fleet_model.specs.Trees.{tables_now};
ghost use Rattle.fleet_tree.specs.Trees.{RunFlushes, trees_of};
ghost use Rattle.fleet_jobs.specs.Laws.{view_tables};
ghost use Rattle.fleet_jobs.specs.Specs.{spec_of};
ghost use Rattle.fleet_jobs.specs.Taken.{run_with};
ghost use Rattle.fleet_gates.specs.Tables.{flush_table, tables_if_there, tables_in, tables_of};

use crate::places::has_few_flushes;
use fleet_jobs::{CompactionSpec, SourceId};
use fleet_rows::Ulid;
use fleet_tree::{FlushList, LsmTreeState, ManifestCore, SortedRun, SsTableView};
use std::alloc::{AllocError, Global};
use std::collections::BTreeMap;

/// The ids of the tables that the sources of a job have now, source by source. A source that the
/// tree of the job's segment does not have has none. A job keeps these ids when it is opened.
pub fn source_tables(
    alloc: Global,
    core: &ManifestCore,
    spec: &CompactionSpec,
) -> Result<Vec<Ulid>, AllocError>
    ensures { (flushes : RunFlushes) → IfOk result (λ tables. tables.items
        ≡ tables_now (trees_of flushes core.now) (spec_of spec.now)) }
{
    match core.tree_for_segment(spec.segment().as_slice()) {
        Some(tree) => tables_in(alloc, tree, spec.sources()),
        None => Ok(Vec::new(alloc)),
    }
}

// The ids of the tables that the sources have in the tree. A run is found by its id, and so are a
// few flushes, one by one.
fn tables_in(
    alloc: Global,
    tree: &LsmTreeState,
    sources: &[SourceId],
) -> Result<Vec<Ulid>, AllocError>
    ensures { IfOk result (λ tables. tables.items ≡ tables_in tree.now sources.now) }
{
    if has_few_flushes(sources) {
        return found_tables(alloc, tree, sources);
    }
    mapped_tables(alloc, tree, sources)
}

// The same, with a look at the tree for each source.
fn found_tables(
    alloc: Global,
    tree: &LsmTreeState,
    sources: &[SourceId],
) -> Result<Vec<Ulid>, AllocError>
    ensures { IfOk result (λ tables. tables.items ≡ tables_in tree.now sources.now) }
{
    let mut tables = Vec::new(alloc);
    'sources: for source in sources {
        add_found(&mut tables, *source, tree)?;
    }
    Ok(tables)
}

// Adds the ids of the tables that a source has in the tree.
fn add_found(
    tables: &mut Vec<Ulid>,
    source: SourceId,
    tree: &LsmTreeState,
) -> Result<(), AllocError>
    ensures { OnOk result (tables.new.items ≡ tables.old.items ++ tables_of tree.now source) }
{
    match source {
        SourceId::SstView(id) => add_table_of_flush(tables, tree.l0.with_id(id)),
        SourceId::SortedRun(id) => add_tables_of_run(tables, found_run(id, tree)),
    }
}

fn found_run(id: u32, tree: &LsmTreeState) -> Option<&SortedRun>
    ensures { option_copied result ≡ run_with (Some id) tree.now.compacted }
{
    tree.compacted.with_id(id)
}

fn add_table_of_flush(tables: &mut Vec<Ulid>, view: Option<&SsTableView>) -> Result<(), AllocError>
    ensures { OnOk result (tables.new.items ≡ tables.old.items
        ++ option_to_list (option_map (λ view. view.sst.id) (option_copied view.entry))) }
{
    if let Some(view) = view {
        tables.push(view.sst.id)?;
    }
    Ok(())
}

fn add_tables_of_run(tables: &mut Vec<Ulid>, run: Option<&SortedRun>) -> Result<(), AllocError>
    ensures { OnOk result (tables.new.items ≡ tables.old.items
        ++ tables_if_there (option_map (λ run. run.views) (option_copied run.entry))) }
{
    if let Some(run) = run {
        add_view_tables(tables, run.sst_views())?;
    }
    Ok(())
}

// The same, by a map of the tree's flushes.
fn mapped_tables(
    alloc: Global,
    tree: &LsmTreeState,
    sources: &[SourceId],
) -> Result<Vec<Ulid>, AllocError>
    ensures { IfOk result (λ tables. tables.items ≡ tables_in tree.now sources.now) }
{
    let flushes = flush_tables(alloc, &tree.l0)?;
    let mut tables = Vec::new(alloc);
    'sources: for source in sources {
        add_tables_of(&mut tables, *source, &flushes, tree)?;
    }
    Ok(tables)
}

// The tables of flushes, by the ids of the flushes. Of flushes with one id the first counts.
fn flush_tables(alloc: Global, views: &FlushList) -> Result<BTreeMap<Ulid, Ulid>, AllocError>
    ensures { IfOk result
        (λ tables. (id : ℕ) → get nat_cmp tables id ≡ flush_table id views.now) }
{
    let mut tables = BTreeMap::new(alloc);
    'views: for view in views.iter() {
        add_flush(&mut tables, view)?;
    }
    Ok(tables)
}

// Adds the table of a flush, unless there is one of a flush with its id.
fn add_flush(tables: &mut BTreeMap<Ulid, Ulid>, view: &SsTableView) -> Result<(), AllocError>
    ensures { OnOk result ((id : ℕ) → get nat_cmp tables.new id ≡ option_or
        (get nat_cmp tables.old id)
        (if view.now.id == id then Some view.now.sst.id else None)) }
{
    if !tables.contains_key(&view.id) {
        tables.insert(view.id, view.sst.id)?;
    }
    Ok(())
}

// Adds the ids of the tables that a source has, if the map has the tables of the tree's flushes.
fn add_tables_of(
    tables: &mut Vec<Ulid>,
    source: SourceId,
    flushes: &BTreeMap<Ulid, Ulid>,
    tree: &LsmTreeState,
) -> Result<(), AllocError>
    ensures { ((id : ℕ) → get nat_cmp flushes.now id ≡ flush_table id tree.now.l0)
        → OnOk result (tables.new.items ≡ tables.old.items ++ tables_of tree.now source) }
{
    match source {
        SourceId::SstView(id) => add_flush_table(tables, flushes.get(&id)),
        SourceId::SortedRun(id) => add_tables_of_run(tables, found_run(id, tree)),
    }
}

fn add_flush_table(tables: &mut Vec<Ulid>, table: Option<&Ulid>) -> Result<(), AllocError>
    ensures { OnOk result
        (tables.new.items ≡ tables.old.items ++ option_to_list (option_copied table.entry)) }
{
    if let Some(table) = table {
        tables.push(*table)?;
    }
    Ok(())
}

fn add_view_tables(tables: &mut Vec<Ulid>, views: &[SsTableView]) -> Result<(), AllocError>
    ensures { OnOk result (tables.new.items ≡ tables.old.items ++ view_tables views.now) }
{
    'views: for view in views {
        tables.push(view.sst.id)?;
    }
    Ok(())
}
