//! The lines that show what is stored. They call nothing.

ghost use Rattle.std.specs.Prelude.{◌≡◌, ◌++◌, ◌==◌, ◌∷◌, [], find, flat_map, map, option_map, IfOk, IsOkUnless, OnOk};
ghost use Rattle.std.specs.Option.{option_copied};
ghost use Rattle.fleet_model.specs.Invariants.Invariant.{TablesHeld};
ghost use Rattle.fleet_model.specs.Nodes as model;
ghost use Rattle.fleet_model.specs.Nodes.{node_named, tree_at};
ghost use Rattle.fleet_rows.specs.Row.{rows_of};
ghost use Rattle.fleet_rows.specs.declared.errors.SlateDBError.TheVariants as SlateDBError;
ghost use Rattle.fleet_store.specs.Tables.{held_rows};
ghost use Rattle.fleet_text.specs.Lines.{node_of};
ghost use Rattle.script_model.specs.LineRuns.{if_some};
ghost use Rattle.script_model.specs.Lines.Looks.{dump_reply};
ghost use Rattle.script_model.specs.Replies.{absent_reply, jobs_reply, tables_reply, trees_reply};
ghost use Rattle.fleet_read.specs.Stored.{rows_or_none};
ghost use Rattle.fleet_looks.specs.Looks.{views_at, views_named};

use fleet_book::Compactions;
use fleet_rows::{RowEntry, SlateDBError, Ulid};
use fleet_store::MemStore;
use fleet_text::{NodeName, Reply, answers, listings};
use fleet_tree::{
    FlushList, LsmTreeState, ManifestCore, RunList, SortedRun, SsTableHandle, SsTableView,
    TableList,
};
use std::alloc::Global;

// The flush's view with this name.
fn view_with(views: &FlushList, name: u64) -> Option<&SsTableView>
    ensures { option_copied result ≡ find (λ view. name == view.id) views.now }
{
    let id = Ulid::from_parts(0, name as u128);
    'views: for view in views.iter() {
        if id == view.id {
            return Some(view);
        }
    }
    None
}

// The run with this id.
fn run_with(runs: &RunList, id: u32) -> Option<&SortedRun>
    ensures { option_copied result ≡ find (λ run. id == run.id) runs.now }
{
    runs.with_id(id)
}

// Copies of the descriptions of the tables that these views name.
fn handles_of(alloc: Global, views: &[SsTableView]) -> Result<Vec<SsTableHandle>, SlateDBError>
    ensures handles { IfOk result (λ handles. handles.items ≡ map (λ view. view.sst) views.now) }
    ensures memory { IsOkUnless result SlateDBError.Memory }
{
    let mut handles = Vec::with_capacity(alloc, views.len())?;
    'views: for view in views {
        handles.push(view.sst.clone()?)?;
    }
    Ok(handles)
}

// A copy of the description of the table that the view names.
fn handle_of(alloc: Global, view: &SsTableView) -> Result<Vec<SsTableHandle>, SlateDBError>
    ensures handles { IfOk result (λ handles. handles.items ≡ view.now.sst ∷ []) }
    ensures memory { IsOkUnless result SlateDBError.Memory }
{
    let mut handles = Vec::new(alloc);
    handles.push(view.sst.clone()?)?;
    Ok(handles)
}

// The same of the table of the flush with this name, if the tree has it.
fn flush_handles(
    alloc: Global,
    tree: &LsmTreeState,
    name: u64,
) -> Result<Option<Vec<SsTableHandle>>, SlateDBError>
    ensures handles { IfOk result (λ handles. option_map (λ v. v.items) handles
        ≡ option_map (map (λ view. view.sst)) (views_named (model.L0 name) tree.now)) }
    ensures memory { IsOkUnless result SlateDBError.Memory }
{
    match view_with(&tree.l0, name) {
        Some(view) => Ok(Some(handle_of(alloc, view)?)),
        None => Ok(None),
    }
}

// The same of the tables of the run with this id, if the tree has it.
fn run_handles(
    alloc: Global,
    tree: &LsmTreeState,
    id: u32,
) -> Result<Option<Vec<SsTableHandle>>, SlateDBError>
    ensures handles { IfOk result (λ handles. option_map (λ v. v.items) handles
        ≡ option_map (map (λ view. view.sst)) (views_named (model.Run id) tree.now)) }
    ensures memory { IsOkUnless result SlateDBError.Memory }
{
    match run_with(&tree.compacted, id) {
        Some(run) => Ok(Some(handles_of(alloc, run.views.as_slice())?)),
        None => Ok(None),
    }
}

// The same of the tables of the node, if the tree has it.
fn node_handles(
    alloc: Global,
    tree: &LsmTreeState,
    node: NodeName,
) -> Result<Option<Vec<SsTableHandle>>, SlateDBError>
    ensures handles { IfOk result (λ handles. option_map (λ v. v.items) handles
        ≡ option_map (map (λ view. view.sst)) (views_named (node_of node) tree.now)) }
    ensures memory { IsOkUnless result SlateDBError.Memory }
{
    match node {
        NodeName::L0(name) => flush_handles(alloc, tree, name),
        NodeName::Run(id) => run_handles(alloc, tree, id),
    }
}

// The same of a segment's tree.
fn segment_handles(
    alloc: Global,
    core: &ManifestCore,
    segment: &[u8],
    node: NodeName,
) -> Result<Option<Vec<SsTableHandle>>, SlateDBError>
    ensures handles { IfOk result (λ handles. option_map (λ v. v.items) handles
        ≡ option_map (map (λ view. view.sst)) (views_at core.now segment.now (node_of node))) }
    ensures memory { IsOkUnless result SlateDBError.Memory }
{
    match core.tree_for_segment(segment) {
        Some(tree) => node_handles(alloc, tree, node),
        None => Ok(None),
    }
}

// Appends the rows of the table with this id, if it is held.
fn append_rows(rows: &mut Vec<RowEntry>, store: &MemStore, id: Ulid) -> Result<(), SlateDBError>
    ensures rows { OnOk result (rows_of rows.new.items
        ≡ rows_of rows.old.items ++ rows_or_none (held_rows id store.now.world.store)) }
    ensures memory { IsOkUnless result SlateDBError.Memory }
{
    let Some(table) = store.table(id) else {
        return Ok(());
    };
    append(rows, table.to_rows()?)
}

fn append(rows: &mut Vec<RowEntry>, more: Vec<RowEntry>) -> Result<(), SlateDBError>
    ensures ok { OnOk result (rows.new.items ≡ rows.old.items ++ more.items) }
    ensures memory { IsOkUnless result SlateDBError.Memory }
{
    'more: for row in more {
        rows.push(row)?;
    }
    Ok(())
}

// The rows of the tables, table by table.
fn rows_in(
    alloc: Global,
    store: &MemStore,
    tables: &[SsTableHandle],
) -> Result<Vec<RowEntry>, SlateDBError>
    ensures rows { IfOk result (λ rows. rows_of rows.items
        ≡ flat_map (λ table. rows_or_none (held_rows table.id store.now.world.store)) tables.now) }
    ensures memory { IsOkUnless result SlateDBError.Memory }
{
    let mut rows = Vec::new(alloc);
    'tables: for table in tables {
        append_rows(&mut rows, store, table.id)?;
    }
    Ok(rows)
}

/// The reply that shows the trees.
pub fn show_trees(alloc: Global, store: &MemStore) -> Result<Reply, SlateDBError>
    ensures reply { IfOk result
        (λ answer. answer ≡ trees_reply store.now.world.store.manifest.trees) }
    ensures memory { IsOkUnless result SlateDBError.Memory }
{
    listings::trees(alloc, &store.manifest().manifest.core)
}

/// The reply that shows the jobs.
pub fn show_jobs(alloc: Global, store: &MemStore) -> Result<Reply, SlateDBError>
    ensures reply { IfOk result (λ answer. answer ≡ if_some store.now.world.store.records
        absent_reply (λ records. jobs_reply records.jobs)) }
    ensures memory { IsOkUnless result SlateDBError.Memory }
{
    let Some(records) = store.records() else {
        return answers::absent(alloc);
    };
    let Compactions { jobs, .. } = records.compactions().clone()?;
    let jobs = jobs.into_vec();
    listings::jobs(alloc, &jobs)
}

/// The reply that shows the tables of a node, each with the number of its rows.
pub fn show_tables(
    alloc: Global,
    store: &MemStore,
    segment: &[u8],
    node: NodeName,
) -> Result<Reply, SlateDBError>
    ensures reply { IfOk result (λ answer. answer ≡ tables_reply store.now.world.store.tables
        (node_named (node_of node)
        (tree_at segment.now store.now.world.store.manifest.trees))) }
    ensures memory { IsOkUnless result SlateDBError.Memory }
{
    let core = &store.manifest().manifest.core;
    let Some(handles) = segment_handles(alloc, core, segment, node)? else {
        return answers::absent(alloc);
    };
    listings::tables(alloc, &TableList::from_vec(alloc, handles)?)
}

/// The reply that shows the rows of a node.
pub fn dump(
    alloc: Global,
    store: &MemStore,
    segment: &[u8],
    node: NodeName,
) -> Result<Reply, SlateDBError>
    requires held { TablesHeld store.now.world.store }
    ensures reply { IfOk result (λ answer. answer
        ≡ dump_reply store.now.world.store.tables (node_named (node_of node)
        (tree_at segment.now store.now.world.store.manifest.trees))) }
    ensures memory { IsOkUnless result SlateDBError.Memory }
{
    let core = &store.manifest().manifest.core;
    let Some(handles) = segment_handles(alloc, core, segment, node)? else {
        return answers::absent(alloc);
    };
    let rows = rows_in(alloc, store, &handles)?;
    listings::rows(alloc, &rows)
}
