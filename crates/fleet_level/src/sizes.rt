//! The sizes of tables and runs.

ghost use Rattle.std.specs.Prelude.{◌≡◌, ◌==◌, ℕ, List, Some, None, if◌then◌else◌, map, IfOk, OnOk};
ghost use Rattle.std.specs.BTreeMap.{get};
ghost use Rattle.std.specs.Option.{option_or};
ghost use Rattle.std.specs.Ordering.{nat_cmp};
ghost use Rattle.fleet_model.specs.Handles.{Handle};
ghost use Rattle.sched_model.specs.Levels.{node_size};
ghost use Rattle.fleet_tree.specs.Handles.{handle_of};
ghost use Rattle.fleet_tree.specs.Trees.{run_node, trees_with_prefix};
ghost use Rattle.fleet_sched.specs.Views.{tree_handles};
ghost use Rattle.fleet_level.specs.Sizes.{HasSizes, first_size, size_in, tables_of_runs, tables_of_trees};

use fleet_rows::Ulid;
use fleet_tree::{LsmTreeState, ManifestCore, Runs, SortedRun, SsTableHandle, Views};
use std::alloc::{AllocError, Global};
use std::collections::BTreeMap;

/// The sizes of the tables of all trees, in bytes, by the ids of the tables. Of tables with one id
/// the first counts.
pub fn table_sizes(alloc: Global, core: &ManifestCore) -> Result<BTreeMap<Ulid, u64>, AllocError>
    ensures { IfOk result (λ sizes. HasSizes sizes
        (map handle_of (tables_of_trees (trees_with_prefix core.now)))) }
{
    let mut sizes = BTreeMap::new(alloc);
    add_tree(&mut sizes, &core.tree)?;
    'segments: for segment in core.segments.as_slice() {
        add_tree(&mut sizes, &segment.1)?;
    }
    Ok(sizes)
}

fn add_tree(sizes: &mut BTreeMap<Ulid, u64>, tree: &LsmTreeState) -> Result<(), AllocError>
    ensures { OnOk result ((id : ℕ) → get nat_cmp sizes.new id
        ≡ option_or (get nat_cmp sizes.old id) (first_size id (tree_handles tree.now))) }
{
    add_views(sizes, tree.l0.iter())?;
    add_runs(sizes, tree.compacted.iter())
}

fn add_runs(sizes: &mut BTreeMap<Ulid, u64>, runs: Runs<'_>) -> Result<(), AllocError>
    ensures { OnOk result ((id : ℕ) → get nat_cmp sizes.new id
        ≡ option_or (get nat_cmp sizes.old id) (first_size id (tables_of_runs runs.entry))) }
{
    'runs: for run in runs {
        add_views(sizes, Views::of_slice(run.sst_views()))?;
    }
    Ok(())
}

fn add_views(sizes: &mut BTreeMap<Ulid, u64>, views: Views<'_>) -> Result<(), AllocError>
    ensures { OnOk result ((id : ℕ) → get nat_cmp sizes.new id ≡ option_or
        (get nat_cmp sizes.old id) (first_size id (map (λ view. view.sst) views.entry))) }
{
    'views: for view in views {
        add_table(sizes, &view.sst)?;
    }
    Ok(())
}

// Adds the size of a table, unless there is one of a table with its id.
fn add_table(sizes: &mut BTreeMap<Ulid, u64>, table: &SsTableHandle) -> Result<(), AllocError>
    ensures { OnOk result ((id : ℕ) → get nat_cmp sizes.new id ≡ option_or
        (get nat_cmp sizes.old id) (if table.now.id == id then Some table.now.size else None)) }
{
    if !sizes.contains_key(&table.id) {
        sizes.insert(table.id, table.size)?;
    }
    Ok(())
}

/// The size of a run in bytes: the sum of the sizes of its tables. It stops at `u64::MAX`.
pub fn run_size(sizes: &BTreeMap<Ulid, u64>, run: &SortedRun) -> u64
    ensures { (handles : List Handle) (flushes : ℕ → List ℕ) → HasSizes sizes.now handles
        → result ≡ node_size handles (run_node flushes run.now) }
{
    let mut size = 0u64;
    'views: for view in run.sst_views() {
        size = size.saturating_add(table_size(sizes, view.sst.id));
    }
    size
}

// The size of the table with this id, or 0 if there is no such table.
fn table_size(sizes: &BTreeMap<Ulid, u64>, id: Ulid) -> u64
    ensures { result ≡ size_in sizes.now id }
{
    match sizes.get(&id) {
        Some(size) => *size,
        None => 0,
    }
}
