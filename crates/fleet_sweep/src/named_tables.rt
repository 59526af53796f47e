//! The tables that trees and jobs name.

ghost use Rattle.std.specs.Prelude.{◌≡◌, ◌++◌, [], ◌∷◌, map, IfOk, OnOk};
ghost use Rattle.fleet_tree.specs.Trees.{trees_with_prefix};
ghost use Rattle.fleet_jobs.specs.Contexts.{table_ids};
ghost use Rattle.fleet_store.specs.Records.{jobs_or_none};
ghost use Rattle.fleet_sweep.specs.Named.{ids_in_jobs, ids_in_outputs, ids_in_ranges, ids_in_runs, ids_in_tree, ids_in_trees, named_ids};

use bytes::Bytes;
use fleet_book::VersionedCompactions;
use fleet_jobs::Compaction;
use fleet_plan::Subcompaction;
use fleet_rows::Ulid;
use fleet_tree::{LsmTreeState, ManifestCore, Runs, SsTableHandle, TableList, Views};
use std::alloc::{AllocError, Global};

/// The ids of the tables that the nodes of all trees name, and of those that jobs that are not over
/// name in their contexts and in their outputs.
pub fn named_ids(
    alloc: Global,
    core: &ManifestCore,
    records: &Option<VersionedCompactions>,
) -> Result<Vec<Ulid>, AllocError>
    ensures { IfOk result (λ ids. ids.items
        ≡ named_ids (trees_with_prefix core.now) (jobs_or_none records.now)) }
{
    let mut ids = Vec::new(alloc);
    add_tree(&mut ids, &core.tree)?;
    add_segments(&mut ids, core.segments.as_slice())?;
    if let Some(records) = records {
        add_jobs(&mut ids, records)?;
    }
    Ok(ids)
}

fn add_segments(ids: &mut Vec<Ulid>, segments: &[(Bytes, LsmTreeState)]) -> Result<(), AllocError>
    ensures { OnOk result (ids.new.items ≡ ids.old.items ++ ids_in_trees segments.now) }
{
    'segments: for segment in segments {
        add_tree(ids, &segment.1)?;
    }
    Ok(())
}

fn add_tree(ids: &mut Vec<Ulid>, tree: &LsmTreeState) -> Result<(), AllocError>
    ensures { OnOk result (ids.new.items ≡ ids.old.items ++ ids_in_tree tree.now) }
{
    add_views(ids, tree.l0.iter())?;
    add_runs(ids, tree.compacted.iter())
}

fn add_runs(ids: &mut Vec<Ulid>, runs: Runs<'_>) -> Result<(), AllocError>
    ensures { OnOk result (ids.new.items ≡ ids.old.items ++ ids_in_runs runs.entry) }
{
    'runs: for run in runs {
        add_views(ids, Views::of_slice(run.sst_views()))?;
    }
    Ok(())
}

fn add_views(ids: &mut Vec<Ulid>, views: Views<'_>) -> Result<(), AllocError>
    ensures { OnOk result
        (ids.new.items ≡ ids.old.items ++ map (λ view. view.sst.id) views.entry) }
{
    'views: for view in views {
        ids.push(view.sst.id)?;
    }
    Ok(())
}

fn add_jobs(ids: &mut Vec<Ulid>, records: &VersionedCompactions) -> Result<(), AllocError>
    ensures { OnOk result
        (ids.new.items ≡ ids.old.items ++ ids_in_jobs records.now.compactions.jobs) }
{
    'jobs: for job in records.recent_compactions() {
        add_job(ids, job)?;
    }
    Ok(())
}

// Adds the tables that a job names, if it is not over.
fn add_job(ids: &mut Vec<Ulid>, job: &Compaction) -> Result<(), AllocError>
    ensures { OnOk result (ids.new.items ≡ ids.old.items ++ ids_in_jobs (job.now ∷ [])) }
{
    if job.active() {
        add_ranges(ids, job.subcompactions())?;
        add_outputs(ids, job.outputs().as_slice())?;
    }
    Ok(())
}

fn add_ranges(ids: &mut Vec<Ulid>, ranges: &[Subcompaction]) -> Result<(), AllocError>
    ensures { OnOk result (ids.new.items ≡ ids.old.items ++ ids_in_ranges ranges.now) }
{
    'parts: for range in ranges {
        add_tables(ids, range.output_ssts())?;
    }
    Ok(())
}

fn add_outputs(ids: &mut Vec<Ulid>, outputs: &[TableList]) -> Result<(), AllocError>
    ensures { OnOk result (ids.new.items ≡ ids.old.items ++ ids_in_outputs outputs.now) }
{
    'outputs: for tables in outputs {
        add_tables(ids, tables.as_slice())?;
    }
    Ok(())
}

fn add_tables(ids: &mut Vec<Ulid>, tables: &[SsTableHandle]) -> Result<(), AllocError>
    ensures { OnOk result (ids.new.items ≡ ids.old.items ++ table_ids tables.now) }
{
    'tables: for table in tables {
        ids.push(table.id)?;
    }
    Ok(())
}
