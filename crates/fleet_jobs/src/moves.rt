//! Moves: runs that are made of tables as they are.

ghost use Rattle.std.specs.Prelude.{◌≡◌, ◌++◌, flat_map, IfOk, IsOkUnless, OnOk};
ghost use Rattle.fleet_jobs.specs.Moves.{are_disjoint, by_start, intersect, moved_run, run_of_disjoint};
ghost use Rattle.fleet_jobs.specs.Specs.{destination_of};
ghost use Rattle.fleet_jobs.specs.Taken.{taken_tables};

use crate::copying::add_all;
use crate::sources::{runs_of, views_of};
use crate::{Compaction, CompactionSpec};
use fleet_rows::SlateDBError;
use fleet_tree::{ManifestCore, SortedRun, SsTableView, ViewList};
use std::alloc::{AllocError, Global};

impl Compaction {
    /// The run that is made of the sources' tables as they are, by rising first key. It is None for
    /// a drain, if the sources have no tables, or if the ranges of two neighbours intersect.
    pub fn trivial_move_output(
        &self,
        alloc: Global,
        core: &ManifestCore,
    ) -> Result<Option<SortedRun>, SlateDBError>
        ensures run { IfOk result (λ run. run
            ≡ moved_run (destination_of self.now.spec) (taken_tables self.now.spec core.now)) }
        ensures memory { IsOkUnless result SlateDBError.Memory }
    {
        moved_run(alloc, self.spec(), core)
    }
}

fn moved_run(
    alloc: Global,
    spec: &CompactionSpec,
    core: &ManifestCore,
) -> Result<Option<SortedRun>, SlateDBError>
    ensures run { IfOk result (λ run. run
        ≡ moved_run (destination_of spec.now) (taken_tables spec.now core.now)) }
    ensures memory { IsOkUnless result SlateDBError.Memory }
{
    let Some(destination) = spec.destination() else {
        return Ok(None);
    };
    let tables = by_start(taken_tables(alloc, spec, core)?)?;
    run_of_disjoint(alloc, destination, tables)
}

// Copies of the tables that a job with this spec takes.
fn taken_tables(
    alloc: Global,
    spec: &CompactionSpec,
    core: &ManifestCore,
) -> Result<Vec<SsTableView>, AllocError>
    ensures { IfOk result (λ tables. tables.items ≡ taken_tables spec.now core.now) }
{
    let mut tables = views_of(alloc, spec, core)?;
    let runs = runs_of(alloc, spec, core)?;
    add_tables(&mut tables, &runs)?;
    Ok(tables)
}

// Adds copies of the runs' tables, run by run.
fn add_tables(tables: &mut Vec<SsTableView>, runs: &[SortedRun]) -> Result<(), AllocError>
    ensures { OnOk result
        (tables.new.items ≡ tables.old.items ++ flat_map (λ run. run.views) runs.now) }
{
    'runs: for run in runs {
        add_all(tables, run.sst_views())?;
    }
    Ok(())
}

// The tables by rising first key. Tables with one first key keep their order.
fn by_start(tables: Vec<SsTableView>) -> Result<Vec<SsTableView>, AllocError>
    ensures { IfOk result (λ sorted. sorted.items ≡ by_start tables.items) }
{
    let mut sorted = tables;
    sorted.sort_by(|a, b| a.sst.first_key.cmp(&b.sst.first_key))?;
    Ok(sorted)
}

// The run with this id of these tables, or None if there are none or neighbours' ranges intersect.
fn run_of_disjoint(
    alloc: Global,
    id: u32,
    tables: Vec<SsTableView>,
) -> Result<Option<SortedRun>, SlateDBError>
    ensures run { IfOk result (λ run. run ≡ run_of_disjoint id tables.items) }
    ensures memory { IsOkUnless result SlateDBError.Memory }
{
    if tables.is_empty() || !are_disjoint(&tables)? {
        return Ok(None);
    }
    let views = ViewList::from_vec(alloc, tables)?;
    Ok(Some(SortedRun::new(id, views)))
}

// Whether no table's range intersects the next one's.
fn are_disjoint(tables: &[SsTableView]) -> Result<bool, SlateDBError>
    ensures disjoint { IfOk result (λ disjoint. disjoint ≡ are_disjoint tables.now) }
    ensures memory { IsOkUnless result SlateDBError.Memory }
{
    let mut rest = tables;
    'rest: while let [table, next, ..] = rest {
        if intersect(table, next)? {
            return Ok(false);
        }
        rest = &rest[1..];
    }
    Ok(true)
}

fn intersect(a: &SsTableView, b: &SsTableView) -> Result<bool, SlateDBError>
    ensures both { IfOk result (λ both. both ≡ intersect a.now b.now) }
    ensures memory { IsOkUnless result SlateDBError.Memory }
{
    let range = a.compacted_effective_range();
    let both = range.intersect(b.compacted_effective_range())?;
    Ok(both.is_some())
}
