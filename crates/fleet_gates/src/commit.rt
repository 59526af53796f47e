//! The gate for commits.

ghost use Rattle.std.specs.Prelude.{◌≡◌, map, true, IfOk, IsOkUnless, IsTrue};
ghost use Rattle.std.specs.List.{list_all};
ghost use Rattle.fleet_model.specs.Work.Gates.{commit_gate};
ghost use Rattle.fleet_model.specs.Jobs.{ids_eq};
ghost use Rattle.fleet_model.specs.Nodes.{names, names_contain, tree_at};
ghost use Rattle.fleet_model.specs.Trees.{tables_now};
ghost use Rattle.fleet_tree.specs.Trees.{RunFlushes, trees_of};
ghost use Rattle.fleet_jobs.specs.Jobs.{job_of};
ghost use Rattle.fleet_jobs.specs.Sources.{name_of};
ghost use Rattle.fleet_jobs.specs.Specs.{segment_of, sources_of, spec_of};
ghost use Rattle.fleet_gates.specs.Rules.{accept_each, rule_number};
ghost use Rattle.fleet_gates.specs.Shown.{accepted_on, shown_trees};

use crate::places::has_all;
use crate::{Rule, scheduler_rule, source_tables};
use fleet_book::CompactorStateView;
use fleet_jobs::{Compaction, CompactionSpec, is_run_stretch, nodes_at};
use fleet_rows::SlateDBError;
use fleet_sched::CompactionScheduler;
use fleet_tree::ManifestCore;
use std::alloc::{AllocError, Global};

/// The first rule that a Compacted job fails on the trees of this view, or None if it may be
/// committed. The scheduler is asked last, and only if all other rules hold.
///
/// For n sources, m nodes in the job's tree and t tables of the sources, this takes a time of the
/// order of (n + m) log (n + m) + t, besides a look at each segment and what the scheduler takes.
pub fn commit_gate(
    alloc: Global,
    scheduler: &(dyn CompactionScheduler + Send + Sync),
    view: &CompactorStateView,
    job: &Compaction,
) -> Result<Option<Rule>, SlateDBError>
    ensures rule { (flushes : RunFlushes) → IfOk result (λ rule. rule_number rule
        ≡ commit_gate (shown_trees flushes view.now)
        (accepted_on flushes view.now (answers scheduler.now)) (job_of job.now)) }
    ensures memory { IsOkUnless result SlateDBError.Memory }
{
    match commit_rules(alloc, view.manifest().core(), job)? {
        Some(rule) => Ok(Some(rule)),
        None => scheduler_rule(alloc, scheduler, view, job.spec()),
    }
}

/// The first rule that a Compacted job fails if the scheduler accepts it.
pub fn commit_rules(
    alloc: Global,
    core: &ManifestCore,
    job: &Compaction,
) -> Result<Option<Rule>, AllocError>
    ensures { (flushes : RunFlushes) → IfOk result (λ rule. rule_number rule
        ≡ commit_gate (trees_of flushes core.now) accept_each (job_of job.now)) }
{
    if !has_sources(alloc, core, job.spec())? {
        return Ok(Some(Rule::SourcesInTree));
    }
    if !has_kept_tables(alloc, core, job)? {
        return Ok(Some(Rule::SourceTables));
    }
    Ok(None)
}

// Whether every source is in the tree of the job's segment. Most jobs join runs that are one after
// the other. No list of the nodes is made for these.
fn has_sources(
    alloc: Global,
    core: &ManifestCore,
    spec: &CompactionSpec,
) -> Result<bool, AllocError>
    ensures { (flushes : RunFlushes) → IfOk result (λ has. has ≡ list_all
        (names_contain (names (tree_at (segment_of spec.now) (trees_of flushes core.now))))
        (map name_of (sources_of spec.now))) }
{
    if are_stretch_of_runs(core, spec) {
        return Ok(true);
    }
    let nodes = nodes_at(alloc, spec.segment().as_slice(), core)?;
    has_all(alloc, &nodes, spec.sources())
}

// Whether the sources are runs of the tree of the job's segment, one after the other.
fn are_stretch_of_runs(core: &ManifestCore, spec: &CompactionSpec) -> bool
    ensures { (flushes : RunFlushes) → IsTrue result → list_all
        (names_contain (names (tree_at (segment_of spec.now) (trees_of flushes core.now))))
        (map name_of (sources_of spec.now)) ≡ true }
{
    match core.tree_for_segment(spec.segment().as_slice()) {
        Some(tree) => is_run_stretch(spec.sources(), &tree.compacted),
        None => false,
    }
}

// Whether the sources have the tables that they had when the job was opened.
fn has_kept_tables(alloc: Global, core: &ManifestCore, job: &Compaction) -> Result<bool, AllocError>
    ensures { (flushes : RunFlushes) → IfOk result (λ has. has ≡ ids_eq
        (tables_now (trees_of flushes core.now) (spec_of job.now.spec)) job.now.source_tables) }
{
    let tables = source_tables(alloc, core, job.spec())?;
    Ok(tables.as_slice() == job.source_tables())
}
