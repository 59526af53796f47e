//! The gate for submitted jobs.

ghost use Rattle.std.specs.Prelude.{◌≡◌, ◌&&◌, ◌||◌, ℕ, List, drop, is_some, map, not, take, IfOk, IsOkUnless};
ghost use Rattle.fleet_model.specs.Work.Gates.{are_distinct, first_failing, is_nonempty, names_older, submit_gate};
ghost use Rattle.fleet_model.specs.Jobs.{Jobs, is_drain};
ghost use Rattle.fleet_model.specs.Nodes.{Trees, names, tree_at};
ghost use Rattle.fleet_model.specs.Sources.{older_nodes, reaches_oldest};
ghost use Rattle.fleet_tree.specs.Trees.{RunFlushes, trees_of};
ghost use Rattle.fleet_jobs.specs.Jobs.{job_of};
ghost use Rattle.fleet_jobs.specs.Places.{nodes_in};
ghost use Rattle.fleet_jobs.specs.Sources.{name_of};
ghost use Rattle.fleet_jobs.specs.Specs.{segment_of, sources_of, spec_of};
ghost use Rattle.fleet_gates.specs.Held.{Decides};
ghost use Rattle.fleet_gates.specs.Places.{names_of_runs};
ghost use Rattle.fleet_gates.specs.Rules.{accept_each, rule_number, rules_for};
ghost use Rattle.fleet_gates.specs.Shown.{accepted_on, shown_trees};

use crate::places::has_all;
use crate::{Rule, scheduler_rule};
use fleet_book::CompactorStateView;
use fleet_jobs::{
    Compaction, CompactionSpec, NodeSet, SourceId, are_distinct, destination_fits, is_run_stretch,
    is_whole_stretch, names_older, tree_nodes,
};
use fleet_rows::SlateDBError;
use fleet_sched::CompactionScheduler;
use fleet_tree::{LsmTreeState, ManifestCore};
use std::alloc::{AllocError, Global};

/// The first rule that a submitted job fails on the trees of this view, or None if the job may be
/// opened. The scheduler is asked last, and only if all other rules hold.
///
/// The set has the nodes that other jobs hold, as `held_by_others` gives them. A coordinator makes
/// one set for all submitted jobs of a poll: `fleet_jobs::held_nodes` gives the nodes that
/// Scheduled, Running and Compacted jobs hold, and the coordinator adds the nodes of each job whose
/// commit failed by rule 0 in this poll. From then on it adds the nodes of each job that it opens.
/// A job that it moves, drains or fails changes nothing.
///
/// For n sources, m nodes in the job's tree and h nodes in the set, this takes a time of the order
/// of (n + m) log (n + m + h), besides a look at each segment, a look at each run if no run is a
/// source, and what the scheduler takes. If the sources are runs of the tree, one after the other,
/// and the ids of its runs fall, it is n log (n + m + h) in place of that, and a look at each chunk
/// of runs.
pub fn submit_gate(
    alloc: Global,
    scheduler: &(dyn CompactionScheduler + Send + Sync),
    view: &CompactorStateView,
    held: &NodeSet,
    job: &Compaction,
) -> Result<Option<Rule>, SlateDBError>
    ensures rule { (flushes : RunFlushes) (jobs : Jobs) (lost : List ℕ)
        → Decides held.now jobs lost (job_of job.now)
        → IfOk result (λ rule. rule_number rule
        ≡ submit_gate (shown_trees flushes view.now) jobs lost
        (accepted_on flushes view.now (answers scheduler.now)) (job_of job.now)) }
    ensures memory { IsOkUnless result SlateDBError.Memory }
{
    match submit_rules(alloc, view.manifest().core(), held, job)? {
        Some(rule) => Ok(Some(rule)),
        None => scheduler_rule(alloc, scheduler, view, job.spec()),
    }
}

/// The first rule that a submitted job fails if the scheduler accepts it. `submit_gate` says what
/// the set has.
pub fn submit_rules(
    alloc: Global,
    core: &ManifestCore,
    held: &NodeSet,
    job: &Compaction,
) -> Result<Option<Rule>, AllocError>
    ensures { (flushes : RunFlushes) (jobs : Jobs) (lost : List ℕ)
        → Decides held.now jobs lost (job_of job.now)
        → IfOk result (λ rule. rule_number rule
        ≡ submit_gate (trees_of flushes core.now) jobs lost accept_each (job_of job.now)) }
{
    if let Some(rule) = spec_rule(alloc, job)? {
        return Ok(Some(rule));
    }
    if let Some(rule) = tree_rule(alloc, core, job)? {
        return Ok(Some(rule));
    }
    Ok(target_rule(core, held, job))
}

// The first of the rules 1 and 2 that the job fails.
fn spec_rule(alloc: Global, job: &Compaction) -> Result<Option<Rule>, AllocError>
    ensures { (trees : Trees) (jobs : Jobs) (lost : List ℕ) → IfOk result (λ rule. rule_number rule
        ≡ first_failing (take 2 (rules_for trees jobs lost (job_of job.now)))) }
{
    if !has_distinct_sources(alloc, job.spec())? {
        return Ok(Some(Rule::Sources));
    }
    if !may_drain(job.spec()) {
        return Ok(Some(Rule::DrainedSegment));
    }
    Ok(None)
}

// Whether there are sources, and each is named once.
fn has_distinct_sources(alloc: Global, spec: &CompactionSpec) -> Result<bool, AllocError>
    ensures { IfOk result (λ distinct. distinct
        ≡ (is_nonempty (map name_of (sources_of spec.now))
        && are_distinct (map name_of (sources_of spec.now)))) }
{
    Ok(!spec.sources().is_empty() && are_distinct(alloc, spec.sources())?)
}

// Whether the job is no drain of the root.
fn may_drain(spec: &CompactionSpec) -> bool
    ensures { result ≡ (not (is_drain (spec_of spec.now)) || is_nonempty (segment_of spec.now)) }
{
    !spec.is_drain() || !spec.segment().is_empty()
}

// The first of the rules 3 to 6 that the job fails.
fn tree_rule(
    alloc: Global,
    core: &ManifestCore,
    job: &Compaction,
) -> Result<Option<Rule>, AllocError>
    ensures { (flushes : RunFlushes) (jobs : Jobs) (lost : List ℕ) → IfOk result
        (λ rule. rule_number rule ≡ first_failing
        (take 4 (drop 2 (rules_for (trees_of flushes core.now) jobs lost (job_of job.now))))) }
{
    match core.tree_for_segment(job.spec().segment().as_slice()) {
        Some(tree) => rule_in_tree(alloc, tree, job),
        None => Ok(Some(Rule::Tree)),
    }
}

// The first of the rules 4 to 6 that the job fails, if this is its tree. Most jobs join runs that
// are one after the other. No list of the nodes is made for these.
fn rule_in_tree(
    alloc: Global,
    tree: &LsmTreeState,
    job: &Compaction,
) -> Result<Option<Rule>, AllocError>
    ensures { (trees : Trees) (jobs : Jobs) (lost : List ℕ)
        → names (tree_at (segment_of job.now.spec) trees) ≡ nodes_in tree.now
        → IfOk result (λ rule. rule_number rule
        ≡ first_failing (take 3 (drop 3 (rules_for trees jobs lost (job_of job.now))))) }
{
    if joins_runs(job.spec(), tree) {
        return Ok(None);
    }
    let nodes = tree_nodes(alloc, tree)?;
    place_rule(alloc, &nodes, job)
}

// Whether the job is no drain, and its sources are runs of the tree, one after the other.
fn joins_runs(spec: &CompactionSpec, tree: &LsmTreeState) -> bool
    ensures { result ≡ (not (is_drain (spec_of spec.now))
        && is_some (older_nodes (map name_of (sources_of spec.now))
        (names_of_runs tree.now.compacted))) }
{
    !spec.is_drain() && is_run_stretch(spec.sources(), &tree.compacted)
}

// The first of the rules 4 to 6 that the job fails, if its tree has these nodes.
fn place_rule(
    alloc: Global,
    nodes: &[SourceId],
    job: &Compaction,
) -> Result<Option<Rule>, AllocError>
    ensures { (trees : Trees) (jobs : Jobs) (lost : List ℕ)
        → names (tree_at (segment_of job.now.spec) trees) ≡ map name_of nodes.now
        → IfOk result (λ rule. rule_number rule
        ≡ first_failing (take 3 (drop 3 (rules_for trees jobs lost (job_of job.now))))) }
{
    let spec = job.spec();
    if !has_all(alloc, nodes, spec.sources())? {
        return Ok(Some(Rule::SourcesInTree));
    }
    if !may_stretch(spec, nodes) {
        return Ok(Some(Rule::WholeStretch));
    }
    if !drops_older(alloc, spec, nodes)? {
        return Ok(Some(Rule::OlderFlushes));
    }
    Ok(None)
}

// Whether the job is a drain, or its sources are among the nodes one after the other and reach the
// oldest flush if one is a flush.
fn may_stretch(spec: &CompactionSpec, nodes: &[SourceId]) -> bool
    ensures { result ≡ (is_drain (spec_of spec.now)
        || reaches_oldest (map name_of (sources_of spec.now))
        (older_nodes (map name_of (sources_of spec.now)) (map name_of nodes.now))) }
{
    spec.is_drain() || is_whole_stretch(spec.sources(), nodes)
}

// Whether the job is no drain, or names each flush that is older than a source.
fn drops_older(alloc: Global, spec: &CompactionSpec, nodes: &[SourceId]) -> Result<bool, AllocError>
    ensures { IfOk result (λ drops. drops ≡ (not (is_drain (spec_of spec.now))
        || names_older (map name_of (sources_of spec.now)) (map name_of nodes.now))) }
{
    if !spec.is_drain() {
        return Ok(true);
    }
    let dropped = NodeSet::of_nodes(alloc, spec.sources())?;
    Ok(names_older(&dropped, nodes))
}

// The first of the rules 7 and 8 that the job fails.
fn target_rule(core: &ManifestCore, held: &NodeSet, job: &Compaction) -> Option<Rule>
    ensures { (flushes : RunFlushes) (jobs : Jobs) (lost : List ℕ)
        → Decides held.now jobs lost (job_of job.now) → rule_number result
        ≡ first_failing
        (drop 6 (rules_for (trees_of flushes core.now) jobs lost (job_of job.now))) }
{
    let spec = job.spec();
    if !destination_fits(core, spec.sources(), spec.destination()) {
        return Some(Rule::Destination);
    }
    if !held.leaves_nodes_of(spec) {
        return Some(Rule::FreeNodes);
    }
    None
}
