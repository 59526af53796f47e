//! Trees as the scheduler first sees them, and the jobs under way.

ghost use Rattle.std.specs.Prelude.{◌≡◌, ◌++◌, ◌+◌, ◌-◌, ℕ, List, [], ◌∷◌, map, IfOk, OnOk};
ghost use Rattle.std.specs.Prelude.{Some, max, filter, bytes_eq};
ghost use Rattle.sched_model.specs.FreshRuns.{above_all, capped_id, destination_list, fresh_run_id};
ghost use Rattle.fleet_jobs.specs.Jobs.{is_open, jobs_of};
ghost use Rattle.fleet_jobs.specs.Specs.{segment_of};
ghost use Rattle.sched_model.specs.SizeTiered.{by_flushes, free_slots, nodes_used, unplanned_tree};
ghost use Rattle.fleet_sched.specs.Sizes.{planned_in, tree_in};
ghost use Rattle.fleet_sched.specs.Views.{open_records, shown_jobs, trees_in, view_of};
ghost use Rattle.fleet_tree.specs.Trees.{RunFlushes, trees_with_prefix};
ghost use Rattle.fleet_sched.specs.Ids.{destinations_in, ids_in};

use crate::planned_trees::Planned;
use crate::sized_nodes::{sized_flushes, sized_runs};
use bytes::Bytes;
use fleet_book::{CompactorStateView, VersionedCompactions};
use fleet_jobs::{Compaction, CompactionSpec, CompactionStatus, NodeSet};
use fleet_tree::{LsmTreeState, ManifestCore};
use std::alloc::{AllocError, Global};

/// The trees before the first pick, by falling number of flushes.
pub fn trees_to_plan(alloc: Global, state: &CompactorStateView) -> Result<Vec<Planned>, AllocError>
    ensures { IfOk result (λ trees. trees.items
        ≡ by_flushes (planned_in (shown_jobs state.now) (trees_in state.now))) }
{
    let mut trees = Vec::new(alloc);
    let core = state.manifest().core();
    add_tree(alloc, state, &Bytes::new(), &core.tree, &mut trees)?;
    add_segments(alloc, state, core.segments.as_slice(), &mut trees)?;
    by_flushes(trees)
}

fn add_segments(
    alloc: Global,
    state: &CompactorStateView,
    segments: &[(Bytes, LsmTreeState)],
    trees: &mut Vec<Planned>,
) -> Result<(), AllocError>
    ensures { OnOk result (trees.new.items
        ≡ trees.old.items ++ planned_in (shown_jobs state.now) segments.now) }
{
    'segments: for segment in segments {
        add_tree(alloc, state, &segment.0, &segment.1, trees)?;
    }
    Ok(())
}

fn add_tree(
    alloc: Global,
    state: &CompactorStateView,
    segment: &Bytes,
    tree: &LsmTreeState,
    trees: &mut Vec<Planned>,
) -> Result<(), AllocError>
    ensures { OnOk result (trees.new.items ≡ trees.old.items
        ++ unplanned_tree (shown_jobs state.now) (tree_in (segment.now, tree.now)) ∷ []) }
{
    trees.push(Planned {
        segment: Clone::clone(segment)?,
        flushes: sized_flushes(alloc, &tree.l0)?,
        runs: sized_runs(alloc, tree.compacted.iter())?,
        used: nodes_used(alloc, state, segment.as_slice())?,
    })?;
    Ok(())
}

// The trees by falling number of flushes. Trees with one number keep their order.
fn by_flushes(trees: Vec<Planned>) -> Result<Vec<Planned>, AllocError>
    ensures { IfOk result (λ sorted. sorted.items ≡ by_flushes trees.items) }
{
    let mut sorted = trees;
    sorted.sort_by(|a, b| b.flush_count().cmp(&a.flush_count()))?;
    Ok(sorted)
}

// The nodes that the jobs that are shown use in the tree of this segment.
fn nodes_used(
    alloc: Global,
    state: &CompactorStateView,
    segment: &[u8],
) -> Result<NodeSet, AllocError>
    ensures { IfOk result (λ used. used ≡ nodes_used (shown_jobs state.now) segment.now) }
{
    let mut used = NodeSet::new(alloc);
    if let Some(records) = state.compactions() {
        add_used(&mut used, records, segment)?;
    }
    Ok(used)
}

fn add_used(
    used: &mut NodeSet,
    records: &VersionedCompactions,
    segment: &[u8],
) -> Result<(), AllocError>
    ensures { OnOk result (used.new
        ≡ used.old ++ nodes_used (jobs_of (open_records (Some records.now))) segment.now) }
{
    'jobs: for job in records.recent_compactions() {
        add_used_by(used, job, segment)?;
    }
    Ok(())
}

// Adds the nodes that a job uses, if it is not over and of this segment.
fn add_used_by(used: &mut NodeSet, job: &Compaction, segment: &[u8]) -> Result<(), AllocError>
    ensures { OnOk result (used.new
        ≡ used.old ++ nodes_used (jobs_of (filter is_open (job.now ∷ []))) segment.now) }
{
    if job.active() && is_of(job.spec(), segment) {
        used.add_nodes_of(job.spec())?;
    }
    Ok(())
}

fn is_of(spec: &CompactionSpec, segment: &[u8]) -> bool
    ensures { result ≡ bytes_eq segment.now (segment_of spec.now) }
{
    segment == spec.segment().as_slice()
}

/// How many jobs may be added to those that are shown, if at most this many may be Submitted,
/// Scheduled or Running at once.
pub fn free_slots(most: u64, state: &CompactorStateView) -> u64
    ensures { result ≡ free_slots most (shown_jobs state.now) }
{
    match state.compactions() {
        Some(records) => slots_left(most, records),
        None => most,
    }
}

fn slots_left(most: u64, records: &VersionedCompactions) -> u64
    ensures { result ≡ free_slots most (jobs_of (open_records (Some records.now))) }
{
    let mut left = most;
    'jobs: for job in records.recent_compactions() {
        left = without_slot_of(left, job);
    }
    left
}

// One slot less if the job is under way.
fn without_slot_of(left: u64, job: &Compaction) -> u64
    ensures { result ≡ free_slots left (jobs_of (filter is_open (job.now ∷ []))) }
{
    match job.status() {
        CompactionStatus::Submitted | CompactionStatus::Scheduled | CompactionStatus::Running => {
            left.saturating_sub(1)
        }
        CompactionStatus::Compacted | CompactionStatus::Completed | CompactionStatus::Failed => {
            left
        }
    }
}

/// The id of the next fresh run. It is above each run of each tree and each destination of a job
/// that is shown, but at most `u32::MAX`.
pub fn fresh_run_id(state: &CompactorStateView) -> u32
    ensures { (flushes : RunFlushes) → result ≡ fresh_run_id (view_of flushes state.now) }
{
    let above = above_runs(state.manifest().core());
    match state.compactions() {
        Some(records) => above_destinations(above, records),
        None => above,
    }
}

fn above_runs(core: &ManifestCore) -> u32
    ensures { result ≡ capped_id (above_all (ids_in (trees_with_prefix core.now))) }
{
    let mut above = above_tree(0, &core.tree);
    'segments: for segment in core.segments.as_slice() {
        above = above_tree(above, &segment.1);
    }
    above
}

fn above_tree(above: u32, tree: &LsmTreeState) -> u32
    ensures { result ≡ capped_id (max above (above_all (map (λ run. run.id) tree.now.compacted))) }
{
    let mut next = above;
    'runs: for run in tree.compacted.iter() {
        next = next.max(run.id.saturating_add(1));
    }
    next
}

fn above_destinations(above: u32, records: &VersionedCompactions) -> u32
    ensures { result ≡ capped_id
        (max above (above_all (destinations_in (open_records (Some records.now))))) }
{
    let mut next = above;
    'jobs: for job in records.recent_compactions() {
        next = above_job(next, job);
    }
    next
}

fn above_job(above: u32, job: &Compaction) -> u32
    ensures { result ≡ capped_id
        (max above (above_all (destinations_in (filter is_open (job.now ∷ []))))) }
{
    if job.active() {
        above_destination(above, job.spec().destination())
    } else {
        above
    }
}

fn above_destination(above: u32, destination: Option<u32>) -> u32
    ensures { result ≡ capped_id (max above (above_all (destination_list destination))) }
{
    match destination {
        Some(id) => above.max(id.saturating_add(1)),
        None => above,
    }
}
