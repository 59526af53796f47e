//! The answers of schedulers that have no answers of their own to requests and to jobs.

ghost use Rattle.std.specs.Prelude.{◌≡◌, ◌++◌, ℕ, List, [], ◌∷◌, Ok, map, option_map, IfOk, OnOk};
ghost use Rattle.std.specs.List.{filter_map};
ghost use Rattle.fleet_model.specs.Work.Scheduler as model;
ghost use Rattle.fleet_model.specs.Nodes.{Run};
ghost use Rattle.fleet_jobs.specs.Sources.{name_of};
ghost use Rattle.fleet_book.specs.Requests.{request_of};
ghost use Rattle.fleet_jobs.specs.Specs.{spec_of};
ghost use Rattle.fleet_tree.specs.Trees.{RunFlushes};
ghost use Rattle.fleet_sched.specs.Answers.{Generates};
ghost use Rattle.fleet_sched.specs.Full.{full_spec_in, segment_answer};
ghost use Rattle.fleet_sched.specs.Views.{trees_in, view_of};

use bytes::Bytes;
use fleet_book::{CompactionRequest, CompactorStateView};
use fleet_jobs::{CompactionSpec, SourceId, lowest_run};
use fleet_rows::SlateDBError;
use fleet_tree::{LsmTreeState, Runs};
use std::alloc::{AllocError, Global};

/// Accepts each job.
pub fn default_validate(
    _state: &CompactorStateView,
    _spec: &CompactionSpec,
) -> Result<(), SlateDBError>
    ensures { result ≡ Ok tt }
{
    Ok(())
}

/// A spec gives itself. `FullSegment` gives the merge of all runs of the segment's tree into the
/// lowest of them, and is refused with `InvalidCompaction` if the segment has no tree or no runs.
/// `Full` gives such a merge for each tree that has runs.
pub fn default_generate(
    alloc: Global,
    state: &CompactorStateView,
    request: &CompactionRequest,
) -> Result<Vec<CompactionSpec>, SlateDBError>
    ensures { (flushes : RunFlushes) → Generates
        (model.default_generate (view_of flushes state.now) (request_of request.now)) result }
{
    match request {
        CompactionRequest::Full => Ok(full_specs(alloc, state)?),
        CompactionRequest::FullSegment { segment } => full_segment(alloc, state, segment),
        CompactionRequest::Spec(spec) => Ok(one(alloc, spec.clone()?)?),
    }
}

// The merges of all trees that have runs, the root's first.
fn full_specs(alloc: Global, state: &CompactorStateView) -> Result<Vec<CompactionSpec>, AllocError>
    ensures { IfOk result
        (λ specs. map spec_of specs.items ≡ filter_map full_spec_in (trees_in state.now)) }
{
    let core = state.manifest().core();
    let mut specs = Vec::new(alloc);
    add_full(alloc, &mut specs, &Bytes::new(), &core.tree)?;
    add_segments(alloc, &mut specs, core.segments.as_slice())?;
    Ok(specs)
}

fn add_segments(
    alloc: Global,
    specs: &mut Vec<CompactionSpec>,
    segments: &[(Bytes, LsmTreeState)],
) -> Result<(), AllocError>
    ensures { OnOk result (map spec_of specs.new.items
        ≡ map spec_of specs.old.items ++ filter_map full_spec_in segments.now) }
{
    'segments: for segment in segments {
        add_full(alloc, specs, &segment.0, &segment.1)?;
    }
    Ok(())
}

// Adds the merge of all runs of the tree, if it has runs.
fn add_full(
    alloc: Global,
    specs: &mut Vec<CompactionSpec>,
    segment: &Bytes,
    tree: &LsmTreeState,
) -> Result<(), AllocError>
    ensures { OnOk result (map spec_of specs.new.items ≡ map spec_of specs.old.items
        ++ filter_map full_spec_in ((segment.now, tree.now) ∷ [])) }
{
    if let Some(spec) = full_spec(alloc, segment, tree)? {
        specs.push(spec)?;
    }
    Ok(())
}

// The merge of all runs of the tree, if it has runs.
fn full_spec(
    alloc: Global,
    segment: &Bytes,
    tree: &LsmTreeState,
) -> Result<Option<CompactionSpec>, AllocError>
    ensures { IfOk result
        (λ spec. option_map spec_of spec ≡ full_spec_in (segment.now, tree.now)) }
{
    let sources = sources(alloc, tree.compacted.iter())?;
    // It need not be the last run: the order of a tree's runs is not checked where a view is made.
    let Some(lowest) = lowest_run(sources.as_slice()) else {
        return Ok(None);
    };
    let segment = Clone::clone(segment)?;
    Ok(Some(CompactionSpec::for_segment(segment, sources, lowest)))
}

fn sources(alloc: Global, runs: Runs<'_>) -> Result<Vec<SourceId>, AllocError>
    ensures { IfOk result
        (λ sources. map name_of sources.items ≡ map (λ run. Run run.id) runs.entry) }
{
    let mut sources = Vec::new(alloc);
    'runs: for run in runs {
        sources.push(SourceId::SortedRun(run.id))?;
    }
    Ok(sources)
}

// The merge of all runs of the tree of this segment. It is refused if there is no such tree, or if
// the tree has no runs.
fn full_segment(
    alloc: Global,
    state: &CompactorStateView,
    segment: &Bytes,
) -> Result<Vec<CompactionSpec>, SlateDBError>
    ensures { Generates (segment_answer segment.now state.now) result }
{
    let core = state.manifest().core();
    let Some(tree) = core.tree_for_segment(segment.as_slice()) else {
        return Err(SlateDBError::InvalidCompaction);
    };
    match full_spec(alloc, segment, tree)? {
        Some(spec) => Ok(one(alloc, spec)?),
        None => Err(SlateDBError::InvalidCompaction),
    }
}

fn one(alloc: Global, spec: CompactionSpec) -> Result<Vec<CompactionSpec>, AllocError>
    ensures { IfOk result (λ specs. specs.items ≡ spec ∷ []) }
{
    let mut specs = Vec::new(alloc);
    specs.push(spec)?;
    Ok(specs)
}
