//! Trees while the scheduler picks.

ghost use Rattle.std.specs.Prelude.{◌≡◌, length, option_map, map, IfOk, OnOk};
ghost use Rattle.std.specs.Prelude.{Some};
ghost use Rattle.fleet_model.specs.Nodes.{Run};
ghost use Rattle.fleet_jobs.specs.Sources.{name_of};
ghost use Rattle.sched_model.specs.Series.{is_allowed};
ghost use Rattle.fleet_jobs.specs.Specs.{spec_of};
ghost use Rattle.sched_model.specs.Picks.{flush_pick, into_last, last_of, next_pick, run_pick, with_pick};
ghost use Rattle.sched_model.specs.Sizes.{flush_names};

use crate::SizeTieredCompactionSchedulerOptions;
use crate::series::{first_series, is_taken_again};
use crate::sized_nodes::{
    SizedFlush, SizedRun, flush_sources, oldest_flushes, run_sources, total_size,
};
use bytes::Bytes;
use fleet_jobs::{CompactionSpec, NodeSet, SourceId};
use std::alloc::{AllocError, Global};
use std::marker::Model;

/// A tree while the scheduler picks: its flushes and its runs, newest first, and the nodes that
/// jobs and earlier picks use. Contracts see the model's tree.
#[derive(Debug, Drop)]
pub struct Planned {
    pub segment: Bytes,
    pub flushes: Vec<SizedFlush>,
    pub runs: Vec<SizedRun>,
    pub used: NodeSet,
}

impl Model for Planned {
    ghost use Rattle.sched_model.specs.Picks as model;

    ghost Value = { model.Planned };

    ghost view = { λ t. record {
      tree = record { segment = t.segment; flushes = t.flushes.items; runs = t.runs.items };
      used = t.used;
    } };
}

impl Planned {
    /// The number of flushes.
    pub fn flush_count(&self) -> usize
        ensures { result ≡ length self.now.tree.flushes }
    {
        self.flushes.len()
    }

    /// The pick of the oldest flushes into the fresh run, if they may be joined.
    pub fn flush_pick(
        &self,
        alloc: Global,
        options: &SizeTieredCompactionSchedulerOptions,
        fresh: u32,
    ) -> Result<Option<CompactionSpec>, AllocError>
        ensures { IfOk result
            (λ pick. option_map spec_of pick ≡ flush_pick options.now fresh self.now) }
    {
        let flushes = self.flushes.as_slice();
        if (flushes.len() as u64) < options.min_compaction_sources {
            return Ok(None);
        }
        let chosen = oldest_flushes(options.max_compaction_sources, flushes);
        let sources = flush_sources(alloc, chosen)?;
        if !self.allows(options, fresh, sources.as_slice(), total_size(chosen)) {
            return Ok(None);
        }
        let segment = Clone::clone(&self.segment)?;
        Ok(Some(CompactionSpec::for_segment(segment, sources, fresh)))
    }

    // Whether flushes of this size in sum may be joined into the fresh run.
    fn allows(
        &self,
        options: &SizeTieredCompactionSchedulerOptions,
        fresh: u32,
        sources: &[SourceId],
        size: u64,
    ) -> bool
        ensures { result ≡ is_allowed options.now self.now.used
            (map name_of sources.now) size (Run fresh) self.now.tree.runs }
    {
        self.used.leaves(SourceId::SortedRun(fresh), sources)
            && !is_taken_again(options, size, self.runs.as_slice())
    }

    /// The pick of runs, if there is one.
    pub fn run_pick(
        &self,
        alloc: Global,
        options: &SizeTieredCompactionSchedulerOptions,
    ) -> Result<Option<CompactionSpec>, AllocError>
        ensures { IfOk result
            (λ pick. option_map spec_of pick ≡ run_pick options.now self.now) }
    {
        let Some(runs) = first_series(options, &self.used, self.runs.as_slice()) else {
            return Ok(None);
        };
        let Some(last) = last_id(runs) else {
            unreachable!()
        };
        let segment = Clone::clone(&self.segment)?;
        let sources = run_sources(alloc, runs)?;
        Ok(Some(CompactionSpec::for_segment(segment, sources, last)))
    }

    /// Marks the nodes of a pick as used.
    pub fn add(&mut self, spec: &CompactionSpec) -> Result<(), AllocError>
        ensures { OnOk result (self.new ≡ with_pick (Some (spec_of spec.now)) self.old) }
    {
        self.used.add_nodes_of(spec)
    }
}

fn last_id(runs: &[SizedRun]) -> Option<u32>
    ensures { result ≡ last_of (map (λ run. run.id) runs.now) }
{
    match runs.last() {
        Some(run) => Some(run.id),
        None => None,
    }
}
