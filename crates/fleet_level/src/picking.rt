//! Picks of jobs, tree by tree: the flushes of a tree first, and then its runs.

ghost use Rattle.std.specs.Prelude.{◌≡◌, ◌||◌, ℕ, List, [], ◌∷◌, map, flat_map, IfOk, OnOk};
ghost use Rattle.fleet_model.specs.Handles.{Handle};
ghost use Rattle.fleet_model.specs.Jobs.{nodes_of};
ghost use Rattle.fleet_model.specs.Nodes.{Run, names_contain};
ghost use Rattle.sched_model.specs.FreshRuns.{fresh_run_id};
ghost use Rattle.sched_model.specs.Levels as model;
ghost use Rattle.fleet_tree.specs.Trees.{RunFlushes, run_node, segment_of, trees_of};
ghost use Rattle.fleet_jobs.specs.Sources.{name_of};
ghost use Rattle.fleet_jobs.specs.Specs.{spec_of};
ghost use Rattle.fleet_sched.specs.Views.{shown_jobs, view_of};
ghost use Rattle.fleet_level.specs.Picks.{SamePicks};
ghost use Rattle.fleet_level.specs.Sizes.{HasSizes};

use crate::LevelOptions;
use crate::sizes::run_size;
use crate::used_nodes::{are_fewer, flush_sources, nodes_used, uses_any};
use bytes::Bytes;
use fleet_book::CompactorStateView;
use fleet_jobs::{CompactionSpec, NodeSet, SourceId};
use fleet_rows::Ulid;
use fleet_sched::fresh_run_id;
use fleet_tree::{LsmTreeState, ManifestCore, Runs, SortedRun};
use std::alloc::{AllocError, Global};
use std::collections::BTreeMap;
use std::marker::Model;

/// The nodes that may not be picked again, the id of the next fresh run, and the picks so far.
/// Contracts see the model's picks.
#[derive(Debug, Drop)]
pub struct Picking {
    used: NodeSet,
    fresh: u32,
    picks: Vec<CompactionSpec>,
}

impl Model for Picking {
    ghost use Rattle.std.specs.Prelude.{map};
    ghost use Rattle.sched_model.specs.Levels as model;
    ghost use Rattle.fleet_jobs.specs.Specs.{spec_of};

    ghost Value = { model.LevelPicking };

    ghost view = { λ p. record {
      used = p.used;
      fresh = p.fresh;
      picks = map spec_of p.picks.items;
    } };
}

impl Picking {
    /// The state before the first pick. The jobs that are shown use their nodes.
    pub fn begun(alloc: Global, state: &CompactorStateView) -> Result<Picking, AllocError>
        ensures { (flushes : RunFlushes) → IfOk result (λ begun. begun ≡ record {
          used = flat_map (λ job. nodes_of job.spec) (shown_jobs state.now);
          fresh = fresh_run_id (view_of flushes state.now);
          picks = [];
        }) }
    {
        Ok(Picking {
            used: nodes_used(alloc, state)?,
            fresh: fresh_run_id(state),
            picks: Vec::new(alloc),
        })
    }

    /// The picks so far.
    pub fn into_picks(self) -> Vec<CompactionSpec>
        ensures { map spec_of result.items ≡ self.picks }
    {
        let Picking {
            used: _,
            fresh: _,
            picks,
        } = self;
        picks
    }

    // Adds a pick, whose nodes are used from then on.
    fn add(&mut self, spec: CompactionSpec) -> Result<(), AllocError>
        ensures { OnOk result
            (SamePicks self.new (model.with_level_pick (spec_of spec) self.old)) }
    {
        self.used.add_nodes_of(&spec)?;
        self.picks.push(spec)?;
        Ok(())
    }

    // Adds a pick into the fresh run.
    fn add_fresh(&mut self, segment: &Bytes, sources: Vec<SourceId>) -> Result<(), AllocError>
        ensures { OnOk result (SamePicks self.new
            (model.with_fresh_pick segment.now (map name_of sources.items) self.old)) }
    {
        let segment = Clone::clone(segment)?;
        self.add(CompactionSpec::for_segment(segment, sources, self.fresh))?;
        self.fresh = self.fresh.saturating_add(1);
        Ok(())
    }

    // Picks flushes and a run into the run, unless the run is used.
    fn pick_into_run(
        &mut self,
        segment: &Bytes,
        flushes: Vec<SourceId>,
        run: u32,
    ) -> Result<(), AllocError>
        ensures { OnOk result (SamePicks self.new
            (model.pick_into_run segment.now (map name_of flushes.items) (Run run) self.old)) }
    {
        if self.used.contains(SourceId::SortedRun(run)) {
            return Ok(());
        }
        let mut sources = flushes;
        sources.push(SourceId::SortedRun(run))?;
        let segment = Clone::clone(segment)?;
        self.add(CompactionSpec::for_segment(segment, sources, run))
    }

    // Picks flushes into the newest run if its size is at most the base, and otherwise into a fresh
    // run.
    fn pick_flushes_into(
        &mut self,
        options: &LevelOptions,
        sizes: &BTreeMap<Ulid, u64>,
        segment: &Bytes,
        flushes: Vec<SourceId>,
        runs: Runs<'_>,
    ) -> Result<(), AllocError>
        ensures { (handles : List Handle) (run_flushes : ℕ → List ℕ) → HasSizes sizes.now handles
            → OnOk result (SamePicks self.new (model.pick_flushes_into options.now handles
            segment.now (map name_of flushes.items) (map (run_node run_flushes) runs.entry)
            self.old)) }
    {
        let mut rest = runs;
        let Some(run) = rest.next() else {
            return self.add_fresh(segment, flushes);
        };
        if run_size(sizes, run) <= options.base {
            self.pick_into_run(segment, flushes, run.id)
        } else {
            self.add_fresh(segment, flushes)
        }
    }

    // Picks the flushes of a tree if they reach the trigger and none of them is used.
    fn pick_flushes(
        &mut self,
        alloc: Global,
        options: &LevelOptions,
        sizes: &BTreeMap<Ulid, u64>,
        segment: &Bytes,
        tree: &LsmTreeState,
    ) -> Result<(), AllocError>
        ensures { (handles : List Handle) (flushes : RunFlushes) → HasSizes sizes.now handles
            → OnOk result (SamePicks self.new (model.pick_flushes options.now handles
            (segment_of flushes (segment.now, tree.now)) self.old)) }
    {
        if are_fewer(&tree.l0, options.l0_trigger) {
            return Ok(());
        }
        if uses_any(&self.used, &tree.l0) {
            return Ok(());
        }
        let sources = flush_sources(alloc, &tree.l0)?;
        self.pick_flushes_into(options, sizes, segment, sources, tree.compacted.iter())
    }

    // Picks a run into the next older one if the run is above its limit and neither of them is
    // used.
    fn pick_pair(
        &mut self,
        alloc: Global,
        sizes: &BTreeMap<Ulid, u64>,
        segment: &Bytes,
        limit: u64,
        run: &SortedRun,
        next: &SortedRun,
    ) -> Result<(), AllocError>
        ensures { (options : model.LevelOptions) (place : ℕ) (handles : List Handle)
            (flushes : ℕ → List ℕ) → limit ≡ model.limit options place
            → HasSizes sizes.now handles
            → OnOk result (SamePicks self.new (model.pick_pair options handles segment.now place
            (run_node flushes run.now) (run_node flushes next.now) self.old)) }
    {
        if run_size(sizes, run) <= limit {
            return Ok(());
        }
        if self.uses_either(run.id, next.id) {
            return Ok(());
        }
        let mut sources = Vec::new(alloc);
        sources.push(SourceId::SortedRun(run.id))?;
        sources.push(SourceId::SortedRun(next.id))?;
        let segment = Clone::clone(segment)?;
        self.add(CompactionSpec::for_segment(segment, sources, next.id))
    }

    fn uses_either(&self, run: u32, next: u32) -> bool
        ensures { result ≡ (names_contain self.now.used (Run run)
            || names_contain self.now.used (Run next)) }
    {
        self.used.contains(SourceId::SortedRun(run))
            || self.used.contains(SourceId::SortedRun(next))
    }

    // Looks at each run of a tree except the oldest, from the newest on.
    fn pick_runs(
        &mut self,
        alloc: Global,
        options: &LevelOptions,
        sizes: &BTreeMap<Ulid, u64>,
        segment: &Bytes,
        runs: Runs<'_>,
    ) -> Result<(), AllocError>
        ensures { (handles : List Handle) (flushes : ℕ → List ℕ) → HasSizes sizes.now handles
            → OnOk result (SamePicks self.new (model.pick_runs options.now handles segment.now 0
            (map (run_node flushes) runs.entry) self.old)) }
    {
        let mut rest = runs;
        let Some(first) = rest.next() else {
            return Ok(());
        };
        let mut run = first;
        let mut limit = options.base;
        'runs: for next in rest {
            self.pick_pair(alloc, sizes, segment, limit, run, next)?;
            limit = limit.saturating_mul(options.ratio);
            run = next;
        }
        Ok(())
    }

    // Looks at a tree: at its flushes first, and then at its runs.
    fn pick_tree(
        &mut self,
        alloc: Global,
        options: &LevelOptions,
        sizes: &BTreeMap<Ulid, u64>,
        segment: &Bytes,
        tree: &LsmTreeState,
    ) -> Result<(), AllocError>
        ensures { (handles : List Handle) (flushes : RunFlushes) → HasSizes sizes.now handles
            → OnOk result (SamePicks self.new (model.pick_trees options.now handles
            (segment_of flushes (segment.now, tree.now) ∷ []) self.old)) }
    {
        self.pick_flushes(alloc, options, sizes, segment, tree)?;
        self.pick_runs(alloc, options, sizes, segment, tree.compacted.iter())
    }

    /// Looks at the trees in their order.
    pub fn pick_trees(
        &mut self,
        alloc: Global,
        options: &LevelOptions,
        sizes: &BTreeMap<Ulid, u64>,
        core: &ManifestCore,
    ) -> Result<(), AllocError>
        ensures { (handles : List Handle) (flushes : RunFlushes) → HasSizes sizes.now handles
            → OnOk result (SamePicks self.new
            (model.pick_trees options.now handles (trees_of flushes core.now) self.old)) }
    {
        self.pick_tree(alloc, options, sizes, &Bytes::new(), &core.tree)?;
        'segments: for segment in core.segments.as_slice() {
            self.pick_tree(alloc, options, sizes, &segment.0, &segment.1)?;
        }
        Ok(())
    }
}
