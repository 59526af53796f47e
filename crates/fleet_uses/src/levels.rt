//! A caller that asks the level scheduler about a tree that it made.

ghost use Rattle.std.specs.Prelude.{◌≡◌, ◌<◌, [], length, IfOk};
ghost use Rattle.sched_model.specs.Levels.{level_picks};
ghost use Rattle.fleet_tree.specs.Trees.{RunFlushes};
ghost use Rattle.fleet_sched.specs.Answers.{Proposes};
ghost use Rattle.fleet_sched.specs.Views.{view_of};
ghost use Rattle.fleet_uses.specs.Levels.{state_with};

use fleet_book::CompactorStateView;
use fleet_jobs::CompactionSpec;
use fleet_level::{LevelOptions, LevelScheduler};
use fleet_rows::SlateDBError;
use fleet_sched::CompactionScheduler;
use fleet_tree::{
    FlushList, LsmTreeState, Manifest, ManifestCore, SegmentList, TrackerList, VersionedManifest,
};
use std::alloc::Global;

// A store whose root has these flushes, before its first job.
fn state_with(alloc: Global, flushes: FlushList) -> CompactorStateView
    ensures { result ≡ state_with flushes }
{
    let mut tree = LsmTreeState::new(alloc);
    tree.l0 = flushes;
    let core = ManifestCore {
        tree,
        segments: SegmentList::new(alloc),
        recent_snapshot_min_seq: 0,
        last_l0_clock_tick: 0,
        tracker: TrackerList::new(alloc),
        horizon: 0,
    };
    let manifest = Manifest {
        compactor_epoch: 0,
        core,
    };
    CompactorStateView {
        manifest: VersionedManifest { id: 1, manifest },
        compactions: None,
    }
}

/// The jobs that the level scheduler proposes for a root with these flushes. Fewer flushes than the
/// trigger need no job.
pub fn flush_jobs(
    alloc: Global,
    options: LevelOptions,
    flushes: FlushList,
) -> Result<Vec<CompactionSpec>, SlateDBError>
    ensures jobs { (run_flushes : RunFlushes)
        → Proposes (level_picks options 4 (view_of run_flushes (state_with flushes))) result }
    ensures rest { length flushes < options.l0_trigger → IfOk result (λ jobs. jobs.items ≡ []) }
{
    let scheduler = LevelScheduler::new(options, 4);
    let state = state_with(alloc, flushes);
    scheduler.propose(alloc, &state)
}
