//! The level scheduler.

ghost use Rattle.std.specs.Prelude.{◌≡◌};

use crate::LevelOptions;
use crate::picking::Picking;
use crate::sizes::table_sizes;
use fleet_book::{CompactionRequest, CompactorStateView};
use fleet_jobs::CompactionSpec;
use fleet_rows::SlateDBError;
use fleet_sched::{CompactionScheduler, default_generate, default_validate, free_slots};
use std::alloc::Global;
use std::marker::Model;

/// The level scheduler. It joins the flushes of a tree, and each run that is too large with the
/// next older one. Contracts see its parts.
#[derive(Clone, Copy, Debug)]
pub struct LevelScheduler {
    options: LevelOptions,
    max_concurrent_compactions: u64,
}

impl Model for LevelScheduler {
    ghost use Rattle.fleet_level.specs.LevelParts.{LevelParts};

    ghost Value = { LevelParts };

    ghost view = { λ s. record {
      options = s.options;
      max_concurrent_compactions = s.max_concurrent_compactions;
    } };

    ghost inverse = { λ v. record {
      options = v.options;
      max_concurrent_compactions = v.max_concurrent_compactions;
    } };
}

impl LevelScheduler {
    /// A scheduler with these options. It proposes jobs while fewer than the given number are
    /// Submitted, Scheduled or Running.
    pub fn new(options: LevelOptions, max_concurrent_compactions: u64) -> LevelScheduler
        ensures { result ≡ record {
          options = options;
          max_concurrent_compactions = max_concurrent_compactions;
        } }
    {
        LevelScheduler {
            options,
            max_concurrent_compactions,
        }
    }
}

/// It accepts each job. It answers a request with `default_generate`.
impl CompactionScheduler for LevelScheduler {
    ghost use Rattle.sched_model.specs.Levels.{level_scheduler};

    ghost answers = { λ s. level_scheduler s.options s.max_concurrent_compactions };

    fn propose(
        &self,
        alloc: Global,
        state: &CompactorStateView,
    ) -> Result<Vec<CompactionSpec>, SlateDBError> {
        let slots = free_slots(self.max_concurrent_compactions, state);
        let core = state.manifest().core();
        let sizes = table_sizes(alloc, core)?;
        let mut picking = Picking::begun(alloc, state)?;
        picking.pick_trees(alloc, &self.options, &sizes, core)?;
        let mut picks = picking.into_picks();
        picks.truncate(slots as usize);
        Ok(picks)
    }

    fn validate(
        &self,
        _alloc: Global,
        state: &CompactorStateView,
        spec: &CompactionSpec,
    ) -> Result<(), SlateDBError> {
        default_validate(state, spec)
    }

    fn generate(
        &self,
        alloc: Global,
        state: &CompactorStateView,
        request: &CompactionRequest,
    ) -> Result<Vec<CompactionSpec>, SlateDBError> {
        default_generate(alloc, state, request)
    }
}
