//! The size-tiered scheduler.

ghost use Rattle.std.specs.Prelude.{◌≡◌, ℕ, List};

use crate::picking::picks_in;
use crate::planning::{free_slots, fresh_run_id, trees_to_plan};
use crate::validation::check;
use crate::{CompactionScheduler, SizeTieredCompactionSchedulerOptions, default_generate};
use fleet_book::{CompactionRequest, CompactorStateView};
use fleet_jobs::CompactionSpec;
use fleet_rows::SlateDBError;
use std::alloc::Global;
use std::marker::Model;

// How many jobs may be under way at once if no number is given.
const DEFAULT_MAX_CONCURRENT_COMPACTIONS: u64 = 4;

/// The size-tiered scheduler. It joins flushes of a tree into a fresh run, and runs of similar
/// sizes into the oldest of them. Contracts see its parts.
#[derive(Clone, Copy, Debug)]
pub struct SizeTieredCompactionScheduler {
    options: SizeTieredCompactionSchedulerOptions,
    max_concurrent_compactions: u64,
}

impl Model for SizeTieredCompactionScheduler {
    ghost use Rattle.fleet_sched.specs.TieredParts.{TieredParts};

    ghost Value = { TieredParts };

    ghost view = { λ s. record {
      options = s.options;
      max_concurrent_compactions = s.max_concurrent_compactions;
    } };

    ghost inverse = { λ v. record {
      options = v.options;
      max_concurrent_compactions = v.max_concurrent_compactions;
    } };
}

impl SizeTieredCompactionScheduler {
    /// A scheduler with these options. It proposes jobs while fewer than the given number are
    /// Submitted, Scheduled or Running.
    pub fn new(
        options: SizeTieredCompactionSchedulerOptions,
        max_concurrent_compactions: u64,
    ) -> SizeTieredCompactionScheduler
        ensures { result ≡ record {
          options = options;
          max_concurrent_compactions = max_concurrent_compactions;
        } }
    {
        SizeTieredCompactionScheduler {
            options,
            max_concurrent_compactions,
        }
    }
}

/// The scheduler with the default options, and at most 4 jobs under way.
impl Default for SizeTieredCompactionScheduler {
    ghost use Rattle.fleet_sched.specs.Options.{default_options};

    ghost is_default = { λ s. s
        ≡ record { options = default_options; max_concurrent_compactions = 4 } };

    fn default() -> SizeTieredCompactionScheduler {
        SizeTieredCompactionScheduler::new(
            SizeTieredCompactionSchedulerOptions::default(),
            DEFAULT_MAX_CONCURRENT_COMPACTIONS,
        )
    }
}

impl CompactionScheduler for SizeTieredCompactionScheduler {
    ghost use Rattle.sched_model.specs.SizeTiered.{tiered_scheduler};

    ghost answers = { λ s. tiered_scheduler s.options s.max_concurrent_compactions };

    fn propose(
        &self,
        alloc: Global,
        state: &CompactorStateView,
    ) -> Result<Vec<CompactionSpec>, SlateDBError> {
        let slots = free_slots(self.max_concurrent_compactions, state);
        if slots == 0 {
            return Ok(Vec::new(alloc));
        }
        let trees = trees_to_plan(alloc, state)?;
        let picks = picks_in(alloc, &self.options, slots, fresh_run_id(state), trees)?;
        Ok(picks)
    }

    fn validate(
        &self,
        alloc: Global,
        state: &CompactorStateView,
        spec: &CompactionSpec,
    ) -> Result<(), SlateDBError> {
        check(alloc, state, spec)
    }

    fn generate(
        &self,
        alloc: Global,
        state: &CompactorStateView,
        request: &CompactionRequest,
    ) -> Result<Vec<CompactionSpec>, SlateDBError> {
        default_generate(alloc, state, request)
    }
}
