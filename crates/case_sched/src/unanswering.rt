//! A scheduler without answers of its own.

use fleet_book::{CompactionRequest, CompactorStateView};
use fleet_jobs::CompactionSpec;
use fleet_rows::SlateDBError;
use fleet_sched::{CompactionScheduler, default_generate, default_validate};
use std::alloc::Global;

/// Proposes nothing, accepts each job, and answers requests with whole trees.
#[derive(Drop)]
pub struct Unanswering;

impl CompactionScheduler for Unanswering {
    ghost use Rattle.std.specs.Prelude.{[], true};
    ghost use Rattle.fleet_model.specs.Work.Scheduler.{default_generate};

    ghost answers = { λ _. record {
      propose = λ view. [];
      validate = λ view spec. true;
      generate = default_generate;
    } };

    fn propose(
        &self,
        alloc: Global,
        _state: &CompactorStateView,
    ) -> Result<Vec<CompactionSpec>, SlateDBError> {
        Ok(Vec::new(alloc))
    }

    fn validate(
        &self,
        _alloc: Global,
        state: &CompactorStateView,
        spec: &CompactionSpec,
    ) -> Result<(), SlateDBError> {
        default_validate(state, spec)
    }

    fn generate(
        &self,
        alloc: Global,
        state: &CompactorStateView,
        request: &CompactionRequest,
    ) -> Result<Vec<CompactionSpec>, SlateDBError> {
        default_generate(alloc, state, request)
    }
}
