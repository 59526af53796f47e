// A scheduler whose answers are given.
use fleet_book::{CompactionRequest, CompactorStateView};
use fleet_jobs::CompactionSpec;
use fleet_rows::{ListOf, SlateDBError, Text};
use fleet_sched::{CompactionScheduler, default_generate};
use std::alloc::Global;

/// Proposes these jobs, and accepts or refuses each job and each request.
#[derive(Drop)]
pub(crate) struct Willing {
    pub specs: ListOf<CompactionSpec>,
    pub accepts: bool,
}

impl Willing {
    /// Proposes nothing, and accepts everything.
    pub(crate) fn new(alloc: Global) -> Willing {
        Willing {
            specs: ListOf::new(alloc),
            accepts: true,
        }
    }
}

impl CompactionScheduler for Willing {
    ghost use Rattle.std.specs.Prelude.{map, codes, if◌then◌else◌};
    ghost use Rattle.fleet_model.specs.Work.Scheduler.{Declined, default_generate};
    ghost use Rattle.fleet_jobs.specs.Specs.{spec_of};

    ghost answers = { λ w. record {
      propose = λ view. map spec_of w.specs;
      validate = λ view spec. w.accepts;
      generate = λ view request.
          if w.accepts then default_generate view request else Declined (codes "no");
    } };

    fn propose(
        &self,
        _alloc: Global,
        _state: &CompactorStateView,
    ) -> Result<Vec<CompactionSpec>, SlateDBError> {
        Ok(self.specs.clone()?.into_vec())
    }

    fn validate(
        &self,
        _alloc: Global,
        _state: &CompactorStateView,
        _spec: &CompactionSpec,
    ) -> Result<(), SlateDBError> {
        if self.accepts {
            Ok(())
        } else {
            Err(SlateDBError::InvalidCompaction)
        }
    }

    fn generate(
        &self,
        alloc: Global,
        state: &CompactorStateView,
        request: &CompactionRequest,
    ) -> Result<Vec<CompactionSpec>, SlateDBError> {
        if self.accepts {
            return default_generate(alloc, state, request);
        }
        Err(SlateDBError::Generate {
            message: Text::new(String::from_str(alloc, "no")?),
        })
    }
}
