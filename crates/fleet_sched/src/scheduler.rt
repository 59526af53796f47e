//! What a scheduler is.

ghost use Rattle.fleet_model.specs.Work.Scheduler.{Scheduler};
ghost use Rattle.fleet_book.specs.Requests.{request_of};
ghost use Rattle.fleet_jobs.specs.Specs.{spec_of};
ghost use Rattle.fleet_tree.specs.Trees.{RunFlushes};
ghost use Rattle.fleet_sched.specs.Answers.{Generates, Proposes, Validates};
ghost use Rattle.fleet_sched.specs.Views.{view_of};

use fleet_book::{CompactionRequest, CompactorStateView};
use fleet_jobs::CompactionSpec;
use fleet_rows::SlateDBError;
use std::alloc::Global;

/// A scheduler of compaction jobs. Each answer is a function of the scheduler's value, of the view
/// of the state that it is given, and of the spec or the request, except that memory may run out.
///
/// The view of a state has the manifest with its version and epoch, the version and the epoch of
/// the job records, the jobs that are not over, and the handles of the tables that the trees and
/// these jobs name. States with equal views get equal answers. So no answer depends on the bytes
/// that a job has processed, on jobs that are over, on which flushes went into a run, or on the ids
/// of a run's views. If there are no records, the view is that of empty ones with version and epoch
/// 0.
pub trait CompactionScheduler: Send + Sync + Drop {
    /// The scheduler of the model that gives these answers on views.
    ghost answers: { Self → Scheduler };

    /// The jobs that it proposes on the view of this state.
    fn propose(
        &self,
        alloc: Global,
        state: &CompactorStateView,
    ) -> Result<Vec<CompactionSpec>, SlateDBError>
        ensures { (flushes : RunFlushes)
            → Proposes ((answers self.now).propose (view_of flushes state.now)) result };

    /// Refuses the job with `InvalidCompaction` if it may not be opened or committed on the view of
    /// this state.
    fn validate(
        &self,
        alloc: Global,
        state: &CompactorStateView,
        spec: &CompactionSpec,
    ) -> Result<(), SlateDBError>
        ensures { (flushes : RunFlushes) → Validates
            ((answers self.now).validate (view_of flushes state.now) (spec_of spec.now)) result };

    /// The jobs that a request of a user gives on the view of this state. Refuses the request with
    /// `InvalidCompaction`, or with `Generate` and a message.
    fn generate(
        &self,
        alloc: Global,
        state: &CompactorStateView,
        request: &CompactionRequest,
    ) -> Result<Vec<CompactionSpec>, SlateDBError>
        ensures { (flushes : RunFlushes) → Generates
            ((answers self.now).generate (view_of flushes state.now) (request_of request.now))
            result };
}
