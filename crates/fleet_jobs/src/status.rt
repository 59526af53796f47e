//! The status of jobs.

ghost use Rattle.std.specs.Prelude.{◌≡◌, ◌&&◌, not};
ghost use Rattle.fleet_model.specs.Jobs.{is_finished};
ghost use Rattle.step_model.specs.Steps.Merging.{adopts, is_taken_new};
ghost use Rattle.fleet_jobs.specs.Status.{both_wait, holds_capacity, status_of};

/// The status of a job. A job that is over is Completed or Failed.
#[derive(Clone, Copy, Debug, PartialEq, Eq)]
pub enum CompactionStatus {
    /// It was asked for.
    Submitted,
    /// It waits for a worker.
    Scheduled,
    /// A worker has it.
    Running,
    /// Its tables are written. It waits for its commit.
    Compacted,
    Completed,
    Failed,
}

impl CompactionStatus {
    /// Whether the job is not over.
    pub fn active(self) -> bool
        ensures { result ≡ not (is_finished (status_of self)) }
    {
        !self.finished()
    }

    /// Whether the job is over.
    pub fn finished(self) -> bool
        ensures { result ≡ is_finished (status_of self) }
    {
        matches!(self, CompactionStatus::Completed | CompactionStatus::Failed)
    }

    /// Whether the job still has to be worked on. Such jobs count against the number of jobs at
    /// once.
    pub fn counts_against_max_concurrent(self) -> bool
        ensures { result ≡ holds_capacity (status_of self) }
    {
        matches!(
            self,
            CompactionStatus::Submitted | CompactionStatus::Scheduled | CompactionStatus::Running
        )
    }

    /// Whether a coordinator whose own record of a job has this status takes the stored record with
    /// the other status in its place. A job that is over stays so. The answer is false if both
    /// statuses are Scheduled, though a coordinator takes the stored record then, too.
    pub fn should_adopt_state_transition(&self, updated_status: CompactionStatus) -> bool
        ensures { result ≡ (adopts (status_of self.now) (status_of updated_status)
            && not (both_wait (status_of self.now) (status_of updated_status))) }
    {
        match self {
            CompactionStatus::Submitted | CompactionStatus::Compacted => {
                updated_status == CompactionStatus::Compacted
            }
            CompactionStatus::Scheduled => matches!(
                updated_status,
                CompactionStatus::Running | CompactionStatus::Compacted
            ),
            CompactionStatus::Running => matches!(
                updated_status,
                CompactionStatus::Scheduled
                    | CompactionStatus::Running
                    | CompactionStatus::Compacted
            ),
            CompactionStatus::Completed | CompactionStatus::Failed => false,
        }
    }

    /// Whether a coordinator without a record of a job takes a stored record with this status. A
    /// job that waits for a worker or has one was opened by a coordinator, so it is skipped.
    pub fn is_adopted_anew(self) -> bool
        ensures { result ≡ is_taken_new (status_of self) }
    {
        !matches!(
            self,
            CompactionStatus::Scheduled | CompactionStatus::Running
        )
    }
}
