//! Changes of the job records.

ghost use Rattle.std.specs.Prelude.{◌≡◌, IfOk, IsOkUnless};

use fleet_jobs::SpecList;
use fleet_rows::{AttemptList, JobList, NamesList, SlateDBError, Ulid};

/// The jobs whose records a poll changes.
#[derive(Clone, Debug, Drop, PartialEq, Eq)]
pub struct PollChange {
    /// Running jobs that wait for a worker again.
    pub freed: JobList,
    /// Jobs that were committed, moved or drained.
    pub completed: JobList,
    /// Jobs that a gate refused.
    pub failed: JobList,
    /// Jobs that the scheduler proposed, under new ids.
    pub added: SpecList,
    /// Jobs that were opened, and wait for a worker.
    pub scheduled: JobList,
}

impl PollChange {
    /// A copy.
    pub fn clone(&self) -> Result<PollChange, SlateDBError>
        ensures copy { IfOk result (λ copy. copy ≡ self.now) }
        ensures memory { IsOkUnless result SlateDBError.Memory }
    {
        Ok(Clone::clone(self)?)
    }
}

/// Why records are put. Attempts are given by job and number.
#[derive(Clone, Debug, Drop, PartialEq, Eq)]
pub enum RecordChange {
    /// A coordinator comes with this epoch.
    Epoch(u64),
    /// New jobs are asked for.
    Submit(SpecList),
    /// The worker with this number takes these attempts.
    Claim(u64, AttemptList),
    /// The worker with this number still has these attempts.
    Beat(u64, AttemptList),
    /// The worker with this number ends the attempt of this job with this number. It wrote these
    /// tables.
    Finish(u64, Ulid, u64, NamesList),
    /// The worker with this number gives these attempts back.
    Release(u64, AttemptList),
    Poll(PollChange),
}

impl RecordChange {
    /// A copy.
    pub fn clone(&self) -> Result<RecordChange, SlateDBError>
        ensures copy { IfOk result (λ copy. copy ≡ self.now) }
        ensures memory { IsOkUnless result SlateDBError.Memory }
    {
        Ok(Clone::clone(self)?)
    }
}
