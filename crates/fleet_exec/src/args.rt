//! What starts a job.

ghost use Rattle.std.specs.Prelude.{◌≡◌, IfOk, IsOkUnless};

use fleet_jobs::{CompactionContext, Release};
use fleet_rows::{SlateDBError, Ulid};
use fleet_tree::{SharedList, SortedRun, ViewList};

/// The arguments with which a job is started.
#[derive(Clone, Debug, Drop, PartialEq, Eq)]
pub struct StartCompactionJobArgs {
    pub id: Ulid,
    /// The id of the job's record.
    pub compaction_id: Ulid,
    /// The number of the attempt.
    pub attempt: u64,
    /// The id of the run that the job writes.
    pub destination: u32,
    pub l0_sst_views: ViewList,
    pub sorted_runs: SharedList<SortedRun>,
    /// The moment, in milliseconds, by which rows count as expired.
    pub compaction_clock_tick: i64,
    /// Whether the job writes the last run of its tree.
    pub is_dest_last_run: bool,
    /// The floor. It is used only if there is no context.
    pub retention_min_seq: Option<u64>,
    /// The cut. It is used only if there is no context.
    pub cut: u64,
    /// The release of the worker. It is used only if there is no context.
    pub release: Release,
    /// The context from which the job goes on.
    pub ctx: Option<CompactionContext>,
}

impl StartCompactionJobArgs {
    /// A copy, which shares the lists of tables.
    pub fn clone(&self) -> Result<StartCompactionJobArgs, SlateDBError>
        ensures copy { IfOk result (λ copy. copy ≡ self.now) }
        ensures memory { IsOkUnless result SlateDBError.Memory }
    {
        Ok(Clone::clone(self)?)
    }
}
