//! The worker that has a job.

ghost use Rattle.std.specs.Prelude.{◌≡◌, IfOk, IsOkUnless};

use fleet_rows::SlateDBError;

/// The worker that has a job, and the moment at which it was last heard of.
#[derive(Clone, Debug, Drop, PartialEq, Eq)]
pub struct WorkerSpec {
    pub worker_id: u64,
    /// In milliseconds.
    pub last_heartbeat_ms: u64,
}

impl WorkerSpec {
    /// The worker with this number, heard of at this moment in milliseconds.
    pub fn new(worker_id: u64, last_heartbeat_ms: u64) -> WorkerSpec
        ensures { result
            ≡ record { worker_id = worker_id; last_heartbeat_ms = last_heartbeat_ms } }
    {
        WorkerSpec {
            worker_id,
            last_heartbeat_ms,
        }
    }

    /// A copy.
    pub fn clone(&self) -> Result<WorkerSpec, SlateDBError>
        ensures copy { IfOk result (λ copy. copy ≡ self.now) }
        ensures memory { IsOkUnless result SlateDBError.Memory }
    {
        Ok(Clone::clone(self)?)
    }
}
