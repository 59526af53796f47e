//! Requests of users.

ghost use Rattle.std.specs.Prelude.{◌≡◌, IfOk, IsOkUnless};

use bytes::Bytes;
use fleet_jobs::CompactionSpec;
use fleet_rows::SlateDBError;

/// A request of a user for jobs. A scheduler answers it with specs.
#[derive(Clone, Debug, Drop, PartialEq, Eq)]
pub enum CompactionRequest {
    /// All runs of each tree are to become one run.
    Full,
    /// All runs of the tree of this segment are to become one run.
    FullSegment { segment: Bytes },
    /// The job of this spec.
    Spec(CompactionSpec),
}

impl CompactionRequest {
    /// A copy.
    pub fn clone(&self) -> Result<CompactionRequest, SlateDBError>
        ensures copy { IfOk result (λ copy. copy ≡ self.now) }
        ensures memory { IsOkUnless result SlateDBError.Memory }
    {
        Ok(Clone::clone(self)?)
    }
}
