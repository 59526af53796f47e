//! Changes of the manifest.

ghost use Rattle.std.specs.Prelude.{◌≡◌, IfOk, IsOkUnless};

use bytes::Bytes;
use fleet_rows::{Copies, ListOf, SlateDBError, Ulid};
use std::alloc::AllocError;

/// A step that a commit takes on the trees, for the job with this id.
#[derive(Clone, Copy, Debug, PartialEq, Eq)]
pub enum Step {
    /// The tables that a worker wrote take the place of the job's sources.
    Join(Ulid),
    /// The sources become a run at once, without a worker.
    Move(Ulid),
    /// The sources are dropped.
    Drain(Ulid),
}

impl Copies for Step {
    fn copied(&self) -> Result<Step, AllocError> {
        Ok(*self)
    }
}

/// The steps of a commit, in the order in which they are taken.
pub type StepList = ListOf<Step>;

/// Why a manifest is put.
#[derive(Clone, Debug, Drop, PartialEq, Eq)]
pub enum ManifestChange {
    /// A coordinator comes with this epoch.
    Epoch(u64),
    /// A flush, with its name, its segment, its floor, and its tick in milliseconds.
    Flush(u64, Bytes, u64, i64),
    Commit(StepList),
}

impl ManifestChange {
    /// A copy.
    pub fn clone(&self) -> Result<ManifestChange, SlateDBError>
        ensures copy { IfOk result (λ copy. copy ≡ self.now) }
        ensures memory { IsOkUnless result SlateDBError.Memory }
    {
        Ok(Clone::clone(self)?)
    }
}
