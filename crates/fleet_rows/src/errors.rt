//! The errors of the fleet, of merge operators and of compaction filters.

ghost use Rattle.std.specs.Prelude.{◌≡◌, IfOk, IsOkUnless};
ghost use Rattle.fleet_rows.specs.declared.errors.CompactionFilterError.TheVariants as filter;
ghost use Rattle.fleet_rows.specs.declared.errors.MergeOperatorError.TheVariants as merge;
ghost use Rattle.fleet_rows.specs.declared.errors.SlateDBError.TheVariants as fleet;
ghost use Rattle.fleet_rows.specs.Errors.{raised_error, raised_by_filter};

use crate::Text;
use std::alloc::{AllocError, AllocFailed};
use thiserror::Error;

/// The reason why a merge operator gave no result.
#[derive(Clone, Debug, Drop, Error)]
pub enum MergeOperatorError {
    #[error("merge_batch called with empty operands and no existing value")]
    EmptyBatch,
    #[error("{message}")]
    Callback { message: Text },
    #[error("Memory")]
    Memory,
}

impl MergeOperatorError {
    /// A copy of the error. It fails only with `SlateDBError::Memory`.
    pub fn clone(&self) -> Result<MergeOperatorError, SlateDBError>
        ensures copy { IfOk result (λ copy. copy ≡ self.now) }
        ensures memory { IsOkUnless result SlateDBError.Memory }
    {
        Ok(Clone::clone(self)?)
    }
}

impl From<AllocError> for MergeOperatorError {
    ghost from_gives = { λ _ e. e ≡ merge.Memory };

    fn from(_error: AllocError) -> MergeOperatorError {
        MergeOperatorError::Memory
    }
}

impl<T: Drop> From<AllocFailed<T>> for MergeOperatorError {
    ghost from_gives = { λ _ e. e ≡ merge.Memory };

    fn from(_error: AllocFailed<T>) -> MergeOperatorError {
        MergeOperatorError::Memory
    }
}

/// The reason why a compaction filter gave no result.
#[derive(Clone, Debug, Drop, Error)]
pub enum CompactionFilterError {
    #[error("filter creation failed: {0}")]
    CreationError(Text),
    #[error("filter error: {0}")]
    FilterError(Text),
    #[error("compaction end error: {0}")]
    CompactionEndError(Text),
    #[error("Memory")]
    Memory,
}

impl CompactionFilterError {
    /// A copy of the error. It fails only with `SlateDBError::Memory`.
    pub fn clone(&self) -> Result<CompactionFilterError, SlateDBError>
        ensures copy { IfOk result (λ copy. copy ≡ self.now) }
        ensures memory { IsOkUnless result SlateDBError.Memory }
    {
        Ok(Clone::clone(self)?)
    }
}

impl From<AllocError> for CompactionFilterError {
    ghost from_gives = { λ _ e. e ≡ filter.Memory };

    fn from(_error: AllocError) -> CompactionFilterError {
        CompactionFilterError::Memory
    }
}

impl<T: Drop> From<AllocFailed<T>> for CompactionFilterError {
    ghost from_gives = { λ _ e. e ≡ filter.Memory };

    fn from(_error: AllocFailed<T>) -> CompactionFilterError {
        CompactionFilterError::Memory
    }
}

/// The reason why a call of the fleet failed.
#[derive(Clone, Debug, Drop, Error)]
pub enum SlateDBError {
    #[error("IteratorNotInitialized")]
    IteratorNotInitialized,
    #[error("IteratorFailed")]
    IteratorFailed,
    #[error("MergeOperatorMissing")]
    MergeOperatorMissing,
    #[error("InvalidSequenceOrder")]
    InvalidSequenceOrder { current_seq: u64, next_seq: u64 },
    #[error("MergeOperator")]
    MergeOperator(MergeOperatorError),
    #[error("CompactionFilter")]
    CompactionFilter(CompactionFilterError),
    #[error("InvalidCompaction")]
    InvalidCompaction,
    #[error("InvalidDBState")]
    InvalidDBState,
    #[error("Fenced")]
    Fenced { stored: u64 },
    #[error("StoreFault")]
    StoreFault,
    #[error("NotOwner")]
    NotOwner,
    #[error("Conflict")]
    Conflict { seen: u64 },
    #[error("Generate")]
    Generate { message: Text },
    #[error("Memory")]
    Memory,
}

impl SlateDBError {
    /// A copy of the error. It fails only with `SlateDBError::Memory`.
    pub fn clone(&self) -> Result<SlateDBError, SlateDBError>
        ensures copy { IfOk result (λ copy. copy ≡ self.now) }
        ensures memory { IsOkUnless result SlateDBError.Memory }
    {
        Ok(Clone::clone(self)?)
    }
}

impl From<AllocError> for SlateDBError {
    ghost from_gives = { λ _ e. e ≡ fleet.Memory };

    fn from(_error: AllocError) -> SlateDBError {
        SlateDBError::Memory
    }
}

impl<T: Drop> From<AllocFailed<T>> for SlateDBError {
    ghost from_gives = { λ _ e. e ≡ fleet.Memory };

    fn from(_error: AllocFailed<T>) -> SlateDBError {
        SlateDBError::Memory
    }
}

impl From<MergeOperatorError> for SlateDBError {
    ghost from_gives = { λ refusal e. e ≡ raised_error refusal };

    fn from(error: MergeOperatorError) -> SlateDBError {
        match error {
            MergeOperatorError::Memory => SlateDBError::Memory,
            other => SlateDBError::MergeOperator(other),
        }
    }
}

impl From<CompactionFilterError> for SlateDBError {
    ghost from_gives = { λ refusal e. e ≡ raised_by_filter refusal };

    fn from(error: CompactionFilterError) -> SlateDBError {
        match error {
            CompactionFilterError::Memory => SlateDBError::Memory,
            other => SlateDBError::CompactionFilter(other),
        }
    }
}
