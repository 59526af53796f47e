//! Why a text cannot be read.

ghost use Rattle.std.specs.Prelude.{◌≡◌};
ghost use Rattle.fleet_text.specs.declared.error.TextError.TheVariants.{Memory};

use std::alloc::{AllocError, AllocFailed};
use thiserror::Error;

/// Why a text could not be read as a script.
#[derive(Debug, Drop, Error)]
pub enum TextError {
    /// The number of the first line outside the grammar, counted from 1.
    #[error("line {0} is no line of a script")]
    BadLine(u64),
    /// Out of memory while reading the lines.
    #[error("Memory")]
    Memory,
}

impl From<AllocError> for TextError {
    ghost from_gives = { λ _ e. e ≡ Memory };

    fn from(_error: AllocError) -> TextError {
        TextError::Memory
    }
}

impl<T: Drop> From<AllocFailed<T>> for TextError {
    ghost from_gives = { λ _ e. e ≡ Memory };

    fn from(_error: AllocFailed<T>) -> TextError {
        TextError::Memory
    }
}
