//! Why a case has no answer.

use fleet_rows::SlateDBError;
use std::alloc::{AllocError, AllocFailed};

/// What is wrong with a case, or that memory ran out.
#[derive(Clone, Copy, Debug, PartialEq, Eq)]
pub enum Flaw {
    /// The line is not UTF-8.
    Text,
    /// No call has this name.
    Name,
    /// There are too few words, or too many.
    Words,
    /// A word is not a number, or the number is out of range.
    Number,
    /// A word is not one of the choices.
    Choice,
    /// A word is not bytes in hexadecimal digits.
    Bytes,
    /// A word is not a row.
    Row,
    /// A word is not a pair.
    Pair,
    /// A word is not a bound.
    Bound,
    /// The range between two bounds is empty.
    Room,
    /// Rows or keys are not in the order that the call requires, or there are none where it
    /// requires some.
    Order,
    /// A row is longer than a table may hold, a key is shorter than the prefix of it that is given,
    /// or repeated bytes are too many.
    Length,
    /// The call was refused, although its only expected refusal is out of memory.
    Refused,
    Memory,
}

impl Flaw {
    /// The word that is printed for the flaw.
    pub fn word(self) -> &'static str {
        match self {
            Flaw::Text => "text",
            Flaw::Name => "name",
            Flaw::Words => "words",
            Flaw::Number => "number",
            Flaw::Choice => "choice",
            Flaw::Bytes => "bytes",
            Flaw::Row => "row",
            Flaw::Pair => "pair",
            Flaw::Bound => "bound",
            Flaw::Room => "room",
            Flaw::Order => "order",
            Flaw::Length => "length",
            Flaw::Refused => "refused",
            Flaw::Memory => "memory",
        }
    }
}

impl From<AllocError> for Flaw {
    fn from(_error: AllocError) -> Flaw {
        Flaw::Memory
    }
}

impl<T: Drop> From<AllocFailed<T>> for Flaw {
    fn from(_error: AllocFailed<T>) -> Flaw {
        Flaw::Memory
    }
}

impl From<SlateDBError> for Flaw {
    fn from(error: SlateDBError) -> Flaw {
        match error {
            SlateDBError::Memory => Flaw::Memory,
            _ => Flaw::Refused,
        }
    }
}
