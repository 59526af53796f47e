//! Answers of iterators: `ok` and the rows, or `err`, the refusal, and the rows before it.

use crate::flaw::Flaw;
use crate::tell::{Tell, tell_ok, tell_rows};
use fleet_iter::RowEntryIterator;
use fleet_rows::{MergeOperatorError, RowEntry, SlateDBError};
use std::alloc::{AllocError, Global};

// Takes all rows that an iterator gives.
fn take_rows<T: RowEntryIterator>(
    alloc: Global,
    source: &mut T,
    rows: &mut Vec<RowEntry>,
) -> Result<(), SlateDBError>
    requires { T.sound source.old }
    ensures { T.sound source.new }
{
    'rows: for _ in 0..u64::MAX {
        match source.next(alloc)? {
            Some(row) => rows.push(row)?,
            None => break,
        }
    }
    Ok(())
}

// Whether an iterator that has ended or failed says so again.
fn says_so_again<T: RowEntryIterator>(
    alloc: Global,
    source: &mut T,
    failed: bool,
) -> Result<bool, SlateDBError>
    requires { T.sound source.old }
{
    match source.next(alloc) {
        Ok(None) => Ok(!failed),
        Ok(Some(_)) => Ok(false),
        Err(SlateDBError::IteratorFailed) => Ok(failed),
        Err(error) => Err(error),
    }
}

/// Answers the rows that an initialised iterator gives. At its end or failure it is asked once
/// more, and an answer that differs is reported.
pub fn tell_ready<T: RowEntryIterator>(
    alloc: Global,
    source: &mut T,
    answer: &mut String,
) -> Result<(), Flaw>
    requires { T.sound source.old }
{
    let mut rows = Vec::new(alloc);
    let failed = match take_rows(alloc, source, &mut rows) {
        Ok(()) => {
            answer.push_str("ok")?;
            false
        }
        Err(error) => {
            tell_refusal(alloc, &error, answer)?;
            true
        }
    };
    answer.push(' ')?;
    tell_rows(answer, rows.as_slice())?;
    if !says_so_again(alloc, source, failed)? {
        answer.push_str(" and then another answer")?;
    }
    Ok(())
}

/// Initialises an iterator, and answers the rows that it gives.
pub fn tell_given<T: RowEntryIterator>(
    alloc: Global,
    iterator: T,
    answer: &mut String,
) -> Result<(), Flaw>
    requires { T.sound iterator }
{
    let mut source = iterator;
    source.init(alloc)?;
    tell_ready(alloc, &mut source, answer)
}

/// Answers `ok` and what a call gave, or `err` and its refusal.
pub fn tell_result<T: Tell + Drop>(
    alloc: Global,
    given: Result<T, SlateDBError>,
    answer: &mut String,
) -> Result<(), Flaw> {
    match given {
        Ok(item) => tell_ok(answer, item),
        Err(error) => tell_refusal(alloc, &error, answer),
    }
}

/// Answers `err` and a refusal.
pub fn tell_refusal(alloc: Global, error: &SlateDBError, answer: &mut String) -> Result<(), Flaw> {
    match error {
        SlateDBError::Memory => Err(Flaw::Memory),
        SlateDBError::MergeOperator(MergeOperatorError::Callback { message }) => {
            answer.push_str("err callback ")?;
            Ok(message.as_slice().tell(answer)?)
        }
        SlateDBError::MergeOperator(MergeOperatorError::EmptyBatch) => {
            Ok(answer.push_str("err empty")?)
        }
        SlateDBError::InvalidSequenceOrder {
            current_seq,
            next_seq,
        } => Ok(tell_seqs(*current_seq, *next_seq, answer)?),
        other => Ok(tell_name(alloc, other, answer)?),
    }
}

fn tell_seqs(current: u64, next: u64, answer: &mut String) -> Result<(), AllocError> {
    write!(answer, "err order {current}/{next}")
}

fn tell_name(alloc: Global, error: &SlateDBError, answer: &mut String) -> Result<(), AllocError> {
    let name = error.to_string(alloc)?;
    answer.push_str("err ")?;
    answer.push_str(name.as_str())
}
