//! Calls that copy an error and answer its text.

use case_words::flaw::Flaw;
use case_words::tell::tell_text;
use fleet_rows::{CompactionFilterError, MergeOperatorError, SlateDBError, Text};
use std::alloc::Global;

/// Answers the call of this name. Returns false if no call in this file has it.
pub fn answers(
    alloc: Global,
    name: &str,
    words: &[&str],
    answer: &mut String,
) -> Result<bool, Flaw> {
    let [error] = words else {
        return Ok(false);
    };
    match name {
        "error" => tell_error(alloc, error, answer)?,
        "mergeerror" => tell_merge_error(alloc, error, answer)?,
        "filtererror" => tell_filter_error(alloc, error, answer)?,
        _ => return Ok(false),
    }
    Ok(true)
}

fn text(alloc: Global) -> Result<Text, Flaw> {
    Ok(Text::new(String::from_str(alloc, "no")?))
}

// An error of a merge operator, by its word. Its text, if it has one, is `no`.
fn merge_error(alloc: Global, name: &str) -> Result<MergeOperatorError, Flaw> {
    match name {
        "empty" => Ok(MergeOperatorError::EmptyBatch),
        "callback" => Ok(MergeOperatorError::Callback {
            message: text(alloc)?,
        }),
        "memory" => Ok(MergeOperatorError::Memory),
        _ => Err(Flaw::Choice),
    }
}

// `mergeerror` takes the word of a merge operator's error, and answers the text of a copy.
fn tell_merge_error(alloc: Global, name: &str, answer: &mut String) -> Result<(), Flaw> {
    let error = merge_error(alloc, name)?;
    tell_text(answer, error.clone()?)
}

// An error of a filter, by its word. Its text, if it has one, is `no`.
fn filter_error(alloc: Global, name: &str) -> Result<CompactionFilterError, Flaw> {
    match name {
        "creation" => Ok(CompactionFilterError::CreationError(text(alloc)?)),
        "filter" => Ok(CompactionFilterError::FilterError(text(alloc)?)),
        "end" => Ok(CompactionFilterError::CompactionEndError(text(alloc)?)),
        "memory" => Ok(CompactionFilterError::Memory),
        _ => Err(Flaw::Choice),
    }
}

// `filtererror` takes the word of a filter's error, and answers the text of a copy.
fn tell_filter_error(alloc: Global, name: &str, answer: &mut String) -> Result<(), Flaw> {
    let error = filter_error(alloc, name)?;
    tell_text(answer, error.clone()?)
}

// An error of the fleet that has a text, by its word. The text is `no`.
fn texted_error(alloc: Global, name: &str) -> Result<SlateDBError, Flaw> {
    match name {
        "operator" => Ok(SlateDBError::from(merge_error(alloc, "callback")?)),
        "filter" => Ok(SlateDBError::from(filter_error(alloc, "filter")?)),
        "generate" => Ok(SlateDBError::Generate {
            message: text(alloc)?,
        }),
        _ => Err(Flaw::Choice),
    }
}

// An error of the fleet without a text, by its word. Its numbers, if it has any, are 3.
fn plain_error(name: &str) -> Option<SlateDBError> {
    match name {
        "unready" => Some(SlateDBError::IteratorNotInitialized),
        "failed" => Some(SlateDBError::IteratorFailed),
        "missing" => Some(SlateDBError::MergeOperatorMissing),
        "order" => Some(SlateDBError::InvalidSequenceOrder {
            current_seq: 3,
            next_seq: 3,
        }),
        "memory" => Some(SlateDBError::from(MergeOperatorError::Memory)),
        "filtermemory" => Some(SlateDBError::from(CompactionFilterError::Memory)),
        _ => state_error(name),
    }
}

fn state_error(name: &str) -> Option<SlateDBError> {
    match name {
        "compaction" => Some(SlateDBError::InvalidCompaction),
        "state" => Some(SlateDBError::InvalidDBState),
        "fenced" => Some(SlateDBError::Fenced { stored: 3 }),
        "store" => Some(SlateDBError::StoreFault),
        "owner" => Some(SlateDBError::NotOwner),
        "conflict" => Some(SlateDBError::Conflict { seen: 3 }),
        _ => None,
    }
}

fn fleet_error(alloc: Global, name: &str) -> Result<SlateDBError, Flaw> {
    match plain_error(name) {
        Some(error) => Ok(error),
        None => texted_error(alloc, name),
    }
}

// `error` takes the word of an error of the fleet, and answers the text of a copy.
fn tell_error(alloc: Global, name: &str, answer: &mut String) -> Result<(), Flaw> {
    let error = fleet_error(alloc, name)?;
    tell_text(answer, error.clone()?)
}
