//! Calls of `fleet_fold` that filter rows.

ghost use Rattle.std.specs.Prelude.{◌≡◌, false};
ghost use Rattle.fleet_iter.specs.Iteration.{AreRising};

use crate::filters::{ForTheLastRun, Replacing, WithoutPrefix};
use crate::iter_calls::rising_list;
use case_words::flaw::Flaw;
use case_words::given_rows::tell_given;
use case_words::parse::content;
use case_words::words::{bytes, flag};
use fleet_fold::{
    CompactionFilter, CompactionFilterIterator, CompactionFilterSupplier, CompactionJobContext,
};
use fleet_iter::ListIterator;
use std::alloc::Global;

/// Answers the call of this name. Returns false if no call in this file has it.
pub fn answers(
    alloc: Global,
    name: &str,
    words: &[&str],
    answer: &mut String,
) -> Result<bool, Flaw> {
    match name {
        "without" => without(alloc, words, answer)?,
        "revalued" => revalued(alloc, words, answer)?,
        "supplied" => supplied(alloc, words, answer)?,
        _ => return Ok(false),
    }
    Ok(true)
}

// Answers the rows that a filter leaves.
fn tell_left<F: CompactionFilter>(
    alloc: Global,
    filter: F,
    list: ListIterator,
    answer: &mut String,
) -> Result<(), Flaw>
    requires open { F.is_closed filter ≡ false }
    requires rising { AreRising list.rows }
{
    tell_given(alloc, CompactionFilterIterator::new(list, filter), answer)
}

// `without` takes a prefix and rows. Its filter drops the rows whose keys have the prefix.
fn without(alloc: Global, words: &[&str], answer: &mut String) -> Result<(), Flaw> {
    let [prefix, word] = words else {
        return Err(Flaw::Words);
    };
    let list = rising_list(alloc, word)?;
    let filter = WithoutPrefix {
        prefix: bytes(alloc, prefix)?,
        closed: false,
    };
    tell_left(alloc, filter, list, answer)
}

// `revalued` takes a kind, bytes and rows. Its filter gives each row the value of this kind with
// these bytes.
fn revalued(alloc: Global, words: &[&str], answer: &mut String) -> Result<(), Flaw> {
    let [kind, value, word] = words else {
        return Err(Flaw::Words);
    };
    let list = rising_list(alloc, word)?;
    let filter = Replacing {
        value: content(kind, bytes(alloc, value)?)?,
        closed: false,
    };
    tell_left(alloc, filter, list, answer)
}

// `supplied` takes a flag, whether the last run is written, and rows. Only for the last run there
// is a filter, and it refuses each row.
fn supplied(alloc: Global, words: &[&str], answer: &mut String) -> Result<(), Flaw> {
    let [last_run, word] = words else {
        return Err(Flaw::Words);
    };
    let context = CompactionJobContext {
        destination: 1,
        is_dest_last_run: flag(last_run)?,
        compaction_clock_tick: 0,
        retention_min_seq: None,
    };
    let list = rising_list(alloc, word)?;
    match ForTheLastRun.create_compaction_filter(alloc, &context) {
        Ok(filter) => tell_left(alloc, filter, list, answer),
        Err(error) => Ok(write!(answer, "err {error}")?),
    }
}
