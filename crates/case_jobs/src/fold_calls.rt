//! Calls of `fleet_fold`: merge operators, and the iterators that fold operands and keep rows.

ghost use Rattle.std.specs.Prelude.{OnOk};
ghost use Rattle.fleet_iter.specs.Iteration.{AreRising};

use crate::iter_calls::{rising_list, rising_merge};
use crate::operators::{Newest, Sifting};
use crate::watching::Watching;
use bytes::Bytes;
use case_words::flaw::Flaw;
use case_words::given_rows::{tell_given, tell_ready, tell_result};
use case_words::words::{bytes, flag, number, parse_if_any, parse_list, stamp};
use fleet_fold::{
    AppendOperator, MergeOperator, MergeOperatorIterator, MergeOperatorRequiredIterator,
    RetentionIterator,
};
use fleet_iter::{ResumingIterator, RowEntryIterator};
use fleet_rows::{Settings, SlateDBError};
use std::alloc::Global;

/// The operator of `jobno`, `foldno` and other calls. It refuses bytes that have a `!`.
pub const REFUSING: Sifting = Sifting { unwanted: 0x21 };

/// Answers the call of this name. Returns false if no call in this file has it.
pub fn answers(
    alloc: Global,
    name: &str,
    words: &[&str],
    answer: &mut String,
) -> Result<bool, Flaw> {
    match name {
        "job" => job(alloc, &AppendOperator, words, answer)?,
        "jobno" => job(alloc, &REFUSING, words, answer)?,
        "fold" => fold(alloc, &AppendOperator, words, answer)?,
        "foldno" => fold(alloc, &REFUSING, words, answer)?,
        "foldnewest" => fold(alloc, &Newest, words, answer)?,
        "retain" => retain(alloc, words, answer)?,
        "need" => need(alloc, words, answer)?,
        _ => return answers_of_others(alloc, name, words, answer),
    }
    Ok(true)
}

fn answers_of_others(
    alloc: Global,
    name: &str,
    words: &[&str],
    answer: &mut String,
) -> Result<bool, Flaw> {
    match name {
        "join" => join(alloc, words, answer)?,
        "joinall" => join_all(alloc, words, answer)?,
        "foldseek" => fold_from(alloc, words, answer)?,
        "batches" => batches(alloc, words, answer)?,
        "retainseek" => retain_from(alloc, words, answer)?,
        "needseek" => need_from(alloc, words, answer)?,
        _ => return Ok(false),
    }
    Ok(true)
}

/// Settings from three words: the floor, which is the cut too, the tick, and whether the last run
/// is written.
pub fn settings(floor: &str, tick: &str, last_run: &str) -> Result<Settings, Flaw> {
    let floor = number(floor)?;
    let tick = stamp(tick)?;
    let last_run = flag(last_run)?;
    Ok(Settings {
        floor,
        tick,
        last_run,
        cut: floor,
    })
}

// Answers the rows that a job makes of its sources.
fn job_from_first<O: MergeOperator>(
    alloc: Global,
    operator: &O,
    settings: Settings,
    sources: &str,
    answer: &mut String,
) -> Result<(), Flaw> {
    let merge = rising_merge(alloc, sources)?.with_dedup(false);
    let folded = MergeOperatorIterator::new(operator, merge, false, Some(settings.cut));
    tell_given(
        alloc,
        RetentionIterator::new(alloc, folded, settings),
        answer,
    )
}

// Answers the rows that a job makes of its sources after a cursor.
fn job_from_after<O: MergeOperator>(
    alloc: Global,
    operator: &O,
    settings: Settings,
    sources: &str,
    cursor: (Bytes, u64),
    answer: &mut String,
) -> Result<(), Flaw> {
    let merge = rising_merge(alloc, sources)?.with_dedup(false);
    let folded = MergeOperatorIterator::new(operator, merge, false, Some(settings.cut));
    let mut kept = RetentionIterator::new(alloc, folded, settings);
    kept.init(alloc)?;
    let mut resumed = ResumingIterator::new(alloc, kept, Some(cursor))?;
    tell_ready(alloc, &mut resumed, answer)
}

// `job` and `jobno` take settings and sources. They may also take a key and a sequence, and then
// the job is resumed after this row.
fn job<O: MergeOperator>(
    alloc: Global,
    operator: &O,
    words: &[&str],
    answer: &mut String,
) -> Result<(), Flaw> {
    match words {
        [floor, tick, last_run, sources] => {
            let settings = settings(floor, tick, last_run)?;
            job_from_first(alloc, operator, settings, sources, answer)
        }
        [floor, tick, last_run, sources, key, seq] => {
            let settings = settings(floor, tick, last_run)?;
            let cursor = (bytes(alloc, key)?, number(seq)?);
            job_from_after(alloc, operator, settings, sources, cursor, answer)
        }
        _ => Err(Flaw::Words),
    }
}

// `fold`, `foldno` and `foldnewest` take a flag, a barrier and rows. The flag says whether operands
// of different expiry are merged. The barrier may be `-` for none.
fn fold<O: MergeOperator>(
    alloc: Global,
    operator: &O,
    words: &[&str],
    answer: &mut String,
) -> Result<(), Flaw> {
    let [all_stamps, barrier, rows] = words else {
        return Err(Flaw::Words);
    };
    let all_stamps = flag(all_stamps)?;
    let barrier = parse_if_any(alloc, barrier, "-")?;
    let rows = rising_list(alloc, rows)?;
    let folded = MergeOperatorIterator::new(operator, rows, all_stamps, barrier);
    tell_given(alloc, folded, answer)
}

// Answers what an operator makes of rows, and the batches that it was given.
fn watched<O: MergeOperator + Drop>(
    alloc: Global,
    operator: O,
    rows: &str,
    answer: &mut String,
) -> Result<(), Flaw> {
    let watching = Watching::new(alloc, operator)?;
    let rows = rising_list(alloc, rows)?;
    let folded = MergeOperatorIterator::new(&watching, rows, true, None);
    tell_given(alloc, folded, answer)?;
    Ok(watching.tell(answer)?)
}

// `batches` takes the word of an operator, and rows.
fn batches(alloc: Global, words: &[&str], answer: &mut String) -> Result<(), Flaw> {
    match words {
        ["append", rows] => watched(alloc, AppendOperator, rows, answer),
        ["no", rows] => watched(alloc, REFUSING, rows, answer),
        ["newest", rows] => watched(alloc, Newest, rows, answer),
        [_, _] => Err(Flaw::Choice),
        _ => Err(Flaw::Words),
    }
}

// `retain` takes settings and rows. It answers the rows that retention keeps.
fn retain(alloc: Global, words: &[&str], answer: &mut String) -> Result<(), Flaw> {
    let [floor, tick, last_run, rows] = words else {
        return Err(Flaw::Words);
    };
    let settings = settings(floor, tick, last_run)?;
    let rows = rising_list(alloc, rows)?;
    tell_given(alloc, RetentionIterator::new(alloc, rows, settings), answer)
}

// `need` takes rows for which there is no merge operator.
fn need(alloc: Global, words: &[&str], answer: &mut String) -> Result<(), Flaw> {
    let [rows] = words else {
        return Err(Flaw::Words);
    };
    let rows = rising_list(alloc, rows)?;
    tell_given(alloc, MergeOperatorRequiredIterator::new(rows), answer)
}

// `join` takes existing bytes, or `none`, and an operand. It answers what `AppendOperator` makes of
// them.
fn join(alloc: Global, words: &[&str], answer: &mut String) -> Result<(), Flaw> {
    let [existing, operand] = words else {
        return Err(Flaw::Words);
    };
    let existing = parse_if_any(alloc, existing, "none")?;
    let operand = bytes(alloc, operand)?;
    let joined = AppendOperator.merge(alloc, &Bytes::new(), existing, operand);
    tell_result(alloc, joined.map_err(SlateDBError::from), answer)
}

// `joinall` takes existing bytes, or `none`, and operands, oldest first. It answers what
// `AppendOperator` makes of them as one batch.
fn join_all(alloc: Global, words: &[&str], answer: &mut String) -> Result<(), Flaw> {
    let [existing, operands] = words else {
        return Err(Flaw::Words);
    };
    let operands: Vec<Bytes> = parse_list(alloc, operands, ',')?;
    let existing = parse_if_any(alloc, existing, "none")?;
    let joined = AppendOperator.merge_batch(alloc, &Bytes::new(), existing, operands.as_slice());
    tell_result(alloc, joined.map_err(SlateDBError::from), answer)
}

// Takes `count` rows from an iterator, or all if there are fewer.
fn take<T: RowEntryIterator>(alloc: Global, source: &mut T, count: u64) -> Result<(), SlateDBError>
    requires sound { T.sound source.old }
    requires rising { AreRising (T.state source.old).rows }
    ensures rising { OnOk result (AreRising (T.state source.new).rows) }
    ensures sound { OnOk result (T.sound source.new) }
{
    'taken: for _ in 0..count {
        source.next(alloc)?;
    }
    Ok(())
}

// Takes `count` rows from an iterator, seeks a key, and answers the rows that are left.
fn tell_sought<T: RowEntryIterator>(
    alloc: Global,
    iterator: T,
    count: &str,
    key: &str,
    answer: &mut String,
) -> Result<(), Flaw>
    requires sound { T.sound iterator }
    requires rising { AreRising (T.state iterator).rows }
{
    let mut source = iterator;
    let count = number(count)?;
    let key = bytes(alloc, key)?;
    source.init(alloc)?;
    take(alloc, &mut source, count)?;
    source.seek(alloc, key.as_slice())?;
    tell_ready(alloc, &mut source, answer)
}

// `foldseek` takes a flag, a number of rows that are taken, a key that is then sought, and rows.
// The flag says whether operands of different expiry are merged.
fn fold_from(alloc: Global, words: &[&str], answer: &mut String) -> Result<(), Flaw> {
    let [all_stamps, count, key, rows] = words else {
        return Err(Flaw::Words);
    };
    let all_stamps = flag(all_stamps)?;
    let rows = rising_list(alloc, rows)?;
    let folded = MergeOperatorIterator::new(&AppendOperator, rows, all_stamps, None);
    tell_sought(alloc, folded, count, key, answer)
}

// `retainseek` takes settings, a number of rows that are taken, a key that is then sought, and
// rows.
fn retain_from(alloc: Global, words: &[&str], answer: &mut String) -> Result<(), Flaw> {
    let [floor, tick, last_run, count, key, rows] = words else {
        return Err(Flaw::Words);
    };
    let settings = settings(floor, tick, last_run)?;
    let rows = rising_list(alloc, rows)?;
    let kept = RetentionIterator::new(alloc, rows, settings);
    tell_sought(alloc, kept, count, key, answer)
}

// `needseek` takes a number of rows that are taken, a key that is then sought, and rows for which
// there is no merge operator.
fn need_from(alloc: Global, words: &[&str], answer: &mut String) -> Result<(), Flaw> {
    let [count, key, rows] = words else {
        return Err(Flaw::Words);
    };
    let rows = rising_list(alloc, rows)?;
    let plain = MergeOperatorRequiredIterator::new(rows);
    tell_sought(alloc, plain, count, key, answer)
}
