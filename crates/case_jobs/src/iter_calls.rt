//! Calls of `fleet_iter`.

ghost use Rattle.std.specs.Prelude.{⊤, Bool, IfOk};
ghost use Rattle.std.specs.List.{AllByRecursion};
ghost use Rattle.fleet_iter.specs.Iteration.{AreRising, IsAlive};
ghost use Rattle.fleet_iter.specs.List.{giving_state};
ghost use Rattle.fleet_iter.specs.Merge.{given_rows};
ghost use Rattle.fleet_iter.specs.MergeState.{state_of, merge_of, IsSound};

use case_words::flaw::Flaw;
use case_words::given_rows::{tell_ready, tell_refusal};
use case_words::parse::{rows, source_words};
use case_words::tell::{Tell, tell_flag, tell_order};
use case_words::words::{Parse, bytes, flag, number};
use fleet_iter::{
    IterationOrder, ListIterator, MergeIterator, MergeIteratorHeapEntry, PeekingIterator,
    ResumingIterator, RowEntryIterator, TrackedRowEntryIterator, are_rising, merges_rise,
};
use fleet_rows::RowEntry;
use std::alloc::{AllocError, Global};

/// Answers the call of this name. Returns false if no call in this file has it.
pub fn answers(
    alloc: Global,
    name: &str,
    words: &[&str],
    answer: &mut String,
) -> Result<bool, Flaw> {
    match name {
        "rising" => rising(alloc, words, answer)?,
        "entries" => entries(alloc, words, answer)?,
        "merge" => merge(alloc, words, answer)?,
        "unready" => unready(alloc, words, answer)?,
        "resume" => resume(alloc, words, answer)?,
        "peek" => peek(alloc, words, answer)?,
        _ => return Ok(false),
    }
    Ok(true)
}

// `rising` takes rows, and answers whether their keys rise.
fn rising(alloc: Global, words: &[&str], answer: &mut String) -> Result<(), Flaw> {
    let [word] = words else {
        return Err(Flaw::Words);
    };
    let rows = rows(alloc, word)?;
    Ok(tell_flag(answer, are_rising(&rows))?)
}

fn entry(alloc: Global, words: &[&str]) -> Result<MergeIteratorHeapEntry, Flaw> {
    let [order, row, index] = words else {
        return Err(Flaw::Words);
    };
    let order = IterationOrder::parse(alloc, order)?;
    let index = number(index)? as usize;
    let row = RowEntry::parse(alloc, row)?;
    Ok(MergeIteratorHeapEntry { order, row, index })
}

// `entries` takes two entries of a merge. Each is an order, the row that was read ahead, and the
// place of its source. It answers which entry a merge takes first.
fn entries(alloc: Global, words: &[&str], answer: &mut String) -> Result<(), Flaw> {
    if words.len() != 6 {
        return Err(Flaw::Words);
    }
    let one = entry(alloc, &words[..3])?;
    let other = entry(alloc, &words[3..])?;
    Ok(tell_order(answer, one.cmp(&other))?)
}

/// A list of the rows of a word. It is an error if their keys do not rise.
pub fn rising_list(alloc: Global, word: &str) -> Result<ListIterator, Flaw>
    ensures { IfOk result (λ list. AreRising list.rows) }
{
    let rows = rows(alloc, word)?;
    if !are_rising(&rows) {
        return Err(Flaw::Order);
    }
    Ok(ListIterator::new(rows))
}

// For each source a list of its rows. It is an error if the keys in a source do not rise.
fn rising_lists(alloc: Global, sources: &str) -> Result<Vec<ListIterator>, Flaw>
    ensures { IfOk result (λ lists. AllByRecursion (λ l. AreRising l.rows) lists.items) }
{
    let words = source_words(alloc, sources)?;
    let mut lists = Vec::new(alloc);
    'sources: for word in words.as_slice() {
        lists.push(rising_list(alloc, word)?)?;
    }
    Ok(lists)
}

/// The ascending merge of sources. It is an error if the keys in a source do not rise.
pub fn rising_merge(alloc: Global, sources: &str) -> Result<MergeIterator<ListIterator>, Flaw>
    ensures sound { IfOk result (λ merge. IsSound (λ _. ⊤) giving_state merge) }
    ensures alive { IfOk result (λ merge. IsAlive (state_of giving_state merge)) }
    ensures rising { IfOk result
        (λ merge. (dedup : Bool) → AreRising (given_rows dedup (merge_of giving_state merge))) }
{
    merges_rise();
    Ok(MergeIterator::new(alloc, rising_lists(alloc, sources)?))
}

// A list of the rows of each source.
fn lists(alloc: Global, sources: &str) -> Result<Vec<ListIterator>, Flaw> {
    let words = source_words(alloc, sources)?;
    let mut lists = Vec::new(alloc);
    'sources: for word in words.as_slice() {
        lists.push(ListIterator::new(rows(alloc, word)?))?;
    }
    Ok(lists)
}

// The merge of sources. Their rows need not be in order.
fn any_merge(
    alloc: Global,
    sources: &str,
    order: IterationOrder,
) -> Result<MergeIterator<ListIterator>, Flaw>
    ensures sound { IfOk result (λ merge. IsSound (λ _. ⊤) giving_state merge) }
{
    let lists = lists(alloc, sources)?;
    Ok(MergeIterator::new_with_order(alloc, lists, order))
}

// Answers what an initialised merge gives, and the bytes that it counted.
fn tell_merged(
    alloc: Global,
    merge: &mut MergeIterator<ListIterator>,
    answer: &mut String,
) -> Result<(), Flaw>
    requires { IsSound (λ _. ⊤) giving_state merge.old }
{
    tell_ready(alloc, merge, answer)?;
    let bytes = merge.bytes_processed();
    Ok(write!(answer, " {bytes}")?)
}

// Answers what a merge gives from its first row on.
fn from_first(
    alloc: Global,
    order: &str,
    dedup: &str,
    sources: &str,
    answer: &mut String,
) -> Result<(), Flaw> {
    let order = IterationOrder::parse(alloc, order)?;
    let dedup = flag(dedup)?;
    let mut merge = any_merge(alloc, sources, order)?.with_dedup(dedup);
    merge.init(alloc)?;
    tell_merged(alloc, &mut merge, answer)
}

// Answers what an ascending merge gives from a key on.
fn from_key(
    alloc: Global,
    dedup: &str,
    sources: &str,
    key: &str,
    answer: &mut String,
) -> Result<(), Flaw> {
    let dedup = flag(dedup)?;
    let key = bytes(alloc, key)?;
    let mut merge = rising_merge(alloc, sources)?.with_dedup(dedup);
    merge.init(alloc)?;
    merge.seek(alloc, key.as_slice())?;
    tell_merged(alloc, &mut merge, answer)
}

// `merge` takes `asc` or `desc`, a flag, and sources. The flag says whether older rows of a key are
// left out. After `asc` it may also take a key that is sought.
fn merge(alloc: Global, words: &[&str], answer: &mut String) -> Result<(), Flaw> {
    match words {
        [order, dedup, sources] => from_first(alloc, order, dedup, sources, answer),
        ["asc", dedup, sources, key] => from_key(alloc, dedup, sources, key, answer),
        _ => Err(Flaw::Words),
    }
}

// `unready` takes sources. It asks their merge for a row before `init`, and then takes all rows.
fn unready(alloc: Global, words: &[&str], answer: &mut String) -> Result<(), Flaw> {
    let [sources] = words else {
        return Err(Flaw::Words);
    };
    let mut merge = any_merge(alloc, sources, IterationOrder::Ascending)?;
    match merge.next(alloc) {
        Ok(_) => answer.push_str("ok")?,
        Err(error) => tell_refusal(alloc, &error, answer)?,
    }
    answer.push(' ')?;
    merge.init(alloc)?;
    tell_ready(alloc, &mut merge, answer)
}

// `resume` takes sources, and the key and the sequence of the row after which they are resumed.
fn resume(alloc: Global, words: &[&str], answer: &mut String) -> Result<(), Flaw> {
    let [sources, key, seq] = words else {
        return Err(Flaw::Words);
    };
    let seq = number(seq)?;
    let key = bytes(alloc, key)?;
    let mut merge = rising_merge(alloc, sources)?.with_dedup(false);
    merge.init(alloc)?;
    let mut resumed = ResumingIterator::new(alloc, merge, Some((key, seq)))?;
    tell_ready(alloc, &mut resumed, answer)
}

// Appends the row that a look shows, or `-` for none.
fn tell_look(answer: &mut String, row: Option<&RowEntry>) -> Result<(), AllocError> {
    match row {
        Some(row) => row.tell(answer)?,
        None => answer.push('-')?,
    }
    answer.push(' ')
}

// `peek` takes rows and a key. It looks at the next row, seeks the key, looks again, and takes the
// rows that are left.
fn peek(alloc: Global, words: &[&str], answer: &mut String) -> Result<(), Flaw> {
    let [rows, key] = words else {
        return Err(Flaw::Words);
    };
    let key = bytes(alloc, key)?;
    let mut list = PeekingIterator::new(rising_list(alloc, rows)?);
    list.look_ahead(alloc)?;
    tell_look(answer, list.peeked())?;
    list.seek(alloc, key.as_slice())?;
    list.look_ahead(alloc)?;
    tell_look(answer, list.peeked())?;
    tell_ready(alloc, &mut list, answer)
}
