//! Calls of `fleet_rows`.

ghost use Rattle.std.specs.Prelude.{IfOk};
ghost use Rattle.row_model.specs.Bounds.{IsInBounds};
ghost use Rattle.fleet_rows.specs.Row.{row_of};

use case_words::flaw::Flaw;
use case_words::tell::{Tell, tell_ok, tell_or_none};
use case_words::words::{Parse, number, parse_list};
use fleet_rows::{KeyValue, ListOf, RowEntry, Ulid, ValueDeletable};
use std::alloc::Global;

/// Answers the call of this name. Returns false if no call in this file has it.
pub fn answers(
    alloc: Global,
    name: &str,
    words: &[&str],
    answer: &mut String,
) -> Result<bool, Flaw> {
    match name {
        "size" => size(alloc, words, answer)?,
        "encoded" => encoded(alloc, words, answer)?,
        "content" => content(alloc, words, answer)?,
        "keyvalue" => key_value(alloc, words, answer)?,
        "ulid" => ulid(words, answer)?,
        "insert" => insert(alloc, words, answer)?,
        "replace" => replace(alloc, words, answer)?,
        _ => return Ok(false),
    }
    Ok(true)
}

// The row of a word. It is an error if a table may not hold it.
fn short_row(alloc: Global, word: &str) -> Result<RowEntry, Flaw>
    ensures { IfOk result (λ row. IsInBounds (row_of row)) }
{
    let row = RowEntry::parse(alloc, word)?;
    if row.is_in_bounds() {
        Ok(row)
    } else {
        Err(Flaw::Length)
    }
}

// `size` takes a row, and answers its `estimated_size`.
fn size(alloc: Global, words: &[&str], answer: &mut String) -> Result<(), Flaw> {
    let [word] = words else {
        return Err(Flaw::Words);
    };
    let size = short_row(alloc, word)?.estimated_size();
    Ok(write!(answer, "ok {size}")?)
}

// `encoded` takes a row, and how many bytes of its key are shared with an earlier key. It answers
// the row's `encoded_size`.
fn encoded(alloc: Global, words: &[&str], answer: &mut String) -> Result<(), Flaw> {
    let [word, prefix] = words else {
        return Err(Flaw::Words);
    };
    let prefix = number(prefix)? as usize;
    let row = short_row(alloc, word)?;
    if prefix > row.key.len() {
        return Err(Flaw::Length);
    }
    let size = row.encoded_size(prefix);
    Ok(write!(answer, "ok {size}")?)
}

fn tell_content(answer: &mut String, value: &ValueDeletable) -> Result<(), Flaw> {
    let len = value.len();
    let empty = value.is_empty() as u8;
    let deleted = value.is_tombstone() as u8;
    write!(answer, "ok {len} {empty} {deleted} ")?;
    Ok(value.as_bytes()?.tell(answer)?)
}

// `content` takes a row. It answers the length of its value, whether it is empty, whether it is a
// tombstone, and its bytes.
fn content(alloc: Global, words: &[&str], answer: &mut String) -> Result<(), Flaw> {
    let [word] = words else {
        return Err(Flaw::Words);
    };
    let row = RowEntry::parse(alloc, word)?;
    tell_content(answer, &row.value)
}

// `keyvalue` takes a row, and answers what `KeyValue::from_row` makes of it.
fn key_value(alloc: Global, words: &[&str], answer: &mut String) -> Result<(), Flaw> {
    let [word] = words else {
        return Err(Flaw::Words);
    };
    tell_or_none(answer, KeyValue::from_row(RowEntry::parse(alloc, word)?))
}

// `ulid` takes a moment and a number, and answers them as the id gives them.
fn ulid(words: &[&str], answer: &mut String) -> Result<(), Flaw> {
    let [moment, word] = words else {
        return Err(Flaw::Words);
    };
    let moment = number(moment)?;
    let Ok(number) = word.parse::<u128>() else {
        return Err(Flaw::Number);
    };
    if number >= 1 << 80 {
        return Err(Flaw::Number);
    }
    let id = Ulid::from_parts(moment, number);
    let moment = id.moment_ms();
    let number = id.number();
    Ok(write!(answer, "ok {moment} {number}")?)
}

fn numbers(alloc: Global, word: &str) -> Result<ListOf<u64>, Flaw> {
    Ok(ListOf::from_vec(parse_list(alloc, word, ',')?))
}

// `insert` takes a place, a number, and a list of numbers. It answers the list with the number
// inserted.
fn insert(alloc: Global, words: &[&str], answer: &mut String) -> Result<(), Flaw> {
    let [place, item, list] = words else {
        return Err(Flaw::Words);
    };
    let place = number(place)?;
    let item = number(item)?;
    let mut list = numbers(alloc, list)?;
    if place > list.len() {
        return Err(Flaw::Number);
    }
    list.insert(place, item)?;
    tell_ok(answer, list)
}

// `replace` takes a place, a number, and a list of numbers. It answers the list with the number
// replaced.
fn replace(alloc: Global, words: &[&str], answer: &mut String) -> Result<(), Flaw> {
    let [place, item, list] = words else {
        return Err(Flaw::Words);
    };
    let place = number(place)?;
    let item = number(item)?;
    let mut list = numbers(alloc, list)?;
    if place >= list.len() {
        return Err(Flaw::Number);
    }
    list.replace(place, item);
    tell_ok(answer, list)
}
