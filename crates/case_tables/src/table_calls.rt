//! Calls of `fleet_table` on rows, and on tables and runs made of rows.

use case_words::flaw::Flaw;
use case_words::given_rows::tell_given;
use case_words::parse::{range, rows};
use case_words::tell::{tell_flag, tell_list, tell_ok, tell_or_none};
use case_words::words::{Parse, bytes, number};
use fleet_rows::Ulid;
use fleet_table::{RunData, RunIterator, TableData, are_in_bounds, are_strictly_ordered};
use fleet_tree::{SortedRun, SsTableView, ViewList, least_seq};
use std::alloc::{AllocError, Global};

/// Answers the call of this name. Returns false if no call in this file has it.
pub fn answers(
    alloc: Global,
    name: &str,
    words: &[&str],
    answer: &mut String,
) -> Result<bool, Flaw> {
    match name {
        "ordered" => ordered(alloc, words, answer)?,
        "fits" => fits(alloc, words, answer)?,
        "least" => least(alloc, words, answer)?,
        "table" => table(alloc, words, answer)?,
        "run" => run(alloc, words, answer)?,
        _ => return answers_of_tables(alloc, name, words, answer),
    }
    Ok(true)
}

fn answers_of_tables(
    alloc: Global,
    name: &str,
    words: &[&str],
    answer: &mut String,
) -> Result<bool, Flaw> {
    match name {
        "blocks" => blocks(alloc, words, answer)?,
        "describe" => describe(alloc, words, answer)?,
        "last" => last(alloc, words, answer)?,
        "newest" => newest(alloc, words, answer)?,
        "asbytes" => as_bytes(alloc, words, answer)?,
        "frombytes" => from_bytes(alloc, words, answer)?,
        "keys" => keys(alloc, words, answer)?,
        "sizes" => sizes(alloc, words, answer)?,
        _ => return Ok(false),
    }
    Ok(true)
}

// `ordered` takes rows, and answers whether they are strictly ordered.
fn ordered(alloc: Global, words: &[&str], answer: &mut String) -> Result<(), Flaw> {
    let [word] = words else {
        return Err(Flaw::Words);
    };
    let rows = rows(alloc, word)?;
    Ok(tell_flag(answer, are_strictly_ordered(&rows))?)
}

// `fits` takes rows, and answers whether they are in bounds.
fn fits(alloc: Global, words: &[&str], answer: &mut String) -> Result<(), Flaw> {
    let [word] = words else {
        return Err(Flaw::Words);
    };
    let rows = rows(alloc, word)?;
    Ok(tell_flag(answer, are_in_bounds(&rows))?)
}

// `least` takes rows, and answers their least sequence.
fn least(alloc: Global, words: &[&str], answer: &mut String) -> Result<(), Flaw> {
    let [word] = words else {
        return Err(Flaw::Words);
    };
    let rows = rows(alloc, word)?;
    let seq = least_seq(&rows);
    Ok(write!(answer, "ok {seq}")?)
}

// `table` takes the bounds of a range, and the rows of a table. It answers the rows in the range.
fn table(alloc: Global, words: &[&str], answer: &mut String) -> Result<(), Flaw> {
    let [low, high, word] = words else {
        return Err(Flaw::Words);
    };
    let range = range(alloc, low, high)?;
    let table = TableData::parse(alloc, word)?;
    tell_given(alloc, table.iter(&range), answer)
}

// `run` takes the bounds of a range, and the tables of a run. It answers the rows in the range.
fn run(alloc: Global, words: &[&str], answer: &mut String) -> Result<(), Flaw> {
    let [low, high, word] = words else {
        return Err(Flaw::Words);
    };
    let range = range(alloc, low, high)?;
    let run = RunData::parse(alloc, word)?;
    tell_given(alloc, RunIterator::new(&run, &range), answer)
}

// `blocks` takes the rows of a table, and answers its blocks.
fn blocks(alloc: Global, words: &[&str], answer: &mut String) -> Result<(), Flaw> {
    let [word] = words else {
        return Err(Flaw::Words);
    };
    let table = TableData::parse(alloc, word)?;
    answer.push_str("ok ")?;
    Ok(tell_list(answer, table.index(), ',')?)
}

// The view of a table under the table's own id.
fn view_of(alloc: Global, word: &str) -> Result<SsTableView, Flaw> {
    let table = TableData::parse(alloc, word)?;
    let handle = table.describe(Ulid::from_parts(0, 1))?;
    Ok(SsTableView::identity(handle)?)
}

// `describe` takes the rows of a table, and answers its description.
fn describe(alloc: Global, words: &[&str], answer: &mut String) -> Result<(), Flaw> {
    let [word] = words else {
        return Err(Flaw::Words);
    };
    let table = TableData::parse(alloc, word)?;
    tell_ok(answer, table.describe(Ulid::from_parts(0, 1))?)
}

// `last` takes the rows of a table. It answers the key and the sequence of the last row.
fn last(alloc: Global, words: &[&str], answer: &mut String) -> Result<(), Flaw> {
    let [word] = words else {
        return Err(Flaw::Words);
    };
    let table = TableData::parse(alloc, word)?;
    let (key, seq) = table.last_row();
    tell_ok(answer, key)?;
    Ok(write!(answer, " {seq}")?)
}

// `newest` takes a key, a sequence, and the rows of a table. It answers the newest row of the key
// up to the sequence.
fn newest(alloc: Global, words: &[&str], answer: &mut String) -> Result<(), Flaw> {
    let [key, seq, word] = words else {
        return Err(Flaw::Words);
    };
    let seq = number(seq)?;
    let key = bytes(alloc, key)?;
    let table = TableData::parse(alloc, word)?;
    let row = table.newest_at(key.as_slice(), seq)?;
    tell_or_none(answer, row.as_ref())
}

// `asbytes` takes the rows of a table, and answers the table's bytes.
fn as_bytes(alloc: Global, words: &[&str], answer: &mut String) -> Result<(), Flaw> {
    let [word] = words else {
        return Err(Flaw::Words);
    };
    let table = TableData::parse(alloc, word)?;
    tell_ok(answer, table.as_bytes())
}

// `frombytes` takes bytes, and answers the rows of the table that has these bytes.
fn from_bytes(alloc: Global, words: &[&str], answer: &mut String) -> Result<(), Flaw> {
    let [word] = words else {
        return Err(Flaw::Words);
    };
    let bytes = bytes(alloc, word)?;
    match TableData::from_bytes(alloc, bytes.as_slice())? {
        Some(table) => tell_rows(&table, answer),
        None => Ok(answer.push_str("none")?),
    }
}

fn tell_rows(table: &TableData, answer: &mut String) -> Result<(), Flaw> {
    let rows = table.to_rows()?;
    answer.push_str("ok ")?;
    Ok(tell_list(answer, rows.as_slice(), ',')?)
}

// `keys` takes the rows of a table. It answers the range from the first key to the last.
fn keys(alloc: Global, words: &[&str], answer: &mut String) -> Result<(), Flaw> {
    let [word] = words else {
        return Err(Flaw::Words);
    };
    let view = view_of(alloc, word)?;
    tell_ok(answer, view.compacted_effective_range())
}

fn views(alloc: Global, word: &str) -> Result<ViewList, Flaw> {
    let mut views = ViewList::new(alloc);
    'tables: for part in word.split(';') {
        views.push(view_of(alloc, part)?)?;
    }
    Ok(views)
}

fn tell_sizes(answer: &mut String, run: &SortedRun) -> Result<(), AllocError> {
    answer.push_str("ok ")?;
    'tables: for view in run.sst_views() {
        let size = view.estimate_size();
        write!(answer, "{size} ")?;
    }
    let size = run.estimate_size();
    write!(answer, "{size}")
}

// `sizes` takes the tables of a run. It answers the size of each table, and then the size of the
// run.
fn sizes(alloc: Global, words: &[&str], answer: &mut String) -> Result<(), Flaw> {
    let [word] = words else {
        return Err(Flaw::Words);
    };
    let run = SortedRun::new(0, views(alloc, word)?);
    Ok(tell_sizes(answer, &run)?)
}
