// Rows that are read from a text, and the rows that an iterator gives.
ghost use Rattle.std.specs.Prelude.{◌≡◌, ⊤, Bool, IfOk};
ghost use Rattle.std.specs.List.{AllByRecursion};
ghost use Rattle.fleet_iter.specs.Iteration.{IsAlive, AreRising};
ghost use Rattle.fleet_iter.specs.List.{giving_state};
ghost use Rattle.fleet_iter.specs.Merge.{given_rows};
ghost use Rattle.fleet_iter.specs.MergeState.{state_of, merge_of, IsSound};

use bytes::Bytes;
use fleet_iter::{ListIterator, MergeIterator, RowEntryIterator, are_rising, merges_rise};
use fleet_rows::{RowEntry, SlateDBError, ValueDeletable};
use std::alloc::Global;

fn bytes(alloc: Global, field: Option<&str>) -> Result<Bytes, SlateDBError> {
    match field {
        Some("-") | None => Ok(Bytes::new()),
        Some(text) => Ok(Bytes::copy_from_slice(alloc, text.as_bytes())?),
    }
}

fn content(kind: Option<&str>, bytes: Bytes) -> ValueDeletable {
    match kind {
        Some("v") => ValueDeletable::Value(bytes),
        Some("m") => ValueDeletable::Merge(bytes),
        _ => ValueDeletable::Tombstone,
    }
}

// A row in text: its key, its kind, its bytes or `-` for none, and its sequence. The kind is `v`
// for a value, `m` for an operand, and `t` for a tombstone.
fn row(alloc: Global, text: &str) -> Result<RowEntry, SlateDBError> {
    let mut fields = text.split(':');
    let (key, kind, value) = (fields.next(), fields.next(), fields.next());
    let Some(Ok(seq)) = fields.next().map(|field| field.parse::<u64>()) else {
        return Err(SlateDBError::InvalidDBState);
    };
    let value = content(kind, bytes(alloc, value)?);
    let key = bytes(alloc, key)?;
    Ok(RowEntry::new(key, value, seq, None, None))
}

/// Rows with `,` between them, or `-` for none.
pub(crate) fn rows(alloc: Global, text: &str) -> Result<Vec<RowEntry>, SlateDBError> {
    let mut rows = Vec::new(alloc);
    if text != "-" {
        for part in text.split(',') {
            rows.push(row(alloc, part)?)?;
        }
    }
    Ok(rows)
}

/// Whether rows were given, and they are the rows of a text.
pub(crate) fn are_spelt(
    alloc: Global,
    given: Result<Vec<RowEntry>, SlateDBError>,
    text: &str,
) -> bool {
    match (given, rows(alloc, text)) {
        (Ok(given), Ok(text)) => given == text,
        _ => false,
    }
}

/// A list of the rows of a text. It is an error if their keys do not rise.
pub(crate) fn list(alloc: Global, text: &str) -> Result<ListIterator, SlateDBError>
    ensures { IfOk result (λ list. AreRising list.rows) }
{
    let rows = rows(alloc, text)?;
    if !are_rising(&rows) {
        return Err(SlateDBError::InvalidDBState);
    }
    Ok(ListIterator::new(rows))
}

fn lists(alloc: Global, text: &str) -> Result<Vec<ListIterator>, SlateDBError>
    ensures { IfOk result (λ lists. AllByRecursion (λ l. AreRising l.rows) lists.items) }
{
    let mut lists = Vec::new(alloc);
    'lists: for part in text.split('|') {
        lists.push(list(alloc, part)?)?;
    }
    Ok(lists)
}

/// A merge of lists, which have `|` between them in the text.
pub(crate) fn merge(alloc: Global, text: &str) -> Result<MergeIterator<ListIterator>, SlateDBError>
    ensures sound { IfOk result (λ merge. IsSound (λ _. ⊤) giving_state merge) }
    ensures alive { IfOk result (λ merge. IsAlive (state_of giving_state merge)) }
    ensures rising { IfOk result
        (λ merge. (dedup : Bool) → AreRising (given_rows dedup (merge_of giving_state merge))) }
{
    merges_rise();
    Ok(MergeIterator::new(alloc, lists(alloc, text)?))
}

/// The rows that an iterator gives, at most 32.
pub(crate) fn given<T: RowEntryIterator>(
    alloc: Global,
    source: &mut T,
) -> Result<Vec<RowEntry>, SlateDBError>
    requires { T.sound source.old }
    ensures { T.sound source.new }
{
    let mut rows = Vec::new(alloc);
    'rows: for _ in 0..32 {
        match source.next(alloc)? {
            Some(row) => rows.push(row)?,
            None => return Ok(rows),
        }
    }
    Ok(rows)
}
