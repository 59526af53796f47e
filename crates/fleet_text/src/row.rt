//! Reads the rows of a flush.

ghost use Rattle.std.specs.Prelude.{[], ◌∷◌, map, IfOk};
ghost use Rattle.row_model.specs.Bounds.{IsContent, IsRow};
ghost use Rattle.fleet_rows.specs.Row.{content_of, row_of, rows_of};
ghost use Rattle.script_model.specs.Words.{row_text, rows_text};
ghost use Rattle.fleet_text.specs.Reading.{ReadsAs, content_words, row_words, AreSomeRows};

use crate::word::{cut, is_word, key_of, number_of, stamp_of, value_bytes_of};
use fleet_rows::{ListOf, RowEntry, ValueDeletable};
use std::alloc::{AllocError, Global};

fn value_of(alloc: Global, kind: &[u8], word: &[u8]) -> Result<Option<ValueDeletable>, AllocError>
    ensures { IfOk result
        (ReadsAs content_of content_words IsContent (kind.now ∷ word.now ∷ [])) }
{
    if is_word(kind, "v") {
        let Some(bytes) = value_bytes_of(alloc, word)? else {
            return Ok(None);
        };
        return Ok(Some(ValueDeletable::Value(bytes)));
    }
    if is_word(kind, "m") {
        let Some(bytes) = value_bytes_of(alloc, word)? else {
            return Ok(None);
        };
        return Ok(Some(ValueDeletable::Merge(bytes)));
    }
    if is_word(kind, "t") && is_word(word, "-") {
        return Ok(Some(ValueDeletable::Tombstone));
    }
    Ok(None)
}

// Reads a row from its fields.
fn row_from(
    alloc: Global,
    key: &[u8],
    kind: &[u8],
    value: &[u8],
    seq: &[u8],
    created: &[u8],
    expires: &[u8],
) -> Result<Option<RowEntry>, AllocError>
    ensures { IfOk result (ReadsAs row_of row_words IsRow
        (key.now ∷ kind.now ∷ value.now ∷ seq.now ∷ created.now ∷ expires.now ∷ [])) }
{
    let Some(seq) = number_of(seq) else {
        return Ok(None);
    };
    let Some(created) = stamp_of(created) else {
        return Ok(None);
    };
    let Some(expires) = stamp_of(expires) else {
        return Ok(None);
    };
    let Some(key) = key_of(alloc, key)? else {
        return Ok(None);
    };
    let Some(value) = value_of(alloc, kind, value)? else {
        return Ok(None);
    };
    Ok(Some(RowEntry::new(key, value, seq, created, expires)))
}

/// Reads a row: key, kind, value, sequence, time of creation and expiry, with colons between them.
/// The answer is None if the word is no row. The error is out of memory.
pub fn row_at(alloc: Global, word: &[u8]) -> Result<Option<RowEntry>, AllocError>
    ensures { IfOk result (ReadsAs row_of row_text IsRow word.now) }
{
    let Some((key, fields)) = cut(word, b':') else {
        return Ok(None);
    };
    let Some((kind, fields)) = cut(fields, b':') else {
        return Ok(None);
    };
    let Some((value, fields)) = cut(fields, b':') else {
        return Ok(None);
    };
    let Some((seq, fields)) = cut(fields, b':') else {
        return Ok(None);
    };
    let Some((created, expires)) = cut(fields, b':') else {
        return Ok(None);
    };
    row_from(alloc, key, kind, value, seq, created, expires)
}

/// Reads one or more rows with commas between them. The answer is None if a part is no row. The
/// error is out of memory.
pub fn rows_at(alloc: Global, word: &[u8]) -> Result<Option<ListOf<RowEntry>>, AllocError>
    ensures { IfOk result (ReadsAs rows_of rows_text AreSomeRows word.now) }
{
    let mut rows = Vec::new(alloc);
    let mut rest = word;
    'rows: while let Some((front, after)) = cut(rest, b',') {
        let Some(row) = row_at(alloc, front)? else {
            return Ok(None);
        };
        rows.push(row)?;
        rest = after;
    }
    let Some(row) = row_at(alloc, rest)? else {
        return Ok(None);
    };
    rows.push(row)?;
    Ok(Some(ListOf::from_vec(rows)))
}
