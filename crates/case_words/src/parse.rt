//! Rows, bounds and ranges that are read from words. The word of a row has `:` between its key, kind,
//! bytes, sequence, stamp of creation and stamp of expiry. The kind is `v` for a value, `m` for an
//! operand, and `t` for a tombstone.

use crate::flaw::Flaw;
use crate::words::{Parse, bytes, number, parse_list, parts};
use bytes::Bytes;
use fleet_iter::IterationOrder;
use fleet_range::BytesRange;
use fleet_rows::{RowEntry, ValueDeletable};
use fleet_text::stamp_of;
use std::alloc::{AllocError, Global};
use std::ops::Bound;

/// The value, operand or tombstone of this kind. A tombstone has no bytes.
pub fn content(kind: &str, bytes: Bytes) -> Result<ValueDeletable, Flaw> {
    match kind {
        "v" => Ok(ValueDeletable::Value(bytes)),
        "m" => Ok(ValueDeletable::Merge(bytes)),
        "t" if bytes.is_empty() => Ok(ValueDeletable::Tombstone),
        _ => Err(Flaw::Row),
    }
}

// The row of these fields. A script's row has a key and bounds on lengths, which this one need not
// have.
fn row(alloc: Global, fields: &[&str]) -> Result<RowEntry, Flaw> {
    let [key, kind, value, seq, created, expires] = fields else {
        return Err(Flaw::Row);
    };
    let seq = number(seq)?;
    let created = stamp_of(created.as_bytes()).ok_or(Flaw::Number)?;
    let expires = stamp_of(expires.as_bytes()).ok_or(Flaw::Number)?;
    let content = content(kind, bytes(alloc, value)?)?;
    let key = bytes(alloc, key)?;
    Ok(RowEntry::new(key, content, seq, created, expires))
}

impl Parse for RowEntry {
    fn parse(alloc: Global, word: &str) -> Result<RowEntry, Flaw> {
        let fields = parts(alloc, word, ':')?;
        row(alloc, fields.as_slice())
    }
}

pub fn rows(alloc: Global, word: &str) -> Result<Vec<RowEntry>, Flaw> {
    parse_list(alloc, word, ',')
}

/// The words of sources: tables of level 0, newest first, and after a `/` runs. There is a `|`
/// between two sources. A side that is empty has no sources.
pub fn source_words<'a>(alloc: Global, word: &'a str) -> Result<Vec<&'a str>, AllocError> {
    let mut words = Vec::new(alloc);
    'levels: for level in word.split('/') {
        add_level(&mut words, level)?;
    }
    Ok(words)
}

fn add_level<'a>(words: &mut Vec<&'a str>, level: &'a str) -> Result<(), AllocError> {
    if !level.is_empty() {
        'sources: for word in level.split('|') {
            words.push(word)?;
        }
    }
    Ok(())
}

/// A bound: `*` for none, `i` and an included key, or `x` and an excluded key.
pub fn bound<K: Parse>(alloc: Global, word: &str) -> Result<Bound<K>, Flaw> {
    if word == "*" {
        return Ok(Bound::Unbounded);
    }
    if let Some(key) = word.strip_prefix('i') {
        return Ok(Bound::Included(K::parse(alloc, key)?));
    }
    match word.strip_prefix('x') {
        Some(key) => Ok(Bound::Excluded(K::parse(alloc, key)?)),
        None => Err(Flaw::Bound),
    }
}

/// The range between two bounds. It is an error if it is empty.
pub fn range(alloc: Global, low: &str, high: &str) -> Result<BytesRange, Flaw> {
    let low = bound(alloc, low)?;
    match BytesRange::try_new(low, bound(alloc, high)?) {
        Some(range) => Ok(range),
        None => Err(Flaw::Room),
    }
}

impl Parse for IterationOrder {
    fn parse(_alloc: Global, word: &str) -> Result<IterationOrder, Flaw> {
        match word {
            "asc" => Ok(IterationOrder::Ascending),
            "desc" => Ok(IterationOrder::Descending),
            _ => Err(Flaw::Choice),
        }
    }
}
