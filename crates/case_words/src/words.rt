//! Numbers and bytes that are read from words. `-` is no bytes, or an item that is missing.

use crate::flaw::Flaw;
use bytes::Bytes;
use fleet_text::{bytes_of, number_of, run_of, signed_of};
use std::alloc::{AllocError, Global};

// Bytes are repeated only while there are fewer than this.
const MOST_BYTES: usize = 1 << 20;

/// What can be read from a word.
pub trait Parse: Sized {
    fn parse(alloc: Global, word: &str) -> Result<Self, Flaw>;
}

/// The parts of a word between marks.
pub fn parts<'a>(alloc: Global, word: &'a str, mark: char) -> Result<Vec<&'a str>, AllocError> {
    word.split(mark).collect(alloc)
}

/// The items that are read from the parts of a word between marks. `-` is no items.
pub fn parse_list<T: Parse + Drop>(alloc: Global, word: &str, mark: char) -> Result<Vec<T>, Flaw> {
    let mut items = Vec::new(alloc);
    if word != "-" {
        'parts: for part in word.split(mark) {
            items.push(T::parse(alloc, part)?)?;
        }
    }
    Ok(items)
}

/// The item that is read from a word. None if the word equals `none`, the word for a missing item.
pub fn parse_if_any<T: Parse>(alloc: Global, word: &str, none: &str) -> Result<Option<T>, Flaw> {
    if word == none {
        return Ok(None);
    }
    Ok(Some(T::parse(alloc, word)?))
}

/// The two items that are read from a word, before and after its first `:`.
pub fn parse_pair<A: Parse + Drop, B: Parse>(alloc: Global, word: &str) -> Result<(A, B), Flaw> {
    let Some((first, second)) = word.split_once(':') else {
        return Err(Flaw::Pair);
    };
    let first = A::parse(alloc, first)?;
    Ok((first, B::parse(alloc, second)?))
}

impl Parse for u64 {
    fn parse(_alloc: Global, word: &str) -> Result<u64, Flaw> {
        number(word)
    }
}

impl Parse for u32 {
    fn parse(_alloc: Global, word: &str) -> Result<u32, Flaw> {
        run_of(word.as_bytes()).ok_or(Flaw::Number)
    }
}

impl Parse for i64 {
    fn parse(_alloc: Global, word: &str) -> Result<i64, Flaw> {
        stamp(word)
    }
}

impl Parse for Bytes {
    fn parse(alloc: Global, word: &str) -> Result<Bytes, Flaw> {
        bytes(alloc, word)
    }
}

pub fn number(word: &str) -> Result<u64, Flaw> {
    number_of(word.as_bytes()).ok_or(Flaw::Number)
}

pub fn stamp(word: &str) -> Result<i64, Flaw> {
    signed_of(word.as_bytes()).ok_or(Flaw::Number)
}

/// True for the word `1`, false for `0`. Any other word is an error.
pub fn flag(word: &str) -> Result<bool, Flaw> {
    match word {
        "0" => Ok(false),
        "1" => Ok(true),
        _ => Err(Flaw::Choice),
    }
}

/// Bytes in hexadecimal digits. A `*` and a number after them repeat the bytes. `-` is no bytes.
pub fn bytes(alloc: Global, word: &str) -> Result<Bytes, Flaw> {
    match word.split_once('*') {
        Some((unit, count)) => repeated(alloc, unit, number(count)?),
        None => plain_bytes(alloc, word),
    }
}

fn repeated(alloc: Global, unit: &str, count: u64) -> Result<Bytes, Flaw> {
    let unit = plain_bytes(alloc, unit)?;
    let mut bytes = Vec::new(alloc);
    'units: for _ in 0..count {
        if bytes.len() >= MOST_BYTES {
            return Err(Flaw::Length);
        }
        bytes.extend_from_slice(unit.as_slice())?;
    }
    Ok(Bytes::from_vec(bytes)?)
}

fn plain_bytes(alloc: Global, word: &str) -> Result<Bytes, Flaw> {
    bytes_of(alloc, word.as_bytes())?.ok_or(Flaw::Bytes)
}
