//! Reads the words of a line.

ghost use Rattle.std.specs.Prelude.{◌≡◌, ◌≢◌, ◌++◌, ◌∷◌, [], MatchOption, All, ◌<◌, ◌≤◌, ◌^◌, ◌↔◌, IsTrue, IfOk, OnOk, map, decimal};
ghost use Rattle.std.specs.Fmt.{signed_decimal};
ghost use Rattle.std.specs.List.{slice_split, list_all};
ghost use Rattle.row_model.specs.Bounds.{AreBytes, AreShortBytes, IsKey, IsStamp, IsStampOrNone};
ghost use Rattle.script_model.specs.Bounds.{IsName};
ghost use Rattle.script_model.specs.Words.{bytes_text, fault_text, flag_text, stamp_text};
ghost use Rattle.script_laws.specs.ByteTests.{is_byte, is_lower_digit};
ghost use Rattle.fleet_text.specs.Reading.{Reads, IsValue, IsBetween, IsAny};

use bytes::Bytes;
use std::alloc::{AllocError, Global};

/// Splits a text at each occurrence of a byte.
pub fn parts(alloc: Global, text: &[u8], cut: u8) -> Result<Vec<&[u8]>, AllocError>
    ensures { IfOk result (λ v. map (λ x. x.now) v.items ≡ slice_split (is_byte cut) text.now) }
{
    text.split(|b| *b == cut).collect(alloc)
}

/// Fills a list with the parts of a text, split at each occurrence of a byte. What the list had goes.
pub fn fill_parts<'a>(parts: &mut Vec<&'a [u8]>, text: &'a [u8], cut: u8) -> Result<(), AllocError>
    ensures { OnOk result (map (λ x. x.now) parts.new.items ≡ slice_split (is_byte cut) text.now) }
{
    parts.clear();
    parts.extend(text.split(|b| *b == cut))
}

/// Splits a text at the first occurrence of a byte. The byte is in neither part.
pub fn cut(text: &[u8], byte: u8) -> Option<(&[u8], &[u8])>
    ensures { MatchOption result (All (λ b. b ≢ byte) text.now)
        (λ p. All (λ b. b ≢ byte) p.0.now × (text.now ≡ p.0.now ++ byte ∷ p.1.now)) }
{
    let at = text.iter().position(|b| *b == byte)?;
    Some((&text[..at], &text[at + 1..]))
}

/// Whether the word is this name, byte for byte.
pub fn is_word(word: &[u8], name: &str) -> bool
    ensures { IsTrue result ↔ (word.now ≡ name.now) }
{
    word == name.as_bytes()
}

/// Reads a number of 64 bits in decimal digits, without a sign and without leading zeros.
pub fn number_of(word: &[u8]) -> Option<u64>
    ensures { Reads decimal (λ n. n < 2 ^ 64) word.now result }
{
    if word.is_empty() || word[0] == b'+' {
        return None;
    }
    if word.len() > 1 && word[0] == b'0' {
        return None;
    }
    let Ok(text) = std::str::from_utf8(word) else {
        return None;
    };
    text.parse().ok()
}

/// Reads a signed number of 64 bits: a number, or `-` and a number that is not 0.
pub fn signed_of(word: &[u8]) -> Option<i64>
    ensures { Reads signed_decimal IsStamp word.now result }
{
    if word.is_empty() || word[0] != b'-' {
        let number = number_of(word)?;
        return i64::try_from(number).ok();
    }
    let magnitude = number_of(&word[1..])?;
    if magnitude == 0 {
        return None;
    }
    0i64.checked_sub_unsigned(magnitude)
}

fn is_lower_hex(digit: u8) -> bool
    ensures { result ≡ is_lower_digit digit }
{
    digit.is_ascii_digit() || (b'a' <= digit && digit <= b'f')
}

fn are_lower_hex(word: &[u8]) -> bool
    ensures { result ≡ list_all is_lower_digit word.now }
{
    word.iter().all(|digit| is_lower_hex(*digit))
}

/// Reads bytes in lower-case hexadecimal digits, or `-` for no bytes. The error is out of memory.
pub fn bytes_of(alloc: Global, word: &[u8]) -> Result<Option<Bytes>, AllocError>
    ensures { IfOk result (Reads bytes_text AreBytes word.now) }
{
    if is_word(word, "-") {
        return Ok(Some(Bytes::new()));
    }
    if word.is_empty() || word.len() % 2 != 0 || !are_lower_hex(word) {
        return Ok(None);
    }
    // The digits are valid and even in number, so `hex` refuses only when out of memory.
    let Ok(bytes) = hex::decode(alloc, word) else {
        return Err(AllocError);
    };
    Ok(Some(Bytes::from_vec(bytes)?))
}

/// Reads a stamp: a signed number, or `-` for none.
pub fn stamp_of(word: &[u8]) -> Option<Option<i64>>
    ensures { Reads stamp_text IsStampOrNone word.now result }
{
    if is_word(word, "-") {
        return Some(None);
    }
    let stamp = signed_of(word)?;
    Some(Some(stamp))
}

/// Reads at most 65,535 bytes: the prefix of a segment, or an end of a range of keys. The error is
/// out of memory.
pub fn short_bytes_of(alloc: Global, word: &[u8]) -> Result<Option<Bytes>, AllocError>
    ensures { IfOk result (Reads bytes_text AreShortBytes word.now) }
{
    let Some(bytes) = bytes_of(alloc, word)? else {
        return Ok(None);
    };
    if bytes.len() > 65_535 {
        return Ok(None);
    }
    Ok(Some(bytes))
}

/// Reads a key: 1 to 65,535 bytes. The error is out of memory.
pub fn key_of(alloc: Global, word: &[u8]) -> Result<Option<Bytes>, AllocError>
    ensures { IfOk result (Reads bytes_text IsKey word.now) }
{
    let Some(key) = bytes_of(alloc, word)? else {
        return Ok(None);
    };
    if key.is_empty() || key.len() > 65_535 {
        return Ok(None);
    }
    Ok(Some(key))
}

/// Reads the bytes of a value, fewer than 2^32. The error is out of memory.
pub fn value_bytes_of(alloc: Global, word: &[u8]) -> Result<Option<Bytes>, AllocError>
    ensures { IfOk result (Reads bytes_text IsValue word.now) }
{
    let Some(value) = bytes_of(alloc, word)? else {
        return Ok(None);
    };
    if value.len() >= 1 << 32 {
        return Ok(None);
    }
    Ok(Some(value))
}

const LAST_NAME: u64 = 1_099_511_627_775;

/// Reads the name of a flush: a number from 1 to 1,099,511,627,775.
pub fn name_of(word: &[u8]) -> Option<u64>
    ensures { Reads decimal IsName word.now result }
{
    let name = number_of(word)?;
    if name == 0 || name > LAST_NAME {
        return None;
    }
    Some(name)
}

/// Reads a number from `least` to `greatest`.
pub fn between(word: &[u8], least: u64, greatest: u64) -> Option<u64>
    ensures { Reads decimal (IsBetween least greatest) word.now result }
{
    let number = number_of(word)?;
    if number < least || number > greatest {
        return None;
    }
    Some(number)
}

/// Reads a number from 1, below 2^32.
pub fn count_of(word: &[u8]) -> Option<u32>
    ensures { Reads decimal (λ n. (1 ≤ n) × (n < 2 ^ 32)) word.now result }
{
    let count = run_of(word)?;
    if count == 0 { None } else { Some(count) }
}

/// Reads a flag: `1` if it holds, and `0` otherwise.
pub fn flag_of(word: &[u8]) -> Option<bool>
    ensures { Reads flag_text IsAny word.now result }
{
    if is_word(word, "1") {
        return Some(true);
    }
    if is_word(word, "0") {
        return Some(false);
    }
    None
}

/// Reads whether a struck put takes effect: `stands`, or `lost`.
pub fn stands_of(word: &[u8]) -> Option<bool>
    ensures { Reads fault_text IsAny word.now result }
{
    if is_word(word, "stands") {
        return Some(true);
    }
    if is_word(word, "lost") {
        return Some(false);
    }
    None
}

/// Reads the id of a sorted run: a number below 2^32.
pub fn run_of(word: &[u8]) -> Option<u32>
    ensures { Reads decimal (λ n. n < 2 ^ 32) word.now result }
{
    u32::try_from(number_of(word)?).ok()
}

/// Reads the number of a job: a number from 1, below 2^64.
pub fn job_of(word: &[u8]) -> Option<u64>
    ensures { Reads decimal (λ n. (1 ≤ n) × (n < 2 ^ 64)) word.now result }
{
    let job = number_of(word)?;
    if job == 0 { None } else { Some(job) }
}
