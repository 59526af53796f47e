//! Calls of `fleet_range` on ranges of byte strings, and on ranges of numbers.

use bytes::Bytes;
use case_words::flaw::Flaw;
use case_words::parse::{bound, range};
use case_words::tell::{tell_bound, tell_flag, tell_ok, tell_or_none, tell_order};
use case_words::words::bytes;
use fleet_range::{ByteRangeBounds, BytesRange, ComparableRange, EndBound, StartBound};
use std::alloc::Global;
use std::ops::{Bound, RangeBounds};

/// Answers the call of this name. Returns false if no call in this file has it.
pub fn answers(
    alloc: Global,
    name: &str,
    words: &[&str],
    answer: &mut String,
) -> Result<bool, Flaw> {
    match name {
        "prefix" => prefix(alloc, words, answer)?,
        "prefixsub" => subrange(alloc, words, answer)?,
        "intersect" => intersect(alloc, words, answer)?,
        "contains" => contains(alloc, words, answer)?,
        "range" => try_range(alloc, words, answer)?,
        "empty" => empty(alloc, words, answer)?,
        "point" => point(alloc, words, answer)?,
        "sides" => sides(alloc, words, answer)?,
        "copy" => copy(alloc, words, answer)?,
        "slices" => slices(alloc, words, answer)?,
        "after" => after(alloc, words, answer)?,
        "order" => order(alloc, words, answer)?,
        _ => return answers_of_numbers(alloc, name, words, answer),
    }
    Ok(true)
}

fn answers_of_numbers(
    alloc: Global,
    name: &str,
    words: &[&str],
    answer: &mut String,
) -> Result<bool, Flaw> {
    match name {
        "starts" => starts(alloc, words, answer)?,
        "ends" => ends(alloc, words, answer)?,
        "room" => room(alloc, words, answer)?,
        "overlap" => overlap(alloc, words, answer)?,
        "union" => union(alloc, words, answer)?,
        _ => return Ok(false),
    }
    Ok(true)
}

// `prefix` takes a prefix, and answers the range of the keys that begin with it.
fn prefix(alloc: Global, words: &[&str], answer: &mut String) -> Result<(), Flaw> {
    let [prefix] = words else {
        return Err(Flaw::Words);
    };
    let prefix = bytes(alloc, prefix)?;
    let range = BytesRange::from_prefix(alloc, prefix.as_slice())?;
    tell_ok(answer, range)
}

// `prefixsub` takes a prefix, and two bounds for the bytes after it in a key.
fn subrange(alloc: Global, words: &[&str], answer: &mut String) -> Result<(), Flaw> {
    let [prefix, low, high] = words else {
        return Err(Flaw::Words);
    };
    let prefix = bytes(alloc, prefix)?;
    let after = (bound::<Bytes>(alloc, low)?, bound::<Bytes>(alloc, high)?);
    let range = BytesRange::from_prefix_and_subrange(alloc, prefix.as_slice(), after)?;
    tell_or_none(answer, range)
}

// `intersect` takes the bounds of two ranges, and answers their intersection.
fn intersect(alloc: Global, words: &[&str], answer: &mut String) -> Result<(), Flaw> {
    let [low, high, start, end] = words else {
        return Err(Flaw::Words);
    };
    let one = range(alloc, low, high)?;
    let other = range(alloc, start, end)?;
    let both = one.intersect(&other)?;
    tell_or_none(answer, both)
}

// `contains` takes the bounds of a range, and a key. It answers whether the key lies in the range.
fn contains(alloc: Global, words: &[&str], answer: &mut String) -> Result<(), Flaw> {
    let [low, high, key] = words else {
        return Err(Flaw::Words);
    };
    let range = range(alloc, low, high)?;
    let key = bytes(alloc, key)?;
    Ok(tell_flag(answer, range.contains(key.as_slice()))?)
}

// `range` takes two bounds, and answers the range between them.
fn try_range(alloc: Global, words: &[&str], answer: &mut String) -> Result<(), Flaw> {
    let [low, high] = words else {
        return Err(Flaw::Words);
    };
    let low = bound(alloc, low)?;
    let range = BytesRange::try_new(low, bound(alloc, high)?);
    tell_or_none(answer, range)
}

// `empty` takes the bounds of a range, and answers its intersection with an empty range.
fn empty(alloc: Global, words: &[&str], answer: &mut String) -> Result<(), Flaw> {
    let [low, high] = words else {
        return Err(Flaw::Words);
    };
    let range = range(alloc, low, high)?;
    let both = BytesRange::new_empty(alloc)?.intersect(&range)?;
    tell_or_none(answer, both)
}

// `point` takes the bounds of a range, and answers what `as_point` does.
fn point(alloc: Global, words: &[&str], answer: &mut String) -> Result<(), Flaw> {
    let [low, high] = words else {
        return Err(Flaw::Words);
    };
    let range = range(alloc, low, high)?;
    let key = range.as_point().map(|key| key.as_slice());
    tell_or_none(answer, key)
}

// `sides` takes the bounds of a range, and answers them as the range gives them. It also answers
// whether the start is not an excluded key.
fn sides(alloc: Global, words: &[&str], answer: &mut String) -> Result<(), Flaw> {
    let [low, high] = words else {
        return Err(Flaw::Words);
    };
    let range = range(alloc, low, high)?;
    answer.push_str("ok ")?;
    tell_bound(answer, &Bound::from(range.comparable_start_bound()))?;
    answer.push(' ')?;
    tell_bound(answer, &Bound::from(range.comparable_end_bound()))?;
    let flag = range.is_start_bound_included_or_unbounded() as u8;
    Ok(write!(answer, " {flag}")?)
}

// `copy` takes the bounds of a range, and answers a copy of the range.
fn copy(alloc: Global, words: &[&str], answer: &mut String) -> Result<(), Flaw> {
    let [low, high] = words else {
        return Err(Flaw::Words);
    };
    let ends = ComparableRange::<Bytes>::new(bound(alloc, low)?, bound(alloc, high)?);
    if !ends.non_empty() {
        return Err(Flaw::Room);
    }
    let range = BytesRange::from(ends)?;
    tell_ok(answer, range)
}

// `slices` takes a key and a greater one, and answers a copy of the range between them.
fn slices(alloc: Global, words: &[&str], answer: &mut String) -> Result<(), Flaw> {
    let [low, high] = words else {
        return Err(Flaw::Words);
    };
    let low = bytes(alloc, low)?;
    let high = bytes(alloc, high)?;
    tell_slices(alloc, low.as_slice(), high.as_slice(), answer)
}

fn tell_slices(alloc: Global, low: &[u8], high: &[u8], answer: &mut String) -> Result<(), Flaw> {
    if !low.cmp(high).is_lt() {
        return Err(Flaw::Room);
    }
    let range = BytesRange::from_slice(alloc, low..high)?;
    tell_ok(answer, range)
}

// The keys that begin with a prefix and go on with bytes in a range. The range is of any kind that
// the language has.
fn range_after(
    alloc: Global,
    prefix: &[u8],
    kind: &str,
    low: &[u8],
    high: &[u8],
) -> Result<Option<BytesRange>, Flaw> {
    let range = match kind {
        ".." => BytesRange::from_prefix_and_subrange(alloc, prefix, ..)?,
        "low.." => BytesRange::from_prefix_and_subrange(alloc, prefix, low..)?,
        "..high" => BytesRange::from_prefix_and_subrange(alloc, prefix, ..high)?,
        "..=high" => BytesRange::from_prefix_and_subrange(alloc, prefix, ..=high)?,
        "low..high" => BytesRange::from_prefix_and_subrange(alloc, prefix, low..high)?,
        "low..=high" => BytesRange::from_prefix_and_subrange(alloc, prefix, low..=high)?,
        _ => return Err(Flaw::Choice),
    };
    Ok(range)
}

// `after` takes a prefix, a kind of range, and two keys. The range is for the bytes after the
// prefix, and uses the keys that its kind names.
fn after(alloc: Global, words: &[&str], answer: &mut String) -> Result<(), Flaw> {
    let [prefix, kind, low, high] = words else {
        return Err(Flaw::Words);
    };
    let prefix = bytes(alloc, prefix)?;
    let low = bytes(alloc, low)?;
    let high = bytes(alloc, high)?;
    let range = range_after(
        alloc,
        prefix.as_slice(),
        kind,
        low.as_slice(),
        high.as_slice(),
    )?;
    tell_or_none(answer, range)
}

// `order` takes the bounds of two ranges, and answers which comes first.
fn order(alloc: Global, words: &[&str], answer: &mut String) -> Result<(), Flaw> {
    let [low, high, start, end] = words else {
        return Err(Flaw::Words);
    };
    let one = range(alloc, low, high)?;
    let other = range(alloc, start, end)?;
    Ok(tell_order(answer, one.cmp(&other))?)
}

// `starts` takes two bounds at which ranges of numbers start, and answers which comes first.
fn starts(alloc: Global, words: &[&str], answer: &mut String) -> Result<(), Flaw> {
    let [one, other] = words else {
        return Err(Flaw::Words);
    };
    let one = StartBound::<u64>::from(bound(alloc, one)?);
    let other = StartBound::<u64>::from(bound(alloc, other)?);
    Ok(tell_order(answer, one.cmp(&other))?)
}

// `ends` takes two bounds at which ranges of numbers end, and answers which comes first.
fn ends(alloc: Global, words: &[&str], answer: &mut String) -> Result<(), Flaw> {
    let [one, other] = words else {
        return Err(Flaw::Words);
    };
    let one = EndBound::<u64>::from(bound(alloc, one)?);
    let other = EndBound::<u64>::from(bound(alloc, other)?);
    Ok(tell_order(answer, one.cmp(&other))?)
}

// A range of numbers.
type Numbers = ComparableRange<u64>;

fn numbers(alloc: Global, low: &str, high: &str) -> Result<Numbers, Flaw> {
    Ok(Numbers::new(bound(alloc, low)?, bound(alloc, high)?))
}

// `room` takes the bounds of a range of numbers, and answers whether the range is not empty.
fn room(alloc: Global, words: &[&str], answer: &mut String) -> Result<(), Flaw> {
    let [low, high] = words else {
        return Err(Flaw::Words);
    };
    let range = numbers(alloc, low, high)?;
    Ok(tell_flag(answer, range.non_empty())?)
}

// `overlap` takes the bounds of two ranges of numbers, and answers their intersection.
fn overlap(alloc: Global, words: &[&str], answer: &mut String) -> Result<(), Flaw> {
    let [low, high, start, end] = words else {
        return Err(Flaw::Words);
    };
    let both = numbers(alloc, low, high)?.intersect(&numbers(alloc, start, end)?)?;
    tell_or_none(answer, both)
}

// `union` takes the bounds of two ranges of numbers, and answers their union.
fn union(alloc: Global, words: &[&str], answer: &mut String) -> Result<(), Flaw> {
    let [low, high, start, end] = words else {
        return Err(Flaw::Words);
    };
    let all = numbers(alloc, low, high)?.union(&numbers(alloc, start, end)?)?;
    tell_or_none(answer, all)
}
