//! Calls of `fleet_plan`.

use case_words::flaw::Flaw;
use case_words::parse::range;
use case_words::tell::tell_list;
use case_words::words::{number, parse_list};
use fleet_plan::{plan_subcompaction_ranges, sample_anchors, select_boundaries};
use fleet_range::{ByteRangeBounds, BytesRange};
use fleet_tree::{BlockMeta, SortedRun, SsTableView};
use std::alloc::{AllocError, Global};
use std::ops::Bound;

/// Answers the call of this name. Returns false if no call in this file has it.
pub fn answers(
    alloc: Global,
    name: &str,
    words: &[&str],
    answer: &mut String,
) -> Result<bool, Flaw> {
    match name {
        "bounds" => bounds(alloc, words, answer)?,
        "anchors" => anchors(alloc, words, answer)?,
        "plan" => plan(alloc, words, answer)?,
        _ => return Ok(false),
    }
    Ok(true)
}

// The keys at which the ranges after the first one begin.
fn cuts<'a>(alloc: Global, ranges: &'a [BytesRange]) -> Result<Vec<&'a [u8]>, AllocError> {
    let mut keys = Vec::new(alloc);
    'ranges: for range in ranges {
        if let Bound::Included(key) = ByteRangeBounds::start_bound(range) {
            keys.push(key)?;
        }
    }
    Ok(keys)
}

fn tell_cuts(alloc: Global, ranges: &[BytesRange], answer: &mut String) -> Result<(), AllocError> {
    let keys = cuts(alloc, ranges)?;
    answer.push_str("ok ")?;
    tell_list(answer, keys.as_slice(), ',')
}

// `bounds` takes the greatest number of ranges, the least target in bytes, and anchors. It answers
// the keys at which the ranges after the first one begin.
fn bounds(alloc: Global, words: &[&str], answer: &mut String) -> Result<(), Flaw> {
    let [most, least_bytes, anchors] = words else {
        return Err(Flaw::Words);
    };
    let most = number(most)?;
    let least_bytes = number(least_bytes)?;
    let anchors = parse_list(alloc, anchors, ',')?;
    let ranges = select_boundaries(alloc, anchors, most, least_bytes)?;
    Ok(tell_cuts(alloc, ranges.as_slice(), answer)?)
}

// `anchors` takes the offset at which the data ends, the greatest number of anchors, a range, and
// blocks. It answers the anchors.
fn anchors(alloc: Global, words: &[&str], answer: &mut String) -> Result<(), Flaw> {
    let [end, most, low, high, blocks] = words else {
        return Err(Flaw::Words);
    };
    let end = number(end)?;
    let most = number(most)?;
    let range = range(alloc, low, high)?;
    let blocks: Vec<BlockMeta> = parse_list(alloc, blocks, ',')?;
    let anchors = sample_anchors(alloc, blocks.as_slice(), end, most, &range)?;
    answer.push_str("ok ")?;
    Ok(tell_list(answer, anchors.as_slice(), ',')?)
}

// `plan` takes the greatest number of ranges, and descriptions of tables. It answers the keys at
// which the ranges after the first one begin.
fn plan(alloc: Global, words: &[&str], answer: &mut String) -> Result<(), Flaw> {
    let [most, tables] = words else {
        return Err(Flaw::Words);
    };
    let most = number(most)?;
    let (flushed, runs) = tables.split_once('/').unwrap_or((tables, "-"));
    let flushed: Vec<SsTableView> = parse_list(alloc, flushed, '|')?;
    let runs: Vec<SortedRun> = parse_list(alloc, runs, '|')?;
    let ranges = plan_subcompaction_ranges(alloc, &flushed, &runs, most)?;
    Ok(tell_cuts(alloc, ranges.as_slice(), answer)?)
}
