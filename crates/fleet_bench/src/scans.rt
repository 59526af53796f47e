//! Scans of the sources as tables, and the merge of their rows.

ghost use Rattle.std.specs.Prelude.{◌≡◌, ⊤, false, map, IfOk};
ghost use Rattle.fleet_iter.specs.Merge.{merged_lists, rows_left};
ghost use Rattle.fleet_iter.specs.MergeState.{IsSound, merge_of};
ghost use Rattle.fleet_iter.specs.declared.iterator.IterationOrder.TheVariants as in_order;
ghost use Rattle.fleet_exec.specs.Ranges.{AreSources, opened_states};
ghost use Rattle.fleet_range.specs.Keys.{range_of};
ghost use Rattle.fleet_table.specs.Iterator.{state_of};

use bytes::Bytes;
use fleet_fold::AppendOperator;
use fleet_iter::MergeIterator;
use fleet_range::BytesRange;
use fleet_rows::SlateDBError;
use fleet_scan::{KeyAnswer, Scan, ScanSources};
use fleet_table::{RunData, RunIterator};
use std::alloc::Global;
use std::ops::Bound;

// An iterator for each source over its rows in the range.
fn run_iterators<'s>(
    alloc: Global,
    sources: &'s [RunData],
    range: &'s BytesRange,
) -> Result<Vec<RunIterator<'s>>, SlateDBError>
    ensures rows { IfOk result
        (λ iterators. map state_of iterators.items
        ≡ opened_states (range_of range.now) sources.now) }
{
    let mut iterators = Vec::with_capacity(alloc, sources.len())?;
    'sources: for source in sources {
        iterators.push(RunIterator::new(source, range))?;
    }
    Ok(iterators)
}

/// A merge of the rows of all sources in a range, without dedup.
pub fn merge_runs<'s>(
    alloc: Global,
    sources: &'s ScanSources,
    range: &'s BytesRange,
) -> Result<MergeIterator<RunIterator<'s>>, SlateDBError>
    ensures all { IfOk result (λ merged. merge_of state_of merged ≡ merged_lists
        in_order.Ascending (rows_left (opened_states (range_of range.now) sources.now))) }
    ensures dedup { IfOk result (λ merged. merged.dedup ≡ false) }
    ensures sound { IfOk result (IsSound (λ _. ⊤) state_of) }
{
    let iterators = run_iterators(alloc, sources.as_slice(), range)?;
    Ok(MergeIterator::new(alloc, iterators).with_dedup(false))
}

fn range_from(start: Bound<Bytes>) -> Result<BytesRange, SlateDBError> {
    match BytesRange::try_new(start, Bound::Unbounded) {
        Some(range) => Ok(range),
        None => Err(SlateDBError::InvalidDBState),
    }
}

fn key_of(answer: KeyAnswer) -> Bytes {
    match answer {
        KeyAnswer::Found(key, value) => {
            drop(value);
            key
        }
        KeyAnswer::Refused(key, message) => {
            drop(message);
            key
        }
    }
}

// Scans at most `most` keys of the range, and then one more. Gives how many of them there were, and
// the key after them.
fn scan_page(
    alloc: Global,
    sources: &ScanSources,
    range: &BytesRange,
    seq: u64,
    most: u64,
) -> Result<(u64, Option<Bytes>), SlateDBError>
    requires { AreSources sources.now }
{
    let mut scan = Scan::new(alloc, sources, range, seq, 0, &AppendOperator)?;
    'keys: for given in 0..most {
        if scan.next(alloc)?.is_none() {
            return Ok((given, None));
        }
    }
    match scan.next(alloc)? {
        Some(answer) => Ok((most, Some(key_of(answer)))),
        None => Ok((most, None)),
    }
}

/// Scans all keys at this sequence, in pages of `most` keys, each a scan of its own. Counts the keys
/// that have an answer.
pub fn count_scanned(
    alloc: Global,
    sources: &ScanSources,
    seq: u64,
    most: u64,
) -> Result<u64, SlateDBError>
    requires { AreSources sources.now }
{
    let mut given: u64 = 0;
    let mut start = Bound::Unbounded;
    'pages: for page in 0..u64::MAX {
        let range = range_from(start)?;
        let (count, next) = scan_page(alloc, sources, &range, seq, most)?;
        given = given.saturating_add(count);
        match next {
            Some(key) => start = Bound::Included(key),
            None => return Ok(given),
        }
    }
    Ok(given)
}
