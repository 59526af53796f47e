//! The flushes that a manifest tracks. While a flush is within the retention, what was readable
//! then is kept.

ghost use Rattle.std.specs.Prelude.{◌≡◌, ◌-◌, filter, fold, min, IfOk, IsOkUnless};
ghost use Rattle.fleet_model.specs.Tracker.{is_retained, least_seq_of, tracked_after};
ghost use Rattle.fleet_rows.specs.Row.{rows_of};
ghost use Rattle.fleet_tree.specs.Manifests.{tracked_of, tracker_of};

use crate::TrackerList;
use fleet_rows::{Copies, RowEntry, SlateDBError};
use std::alloc::{AllocError, Global};

/// A flush that a manifest tracks: the least sequence of its rows, and the moment of its put.
#[derive(Clone, Copy, Debug, PartialEq, Eq)]
pub struct Tracked {
    pub least_seq: u64,
    /// In milliseconds.
    pub moment: u64,
}

impl Tracked {
    // Whether the flush is retained at this moment: the retention has not passed since its put.
    fn is_retained(&self, moment: u64, retention_ms: u64) -> bool
        ensures { result ≡ is_retained moment retention_ms (tracked_of self.now) }
    {
        // The end of the retention may be above `u64::MAX`, so it is not computed.
        moment < self.moment || moment - self.moment < retention_ms
    }
}

impl Copies for Tracked {
    fn copied(&self) -> Result<Tracked, AllocError> {
        Ok(*self)
    }
}

/// The least sequence of the rows, or 0 if there are no rows.
pub fn least_seq(rows: &[RowEntry]) -> u64
    ensures { result ≡ least_seq_of (rows_of rows.now) }
{
    match rows {
        [first, rest @ ..] => least_from(first.seq, rest),
        [] => 0,
    }
}

// The least of this sequence and the rows' sequences.
fn least_from(seq: u64, rows: &[RowEntry]) -> u64
    ensures { result ≡ fold (λ least r. min least r.seq) seq rows.now }
{
    rows.iter().fold(seq, |least, row| least.min(row.seq))
}

/// The tracker after a flush that is put at this moment. It has the flushes that are retained at
/// this moment, and then the new one. If the retention is 0, no flush is tracked.
pub(crate) fn tracked_after(
    alloc: Global,
    tracker: &TrackerList,
    least_seq: u64,
    moment: u64,
    retention_ms: u64,
) -> Result<TrackerList, SlateDBError>
    ensures tracker { IfOk result (λ after. tracker_of after
        ≡ tracked_after moment retention_ms least_seq (tracker_of tracker.now)) }
    ensures memory { IsOkUnless result SlateDBError.Memory }
{
    if retention_ms == 0 {
        return Ok(TrackerList::new(alloc));
    }
    let mut after = retained(alloc, tracker.as_slice(), moment, retention_ms)?;
    after.push(Tracked { least_seq, moment })?;
    TrackerList::from_vec(alloc, after)
}

fn retained(
    alloc: Global,
    tracker: &[Tracked],
    moment: u64,
    retention_ms: u64,
) -> Result<Vec<Tracked>, AllocError>
    ensures { IfOk result (λ kept. kept.items
        ≡ filter (λ flush. is_retained moment retention_ms (tracked_of flush)) tracker.now) }
{
    tracker
        .iter()
        .copied()
        .filter(|flush| flush.is_retained(moment, retention_ms))
        .collect(alloc)
}

/// The least of the floor and of one sequence for each flush that is retained at this moment. That
/// is the sequence before the flush's least one, or 0 if the least one is 0.
pub(crate) fn cut_before(floor: u64, moment: u64, retention_ms: u64, tracker: &[Tracked]) -> u64
    ensures { result ≡ fold (λ cut flush. min cut (flush.least_seq - 1)) floor
        (filter (λ flush. is_retained moment retention_ms (tracked_of flush)) tracker.now) }
{
    tracker
        .iter()
        .filter(|flush| flush.is_retained(moment, retention_ms))
        .fold(
            floor,
            |cut, flush| cut.min(flush.least_seq.saturating_sub(1)),
        )
}
