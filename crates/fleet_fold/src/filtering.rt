//! Iterators over the rows that a filter leaves.

ghost use Rattle.std.specs.Prelude.{◌≡◌, ◌≢◌, ◌&&◌, Bool, true, false, [], None, OnOk, IfOk, IfErr};
ghost use Rattle.std.specs.Option.{option_to_list};
ghost use Rattle.fleet_rows.specs.Row.{row_of, rows_of};
ghost use Rattle.fleet_iter.specs.Iteration.{IteratorState, Inits, Nexts, Seeks, HandsOn, IsHandedOn, CanFail, AreRising};
ghost use Rattle.fleet_fold.specs.Retention.{IsReadable, from_ahead};
ghost use Rattle.fleet_fold.specs.Filter.{decided_rows, filtered_rows, ends_well, filtering, Gives, Refuses};
ghost use Rattle.fleet_fold.specs.FilterState.{state_of, IsSound, Sought, IsClosed, StaysOpen, RefusesIn};

use crate::filter::{CompactionFilter, CompactionFilterDecision, RowFilter};
use fleet_iter::{Failure, RowEntryIterator, RowSource, TrackedRowEntryIterator};
use fleet_rows::{RowEntry, SlateDBError};
use std::alloc::Global;

/// An iterator over the rows that a filter leaves of an inner iterator's rows. The filter's answers
/// depend on the rows that it was shown. A seek shows it only the rows from the key on, and so may
/// change its answers.
#[derive(Drop)]
pub struct CompactionFilterIterator<T: RowEntryIterator, F: CompactionFilter> {
    inner: T,
    filter: F,
    // Whether the rows have ended and the filter was closed.
    ended: bool,
    failure: Failure,
}

// What a decision leaves of a row: the row, the row with another value, or nothing.
fn decided(row: RowEntry, decision: CompactionFilterDecision) -> Option<RowEntry>
    ensures { rows_of (option_to_list result) ≡ decided_rows decision (row_of row) }
{
    match decision {
        CompactionFilterDecision::Keep => Some(row),
        CompactionFilterDecision::Drop => None,
        CompactionFilterDecision::Modify(value) => {
            let expire_ts = if value.is_tombstone() {
                None
            } else {
                row.expire_ts
            };
            Some(RowEntry {
                key: row.key,
                value,
                seq: row.seq,
                create_ts: row.create_ts,
                expire_ts,
            })
        }
    }
}

// Shows rows to the filter, from `first` on, until it leaves one, and gives that row. At the end it
// closes the filter and gives None.
fn next_left<T: RowSource, F: RowFilter>(
    alloc: Global,
    inner: &mut T,
    filter: &mut F,
    first: Option<RowEntry>,
) -> Result<Option<RowEntry>, SlateDBError>
    requires sound { T.sound inner.old }
    requires readable { IsReadable (T.state inner.old) }
    requires open { F.is_closed filter.old ≡ false }
    requires rising { AreRising (from_ahead first (T.state inner.old)) }
    requires ended { first
        ≡ None → ((T.state inner.old).rows ≡ []) × ((T.state inner.old).whole ≡ true) }
    ensures ok { IfOk result (λ row. Gives (filtered_rows (F.answers filter.old)
        (F.closing filter.old) (from_ahead first (T.state inner.old))) (T.state inner.old).whole row
        (filtered_rows (F.answers filter.new) (F.closing filter.new) (T.state inner.new).rows)
        (F.is_closed filter.new) (T.state inner.new)) }
    ensures readable { IfOk result (λ _. IsReadable (T.state inner.new)) }
    ensures rising { IfOk result (λ _. AreRising (T.state inner.new).rows) }
    ensures err { IfErr result (CanFail ((T.state inner.old).whole && ends_well (filtered_rows
        (F.answers filter.old) (F.closing filter.old) (from_ahead first (T.state inner.old))))) }
    ensures open { (T.state inner.new).failure ≢ None → F.is_closed filter.new ≡ false }
    ensures handed { IfErr result
        (λ e. (T.state inner.new).failure ≢ None → IsHandedOn (T.state inner.new) e) }
    ensures refused { Refuses (filtered_rows (F.answers filter.old)
        (F.closing filter.old) (from_ahead first (T.state inner.old))) (T.state inner.new) result }
    ensures sound { T.sound inner.new }
{
    let mut next = first;
    'rows: while let Some(row) = next {
        let decision = filter.filter_row(alloc, &row)?;
        match decided(row, decision) {
            Some(row) => return Ok(Some(row)),
            None => next = inner.next_row(alloc)?,
        }
    }
    filter.close(alloc)?;
    Ok(None)
}

impl<T: RowEntryIterator, F: CompactionFilter> CompactionFilterIterator<T, F> {
    /// Makes an iterator over the rows that `filter` leaves of those that `inner` has left.
    #[tactic(auto, using(crate::proofs::Filters::filtered_rise))]
    pub fn new(inner: T, filter: F) -> Self
        requires sound { T.sound inner }
        requires alive { (T.state inner).failure ≡ None }
        requires rising { AreRising (T.state inner).rows }
        requires open { F.is_closed filter ≡ false }
        ensures rows { state_of T.state F.answers F.closing result
            ≡ filtering None false (F.answers filter) (F.closing filter) (T.state inner) }
        ensures sound { IsSound T.sound T.state F.is_closed result }
        ensures rising { AreRising (state_of T.state F.answers F.closing result).rows }
    {
        CompactionFilterIterator {
            inner,
            filter,
            ended: false,
            failure: Failure::new(),
        }
    }
}

impl<T: RowEntryIterator, F: CompactionFilter> RowEntryIterator for CompactionFilterIterator<T, F> {
    ghost state = { state_of T.state F.answers F.closing };

    ghost sound = { IsSound T.sound T.state F.is_closed };

    ghost sought = { Sought T.state T.sought F.answers F.closing };

    ghost processed = { λ i. T.processed i.inner };

    fn init(&mut self, alloc: Global) -> Result<(), SlateDBError>
        requires { IsSound T.sound T.state F.is_closed self.old }
        ensures init { Inits (state_of T.state F.answers F.closing self.old)
            (state_of T.state F.answers F.closing self.new) result }
        ensures handed { HandsOn
            (state_of T.state F.answers F.closing self.old) (T.state self.new.inner) result }
        ensures sound { IsSound T.sound T.state F.is_closed self.new }
    {
        self.failure.check()?;
        if self.ended {
            return Ok(());
        }
        match self.inner.init(alloc) {
            Ok(()) => Ok(()),
            Err(error) => Err(self.failure.fail(error)),
        }
    }

    /// Gives the next row that the filter leaves. At the end of the rows it closes the filter,
    /// once.
    fn next(&mut self, alloc: Global) -> Result<Option<RowEntry>, SlateDBError>
        requires { IsSound T.sound T.state F.is_closed self.old }
        ensures next { Nexts (state_of T.state F.answers F.closing self.old)
            (state_of T.state F.answers F.closing self.new) result }
        ensures closes { IfOk result (λ row. row ≡ None → IsClosed F.is_closed self.new) }
        ensures open { StaysOpen T.state F.is_closed self.old self.new }
        ensures handed { (T.state self.new.inner).failure ≢ None → HandsOn
            (state_of T.state F.answers F.closing self.old) (T.state self.new.inner) result }
        ensures refused { RefusesIn T.state F.answers F.closing self.old self.new result }
        ensures sound { IsSound T.sound T.state F.is_closed self.new }
    {
        self.failure.check()?;
        if self.ended {
            return Ok(None);
        }
        let first = match self.inner.next(alloc) {
            Ok(first) => first,
            Err(error) => return Err(self.failure.fail(error)),
        };
        match next_left(alloc, &mut self.inner, &mut self.filter, first) {
            Ok(row) => {
                self.ended = row.is_none();
                Ok(row)
            }
            Err(error) => Err(self.failure.fail(error)),
        }
    }

    fn seek(&mut self, alloc: Global, next_key: &[u8]) -> Result<(), SlateDBError>
        requires sound { IsSound T.sound T.state F.is_closed self.old }
        requires rising { AreRising (state_of T.state F.answers F.closing self.old).rows }
        ensures seek { Seeks next_key.now (state_of T.state F.answers F.closing self.old)
            (state_of T.state F.answers F.closing self.new) result }
        ensures sought { OnOk result (Sought T.state T.sought F.answers
            F.closing self.old next_key.now (state_of T.state F.answers F.closing self.new)) }
        ensures uncounted { T.processed self.new.inner ≡ T.processed self.old.inner }
        ensures handed { HandsOn
            (state_of T.state F.answers F.closing self.old) (T.state self.new.inner) result }
        ensures sound { IsSound T.sound T.state F.is_closed self.new }
    {
        self.failure.check()?;
        if self.ended {
            return Ok(());
        }
        match self.inner.seek(alloc, next_key) {
            Ok(()) => Ok(()),
            Err(error) => Err(self.failure.fail(error)),
        }
    }
}

impl<T: TrackedRowEntryIterator, F: CompactionFilter> TrackedRowEntryIterator
    for CompactionFilterIterator<T, F> {
    fn bytes_processed(&self) -> u64 {
        self.inner.bytes_processed()
    }
}
