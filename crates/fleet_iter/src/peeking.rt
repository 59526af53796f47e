//! Iterators whose next row can be looked at.

ghost use Rattle.std.specs.Prelude.{◌≡◌, None};
ghost use Rattle.std.specs.Option.{option_copied};
ghost use Rattle.fleet_iter.specs.Peek.{Peeks, Looks, shown_row, filled_row};
ghost use Rattle.fleet_iter.specs.PeekState.{state_of, IsSound, Sought};

use crate::{RowEntryIterator, TrackedRowEntryIterator};
use fleet_rows::{RowEntry, SlateDBError};
use std::alloc::Global;
use std::cmp::Ordering;

/// An iterator whose next row can be looked at.
#[derive(Drop)]
pub struct PeekingIterator<T: RowEntryIterator> {
    pub(crate) inner: T,
    /// The next row, if it was read ahead.
    pub(crate) peeked: Option<RowEntry>,
}

impl<T: RowEntryIterator> PeekingIterator<T> {
    /// Makes an iterator over the rows that `iterator` has left.
    pub fn new(iterator: T) -> Self
        requires sound { T.sound iterator }
        requires alive { (T.state iterator).failure ≡ None }
        ensures rows { state_of T.state result ≡ T.state iterator }
        ensures sound { IsSound T.sound T.state result }
    {
        PeekingIterator {
            inner: iterator,
            peeked: None,
        }
    }

    /// Shows the next row, and does not take it. While the row is borrowed, no contract says what
    /// the iterator has left. A caller that needs this uses `look_ahead` and `peeked`.
    pub fn peek(&mut self, alloc: Global) -> Result<Option<&RowEntry>, SlateDBError>
        requires { IsSound T.sound T.state self.old }
        ensures { Looks (state_of T.state self.old) (shown_row result) }
    {
        self.look_ahead(alloc)?;
        Ok(self.peeked())
    }

    /// Reads the next row ahead for `peeked`, unless one was read ahead already. It does not take
    /// the row.
    pub fn look_ahead(&mut self, alloc: Global) -> Result<(), SlateDBError>
        requires { IsSound T.sound T.state self.old }
        ensures peeks { Peeks (state_of T.state self.old)
            (state_of T.state self.new) (filled_row result self.new.peeked) }
        ensures sound { IsSound T.sound T.state self.new }
    {
        if self.peeked.is_none() {
            self.peeked = self.inner.next(alloc)?;
        }
        Ok(())
    }

    /// The next row, if it was read ahead. A row that was read ahead is still left to `next`.
    pub fn peeked(&self) -> Option<&RowEntry>
        ensures { option_copied result ≡ self.now.peeked }
    {
        self.peeked.as_ref()
    }
}

impl<T: RowEntryIterator> RowEntryIterator for PeekingIterator<T> {
    ghost state = { state_of T.state };

    ghost sound = { IsSound T.sound T.state };

    ghost sought = { Sought T.state T.sought };

    ghost processed = { λ a. T.processed a.inner };

    fn init(&mut self, alloc: Global) -> Result<(), SlateDBError> {
        if self.peeked.is_some() {
            return Ok(());
        }
        self.inner.init(alloc)
    }

    fn next(&mut self, alloc: Global) -> Result<Option<RowEntry>, SlateDBError> {
        match self.peeked.take() {
            Some(row) => Ok(Some(row)),
            None => self.inner.next(alloc),
        }
    }

    fn seek(&mut self, alloc: Global, next_key: &[u8]) -> Result<(), SlateDBError> {
        if let Some(row) = &self.peeked {
            if row.key.as_slice().cmp(next_key) != Ordering::Less {
                return Ok(());
            }
            self.peeked = None;
        }
        self.inner.seek(alloc, next_key)
    }
}

impl<T: TrackedRowEntryIterator> TrackedRowEntryIterator for PeekingIterator<T> {
    fn bytes_processed(&self) -> u64 {
        self.inner.bytes_processed()
    }
}
