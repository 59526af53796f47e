//! Iterators that hold all their rows.

ghost use Rattle.std.specs.Prelude.{◌≡◌, ⊤, false, [], reverse};
ghost use Rattle.fleet_rows.specs.Row.{rows_of};
ghost use Rattle.fleet_iter.specs.Iteration.{Inits, Nexts, Seeks};
ghost use Rattle.fleet_iter.specs.List.{left_state, giving_state};
ghost use Rattle.fleet_iter.specs.Tracked.{counted_bytes, taken_at_once};

use crate::tracked_bytes::row_bytes;
use crate::{RowEntryIterator, TrackedRowEntryIterator};
use fleet_rows::{RowEntry, SlateDBError};
use std::alloc::Global;
use std::cmp::Ordering;
use std::marker::Model;

/// An iterator without rows.
#[derive(Debug, Drop)]
pub struct EmptyIterator {}

impl EmptyIterator {
    /// Makes an iterator without rows. It needs no `init`.
    pub fn new() -> EmptyIterator {
        EmptyIterator {}
    }
}

impl RowEntryIterator for EmptyIterator {
    ghost state = { λ _. left_state [] };

    ghost sound = { λ _. ⊤ };

    fn init(&mut self, _alloc: Global) -> Result<(), SlateDBError> {
        Ok(())
    }

    fn next(&mut self, _alloc: Global) -> Result<Option<RowEntry>, SlateDBError> {
        Ok(None)
    }

    fn seek(&mut self, _alloc: Global, _next_key: &[u8]) -> Result<(), SlateDBError> {
        Ok(())
    }
}

/// An iterator over the rows of a list. Contracts see the rows left, and the bytes of the rows
/// given.
#[derive(Debug, Drop)]
pub struct ListIterator {
    // The rows left, in reverse: the next row is the last element.
    rows: Vec<RowEntry>,
    processed: u64,
}

impl Model for ListIterator {
    ghost use Rattle.std.specs.Prelude.{reverse};
    ghost use Rattle.fleet_rows.specs.Row.{rows_of};
    ghost use Rattle.fleet_iter.specs.List.{Listed};

    ghost Value = { Listed };

    ghost view = { λ l. record { rows = rows_of (reverse l.rows.items); processed = l.processed } };
}

impl ListIterator {
    /// Makes an iterator over these rows. It keeps the vector's memory and copies nothing.
    pub fn new(rows: Vec<RowEntry>) -> ListIterator
        ensures { result ≡ record { rows = rows_of rows.items; processed = 0 } }
    {
        let mut rows = rows;
        rows.reverse();
        ListIterator { rows, processed: 0 }
    }
}

impl RowEntryIterator for ListIterator {
    ghost state = { giving_state };

    ghost sound = { λ _. ⊤ };

    ghost processed = { λ l. l.processed };

    fn init(&mut self, _alloc: Global) -> Result<(), SlateDBError>
        ensures init { Inits (giving_state self.old) (giving_state self.new) result }
        ensures processed { self.new.processed ≡ self.old.processed }
    {
        Ok(())
    }

    #[inline]
    fn next(&mut self, _alloc: Global) -> Result<Option<RowEntry>, SlateDBError>
        ensures next { Nexts (giving_state self.old) (giving_state self.new) result }
        ensures processed { self.new.processed
            ≡ counted_bytes self.old.processed (taken_at_once false self.old.rows) }
    {
        let Some(row) = self.rows.pop() else {
            return Ok(None);
        };
        self.processed = self.processed.saturating_add(row_bytes(&row));
        Ok(Some(row))
    }

    fn seek(&mut self, _alloc: Global, next_key: &[u8]) -> Result<(), SlateDBError>
        ensures seek { Seeks next_key.now (giving_state self.old) (giving_state self.new) result }
        ensures processed { self.new.processed ≡ self.old.processed }
    {
        'below: while let Some(row) = self.rows.last()
            && row.key.as_slice().cmp(next_key) == Ordering::Less
        {
            self.rows.pop();
        }
        Ok(())
    }
}

impl TrackedRowEntryIterator for ListIterator {
    fn bytes_processed(&self) -> u64 {
        self.processed
    }
}
