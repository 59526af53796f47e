//! An iterator over the rows of a table.

ghost use Rattle.std.specs.Prelude.{◌≡◌, ◌↔◌, ⊤, false, [], IsTrue};
ghost use Rattle.fleet_iter.specs.Iteration.{from_key};
ghost use Rattle.fleet_table.specs.Iterator.{state_of};

use crate::span::Span;
use fleet_iter::RowEntryIterator;
use fleet_rows::{RowEntry, SlateDBError};
use std::alloc::Global;
use std::marker::Model;

/// An iterator over rows of a table. It decodes each row when `next` gives it. Contracts see the
/// rows left and whether the iterator failed.
#[derive(Debug, Drop)]
pub struct TableIterator<'a> {
    rows: Option<Span<'a>>,
    failed: bool,
}

impl<'a> Model for TableIterator<'a> {
    ghost use Rattle.fleet_table.specs.Iterator.{rows_left, RowsLeft};

    ghost Value = { RowsLeft };

    ghost view = { λ t. record { left = rows_left t.rows; broken = t.failed } };
}

impl<'a> TableIterator<'a> {
    pub(crate) fn new(rows: Span<'a>) -> TableIterator<'a>
        ensures { result ≡ record { left = rows.entry; broken = false } }
    {
        TableIterator {
            rows: Some(rows),
            failed: false,
        }
    }

    /// An iterator that has no row left.
    pub(crate) fn ended() -> TableIterator<'a>
        ensures { result ≡ record { left = []; broken = false } }
    {
        TableIterator {
            rows: None,
            failed: false,
        }
    }
}

impl TableIterator<'_> {
    pub(crate) fn has_failed(&self) -> bool
        ensures { result ≡ self.now.broken }
    {
        self.failed
    }

    /// Whether no row is left, and the iterator has not failed.
    pub(crate) fn has_ended(&self) -> bool
        ensures { IsTrue result ↔ ((self.now.left ≡ []) × (self.now.broken ≡ false)) }
    {
        !self.failed
            && match &self.rows {
                Some(rows) => rows.is_empty(),
                None => true,
            }
    }

    /// Drops rows at the front while their keys are below this key.
    pub(crate) fn skip_to(&mut self, key: &[u8])
        ensures { self.new ≡ record self.old { left = from_key key.now self.old.left } }
    {
        if let Some(rows) = &mut self.rows {
            rows.skip_to(key);
        }
    }
}

impl RowEntryIterator for TableIterator<'_> {
    ghost state = { state_of };

    ghost sound = { λ _. ⊤ };

    fn init(&mut self, _alloc: Global) -> Result<(), SlateDBError> {
        if self.failed {
            return Err(SlateDBError::IteratorFailed);
        }
        Ok(())
    }

    fn next(&mut self, alloc: Global) -> Result<Option<RowEntry>, SlateDBError> {
        if self.failed {
            return Err(SlateDBError::IteratorFailed);
        }
        let Some(rows) = &mut self.rows else {
            return Ok(None);
        };
        rows.next(alloc, &mut self.failed)
    }

    fn seek(&mut self, _alloc: Global, next_key: &[u8]) -> Result<(), SlateDBError> {
        if self.failed {
            return Err(SlateDBError::IteratorFailed);
        }
        self.skip_to(next_key);
        Ok(())
    }
}
