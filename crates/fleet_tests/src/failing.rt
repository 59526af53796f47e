// An iterator that fails after its rows.
ghost use Rattle.std.specs.Prelude.{◌≡◌, ⊤, true, false, reverse, IfOk};
ghost use Rattle.fleet_rows.specs.Row.{rows_of};
ghost use Rattle.fleet_iter.specs.Iteration.{AreRising};

use crate::spelt_rows::rows;
use fleet_iter::{RowEntryIterator, are_rising};
use fleet_rows::{RowEntry, SlateDBError};
use std::alloc::Global;

/// An iterator that gives its rows, the last one of the list first, and then fails with a fault of
/// the store. A seek fails with the fault at once.
#[derive(Drop)]
pub(crate) struct FailingIterator {
    rows: Vec<RowEntry>,
    failed: bool,
}

impl RowEntryIterator for FailingIterator {
    ghost use Rattle.std.specs.Prelude.{Some, None, if◌then◌else◌};
    ghost use Rattle.fleet_rows.specs.declared.errors.SlateDBError.TheVariants.{StoreFault};

    ghost state = { λ f. record {
      rows = rows_of (reverse f.rows.items);
      initialised = true;
      failure = (if f.failed then Some StoreFault else None);
      whole = false;
      steady = true;
      refusal = Some StoreFault;
    } };

    ghost sound = { λ _. ⊤ };

    fn init(&mut self, _alloc: Global) -> Result<(), SlateDBError> {
        if self.failed {
            return Err(SlateDBError::IteratorFailed);
        }
        Ok(())
    }

    fn next(&mut self, _alloc: Global) -> Result<Option<RowEntry>, SlateDBError> {
        if self.failed {
            return Err(SlateDBError::IteratorFailed);
        }
        match self.rows.pop() {
            Some(row) => Ok(Some(row)),
            None => {
                self.failed = true;
                Err(SlateDBError::StoreFault)
            }
        }
    }

    fn seek(&mut self, _alloc: Global, _next_key: &[u8]) -> Result<(), SlateDBError> {
        if self.failed {
            return Err(SlateDBError::IteratorFailed);
        }
        self.failed = true;
        Err(SlateDBError::StoreFault)
    }
}

/// An iterator that gives the rows of a text, and then fails. It is an error if their keys do not
/// rise.
pub(crate) fn failing(alloc: Global, text: &str) -> Result<FailingIterator, SlateDBError>
    ensures alive { IfOk result (λ iterator. iterator.failed ≡ false) }
    ensures rising { IfOk result (λ iterator. AreRising (rows_of (reverse iterator.rows.items))) }
{
    let mut rows = rows(alloc, text)?;
    if !are_rising(&rows) {
        return Err(SlateDBError::InvalidDBState);
    }
    rows.reverse();
    Ok(FailingIterator {
        rows,
        failed: false,
    })
}

/// The rows that an iterator gives before the store's fault. At the next call it must say that it
/// has failed.
pub(crate) fn before_fault<T: RowEntryIterator>(
    alloc: Global,
    iterator: T,
) -> Result<Vec<RowEntry>, SlateDBError>
    requires { T.sound iterator }
{
    let mut source = iterator;
    source.init(alloc)?;
    let mut rows = Vec::new(alloc);
    'rows: for _ in 0..32 {
        match source.next(alloc) {
            Ok(Some(row)) => rows.push(row)?,
            Ok(None) => return Err(SlateDBError::InvalidDBState),
            Err(SlateDBError::StoreFault) => break,
            Err(error) => return Err(error),
        }
    }
    match source.next(alloc) {
        Err(SlateDBError::IteratorFailed) => Ok(rows),
        _ => Err(SlateDBError::InvalidDBState),
    }
}
