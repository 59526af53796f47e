//! Iterators in boxes.

use crate::{RowEntryIterator, TrackedRowEntryIterator};
use fleet_rows::{RowEntry, SlateDBError};
use std::alloc::Global;

impl RowEntryIterator for Box<dyn RowEntryIterator> {
    ghost state = { λ b. (RowEntryIterator-box b).state b.value };

    ghost sound = { λ b. (RowEntryIterator-box b).sound b.value };

    ghost sought = { λ b. (RowEntryIterator-box b).sought b.value };

    ghost processed = { λ b. (RowEntryIterator-box b).processed b.value };

    fn init(&mut self, alloc: Global) -> Result<(), SlateDBError> {
        (**self).init(alloc)
    }

    fn next(&mut self, alloc: Global) -> Result<Option<RowEntry>, SlateDBError> {
        (**self).next(alloc)
    }

    fn seek(&mut self, alloc: Global, next_key: &[u8]) -> Result<(), SlateDBError> {
        (**self).seek(alloc, next_key)
    }
}

impl RowEntryIterator for Box<dyn TrackedRowEntryIterator> {
    ghost state = { λ b. (TrackedRowEntryIterator-box b).RowEntryIterator.state b.value };

    ghost sound = { λ b. (TrackedRowEntryIterator-box b).RowEntryIterator.sound b.value };

    ghost sought = { λ b. (TrackedRowEntryIterator-box b).RowEntryIterator.sought b.value };

    ghost processed = { λ b. (TrackedRowEntryIterator-box b).RowEntryIterator.processed b.value };

    fn init(&mut self, alloc: Global) -> Result<(), SlateDBError> {
        (**self).init(alloc)
    }

    fn next(&mut self, alloc: Global) -> Result<Option<RowEntry>, SlateDBError> {
        (**self).next(alloc)
    }

    fn seek(&mut self, alloc: Global, next_key: &[u8]) -> Result<(), SlateDBError> {
        (**self).seek(alloc, next_key)
    }
}

impl TrackedRowEntryIterator for Box<dyn TrackedRowEntryIterator> {
    fn bytes_processed(&self) -> u64 {
        (**self).bytes_processed()
    }
}
