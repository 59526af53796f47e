//! Iterators over rows: lists, merges that give the rows of several iterators in order, and
//! adapters that look at the next row or resume after a cursor.
#![tactic(auto)]

mod boxes;
mod entry;
mod failure;
mod heads;
mod iterator;
mod list;
mod merge;
mod peeking;
mod resuming;
mod rising;
mod tracked_bytes;

pub use entry::MergeIteratorHeapEntry;
pub use failure::Failure;
pub use iterator::{IterationOrder, RowEntryIterator, RowSource};
pub use list::{EmptyIterator, ListIterator};
pub use merge::{MergeIterator, merges_rise, merges_sort};
pub use peeking::PeekingIterator;
pub use resuming::{ResumingIterator, is_written, resumes_after};
pub use rising::{are_rising, ordered_rows_rise};
pub use tracked_bytes::TrackedRowEntryIterator;
