//! Iterators that count the bytes of their rows.

ghost use Rattle.std.specs.Prelude.{◌≡◌};
ghost use Rattle.fleet_rows.specs.Row.{row_of};
ghost use Rattle.fleet_iter.specs.Tracked.{row_bytes};

use crate::RowEntryIterator;
use fleet_rows::RowEntry;

/// An iterator that counts the bytes of keys and of values or operands. It counts the rows that the
/// list or the merge at the bottom has given, and the rows that dedup hid. It does not count rows
/// that a seek drops.
pub trait TrackedRowEntryIterator: RowEntryIterator {
    /// The bytes counted so far, at most `u64::MAX`.
    fn bytes_processed(&self) -> u64
        ensures { result ≡ Self.processed self.now };
}

/// The bytes of the row's key and of its value or operand.
#[inline]
pub(crate) fn row_bytes(row: &RowEntry) -> u64
    ensures { result ≡ row_bytes (row_of row.now) }
{
    (row.key.len() as u64).saturating_add(row.value.len() as u64)
}
