//! The order of rows, and tests of lists of rows.

ghost use Rattle.std.specs.Prelude.{◌≡◌, ◌↔◌, IsTrue, bytes_eq};
ghost use Rattle.std.specs.List.{AllByRecursion};
ghost use Rattle.row_model.specs.Bounds.{IsInBounds};
ghost use Rattle.row_model.specs.Rows.{are_ordered, key_cmp, row_cmp, IsStrictlyOrdered};
ghost use Rattle.fleet_rows.specs.Row.{row_of, rows_of};

use crate::RowEntry;
use std::cmp::Ordering;

/// Compares keys by their bytes. It takes eight bytes at once as a number, whose highest byte is the
/// first one: most keys differ early.
#[inline]
pub fn key_order(key: &[u8], other: &[u8]) -> Ordering
    ensures { result ≡ key_cmp key.now other.now }
{
    let mut rest = key;
    let mut other_rest = other;
    'words: while let Some(bytes) = rest.first_chunk::<8>()
        && let Some(other_bytes) = other_rest.first_chunk::<8>()
    {
        let word = u64::from_be_bytes(*bytes);
        let other_word = u64::from_be_bytes(*other_bytes);
        if word != other_word {
            return word.cmp(&other_word);
        }
        rest = &rest[8..];
        other_rest = &other_rest[8..];
    }
    if rest.is_empty() && other_rest.is_empty() {
        return Ordering::Equal;
    }
    rest_order(rest, other_rest)
}

// Compares what is left of two keys after their equal words. It stays out of line: few keys get here,
// and the loops that call it then need no room on the stack.
#[inline(never)]
fn rest_order(rest: &[u8], other: &[u8]) -> Ordering
    ensures { result ≡ key_cmp rest.now other.now }
{
    rest.cmp(other)
}

/// Whether two keys are the same. It compares eight bytes at once, and is cheaper than their order.
#[inline]
pub fn same_key(key: &[u8], other: &[u8]) -> bool
    ensures { result ≡ bytes_eq key.now other.now }
{
    let mut rest = key;
    let mut other_rest = other;
    'words: while let Some(bytes) = rest.first_chunk::<8>()
        && let Some(other_bytes) = other_rest.first_chunk::<8>()
    {
        let word = u64::from_be_bytes(*bytes);
        let other_word = u64::from_be_bytes(*other_bytes);
        if word != other_word {
            return false;
        }
        rest = &rest[8..];
        other_rest = &other_rest[8..];
    }
    if rest.is_empty() && other_rest.is_empty() {
        return true;
    }
    rest_order(rest, other_rest).is_eq()
}

/// Compares rows as tables order them: keys rise, and within a key sequences fall.
#[inline]
pub fn row_order(row: &RowEntry, other: &RowEntry) -> Ordering
    ensures { result ≡ row_cmp (row_of row.now) (row_of other.now) }
{
    match key_order(row.key.as_slice(), other.key.as_slice()) {
        Ordering::Equal => other.seq.cmp(&row.seq),
        order => order,
    }
}

/// Whether the rows are strictly ordered: keys rise, sequences fall within a key, and no two rows
/// have both in common.
pub fn are_strictly_ordered(rows: &[RowEntry]) -> bool
    ensures test { result ≡ are_ordered (rows_of rows.now) }
    ensures ordered { IsTrue result ↔ IsStrictlyOrdered (rows_of rows.now) }
{
    let mut rest = rows;
    'rest: while let [row, next, ..] = rest {
        if !row_order(row, next).is_lt() {
            return false;
        }
        rest = &rest[1..];
    }
    true
}

/// Whether each row's key has at most 65,535 bytes, and its value or operand fewer than 2^32 bytes.
pub fn are_in_bounds(rows: &[RowEntry]) -> bool
    ensures { IsTrue result ↔ AllByRecursion IsInBounds (rows_of rows.now) }
{
    rows.iter().all(|row| row.is_in_bounds())
}
