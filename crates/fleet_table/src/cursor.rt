//! Where rows stand, and places among rows.

ghost use Rattle.std.specs.Prelude.{◌≡◌};
ghost use Rattle.fleet_table.specs.Cursors.{before_by};

use std::cmp::Ordering;

/// Where a row of a table stands.
#[derive(Clone, Copy, Debug)]
pub(crate) struct Cursor {
    /// The number of blocks before its block.
    pub(crate) block: usize,
    /// The number of rows before it.
    pub(crate) row: usize,
    /// The number of bytes before it.
    pub(crate) place: usize,
}

/// Which rows are before a spot at their own key.
#[derive(Clone, Copy, Debug)]
pub(crate) enum Ties {
    /// No row of the key is before the spot.
    After,
    /// All rows of the key are before the spot.
    Before,
    /// The rows of the key with a greater sequence are before the spot.
    Newer(u64),
}

/// Whether a row is before a spot. Its key compares so with the spot's key, and it has this
/// sequence.
pub(crate) fn is_before_spot(order: Ordering, seq: u64, ties: Ties) -> bool
    ensures { result ≡ before_by order ties seq }
{
    match order {
        Ordering::Less => true,
        Ordering::Greater => false,
        Ordering::Equal => match ties {
            Ties::After => false,
            Ties::Before => true,
            Ties::Newer(most) => most < seq,
        },
    }
}
