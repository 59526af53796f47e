//! Rows whose keys rise.

ghost use Rattle.std.specs.Prelude.{◌≡◌, ◌↔◌, IsTrue};
ghost use Rattle.std.specs.Ordering.{is_gt};
ghost use Rattle.row_model.specs.Rows.{key_cmp};
ghost use Rattle.fleet_rows.specs.Row.{rows_of};
ghost use Rattle.fleet_iter.specs.Iteration.{AreRising, OrderedRowsRise, are_rising};

use fleet_rows::RowEntry;
use std::cmp::Ordering;

/// Whether no row has a lesser key than one before it.
pub fn are_rising(rows: &[RowEntry]) -> bool
    ensures { IsTrue result ↔ AreRising (rows_of rows.now) }
{
    let mut rest = rows;
    'rest: while let [row, next, ..] = rest {
        if has_greater_key(row, next) {
            return false;
        }
        rest = &rest[1..];
    }
    true
}

fn has_greater_key(row: &RowEntry, other: &RowEntry) -> bool
    ensures { result ≡ is_gt (key_cmp row.now.key other.now.key) }
{
    row.key.cmp(&other.key) == Ordering::Greater
}

/// Strictly ordered rows rise, so iterators over them may be sought.
pub fn ordered_rows_rise()
    ensures { OrderedRowsRise }
{}
