//! Entries of a merge, and their order.

ghost use Rattle.std.specs.Prelude.{◌≡◌};
ghost use Rattle.fleet_iter.specs.Entry.{order_cmp, entry_cmp};

use crate::IterationOrder;
use crate::merge::compare;
use fleet_rows::RowEntry;
use std::cmp::Ordering;

/// A row that was read ahead from a source, with the order of the merge and the place of the
/// source.
#[derive(Debug, Drop)]
pub struct MergeIteratorHeapEntry {
    pub order: IterationOrder,
    pub row: RowEntry,
    pub index: usize,
}

#[inline]
fn compare_orders(order: IterationOrder, other: IterationOrder) -> Ordering
    ensures { result ≡ order_cmp order other }
{
    match (order, other) {
        (IterationOrder::Ascending, IterationOrder::Descending) => Ordering::Less,
        (IterationOrder::Descending, IterationOrder::Ascending) => Ordering::Greater,
        _ => Ordering::Equal,
    }
}

#[inline]
fn compare_entries(entry: &MergeIteratorHeapEntry, other: &MergeIteratorHeapEntry) -> Ordering
    ensures { result ≡ entry_cmp entry.now other.now }
{
    match compare_orders(entry.order, other.order) {
        Ordering::Equal => match compare(entry.order, &entry.row, &other.row) {
            Ordering::Equal => entry.index.cmp(&other.index),
            found => found,
        },
        found => found,
    }
}

impl PartialEq for MergeIteratorHeapEntry {
    ghost use Rattle.std.specs.Ordering.{eq_by_cmp};
    ghost use Rattle.std.specs.Cmp.{partial_equiv_from_equiv, eq_by_cmp_equiv};
    ghost use Rattle.fleet_iter.specs.Entry.{entry_cmp, entry_total};

    ghost eq = { eq_by_cmp entry_cmp };

    ghost laws = { partial_equiv_from_equiv (eq_by_cmp_equiv entry_total) };

    fn eq(&self, other: &MergeIteratorHeapEntry) -> bool {
        compare_entries(self, other) == Ordering::Equal
    }
}

impl Eq for MergeIteratorHeapEntry {
    ghost use Rattle.std.specs.Cmp.{eq_by_cmp_equiv};
    ghost use Rattle.fleet_iter.specs.Entry.{entry_total};

    ghost laws = { eq_by_cmp_equiv entry_total };
}

impl Ord for MergeIteratorHeapEntry {
    ghost use Rattle.std.specs.Prelude.{refl};
    ghost use Rattle.fleet_iter.specs.Entry.{entry_cmp, entry_total};

    ghost cmp = { entry_cmp };

    ghost total = { entry_total };

    ghost matches_partial_cmp = { λ a b. refl };

    ghost matches_eq = { λ a b. refl };

    #[inline]
    fn cmp(&self, other: &MergeIteratorHeapEntry) -> Ordering {
        compare_entries(self, other)
    }
}

impl PartialOrd for MergeIteratorHeapEntry {
    ghost use Rattle.std.specs.Prelude.{Some, refl};
    ghost use Rattle.std.specs.Cmp.{partial_order_from_agreeing_total};
    ghost use Rattle.fleet_iter.specs.Entry.{entry_cmp, entry_total};

    ghost partial_cmp = { λ a b. Some (entry_cmp a b) };

    ghost laws = { partial_order_from_agreeing_total entry_cmp entry_total
        (λ a b. refl) (λ a b. refl) };

    fn partial_cmp(&self, other: &MergeIteratorHeapEntry) -> Option<Ordering> {
        Some(compare_entries(self, other))
    }
}
