//! Types whose values are ranges of byte strings.

ghost use Rattle.std.specs.Prelude.{◌≡◌, List, ℕ};
ghost use Rattle.std.specs.Range.Bound.{bound_map};
ghost use Rattle.fleet_range.specs.Ranges.{Ends};

use std::convert::AsSlice;
use std::ops::{Bound, Range, RangeFrom, RangeFull, RangeInclusive, RangeTo, RangeToInclusive};

/// A type whose values are ranges of byte strings.
pub trait ByteRangeBounds {
    /// The start and the end of the range.
    ghost ends: { Self → Ends (List ℕ) };

    /// The start of the range, with its key borrowed.
    fn start_bound(&self) -> Bound<&[u8]>
        ensures { bound_map (λ key. key.now) result ≡ (ends self.now).0 };

    /// The end of the range, with its key borrowed.
    fn end_bound(&self) -> Bound<&[u8]>
        ensures { bound_map (λ key. key.now) result ≡ (ends self.now).1 };
}

impl<K: AsSlice<u8>> ByteRangeBounds for Range<K> {
    ghost use Rattle.std.specs.declared.ops.Bound.TheVariants.{Included, Excluded};

    ghost ends = { λ r. (Included (K.items r.start), Excluded (K.items r.end)) };

    fn start_bound(&self) -> Bound<&[u8]> {
        Bound::Included(self.start.as_slice())
    }

    fn end_bound(&self) -> Bound<&[u8]> {
        Bound::Excluded(self.end.as_slice())
    }
}

impl<K: AsSlice<u8>> ByteRangeBounds for RangeInclusive<K> {
    ghost use Rattle.std.specs.declared.ops.Bound.TheVariants.{Included};
    ghost use Rattle.std.specs.Range.{range_inclusive_start, range_inclusive_end};

    ghost ends = { λ r. (
      Included
          (K.items (range_inclusive_start r)),
      Included (K.items (range_inclusive_end r)),
    ) };

    fn start_bound(&self) -> Bound<&[u8]> {
        Bound::Included(self.start().as_slice())
    }

    fn end_bound(&self) -> Bound<&[u8]> {
        Bound::Included(self.end().as_slice())
    }
}

impl<K: AsSlice<u8>> ByteRangeBounds for RangeFrom<K> {
    ghost use Rattle.std.specs.declared.ops.Bound.TheVariants.{Included, Unbounded};

    ghost ends = { λ r. (Included (K.items r.start), Unbounded) };

    fn start_bound(&self) -> Bound<&[u8]> {
        Bound::Included(self.start.as_slice())
    }

    fn end_bound(&self) -> Bound<&[u8]> {
        Bound::Unbounded
    }
}

impl<K: AsSlice<u8>> ByteRangeBounds for RangeTo<K> {
    ghost use Rattle.std.specs.declared.ops.Bound.TheVariants.{Excluded, Unbounded};

    ghost ends = { λ r. (Unbounded, Excluded (K.items r.end)) };

    fn start_bound(&self) -> Bound<&[u8]> {
        Bound::Unbounded
    }

    fn end_bound(&self) -> Bound<&[u8]> {
        Bound::Excluded(self.end.as_slice())
    }
}

impl<K: AsSlice<u8>> ByteRangeBounds for RangeToInclusive<K> {
    ghost use Rattle.std.specs.declared.ops.Bound.TheVariants.{Included, Unbounded};

    ghost ends = { λ r. (Unbounded, Included (K.items r.end)) };

    fn start_bound(&self) -> Bound<&[u8]> {
        Bound::Unbounded
    }

    fn end_bound(&self) -> Bound<&[u8]> {
        Bound::Included(self.end.as_slice())
    }
}

impl ByteRangeBounds for RangeFull {
    ghost use Rattle.std.specs.declared.ops.Bound.TheVariants.{Unbounded};

    ghost ends = { λ _. (Unbounded, Unbounded) };

    fn start_bound(&self) -> Bound<&[u8]> {
        Bound::Unbounded
    }

    fn end_bound(&self) -> Bound<&[u8]> {
        Bound::Unbounded
    }
}

impl<T: AsSlice<u8>> ByteRangeBounds for (Bound<T>, Bound<T>) {
    ghost use Rattle.std.specs.Range.Bound.{bound_map};

    ghost ends = { λ r. (bound_map T.items r.0, bound_map T.items r.1) };

    fn start_bound(&self) -> Bound<&[u8]> {
        match &self.0 {
            Bound::Included(key) => Bound::Included(key.as_slice()),
            Bound::Excluded(key) => Bound::Excluded(key.as_slice()),
            Bound::Unbounded => Bound::Unbounded,
        }
    }

    fn end_bound(&self) -> Bound<&[u8]> {
        match &self.1 {
            Bound::Included(key) => Bound::Included(key.as_slice()),
            Bound::Excluded(key) => Bound::Excluded(key.as_slice()),
            Bound::Unbounded => Bound::Unbounded,
        }
    }
}
