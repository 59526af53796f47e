//! Ranges of byte strings.

ghost use Rattle.std.specs.Prelude.{◌≡◌, ◌∷◌, [], ◌++◌, ◌&&◌, not, List, ℕ, Some, IfOk, IfSome, IfNone, IsOkUnless, true, false, nat_eq};
ghost use Rattle.std.specs.List.{starts_with};
ghost use Rattle.std.specs.Option.{option_copied};
ghost use Rattle.std.specs.Range.Bound.{bound_map};
ghost use Rattle.std.specs.declared.ops.Bound.TheVariants.{Included, Excluded, Unbounded};
ghost use Rattle.row_model.specs.Rows.{key_cmp};
ghost use Rattle.row_model.specs.Ranges.{is_in_range};
ghost use Rattle.fleet_rows.specs.declared.errors.SlateDBError.TheVariants as fleet;
ghost use Rattle.fleet_range.specs.Keys.{IsBytes, is_excluded, placed_ends, point_of, prefix_ends, range_of};
ghost use Rattle.fleet_range.specs.Ranges.{if_non_empty, intersection, is_non_empty};
ghost use Rattle.fleet_range.specs.Shown.{end_of, start_of};

use crate::comparable_range::borrowed;
use crate::prefix::{placed_end, placed_start, prefix_end, prefix_start};
use crate::{ByteRangeBounds, ComparableRange, EndBound, StartBound};
use bytes::Bytes;
use fleet_rows::{Copies, ListOf, SlateDBError};
use std::alloc::{AllocError, Global};
use std::marker::Model;
use std::ops::{Bound, RangeBounds};

/// A range of byte strings.
#[derive(Debug, Drop, PartialEq, Eq, PartialOrd, Ord, Hash)]
pub struct BytesRange {
    range: ComparableRange<Bytes>,
}

impl Model for BytesRange {
    ghost use Rattle.std.specs.Prelude.{List, ℕ};
    ghost use Rattle.fleet_range.specs.Ranges.{Ends};

    ghost Value = { Ends (List ℕ) };

    ghost view = { λ r. (r.range.start.bound, r.range.end.bound) };

    ghost inverse = { λ v. record {
      range = record { start = record { bound = v.0 }; end = record { bound = v.1 } };
    } };
}

impl BytesRange {
    /// Makes the range between bounds that leave room. `try_new` takes any bounds.
    pub fn new(start: Bound<Bytes>, end: Bound<Bytes>) -> BytesRange
        requires { is_non_empty key_cmp (start, end) ≡ true }
        ensures { result ≡ (start, end) }
    {
        BytesRange {
            range: ComparableRange::new(start, end),
        }
    }

    /// The range between these bounds, or None if they leave no room.
    pub fn try_new(start: Bound<Bytes>, end: Bound<Bytes>) -> Option<BytesRange>
        ensures { result ≡ if_non_empty key_cmp (start, end) }
    {
        let range = ComparableRange::new(start, end);
        if range.non_empty() {
            Some(BytesRange { range })
        } else {
            None
        }
    }

    /// The range of all keys.
    pub fn unbounded() -> BytesRange
        ensures { result ≡ (Unbounded, Unbounded) }
    {
        BytesRange::new(Bound::Unbounded, Bound::Unbounded)
    }

    /// A range that holds no key: both bounds are Excluded at the same key, so they leave no room.
    pub fn new_empty(alloc: Global) -> Result<BytesRange, SlateDBError>
        ensures bounds { IfOk result (λ r. r ≡ (Excluded (0 ∷ []), Excluded (0 ∷ []))) }
        ensures memory { IsOkUnless result fleet.Memory }
    {
        let start = Bytes::copy_from_slice(alloc, &[0])?;
        let end = Bytes::copy_from_slice(alloc, &[0])?;
        Ok(BytesRange {
            range: ComparableRange::new(Bound::Excluded(start), Bound::Excluded(end)),
        })
    }

    /// A copy of a range of `Bytes` that has room. Its keys share the memory of the range's keys.
    pub fn from<T: RangeBounds<Bytes>>(range: T) -> Result<BytesRange, SlateDBError>
        requires known { T.has_bounds range }
        requires non_empty { is_non_empty key_cmp (T.start_bound range, T.end_bound range) ≡ true }
        ensures bounds { IfOk result (λ r. r ≡ (T.start_bound range, T.end_bound range)) }
        ensures memory { IsOkUnless result fleet.Memory }
    {
        let start = cloned(range.start_bound())?;
        let end = cloned(range.end_bound())?;
        Ok(BytesRange::new(start, end))
    }

    /// A copy of a range of slices that has room. The copy has keys of its own.
    pub fn from_slice<'a, T: RangeBounds<&'a [u8]>>(
        alloc: Global,
        range: T,
    ) -> Result<BytesRange, SlateDBError>
        requires known { T.has_bounds range }
        requires non_empty { is_non_empty key_cmp (
          bound_map (λ key. key.now) (T.start_bound range),
          bound_map (λ key. key.now) (T.end_bound range),
        ) ≡ true }
        ensures bounds { IfOk result (λ r. r
            ≡ (
              bound_map (λ key. key.now) (T.start_bound range),
              bound_map (λ key. key.now) (T.end_bound range),
            )) }
        ensures memory { IsOkUnless result fleet.Memory }
    {
        let start = copied(alloc, range.start_bound())?;
        let end = copied(alloc, range.end_bound())?;
        Ok(BytesRange::new(start, end))
    }

    /// The range of the keys that begin with the prefix.
    pub fn from_prefix(alloc: Global, prefix: &[u8]) -> Result<BytesRange, SlateDBError>
        ensures bounds { IfOk result (λ r. r ≡ prefix_ends prefix.now) }
        ensures keys { IfOk result (λ r. (key : List ℕ)
            → IsBytes key → is_in_range (range_of r) key ≡ starts_with nat_eq key prefix.now) }
        ensures memory { IsOkUnless result fleet.Memory }
    {
        let start = prefix_start(alloc, prefix)?;
        let end = prefix_end(alloc, prefix)?;
        Ok(BytesRange {
            range: ComparableRange::new(start, end),
        })
    }

    /// The range of the keys that begin with the prefix and go on with a key of the subrange. None
    /// if the bounds of such keys leave no room.
    pub fn from_prefix_and_subrange<R: ByteRangeBounds + Drop>(
        alloc: Global,
        prefix: &[u8],
        subrange: R,
    ) -> Result<Option<BytesRange>, SlateDBError>
        ensures bounds { IfOk result
            (λ r. r ≡ if_non_empty key_cmp (placed_ends prefix.now (R.ends subrange))) }
        // The prefix with a suffix lies in the range exactly if the suffix lies in the subrange.
        ensures inside { IfOk result
            (λ r. IfSome r (λ range. (suffix : List ℕ)
            → is_in_range (range_of range) (prefix.now ++ suffix)
            ≡ is_in_range (range_of (R.ends subrange)) suffix)) }
        // Every key in the range begins with the prefix.
        ensures prefixed { IfOk result (λ r. IfSome r (λ range. (key : List ℕ) → IsBytes key
            → is_in_range (range_of range) key ≡ true → starts_with nat_eq key prefix.now ≡ true)) }
        ensures none { IfOk result (λ r. IfNone r
            ((suffix : List ℕ) → is_in_range (range_of (R.ends subrange)) suffix ≡ false)) }
        ensures memory { IsOkUnless result fleet.Memory }
    {
        let start = placed_start(alloc, prefix, subrange.start_bound())?;
        let end = placed_end(alloc, prefix, subrange.end_bound())?;
        Ok(BytesRange::try_new(start, end))
    }

    /// A copy of the range. It fails only with `SlateDBError::Memory`.
    pub fn clone(&self) -> Result<BytesRange, SlateDBError>
        ensures copy { IfOk result (λ copy. copy ≡ self.now) }
        ensures memory { IsOkUnless result fleet.Memory }
    {
        Ok(Clone::clone(self)?)
    }

    /// The range from the greater start to the lesser end, or None if these bounds leave no room.
    pub fn intersect(&self, other: &BytesRange) -> Result<Option<BytesRange>, SlateDBError>
        ensures bounds { IfOk result (λ r. r ≡ intersection key_cmp self.now other.now) }
        ensures both { IfOk result
            (λ r. IfSome r (λ range. (key : List ℕ) → is_in_range (range_of range) key
            ≡ (is_in_range (range_of self.now) key && is_in_range (range_of other.now) key))) }
        ensures none { IfOk result (λ r. IfNone r ((key : List ℕ)
            → (is_in_range (range_of self.now) key && is_in_range (range_of other.now) key)
            ≡ false)) }
        ensures memory { IsOkUnless result fleet.Memory }
    {
        match self.range.intersect(&other.range)? {
            Some(range) => Ok(Some(BytesRange { range })),
            None => Ok(None),
        }
    }

    /// Whether the key lies in the range.
    pub fn contains(&self, key: &[u8]) -> bool
        ensures { result ≡ is_in_range (range_of self.now) key.now }
    {
        let from_start = match ByteRangeBounds::start_bound(self) {
            Bound::Included(start) => !start.cmp(key).is_gt(),
            Bound::Excluded(start) => start.cmp(key).is_lt(),
            Bound::Unbounded => true,
        };
        let to_end = match ByteRangeBounds::end_bound(self) {
            Bound::Included(end) => !key.cmp(end).is_gt(),
            Bound::Excluded(end) => key.cmp(end).is_lt(),
            Bound::Unbounded => true,
        };
        from_start && to_end
    }

    /// Whether the start is not Excluded.
    pub fn is_start_bound_included_or_unbounded(&self) -> bool
        ensures { result ≡ not (is_excluded self.now.0) }
    {
        !matches!(self.range.start().as_bound(), Bound::Excluded(_))
    }

    /// The only key of a range whose two bounds are Included at that key. Any other range gives
    /// None.
    pub fn as_point(&self) -> Option<&Bytes>
        ensures { option_copied result ≡ point_of self.now }
    {
        match (self.range.start().as_bound(), self.range.end().as_bound()) {
            (Bound::Included(start), Bound::Included(end)) if *start == *end => Some(start),
            _ => None,
        }
    }

    /// The start of the range, with its key borrowed.
    pub fn comparable_start_bound(&self) -> StartBound<&Bytes>
        ensures { bound_map (λ key. key.now) (start_of result) ≡ self.now.0 }
    {
        self.range.comparable_start_bound()
    }

    /// The end of the range, with its key borrowed.
    pub fn comparable_end_bound(&self) -> EndBound<&Bytes>
        ensures { bound_map (λ key. key.now) (end_of result) ≡ self.now.1 }
    {
        self.range.comparable_end_bound()
    }
}

impl Clone for BytesRange {
    ghost is_clone = { λ range copy. copy ≡ range };

    fn clone(&self) -> Result<BytesRange, AllocError> {
        Ok(BytesRange {
            range: Clone::clone(&self.range)?,
        })
    }
}

impl Copies for BytesRange {
    fn copied(&self) -> Result<BytesRange, AllocError> {
        Clone::clone(self)
    }
}

impl ByteRangeBounds for BytesRange {
    ghost ends = { λ r. r };

    fn start_bound(&self) -> Bound<&[u8]> {
        match self.range.start().as_bound() {
            Bound::Included(key) => Bound::Included(key.as_slice()),
            Bound::Excluded(key) => Bound::Excluded(key.as_slice()),
            Bound::Unbounded => Bound::Unbounded,
        }
    }

    fn end_bound(&self) -> Bound<&[u8]> {
        match self.range.end().as_bound() {
            Bound::Included(key) => Bound::Included(key.as_slice()),
            Bound::Excluded(key) => Bound::Excluded(key.as_slice()),
            Bound::Unbounded => Bound::Unbounded,
        }
    }
}

impl RangeBounds<Bytes> for BytesRange {
    ghost use Rattle.std.specs.Prelude.{⊤};

    ghost has_bounds = { λ _. ⊤ };

    ghost start_bound = { λ r. r.0 };

    ghost end_bound = { λ r. r.1 };

    fn start_bound(&self) -> Bound<&Bytes> {
        borrowed(self.range.start().as_bound())
    }

    fn end_bound(&self) -> Bound<&Bytes> {
        borrowed(self.range.end().as_bound())
    }
}

/// Ranges of byte strings, such as the ranges of a job.
pub type RangeList = ListOf<BytesRange>;

// The bound with a copy of its key.
fn cloned(bound: Bound<&Bytes>) -> Result<Bound<Bytes>, AllocError>
    ensures { IfOk result (λ b. b ≡ bound_map (λ key. key.now) bound.entry) }
{
    Ok(match bound {
        Bound::Included(key) => Bound::Included(key.clone()?),
        Bound::Excluded(key) => Bound::Excluded(key.clone()?),
        Bound::Unbounded => Bound::Unbounded,
    })
}

// The bound with a copy of its key, made from a slice.
fn copied(alloc: Global, bound: Bound<&&[u8]>) -> Result<Bound<Bytes>, AllocError>
    ensures { IfOk result (λ b. b ≡ bound_map (λ key. key.now.now) bound.entry) }
{
    Ok(match bound {
        Bound::Included(key) => Bound::Included(Bytes::copy_from_slice(alloc, *key)?),
        Bound::Excluded(key) => Bound::Excluded(Bytes::copy_from_slice(alloc, *key)?),
        Bound::Unbounded => Bound::Unbounded,
    })
}
