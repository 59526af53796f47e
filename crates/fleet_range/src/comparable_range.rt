//! Ranges of keys of any ordered type.

ghost use Rattle.std.specs.Prelude.{◌≡◌, ◌&&◌, ◌||◌, false, IfOk, IfSome, IfNone, IsOkUnless};
ghost use Rattle.std.specs.Option.{option_map};
ghost use Rattle.std.specs.Ordering.{ord_max, ord_min};
ghost use Rattle.std.specs.Range.Bound.{bound_map};
ghost use Rattle.fleet_rows.specs.declared.errors.SlateDBError.TheVariants as fleet;
ghost use Rattle.fleet_range.specs.Ranges.{ClonesEqual, intersection, is_in, is_non_empty, joined_ends, leaves_room, overlap, touches, union_of};
ghost use Rattle.fleet_range.specs.Shown.{end_of, ends_of, start_of};

use crate::{EndBound, StartBound};
use fleet_rows::SlateDBError;
use std::ops::{Bound, RangeBounds};

/// A range of keys of an ordered type. It may hold no key.
#[derive(Clone, Debug, Drop, PartialEq, Eq, PartialOrd, Ord, Hash)]
pub struct ComparableRange<T: Ord> {
    start: StartBound<T>,
    end: EndBound<T>,
}

impl<T: Ord> ComparableRange<T> {
    /// The range between these bounds, even if they leave no room.
    pub fn new(start: Bound<T>, end: Bound<T>) -> ComparableRange<T>
        ensures { ends_of result ≡ (start, end) }
    {
        ComparableRange {
            start: StartBound::from(start),
            end: EndBound::from(end),
        }
    }

    /// The start of the range.
    pub(crate) fn start(&self) -> &StartBound<T>
        ensures { result.now ≡ self.now.start }
    {
        &self.start
    }

    /// The end of the range.
    pub(crate) fn end(&self) -> &EndBound<T>
        ensures { result.now ≡ self.now.end }
    {
        &self.end
    }

    // Whether this range overlaps or touches the other one, which is not before this one.
    fn is_near(&self, other: &ComparableRange<T>) -> bool
        ensures { result ≡
            (is_non_empty T.cmp (overlap T.cmp (ends_of self.now) (ends_of other.now))
            || touches T.cmp (ends_of other.now).0 (ends_of self.now).1) }
    {
        have_room(
            greater(&self.start, &other.start),
            lesser(&self.end, &other.end),
        ) || meet(&other.start, &self.end)
    }

    /// Whether the bounds leave room. Two Excluded bounds at rising keys leave room even if no key
    /// lies between them.
    pub fn non_empty(&self) -> bool
        ensures { result ≡ is_non_empty T.cmp (ends_of self.now) }
    {
        have_room(&self.start, &self.end)
    }

    /// The start of the range, with its key borrowed.
    pub fn comparable_start_bound(&self) -> StartBound<&T>
        ensures { bound_map (λ key. key.now) (start_of result) ≡ (ends_of self.now).0 }
    {
        StartBound::from(borrowed(self.start.as_bound()))
    }

    /// The end of the range, with its key borrowed.
    pub fn comparable_end_bound(&self) -> EndBound<&T>
        ensures { bound_map (λ key. key.now) (end_of result) ≡ (ends_of self.now).1 }
    {
        EndBound::from(borrowed(self.end.as_bound()))
    }
}

impl<T: Ord + Clone> ComparableRange<T> {
    /// A copy of the range. It fails only with `SlateDBError::Memory`.
    pub fn clone(&self) -> Result<ComparableRange<T>, SlateDBError>
        requires { ClonesEqual T.is_clone }
        ensures copy { IfOk result (λ copy. copy ≡ self.now) }
        ensures memory { IsOkUnless result fleet.Memory }
    {
        Ok(Clone::clone(self)?)
    }

    /// The range from the greater start to the lesser end, or None if these bounds leave no room.
    pub fn intersect(
        &self,
        other: &ComparableRange<T>,
    ) -> Result<Option<ComparableRange<T>>, SlateDBError>
        requires { ClonesEqual T.is_clone }
        ensures bounds { IfOk result (λ r. option_map ends_of r
            ≡ intersection T.cmp (ends_of self.now) (ends_of other.now)) }
        ensures both { IfOk result (λ r. IfSome r (λ range. (key : T) →
            is_in T.cmp (ends_of range) key
            ≡ (is_in T.cmp (ends_of self.now) key && is_in T.cmp (ends_of other.now) key))) }
        ensures none { IfOk result (λ r. IfNone r ((key : T) → (is_in T.cmp (ends_of self.now) key
            && is_in T.cmp (ends_of other.now) key) ≡ false)) }
        ensures memory { IsOkUnless result fleet.Memory }
    {
        let start = greater(&self.start, &other.start);
        let end = lesser(&self.end, &other.end);
        if have_room(start, end) {
            Ok(Some(ComparableRange {
                start: start.clone()?,
                end: end.clone()?,
            }))
        } else {
            Ok(None)
        }
    }

    /// The range from the lesser start to the greater end, or None if the two ranges neither
    /// overlap nor touch.
    pub fn union(
        &self,
        other: &ComparableRange<T>,
    ) -> Result<Option<ComparableRange<T>>, SlateDBError>
        requires { ClonesEqual T.is_clone }
        ensures bounds { IfOk result
            (λ r. option_map ends_of r ≡ union_of T.cmp (ends_of self.now) (ends_of other.now)) }
        ensures either { IfOk result
            (λ r. IfSome r (λ range. (key : T) → is_in T.cmp (ends_of range) key
            ≡ (is_in T.cmp (ends_of self.now) key || is_in T.cmp (ends_of other.now) key))) }
        ensures memory { IsOkUnless result fleet.Memory }
    {
        if self.cmp(other).is_lt() {
            self.united(other)
        } else {
            other.united(self)
        }
    }

    // The union of this range with one that is not before it, or None if the two neither overlap
    // nor touch.
    fn united(&self, other: &ComparableRange<T>) -> Result<Option<ComparableRange<T>>, SlateDBError>
        requires { ClonesEqual T.is_clone }
        ensures bounds { IfOk result
            (λ r. option_map ends_of r ≡ joined_ends T.cmp (ends_of self.now) (ends_of other.now)) }
        ensures memory { IsOkUnless result fleet.Memory }
    {
        if self.is_near(other) {
            Ok(Some(ComparableRange {
                start: self.start.clone()?,
                end: greater(&self.end, &other.end).clone()?,
            }))
        } else {
            Ok(None)
        }
    }
}

impl<T: Ord + Drop> RangeBounds<T> for ComparableRange<T> {
    ghost use Rattle.std.specs.Prelude.{⊤};

    ghost has_bounds = { λ _. ⊤ };

    ghost start_bound = { λ r. (ends_of r).0 };

    ghost end_bound = { λ r. (ends_of r).1 };

    fn start_bound(&self) -> Bound<&T> {
        borrowed(self.start.as_bound())
    }

    fn end_bound(&self) -> Bound<&T> {
        borrowed(self.end.as_bound())
    }
}

/// The bound with its key borrowed.
pub(crate) fn borrowed<T>(bound: &Bound<T>) -> Bound<&T>
    ensures { bound_map (λ key. key.now) result ≡ bound.now }
{
    match bound {
        Bound::Included(key) => Bound::Included(key),
        Bound::Excluded(key) => Bound::Excluded(key),
        Bound::Unbounded => Bound::Unbounded,
    }
}

// Whether a start and an end leave room.
fn have_room<T: Ord>(start: &StartBound<T>, end: &EndBound<T>) -> bool
    ensures { result ≡ leaves_room T.cmp (start_of start.now) (end_of end.now) }
{
    match (start.as_bound(), end.as_bound()) {
        (Bound::Unbounded, _) => true,
        (_, Bound::Unbounded) => true,
        (Bound::Included(a), Bound::Included(b)) => a.cmp(b).is_le(),
        (Bound::Included(a), Bound::Excluded(b)) => a.cmp(b).is_lt(),
        (Bound::Excluded(a), Bound::Included(b)) => a.cmp(b).is_lt(),
        (Bound::Excluded(a), Bound::Excluded(b)) => a.cmp(b).is_lt(),
    }
}

// Whether a range with this start begins exactly where a range with this end stops.
fn meet<T: Ord>(start: &StartBound<T>, end: &EndBound<T>) -> bool
    ensures { result ≡ touches T.cmp (start_of start.now) (end_of end.now) }
{
    match (start.as_bound(), end.as_bound()) {
        (Bound::Excluded(a), Bound::Included(b)) => a.cmp(b).is_eq(),
        (Bound::Included(a), Bound::Excluded(b)) => a.cmp(b).is_eq(),
        _ => false,
    }
}

// The greater of two values, or the second one if they are equal.
fn greater<'a, K: Ord>(a: &'a K, b: &'a K) -> &'a K
    ensures { result.now ≡ ord_max K.cmp a.now b.now }
{
    if b.cmp(a).is_lt() { a } else { b }
}

// The lesser of two values, or the first one if they are equal.
fn lesser<'a, K: Ord>(a: &'a K, b: &'a K) -> &'a K
    ensures { result.now ≡ ord_min K.cmp a.now b.now }
{
    if b.cmp(a).is_lt() { b } else { a }
}
