//! The ends of ranges.

ghost use Rattle.std.specs.Prelude.{◌≡◌, IfOk, IsOkUnless};
ghost use Rattle.std.specs.Range.Bound.{bound_map};
ghost use Rattle.fleet_rows.specs.declared.errors.SlateDBError.TheVariants as fleet;
ghost use Rattle.fleet_range.specs.Ranges.{ClonesEqual};
ghost use Rattle.fleet_range.specs.Shown.{end_of};

use fleet_rows::SlateDBError;
use std::cmp::Ordering;
use std::hash::{Hash, Hasher};
use std::ops::Bound;

/// The end of a range. Unbounded is the greatest end, and at one key Included is greater than
/// Excluded.
#[derive(Clone, Debug, Drop)]
pub struct EndBound<T: Ord> {
    bound: Bound<T>,
}

impl<T: Ord> EndBound<T> {
    /// The end as a `Bound`.
    pub(crate) fn as_bound(&self) -> &Bound<T>
        ensures { result.now ≡ self.now.bound }
    {
        &self.bound
    }
}

impl<T: Ord + Clone> EndBound<T> {
    /// A copy of the end. It fails only with `SlateDBError::Memory`.
    pub fn clone(&self) -> Result<EndBound<T>, SlateDBError>
        requires { ClonesEqual T.is_clone }
        ensures copy { IfOk result (λ copy. copy ≡ self.now) }
        ensures memory { IsOkUnless result fleet.Memory }
    {
        Ok(Clone::clone(self)?)
    }
}

impl<'a, T: Ord + Clone> EndBound<&'a T> {
    /// The end with a copy of its borrowed key.
    pub fn cloned(&self) -> Result<EndBound<T>, SlateDBError>
        requires { ClonesEqual T.is_clone }
        ensures copy { IfOk result (λ b. end_of b ≡ bound_map (λ key. key.now) (end_of self.now)) }
        ensures memory { IsOkUnless result fleet.Memory }
    {
        let bound = match self.as_bound() {
            Bound::Included(key) => Bound::Included((*key).clone()?),
            Bound::Excluded(key) => Bound::Excluded((*key).clone()?),
            Bound::Unbounded => Bound::Unbounded,
        };
        Ok(EndBound { bound })
    }
}

impl<T: Ord> From<Bound<T>> for EndBound<T> {
    ghost from_gives = { λ bound end. end_of end ≡ bound };

    fn from(bound: Bound<T>) -> EndBound<T> {
        EndBound { bound }
    }
}

impl<T: Ord> From<EndBound<T>> for Bound<T> {
    ghost from_gives = { λ end bound. bound ≡ end_of end };

    fn from(end: EndBound<T>) -> Bound<T> {
        let EndBound { bound } = end;
        bound
    }
}

impl<T: Ord> PartialEq for EndBound<T> {
    ghost use Rattle.std.specs.Cmp.{on_equiv, partial_equiv_from_equiv};
    ghost use Rattle.fleet_range.specs.Sides.{bound_eq, bound_equiv};

    ghost eq = { λ a b. bound_eq T.eq (end_of a) (end_of b) };

    ghost laws = { partial_equiv_from_equiv (on_equiv end_of (bound_equiv T.Eq.laws)) };

    fn eq(&self, other: &EndBound<T>) -> bool {
        match (&self.bound, &other.bound) {
            (Bound::Unbounded, Bound::Unbounded) => true,
            (Bound::Included(a), Bound::Included(b)) => *a == *b,
            (Bound::Excluded(a), Bound::Excluded(b)) => *a == *b,
            _ => false,
        }
    }
}

impl<T: Ord> Eq for EndBound<T> {
    ghost use Rattle.std.specs.Cmp.{on_equiv};
    ghost use Rattle.fleet_range.specs.Sides.{bound_equiv};

    ghost laws = { on_equiv end_of (bound_equiv T.Eq.laws) };
}

impl<T: Ord> Ord for EndBound<T> {
    ghost use Rattle.std.specs.Prelude.{refl};
    ghost use Rattle.std.specs.Cmp.{on_total};
    ghost use Rattle.fleet_range.specs.Sides.{end_cmp, end_total, end_ties};

    ghost cmp = { λ a b. end_cmp T.cmp (end_of a) (end_of b) };

    ghost total = { on_total end_of (end_total T.total) };

    ghost matches_partial_cmp = { λ a b. refl };

    ghost matches_eq = { λ a b. end_ties T.eq T.cmp T.matches_eq (end_of a) (end_of b) };

    fn cmp(&self, other: &EndBound<T>) -> Ordering {
        match (&self.bound, &other.bound) {
            (Bound::Unbounded, Bound::Unbounded) => Ordering::Equal,
            (Bound::Unbounded, _) => Ordering::Greater,
            (_, Bound::Unbounded) => Ordering::Less,
            (Bound::Included(a), Bound::Included(b)) => a.cmp(b),
            (Bound::Included(a), Bound::Excluded(b)) => a.cmp(b).then(Ordering::Greater),
            (Bound::Excluded(a), Bound::Included(b)) => a.cmp(b).then(Ordering::Less),
            (Bound::Excluded(a), Bound::Excluded(b)) => a.cmp(b),
        }
    }
}

impl<T: Ord> PartialOrd for EndBound<T> {
    ghost use Rattle.std.specs.Prelude.{Some, refl};
    ghost use Rattle.std.specs.Cmp.{on_total, partial_order_from_agreeing_total};
    ghost use Rattle.fleet_range.specs.Sides.{end_cmp, end_total, end_ties};

    ghost partial_cmp = { λ a b. Some (end_cmp T.cmp (end_of a) (end_of b)) };

    ghost laws = { partial_order_from_agreeing_total
        (λ a b. end_cmp T.cmp (end_of a) (end_of b)) (on_total end_of (end_total T.total))
        (λ a b. refl) (λ a b. end_ties T.eq T.cmp T.matches_eq (end_of a) (end_of b)) };

    fn partial_cmp(&self, other: &EndBound<T>) -> Option<Ordering> {
        Some(self.cmp(other))
    }
}

impl<T: Ord + Hash> Hash for EndBound<T> {
    ghost use Rattle.fleet_range.specs.Sides.{bound_input, bound_alike_input};

    ghost hash_input = { λ a. bound_input T.hash_input (end_of a) };

    ghost respects_eq = { λ a b h.
        bound_alike_input T.eq T.hash_input T.respects_eq (end_of a) (end_of b) h };

    fn hash<H: Hasher>(&self, state: &mut H) {
        match &self.bound {
            Bound::Unbounded => state.write_u8(0),
            Bound::Included(key) => {
                state.write_u8(1);
                key.hash(state);
            }
            Bound::Excluded(key) => {
                state.write_u8(2);
                key.hash(state);
            }
        }
    }
}
