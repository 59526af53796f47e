//! The starts of ranges.

ghost use Rattle.std.specs.Prelude.{◌≡◌, IfOk, IsOkUnless};
ghost use Rattle.std.specs.Range.Bound.{bound_map};
ghost use Rattle.fleet_rows.specs.declared.errors.SlateDBError.TheVariants as fleet;
ghost use Rattle.fleet_range.specs.Ranges.{ClonesEqual};
ghost use Rattle.fleet_range.specs.Shown.{start_of};

use fleet_rows::SlateDBError;
use std::cmp::Ordering;
use std::hash::{Hash, Hasher};
use std::ops::Bound;

/// The start of a range. Unbounded is the least start, and at one key Included is less than
/// Excluded.
#[derive(Clone, Debug, Drop)]
pub struct StartBound<T: Ord> {
    bound: Bound<T>,
}

impl<T: Ord> StartBound<T> {
    /// The start as a `Bound`.
    pub(crate) fn as_bound(&self) -> &Bound<T>
        ensures { result.now ≡ self.now.bound }
    {
        &self.bound
    }
}

impl<T: Ord + Clone> StartBound<T> {
    /// A copy of the start. It fails only with `SlateDBError::Memory`.
    pub fn clone(&self) -> Result<StartBound<T>, SlateDBError>
        requires { ClonesEqual T.is_clone }
        ensures copy { IfOk result (λ copy. copy ≡ self.now) }
        ensures memory { IsOkUnless result fleet.Memory }
    {
        Ok(Clone::clone(self)?)
    }
}

impl<'a, T: Ord + Clone> StartBound<&'a T> {
    /// The start with a copy of its borrowed key.
    pub fn cloned(&self) -> Result<StartBound<T>, SlateDBError>
        requires { ClonesEqual T.is_clone }
        ensures copy { IfOk result
            (λ b. start_of b ≡ bound_map (λ key. key.now) (start_of self.now)) }
        ensures memory { IsOkUnless result fleet.Memory }
    {
        let bound = match self.as_bound() {
            Bound::Included(key) => Bound::Included((*key).clone()?),
            Bound::Excluded(key) => Bound::Excluded((*key).clone()?),
            Bound::Unbounded => Bound::Unbounded,
        };
        Ok(StartBound { bound })
    }
}

impl<T: Ord> From<Bound<T>> for StartBound<T> {
    ghost from_gives = { λ bound start. start_of start ≡ bound };

    fn from(bound: Bound<T>) -> StartBound<T> {
        StartBound { bound }
    }
}

impl<T: Ord> From<StartBound<T>> for Bound<T> {
    ghost from_gives = { λ start bound. bound ≡ start_of start };

    fn from(start: StartBound<T>) -> Bound<T> {
        let StartBound { bound } = start;
        bound
    }
}

impl<T: Ord> PartialEq for StartBound<T> {
    ghost use Rattle.std.specs.Cmp.{on_equiv, partial_equiv_from_equiv};
    ghost use Rattle.fleet_range.specs.Sides.{bound_eq, bound_equiv};

    ghost eq = { λ a b. bound_eq T.eq (start_of a) (start_of b) };

    ghost laws = { partial_equiv_from_equiv (on_equiv start_of (bound_equiv T.Eq.laws)) };

    fn eq(&self, other: &StartBound<T>) -> bool {
        match (&self.bound, &other.bound) {
            (Bound::Unbounded, Bound::Unbounded) => true,
            (Bound::Included(a), Bound::Included(b)) => *a == *b,
            (Bound::Excluded(a), Bound::Excluded(b)) => *a == *b,
            _ => false,
        }
    }
}

impl<T: Ord> Eq for StartBound<T> {
    ghost use Rattle.std.specs.Cmp.{on_equiv};
    ghost use Rattle.fleet_range.specs.Sides.{bound_equiv};

    ghost laws = { on_equiv start_of (bound_equiv T.Eq.laws) };
}

impl<T: Ord> Ord for StartBound<T> {
    ghost use Rattle.std.specs.Prelude.{refl};
    ghost use Rattle.std.specs.Cmp.{on_total};
    ghost use Rattle.fleet_range.specs.Sides.{start_cmp, start_total, start_ties};

    ghost cmp = { λ a b. start_cmp T.cmp (start_of a) (start_of b) };

    ghost total = { on_total start_of (start_total T.total) };

    ghost matches_partial_cmp = { λ a b. refl };

    ghost matches_eq = { λ a b. start_ties T.eq T.cmp T.matches_eq (start_of a) (start_of b) };

    fn cmp(&self, other: &StartBound<T>) -> Ordering {
        match (&self.bound, &other.bound) {
            (Bound::Unbounded, Bound::Unbounded) => Ordering::Equal,
            (Bound::Unbounded, _) => Ordering::Less,
            (_, Bound::Unbounded) => Ordering::Greater,
            (Bound::Included(a), Bound::Included(b)) => a.cmp(b),
            (Bound::Included(a), Bound::Excluded(b)) => a.cmp(b).then(Ordering::Less),
            (Bound::Excluded(a), Bound::Included(b)) => a.cmp(b).then(Ordering::Greater),
            (Bound::Excluded(a), Bound::Excluded(b)) => a.cmp(b),
        }
    }
}

impl<T: Ord> PartialOrd for StartBound<T> {
    ghost use Rattle.std.specs.Prelude.{Some, refl};
    ghost use Rattle.std.specs.Cmp.{on_total, partial_order_from_agreeing_total};
    ghost use Rattle.fleet_range.specs.Sides.{start_cmp, start_total, start_ties};

    ghost partial_cmp = { λ a b. Some (start_cmp T.cmp (start_of a) (start_of b)) };

    ghost laws = { partial_order_from_agreeing_total
        (λ a b. start_cmp T.cmp (start_of a) (start_of b)) (on_total start_of (start_total T.total))
        (λ a b. refl) (λ a b. start_ties T.eq T.cmp T.matches_eq (start_of a) (start_of b)) };

    fn partial_cmp(&self, other: &StartBound<T>) -> Option<Ordering> {
        Some(self.cmp(other))
    }
}

impl<T: Ord + Hash> Hash for StartBound<T> {
    ghost use Rattle.fleet_range.specs.Sides.{bound_input, bound_alike_input};

    ghost hash_input = { λ a. bound_input T.hash_input (start_of a) };

    ghost respects_eq = { λ a b h.
        bound_alike_input T.eq T.hash_input T.respects_eq (start_of a) (start_of b) h };

    fn hash<H: Hasher>(&self, state: &mut H) {
        match &self.bound {
            Bound::Unbounded => state.write_u8(0),
            Bound::Included(key) => {
                state.write_u8(1);
                key.hash(state);
            }
            Bound::Excluded(key) => {
                state.write_u8(2);
                key.hash(state);
            }
        }
    }
}
