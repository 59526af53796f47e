//! Vectors that contracts see as lists.

ghost use Rattle.std.specs.Prelude.{◌≡◌, ◌↔◌, ◌≤◌, ◌<◌, ◌++◌, [], ◌∷◌, drop, length, slice_get, slice_set, take, IsTrue, OnOk, OnErr, IfOk, IsOkUnless};
ghost use Rattle.std.specs.Option.{option_copied};
ghost use Rattle.std.specs.Cmp.Lexicographic.{pointwise, lists_per, lists_equiv};

use crate::{Copies, SlateDBError, Ulid};
use std::alloc::{AllocError, Global};
use std::marker::Model;
use std::mem;

/// A vector of items, in order. Contracts see it as the list of these items.
#[derive(Debug, Drop)]
pub struct ListOf<T> {
    items: Vec<T>,
}

impl<T> Model for ListOf<T> {
    ghost use Rattle.std.specs.Prelude.{List};
    ghost use Rattle.std.specs.Coded.{coded_list};

    ghost Value = { List T };

    ghost coded = { coded_list T.code };

    ghost view = { λ l. l.items.items };
}

impl<T: Drop> ListOf<T> {
    /// An empty list, which takes no memory yet.
    pub fn new(alloc: Global) -> Self
        ensures { result ≡ [] }
    {
        ListOf {
            items: Vec::new(alloc),
        }
    }

    /// Makes a list of the vector's items. It keeps the vector's memory and copies nothing.
    pub fn from_vec(items: Vec<T>) -> Self
        ensures { result ≡ items.items }
    {
        ListOf { items }
    }

    /// Gives the items as a vector. It keeps the list's memory and copies nothing.
    pub fn into_vec(self) -> Vec<T>
        ensures { result.items ≡ self }
    {
        let ListOf { items } = self;
        items
    }

    /// Adds an item at the end. If memory runs out, the item is dropped.
    pub fn push(&mut self, item: T) -> Result<(), SlateDBError>
        ensures ok { OnOk result (self.new ≡ self.old ++ item ∷ []) }
        ensures err { OnErr result (self.new ≡ self.old) }
        ensures memory { IsOkUnless result SlateDBError.Memory }
    {
        Ok(self.items.push(item)?)
    }

    /// Inserts an item before the one at `place`, counted from 0, or at the end if `place` is the
    /// length. If memory runs out, the item is dropped.
    pub fn insert(&mut self, place: u64, item: T) -> Result<(), SlateDBError>
        requires { place ≤ length self.old }
        ensures ok { OnOk result (self.new ≡ take place self.old ++ item ∷ drop place self.old) }
        ensures err { OnErr result (self.new ≡ self.old) }
        ensures memory { IsOkUnless result SlateDBError.Memory }
    {
        Ok(self.items.insert(place as usize, item)?)
    }

    /// Puts an item in the place of the one at `place`, counted from 0. The old item is dropped.
    pub fn replace(&mut self, place: u64, item: T)
        requires { place < length self.old }
        ensures { self.new ≡ slice_set self.old place item }
    {
        self.items[place as usize] = item;
    }

    /// Takes all items out, so that the list is empty. It copies nothing.
    pub fn take(&mut self) -> Self
        ensures all { result ≡ self.old }
        ensures empty { self.new ≡ [] }
    {
        let alloc = *self.items.allocator();
        ListOf {
            items: mem::replace(&mut self.items, Vec::new(alloc)),
        }
    }

    /// The number of items.
    pub fn len(&self) -> u64
        ensures { result ≡ length self.now }
    {
        self.items.len() as u64
    }

    /// Whether the list has no items.
    pub fn is_empty(&self) -> bool
        ensures { IsTrue result ↔ (self.now ≡ []) }
    {
        self.items.is_empty()
    }

    /// The item at `place`, counted from 0, or None if `place` is not below the length.
    pub fn get(&self, place: u64) -> Option<&T>
        ensures { option_copied result ≡ slice_get self.now place }
    {
        self.items.get(place as usize)
    }

    /// The items as a slice.
    pub fn as_slice(&self) -> &[T]
        ensures { result.now ≡ self.now }
    {
        self.items.as_slice()
    }
}

impl<T: Copies + Drop> ListOf<T> {
    /// A copy of the list and of its items. The only error is `Memory`.
    pub fn clone(&self) -> Result<ListOf<T>, SlateDBError>
        ensures copy { IfOk result (λ copy. copy ≡ self.now) }
        ensures memory { IsOkUnless result SlateDBError.Memory }
    {
        Ok(Clone::clone(self)?)
    }
}

impl<T: Copies + Drop> Clone for ListOf<T> {
    ghost is_clone = { λ l copy. copy ≡ l };

    fn clone(&self) -> Result<ListOf<T>, AllocError> {
        let mut items = Vec::new(*self.items.allocator());
        'items: for item in self.as_slice() {
            items.push(item.copied()?)?;
        }
        Ok(ListOf { items })
    }
}

impl<T: Copies + Drop> Copies for ListOf<T> {
    fn copied(&self) -> Result<ListOf<T>, AllocError> {
        Clone::clone(self)
    }
}

impl<T: PartialEq> PartialEq for ListOf<T> {
    ghost eq = { pointwise T.eq };

    ghost laws = { lists_per T.laws };

    fn eq(&self, other: &Self) -> bool {
        self.items == other.items
    }
}

impl<T: Eq> Eq for ListOf<T> {
    ghost laws = { lists_equiv T.Eq.laws };
}

/// A list of ids of jobs or of tables.
pub type JobList = ListOf<Ulid>;

/// Ids of tables.
pub type IdList = ListOf<Ulid>;

/// A list of jobs, each with the number of the rule that it failed.
pub type RuleList = ListOf<(Ulid, u8)>;

/// A list of attempts. Each is given by its job and its number.
pub type AttemptList = ListOf<(Ulid, u64)>;

/// The ids of the tables that a job wrote: for each of its ranges a list, in the order of the
/// ranges.
pub type NamesList = ListOf<JobList>;

/// A list of a scheduler's proposals. Each is given by its place, counted from 1, and the number of
/// the rule that it failed.
pub type PlaceList = ListOf<(u64, u8)>;
