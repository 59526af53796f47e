//! Copies that equal their sources.

ghost use Rattle.std.specs.Prelude.{◌≡◌, IfOk};

use crate::{RowEntry, Text, Ulid, ValueDeletable};
use bytes::Bytes;
use std::alloc::AllocError;

/// A type whose values can be copied, as the items of a list are when the list is cloned. Each copy
/// equals its source.
pub trait Copies {
    /// A copy of the value. It fails only if memory runs out.
    fn copied(&self) -> Result<Self, AllocError>
    where
        Self: Sized,
        ensures { IfOk result (λ copy. copy ≡ self.now) };
}

impl Copies for u8 {
    fn copied(&self) -> Result<u8, AllocError> {
        Ok(*self)
    }
}

impl Copies for u64 {
    fn copied(&self) -> Result<u64, AllocError> {
        Ok(*self)
    }
}

impl Copies for Ulid {
    fn copied(&self) -> Result<Ulid, AllocError> {
        Ok(*self)
    }
}

impl Copies for Bytes {
    fn copied(&self) -> Result<Bytes, AllocError> {
        self.clone()
    }
}

impl Copies for Text {
    fn copied(&self) -> Result<Text, AllocError> {
        Clone::clone(self)
    }
}

impl Copies for ValueDeletable {
    fn copied(&self) -> Result<ValueDeletable, AllocError> {
        Clone::clone(self)
    }
}

impl Copies for RowEntry {
    fn copied(&self) -> Result<RowEntry, AllocError> {
        Clone::clone(self)
    }
}

impl<A: Copies + Drop, B: Copies + Drop> Copies for (A, B) {
    fn copied(&self) -> Result<(A, B), AllocError> {
        Ok((self.0.copied()?, self.1.copied()?))
    }
}
