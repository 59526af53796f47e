//! Values whose copies can share them.

ghost use Rattle.std.specs.Prelude.{◌≡◌, IfOk};
ghost use Rattle.std.specs.Arc.{arc_value};

use fleet_rows::Copies;
use std::alloc::{AllocError, Global};
use std::fmt;
use std::marker::Model;
use std::sync::Arc;

/// A value that never changes. Contracts see the value itself. At first it has one owner, and a
/// copy copies it. After `shared` its copies share it, and a copy takes no memory.
#[derive(Drop)]
pub(crate) struct Shareable<T> {
    kept: Kept<T>,
}

#[derive(Drop)]
enum Kept<T> {
    Own(T),
    Shared(Arc<T>),
}

impl<T> Model for Shareable<T> {
    ghost use Rattle.fleet_jobs.specs.Shared.{value_of};

    ghost Value = { T };

    ghost coded = { T.code };

    ghost view = { λ s. value_of s.kept };
}

impl<T: Drop> Shareable<T> {
    /// A value that has one owner.
    pub(crate) fn new(value: T) -> Self
        ensures { result ≡ value }
    {
        Shareable {
            kept: Kept::Own(value),
        }
    }

    /// A value that its copies share.
    pub(crate) fn from_handle(handle: Arc<T>) -> Self
        ensures { result ≡ arc_value handle }
    {
        Shareable {
            kept: Kept::Shared(handle),
        }
    }

    pub(crate) fn get(&self) -> &T
        ensures { result.now ≡ self.now }
    {
        match &self.kept {
            Kept::Own(value) => value,
            Kept::Shared(value) => value,
        }
    }

    /// The same value, which its copies share from now on. If out of memory, the value is dropped.
    pub(crate) fn shared(self, alloc: Global) -> Result<Self, AllocError>
        ensures { IfOk result (λ shared. shared ≡ self) }
    {
        let Shareable { kept } = self;
        let value = match kept {
            Kept::Own(value) => Arc::new(alloc, value)?,
            Kept::Shared(value) => value,
        };
        Ok(Shareable {
            kept: Kept::Shared(value),
        })
    }
}

impl<T: Copies + Drop> Shareable<T> {
    /// A handle of the value, or of a copy if the value has one owner. It is small, so that passing
    /// it on costs little.
    pub(crate) fn handle(&self, alloc: Global) -> Result<Arc<T>, AllocError>
        ensures { IfOk result (λ handle. arc_value handle ≡ self.now) }
    {
        match &self.kept {
            Kept::Own(value) => Ok(Arc::new(alloc, value.copied()?)?),
            Kept::Shared(value) => Arc::try_clone(value),
        }
    }
}

impl<T: Copies + Drop> Clone for Shareable<T> {
    ghost is_clone = { λ s copy. copy ≡ s };

    fn clone(&self) -> Result<Shareable<T>, AllocError> {
        let kept = match &self.kept {
            Kept::Own(value) => Kept::Own(value.copied()?),
            Kept::Shared(value) => Kept::Shared(Arc::try_clone(value)?),
        };
        Ok(Shareable { kept })
    }
}

impl<T: PartialEq + Drop> PartialEq for Shareable<T> {
    ghost eq = { T.eq };

    ghost laws = { T.laws };

    fn eq(&self, other: &Self) -> bool {
        self.get() == other.get()
    }
}

impl<T: Eq + Drop> Eq for Shareable<T> {
    ghost laws = { T.Eq.laws };
}

/// Prints the value.
impl<T: fmt::Debug + Drop> fmt::Debug for Shareable<T> {
    fn fmt<W: fmt::Write>(&self, f: &mut fmt::Formatter<W>) -> fmt::Result {
        fmt::Debug::fmt(self.get(), f)
    }
}
