//! Iterators over rows.

ghost use Rattle.std.specs.Prelude.{◌≡◌, ℕ, List, ⊤, OnOk};
ghost use Rattle.fleet_iter.specs.Iteration.{IteratorState, Inits, Nexts, Seeks, AreRising};

use fleet_rows::{RowEntry, SlateDBError};
use std::alloc::Global;

/// The order in which an iterator gives keys. Within a key, sequences fall in both orders.
#[derive(Clone, Copy, Debug, PartialEq, Eq)]
pub enum IterationOrder {
    Ascending,
    Descending,
}

/// An iterator over rows. A call that answers an error other than `IteratorNotInitialized` fails
/// the iterator. A failed iterator stays failed, and a new one has to be made.
pub trait RowEntryIterator: Send + Sync + Drop {
    /// The state of the iterator. It says which rows are left, whether the iterator is initialised,
    /// and with which error it failed, if it did. It says whether only running out of memory can
    /// fail the iterator, and whether a seek leaves later rows as they are. It also gives the error
    /// that comes after the rows, if that is known: `next` then gives all rows before it answers
    /// this error, unless memory runs out.
    ghost state: { Self → IteratorState };

    /// What holds inside the iterator when it is made and after each call.
    ghost sound: { Self → Type 0 };

    /// What a successful seek to a key leaves. An iterator may say more here than `seek` asks of
    /// all iterators.
    ghost sought: { Self → List ℕ → IteratorState → Type 0 } = { λ _ _ _. ⊤ };

    /// The bytes that the iterator has counted. It is 0 for an iterator that counts none. See
    /// `TrackedRowEntryIterator`.
    ghost processed: { Self → ℕ } = { λ _. 0 };

    /// Makes the iterator ready for `next` and `seek`. A second call does nothing.
    fn init(&mut self, alloc: Global) -> Result<(), SlateDBError>
        requires { sound self.old }
        ensures init { Inits (state self.old) (state self.new) result }
        ensures sound { sound self.new };

    /// Takes the first row left, or gives None if no row is left.
    fn next(&mut self, alloc: Global) -> Result<Option<RowEntry>, SlateDBError>
        requires { sound self.old }
        ensures next { Nexts (state self.old) (state self.new) result }
        ensures sound { sound self.new };

    /// Drops the rows below a key, and counts none of them. An iterator that may refuse a row may
    /// pass it here, and then only `sought` may say which rows are left. The rows left have to
    /// rise. An adapter whose own rows do not show whether its inner rows rise asks for rising
    /// inner rows when it is made: its seek needs them. Folded rows show it unless a fold refuses,
    /// so an iterator that folds asks only if one does.
    fn seek(&mut self, alloc: Global, next_key: &[u8]) -> Result<(), SlateDBError>
        requires sound { sound self.old }
        requires rising { AreRising (state self.old).rows }
        ensures seek { Seeks next_key.now (state self.old) (state self.new) result }
        ensures sought { OnOk result (sought self.old next_key.now (state self.new)) }
        ensures uncounted { processed self.new ≡ processed self.old }
        ensures sound { sound self.new };
}

/// An iterator as merges and adapters use it inside: it need not be `Send` or `Sync`. Every
/// `RowEntryIterator` is a `RowSource`. docs/DECISIONS.md says why the methods are declared again.
pub trait RowSource {
    ghost state: { Self → IteratorState };

    ghost sound: { Self → Type 0 };

    ghost sought: { Self → List ℕ → IteratorState → Type 0 };

    /// Does what `RowEntryIterator::init` does.
    fn init_source(&mut self, alloc: Global) -> Result<(), SlateDBError>
        requires { sound self.old }
        ensures init { Inits (state self.old) (state self.new) result }
        ensures sound { sound self.new };

    /// Does what `RowEntryIterator::next` does.
    fn next_row(&mut self, alloc: Global) -> Result<Option<RowEntry>, SlateDBError>
        requires { sound self.old }
        ensures next { Nexts (state self.old) (state self.new) result }
        ensures sound { sound self.new };

    /// Does what `RowEntryIterator::seek` does.
    fn seek_row(&mut self, alloc: Global, next_key: &[u8]) -> Result<(), SlateDBError>
        requires sound { sound self.old }
        requires rising { AreRising (state self.old).rows }
        ensures seek { Seeks next_key.now (state self.old) (state self.new) result }
        ensures sought { OnOk result (sought self.old next_key.now (state self.new)) }
        ensures sound { sound self.new };
}

impl<T: RowEntryIterator> RowSource for T {
    ghost state = { T.state };

    ghost sound = { T.sound };

    ghost sought = { T.sought };

    fn init_source(&mut self, alloc: Global) -> Result<(), SlateDBError> {
        self.init(alloc)
    }

    #[inline]
    fn next_row(&mut self, alloc: Global) -> Result<Option<RowEntry>, SlateDBError> {
        self.next(alloc)
    }

    fn seek_row(&mut self, alloc: Global, next_key: &[u8]) -> Result<(), SlateDBError> {
        self.seek(alloc, next_key)
    }
}
