//! Rows for which there is no merge operator.

ghost use Rattle.std.specs.Prelude.{◌≡◌, None, OnOk};
ghost use Rattle.fleet_iter.specs.Iteration.{Inits, Nexts, Seeks, HandsOn, AreRising};
ghost use Rattle.fleet_fold.specs.Required.{without_operands, state_of, IsSound, Sought, MissesOperator};

use crate::keeping::is_operand;
use fleet_iter::{Failure, RowEntryIterator, TrackedRowEntryIterator};
use fleet_rows::{RowEntry, SlateDBError};
use std::alloc::Global;

/// An iterator over the rows of an inner iterator, up to the first operand. It refuses that one
/// with `MergeOperatorMissing`. A seek passes operands below its key.
#[derive(Drop)]
pub struct MergeOperatorRequiredIterator<T: RowEntryIterator> {
    delegate: T,
    failure: Failure,
}

impl<T: RowEntryIterator> MergeOperatorRequiredIterator<T> {
    /// Makes an iterator over the rows that `delegate` has left.
    #[tactic(auto, using(crate::proofs::Plain::rising_before))]
    pub fn new(delegate: T) -> Self
        requires sound { T.sound delegate }
        requires alive { (T.state delegate).failure ≡ None }
        requires rising { AreRising (T.state delegate).rows }
        ensures rows { state_of T.state result ≡ without_operands None (T.state delegate) }
        ensures sound { IsSound T.sound T.state result }
        ensures rising { AreRising (state_of T.state result).rows }
    {
        MergeOperatorRequiredIterator {
            delegate,
            failure: Failure::new(),
        }
    }
}

impl<T: RowEntryIterator> RowEntryIterator for MergeOperatorRequiredIterator<T> {
    ghost state = { state_of T.state };

    ghost sound = { IsSound T.sound T.state };

    ghost sought = { Sought T.state T.sought };

    ghost processed = { λ r. T.processed r.delegate };

    fn init(&mut self, alloc: Global) -> Result<(), SlateDBError>
        requires { IsSound T.sound T.state self.old }
        ensures init { Inits (state_of T.state self.old) (state_of T.state self.new) result }
        ensures handed { HandsOn (state_of T.state self.old) (T.state self.new.delegate) result }
        ensures sound { IsSound T.sound T.state self.new }
    {
        self.failure.check()?;
        match self.delegate.init(alloc) {
            Ok(()) => Ok(()),
            Err(error) => Err(self.failure.fail(error)),
        }
    }

    fn next(&mut self, alloc: Global) -> Result<Option<RowEntry>, SlateDBError>
        requires { IsSound T.sound T.state self.old }
        ensures next { Nexts (state_of T.state self.old) (state_of T.state self.new) result }
        ensures missing { MissesOperator (T.state self.old.delegate).rows
            (state_of T.state self.old) (T.state self.new.delegate) result }
        ensures sound { IsSound T.sound T.state self.new }
    {
        self.failure.check()?;
        match self.delegate.next(alloc) {
            Ok(Some(row)) => {
                if is_operand(&row) {
                    self.failure.set(SlateDBError::MergeOperatorMissing);
                    return Err(SlateDBError::MergeOperatorMissing);
                }
                Ok(Some(row))
            }
            Ok(None) => Ok(None),
            Err(error) => Err(self.failure.fail(error)),
        }
    }

    fn seek(&mut self, alloc: Global, next_key: &[u8]) -> Result<(), SlateDBError>
        requires sound { IsSound T.sound T.state self.old }
        requires rising { AreRising (state_of T.state self.old).rows }
        ensures seek { Seeks next_key.now
            (state_of T.state self.old) (state_of T.state self.new) result }
        ensures sought { OnOk result
            (Sought T.state T.sought self.old next_key.now (state_of T.state self.new)) }
        ensures uncounted { T.processed self.new.delegate ≡ T.processed self.old.delegate }
        ensures handed { HandsOn (state_of T.state self.old) (T.state self.new.delegate) result }
        ensures sound { IsSound T.sound T.state self.new }
    {
        self.failure.check()?;
        match self.delegate.seek(alloc, next_key) {
            Ok(()) => Ok(()),
            Err(error) => Err(self.failure.fail(error)),
        }
    }
}

impl<T: TrackedRowEntryIterator> TrackedRowEntryIterator for MergeOperatorRequiredIterator<T> {
    fn bytes_processed(&self) -> u64 {
        self.delegate.bytes_processed()
    }
}
