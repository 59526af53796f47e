//! The error with which an iterator failed.

ghost use Rattle.std.specs.Prelude.{◌≡◌, ◌≢◌, Some, None, OnOk, IfErr};
ghost use Rattle.fleet_iter.specs.Iteration.{KeepsRefusal};
ghost use Rattle.fleet_rows.specs.declared.errors.SlateDBError.TheVariants as SlateDBError;

use fleet_rows::SlateDBError;
use std::marker::Model;

/// The error with which a call failed an iterator, if one did. An iterator keeps this error in its
/// state, so that its contracts can state it.
#[derive(Debug, Drop)]
pub struct Failure {
    cause: Option<SlateDBError>,
}

impl Model for Failure {
    ghost use Rattle.std.specs.Prelude.{Option};
    ghost use Rattle.fleet_rows.specs.declared.errors.SlateDBError.{SlateDBError};

    ghost Value = { Option SlateDBError };

    ghost view = { λ f. f.cause };
}

impl Failure {
    /// The failure of an iterator that has not failed.
    pub fn new() -> Failure
        ensures { result ≡ None }
    {
        Failure { cause: None }
    }

    /// Answers `IteratorFailed` if the iterator has failed.
    pub fn check(&self) -> Result<(), SlateDBError>
        ensures alive { OnOk result (self.now ≡ None) }
        ensures failed { IfErr result (λ e. e ≡ SlateDBError.IteratorFailed) }
        ensures kept { IfErr result (λ _. self.now ≢ None) }
    {
        if self.cause.is_some() {
            return Err(SlateDBError::IteratorFailed);
        }
        Ok(())
    }

    /// Fails the iterator with this error. The caller answers with the same error, which it makes
    /// anew: this needs no copy, and so no memory, if the error holds no text.
    pub fn set(&mut self, error: SlateDBError)
        ensures { self.new ≡ Some error }
    {
        self.cause = Some(error);
    }

    /// Fails the iterator with this error, and gives the error back for the caller to answer.
    /// Keeping it takes memory. If memory runs out, both the failure and the answer are `Memory`.
    /// `IteratorNotInitialized` fails no iterator.
    pub fn fail(&mut self, error: SlateDBError) -> SlateDBError
        ensures { KeepsRefusal error self.old self.new result }
    {
        if matches!(error, SlateDBError::IteratorNotInitialized) {
            return error;
        }
        match error.clone() {
            Ok(copy) => {
                self.cause = Some(copy);
                error
            }
            Err(_) => {
                self.cause = Some(SlateDBError::Memory);
                SlateDBError::Memory
            }
        }
    }
}
