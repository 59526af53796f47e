//! The entries of a history.

ghost use Rattle.std.specs.Prelude.{◌≡◌, IfOk, IsOkUnless};

use crate::{Answer, Event, Party};
use fleet_rows::SlateDBError;

/// A call of a store, with its answer.
#[derive(Clone, Debug, Drop, PartialEq, Eq)]
pub struct HistoryEntry {
    /// The line of a script, from 1, or 0 outside a script.
    pub line: u64,
    pub party: Party,
    pub event: Event,
    pub answer: Answer,
}

impl HistoryEntry {
    /// A copy.
    pub fn clone(&self) -> Result<HistoryEntry, SlateDBError>
        ensures copy { IfOk result (λ copy. copy ≡ self.now) }
        ensures memory { IsOkUnless result SlateDBError.Memory }
    {
        Ok(Clone::clone(self)?)
    }
}
