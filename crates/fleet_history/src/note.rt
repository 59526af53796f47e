//! Notes in a history.

ghost use Rattle.std.specs.Prelude.{◌≡◌, IfOk, IsOkUnless};
ghost use Rattle.fleet_history.specs.Notes.{event_of_note};

use crate::{Event, Party};
use fleet_range::RangeList;
use fleet_rows::{SlateDBError, Ulid};

/// What a party notes in the history.
#[derive(Clone, Debug, Drop, PartialEq, Eq)]
pub enum Note {
    /// The ranges that an attempt begins with. The attempt is given by job and number.
    Plan(Ulid, u64, RangeList),
    /// A party comes.
    Start(Party),
    /// A party goes.
    Kill(Party),
}

impl Note {
    /// A copy.
    pub fn clone(&self) -> Result<Note, SlateDBError>
        ensures copy { IfOk result (λ copy. copy ≡ self.now) }
        ensures memory { IsOkUnless result SlateDBError.Memory }
    {
        Ok(Clone::clone(self)?)
    }

    /// The event of the note. It copies nothing.
    pub fn into_event(self) -> Event
        ensures { result ≡ event_of_note self }
    {
        match self {
            Note::Plan(job, attempt, ranges) => Event::Plan(job, attempt, ranges),
            Note::Start(party) => Event::Start(party),
            Note::Kill(party) => Event::Kill(party),
        }
    }
}
