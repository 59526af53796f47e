//! The events of a history.

ghost use Rattle.std.specs.Prelude.{◌≡◌, IfOk, IsOkUnless};
ghost use Rattle.fleet_model.specs.History.{is_get_or_put};
ghost use Rattle.fleet_history.specs.Entries.{event_of};

use crate::{ManifestChange, Party, RecordChange};
use fleet_range::RangeList;
use fleet_rows::{SlateDBError, Ulid};

/// A call of a store.
#[derive(Clone, Debug, Drop, PartialEq, Eq)]
pub enum Event {
    GetManifest,
    GetRecords,
    GetTable(Ulid),
    /// The table's id and the number of its rows.
    PutTable(Ulid, u64),
    PutManifest(ManifestChange),
    PutRecords(RecordChange),
    /// The id that was drawn for a job.
    DrawJob(Ulid),
    /// The id that was drawn for a table.
    DrawTable(Ulid),
    /// A note of the ranges that an attempt begins with. The attempt is given by job and number.
    Plan(Ulid, u64, RangeList),
    /// A note that a party comes.
    Start(Party),
    /// A note that a party goes.
    Kill(Party),
    /// The number of the tables that are held.
    ListTables(u64),
    DeleteTable(Ulid),
}

impl Event {
    /// Whether a fault may strike the event, because it is a get or a put. A list counts as a get,
    /// and a deletion as a put.
    pub fn is_get_or_put(&self) -> bool
        ensures { result ≡ is_get_or_put (event_of self.now) }
    {
        !matches!(
            self,
            Event::DrawJob(_)
                | Event::DrawTable(_)
                | Event::Plan(..)
                | Event::Start(_)
                | Event::Kill(_)
        )
    }

    /// A copy.
    pub fn clone(&self) -> Result<Event, SlateDBError>
        ensures copy { IfOk result (λ copy. copy ≡ self.now) }
        ensures memory { IsOkUnless result SlateDBError.Memory }
    {
        Ok(Clone::clone(self)?)
    }
}
