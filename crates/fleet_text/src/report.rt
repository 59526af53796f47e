//! What a coordinator and a worker report, as replies print it.

ghost use Rattle.std.specs.Prelude.{◌≡◌};
ghost use Rattle.script_model.specs.LineRuns.{flush_fault_text};
ghost use Rattle.fleet_text.specs.Faults.{fault_of};

use bytes::Bytes;
use fleet_rows::{JobList, ListOf, NamesList, PlaceList, RuleList, Ulid};

/// The rule that a flush breaks.
#[derive(Clone, Copy, Debug, PartialEq, Eq)]
pub enum FlushFault {
    /// Its name is not above all used ones.
    Name,
    /// A key does not begin with the prefix of the segment.
    Segment,
    /// The rows are not strictly ordered.
    Order,
    /// A sequence is not above all that were flushed into the segment.
    Sequence,
    /// The floor is below the stored one.
    Floor,
    /// The tick is below the stored one.
    Tick,
}

impl FlushFault {
    pub(crate) fn kind(self) -> &'static str
        ensures { result.now ≡ flush_fault_text (fault_of self) }
    {
        match self {
            FlushFault::Name => "name",
            FlushFault::Segment => "segment",
            FlushFault::Order => "order",
            FlushFault::Sequence => "sequence",
            FlushFault::Floor => "floor",
            FlushFault::Tick => "tick",
        }
    }
}

/// What a poll did with which jobs.
#[derive(Debug, Drop, PartialEq)]
pub struct PollReport {
    pub freed: JobList,
    pub done: JobList,
    /// The finished jobs that were not committed, each with the rule that it failed.
    pub lost: RuleList,
    pub added: JobList,
    /// The proposals that were not taken, each with the rule that it failed.
    pub dropped: PlaceList,
    pub opened: JobList,
    pub moved: JobList,
    pub drained: JobList,
    /// The submitted jobs that were refused, each with the rule that it failed.
    pub refused: RuleList,
}

/// An attempt that a claim began.
#[derive(Debug, Drop, PartialEq)]
pub struct Begun {
    pub job: Ulid,
    /// The number of the attempt at this job.
    pub number: u64,
    /// The ids of the tables that it takes over, range by range.
    pub tables: NamesList,
}

/// How a scan ended.
#[derive(Debug, Drop, PartialEq)]
pub enum ScanEnd {
    /// No key with an answer is left.
    NoneLeft,
    /// The operator refused a fold of this key, with this message.
    RefusedAt { key: Bytes, message: Bytes },
    /// The limit was reached before this key.
    StopsBefore { key: Bytes },
}

/// What a scan read: keys with their values, and how it ended.
#[derive(Debug, Drop, PartialEq)]
pub struct Page {
    pub pairs: ListOf<(Bytes, Bytes)>,
    pub ends: ScanEnd,
}
