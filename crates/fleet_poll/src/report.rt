//! What a poll did.

ghost use Rattle.std.specs.Prelude.{◌≡◌, []};

use fleet_rows::{JobList, PlaceList, RuleList};
use std::alloc::Global;

/// What a poll did. A rule is given by its number.
#[derive(Debug, Drop, PartialEq, Eq)]
pub struct PollReport {
    /// Stale jobs, which wait for a worker again.
    pub freed: JobList,
    /// Jobs that were committed.
    pub committed: JobList,
    /// Jobs that the gate for commits refused, each with the rule that it failed.
    pub lost: RuleList,
    /// Jobs that the scheduler proposed, under new ids.
    pub added: JobList,
    /// The places of the proposals that were dropped, counted from 1, each with rule 9.
    pub dropped: PlaceList,
    /// Jobs that wait for a worker from now on.
    pub opened: JobList,
    /// Jobs whose tables were moved.
    pub moved: JobList,
    /// Jobs whose sources were dropped.
    pub drained: JobList,
    /// Jobs that the gate for submitted jobs refused, each with the rule that it failed.
    pub refused: RuleList,
}

impl PollReport {
    /// The report of a poll that did nothing. It takes no memory.
    pub fn new(alloc: Global) -> PollReport
        ensures { result ≡ record {
          freed = [];
          committed = [];
          lost = [];
          added = [];
          dropped = [];
          opened = [];
          moved = [];
          drained = [];
          refused = [];
        } }
    {
        PollReport {
            freed: JobList::new(alloc),
            committed: JobList::new(alloc),
            lost: RuleList::new(alloc),
            added: JobList::new(alloc),
            dropped: PlaceList::new(alloc),
            opened: JobList::new(alloc),
            moved: JobList::new(alloc),
            drained: JobList::new(alloc),
            refused: RuleList::new(alloc),
        }
    }
}
