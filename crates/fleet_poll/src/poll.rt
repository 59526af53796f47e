//! What a poll has reached so far.

ghost use Rattle.std.specs.Prelude.{◌≡◌, map, IfOk, IsOkUnless};
ghost use Rattle.fleet_model.specs.Work.PollStates.{poll_begun};
ghost use Rattle.fleet_tree.specs.Trees.{RunFlushes, trees_of};
ghost use Rattle.fleet_jobs.specs.Jobs.{jobs_of};
ghost use Rattle.fleet_book.specs.States.{own_jobs};
ghost use Rattle.fleet_poll.specs.Polls.{poll_of, report_of};

use crate::PollReport;
use fleet_book::{CompactionSpec, CompactorState, SpecList};
use fleet_history::StepList;
use fleet_rows::{JobList, ListOf, PlaceList, RuleList, SlateDBError, Ulid};
use std::alloc::Global;

// The rule that a dropped proposal fails: no job that is not over has its target.
const NEW_TARGET: u8 = 9;

/// What a poll has reached so far: the trees and the jobs, and what it did to reach them. If a step
/// of the poll is out of memory, the whole poll has to be given up.
#[derive(Debug, Drop)]
pub struct Poll {
    /// The manifest and the records, with the versions that were got.
    pub state: CompactorState,
    /// The steps on the trees, in order.
    pub steps: StepList,
    /// Stale jobs, which wait for a worker again.
    pub freed: JobList,
    /// Jobs that were committed.
    pub committed: JobList,
    /// Jobs that the gate for commits refused, each with the rule that it failed.
    pub lost: RuleList,
    /// Jobs that the scheduler proposed, under new ids.
    pub added: SpecList,
    /// The places of the proposals that were dropped, counted from 1.
    pub dropped: ListOf<u64>,
    /// Jobs that wait for a worker from now on.
    pub opened: JobList,
    /// Jobs whose tables were moved.
    pub moved: JobList,
    /// Jobs whose sources were dropped.
    pub drained: JobList,
    /// Jobs that the gate for submitted jobs refused, each with the rule that it failed.
    pub refused: RuleList,
}

impl Poll {
    /// A poll before its first step. It takes no memory.
    pub fn new(alloc: Global, state: CompactorState) -> Poll
        ensures state { result.state ≡ state }
        ensures poll { (flushes : RunFlushes) → poll_of flushes result
            ≡ poll_begun (trees_of flushes state.manifest.manifest.core)
            state.manifest.manifest.core.horizon (jobs_of (own_jobs state)) }
    {
        Poll {
            state,
            steps: StepList::new(alloc),
            freed: JobList::new(alloc),
            committed: JobList::new(alloc),
            lost: RuleList::new(alloc),
            added: SpecList::new(alloc),
            dropped: ListOf::new(alloc),
            opened: JobList::new(alloc),
            moved: JobList::new(alloc),
            drained: JobList::new(alloc),
            refused: RuleList::new(alloc),
        }
    }

    /// What the poll did.
    pub fn into_report(self, alloc: Global) -> Result<PollReport, SlateDBError>
        ensures report { IfOk result (λ report. report ≡ report_of self) }
        ensures memory { IsOkUnless result SlateDBError.Memory }
    {
        let added = new_ids(alloc, self.added.as_slice())?;
        let dropped = with_rule(alloc, self.dropped.as_slice())?;
        Ok(PollReport {
            freed: self.freed,
            committed: self.committed,
            lost: self.lost,
            added,
            dropped,
            opened: self.opened,
            moved: self.moved,
            drained: self.drained,
            refused: self.refused,
        })
    }
}

// The ids of new jobs.
fn new_ids(alloc: Global, new: &[(Ulid, CompactionSpec)]) -> Result<JobList, SlateDBError>
    ensures ids { IfOk result (λ ids. ids ≡ map (λ new. new.0) new.now) }
    ensures memory { IsOkUnless result SlateDBError.Memory }
{
    let mut ids = JobList::new(alloc);
    'new: for job in new {
        ids.push(job.0)?;
    }
    Ok(ids)
}

// The places of dropped proposals, each with the rule that it failed.
fn with_rule(alloc: Global, places: &[u64]) -> Result<PlaceList, SlateDBError>
    ensures dropped { IfOk result (λ dropped. dropped ≡ map (λ place. (place, 9)) places.now) }
    ensures memory { IsOkUnless result SlateDBError.Memory }
{
    let mut dropped = PlaceList::new(alloc);
    'places: for place in places {
        dropped.push((*place, NEW_TARGET))?;
    }
    Ok(dropped)
}
