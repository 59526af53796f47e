//! Laws on the size-tiered scheduler and on the levelled one. Each function has an empty body, and
//! its clause states a law about the jobs that a scheduler proposes. The laws rest on what the
//! fleet's invariant says of trees and jobs, and not on the scheduler's checks alone.
#![tactic(auto)]

ghost use Rattle.row_model.specs.Fold.{Operator};
ghost use Rattle.sched_laws.specs.Greatest.{GreatestIdIsProposed, GreatestIdIsRefused};
ghost use Rattle.sched_laws.specs.Levels.{
  LevelsAreFew,
  LevelsGoOn,
  LevelsMakeRuns,
  LevelsPassTheGate,
  LevelsRest,
  LevelsShareNothing,
};
ghost use Rattle.sched_laws.specs.Polls.{PollsAcceptLevelJobs, PollsAcceptTieredJobs};
ghost use Rattle.sched_laws.specs.Proposals.{
  ProposalsAreApart,
  ProposalsAreFew,
  ProposalsHaveSourcesWithin,
  ProposalsMakeRuns,
  ProposalsPassTheGate,
};
ghost use Rattle.sched_laws.specs.Stores.{StoresAcceptProposals, ViewsOfStoresStand};

/// There are at most as many proposals as jobs may be added to those under way.
pub fn proposals_are_few()
    ensures { ProposalsAreFew }
{}

/// Each proposal has sources and makes a run of them, so none is a drain.
pub fn proposals_make_runs()
    ensures { ProposalsMakeRuns }
{}

/// Each proposal has at least the least number of sources of the options, and at most the greatest.
pub fn proposals_have_sources_within()
    ensures { ProposalsHaveSourcesWithin }
{}

/// No two proposals hold the same node, unless the destination of one of them is 4,294,967,295.
pub fn proposals_are_apart()
    ensures { ProposalsAreApart }
{}

/// A job for a proposal passes the gate of submitted jobs, unless its destination is 4,294,967,295.
/// It passes beside the jobs of the view, and beside jobs that were opened for the other proposals,
/// as long as the trees stay.
pub fn proposals_pass_the_gate()
    ensures { ProposalsPassTheGate }
{}

/// The view of a store that meets the invariant is as the laws on views ask, if the sources of each
/// Compacted job still stand in its tree.
pub fn views_of_stores_stand()
    ensures { (merge : Operator) → ViewsOfStoresStand merge }
{}

/// A job for a proposal on the view of such a store passes the gate of submitted jobs, unless its
/// destination is 4,294,967,295.
pub fn stores_accept_proposals()
    ensures { (merge : Operator) → StoresAcceptProposals merge }
{}

/// The gate refuses each job whose destination is 4,294,967,295. The scheduler may propose such a
/// job, so the laws except it.
pub fn greatest_id_is_refused()
    ensures refused { GreatestIdIsRefused }
    ensures proposed { GreatestIdIsProposed }
{}

/// The levelled scheduler proposes at most as many jobs as there are free places.
pub fn levels_are_few()
    ensures { LevelsAreFew }
{}

/// Each proposal of the levelled scheduler has sources and makes a run of them.
pub fn levels_make_runs()
    ensures { LevelsMakeRuns }
{}

/// No two proposals of a call of the levelled scheduler have a source in common. Their destinations
/// differ, unless they are 4,294,967,295.
pub fn levels_share_nothing()
    ensures { LevelsShareNothing }
{}

/// A job for a proposal of the levelled scheduler passes the gate of submitted jobs, unless its
/// destination is 4,294,967,295. It passes beside the jobs of the view, and beside jobs that were
/// opened for the other proposals, as long as the trees stay.
pub fn levels_pass_the_gate()
    ensures { LevelsPassTheGate }
{}

/// The levelled scheduler proposes nothing if every tree is within its sizes. If there is a free
/// place and no job of the view has a node of a tree, it proposes nothing only then.
pub fn levels_rest()
    ensures within { LevelsRest }
    ensures exactly { LevelsGoOn }
{}

/// A poll of a coordinator with the size-tiered scheduler loses no job to the scheduler. It refuses
/// none of the jobs that it adds, unless its destination is 4,294,967,295: each passes the gate as
/// it is asked, whatever jobs the poll committed, opened, moved or drained before.
pub fn polls_accept_tiered_jobs()
    ensures { (merge : Operator) → PollsAcceptTieredJobs merge }
{}

/// So does a poll with the levelled scheduler.
pub fn polls_accept_level_jobs()
    ensures { (merge : Operator) → PollsAcceptLevelJobs merge }
{}
