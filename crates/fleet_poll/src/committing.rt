//! Step 2 of a poll: Compacted jobs are committed.

ghost use Rattle.std.specs.Prelude.{◌≡◌, ◌++◌, [], ◌∷◌, filter, map, true, IfOk, IfSome, IsOkUnless, IsSome, OnOk};
ghost use Rattle.std.specs.Option.{ForSome};
ghost use Rattle.fleet_model.specs.Jobs.{Compacted, has_status};
ghost use Rattle.fleet_model.specs.Work.Polls.{commit_finished, commit_job};
ghost use Rattle.fleet_model.specs.Work.PollStates.{PollInput};
ghost use Rattle.fleet_tree.specs.Trees.{RunFlushes};
ghost use Rattle.fleet_jobs.specs.Jobs.{job_ids, job_of};
ghost use Rattle.fleet_book.specs.Records.{record_with};
ghost use Rattle.fleet_book.specs.Shown.{Shows};
ghost use Rattle.fleet_book.specs.States.{own_jobs};
ghost use Rattle.fleet_gates.specs.Rules.{rule_number};
ghost use Rattle.fleet_poll.specs.Made.{flushes_committed, own_core};
ghost use Rattle.fleet_poll.specs.Polls.{poll_of};
ghost use Rattle.fleet_poll.specs.Shown.{PassesCommit, commit_rule};
ghost use Rattle.fleet_poll.specs.Seen.{Sees};
ghost use Rattle.fleet_poll.specs.Loops.{HasReached, LostAreOver, MayCommit, MayJoin, OthersStay, StillSees, is_compacted};

use crate::Poll;
use crate::freeing::know_rising;
use fleet_book::{
    Compaction, CompactionStatus, CompactorState, CompactorStateView, VersionedCompactions,
};
use fleet_gates::{Rule, commit_gate};
use fleet_rows::{JobList, SlateDBError, Ulid};
use fleet_sched::CompactionScheduler;
use std::alloc::Global;

impl Poll {
    /// Step 2 of a poll: commits the Compacted jobs that pass `commit_gate`, by rising id. The
    /// others fail.
    pub fn commit_finished(
        &mut self,
        alloc: Global,
        scheduler: &(dyn CompactionScheduler + Send + Sync),
    ) -> Result<(), SlateDBError>
        requires { MayCommit (answers scheduler.now)
            (filter is_compacted (own_jobs self.old.state)) self.old }
        ensures poll { (flushes : RunFlushes) (input : PollInput)
            → Sees input (answers scheduler.now) self.old.state
            → OnOk result
            (HasReached self.new (commit_finished input (poll_of flushes self.old))) }
        ensures sees { (input : PollInput) → Sees input (answers scheduler.now) self.old.state
            → OnOk result (Sees input (answers scheduler.now) self.new.state) }
        ensures lost { OnOk result (LostAreOver self.old → LostAreOver self.new) }
        ensures memory { IsOkUnless result SlateDBError.Memory }
    {
        know_rising(self.state.compactions());
        let finished = compacted_jobs(alloc, self.state.compactions())?;
        if finished.is_empty() {
            return Ok(());
        }
        let mut view = self.state.view(alloc)?;
        'jobs: for job in finished.as_slice() {
            self.commit_shown(alloc, scheduler, &mut view, *job)?;
        }
        Ok(())
    }

    /// Step 2 of a poll, for one Compacted job: asks `commit_gate` about it, and then commits it or
    /// lets it fail.
    pub fn commit_job(
        &mut self,
        alloc: Global,
        scheduler: &(dyn CompactionScheduler + Send + Sync),
        job: Ulid,
    ) -> Result<(), SlateDBError>
        requires there { IsSome (record_with job (own_jobs self.old.state)) }
        requires compacted { ForSome (record_with job (own_jobs self.old.state))
            (λ joined. has_status Compacted (job_of joined) ≡ true) }
        requires may_join { ForSome (record_with job (own_jobs self.old.state)) (λ joined.
            PassesCommit (answers scheduler.now) self.old.state joined
            → MayJoin joined (own_core self.old.state)) }
        ensures poll { (flushes : RunFlushes) (input : PollInput)
            → Sees input (answers scheduler.now) self.old.state
            → OnOk result (IfSome (record_with job (own_jobs self.old.state)) (λ joined.
            poll_of (flushes_committed
            (commit_rule flushes (answers scheduler.now) self.old.state joined) joined
            (own_core self.old.state) flushes) self.new
            ≡ commit_job input (job_of joined) (poll_of flushes self.old))) }
        ensures others { OnOk result (OthersStay job self.old.state self.new.state) }
        ensures sees { OnOk result (StillSees self.old.state self.new.state) }
        ensures lost { OnOk result (LostAreOver self.old → LostAreOver self.new) }
        ensures memory { IsOkUnless result SlateDBError.Memory }
    {
        let mut view = self.state.view(alloc)?;
        self.commit_shown(alloc, scheduler, &mut view, job)
    }

    // Step 2 of a poll, for one Compacted job. The view shows the state, before the job is decided
    // and after it.
    fn commit_shown(
        &mut self,
        alloc: Global,
        scheduler: &(dyn CompactionScheduler + Send + Sync),
        view: &mut CompactorStateView,
        job: Ulid,
    ) -> Result<(), SlateDBError>
        requires there { IsSome (record_with job (own_jobs self.old.state)) }
        requires compacted { ForSome (record_with job (own_jobs self.old.state))
            (λ joined. has_status Compacted (job_of joined) ≡ true) }
        requires may_join { ForSome (record_with job (own_jobs self.old.state)) (λ joined.
            PassesCommit (answers scheduler.now) self.old.state joined
            → MayJoin joined (own_core self.old.state)) }
        requires shown { Shows view.old self.old.state }
        ensures poll { (flushes : RunFlushes) (input : PollInput)
            → Sees input (answers scheduler.now) self.old.state
            → OnOk result (IfSome (record_with job (own_jobs self.old.state)) (λ joined.
            poll_of (flushes_committed
            (commit_rule flushes (answers scheduler.now) self.old.state joined) joined
            (own_core self.old.state) flushes) self.new
            ≡ commit_job input (job_of joined) (poll_of flushes self.old))) }
        ensures others { OnOk result (OthersStay job self.old.state self.new.state) }
        ensures sees { OnOk result (StillSees self.old.state self.new.state) }
        ensures lost { OnOk result (LostAreOver self.old → LostAreOver self.new) }
        ensures shown { OnOk result (Shows view.new self.new.state) }
        ensures memory { IsOkUnless result SlateDBError.Memory }
    {
        know_rising(self.state.compactions());
        let failed = failed_rule(alloc, scheduler, &self.state, view, job)?;
        view.forget_trees(alloc);
        self.commit(alloc, job, failed)?;
        self.state.refresh(alloc, view, &job)?;
        Ok(())
    }
}

// The rule that the Compacted job fails at the gate, if it is there and fails one. The view shows
// this state.
fn failed_rule(
    alloc: Global,
    scheduler: &(dyn CompactionScheduler + Send + Sync),
    state: &CompactorState,
    view: &CompactorStateView,
    id: Ulid,
) -> Result<Option<Rule>, SlateDBError>
    requires { Shows view.now state.now }
    ensures rule { (flushes : RunFlushes)
        → IfOk result (λ failed. IfSome (record_with id (own_jobs state.now)) (λ job.
        rule_number failed ≡ commit_rule flushes (answers scheduler.now) state.now job)) }
    ensures memory { IsOkUnless result SlateDBError.Memory }
{
    match state.compactions().compactions().get(&id) {
        Some(job) => commit_gate(alloc, scheduler, view, job),
        None => Ok(None),
    }
}

// The ids of the Compacted jobs.
fn compacted_jobs(alloc: Global, records: &VersionedCompactions) -> Result<JobList, SlateDBError>
    ensures ids { IfOk result (λ ids. ids
        ≡ job_ids (filter is_compacted records.now.compactions.jobs)) }
    ensures memory { IsOkUnless result SlateDBError.Memory }
{
    let mut ids = JobList::new(alloc);
    'jobs: for job in records.recent_compactions() {
        add_compacted(&mut ids, job)?;
    }
    Ok(ids)
}

// Adds the id of the job, if it is Compacted.
fn add_compacted(ids: &mut JobList, job: &Compaction) -> Result<(), SlateDBError>
    ensures ok { OnOk result
        (ids.new ≡ ids.old ++ job_ids (filter is_compacted (job.now ∷ []))) }
    ensures memory { IsOkUnless result SlateDBError.Memory }
{
    if job.status() == CompactionStatus::Compacted {
        ids.push(job.id())?;
    }
    Ok(())
}
