//! Step 4 of a poll: submitted jobs are opened, moved or drained.

ghost use Rattle.std.specs.Prelude.{◌≡◌, ◌++◌, [], ◌∷◌, false, filter, flat_map, option_map, true, IfOk, IfSome, IsOkUnless, IsSome, OnOk, Some};
ghost use Rattle.std.specs.List.{AllByRecursion};
ghost use Rattle.std.specs.Option.{ForSome};
ghost use Rattle.fleet_model.specs.Jobs.{contains};
ghost use Rattle.fleet_model.specs.Work.Polls.{lost_to_scheduler, open_job, open_submitted};
ghost use Rattle.fleet_model.specs.Work.PollStates.{PollInput};
ghost use Rattle.fleet_tree.specs.Trees.{RunFlushes};
ghost use Rattle.fleet_jobs.specs.Jobs.{job_ids, job_of, jobs_of};
ghost use Rattle.fleet_book.specs.Records.{record_with};
ghost use Rattle.fleet_book.specs.Shown.{Shows};
ghost use Rattle.fleet_book.specs.States.{own_jobs};
ghost use Rattle.fleet_gates.specs.Held.{AreHeld};
ghost use Rattle.fleet_poll.specs.Polls.{poll_of};
ghost use Rattle.fleet_poll.specs.Seen.{Sees};
ghost use Rattle.fleet_poll.specs.Loops.{HasReached, IsDecision, LostAreOver, is_over_if_there, is_submitted, nodes_held, nodes_lost};

use crate::Poll;
use crate::freeing::know_rising;
use fleet_book::{
    Compaction, CompactionStatus, CompactorState, CompactorStateView, VersionedCompactions,
};
use fleet_jobs::{NodeSet, reserves_nodes};
use fleet_rows::{JobList, SlateDBError, Ulid};
use fleet_sched::{CompactionScheduler, CompactorOptions};
use std::alloc::{AllocError, Global};

impl Poll {
    /// Step 4 of a poll: opens, moves or drains the submitted jobs that pass `submit_gate`, by
    /// rising id. The others fail. A job that is opened holds its nodes from then on.
    pub fn open_all_submitted(
        &mut self,
        alloc: Global,
        scheduler: &(dyn CompactionScheduler + Send + Sync),
        options: &CompactorOptions,
    ) -> Result<(), SlateDBError>
        requires lost { LostAreOver self.old }
        ensures poll { (flushes : RunFlushes) (input : PollInput)
            → Sees input (answers scheduler.now) self.old.state
            → input.options.moves ≡ options.now.enable_trivial_move
            → OnOk result
            (HasReached self.new (open_submitted input (poll_of flushes self.old))) }
        ensures sees { (input : PollInput) → Sees input (answers scheduler.now) self.old.state
            → input.options.moves ≡ options.now.enable_trivial_move
            → OnOk result (Sees input (answers scheduler.now) self.new.state) }
        ensures memory { IsOkUnless result SlateDBError.Memory }
    {
        know_rising(self.state.compactions());
        let submitted = submitted_jobs(alloc, self.state.compactions())?;
        if submitted.is_empty() {
            return Ok(());
        }
        let mut held = held_nodes(alloc, &self.state, self.lost.as_slice())?;
        let mut view = self.state.view(alloc)?;
        'jobs: for job in submitted.as_slice() {
            self.open_next(alloc, scheduler, options, &mut view, &mut held, *job)?;
        }
        Ok(())
    }

    // Step 4 of a poll, for one submitted job. The set has the nodes that jobs hold, and the view
    // shows the state, before the job is decided and after it.
    fn open_next(
        &mut self,
        alloc: Global,
        scheduler: &(dyn CompactionScheduler + Send + Sync),
        options: &CompactorOptions,
        view: &mut CompactorStateView,
        held: &mut NodeSet,
        job: Ulid,
    ) -> Result<(), SlateDBError>
        requires there { IsSome (record_with job (own_jobs self.old.state)) }
        requires submitted { ForSome (record_with job (own_jobs self.old.state))
            (λ made. is_submitted made ≡ true) }
        requires lost { contains (lost_to_scheduler self.old.lost) job ≡ false }
        requires held { AreHeld held.old (jobs_of (own_jobs self.old.state))
            (lost_to_scheduler self.old.lost) }
        requires shown { Shows view.old self.old.state }
        ensures poll { (flushes : RunFlushes) (input : PollInput)
            → Sees input (answers scheduler.now) self.old.state
            → input.options.moves ≡ options.now.enable_trivial_move
            → OnOk result (IfSome (record_with job (own_jobs self.old.state)) (λ made.
            HasReached self.new (open_job input (job_of made) (poll_of flushes self.old)))) }
        ensures decision { OnOk result (IsDecision job self.old self.new) }
        ensures held { OnOk result (AreHeld held.new (jobs_of (own_jobs self.new.state))
            (lost_to_scheduler self.new.lost)) }
        ensures shown { OnOk result (Shows view.new self.new.state) }
        ensures memory { IsOkUnless result SlateDBError.Memory }
    {
        know_rising(self.state.compactions());
        self.open_shown(alloc, scheduler, options, view, held, job)?;
        add_nodes(held, &self.state, job)?;
        Ok(())
    }
}

// Adds the nodes of the job, if it is there and holds them.
fn add_nodes(held: &mut NodeSet, state: &CompactorState, id: Ulid) -> Result<(), AllocError>
    ensures { OnOk result (held.new ≡ held.old
        ++ nodes_held (option_map job_of (record_with id (own_jobs state.now)))) }
{
    match state.compactions().compactions().get(&id) {
        Some(job) => add_held(held, job),
        None => Ok(()),
    }
}

// Adds the nodes of the job, if it holds them.
fn add_held(held: &mut NodeSet, job: &Compaction) -> Result<(), AllocError>
    ensures { OnOk result (held.new ≡ held.old ++ nodes_held (Some (job_of job.now))) }
{
    if reserves_nodes(job) {
        held.add_nodes_of(job.spec())?;
    }
    Ok(())
}

// The nodes that jobs hold. A job whose commit failed by rule 0 holds its nodes too.
fn held_nodes(
    alloc: Global,
    state: &CompactorState,
    lost: &[(Ulid, u8)],
) -> Result<NodeSet, AllocError>
    requires { AllByRecursion
        (λ lost. is_over_if_there (record_with lost.0 (own_jobs state.now)) ≡ true) lost.now }
    ensures { IfOk result (λ held. AreHeld held (jobs_of (own_jobs state.now))
        (lost_to_scheduler lost.now)) }
{
    know_rising(state.compactions());
    let mut held = reserved_nodes(alloc, state.compactions())?;
    'lost: for job in lost {
        add_lost(&mut held, state, *job)?;
    }
    Ok(held)
}

// The nodes of the jobs that hold nodes by their status.
fn reserved_nodes(alloc: Global, records: &VersionedCompactions) -> Result<NodeSet, AllocError>
    ensures { IfOk result (λ held. held
        ≡ flat_map (λ job. nodes_held (Some (job_of job))) records.now.compactions.jobs) }
{
    let mut held = NodeSet::new(alloc);
    'jobs: for job in records.recent_compactions() {
        add_held(&mut held, job)?;
    }
    Ok(held)
}

// Adds the nodes of a job whose commit failed, if it failed by rule 0.
fn add_lost(held: &mut NodeSet, state: &CompactorState, lost: (Ulid, u8)) -> Result<(), AllocError>
    ensures { OnOk result (held.new ≡ held.old
        ++ nodes_lost lost.1 (option_map job_of (record_with lost.0 (own_jobs state.now)))) }
{
    if lost.1 != 0 {
        return Ok(());
    }
    match state.compactions().compactions().get(&lost.0) {
        Some(job) => held.add_nodes_of(job.spec()),
        None => Ok(()),
    }
}

// The ids of the submitted jobs.
fn submitted_jobs(alloc: Global, records: &VersionedCompactions) -> Result<JobList, SlateDBError>
    ensures ids { IfOk result (λ ids. ids
        ≡ job_ids (filter is_submitted records.now.compactions.jobs)) }
    ensures memory { IsOkUnless result SlateDBError.Memory }
{
    let mut ids = JobList::new(alloc);
    'jobs: for job in records.recent_compactions() {
        add_submitted(&mut ids, job)?;
    }
    Ok(ids)
}

// Adds the id of the job, if it is Submitted.
fn add_submitted(ids: &mut JobList, job: &Compaction) -> Result<(), SlateDBError>
    ensures ok { OnOk result
        (ids.new ≡ ids.old ++ job_ids (filter is_submitted (job.now ∷ []))) }
    ensures memory { IsOkUnless result SlateDBError.Memory }
{
    if job.status() == CompactionStatus::Submitted {
        ids.push(job.id())?;
    }
    Ok(())
}
