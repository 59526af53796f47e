//! Submitted jobs that a poll asks the gate about.

ghost use Rattle.std.specs.Prelude.{◌≡◌, false, IfOk, IfSome, IsOkUnless, IsSome, List, OnOk, ℕ};
ghost use Rattle.std.specs.List.{AllByRecursion};
ghost use Rattle.std.specs.Option.{ForSome};
ghost use Rattle.fleet_model.specs.Work.Gates.{submit_gate};
ghost use Rattle.fleet_model.specs.Jobs.{Compacted, Jobs, has_status};
ghost use Rattle.fleet_model.specs.Work.Polls.{lost_to_scheduler, open_job};
ghost use Rattle.fleet_model.specs.Work.PollStates.{PollInput, accepts};
ghost use Rattle.fleet_tree.specs.Trees.{RunFlushes, trees_of};
ghost use Rattle.fleet_jobs.specs.Jobs.{job_of, jobs_of};
ghost use Rattle.fleet_jobs.specs.Laws.{EndsFit};
ghost use Rattle.fleet_jobs.specs.Specs.{spec_of};
ghost use Rattle.fleet_jobs.specs.Taken.{taken_tables};
ghost use Rattle.fleet_book.specs.Records.{record_with};
ghost use Rattle.fleet_book.specs.Shown.{Shows};
ghost use Rattle.fleet_book.specs.States.{own_jobs};
ghost use Rattle.fleet_gates.specs.Held.{Decides};
ghost use Rattle.fleet_gates.specs.Rules.{rule_number};
ghost use Rattle.fleet_gates.specs.Shown.{accepted_on};
ghost use Rattle.fleet_poll.specs.Made.{PrefixesRise, flushes_opened, own_core};
ghost use Rattle.fleet_poll.specs.Shown.{open_view, rule_of_gate};
ghost use Rattle.fleet_poll.specs.Polls.{poll_of};
ghost use Rattle.fleet_poll.specs.Loops.{IsDecision};

use crate::Poll;
use crate::freeing::know_rising;
use fleet_book::{CompactorState, CompactorStateView};
use fleet_gates::{Rule, submit_gate};
use fleet_jobs::NodeSet;
use fleet_rows::{SlateDBError, Ulid};
use fleet_sched::{CompactionScheduler, CompactorOptions};
use std::alloc::Global;

impl Poll {
    /// Step 4 of a poll, for one submitted job: asks `submit_gate` about it, and then opens, moves
    /// or drains it, or lets it fail. `submit_gate` says what the set has.
    pub fn open_submitted(
        &mut self,
        alloc: Global,
        scheduler: &(dyn CompactionScheduler + Send + Sync),
        options: &CompactorOptions,
        held: &NodeSet,
        job: Ulid,
    ) -> Result<(), SlateDBError>
        requires there { IsSome (record_with job (own_jobs self.old.state)) }
        requires not_compacted { ForSome (record_with job (own_jobs self.old.state))
            (λ made. has_status Compacted (job_of made) ≡ false) }
        requires held { ForSome (record_with job (own_jobs self.old.state))
            (λ made. Decides held.now (jobs_of (own_jobs self.old.state))
            (lost_to_scheduler self.old.lost) (job_of made)) }
        ensures poll { (flushes : RunFlushes) (input : PollInput)
            → PrefixesRise (own_core self.old.state)
            → input.options.moves ≡ options.now.enable_trivial_move
            → OnOk result (IfSome (record_with job (own_jobs self.old.state)) (λ made.
            accepts input (poll_of flushes self.old) (spec_of made.spec)
            ≡ accepted_on flushes (open_view self.old.state) (answers scheduler.now)
            (spec_of made.spec)
            → AllByRecursion (EndsFit input.tables)
            (taken_tables made.spec (own_core self.old.state))
            → poll_of (flushes_opened
            (rule_of_gate input (job_of made) (poll_of flushes self.old))
            options.now.enable_trivial_move made (own_core self.old.state) flushes) self.new
            ≡ open_job input (job_of made) (poll_of flushes self.old))) }
        ensures decision { OnOk result (IsDecision job self.old self.new) }
        ensures memory { IsOkUnless result SlateDBError.Memory }
    {
        let mut view = self.state.view(alloc)?;
        self.open_shown(alloc, scheduler, options, &mut view, held, job)
    }

    // Step 4 of a poll, for one submitted job. The view shows the state, before the job is decided
    // and after it.
    pub(crate) fn open_shown(
        &mut self,
        alloc: Global,
        scheduler: &(dyn CompactionScheduler + Send + Sync),
        options: &CompactorOptions,
        view: &mut CompactorStateView,
        held: &NodeSet,
        job: Ulid,
    ) -> Result<(), SlateDBError>
        requires there { IsSome (record_with job (own_jobs self.old.state)) }
        requires not_compacted { ForSome (record_with job (own_jobs self.old.state))
            (λ made. has_status Compacted (job_of made) ≡ false) }
        requires held { ForSome (record_with job (own_jobs self.old.state))
            (λ made. Decides held.now (jobs_of (own_jobs self.old.state))
            (lost_to_scheduler self.old.lost) (job_of made)) }
        requires shown { Shows view.old self.old.state }
        ensures poll { (flushes : RunFlushes) (input : PollInput)
            → PrefixesRise (own_core self.old.state)
            → input.options.moves ≡ options.now.enable_trivial_move
            → OnOk result (IfSome (record_with job (own_jobs self.old.state)) (λ made.
            accepts input (poll_of flushes self.old) (spec_of made.spec)
            ≡ accepted_on flushes (open_view self.old.state) (answers scheduler.now)
            (spec_of made.spec)
            → AllByRecursion (EndsFit input.tables)
            (taken_tables made.spec (own_core self.old.state))
            → poll_of (flushes_opened
            (rule_of_gate input (job_of made) (poll_of flushes self.old))
            options.now.enable_trivial_move made (own_core self.old.state) flushes) self.new
            ≡ open_job input (job_of made) (poll_of flushes self.old))) }
        ensures decision { OnOk result (IsDecision job self.old self.new) }
        ensures shown { OnOk result (Shows view.new self.new.state) }
        ensures memory { IsOkUnless result SlateDBError.Memory }
    {
        know_rising(self.state.compactions());
        let failed = failed_rule(alloc, scheduler, &self.state, view, held, job)?;
        view.forget_trees(alloc);
        self.open(alloc, options, job, failed)?;
        self.state.refresh(alloc, view, &job)?;
        Ok(())
    }
}

// The rule that the job fails at the gate, if it is there and fails one. The view shows this state.
fn failed_rule(
    alloc: Global,
    scheduler: &(dyn CompactionScheduler + Send + Sync),
    state: &CompactorState,
    view: &CompactorStateView,
    held: &NodeSet,
    id: Ulid,
) -> Result<Option<Rule>, SlateDBError>
    requires { Shows view.now state.now }
    ensures rule { (flushes : RunFlushes) (jobs : Jobs) (lost : List ℕ)
        → IfOk result (λ failed. IfSome (record_with id (own_jobs state.now)) (λ job.
        Decides held.now jobs lost (job_of job)
        → rule_number failed ≡ submit_gate (trees_of flushes (own_core state.now)) jobs lost
        (accepted_on flushes (open_view state.now) (answers scheduler.now)) (job_of job))) }
    ensures memory { IsOkUnless result SlateDBError.Memory }
{
    match state.compactions().compactions().get(&id) {
        Some(job) => submit_gate(alloc, scheduler, view, held, job),
        None => Ok(None),
    }
}
