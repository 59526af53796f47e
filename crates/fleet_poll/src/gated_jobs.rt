//! Jobs after a gate was asked about them.

ghost use Rattle.std.specs.Prelude.{◌≡◌, false, IfSome, IsOkUnless, IsSome, None, OnOk, true};
ghost use Rattle.std.specs.List.{AllByRecursion};
ghost use Rattle.std.specs.Option.{ForSome};
ghost use Rattle.fleet_model.specs.Jobs.{Compacted, has_status};
ghost use Rattle.fleet_model.specs.Work.Polls.{commit_by, open_by};
ghost use Rattle.fleet_model.specs.Work.PollStates.{PollInput};
ghost use Rattle.fleet_tree.specs.Trees.{RunFlushes};
ghost use Rattle.fleet_jobs.specs.Jobs.{job_of};
ghost use Rattle.fleet_jobs.specs.Laws.{EndsFit};
ghost use Rattle.fleet_jobs.specs.Places.{sources_stand};
ghost use Rattle.fleet_jobs.specs.Specs.{destination_of};
ghost use Rattle.fleet_jobs.specs.Taken.{taken_tables};
ghost use Rattle.fleet_book.specs.Records.{record_with};
ghost use Rattle.fleet_book.specs.States.{own_jobs};
ghost use Rattle.fleet_gates.specs.Rules.{rule_number};
ghost use Rattle.fleet_poll.specs.Made.{EndsRise, PrefixesRise, flushes_committed, flushes_opened, is_drain_if_there, own_core, written_tables};
ghost use Rattle.fleet_poll.specs.Polls.{poll_of};
ghost use Rattle.fleet_poll.specs.Loops.{IsDecision, LostAreOver, OthersStay, StillSees};

use crate::Poll;
use crate::freeing::know_rising;
use fleet_book::CompactorState;
use fleet_gates::Rule;
use fleet_rows::{SlateDBError, Ulid};
use fleet_sched::CompactorOptions;
use std::alloc::Global;

impl Poll {
    /// Commits a Compacted job, given what `commit_gate` says of it: the job fails if it failed a
    /// rule, and is joined otherwise.
    pub fn commit(
        &mut self,
        alloc: Global,
        job: Ulid,
        failed: Option<Rule>,
    ) -> Result<(), SlateDBError>
        requires there { IsSome (record_with job (own_jobs self.old.state)) }
        requires compacted { ForSome (record_with job (own_jobs self.old.state))
            (λ joined. has_status Compacted (job_of joined) ≡ true) }
        requires run { failed ≡ None → ForSome (record_with job (own_jobs self.old.state))
            (λ joined. IsSome (destination_of joined.spec)) }
        requires keys { failed ≡ None → ForSome (record_with job (own_jobs self.old.state))
            (λ joined. EndsRise (written_tables joined)) }
        requires stand { failed ≡ None → ForSome (record_with job (own_jobs self.old.state))
            (λ joined. sources_stand joined.spec (own_core self.old.state) ≡ true) }
        ensures poll { (flushes : RunFlushes) (input : PollInput)
            → PrefixesRise (own_core self.old.state)
            → input.manifest.floor ≡ (own_core self.old.state).recent_snapshot_min_seq
            → OnOk result (IfSome (record_with job (own_jobs self.old.state)) (λ joined.
            poll_of (flushes_committed (rule_number failed) joined (own_core self.old.state) flushes)
            self.new
            ≡ commit_by input (job_of joined) (rule_number failed) (poll_of flushes self.old))) }
        ensures others { OnOk result (OthersStay job self.old.state self.new.state) }
        ensures sees { OnOk result (StillSees self.old.state self.new.state) }
        ensures lost { OnOk result (LostAreOver self.old → LostAreOver self.new) }
        ensures memory { IsOkUnless result SlateDBError.Memory }
    {
        match failed {
            Some(rule) => self.lose(job, rule),
            None => self.join(alloc, job),
        }
    }

    /// Opens, moves or drains a submitted job, given what `submit_gate` says of it: the job fails
    /// if it failed a rule.
    pub fn open(
        &mut self,
        alloc: Global,
        options: &CompactorOptions,
        job: Ulid,
        failed: Option<Rule>,
    ) -> Result<(), SlateDBError>
        requires there { IsSome (record_with job (own_jobs self.old.state)) }
        requires not_compacted { ForSome (record_with job (own_jobs self.old.state))
            (λ made. has_status Compacted (job_of made) ≡ false) }
        requires stand { failed ≡ None → ForSome (record_with job (own_jobs self.old.state))
            (λ made. sources_stand made.spec (own_core self.old.state) ≡ true) }
        ensures poll { (flushes : RunFlushes) (input : PollInput)
            → PrefixesRise (own_core self.old.state)
            → input.options.moves ≡ options.now.enable_trivial_move
            → OnOk result (IfSome (record_with job (own_jobs self.old.state)) (λ made.
            AllByRecursion (EndsFit input.tables)
            (taken_tables made.spec (own_core self.old.state))
            → poll_of (flushes_opened (rule_number failed) options.now.enable_trivial_move made
            (own_core self.old.state) flushes) self.new
            ≡ open_by input (job_of made) (rule_number failed) (poll_of flushes self.old))) }
        ensures decision { OnOk result (IsDecision job self.old self.new) }
        ensures memory { IsOkUnless result SlateDBError.Memory }
    {
        match failed {
            Some(rule) => self.refuse(job, rule),
            None => self.open_passed(alloc, options, job),
        }
    }

    // Opens, moves or drains a submitted job that passed the gate.
    fn open_passed(
        &mut self,
        alloc: Global,
        options: &CompactorOptions,
        job: Ulid,
    ) -> Result<(), SlateDBError>
        requires there { IsSome (record_with job (own_jobs self.old.state)) }
        requires not_compacted { ForSome (record_with job (own_jobs self.old.state))
            (λ made. has_status Compacted (job_of made) ≡ false) }
        requires stand { ForSome (record_with job (own_jobs self.old.state))
            (λ made. sources_stand made.spec (own_core self.old.state) ≡ true) }
        ensures poll { (flushes : RunFlushes) (input : PollInput)
            → PrefixesRise (own_core self.old.state)
            → input.options.moves ≡ options.now.enable_trivial_move
            → OnOk result (IfSome (record_with job (own_jobs self.old.state)) (λ made.
            AllByRecursion (EndsFit input.tables)
            (taken_tables made.spec (own_core self.old.state))
            → poll_of (flushes_opened None options.now.enable_trivial_move made
            (own_core self.old.state) flushes) self.new
            ≡ open_by input (job_of made) None (poll_of flushes self.old))) }
        ensures decision { OnOk result (IsDecision job self.old self.new) }
        ensures memory { IsOkUnless result SlateDBError.Memory }
    {
        know_rising(self.state.compactions());
        if is_drain(&self.state, job) {
            return self.drain(alloc, job);
        }
        if !options.enable_trivial_move {
            return self.schedule(alloc, job);
        }
        if self.move_job(alloc, job)? {
            return Ok(());
        }
        self.schedule(alloc, job)
    }
}

// Whether the job is a drain, if it is there.
fn is_drain(state: &CompactorState, id: Ulid) -> bool
    ensures { result ≡ is_drain_if_there (record_with id (own_jobs state.now)) }
{
    match state.compactions().compactions().get(&id) {
        Some(job) => job.spec().is_drain(),
        None => false,
    }
}
