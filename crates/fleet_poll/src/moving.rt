//! Jobs whose sources' tables are moved.

ghost use Rattle.std.specs.Prelude.{◌≡◌, false, is_some, IfOk, IfSome, IsOkUnless, OnOk, Some, true};
ghost use Rattle.std.specs.List.{AllByRecursion};
ghost use Rattle.std.specs.Option.{ForSome};
ghost use Rattle.fleet_model.specs.Jobs.{Compacted, has_status, is_drain};
ghost use Rattle.fleet_model.specs.Work.Polls.{can_move, move_job};
ghost use Rattle.fleet_model.specs.Work.PollStates.{PollInput};
ghost use Rattle.fleet_tree.specs.Trees.{RunFlushes, trees_of};
ghost use Rattle.fleet_jobs.specs.Jobs.{job_of};
ghost use Rattle.fleet_jobs.specs.Laws.{EndsFit, KeysFit};
ghost use Rattle.fleet_jobs.specs.Places.{sources_stand};
ghost use Rattle.fleet_jobs.specs.Specs.{spec_of};
ghost use Rattle.fleet_jobs.specs.Taken.{taken_tables};
ghost use Rattle.fleet_book.specs.Finishes.{finished_state};
ghost use Rattle.fleet_book.specs.Records.{record_with};
ghost use Rattle.fleet_book.specs.States.{own_jobs};
ghost use Rattle.fleet_poll.specs.Made.{PrefixesRise, flushes_after, own_core, run_if_moved};
ghost use Rattle.fleet_poll.specs.Polls.{poll_of};

use crate::Poll;
use crate::freeing::know_rising;
use fleet_book::CompactorState;
use fleet_history::Step;
use fleet_rows::{SlateDBError, Ulid};
use fleet_tree::SortedRun;
use std::alloc::Global;

impl Poll {
    /// Moves a job if `Compaction::trivial_move_output` gives a run: this run takes the place of
    /// its sources, which completes the job at once. Returns whether the job was moved. The
    /// sources of a job that passes `submit_gate` stand.
    pub fn move_job(&mut self, alloc: Global, job: Ulid) -> Result<bool, SlateDBError>
        requires not_compacted { ForSome (record_with job (own_jobs self.old.state))
            (λ moved. has_status Compacted (job_of moved) ≡ false) }
        requires stand { ForSome (record_with job (own_jobs self.old.state))
            (λ moved. sources_stand moved.spec (own_core self.old.state) ≡ true) }
        ensures moved { IfOk result (λ is_moved. is_moved ≡ is_some (run_if_moved
            (record_with job (own_jobs self.old.state)) (own_core self.old.state))) }
        ensures poll { (flushes : RunFlushes) (input : PollInput)
            → PrefixesRise (own_core self.old.state)
            → IfOk result (λ is_moved. is_moved ≡ true
            → IfSome (record_with job (own_jobs self.old.state)) (λ moved.
            KeysFit input.tables (taken_tables moved.spec (own_core self.old.state))
            → poll_of (flushes_after moved.spec (own_core self.old.state) flushes) self.new
            ≡ move_job input (job_of moved) (poll_of flushes self.old))) }
        ensures state { IfOk result (λ is_moved. is_moved ≡ true
            → IfSome (record_with job (own_jobs self.old.state)) (λ moved.
            self.new.state ≡ finished_state moved
            (run_if_moved (Some moved) (own_core self.old.state)) self.old.state)) }
        ensures lost { OnOk result (self.new.lost ≡ self.old.lost) }
        // If moves are allowed, the job is moved exactly if the model can move it.
        ensures can_move { (flushes : RunFlushes) (input : PollInput) → input.options.moves ≡ true
            → IfOk result (λ is_moved.
            IfSome (record_with job (own_jobs self.old.state)) (λ moved.
            is_drain (spec_of moved.spec) ≡ false
            → AllByRecursion (EndsFit input.tables)
            (taken_tables moved.spec (own_core self.old.state))
            → is_moved ≡ can_move input
            (trees_of flushes (own_core self.old.state)) (spec_of moved.spec))) }
        ensures left { IfOk result (λ is_moved. is_moved ≡ false → self.new ≡ self.old) }
        ensures memory { IsOkUnless result SlateDBError.Memory }
    {
        know_rising(self.state.compactions());
        let Some(run) = run_if_moved(alloc, &self.state, job)? else {
            return Ok(false);
        };
        self.state.finish_compaction(alloc, job, run)?;
        self.steps.push(Step::Move(job))?;
        self.moved.push(job)?;
        Ok(true)
    }
}

// The run that a move of the job makes, if the job is there and can be moved.
fn run_if_moved(
    alloc: Global,
    state: &CompactorState,
    id: Ulid,
) -> Result<Option<SortedRun>, SlateDBError>
    ensures run { IfOk result (λ run. run ≡ run_if_moved
        (record_with id (own_jobs state.now)) (own_core state.now)) }
    ensures memory { IsOkUnless result SlateDBError.Memory }
{
    match state.compactions().compactions().get(&id) {
        Some(job) => job.trivial_move_output(alloc, state.manifest().core()),
        None => Ok(None),
    }
}
