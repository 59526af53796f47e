//! How a worker ends jobs.

ghost use Rattle.std.specs.Prelude.{◌≡◌, [], ◌∷◌, map, false, IfOk, IsOkUnless};
ghost use Rattle.std.specs.Bool.{OnFalse};
ghost use Rattle.step_model.specs.Courses.CourseRuns.{IsLawfulCourse};
ghost use Rattle.step_model.specs.Steps.MessageSteps.{take_finished};
ghost use Rattle.step_model.specs.Steps.FinishSteps.{end_try};
ghost use Rattle.fleet_jobs.specs.Contexts.{table_ids};
ghost use Rattle.fleet_finish.specs.Puts.{AreShown};
ghost use Rattle.fleet_step.specs.Steps.{StepRan, TryRan, stops};
ghost use Rattle.fleet_worker.specs.Claims.{without_parts};
ghost use Rattle.fleet_worker.specs.Finishes.{IsFinishOf, IsResult, MayFinish, done_ends, end_of_job, ended_by, ends_attempt, finish_ends, left_after};
ghost use Rattle.fleet_worker.specs.Workers.{IsReady, attempt_of, live_of};

use crate::attempt::is_live;
use crate::{RunAttempt, Worker};
use fleet_book::VersionedCompactions;
use fleet_finish::{EndedAttempt, FinishPut, finish_put, kept_cut};
use fleet_rows::{SlateDBError, Ulid};
use fleet_step::{MOST_REFUSED, put_answer, refused_at, stops};
use fleet_store::Store;
use fleet_tree::OutputList;

// Whether the worker runs its attempt no more after the step that ends it had this result: the job
// ended, or the worker does not own it.
pub(crate) fn ends_attempt<T>(ended: &Result<T, SlateDBError>) -> bool
    ensures { result ≡ ends_attempt ended.now }
{
    matches!(ended, Ok(_) | Err(SlateDBError::NotOwner))
}

impl Worker {
    // The attempt, as it ends at this moment.
    fn ending(&self, moment: u64, attempt: &RunAttempt) -> EndedAttempt
        ensures { result ≡ ended_by moment self.now attempt.now }
    {
        EndedAttempt {
            worker: self.id(),
            moment,
            job: attempt.job(),
            number: attempt.number(),
            cut: kept_cut(self.release(), attempt.ctx()),
        }
    }

    // The put that ends the job of the attempt, or None if the attempt is not live.
    fn finish_of(
        &self,
        moment: u64,
        attempt: &RunAttempt,
        outputs: &OutputList,
        got: &Option<VersionedCompactions>,
    ) -> Result<Option<FinishPut>, SlateDBError>
        ensures put { IfOk result (IsFinishOf moment self.now attempt.now outputs.now got.now) }
        ensures memory { IsOkUnless result SlateDBError.Memory }
    {
        let Some(got) = got else {
            return Ok(None);
        };
        if !is_live(got.compactions(), self.id(), attempt) {
            return Ok(None);
        }
        let ending = self.ending(moment, attempt);
        let put = finish_put(self.alloc, got, &ending, outputs)?;
        Ok(Some(put))
    }

    // One try to end the job of the attempt.
    fn try_finish<S: Store>(
        &self,
        store: &mut S,
        moment: u64,
        attempt: &RunAttempt,
        outputs: &OutputList,
    ) -> Result<(), SlateDBError>
        requires lawful { MayFinish (S.view store.old) moment self.now attempt.now outputs.now }
        requires shown { AreShown outputs.now (S.view store.old).world.store }
        ensures { (again : _) → TryRan (done_ends self.now attempt.now outputs.now)
            (end_try moment (live_of self.now) (attempt_of attempt.now)
            (map table_ids outputs.now) again) again
            (S.view store.old) (S.view store.new) result }
    {
        let got = store.get_records()?;
        let Some(put) = self.finish_of(moment, attempt, outputs, &got)? else {
            return Err(SlateDBError::NotOwner);
        };
        let made = store.put_records(put.version, put.value, put.why);
        put_answer(made, ())
    }

    // The tries to end the job of the attempt.
    pub(crate) fn end_tries<S: Store>(
        &self,
        store: &mut S,
        moment: u64,
        attempt: &RunAttempt,
        outputs: &OutputList,
    ) -> Result<(), SlateDBError>
        requires lawful { IsLawfulCourse (S.view store.old).who (S.view store.old).world
            (end_of_job moment self.now attempt.now outputs.now) }
        requires shown { AreShown outputs.now (S.view store.old).world.store }
        ensures { StepRan (done_ends self.now attempt.now outputs.now)
            (end_of_job moment self.now attempt.now outputs.now)
            (S.view store.old) (S.view store.new) result }
    {
        let mut seen = 0;
        'tries: for tries in 0..MOST_REFUSED {
            let tried = self.try_finish(store, moment, attempt, outputs);
            let Some(version) = refused_at(&tried) else {
                return tried;
            };
            seen = version;
        }
        Err(SlateDBError::Conflict { seen })
    }

    // The tries to end the job of the attempt with this number.
    fn finishes<S: Store>(
        &self,
        store: &mut S,
        moment: u64,
        job: Ulid,
        number: u64,
        outputs: &OutputList,
    ) -> Result<(), SlateDBError>
        requires ready { IsReady (S.view store.old) self.now }
        requires fits { IsResult (S.view store.old) self.now job number outputs.now }
        ensures { StepRan
            (finish_ends outputs.now (without_parts (job ∷ []) self.now.attempts))
            (take_finished moment (live_of self.now) job number (map table_ids outputs.now))
            (S.view store.old) (S.view store.new) result }
    {
        let Some(attempt) = self.attempt_with(job, number) else {
            return Err(SlateDBError::NotOwner);
        };
        self.end_tries(store, moment, attempt, outputs)
    }

    // Drops the attempt at the job if it has this number and the step with this result ended it.
    fn leave(&mut self, job: Ulid, number: u64, ended: &Result<(), SlateDBError>)
        ensures { self.new ≡ record self.old {
          attempts = left_after ended.now job number self.old.attempts;
        } }
    {
        if ends_attempt(ended) && self.attempt_with(job, number).is_some() {
            self.drop_attempt(job);
        }
    }

    /// Takes the message that the attempt at the job with this number finished at this moment in
    /// milliseconds, with these tables for each of its ranges: ends the job if the attempt is live,
    /// and drops the attempt.
    ///
    /// `NotOwner` means that the worker does not run this attempt, and then nothing is called, or
    /// that the attempt is not live; it is dropped then too. `Conflict` means that 64 puts were
    /// refused in a row. After `StoreFault` the worker is stopped, and the job may be ended or not.
    /// The tables stay in the store whatever comes.
    pub(crate) fn take_finished<S: Store>(
        &mut self,
        store: &mut S,
        moment: u64,
        job: Ulid,
        number: u64,
        outputs: &OutputList,
    ) -> Result<(), SlateDBError>
        requires running { self.old.stopped ≡ false }
        requires ready { IsReady (S.view store.old) self.old }
        requires fits { IsResult (S.view store.old) self.old job number outputs.now }
        ensures ran { StepRan (finish_ends outputs.now self.new.attempts)
            (take_finished moment (live_of self.old) job number (map table_ids outputs.now))
            (S.view store.old) (S.view store.new) result }
        ensures stopped { self.new.stopped ≡ stops result }
        ensures same { self.new ≡ record self.old {
          attempts = self.new.attempts;
          stopped = self.new.stopped;
        } }
        ensures left { self.new.attempts ≡ left_after result job number self.old.attempts }
        ensures ready { OnFalse self.new.stopped
            (IsReady (S.view store.new) self.new) }
    {
        let ended = self.finishes(store, moment, job, number, outputs);
        self.stopped = stops(&ended);
        self.leave(job, number, &ended);
        ended
    }
}
