//! How a worker finishes its jobs.

ghost use Rattle.std.specs.Prelude.{◌≡◌, [], ◌∷◌, map, IfOk, IsSome, Some, false};
ghost use Rattle.std.specs.Bool.{OnFalse};
ghost use Rattle.fleet_finish.specs.Puts.{AreShown};
ghost use Rattle.fleet_step.specs.Steps.{stops};
ghost use Rattle.fleet_worker.specs.Claims.{without_parts};
ghost use Rattle.fleet_worker.specs.Finishing.{FinishRan, WritesAll, is_left, left_finished};
ghost use Rattle.fleet_worker.specs.Workers.{IsReady, ranges_at, run_at};

use crate::attempt::run_at;
use crate::finish::ends_attempt;
use crate::output::is_refusal;
use crate::{RunAttempt, Worker};
use fleet_claim::CompactionWorkerOptions;
use fleet_exec::RangeGate;
use fleet_fold::MergeOperator;
use fleet_output::finish_left;
use fleet_rows::{SlateDBError, Ulid};
use fleet_step::stops;
use fleet_store::Store;
use fleet_tree::OutputList;
use std::thread::Threads;

// Whether a worker does not run its attempt any more after a finish with this result.
fn is_left<T>(ended: &Result<T, SlateDBError>) -> bool
    ensures { result ≡ is_left ended.now }
{
    ends_attempt(ended) || is_refusal(ended)
}

impl Worker {
    // Writes all that is left of the attempt's ranges. Where the operator refuses a fold, the
    // attempt is given back if it is live.
    fn write_all_or_return<R: Threads + Sync, S: Store, O: MergeOperator, G: RangeGate>(
        &self,
        rt: &R,
        store: &mut S,
        operator: &O,
        moment: u64,
        attempt: &RunAttempt,
        size: u64,
        gate: &G,
    ) -> Result<OutputList, SlateDBError>
        requires ready { IsReady (S.view store.old) self.now }
        requires folds { O.merged (O.settings operator.now) ≡ (S.view store.old).who.merge }
        requires runs { run_at self.now.attempts attempt.now.job ≡ Some attempt.now }
        ensures wrote { WritesAll moment self.now size (S.view store.old) (S.view store.new)
            attempt.now result }
        ensures described { IfOk result
            (λ outputs. AreShown outputs (S.view store.new).world.store) }
    {
        let ctx = attempt.ctx();
        let parts = ctx.subcompactions();
        let written = finish_left(
            rt,
            self.alloc,
            store,
            operator,
            moment,
            ctx.settings(),
            attempt.tables(),
            parts,
            size,
            gate,
        );
        if is_refusal(&written) {
            self.returns(store, attempt.job(), attempt.number())?;
        }
        written
    }

    // Writes all that is left of the job, and ends it.
    fn writes_and_ends<R: Threads + Sync, S: Store, O: MergeOperator, G: RangeGate>(
        &self,
        rt: &R,
        store: &mut S,
        operator: &O,
        moment: u64,
        job: Ulid,
        size: u64,
        gate: &G,
    ) -> Result<OutputList, SlateDBError>
        requires ready { IsReady (S.view store.old) self.now }
        requires folds { O.merged (O.settings operator.now) ≡ (S.view store.old).who.merge }
        requires runs { IsSome (ranges_at self.now.attempts job) }
        ensures ran { FinishRan moment self.now size (S.view store.old) (S.view store.new)
            (without_parts (job ∷ []) self.now.attempts) result job }
        ensures described { IfOk result
            (λ outputs. AreShown outputs (S.view store.new).world.store) }
    {
        let Some(attempt) = run_at(self.attempts.as_slice(), job) else {
            unreachable!();
        };
        let written = self.write_all_or_return(rt, store, operator, moment, attempt, size, gate)?;
        self.end_tries(store, moment, attempt, &written)?;
        Ok(written)
    }

    // Drops the attempt at the job if a finish with this result leaves it.
    fn leave_finished<T>(&mut self, job: Ulid, ended: &Result<T, SlateDBError>)
        ensures { self.new ≡ record self.old {
          attempts = left_finished ended.now job self.old.attempts;
        } }
    {
        if is_left(ended) {
            self.drop_attempt(job);
        }
    }

    /// Writes all that is left of its job and ends it. It gets all source tables, each once, and
    /// makes all that is left of each range, as `fleet_exec::finish_ranges` does. It puts this as
    /// tables, range after range, and at last the records with the job as Compacted. A table ends
    /// with the row with which it exceeds the `max_sst_size` of the options. The gate gets a report
    /// of each table when it is made. The answer describes the tables of each range, first those
    /// that were noted for it.
    ///
    /// Where the operator refuses a fold, the error is its own, of the first range in which one is
    /// refused. The job is given back before that: it waits for a worker again if the attempt was
    /// live. `NotOwner` means that the attempt was not live after the puts of the tables. In both
    /// cases the worker does not run the attempt any more. `Conflict` means that 64 puts of the
    /// records in a row were refused. After `StoreFault` the worker is stopped, and the job may be
    /// ended or not. Tables that were put stay in the store whatever comes.
    pub fn finish<R: Threads + Sync, S: Store, O: MergeOperator, G: RangeGate>(
        &mut self,
        rt: &R,
        store: &mut S,
        operator: &O,
        options: &CompactionWorkerOptions,
        gate: &G,
        moment: u64,
        job: Ulid,
    ) -> Result<OutputList, SlateDBError>
        requires running { self.old.stopped ≡ false }
        requires ready { IsReady (S.view store.old) self.old }
        requires folds { O.merged (O.settings operator.now) ≡ (S.view store.old).who.merge }
        requires runs { IsSome (ranges_at self.old.attempts job) }
        ensures ran { FinishRan moment self.old options.now.max_sst_size
            (S.view store.old) (S.view store.new) self.new.attempts result job }
        ensures described { IfOk result
            (λ outputs. AreShown outputs (S.view store.new).world.store) }
        ensures stopped { self.new.stopped ≡ stops result }
        ensures same { self.new ≡ record self.old {
          attempts = self.new.attempts;
          stopped = self.new.stopped;
        } }
        ensures left { self.new.attempts ≡ left_finished result job self.old.attempts }
        ensures ready { OnFalse self.new.stopped
            (IsReady (S.view store.new) self.new) }
    {
        let size = options.max_sst_size;
        let ended = self.writes_and_ends(rt, store, operator, moment, job, size, gate);
        self.stopped = stops(&ended);
        self.leave_finished(job, &ended);
        ended
    }
}
