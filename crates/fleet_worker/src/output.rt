//! How a worker writes tables of its jobs.

ghost use Rattle.std.specs.Prelude.{◌≡◌, ◌≤◌, length, Some, IfOk, IfSome, IsOkUnless, OnErr, false};
ghost use Rattle.std.specs.Bool.{OnFalse};
ghost use Rattle.fleet_store.specs.Handles.{IsDescribed};
ghost use Rattle.fleet_step.specs.Steps.{stops};
ghost use Rattle.fleet_worker.specs.Outputs.{
  IsAnswered,
  OutputRan,
  OutputsRan,
  RunsRange,
  Writes,
  after_noting,
  is_refusal,
  left_by,
};
ghost use Rattle.fleet_worker.specs.Workers.{IsReady, run_at};

use crate::attempt::run_at;
use crate::{RunAttempt, Worker};
use fleet_fold::MergeOperator;
use fleet_output::write_next;
use fleet_rows::{ListOf, SlateDBError, Ulid};
use fleet_step::stops;
use fleet_store::Store;
use fleet_tree::SsTableHandle;

// Whether the operator refused a fold.
pub(crate) fn is_refusal<T>(ended: &Result<T, SlateDBError>) -> bool
    ensures { result ≡ is_refusal ended.now }
{
    matches!(ended, Err(SlateDBError::MergeOperator(_)))
}

impl Worker {
    // Writes the next rows of the range at this place of the attempt. Where the operator refuses a
    // fold, the attempt is given back if it is live.
    fn write_or_return<S: Store, O: MergeOperator>(
        &self,
        store: &mut S,
        operator: &O,
        moment: u64,
        attempt: &RunAttempt,
        range: u32,
        rows: u64,
    ) -> Result<Option<SsTableHandle>, SlateDBError>
        requires some { 1 ≤ rows }
        requires ready { IsReady (S.view store.old) self.now }
        requires folds { O.merged (O.settings operator.now) ≡ (S.view store.old).who.merge }
        requires runs { run_at self.now.attempts attempt.now.job ≡ Some attempt.now }
        requires counted { 1 ≤ range }
        requires there { range ≤ length attempt.now.ctx.ranges }
        ensures wrote { Writes moment self.now range rows
            (S.view store.old) (S.view store.new) attempt.now result }
        ensures described { IfOk result (λ table. IfSome table
            (λ handle. IsDescribed (S.view store.new).world.store.tables handle)) }
    {
        let ctx = attempt.ctx();
        let parts = ctx.subcompactions();
        let place = range as usize - 1;
        let part = &parts[place];
        let written = write_next(
            self.alloc,
            store,
            operator,
            moment,
            ctx.settings(),
            attempt.tables(),
            part,
            rows,
        );
        if is_refusal(&written) {
            self.returns(store, attempt.job(), attempt.number())?;
        }
        written
    }

    // The attempts after the table is noted for the range at this place of the attempt.
    fn noting(
        &self,
        attempt: &RunAttempt,
        range: u32,
        table: SsTableHandle,
    ) -> Result<ListOf<RunAttempt>, SlateDBError>
        requires runs { run_at self.now.attempts attempt.now.job ≡ Some attempt.now }
        requires counted { 1 ≤ range }
        requires there { range ≤ length attempt.now.ctx.ranges }
        ensures next { IfOk result
            (λ next. next ≡ after_noting range table attempt.now self.now.attempts) }
        ensures memory { IsOkUnless result SlateDBError.Memory }
    {
        let mut ctx = attempt.ctx().clone()?;
        ctx.push_output_sst(range as usize - 1, table)?;
        self.went_on(attempt.job(), attempt.number(), ctx)
    }

    // Writes the next rows of the range. With the table comes what the worker runs after it is
    // noted.
    fn outputs<S: Store, O: MergeOperator>(
        &self,
        store: &mut S,
        operator: &O,
        moment: u64,
        job: Ulid,
        range: u32,
        rows: u64,
    ) -> Result<Option<(SsTableHandle, ListOf<RunAttempt>)>, SlateDBError>
        requires some { 1 ≤ rows }
        requires ready { IsReady (S.view store.old) self.now }
        requires folds { O.merged (O.settings operator.now) ≡ (S.view store.old).who.merge }
        requires runs { RunsRange self.now job range }
        ensures ran { OutputsRan moment self.now range rows
            (S.view store.old) (S.view store.new) result job }
        ensures answered { IsAnswered self.now job range (S.view store.new) result }
    {
        let Some(attempt) = run_at(self.attempts.as_slice(), job) else {
            unreachable!();
        };
        let written = self.write_or_return(store, operator, moment, attempt, range, rows)?;
        let Some(table) = written else {
            return Ok(None);
        };
        let attempts = self.noting(attempt, range, table.clone()?)?;
        Ok(Some((table, attempts)))
    }

    // Drops the attempt at the job if the operator refused a fold in the step with this result.
    fn leave_refused<T>(&mut self, job: Ulid, ended: &Result<T, SlateDBError>)
        ensures { self.new ≡ record self.old {
          attempts = left_by ended.now job self.old.attempts;
        } }
    {
        if is_refusal(ended) {
            self.drop_attempt(job);
        }
    }

    /// Writes the next rows of a range of its job as a table, at most `rows` of them, and notes the
    /// table for the range. The answer describes the table. None says that nothing is left of the
    /// range. Ranges are counted from 1. Nothing is published before a heartbeat.
    ///
    /// Where the operator refuses a fold, the error is its own, and the job is given back before
    /// that: it waits for a worker again if the attempt was live, and the worker does not run it
    /// any more. `Conflict` means that 64 puts in a row were refused as it was given back. After
    /// `StoreFault` the worker is stopped. After `StoreFault` and after `Memory` the table may be
    /// put, but it is not noted.
    pub fn output<S: Store, O: MergeOperator>(
        &mut self,
        store: &mut S,
        operator: &O,
        moment: u64,
        job: Ulid,
        range: u32,
        rows: u64,
    ) -> Result<Option<SsTableHandle>, SlateDBError>
        requires running { self.old.stopped ≡ false }
        requires ready { IsReady (S.view store.old) self.old }
        requires folds { O.merged (O.settings operator.now) ≡ (S.view store.old).who.merge }
        requires runs { RunsRange self.old job range }
        requires some { 1 ≤ rows }
        ensures ran { OutputRan moment self.old range rows
            (S.view store.old) (S.view store.new) self.new.attempts result job }
        ensures described { IfOk result (λ table. IfSome table
            (λ handle. IsDescribed (S.view store.new).world.store.tables handle)) }
        ensures stopped { self.new.stopped ≡ stops result }
        ensures same { self.new ≡ record self.old {
          attempts = self.new.attempts;
          stopped = self.new.stopped;
        } }
        ensures err { OnErr result (self.new.attempts ≡ left_by result job self.old.attempts) }
        ensures ready { OnFalse self.new.stopped
            (IsReady (S.view store.new) self.new) }
    {
        let written = self.outputs(store, operator, moment, job, range, rows);
        self.stopped = stops(&written);
        self.leave_refused(job, &written);
        match written {
            Ok(None) => Ok(None),
            Ok(Some((table, attempts))) => {
                self.attempts = attempts;
                Ok(Some(table))
            }
            Err(error) => Err(error),
        }
    }
}
