//! The line by which a worker writes the next rows of a range.

ghost use Rattle.std.specs.Prelude.{◌≡◌, ◌≤◌, List, length, IfOk, IsOkUnless};
ghost use Rattle.row_model.specs.Rows.{Row};
ghost use Rattle.fleet_model.specs.Work.Scheduler.{Scheduler};
ghost use Rattle.fleet_rows.specs.declared.errors.SlateDBError.TheVariants as SlateDBError;
ghost use Rattle.script_model.specs.Replies as replies;
ghost use Rattle.script_model.specs.Script as script;
ghost use Rattle.fleet_worker.specs.Outputs.{output_ends};
ghost use Rattle.fleet_worker.specs.Workers.{AttemptParts};
ghost use Rattle.fleet_lines.specs.Fleets.{Stands};
ghost use Rattle.fleet_lines.specs.Lines.{Serves};
ghost use Rattle.fleet_lines.specs.Steps.{Says};
ghost use Rattle.fleet_lines.specs.Work.{IsCounted};

use crate::Fleet;
use crate::lookups::attempt_named;
use crate::parties::{keep_worker, take_worker};
use crate::refusals::refused;
use crate::steps::written;
use fleet_fold::MergeOperator;
use fleet_rows::SlateDBError;
use fleet_text::{Reply, answers};
use fleet_tree::SsTableHandle;
use std::alloc::Global;

// The reply to an output of these rows, whatever attempts the worker runs after it.
fn output_reply(
    alloc: Global,
    written: Result<Option<SsTableHandle>, SlateDBError>,
) -> Result<Reply, SlateDBError>
    ensures says { IfOk result (λ answer. (rows : List Row) (attempts : List AttemptParts)
        → IsCounted (length rows) written
        → Says (output_ends rows attempts) (λ r. replies.output_reply r.table) written answer) }
    ensures memory { IsOkUnless result SlateDBError.Memory }
{
    match written {
        Ok(Some(table)) => answers::output(alloc, table.id, table.rows),
        Ok(None) => answers::no_output(alloc),
        Err(error) => refused(alloc, error),
    }
}

impl Fleet {
    /// A worker writes the next rows of the range at this place of its attempt at the job of this
    /// number. Places are counted from 1.
    pub(crate) fn output<O: MergeOperator>(
        &mut self,
        operator: &O,
        number: u64,
        worker: u64,
        job: u64,
        range: u64,
        rows: u32,
    ) -> Result<Reply, SlateDBError>
        requires stands { Stands (O.merged (O.settings operator.now)) self.old }
        requires counted { 1 ≤ range }
        requires some { 1 ≤ rows }
        ensures served { (scheduler : Scheduler) → IfOk result (Serves (record {
          merge = O.merged (O.settings operator.now);
          scheduler = scheduler;
        }) number (script.Output worker job range rows) self.old self.new) }
        ensures memory { IsOkUnless result SlateDBError.Memory }
    {
        let Some(attempt) = attempt_named(self.workers.as_slice(), worker, job) else {
            return answers::no_such_party(self.alloc);
        };
        if range > attempt.ctx().ranges_len() as u64 {
            return answers::no_such_party(self.alloc);
        }
        let job = attempt.job();
        let Some(mut worker) = take_worker(&mut self.workers, worker) else {
            return answers::no_such_party(self.alloc);
        };
        let written = written(
            &mut self.store,
            operator,
            number,
            &mut worker,
            self.moment,
            job,
            range as u32,
            rows as u64,
        );
        keep_worker(&mut self.workers, worker)?;
        output_reply(self.alloc, written)
    }
}
