//! The line by which a worker finishes a job.

ghost use Rattle.std.specs.Prelude.{◌≡◌, ◌∷◌, [], List, codes, map, IfOk, IsOkUnless};
ghost use Rattle.fleet_model.specs.Work.Scheduler.{Scheduler};
ghost use Rattle.fleet_rows.specs.declared.errors.SlateDBError.TheVariants as SlateDBError;
ghost use Rattle.fleet_jobs.specs.Contexts.{table_ids};
ghost use Rattle.script_model.specs.Replies.{ranges_text, reply};
ghost use Rattle.script_model.specs.Script as script;
ghost use Rattle.fleet_worker.specs.Finishing.{all_ends};
ghost use Rattle.fleet_worker.specs.Workers.{AttemptParts};
ghost use Rattle.fleet_lines.specs.Fleets.{Stands};
ghost use Rattle.fleet_lines.specs.Lines.{Serves};
ghost use Rattle.fleet_lines.specs.Steps.{Says};

use crate::Fleet;
use crate::lookups::attempt_named;
use crate::parties::{keep_worker, take_worker};
use crate::refusals::refused;
use crate::steps::finished;
use fleet_fold::MergeOperator;
use fleet_looks::ids_of;
use fleet_rows::{NamesList, SlateDBError};
use fleet_text::{Reply, answers, listings};
use fleet_tree::{OutputList, TableList};
use std::alloc::{AllocError, Global};
use std::thread::Threads;

// The ids of the tables of each range.
fn names_of(alloc: Global, outputs: &[TableList]) -> Result<NamesList, AllocError>
    ensures { IfOk result (λ names. names ≡ map table_ids outputs.now) }
{
    let mut names = Vec::with_capacity(alloc, outputs.len())?;
    'outputs: for tables in outputs {
        names.push(ids_of(alloc, tables.as_slice())?)?;
    }
    Ok(NamesList::from_vec(names))
}

// The reply to a finish, whatever attempts the worker runs after it.
fn finish_reply(
    alloc: Global,
    finished: Result<OutputList, SlateDBError>,
) -> Result<Reply, SlateDBError>
    ensures says { IfOk result (λ answer. (attempts : List AttemptParts) → Says (all_ends attempts)
        (λ r. reply (codes "ok" ∷ ranges_text r.outputs ∷ [])) finished answer) }
    ensures memory { IsOkUnless result SlateDBError.Memory }
{
    match finished {
        Ok(outputs) => {
            let names = names_of(alloc, outputs.as_slice())?;
            listings::finished(alloc, &names)
        }
        Err(error) => refused(alloc, error),
    }
}

impl Fleet {
    /// A worker finishes the job of this number.
    pub(crate) fn finish<R: Threads + Sync, O: MergeOperator>(
        &mut self,
        rt: &R,
        operator: &O,
        number: u64,
        worker: u64,
        job: u64,
    ) -> Result<Reply, SlateDBError>
        requires { Stands (O.merged (O.settings operator.now)) self.old }
        ensures served { (scheduler : Scheduler) → IfOk result (Serves (record {
          merge = O.merged (O.settings operator.now);
          scheduler = scheduler;
        }) number (script.FinishJob worker job) self.old self.new) }
        ensures memory { IsOkUnless result SlateDBError.Memory }
    {
        let Some(attempt) = attempt_named(self.workers.as_slice(), worker, job) else {
            return answers::no_such_party(self.alloc);
        };
        let job = attempt.job();
        let Some(mut worker) = take_worker(&mut self.workers, worker) else {
            return answers::no_such_party(self.alloc);
        };
        let finished = finished(
            rt,
            &mut self.store,
            operator,
            number,
            &mut worker,
            &self.options.worker,
            self.moment,
            job,
        );
        keep_worker(&mut self.workers, worker)?;
        finish_reply(self.alloc, finished)
    }
}
