//! The line by which a worker claims jobs.

ghost use Rattle.std.specs.Prelude.{◌≡◌, ◌++◌, ◌∷◌, [], map, IfOk, IsOkUnless, OnOk};
ghost use Rattle.fleet_rows.specs.declared.errors.SlateDBError.TheVariants as SlateDBError;
ghost use Rattle.fleet_jobs.specs.Contexts.{noted_range};
ghost use Rattle.script_model.specs.Lines.WorkLines as lines;
ghost use Rattle.script_model.specs.Replies as replies;
ghost use Rattle.fleet_text.specs.Printed.{attempt_begun};
ghost use Rattle.fleet_worker.specs.Claims.{attempts_at, claim_ends};
ghost use Rattle.fleet_worker.specs.Workers.{attempt_of};
ghost use Rattle.fleet_lines.specs.Fleets.{Stands, state_of};
ghost use Rattle.fleet_lines.specs.Lines.{RunsAlone};
ghost use Rattle.fleet_lines.specs.Steps.{Says};

use crate::Fleet;
use crate::parties::{keep_worker, take_worker};
use crate::refusals::refused;
use crate::steps::claimed;
use fleet_fold::MergeOperator;
use fleet_looks::ids_of;
use fleet_plan::Subcompaction;
use fleet_rows::{NamesList, SlateDBError, Ulid};
use fleet_text::{Begun, Reply, answers, listings};
use fleet_worker::{ClaimReport, RunAttempt, Worker};
use std::alloc::{AllocError, Global};

// The ids of the tables that were noted for each range.
fn names_of(alloc: Global, ranges: &[Subcompaction]) -> Result<NamesList, AllocError>
    ensures { IfOk result (λ names. names ≡ map (λ range. range.1) (map noted_range ranges.now)) }
{
    let mut names = Vec::with_capacity(alloc, ranges.len())?;
    'parts: for range in ranges {
        names.push(ids_of(alloc, range.output_ssts())?)?;
    }
    Ok(NamesList::from_vec(names))
}

// An attempt that a claim began, as replies print it.
fn begun(alloc: Global, attempt: &RunAttempt) -> Result<Begun, AllocError>
    ensures { IfOk result
        (λ begun. attempt_begun begun ≡ replies.attempt_text (attempt_of attempt.now)) }
{
    Ok(Begun {
        job: attempt.job(),
        number: attempt.number(),
        tables: names_of(alloc, attempt.ctx().subcompactions())?,
    })
}

// Adds the attempt at the job, if the worker runs it.
fn add_begun(
    alloc: Global,
    list: &mut Vec<Begun>,
    worker: &Worker,
    job: Ulid,
) -> Result<(), SlateDBError>
    ensures ok { OnOk result (map attempt_begun list.new.items ≡ map attempt_begun list.old.items
        ++ map replies.attempt_text (map attempt_of (attempts_at (job ∷ []) worker.now.attempts))) }
    ensures memory { IsOkUnless result SlateDBError.Memory }
{
    if let Some(attempt) = worker.attempt(job) {
        list.push(begun(alloc, attempt)?)?;
    }
    Ok(())
}

// The attempts at these jobs.
fn all_begun(alloc: Global, worker: &Worker, jobs: &[Ulid]) -> Result<Vec<Begun>, SlateDBError>
    ensures begun { IfOk result (λ list. map attempt_begun list.items
        ≡ map replies.attempt_text (map attempt_of (attempts_at jobs.now worker.now.attempts))) }
    ensures memory { IsOkUnless result SlateDBError.Memory }
{
    let mut list = Vec::new(alloc);
    'jobs: for job in jobs {
        add_begun(alloc, &mut list, worker, *job)?;
    }
    Ok(list)
}

// The reply to a claim.
fn claim_reply(
    alloc: Global,
    worker: &Worker,
    claimed: Result<ClaimReport, SlateDBError>,
) -> Result<Reply, SlateDBError>
    ensures says { IfOk result (Says (claim_ends worker.now.attempts)
        (λ r. replies.claim_reply r.begun r.stopped) claimed) }
    ensures memory { IsOkUnless result SlateDBError.Memory }
{
    match claimed {
        Ok(report) => {
            let begun = all_begun(alloc, worker, report.claimed.as_slice())?;
            listings::claimed(alloc, &begun, &report.stopped)
        }
        Err(error) => refused(alloc, error),
    }
}

impl Fleet {
    /// A worker claims jobs.
    pub(crate) fn claim<O: MergeOperator>(
        &mut self,
        operator: &O,
        number: u64,
        worker: u64,
    ) -> Result<Reply, SlateDBError>
        requires { Stands (O.merged (O.settings operator.now)) self.old }
        ensures ran { IfOk result (RunsAlone (O.merged (O.settings operator.now)) number
            (state_of self.old) (lines.claim_line worker (state_of self.old))
            self.old self.new) }
        ensures memory { IsOkUnless result SlateDBError.Memory }
    {
        let Some(mut worker) = take_worker(&mut self.workers, worker) else {
            return answers::no_such_party(self.alloc);
        };
        let claimed = claimed(
            &mut self.store,
            operator,
            number,
            &mut worker,
            &self.options.worker,
            self.moment,
        );
        let reply = claim_reply(self.alloc, &worker, claimed)?;
        keep_worker(&mut self.workers, worker)?;
        Ok(reply)
    }
}
