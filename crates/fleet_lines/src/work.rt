//! The lines by which a worker sends a heartbeat or stops.

ghost use Rattle.std.specs.Prelude.{◌≡◌, List, IfOk, IsOkUnless};
ghost use Rattle.fleet_rows.specs.declared.errors.SlateDBError.TheVariants as SlateDBError;
ghost use Rattle.step_model.specs.Courses.StepEnds.{Reports};
ghost use Rattle.script_model.specs.Lines.WorkLines as lines;
ghost use Rattle.script_model.specs.Replies as replies;
ghost use Rattle.fleet_worker.specs.Beats.{beat_ends};
ghost use Rattle.fleet_worker.specs.Workers.{AttemptParts};
ghost use Rattle.fleet_lines.specs.Fleets.{Stands, state_of};
ghost use Rattle.fleet_lines.specs.Lines.{RunsAlone};
ghost use Rattle.fleet_lines.specs.Steps.{Says, is_struck, released_said};

use crate::Fleet;
use crate::parties::{keep_worker, take_worker};
use crate::refusals::refused;
use crate::steps::{beaten, noted, released};
use fleet_fold::MergeOperator;
use fleet_rows::{JobList, SlateDBError};
use fleet_store::Party;
use fleet_text::{Reply, answers, listings};
use fleet_worker::BeatReport;
use std::alloc::Global;

// Whether a fault struck a call of the step.
fn is_struck(released: &Result<JobList, SlateDBError>) -> bool
    ensures { result ≡ is_struck released.now }
{
    matches!(released, Err(SlateDBError::StoreFault))
}

// The reply to a heartbeat, whatever attempts the worker runs after it.
fn beat_reply(
    alloc: Global,
    beaten: Result<BeatReport, SlateDBError>,
) -> Result<Reply, SlateDBError>
    ensures says { IfOk result (λ answer. (attempts : List AttemptParts)
        → Says (beat_ends attempts) (λ r. replies.beat_reply r.beat r.not_owner) beaten answer) }
    ensures memory { IsOkUnless result SlateDBError.Memory }
{
    match beaten {
        Ok(report) => listings::beat(alloc, &report.beat, &report.not_owner),
        Err(error) => refused(alloc, error),
    }
}

// The reply to a worker that stops.
fn release_reply(
    alloc: Global,
    released: Result<JobList, SlateDBError>,
) -> Result<Reply, SlateDBError>
    ensures says { IfOk result (Says Reports released_said released) }
    ensures memory { IsOkUnless result SlateDBError.Memory }
{
    match released {
        Ok(jobs) => listings::released(alloc, &jobs),
        Err(error) => refused(alloc, error),
    }
}

impl Fleet {
    /// A worker sends a heartbeat.
    pub(crate) fn heartbeat<O: MergeOperator>(
        &mut self,
        operator: &O,
        number: u64,
        worker: u64,
    ) -> Result<Reply, SlateDBError>
        requires { Stands (O.merged (O.settings operator.now)) self.old }
        ensures ran { IfOk result (RunsAlone (O.merged (O.settings operator.now)) number
            (state_of self.old) (lines.heartbeat_line worker (state_of self.old))
            self.old self.new) }
        ensures memory { IsOkUnless result SlateDBError.Memory }
    {
        let Some(mut live) = take_worker(&mut self.workers, worker) else {
            return answers::no_such_party(self.alloc);
        };
        let beat = beaten(&mut self.store, operator, number, &mut live, self.moment);
        keep_worker(&mut self.workers, live)?;
        beat_reply(self.alloc, beat)
    }

    /// A worker gives its live attempts back and stops.
    pub(crate) fn stop_worker<O: MergeOperator>(
        &mut self,
        operator: &O,
        number: u64,
        worker: u64,
    ) -> Result<Reply, SlateDBError>
        requires { Stands (O.merged (O.settings operator.now)) self.old }
        ensures ran { IfOk result (RunsAlone (O.merged (O.settings operator.now)) number
            (state_of self.old) (lines.stop_worker worker (state_of self.old))
            self.old self.new) }
        ensures memory { IsOkUnless result SlateDBError.Memory }
    {
        let Some(mut live) = take_worker(&mut self.workers, worker) else {
            return answers::no_such_party(self.alloc);
        };
        let jobs = released(&mut self.store, operator, number, &mut live);
        if is_struck(&jobs) {
            return answers::store_fault(self.alloc);
        }
        let party = Party::Worker(worker);
        noted(&mut self.store, operator, number, party, false)?;
        release_reply(self.alloc, jobs)
    }
}
