//! Messages to a worker, and what it answers.

ghost use Rattle.std.specs.Prelude.{◌≡◌, ◌<◌, ◌^◌, false};
ghost use Rattle.std.specs.Bool.{OnFalse};
ghost use Rattle.fleet_step.specs.Steps.{stops};
ghost use Rattle.fleet_worker.specs.Handles.{EndFits, LeavesAttempts, LeavesEnded, MessageFits, RunsEnd, RunsMessage, answer_of_step};
ghost use Rattle.fleet_worker.specs.Workers.{IsReady};

use crate::{BeatReport, ClaimReport, Worker};
use fleet_claim::CompactionWorkerOptions;
use fleet_jobs::CompactionContext;
use fleet_rows::{SlateDBError, Ulid};
use fleet_store::Store;
use fleet_tree::OutputList;

/// A message to a worker.
#[derive(Debug, Drop)]
pub enum WorkerMessage {
    /// The attempt at the job with this number finished, with these tables for each of its ranges,
    /// or it failed.
    CompactionJobFinished {
        id: Ulid,
        attempt: u64,
        result: Result<OutputList, SlateDBError>,
    },
    /// The attempt at the job with this number went on. It has read so many bytes of rows, and has
    /// this context from now on.
    CompactionJobProgress {
        id: Ulid,
        attempt: u64,
        bytes_processed: u64,
        ctx: CompactionContext,
    },
    /// It is time to claim jobs.
    PollCompactions,
    /// It is time for a heartbeat.
    HeartbeatOwnedJobs,
}

/// What a worker answers to a message.
#[derive(Debug, Drop)]
pub enum WorkerAnswer {
    /// It claimed jobs.
    Claimed(ClaimReport),
    /// It sent a heartbeat.
    Beat(BeatReport),
    /// It ended the job of an attempt that finished.
    Finished,
    /// It gave the job of an attempt that failed back.
    Released,
    /// It took note of progress.
    Noted,
}

// The answer of a step that is answered so if it was done.
fn answered(
    done: Result<(), SlateDBError>,
    answer: WorkerAnswer,
) -> Result<WorkerAnswer, SlateDBError>
    ensures { result ≡ answer_of_step (λ nothing. answer) done }
{
    match done {
        Ok(()) => Ok(answer),
        Err(error) => Err(error),
    }
}

// The answer of a claim.
fn claim_answered(done: Result<ClaimReport, SlateDBError>) -> Result<WorkerAnswer, SlateDBError>
    ensures { result ≡ answer_of_step WorkerAnswer.Claimed done }
{
    match done {
        Ok(report) => Ok(WorkerAnswer::Claimed(report)),
        Err(error) => Err(error),
    }
}

// The answer of a heartbeat.
fn beat_answered(done: Result<BeatReport, SlateDBError>) -> Result<WorkerAnswer, SlateDBError>
    ensures { result ≡ answer_of_step WorkerAnswer.Beat done }
{
    match done {
        Ok(report) => Ok(WorkerAnswer::Beat(report)),
        Err(error) => Err(error),
    }
}

impl Worker {
    // Takes the message that the attempt at the job with this number ended so.
    fn take_end<S: Store>(
        &mut self,
        store: &mut S,
        moment: u64,
        job: Ulid,
        number: u64,
        ended: Result<OutputList, SlateDBError>,
    ) -> Result<WorkerAnswer, SlateDBError>
        requires running { self.old.stopped ≡ false }
        requires ready { IsReady (S.view store.old) self.old }
        requires fits { EndFits (S.view store.old) self.old job number ended }
        ensures ran { RunsEnd moment self.old self.new job number ended
            (S.view store.old) (S.view store.new) result }
        ensures stopped { self.new.stopped ≡ stops result }
        ensures same { self.new ≡ record self.old {
          attempts = self.new.attempts;
          stopped = self.new.stopped;
        } }
        ensures left { LeavesEnded self.old self.new job number ended result }
        ensures ready { OnFalse self.new.stopped (IsReady (S.view store.new) self.new) }
    {
        match ended {
            Ok(outputs) => {
                let done = self.take_finished(store, moment, job, number, &outputs);
                answered(done, WorkerAnswer::Finished)
            }
            Err(_) => {
                let done = self.take_failed(store, job, number);
                answered(done, WorkerAnswer::Released)
            }
        }
    }

    /// Takes the message at this moment in milliseconds: claims jobs, sends a heartbeat, or takes
    /// what became of an attempt. The bytes of progress are dropped.
    ///
    /// `NotOwner` means that the worker does not run the attempt that ended, or that this attempt
    /// finished and is not live. Progress of an attempt that the worker does not run is `Noted` and
    /// changes nothing. `Conflict` means that 64 puts were refused in a row. After `StoreFault` the
    /// worker is stopped.
    pub fn handle<S: Store>(
        &mut self,
        store: &mut S,
        options: &CompactionWorkerOptions,
        moment: u64,
        message: WorkerMessage,
    ) -> Result<WorkerAnswer, SlateDBError>
        requires running { self.old.stopped ≡ false }
        requires ready { IsReady (S.view store.old) self.old }
        requires few { options.now.max_subcompactions < 2 ^ 32 }
        requires fits { MessageFits (S.view store.old) self.old message }
        ensures ran { RunsMessage options.now moment self.old self.new message
            (S.view store.old) (S.view store.new) result }
        ensures stopped { self.new.stopped ≡ stops result }
        ensures same { self.new ≡ record self.old {
          attempts = self.new.attempts;
          stopped = self.new.stopped;
        } }
        ensures left { LeavesAttempts self.old self.new message result }
        ensures ready { OnFalse self.new.stopped (IsReady (S.view store.new) self.new) }
    {
        match message {
            WorkerMessage::CompactionJobFinished {
                id,
                attempt,
                result: ended,
            } => self.take_end(store, moment, id, attempt, ended),
            WorkerMessage::CompactionJobProgress {
                id,
                attempt,
                ctx,
                ..
            } => {
                let done = self.take_progress(id, attempt, ctx);
                answered(done, WorkerAnswer::Noted)
            }
            WorkerMessage::PollCompactions => {
                let done = self.claim(store, options, moment);
                claim_answered(done)
            }
            WorkerMessage::HeartbeatOwnedJobs => {
                let done = self.heartbeat(store, moment);
                beat_answered(done)
            }
        }
    }
}
