//! Laws on what a worker holds after its own calls and steps. Each function has an empty body, and
//! its clause states a law: a worker that fits a store also fits the store that its step leaves,
//! whatever calls of others come in between. If the step reports, the worker fits with the attempts
//! of the report. If it ends otherwise, or memory runs out, it fits with those that it ran before.
#![tactic(auto)]

ghost use Rattle.row_model.specs.Fold.{Operator};
ghost use Rattle.worker_laws.specs.BeatReports.{BeatsReport};
ghost use Rattle.worker_laws.specs.Beats.{BeatsKeepFit};
ghost use Rattle.worker_laws.specs.ClaimReports.{ClaimsReport};
ghost use Rattle.worker_laws.specs.Claims.{ClaimsKeepFit};
ghost use Rattle.worker_laws.specs.Fewer.{FewerFit, IdleFit};
ghost use Rattle.worker_laws.specs.FinishReports.{FinishesReport};
ghost use Rattle.worker_laws.specs.Finishes.{FinishesKeepFit};
ghost use Rattle.worker_laws.specs.Messages.{MessagesKeepFit};
ghost use Rattle.worker_laws.specs.Outputs.{OutputsKeepFit, OutputsSay};
ghost use Rattle.worker_laws.specs.OwnCalls.{OwnCallsKeep};
ghost use Rattle.worker_laws.specs.Refusals.{RefusalsGiveBack};
ghost use Rattle.worker_laws.specs.Releases.{ReleasesKeepFit};
ghost use Rattle.worker_laws.specs.Turns.{TurnsFit};

/// A lawful call of the worker itself keeps what it holds, if no fault strikes the call. Its puts of
/// the records must spare its live attempts: a heartbeat publishes the attempts' own contexts, and a
/// finish names no table that is noted for another one.
pub fn own_calls_keep()
    ensures { (merge : Operator) → OwnCallsKeep merge }
{}

/// A worker that fits also fits with fewer of its attempts.
pub fn fewer_attempts_fit()
    ensures { (merge : Operator) → FewerFit merge }
{}

/// A worker that runs nothing fits any store.
pub fn idle_workers_fit()
    ensures { (merge : Operator) → IdleFit merge }
{}

/// A worker fits after its claim. An attempt that it began has its job's published context, if the
/// job has one and the attempt is live. The worker runs no job that it stopped or did not start.
pub fn claims_keep_fit()
    ensures { ClaimsKeepFit }
{}

/// A claim that reports stopped and took exactly the jobs of its rule, by the records that its last
/// try found. It released only jobs whose attempts were lost as it got the manifest.
pub fn claims_report()
    ensures { ClaimsReport }
{}

/// A worker fits after its heartbeat, and runs only attempts that were live and are beaten.
pub fn beats_keep_fit()
    ensures { BeatsKeepFit }
{}

/// A worker fits after its output. The table that it put is noted for the range whose next rows it
/// holds.
pub fn outputs_keep_fit()
    ensures { OutputsKeepFit }
{}

/// A table that an output reports is held, has the next rows of its range, and is noted for it.
pub fn outputs_say()
    ensures { OutputsSay }
{}

/// Where the operator refuses a fold, the attempt is given back, so it is not live any more.
pub fn refusals_give_back()
    ensures { RefusalsGiveBack }
{}

/// A worker fits after its finish. Its other attempts stay, and the finished one is not live.
pub fn finishes_keep_fit()
    ensures { FinishesKeepFit }
{}

/// A finish that reports ended a live attempt with one put. The job waits for its commit with the
/// reported outputs, and they hold all rows that one merge makes under the settings of one claim.
pub fn finishes_report()
    ensures { FinishesReport }
{}

/// A worker fits after the step by which it gives its live attempts back. None of them is live any
/// more.
pub fn releases_keep_fit()
    ensures { ReleasesKeepFit }
{}

/// A worker fits after the steps by which it takes messages about its attempts. An attempt that
/// finished ends as after a finish, and one that failed is not live any more.
pub fn messages_keep_fit()
    ensures { MessagesKeepFit }
{}

/// A worker fits after its turns, each of which is a claim and then a finish of each job that it
/// runs.
pub fn turns_fit()
    ensures { TurnsFit }
{}

/// A heartbeat that reports beat exactly the attempts that were live by the records of its last
/// try, and stopped the others. A release that reports gave back exactly the live ones.
pub fn beats_report()
    ensures { BeatsReport }
{}
