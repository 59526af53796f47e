//! The attempts that lines name.

ghost use Rattle.std.specs.Prelude.{◌≡◌, ◌==◌, find};
ghost use Rattle.std.specs.Option.{option_copied};
ghost use Rattle.fleet_lines.specs.Work.{attempt_named};

use fleet_worker::{RunAttempt, Worker};

/// The worker with this number.
pub(crate) fn worker_with(workers: &[Worker], number: u64) -> Option<&Worker>
    ensures { option_copied result ≡ find (λ w. number == w.number) workers.now }
{
    workers.iter().find(|worker| number == worker.id())
}

/// The attempt at the job of this number that the worker of this number runs, if there are both.
pub(crate) fn attempt_named(workers: &[Worker], worker: u64, job: u64) -> Option<&RunAttempt>
    ensures { option_copied result ≡ attempt_named workers.now worker job }
{
    worker_with(workers, worker)?.attempt_of_number(job)
}
