//! The puts of the records by a poll.

ghost use Rattle.std.specs.Prelude.{◌≡◌, IfErr, IfOk, option_map};
ghost use Rattle.fleet_model.specs.Store.{Records};
ghost use Rattle.fleet_model.specs.Work.PollStates.{PollState};
ghost use Rattle.step_model.specs.Courses.Course.{Course};
ghost use Rattle.step_model.specs.Courses.CourseRuns.{IsLawfulCourse};
ghost use Rattle.step_model.specs.Courses.StepEnds.{Reports, StepEnd};
ghost use Rattle.step_model.specs.Steps.PollSteps.{puts_polled, records_or_none};
ghost use Rattle.fleet_tree.specs.Trees.{RunFlushes};
ghost use Rattle.fleet_book.specs.Records.{AreRising};
ghost use Rattle.fleet_book.specs.States.{own_jobs};
ghost use Rattle.fleet_book.specs.Versions.{records_of};
ghost use Rattle.fleet_store.specs.Records.{DescribeTables, jobs_or_none};
ghost use Rattle.fleet_step.specs.Steps.{StepRan, TryRan};
ghost use Rattle.fleet_poll.specs.Polls.{poll_of};
ghost use Rattle.fleet_poll.specs.declared.poll.Poll.{Poll};
ghost use Rattle.fleet_coordinator.specs.Recording.{MayRecord, MergesNewer, gets_newer, got_with, puts_once, with_poll};

use fleet_book::{Compactions, VersionedCompactions};
use fleet_change::records_put;
use fleet_poll::Poll;
use fleet_rows::{JobList, SlateDBError};
use fleet_step::{put_answer, refused_at};
use fleet_store::Store;
use std::alloc::Global;

/// The records, or those of version 0 if there are none.
pub(crate) fn or_none(alloc: Global, records: Option<VersionedCompactions>) -> VersionedCompactions
    ensures records { records_of result ≡ records_or_none (option_map records_of records) }
    ensures jobs { result.compactions.jobs ≡ jobs_or_none records }
{
    match records {
        Some(records) => records,
        None => VersionedCompactions::from_compactions(0, Compactions::new(alloc, 0)),
    }
}

// The ids of the jobs rise.
fn know_rising(records: &VersionedCompactions)
    ensures { AreRising records.now.compactions.jobs }
{
    let _jobs = records.recent_compactions();
}

// Gets the records again and merges them into the poll's jobs. The poll then frees no job. The
// answer is the epoch of the records. `epoch` is the coordinator's.
fn merge_newer<S: Store>(
    alloc: Global,
    store: &mut S,
    poll: &mut Poll,
    epoch: u64,
) -> Result<u64, SlateDBError>
    ensures merged { IfOk result (λ got. MergesNewer epoch
        (S.view store.old) (S.view store.new) poll.old poll.new got) }
    ensures failed { (next : Records → Course (StepEnd PollState)) (again : _)
        (ends : Poll → StepEnd PollState) → IfErr result (λ error. TryRan ends
        (gets_newer epoch next) again (S.view store.old) (S.view store.new) (Err error)) }
{
    let newer = or_none(alloc, store.get_records()?);
    let stored = newer.compactor_epoch();
    if epoch < stored {
        return Err(SlateDBError::Fenced { stored });
    }
    know_rising(poll.state.compactions());
    poll.state.merge_remote_compactions(newer)?;
    poll.freed = JobList::new(alloc);
    Ok(stored)
}

// Puts what the poll did into the records that were got with this epoch, if it changed a job.
fn put_once<S: Store>(
    alloc: Global,
    store: &mut S,
    poll: &Poll,
    got: u64,
) -> Result<(), SlateDBError>
    requires lawful { MayRecord (S.view store.old) poll.now got }
    requires described { DescribeTables (own_jobs poll.now.state)
        (S.view store.old).world.store }
    ensures { (flushes : RunFlushes) (again : _) → TryRan (λ _. Reports (poll_of flushes poll.now))
        (puts_once (poll_of flushes poll.now) (got_with poll.now got) again) again
        (S.view store.old) (S.view store.new) result }
{
    let Some(put) = records_put(alloc, poll, got)? else {
        return Ok(());
    };
    let made = store.put_records(put.version, put.value, put.why);
    put_answer(made, ())
}

/// Puts what the poll did into the records, if it changed a job. After a refused put it merges the
/// newer records and tries again, `left` times at most. `got` is the epoch of the records that were
/// got, and `epoch` the coordinator's. The answer is the poll as it is then.
pub(crate) fn record_poll<S: Store>(
    alloc: Global,
    store: &mut S,
    mut poll: Poll,
    epoch: u64,
    mut got: u64,
    left: u64,
    mut seen: u64,
) -> Result<Poll, SlateDBError>
    requires lawful { (flushes : RunFlushes) → IsLawfulCourse (S.view store.old).who
        (S.view store.old).world
        (puts_polled epoch (poll_of flushes poll) (got_with poll got) left seen) }
    requires described { DescribeTables (own_jobs poll.state) (S.view store.old).world.store }
    ensures { (flushes : RunFlushes) → StepRan (λ poll. Reports (poll_of flushes poll))
        (puts_polled epoch (poll_of flushes poll) (got_with poll got) left seen)
        (S.view store.old) (S.view store.new) result }
{
    'tries: for tries in 0..left {
        let put = put_once(alloc, store, &poll, got);
        let Some(version) = refused_at(&put) else {
            return with_poll(put, poll);
        };
        if tries + 1 == left {
            return Err(SlateDBError::Conflict { seen: version });
        }
        got = merge_newer(alloc, store, &mut poll, epoch)?;
        seen = version;
    }
    Err(SlateDBError::Conflict { seen })
}

// The poll, if the put did not fail.
fn with_poll(put: Result<(), SlateDBError>, poll: Poll) -> Result<Poll, SlateDBError>
    ensures { result ≡ with_poll put poll }
{
    match put {
        Ok(()) => Ok(poll),
        Err(error) => Err(error),
    }
}
