//! The change of the records by a poll.

ghost use Rattle.std.specs.Prelude.{◌≡◌, ◌++◌, ◌||◌, IfOk, IsOkUnless, OnOk};
ghost use Rattle.fleet_model.specs.Jobs.{in_id_order};
ghost use Rattle.fleet_model.specs.Work.Gates.{is_nonempty};
ghost use Rattle.fleet_model.specs.Work.Polls.{change_of, is_nothing};
ghost use Rattle.fleet_model.specs.Work.Records.{firsts};
ghost use Rattle.fleet_tree.specs.Trees.{RunFlushes};
ghost use Rattle.fleet_history.specs.Changes.{poll_change_of};
ghost use Rattle.fleet_poll.specs.Polls.{poll_of};

use fleet_history::PollChange;
use fleet_poll::Poll;
use fleet_rows::{JobList, ListOf, SlateDBError, Ulid};
use std::alloc::{AllocError, Global};

// Adds these ids at the end.
fn add_ids(ids: &mut Vec<Ulid>, more: &[Ulid]) -> Result<(), AllocError>
    ensures { OnOk result (ids.new.items ≡ ids.old.items ++ more.now) }
{
    'more: for id in more {
        ids.push(*id)?;
    }
    Ok(())
}

// Adds the ids of these refused jobs at the end.
fn add_refused(ids: &mut Vec<Ulid>, refused: &[(Ulid, u8)]) -> Result<(), AllocError>
    ensures { OnOk result (ids.new.items ≡ ids.old.items ++ firsts refused.now) }
{
    'refused: for job in refused {
        ids.push(job.0)?;
    }
    Ok(())
}

// The ids in rising order.
fn in_id_order(ids: Vec<Ulid>) -> Result<JobList, SlateDBError>
    ensures ids { IfOk result (λ sorted. sorted ≡ in_id_order ids.items) }
    ensures memory { IsOkUnless result SlateDBError.Memory }
{
    let mut sorted = ids;
    sorted.sort_by(|a, b| a.cmp(b))?;
    Ok(JobList::from_vec(sorted))
}

// The jobs that the poll committed, moved or drained.
fn completed(alloc: Global, poll: &Poll) -> Result<JobList, SlateDBError>
    ensures ids { IfOk result (λ ids. ids
        ≡ in_id_order (poll.now.committed ++ poll.now.moved ++ poll.now.drained)) }
    ensures memory { IsOkUnless result SlateDBError.Memory }
{
    let mut ids = Vec::new(alloc);
    add_ids(&mut ids, poll.committed.as_slice())?;
    add_ids(&mut ids, poll.moved.as_slice())?;
    add_ids(&mut ids, poll.drained.as_slice())?;
    in_id_order(ids)
}

// The jobs that a gate refused.
fn failed(alloc: Global, poll: &Poll) -> Result<JobList, SlateDBError>
    ensures ids { IfOk result
        (λ ids. ids ≡ in_id_order (firsts poll.now.lost ++ firsts poll.now.refused)) }
    ensures memory { IsOkUnless result SlateDBError.Memory }
{
    let mut ids = Vec::new(alloc);
    add_refused(&mut ids, poll.lost.as_slice())?;
    add_refused(&mut ids, poll.refused.as_slice())?;
    in_id_order(ids)
}

/// The change of the records by the poll, as it stands in the history.
pub fn change_of(alloc: Global, poll: &Poll) -> Result<PollChange, SlateDBError>
    ensures change { (flushes : RunFlushes) → IfOk result
        (λ change. poll_change_of change ≡ change_of (poll_of flushes poll.now)) }
    ensures memory { IsOkUnless result SlateDBError.Memory }
{
    Ok(PollChange {
        freed: poll.freed.clone()?,
        completed: completed(alloc, poll)?,
        failed: failed(alloc, poll)?,
        added: poll.added.clone()?,
        scheduled: poll.opened.clone()?,
    })
}

// Whether the list has an element.
fn is_nonempty<T: Drop>(list: &ListOf<T>) -> bool
    ensures { result ≡ is_nonempty list.now }
{
    !list.is_empty()
}

// Whether the change names a job that is over.
fn names_ended(change: &PollChange) -> bool
    ensures { result ≡ (is_nonempty change.now.completed || is_nonempty change.now.failed) }
{
    is_nonempty(&change.completed) || is_nonempty(&change.failed)
}

// Whether the change names a new job, or one that waits for a worker from now on.
fn names_begun(change: &PollChange) -> bool
    ensures { result ≡ (is_nonempty change.now.added || is_nonempty change.now.scheduled) }
{
    is_nonempty(&change.added) || is_nonempty(&change.scheduled)
}

/// Whether the change names no job.
pub fn is_nothing(change: &PollChange) -> bool
    ensures { result ≡ is_nothing (poll_change_of change.now) }
{
    !(is_nonempty(&change.freed) || names_ended(change) || names_begun(change))
}
