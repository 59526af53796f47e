//! The put of the records by a poll.

ghost use Rattle.std.specs.Prelude.{◌≡◌, IfOk, IsOkUnless};
ghost use Rattle.fleet_book.specs.States.{own_jobs};
ghost use Rattle.fleet_change.specs.Puts.{IsRecordsPut, Trims};

use crate::{change_of, is_nothing};
use fleet_book::Compactions;
use fleet_history::RecordChange;
use fleet_poll::Poll;
use fleet_rows::SlateDBError;
use std::alloc::Global;

/// A put of the records for the version that was got.
#[derive(Drop)]
pub struct PollPut {
    pub version: u64,
    pub value: Compactions,
    pub why: RecordChange,
}

// The jobs of the poll, without the finished ones but the last, with this epoch.
fn trimmed(poll: &Poll, epoch: u64) -> Result<Compactions, SlateDBError>
    ensures value { IfOk result (Trims (own_jobs poll.now.state) epoch) }
    ensures memory { IsOkUnless result SlateDBError.Memory }
{
    let mut value = poll.state.compactions().compactions().clone()?;
    value.compactor_epoch = epoch;
    value.retain_active_and_last_finished();
    Ok(value)
}

/// The put by which the poll records what it did, or None if it changed no job. The epoch is that
/// of the records that were got. Of the jobs that are over only the last one stays.
pub fn records_put(alloc: Global, poll: &Poll, epoch: u64) -> Result<Option<PollPut>, SlateDBError>
    ensures put { IfOk result (IsRecordsPut poll.now epoch) }
    ensures memory { IsOkUnless result SlateDBError.Memory }
{
    let change = change_of(alloc, poll)?;
    if is_nothing(&change) {
        return Ok(None);
    }
    Ok(Some(PollPut {
        version: poll.state.compactions().id(),
        value: trimmed(poll, epoch)?,
        why: RecordChange::Poll(change),
    }))
}
