//! The names of flushes.

ghost use Rattle.std.specs.Prelude.{◌≡◌, ◌≤◌, drop, fold, length, max, IfOk, IsOkUnless};
ghost use Rattle.fleet_rows.specs.declared.errors.SlateDBError.TheVariants as SlateDBError;
ghost use Rattle.fleet_history.specs.Entries.{event_of, history_of};
ghost use Rattle.step_model.specs.Entries as model;

use fleet_rows::{DRAWN_BASE, SlateDBError, Ulid};
use fleet_store::{Event, HistoryEntry};

// The number of the table, if a flush put it, or 0.
fn flush_name(table: Ulid) -> u128
    ensures { result ≡ model.name_in (event_of (Event.PutTable table 0)) }
{
    if table < Ulid::from_parts(0, DRAWN_BASE) {
        table.number()
    } else {
        0
    }
}

// The name of the flush whose table the event puts, or 0 if it puts none.
fn name_in(event: &Event) -> u128
    ensures { result ≡ model.name_in (event_of event.now) }
{
    match event {
        Event::PutTable(table, _) => flush_name(*table),
        _ => 0,
    }
}

// The greater one of the name and that of the entry.
fn with_entry(last: u128, entry: &HistoryEntry) -> u128
    ensures { result ≡ max last (model.name_in (event_of entry.now.event)) }
{
    last.max(name_in(&entry.event))
}

// The greatest one of the name and those of the entries.
fn greatest_name(last: u128, entries: &[HistoryEntry]) -> u128
    ensures { result
        ≡ fold (λ last entry. max last (model.name_in (event_of entry.event))) last entries.now }
{
    entries.iter().fold(last, with_entry)
}

/// The greater one of this name and the greatest one of the entries from this place on. A name that
/// 64 bits have no room for is out of memory.
pub(crate) fn last_name(
    history: &[HistoryEntry],
    from: usize,
    last: u64,
) -> Result<u64, SlateDBError>
    requires { from ≤ length history.now }
    ensures name { IfOk result (λ name. name
        ≡ max last (model.last_name (history_of (drop from history.now)))) }
    ensures memory { IsOkUnless result SlateDBError.Memory }
{
    let name = greatest_name(last as u128, &history[from..]);
    match u64::try_from(name) {
        Ok(name) => Ok(name),
        Err(_) => Err(SlateDBError::Memory),
    }
}
