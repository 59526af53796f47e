//! What retention keeps of the rows of one key.

ghost use Rattle.std.specs.Prelude.{◌≡◌, ◌&&◌, not, bytes_eq, IfOk, IfSome, take};
ghost use Rattle.row_model.specs.Rows.{is_expired, is_operand, is_tombstone};
ghost use Rattle.row_model.specs.KeptRows.{as_tombstone_if_expired, retention_walk, without_old_tombstones, kept_rows};
ghost use Rattle.fleet_rows.specs.Row.{row_of, rows_of, content_of};
ghost use Rattle.fleet_fold.specs.Retention.{is_dropped, ends_walk};
ghost use Rattle.fleet_rows.specs.Settings.{settings_of};

use bytes::Bytes;
use fleet_rows::{RowEntry, Settings, ValueDeletable, same_key};
use std::alloc::{AllocError, Global};

/// Whether two keys are the same.
#[inline]
pub(crate) fn are_same(key: &Bytes, other: &Bytes) -> bool
    ensures { result ≡ bytes_eq key.now other.now }
{
    same_key(key.as_slice(), other.as_slice())
}

fn is_expired(row: &RowEntry, tick: i64) -> bool
    ensures { result ≡ is_expired (row_of row.now) tick }
{
    match row.expire_ts {
        Some(stamp) => stamp <= tick,
        None => false,
    }
}

pub(crate) fn is_operand(row: &RowEntry) -> bool
    ensures { result ≡ is_operand (row_of row.now) }
{
    match &row.value {
        ValueDeletable::Merge(_) => true,
        _ => false,
    }
}

// The row, or a tombstone without expiry in its place if it is expired.
fn as_tombstone_if_expired(row: RowEntry, tick: i64) -> RowEntry
    ensures { row_of result ≡ as_tombstone_if_expired tick (row_of row) }
{
    if is_expired(&row, tick) {
        RowEntry {
            key: row.key,
            value: ValueDeletable::Tombstone,
            seq: row.seq,
            create_ts: row.create_ts,
            expire_ts: None,
        }
    } else {
        row
    }
}

// Whether the walk drops a row, since it is an expired operand.
fn is_dropped(row: &RowEntry, tick: i64) -> bool
    ensures { result ≡ is_dropped tick (row_of row.now) }
{
    is_operand(row) && is_expired(row, tick)
}

// Whether the walk ends with a row. If it does, no read from the cut on sees an older one.
fn ends_walk(row: &RowEntry, cut: u64) -> bool
    ensures { result ≡ ends_walk cut (row_of row.now) }
{
    !is_operand(row) && row.seq <= cut
}

/// Whether retention keeps a row of its key as it is, and no older row. This is so if the row ends
/// the walk, is not expired, and is no tombstone in the last run.
#[inline]
pub(crate) fn is_kept_alone(settings: Settings, row: &RowEntry) -> bool
    ensures { result ≡ ((ends_walk (settings_of settings).cut (row_of row.now)
        && not (is_expired (row_of row.now) (settings_of settings).tick))
        && not ((settings_of settings).last_run && is_tombstone (row_of row.now).content)) }
{
    ends_walk(row, settings.cut)
        && !is_expired(row, settings.tick)
        && !(settings.last_run && row.value.is_tombstone())
}

// How many rows the walk keeps, if it takes all of them as they are. None if it comes to a row that
// is expired.
fn kept_as_they_are(settings: Settings, rows: &[RowEntry]) -> Option<usize>
    ensures { IfSome result (λ count. retention_walk settings.cut settings.tick (rows_of rows.now)
        ≡ rows_of (take count rows.now)) }
{
    'rows: for i in 0..rows.len() {
        if is_expired(&rows[i], settings.tick) {
            return None;
        }
        if ends_walk(&rows[i], settings.cut) {
            return Some(i + 1);
        }
    }
    Some(rows.len())
}

// Keeps rows from the newest one on, up to the first that ends the walk. It drops expired operands,
// and turns other expired rows into tombstones.
fn walked(
    alloc: Global,
    settings: Settings,
    rows: Vec<RowEntry>,
) -> Result<Vec<RowEntry>, AllocError>
    ensures { IfOk result (λ kept. rows_of kept.items
        ≡ retention_walk settings.cut settings.tick (rows_of rows.items)) }
{
    let mut rest = rows;
    if let Some(count) = kept_as_they_are(settings, &rest) {
        rest.truncate(count);
        return Ok(rest);
    }
    rest.reverse();
    let mut kept = Vec::new(alloc);
    'rows: while let Some(row) = rest.pop() {
        if !is_dropped(&row, settings.tick) {
            let last = ends_walk(&row, settings.cut);
            kept.push(as_tombstone_if_expired(row, settings.tick))?;
            if last {
                return Ok(kept);
            }
        }
    }
    Ok(kept)
}

// Removes the tombstones at the old end of the rows.
fn remove_old_tombstones(rows: &mut Vec<RowEntry>)
    ensures { rows_of rows.new.items ≡ without_old_tombstones (rows_of rows.old.items) }
{
    'old: while let Some(row) = rows.last()
        && row.value.is_tombstone()
    {
        rows.pop();
    }
}

/// The rows that retention keeps of the rows of one key. Both are newest first.
pub(crate) fn kept_rows(
    alloc: Global,
    settings: Settings,
    rows: Vec<RowEntry>,
) -> Result<Vec<RowEntry>, AllocError>
    ensures { IfOk result
        (λ kept. rows_of kept.items ≡ kept_rows (settings_of settings) (rows_of rows.items)) }
{
    let mut kept = walked(alloc, settings, rows)?;
    if settings.last_run {
        remove_old_tombstones(&mut kept);
    }
    Ok(kept)
}
