//! Packing rows: their bytes are put into memory that holds the bytes of such rows alone.

ghost use Rattle.std.specs.Prelude.{◌≡◌, ◌≤◌, [], IfOk, IfSome, IsOkUnless, OnOk};
ghost use Rattle.fleet_rows.specs.Row.{bytes_of, row_of};
ghost use Rattle.fleet_rows.specs.declared.errors.SlateDBError.TheVariants as SlateDBError;

use bytes::{Bytes, BytesMut};
use fleet_rows::{RowEntry, SlateDBError, ValueDeletable};
use std::alloc::Global;

// The number of bytes that are taken at once for rows, unless one row has more.
const ROOM_BYTES: usize = 16_384;

/// Memory for the rows of a range.
#[derive(Debug, Drop)]
pub(crate) struct Room {
    /// The number of rows for which the next table takes memory when it begins.
    pub(crate) rows: usize,
    /// Where the bytes of rows are packed, if they are.
    pub(crate) bytes: Option<BytesMut>,
}

// Empties the room, and makes it hold so many bytes at least.
fn clear_room(alloc: Global, room: &mut BytesMut, len: usize) -> Result<(), SlateDBError>
    ensures empty { OnOk result (room.new.items ≡ []) }
    ensures spare { OnOk result (len ≤ room.new.spare) }
    ensures memory { IsOkUnless result SlateDBError.Memory }
{
    room.clear();
    if room.capacity() < len {
        *room = BytesMut::with_capacity(alloc, ROOM_BYTES.max(len))?;
    }
    Ok(())
}

// Copies of a key and a value. They lie in the room's memory.
fn packed(
    alloc: Global,
    room: &mut BytesMut,
    key: &[u8],
    value: &[u8],
) -> Result<(Bytes, Bytes), SlateDBError>
    ensures key { IfOk result (λ copies. copies.0 ≡ key.now) }
    ensures value { IfOk result (λ copies. copies.1 ≡ value.now) }
    ensures memory { IsOkUnless result SlateDBError.Memory }
{
    clear_room(alloc, room, key.len() + value.len())?;
    room.extend_reserved(key);
    room.extend_reserved(value);
    let mut rest = room.split()?.freeze()?;
    let front = rest.split_to(key.len())?;
    Ok((front, rest))
}

// The bytes of a value or an operand. A tombstone has none.
fn value_bytes(value: &ValueDeletable) -> &[u8]
    ensures { IfSome (bytes_of value.now) (λ bytes. result.now ≡ bytes) }
{
    match value {
        ValueDeletable::Value(bytes) | ValueDeletable::Merge(bytes) => bytes.as_slice(),
        ValueDeletable::Tombstone => &[],
    }
}

// Puts the bytes of a row into the room.
#[inline(never)]
fn pack_into(alloc: Global, room: &mut BytesMut, row: &mut RowEntry) -> Result<(), SlateDBError>
    ensures same { row_of row.new ≡ row_of row.old }
    ensures memory { IsOkUnless result SlateDBError.Memory }
{
    let (key, value) = packed(alloc, room, row.key.as_slice(), value_bytes(&row.value))?;
    row.key = key;
    match &row.value {
        ValueDeletable::Value(_) => row.value = ValueDeletable::Value(value),
        ValueDeletable::Merge(_) => row.value = ValueDeletable::Merge(value),
        ValueDeletable::Tombstone => {}
    }
    Ok(())
}

/// Puts the bytes of a row into the room, if there is one. Then the row keeps alive no memory but
/// the room's, in which rows lie that were packed before and after it.
#[inline]
pub(crate) fn pack_row(
    alloc: Global,
    room: &mut Option<BytesMut>,
    row: &mut RowEntry,
) -> Result<(), SlateDBError>
    ensures same { row_of row.new ≡ row_of row.old }
    ensures memory { IsOkUnless result SlateDBError.Memory }
{
    match room {
        Some(room) => pack_into(alloc, room, row),
        None => Ok(()),
    }
}
