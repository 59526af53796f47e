//! Writing numbers and rows after other bytes.

ghost use Rattle.std.specs.Prelude.{◌≡◌, ◌++◌, ◌<◌, ◌≤◌, ◌^◌, length, IsOkUnless, OnOk};
ghost use Rattle.std.specs.Int.{w16, w32, w64, to_be_bytes};
ghost use Rattle.row_model.specs.Bounds.{IsInBounds};
ghost use Rattle.row_model.specs.Written.TableBytes.{content_bytes, fields_bytes, key_bytes, row_bytes, row_flags, shared_len, stamp_bytes, IsWritable};
ghost use Rattle.row_model.specs.Written.Sizes.{content_len};
ghost use Rattle.fleet_rows.specs.Row.{content_of, row_of};

use crate::fits::know_numbers_fit;
use crate::shared_bytes::shared_len;
use fleet_rows::{RowEntry, SlateDBError, ValueDeletable};

const TOMBSTONE: u8 = 1;

const OPERAND: u8 = 2;

const CREATE_TS: u8 = 4;

const EXPIRE_TS: u8 = 8;

/// Writes a number of 16 bits.
pub(crate) fn put_u16(out: &mut Vec<u8>, number: u16) -> Result<(), SlateDBError>
    ensures bytes { OnOk result (out.new.items ≡ out.old.items ++ to_be_bytes w16 number) }
    ensures memory { IsOkUnless result SlateDBError.Memory }
{
    Ok(out.extend_from_slice(&number.to_be_bytes())?)
}

/// Writes a number of 32 bits.
pub(crate) fn put_u32(out: &mut Vec<u8>, number: u32) -> Result<(), SlateDBError>
    ensures bytes { OnOk result (out.new.items ≡ out.old.items ++ to_be_bytes w32 number) }
    ensures memory { IsOkUnless result SlateDBError.Memory }
{
    Ok(out.extend_from_slice(&number.to_be_bytes())?)
}

/// Writes a number of 64 bits.
pub(crate) fn put_u64(out: &mut Vec<u8>, number: u64) -> Result<(), SlateDBError>
    ensures bytes { OnOk result (out.new.items ≡ out.old.items ++ to_be_bytes w64 number) }
    ensures memory { IsOkUnless result SlateDBError.Memory }
{
    Ok(out.extend_from_slice(&number.to_be_bytes())?)
}

/// Writes a row of a block with this first key. The block's first row is written after the empty
/// key.
pub(crate) fn put_row(out: &mut Vec<u8>, first: &[u8], row: &RowEntry) -> Result<(), SlateDBError>
    requires { IsInBounds (row_of row.now) }
    ensures bytes { OnOk result
        (out.new.items ≡ out.old.items ++ row_bytes first.now (row_of row.now)) }
    ensures fit { IsWritable (row_of row.now) }
    ensures memory { IsOkUnless result SlateDBError.Memory }
{
    know_numbers_fit(row);
    let key = row.key.as_slice();
    put_key(out, shared_len(first, key), key)?;
    put_fields(out, row)
}

fn put_key(out: &mut Vec<u8>, shared: usize, key: &[u8]) -> Result<(), SlateDBError>
    requires within { shared ≤ length key.now }
    requires in_bounds { length key.now ≤ 65535 }
    ensures bytes { OnOk result (out.new.items ≡ out.old.items ++ key_bytes shared key.now) }
    ensures memory { IsOkUnless result SlateDBError.Memory }
{
    put_u16(out, shared as u16)?;
    put_u16(out, (key.len() - shared) as u16)?;
    Ok(out.extend_from_slice(&key[shared..])?)
}

fn put_fields(out: &mut Vec<u8>, row: &RowEntry) -> Result<(), SlateDBError>
    requires { IsInBounds (row_of row.now) }
    ensures bytes { OnOk result (out.new.items ≡ out.old.items ++ fields_bytes (row_of row.now)) }
    ensures memory { IsOkUnless result SlateDBError.Memory }
{
    put_u64(out, row.seq)?;
    out.push(flags(row))?;
    put_stamp(out, row.create_ts)?;
    put_stamp(out, row.expire_ts)?;
    put_content(out, &row.value)
}

fn flags(row: &RowEntry) -> u8
    ensures { result ≡ row_flags (row_of row.now) }
{
    let content = match &row.value {
        ValueDeletable::Value(_) => 0,
        ValueDeletable::Merge(_) => OPERAND,
        ValueDeletable::Tombstone => TOMBSTONE,
    };
    let created = if row.create_ts.is_some() {
        CREATE_TS
    } else {
        0
    };
    let expires = if row.expire_ts.is_some() {
        EXPIRE_TS
    } else {
        0
    };
    content + created + expires
}

fn put_stamp(out: &mut Vec<u8>, stamp: Option<i64>) -> Result<(), SlateDBError>
    ensures bytes { OnOk result (out.new.items ≡ out.old.items ++ stamp_bytes stamp) }
    ensures memory { IsOkUnless result SlateDBError.Memory }
{
    if let Some(stamp) = stamp {
        out.extend_from_slice(&stamp.to_be_bytes())?;
    }
    Ok(())
}

fn put_content(out: &mut Vec<u8>, content: &ValueDeletable) -> Result<(), SlateDBError>
    requires { content_len (content_of content.now) < 2 ^ 32 }
    ensures bytes { OnOk result
        (out.new.items ≡ out.old.items ++ content_bytes (content_of content.now)) }
    ensures memory { IsOkUnless result SlateDBError.Memory }
{
    match content {
        ValueDeletable::Value(bytes) | ValueDeletable::Merge(bytes) => {
            put_u32(out, bytes.len() as u32)?;
            Ok(out.extend_from_slice(bytes.as_slice())?)
        }
        ValueDeletable::Tombstone => Ok(()),
    }
}
