//! Writing rows as the bytes of a table.

ghost use Rattle.std.specs.Prelude.{◌≡◌, ◌++◌, ◌<◌, ◌^◌, length, IfOk, IsOkUnless, OnOk};
ghost use Rattle.std.specs.Int.{w16, w64, to_be_bytes};
ghost use Rattle.std.specs.List.{AllByRecursion, flat_map};
ghost use Rattle.row_model.specs.Bounds.{IsInBounds};
ghost use Rattle.row_model.specs.Written.TableBytes.{blocks_of_rows, header_bytes, row_bytes, rows_bytes, table_bytes, IsWritable};
ghost use Rattle.fleet_rows.specs.Row.{rows_of};
ghost use Rattle.fleet_block.specs.Places.{places_from};

use crate::BlockPlace;
use crate::cut::split_block;
use crate::put::{put_row, put_u16, put_u64};
use fleet_rows::{RowEntry, SlateDBError};
use std::alloc::Global;

// The number of bytes in front of the headers of blocks.
const COUNT_BYTES: usize = 8;

// The most bytes that a row takes beside those of its key and its value.
const FIELDS_BYTES: usize = 33;

// Enough bytes for the rows of all blocks, if so many can be had.
fn room_for(rows: &[RowEntry]) -> usize {
    let mut room = rows.len().saturating_mul(FIELDS_BYTES);
    'rows: for row in rows {
        room = room
            .saturating_add(row.key.len())
            .saturating_add(row.value.len());
    }
    room
}

/// The bytes of a table that has these rows, and where its blocks begin. The numbers of the rows
/// fit their places. The only error is `Memory`.
pub fn written_rows(
    alloc: Global,
    rows: &[RowEntry],
) -> Result<(Vec<u8>, Vec<BlockPlace>), SlateDBError>
    requires { AllByRecursion IsInBounds (rows_of rows.now) }
    ensures bytes { IfOk result (λ written. written.0.items ≡ table_bytes (rows_of rows.now)) }
    ensures places { IfOk result
        (λ written. written.1.items ≡ places_from 0 0 (blocks_of_rows 0 (rows_of rows.now))) }
    ensures fit { OnOk result (AllByRecursion IsWritable (rows_of rows.now)) }
    ensures memory { IsOkUnless result SlateDBError.Memory }
{
    let mut headers = Vec::new(alloc);
    let mut written = Vec::with_capacity(alloc, room_for(rows))?;
    let mut places = Vec::new(alloc);
    let mut row = 0;
    let mut rest = rows;
    'rest: while !rest.is_empty() {
        let (block, later) = split_block(rest);
        let place = written.len();
        places.push(BlockPlace { row, place })?;
        put_block(&mut headers, &mut written, block)?;
        row += block.len();
        rest = later;
    }
    let room = headers
        .len()
        .saturating_add(written.len())
        .saturating_add(COUNT_BYTES);
    let mut out = Vec::with_capacity(alloc, room)?;
    put_u64(&mut out, places.len() as u64)?;
    out.extend_from_slice(headers.as_slice())?;
    out.extend_from_slice(written.as_slice())?;
    Ok((out, places))
}

/// The bytes of a table that has these rows. The numbers of the rows fit their places. The only
/// error is `Memory`.
pub fn bytes_from_rows(alloc: Global, rows: &[RowEntry]) -> Result<Vec<u8>, SlateDBError>
    requires { AllByRecursion IsInBounds (rows_of rows.now) }
    ensures bytes { IfOk result (λ bytes. bytes.items ≡ table_bytes (rows_of rows.now)) }
    ensures fit { OnOk result (AllByRecursion IsWritable (rows_of rows.now)) }
    ensures memory { IsOkUnless result SlateDBError.Memory }
{
    let (bytes, _) = written_rows(alloc, rows)?;
    Ok(bytes)
}

fn put_block(
    headers: &mut Vec<u8>,
    written: &mut Vec<u8>,
    block: &[RowEntry],
) -> Result<(), SlateDBError>
    requires in_bounds { AllByRecursion IsInBounds (rows_of block.now) }
    requires short { length block.now < 2 ^ 16 }
    ensures header { OnOk result
        (headers.new.items ≡ headers.old.items ++ header_bytes (rows_of block.now)) }
    ensures rows { OnOk result
        (written.new.items ≡ written.old.items ++ rows_bytes (rows_of block.now)) }
    ensures fit { OnOk result (AllByRecursion IsWritable (rows_of block.now)) }
    ensures memory { IsOkUnless result SlateDBError.Memory }
{
    let start = written.len();
    put_rows(written, block)?;
    put_header(headers, block.len() as u16, (written.len() - start) as u64)
}

fn put_header(headers: &mut Vec<u8>, rows: u16, len: u64) -> Result<(), SlateDBError>
    ensures bytes { OnOk result (headers.new.items
        ≡ headers.old.items ++ (to_be_bytes w16 rows ++ to_be_bytes w64 len)) }
    ensures memory { IsOkUnless result SlateDBError.Memory }
{
    put_u16(headers, rows)?;
    put_u64(headers, len)
}

fn put_rows(out: &mut Vec<u8>, block: &[RowEntry]) -> Result<(), SlateDBError>
    requires { AllByRecursion IsInBounds (rows_of block.now) }
    ensures bytes { OnOk result (out.new.items ≡ out.old.items ++ rows_bytes (rows_of block.now)) }
    ensures fit { OnOk result (AllByRecursion IsWritable (rows_of block.now)) }
    ensures memory { IsOkUnless result SlateDBError.Memory }
{
    if let [row, later @ ..] = block {
        put_row(out, &[], row)?;
        put_later(out, row.key.as_slice(), later)?;
    }
    Ok(())
}

fn put_later(out: &mut Vec<u8>, first: &[u8], later: &[RowEntry]) -> Result<(), SlateDBError>
    requires { AllByRecursion IsInBounds (rows_of later.now) }
    ensures bytes { OnOk result (out.new.items
        ≡ out.old.items ++ flat_map (row_bytes first.now) (rows_of later.now)) }
    ensures fit { OnOk result (AllByRecursion IsWritable (rows_of later.now)) }
    ensures memory { IsOkUnless result SlateDBError.Memory }
{
    let mut rest = later;
    'rest: while let [row, more @ ..] = rest {
        put_row(out, first, row)?;
        rest = more;
    }
    Ok(())
}
