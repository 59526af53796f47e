//! Taking rows of a range that are left after its cursor.

ghost use Rattle.std.specs.Prelude.{◌≡◌, IfOk, IfErr};
ghost use Rattle.std.specs.Option.{option_to_list};
ghost use Rattle.fleet_rows.specs.Row.{row_of};
ghost use Rattle.fleet_fold.specs.Retention.{IsReadable};
ghost use Rattle.fleet_exec.specs.Taking.{is_left, Takes, RefusesTaking};

use bytes::Bytes;
use fleet_iter::{RowSource, is_written};
use fleet_rows::{RowEntry, SlateDBError};
use std::alloc::Global;

// Whether a row is left. It is not left if it has the cursor's key and at least the cursor's
// sequence.
fn is_left(row: &RowEntry, cursor: &Option<(Bytes, u64)>) -> bool
    ensures { result ≡ is_left cursor.now (row_of row.now) }
{
    match cursor {
        Some((key, seq)) => !is_written(row, key, *seq),
        None => true,
    }
}

/// The next row that is left after the cursor.
pub(crate) fn next_left<T: RowSource>(
    alloc: Global,
    source: &mut T,
    cursor: &Option<(Bytes, u64)>,
) -> Result<Option<RowEntry>, SlateDBError>
    requires sound { T.sound source.old }
    requires readable { IsReadable (T.state source.old) }
    ensures ok { IfOk result
        (λ row. Takes 1 cursor.now (T.state source.old) (option_to_list row) (T.state source.new)) }
    ensures err { IfErr result (RefusesTaking 1 cursor.now (T.state source.old)) }
    ensures sound { T.sound source.new }
{
    'rows: while let Some(row) = source.next_row(alloc)? {
        if is_left(&row, cursor) {
            return Ok(Some(row));
        }
    }
    Ok(None)
}

/// The next rows that are left after the cursor, at most `most` of them.
pub(crate) fn take_rows<T: RowSource>(
    alloc: Global,
    source: &mut T,
    cursor: &Option<(Bytes, u64)>,
    most: u64,
) -> Result<Vec<RowEntry>, SlateDBError>
    requires sound { T.sound source.old }
    requires readable { IsReadable (T.state source.old) }
    ensures ok { IfOk result
        (λ rows. Takes most cursor.now (T.state source.old) rows.items (T.state source.new)) }
    ensures err { IfErr result (RefusesTaking most cursor.now (T.state source.old)) }
    ensures sound { T.sound source.new }
{
    let mut rows = Vec::new(alloc);
    'rows: while (rows.len() as u64) < most {
        match next_left(alloc, source, cursor)? {
            Some(row) => rows.push(row)?,
            None => return Ok(rows),
        }
    }
    Ok(rows)
}
