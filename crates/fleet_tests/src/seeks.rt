// Seeks among the rows of tables that have several blocks.

ghost use Rattle.row_model.specs.Rows.{IsStrictlyOrdered};

use crate::loads::{Load, row_at, table};
use fleet_iter::{RowEntryIterator, ordered_rows_rise};
use fleet_range::BytesRange;
use fleet_rows::{RowEntry, SlateDBError};
use fleet_table::TableData;
use std::alloc::Global;

// Takes so many rows of a table, seeks to a key, and takes one row more.
fn sought(
    alloc: Global,
    table: &TableData,
    taken: u64,
    key: u64,
) -> Result<Option<RowEntry>, SlateDBError>
    requires { IsStrictlyOrdered table.now }
{
    ordered_rows_rise();
    let range = BytesRange::unbounded();
    let mut rows = table.iter(&range);
    rows.init(alloc)?;
    'taken: for _ in 0..taken {
        let _ = rows.next(alloc)?;
    }
    let digits = format!(in alloc; "{key:04}")?;
    rows.seek(alloc, digits.as_bytes())?;
    rows.next(alloc)
}

// Whether each seek comes to the first row of its key that is left, after so many rows were taken.
fn seeks_from(
    alloc: Global,
    load: Load,
    table: &TableData,
    taken: u64,
) -> Result<bool, SlateDBError>
    requires { IsStrictlyOrdered table.now }
{
    'keys: for key in 0..load.keys {
        let place = taken.max(key.saturating_mul(load.versions));
        if sought(alloc, table, taken, key)? != row_at(alloc, load, place)? {
            return Ok(false);
        }
    }
    Ok(sought(alloc, table, taken, load.keys)?.is_none())
}

// Whether seeks come to the right rows, after each of these numbers of rows was taken.
fn seeks(alloc: Global, load: Load, taken: &[u64]) -> Result<bool, SlateDBError> {
    let table = table(alloc, load, 0, load.keys)?;
    'taken: for taken in taken {
        if !seeks_from(alloc, load, &table, *taken)? {
            return Ok(false);
        }
    }
    Ok(true)
}

// A block has 37 rows.
#[test]
fn seeks_in_blocks(rt: HostRuntime) {
    let load = Load {
        keys: 100,
        versions: 1,
        len: 100,
    };
    let taken = [0, 1, 2, 36, 37, 38, 39, 49, 50, 51, 86, 87, 88, 99, 100];
    assert!(rt; seeks(rt.alloc(), load, &taken).expect(&rt, "memory"));
}

// A block has 128 rows, so a key has the rows of more than two blocks.
#[test]
fn seeks_past_many_versions(rt: HostRuntime) {
    let load = Load {
        keys: 4,
        versions: 300,
        len: 20,
    };
    let taken = [
        0, 1, 127, 128, 129, 299, 300, 301, 599, 600, 601, 1_199, 1_200,
    ];
    assert!(rt; seeks(rt.alloc(), load, &taken).expect(&rt, "memory"));
}

// A block has 342 rows.
#[test]
fn seeks_among_values_of_no_bytes(rt: HostRuntime) {
    let load = Load {
        keys: 20,
        versions: 40,
        len: 0,
    };
    let taken = [0, 1, 40, 341, 342, 343, 344, 399, 400, 401, 742, 799, 800];
    assert!(rt; seeks(rt.alloc(), load, &taken).expect(&rt, "memory"));
}

// Each row has a block of its own, since it is greater than a block must be.
#[test]
fn seeks_among_great_values(rt: HostRuntime) {
    let load = Load {
        keys: 4,
        versions: 2,
        len: 5_000,
    };
    assert!(rt; seeks(rt.alloc(), load, &[0, 1, 2, 3, 4, 5, 7, 8]).expect(&rt, "memory"));
}
