//! Gets of source tables.

ghost use Rattle.std.specs.Prelude.{◌≡◌, ◌++◌, [], ◌∷◌, IfOk, IsOkUnless, OnOk, IsTrue};
ghost use Rattle.fleet_model.specs.Store.{AreHeld, is_held};
ghost use Rattle.row_model.specs.Ranges.{is_after_start, is_before_end};
ghost use Rattle.fleet_range.specs.Keys.{range_of};
ghost use Rattle.fleet_output.specs.Gets.{GetsSource, GetsTables, ids_in, meets_range};

use fleet_exec::SourceSet;
use fleet_range::{ByteRangeBounds, BytesRange};
use fleet_rows::{IdList, SlateDBError, Ulid};
use fleet_store::Store;
use fleet_table::{RunData, TableData};
use fleet_tree::SsTableHandle;
use std::alloc::{AllocError, Global};
use std::ops::Bound;

// Whether the key is not before the start of the range.
fn is_after_start(range: &BytesRange, key: &[u8]) -> bool
    ensures { result ≡ is_after_start (range_of range.now).from key.now }
{
    match ByteRangeBounds::start_bound(range) {
        Bound::Included(start) => !start.cmp(key).is_gt(),
        Bound::Excluded(start) => start.cmp(key).is_lt(),
        Bound::Unbounded => true,
    }
}

// Whether the key is not after the end of the range.
fn is_before_end(range: &BytesRange, key: &[u8]) -> bool
    ensures { result ≡ is_before_end (range_of range.now).to key.now }
{
    match ByteRangeBounds::end_bound(range) {
        Bound::Included(end) => !key.cmp(end).is_gt(),
        Bound::Excluded(end) => key.cmp(end).is_lt(),
        Bound::Unbounded => true,
    }
}

// Whether the keys of the table, from its first to its last one, meet the range.
fn meets(table: &SsTableHandle, range: &BytesRange) -> bool
    ensures { result ≡ meets_range (range_of range.now) table.now }
{
    is_before_end(range, table.first_key.as_slice())
        && is_after_start(range, table.last_key.as_slice())
}

// Adds the id of the table, if its keys meet the range.
fn add_meeting(
    ids: &mut Vec<Ulid>,
    table: &SsTableHandle,
    range: &BytesRange,
) -> Result<(), AllocError>
    ensures { OnOk result (ids.new.items
        ≡ ids.old.items ++ ids_in (range_of range.now) (table.now ∷ [])) }
{
    if meets(table, range) {
        ids.push(table.id)?;
    }
    Ok(())
}

/// The ids of the tables whose keys meet the range, in order.
pub fn tables_in(
    alloc: Global,
    tables: &[SsTableHandle],
    range: &BytesRange,
) -> Result<IdList, SlateDBError>
    ensures ids { IfOk result (λ ids. ids ≡ ids_in (range_of range.now) tables.now) }
    ensures memory { IsOkUnless result SlateDBError.Memory }
{
    let mut ids = Vec::new(alloc);
    'tables: for table in tables {
        add_meeting(&mut ids, table, range)?;
    }
    Ok(IdList::from_vec(ids))
}

// A source of one table.
fn source_of(alloc: Global, table: TableData) -> Result<RunData, SlateDBError>
    ensures source { IfOk result (λ source. source ≡ table ∷ []) }
    ensures memory { IsOkUnless result SlateDBError.Memory }
{
    let mut source = RunData::new(alloc);
    source.push(table)?;
    Ok(source)
}

// Gets a table, as a source of its own.
fn get_source<S: Store>(alloc: Global, store: &mut S, id: Ulid) -> Result<RunData, SlateDBError>
    requires { IsTrue (is_held (S.view store.old).world.store id) }
    ensures { GetsSource id (S.view store.old) (S.view store.new) result }
{
    let Some(table) = store.get_table(id)? else {
        unreachable!();
    };
    let source = source_of(alloc, table)?;
    Ok(source)
}

/// Gets these tables in order. Each is a source of its own.
pub fn get_tables<S: Store>(
    alloc: Global,
    store: &mut S,
    ids: &[Ulid],
) -> Result<SourceSet, SlateDBError>
    requires held { AreHeld (S.view store.old).world.store ids.now }
    ensures { GetsTables ids.now (S.view store.old) (S.view store.new) result }
{
    let mut sources = SourceSet::new(alloc);
    'tables: for id in ids {
        let source = get_source(alloc, store, *id)?;
        sources.push(source)?;
    }
    Ok(sources)
}
