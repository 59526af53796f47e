//! The tables of a run, and an iterator over their rows.

ghost use Rattle.std.specs.Prelude.{◌≡◌, ◌++◌, false, [], ◌∷◌, OnOk, OnErr, IsOkUnless, ⊤};
ghost use Rattle.fleet_table.specs.Run.{rows_of_tables};
ghost use Rattle.fleet_iter.specs.Iteration.{from_key};
ghost use Rattle.fleet_range.specs.Keys.{range_of};
ghost use Rattle.fleet_table.specs.Iterator.{state_of};

use crate::{TableData, TableIterator};
use fleet_iter::RowEntryIterator;
use fleet_range::BytesRange;
use fleet_rows::{RowEntry, SlateDBError};
use fleet_tree::SharedList;
use std::alloc::Global;
use std::marker::Model;

/// The tables of a run, in order. Contracts see a list with the rows of each table.
#[derive(Debug, Drop)]
pub struct RunData {
    tables: SharedList<TableData>,
}

impl Model for RunData {
    ghost use Rattle.std.specs.Prelude.{List};
    ghost use Rattle.row_model.specs.Rows.{Row};

    ghost Value = { List (List Row) };

    ghost view = { λ r. r.tables };
}

impl RunData {
    /// A run without tables.
    pub fn new(alloc: Global) -> RunData
        ensures { result ≡ [] }
    {
        RunData {
            tables: SharedList::new(alloc),
        }
    }

    /// Adds a table at the end. If out of memory, the table is dropped.
    pub fn push(&mut self, table: TableData) -> Result<(), SlateDBError>
        ensures ok { OnOk result (self.new ≡ self.old ++ table ∷ []) }
        ensures err { OnErr result (self.new ≡ self.old) }
        ensures memory { IsOkUnless result SlateDBError.Memory }
    {
        self.tables.push(table)
    }

    /// The tables, in the order in which they were added.
    pub fn tables(&self) -> &[TableData]
        ensures { result.now ≡ self.now }
    {
        self.tables.as_slice()
    }
}

/// An iterator over the rows of a run that lie in a range of keys. Contracts see the rows left and
/// whether the iterator failed.
#[derive(Debug, Drop)]
pub struct RunIterator<'a> {
    current: TableIterator<'a>,
    later: &'a [TableData],
    range: &'a BytesRange,
    // Whether other threads may read other rows of the run at once.
    shared: bool,
}

impl<'a> Model for RunIterator<'a> {
    ghost use Rattle.std.specs.Prelude.{◌++◌};
    ghost use Rattle.fleet_table.specs.Run.{rows_of_tables};
    ghost use Rattle.fleet_range.specs.Keys.{range_of};
    ghost use Rattle.fleet_table.specs.Iterator.{RowsLeft};

    ghost Value = { RowsLeft };

    ghost view = { λ r. record {
      left = r.current.left
          ++ rows_of_tables (range_of r.range.now) r.later.now;
      broken = r.current.broken;
    } };
}

impl<'a> RunIterator<'a> {
    /// An iterator over the run's tables in turn. It gives the rows whose keys lie in the range.
    pub fn new(run: &'a RunData, range: &'a BytesRange) -> RunIterator<'a>
        ensures { result
            ≡ record { left = rows_of_tables (range_of range.now) run.now; broken = false } }
    {
        RunIterator::over(run, range, false)
    }

    /// What `new` gives. `shared` tells whether other threads may read other rows of the run at once.
    /// Then the rows of a table that is not all in the range lie in copies of its blocks, so that no
    /// thread slows down another.
    pub fn over(run: &'a RunData, range: &'a BytesRange, shared: bool) -> RunIterator<'a>
        ensures { result
            ≡ record { left = rows_of_tables (range_of range.now) run.now; broken = false } }
    {
        RunIterator {
            current: TableIterator::ended(),
            later: run.tables(),
            range,
            shared,
        }
    }
}

impl RowEntryIterator for RunIterator<'_> {
    ghost state = { state_of };

    ghost sound = { λ _. ⊤ };

    fn init(&mut self, alloc: Global) -> Result<(), SlateDBError> {
        self.current.init(alloc)
    }

    fn next(&mut self, alloc: Global) -> Result<Option<RowEntry>, SlateDBError> {
        to_next_table(&mut self.current, &mut self.later, self.range, self.shared);
        self.current.next(alloc)
    }

    fn seek(&mut self, _alloc: Global, next_key: &[u8]) -> Result<(), SlateDBError> {
        if self.current.has_failed() {
            return Err(SlateDBError::IteratorFailed);
        }
        seek_tables(
            &mut self.current,
            &mut self.later,
            self.range,
            self.shared,
            next_key,
        );
        Ok(())
    }
}

// If the current table has ended, moves on to the next table that has rows in the range.
fn to_next_table<'a>(
    current: &mut TableIterator<'a>,
    later: &mut &'a [TableData],
    range: &BytesRange,
    shared: bool,
)
    ensures rows { current.new.left ++ rows_of_tables (range_of range.now) later.new.now
        ≡ current.old.left ++ rows_of_tables (range_of range.now) later.old.now }
    ensures broken { current.new.broken ≡ current.old.broken }
    ensures last { current.new.left ≡ [] → current.new.broken ≡ false → later.new.now ≡ [] }
{
    'tables: while current.has_ended()
        && let [table, rest @ ..] = *later
    {
        *current = table.iter_in(range, shared);
        *later = rest;
    }
}

// Drops rows at the front, table by table, while their keys are below this key.
fn seek_tables<'a>(
    current: &mut TableIterator<'a>,
    later: &mut &'a [TableData],
    range: &BytesRange,
    shared: bool,
    key: &[u8],
)
    requires { current.old.broken ≡ false }
    ensures rows { current.new.left ++ rows_of_tables (range_of range.now) later.new.now
        ≡ from_key key.now (current.old.left ++ rows_of_tables (range_of range.now) later.old.now) }
    ensures broken { current.new.broken ≡ false }
{
    current.skip_to(key);
    'tables: while current.has_ended()
        && let [table, rest @ ..] = *later
    {
        *current = table.iter_in(range, shared);
        current.skip_to(key);
        *later = rest;
    }
}
