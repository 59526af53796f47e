//! Retention, one key at a time.

ghost use Rattle.std.specs.Prelude.{◌≡◌, ◌≢◌, ◌++◌, ◌&&◌, not, List, reverse, false, [], None, OnOk, IfOk, IfErr};
ghost use Rattle.std.specs.Option.{option_to_list};
ghost use Rattle.fleet_iter.specs.Iteration.{IteratorState, Inits, Nexts, Seeks, HandsOn, AreRising, from_key};
ghost use Rattle.fleet_rows.specs.Row.{row_of, rows_of};
ghost use Rattle.fleet_rows.specs.Settings.{settings_of};
ghost use Rattle.fleet_fold.specs.Retention.{kept_given, retained_state, Knows, joins, IsReadable, ReadsOn, Begins, RefusesBeginning, ReadsKey, RefusesKey, Fills, RefusesFill, ends_walk};
ghost use Rattle.fleet_iter.specs.Merge.{head_passes};
ghost use Rattle.row_model.specs.Rows.{same_key, is_expired, is_tombstone};
ghost use Rattle.fleet_fold.specs.State.{state_of, IsSound, Sought};

use crate::keeping::{are_same, is_kept_alone, kept_rows};
use fleet_iter::{Failure, RowEntryIterator, RowSource, TrackedRowEntryIterator};
use fleet_rows::{RowEntry, Settings, SlateDBError};
use std::alloc::Global;
use std::cmp::Ordering;
use std::mem;

/// An iterator over the rows that retention keeps of an inner iterator's rows, key after key.
#[derive(Drop)]
pub struct RetentionIterator<T: RowEntryIterator> {
    inner: T,
    settings: Settings,
    // The kept rows of a key, in reverse: the next row is the last element.
    buffer: Vec<RowEntry>,
    // The first row of the next key, if it was read ahead.
    ahead: Option<RowEntry>,
    failure: Failure,
}

impl<T: RowEntryIterator> RetentionIterator<T> {
    /// Makes an iterator over the rows that retention keeps of those that `inner` has left.
    pub fn new(alloc: Global, inner: T, settings: Settings) -> Self
        requires sound { T.sound inner }
        requires alive { (T.state inner).failure ≡ None }
        requires rising { AreRising (T.state inner).rows }
        ensures rows { state_of T.state result ≡ record (T.state inner) {
          rows = kept_given
              (settings_of settings) (T.state inner).whole (T.state inner).rows;
        } }
        ensures sound { IsSound T.sound T.state result }
        ensures rising { AreRising (state_of T.state result).rows }
    {
        RetentionIterator {
            inner,
            settings,
            buffer: Vec::new(alloc),
            ahead: None,
            failure: Failure::new(),
        }
    }
}

fn has_key(rows: &[RowEntry], row: &RowEntry) -> bool
    ensures { result ≡ joins (rows_of rows.now) (row_of row.now) }
{
    match rows {
        [] => true,
        [first, ..] => are_same(&first.key, &row.key),
    }
}

// Reads a row ahead, unless one was read already or kept rows are left. This shows whether the
// inner iterator is initialised.
fn begin<T: RowSource>(
    alloc: Global,
    inner: &mut T,
    buffer: &[RowEntry],
    ahead: &mut Option<RowEntry>,
) -> Result<(), SlateDBError>
    requires sound { T.sound inner.old }
    requires reads { ReadsOn (reverse buffer.now) ahead.old (T.state inner.old) }
    ensures ok { OnOk result (Begins ahead.old (T.state inner.old) ahead.new (T.state inner.new)) }
    ensures err { IfErr result (RefusesBeginning
        (reverse buffer.now) ahead.old (T.state inner.old) ahead.new (T.state inner.new)) }
    ensures sound { T.sound inner.new }
{
    if !buffer.is_empty() || ahead.is_some() {
        return Ok(());
    }
    *ahead = inner.next_row(alloc)?;
    Ok(())
}

// Takes the rows of the next key, or none at the end. It reads the first row after them ahead. The
// rows come in the memory of `room`, whose own rows are dropped.
fn read_key<T: RowSource>(
    alloc: Global,
    inner: &mut T,
    ahead: &mut Option<RowEntry>,
    room: Vec<RowEntry>,
) -> Result<Vec<RowEntry>, SlateDBError>
    requires sound { T.sound inner.old }
    requires readable { IsReadable (T.state inner.old) }
    ensures ok { IfOk result
        (λ rows. ReadsKey ahead.old (T.state inner.old) rows.items ahead.new (T.state inner.new)) }
    ensures err { IfErr result (RefusesKey ahead.old (T.state inner.old) (T.state inner.new)) }
    ensures sound { T.sound inner.new }
{
    let mut rows = room;
    rows.clear();
    if let Some(row) = ahead.take() {
        rows.push(row)?;
    }
    'rows: while let Some(row) = inner.next_row(alloc)? {
        if has_key(&rows, &row) {
            rows.push(row)?;
        } else {
            *ahead = Some(row);
            return Ok(rows);
        }
    }
    Ok(rows)
}

// Reads and keeps one key after the other, until some rows are kept or none are left to read.
fn fill<T: RowSource>(
    alloc: Global,
    settings: Settings,
    inner: &mut T,
    buffer: &mut Vec<RowEntry>,
    ahead: &mut Option<RowEntry>,
) -> Result<(), SlateDBError>
    requires sound { T.sound inner.old }
    requires readable { IsReadable (T.state inner.old) }
    ensures ok { OnOk result (Fills (settings_of settings) (reverse buffer.old.items) ahead.old
        (T.state inner.old) (reverse buffer.new.items) ahead.new (T.state inner.new)) }
    ensures err { IfErr result (RefusesFill (settings_of settings)
        (reverse buffer.old.items) ahead.old (T.state inner.old) (T.state inner.new)) }
    ensures sound { T.sound inner.new }
{
    'keys: while buffer.is_empty() {
        let room = mem::replace(buffer, Vec::new(alloc));
        let rows = read_key(alloc, inner, ahead, room)?;
        if rows.is_empty() {
            return Ok(());
        }
        let mut kept = kept_rows(alloc, settings, rows)?;
        kept.reverse();
        *buffer = kept;
    }
    Ok(())
}

// Drops the rows below a key from the buffer, whose last element is the next row.
fn drop_below(buffer: &mut Vec<RowEntry>, key: &[u8])
    ensures { rows_of (reverse buffer.new.items)
        ≡ from_key key.now (rows_of (reverse buffer.old.items)) }
{
    'below: while let Some(row) = buffer.last()
        && row.key.as_slice().cmp(key) == Ordering::Less
    {
        buffer.pop();
    }
}

/// Drops the row that was read ahead, if it is below the key.
pub(crate) fn drop_if_below(ahead: &mut Option<RowEntry>, key: &[u8])
    ensures { rows_of (option_to_list ahead.new)
        ≡ from_key key.now (rows_of (option_to_list ahead.old)) }
{
    if let Some(row) = ahead
        && row.key.as_slice().cmp(key) == Ordering::Less
    {
        *ahead = None;
    }
}

// Whether a row was read ahead that retention keeps of its key as it is, and no older row.
#[inline]
fn stands_alone(settings: Settings, ahead: &Option<RowEntry>) -> bool
    ensures { result ≡ head_passes (λ row. (ends_walk (settings_of settings).cut row
        && not (is_expired row (settings_of settings).tick))
        && not ((settings_of settings).last_run && is_tombstone row.content)) ahead.now }
{
    match ahead {
        Some(row) => is_kept_alone(settings, row),
        None => false,
    }
}

// Whether the key of the row that was read ahead ends before this row, or there is no row.
#[inline]
fn ends_key(ahead: &Option<RowEntry>, row: &Option<RowEntry>) -> bool
    ensures { result
        ≡ not (head_passes (λ r. head_passes (λ first. same_key first r) ahead.now) row.now) }
{
    match row {
        Some(row) => match ahead {
            Some(first) => !are_same(&first.key, &row.key),
            None => true,
        },
        None => true,
    }
}

// Takes the row that was read ahead, and drops the other rows of its key. It reads the first row
// after them ahead.
#[inline]
fn pass_key<T: RowSource>(
    alloc: Global,
    inner: &mut T,
    ahead: &mut Option<RowEntry>,
) -> Result<Option<RowEntry>, SlateDBError>
    requires sound { T.sound inner.old }
    requires readable { IsReadable (T.state inner.old) }
    requires some { ahead.old ≢ None }
    ensures first { IfOk result (λ row. row ≡ ahead.old) }
    ensures ok { IfOk result (λ _. (others : List RowEntry) × ReadsKey ahead.old
        (T.state inner.old) (option_to_list ahead.old ++ others) ahead.new (T.state inner.new)) }
    ensures err { IfErr result (RefusesKey ahead.old (T.state inner.old) (T.state inner.new)) }
    ensures sound { T.sound inner.new }
{
    'rows: loop {
        let row = inner.next_row(alloc)?;
        if ends_key(ahead, &row) {
            return Ok(mem::replace(ahead, row));
        }
        drop(row);
    }
}

// The next row of an iterator with these parts. It is kept in the buffer, or keys are read until
// rows are kept.
#[inline(never)]
fn next_filled<T: RowSource>(
    alloc: Global,
    settings: Settings,
    inner: &mut T,
    buffer: &mut Vec<RowEntry>,
    ahead: &mut Option<RowEntry>,
    failure: &mut Failure,
) -> Result<Option<RowEntry>, SlateDBError>
    requires sound { T.sound inner.old }
    requires knows { Knows
        failure.old (reverse buffer.old.items) ahead.old (T.state inner.old) }
    ensures next { Nexts
        (retained_state failure.old (settings_of settings)
        (reverse buffer.old.items) ahead.old (T.state inner.old))
        (retained_state failure.new (settings_of settings)
        (reverse buffer.new.items) ahead.new (T.state inner.new)) result }
    ensures handed { HandsOn (retained_state failure.old (settings_of settings)
        (reverse buffer.old.items) ahead.old (T.state inner.old)) (T.state inner.new) result }
    ensures knows { Knows
        failure.new (reverse buffer.new.items) ahead.new (T.state inner.new) }
    ensures sound { T.sound inner.new }
{
    failure.check()?;
    if let Err(error) = begin(alloc, inner, buffer, ahead) {
        return Err(failure.fail(error));
    }
    match fill(alloc, settings, inner, buffer, ahead) {
        Ok(()) => Ok(buffer.pop()),
        Err(error) => Err(failure.fail(error)),
    }
}

// The next row of an iterator with these parts. If a row was read ahead that alone is kept of its
// key, it is handed on as it is.
#[inline]
fn next_kept<T: RowSource>(
    alloc: Global,
    settings: Settings,
    inner: &mut T,
    buffer: &mut Vec<RowEntry>,
    ahead: &mut Option<RowEntry>,
    failure: &mut Failure,
) -> Result<Option<RowEntry>, SlateDBError>
    requires sound { T.sound inner.old }
    requires knows { Knows
        failure.old (reverse buffer.old.items) ahead.old (T.state inner.old) }
    ensures next { Nexts
        (retained_state failure.old (settings_of settings)
        (reverse buffer.old.items) ahead.old (T.state inner.old))
        (retained_state failure.new (settings_of settings)
        (reverse buffer.new.items) ahead.new (T.state inner.new)) result }
    ensures handed { HandsOn (retained_state failure.old (settings_of settings)
        (reverse buffer.old.items) ahead.old (T.state inner.old)) (T.state inner.new) result }
    ensures knows { Knows
        failure.new (reverse buffer.new.items) ahead.new (T.state inner.new) }
    ensures sound { T.sound inner.new }
{
    failure.check()?;
    if !buffer.is_empty() || !stands_alone(settings, ahead) {
        return next_filled(alloc, settings, inner, buffer, ahead, failure);
    }
    match pass_key(alloc, inner, ahead) {
        Ok(row) => Ok(row),
        Err(error) => Err(failure.fail(error)),
    }
}

impl<T: RowEntryIterator> RowEntryIterator for RetentionIterator<T> {
    ghost state = { state_of T.state };

    ghost sound = { IsSound T.sound T.state };

    ghost sought = { Sought T.state T.sought };

    ghost processed = { λ r. T.processed r.inner };

    fn init(&mut self, alloc: Global) -> Result<(), SlateDBError>
        requires { IsSound T.sound T.state self.old }
        ensures init { Inits (state_of T.state self.old) (state_of T.state self.new) result }
        ensures handed { HandsOn (state_of T.state self.old) (T.state self.new.inner) result }
        ensures sound { IsSound T.sound T.state self.new }
    {
        self.failure.check()?;
        match self.inner.init(alloc) {
            Ok(()) => Ok(()),
            Err(error) => Err(self.failure.fail(error)),
        }
    }

    fn next(&mut self, alloc: Global) -> Result<Option<RowEntry>, SlateDBError>
        requires { IsSound T.sound T.state self.old }
        ensures next { Nexts (state_of T.state self.old) (state_of T.state self.new) result }
        ensures handed { HandsOn (state_of T.state self.old) (T.state self.new.inner) result }
        ensures sound { IsSound T.sound T.state self.new }
    {
        let settings = self.settings;
        next_kept(
            alloc,
            settings,
            &mut self.inner,
            &mut self.buffer,
            &mut self.ahead,
            &mut self.failure,
        )
    }

    fn seek(&mut self, alloc: Global, next_key: &[u8]) -> Result<(), SlateDBError>
        requires sound { IsSound T.sound T.state self.old }
        requires rising { AreRising (state_of T.state self.old).rows }
        ensures seek { Seeks next_key.now
            (state_of T.state self.old) (state_of T.state self.new) result }
        ensures sought { OnOk result
            (Sought T.state T.sought self.old next_key.now (state_of T.state self.new)) }
        ensures uncounted { T.processed self.new.inner ≡ T.processed self.old.inner }
        ensures handed { HandsOn (state_of T.state self.old) (T.state self.new.inner) result }
        ensures sound { IsSound T.sound T.state self.new }
    {
        self.failure.check()?;
        drop_below(&mut self.buffer, next_key);
        if !self.buffer.is_empty() {
            return Ok(());
        }
        drop_if_below(&mut self.ahead, next_key);
        if self.ahead.is_some() {
            return Ok(());
        }
        match self.inner.seek(alloc, next_key) {
            Ok(()) => Ok(()),
            Err(error) => Err(self.failure.fail(error)),
        }
    }
}

impl<T: TrackedRowEntryIterator> TrackedRowEntryIterator for RetentionIterator<T> {
    fn bytes_processed(&self) -> u64 {
        self.inner.bytes_processed()
    }
}
