//! Iterators that resume after a cursor.

ghost use Rattle.std.specs.Prelude.{◌≡◌, ◌≢◌, None, Some, true, OnOk, IfOk, IfErr};
ghost use Rattle.std.specs.Option.{option_copied};
ghost use Rattle.fleet_rows.specs.Row.{row_of};
ghost use Rattle.fleet_iter.specs.Iteration.{Inits, Nexts, Seeks, CanFail, AreRising, without_first, is_exact};
ghost use Rattle.fleet_iter.specs.Peek.{ahead, HasBegun};
ghost use Rattle.fleet_iter.specs.Resume.{is_written, InnerFails, Resumes, ResumesBy, ResumesAfter};
ghost use Rattle.fleet_iter.specs.ResumeState.{state_of, IsSound, Sought};

use crate::{PeekingIterator, RowEntryIterator, RowSource, TrackedRowEntryIterator};
use bytes::Bytes;
use fleet_rows::{RowEntry, SlateDBError};
use std::alloc::Global;

/// Whether a row is written already after a cursor with this key and this sequence: it has the key,
/// and its sequence is at least `seq`.
#[inline]
pub fn is_written(row: &RowEntry, key: &Bytes, seq: u64) -> bool
    ensures { result ≡ is_written (key.now, seq) (row_of row.now) }
{
    row.key == *key && seq <= row.seq
}

// Takes rows up to the first one that is not written yet, and gives that row. None if there is
// none.
fn first_unwritten<T: RowSource>(
    alloc: Global,
    source: &mut T,
    key: &Bytes,
    seq: u64,
) -> Result<Option<RowEntry>, SlateDBError>
    requires sound { T.sound source.old }
    requires alive { (T.state source.old).failure ≡ None }
    requires initialised { (T.state source.old).initialised ≡ true }
    ensures rows { IfOk result (λ row. ahead row (T.state source.new) ≡ record (T.state source.old)
        { rows = without_first (is_written (key.now, seq)) (T.state source.old).rows }) }
    ensures begun { IfOk result (λ row. HasBegun row (T.state source.new)) }
    ensures err { IfErr result (CanFail (T.state source.old).whole) }
    ensures failed { IfErr result (λ e. (T.state source.new).failure ≡ Some e) }
    ensures sound { T.sound source.new }
{
    'rows: while let Some(row) = source.next_row(alloc)? {
        if !is_written(&row, key, seq) {
            return Ok(Some(row));
        }
    }
    Ok(None)
}

// Takes rows up to the first one after the cursor, and gives that row. Without a cursor it takes
// none.
fn first_after<T: RowSource>(
    alloc: Global,
    source: &mut T,
    cursor: &Option<(Bytes, u64)>,
) -> Result<Option<RowEntry>, SlateDBError>
    requires sound { T.sound source.old }
    requires alive { (T.state source.old).failure ≡ None }
    requires initialised { (T.state source.old).initialised ≡ true }
    requires rising { AreRising (T.state source.old).rows }
    ensures rows { IfOk result (λ row. Resumes (is_exact (T.state source.old)) cursor.now
        (T.state source.old) (ahead row (T.state source.new))) }
    ensures sought { IfOk result (λ row. ResumesBy
        (T.sought source.old) cursor.now (T.state source.old) (ahead row (T.state source.new))) }
    ensures begun { IfOk result (λ row. HasBegun row (T.state source.new)) }
    ensures err { IfErr result (CanFail (is_exact (T.state source.old))) }
    ensures failed { IfErr result (λ e. (T.state source.new).failure ≡ Some e) }
    ensures cursor { IfErr result (λ _. cursor.now ≢ None) }
    ensures sound { T.sound source.new }
{
    match cursor {
        Some((key, seq)) => {
            source.seek_row(alloc, key.as_slice())?;
            let row = first_unwritten(alloc, source, key, *seq)?;
            Ok(row)
        }
        None => Ok(None),
    }
}

/// An iterator that resumes after a cursor, which is the key and the sequence of the row that was
/// written last.
#[derive(Drop)]
pub struct ResumingIterator<T: RowEntryIterator> {
    inner: PeekingIterator<T>,
    start: Option<(Bytes, u64)>,
}

impl<T: RowEntryIterator> ResumingIterator<T> {
    /// Makes an iterator of the rows from the cursor's key on, without the first rows of that key
    /// whose sequence is at least the cursor's. Without a cursor it gives all rows. It is refused
    /// exactly if the inner iterator fails in this call, and then with the error of that failure.
    pub fn new(
        alloc: Global,
        iterator: T,
        resume_cursor: Option<(Bytes, u64)>,
    ) -> Result<Self, SlateDBError>
        requires sound { T.sound iterator }
        requires alive { (T.state iterator).failure ≡ None }
        requires initialised { (T.state iterator).initialised ≡ true }
        requires rising { AreRising (T.state iterator).rows }
        ensures rows { IfOk result (λ r. Resumes
            (is_exact (T.state iterator)) resume_cursor (T.state iterator) (state_of T.state r)) }
        ensures sought { IfOk result (λ r.
            ResumesBy (T.sought iterator) resume_cursor (T.state iterator) (state_of T.state r)) }
        ensures start { IfOk result (λ r. r.start ≡ resume_cursor) }
        ensures sound { IfOk result (λ r. IsSound T.sound T.state r) }
        ensures err { IfErr result (CanFail (is_exact (T.state iterator))) }
        ensures failed { IfErr result (InnerFails T.sound T.state resume_cursor) }
    {
        let mut source = iterator;
        let peeked = first_after(alloc, &mut source, &resume_cursor)?;
        let inner = PeekingIterator {
            inner: source,
            peeked,
        };
        Ok(ResumingIterator {
            inner,
            start: resume_cursor,
        })
    }

    /// The cursor after which the iterator resumes, if there is one.
    pub fn start(&self) -> Option<&(Bytes, u64)>
        ensures { option_copied result ≡ self.now.start }
    {
        self.start.as_ref()
    }
}

impl<T: RowEntryIterator> RowEntryIterator for ResumingIterator<T> {
    ghost state = { state_of T.state };

    ghost sound = { IsSound T.sound T.state };

    ghost sought = { Sought T.state T.sought };

    ghost processed = { λ a. T.processed a.inner.inner };

    fn init(&mut self, alloc: Global) -> Result<(), SlateDBError>
        requires { IsSound T.sound T.state self.old }
        ensures init { Inits (state_of T.state self.old) (state_of T.state self.new) result }
        ensures start { self.new.start ≡ self.old.start }
        ensures sound { IsSound T.sound T.state self.new }
    {
        self.inner.init(alloc)
    }

    fn next(&mut self, alloc: Global) -> Result<Option<RowEntry>, SlateDBError>
        requires { IsSound T.sound T.state self.old }
        ensures next { Nexts (state_of T.state self.old) (state_of T.state self.new) result }
        ensures start { self.new.start ≡ self.old.start }
        ensures sound { IsSound T.sound T.state self.new }
    {
        self.inner.next(alloc)
    }

    fn seek(&mut self, alloc: Global, next_key: &[u8]) -> Result<(), SlateDBError>
        requires sound { IsSound T.sound T.state self.old }
        requires rising { AreRising (state_of T.state self.old).rows }
        ensures seek { Seeks next_key.now
            (state_of T.state self.old) (state_of T.state self.new) result }
        ensures sought { OnOk result
            (Sought T.state T.sought self.old next_key.now (state_of T.state self.new)) }
        ensures uncounted { T.processed self.new.inner.inner ≡ T.processed self.old.inner.inner }
        ensures start { self.new.start ≡ self.old.start }
        ensures sound { IsSound T.sound T.state self.new }
    {
        self.inner.seek(alloc, next_key)
    }
}

impl<T: TrackedRowEntryIterator> TrackedRowEntryIterator for ResumingIterator<T> {
    fn bytes_processed(&self) -> u64 {
        self.inner.bytes_processed()
    }
}

/// Of strictly ordered rows, those after a cursor are exactly the rows from its key on that are not
/// written yet.
pub fn resumes_after()
    ensures { ResumesAfter }
{}
