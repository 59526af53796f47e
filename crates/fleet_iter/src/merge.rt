//! Merges, which give the rows of several iterators in order.

ghost use Rattle.std.specs.Prelude.{◌≡◌, ◌≢◌, ◌++◌, map, true, false, [], Some, None, IfOk, IfErr, OnOk};
ghost use Rattle.std.specs.List.{AllByRecursion};
ghost use Rattle.row_laws.specs.Keys.{is_below};
ghost use Rattle.fleet_rows.specs.Row.{row_of};
ghost use Rattle.fleet_iter.specs.Iteration.{IteratorState, Inits, Nexts, Seeks, CanFail, AreRising, from_key, is_exact, without_first};
ghost use Rattle.fleet_iter.specs.declared.iterator.IterationOrder.TheVariants as in_order;
ghost use Rattle.fleet_iter.specs.Merge.{cmp_in, has_key, begins_with, SkipsKey, hides, head_passes, AllTaken, Takes, Drops, NextGives, Skips, SkipsTo, NextGivesFrom, is_known, Begins, LeavesFrom, NoneFailed, IsHandedOn, starting, merged_lists, merged_left, rows_left, given_rows, are_whole, are_exact, MergesSort, MergesRise};
ghost use Rattle.fleet_iter.specs.Tracked.{row_bytes, first_bytes, kept_back, counted_bytes, taken_at_once};
ghost use Rattle.fleet_iter.specs.MergeState.{state_of, merge_of, IsSound};

use crate::heads::Heads;
use crate::tracked_bytes::row_bytes;
use crate::{Failure, IterationOrder, RowEntryIterator, RowSource, TrackedRowEntryIterator};
use fleet_rows::{RowEntry, SlateDBError, ValueDeletable, row_order};
use std::alloc::Global;
use std::cmp::Ordering;
use std::mem;

/// Compares rows by key in an iteration order, and rows of one key by falling sequence.
#[inline]
pub(crate) fn compare(order: IterationOrder, row: &RowEntry, other: &RowEntry) -> Ordering
    ensures { result ≡ cmp_in order (row_of row.now) (row_of other.now) }
{
    match order {
        IterationOrder::Ascending => row_order(row, other),
        IterationOrder::Descending => falling_order(row, other),
    }
}

// Compares rows by falling key, and rows of one key by falling sequence. It stays out of line, so
// that ascending merges need no room for it.
#[inline(never)]
fn falling_order(row: &RowEntry, other: &RowEntry) -> Ordering
    ensures { result ≡ cmp_in in_order.Descending (row_of row.now) (row_of other.now) }
{
    other.key.cmp(&row.key).then(other.seq.cmp(&row.seq))
}

// Whether a row hides a later one: both have the same key, and the first one is no operand.
pub(crate) fn hides(row: &RowEntry, other: &RowEntry) -> bool
    ensures { result ≡ hides (row_of row.now) (row_of other.now) }
{
    !matches!(row.value, ValueDeletable::Merge(_)) && row.key == other.key
}

// Takes the least head, and reads the next row of its source as its new head.
#[inline(always)]
fn take_least<T: RowSource>(
    alloc: Global,
    sources: &mut Vec<T>,
    heads: &mut Heads,
) -> Result<Option<RowEntry>, SlateDBError>
    requires taken { AllTaken heads.old.rows (map T.state sources.old.items) }
    requires sound { AllByRecursion T.sound sources.old.items }
    ensures ok { IfOk result (Takes heads.old.order false heads.old.rows
        (map T.state sources.old.items) heads.new.rows (map T.state sources.new.items)) }
    ensures err { IfErr result (CanFail (are_whole (map T.state sources.old.items))) }
    ensures handed { IfErr result (IsHandedOn (map T.state sources.new.items)) }
    ensures order { heads.new.order ≡ heads.old.order }
    ensures sound { AllByRecursion T.sound sources.new.items }
{
    let Some((place, _)) = heads.least() else {
        return Ok(None);
    };
    let mut head = sources[place].next_row(alloc)?;
    heads.swap_least(&mut head);
    Ok(head)
}

// Initialises a source and takes its first row.
fn first_row<T: RowSource>(alloc: Global, source: &mut T) -> Result<Option<RowEntry>, SlateDBError>
    requires sound { T.sound source.old }
    requires alive { (T.state source.old).failure ≡ None }
    ensures ok { IfOk result (NextGives (T.state source.old) (T.state source.new)) }
    ensures err { IfErr result (CanFail (T.state source.old).whole) }
    ensures handed { IfErr result (λ e. (T.state source.new).failure ≡ Some e) }
    ensures sound { T.sound source.new }
{
    source.init_source(alloc)?;
    source.next_row(alloc)
}

// Initialises each source and takes its first row as its head.
fn take_heads<T: RowSource>(
    alloc: Global,
    sources: &mut Vec<T>,
    heads: &mut Heads,
) -> Result<(), SlateDBError>
    requires none { heads.old.rows ≡ [] }
    requires alive { NoneFailed (map T.state sources.old.items) }
    requires sound { AllByRecursion T.sound sources.old.items }
    ensures ok { OnOk result
        (Begins (map T.state sources.old.items) heads.new.rows (map T.state sources.new.items)) }
    ensures err { IfErr result (CanFail (are_whole (map T.state sources.old.items))) }
    ensures handed { IfErr result (IsHandedOn (map T.state sources.new.items)) }
    ensures order { heads.new.order ≡ heads.old.order }
    ensures sound { AllByRecursion T.sound sources.new.items }
{
    'sources: for i in 0..sources.len() {
        let head = first_row(alloc, &mut sources[i])?;
        heads.push(head)?;
    }
    Ok(())
}

// Drops the least head, and answers the bytes of its key and value. It answers 0 if there is no
// head.
fn drop_least<T: RowSource>(
    alloc: Global,
    sources: &mut Vec<T>,
    heads: &mut Heads,
) -> Result<u64, SlateDBError>
    requires taken { AllTaken heads.old.rows (map T.state sources.old.items) }
    requires sound { AllByRecursion T.sound sources.old.items }
    ensures ok { IfOk result (λ _. Drops heads.old.order heads.old.rows
        (map T.state sources.old.items) heads.new.rows (map T.state sources.new.items)) }
    ensures bytes { IfOk result (λ bytes. bytes
        ≡ first_bytes
        (merged_left heads.old.order heads.old.rows (map T.state sources.old.items))) }
    ensures err { IfErr result (CanFail (are_whole (map T.state sources.old.items))) }
    ensures handed { IfErr result (IsHandedOn (map T.state sources.new.items)) }
    ensures order { heads.new.order ≡ heads.old.order }
    ensures sound { AllByRecursion T.sound sources.new.items }
{
    match take_least(alloc, sources, heads)? {
        Some(row) => Ok(row_bytes(&row)),
        None => Ok(0),
    }
}

// Whether a head is there and is below a key.
fn is_head_below(head: &Option<RowEntry>, key: &[u8]) -> bool
    ensures { result ≡ head_passes (is_below key.now) head.now }
{
    match head {
        Some(row) => row.key.as_slice().cmp(key) == Ordering::Less,
        None => false,
    }
}

// Takes a source's first row that is not below a key. It seeks the source to the key.
fn first_sought<T: RowSource>(
    alloc: Global,
    source: &mut T,
    key: &[u8],
) -> Result<Option<RowEntry>, SlateDBError>
    requires sound { T.sound source.old }
    requires alive { (T.state source.old).failure ≡ None }
    requires initialised { (T.state source.old).initialised ≡ true }
    requires rising { AreRising (T.state source.old).rows }
    ensures ok { IfOk result (NextGivesFrom
        (is_exact (T.state source.old)) key.now (T.state source.old) (T.state source.new)) }
    ensures err { IfErr result (CanFail (is_exact (T.state source.old))) }
    ensures handed { IfErr result (λ e. (T.state source.new).failure ≡ Some e) }
    ensures sound { T.sound source.new }
{
    source.seek_row(alloc, key)?;
    source.next_row(alloc)
}

// Takes a source's first row that is not below a key. It reads the source row by row.
fn first_read<T: RowSource>(
    alloc: Global,
    source: &mut T,
    key: &[u8],
) -> Result<Option<RowEntry>, SlateDBError>
    requires sound { T.sound source.old }
    requires alive { (T.state source.old).failure ≡ None }
    requires initialised { (T.state source.old).initialised ≡ true }
    ensures ok { IfOk result (NextGives (record (T.state source.old)
        { rows = from_key key.now (T.state source.old).rows }) (T.state source.new)) }
    ensures err { IfErr result (CanFail (T.state source.old).whole) }
    ensures handed { IfErr result (λ e. (T.state source.new).failure ≡ Some e) }
    ensures sound { T.sound source.new }
{
    'rows: while let Some(row) = source.next_row(alloc)? {
        if row.key.as_slice().cmp(key) != Ordering::Less {
            return Ok(Some(row));
        }
    }
    Ok(None)
}

// Takes a source's first row that is not below a key. In descending order it does not seek the
// source: a seek may pass rows that the source would have refused, and the merge of the rows left
// might then not rise.
fn first_from<T: RowSource>(
    alloc: Global,
    order: IterationOrder,
    source: &mut T,
    key: &[u8],
) -> Result<Option<RowEntry>, SlateDBError>
    requires sound { T.sound source.old }
    requires alive { (T.state source.old).failure ≡ None }
    requires initialised { (T.state source.old).initialised ≡ true }
    requires rising { AreRising (T.state source.old).rows }
    ensures ok { IfOk result (NextGivesFrom (is_known order (is_exact (T.state source.old))) key.now
        (T.state source.old) (T.state source.new)) }
    ensures err { IfErr result (CanFail (is_exact (T.state source.old))) }
    ensures handed { IfErr result (λ e. (T.state source.new).failure ≡ Some e) }
    ensures sound { T.sound source.new }
{
    match order {
        IterationOrder::Ascending => first_sought(alloc, source, key),
        IterationOrder::Descending => first_read(alloc, source, key),
    }
}

// Drops the rows below a key. It makes one step of each source whose head is below the key.
fn skip_below<T: RowSource>(
    alloc: Global,
    order: IterationOrder,
    sources: &mut Vec<T>,
    heads: &mut Vec<Option<RowEntry>>,
    key: &[u8],
) -> Result<(), SlateDBError>
    requires taken { AllTaken heads.old.items (map T.state sources.old.items) }
    requires rising { AreRising
        (merged_left order heads.old.items (map T.state sources.old.items)) }
    requires sound { AllByRecursion T.sound sources.old.items }
    ensures ok { OnOk result (SkipsTo
        (is_known order (are_exact (map T.state sources.old.items))) order key.now heads.old.items
        (map T.state sources.old.items) heads.new.items (map T.state sources.new.items)) }
    ensures leaves { OnOk result
        (LeavesFrom key.now heads.old.items sources.old.items heads.new.items sources.new.items) }
    ensures err { IfErr result (CanFail (are_exact (map T.state sources.old.items))) }
    ensures handed { IfErr result (IsHandedOn (map T.state sources.new.items)) }
    ensures sound { AllByRecursion T.sound sources.new.items }
{
    'sources: for i in 0..sources.len() {
        if !is_head_below(&heads[i], key) {
            continue;
        }
        let head = first_from(alloc, order, &mut sources[i], key)?;
        drop(mem::replace(&mut heads[i], head));
    }
    Ok(())
}

// Drops the rows below a key. The heads are taken out by the places of their sources, and put back
// once the sources are sought.
fn seek_heads<T: RowSource>(
    alloc: Global,
    sources: &mut Vec<T>,
    heads: &mut Heads,
    key: &[u8],
) -> Result<(), SlateDBError>
    requires taken { AllTaken heads.old.rows (map T.state sources.old.items) }
    requires rising { AreRising
        (merged_left heads.old.order heads.old.rows (map T.state sources.old.items)) }
    requires sound { AllByRecursion T.sound sources.old.items }
    ensures ok { OnOk result (SkipsTo
        (is_known heads.old.order (are_exact (map T.state sources.old.items))) heads.old.order
        key.now heads.old.rows (map T.state sources.old.items) heads.new.rows
        (map T.state sources.new.items)) }
    ensures leaves { OnOk result
        (LeavesFrom key.now heads.old.rows sources.old.items heads.new.rows sources.new.items) }
    ensures err { IfErr result (CanFail (are_exact (map T.state sources.old.items))) }
    ensures handed { IfErr result (IsHandedOn (map T.state sources.new.items)) }
    ensures order { heads.new.order ≡ heads.old.order }
    ensures sound { AllByRecursion T.sound sources.new.items }
{
    let order = heads.order();
    let mut rows = heads.take_rows(alloc)?;
    skip_below(alloc, order, sources, &mut rows, key)?;
    heads.fill(rows)?;
    Ok(())
}

// Drops the rows that a row hides, and adds their bytes to the count.
fn skip_hidden<T: RowSource>(
    alloc: Global,
    sources: &mut Vec<T>,
    heads: &mut Heads,
    row: &RowEntry,
    processed: u64,
) -> Result<u64, SlateDBError>
    requires taken { AllTaken heads.old.rows (map T.state sources.old.items) }
    requires sound { AllByRecursion T.sound sources.old.items }
    ensures ok { IfOk result (λ _. Skips heads.old.order (hides (row_of row.now)) heads.old.rows
        (map T.state sources.old.items) heads.new.rows (map T.state sources.new.items)) }
    ensures bytes { IfOk result (λ count. count ≡ counted_bytes processed (kept_back
        (row_of row.now)
        (merged_left heads.old.order heads.old.rows (map T.state sources.old.items)))) }
    ensures err { IfErr result (CanFail (are_whole (map T.state sources.old.items))) }
    ensures handed { IfErr result (IsHandedOn (map T.state sources.new.items)) }
    ensures order { heads.new.order ≡ heads.old.order }
    ensures sound { AllByRecursion T.sound sources.new.items }
{
    let mut count = processed;
    'hidden: while heads.least_is_hidden(row) {
        let bytes = drop_least(alloc, sources, heads)?;
        count = count.saturating_add(bytes);
    }
    Ok(count)
}

// Drops the least head where it stands. The next row of its source becomes its new head.
#[inline(always)]
fn refill_least<T: RowSource>(
    alloc: Global,
    sources: &mut Vec<T>,
    heads: &mut Heads,
) -> Result<(), SlateDBError>
    requires taken { AllTaken heads.old.rows (map T.state sources.old.items) }
    requires sound { AllByRecursion T.sound sources.old.items }
    ensures ok { OnOk result (Drops heads.old.order heads.old.rows
        (map T.state sources.old.items) heads.new.rows (map T.state sources.new.items)) }
    ensures err { IfErr result (CanFail (are_whole (map T.state sources.old.items))) }
    ensures handed { IfErr result (IsHandedOn (map T.state sources.new.items)) }
    ensures order { heads.new.order ≡ heads.old.order }
    ensures sound { AllByRecursion T.sound sources.new.items }
{
    let Some((place, _)) = heads.least() else {
        return Ok(());
    };
    let mut next = sources[place].next_row(alloc)?;
    heads.swap_least(&mut next);
    Ok(())
}

// Drops the first rows that have a key.
fn skip_rows_of<T: RowSource>(
    alloc: Global,
    sources: &mut Vec<T>,
    heads: &mut Heads,
    key: &[u8],
) -> Result<(), SlateDBError>
    requires taken { AllTaken heads.old.rows (map T.state sources.old.items) }
    requires sound { AllByRecursion T.sound sources.old.items }
    ensures ok { OnOk result (Skips heads.old.order (has_key key.now) heads.old.rows
        (map T.state sources.old.items) heads.new.rows (map T.state sources.new.items)) }
    ensures err { IfErr result (CanFail (are_whole (map T.state sources.old.items))) }
    ensures handed { IfErr result (IsHandedOn (map T.state sources.new.items)) }
    ensures order { heads.new.order ≡ heads.old.order }
    ensures sound { AllByRecursion T.sound sources.new.items }
{
    'rows: while heads.least_has(key) {
        refill_least(alloc, sources, heads)?;
    }
    Ok(())
}

// Takes the least head, and reads the next row of its source as its new head. It adds the bytes of
// the head that it takes to the count.
#[inline(always)]
fn take_counted<T: RowSource>(
    alloc: Global,
    sources: &mut Vec<T>,
    heads: &mut Heads,
    processed: &mut u64,
) -> Result<Option<RowEntry>, SlateDBError>
    requires taken { AllTaken heads.old.rows (map T.state sources.old.items) }
    requires sound { AllByRecursion T.sound sources.old.items }
    ensures ok { IfOk result (Takes heads.old.order false heads.old.rows
        (map T.state sources.old.items) heads.new.rows (map T.state sources.new.items)) }
    ensures bytes { IfOk result (λ _. processed.new ≡ counted_bytes processed.old
        (taken_at_once false
        (merged_left heads.old.order heads.old.rows (map T.state sources.old.items)))) }
    ensures unchanged { IfErr result (λ _. processed.new ≡ processed.old) }
    ensures err { IfErr result (CanFail (are_whole (map T.state sources.old.items))) }
    ensures handed { IfErr result (IsHandedOn (map T.state sources.new.items)) }
    ensures order { heads.new.order ≡ heads.old.order }
    ensures sound { AllByRecursion T.sound sources.new.items }
{
    let bytes = heads.least_bytes().unwrap_or(0);
    let row = take_least(alloc, sources, heads)?;
    *processed = processed.saturating_add(bytes);
    Ok(row)
}

// Takes the next row that the merge gives, and with dedup the rows that it hides. It adds the bytes
// of all of them to the count.
#[inline]
fn take_given<T: RowSource>(
    alloc: Global,
    dedup: bool,
    sources: &mut Vec<T>,
    heads: &mut Heads,
    processed: &mut u64,
) -> Result<Option<RowEntry>, SlateDBError>
    requires taken { AllTaken heads.old.rows (map T.state sources.old.items) }
    requires sound { AllByRecursion T.sound sources.old.items }
    ensures ok { IfOk result (Takes heads.old.order dedup heads.old.rows
        (map T.state sources.old.items) heads.new.rows (map T.state sources.new.items)) }
    ensures all { IfOk result
        (λ _. merged_left heads.old.order heads.old.rows (map T.state sources.old.items)
        ≡ taken_at_once dedup
        (merged_left heads.old.order heads.old.rows (map T.state sources.old.items))
        ++ merged_left heads.old.order heads.new.rows (map T.state sources.new.items)) }
    ensures bytes { IfOk result (λ _. processed.new ≡ counted_bytes processed.old
        (taken_at_once dedup
        (merged_left heads.old.order heads.old.rows (map T.state sources.old.items)))) }
    ensures unchanged { IfErr result (λ _. processed.new ≡ processed.old) }
    ensures err { IfErr result (CanFail (are_whole (map T.state sources.old.items))) }
    ensures handed { IfErr result (IsHandedOn (map T.state sources.new.items)) }
    ensures order { heads.new.order ≡ heads.old.order }
    ensures sound { AllByRecursion T.sound sources.new.items }
{
    if dedup {
        take_distinct(alloc, sources, heads, processed)
    } else {
        take_counted(alloc, sources, heads, processed)
    }
}

// Takes the next row, and the rows that it hides. It adds the bytes of all of them to the count.
// Out of line, so that a merge without dedup does not clear what this needs.
#[inline(never)]
fn take_distinct<T: RowSource>(
    alloc: Global,
    sources: &mut Vec<T>,
    heads: &mut Heads,
    processed: &mut u64,
) -> Result<Option<RowEntry>, SlateDBError>
    requires taken { AllTaken heads.old.rows (map T.state sources.old.items) }
    requires sound { AllByRecursion T.sound sources.old.items }
    ensures ok { IfOk result (Takes heads.old.order true heads.old.rows
        (map T.state sources.old.items) heads.new.rows (map T.state sources.new.items)) }
    ensures all { IfOk result
        (λ _. merged_left heads.old.order heads.old.rows (map T.state sources.old.items)
        ≡ taken_at_once true
        (merged_left heads.old.order heads.old.rows (map T.state sources.old.items))
        ++ merged_left heads.old.order heads.new.rows (map T.state sources.new.items)) }
    ensures bytes { IfOk result (λ _. processed.new ≡ counted_bytes processed.old
        (taken_at_once true
        (merged_left heads.old.order heads.old.rows (map T.state sources.old.items)))) }
    ensures unchanged { IfErr result (λ _. processed.new ≡ processed.old) }
    ensures err { IfErr result (CanFail (are_whole (map T.state sources.old.items))) }
    ensures handed { IfErr result (IsHandedOn (map T.state sources.new.items)) }
    ensures order { heads.new.order ≡ heads.old.order }
    ensures sound { AllByRecursion T.sound sources.new.items }
{
    let Some(row) = take_least(alloc, sources, heads)? else {
        return Ok(None);
    };
    let count = processed.saturating_add(row_bytes(&row));
    *processed = skip_hidden(alloc, sources, heads, &row, count)?;
    Ok(Some(row))
}

/// An iterator that merges the rows of several iterators. It always takes the least next row, and
/// of rows with the same key and sequence that of the earlier iterator.
#[derive(Drop)]
pub struct MergeIterator<T: RowEntryIterator> {
    sources: Vec<T>,
    // The next row of each source, in the order of the merge. There are none until the sources are
    // initialised.
    heads: Heads,
    dedup: bool,
    initialised: bool,
    failure: Failure,
    processed: u64,
}

impl<T: RowEntryIterator> MergeIterator<T> {
    /// Makes the ascending merge of these iterators, with dedup.
    pub fn new(alloc: Global, iterators: Vec<T>) -> Self
        requires sound { AllByRecursion T.sound iterators.items }
        requires alive { NoneFailed (map T.state iterators.items) }
        ensures rows { state_of T.state result
            ≡ starting in_order.Ascending (map T.state iterators.items) }
        ensures all { merge_of T.state result
            ≡ merged_lists in_order.Ascending (rows_left (map T.state iterators.items)) }
        ensures dedup { result.dedup ≡ true }
        ensures processed { result.processed ≡ 0 }
        ensures sound { IsSound T.sound T.state result }
    {
        MergeIterator::new_with_order(alloc, iterators, IterationOrder::Ascending)
    }

    /// Makes the merge of these iterators in this order, with dedup. A descending merge may be
    /// sought only if all rows left have one key.
    pub fn new_with_order(alloc: Global, iterators: Vec<T>, order: IterationOrder) -> Self
        requires sound { AllByRecursion T.sound iterators.items }
        requires alive { NoneFailed (map T.state iterators.items) }
        ensures rows { state_of T.state result ≡ starting order (map T.state iterators.items) }
        ensures all { merge_of T.state result
            ≡ merged_lists order (rows_left (map T.state iterators.items)) }
        ensures dedup { result.dedup ≡ true }
        ensures processed { result.processed ≡ 0 }
        ensures sound { IsSound T.sound T.state result }
    {
        MergeIterator {
            sources: iterators,
            heads: Heads::new(alloc, order),
            dedup: true,
            initialised: false,
            failure: Failure::new(),
            processed: 0,
        }
    }

    /// Switches dedup on or off for this merge. With dedup, a row that is no operand hides the
    /// later rows of its key.
    pub fn with_dedup(self, dedup: bool) -> Self
        requires { IsSound T.sound T.state self }
        ensures rows { state_of T.state result
            ≡ record (state_of T.state self) { rows = given_rows dedup (merge_of T.state self) } }
        ensures all { merge_of T.state result ≡ merge_of T.state self }
        ensures dedup { result.dedup ≡ dedup }
        ensures processed { result.processed ≡ self.processed }
        ensures sound { IsSound T.sound T.state result }
    {
        MergeIterator { dedup, ..self }
    }
}

impl<T: RowEntryIterator> MergeIterator<T> {
    /// Whether the first row left has this key, in a merge that is initialised and has not failed.
    /// False if no row is left.
    #[inline]
    pub fn begins_with(&self, key: &[u8]) -> bool
        requires sound { IsSound T.sound T.state self.now }
        requires alive { self.now.failure ≡ None }
        requires initialised { self.now.initialised ≡ true }
        ensures { result ≡ begins_with key.now (state_of T.state self.now).rows }
    {
        self.heads.least_has(key)
    }

    /// Drops the rows at the front that have this key, and counts none of them. It moves no row
    /// out.
    pub fn skip_key(&mut self, alloc: Global, key: &[u8]) -> Result<(), SlateDBError>
        requires { IsSound T.sound T.state self.old }
        ensures skip { SkipsKey key.now
            (state_of T.state self.old) (state_of T.state self.new) result }
        ensures all { OnOk result (merge_of T.state self.new
            ≡ without_first (has_key key.now) (merge_of T.state self.old)) }
        ensures handed { self.old.failure ≡ None → self.old.initialised
            ≡ true → IfErr result (IsHandedOn (map T.state self.new.sources.items)) }
        ensures idle { self.old.failure ≢ None → self.new ≡ self.old }
        ensures early { self.old.initialised ≡ false → self.new ≡ self.old }
        ensures sound { IsSound T.sound T.state self.new }
        ensures dedup { self.new.dedup ≡ self.old.dedup }
        ensures processed { self.new.processed ≡ self.old.processed }
    {
        self.failure.check()?;
        if !self.initialised {
            return Err(SlateDBError::IteratorNotInitialized);
        }
        match skip_rows_of(alloc, &mut self.sources, &mut self.heads, key) {
            Ok(()) => Ok(()),
            Err(error) => Err(self.failure.fail(error)),
        }
    }
}

impl<T: RowEntryIterator> RowEntryIterator for MergeIterator<T> {
    ghost state = { state_of T.state };

    ghost sound = { IsSound T.sound T.state };

    ghost processed = { λ m. m.processed };

    fn init(&mut self, alloc: Global) -> Result<(), SlateDBError>
        requires { IsSound T.sound T.state self.old }
        ensures init { Inits (state_of T.state self.old) (state_of T.state self.new) result }
        ensures all { OnOk result (merge_of T.state self.new ≡ merge_of T.state self.old) }
        ensures handed { self.old.failure
            ≡ None → IfErr result (IsHandedOn (map T.state self.new.sources.items)) }
        ensures idle { self.old.failure ≢ None → self.new ≡ self.old }
        ensures sound { IsSound T.sound T.state self.new }
        ensures dedup { self.new.dedup ≡ self.old.dedup }
        ensures processed { self.new.processed ≡ self.old.processed }
    {
        self.failure.check()?;
        if self.initialised {
            return Ok(());
        }
        match take_heads(alloc, &mut self.sources, &mut self.heads) {
            Ok(()) => {
                self.initialised = true;
                Ok(())
            }
            Err(error) => Err(self.failure.fail(error)),
        }
    }

    fn next(&mut self, alloc: Global) -> Result<Option<RowEntry>, SlateDBError>
        requires { IsSound T.sound T.state self.old }
        ensures next { Nexts (state_of T.state self.old) (state_of T.state self.new) result }
        ensures all { IfOk result (λ _. merge_of T.state self.old ≡ taken_at_once self.old.dedup
            (merge_of T.state self.old) ++ merge_of T.state self.new) }
        ensures sound { IsSound T.sound T.state self.new }
        ensures dedup { self.new.dedup ≡ self.old.dedup }
        ensures processed { IfOk result (λ _. self.new.processed ≡ counted_bytes self.old.processed
            (taken_at_once self.old.dedup (merge_of T.state self.old))) }
        ensures unprocessed { IfErr result (λ _. self.new.processed ≡ self.old.processed) }
        ensures handed { self.old.failure ≡ None → self.old.initialised
            ≡ true → IfErr result (IsHandedOn (map T.state self.new.sources.items)) }
        ensures idle { self.old.failure ≢ None → self.new ≡ self.old }
        ensures early { self.old.initialised ≡ false → self.new ≡ self.old }
    {
        self.failure.check()?;
        if !self.initialised {
            return Err(SlateDBError::IteratorNotInitialized);
        }
        let dedup = self.dedup;
        match take_given(
            alloc,
            dedup,
            &mut self.sources,
            &mut self.heads,
            &mut self.processed,
        ) {
            Ok(row) => Ok(row),
            Err(error) => Err(self.failure.fail(error)),
        }
    }

    fn seek(&mut self, alloc: Global, next_key: &[u8]) -> Result<(), SlateDBError>
        requires sound { IsSound T.sound T.state self.old }
        requires rising { AreRising (state_of T.state self.old).rows }
        ensures seek { Seeks next_key.now
            (state_of T.state self.old) (state_of T.state self.new) result }
        ensures all { is_exact (state_of T.state self.old) ≡ true → OnOk result
            (merge_of T.state self.new ≡ from_key next_key.now (merge_of T.state self.old)) }
        ensures leaves { OnOk result (LeavesFrom next_key.now self.old.heads.rows
            self.old.sources.items self.new.heads.rows self.new.sources.items) }
        ensures handed { self.old.failure ≡ None → self.old.initialised
            ≡ true → IfErr result (IsHandedOn (map T.state self.new.sources.items)) }
        ensures idle { self.old.failure ≢ None → self.new ≡ self.old }
        ensures early { self.old.initialised ≡ false → self.new ≡ self.old }
        ensures sound { IsSound T.sound T.state self.new }
        ensures dedup { self.new.dedup ≡ self.old.dedup }
        ensures processed { self.new.processed ≡ self.old.processed }
    {
        self.failure.check()?;
        if !self.initialised {
            return Err(SlateDBError::IteratorNotInitialized);
        }
        match seek_heads(alloc, &mut self.sources, &mut self.heads, next_key) {
            Ok(()) => Ok(()),
            Err(error) => Err(self.failure.fail(error)),
        }
    }
}

impl<T: RowEntryIterator> TrackedRowEntryIterator for MergeIterator<T> {
    fn bytes_processed(&self) -> u64 {
        self.processed
    }
}

/// If each list is strictly ordered and no two rows share key and sequence, the ascending merge
/// without dedup has all rows in order.
pub fn merges_sort()
    ensures { MergesSort }
{}

/// The ascending merge of rising lists rises, with or without dedup, so it may be sought.
pub fn merges_rise()
    ensures { MergesRise }
{}
