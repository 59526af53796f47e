//! Finishing ranges: making all that is left of them.

ghost use Rattle.std.specs.Prelude.{◌≡◌, ◌≢◌, ◌≤◌, ◌<◌, ◌+◌, ◌^◌, [], ℕ, nat_lt, flat_map, length, map, slice_index_or, vec_len, true, Some, Ok, IfOk, IfErr};
ghost use Rattle.std.specs.List.{AllByRecursion};
ghost use Rattle.row_model.specs.Bounds.{IsInBounds};
ghost use Rattle.row_model.specs.Fold.{IsLawful};
ghost use Rattle.row_model.specs.Written.Sizes.{estimated_size};
ghost use Rattle.row_model.specs.Written.Tables.{cut_tables};
ghost use Rattle.fleet_rows.specs.Row.{row_of, rows_of};
ghost use Rattle.fleet_rows.specs.declared.errors.SlateDBError.TheVariants as SlateDBError;
ghost use Rattle.fleet_fold.specs.Retention.{IsReadable};
ghost use Rattle.fleet_exec.specs.Cut.{TakesTable, RefusesAll, IsFinished, RefusesJobRange, FinishesRange, first_refusal, AreFinished, RefusesFirstUnless};
ghost use Rattle.fleet_exec.specs.Ranges.{AreSources, source_rows, made_of};
ghost use Rattle.fleet_exec.specs.Taking.{left_after};

use crate::open::open_range;
use crate::pack::{Room, pack_row};
use crate::take::next_left;
use crate::{RangeGate, RangeJob, RangeTables, SourceSet};
use bytes::{Bytes, BytesMut};
use fleet_fold::{BatchMerger, MergeOperator};
use fleet_iter::RowSource;
use fleet_rows::{ListOf, RowEntry, SlateDBError};
use fleet_table::{RunData, TableData};
use std::alloc::{AllocError, Global};
use std::thread::{Threads, map_indices};

// Sources with fewer rows in all cost less to read than the threads for their ranges.
const THREADS_FROM: u64 = 1024;

// The most rows of a range for which memory is taken at once.
const ROWS_AT_ONCE: u64 = 1024;

// Whether a row exceeds the size of a table that has `filled` bytes so far.
fn is_full(size: u64, filled: u64, row: &RowEntry) -> bool
    requires in_bounds { IsInBounds (row_of row.now) }
    requires filled { filled ≤ size }
    ensures { result ≡ nat_lt size (filled + estimated_size (row_of row.now)) }
{
    row.estimated_size() as u64 > size - filled
}

// The rows of the next table. It ends with the row with which it exceeds `size` bytes, or when no
// rows are left. The room is memory for its rows.
fn take_table<T: RowSource>(
    alloc: Global,
    source: &mut T,
    cursor: &Option<(Bytes, u64)>,
    size: u64,
    room: &mut Room,
) -> Result<Vec<RowEntry>, SlateDBError>
    requires sound { T.sound source.old }
    requires readable { IsReadable (T.state source.old) }
    requires bounded { AllByRecursion IsInBounds
        (left_after cursor.now (T.state source.old).rows) }
    ensures ok { IfOk result (λ table.
        TakesTable size cursor.now (T.state source.old) table.items (T.state source.new)) }
    ensures err { IfErr result (RefusesAll (T.state source.old)) }
    ensures sound { T.sound source.new }
{
    let mut table = Vec::with_capacity(alloc, room.rows)?;
    room.rows = 0;
    let mut filled = 0;
    'rows: while let Some(row) = next_left(alloc, source, cursor)? {
        let mut row = row;
        pack_row(alloc, &mut room.bytes, &mut row)?;
        let full = is_full(size, filled, &row);
        let bytes = row.estimated_size() as u64;
        table.push(row)?;
        if full {
            return Ok(table);
        }
        filled += bytes;
    }
    Ok(table)
}

// Reports to the gate the last of the tables that a range has given.
fn tell_gate<G: RangeGate>(gate: &G, range: u32, tables: &RangeTables)
    requires { tables.now ≢ [] }
{
    let count = u32::try_from(tables.len()).unwrap_or(u32::MAX);
    gate.given(range, count);
}

// All tables of a range. Each table is reported to the gate.
fn take_tables<T: RowSource, G: RangeGate>(
    alloc: Global,
    source: &mut T,
    cursor: &Option<(Bytes, u64)>,
    size: u64,
    number: u32,
    gate: &G,
    room: &mut Room,
) -> Result<RangeTables, SlateDBError>
    requires sound { T.sound source.old }
    requires readable { IsReadable (T.state source.old) }
    requires bounded { AllByRecursion IsInBounds
        (left_after cursor.now (T.state source.old).rows) }
    ensures ok { IfOk result (λ tables.
        map rows_of tables ≡ cut_tables size (left_after cursor.now (T.state source.old).rows)) }
    ensures whole { IfOk result (λ tables. (T.state source.old).whole ≡ true) }
    ensures err { IfErr result (RefusesAll (T.state source.old)) }
{
    let mut tables = RangeTables::new(alloc);
    'tables: loop {
        let table = take_table(alloc, source, cursor, size, room)?;
        if table.is_empty() {
            return Ok(tables);
        }
        tables.push(ListOf::from_vec(table))?;
        tell_gate(gate, number, &tables);
    }
}

// The rows of a table are in bounds, as the invariant of its type says.
fn table_is_bounded(table: &TableData)
    ensures { AllByRecursion IsInBounds table.now }
{
    table.know_table();
}

fn run_is_bounded(run: &RunData)
    ensures { AllByRecursion IsInBounds (source_rows run.now) }
{
    'tables: for table in run.tables() {
        table_is_bounded(table);
    }
}

fn are_bounded(sources: &[RunData])
    ensures { AllByRecursion IsInBounds (flat_map source_rows sources.now) }
{
    'sources: for source in sources {
        run_is_bounded(source);
    }
}

fn is_lawful<B: BatchMerger>(_operator: &B)
    ensures { IsLawful (B.fold _operator.now) }
{}

// The number of the sources' rows.
fn rows_of_all(sources: &[RunData]) -> u64 {
    let mut rows: u64 = 0;
    'sources: for source in sources {
        'tables: for table in source.tables() {
            rows = rows.saturating_add(table.rows());
        }
    }
    rows
}

// Room for the rows that a range gives. They are packed if they lie in copies of blocks: a row that
// is not packed keeps its copy, with the rows in it that are dropped.
fn room_for(alloc: Global, sources: &[RunData], shared: bool) -> Room {
    let rows = rows_of_all(sources).min(ROWS_AT_ONCE) as usize;
    let bytes = if shared {
        Some(BytesMut::new(alloc))
    } else {
        None
    };
    Room { rows, bytes }
}

// All that is left of a range, cut into tables. `number` is the range's number, counted from 1.
// `shared` tells whether other threads may make other ranges at once.
fn finish_range<O: MergeOperator, G: RangeGate>(
    alloc: Global,
    job: &RangeJob,
    sources: &[RunData],
    operator: &O,
    size: u64,
    number: u32,
    gate: &G,
    shared: bool,
) -> Result<RangeTables, SlateDBError>
    requires { AreSources sources.now }
    ensures ok { IfOk result (λ tables. IsFinished size
        (made_of (O.merged (O.settings operator.now)) sources.now job.now) (map rows_of tables)) }
    ensures err { IfErr result
        (RefusesJobRange (O.merged (O.settings operator.now)) sources.now job.now) }
{
    is_lawful(operator);
    are_bounded(sources);
    let mut left = open_range(alloc, job, sources, operator, shared)?;
    let mut room = room_for(alloc, sources, shared);
    Ok(take_tables(alloc, &mut left, &job.cursor, size, number, gate, &mut room)?)
}

// Whether the sources have too few rows for threads to pay.
fn are_small(sources: &[RunData]) -> bool {
    rows_of_all(sources) < THREADS_FROM
}

// All that is left of each range, or its refusal. The ranges are made one after the other.
fn finish_in_turn<O: MergeOperator, G: RangeGate>(
    alloc: Global,
    jobs: &[RangeJob],
    sources: &[RunData],
    operator: &O,
    size: u64,
    gate: &G,
) -> Result<Vec<Result<RangeTables, SlateDBError>>, AllocError>
    requires few { length jobs.now < 2 ^ 32 }
    requires sources { AreSources sources.now }
    ensures len { IfOk result (λ made. vec_len made ≡ length jobs.now) }
    ensures each { IfOk result (λ made. (i : ℕ) (job : _) (d : _) → i < length jobs.now →
        FinishesRange (O.merged (O.settings operator.now)) sources.now size
        (slice_index_or jobs.now i job) (slice_index_or made.items i d)) }
{
    let mut made = Vec::with_capacity(alloc, jobs.len())?;
    'turns: for i in 0..jobs.len() {
        let number = i as u32 + 1;
        let answer = finish_range(
            alloc, &jobs[i], sources, operator, size, number, gate, false,
        );
        made.push(answer)?;
    }
    Ok(made)
}

// All that is left of each range, or its refusal. Each range is made on a thread of its own, where
// one can be had.
fn finish_at_once<R: Threads + Sync, O: MergeOperator, G: RangeGate>(
    rt: &R,
    alloc: Global,
    jobs: &[RangeJob],
    sources: &[RunData],
    operator: &O,
    size: u64,
    gate: &G,
) -> Result<Vec<Result<RangeTables, SlateDBError>>, AllocError>
    requires few { length jobs.now < 2 ^ 32 }
    requires sources { AreSources sources.now }
    ensures len { IfOk result (λ made. vec_len made ≡ length jobs.now) }
    ensures each { IfOk result (λ made. (i : ℕ) (job : _) (d : _) → i < length jobs.now →
        FinishesRange (O.merged (O.settings operator.now)) sources.now size
        (slice_index_or jobs.now i job) (slice_index_or made.items i d)) }
{
    let shared = 1 < jobs.len();
    let one = |i: usize| -> Result<RangeTables, SlateDBError>
        requires { (i < length jobs.now) × (length jobs.now < 2 ^ 32) × AreSources sources.now }
        ensures { (job : _) → FinishesRange (O.merged (O.settings operator.entry.now))
            sources.entry.now size (slice_index_or jobs.entry.now i job) result }
    {
        finish_range(
            alloc,
            &jobs[i],
            sources,
            operator,
            size,
            i as u32 + 1,
            gate,
            shared,
        )
    };
    let made = map_indices(rt, alloc, jobs.len(), &one)?;
    Ok(made)
}

// The tables of all ranges, or the refusal of the first range that has one.
fn all_made(
    alloc: Global,
    made: Vec<Result<RangeTables, SlateDBError>>,
) -> Result<Vec<RangeTables>, SlateDBError>
    ensures ok { IfOk result (λ ranges. made.items ≡ map (λ range. Ok range) ranges.items) }
    ensures err { IfErr result (λ e.
        e ≢ SlateDBError.Memory → first_refusal made.items ≡ Some e) }
{
    let mut ranges = Vec::new(alloc);
    'answers: for answer in made {
        ranges.push(answer?)?;
    }
    Ok(ranges)
}

// All that is left of each range, or its refusal. Small ranges are made one after the other, unless
// the gate may wait.
fn finish_each<R: Threads + Sync, O: MergeOperator, G: RangeGate>(
    rt: &R,
    alloc: Global,
    jobs: &[RangeJob],
    sources: &[RunData],
    operator: &O,
    size: u64,
    gate: &G,
) -> Result<Vec<Result<RangeTables, SlateDBError>>, AllocError>
    requires few { length jobs.now < 2 ^ 32 }
    requires sources { AreSources sources.now }
    ensures len { IfOk result (λ made. vec_len made ≡ length jobs.now) }
    ensures each { IfOk result (λ made. (i : ℕ) (job : _) (d : _) → i < length jobs.now →
        FinishesRange (O.merged (O.settings operator.now)) sources.now size
        (slice_index_or jobs.now i job) (slice_index_or made.items i d)) }
{
    if are_small(sources) && !gate.may_wait() {
        return finish_in_turn(alloc, jobs, sources, operator, size, gate);
    }
    finish_at_once(rt, alloc, jobs, sources, operator, size, gate)
}

/// Makes all that is left of each range after its cursor, and cuts it into tables. A table ends
/// with the row with which its sum of `estimated_size` exceeds `max_sst_size` bytes, or at the
/// range's end. The ranges are made at once, each on a thread of its own where one can be had. If
/// the sources have few rows and the gate never waits, they are made one after the other instead,
/// which is faster. Each table is reported to the gate when it is made. If the operator refuses in
/// several ranges, the error is the refusal in the first of them.
pub fn finish_ranges<R: Threads + Sync, O: MergeOperator, G: RangeGate>(
    rt: &R,
    alloc: Global,
    jobs: &[RangeJob],
    sources: &SourceSet,
    operator: &O,
    max_sst_size: u64,
    gate: &G,
) -> Result<Vec<RangeTables>, SlateDBError>
    requires few { length jobs.now < 2 ^ 32 }
    requires sources { AreSources sources.now }
    ensures tables { IfOk result (λ ranges. AreFinished (O.merged (O.settings operator.now))
        sources.now max_sst_size jobs.now (map (map rows_of) ranges.items)) }
    ensures refused { IfErr result
        (RefusesFirstUnless (O.merged (O.settings operator.now)) sources.now jobs.now) }
{
    let runs = sources.as_slice();
    let made = finish_each(rt, alloc, jobs, runs, operator, max_sst_size, gate)?;
    Ok(all_made(alloc, made)?)
}
