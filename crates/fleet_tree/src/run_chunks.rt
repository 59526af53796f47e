//! The chunks of a list of runs.

ghost use Rattle.std.specs.Prelude.{◌≡◌, ◌==◌, ◌+◌, ◌-◌, ◌++◌, ◌<◌, ◌≤◌, ◌^◌, [], ◌∷◌, drop, length, slice_get, slice_set, take, true, IfOk, IfSome, IsOkUnless, OnErr, OnOk};
ghost use Rattle.std.specs.List.{position_or_len};
ghost use Rattle.std.specs.Option.{option_copied};
ghost use Rattle.fleet_tree.specs.Falling.{are_falling};
ghost use Rattle.fleet_tree.specs.Lists.{joined, spliced};

use crate::list::copies;
use crate::run_list::place_by_halves;
use crate::{Items, Runs, SharedList, SortedRun};
use fleet_rows::SlateDBError;
use std::alloc::Global;

/// A chunk of a list of runs.
pub(crate) type RunChunk = SharedList<SortedRun>;

/// The chunks of a list of runs, in order.
pub(crate) type RunChunks = SharedList<RunChunk>;

// A chunk that has as many runs gets no more of them.
const CHUNK: u64 = 1024;

/// Where a run is in chunks.
#[derive(Debug, Drop)]
pub(crate) struct Spot {
    /// The number of chunks before its chunk.
    pub(crate) chunk: usize,
    /// The number of runs of its chunk before it.
    pub(crate) place: usize,
}

/// Where the run at a place is. Places are counted from 0.
pub(crate) fn spot_of(chunks: &[RunChunk], place: usize) -> Spot
    ensures within { result.chunk ≤ length chunks.now }
    ensures place { place ≡ length (joined (take result.chunk chunks.now)) + result.place }
    ensures inside { IfSome (slice_get chunks.now result.chunk)
        (λ chunk. result.place < length chunk) }
{
    let mut spot = Spot { chunk: 0, place };
    'chunks: for chunk in chunks {
        let count = chunk.as_slice().len();
        if spot.place < count {
            return spot;
        }
        spot.place -= count;
        spot.chunk += 1;
    }
    spot
}

/// The run at a place, counted from 0.
pub(crate) fn run_at(chunks: &[RunChunk], place: usize) -> Option<&SortedRun>
    ensures { option_copied result ≡ slice_get (joined chunks.now) place }
{
    let spot = spot_of(chunks, place);
    match chunks.get(spot.chunk) {
        Some(chunk) => chunk.get(spot.place as u64),
        None => None,
    }
}

/// The runs from a place on, counted from 0.
pub(crate) fn runs_from(chunks: &[RunChunk], place: usize) -> Runs<'_>
    ensures { result ≡ drop place (joined chunks.now) }
{
    let spot = spot_of(chunks, place);
    let left = behind(chunks, spot.chunk);
    match left.split_first() {
        Some((chunk, others)) => Items::of_chunks(behind(chunk.as_slice(), spot.place), others),
        None => Items::of_slice(&[]),
    }
}

// The items from a place on.
fn behind<T>(items: &[T], place: usize) -> &[T]
    requires { place ≤ length items.now }
    ensures { result.now ≡ drop place items.now }
{
    &items[place..]
}

/// The last run.
pub(crate) fn last_run(chunks: &[RunChunk]) -> Option<&SortedRun>
    ensures { option_copied result ≡ slice_get (joined chunks.now) (length (joined chunks.now) - 1) }
{
    let mut rest = chunks;
    'chunks: while let Some((chunk, others)) = rest.split_last() {
        if let Some(run) = chunk.as_slice().last() {
            return Some(run);
        }
        rest = others;
    }
    None
}

/// The place of the run with this id, or the number of runs if none has it, where the ids fall.
pub(crate) fn place_in_chunks(chunks: &[RunChunk], id: u32) -> usize
    requires falls { are_falling (joined chunks.now) ≡ true }
    requires small { length (joined chunks.now) < 2 ^ 64 }
    ensures { result ≡ position_or_len (λ run. run.id == id) (joined chunks.now) }
{
    let mut before = 0;
    'chunks: for chunk in chunks {
        let place = place_in_falling(chunk.as_slice(), id);
        before += place;
        if place < chunk.as_slice().len() {
            return before;
        }
    }
    before
}

// The same for the runs of one chunk. It is looked for if its id is not below all.
fn place_in_falling(runs: &[SortedRun], id: u32) -> usize
    requires { are_falling runs.now ≡ true }
    ensures { result ≡ position_or_len (λ run. run.id == id) runs.now }
{
    match runs.last() {
        Some(last) if id < last.id => runs.len(),
        _ => place_by_halves(runs, id),
    }
}

// A chunk of one run.
fn one(alloc: Global, run: SortedRun) -> Result<RunChunk, SlateDBError>
    ensures chunk { IfOk result (λ chunk. chunk ≡ run ∷ []) }
    ensures memory { IsOkUnless result SlateDBError.Memory }
{
    let mut chunk = RunChunk::new(alloc);
    chunk.push(run)?;
    Ok(chunk)
}

/// Adds a run at the end. If out of memory, it is dropped.
pub(crate) fn push_run(
    alloc: Global,
    chunks: &mut RunChunks,
    run: SortedRun,
) -> Result<(), SlateDBError>
    ensures ok { OnOk result (joined chunks.new ≡ joined chunks.old ++ run ∷ []) }
    ensures err { OnErr result (chunks.new ≡ chunks.old) }
    ensures memory { IsOkUnless result SlateDBError.Memory }
{
    match last_with_room(chunks.as_slice()) {
        Some(spot) => chunks.splice_chunk(spot.chunk, spot.place, 0, Some(run)),
        None => chunks.push(one(alloc, run)?),
    }
}

// The end of the last chunk, if there is one with room.
fn last_with_room(chunks: &[RunChunk]) -> Option<Spot>
    ensures { IfSome result (λ spot. (spot.chunk + 1 ≡ length chunks.now)
        × IfSome (slice_get chunks.now spot.chunk) (λ chunk. spot.place ≡ length chunk)) }
{
    let (last, others) = chunks.split_last()?;
    if last.len() < CHUNK {
        Some(Spot {
            chunk: others.len(),
            place: last.as_slice().len(),
        })
    } else {
        None
    }
}

/// Takes out the `count` runs from a place on, counted from 0, and puts a run there if one is given.
/// If all lie in one chunk, and `is_in_chunk` lets it have the exchange, that chunk alone changes,
/// and the later chunks stay where they are. If out of memory, the given run is dropped.
pub(crate) fn splice_runs(
    alloc: Global,
    chunks: &mut RunChunks,
    place: usize,
    count: usize,
    run: Option<SortedRun>,
) -> Result<(), SlateDBError>
    requires within { place + count ≤ length (joined chunks.old) }
    requires small { length (joined chunks.old) < 2 ^ 64 }
    ensures ok { OnOk result (joined chunks.new ≡ spliced place count run (joined chunks.old)) }
    ensures err { OnErr result (chunks.new ≡ chunks.old) }
    ensures memory { IsOkUnless result SlateDBError.Memory }
{
    let spot = spot_of(chunks.as_slice(), place);
    if is_in_chunk(chunks.as_slice(), &spot, count, run.is_some()) {
        return chunks.splice_chunk(spot.chunk, spot.place, count, run);
    }
    *chunks = exchanged(alloc, chunks.as_slice(), place, count, run)?;
    Ok(())
}

// Whether so many runs from there on lie in one chunk, which can have a run in their place, or none.
// No chunk becomes empty, and none grows above its limit.
fn is_in_chunk(chunks: &[RunChunk], spot: &Spot, count: usize, with_run: bool) -> bool
    ensures { result ≡ true → IfSome (slice_get chunks.now spot.now.chunk)
        (λ chunk. spot.now.place + count ≤ length chunk) × (spot.now.chunk < length chunks.now) }
{
    let Some(chunk) = chunks.get(spot.chunk) else {
        return false;
    };
    let Some(rest) = chunk.as_slice().len().checked_sub(spot.place) else {
        return false;
    };
    count <= rest
        && (with_run || (count as u64) < chunk.len())
        && (count > 0 || chunk.len() < CHUNK)
}

// The chunks after such an exchange.
fn exchanged(
    alloc: Global,
    chunks: &[RunChunk],
    place: usize,
    count: usize,
    run: Option<SortedRun>,
) -> Result<RunChunks, SlateDBError>
    requires within { place + count ≤ length (joined chunks.now) }
    requires small { length (joined chunks.now) < 2 ^ 64 }
    ensures chunks { IfOk result
        (λ after. joined after ≡ spliced place count run (joined chunks.now)) }
    ensures memory { IsOkUnless result SlateDBError.Memory }
{
    let mut exchanged = chunks_before(alloc, chunks, place)?;
    if let Some(run) = run {
        exchanged.push(one(alloc, run)?)?;
    }
    add_chunks_from(alloc, &mut exchanged, chunks, place + count)?;
    RunChunks::from_vec(alloc, exchanged)
}

// Chunks of the runs before a place.
fn chunks_before(
    alloc: Global,
    chunks: &[RunChunk],
    place: usize,
) -> Result<Vec<RunChunk>, SlateDBError>
    requires { place ≤ length (joined chunks.now) }
    ensures chunks { IfOk result
        (λ before. joined before.items ≡ take place (joined chunks.now)) }
    ensures memory { IsOkUnless result SlateDBError.Memory }
{
    let spot = spot_of(chunks, place);
    let mut before = copies(alloc, &chunks[..spot.chunk])?;
    let Some(chunk) = chunks.get(spot.chunk) else {
        return Ok(before);
    };
    add_front(&mut before, chunk, spot.place)?;
    Ok(before)
}

// Adds a chunk of the first runs of a chunk, unless it would be empty.
fn add_front(added: &mut Vec<RunChunk>, chunk: &RunChunk, count: usize) -> Result<(), SlateDBError>
    requires { count ≤ length chunk.now }
    ensures chunks { OnOk result
        (joined added.new.items ≡ joined added.old.items ++ take count chunk.now) }
    ensures memory { IsOkUnless result SlateDBError.Memory }
{
    if count > 0 {
        added.push(chunk.first(count as u64)?)?;
    }
    Ok(())
}

// Adds chunks of the runs from a place on.
fn add_chunks_from(
    alloc: Global,
    added: &mut Vec<RunChunk>,
    chunks: &[RunChunk],
    place: usize,
) -> Result<(), SlateDBError>
    ensures chunks { OnOk result
        (joined added.new.items ≡ joined added.old.items ++ drop place (joined chunks.now)) }
    ensures memory { IsOkUnless result SlateDBError.Memory }
{
    let spot = spot_of(chunks, place);
    let left = behind(chunks, spot.chunk);
    let Some((chunk, others)) = left.split_first() else {
        return Ok(());
    };
    let rest = copies(alloc, behind(chunk.as_slice(), spot.place))?;
    added.push(RunChunk::from_vec(alloc, rest)?)?;
    add_copies(added, others)
}

// Adds copies of the chunks, which share their runs.
fn add_copies(added: &mut Vec<RunChunk>, chunks: &[RunChunk]) -> Result<(), SlateDBError>
    ensures chunks { OnOk result (added.new.items ≡ added.old.items ++ chunks.now) }
    ensures memory { IsOkUnless result SlateDBError.Memory }
{
    'chunks: for chunk in chunks {
        added.push(chunk.clone()?)?;
    }
    Ok(())
}
