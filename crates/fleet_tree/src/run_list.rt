//! The runs of a tree.

ghost use Rattle.std.specs.Prelude.{◌≡◌, ◌↔◌, ◌==◌, ◌<◌, ◌≤◌, ◌+◌, ◌-◌, ◌^◌, ◌++◌, ◌&&◌, ◌||◌, [], ◌∷◌, true, drop, find, length, nat_lt, not, option_to_list, take_while, slice_get, take, IsTrue, OnOk, OnErr, IfOk, IsOkUnless};
ghost use Rattle.std.specs.List.{list_all, position_or_len};
ghost use Rattle.std.specs.Option.{option_copied};
ghost use Rattle.std.specs.Cmp.Lexicographic.{pointwise, lists_per, lists_equiv};
ghost use Rattle.fleet_tree.specs.Falling.{are_falling, fits_between, is_above_first, is_above_one, is_below_last, is_below_one};
ghost use Rattle.fleet_tree.specs.Lists.{spliced};
ghost use Rattle.fleet_tree.specs.contracts.run.SortedRunEq.TheImpl.Laws as run_equiv;
ghost use Rattle.fleet_tree.specs.contracts.run.SortedRunPartialEq.TheImpl.Laws as run_eq;

use crate::items::are_equal;
use crate::run_chunks::{
    RunChunks, last_run, place_in_chunks, push_run, run_at, runs_from, splice_runs,
};
use crate::{Items, SortedRun};
use fleet_rows::{Copies, SlateDBError};
use std::alloc::{AllocError, Global};
use std::marker::Model;

/// The runs of a tree, or some of them. Contracts see the list of the runs. They stand in chunks,
/// which copies share, so a change copies runs of at most two chunks.
///
/// The ids of a tree's runs fall. A list knows whether its ids do. Then it passes over each chunk
/// whose last id is above the one that it looks for, and searches the others by halves.
#[derive(Debug, Drop)]
pub struct RunList {
    alloc: Global,
    chunks: RunChunks,
    count: u64,
    falls: bool,
}

impl Model for RunList {
    ghost use Rattle.std.specs.Prelude.{◌≡◌, List, length};
    ghost use Rattle.fleet_tree.specs.Falling.{are_falling};
    ghost use Rattle.fleet_tree.specs.Lists.{joined};
    ghost use Rattle.fleet_tree.specs.declared.run.SortedRun.{SortedRun};

    ghost Value = { List SortedRun };

    ghost view = { λ l. joined l.chunks };

    ghost invariant = { λ l. (l.count ≡ length (joined l.chunks))
        × (l.falls ≡ are_falling (joined l.chunks)) };
}

impl RunList {
    /// An empty list. It takes no memory.
    pub fn new(alloc: Global) -> RunList
        ensures { result ≡ [] }
    {
        RunList {
            alloc,
            chunks: RunChunks::new(alloc),
            count: 0,
            falls: true,
        }
    }

    /// A list of these runs.
    pub fn from_vec(alloc: Global, runs: Vec<SortedRun>) -> Result<RunList, SlateDBError>
        ensures list { IfOk result (λ list. list ≡ runs.items) }
        ensures memory { IsOkUnless result SlateDBError.Memory }
    {
        let mut list = RunList::new(alloc);
        'runs: for run in runs {
            list.push(run)?;
        }
        Ok(list)
    }

    /// The number of runs.
    pub fn len(&self) -> u64
        ensures { result ≡ length self.now }
    {
        self.count
    }

    /// Whether the list has no runs.
    pub fn is_empty(&self) -> bool
        ensures { IsTrue result ↔ (self.now ≡ []) }
    {
        self.count == 0
    }

    /// The run at this place, counted from 0.
    pub fn get(&self, place: u64) -> Option<&SortedRun>
        ensures { option_copied result ≡ slice_get self.now place }
    {
        run_at(self.chunks.as_slice(), place as usize)
    }

    /// The runs, in order.
    pub fn iter(&self) -> Runs<'_>
        ensures { result ≡ self.now }
    {
        Items::of_chunks(&[], self.chunks.as_slice())
    }

    /// The runs from this place on, counted from 0.
    pub fn iter_from(&self, place: usize) -> Runs<'_>
        ensures { result ≡ drop place self.now }
    {
        runs_from(self.chunks.as_slice(), place)
    }

    /// The first run with this id, if one has it. Where the ids fall, it is looked for as
    /// `place_of` does.
    pub fn with_id(&self, id: u32) -> Option<&SortedRun>
        ensures { option_copied result ≡ find (λ run. run.id == id) self.now }
    {
        self.get(self.place_of(id) as u64)
    }

    /// The place of the first run with this id, counted from 0, or the number of runs if none has
    /// it. Where the ids fall, one run of each chunk before its own is looked at, and its own chunk
    /// is searched by halves. If no run has the id, all chunks with lower ids are searched so.
    pub fn place_of(&self, id: u32) -> usize
        ensures place { result ≡ position_or_len (λ run. run.id == id) self.now }
        ensures within { result ≤ length self.now }
    {
        self.know_len();
        if self.falls {
            place_in_chunks(self.chunks.as_slice(), id)
        } else {
            runs_before(self.iter(), id)
        }
    }

    /// Where a run with this id comes: the number of runs before the first one with a lower id.
    pub fn place_for(&self, id: u32) -> usize
        ensures place { result ≡ length (take_while (λ run. not (nat_lt run.id id)) self.now) }
        ensures within { result ≤ length self.now }
    {
        self.know_len();
        runs_not_below(self.iter(), id)
    }

    /// Whether all ids are below this one. Where they fall, the first run tells.
    pub fn are_below(&self, id: u32) -> bool
        ensures { result ≡ list_all (λ run. nat_lt run.id id) self.now }
    {
        match self.iter().next() {
            Some(first) if self.falls => first.id < id,
            _ => are_all_below(self.iter(), id),
        }
    }

    /// Adds a run at the end. If out of memory, the run is dropped.
    pub fn push(&mut self, run: SortedRun) -> Result<(), SlateDBError>
        ensures ok { OnOk result (self.new ≡ self.old ++ run ∷ []) }
        ensures err { OnErr result (self.new ≡ self.old) }
        ensures memory { IsOkUnless result SlateDBError.Memory }
    {
        let Some(count) = self.count.checked_add(1) else {
            return Err(SlateDBError::Memory);
        };
        let falls = self.falls_with(&run);
        push_run(self.alloc, &mut self.chunks, run)?;
        self.count = count;
        self.falls = falls;
        Ok(())
    }

    // Whether the ids fall with one more run at the end.
    fn falls_with(&self, run: &SortedRun) -> bool
        ensures { result ≡ are_falling (self.now ++ run.now ∷ []) }
    {
        self.falls && is_below(run, last_run(self.chunks.as_slice()))
    }

    /// Whether the ids fall, and still do after `splice` of this part and this run.
    pub fn fits(&self, place: usize, count: usize, run: Option<&SortedRun>) -> bool
        requires { place + count ≤ length self.now }
        ensures { result ≡ (are_falling self.now
            && fits_between self.now place (place + count) (option_copied run.entry)) }
    {
        self.know_len();
        match run {
            Some(run) => self.falls && self.is_between(run, place, place + count),
            None => self.falls,
        }
    }

    // Whether a run is below the one before `place`, and above the one at `end`.
    fn is_between(&self, run: &SortedRun, place: usize, end: usize) -> bool
        requires { place ≤ length self.now }
        ensures { result ≡ (is_below_last run.now (take place self.now)
            && is_above_first run.now (drop end self.now)) }
    {
        is_below(run, self.before(place)) && is_above(run, self.get(end as u64))
    }

    // The number of runs is a number of 64 bits.
    fn know_len(&self)
        ensures { length self.now < 2 ^ 64 }
    {
        let _ = self.len();
    }

    // The run before this place, if there is one.
    fn before(&self, place: usize) -> Option<&SortedRun>
        requires { place ≤ length self.now }
        ensures { option_copied result
            ≡ slice_get (take place self.now) (length (take place self.now) - 1) }
    {
        match place.checked_sub(1) {
            Some(last) => self.get(last as u64),
            None => None,
        }
    }

    /// Takes out the `count` runs from a place on, counted from 0, and puts a run there if one is
    /// given. If out of memory, the given run is dropped.
    ///
    /// Runs of one chunk are exchanged in it, unless it would be empty, or is full and none is taken
    /// out. Where no other list shares that chunk, no run is copied then, and its later runs alone
    /// are moved. Else the list of the chunks is made anew, and runs of at most two are copied.
    pub fn splice(
        &mut self,
        place: usize,
        count: usize,
        run: Option<SortedRun>,
    ) -> Result<(), SlateDBError>
        requires { place + count ≤ length self.old }
        ensures ok { OnOk result (self.new ≡ spliced place count run self.old) }
        ensures err { OnErr result (self.new ≡ self.old) }
        ensures memory { IsOkUnless result SlateDBError.Memory }
    {
        self.know_len();
        let left = count_with(self.count - count as u64, &run)?;
        let falls = self.fits(place, count, run.as_ref());
        splice_runs(self.alloc, &mut self.chunks, place, count, run)?;
        self.count = left;
        self.falls = fall_still(falls, Items::of_chunks(&[], self.chunks.as_slice()));
        Ok(())
    }

    /// A copy, which shares the runs.
    pub fn clone(&self) -> Result<RunList, SlateDBError>
        ensures copy { IfOk result (λ copy. copy ≡ self.now) }
        ensures memory { IsOkUnless result SlateDBError.Memory }
    {
        Ok(Clone::clone(self)?)
    }
}

/// An iterator over runs.
pub type Runs<'a> = Items<'a, SortedRun>;

// The number of runs with one more, if one is given. No memory has room for 2^64 runs.
fn count_with(count: u64, run: &Option<SortedRun>) -> Result<u64, SlateDBError>
    ensures ok { IfOk result (λ with_run. with_run ≡ count + length (option_to_list run.now)) }
    ensures memory { IsOkUnless result SlateDBError.Memory }
{
    if run.is_none() {
        return Ok(count);
    }
    match count.checked_add(1) {
        Some(with_run) => Ok(with_run),
        None => Err(SlateDBError::Memory),
    }
}

// Whether the ids of the runs fall strictly.
fn are_falling(runs: Runs<'_>) -> bool
    ensures { result ≡ are_falling runs.entry }
{
    let mut rest = runs;
    let Some(first) = rest.next() else {
        return true;
    };
    let mut above = first;
    'runs: for run in rest {
        if above.id <= run.id {
            return false;
        }
        above = run;
    }
    true
}

// Whether a run has a lower id than the one before it, if there is one.
fn is_below(run: &SortedRun, before: Option<&SortedRun>) -> bool
    ensures { result ≡ is_below_one run.now (option_copied before.entry) }
{
    match before {
        Some(last) => run.id < last.id,
        None => true,
    }
}

// Whether a run has a higher id than the one after it, if there is one.
fn is_above(run: &SortedRun, after: Option<&SortedRun>) -> bool
    ensures { result ≡ is_above_one run.now (option_copied after.entry) }
{
    match after {
        Some(next) => next.id < run.id,
        None => true,
    }
}

// Whether the ids of the runs fall, if that is not known yet.
fn fall_still(is_known: bool, runs: Runs<'_>) -> bool
    ensures { result ≡ (is_known || are_falling runs.entry) }
{
    is_known || are_falling(runs)
}

/// The place of the run with this id, or the number of runs if none has it, where the ids fall.
pub(crate) fn place_by_halves(runs: &[SortedRun], id: u32) -> usize
    requires { are_falling runs.now ≡ true }
    ensures { result ≡ position_or_len (λ run. run.id == id) runs.now }
{
    match runs.binary_search_by(|run| id.cmp(&run.id)) {
        Ok(place) => place,
        Err(_) => runs.len(),
    }
}

// Whether all runs have ids below this one. Each is looked at.
fn are_all_below(runs: Runs<'_>, id: u32) -> bool
    ensures { result ≡ list_all (λ run. nat_lt run.id id) runs.entry }
{
    'runs: for run in runs {
        if id <= run.id {
            return false;
        }
    }
    true
}

// The number of runs before the first one with a lower id.
fn runs_not_below(runs: Runs<'_>, id: u32) -> usize
    requires { length runs < 2 ^ 64 }
    ensures place { result ≡ length (take_while (λ run. not (nat_lt run.id id)) runs.entry) }
    ensures within { result ≤ length runs.entry }
{
    let mut count = 0;
    'runs: for run in runs {
        if run.id < id {
            return count;
        }
        count += 1;
    }
    count
}

// The number of runs before the first one with this id.
fn runs_before(runs: Runs<'_>, id: u32) -> usize
    requires { length runs < 2 ^ 64 }
    ensures { result ≡ position_or_len (λ run. run.id == id) runs.entry }
{
    let mut before = 0;
    'runs: for run in runs {
        if run.id == id {
            return before;
        }
        before += 1;
    }
    before
}

impl Clone for RunList {
    ghost is_clone = { λ l copy. copy ≡ l };

    fn clone(&self) -> Result<RunList, AllocError> {
        Ok(RunList {
            alloc: self.alloc,
            chunks: Clone::clone(&self.chunks)?,
            count: self.count,
            falls: self.falls,
        })
    }
}

impl Copies for RunList {
    fn copied(&self) -> Result<RunList, AllocError> {
        Clone::clone(self)
    }
}

impl PartialEq for RunList {
    ghost eq = { pointwise ⟦<SortedRun as PartialEq>⟧.eq };

    ghost laws = { lists_per run_eq.laws-law };

    fn eq(&self, other: &Self) -> bool {
        are_equal(self.iter(), other.iter())
    }
}

impl Eq for RunList {
    ghost laws = { lists_equiv run_equiv.laws-law };
}
