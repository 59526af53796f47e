//! The steps that rows go through.

ghost use Rattle.std.specs.Prelude.{◌≡◌, ⊤, false};
ghost use Rattle.std.specs.List.{AllByRecursion};
ghost use Rattle.fleet_iter.specs.Iteration.{AreRising, IsAlive};
ghost use Rattle.fleet_iter.specs.List.{giving_state};
ghost use Rattle.fleet_iter.specs.MergeState.{state_of, IsSound};

use crate::ranges::{count_finished, count_rows, make_runs};
use crate::scans::{count_scanned, merge_runs};
use crate::sources::{Load, make_sources};
use fleet_fold::{AppendOperator, MergeOperatorIterator, RetentionIterator};
use fleet_iter::{ListIterator, MergeIterator, RowEntryIterator, merges_rise};
use fleet_range::BytesRange;
use fleet_rows::{Settings, SlateDBError};
use std::alloc::Global;
use std::thread::Threads;

/// The last step that the rows go through.
#[derive(Clone, Copy, Debug, PartialEq, Eq)]
pub enum Step {
    /// The rows are made.
    Rows,
    /// The rows are merged.
    Merge,
    /// The rows are merged, and their operands are folded.
    Fold,
    /// The rows are merged and folded, and retention keeps some, as in a job that writes the last
    /// run.
    Job,
    /// The rows are put into tables, and the tables are tested as sources.
    Tables,
    /// One range of all keys is finished from the tables, as in a job that writes the last run.
    Range,
    /// Four ranges are finished from the tables, as in a job that writes the last run.
    Ranges,
    /// The rows of the tables are merged.
    TableMerge,
    /// The tables are scanned once.
    Scan,
    /// The tables are scanned in pages of 1,000 keys.
    Pages,
}

// The keys of a page.
const PAGE: u64 = 1_000;

// All steps.
const STEPS: [Step; 10] = [
    Step::Rows,
    Step::Merge,
    Step::Fold,
    Step::Job,
    Step::Tables,
    Step::Range,
    Step::Ranges,
    Step::TableMerge,
    Step::Scan,
    Step::Pages,
];

impl Step {
    /// The word for the step on the command line.
    pub fn name(self) -> &'static str {
        match self {
            Step::Rows => "rows",
            Step::Merge => "merge",
            Step::Fold => "fold",
            Step::Job => "job",
            Step::Tables => "tables",
            Step::Range => "range",
            Step::Ranges => "ranges",
            Step::TableMerge => "table-merge",
            Step::Scan => "scan",
            Step::Pages => "pages",
        }
    }

    /// The step with this word, if there is one.
    pub fn named(word: &str) -> Option<Step> {
        STEPS.iter().copied().find(|step| step.name() == word)
    }
}

// The number of rows that an iterator gives.
fn count_given<T: RowEntryIterator>(alloc: Global, iterator: T) -> Result<u64, SlateDBError>
    requires { T.sound iterator }
{
    let mut source = iterator;
    source.init(alloc)?;
    'rows: for given in 0..u64::MAX {
        if source.next(alloc)?.is_none() {
            return Ok(given);
        }
    }
    Ok(u64::MAX)
}

// A merge of lists whose rows rise, without dedup.
fn merge(alloc: Global, lists: Vec<ListIterator>) -> MergeIterator<ListIterator>
    requires { AllByRecursion (λ l. AreRising l.rows) lists.items }
    ensures sound { IsSound (λ _. ⊤) giving_state result }
    ensures alive { IsAlive (state_of giving_state result) }
    ensures rising { AreRising (state_of giving_state result).rows }
{
    merges_rise();
    MergeIterator::new(alloc, lists).with_dedup(false)
}

// The settings of a job that writes the last run. No sequence of the load is above the cut.
fn settings_of(load: Load) -> Settings {
    Settings {
        floor: load.rows,
        tick: 0,
        last_run: true,
        cut: load.rows,
    }
}

// Takes the rows as lists through the steps up to this one. Returns how many were made, and how
// many the last step gave.
fn count_listed(alloc: Global, load: Load, step: Step) -> Result<(u64, u64), SlateDBError> {
    let sources = make_sources(alloc, load)?;
    let rows = sources.rows;
    if step == Step::Rows {
        return Ok((rows, 0));
    }
    let merged = merge(alloc, sources.lists);
    if step == Step::Merge {
        return Ok((rows, count_given(alloc, merged)?));
    }
    let folded = MergeOperatorIterator::new(&AppendOperator, merged, false, Some(load.rows));
    if step == Step::Fold {
        return Ok((rows, count_given(alloc, folded)?));
    }
    let kept = RetentionIterator::new(alloc, folded, settings_of(load));
    Ok((rows, count_given(alloc, kept)?))
}

// Puts the rows into tables, and finishes this many ranges at once. Returns how many rows were
// made, and how many were given.
fn count_ranged<R: Threads + Sync>(
    rt: &R,
    alloc: Global,
    load: Load,
    ranges: u64,
) -> Result<(u64, u64), SlateDBError> {
    let runs = make_runs(alloc, load)?;
    let rows = count_rows(&runs);
    if ranges == 0 {
        return Ok((rows, 0));
    }
    Ok((
        rows,
        count_finished(rt, alloc, load, &runs, ranges, settings_of(load))?,
    ))
}

// Puts the rows into tables, and merges the rows of all tables. Returns how many rows were made, and
// how many the merge gave.
fn count_merged(alloc: Global, load: Load) -> Result<(u64, u64), SlateDBError> {
    let runs = make_runs(alloc, load)?;
    let all = BytesRange::unbounded();
    let merged = merge_runs(alloc, &runs, &all)?;
    Ok((count_rows(&runs), count_given(alloc, merged)?))
}

// Puts the rows into tables, and scans them in pages of `most` keys. Returns how many rows were made,
// and how many keys have an answer.
fn count_paged(alloc: Global, load: Load, most: u64) -> Result<(u64, u64), SlateDBError> {
    let runs = make_runs(alloc, load)?;
    let rows = count_rows(&runs);
    Ok((rows, count_scanned(alloc, &runs, load.rows, most)?))
}

/// Takes the rows through the steps up to this one. Returns how many were made, and how many the
/// last step gave.
pub fn count<R: Threads + Sync>(
    rt: &R,
    alloc: Global,
    load: Load,
    step: Step,
) -> Result<(u64, u64), SlateDBError> {
    match step {
        Step::Tables => count_ranged(rt, alloc, load, 0),
        Step::Range => count_ranged(rt, alloc, load, 1),
        Step::Ranges => count_ranged(rt, alloc, load, 4),
        Step::TableMerge => count_merged(alloc, load),
        Step::Scan => count_paged(alloc, load, load.rows),
        Step::Pages => count_paged(alloc, load, PAGE),
        _ => count_listed(alloc, load, step),
    }
}
