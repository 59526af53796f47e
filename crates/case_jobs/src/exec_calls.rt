//! Calls of `fleet_exec`.

ghost use Rattle.std.specs.Prelude.{◌≤◌, IfOk};
ghost use Rattle.fleet_exec.specs.Ranges.{AreSources};

use crate::fold_calls::{REFUSING, settings};
use bytes::Bytes;
use case_words::flaw::Flaw;
use case_words::given_rows::tell_result;
use case_words::parse::{range, source_words};
use case_words::tell::{Tell, tell_flag};
use case_words::words::{Parse, bytes, number, parse_list, parts};
use fleet_exec::{RangeGate, RangeJob, SourceSet, are_sources, finish_ranges, next_table};
use fleet_fold::{AppendOperator, MergeOperator};
use fleet_rows::{RowEntry, Settings};
use fleet_table::RunData;
use std::alloc::{AllocError, Global};
use std::sync::atomic::{AtomicUsize, Ordering};
use std::thread::Threads;

// The greatest number of ranges that one call finishes.
const MOST_RANGES: usize = 64;

/// Answers the call of this name. Returns false if no call in this file has it.
pub fn answers<R: Threads + Sync>(
    rt: &R,
    alloc: Global,
    name: &str,
    words: &[&str],
    answer: &mut String,
) -> Result<bool, Flaw> {
    match name {
        "sources" => sources(alloc, words, answer)?,
        "next" => next(alloc, &AppendOperator, words, answer)?,
        "nextno" => next(alloc, &REFUSING, words, answer)?,
        "walk" => walk(alloc, words, answer)?,
        "finish" => finish(rt, alloc, &AppendOperator, words, answer)?,
        "finishno" => finish(rt, alloc, &REFUSING, words, answer)?,
        _ => return Ok(false),
    }
    Ok(true)
}

// The sources of a word. They need not be in order.
fn parse_sources(alloc: Global, word: &str) -> Result<SourceSet, Flaw> {
    let words = source_words(alloc, word)?;
    let mut sources = SourceSet::new(alloc);
    'sources: for word in words.as_slice() {
        sources.push(RunData::parse(alloc, word)?)?;
    }
    Ok(sources)
}

// The sources of a word. It is an error if `are_sources` is false for them.
fn ordered_sources(alloc: Global, word: &str) -> Result<SourceSet, Flaw>
    ensures { IfOk result (λ sources. AreSources sources) }
{
    let sources = parse_sources(alloc, word)?;
    if are_sources(alloc, &sources)? {
        Ok(sources)
    } else {
        Err(Flaw::Order)
    }
}

// `sources` takes sources, and answers what `are_sources` says of them.
fn sources(alloc: Global, words: &[&str], answer: &mut String) -> Result<(), Flaw> {
    let [word] = words else {
        return Err(Flaw::Words);
    };
    let sources = parse_sources(alloc, word)?;
    Ok(tell_flag(answer, are_sources(alloc, &sources)?)?)
}

fn cursor(alloc: Global, key: &str, seq: &str) -> Result<Option<(Bytes, u64)>, Flaw> {
    if seq == "-" {
        return Ok(None);
    }
    let seq = number(seq)?;
    Ok(Some((bytes(alloc, key)?, seq)))
}

fn range_job_of(alloc: Global, settings: Settings, fields: &[&str]) -> Result<RangeJob, Flaw> {
    let [low, high, key, seq] = fields else {
        return Err(Flaw::Words);
    };
    let cursor = cursor(alloc, key, seq)?;
    Ok(RangeJob {
        range: range(alloc, low, high)?,
        cursor,
        settings,
    })
}

// The job of a range. Its word has two bounds, and the key and the sequence of the row that was
// written last.
fn range_job(alloc: Global, settings: Settings, word: &str) -> Result<RangeJob, Flaw> {
    let fields = parts(alloc, word, ',')?;
    range_job_of(alloc, settings, fields.as_slice())
}

// `next` and `nextno` take settings, sources, the greatest number of rows, and a range. They answer
// the range's next table.
fn next<O: MergeOperator>(
    alloc: Global,
    operator: &O,
    words: &[&str],
    answer: &mut String,
) -> Result<(), Flaw> {
    let [floor, tick, last_run, sources, most, range] = words else {
        return Err(Flaw::Words);
    };
    let settings = settings(floor, tick, last_run)?;
    let most = number(most)?;
    if most == 0 {
        return Err(Flaw::Number);
    }
    let job = range_job(alloc, settings, range)?;
    let sources = ordered_sources(alloc, sources)?;
    let given = next_table(alloc, &job, &sources, operator, most);
    tell_result(alloc, given, answer)
}

// The key and the sequence of the last row, if there is one.
fn last_row(rows: &[RowEntry]) -> Result<Option<(Bytes, u64)>, Flaw> {
    match rows.last() {
        Some(row) => Ok(Some((row.key.clone()?, row.seq))),
        None => Ok(None),
    }
}

// Moves the cursor of a range to the last of these rows.
fn go_on(job: &mut RangeJob, rows: &[RowEntry]) -> Result<(), Flaw> {
    job.cursor = last_row(rows)?;
    Ok(())
}

// Answers the next table of a range, with at most `most` rows, and moves the range's cursor to its
// last row.
fn take_on(
    alloc: Global,
    job: &mut RangeJob,
    sources: &SourceSet,
    most: u64,
    answer: &mut String,
) -> Result<(), Flaw>
    requires { AreSources sources.now }
{
    if most == 0 {
        return Err(Flaw::Number);
    }
    answer.push(' ')?;
    let given = next_table(alloc, &*job, sources, &AppendOperator, most)?;
    if let Some(rows) = &given {
        go_on(job, rows.as_slice())?;
    }
    Ok(given.tell(answer)?)
}

// `walk` takes settings, sources, a range, and numbers of rows. It takes a table for each number,
// one after the other, with at most that many rows. It answers these tables.
fn walk(alloc: Global, words: &[&str], answer: &mut String) -> Result<(), Flaw> {
    let [floor, tick, last_run, sources, range, counts] = words else {
        return Err(Flaw::Words);
    };
    let settings = settings(floor, tick, last_run)?;
    let mut job = range_job(alloc, settings, range)?;
    let sources = ordered_sources(alloc, sources)?;
    let counts: Vec<u64> = parse_list(alloc, counts, ',')?;
    answer.push_str("ok")?;
    'tables: for most in counts.as_slice() {
        take_on(alloc, &mut job, &sources, *most, answer)?;
    }
    Ok(())
}

// A gate that notes the reports it gets, those of each range apart, since ranges are made at once.
// Of each report it keeps the range and the table, one digit each.
#[derive(Drop)]
struct Calls {
    calls: Vec<AtomicUsize>,
}

impl Calls {
    fn new(alloc: Global, ranges: usize) -> Result<Calls, AllocError> {
        let mut calls = Vec::new(alloc);
        'ranges: for _range in 0..ranges {
            calls.push(AtomicUsize::new(0))?;
        }
        Ok(Calls { calls })
    }

    // Appends the reports, range by range, or 0 if there were none.
    fn tell(&self, answer: &mut String) -> Result<(), AllocError> {
        let mut none = true;
        'ranges: for noted in self.calls.as_slice() {
            let calls = noted.load(Ordering::SeqCst);
            if calls != 0 {
                none = false;
                write!(answer, "{calls}")?;
            }
        }
        if none {
            answer.push('0')?;
        }
        Ok(())
    }
}

impl RangeGate for Calls {
    fn given(&self, range: u32, table: u32) {
        if let Some(noted) = self.calls.get((range as usize).wrapping_sub(1)) {
            let call = (range as usize)
                .wrapping_mul(10)
                .wrapping_add(table as usize);
            let calls = noted.load(Ordering::SeqCst).wrapping_mul(100);
            noted.store(calls.wrapping_add(call), Ordering::SeqCst);
        }
    }
}

// Finishes ranges, and answers their tables and the reports that the gate got.
fn tell_ranges<R: Threads + Sync, O: MergeOperator>(
    rt: &R,
    alloc: Global,
    operator: &O,
    jobs: &[RangeJob],
    sources: &SourceSet,
    size: u64,
    answer: &mut String,
) -> Result<(), Flaw>
    requires { AreSources sources.now }
{
    if jobs.len() > MOST_RANGES {
        return Err(Flaw::Words);
    }
    let gate = Calls::new(alloc, jobs.len())?;
    let finished = finish_ranges(rt, alloc, jobs, sources, operator, size, &gate);
    tell_result(alloc, finished, answer)?;
    answer.push(' ')?;
    Ok(gate.tell(answer)?)
}

fn range_jobs(alloc: Global, settings: Settings, words: &[&str]) -> Result<Vec<RangeJob>, Flaw> {
    let mut jobs = Vec::new(alloc);
    'ranges: for word in words {
        jobs.push(range_job(alloc, settings, word)?)?;
    }
    Ok(jobs)
}

// `finish` and `finishno` take settings, sources, the size of a table in bytes, and ranges. They
// answer the tables of the ranges, and the reports to the gate.
fn finish<R: Threads + Sync, O: MergeOperator>(
    rt: &R,
    alloc: Global,
    operator: &O,
    words: &[&str],
    answer: &mut String,
) -> Result<(), Flaw> {
    let [floor, tick, last_run, sources, size, ranges @ ..] = words else {
        return Err(Flaw::Words);
    };
    let settings = settings(floor, tick, last_run)?;
    let size = number(size)?;
    let jobs = range_jobs(alloc, settings, ranges)?;
    let sources = ordered_sources(alloc, sources)?;
    tell_ranges(rt, alloc, operator, jobs.as_slice(), &sources, size, answer)
}
