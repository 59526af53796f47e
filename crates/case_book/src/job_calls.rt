//! Calls of `fleet_jobs` and `fleet_book` on specs, statuses, jobs and records.

ghost use Rattle.std.specs.Prelude.{◌≡◌, IfOk, None};

use crate::jobs::{jobs, spec, status, tell_jobs};
use crate::trees::{core, tell_run};
use case_words::flaw::Flaw;
use case_words::tables::named_view;
use case_words::tell::{tell_flag, tell_list};
use case_words::words::number;
use fleet_jobs::{Compaction, CompactionContext, Release};
use fleet_plan::Subcompaction;
use fleet_range::BytesRange;
use fleet_rows::{Settings, Ulid};
use fleet_tree::{ManifestCore, TableList};
use std::alloc::Global;

/// Answers the call of this name. Returns false if no call in this file has it.
pub fn answers(
    alloc: Global,
    name: &str,
    words: &[&str],
    answer: &mut String,
) -> Result<bool, Flaw> {
    match name {
        "spec" => spec_text(alloc, words, answer)?,
        "jobtext" => job_text(alloc, words, answer)?,
        "status" => status_tests(words, answer)?,
        "replaces" => replaces(words, answer)?,
        "trim" => trim(alloc, words, answer)?,
        "taken" => taken(alloc, words, answer)?,
        "moved" => moved(alloc, words, answer)?,
        _ => return Ok(false),
    }
    Ok(true)
}

// `spec` takes a spec, and answers its text, and whether it is a drain, names flushes and names runs.
fn spec_text(alloc: Global, words: &[&str], answer: &mut String) -> Result<(), Flaw> {
    let [word] = words else {
        return Err(Flaw::Words);
    };
    let spec = spec(alloc, word)?;
    let drain = spec.is_drain() as u8;
    let flushes = spec.has_l0_sources() as u8;
    let runs = spec.has_sr_sources() as u8;
    let copy = spec.clone()?;
    Ok(write!(answer, "ok {copy} {drain} {flushes} {runs}")?)
}

// A job with the spec of a word. It has no context.
fn job(alloc: Global, word: &str) -> Result<Compaction, Flaw>
    ensures { IfOk result (λ job. job.ctx ≡ None) }
{
    let spec = spec(alloc, word)?;
    Ok(Compaction::new(alloc, Ulid::from_parts(0, 1), spec))
}

// A range of all keys. Where it is asked for, one table was written for it.
fn range(alloc: Global, written: bool) -> Result<Subcompaction, Flaw> {
    let range = Subcompaction::new(alloc, BytesRange::from_prefix(alloc, &[])?);
    if !written {
        return Ok(range);
    }
    let mut tables = Vec::new(alloc);
    tables.push(named_view(alloc, 1)?.sst)?;
    Ok(range.with_output_ssts(TableList::from_vec(alloc, tables)?))
}

// As many ranges. For the first ones a table was written.
fn ranges(alloc: Global, written: u64, count: u64) -> Result<Vec<Subcompaction>, Flaw> {
    let mut ranges = Vec::new(alloc);
    'ranges: for place in 0..count {
        ranges.push(range(alloc, place < written)?)?;
    }
    Ok(ranges)
}

// `jobtext` takes a number of bytes, two numbers of ranges and a spec. It answers the text of a job
// of which so many bytes were processed, with a table for so many of so many ranges.
fn job_text(alloc: Global, words: &[&str], answer: &mut String) -> Result<(), Flaw> {
    let [processed, written, count, word] = words else {
        return Err(Flaw::Words);
    };
    let mut job = job(alloc, word)?;
    job.set_bytes_processed(number(processed)?);
    let settings = Settings {
        floor: 0,
        tick: 0,
        last_run: false,
        cut: 0,
    };
    let ranges = ranges(alloc, number(written)?, number(count)?)?;
    if ranges.len() > u32::MAX as usize {
        return Err(Flaw::Number);
    }
    job.set_ctx(Some(CompactionContext::new(ranges, settings, Release::Two)));
    Ok(write!(answer, "ok {job}")?)
}

// `status` takes a status. It answers whether it is active, is finished, and counts against the
// number of jobs at once.
fn status_tests(words: &[&str], answer: &mut String) -> Result<(), Flaw> {
    let [word] = words else {
        return Err(Flaw::Words);
    };
    let status = status(word)?;
    let active = status.active() as u8;
    let finished = status.finished() as u8;
    let counts = status.counts_against_max_concurrent() as u8;
    Ok(write!(answer, "ok {active} {finished} {counts}")?)
}

// `replaces` takes the local and the stored status, and answers `should_adopt_state_transition`.
fn replaces(words: &[&str], answer: &mut String) -> Result<(), Flaw> {
    let [local, stored] = words else {
        return Err(Flaw::Words);
    };
    let local = status(local)?;
    let replaces = local.should_adopt_state_transition(status(stored)?);
    Ok(tell_flag(answer, replaces)?)
}

// `trim` takes jobs, and answers what `retain_active_and_last_finished` leaves.
fn trim(alloc: Global, words: &[&str], answer: &mut String) -> Result<(), Flaw> {
    let [word] = words else {
        return Err(Flaw::Words);
    };
    let mut records = jobs(alloc, word)?;
    records.retain_active_and_last_finished();
    answer.push_str("ok ")?;
    Ok(tell_jobs(answer, &records)?)
}

// `taken` takes trees and a spec. It answers the flushes and the runs that a job takes.
fn taken(alloc: Global, words: &[&str], answer: &mut String) -> Result<(), Flaw> {
    let [trees, word] = words else {
        return Err(Flaw::Words);
    };
    answer.push_str("ok ")?;
    let core = core(alloc, trees)?;
    tell_taken(alloc, &job(alloc, word)?, &core, answer)
}

fn tell_taken(
    alloc: Global,
    job: &Compaction,
    core: &ManifestCore,
    answer: &mut String,
) -> Result<(), Flaw> {
    tell_views(alloc, job, core, answer)?;
    answer.push('/')?;
    tell_runs(alloc, job, core, answer)
}

fn tell_views(
    alloc: Global,
    job: &Compaction,
    core: &ManifestCore,
    answer: &mut String,
) -> Result<(), Flaw> {
    let views = job.get_l0_sst_views(alloc, core)?;
    Ok(tell_list(answer, views.as_slice(), ',')?)
}

fn tell_runs(
    alloc: Global,
    job: &Compaction,
    core: &ManifestCore,
    answer: &mut String,
) -> Result<(), Flaw> {
    let runs = job.get_sorted_runs(alloc, core)?;
    Ok(tell_list(answer, runs.as_slice(), ',')?)
}

// `moved` takes trees and a spec. It answers the run that a move makes.
fn moved(alloc: Global, words: &[&str], answer: &mut String) -> Result<(), Flaw> {
    let [trees, word] = words else {
        return Err(Flaw::Words);
    };
    let core = core(alloc, trees)?;
    match job(alloc, word)?.trivial_move_output(alloc, &core)? {
        Some(run) => {
            answer.push_str("ok ")?;
            Ok(tell_run(answer, &run)?)
        }
        None => Ok(answer.push_str("none")?),
    }
}
