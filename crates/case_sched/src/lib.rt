//! Cases of single calls on schedulers.
#![tactic(auto)]

mod unanswering;

use case_book::jobs::{spec, status, tell_specs};
use case_book::trees::{core, manifest};
use case_words::flaw::Flaw;
use case_words::words::{bytes, number};
use fleet_book::{CompactionRequest, Compactions, CompactorStateView, VersionedCompactions};
use fleet_jobs::{Compaction, CompactionSpec};
use fleet_level::{LevelOptions, LevelScheduler};
use fleet_rows::{SlateDBError, Ulid};
use fleet_sched::{
    CompactionScheduler, SizeTieredCompactionScheduler, SizeTieredCompactionSchedulerOptions,
};
use std::alloc::Global;
use unanswering::Unanswering;

/// Answers the call of this name. Returns false if no call in this crate has it.
pub fn answers(
    alloc: Global,
    name: &str,
    words: &[&str],
    answer: &mut String,
) -> Result<bool, Flaw> {
    match name {
        "propose" => propose(alloc, words, answer)?,
        "levels" => levels(alloc, words, answer)?,
        "validate" => validate(alloc, &tiered(), words, answer)?,
        "generate" => generate(alloc, &tiered(), words, answer)?,
        "unanswered" => unanswered(alloc, words, answer)?,
        _ => return Ok(false),
    }
    Ok(true)
}

// A job of a word: its status, `@` and its spec.
fn job(alloc: Global, id: u64, word: &str) -> Result<Compaction, Flaw> {
    let Some((state, rest)) = word.split_once('@') else {
        return Err(Flaw::Pair);
    };
    let id = Ulid::from_parts(0, id as u128);
    let mut job = Compaction::new(alloc, id, spec(alloc, rest)?);
    job.set_status(status(state)?);
    Ok(job)
}

// The jobs of a word, with `;` between them. Their ids count from 1.
fn jobs(alloc: Global, word: &str) -> Result<Compactions, Flaw> {
    let mut records = Compactions::new(alloc, 0);
    let mut id: u64 = 0;
    if word != "-" {
        'jobs: for part in word.split(';') {
            id = id.saturating_add(1);
            records.insert(job(alloc, id, part)?)?;
        }
    }
    Ok(records)
}

// What a scheduler is shown of these trees and jobs.
fn view(alloc: Global, trees: &str, words: &str) -> Result<CompactorStateView, Flaw> {
    let jobs = jobs(alloc, words)?;
    Ok(CompactorStateView {
        manifest: manifest(1, core(alloc, trees)?),
        compactions: Some(VersionedCompactions::from_compactions(1, jobs)),
    })
}

fn options(
    least: &str,
    most: &str,
    factor: &str,
) -> Result<SizeTieredCompactionSchedulerOptions, Flaw> {
    let Some((numerator, denominator)) = factor.split_once('/') else {
        return Err(Flaw::Pair);
    };
    match SizeTieredCompactionSchedulerOptions::try_new(
        number(least)?,
        number(most)?,
        number(numerator)?,
        number(denominator)?,
    ) {
        Some(options) => Ok(options),
        None => Err(Flaw::Number),
    }
}

// Answers `ok` and specs, or `refused`.
fn tell_answer(
    given: Result<Vec<CompactionSpec>, SlateDBError>,
    answer: &mut String,
) -> Result<(), Flaw> {
    match given {
        Ok(specs) => {
            answer.push_str("ok ")?;
            Ok(tell_specs(answer, specs.as_slice())?)
        }
        Err(SlateDBError::Memory) => Err(Flaw::Memory),
        Err(_) => Ok(answer.push_str("refused")?),
    }
}

// `propose` takes the least and the greatest number of sources, the factor of sizes as a fraction,
// the number of jobs at once, trees and jobs. It answers the proposals.
fn propose(alloc: Global, words: &[&str], answer: &mut String) -> Result<(), Flaw> {
    let [least, most, factor, at_once, trees, jobs] = words else {
        return Err(Flaw::Words);
    };
    let options = options(least, most, factor)?;
    let scheduler = SizeTieredCompactionScheduler::new(options, number(at_once)?);
    let view = view(alloc, trees, jobs)?;
    tell_answer(scheduler.propose(alloc, &view), answer)
}

// `levels` takes the trigger, the base, the ratio, the number of jobs at once, trees and jobs. It
// answers the proposals of the level scheduler.
fn levels(alloc: Global, words: &[&str], answer: &mut String) -> Result<(), Flaw> {
    let [trigger, base, ratio, at_once, trees, jobs] = words else {
        return Err(Flaw::Words);
    };
    let Some(options) = LevelOptions::try_new(number(trigger)?, number(base)?, number(ratio)?)
    else {
        return Err(Flaw::Number);
    };
    let scheduler = LevelScheduler::new(options, number(at_once)?);
    let view = view(alloc, trees, jobs)?;
    tell_answer(scheduler.propose(alloc, &view), answer)
}

fn tiered() -> SizeTieredCompactionScheduler {
    SizeTieredCompactionScheduler::default()
}

// `validate` takes trees and a spec. It answers `ok` or `refused`.
fn validate(
    alloc: Global,
    scheduler: &(dyn CompactionScheduler + Send + Sync),
    words: &[&str],
    answer: &mut String,
) -> Result<(), Flaw> {
    let [trees, word] = words else {
        return Err(Flaw::Words);
    };
    let spec = spec(alloc, word)?;
    let view = view(alloc, trees, "-")?;
    match scheduler.validate(alloc, &view, &spec) {
        Ok(()) => Ok(answer.push_str("ok")?),
        Err(SlateDBError::Memory) => Err(Flaw::Memory),
        Err(_) => Ok(answer.push_str("refused")?),
    }
}

// The request of a word: `full`, `full:` and a segment, or `spec:` and a spec.
fn request(alloc: Global, word: &str) -> Result<CompactionRequest, Flaw> {
    if word == "full" {
        return Ok(CompactionRequest::Full);
    }
    if let Some(segment) = word.strip_prefix("full:") {
        let segment = bytes(alloc, segment)?;
        return Ok(CompactionRequest::FullSegment { segment });
    }
    match word.strip_prefix("spec:") {
        Some(word) => Ok(CompactionRequest::Spec(spec(alloc, word)?)),
        None => Err(Flaw::Choice),
    }
}

// `generate` takes trees and a request. It answers the specs that the request gives.
fn generate(
    alloc: Global,
    scheduler: &(dyn CompactionScheduler + Send + Sync),
    words: &[&str],
    answer: &mut String,
) -> Result<(), Flaw> {
    let [trees, word] = words else {
        return Err(Flaw::Words);
    };
    let request = request(alloc, word)?;
    let view = view(alloc, trees, "-")?;
    tell_answer(scheduler.generate(alloc, &view, &request), answer)
}

// `unanswered` takes `propose` with trees, or `validate` or `generate` with its words. A scheduler
// without answers of its own answers, from a box.
fn unanswered(alloc: Global, words: &[&str], answer: &mut String) -> Result<(), Flaw> {
    let boxed: Box<dyn CompactionScheduler + Send + Sync> = Box::new(alloc, Unanswering)?;
    match words {
        ["propose", trees] => tell_answer(boxed.propose(alloc, &view(alloc, trees, "-")?), answer),
        ["validate", rest @ ..] => validate(alloc, &*boxed, rest, answer),
        ["generate", rest @ ..] => generate(alloc, &*boxed, rest, answer),
        _ => Err(Flaw::Words),
    }
}
