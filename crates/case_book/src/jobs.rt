//! Specs and jobs that are read from words, and how they are printed. The word of a spec is its
//! segment, its destination or `-` for a drain, and its sources, with `:` between them. A source is
//! `l` and the id of a flush, or `r` and the id of a run; there is a `,` between two. The word of a
//! job is its id, `=`, its status, `@` and its spec. Jobs have `;` between them; `-` is no jobs.

use case_words::flaw::Flaw;
use case_words::tell::Tell;
use case_words::words::{Parse, bytes, number, parts};
use fleet_book::Compactions;
use fleet_jobs::{Compaction, CompactionSpec, CompactionStatus, SourceId};
use fleet_rows::Ulid;
use std::alloc::{AllocError, Global};

fn source(alloc: Global, word: &str) -> Result<SourceId, Flaw> {
    if let Some(id) = word.strip_prefix('l') {
        return Ok(SourceId::SstView(Ulid::from_parts(0, number(id)? as u128)));
    }
    match word.strip_prefix('r') {
        Some(id) => Ok(SourceId::SortedRun(u32::parse(alloc, id)?)),
        None => Err(Flaw::Choice),
    }
}

fn sources(alloc: Global, word: &str) -> Result<Vec<SourceId>, Flaw> {
    let mut sources = Vec::new(alloc);
    if word != "-" {
        'sources: for part in word.split(',') {
            sources.push(source(alloc, part)?)?;
        }
    }
    Ok(sources)
}

/// The spec of a word.
pub fn spec(alloc: Global, word: &str) -> Result<CompactionSpec, Flaw> {
    let fields = parts(alloc, word, ':')?;
    let [segment, destination, named] = fields.as_slice() else {
        return Err(Flaw::Words);
    };
    let segment = bytes(alloc, segment)?;
    let sources = sources(alloc, named)?;
    if *destination == "-" {
        return Ok(CompactionSpec::drain_segment(segment, sources));
    }
    let destination = u32::parse(alloc, destination)?;
    Ok(CompactionSpec::for_segment(segment, sources, destination))
}

/// The status of a word.
pub fn status(word: &str) -> Result<CompactionStatus, Flaw> {
    match word {
        "submitted" => Ok(CompactionStatus::Submitted),
        "scheduled" => Ok(CompactionStatus::Scheduled),
        "running" => Ok(CompactionStatus::Running),
        "compacted" => Ok(CompactionStatus::Compacted),
        "completed" => Ok(CompactionStatus::Completed),
        "failed" => Ok(CompactionStatus::Failed),
        _ => Err(Flaw::Choice),
    }
}

fn status_word(status: CompactionStatus) -> &'static str {
    match status {
        CompactionStatus::Submitted => "submitted",
        CompactionStatus::Scheduled => "scheduled",
        CompactionStatus::Running => "running",
        CompactionStatus::Compacted => "compacted",
        CompactionStatus::Completed => "completed",
        CompactionStatus::Failed => "failed",
    }
}

fn job(alloc: Global, word: &str) -> Result<Compaction, Flaw> {
    let Some((id, rest)) = word.split_once('=') else {
        return Err(Flaw::Pair);
    };
    let Some((state, spec_word)) = rest.split_once('@') else {
        return Err(Flaw::Pair);
    };
    let id = Ulid::from_parts(0, number(id)? as u128);
    let mut job = Compaction::new(alloc, id, spec(alloc, spec_word)?);
    job.set_status(status(state)?);
    Ok(job)
}

/// The jobs of a word, as the records of a coordinator of epoch 0.
pub fn jobs(alloc: Global, word: &str) -> Result<Compactions, Flaw> {
    let mut records = Compactions::new(alloc, 0);
    if word != "-" {
        'jobs: for part in word.split(';') {
            records.insert(job(alloc, part)?)?;
        }
    }
    Ok(records)
}

fn tell_source(answer: &mut String, source: &SourceId) -> Result<(), AllocError> {
    match source {
        SourceId::SstView(id) => {
            let number = id.number();
            write!(answer, "l{number}")
        }
        SourceId::SortedRun(id) => write!(answer, "r{id}"),
    }
}

fn tell_sources(answer: &mut String, sources: &[SourceId]) -> Result<(), AllocError> {
    let [first, rest @ ..] = sources else {
        return answer.push('-');
    };
    tell_source(answer, first)?;
    'rest: for source in rest {
        answer.push(',')?;
        tell_source(answer, source)?;
    }
    Ok(())
}

/// Appends a spec as it is read.
pub fn tell_spec(answer: &mut String, spec: &CompactionSpec) -> Result<(), AllocError> {
    spec.segment().as_slice().tell(answer)?;
    match spec.destination() {
        Some(destination) => write!(answer, ":{destination}:")?,
        None => answer.push_str(":-:")?,
    }
    tell_sources(answer, spec.sources())
}

/// Appends specs with `;` between them, or `-` if there are none.
pub fn tell_specs(answer: &mut String, specs: &[CompactionSpec]) -> Result<(), AllocError> {
    let [first, rest @ ..] = specs else {
        return answer.push('-');
    };
    tell_spec(answer, first)?;
    'rest: for spec in rest {
        answer.push(';')?;
        tell_spec(answer, spec)?;
    }
    Ok(())
}

fn tell_job(answer: &mut String, job: &Compaction) -> Result<(), AllocError> {
    let number = job.id().number();
    let status = status_word(job.status());
    write!(answer, "{number}={status}@")?;
    tell_spec(answer, job.spec())
}

/// Appends jobs as they are read.
pub fn tell_jobs(answer: &mut String, records: &Compactions) -> Result<(), AllocError> {
    let mut first = true;
    'jobs: for job in records.iter() {
        if !first {
            answer.push(';')?;
        }
        tell_job(answer, job)?;
        first = false;
    }
    if first { answer.push('-') } else { Ok(()) }
}
