//! Calls of `fleet_book` on a coordinator's state.

ghost use Rattle.std.specs.Prelude.{◌≡◌};

use crate::jobs::{jobs, spec, tell_jobs};
use crate::trees::{core, manifest, tell_trees};
use case_words::flaw::Flaw;
use case_words::given_rows::tell_refusal;
use case_words::words::{number, parse_if_any};
use fleet_book::{Compactions, CompactorState, CompactorStateView, VersionedCompactions};
use fleet_jobs::{Compaction, CompactionStatus, sources_stand};
use fleet_rows::{SlateDBError, Ulid};
use fleet_tree::{SortedRun, VersionedManifest, ViewList};
use std::alloc::Global;

// The version and the epoch of all records here.
const VERSION: u64 = 1;

/// Answers the call of this name. Returns false if no call in this file has it.
pub fn answers(
    alloc: Global,
    name: &str,
    words: &[&str],
    answer: &mut String,
) -> Result<bool, Flaw> {
    match name {
        "add" => add(alloc, words, answer)?,
        "adopt" => adopt(alloc, words, answer)?,
        "shown" => shown(alloc, words, answer)?,
        "stored" => stored(alloc, words, answer)?,
        "finishjob" => finish(alloc, words, answer)?,
        _ => return Ok(false),
    }
    Ok(true)
}

// A coordinator's state with this manifest and these jobs.
fn state_of(manifest: VersionedManifest, jobs: Compactions) -> Result<CompactorState, Flaw> {
    let records = VersionedCompactions::from_compactions(VERSION, jobs);
    if records.compactor_epoch() != manifest.compactor_epoch() {
        return Err(Flaw::Refused);
    }
    Ok(CompactorState::new(manifest, records))
}

// A coordinator's state with these trees and these jobs.
fn state(alloc: Global, trees: &str, jobs: Compactions) -> Result<CompactorState, Flaw> {
    state_of(manifest(VERSION, core(alloc, trees)?), jobs)
}

fn own_jobs(state: &CompactorState) -> &Compactions
    ensures { result.now ≡ state.now.compactions.compactions }
{
    state.compactions().compactions()
}

// `add` takes jobs, an id and a spec. It answers the jobs after a job with this id and spec was
// added, or the refusal.
fn add(alloc: Global, words: &[&str], answer: &mut String) -> Result<(), Flaw> {
    let [local, id, word] = words else {
        return Err(Flaw::Words);
    };
    let id = Ulid::from_parts(0, number(id)? as u128);
    let mut state = state(alloc, "-=-", jobs(alloc, local)?)?;
    let job = Compaction::new(alloc, id, spec(alloc, word)?);
    if own_jobs(&state).get(&id).is_some() {
        return Err(Flaw::Order);
    }
    tell_added(alloc, state.add_compaction(job), &state, answer)
}

fn tell_added(
    alloc: Global,
    added: Result<(), SlateDBError>,
    state: &CompactorState,
    answer: &mut String,
) -> Result<(), Flaw> {
    match added {
        Ok(()) => tell_own(state, answer),
        Err(error) => tell_refusal(alloc, &error, answer),
    }
}

// Answers the jobs of a state.
fn tell_own(state: &CompactorState, answer: &mut String) -> Result<(), Flaw> {
    answer.push_str("ok ")?;
    Ok(tell_jobs(answer, own_jobs(state))?)
}

// `adopt` takes the local jobs and the stored jobs. It answers the local jobs after
// `merge_remote_compactions`.
fn adopt(alloc: Global, words: &[&str], answer: &mut String) -> Result<(), Flaw> {
    let [local, remote] = words else {
        return Err(Flaw::Words);
    };
    let mut state = state(alloc, "-=-", jobs(alloc, local)?)?;
    take_stored(alloc, &mut state, remote)?;
    tell_own(&state, answer)
}

fn take_stored(alloc: Global, state: &mut CompactorState, word: &str) -> Result<(), Flaw> {
    let stored = VersionedCompactions::from_compactions(VERSION, jobs(alloc, word)?);
    Ok(state.merge_remote_compactions(stored)?)
}

// `shown` takes jobs, and answers the jobs that a view shows.
fn shown(alloc: Global, words: &[&str], answer: &mut String) -> Result<(), Flaw> {
    let [local] = words else {
        return Err(Flaw::Words);
    };
    let state = state(alloc, "-=-", jobs(alloc, local)?)?;
    tell_shown(alloc, &state, answer)
}

fn tell_shown(alloc: Global, state: &CompactorState, answer: &mut String) -> Result<(), Flaw> {
    let view = state.view(alloc)?;
    tell_view(&view, answer)
}

fn tell_view(view: &CompactorStateView, answer: &mut String) -> Result<(), Flaw> {
    match view.compactions() {
        Some(records) => {
            answer.push_str("ok ")?;
            Ok(tell_jobs(answer, records.compactions())?)
        }
        None => Ok(answer.push_str("none")?),
    }
}

// `stored` takes the local trees and the stored trees. It answers the local trees after
// `merge_remote_manifest`.
fn stored(alloc: Global, words: &[&str], answer: &mut String) -> Result<(), Flaw> {
    let [local, remote] = words else {
        return Err(Flaw::Words);
    };
    let mut state = state(alloc, local, Compactions::new(alloc, 0))?;
    let remote = manifest(VERSION, core(alloc, remote)?);
    state.merge_remote_manifest(alloc, remote)?;
    answer.push_str("ok ")?;
    Ok(tell_trees(answer, state.manifest().core())?)
}

// Finishes the job with this id. A job that makes a run makes one without tables.
fn finish_job(alloc: Global, state: &mut CompactorState, id: Ulid) -> Result<(), Flaw> {
    let Some(job) = own_jobs(state).get(&id) else {
        return Err(Flaw::Refused);
    };
    if !sources_stand(alloc, job.spec(), state.manifest().core())? {
        return Err(Flaw::Order);
    }
    match job.spec().destination() {
        Some(run) => {
            let output = SortedRun::new(run, ViewList::new(alloc));
            state.finish_compaction(alloc, id, output)?;
        }
        None => state.finish_drain_compaction(alloc, id)?,
    }
    Ok(())
}

// A Compacted job with this spec, which keeps this cut.
fn compacted(alloc: Global, cut: &str, word: &str) -> Result<Compaction, Flaw> {
    let mut job = Compaction::new(alloc, Ulid::from_parts(0, 1), spec(alloc, word)?);
    job.set_status(CompactionStatus::Compacted);
    job.set_cut(parse_if_any(alloc, cut, "-")?);
    Ok(job)
}

fn one_job(alloc: Global, cut: &str, word: &str) -> Result<Compactions, Flaw> {
    let mut records = Compactions::new(alloc, 0);
    records.insert(compacted(alloc, cut, word)?)?;
    Ok(records)
}

// A manifest with these trees, this floor and this horizon.
fn bounded(
    alloc: Global,
    floor: &str,
    horizon: &str,
    trees: &str,
) -> Result<VersionedManifest, Flaw> {
    let floor = number(floor)?;
    let horizon = number(horizon)?;
    let mut core = core(alloc, trees)?;
    core.recent_snapshot_min_seq = floor;
    core.horizon = horizon;
    Ok(manifest(VERSION, core))
}

// `finishjob` takes the floor, the horizon, a cut that may be missing, trees and a spec. It answers the
// trees and the horizon after a Compacted job with this cut and spec was finished, and the jobs.
fn finish(alloc: Global, words: &[&str], answer: &mut String) -> Result<(), Flaw> {
    let [floor, horizon, cut, trees, word] = words else {
        return Err(Flaw::Words);
    };
    let jobs = one_job(alloc, cut, word)?;
    let mut state = state_of(bounded(alloc, floor, horizon, trees)?, jobs)?;
    finish_job(alloc, &mut state, Ulid::from_parts(0, 1))?;
    tell_finished(&state, answer)
}

fn tell_finished(state: &CompactorState, answer: &mut String) -> Result<(), Flaw> {
    answer.push_str("ok ")?;
    let core = state.manifest().core();
    tell_trees(answer, core)?;
    let horizon = core.horizon;
    write!(answer, " {horizon} ")?;
    Ok(tell_jobs(answer, own_jobs(state))?)
}
