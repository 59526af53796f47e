//! Flushes and runs with their sizes.

ghost use Rattle.std.specs.Prelude.{◌≡◌, ◌+◌, ◌-◌, drop, fold, length, map, IfOk};
ghost use Rattle.row_model.specs.Written.Sizes.{saturated_sum};
ghost use Rattle.fleet_jobs.specs.Sources.{name_of};
ghost use Rattle.sched_model.specs.Series.{oldest};
ghost use Rattle.sched_model.specs.Sizes.{flush_names, run_names, total_size};
ghost use Rattle.fleet_sched.specs.Sizes.{flush_in, run_in};

use fleet_jobs::SourceId;
use fleet_rows::Ulid;
use fleet_tree::{FlushList, Runs, SortedRun, SsTableView};
use std::alloc::{AllocError, Global};
use std::marker::Model;

/// A flush by its name, with the size of its table in bytes.
#[derive(Clone, Copy, Debug)]
pub struct SizedFlush {
    pub id: Ulid,
    pub size: u64,
}

impl Model for SizedFlush {
    ghost use Rattle.sched_model.specs.Sizes.{Sized};

    ghost Value = { Sized };

    ghost view = { λ f. record { id = f.id; size = f.size } };

    ghost inverse = { λ v. record { id = v.id; size = v.size } };
}

/// A run by its id, with the size of its tables in bytes.
#[derive(Clone, Copy, Debug)]
pub struct SizedRun {
    pub id: u32,
    pub size: u64,
}

impl Model for SizedRun {
    ghost use Rattle.sched_model.specs.Sizes.{Sized};

    ghost Value = { Sized };

    ghost view = { λ r. record { id = r.id; size = r.size } };

    ghost inverse = { λ v. record { id = v.id; size = v.size } };
}

pub fn sized_flushes(alloc: Global, views: &FlushList) -> Result<Vec<SizedFlush>, AllocError>
    ensures { IfOk result (λ flushes. flushes.items ≡ map flush_in views.now) }
{
    let mut flushes = Vec::new(alloc);
    'views: for view in views.iter() {
        flushes.push(sized_flush(view))?;
    }
    Ok(flushes)
}

fn sized_flush(view: &SsTableView) -> SizedFlush
    ensures { result ≡ flush_in view.now }
{
    SizedFlush {
        id: view.id,
        size: view.estimate_size(),
    }
}

pub fn sized_runs(alloc: Global, runs: Runs<'_>) -> Result<Vec<SizedRun>, AllocError>
    ensures { IfOk result (λ sized. sized.items ≡ map run_in runs.entry) }
{
    let mut sized = Vec::new(alloc);
    'runs: for run in runs {
        sized.push(sized_run(run))?;
    }
    Ok(sized)
}

fn sized_run(run: &SortedRun) -> SizedRun
    ensures { result ≡ run_in run.now }
{
    SizedRun {
        id: run.id,
        size: run.estimate_size(),
    }
}

/// The names of flushes as sources of a job.
pub fn flush_sources(alloc: Global, flushes: &[SizedFlush]) -> Result<Vec<SourceId>, AllocError>
    ensures { IfOk result (λ sources. map name_of sources.items ≡ flush_names flushes.now) }
{
    let mut sources = Vec::new(alloc);
    'flushes: for flush in flushes {
        sources.push(SourceId::SstView(flush.id))?;
    }
    Ok(sources)
}

/// The names of runs as sources of a job.
pub fn run_sources(alloc: Global, runs: &[SizedRun]) -> Result<Vec<SourceId>, AllocError>
    ensures { IfOk result (λ sources. map name_of sources.items ≡ run_names runs.now) }
{
    let mut sources = Vec::new(alloc);
    'runs: for run in runs {
        sources.push(SourceId::SortedRun(run.id))?;
    }
    Ok(sources)
}

/// The sum of the flushes' sizes. It stops at `u64::MAX`.
pub fn total_size(flushes: &[SizedFlush]) -> u64
    ensures { result ≡ total_size flushes.now }
{
    size_of(flushes)
}

fn size_of(flushes: &[SizedFlush]) -> u64
    ensures { result ≡ fold (λ size flush. saturated_sum (size + flush.size)) 0 flushes.now }
{
    flushes.iter().fold(0, with_flush)
}

fn with_flush(size: u64, flush: &SizedFlush) -> u64
    ensures { result ≡ saturated_sum (size + flush.now.size) }
{
    size.saturating_add(flush.size)
}

/// The oldest flushes, at most as many as given.
pub fn oldest_flushes(count: u64, flushes: &[SizedFlush]) -> &[SizedFlush]
    ensures { result.now ≡ oldest count flushes.now }
{
    &flushes[flushes.len().saturating_sub(count as usize)..]
}

/// The oldest runs, at most as many as given.
pub fn oldest_runs(count: u64, runs: &[SizedRun]) -> &[SizedRun]
    ensures { result.now ≡ oldest count runs.now }
{
    &runs[runs.len().saturating_sub(count as usize)..]
}
