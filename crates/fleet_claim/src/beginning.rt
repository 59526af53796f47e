//! How the attempts of a claim begin.

ghost use Rattle.std.specs.Prelude.{◌≡◌, ◌<◌, ◌^◌, map, IfOk, IsOkUnless, OnOk};
ghost use Rattle.fleet_jobs.specs.Sources.{name_of};
ghost use Rattle.fleet_claim.specs.Beginnings.{Adds, AreStarts, IsBeginning, plan_note, settings_at};

use crate::CompactionWorkerOptions;
use crate::contexts::{context, key_ranges};
use crate::put::next_attempt;
use crate::sources::{are_there, is_last_run, source_views};
use fleet_history::Note;
use fleet_jobs::{Compaction, CompactionContext, CompactionSpec, Release, SourceId, nodes_at};
use fleet_rows::{JobList, Settings, SlateDBError, Ulid};
use fleet_tree::{ManifestCore, SsTableView, TableList, VersionedManifest};
use std::alloc::{AllocError, Global};

/// An attempt that a claim begins: its job, its number, the job's source tables, and its context.
#[derive(Debug, Drop)]
pub struct ClaimedAttempt {
    pub job: Ulid,
    pub number: u64,
    pub sources: JobList,
    /// The descriptions of the source tables, in the same order.
    pub tables: TableList,
    pub ctx: CompactionContext,
}

/// How claimed jobs begin: the attempts, the notes of their plans, and the jobs that cannot start.
#[derive(Debug, Drop)]
pub struct Starts {
    pub begun: Vec<ClaimedAttempt>,
    pub notes: Vec<Note>,
    pub released: Vec<Ulid>,
}

// The settings of an attempt that begins under this manifest, whose tree has these nodes.
fn settings(
    core: &ManifestCore,
    spec: &CompactionSpec,
    nodes: &[SourceId],
    options: &CompactionWorkerOptions,
    moment: u64,
) -> Settings
    ensures { result ≡ settings_at core.now options.now moment spec.now (map name_of nodes.now) }
{
    Settings {
        floor: core.recent_snapshot_min_seq,
        tick: core.last_l0_clock_tick,
        last_run: is_last_run(spec.destination(), nodes),
        cut: core.cut(moment, options.retention_ms),
    }
}

fn copied(alloc: Global, ids: &[Ulid]) -> Result<JobList, AllocError>
    ensures { IfOk result (λ copy. copy ≡ ids.now) }
{
    let mut copy = Vec::with_capacity(alloc, ids.len())?;
    'ids: for id in ids {
        copy.push(*id)?;
    }
    Ok(JobList::from_vec(copy))
}

// Copies of the descriptions that the views have.
fn described(alloc: Global, views: &[SsTableView]) -> Result<TableList, SlateDBError>
    ensures tables { IfOk result (λ tables. tables ≡ map (λ view. view.sst) views.now) }
    ensures memory { IsOkUnless result SlateDBError.Memory }
{
    let mut tables = Vec::with_capacity(alloc, views.len())?;
    'views: for view in views {
        tables.push(view.sst.clone()?)?;
    }
    Ok(TableList::from_vec(alloc, tables)?)
}

// The attempt at the claimed job that begins under this manifest, or None if the job cannot start.
fn begin(
    alloc: Global,
    release: Release,
    options: &CompactionWorkerOptions,
    moment: u64,
    core: &ManifestCore,
    job: &Compaction,
) -> Result<Option<ClaimedAttempt>, SlateDBError>
    requires few { options.now.max_subcompactions < 2 ^ 32 }
    ensures begins { IfOk result (IsBeginning release options.now moment core.now job.now) }
    ensures memory { IsOkUnless result SlateDBError.Memory }
{
    let spec = job.spec();
    let nodes = nodes_at(alloc, spec.segment().as_slice(), core)?;
    let views = source_views(alloc, spec, core)?;
    let tables = job.source_tables();
    let there = are_there(alloc, &nodes, spec.sources(), &views, tables)?;
    if !there {
        return Ok(None);
    }
    let settings = settings(core, spec, &nodes, options, moment);
    let most = options.max_subcompactions;
    Ok(Some(ClaimedAttempt {
        job: job.id(),
        number: next_attempt(job.attempt())?,
        sources: copied(alloc, tables)?,
        ctx: context(alloc, job.ctx(), &views, most, settings, release)?,
        tables: described(alloc, &views)?,
    }))
}

fn plan_note(alloc: Global, attempt: &ClaimedAttempt) -> Result<Note, SlateDBError>
    ensures note { IfOk result (λ note. note ≡ plan_note attempt.now) }
    ensures memory { IsOkUnless result SlateDBError.Memory }
{
    let ranges = key_ranges(alloc, attempt.ctx.subcompactions())?;
    Ok(Note::Plan(attempt.job, attempt.number, ranges))
}

// Adds how the job begins.
fn add_start(
    starts: &mut Starts,
    alloc: Global,
    release: Release,
    options: &CompactionWorkerOptions,
    moment: u64,
    core: &ManifestCore,
    job: &Compaction,
) -> Result<(), SlateDBError>
    requires few { options.now.max_subcompactions < 2 ^ 32 }
    ensures ok { OnOk result
        (Adds release options.now moment core.now job.now starts.old starts.new) }
    ensures memory { IsOkUnless result SlateDBError.Memory }
{
    let Some(attempt) = begin(alloc, release, options, moment, core, job)? else {
        starts.released.push(job.id())?;
        return Ok(());
    };
    if job.ctx().is_none() {
        starts.notes.push(plan_note(alloc, &attempt)?)?;
    }
    starts.begun.push(attempt)?;
    Ok(())
}

/// How these jobs begin, which a worker of this release claimed at this moment, under the manifest
/// that it got after its put. A job cannot start if the manifest lacks one of its sources, or has
/// other tables for them than the job's record names.
pub fn begin_all(
    alloc: Global,
    release: Release,
    options: &CompactionWorkerOptions,
    moment: u64,
    manifest: &VersionedManifest,
    jobs: &[Compaction],
) -> Result<Starts, SlateDBError>
    requires few { options.now.max_subcompactions < 2 ^ 32 }
    ensures starts { IfOk result (AreStarts release options.now moment manifest.now jobs.now) }
    ensures memory { IsOkUnless result SlateDBError.Memory }
{
    let core = manifest.core();
    let mut starts = Starts {
        begun: Vec::new(alloc),
        notes: Vec::new(alloc),
        released: Vec::new(alloc),
    };
    'jobs: for job in jobs {
        add_start(&mut starts, alloc, release, options, moment, core, job)?;
    }
    Ok(starts)
}
