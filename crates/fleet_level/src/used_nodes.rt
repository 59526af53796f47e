//! The nodes that jobs use.

ghost use Rattle.std.specs.Prelude.{◌≡◌, ◌++◌, ◌∷◌, [], Some, filter, flat_map, length, map, nat_lt, IfOk, OnOk};
ghost use Rattle.std.specs.List.{list_any};
ghost use Rattle.fleet_model.specs.Jobs.{nodes_of};
ghost use Rattle.fleet_model.specs.Nodes.{L0, names_contain};
ghost use Rattle.fleet_jobs.specs.Jobs.{is_open, jobs_of};
ghost use Rattle.fleet_jobs.specs.Sources.{name_of};
ghost use Rattle.fleet_sched.specs.Views.{open_records, shown_jobs};

use fleet_book::{CompactorStateView, VersionedCompactions};
use fleet_jobs::{Compaction, NodeSet, SourceId};
use fleet_tree::FlushList;
use std::alloc::{AllocError, Global};

/// The nodes that the jobs that are shown use.
pub fn nodes_used(alloc: Global, state: &CompactorStateView) -> Result<NodeSet, AllocError>
    ensures { IfOk result
        (λ used. used ≡ flat_map (λ job. nodes_of job.spec) (shown_jobs state.now)) }
{
    let mut used = NodeSet::new(alloc);
    if let Some(records) = state.compactions() {
        add_used(&mut used, records)?;
    }
    Ok(used)
}

fn add_used(used: &mut NodeSet, records: &VersionedCompactions) -> Result<(), AllocError>
    ensures { OnOk result (used.new ≡ used.old
        ++ flat_map (λ job. nodes_of job.spec) (jobs_of (open_records (Some records.now)))) }
{
    'jobs: for job in records.recent_compactions() {
        add_used_by(used, job)?;
    }
    Ok(())
}

// Adds the nodes that a job uses, if it is not over.
fn add_used_by(used: &mut NodeSet, job: &Compaction) -> Result<(), AllocError>
    ensures { OnOk result (used.new ≡ used.old
        ++ flat_map (λ job. nodes_of job.spec) (jobs_of (filter is_open (job.now ∷ [])))) }
{
    if job.active() {
        used.add_nodes_of(job.spec())?;
    }
    Ok(())
}

/// Whether there are fewer flushes than this.
pub fn are_fewer(flushes: &FlushList, count: u64) -> bool
    ensures { result ≡ nat_lt (length flushes.now) count }
{
    flushes.len() < count
}

/// Whether one of these flushes is used.
pub fn uses_any(used: &NodeSet, flushes: &FlushList) -> bool
    ensures { result ≡ list_any (names_contain used.now) (map (λ view. L0 view.id) flushes.now) }
{
    has_any(used, flushes)
}

fn has_any(used: &NodeSet, flushes: &FlushList) -> bool
    ensures { result ≡ list_any (λ view. names_contain used.now (L0 view.id)) flushes.now }
{
    'flushes: for flush in flushes.iter() {
        if used.contains(SourceId::SstView(flush.id)) {
            return true;
        }
    }
    false
}

/// The names of flushes as sources of a job.
pub fn flush_sources(alloc: Global, flushes: &FlushList) -> Result<Vec<SourceId>, AllocError>
    ensures { IfOk result
        (λ sources. map name_of sources.items ≡ map (λ view. L0 view.id) flushes.now) }
{
    let mut sources = Vec::new(alloc);
    'flushes: for flush in flushes.iter() {
        sources.push(SourceId::SstView(flush.id))?;
    }
    Ok(sources)
}
