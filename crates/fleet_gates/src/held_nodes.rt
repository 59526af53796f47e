//! The nodes that jobs hold.

ghost use Rattle.std.specs.Prelude.{◌≡◌, ◌==◌, ◌++◌, ◌&&◌, ◌||◌, [], ◌∷◌, ℕ, List, not, IfOk, OnOk};
ghost use Rattle.std.specs.BTreeSet.{contains as set_contains};
ghost use Rattle.std.specs.Ordering.{nat_cmp};
ghost use Rattle.fleet_model.specs.Work.Gates.{reserves_nodes};
ghost use Rattle.fleet_model.specs.Jobs.{Job, contains};
ghost use Rattle.fleet_jobs.specs.Jobs.{job_of, jobs_of};
ghost use Rattle.fleet_jobs.specs.Places.{held_nodes};
ghost use Rattle.fleet_gates.specs.Held.{Decides, HasIds, others};

use fleet_jobs::{Compaction, NodeSet, reserves_nodes};
use fleet_rows::Ulid;
use std::alloc::{AllocError, Global};
use std::collections::BTreeSet;

/// The nodes that jobs with other ids hold: their destinations and their sources. A Scheduled,
/// Running or Compacted job holds its nodes, and so does a job whose id is among the lost ones.
/// These are the jobs whose commit failed in this poll by rule 0.
///
/// `submit_gate` takes the set for each job with this id.
pub fn held_by_others(
    alloc: Global,
    jobs: &[Compaction],
    lost: &[Ulid],
    id: Ulid,
) -> Result<NodeSet, AllocError>
    ensures { (job : Job) → job.id ≡ id
        → IfOk result (λ held. Decides held (jobs_of jobs.now) lost.now job) }
{
    let ids = id_set(alloc, lost)?;
    let mut held = NodeSet::new(alloc);
    'jobs: for job in jobs {
        add_held(&mut held, job, &ids, id)?;
    }
    Ok(held)
}

fn id_set(alloc: Global, ids: &[Ulid]) -> Result<BTreeSet<Ulid>, AllocError>
    ensures { IfOk result (λ set. HasIds set ids.now) }
{
    let mut set = BTreeSet::new(alloc);
    'ids: for id in ids {
        add_id(&mut set, *id)?;
    }
    Ok(set)
}

fn add_id(set: &mut BTreeSet<Ulid>, id: Ulid) -> Result<(), AllocError>
    ensures { OnOk result ((other : ℕ) → set_contains nat_cmp set.new other
        ≡ (set_contains nat_cmp set.old other || id == other)) }
{
    set.insert(id)?;
    Ok(())
}

// Adds the nodes of the job, if it has another id and holds them.
fn add_held(
    held: &mut NodeSet,
    job: &Compaction,
    lost: &BTreeSet<Ulid>,
    id: Ulid,
) -> Result<(), AllocError>
    ensures { (ids : List ℕ) → HasIds lost.now ids → OnOk result
        (held.new ≡ held.old ++ held_nodes (others id (job_of job.now ∷ [])) ids) }
{
    if job.id() != id && holds(job, lost) {
        held.add_nodes_of(job.spec())?;
    }
    Ok(())
}

fn holds(job: &Compaction, lost: &BTreeSet<Ulid>) -> bool
    ensures { result ≡ (reserves_nodes (job_of job.now)
        || set_contains nat_cmp lost.now job.now.id) }
{
    reserves_nodes(job) || lost.contains(&job.id())
}
