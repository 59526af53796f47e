//! Requests of users for jobs.

ghost use Rattle.std.specs.Prelude.{◌≡◌, Some, filter, IfOk, IsOkUnless};
ghost use Rattle.step_model.specs.Kept.Keeps.{Keeps};
ghost use Rattle.step_model.specs.Courses.StepEnds.{Reports};
ghost use Rattle.step_model.specs.Steps.SubmitSteps.{request_try, submit_request};
ghost use Rattle.fleet_tree.specs.Trees.{RunFlushes};
ghost use Rattle.fleet_jobs.specs.Jobs.{is_open};
ghost use Rattle.fleet_book.specs.Requests.{request_of};
ghost use Rattle.fleet_book.specs.Versions.{with_jobs};
ghost use Rattle.fleet_sched.specs.Answers.{Generates};
ghost use Rattle.fleet_sched.specs.Views.{view_of};
ghost use Rattle.fleet_step.specs.Steps.{StepRan, TryRan};
ghost use Rattle.fleet_coordinator.specs.Submits.{IsSubmitter};

use crate::submission::submit_specs;
use fleet_book::{
    CompactionRequest, Compactions, CompactorStateView, JobMap, VersionedCompactions,
};
use fleet_jobs::CompactionSpec;
use fleet_rows::{JobList, SlateDBError};
use fleet_sched::CompactionScheduler;
use fleet_step::{MOST_REFUSED, refused_at};
use fleet_store::Store;
use fleet_tree::VersionedManifest;
use std::alloc::Global;

// The records without the jobs that are over.
fn open_records(got: &VersionedCompactions) -> Result<VersionedCompactions, SlateDBError>
    ensures records { IfOk result (λ shown. shown
        ≡ with_jobs (filter is_open got.now.compactions.jobs) got.now) }
    ensures memory { IsOkUnless result SlateDBError.Memory }
{
    let Compactions {
        compactor_epoch,
        jobs,
    } = got.compactions().clone()?;
    let mut jobs = jobs.into_vec();
    jobs.retain(|job| job.active());
    let compactions = Compactions {
        compactor_epoch,
        jobs: JobMap::from_vec(jobs),
    };
    Ok(VersionedCompactions::from_compactions(got.id(), compactions))
}

// The specs that the scheduler generates on the view of this manifest and of these records.
fn generated(
    alloc: Global,
    scheduler: &(dyn CompactionScheduler + Send + Sync),
    manifest: VersionedManifest,
    got: &VersionedCompactions,
    request: &CompactionRequest,
) -> Result<Vec<CompactionSpec>, SlateDBError>
    ensures { (flushes : RunFlushes) → Generates ((answers scheduler.now).generate
        (view_of flushes (record { manifest = manifest; compactions = Some got.now }))
        (request_of request.now)) result }
{
    let state = CompactorStateView {
        manifest,
        compactions: Some(open_records(got)?),
    };
    scheduler.generate(alloc, &state, request)
}

// One try of a request.
fn try_request<S: Store>(
    alloc: Global,
    store: &mut S,
    moment: u64,
    scheduler: &(dyn CompactionScheduler + Send + Sync),
    request: &CompactionRequest,
) -> Result<JobList, SlateDBError>
    requires by { IsSubmitter (S.view store.old) }
    requires keeps { Keeps (S.view store.old).who.merge (S.view store.old).world }
    ensures { (again : _) → TryRan Reports
        (request_try moment (answers scheduler.now) (request_of request.now) again) again
        (S.view store.old) (S.view store.new) result }
{
    let got = store.get_records()?;
    let Some(got) = got else {
        return Err(SlateDBError::InvalidDBState);
    };
    let manifest = store.get_manifest()?;
    let specs = generated(alloc, scheduler, manifest, &got, request)?;
    submit_specs(alloc, store, moment, &got, specs.as_slice())
}

/// Submits jobs of the specs that the scheduler generates for a user's request, with ids of this
/// moment in milliseconds. Each try asks the scheduler anew, on the records and the manifest that
/// it got. The answer is the ids, in the order of the specs. Without a spec nothing is put.
///
/// `InvalidDBState` means that the store has no records, and `Conflict` that 64 puts were refused
/// in a row. `InvalidCompaction` and `Generate` are refusals of the scheduler. After each of these
/// no job was added, and the ids that were drawn stay unused. After `StoreFault` and after `Memory`
/// all the jobs are stored, or none is.
pub fn submit_request<S: Store>(
    alloc: Global,
    store: &mut S,
    moment: u64,
    scheduler: &(dyn CompactionScheduler + Send + Sync),
    request: &CompactionRequest,
) -> Result<JobList, SlateDBError>
    requires by { IsSubmitter (S.view store.old) }
    requires keeps { Keeps (S.view store.old).who.merge (S.view store.old).world }
    ensures ran { StepRan Reports
        (submit_request moment (answers scheduler.now) (request_of request.now))
        (S.view store.old) (S.view store.new) result }
    ensures keeps { Keeps (S.view store.new).who.merge (S.view store.new).world }
{
    let mut seen = 0;
    'tries: for tries in 0..MOST_REFUSED {
        let tried = try_request(alloc, store, moment, scheduler, request);
        let Some(version) = refused_at(&tried) else {
            return tried;
        };
        seen = version;
    }
    Err(SlateDBError::Conflict { seen })
}
