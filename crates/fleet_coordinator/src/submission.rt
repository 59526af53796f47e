//! Submissions of jobs.

ghost use Rattle.std.specs.Prelude.{◌≡◌, length, map, IfOk, IsOkUnless, None, OnOk};
ghost use Rattle.std.specs.List.{zip};
ghost use Rattle.fleet_model.specs.Jobs.{put_job};
ghost use Rattle.fleet_model.specs.Work.Records.{new_job};
ghost use Rattle.step_model.specs.Kept.Keeps.{Keeps};
ghost use Rattle.step_model.specs.Courses.StepEnds.{Reports};
ghost use Rattle.step_model.specs.Steps.SubmitSteps.{submit, submit_try, submits_specs};
ghost use Rattle.fleet_jobs.specs.Jobs.{fresh_job, jobs_of};
ghost use Rattle.fleet_jobs.specs.Specs.{spec_of};
ghost use Rattle.fleet_book.specs.Records.{put_record, record_with};
ghost use Rattle.fleet_book.specs.Versions.{records_of};
ghost use Rattle.fleet_step.specs.Steps.{StepRan, TryRan};
ghost use Rattle.fleet_coordinator.specs.Submits.{AddsJobs, AreNewTo, IsSubmitPut, IsSubmitter, MaySubmit};

use fleet_book::{Compactions, VersionedCompactions};
use fleet_jobs::{Compaction, CompactionSpec, SpecList};
use fleet_rows::{JobList, SlateDBError, Ulid};
use fleet_step::{MOST_REFUSED, draw_jobs, put_answer, refused_at};
use fleet_store::{RecordChange, Store};
use std::alloc::Global;

// A put of the records that adds jobs.
#[derive(Drop)]
struct SubmitPut {
    version: u64,
    value: Compactions,
    why: RecordChange,
}

/// Copies of the specs, each with the id of its job.
pub(crate) fn with_ids(
    alloc: Global,
    ids: &[Ulid],
    specs: &[CompactionSpec],
) -> Result<Vec<(Ulid, CompactionSpec)>, SlateDBError>
    requires { length ids.now ≡ length specs.now }
    ensures named { IfOk result (λ named. named.items ≡ zip ids.now specs.now) }
    ensures memory { IsOkUnless result SlateDBError.Memory }
{
    let mut named = Vec::with_capacity(alloc, specs.len())?;
    'places: for place in 0..specs.len() {
        named.push((ids[place], specs[place].clone()?))?;
    }
    Ok(named)
}

// Adds the job of this spec with this id, which is new.
fn add_job(
    alloc: Global,
    records: &mut Compactions,
    id: Ulid,
    spec: &CompactionSpec,
) -> Result<(), SlateDBError>
    requires { record_with id records.old.jobs ≡ None }
    ensures ok { OnOk result (records.new ≡ record records.old {
      jobs = put_record (fresh_job id spec.now) records.old.jobs;
    }) }
    ensures model { OnOk result (jobs_of records.new.jobs
        ≡ put_job (new_job (id, spec_of spec.now)) (jobs_of records.old.jobs)) }
    ensures memory { IsOkUnless result SlateDBError.Memory }
{
    let job = Compaction::new(alloc, id, spec.clone()?);
    records.insert_new(job)
}

// Adds the jobs of these specs with their ids, which are new.
fn add_jobs(
    alloc: Global,
    records: &mut Compactions,
    named: &[(Ulid, CompactionSpec)],
) -> Result<(), SlateDBError>
    requires { AreNewTo records.old.jobs (map (λ new. new.0) named.now) }
    ensures added { OnOk result (AddsJobs records.old records.new named.now) }
    ensures memory { IsOkUnless result SlateDBError.Memory }
{
    'jobs: for new in named {
        add_job(alloc, records, new.0, &new.1)?;
    }
    Ok(())
}

// The put that adds the jobs of these specs to records that were got.
fn submit_put(
    alloc: Global,
    got: &VersionedCompactions,
    ids: &[Ulid],
    specs: &[CompactionSpec],
) -> Result<SubmitPut, SlateDBError>
    requires many { length ids.now ≡ length specs.now }
    requires new { AreNewTo got.now.compactions.jobs ids.now }
    ensures put { IfOk result (IsSubmitPut got.now ids.now specs.now) }
    ensures memory { IsOkUnless result SlateDBError.Memory }
{
    let named = with_ids(alloc, ids, specs)?;
    let mut value = got.compactions().clone()?;
    add_jobs(alloc, &mut value, named.as_slice())?;
    value.retain_active_and_last_finished();
    Ok(SubmitPut {
        version: got.id(),
        value,
        why: RecordChange::Submit(SpecList::from_vec(named)),
    })
}

/// Draws an id for each spec and puts the jobs beside those of the records. Without a spec it calls
/// nothing.
pub(crate) fn submit_specs<S: Store>(
    alloc: Global,
    store: &mut S,
    moment: u64,
    got: &VersionedCompactions,
    specs: &[CompactionSpec],
) -> Result<JobList, SlateDBError>
    requires may { MaySubmit (S.view store.old) moment got.now specs.now }
    ensures { (again : _) → TryRan Reports
        (submits_specs moment (records_of got.now) (map spec_of specs.now) again) again
        (S.view store.old) (S.view store.new) result }
{
    if specs.is_empty() {
        return Ok(JobList::new(alloc));
    }
    let ids = draw_jobs(alloc, store, moment, specs.len())?;
    let put = submit_put(alloc, got, ids.as_slice(), specs)?;
    let made = store.put_records(put.version, put.value, put.why);
    put_answer(made, ids)
}

// One try of a submission.
fn try_submit<S: Store>(
    alloc: Global,
    store: &mut S,
    moment: u64,
    specs: &[CompactionSpec],
) -> Result<JobList, SlateDBError>
    requires by { IsSubmitter (S.view store.old) }
    requires keeps { Keeps (S.view store.old).who.merge (S.view store.old).world }
    ensures { (again : _) → TryRan Reports (submit_try moment (map spec_of specs.now) again) again
        (S.view store.old) (S.view store.new) result }
{
    let got = store.get_records()?;
    let Some(got) = got else {
        return Err(SlateDBError::InvalidDBState);
    };
    submit_specs(alloc, store, moment, &got, specs)
}

/// Submits jobs of these specs, with ids of this moment in milliseconds. The answer is their ids,
/// in the order of the specs. Without a spec nothing is put.
///
/// `InvalidDBState` means that the store has no records, and `Conflict` that 64 puts were refused
/// in a row. After either no job was added, and the ids that were drawn stay unused. After
/// `StoreFault` and after `Memory` all the jobs are stored, or none is.
pub fn submit<S: Store>(
    alloc: Global,
    store: &mut S,
    moment: u64,
    specs: Vec<CompactionSpec>,
) -> Result<JobList, SlateDBError>
    requires by { IsSubmitter (S.view store.old) }
    requires keeps { Keeps (S.view store.old).who.merge (S.view store.old).world }
    ensures ran { StepRan Reports (submit moment (map spec_of specs.items))
        (S.view store.old) (S.view store.new) result }
    ensures keeps { Keeps (S.view store.new).who.merge (S.view store.new).world }
{
    let mut seen = 0;
    'tries: for tries in 0..MOST_REFUSED {
        let tried = try_submit(alloc, store, moment, specs.as_slice());
        let Some(version) = refused_at(&tried) else {
            return tried;
        };
        seen = version;
    }
    Err(SlateDBError::Conflict { seen })
}
