//! A coordinator's own state.

ghost use Rattle.std.specs.Prelude.{◌≡◌, ℕ, None, Some, Err, bytes_eq, filter, false, true, IfOk, IfSome, IsOkUnless, IsSome, OnErr, OnOk};
ghost use Rattle.std.specs.Option.{ForSome, option_copied};
ghost use Rattle.fleet_model.specs.Jobs.{put_job};
ghost use Rattle.fleet_model.specs.Work.Polls.{clashes, same_target};
ghost use Rattle.step_model.specs.Steps.Merging.{adopts};
ghost use Rattle.fleet_jobs.specs.Parts.JobParts.{JobParts};
ghost use Rattle.fleet_book.specs.Finishes.{finished_state, merged_manifest};
ghost use Rattle.fleet_jobs.specs.Places.{sources_stand};
ghost use Rattle.fleet_jobs.specs.Jobs.{is_open, job_of, jobs_of, with_status};
ghost use Rattle.fleet_book.specs.Records.{AreRising, put_record, record_with};
ghost use Rattle.fleet_book.specs.Shown.{ShowedRecords, Shows, ShowsRecords};
ghost use Rattle.fleet_jobs.specs.Specs.{destination_of, segment_of, spec_of};
ghost use Rattle.fleet_book.specs.States.{is_taken, merged_jobs, merged_records, own_jobs, takes, with_stored};
ghost use Rattle.fleet_jobs.specs.Status.{status_of};
ghost use Rattle.fleet_book.specs.Versions.{with_jobs};

use crate::finish::finish_core;
use crate::merging::merged_manifest;
use crate::{Compactions, CompactorStateView, JobMap, VersionedCompactions};
use fleet_jobs::{Compaction, CompactionSpec, CompactionStatus};
use fleet_rows::{SlateDBError, Ulid};
use fleet_tree::{SortedRun, VersionedManifest};
use std::alloc::Global;
use std::marker::Model;

/// The manifest and the records as a coordinator has them. Contracts see both.
#[derive(Debug, Drop)]
pub struct CompactorState {
    manifest: VersionedManifest,
    compactions: VersionedCompactions,
}

impl Model for CompactorState {
    ghost use Rattle.fleet_book.specs.StateParts.{StateParts};

    ghost Value = { StateParts };

    ghost view = { λ s. record { manifest = s.manifest; compactions = s.compactions } };
}

impl CompactorState {
    /// The state of a coordinator that got this manifest and these records.
    pub fn new(manifest: VersionedManifest, compactions: VersionedCompactions) -> CompactorState
        requires { manifest.manifest.compactor_epoch ≡ compactions.compactions.compactor_epoch }
        ensures { result ≡ record { manifest = manifest; compactions = compactions } }
    {
        CompactorState {
            manifest,
            compactions,
        }
    }

    pub fn manifest(&self) -> &VersionedManifest
        ensures { result.now ≡ self.now.manifest }
    {
        &self.manifest
    }

    pub fn compactions(&self) -> &VersionedCompactions
        ensures { result.now ≡ self.now.compactions }
    {
        &self.compactions
    }

    /// What a scheduler is shown: copies of the manifest and of the jobs that are not over.
    pub fn view(&self, alloc: Global) -> Result<CompactorStateView, SlateDBError>
        ensures manifest { IfOk result (λ view. view.manifest ≡ self.now.manifest) }
        ensures jobs { IfOk result (λ view. view.compactions
            ≡ Some (with_jobs (filter is_open (own_jobs self.now)) self.now.compactions)) }
        ensures memory { IsOkUnless result SlateDBError.Memory }
    {
        Ok(CompactorStateView {
            manifest: self.manifest.clone()?,
            compactions: Some(active(alloc, &self.compactions)?),
        })
    }

    /// Brings a view up to date that showed this state when each job but the one with this id was
    /// as it is now. The view gets the manifest, and a copy of this job. So the other jobs are not
    /// copied again, if the state has the job. A job that is over now stays in the view, where it
    /// counts for nothing. If out of memory, the view has to be given up.
    pub fn refresh(
        &self,
        alloc: Global,
        view: &mut CompactorStateView,
        id: &Ulid,
    ) -> Result<(), SlateDBError>
        requires { ShowedRecords id.now view.old.compactions self.now.compactions }
        ensures shows { OnOk result (Shows view.new self.now) }
        ensures memory { IsOkUnless result SlateDBError.Memory }
    {
        let manifest = self.manifest.clone()?;
        show_job(alloc, &mut view.compactions, &self.compactions, *id)?;
        view.manifest = manifest;
        Ok(())
    }

    /// Takes over stored records, each job by the two statuses. The version becomes the stored one.
    /// If out of memory, nothing changes.
    pub fn merge_remote_compactions(
        &mut self,
        remote: VersionedCompactions,
    ) -> Result<(), SlateDBError>
        ensures ok { OnOk result (self.new
            ≡ record self.old { compactions = merged_records self.old.compactions remote }) }
        // A job that is over stays as it is.
        ensures over { (id : ℕ) (job : JobParts) → record_with id (own_jobs self.old) ≡ Some job
            → is_open job ≡ false → record_with id (own_jobs self.new) ≡ Some job }
        ensures err { OnErr result (self.new ≡ self.old) }
        ensures memory { IsOkUnless result SlateDBError.Memory }
    {
        let merged = merged(&self.compactions, &remote)?;
        self.compactions = merged;
        Ok(())
    }

    /// Takes over a stored manifest. Each tree that it has keeps its own runs and watermark, and
    /// takes the stored flushes that are newer; a tree that it lacks is dropped. All else is the
    /// stored one's. If out of memory, nothing changes.
    pub fn merge_remote_manifest(
        &mut self,
        alloc: Global,
        remote: VersionedManifest,
    ) -> Result<(), SlateDBError>
        ensures ok { OnOk result (self.new
            ≡ record self.old { manifest = merged_manifest self.old.manifest remote }) }
        ensures err { OnErr result (self.new ≡ self.old) }
        ensures memory { IsOkUnless result SlateDBError.Memory }
    {
        let merged = merged_manifest(alloc, &self.manifest, remote)?;
        self.manifest = merged;
        Ok(())
    }

    /// Adds a job. The error is `InvalidCompaction` if a job that is not over makes the same run,
    /// or if both are drains of one segment. After an error nothing has changed.
    pub fn add_compaction(&mut self, compaction: Compaction) -> Result<(), SlateDBError>
        requires { record_with compaction.id (own_jobs self.old) ≡ None }
        ensures ok { OnOk result (self.new ≡ record self.old {
          compactions
              = with_jobs (put_record compaction (own_jobs self.old)) self.old.compactions;
        }) }
        ensures model { OnOk result (jobs_of (own_jobs self.new)
            ≡ put_job (job_of compaction) (jobs_of (own_jobs self.old))) }
        ensures free { OnOk result (is_taken compaction.spec (own_jobs self.old) ≡ false) }
        ensures taken { is_taken compaction.spec (own_jobs self.old) ≡ true
            → result ≡ Err SlateDBError.InvalidCompaction }
        ensures memory { is_taken compaction.spec (own_jobs self.old) ≡ false
            → IsOkUnless result SlateDBError.Memory }
        ensures err { OnErr result (self.new ≡ self.old) }
    {
        if is_taken(
            compaction.spec(),
            self.compactions.compactions().jobs.as_slice(),
        ) {
            return Err(SlateDBError::InvalidCompaction);
        }
        self.compactions.insert(compaction)
    }

    /// Sets the status of a job. A job that fails loses its context.
    pub fn update_status(&mut self, id: &Ulid, status: CompactionStatus)
        requires { IsSome (record_with id.now (own_jobs self.old)) }
        ensures { IfSome (record_with id.now (own_jobs self.old)) (λ job. self.new
            ≡ record self.old {
              compactions = with_jobs
                  (put_record (with_status status job) (own_jobs self.old)) self.old.compactions;
            }) }
    {
        self.compactions.set_status(id, status);
    }

    /// Puts a job in the place of the one with its id. It takes no memory, so that what a setter
    /// put into the job is copied with it until the next merge of stored records.
    pub fn set_compaction(&mut self, compaction: Compaction)
        requires { IsSome (record_with compaction.id (own_jobs self.old)) }
        ensures { self.new ≡ record self.old {
          compactions
              = with_jobs (put_record compaction (own_jobs self.old)) self.old.compactions;
        } }
    {
        self.compactions.replace(compaction);
    }

    /// Replaces the sources of a job by the run that was made of them, and makes the job Completed.
    /// If out of memory, nothing changes. `sources_stand` tests whether the sources stand.
    pub fn finish_compaction(
        &mut self,
        alloc: Global,
        id: Ulid,
        output: SortedRun,
    ) -> Result<(), SlateDBError>
        requires there { IsSome (record_with id (own_jobs self.old)) }
        requires run { ForSome (record_with id (own_jobs self.old))
            (λ job. destination_of job.spec ≡ Some output.id) }
        requires stand { ForSome (record_with id (own_jobs self.old))
            (λ job. sources_stand job.spec self.old.manifest.manifest.core ≡ true) }
        ensures ok { OnOk result (IfSome (record_with id (own_jobs self.old))
            (λ job. self.new ≡ finished_state job (Some output) self.old)) }
        ensures err { OnErr result (self.new ≡ self.old) }
        ensures memory { IsOkUnless result SlateDBError.Memory }
    {
        self.finish(alloc, id, Some(&output))
    }

    /// Drops the sources of a drain, and makes its job Completed. If out of memory, nothing
    /// changes. `sources_stand` tests whether the sources stand.
    pub fn finish_drain_compaction(&mut self, alloc: Global, id: Ulid) -> Result<(), SlateDBError>
        requires there { IsSome (record_with id (own_jobs self.old)) }
        requires drain { ForSome (record_with id (own_jobs self.old))
            (λ job. destination_of job.spec ≡ None) }
        requires stand { ForSome (record_with id (own_jobs self.old))
            (λ job. sources_stand job.spec self.old.manifest.manifest.core ≡ true) }
        ensures ok { OnOk result (IfSome (record_with id (own_jobs self.old))
            (λ job. self.new ≡ finished_state job None self.old)) }
        ensures err { OnErr result (self.new ≡ self.old) }
        ensures memory { IsOkUnless result SlateDBError.Memory }
    {
        self.finish(alloc, id, None)
    }

    // Changes the trees and the horizon by a job, which made this run unless it was a drain.
    fn finish(
        &mut self,
        alloc: Global,
        id: Ulid,
        output: Option<&SortedRun>,
    ) -> Result<(), SlateDBError>
        requires { IsSome (record_with id (own_jobs self.old)) }
        ensures ok { OnOk result (IfSome (record_with id (own_jobs self.old))
            (λ job. self.new ≡ finished_state job (option_copied output.entry) self.old)) }
        ensures err { OnErr result (self.new ≡ self.old) }
        ensures memory { IsOkUnless result SlateDBError.Memory }
    {
        let Some(job) = self.compactions.compactions().get(&id) else {
            unreachable!()
        };
        finish_core(alloc, job, output, &mut self.manifest.manifest.core)?;
        self.compactions
            .set_status(&id, CompactionStatus::Completed);
        Ok(())
    }
}

// Copies of the records that are not over, at the same version.
fn active(
    alloc: Global,
    records: &VersionedCompactions,
) -> Result<VersionedCompactions, SlateDBError>
    ensures records { IfOk result (λ active. active
        ≡ with_jobs (filter is_open records.now.compactions.jobs) records.now) }
    ensures memory { IsOkUnless result SlateDBError.Memory }
{
    let compactions = Compactions {
        compactor_epoch: records.compactor_epoch(),
        jobs: records.compactions().jobs.active(alloc)?,
    };
    Ok(VersionedCompactions::from_compactions(records.id(), compactions))
}

// Puts a copy of the job among the records that are shown. If there is no such job, all jobs that
// are not over are copied.
fn show_job(
    alloc: Global,
    shown: &mut Option<VersionedCompactions>,
    own: &VersionedCompactions,
    id: Ulid,
) -> Result<(), SlateDBError>
    requires { ShowedRecords id shown.old own.now }
    ensures shows { OnOk result (ShowsRecords shown.new own.now) }
    ensures memory { IsOkUnless result SlateDBError.Memory }
{
    let Some(job) = own.compactions().get(&id) else {
        *shown = Some(active(alloc, own)?);
        return Ok(());
    };
    match shown {
        Some(records) => {
            know_rising(own);
            know_rising(records);
            records.show(own, job.clone()?)
        }
        None => unreachable!(),
    }
}

// The ids of the jobs rise.
fn know_rising(records: &VersionedCompactions)
    ensures { AreRising records.now.compactions.jobs }
{
    let _jobs = records.recent_compactions();
}

fn merged(
    own: &VersionedCompactions,
    stored: &VersionedCompactions,
) -> Result<VersionedCompactions, SlateDBError>
    ensures records { IfOk result (λ merged. merged ≡ merged_records own.now stored.now) }
    ensures memory { IsOkUnless result SlateDBError.Memory }
{
    let mut jobs = own.compactions().jobs.clone()?;
    take_stored(&mut jobs, stored.compactions().jobs.as_slice())?;
    let compactions = Compactions {
        compactor_epoch: own.compactor_epoch(),
        jobs,
    };
    Ok(VersionedCompactions::from_compactions(stored.id(), compactions))
}

fn take_stored(jobs: &mut JobMap, stored: &[Compaction]) -> Result<(), SlateDBError>
    ensures ok { OnOk result (jobs.new ≡ merged_jobs jobs.old stored.now) }
    ensures memory { IsOkUnless result SlateDBError.Memory }
{
    'stored: for job in stored {
        take_one(jobs, job)?;
    }
    Ok(())
}

fn take_one(jobs: &mut JobMap, stored: &Compaction) -> Result<(), SlateDBError>
    ensures ok { OnOk result (jobs.new ≡ with_stored jobs.old stored.now) }
    ensures memory { IsOkUnless result SlateDBError.Memory }
{
    let id = stored.id();
    if takes(jobs.get(&id), stored) {
        jobs.insert(stored.clone()?)
    } else {
        Ok(())
    }
}

fn takes(own: Option<&Compaction>, stored: &Compaction) -> bool
    ensures { result ≡ takes (option_copied own.entry) stored.now }
{
    match own {
        None => stored.status().is_adopted_anew(),
        Some(own) => replaces(own.status(), stored.status()),
    }
}

fn replaces(own: CompactionStatus, stored: CompactionStatus) -> bool
    ensures { result ≡ adopts (status_of own) (status_of stored) }
{
    own.should_adopt_state_transition(stored)
        || (own == CompactionStatus::Scheduled && stored == CompactionStatus::Scheduled)
}

fn is_taken(spec: &CompactionSpec, jobs: &[Compaction]) -> bool
    ensures { result ≡ is_taken spec.now jobs.now }
{
    jobs.iter().any(|job| clashes(spec, job))
}

// Whether the job is not over and has the target of the spec.
fn clashes(spec: &CompactionSpec, job: &Compaction) -> bool
    ensures { result ≡ clashes (spec_of spec.now) (job_of job.now) }
{
    job.active() && is_same_target(spec, job.spec())
}

fn is_same_target(a: &CompactionSpec, b: &CompactionSpec) -> bool
    ensures { result ≡ same_target (destination_of a.now) (destination_of b.now)
        (bytes_eq (segment_of a.now) (segment_of b.now)) }
{
    match (a, b) {
        (CompactionSpec::Tiered(_), CompactionSpec::Tiered(_)) => {
            a.destination() == b.destination()
        }
        (CompactionSpec::DrainSegment(_), CompactionSpec::DrainSegment(_)) => {
            a.segment().as_slice() == b.segment().as_slice()
        }
        _ => false,
    }
}
