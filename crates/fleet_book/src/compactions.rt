//! The records, and their versions.

ghost use Rattle.std.specs.Prelude.{◌≡◌, [], None, IfOk, IfSome, IsOkUnless, IsSome, OnErr, OnOk};
ghost use Rattle.std.specs.Option.{option_copied};
ghost use Rattle.fleet_model.specs.Jobs.{put_job, trimmed_jobs};
ghost use Rattle.fleet_jobs.specs.Jobs.{job_of, jobs_of, with_status};
ghost use Rattle.fleet_book.specs.Versions.{with_jobs};
ghost use Rattle.fleet_book.specs.Records.{AreRising, kept_records, put_record, record_with};

use crate::{JobMap, RecentCompactions};
use fleet_jobs::{Compaction, CompactionStatus};
use fleet_rows::{SlateDBError, Ulid};
use std::alloc::{AllocError, Global};
use std::marker::Model;

/// The records of all jobs, with the epoch of the coordinator that may put them.
#[derive(Clone, Debug, Drop, PartialEq, Eq)]
pub struct Compactions {
    pub compactor_epoch: u64,
    pub jobs: JobMap,
}

impl Compactions {
    /// The records of a coordinator with this epoch, without jobs.
    pub fn new(alloc: Global, compactor_epoch: u64) -> Compactions
        ensures { result ≡ record { compactor_epoch = compactor_epoch; jobs = [] } }
    {
        Compactions {
            compactor_epoch,
            jobs: JobMap::new(alloc),
        }
    }

    /// Adds a job, in the place of one with its id if there is one. If out of memory, the new job
    /// is dropped.
    pub fn insert(&mut self, compaction: Compaction) -> Result<(), SlateDBError>
        ensures ok { OnOk result
            (self.new ≡ record self.old { jobs = put_record compaction self.old.jobs }) }
        ensures err { OnErr result (self.new ≡ self.old) }
        ensures memory { IsOkUnless result SlateDBError.Memory }
    {
        self.jobs.insert(compaction)
    }

    /// Adds a job with a new id. If out of memory, the job is dropped.
    pub fn insert_new(&mut self, compaction: Compaction) -> Result<(), SlateDBError>
        requires { record_with compaction.id self.old.jobs ≡ None }
        ensures ok { OnOk result
            (self.new ≡ record self.old { jobs = put_record compaction self.old.jobs }) }
        // The model puts the job at the same place.
        ensures model { OnOk result
            (jobs_of self.new.jobs ≡ put_job (job_of compaction) (jobs_of self.old.jobs)) }
        ensures err { OnErr result (self.new ≡ self.old) }
        ensures memory { IsOkUnless result SlateDBError.Memory }
    {
        self.jobs.insert_new(compaction)
    }

    /// The job with this id.
    pub fn get(&self, id: &Ulid) -> Option<&Compaction>
        ensures { option_copied result ≡ record_with id.now self.now.jobs }
    {
        self.jobs.get(id)
    }

    /// The jobs, by rising id.
    pub fn iter(&self) -> RecentCompactions<'_>
        ensures jobs { result ≡ self.now.jobs }
        ensures rising { AreRising self.now.jobs }
    {
        self.jobs.iter()
    }

    /// Drops each job that is over, except the one with the greatest id.
    pub fn retain_active_and_last_finished(&mut self)
        ensures kept { self.new ≡ record self.old { jobs = kept_records self.old.jobs } }
        // These are the jobs that the model keeps.
        ensures model { jobs_of self.new.jobs ≡ trimmed_jobs (jobs_of self.old.jobs) }
    {
        self.jobs.retain_active_and_last_finished();
    }

    /// A copy, which shares what a copy of the map of jobs shares.
    pub fn clone(&self) -> Result<Compactions, SlateDBError>
        ensures copy { IfOk result (λ copy. copy ≡ self.now) }
        ensures memory { IsOkUnless result SlateDBError.Memory }
    {
        Ok(Clone::clone(self)?)
    }
}

/// The records with their version. Each put raises the version by one. Contracts see both.
#[derive(Debug, Drop, PartialEq, Eq)]
pub struct VersionedCompactions {
    id: u64,
    compactions: Compactions,
}

impl Model for VersionedCompactions {
    ghost use Rattle.fleet_book.specs.VersionedRecords.{VersionedRecords};

    ghost Value = { VersionedRecords };

    ghost view = { λ v. record { id = v.id; compactions = v.compactions } };

    ghost inverse = { λ v. record { id = v.id; compactions = v.compactions } };
}

impl VersionedCompactions {
    /// These records at this version.
    pub fn from_compactions(id: u64, compactions: Compactions) -> VersionedCompactions
        ensures { result ≡ record { id = id; compactions = compactions } }
    {
        VersionedCompactions { id, compactions }
    }

    /// The version of the records.
    pub fn id(&self) -> u64
        ensures { result ≡ self.now.id }
    {
        self.id
    }

    pub fn compactor_epoch(&self) -> u64
        ensures { result ≡ self.now.compactions.compactor_epoch }
    {
        self.compactions.compactor_epoch
    }

    pub fn compactions(&self) -> &Compactions
        ensures { result.now ≡ self.now.compactions }
    {
        &self.compactions
    }

    /// Adds a job, in the place of one with its id if there is one.
    pub(crate) fn insert(&mut self, job: Compaction) -> Result<(), SlateDBError>
        ensures ok { OnOk result
            (self.new ≡ with_jobs (put_record job self.old.compactions.jobs) self.old) }
        ensures err { OnErr result (self.new ≡ self.old) }
        ensures memory { IsOkUnless result SlateDBError.Memory }
    {
        self.compactions.jobs.insert(job)
    }

    /// Puts a job in the place of the one with its id.
    pub(crate) fn replace(&mut self, job: Compaction)
        requires { IsSome (record_with job.id self.old.compactions.jobs) }
        ensures { self.new ≡ with_jobs (put_record job self.old.compactions.jobs) self.old }
    {
        self.compactions.jobs.replace(job);
    }

    /// Sets the status of the job with this id.
    pub(crate) fn set_status(&mut self, id: &Ulid, status: CompactionStatus)
        requires { IsSome (record_with id.now self.old.compactions.jobs) }
        ensures { IfSome (record_with id.now self.old.compactions.jobs) (λ job. self.new
            ≡ with_jobs (put_record (with_status status job) self.old.compactions.jobs) self.old) }
    {
        self.compactions.jobs.set_status(id, status);
    }

    /// Puts a job, in the place of one with its id if there is one, and takes over the version and
    /// the epoch of other records.
    pub(crate) fn show(
        &mut self,
        own: &VersionedCompactions,
        job: Compaction,
    ) -> Result<(), SlateDBError>
        ensures ok { OnOk result
            (self.new ≡ with_jobs (put_record job self.old.compactions.jobs) own.now) }
        ensures memory { IsOkUnless result SlateDBError.Memory }
    {
        self.compactions.jobs.insert(job)?;
        self.compactions.compactor_epoch = own.compactor_epoch();
        self.id = own.id();
        Ok(())
    }

    /// The jobs, by rising id.
    pub fn recent_compactions(&self) -> RecentCompactions<'_>
        ensures jobs { result ≡ self.now.compactions.jobs }
        ensures rising { AreRising self.now.compactions.jobs }
    {
        self.compactions.iter()
    }

    /// A copy, which shares what a copy of the map of jobs shares.
    pub fn clone(&self) -> Result<VersionedCompactions, SlateDBError>
        ensures copy { IfOk result (λ copy. copy ≡ self.now) }
        ensures memory { IsOkUnless result SlateDBError.Memory }
    {
        Ok(Clone::clone(self)?)
    }
}

impl Clone for VersionedCompactions {
    ghost is_clone = { λ records copy. copy ≡ records };

    fn clone(&self) -> Result<VersionedCompactions, AllocError> {
        Ok(VersionedCompactions {
            id: self.id,
            compactions: Clone::clone(&self.compactions)?,
        })
    }
}
