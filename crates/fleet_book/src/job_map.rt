//! The records of all jobs.

ghost use Rattle.std.specs.Prelude.{◌≡◌, ◌==◌, ◌<◌, ◌++◌, [], ◌∷◌, ◌||◌, if◌then◌else◌, None, Some, false, filter, fold, length, nat_lt, slice_get, slice_set, take_while, IfOk, IfSome, IsSome, IsOkUnless, OnErr, OnOk};
ghost use Rattle.std.specs.Cmp.Lexicographic.{pointwise, lists_per, lists_equiv};
ghost use Rattle.std.specs.Option.{option_copied, option_map_or};
ghost use Rattle.fleet_model.specs.Jobs.{put_job, trimmed_jobs};
ghost use Rattle.fleet_jobs.specs.Jobs.{is_open, job_of, jobs_of, with_status};
ghost use Rattle.fleet_jobs.specs.contracts.compaction.CompactionEq.TheImpl.Laws as job_equiv;
ghost use Rattle.fleet_jobs.specs.contracts.compaction.CompactionPartialEq.TheImpl.Laws as job_eq;
ghost use Rattle.fleet_book.specs.Records.{AreRising, kept_records, put_record, record_with};

use crate::RecentCompactions;
use fleet_jobs::{Compaction, CompactionStatus};
use fleet_rows::{ListOf, SlateDBError, Ulid};
use std::alloc::{AllocError, Global};
use std::marker::Model;

/// The records of jobs by their ids. Contracts see them as a list by rising id, and no two have one
/// id. A job that was inserted shares its spec, source tables, context and written tables with its
/// copies. So does each job of a map that is a copy.
#[derive(Debug, Drop)]
pub struct JobMap {
    alloc: Global,
    jobs: ListOf<Compaction>,
}

impl Model for JobMap {
    ghost use Rattle.std.specs.Prelude.{List};
    ghost use Rattle.fleet_jobs.specs.Parts.JobParts.{JobParts};
    ghost use Rattle.fleet_book.specs.Records.{AreRising};

    ghost Value = { List JobParts };

    ghost view = { λ m. m.jobs };

    ghost invariant = { λ m. AreRising m.jobs };
}

impl JobMap {
    /// A map without jobs. It takes no memory.
    pub fn new(alloc: Global) -> JobMap
        ensures { result ≡ [] }
    {
        JobMap {
            alloc,
            jobs: ListOf::new(alloc),
        }
    }

    /// Makes a map of jobs by rising id. It keeps the vector's memory and copies nothing.
    pub fn from_vec(jobs: Vec<Compaction>) -> JobMap
        requires { AreRising jobs.items }
        ensures { result ≡ jobs.items }
    {
        JobMap {
            alloc: *jobs.allocator(),
            jobs: ListOf::from_vec(jobs),
        }
    }

    /// Gives the jobs as a vector, by rising id. It keeps the map's memory and copies nothing.
    pub fn into_vec(self) -> Vec<Compaction>
        ensures jobs { result.items ≡ self }
        ensures rising { AreRising self }
    {
        let JobMap { jobs, .. } = self;
        jobs.into_vec()
    }

    /// The number of jobs.
    pub fn len(&self) -> u64
        ensures { result ≡ length self.now }
    {
        self.jobs.len()
    }

    /// The job with this id.
    pub fn get(&self, id: &Ulid) -> Option<&Compaction>
        ensures { option_copied result ≡ record_with id.now self.now }
    {
        with_id(&self.jobs, *id)
    }

    /// The jobs, by rising id.
    pub fn iter(&self) -> RecentCompactions<'_>
        ensures jobs { result ≡ self.now }
        ensures rising { AreRising self.now }
    {
        RecentCompactions::new(self.jobs.as_slice())
    }

    pub(crate) fn as_slice(&self) -> &[Compaction]
        ensures { result.now ≡ self.now }
    {
        self.jobs.as_slice()
    }

    /// A map of copies of the jobs that are not over. They share what the copies of a map share.
    pub(crate) fn active(&self, alloc: Global) -> Result<JobMap, SlateDBError>
        ensures map { IfOk result (λ map. map ≡ filter is_open self.now) }
        ensures memory { IsOkUnless result SlateDBError.Memory }
    {
        let copies = open_copies(alloc, self.jobs.as_slice())?;
        Ok(JobMap {
            alloc,
            jobs: ListOf::from_vec(copies),
        })
    }

    /// Adds a job, in the place of one with its id if there is one. From then on its copies share
    /// its parts. If out of memory, the new job is dropped.
    pub fn insert(&mut self, job: Compaction) -> Result<(), SlateDBError>
        ensures ok { OnOk result (self.new ≡ put_record job self.old) }
        ensures err { OnErr result (self.new ≡ self.old) }
        ensures memory { IsOkUnless result SlateDBError.Memory }
    {
        let shared = job.shared(self.alloc)?;
        put(&mut self.jobs, shared)?;
        Ok(())
    }

    /// Adds a job with a new id. From then on its copies share its parts. If out of memory, the job
    /// is dropped.
    pub fn insert_new(&mut self, job: Compaction) -> Result<(), SlateDBError>
        requires { record_with job.id self.old ≡ None }
        ensures ok { OnOk result (self.new ≡ put_record job self.old) }
        // The model puts the job at the same place.
        ensures model { OnOk result (jobs_of self.new ≡ put_job (job_of job) (jobs_of self.old)) }
        ensures err { OnErr result (self.new ≡ self.old) }
        ensures memory { IsOkUnless result SlateDBError.Memory }
    {
        self.insert(job)
    }

    /// Drops each job that is over, except the one with the greatest id.
    pub fn retain_active_and_last_finished(&mut self)
        ensures kept { self.new ≡ kept_records self.old }
        ensures model { jobs_of self.new ≡ trimmed_jobs (jobs_of self.old) }
    {
        let last = last_finished(self.jobs.as_slice());
        retain(&mut self.jobs, last);
    }

    /// Sets the status of the job with this id. A job that fails loses its context.
    pub fn set_status(&mut self, id: &Ulid, status: CompactionStatus)
        requires { IsSome (record_with id.now self.old) }
        ensures { IfSome (record_with id.now self.old)
            (λ job. self.new ≡ put_record (with_status status job) self.old) }
    {
        let place = place_of(&self.jobs, *id);
        set_status_at(&mut self.jobs, place, status);
    }

    /// Puts a job in the place of the one with its id. It takes no memory, so that what a setter
    /// put into the job is not shared yet: each copy of this map copies it.
    pub fn replace(&mut self, job: Compaction)
        requires { IsSome (record_with job.id self.old) }
        ensures { self.new ≡ put_record job self.old }
    {
        let place = place_of(&self.jobs, job.id());
        self.jobs.replace(place as u64, job);
    }

    /// A copy. Its jobs share their specs, source tables, contexts and written tables with the jobs
    /// of this map. Only a part that is not shared yet is copied, and the new part is shared.
    pub fn clone(&self) -> Result<JobMap, SlateDBError>
        ensures copy { IfOk result (λ copy. copy ≡ self.now) }
        ensures memory { IsOkUnless result SlateDBError.Memory }
    {
        Ok(Clone::clone(self)?)
    }
}

impl Clone for JobMap {
    ghost is_clone = { λ map copy. copy ≡ map };

    fn clone(&self) -> Result<JobMap, AllocError> {
        let copies = copies(self.alloc, self.jobs.as_slice())?;
        Ok(JobMap {
            alloc: self.alloc,
            jobs: ListOf::from_vec(copies),
        })
    }
}

impl PartialEq for JobMap {
    ghost eq = { pointwise ⟦<Compaction as PartialEq>⟧.eq };

    ghost laws = { lists_per job_eq.laws-law };

    fn eq(&self, other: &Self) -> bool {
        self.jobs == other.jobs
    }
}

impl Eq for JobMap {
    ghost laws = { lists_equiv job_equiv.laws-law };
}

// The job with this id, if there is one.
fn with_id(jobs: &ListOf<Compaction>, id: Ulid) -> Option<&Compaction>
    requires { AreRising jobs.now }
    ensures { option_copied result ≡ record_with id jobs.now }
{
    let job = jobs.get(place_of(jobs, id) as u64);
    if has_id(job, id) { job } else { None }
}

// Puts a job in the place of one with its id, or before the first one with a greater id.
fn put(jobs: &mut ListOf<Compaction>, job: Compaction) -> Result<(), SlateDBError>
    requires { AreRising jobs.old }
    ensures ok { OnOk result (jobs.new ≡ put_record job jobs.old) }
    ensures err { OnErr result (jobs.new ≡ jobs.old) }
    ensures memory { IsOkUnless result SlateDBError.Memory }
{
    let id = job.id();
    let place = place_of(jobs, id) as u64;
    if has_id(jobs.get(place), id) {
        jobs.replace(place, job);
        Ok(())
    } else {
        jobs.insert(place, job)
    }
}

fn set_status_at(jobs: &mut ListOf<Compaction>, place: usize, status: CompactionStatus)
    requires { place < length jobs.old }
    ensures { IfSome (slice_get jobs.old place)
        (λ job. jobs.new ≡ slice_set jobs.old place (with_status status job)) }
{
    let mut items = jobs.take().into_vec();
    items[place].set_status(status);
    *jobs = ListOf::from_vec(items);
}

fn has_id(job: Option<&Compaction>, id: Ulid) -> bool
    ensures { result ≡ option_map_or (λ job. job.id == id) (option_copied job.entry) false }
{
    match job {
        Some(job) => job.id() == id,
        None => false,
    }
}

// The number of jobs with smaller ids. It is found by halves, so that few jobs are looked at.
fn place_of(jobs: &ListOf<Compaction>, id: Ulid) -> usize
    requires { AreRising jobs.now }
    ensures { result ≡ length (take_while (λ job. nat_lt job.id id) jobs.now) }
{
    jobs.as_slice().partition_point(|job| job.id() < id)
}

// The id of the last job that is over.
fn last_finished(jobs: &[Compaction]) -> Option<Ulid>
    ensures { result
        ≡ fold (λ last job. if is_open job then last else Some job.id) None jobs.now }
{
    jobs.iter().fold(None, after_job)
}

fn after_job(last: Option<Ulid>, job: &Compaction) -> Option<Ulid>
    ensures { result ≡ (if is_open job.now then last else Some job.now.id) }
{
    if job.active() { last } else { Some(job.id()) }
}

fn is_kept(job: &Compaction, last: Option<Ulid>) -> bool
    ensures { result ≡ (is_open job.now || option_map_or (λ id. id == job.now.id) last false) }
{
    job.active() || is_last(last, job)
}

fn is_last(last: Option<Ulid>, job: &Compaction) -> bool
    ensures { result ≡ option_map_or (λ id. id == job.now.id) last false }
{
    match last {
        Some(id) => id == job.id(),
        None => false,
    }
}

fn retain(jobs: &mut ListOf<Compaction>, last: Option<Ulid>)
    ensures { jobs.new ≡ filter
        (λ job. is_open job || option_map_or (λ id. id == job.id) last false) jobs.old }
{
    let mut items = jobs.take().into_vec();
    items.retain(|job| is_kept(job, last));
    *jobs = ListOf::from_vec(items);
}

// Copies of the jobs.
fn copies(alloc: Global, jobs: &[Compaction]) -> Result<Vec<Compaction>, AllocError>
    ensures { IfOk result (λ copies. copies.items ≡ jobs.now) }
{
    let mut copies = Vec::with_capacity(alloc, jobs.len())?;
    'jobs: for job in jobs {
        job.copy_into(alloc, &mut copies)?;
    }
    Ok(copies)
}

// Copies of the jobs that are not over.
fn open_copies(alloc: Global, jobs: &[Compaction]) -> Result<Vec<Compaction>, AllocError>
    ensures { IfOk result (λ copies. copies.items ≡ filter is_open jobs.now) }
{
    let mut copies = Vec::new(alloc);
    'jobs: for job in jobs {
        add_open(alloc, &mut copies, job)?;
    }
    Ok(copies)
}

// Adds a copy of the job, if it is not over.
fn add_open(alloc: Global, copies: &mut Vec<Compaction>, job: &Compaction) -> Result<(), AllocError>
    ensures { OnOk result (copies.new.items ≡ copies.old.items ++ filter is_open (job.now ∷ [])) }
{
    if job.active() {
        job.copy_into(alloc, copies)?;
    }
    Ok(())
}
