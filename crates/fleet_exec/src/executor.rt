//! The jobs that run.

ghost use Rattle.std.specs.Prelude.{◌≡◌, ◌↔◌, ◌+◌, ◌≤◌, ◌<◌, ◌^◌, ◌==◌, nat_lt, [], false, true, length, not, option_map, slice_get, slice_set, IfSome, IsNone, IsOk, IsOkUnless, IsSome, IsSomeAnd, IsTrue, OnErr, OnOk, if◌then◌else◌};
ghost use Rattle.std.specs.Bool.{OnFalse, OnTrue};
ghost use Rattle.std.specs.List.{prefix_len};
ghost use Rattle.std.specs.Option.{ForNone, option_copied};
ghost use Rattle.fleet_exec.specs.Executors.{AreById, AreDistinct, IsChanged, IsStarted, OthersStay, StartsAs, active_job_with, job_ids, put_job, with_table, without_job};

use crate::StartCompactionJobArgs;
use crate::active_job::ActiveJob;
use fleet_jobs::CompactionContext;
use fleet_rows::{ListOf, SlateDBError, Ulid};
use fleet_tree::SsTableHandle;
use std::alloc::Global;
use std::marker::Model;

/// The jobs that run. Each has been started and not stopped since, and there are none after
/// `stop`. Contracts see the jobs by rising id, and whether `stop` was called.
#[derive(Debug, Drop)]
pub struct Executor {
    jobs: ListOf<ActiveJob>,
    stopped: bool,
}

impl Model for Executor {
    ghost use Rattle.fleet_exec.specs.ExecutorParts.{ExecutorParts};
    ghost use Rattle.fleet_exec.specs.Executors.{IsSound};

    ghost Value = { ExecutorParts };

    ghost view = { λ e. record { jobs = e.jobs; stopped = e.stopped } };

    ghost invariant = { λ e. IsSound (record { jobs = e.jobs; stopped = e.stopped }) };
}

impl Executor {
    /// An executor without jobs. It takes no memory.
    pub fn new(alloc: Global) -> Executor
        ensures { result ≡ record { jobs = []; stopped = false } }
    {
        Executor {
            jobs: ListOf::new(alloc),
            stopped: false,
        }
    }

    /// Starts a job, unless `stop` was called. A job without a context gets one, in which the keys
    /// of its tables are planned into at most `max_subcompactions` ranges, where 0 counts as 1.
    /// These are fewer than 2^32. No active job has the id, and there is a context or a floor. If
    /// out of memory, the arguments are dropped.
    pub fn start_compaction_job(
        &mut self,
        alloc: Global,
        args: StartCompactionJobArgs,
        max_subcompactions: u64,
    ) -> Result<(), SlateDBError>
        requires new { IsNone (active_job_with args.id self.old.jobs) }
        requires floor { ForNone args.ctx (IsSome args.retention_min_seq) }
        requires few { max_subcompactions < 2 ^ 32 }
        ensures started { OnOk result (OnFalse self.old.stopped
            (IsSomeAnd (active_job_with args.id self.new.jobs)
            (StartsAs args max_subcompactions))) }
        ensures others { OthersStay args.id self.old.jobs self.new.jobs }
        ensures count { OnOk result (OnFalse self.old.stopped
            (length self.new.jobs ≡ length self.old.jobs + 1)) }
        ensures placed { OnOk result (OnFalse self.old.stopped
            (IsStarted args max_subcompactions self.old.jobs self.new.jobs)) }
        ensures stopped { self.new.stopped ≡ self.old.stopped }
        ensures after_stop { OnTrue self.old.stopped (self.new ≡ self.old) }
        ensures ok_after_stop { OnTrue self.old.stopped (IsOk result) }
        ensures err { OnErr result (self.new ≡ self.old) }
        ensures memory { IsOkUnless result SlateDBError.Memory }
    {
        if self.stopped {
            return Ok(());
        }
        let job = ActiveJob::start(alloc, args, max_subcompactions)?;
        insert_job(&mut self.jobs, job)
    }

    /// Ends the job with this id. Returns whether it was active.
    pub fn stop_compaction_job(&mut self, id: Ulid) -> bool
        ensures active { IsTrue result ↔ IsSome (active_job_with id self.old.jobs) }
        ensures ended { IsNone (active_job_with id self.new.jobs) }
        ensures others { OthersStay id self.old.jobs self.new.jobs }
        ensures count { length self.old.jobs
            ≡ length self.new.jobs + (if result then 1 else 0) }
        ensures left { self.new.jobs ≡ without_job id self.old.jobs }
        ensures stopped { self.new.stopped ≡ self.old.stopped }
    {
        let active = with_id(self.jobs.as_slice(), id).is_some();
        end_job(&mut self.jobs, id);
        active
    }

    /// Ends all jobs. No job can be started any more.
    pub fn stop(&mut self)
        ensures { self.new ≡ record { jobs = []; stopped = true } }
    {
        self.jobs.take();
        self.stopped = true;
    }

    /// The number of active jobs.
    pub fn len(&self) -> u64
        ensures count { result ≡ length self.now.jobs }
        ensures distinct { AreDistinct self.now.jobs }
        ensures by_id { AreById self.now.jobs }
        ensures none_after_stop { OnTrue self.now.stopped (result ≡ 0) }
    {
        self.jobs.len()
    }

    /// Whether no job is active.
    pub fn is_empty(&self) -> bool
        ensures { IsTrue result ↔ (self.now.jobs ≡ []) }
    {
        self.jobs.is_empty()
    }

    /// The number of the attempt that the active job with this id makes.
    pub fn attempt(&self, id: Ulid) -> Option<u64>
        ensures { result ≡ option_map (λ job. job.args.attempt) (active_job_with id self.now.jobs) }
    {
        self.args(id).map(|args| args.attempt)
    }

    /// The context of the active job with this id, with the tables that were added so far.
    pub fn ctx(&self, id: Ulid) -> Option<&CompactionContext>
        ensures { option_copied result
            ≡ option_map (λ job. job.ctx) (active_job_with id self.now.jobs) }
    {
        with_id(self.jobs.as_slice(), id).map(|job| job.ctx())
    }

    /// The arguments with which the active job with this id was started.
    pub fn args(&self, id: Ulid) -> Option<&StartCompactionJobArgs>
        ensures { option_copied result
            ≡ option_map (λ job. job.args) (active_job_with id self.now.jobs) }
    {
        with_id(self.jobs.as_slice(), id).map(|job| job.args())
    }

    /// Adds a table at the end of the list of a range of an active job. Ranges are counted from 1.
    /// If out of memory, the table is dropped.
    pub fn add_table(
        &mut self,
        id: Ulid,
        range: u32,
        table: SsTableHandle,
    ) -> Result<(), SlateDBError>
        requires counted { 1 ≤ range }
        requires active { IsSomeAnd (active_job_with id self.old.jobs)
            (λ job. range ≤ length job.ctx.ranges) }
        ensures added { OnOk result (active_job_with id self.new.jobs
            ≡ option_map (with_table range table) (active_job_with id self.old.jobs)) }
        ensures others { OthersStay id self.old.jobs self.new.jobs }
        ensures count { length self.new.jobs ≡ length self.old.jobs }
        ensures ids { job_ids self.new.jobs ≡ job_ids self.old.jobs }
        ensures stopped { self.new.stopped ≡ self.old.stopped }
        ensures err { OnErr result (self.new ≡ self.old) }
        ensures memory { IsOkUnless result SlateDBError.Memory }
    {
        add_table_to(&mut self.jobs, id, range, table)
    }
}

fn with_id(jobs: &[ActiveJob], id: Ulid) -> Option<&ActiveJob>
    ensures { option_copied result ≡ active_job_with id jobs.now }
{
    jobs.iter().find(|job| job.id() == id)
}

// Inserts a job in front of the first job with a greater id.
fn insert_job(jobs: &mut ListOf<ActiveJob>, job: ActiveJob) -> Result<(), SlateDBError>
    ensures ok { OnOk result (jobs.new ≡ put_job job jobs.old) }
    ensures err { OnErr result (jobs.new ≡ jobs.old) }
    ensures memory { IsOkUnless result SlateDBError.Memory }
{
    let place = place_after(jobs.as_slice(), job.id());
    jobs.insert(place as u64, job)
}

// The number of jobs in front of the first job with an id above this one.
fn place_after(jobs: &[ActiveJob], id: Ulid) -> usize
    ensures { result ≡ prefix_len (λ job. not (nat_lt id job.args.id)) jobs.now }
{
    jobs.iter().take_while(|job| job.id() <= id).count()
}

// The place of the job with this id, or the number of jobs if there is none.
fn place_of(jobs: &[ActiveJob], id: Ulid) -> usize
    ensures { result ≡ prefix_len (λ job. not (job.args.id == id)) jobs.now }
{
    jobs.iter().take_while(|job| job.id() != id).count()
}

// Drops the job with this id.
fn end_job(jobs: &mut ListOf<ActiveJob>, id: Ulid)
    ensures { jobs.new ≡ without_job id jobs.old }
{
    let mut items = jobs.take().into_vec();
    items.retain(|job| job.id() != id);
    *jobs = ListOf::from_vec(items);
}

// Adds a table to a range of the job with this id.
fn add_table_to(
    jobs: &mut ListOf<ActiveJob>,
    id: Ulid,
    range: u32,
    table: SsTableHandle,
) -> Result<(), SlateDBError>
    requires counted { 1 ≤ range }
    requires active { IsSomeAnd (active_job_with id jobs.old)
        (λ job. range ≤ length job.ctx.ranges) }
    ensures ok { OnOk result (IsChanged id (with_table range table) jobs.old jobs.new) }
    ensures err { OnErr result (jobs.new ≡ jobs.old) }
    ensures memory { IsOkUnless result SlateDBError.Memory }
{
    let place = place_of(jobs.as_slice(), id);
    add_table_at(jobs, place, range, table)
}

// Adds a table to a range of the job at a place.
fn add_table_at(
    jobs: &mut ListOf<ActiveJob>,
    place: usize,
    range: u32,
    table: SsTableHandle,
) -> Result<(), SlateDBError>
    requires counted { 1 ≤ range }
    requires there { IsSomeAnd (slice_get jobs.old place)
        (λ job. range ≤ length job.ctx.ranges) }
    ensures ok { OnOk result (IfSome (slice_get jobs.old place)
        (λ job. jobs.new ≡ slice_set jobs.old place (with_table range table job))) }
    ensures err { OnErr result (jobs.new ≡ jobs.old) }
    ensures memory { IsOkUnless result SlateDBError.Memory }
{
    let mut items = jobs.take().into_vec();
    let added = items[place].add_table(range, table);
    *jobs = ListOf::from_vec(items);
    added
}
