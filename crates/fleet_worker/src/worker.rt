//! Workers.

ghost use Rattle.std.specs.Prelude.{◌≡◌, ◌≢◌, ◌<◌, ◌^◌, ◌∷◌, [], IfOk, IsOkUnless, OnErr, false};
ghost use Rattle.std.specs.Bool.{OnFalse};
ghost use Rattle.std.specs.Option.{option_copied};
ghost use Rattle.fleet_model.specs.Store as model;
ghost use Rattle.step_model.specs.Steps.BeatSteps.{beat_try, heartbeat, release_all};
ghost use Rattle.step_model.specs.Steps.ClaimSteps.{claim, claim_try};
ghost use Rattle.step_model.specs.Courses.CourseRuns.{IsLawfulCourse};
ghost use Rattle.step_model.specs.Kept.Keeps.{Keeps};
ghost use Rattle.step_model.specs.Later.{IsLater};
ghost use Rattle.step_model.specs.Steps.MessageSteps.{take_failed, take_progress};
ghost use Rattle.step_model.specs.Courses.StepEnds.{Reports};
ghost use Rattle.step_model.specs.Views.{StoreView};
ghost use Rattle.fleet_claim.specs.Beginnings.{options_of};
ghost use Rattle.fleet_jobs.specs.Contexts.{context_of};
ghost use Rattle.fleet_jobs.specs.Jobs.{jobs_of};
ghost use Rattle.fleet_store.specs.Records.{DescribeTables, jobs_or_none};
ghost use Rattle.fleet_worker.specs.Beats.{IsBeatOf, IsBeatPut, IsReport, beat_ends, beat_ends_over, live_parts};
ghost use Rattle.fleet_worker.specs.Claims.{AreNew, BeginsNothing, IsChoice, IsClaimPut, IsClaimStart, MayTakeAll, NamesBegun, after_put, claim_ends, claim_ends_with, without_parts};
ghost use Rattle.fleet_worker.specs.Held.{all_held};
ghost use Rattle.fleet_worker.specs.Messages.{IsReturnOf, StaysReady, attempt_with, gone_ends, one_return, runs_then, went_on};
ghost use Rattle.fleet_worker.specs.Releases.{IsReleaseOf, is_over, one_release};
ghost use Rattle.fleet_step.specs.Steps.{StepRan, TryRan, stops};
ghost use Rattle.fleet_worker.specs.Workers.{AreNoted, IsReady, IsReadyAnywhere, attempt_of, live_of, ranges_at, run_at, run_of_number, started_worker};

use crate::RunAttempt;
use crate::attempt::{
    if_numbered, is_elsewhere, is_live, live_attempts, one_named, run_at, run_of_number,
};
use crate::beat::{
    BeatPut, BeatReport, beaten_records, is_live_in, live_jobs, lost_jobs, no_report,
};
use crate::claim::{
    ClaimPut, ClaimReport, ClaimStart, attempts_after, begun_jobs, note_each, other_attempts,
    put_attempt, run_jobs,
};
use crate::held_tables::all_held;
use crate::release::{ReleasePut, is_over, jobs_of, released};
use fleet_book::{Compactions, VersionedCompactions};
use fleet_claim::{
    CompactionWorkerOptions, Starts, begin_all, claimed_jobs, claimed_records, next_attempts,
    stopped_jobs,
};
use fleet_jobs::{Compaction, CompactionContext, Release};
use fleet_rows::{IdList, JobList, ListOf, SlateDBError, Ulid};
use fleet_step::{MOST_REFUSED, put_answer, refused_at, stops};
use fleet_store::{RecordChange, Store};
use fleet_tree::VersionedManifest;
use std::alloc::Global;
use std::marker::Model;

/// A worker. It runs attempts at jobs, at most one at each job. Contracts see its parts.
#[derive(Debug, Drop)]
pub struct Worker {
    pub(crate) alloc: Global,
    id: u64,
    release: Release,
    pub(crate) attempts: ListOf<RunAttempt>,
    pub(crate) stopped: bool,
}

impl Model for Worker {
    ghost use Rattle.fleet_worker.specs.Workers.{WorkerParts};

    ghost Value = { WorkerParts };

    ghost view = { λ w. record {
      number = w.id;
      release = w.release;
      attempts = w.attempts;
      stopped = w.stopped;
    } };
}

impl Worker {
    /// Starts a worker of this release with this number. It runs nothing yet.
    pub fn start(alloc: Global, id: u64, release: Release) -> Worker
        ensures starts { result ≡ started_worker id release }
        ensures ready { IsReadyAnywhere result }
    {
        Worker {
            alloc,
            id,
            release,
            attempts: ListOf::new(alloc),
            stopped: false,
        }
    }

    /// The number of the worker.
    pub fn id(&self) -> u64
        ensures { result ≡ self.now.number }
    {
        self.id
    }

    /// Whether the worker is stopped, so that it makes no step any more.
    pub fn stopped(&self) -> bool
        ensures { result ≡ self.now.stopped }
    {
        self.stopped
    }

    /// The release of the worker.
    pub fn release(&self) -> Release
        ensures { result ≡ self.now.release }
    {
        self.release
    }

    /// The attempts that the worker runs, by rising job.
    pub fn attempts(&self) -> &[RunAttempt]
        ensures { result.now ≡ self.now.attempts }
    {
        self.attempts.as_slice()
    }

    /// The worker's attempt at the job, or None if the worker does not run the job.
    pub fn attempt(&self, job: Ulid) -> Option<&RunAttempt>
        ensures { option_copied result ≡ run_at self.now.attempts job }
    {
        run_at(self.attempts.as_slice(), job)
    }

    /// The worker's attempt at the job whose id has this number, or None if the worker runs no such
    /// job.
    pub fn attempt_of_number(&self, number: u64) -> Option<&RunAttempt>
        ensures { option_copied result ≡ run_of_number self.now.attempts number }
    {
        run_of_number(self.attempts.as_slice(), number)
    }

    /// How many ranges the worker's attempt at the job has, or None if the worker does not run the
    /// job.
    pub fn ranges(&self, job: Ulid) -> Option<u32>
        ensures { result ≡ ranges_at self.now.attempts job }
    {
        let attempt = run_at(self.attempts.as_slice(), job)?;
        Some(attempt.ctx().ranges_len())
    }

    /// The source tables and the noted tables of the attempts that the worker runs, attempt by
    /// attempt.
    pub fn holds(&self) -> Result<IdList, SlateDBError>
        ensures tables { IfOk result (λ tables. tables ≡ all_held self.now.attempts) }
        ensures memory { IsOkUnless result SlateDBError.Memory }
    {
        all_held(self.alloc, self.attempts.as_slice())
    }

    // The put that gives the live attempts back, or None if no attempt is live.
    fn release_of(
        &self,
        got: &Option<VersionedCompactions>,
    ) -> Result<Option<ReleasePut>, SlateDBError>
        ensures put { IfOk result (IsReleaseOf self.now got.now) }
        ensures memory { IsOkUnless result SlateDBError.Memory }
    {
        let Some(got) = got else {
            return Ok(None);
        };
        let records = got.compactions();
        let live = live_attempts(self.alloc, records, self.id, self.attempts.as_slice())?;
        if live.is_empty() {
            return Ok(None);
        }
        Ok(Some(ReleasePut {
            version: got.id(),
            value: released(self.alloc, records, self.id, live.as_slice())?,
            jobs: jobs_of(self.alloc, live.as_slice())?,
            why: RecordChange::Release(self.id, live),
        }))
    }

    // One try to give the live attempts back.
    fn try_release<S: Store>(&self, store: &mut S) -> Result<JobList, SlateDBError>
        requires ready { IsReady (S.view store.old) self.now }
        ensures { (again : _) → TryRan Reports (one_release (live_of self.now) again) again
            (S.view store.old) (S.view store.new) result }
    {
        let got = store.get_records()?;
        let Some(put) = self.release_of(&got)? else {
            return Ok(JobList::new(self.alloc));
        };
        let made = store.put_records(put.version, put.value, put.why);
        put_answer(made, put.jobs)
    }

    // The tries to give the live attempts back.
    fn releases<S: Store>(&self, store: &mut S) -> Result<JobList, SlateDBError>
        requires ready { IsReady (S.view store.old) self.now }
        ensures { StepRan Reports (release_all (live_of self.now))
            (S.view store.old) (S.view store.new) result }
    {
        if self.attempts.is_empty() {
            return Ok(JobList::new(self.alloc));
        }
        let mut seen = 0;
        'tries: for tries in 0..MOST_REFUSED {
            let tried = self.try_release(store);
            let Some(version) = refused_at(&tried) else {
                return tried;
            };
            seen = version;
        }
        Err(SlateDBError::Conflict { seen })
    }

    /// Gives the live attempts back, so that their jobs wait for a worker again, and stops the
    /// worker. The answer is these jobs, in rising order. The worker keeps its attempts, of which
    /// none is live any more.
    ///
    /// `Conflict` means that 64 puts were refused in a row. After `Conflict` and after `Memory` the
    /// worker is not stopped. After `StoreFault` it is stopped, and the jobs may wait or not.
    pub fn release_all<S: Store>(&mut self, store: &mut S) -> Result<JobList, SlateDBError>
        requires running { self.old.stopped ≡ false }
        requires ready { IsReady (S.view store.old) self.old }
        ensures ran { StepRan Reports (release_all (live_of self.old))
            (S.view store.old) (S.view store.new) result }
        ensures stopped { self.new ≡ record self.old { stopped = is_over result } }
        ensures ready { OnFalse self.new.stopped
            (IsReady (S.view store.new) self.new) }
    {
        let released = self.releases(store);
        self.stopped = is_over(&released);
        released
    }

    // What a heartbeat reports over these records.
    fn report(&self, records: &Compactions) -> Result<BeatReport, SlateDBError>
        ensures report { IfOk result (IsReport self.now records.now.jobs) }
        ensures memory { IsOkUnless result SlateDBError.Memory }
    {
        let attempts = self.attempts.as_slice();
        Ok(BeatReport {
            beat: live_jobs(self.alloc, records, self.id, attempts)?,
            not_owner: lost_jobs(self.alloc, records, self.id, attempts)?,
        })
    }

    // The put that renews the leases of the live attempts.
    fn beat_put(&self, moment: u64, got: &VersionedCompactions) -> Result<BeatPut, SlateDBError>
        ensures put { IfOk result (IsBeatPut moment self.now got.now) }
        ensures memory { IsOkUnless result SlateDBError.Memory }
    {
        let records = got.compactions();
        let attempts = self.attempts.as_slice();
        let live = live_attempts(self.alloc, records, self.id, attempts)?;
        Ok(BeatPut {
            version: got.id(),
            value: beaten_records(self.alloc, records, self.id, moment, attempts)?,
            why: RecordChange::Beat(self.id, live),
        })
    }

    // What a heartbeat reports, and the put that it makes, if an attempt is live.
    fn beat_of(
        &self,
        moment: u64,
        got: &Option<VersionedCompactions>,
    ) -> Result<(BeatReport, Option<BeatPut>), SlateDBError>
        ensures beat { IfOk result (λ beat. IsBeatOf moment self.now got.now beat.0 beat.1) }
        ensures memory { IsOkUnless result SlateDBError.Memory }
    {
        let Some(got) = got else {
            let none = Compactions::new(self.alloc, 0);
            return Ok((self.report(&none)?, None));
        };
        let report = self.report(got.compactions())?;
        if report.beat.is_empty() {
            return Ok((report, None));
        }
        let put = self.beat_put(moment, got)?;
        Ok((report, Some(put)))
    }

    // One try of a heartbeat. The answer has the report and the records that were got.
    fn try_beat<S: Store>(
        &self,
        store: &mut S,
        moment: u64,
    ) -> Result<(BeatReport, Option<VersionedCompactions>), SlateDBError>
        requires ready { IsReady (S.view store.old) self.now }
        requires some { self.now.attempts ≢ [] }
        ensures { (again : _) → TryRan (beat_ends_over self.now)
            (beat_try moment (live_of self.now) again) again
            (S.view store.old) (S.view store.new) result }
    {
        let got = store.get_records()?;
        let (report, put) = self.beat_of(moment, &got)?;
        let Some(put) = put else {
            return Ok((report, got));
        };
        let made = store.put_records(put.version, put.value, put.why);
        put_answer(made, (report, got))
    }

    // The tries of a heartbeat.
    fn beats<S: Store>(
        &self,
        store: &mut S,
        moment: u64,
    ) -> Result<(BeatReport, Option<VersionedCompactions>), SlateDBError>
        requires ready { IsReady (S.view store.old) self.now }
        ensures { StepRan (beat_ends_over self.now) (heartbeat moment (live_of self.now))
            (S.view store.old) (S.view store.new) result }
    {
        if self.attempts.is_empty() {
            return Ok((no_report(self.alloc), None));
        }
        let mut seen = 0;
        'tries: for tries in 0..MOST_REFUSED {
            let tried = self.try_beat(store, moment);
            let Some(version) = refused_at(&tried) else {
                return tried;
            };
            seen = version;
        }
        Err(SlateDBError::Conflict { seen })
    }

    // Drops the attempts that are not live by these records.
    fn keep_live(&mut self, got: &Option<VersionedCompactions>)
        ensures { self.new ≡ record self.old {
          attempts = live_parts (jobs_or_none got.now) self.old.number self.old.attempts;
        } }
    {
        let id = self.id;
        let mut attempts = self.attempts.take().into_vec();
        attempts.retain(|attempt| is_live_in(got, id, attempt));
        self.attempts = ListOf::from_vec(attempts);
    }

    /// Renews the leases of the live attempts to this moment in milliseconds, publishes their
    /// contexts, and drops the other attempts. The lists of the report are in rising order.
    ///
    /// `Conflict` means that 64 puts were refused in a row. After `StoreFault` the worker is
    /// stopped, and the leases may be renewed or not.
    pub fn heartbeat<S: Store>(
        &mut self,
        store: &mut S,
        moment: u64,
    ) -> Result<BeatReport, SlateDBError>
        requires running { self.old.stopped ≡ false }
        requires ready { IsReady (S.view store.old) self.old }
        ensures ran { StepRan (beat_ends self.new.attempts) (heartbeat moment (live_of self.old))
            (S.view store.old) (S.view store.new) result }
        ensures stopped { self.new.stopped ≡ stops result }
        ensures same { self.new ≡ record self.old {
          attempts = self.new.attempts;
          stopped = self.new.stopped;
        } }
        ensures err { OnErr result (self.new.attempts ≡ self.old.attempts) }
        ensures ready { OnFalse self.new.stopped
            (IsReady (S.view store.new) self.new) }
    {
        let beaten = self.beats(store, moment);
        self.stopped = stops(&beaten);
        match beaten {
            Ok((report, got)) => {
                self.keep_live(&got);
                Ok(report)
            }
            Err(error) => Err(error),
        }
    }

    // The jobs that a claim takes over these records, and those that it stops.
    fn claim_choice(
        &self,
        options: &CompactionWorkerOptions,
        records: &Compactions,
    ) -> Result<(Vec<Compaction>, JobList), SlateDBError>
        ensures choice { IfOk result (λ choice.
            IsChoice options.now self.now records.now.jobs choice.0.items choice.1) }
        ensures memory { IsOkUnless result SlateDBError.Memory }
    {
        let running = run_jobs(self.alloc, self.attempts.as_slice())?;
        let Compactions { jobs, .. } = records.clone()?;
        let jobs = jobs.into_vec();
        let stopped = stopped_jobs(self.alloc, &jobs, running.as_slice())?;
        let slots = options.max_concurrent_compactions;
        let claimed = claimed_jobs(jobs, running.as_slice(), self.release, slots);
        Ok((claimed, stopped))
    }

    // The put that claims these jobs.
    fn claim_put(
        &self,
        moment: u64,
        got: &VersionedCompactions,
        claimed: &[Compaction],
    ) -> Result<ClaimPut, SlateDBError>
        ensures put { IfOk result (IsClaimPut moment self.now got.now claimed.now) }
        ensures memory { IsOkUnless result SlateDBError.Memory }
    {
        let attempts = next_attempts(self.alloc, claimed)?;
        let records = got.compactions();
        let numbers = attempts.as_slice();
        Ok(ClaimPut {
            version: got.id(),
            value: claimed_records(self.alloc, records, self.id, moment, numbers)?,
            why: RecordChange::Claim(self.id, attempts),
        })
    }

    // The end of a claim that takes no job and stops these.
    fn no_claim(&self, stopped: JobList) -> Result<(ClaimReport, ListOf<RunAttempt>), SlateDBError>
        ensures end { IfOk result
            (λ end. BeginsNothing self.now stopped end.0 end.1) }
        ensures memory { IsOkUnless result SlateDBError.Memory }
    {
        let attempts = other_attempts(self.alloc, self.attempts.as_slice(), stopped.as_slice())?;
        let report = ClaimReport {
            claimed: JobList::new(self.alloc),
            stopped,
            released: JobList::new(self.alloc),
        };
        Ok((report, ListOf::from_vec(attempts)))
    }

    // How the claimed jobs start under this manifest.
    fn start_under(
        &self,
        options: &CompactionWorkerOptions,
        moment: u64,
        manifest: VersionedManifest,
        claimed: &[Compaction],
        stopped: JobList,
    ) -> Result<ClaimStart, SlateDBError>
        requires few { options.now.max_subcompactions < 2 ^ 32 }
        ensures start { IfOk result
            (IsClaimStart options.now moment self.now manifest claimed.now stopped) }
        ensures memory { IsOkUnless result SlateDBError.Memory }
    {
        let Starts {
            begun,
            notes,
            released,
        } = begin_all(
            self.alloc,
            self.release,
            options,
            moment,
            &manifest,
            claimed,
        )?;
        let jobs = begun_jobs(self.alloc, &begun)?;
        let running = self.attempts.as_slice();
        let attempts = attempts_after(self.alloc, running, stopped.as_slice(), begun)?;
        let report = ClaimReport {
            claimed: jobs,
            stopped,
            released: JobList::from_vec(released),
        };
        Ok(ClaimStart {
            report,
            attempts: ListOf::from_vec(attempts),
            notes,
        })
    }

    // Starts the claimed jobs under the manifest that it gets.
    fn start_claimed<S: Store>(
        &self,
        store: &mut S,
        options: &CompactionWorkerOptions,
        moment: u64,
        claimed: &[Compaction],
        stopped: JobList,
    ) -> Result<(ClaimReport, ListOf<RunAttempt>), SlateDBError>
        requires few { options.now.max_subcompactions < 2 ^ 32 }
        requires keeps { Keeps (S.view store.old).who.merge (S.view store.old).world }
        requires lawful { IsLawfulCourse (S.view store.old).who (S.view store.old).world
            (after_put (options_of options.now) moment (live_of self.now)
            (jobs_of claimed.now) stopped) }
        requires may { MayTakeAll self.now claimed.now }
        requires new { AreNew self.now claimed.now }
        ensures ran { (again : _) → TryRan claim_ends_with
            (after_put (options_of options.now) moment (live_of self.now)
            (jobs_of claimed.now) stopped) again
            (S.view store.old) (S.view store.new) result }
        ensures noted { IfOk result (λ end. (later : model.Store)
            → IsLater (S.view store.new).world.store later → DescribeTables claimed.now later
            → AreNoted self.now.attempts later → AreNoted end.1 later) }
        ensures named { IfOk result (λ end. NamesBegun end.1 end.0) }
    {
        let manifest = store.get_manifest()?;
        let start = self.start_under(options, moment, manifest, claimed, stopped)?;
        note_each(store, start.notes)?;
        Ok((start.report, start.attempts))
    }

    // One try of a claim. The answer has the report and the attempts that the worker runs then.
    fn try_claim<S: Store>(
        &self,
        store: &mut S,
        options: &CompactionWorkerOptions,
        moment: u64,
    ) -> Result<(ClaimReport, ListOf<RunAttempt>), SlateDBError>
        requires few { options.now.max_subcompactions < 2 ^ 32 }
        requires ready { IsReady (S.view store.old) self.now }
        ensures ran { (again : _) → TryRan claim_ends_with
            (claim_try (options_of options.now) moment (live_of self.now) again) again
            (S.view store.old) (S.view store.new) result }
        ensures noted { IfOk result
            (λ end. AreNoted end.1 (S.view store.new).world.store) }
        ensures named { IfOk result (λ end. NamesBegun end.1 end.0) }
    {
        let got = store.get_records()?;
        let Some(got) = got else {
            let end = self.no_claim(JobList::new(self.alloc))?;
            return Ok(end);
        };
        let (claimed, stopped) = self.claim_choice(options, got.compactions())?;
        if claimed.is_empty() {
            let end = self.no_claim(stopped)?;
            return Ok(end);
        }
        let put = self.claim_put(moment, &got, &claimed)?;
        store.put_records(put.version, put.value, put.why)?;
        self.start_claimed(store, options, moment, &claimed, stopped)
    }

    // The tries of a claim.
    fn claims<S: Store>(
        &self,
        store: &mut S,
        options: &CompactionWorkerOptions,
        moment: u64,
    ) -> Result<(ClaimReport, ListOf<RunAttempt>), SlateDBError>
        requires few { options.now.max_subcompactions < 2 ^ 32 }
        requires ready { IsReady (S.view store.old) self.now }
        ensures ran { StepRan claim_ends_with
            (claim (options_of options.now) moment (live_of self.now))
            (S.view store.old) (S.view store.new) result }
        ensures noted { IfOk result
            (λ end. AreNoted end.1 (S.view store.new).world.store) }
        ensures named { IfOk result (λ end. NamesBegun end.1 end.0) }
    {
        let mut seen = 0;
        'tries: for tries in 0..MOST_REFUSED {
            let tried = self.try_claim(store, options, moment);
            let Some(version) = refused_at(&tried) else {
                return tried;
            };
            seen = version;
        }
        Err(SlateDBError::Conflict { seen })
    }

    /// Claims waiting jobs at this moment in milliseconds, at most as many as the slots that are
    /// free as the claim begins, and begins attempts at them under the manifest that it gets then.
    /// It stops each job that waits although the worker runs it. The lists of the report are in
    /// rising order.
    ///
    /// `Conflict` means that 64 puts were refused in a row. After `StoreFault` the worker is
    /// stopped. After `StoreFault` and after `Memory` the records may name the worker at jobs that
    /// it does not run; their leases run out.
    pub fn claim<S: Store>(
        &mut self,
        store: &mut S,
        options: &CompactionWorkerOptions,
        moment: u64,
    ) -> Result<ClaimReport, SlateDBError>
        requires running { self.old.stopped ≡ false }
        requires ready { IsReady (S.view store.old) self.old }
        requires few { options.now.max_subcompactions < 2 ^ 32 }
        ensures ran { StepRan (claim_ends self.new.attempts)
            (claim (options_of options.now) moment (live_of self.old))
            (S.view store.old) (S.view store.new) result }
        ensures stopped { self.new.stopped ≡ stops result }
        ensures same { self.new ≡ record self.old {
          attempts = self.new.attempts;
          stopped = self.new.stopped;
        } }
        ensures named { IfOk result (NamesBegun self.new.attempts) }
        ensures err { OnErr result (self.new.attempts ≡ self.old.attempts) }
        ensures ready { OnFalse self.new.stopped
            (IsReady (S.view store.new) self.new) }
    {
        let claimed = self.claims(store, options, moment);
        self.stopped = stops(&claimed);
        match claimed {
            Ok((report, attempts)) => {
                self.attempts = attempts;
                Ok(report)
            }
            Err(error) => Err(error),
        }
    }

    // The attempt at the job with this number, if the worker runs it.
    pub(crate) fn attempt_with(&self, job: Ulid, number: u64) -> Option<&RunAttempt>
        ensures { option_copied result ≡ attempt_with self.now.attempts job number }
    {
        if_numbered(number, run_at(self.attempts.as_slice(), job))
    }

    // The put that gives the attempt back, or None if it is not live.
    fn return_of(
        &self,
        attempt: &RunAttempt,
        got: &Option<VersionedCompactions>,
    ) -> Result<Option<ReleasePut>, SlateDBError>
        ensures put { IfOk result (IsReturnOf self.now attempt.now got.now) }
        ensures memory { IsOkUnless result SlateDBError.Memory }
    {
        let Some(got) = got else {
            return Ok(None);
        };
        let records = got.compactions();
        if !is_live(records, self.id, attempt) {
            return Ok(None);
        }
        let these = one_named(self.alloc, attempt)?;
        Ok(Some(ReleasePut {
            version: got.id(),
            value: released(self.alloc, records, self.id, these.as_slice())?,
            jobs: JobList::new(self.alloc),
            why: RecordChange::Release(self.id, these),
        }))
    }

    // One try to give the attempt back.
    fn try_return<S: Store>(&self, store: &mut S, attempt: &RunAttempt) -> Result<(), SlateDBError>
        requires ready { IsReady (S.view store.old) self.now }
        ensures { (again : _) → TryRan (gone_ends self.now attempt.now)
            (one_return (live_of self.now) (attempt_of attempt.now) again) again
            (S.view store.old) (S.view store.new) result }
    {
        let got = store.get_records()?;
        let Some(put) = self.return_of(attempt, &got)? else {
            return Ok(());
        };
        let made = store.put_records(put.version, put.value, put.why);
        put_answer(made, ())
    }

    // The tries to give the attempt at the job with this number back.
    pub(crate) fn returns<S: Store>(
        &self,
        store: &mut S,
        job: Ulid,
        number: u64,
    ) -> Result<(), SlateDBError>
        requires ready { IsReady (S.view store.old) self.now }
        ensures { StepRan (runs_then (without_parts (job ∷ []) self.now.attempts))
            (take_failed (live_of self.now) job number)
            (S.view store.old) (S.view store.new) result }
    {
        let Some(attempt) = self.attempt_with(job, number) else {
            return Err(SlateDBError::NotOwner);
        };
        let mut seen = 0;
        'tries: for tries in 0..MOST_REFUSED {
            let tried = self.try_return(store, attempt);
            let Some(version) = refused_at(&tried) else {
                return tried;
            };
            seen = version;
        }
        Err(SlateDBError::Conflict { seen })
    }

    // Drops the attempt at the job.
    pub(crate) fn drop_attempt(&mut self, job: Ulid)
        ensures { self.new ≡ record self.old {
          attempts = without_parts (job ∷ []) self.old.attempts;
        } }
    {
        let mut attempts = self.attempts.take().into_vec();
        attempts.retain(|attempt| is_elsewhere(attempt, job));
        self.attempts = ListOf::from_vec(attempts);
    }

    /// Takes the message that the attempt at the job with this number failed: gives it back if it
    /// is live, so that the job waits for a worker again, and drops it.
    ///
    /// `NotOwner` means that the worker does not run this attempt; nothing is called then.
    /// `Conflict` means that 64 puts were refused in a row. After `StoreFault` the worker is
    /// stopped, and the job may wait or not.
    pub(crate) fn take_failed<S: Store>(
        &mut self,
        store: &mut S,
        job: Ulid,
        number: u64,
    ) -> Result<(), SlateDBError>
        requires running { self.old.stopped ≡ false }
        requires ready { IsReady (S.view store.old) self.old }
        ensures ran { StepRan (runs_then self.new.attempts)
            (take_failed (live_of self.old) job number)
            (S.view store.old) (S.view store.new) result }
        ensures stopped { self.new.stopped ≡ stops result }
        ensures same { self.new ≡ record self.old {
          attempts = self.new.attempts;
          stopped = self.new.stopped;
        } }
        ensures err { OnErr result (self.new.attempts ≡ self.old.attempts) }
        ensures ready { OnFalse self.new.stopped
            (IsReady (S.view store.new) self.new) }
    {
        let returned = self.returns(store, job, number);
        self.stopped = stops(&returned);
        match returned {
            Ok(()) => {
                self.drop_attempt(job);
                Ok(())
            }
            Err(error) => Err(error),
        }
    }

    // The attempts after the progress of the attempt at the job with this number.
    pub(crate) fn went_on(
        &self,
        job: Ulid,
        number: u64,
        ctx: CompactionContext,
    ) -> Result<ListOf<RunAttempt>, SlateDBError>
        ensures next { IfOk result (λ next. next ≡ went_on ctx
            (attempt_with self.now.attempts job number) self.now.attempts) }
        ensures memory { IsOkUnless result SlateDBError.Memory }
    {
        let attempts = self.attempts.as_slice();
        let Some(attempt) = self.attempt_with(job, number) else {
            return Ok(ListOf::from_vec(other_attempts(self.alloc, attempts, &[])?));
        };
        let mut next = other_attempts(self.alloc, attempts, &[attempt.job()])?;
        put_attempt(&mut next, attempt.with_ctx(ctx)?)?;
        Ok(ListOf::from_vec(next))
    }

    /// Takes the message that the attempt at the job with this number went on: it has this context
    /// from now on. The message is dropped if the worker does not run this attempt. Nothing is
    /// called.
    pub(crate) fn take_progress(
        &mut self,
        job: Ulid,
        number: u64,
        ctx: CompactionContext,
    ) -> Result<(), SlateDBError>
        ensures ran { (view : StoreView) → StepRan (runs_then self.new.attempts)
            (take_progress (live_of self.old) job number (context_of ctx)) view view result }
        ensures same { self.new ≡ record self.old { attempts = self.new.attempts } }
        ensures err { OnErr result (self.new ≡ self.old) }
        ensures memory { IsOkUnless result SlateDBError.Memory }
        ensures ready { StaysReady self.old job number ctx self.new }
    {
        self.attempts = self.went_on(job, number, ctx)?;
        Ok(())
    }
}
