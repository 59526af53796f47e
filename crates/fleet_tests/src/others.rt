//! Tests of scripts with another merge operator, and with another scheduler.

ghost use Rattle.std.specs.Prelude.{◌≡◌, ◌∷◌, [], map, IfOk};
ghost use Rattle.fleet_jobs.specs.Specs.{spec_of};
ghost use Rattle.fleet_tests.specs.Others.{first_job};

use case_jobs::Sifting;
use fleet_book::{CompactionRequest, CompactorStateView};
use fleet_fold::{AppendOperator, MergeOperator};
use fleet_jobs::{CompactionSpec, SourceId};
use fleet_rows::{SlateDBError, Text, Ulid};
use fleet_run::{Fleet, FleetOptions, MemSink, run_script};
use fleet_sched::{CompactionScheduler, SizeTieredCompactionScheduler};
use std::alloc::{AllocError, Global};
use std::process::Abort;
use std::thread::Threads;

// Whether the script has these replies on a fresh fleet.
fn answers<R: Threads + Sync + Abort, O: MergeOperator + Sync>(
    rt: &R,
    alloc: Global,
    operator: &O,
    scheduler: Box<dyn CompactionScheduler + Send + Sync>,
    script: &str,
    replies: &str,
) -> bool {
    let mut fleet = Fleet::new(alloc, FleetOptions::default()).expect(rt, "a fleet");
    let mut sink = MemSink::new(alloc, &[]);
    let text = script.as_bytes();
    let ran = run_script(rt, alloc, text, operator, scheduler, &mut fleet, &mut sink);
    ran == Ok(()) && sink.as_slice() == replies.as_bytes()
}

// An operator that refuses each value with a `!`, which is the byte 21.
const NO_MARKS: Sifting = Sifting { unwanted: 0x21 };

fn size_tiered(rt: &impl Abort, alloc: Global) -> Box<dyn CompactionScheduler + Send + Sync> {
    Box::new(alloc, SizeTieredCompactionScheduler::default()).expect(rt, "a scheduler")
}

#[test]
fn refused_finishes_release_their_job(rt: HostRuntime) {
    let script =
        "flush 1 - 5 0 61:m:21:1:-:-\nstart coordinator 1\nstart worker 1\nsubmit - 0 l1\npoll 1\nclaim 1\nheartbeat 1\nfinish 1 1\njobs\nfinish 1 1\nread - 61 5 0\n";
    let replies =
        "ok\nok epoch 1\nok\nok job 1\nok freed - done - lost - added - dropped - open 1 moved - drained - bad -\nok claimed 1.1:- stopped -\nok beat 1 notowner -\ncallback 6e6f\nok 1:scheduled:1:-:5/0/1/5/-\nnosuchparty\ncallback 6e6f\n";
    let scheduler = size_tiered(&rt, rt.alloc());
    assert!(rt; answers(&rt, rt.alloc(), &NO_MARKS, scheduler, script, replies));
}

#[test]
fn refused_keys_end_scans(rt: HostRuntime) {
    let script =
        "flush 1 - 5 0 61:v:31:1:-:-,62:m:21:2:-:-,63:v:33:3:-:-\nscan - - - 9 0 9\nscan - - - 9 0 1\n";
    let replies = "ok\nok 61:31 callback 62 6e6f\nok 61:31 more 62\n";
    let scheduler = size_tiered(&rt, rt.alloc());
    assert!(rt; answers(&rt, rt.alloc(), &NO_MARKS, scheduler, script, replies));
}

// Proposes a job that makes run 0 of flush 1 twice, while the newest node of the root is a flush.
// Accepts each job, and declines each request with `no`.
#[derive(Drop)]
struct Twice;

// The job that makes run 0 of flush 1.
fn first_job(alloc: Global) -> Result<CompactionSpec, AllocError>
    ensures { IfOk result (λ job. spec_of job ≡ first_job) }
{
    let mut sources = Vec::new(alloc);
    sources.push(SourceId::SstView(Ulid::from_parts(0, 1)))?;
    Ok(CompactionSpec::new(sources, 0))
}

// That job twice.
fn job_twice(alloc: Global) -> Result<Vec<CompactionSpec>, AllocError>
    ensures { IfOk result
        (λ jobs. map spec_of jobs.items ≡ first_job ∷ first_job ∷ []) }
{
    let mut jobs = Vec::new(alloc);
    jobs.push(first_job(alloc)?)?;
    jobs.push(first_job(alloc)?)?;
    Ok(jobs)
}

impl CompactionScheduler for Twice {
    ghost use Rattle.fleet_tests.specs.Others.{twice};

    ghost answers = { λ _. twice };

    fn propose(
        &self,
        alloc: Global,
        state: &CompactorStateView,
    ) -> Result<Vec<CompactionSpec>, SlateDBError> {
        if state.manifest.manifest.core.tree.l0.is_empty() {
            return Ok(Vec::new(alloc));
        }
        Ok(job_twice(alloc)?)
    }

    fn validate(
        &self,
        _alloc: Global,
        _state: &CompactorStateView,
        _spec: &CompactionSpec,
    ) -> Result<(), SlateDBError> {
        Ok(())
    }

    fn generate(
        &self,
        alloc: Global,
        _state: &CompactorStateView,
        _request: &CompactionRequest,
    ) -> Result<Vec<CompactionSpec>, SlateDBError> {
        Err(SlateDBError::Generate {
            message: Text::new(String::from_str(alloc, "no")?),
        })
    }
}

#[test]
fn second_proposals_are_dropped(rt: HostRuntime) {
    let script =
        "flush 1 - 0 0 61:v:76:1:-:-\nstart coordinator 1\nstart worker 1\npoll 1\nclaim 1\nfinish 1 1\npoll 1\nfull\nsubmit - 0 r0\n";
    let replies =
        "ok\nok epoch 1\nok\nok freed - done - lost - added 1 dropped 2:9 open 1 moved - drained - bad -\nok claimed 1.1:- stopped -\nok t1\nok freed - done 1 lost - added - dropped - open - moved - drained - bad -\ngenerate 6e6f\nok job 3\n";
    let scheduler = Box::new(rt.alloc(), Twice).expect(&rt, "a scheduler");
    assert!(rt; answers(&rt, rt.alloc(), &AppendOperator, scheduler, script, replies));
}
