//! The lines that submit jobs.

ghost use Rattle.std.specs.Prelude.{◌≡◌, Some, None, codes, map, IfOk, IsOkUnless};
ghost use Rattle.fleet_rows.specs.declared.errors.SlateDBError.TheVariants as SlateDBError;
ghost use Rattle.fleet_jobs.specs.Sources.{name_of};
ghost use Rattle.fleet_jobs.specs.Specs as model;
ghost use Rattle.fleet_book.specs.Requests as book;
ghost use Rattle.fleet_text.specs.Lines.{node_of, nodes_of};
ghost use Rattle.step_model.specs.Courses.StepEnds.{Reports};
ghost use Rattle.script_model.specs.Lines.Submits.{full_line, request_of, submit_line};
ghost use Rattle.fleet_lines.specs.Fleets.{Stands, state_of};
ghost use Rattle.fleet_lines.specs.Lines.{RunsAlone};
ghost use Rattle.fleet_lines.specs.Steps.{Says, jobs_said};

use crate::Fleet;
use crate::refusals::refused;
use crate::steps::{requested, submitted};
use bytes::Bytes;
use fleet_book::CompactionRequest;
use fleet_fold::MergeOperator;
use fleet_jobs::{CompactionSpec, SourceId};
use fleet_rows::{JobList, SlateDBError, Ulid};
use fleet_sched::CompactionScheduler;
use fleet_text::{NodeName, Reply, answers, listings};
use std::alloc::{AllocError, Global};

// The source of a job that a line names.
fn source_of(node: &NodeName) -> SourceId
    ensures { name_of result ≡ node_of node.now }
{
    match node {
        NodeName::L0(name) => SourceId::SstView(Ulid::from_parts(0, *name as u128)),
        NodeName::Run(id) => SourceId::SortedRun(*id),
    }
}

// The sources of a job that a line names.
fn sources_of(alloc: Global, nodes: &[NodeName]) -> Result<Vec<SourceId>, AllocError>
    ensures { IfOk result (λ sources. map name_of sources.items ≡ nodes_of nodes.now) }
{
    let mut sources = Vec::new(alloc);
    'nodes: for node in nodes {
        sources.push(source_of(node))?;
    }
    Ok(sources)
}

/// The spec of a job that makes the run `destination` of these nodes.
pub(crate) fn spec_of(
    alloc: Global,
    segment: Bytes,
    nodes: &[NodeName],
    destination: u32,
) -> Result<CompactionSpec, SlateDBError>
    ensures spec { IfOk result (λ spec. model.spec_of spec ≡ record {
      segment = segment;
      sources = nodes_of nodes.now;
      destination = Some destination;
    }) }
    ensures memory { IsOkUnless result SlateDBError.Memory }
{
    let sources = sources_of(alloc, nodes)?;
    Ok(CompactionSpec::for_segment(segment, sources, destination))
}

/// The spec of a job that drops these nodes.
pub(crate) fn drain_of(
    alloc: Global,
    segment: Bytes,
    nodes: &[NodeName],
) -> Result<CompactionSpec, SlateDBError>
    ensures spec { IfOk result (λ spec. model.spec_of spec ≡ record {
      segment = segment;
      sources = nodes_of nodes.now;
      destination = None;
    }) }
    ensures memory { IsOkUnless result SlateDBError.Memory }
{
    let sources = sources_of(alloc, nodes)?;
    Ok(CompactionSpec::drain_segment(segment, sources))
}

/// The request for the jobs of this segment, or of all.
pub(crate) fn request_of(segment: Option<Bytes>) -> CompactionRequest
    ensures { book.request_of result ≡ request_of segment }
{
    match segment {
        Some(segment) => CompactionRequest::FullSegment { segment },
        None => CompactionRequest::Full,
    }
}

// The reply to the submission of a job.
fn submit_reply(
    alloc: Global,
    submitted: Result<JobList, SlateDBError>,
) -> Result<Reply, SlateDBError>
    ensures says { IfOk result (Says Reports (jobs_said (codes "job")) submitted) }
    ensures memory { IsOkUnless result SlateDBError.Memory }
{
    match submitted {
        Ok(job) => listings::submitted(alloc, &job),
        Err(error) => refused(alloc, error),
    }
}

// The reply to a request for jobs.
fn request_reply(
    alloc: Global,
    requested: Result<JobList, SlateDBError>,
) -> Result<Reply, SlateDBError>
    ensures says { IfOk result (Says Reports (jobs_said (codes "jobs")) requested) }
    ensures memory { IsOkUnless result SlateDBError.Memory }
{
    match requested {
        Ok(jobs) => listings::submitted_all(alloc, &jobs),
        Err(error) => refused(alloc, error),
    }
}

impl Fleet {
    /// Submits a job of this spec.
    pub(crate) fn submit<O: MergeOperator>(
        &mut self,
        operator: &O,
        number: u64,
        spec: CompactionSpec,
    ) -> Result<Reply, SlateDBError>
        requires { Stands (O.merged (O.settings operator.now)) self.old }
        ensures ran { IfOk result (RunsAlone (O.merged (O.settings operator.now)) number
            (state_of self.old) (submit_line (model.spec_of spec) (state_of self.old))
            self.old self.new) }
        ensures memory { IsOkUnless result SlateDBError.Memory }
    {
        let mut specs = Vec::new(self.alloc);
        specs.push(spec)?;
        let jobs = submitted(
            self.alloc,
            &mut self.store,
            operator,
            number,
            self.moment,
            specs,
        );
        submit_reply(self.alloc, jobs)
    }

    /// Submits the jobs that the scheduler makes of a segment, or of all.
    pub(crate) fn full<O: MergeOperator>(
        &mut self,
        operator: &O,
        scheduler: &(dyn CompactionScheduler + Send + Sync),
        number: u64,
        segment: Option<Bytes>,
    ) -> Result<Reply, SlateDBError>
        requires { Stands (O.merged (O.settings operator.now)) self.old }
        ensures ran { IfOk result (RunsAlone (O.merged (O.settings operator.now)) number
            (state_of self.old) (full_line (record {
              merge = O.merged (O.settings operator.now);
              scheduler = answers scheduler.now;
            }) segment (state_of self.old)) self.old self.new) }
        ensures memory { IsOkUnless result SlateDBError.Memory }
    {
        let request = request_of(segment);
        let jobs = requested(
            self.alloc,
            &mut self.store,
            operator,
            number,
            self.moment,
            scheduler,
            &request,
        );
        request_reply(self.alloc, jobs)
    }
}
