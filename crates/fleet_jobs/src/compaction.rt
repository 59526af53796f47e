//! Jobs, as their records keep them.

ghost use Rattle.std.specs.Prelude.{◌≡◌, ◌<◌, ◌^◌, ◌++◌, [], ◌∷◌, IfOk, IsOkUnless, OnErr, OnOk, Some, count_by, flat_map, length, not, option_map};
ghost use Rattle.std.specs.Arc.{arc_value};
ghost use Rattle.std.specs.Fmt.{DisplaysOnOk};
ghost use Rattle.std.specs.Option.{option_copied};
ghost use Rattle.fleet_model.specs.Jobs.{is_finished};
ghost use Rattle.fleet_tree.specs.Lists.{items_of};
ghost use Rattle.fleet_jobs.specs.Contexts.{FollowsContext, ranges_in};
ghost use Rattle.fleet_jobs.specs.Jobs.{fresh_job, with_status};
ghost use Rattle.fleet_jobs.specs.Status.{status_of};
ghost use Rattle.fleet_jobs.specs.Texts.{bytes_text, count_text, has_output, job_text, ranges_text};

use crate::copying::add_all;
use crate::shareable::Shareable;
use crate::{CompactionContext, CompactionSpec, CompactionStatus, WorkerSpec};
use fleet_plan::Subcompaction;
use fleet_rows::{Copies, JobList, ListOf, SlateDBError, Ulid};
use fleet_tree::{OutputList, TableList};
use std::alloc::{AllocError, Global};
use std::fmt;
use std::marker::Model;
use std::sync::Arc;

/// The record of a job. Contracts see its parts. The spec, the source tables, the context and the
/// tables that the job wrote never change in place. After `shared` the copies of the record share
/// these four with it. What a setter puts in later is copied, until `shared` is called again.
#[derive(Debug, Drop, PartialEq, Eq)]
pub struct Compaction {
    id: Ulid,
    spec: Shareable<CompactionSpec>,
    bytes_processed: u64,
    status: CompactionStatus,
    worker: Option<WorkerSpec>,
    attempt: u64,
    source_tables: Shareable<JobList>,
    ctx: Option<Shareable<CompactionContext>>,
    output_ssts: Shareable<OutputList>,
    cut: Option<u64>,
}

impl Model for Compaction {
    ghost use Rattle.fleet_jobs.specs.Parts.JobParts.{JobParts};

    ghost Value = { JobParts };

    ghost view = { λ c. record {
      id = c.id;
      spec = c.spec;
      bytes_processed = c.bytes_processed;
      status = c.status;
      worker = c.worker;
      attempt = c.attempt;
      source_tables = c.source_tables;
      ctx = c.ctx;
      outputs = c.output_ssts;
      cut = c.cut;
    } };

    ghost inverse = { λ v. record {
      id = v.id;
      spec = v.spec;
      bytes_processed = v.bytes_processed;
      status = v.status;
      worker = v.worker;
      attempt = v.attempt;
      source_tables = v.source_tables;
      ctx = v.ctx;
      output_ssts = v.outputs;
      cut = v.cut;
    } };
}

impl Compaction {
    /// The record of a job that is submitted.
    pub fn new(alloc: Global, id: Ulid, spec: CompactionSpec) -> Compaction
        ensures { result ≡ fresh_job id spec }
    {
        Compaction {
            id,
            spec: Shareable::new(spec),
            bytes_processed: 0,
            status: CompactionStatus::Submitted,
            worker: None,
            attempt: 0,
            source_tables: Shareable::new(JobList::new(alloc)),
            ctx: None,
            output_ssts: Shareable::new(OutputList::new(alloc)),
            cut: None,
        }
    }

    pub fn id(&self) -> Ulid
        ensures { result ≡ self.now.id }
    {
        self.id
    }

    pub fn spec(&self) -> &CompactionSpec
        ensures { result.now ≡ self.now.spec }
    {
        self.spec.get()
    }

    /// The number of bytes of rows that the job has read so far, as its worker reported.
    pub fn bytes_processed(&self) -> u64
        ensures { result ≡ self.now.bytes_processed }
    {
        self.bytes_processed
    }

    pub fn status(&self) -> CompactionStatus
        ensures { result ≡ self.now.status }
    {
        self.status
    }

    /// The tables that the job wrote: those of its first range, then those of the next, and so on.
    pub fn output_ssts(&self, alloc: Global) -> Result<TableList, SlateDBError>
        ensures tables { IfOk result (λ tables. tables ≡ flat_map (λ list. list) self.now.outputs) }
        ensures memory { IsOkUnless result SlateDBError.Memory }
    {
        joined(alloc, self.output_ssts.get().as_slice())
    }

    /// The tables that the job wrote, range by range. The Rust crate keeps them in one list.
    pub fn outputs(&self) -> &OutputList
        ensures { result.now ≡ self.now.outputs }
    {
        self.output_ssts.get()
    }

    /// The context from which an attempt can go on.
    pub fn ctx(&self) -> Option<&CompactionContext>
        ensures { option_copied result ≡ self.now.ctx }
    {
        match &self.ctx {
            Some(ctx) => Some(ctx.get()),
            None => None,
        }
    }

    /// The ranges of the context. There are none without a context.
    pub fn subcompactions(&self) -> &[Subcompaction]
        ensures ranges { result.now ≡ ranges_in self.now.ctx }
        ensures few { length (ranges_in self.now.ctx) < 2 ^ 32 }
    {
        match self.ctx() {
            Some(ctx) => ctx.subcompactions(),
            None => &[],
        }
    }

    /// The worker that has the job.
    pub fn worker(&self) -> Option<&WorkerSpec>
        ensures { option_copied result ≡ self.now.worker }
    {
        self.worker.as_ref()
    }

    /// Whether the job is not over.
    pub fn active(&self) -> bool
        ensures { result ≡ not (is_finished (status_of self.now.status)) }
    {
        self.status.active()
    }

    /// The number of the newest attempt. It is 0 before the first claim.
    pub fn attempt(&self) -> u64
        ensures { result ≡ self.now.attempt }
    {
        self.attempt
    }

    /// The tables that the job's sources had when it was scheduled.
    pub fn source_tables(&self) -> &[Ulid]
        ensures { result.now ≡ self.now.source_tables }
    {
        self.source_tables.get().as_slice()
    }

    /// The cut of the attempt that wrote the tables. It is None before that, and if its worker was
    /// of release 1.
    pub fn cut(&self) -> Option<u64>
        ensures { result ≡ self.now.cut }
    {
        self.cut
    }

    /// Sets the status. A job that fails loses its context.
    pub fn set_status(&mut self, status: CompactionStatus)
        ensures { self.new ≡ with_status status self.old }
    {
        self.status = status;
        if status == CompactionStatus::Failed {
            self.ctx = None;
        }
    }

    pub fn set_worker(&mut self, worker: Option<WorkerSpec>)
        ensures { self.new ≡ record self.old { worker = worker } }
    {
        self.worker = worker;
    }

    pub fn set_bytes_processed(&mut self, bytes: u64)
        ensures { self.new ≡ record self.old { bytes_processed = bytes } }
    {
        self.bytes_processed = bytes;
    }

    /// Sets or clears the context. A context may only be followed by one that extends it.
    pub fn set_ctx(&mut self, ctx: Option<CompactionContext>)
        requires { FollowsContext self.old.ctx ctx }
        ensures { self.new ≡ record self.old { ctx = ctx } }
    {
        self.ctx = match ctx {
            Some(ctx) => Some(Shareable::new(ctx)),
            None => None,
        };
    }

    /// Sets the tables that the job wrote, range by range.
    pub fn set_outputs(&mut self, outputs: OutputList)
        ensures { self.new ≡ record self.old { outputs = outputs } }
    {
        self.output_ssts = Shareable::new(outputs);
    }

    /// Sets the tables that the job wrote, as those of one range. If out of memory, nothing
    /// changes.
    pub fn set_output_ssts(
        &mut self,
        alloc: Global,
        output_ssts: TableList,
    ) -> Result<(), SlateDBError>
        ensures ok { OnOk result (self.new ≡ record self.old { outputs = output_ssts ∷ [] }) }
        ensures err { OnErr result (self.new ≡ self.old) }
        ensures memory { IsOkUnless result SlateDBError.Memory }
    {
        let mut outputs = OutputList::new(alloc);
        outputs.push(output_ssts)?;
        self.set_outputs(outputs);
        Ok(())
    }

    pub fn set_attempt(&mut self, attempt: u64)
        ensures { self.new ≡ record self.old { attempt = attempt } }
    {
        self.attempt = attempt;
    }

    pub fn set_source_tables(&mut self, tables: JobList)
        ensures { self.new ≡ record self.old { source_tables = tables } }
    {
        self.source_tables = Shareable::new(tables);
    }

    pub fn set_cut(&mut self, cut: Option<u64>)
        ensures { self.new ≡ record self.old { cut = cut } }
    {
        self.cut = cut;
    }

    /// The same record. From now on its copies share its spec, its source tables, its context and
    /// the tables that the job wrote. If out of memory, the record is dropped.
    pub fn shared(self, alloc: Global) -> Result<Compaction, AllocError>
        ensures { IfOk result (λ job. job ≡ self) }
    {
        Ok(Compaction {
            spec: self.spec.shared(alloc)?,
            source_tables: shared_list(self.source_tables, alloc)?,
            ctx: shared_ctx(self.ctx, alloc)?,
            output_ssts: shared_list(self.output_ssts, alloc)?,
            ..self
        })
    }

    /// Adds a copy at the end of the jobs. The copies of this copy share its spec, its source
    /// tables, its context and the tables that the job wrote. This costs less than `clone` and
    /// `shared`, since the copy is made in its place.
    pub fn copy_into(&self, alloc: Global, jobs: &mut Vec<Compaction>) -> Result<(), AllocError>
        ensures ok { OnOk result (jobs.new.items ≡ jobs.old.items ++ self.now ∷ []) }
        ensures err { OnErr result (jobs.new.items ≡ jobs.old.items) }
    {
        let spec = self.spec.handle(alloc)?;
        let source_tables = list_handle(&self.source_tables, alloc)?;
        let ctx = ctx_handle(&self.ctx, alloc)?;
        let output_ssts = list_handle(&self.output_ssts, alloc)?;
        let worker = Clone::clone(&self.worker)?;
        jobs.reserve(1)?;
        jobs.push_reserved(Compaction {
            id: self.id,
            spec: Shareable::from_handle(spec),
            bytes_processed: self.bytes_processed,
            status: self.status,
            worker,
            attempt: self.attempt,
            source_tables: list_of(source_tables, alloc),
            ctx: ctx_of(ctx),
            output_ssts: list_of(output_ssts, alloc),
            cut: self.cut,
        });
        Ok(())
    }

    /// A copy. It shares what `shared` made shareable, and copies what a setter put in later.
    pub fn clone(&self) -> Result<Compaction, SlateDBError>
        ensures copy { IfOk result (λ copy. copy ≡ self.now) }
        ensures memory { IsOkUnless result SlateDBError.Memory }
    {
        Ok(Clone::clone(self)?)
    }
}

impl Clone for Compaction {
    ghost is_clone = { λ job copy. copy ≡ job };

    fn clone(&self) -> Result<Compaction, AllocError> {
        Ok(Compaction {
            id: self.id,
            spec: Clone::clone(&self.spec)?,
            bytes_processed: self.bytes_processed,
            status: self.status,
            worker: Clone::clone(&self.worker)?,
            attempt: self.attempt,
            source_tables: Clone::clone(&self.source_tables)?,
            ctx: Clone::clone(&self.ctx)?,
            output_ssts: Clone::clone(&self.output_ssts)?,
            cut: self.cut,
        })
    }
}

impl Copies for Compaction {
    fn copied(&self) -> Result<Compaction, AllocError> {
        Clone::clone(self)
    }
}

// The list as a shared one, unless it is empty: a copy of an empty list takes no memory.
fn shared_list<T: Drop>(
    list: Shareable<ListOf<T>>,
    alloc: Global,
) -> Result<Shareable<ListOf<T>>, AllocError>
    ensures { IfOk result (λ shared. shared ≡ list) }
{
    if list.get().is_empty() {
        Ok(list)
    } else {
        list.shared(alloc)
    }
}

fn shared_ctx(
    ctx: Option<Shareable<CompactionContext>>,
    alloc: Global,
) -> Result<Option<Shareable<CompactionContext>>, AllocError>
    ensures { IfOk result (λ shared. shared ≡ ctx) }
{
    match ctx {
        Some(ctx) => Ok(Some(ctx.shared(alloc)?)),
        None => Ok(None),
    }
}

// A handle of the list, or None if the list is empty.
fn list_handle<T: Copies + Drop>(
    list: &Shareable<ListOf<T>>,
    alloc: Global,
) -> Result<Option<Arc<ListOf<T>>>, AllocError>
    ensures { IfOk result (λ handle. items_of handle ≡ list.now) }
{
    if list.get().is_empty() {
        Ok(None)
    } else {
        Ok(Some(list.handle(alloc)?))
    }
}

fn list_of<T: Drop>(handle: Option<Arc<ListOf<T>>>, alloc: Global) -> Shareable<ListOf<T>>
    ensures { result ≡ items_of handle }
{
    match handle {
        Some(handle) => Shareable::from_handle(handle),
        None => Shareable::new(ListOf::new(alloc)),
    }
}

fn ctx_handle(
    ctx: &Option<Shareable<CompactionContext>>,
    alloc: Global,
) -> Result<Option<Arc<CompactionContext>>, AllocError>
    ensures { IfOk result (λ handle. option_map arc_value handle ≡ ctx.now) }
{
    match ctx {
        Some(ctx) => Ok(Some(ctx.handle(alloc)?)),
        None => Ok(None),
    }
}

fn ctx_of(handle: Option<Arc<CompactionContext>>) -> Option<Shareable<CompactionContext>>
    ensures { result ≡ option_map arc_value handle }
{
    match handle {
        Some(handle) => Some(Shareable::from_handle(handle)),
        None => None,
    }
}

// The tables of all these lists, list by list.
fn joined(alloc: Global, lists: &[TableList]) -> Result<TableList, SlateDBError>
    ensures tables { IfOk result (λ tables. tables ≡ flat_map (λ list. list) lists.now) }
    ensures memory { IsOkUnless result SlateDBError.Memory }
{
    let mut tables = Vec::new(alloc);
    'lists: for list in lists {
        add_all(&mut tables, list.as_slice())?;
    }
    TableList::from_vec(alloc, tables)
}

/// Prints the spec, then the bytes that were processed, if there are any, and then how many of the
/// ranges have tables, if there are ranges.
impl fmt::Display for Compaction {
    ghost output = { λ job. Some (job_text job) };

    fn fmt<W: fmt::Write>(&self, f: &mut fmt::Formatter<W>) -> fmt::Result {
        write!(f, "{}", self.spec())?;
        write_processed(f, self.bytes_processed)?;
        write_ranges(f, self.subcompactions())
    }
}

// Writes how many bytes were processed, if there are any.
fn write_processed<W: fmt::Write>(f: &mut fmt::Formatter<W>, bytes: u64) -> fmt::Result
    ensures { DisplaysOnOk W.write_str_gives f.old result (Some (bytes_text bytes)) f.new }
{
    if bytes > 0 {
        write!(f, " ({bytes} processed)")
    } else {
        Ok(())
    }
}

// Writes how many of the ranges have tables, if there are ranges.
fn write_ranges<W: fmt::Write>(f: &mut fmt::Formatter<W>, ranges: &[Subcompaction]) -> fmt::Result
    ensures { DisplaysOnOk W.write_str_gives f.old result (Some (ranges_text ranges.now)) f.new }
{
    if ranges.is_empty() {
        Ok(())
    } else {
        write_count(f, with_output(ranges), ranges.len())
    }
}

fn write_count<W: fmt::Write>(
    f: &mut fmt::Formatter<W>,
    with_output: usize,
    all: usize,
) -> fmt::Result
    ensures { DisplaysOnOk W.write_str_gives f.old result
        (Some (count_text with_output all)) f.new }
{
    write!(f, " [{with_output}/{all}")?;
    write!(f, " subcompactions with output]")
}

// How many of the ranges have tables.
fn with_output(ranges: &[Subcompaction]) -> usize
    ensures { result ≡ count_by has_output ranges.now }
{
    let mut count = 0;
    'counted: for range in ranges {
        if has_output(range) {
            count += 1;
        }
    }
    count
}

fn has_output(range: &Subcompaction) -> bool
    ensures { result ≡ has_output range.now }
{
    !range.output_ssts().is_empty()
}
