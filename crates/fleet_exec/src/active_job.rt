//! A job that runs.

ghost use Rattle.std.specs.Prelude.{◌≡◌, ◌≤◌, ◌<◌, ◌^◌, length, IfOk, IsOkUnless, IsSome, OnErr, OnOk, Some};
ghost use Rattle.std.specs.Option.{ForNone};
ghost use Rattle.fleet_exec.specs.Executors.{IsPlanned, StartsAs, fresh_parts, settings_with, with_table};

use crate::StartCompactionJobArgs;
use fleet_jobs::CompactionContext;
use fleet_plan::{Subcompaction, plan_subcompaction_ranges};
use fleet_range::BytesRange;
use fleet_rows::{Settings, SlateDBError, Ulid};
use fleet_tree::SsTableHandle;
use std::alloc::Global;
use std::marker::Model;

/// A job that runs: the arguments that it was started with, and its context. Contracts see both.
#[derive(Debug, Drop)]
pub(crate) struct ActiveJob {
    args: StartCompactionJobArgs,
    ctx: CompactionContext,
}

impl Model for ActiveJob {
    ghost use Rattle.fleet_exec.specs.ExecutorParts.{ActiveParts};

    ghost Value = { ActiveParts };

    ghost view = { λ job. record { args = job.args; ctx = job.ctx } };
}

impl ActiveJob {
    /// A job that starts. Its context is a copy of the one in the arguments. If there is none, one
    /// is planned with at most `max_subcompactions` ranges.
    pub(crate) fn start(
        alloc: Global,
        args: StartCompactionJobArgs,
        max_subcompactions: u64,
    ) -> Result<ActiveJob, SlateDBError>
        requires floor { ForNone args.ctx (IsSome args.retention_min_seq) }
        requires few { max_subcompactions < 2 ^ 32 }
        ensures job { IfOk result (StartsAs args max_subcompactions) }
        ensures memory { IsOkUnless result SlateDBError.Memory }
    {
        let ctx = match (&args.ctx, args.retention_min_seq) {
            (Some(ctx), _) => ctx.clone()?,
            (None, Some(floor)) => planned_context(alloc, &args, floor, max_subcompactions)?,
            (None, None) => unreachable!(),
        };
        Ok(ActiveJob { args, ctx })
    }

    pub(crate) fn id(&self) -> Ulid
        ensures { result ≡ self.now.args.id }
    {
        self.args.id
    }

    pub(crate) fn args(&self) -> &StartCompactionJobArgs
        ensures { result.now ≡ self.now.args }
    {
        &self.args
    }

    pub(crate) fn ctx(&self) -> &CompactionContext
        ensures { result.now ≡ self.now.ctx }
    {
        &self.ctx
    }

    /// Adds a table at the end of the list of a range, counted from 1. If out of memory, the table
    /// is dropped.
    pub(crate) fn add_table(&mut self, range: u32, table: SsTableHandle) -> Result<(), SlateDBError>
        requires counted { 1 ≤ range }
        requires there { range ≤ length self.old.ctx.ranges }
        ensures ok { OnOk result (self.new ≡ with_table range table self.old) }
        ensures err { OnErr result (self.new ≡ self.old) }
        ensures memory { IsOkUnless result SlateDBError.Memory }
    {
        self.ctx.push_output_sst(range as usize - 1, table)
    }
}

// A context for a job that has none yet.
fn planned_context(
    alloc: Global,
    args: &StartCompactionJobArgs,
    floor: u64,
    max_subcompactions: u64,
) -> Result<CompactionContext, SlateDBError>
    requires floor { args.now.retention_min_seq ≡ Some floor }
    requires few { max_subcompactions < 2 ^ 32 }
    ensures context { IfOk result (IsPlanned args.now max_subcompactions) }
    ensures memory { IsOkUnless result SlateDBError.Memory }
{
    let views = args.l0_sst_views.as_slice();
    let runs = args.sorted_runs.as_slice();
    let ranges = plan_subcompaction_ranges(alloc, views, runs, max_subcompactions)?;
    Ok(CompactionContext::new(
        subcompactions(alloc, ranges)?,
        settings(args, floor),
        args.release,
    ))
}

fn settings(args: &StartCompactionJobArgs, floor: u64) -> Settings
    ensures { result ≡ settings_with floor args.now }
{
    Settings {
        floor,
        tick: args.compaction_clock_tick,
        last_run: args.is_dest_last_run,
        cut: args.cut,
    }
}

// A subcompaction without tables for each of these ranges.
fn subcompactions(
    alloc: Global,
    ranges: Vec<BytesRange>,
) -> Result<Vec<Subcompaction>, SlateDBError>
    ensures parts { IfOk result (λ parts. parts.items ≡ fresh_parts ranges.items) }
    ensures memory { IsOkUnless result SlateDBError.Memory }
{
    let mut parts = Vec::with_capacity(alloc, ranges.len())?;
    'ranges: for range in ranges {
        parts.push(Subcompaction::new(alloc, range))?;
    }
    Ok(parts)
}
