//! The contexts with which attempts begin.

ghost use Rattle.std.specs.Prelude.{◌≡◌, ◌<◌, ◌^◌, map, IfOk, IsOkUnless};
ghost use Rattle.std.specs.Option.{option_copied};
ghost use Rattle.fleet_jobs.specs.Contexts.{context_with, settings_in};
ghost use Rattle.fleet_claim.specs.Contexts.{IsContext, IsFresh, fresh_parts};

use fleet_jobs::{CompactionContext, Release};
use fleet_plan::{Subcompaction, plan_subcompaction_ranges};
use fleet_range::{BytesRange, RangeList};
use fleet_rows::{Settings, SlateDBError};
use fleet_tree::SsTableView;
use std::alloc::Global;

// A subcompaction without tables for each of these ranges.
fn fresh_parts(alloc: Global, ranges: Vec<BytesRange>) -> Result<Vec<Subcompaction>, SlateDBError>
    ensures parts { IfOk result (λ parts. parts.items ≡ fresh_parts ranges.items) }
    ensures memory { IsOkUnless result SlateDBError.Memory }
{
    let mut parts = Vec::with_capacity(alloc, ranges.len())?;
    'ranges: for range in ranges {
        parts.push(Subcompaction::new(alloc, range))?;
    }
    Ok(parts)
}

// A context with these settings and at most so many ranges, planned for these tables.
fn fresh(
    alloc: Global,
    views: &[SsTableView],
    most: u64,
    settings: Settings,
    release: Release,
) -> Result<CompactionContext, SlateDBError>
    requires few { most < 2 ^ 32 }
    ensures context { IfOk result (IsFresh views.now most settings release) }
    ensures memory { IsOkUnless result SlateDBError.Memory }
{
    let ranges = plan_subcompaction_ranges(alloc, views, &[], most)?;
    Ok(CompactionContext::new(fresh_parts(alloc, ranges)?, settings, release))
}

// Copies of these ranges with their tables.
fn copies(alloc: Global, parts: &[Subcompaction]) -> Result<Vec<Subcompaction>, SlateDBError>
    ensures parts { IfOk result (λ copies. copies.items ≡ parts.now) }
    ensures memory { IsOkUnless result SlateDBError.Memory }
{
    let mut copies = Vec::with_capacity(alloc, parts.len())?;
    'parts: for part in parts {
        copies.push(part.clone()?)?;
    }
    Ok(copies)
}

// The context of an attempt that a worker of this release takes over. It keeps a cut exactly if the
// release knows cuts.
fn taken_over(
    alloc: Global,
    ctx: &CompactionContext,
    release: Release,
) -> Result<CompactionContext, SlateDBError>
    ensures context { IfOk result
        (λ new. new ≡ context_with ctx.now.ranges (settings_in ctx.now) release) }
    ensures memory { IsOkUnless result SlateDBError.Memory }
{
    let parts = copies(alloc, ctx.subcompactions())?;
    Ok(CompactionContext::new(parts, ctx.settings(), release))
}

/// The context with which an attempt over these tables begins: the published one, or a fresh one if
/// none is published.
pub(crate) fn context(
    alloc: Global,
    published: Option<&CompactionContext>,
    views: &[SsTableView],
    most: u64,
    settings: Settings,
    release: Release,
) -> Result<CompactionContext, SlateDBError>
    requires few { most < 2 ^ 32 }
    ensures context { IfOk result
        (IsContext views.now most settings release (option_copied published.entry)) }
    ensures memory { IsOkUnless result SlateDBError.Memory }
{
    match published {
        Some(ctx) => taken_over(alloc, ctx, release),
        None => fresh(alloc, views, most, settings, release),
    }
}

/// Copies of the keys of these ranges.
pub(crate) fn key_ranges(alloc: Global, parts: &[Subcompaction]) -> Result<RangeList, SlateDBError>
    ensures ranges { IfOk result (λ ranges. ranges ≡ map (λ part. part.range) parts.now) }
    ensures memory { IsOkUnless result SlateDBError.Memory }
{
    let mut ranges = Vec::with_capacity(alloc, parts.len())?;
    'parts: for part in parts {
        ranges.push(part.range().clone()?)?;
    }
    Ok(RangeList::from_vec(ranges))
}
