//! Ranges that are resumed after the tables that were noted for them.

ghost use Rattle.std.specs.Prelude.{◌≡◌, IfOk, IsOkUnless, map};
ghost use Rattle.fleet_output.specs.Jobs.{cursor_of, resumed_range};

use bytes::Bytes;
use fleet_exec::RangeJob;
use fleet_plan::Subcompaction;
use fleet_rows::{Settings, SlateDBError};
use fleet_tree::SsTableHandle;
use std::alloc::Global;

// The place of the last row of these tables, or None if there is no table.
fn cursor_of(tables: &[SsTableHandle]) -> Result<Option<(Bytes, u64)>, SlateDBError>
    ensures cursor { IfOk result (λ cursor. cursor ≡ cursor_of tables.now) }
    ensures memory { IsOkUnless result SlateDBError.Memory }
{
    match tables.last() {
        Some(table) => Ok(Some((table.last_key.clone()?, table.last_seq))),
        None => Ok(None),
    }
}

/// The range, resumed under these settings after the last row of the last table that is noted for
/// it.
pub fn range_job(settings: Settings, part: &Subcompaction) -> Result<RangeJob, SlateDBError>
    ensures job { IfOk result (λ job. job ≡ resumed_range settings part.now) }
    ensures memory { IsOkUnless result SlateDBError.Memory }
{
    Ok(RangeJob {
        range: part.range().clone()?,
        cursor: cursor_of(part.output_ssts())?,
        settings,
    })
}

/// These ranges in order, each resumed under these settings after the last row of the last table
/// that is noted for it.
pub fn range_jobs(
    alloc: Global,
    settings: Settings,
    parts: &[Subcompaction],
) -> Result<Vec<RangeJob>, SlateDBError>
    ensures jobs { IfOk result (λ jobs. jobs.items ≡ map (resumed_range settings) parts.now) }
    ensures memory { IsOkUnless result SlateDBError.Memory }
{
    let mut jobs = Vec::with_capacity(alloc, parts.len())?;
    'parts: for part in parts {
        let job = range_job(settings, part)?;
        jobs.push(job)?;
    }
    Ok(jobs)
}
