//! Draws of ids.

ghost use Rattle.fleet_step.specs.Draws.{DrawsJobs};

use fleet_rows::{JobList, SlateDBError};
use fleet_store::Store;
use std::alloc::Global;

/// Draws so many ids for jobs, one after the other, with this moment in milliseconds.
pub fn draw_jobs<S: Store>(
    alloc: Global,
    store: &mut S,
    moment: u64,
    count: usize,
) -> Result<JobList, SlateDBError>
    ensures { DrawsJobs moment count (S.view store.old) (S.view store.new) result }
{
    let mut ids = Vec::new(alloc);
    'draws: for drawn in 0..count {
        let id = store.draw_job(moment)?;
        ids.push(id)?;
    }
    Ok(JobList::from_vec(ids))
}
