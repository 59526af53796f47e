//! The ids of tables, as replies print them.

ghost use Rattle.std.specs.Prelude.{◌≡◌, IfOk};
ghost use Rattle.fleet_jobs.specs.Contexts.{table_ids};

use fleet_rows::JobList;
use fleet_tree::SsTableHandle;
use std::alloc::{AllocError, Global};

/// The ids of the tables.
pub fn ids_of(alloc: Global, tables: &[SsTableHandle]) -> Result<JobList, AllocError>
    ensures { IfOk result (λ ids. ids ≡ table_ids tables.now) }
{
    let mut ids = Vec::with_capacity(alloc, tables.len())?;
    'tables: for table in tables {
        ids.push(table.id)?;
    }
    Ok(JobList::from_vec(ids))
}
