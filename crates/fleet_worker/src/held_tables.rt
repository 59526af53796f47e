//! The tables that attempts hold.

ghost use Rattle.std.specs.Prelude.{◌≡◌, ◌++◌, [], ◌∷◌, IfOk, IsOkUnless, OnOk};
ghost use Rattle.fleet_jobs.specs.Contexts.{table_ids};
ghost use Rattle.fleet_worker.specs.Held.{all_held, held_by, noted_in};

use crate::RunAttempt;
use fleet_plan::Subcompaction;
use fleet_rows::{IdList, SlateDBError, Ulid};
use fleet_tree::SsTableHandle;
use std::alloc::{AllocError, Global};

// Adds these ids.
fn add_ids(ids: &mut Vec<Ulid>, more: &[Ulid]) -> Result<(), AllocError>
    ensures { OnOk result (ids.new.items ≡ ids.old.items ++ more.now) }
{
    'more: for id in more {
        ids.push(*id)?;
    }
    Ok(())
}

// Adds the ids of these tables.
fn add_tables(ids: &mut Vec<Ulid>, tables: &[SsTableHandle]) -> Result<(), AllocError>
    ensures { OnOk result (ids.new.items ≡ ids.old.items ++ table_ids tables.now) }
{
    'tables: for table in tables {
        ids.push(table.id)?;
    }
    Ok(())
}

// Adds the tables that were noted for the range.
fn add_range(ids: &mut Vec<Ulid>, range: &Subcompaction) -> Result<(), AllocError>
    ensures { OnOk result (ids.new.items ≡ ids.old.items ++ noted_in (range.now ∷ [])) }
{
    add_tables(ids, range.output_ssts())
}

// Adds the tables that were noted for these ranges.
fn add_ranges(ids: &mut Vec<Ulid>, ranges: &[Subcompaction]) -> Result<(), AllocError>
    ensures { OnOk result (ids.new.items ≡ ids.old.items ++ noted_in ranges.now) }
{
    'parts: for range in ranges {
        add_range(ids, range)?;
    }
    Ok(())
}

// Adds the tables that the attempt holds.
fn add_held(ids: &mut Vec<Ulid>, attempt: &RunAttempt) -> Result<(), AllocError>
    ensures { OnOk result (ids.new.items ≡ ids.old.items ++ held_by attempt.now) }
{
    add_ids(ids, attempt.sources())?;
    add_ranges(ids, attempt.ctx().subcompactions())
}

/// The tables that these attempts hold, attempt by attempt.
pub(crate) fn all_held(alloc: Global, attempts: &[RunAttempt]) -> Result<IdList, SlateDBError>
    ensures tables { IfOk result (λ tables. tables ≡ all_held attempts.now) }
    ensures memory { IsOkUnless result SlateDBError.Memory }
{
    let mut ids = Vec::new(alloc);
    'attempts: for attempt in attempts {
        add_held(&mut ids, attempt)?;
    }
    Ok(IdList::from_vec(ids))
}
