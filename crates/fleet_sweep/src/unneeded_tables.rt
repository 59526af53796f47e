//! The tables that nothing can need.

ghost use Rattle.std.specs.Prelude.{◌≡◌, ◌==◌, ◌++◌, ◌||◌, ℕ, [], ◌∷◌, filter, not, IfOk, OnOk};
ghost use Rattle.std.specs.BTreeSet.{contains};
ghost use Rattle.std.specs.Ordering.{nat_cmp};
ghost use Rattle.fleet_model.specs.Jobs as jobs;
ghost use Rattle.fleet_tree.specs.Trees.{trees_with_prefix};
ghost use Rattle.fleet_store.specs.Records.{jobs_or_none};
ghost use Rattle.fleet_sweep.specs.Named.{is_in_neither, named_ids};

use crate::named_tables::named_ids;
use fleet_book::VersionedCompactions;
use fleet_rows::Ulid;
use fleet_tree::ManifestCore;
use std::alloc::{AllocError, Global};
use std::collections::BTreeSet;

/// The tables among these that no node of a tree names, that no job that is not over names in its
/// context or in its outputs, and that are not pinned. They keep their order.
pub fn unneeded(
    alloc: Global,
    core: &ManifestCore,
    records: &Option<VersionedCompactions>,
    pins: &[Ulid],
    held: &[Ulid],
) -> Result<Vec<Ulid>, AllocError>
    ensures { IfOk result (λ tables. tables.items ≡ filter (is_in_neither
        (named_ids (trees_with_prefix core.now) (jobs_or_none records.now))
        pins.now) held.now) }
{
    let named = named_ids(alloc, core, records)?;
    let mut needed = BTreeSet::new(alloc);
    add_all(&mut needed, named.as_slice())?;
    add_all(&mut needed, pins)?;
    others(alloc, &needed, held)
}

fn add_all(set: &mut BTreeSet<Ulid>, ids: &[Ulid]) -> Result<(), AllocError>
    ensures { OnOk result ((id : ℕ) → contains nat_cmp set.new id
        ≡ (contains nat_cmp set.old id || jobs.contains ids.now id)) }
{
    'ids: for id in ids {
        add(set, *id)?;
    }
    Ok(())
}

fn add(set: &mut BTreeSet<Ulid>, id: Ulid) -> Result<(), AllocError>
    ensures { OnOk result ((other : ℕ)
        → contains nat_cmp set.new other ≡ (contains nat_cmp set.old other || id == other)) }
{
    set.insert(id)?;
    Ok(())
}

// The ids that are not in the set.
fn others(alloc: Global, set: &BTreeSet<Ulid>, ids: &[Ulid]) -> Result<Vec<Ulid>, AllocError>
    ensures { IfOk result (λ others. others.items
        ≡ filter (λ id. not (contains nat_cmp set.now id)) ids.now) }
{
    let mut others = Vec::new(alloc);
    'ids: for id in ids {
        add_other(&mut others, set, *id)?;
    }
    Ok(others)
}

// Adds the id, unless it is in the set.
fn add_other(others: &mut Vec<Ulid>, set: &BTreeSet<Ulid>, id: Ulid) -> Result<(), AllocError>
    ensures { OnOk result (others.new.items
        ≡ others.old.items ++ filter (λ id. not (contains nat_cmp set.now id)) (id ∷ [])) }
{
    if !set.contains(&id) {
        others.push(id)?;
    }
    Ok(())
}
