//! The calls of a store in memory, under a fold that the caller picks.

ghost use Rattle.std.specs.Prelude.{ℕ};
ghost use Rattle.fleet_model.specs.Exchanges.{PutsTable};
ghost use Rattle.fleet_store.specs.Asks as asks;
ghost use Rattle.fleet_store.specs.Exchanges.{noted_exchange};
ghost use Rattle.fleet_store.specs.Manifests.{jobs_shown};
ghost use Rattle.fleet_store.specs.Under.{view_of};

use crate::folds::{Fold, Folds, Lent, Named};
use fleet_book::{Compactions, VersionedCompactions};
use fleet_history::{ManifestChange, Note, RecordChange};
use fleet_rows::{SlateDBError, Ulid};
use fleet_store::{MemStore, Store};
use fleet_table::TableData;
use fleet_tree::{Manifest, VersionedManifest};
use std::snapshot::Snapshot;

// Each function makes the call of its name. The operator is taken for the fold that is picked.

pub(crate) fn get_manifest<F: Fold + Sync, O: Folds>(
    store: &mut MemStore,
    operator: &Lent<'_, O>,
) -> Result<VersionedManifest, SlateDBError>
    ensures { (lent : ℕ) × asks.GetsManifest (view_of F.fold lent store.old)
        (view_of F.fold lent store.new) result }
{
    let _like = operator;
    let named = Named::<F>::new();
    store.under(&named).get_manifest()
}

pub(crate) fn put_manifest<F: Fold + Sync, O: Folds>(
    store: &mut MemStore,
    operator: &Lent<'_, O>,
    version: u64,
    manifest: Manifest,
    why: ManifestChange,
    jobs: Option<Snapshot<Compactions>>,
) -> Result<u64, SlateDBError>
    requires fits { (lent : ℕ) → asks.ManifestPutFits (view_of F.fold lent store.old)
        version manifest why (jobs_shown jobs) }
    ensures { (lent : ℕ) × asks.PutsManifest (view_of F.fold lent store.old)
        (view_of F.fold lent store.new) version manifest why (jobs_shown jobs) result }
{
    let _like = operator;
    let named = Named::<F>::new();
    store
        .under(&named)
        .put_manifest(version, manifest, why, jobs)
}

pub(crate) fn get_records<F: Fold + Sync, O: Folds>(
    store: &mut MemStore,
    operator: &Lent<'_, O>,
) -> Result<Option<VersionedCompactions>, SlateDBError>
    ensures { (lent : ℕ) × asks.GetsRecords (view_of F.fold lent store.old)
        (view_of F.fold lent store.new) result }
{
    let _like = operator;
    let named = Named::<F>::new();
    store.under(&named).get_records()
}

pub(crate) fn put_records<F: Fold + Sync, O: Folds>(
    store: &mut MemStore,
    operator: &Lent<'_, O>,
    version: u64,
    records: Compactions,
    why: RecordChange,
) -> Result<u64, SlateDBError>
    requires fits { (lent : ℕ)
        → asks.RecordsPutFit (view_of F.fold lent store.old) version records why }
    ensures { (lent : ℕ) × asks.PutsRecords (view_of F.fold lent store.old)
        (view_of F.fold lent store.new) version records why result }
{
    let _like = operator;
    let named = Named::<F>::new();
    store.under(&named).put_records(version, records, why)
}

pub(crate) fn put_table<F: Fold + Sync, O: Folds>(
    store: &mut MemStore,
    operator: &Lent<'_, O>,
    id: Ulid,
    table: TableData,
) -> Result<(), SlateDBError>
    requires fits { (lent : ℕ) → asks.MayCall (view_of F.fold lent store.old)
        (λ met. PutsTable id table) }
    ensures { (lent : ℕ) × asks.PutsTableRows (view_of F.fold lent store.old)
        (view_of F.fold lent store.new) id table result }
{
    let _like = operator;
    let named = Named::<F>::new();
    store.under(&named).put_table(id, table)
}

pub(crate) fn get_table<F: Fold + Sync, O: Folds>(
    store: &mut MemStore,
    operator: &Lent<'_, O>,
    id: Ulid,
) -> Result<Option<TableData>, SlateDBError>
    ensures { (lent : ℕ) × asks.GetsTable (view_of F.fold lent store.old)
        (view_of F.fold lent store.new) id result }
{
    let _like = operator;
    let named = Named::<F>::new();
    store.under(&named).get_table(id)
}

pub(crate) fn draw_job<F: Fold + Sync, O: Folds>(
    store: &mut MemStore,
    operator: &Lent<'_, O>,
    moment: u64,
) -> Result<Ulid, SlateDBError>
    ensures { (lent : ℕ) × asks.DrawsJobId (view_of F.fold lent store.old)
        (view_of F.fold lent store.new) moment result }
{
    let _like = operator;
    let named = Named::<F>::new();
    store.under(&named).draw_job(moment)
}

pub(crate) fn note<F: Fold + Sync, O: Folds>(
    store: &mut MemStore,
    operator: &Lent<'_, O>,
    note: Note,
) -> Result<(), SlateDBError>
    requires fits { (lent : ℕ) → asks.MayCall (view_of F.fold lent store.old)
        (λ met. noted_exchange note) }
    ensures { (lent : ℕ) × asks.Notes (view_of F.fold lent store.old)
        (view_of F.fold lent store.new) note result }
{
    let _like = operator;
    let named = Named::<F>::new();
    store.under(&named).note(note)
}

pub(crate) fn draw_table<F: Fold + Sync, O: Folds>(
    store: &mut MemStore,
    operator: &Lent<'_, O>,
    moment: u64,
) -> Result<Ulid, SlateDBError>
    ensures { (lent : ℕ) × asks.DrawsTableId (view_of F.fold lent store.old)
        (view_of F.fold lent store.new) moment result }
{
    let _like = operator;
    let named = Named::<F>::new();
    store.under(&named).draw_table(moment)
}
