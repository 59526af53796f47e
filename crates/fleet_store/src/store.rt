//! Stores that parties share.

ghost use Rattle.std.specs.Prelude.{◌≡◌};
ghost use Rattle.row_model.specs.Fold.{IsLawful};
ghost use Rattle.fleet_model.specs.Exchanges.{DeletesTable, PutsTable};
ghost use Rattle.step_model.specs.Views.{StoreView};
ghost use Rattle.fleet_store.specs.Asks as asks;
ghost use Rattle.fleet_store.specs.Exchanges.{noted_exchange};
ghost use Rattle.fleet_store.specs.Manifests.{jobs_shown};

use fleet_book::{Compactions, VersionedCompactions};
use fleet_history::{ManifestChange, Note, RecordChange};
use fleet_rows::{IdList, SlateDBError, Ulid};
use fleet_table::TableData;
use fleet_tree::{Manifest, VersionedManifest};
use std::alloc::Global;
use std::snapshot::Snapshot;

/// A store that parties share. Each call that is not refused for want of memory is one entry of
/// its history. Calls of others may come before a call, if the store is not alone. A put, a note
/// and a deletion must be lawful whatever store those leave. `StoreFault` comes only if a fault
/// struck the call, which then may have taken effect or not.
///
/// Calls take the memory of what they copy and of their entry where the store has its own. A call
/// that makes a new list takes `alloc`.
pub trait Store {
    /// What its caller sees of the store. Its `faults` count the calls of this caller that a fault
    /// struck. If nobody else calls the store, they count these and nothing else; otherwise they
    /// may also rise with calls of others.
    ghost view: { Self → StoreView };

    /// The manifest.
    fn get_manifest(&mut self) -> Result<VersionedManifest, SlateDBError>
        ensures { asks.GetsManifest (view self.old) (view self.new) result };

    /// Puts a manifest in the place of the one with this version. The answer is its own version.
    /// A commit shows the jobs whose specs it does; an epoch and a flush show none. They are for
    /// contracts alone.
    fn put_manifest(
        &mut self,
        version: u64,
        value: Manifest,
        why: ManifestChange,
        jobs: Option<Snapshot<Compactions>>,
    ) -> Result<u64, SlateDBError>
        requires { asks.ManifestPutFits (view self.old) version value why (jobs_shown jobs) }
        ensures { asks.PutsManifest (view self.old) (view self.new)
            version value why (jobs_shown jobs) result };

    /// The job records, or None if there are none.
    fn get_records(&mut self) -> Result<Option<VersionedCompactions>, SlateDBError>
        ensures { asks.GetsRecords (view self.old) (view self.new) result };

    /// Puts records in the place of those with this version. Version 0 creates them. The answer is
    /// their own version.
    fn put_records(
        &mut self,
        version: u64,
        value: Compactions,
        why: RecordChange,
    ) -> Result<u64, SlateDBError>
        requires { asks.RecordsPutFit (view self.old) version value why }
        ensures { asks.PutsRecords (view self.old) (view self.new) version value why result };

    /// Puts a table under an id under which none was ever put.
    fn put_table(&mut self, id: Ulid, table: TableData) -> Result<(), SlateDBError>
        requires { asks.MayCall (view self.old) (λ met. PutsTable id table) }
        ensures { asks.PutsTableRows (view self.old) (view self.new) id table result };

    /// The table with this id, or None if it is not held.
    fn get_table(&mut self, id: Ulid) -> Result<Option<TableData>, SlateDBError>
        ensures { asks.GetsTable (view self.old) (view self.new) id result };

    /// A new id for a job, with this moment in milliseconds. If the history has no room for the
    /// draw, the error is `Memory`.
    fn draw_job(&mut self, moment: u64) -> Result<Ulid, SlateDBError>
        ensures { asks.DrawsJobId (view self.old) (view self.new) moment result };

    /// Adds a note to the history.
    fn note(&mut self, note: Note) -> Result<(), SlateDBError>
        requires { asks.MayCall (view self.old) (λ met. noted_exchange note) }
        ensures { asks.Notes (view self.old) (view self.new) note result };

    /// A new id for a table, with this moment in milliseconds. If the history has no room for the
    /// draw, the error is `Memory`.
    fn draw_table(&mut self, moment: u64) -> Result<Ulid, SlateDBError>
        ensures { asks.DrawsTableId (view self.old) (view self.new) moment result };

    /// The operator under which the store's rows are merged is lawful.
    ghost lawful: { (s : Self) → IsLawful (view s).who.merge };
}

/// A store whose tables can be listed and deleted.
pub trait SweepStore: Store {
    /// The ids of the tables that are held, in rising order.
    fn list_tables(&mut self, alloc: Global) -> Result<IdList, SlateDBError>
        ensures { asks.ListsHeld (Self.view self.old) (Self.view self.new) result };

    /// Deletes a table that is held.
    fn delete_table(&mut self, id: Ulid) -> Result<(), SlateDBError>
        requires { asks.MayCall (Self.view self.old) (λ met. DeletesTable id) }
        ensures { asks.Deletes (Self.view self.old) (Self.view self.new) id result };
}
