//! A store that tells its place among several.

ghost use Rattle.std.specs.Prelude.{◌≡◌, [], ◌∷◌};

use fleet_book::{Compactions, VersionedCompactions};
use fleet_rows::{SlateDBError, Ulid};
use fleet_store::{ManifestChange, Note, RecordChange, Store};
use fleet_table::TableData;
use fleet_tree::{Manifest, VersionedManifest};
use std::snapshot::Snapshot;

/// A store at a row and a shelf, by which it tells its place among several. Its calls go to the
/// store inside.
#[derive(Drop)]
pub struct Placed<S: Store + Drop> {
    store: S,
    row: u64,
    shelf: u64,
}

impl<S: Store + Drop> Placed<S> {
    ghost use Rattle.fleet_rival.specs.Placed.{at_place, place_of, store_of};

    /// The store, at this row and this shelf.
    pub fn new(store: S, row: u64, shelf: u64) -> Placed<S>
        ensures store { store_of result ≡ store }
        ensures place { place_of result ≡ row ∷ shelf ∷ [] }
    {
        Placed { store, row, shelf }
    }
}

impl<S: Store + Drop> Store for Placed<S> {
    ghost use Rattle.fleet_rival.specs.Placed.{at_place, place_of, store_of};

    ghost view = { λ p. at_place (place_of p) (S.view (store_of p)) };

    ghost lawful = { λ p. S.lawful (store_of p) };

    fn get_manifest(&mut self) -> Result<VersionedManifest, SlateDBError> {
        self.store.get_manifest()
    }

    fn put_manifest(
        &mut self,
        version: u64,
        value: Manifest,
        why: ManifestChange,
        jobs: Option<Snapshot<Compactions>>,
    ) -> Result<u64, SlateDBError> {
        self.store.put_manifest(version, value, why, jobs)
    }

    fn get_records(&mut self) -> Result<Option<VersionedCompactions>, SlateDBError> {
        self.store.get_records()
    }

    fn put_records(
        &mut self,
        version: u64,
        value: Compactions,
        why: RecordChange,
    ) -> Result<u64, SlateDBError> {
        self.store.put_records(version, value, why)
    }

    fn put_table(&mut self, id: Ulid, table: TableData) -> Result<(), SlateDBError> {
        self.store.put_table(id, table)
    }

    fn get_table(&mut self, id: Ulid) -> Result<Option<TableData>, SlateDBError> {
        self.store.get_table(id)
    }

    fn draw_job(&mut self, moment: u64) -> Result<Ulid, SlateDBError> {
        self.store.draw_job(moment)
    }

    fn note(&mut self, note: Note) -> Result<(), SlateDBError> {
        self.store.note(note)
    }

    fn draw_table(&mut self, moment: u64) -> Result<Ulid, SlateDBError> {
        self.store.draw_table(moment)
    }
}
