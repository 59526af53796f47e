//! A store in memory that is lent together with a merge operator.

ghost use Rattle.std.specs.Prelude.{◌≡◌};

use crate::memory::ended;
use crate::{MemStore, Store, SweepStore};
use fleet_book::{Compactions, VersionedCompactions};
use fleet_fold::MergeOperator;
use fleet_history::{ManifestChange, Note, Party, RecordChange};
use fleet_rows::{IdList, SlateDBError, Ulid};
use fleet_table::TableData;
use fleet_tree::{Manifest, VersionedManifest};
use std::alloc::Global;
use std::snapshot::Snapshot;

/// A store in memory, lent together with the operator under which its rows are merged. Nobody else
/// calls it.
#[derive(Drop)]
pub struct Under<'a, 'o, O: MergeOperator> {
    store: &'a mut MemStore,
    operator: &'o O,
}

impl MemStore {
    ghost use Rattle.fleet_store.specs.Under.{lent_of, operator_of, store_of};

    /// Lends the store together with an operator.
    pub fn under<'a, 'o, O: MergeOperator>(&'a mut self, operator: &'o O) -> Under<'a, 'o, O>
        ensures same_reference { lent_of result ≡ self.entry.ghost_name }
        ensures store { store_of result ≡ self.old }
        ensures operator { operator_of result ≡ operator.now }
    {
        Under {
            store: self,
            operator,
        }
    }
}

impl<O: MergeOperator> Under<'_, '_, O> {
    ghost use Rattle.fleet_store.specs.Under.{lent_of, operator_of, store_of};

    /// Later entries carry this line and this party.
    pub fn set_actor(&mut self, line: u64, party: Party)
        ensures store { store_of self.new
            ≡ record (store_of self.old) { line = line; party = party } }
        ensures same_reference { lent_of self.new ≡ lent_of self.old }
        ensures same_operator { operator_of self.new ≡ operator_of self.old }
    {
        self.store.set_actor(line, party);
    }

    /// The store, looked at without a call.
    pub fn store(&self) -> &MemStore
        ensures { result.now ≡ store_of self.now }
    {
        self.store
    }
}

impl<O: MergeOperator> Store for Under<'_, '_, O> {
    ghost use Rattle.fleet_store.specs.Under.{lent_of, operator_of, store_of, view_of};

    ghost view = { λ u. view_of (O.merged (O.settings (operator_of u))) (lent_of u) (store_of u) };

    ghost lawful = { λ u. O.lawful (O.settings (operator_of u)) };

    fn get_manifest(&mut self) -> Result<VersionedManifest, SlateDBError> {
        ended(self.store.make_get_manifest())
    }

    fn put_manifest(
        &mut self,
        version: u64,
        value: Manifest,
        why: ManifestChange,
        jobs: Option<Snapshot<Compactions>>,
    ) -> Result<u64, SlateDBError> {
        ended(self.store.make_put_manifest(version, value, why, jobs))
    }

    fn get_records(&mut self) -> Result<Option<VersionedCompactions>, SlateDBError> {
        ended(self.store.make_get_records())
    }

    fn put_records(
        &mut self,
        version: u64,
        value: Compactions,
        why: RecordChange,
    ) -> Result<u64, SlateDBError> {
        ended(self.store.make_put_records(version, value, why))
    }

    fn put_table(&mut self, id: Ulid, table: TableData) -> Result<(), SlateDBError> {
        ended(self.store.make_put_table(id, table))
    }

    fn get_table(&mut self, id: Ulid) -> Result<Option<TableData>, SlateDBError> {
        ended(self.store.make_get_table(id))
    }

    fn draw_job(&mut self, moment: u64) -> Result<Ulid, SlateDBError> {
        ended(self.store.make_draw_job(moment))
    }

    fn note(&mut self, note: Note) -> Result<(), SlateDBError> {
        ended(self.store.make_note(note))
    }

    fn draw_table(&mut self, moment: u64) -> Result<Ulid, SlateDBError> {
        ended(self.store.make_draw_table(moment))
    }
}

impl<O: MergeOperator> SweepStore for Under<'_, '_, O> {
    fn list_tables(&mut self, alloc: Global) -> Result<IdList, SlateDBError> {
        ended(self.store.make_list_tables(alloc))
    }

    fn delete_table(&mut self, id: Ulid) -> Result<(), SlateDBError> {
        ended(self.store.make_delete_table(id))
    }
}
