//! What the lock of a shared store holds.

ghost use Rattle.std.specs.Prelude.{◌≡◌, ◌<◌, ◌++◌, [], ◌∷◌, map, if◌then◌else◌, true, IfOk};
ghost use Rattle.std.specs.Vec.{vec_capacity, vec_len};
ghost use Rattle.step_model.specs.Kept.Keeps.{Keeps};
ghost use Rattle.fleet_lock.specs.Calls.{is_made};
ghost use Rattle.fleet_lock.specs.Held.{HeldValue, held_store, store_of};
ghost use Rattle.fleet_lock.specs.Steps.{CallsLead};

use crate::calls;
use crate::folds::{Folds, Lent};
use crate::holds::Holds;
use crate::last_entry::{last_claims, last_commits};
use fleet_book::{Compactions, VersionedCompactions};
use fleet_history::{ManifestChange, Note, Party, RecordChange};
use fleet_rows::{SlateDBError, Ulid};
use fleet_store::MemStore;
use fleet_table::TableData;
use fleet_tree::{Manifest, VersionedManifest};
use std::alloc::Global;
use std::marker::{Brand, Model};
use std::snapshot::Snapshot;

/// A store in memory with the reference to its operator. What it was when it was shared, and after
/// each call since then, is remembered for contracts alone, which takes no memory.
#[derive(Drop)]
pub struct Held<'o, O: Folds> {
    store: MemStore,
    lent: Lent<'o, O>,
    base: Snapshot<MemStore>,
    trace: Vec<Snapshot<MemStore>>,
}

impl<'o, O: Folds> Model for Held<'o, O> {
    ghost use Rattle.std.specs.Prelude.{map};
    ghost use Rattle.fleet_lock.specs.Held.{HeldValue};
    ghost use Rattle.fleet_lock.specs.Steps.{IsHeld};

    ghost Value = { HeldValue };

    ghost view = { λ h. record {
      base = h.base.value;
      trace = map (λ s. s.value) h.trace.items;
      settings = O.has h.lent.operator.now;
      history = h.store.history;
      line = h.store.line;
      party = h.store.party;
    } };

    ghost invariant = { λ h. IsHeld (O.folds (O.has h.lent.operator.now)) h.store record {
      base = h.base.value;
      trace = map (λ s. s.value) h.trace.items;
      settings = O.has h.lent.operator.now;
      history = h.store.history;
      line = h.store.line;
      party = h.store.party;
    } };
}

impl<'o, O: Folds> Held<'o, O> {
    /// Nothing was called yet.
    pub(crate) fn new(alloc: Global, store: MemStore, lent: Lent<'o, O>) -> Held<'o, O>
        requires { Keeps (O.folds (O.has lent.operator.now)) store.world }
        ensures { result ≡ record {
          base = store;
          trace = [];
          settings = O.has lent.entry.operator.now;
          history = store.history;
          line = store.line;
          party = store.party;
        } }
    {
        let base = Snapshot::of(&store);
        Held {
            store,
            lent,
            base,
            trace: Vec::new(alloc),
        }
    }

    /// The store.
    pub(crate) fn into_store(self) -> MemStore
        ensures { result ≡ held_store self.entry }
    {
        let Held {
            store,
            lent: _,
            base: _,
            trace: _,
        } = self;
        store
    }
}

// Whether the call was made.
fn was_made<T>(answer: &Result<T, SlateDBError>) -> bool
    ensures { result ≡ is_made answer.now }
{
    !matches!(answer, Err(SlateDBError::Memory))
}

// Remembers the store after a call, if the call was made.
fn remember(trace: &mut Vec<Snapshot<MemStore>>, store: &MemStore, made: bool)
    requires { vec_len trace.old < vec_capacity trace.old }
    ensures { map (λ s. s.value) trace.new.items ≡ (if made
        then map (λ s. s.value) trace.old.items ++ store.now ∷ []
        else map (λ s. s.value) trace.old.items) }
{
    if made {
        trace.push_reserved(Snapshot::of(store));
    }
}

impl<O: Folds> Holds for Held<'_, O> {
    ghost value = { λ h. h };

    ghost folds = { O.folds };

    ghost lawful = { O.lawful };

    fn known(&self) {
        let _store = &self.store;
    }

    fn len(&self) -> u64 {
        self.store.history().len() as u64
    }

    fn last_claims(&self) -> u64 {
        last_claims(self.store.history())
    }

    fn last_commits(&self) -> u64 {
        last_commits(self.store.history())
    }

    fn get_manifest(&mut self, line: u64, party: Party) -> Result<VersionedManifest, SlateDBError> {
        self.trace.reserve(1)?;
        self.store.set_actor(line, party);
        let answer = calls::get_manifest::<Brand, O>(&mut self.store, &self.lent);
        remember(&mut self.trace, &self.store, was_made(&answer));
        answer
    }

    fn put_manifest(
        &mut self,
        line: u64,
        party: Party,
        version: u64,
        manifest: Manifest,
        why: ManifestChange,
        jobs: Option<Snapshot<Compactions>>,
    ) -> Result<u64, SlateDBError> {
        self.trace.reserve(1)?;
        self.store.set_actor(line, party);
        let answer = calls::put_manifest::<Brand, O>(
            &mut self.store,
            &self.lent,
            version,
            manifest,
            why,
            jobs,
        );
        remember(&mut self.trace, &self.store, was_made(&answer));
        answer
    }

    fn get_records(
        &mut self,
        line: u64,
        party: Party,
    ) -> Result<Option<VersionedCompactions>, SlateDBError> {
        self.trace.reserve(1)?;
        self.store.set_actor(line, party);
        let answer = calls::get_records::<Brand, O>(&mut self.store, &self.lent);
        remember(&mut self.trace, &self.store, was_made(&answer));
        answer
    }

    fn put_records(
        &mut self,
        line: u64,
        party: Party,
        version: u64,
        records: Compactions,
        why: RecordChange,
    ) -> Result<u64, SlateDBError> {
        self.trace.reserve(1)?;
        self.store.set_actor(line, party);
        let answer = calls::put_records::<Brand, O>(
            &mut self.store,
            &self.lent,
            version,
            records,
            why,
        );
        remember(&mut self.trace, &self.store, was_made(&answer));
        answer
    }

    fn put_table(
        &mut self,
        line: u64,
        party: Party,
        id: Ulid,
        table: TableData,
    ) -> Result<(), SlateDBError> {
        self.trace.reserve(1)?;
        self.store.set_actor(line, party);
        let answer = calls::put_table::<Brand, O>(&mut self.store, &self.lent, id, table);
        remember(&mut self.trace, &self.store, was_made(&answer));
        answer
    }

    fn get_table(
        &mut self,
        line: u64,
        party: Party,
        id: Ulid,
    ) -> Result<Option<TableData>, SlateDBError> {
        self.trace.reserve(1)?;
        self.store.set_actor(line, party);
        let answer = calls::get_table::<Brand, O>(&mut self.store, &self.lent, id);
        remember(&mut self.trace, &self.store, was_made(&answer));
        answer
    }

    fn draw_job(&mut self, line: u64, party: Party, moment: u64) -> Result<Ulid, SlateDBError> {
        self.trace.reserve(1)?;
        self.store.set_actor(line, party);
        let answer = calls::draw_job::<Brand, O>(&mut self.store, &self.lent, moment);
        remember(&mut self.trace, &self.store, was_made(&answer));
        answer
    }

    fn note(&mut self, line: u64, party: Party, note: Note) -> Result<(), SlateDBError> {
        self.trace.reserve(1)?;
        self.store.set_actor(line, party);
        let answer = calls::note::<Brand, O>(&mut self.store, &self.lent, note);
        remember(&mut self.trace, &self.store, was_made(&answer));
        answer
    }

    fn draw_table(&mut self, line: u64, party: Party, moment: u64) -> Result<Ulid, SlateDBError> {
        self.trace.reserve(1)?;
        self.store.set_actor(line, party);
        let answer = calls::draw_table::<Brand, O>(&mut self.store, &self.lent, moment);
        remember(&mut self.trace, &self.store, was_made(&answer));
        answer
    }
}
