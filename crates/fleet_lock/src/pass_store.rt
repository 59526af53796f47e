//! A shared store, as a pass calls it.

ghost use Rattle.std.specs.Prelude.{◌≡◌};
ghost use Rattle.fleet_model.specs.Exchanges.{PutsTable};
ghost use Rattle.fleet_store.specs.Asks as asks;
ghost use Rattle.fleet_store.specs.Exchanges.{noted_exchange};
ghost use Rattle.fleet_store.specs.Manifests.{jobs_shown};
ghost use Rattle.fleet_lock.specs.Calls.{CallStands};

use crate::held_value::Held;
use crate::holds::Holds;
use crate::lock::{Lock, Place, seat_of};
use crate::pass::Pass;
use fleet_book::{Compactions, VersionedCompactions};
use fleet_history::{ManifestChange, Note, RecordChange};
use fleet_rows::{SlateDBError, Ulid};
use fleet_store::Store;
use fleet_table::TableData;
use fleet_tree::{Manifest, VersionedManifest};
use std::snapshot::Snapshot;
use std::sync::Wait;

/// A shared store, as a pass calls it. Each call waits for its turn.
#[derive(Drop)]
pub struct Through<'a, S: Holds, R: Wait> {
    shared: &'a Lock<S>,
    rt: &'a R,
    pass: &'a mut Pass,
    ghost own: { pass.now.table ≡ shared.now.table.shared.table_id },
}

/// A shared store in memory, as a pass calls it. Each call waits for its turn.
pub type PassStore<'a, 'o, O, R> = Through<'a, Held<'o, O>, R>;

impl<S: Holds> Lock<S> {
    ghost use Rattle.fleet_lock.specs.Locks.{lent_of, pass_of, table_of};

    /// The store, as a pass calls it.
    pub fn at<'a, R: Wait>(&'a self, rt: &'a R, pass: &'a mut Pass) -> Through<'a, S, R>
        requires own { pass.old.table ≡ table_of self.now }
        ensures same_reference { lent_of result ≡ pass.entry.ghost_name }
        ensures same_pass { pass_of result ≡ pass.old }
    {
        Through {
            shared: self,
            rt,
            pass,
        }
    }
}

impl<S: Holds, R: Wait> Store for Through<'_, S, R> {
    ghost use Rattle.fleet_lock.specs.Locks.{pass_of, view_through};

    ghost view = { view_through S.folds };

    ghost lawful = { λ t. S.lawful (pass_of t).sight.settings };

    fn get_manifest(&mut self) -> Result<VersionedManifest, SlateDBError>
        ensures asked { asks.GetsManifest (view_through S.folds self.old)
            (view_through S.folds self.new) result }
        ensures stands { CallStands S.folds (pass_of self.old) (pass_of self.new) result }
    {
        let pass = &mut *self.pass;
        let mut seat: Place<S> = seat_of(&mut pass.badge);
        let mut held = self.shared.enter(self.rt, &mut seat, &mut pass.tally);
        let answer = held.get_manifest(pass.line, pass.party);
        self.shared.leave(&mut seat, held, &mut pass.tally);
        pass.badge = seat.into_badge();
        answer
    }

    fn put_manifest(
        &mut self,
        version: u64,
        value: Manifest,
        why: ManifestChange,
        jobs: Option<Snapshot<Compactions>>,
    ) -> Result<u64, SlateDBError>
        requires { asks.ManifestPutFits (view_through S.folds self.old)
            version value why (jobs_shown jobs) }
        ensures asked { asks.PutsManifest (view_through S.folds self.old)
            (view_through S.folds self.new) version value why (jobs_shown jobs) result }
        ensures stands { CallStands S.folds (pass_of self.old) (pass_of self.new) result }
    {
        let pass = &mut *self.pass;
        let mut seat: Place<S> = seat_of(&mut pass.badge);
        let mut held = self.shared.enter(self.rt, &mut seat, &mut pass.tally);
        let answer = held.put_manifest(pass.line, pass.party, version, value, why, jobs);
        self.shared.leave(&mut seat, held, &mut pass.tally);
        pass.badge = seat.into_badge();
        answer
    }

    fn get_records(&mut self) -> Result<Option<VersionedCompactions>, SlateDBError>
        ensures asked { asks.GetsRecords (view_through S.folds self.old)
            (view_through S.folds self.new) result }
        ensures stands { CallStands S.folds (pass_of self.old) (pass_of self.new) result }
    {
        let pass = &mut *self.pass;
        let mut seat: Place<S> = seat_of(&mut pass.badge);
        let mut held = self.shared.enter(self.rt, &mut seat, &mut pass.tally);
        let answer = held.get_records(pass.line, pass.party);
        self.shared.leave(&mut seat, held, &mut pass.tally);
        pass.badge = seat.into_badge();
        answer
    }

    fn put_records(
        &mut self,
        version: u64,
        value: Compactions,
        why: RecordChange,
    ) -> Result<u64, SlateDBError>
        requires { asks.RecordsPutFit (view_through S.folds self.old) version value why }
        ensures asked { asks.PutsRecords (view_through S.folds self.old)
            (view_through S.folds self.new) version value why result }
        ensures stands { CallStands S.folds (pass_of self.old) (pass_of self.new) result }
    {
        let pass = &mut *self.pass;
        let mut seat: Place<S> = seat_of(&mut pass.badge);
        let mut held = self.shared.enter(self.rt, &mut seat, &mut pass.tally);
        let answer = held.put_records(pass.line, pass.party, version, value, why);
        self.shared.leave(&mut seat, held, &mut pass.tally);
        pass.badge = seat.into_badge();
        answer
    }

    fn put_table(&mut self, id: Ulid, table: TableData) -> Result<(), SlateDBError>
        requires { asks.MayCall (view_through S.folds self.old) (λ met. PutsTable id table) }
        ensures asked { asks.PutsTableRows (view_through S.folds self.old)
            (view_through S.folds self.new) id table result }
        ensures stands { CallStands S.folds (pass_of self.old) (pass_of self.new) result }
    {
        let pass = &mut *self.pass;
        let mut seat: Place<S> = seat_of(&mut pass.badge);
        let mut held = self.shared.enter(self.rt, &mut seat, &mut pass.tally);
        let answer = held.put_table(pass.line, pass.party, id, table);
        self.shared.leave(&mut seat, held, &mut pass.tally);
        pass.badge = seat.into_badge();
        answer
    }

    fn get_table(&mut self, id: Ulid) -> Result<Option<TableData>, SlateDBError>
        ensures asked { asks.GetsTable (view_through S.folds self.old)
            (view_through S.folds self.new) id result }
        ensures stands { CallStands S.folds (pass_of self.old) (pass_of self.new) result }
    {
        let pass = &mut *self.pass;
        let mut seat: Place<S> = seat_of(&mut pass.badge);
        let mut held = self.shared.enter(self.rt, &mut seat, &mut pass.tally);
        let answer = held.get_table(pass.line, pass.party, id);
        self.shared.leave(&mut seat, held, &mut pass.tally);
        pass.badge = seat.into_badge();
        answer
    }

    fn draw_job(&mut self, moment: u64) -> Result<Ulid, SlateDBError>
        ensures asked { asks.DrawsJobId (view_through S.folds self.old)
            (view_through S.folds self.new) moment result }
        ensures stands { CallStands S.folds (pass_of self.old) (pass_of self.new) result }
    {
        let pass = &mut *self.pass;
        let mut seat: Place<S> = seat_of(&mut pass.badge);
        let mut held = self.shared.enter(self.rt, &mut seat, &mut pass.tally);
        let answer = held.draw_job(pass.line, pass.party, moment);
        self.shared.leave(&mut seat, held, &mut pass.tally);
        pass.badge = seat.into_badge();
        answer
    }

    fn note(&mut self, note: Note) -> Result<(), SlateDBError>
        requires { asks.MayCall (view_through S.folds self.old) (λ met. noted_exchange note) }
        ensures asked { asks.Notes (view_through S.folds self.old)
            (view_through S.folds self.new) note result }
        ensures stands { CallStands S.folds (pass_of self.old) (pass_of self.new) result }
    {
        let pass = &mut *self.pass;
        let mut seat: Place<S> = seat_of(&mut pass.badge);
        let mut held = self.shared.enter(self.rt, &mut seat, &mut pass.tally);
        let answer = held.note(pass.line, pass.party, note);
        self.shared.leave(&mut seat, held, &mut pass.tally);
        pass.badge = seat.into_badge();
        answer
    }

    fn draw_table(&mut self, moment: u64) -> Result<Ulid, SlateDBError>
        ensures asked { asks.DrawsTableId (view_through S.folds self.old)
            (view_through S.folds self.new) moment result }
        ensures stands { CallStands S.folds (pass_of self.old) (pass_of self.new) result }
    {
        let pass = &mut *self.pass;
        let mut seat: Place<S> = seat_of(&mut pass.badge);
        let mut held = self.shared.enter(self.rt, &mut seat, &mut pass.tally);
        let answer = held.draw_table(pass.line, pass.party, moment);
        self.shared.leave(&mut seat, held, &mut pass.tally);
        pass.badge = seat.into_badge();
        answer
    }
}
