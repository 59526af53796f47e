//! What a lock may hold.

ghost use Rattle.std.specs.Prelude.{◌≡◌, ℕ, List};
ghost use Rattle.row_model.specs.Fold.{IsLawful, Operator};
ghost use Rattle.fleet_model.specs.Exchanges.{PutsTable};
ghost use Rattle.fleet_store.specs.Asks as asks;
ghost use Rattle.fleet_store.specs.Exchanges.{noted_exchange};
ghost use Rattle.fleet_store.specs.Manifests.{jobs_shown};
ghost use Rattle.fleet_lock.specs.Calls.{Alone, Grows, MayAlone, is_made};
ghost use Rattle.fleet_lock.specs.Counts.{LastAdds, claims_in, commits_in, length_of};
ghost use Rattle.fleet_lock.specs.Held.{HeldValue, store_of};
ghost use Rattle.fleet_lock.specs.Steps.{CallsLead};
ghost use Rattle.step_model.specs.Kept.Keeps.{Keeps};

use fleet_book::{Compactions, VersionedCompactions};
use fleet_history::{ManifestChange, Note, Party, RecordChange};
use fleet_rows::{SlateDBError, Ulid};
use fleet_table::TableData;
use fleet_tree::{Manifest, VersionedManifest};
use std::snapshot::Snapshot;

/// What a lock may hold: a store that meets the invariant, with its calls since it was shared. It
/// asks no `Send`, so that a method of a trait may call it.
pub trait Holds: Drop {
    ghost value: { Self → HeldValue };

    /// What a merge of one operand answers, given the settings.
    ghost folds: { List ℕ → Operator };

    /// What is known of each value.
    fn known(&self)
        ensures steps { CallsLead (folds (value self.now).settings)
            (value self.now).base (value self.now).trace }
        ensures keeps { Keeps (folds (value self.now).settings) (store_of (value self.now)).world };

    /// The length of the history.
    fn len(&self) -> u64
        ensures { result ≡ length_of (store_of (value self.now)) };

    /// How many attempts the last entry of the history claims.
    fn last_claims(&self) -> u64
        ensures { LastAdds claims_in result (store_of (value self.now)).world.store.history };

    /// How many finished jobs the last entry of the history completes.
    fn last_commits(&self) -> u64
        ensures { LastAdds commits_in result (store_of (value self.now)).world.store.history };

    fn get_manifest(&mut self, line: u64, party: Party) -> Result<VersionedManifest, SlateDBError>
        ensures grows { Grows (folds (value self.old).settings) line party (is_made result)
            (value self.old) (value self.new) }
        ensures asked { Alone (folds (value self.old).settings) line party
            (λ before after. asks.GetsManifest before after result)
            (value self.old) (value self.new) };

    fn put_manifest(
        &mut self,
        line: u64,
        party: Party,
        version: u64,
        manifest: Manifest,
        why: ManifestChange,
        jobs: Option<Snapshot<Compactions>>,
    ) -> Result<u64, SlateDBError>
        requires { MayAlone (folds (value self.old).settings) line party
            (λ before. asks.ManifestPutFits before version manifest why (jobs_shown jobs))
            (value self.old) }
        ensures grows { Grows (folds (value self.old).settings) line party (is_made result)
            (value self.old) (value self.new) }
        ensures asked { Alone (folds (value self.old).settings) line party
            (λ before after. asks.PutsManifest before after
            version manifest why (jobs_shown jobs) result)
            (value self.old) (value self.new) };

    fn get_records(
        &mut self,
        line: u64,
        party: Party,
    ) -> Result<Option<VersionedCompactions>, SlateDBError>
        ensures grows { Grows (folds (value self.old).settings) line party (is_made result)
            (value self.old) (value self.new) }
        ensures asked { Alone (folds (value self.old).settings) line party
            (λ before after. asks.GetsRecords before after result)
            (value self.old) (value self.new) };

    fn put_records(
        &mut self,
        line: u64,
        party: Party,
        version: u64,
        records: Compactions,
        why: RecordChange,
    ) -> Result<u64, SlateDBError>
        requires { MayAlone (folds (value self.old).settings) line party
            (λ before. asks.RecordsPutFit before version records why) (value self.old) }
        ensures grows { Grows (folds (value self.old).settings) line party (is_made result)
            (value self.old) (value self.new) }
        ensures asked { Alone (folds (value self.old).settings) line party
            (λ before after. asks.PutsRecords before after version records why result)
            (value self.old) (value self.new) };

    fn put_table(
        &mut self,
        line: u64,
        party: Party,
        id: Ulid,
        table: TableData,
    ) -> Result<(), SlateDBError>
        requires { MayAlone (folds (value self.old).settings) line party
            (λ before. asks.MayCall before (λ met. PutsTable id table)) (value self.old) }
        ensures grows { Grows (folds (value self.old).settings) line party (is_made result)
            (value self.old) (value self.new) }
        ensures asked { Alone (folds (value self.old).settings) line party
            (λ before after. asks.PutsTableRows before after id table result)
            (value self.old) (value self.new) };

    fn get_table(
        &mut self,
        line: u64,
        party: Party,
        id: Ulid,
    ) -> Result<Option<TableData>, SlateDBError>
        ensures grows { Grows (folds (value self.old).settings) line party (is_made result)
            (value self.old) (value self.new) }
        ensures asked { Alone (folds (value self.old).settings) line party
            (λ before after. asks.GetsTable before after id result)
            (value self.old) (value self.new) };

    fn draw_job(&mut self, line: u64, party: Party, moment: u64) -> Result<Ulid, SlateDBError>
        ensures grows { Grows (folds (value self.old).settings) line party (is_made result)
            (value self.old) (value self.new) }
        ensures asked { Alone (folds (value self.old).settings) line party
            (λ before after. asks.DrawsJobId before after moment result)
            (value self.old) (value self.new) };

    fn note(&mut self, line: u64, party: Party, note: Note) -> Result<(), SlateDBError>
        requires { MayAlone (folds (value self.old).settings) line party
            (λ before. asks.MayCall before (λ met. noted_exchange note)) (value self.old) }
        ensures grows { Grows (folds (value self.old).settings) line party (is_made result)
            (value self.old) (value self.new) }
        ensures asked { Alone (folds (value self.old).settings) line party
            (λ before after. asks.Notes before after note result)
            (value self.old) (value self.new) };

    fn draw_table(&mut self, line: u64, party: Party, moment: u64) -> Result<Ulid, SlateDBError>
        ensures grows { Grows (folds (value self.old).settings) line party (is_made result)
            (value self.old) (value self.new) }
        ensures asked { Alone (folds (value self.old).settings) line party
            (λ before after. asks.DrawsTableId before after moment result)
            (value self.old) (value self.new) };

    /// The operator is lawful.
    ghost lawful: { (settings : List ℕ) → IsLawful (folds settings) };
}
