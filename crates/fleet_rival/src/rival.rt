//! A store that another party calls too.

ghost use Rattle.std.specs.Prelude.{◌≡◌, ◌≢◌, ◌≤◌, ◌⊎◌, [], IsOkUnless};
ghost use Rattle.row_model.specs.Append.{append};
ghost use Rattle.step_model.specs.Rivals.{Rivals};
ghost use Rattle.fleet_history.specs.Parties.{party_of};
ghost use Rattle.fleet_history.specs.declared.party.Party.TheVariants as parties;
ghost use Rattle.fleet_history.specs.declared.record_change.RecordChange.TheVariants as changes;
ghost use Rattle.fleet_store.specs.Under as lent;
ghost use Rattle.fleet_rival.specs.Callers.{shared_caller};
ghost use Rattle.fleet_rival.specs.Rival.{StayWhole};

use fleet_book::{Compactions, VersionedCompactions};
use fleet_fold::AppendOperator;
use fleet_history::{ManifestChange, Note, Party, RecordChange, StepList};
use fleet_jobs::SpecList;
use fleet_rows::{AttemptList, SlateDBError, Ulid};
use fleet_store::{Store, Under};
use fleet_table::TableData;
use fleet_tree::{Manifest, VersionedManifest};
use std::alloc::Global;
use std::snapshot::Snapshot;

/// A store in memory, whose rows are merged by appending, that another party calls too. Before each
/// versioned put, that party puts the stored object once more, unchanged. So each put of a version
/// that was got before is refused.
#[derive(Drop)]
pub struct Rival<'a> {
    under: Under<'a, 'a, AppendOperator>,
    alloc: Global,
    line: u64,
    party: Party,
}

impl<'a> Rival<'a> {
    ghost use Rattle.fleet_rival.specs.Rival.{shared_view, view_of};

    /// Calls go to this store. Their entries carry this line and this party.
    pub fn new(
        under: Under<'a, 'a, AppendOperator>,
        alloc: Global,
        line: u64,
        party: Party,
    ) -> Rival<'a>
        ensures { view_of result
            ≡ shared_view line party (lent.lent_of under.entry) (lent.store_of under.entry) }
    {
        Rival {
            under,
            alloc,
            line,
            party,
        }
    }
}

// Another party than this one.
fn other(own: Party) -> Party
    ensures { party_of result ≢ party_of own }
{
    match own {
        Party::Submitter => Party::Writer,
        _ => Party::Submitter,
    }
}

// Another party than this one, with a change of the records that changes nothing.
fn idle(alloc: Global, party: Party) -> (Party, RecordChange)
    ensures other { party_of result.0 ≢ party_of party }
    ensures idle { ((result.0 ≡ parties.Submitter) × (result.1 ≡ changes.Submit []))
        ⊎ ((result.0 ≡ parties.Worker 0) × (result.1 ≡ changes.Claim 0 [])) }
{
    match party {
        Party::Submitter => (
            Party::Worker(0),
            RecordChange::Claim(0, AttemptList::new(alloc)),
        ),
        _ => (Party::Submitter, RecordChange::Submit(SpecList::new(alloc))),
    }
}

// Another party puts the stored manifest once more, unchanged.
fn put_manifest_again(
    under: &mut Under<'_, '_, AppendOperator>,
    alloc: Global,
    line: u64,
    own: Party,
) -> Result<(), SlateDBError>
    ensures rivals { Rivals (shared_caller append line own)
        (lent.store_of under.old).world (lent.store_of under.new).world }
    ensures faults { (lent.store_of under.old).faults ≤ (lent.store_of under.new).faults }
    ensures whole { StayWhole (lent.store_of under.old) (lent.store_of under.new) }
    ensures same_reference { lent.lent_of under.new ≡ lent.lent_of under.old }
    ensures memory { IsOkUnless result SlateDBError.Memory }
{
    let stored = under.store().manifest();
    let version = stored.id;
    let value = stored.manifest.clone()?;
    let why = ManifestChange::Commit(StepList::new(alloc));
    under.set_actor(line, other(own));
    let _put = under.put_manifest(version, value, why, None);
    Ok(())
}

// Another party puts the stored records once more, unchanged, if there are any.
fn put_records_again(
    under: &mut Under<'_, '_, AppendOperator>,
    alloc: Global,
    line: u64,
    own: Party,
) -> Result<(), SlateDBError>
    ensures rivals { Rivals (shared_caller append line own)
        (lent.store_of under.old).world (lent.store_of under.new).world }
    ensures faults { (lent.store_of under.old).faults ≤ (lent.store_of under.new).faults }
    ensures whole { StayWhole (lent.store_of under.old) (lent.store_of under.new) }
    ensures same_reference { lent.lent_of under.new ≡ lent.lent_of under.old }
    ensures memory { IsOkUnless result SlateDBError.Memory }
{
    let Some(records) = under.store().records() else {
        return Ok(());
    };
    let version = records.id();
    let mut value = records.compactions().clone()?;
    // A put drops jobs that are over, except the last, so the stored ones lack them already.
    value.retain_active_and_last_finished();
    let (other, why) = idle(alloc, own);
    under.set_actor(line, other);
    let _put = under.put_records(version, value, why);
    Ok(())
}

impl Store for Rival<'_> {
    ghost use Rattle.row_laws.proofs.Lawful.{append_is_lawful};
    ghost use Rattle.fleet_rival.specs.Rival.{view_of};

    ghost view = { λ r. view_of r };

    ghost lawful = { λ _. append_is_lawful };

    fn get_manifest(&mut self) -> Result<VersionedManifest, SlateDBError> {
        self.under.set_actor(self.line, self.party);
        self.under.get_manifest()
    }

    fn put_manifest(
        &mut self,
        version: u64,
        value: Manifest,
        why: ManifestChange,
        jobs: Option<Snapshot<Compactions>>,
    ) -> Result<u64, SlateDBError> {
        put_manifest_again(&mut self.under, self.alloc, self.line, self.party)?;
        self.under.set_actor(self.line, self.party);
        self.under.put_manifest(version, value, why, jobs)
    }

    fn get_records(&mut self) -> Result<Option<VersionedCompactions>, SlateDBError> {
        self.under.set_actor(self.line, self.party);
        self.under.get_records()
    }

    fn put_records(
        &mut self,
        version: u64,
        value: Compactions,
        why: RecordChange,
    ) -> Result<u64, SlateDBError> {
        put_records_again(&mut self.under, self.alloc, self.line, self.party)?;
        self.under.set_actor(self.line, self.party);
        self.under.put_records(version, value, why)
    }

    fn put_table(&mut self, id: Ulid, table: TableData) -> Result<(), SlateDBError> {
        self.under.set_actor(self.line, self.party);
        self.under.put_table(id, table)
    }

    fn get_table(&mut self, id: Ulid) -> Result<Option<TableData>, SlateDBError> {
        self.under.set_actor(self.line, self.party);
        self.under.get_table(id)
    }

    fn draw_job(&mut self, moment: u64) -> Result<Ulid, SlateDBError> {
        self.under.set_actor(self.line, self.party);
        self.under.draw_job(moment)
    }

    fn note(&mut self, note: Note) -> Result<(), SlateDBError> {
        self.under.set_actor(self.line, self.party);
        self.under.note(note)
    }

    fn draw_table(&mut self, moment: u64) -> Result<Ulid, SlateDBError> {
        self.under.set_actor(self.line, self.party);
        self.under.draw_table(moment)
    }
}
