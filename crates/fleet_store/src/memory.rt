//! A store in memory.

ghost use Rattle.std.specs.Prelude.{◌≡◌, ◌+◌, ◌<◌, ◌^◌, ◌&&◌, ◌==◌, [], None, Some, false, if◌then◌else◌, OnErr, IfOk, IsOkUnless, option_map, IsTrue, ⊤};
ghost use Rattle.std.specs.BTreeMap.{insert_entry, is_at};
ghost use Rattle.std.specs.Map.{keys_of, lookup, remove_entry};
ghost use Rattle.std.specs.Option.{is_some, option_copied};
ghost use Rattle.std.specs.Ordering.{nat_cmp};
ghost use Rattle.fleet_model.specs.Exchanges as exchange;
ghost use Rattle.fleet_model.specs.Exchanges.{DeletesTable, DrawsJob, DrawsTable, ListsTables, Plain, PutsTable, next_job_id, next_table_id, records_version};
ghost use Rattle.fleet_model.specs.History as event;
ghost use Rattle.fleet_model.specs.Nodes.{is_among};
ghost use Rattle.fleet_model.specs.Store.{fresh_store, is_held};
ghost use Rattle.fleet_history.specs.Changes.{manifest_change_of};
ghost use Rattle.fleet_history.specs.Entries.{answer_of, history_of};
ghost use Rattle.fleet_history.specs.declared.party.Party.TheVariants.{Writer};
ghost use Rattle.step_model.specs.Past.{fresh_world};
ghost use Rattle.fleet_book.specs.Versions.{records_of};
ghost use Rattle.fleet_store.specs.Called.{Never, PutsNext, ShowsStored};
ghost use Rattle.fleet_store.specs.Exchanges.{manifest_put, noted_exchange, records_put};
ghost use Rattle.fleet_store.specs.Log.{Adds};
ghost use Rattle.fleet_store.specs.Manifests.{HasTrees, IsManifest, jobs_shown};
ghost use Rattle.fleet_store.specs.Memory.{Answers, Fits, Makes, ended_of, is_done};
ghost use Rattle.fleet_store.specs.Records.{AreRecords, DescribeTables, jobs_or_none, processed_by};
ghost use Rattle.fleet_store.specs.Strikes.{is_performed};
ghost use Rattle.fleet_store.specs.Tables.{held_ids, held_rows};

use crate::call::Made;
use crate::log::{Log, takes_effect};
use fleet_book::{Compactions, VersionedCompactions};
use fleet_history::{Answer, Event, HistoryEntry, ManifestChange, Note, Party, RecordChange};
use fleet_rows::{DRAWN_BASE, IdList, SlateDBError, Ulid};
use fleet_table::TableData;
use fleet_tree::{
    LsmTreeState, Manifest, ManifestCore, SegmentList, TrackerList, VersionedManifest,
};
use std::alloc::{AllocError, Global};
use std::collections::BTreeMap;
use std::marker::Model;
use std::snapshot::Snapshot;

/// What a call gives, with the fault that struck it, if one did. A fault is known only then, since
/// a call that is struck is still one entry of the history.
pub(crate) type Outcome<T> = Result<(Option<bool>, Result<T, SlateDBError>), AllocError>;

/// A store in memory. Contracts see its world.
#[derive(Drop)]
pub struct MemStore {
    log: Log,
    manifest: VersionedManifest,
    records: Option<VersionedCompactions>,
    tables: BTreeMap<Ulid, TableData>,
    jobs_drawn: u64,
    tables_drawn: u64,
}

impl Model for MemStore {
    ghost use Rattle.std.specs.Prelude.{length};
    ghost use Rattle.fleet_store.specs.Memory.{IsMemory, StoreParts, parts_of};

    ghost Value = { StoreParts };

    ghost view = { λ m. parts_of m.log m.records };

    ghost invariant = { λ m. IsMemory m.log.world.store (length m.log.history)
        m.manifest m.records m.tables.entries m.jobs_drawn m.tables_drawn };
}

impl MemStore {
    /// A fresh store. Its manifest has an empty root tree, and it has no records.
    pub fn new(alloc: Global) -> Result<MemStore, SlateDBError>
        ensures store { IfOk result (λ store. store ≡ record {
          world = fresh_world;
          history = [];
          line = 0;
          party = Writer;
          faults = 0;
          waits = None;
          processed = [];
        }) }
        ensures memory { IsOkUnless result SlateDBError.Memory }
    {
        Ok(MemStore {
            log: Log::new(alloc),
            manifest: fresh_manifest(alloc),
            records: None,
            tables: BTreeMap::new(alloc),
            jobs_drawn: 0,
            tables_drawn: 0,
        })
    }

    /// The manifest, looked at without a call.
    pub fn manifest(&self) -> &VersionedManifest
        ensures { IsManifest result.now self.now.world.store }
    {
        &self.manifest
    }

    /// The records, looked at without a call, or None if there are none.
    pub fn records(&self) -> Option<&VersionedCompactions>
        ensures { AreRecords (option_copied result) self.now.world.store }
    {
        self.records.as_ref()
    }

    /// The table with this id, looked at without a call, or None if it is not held.
    pub fn table(&self, id: Ulid) -> Option<&TableData>
        ensures { option_copied result ≡ held_rows id self.now.world.store }
    {
        self.tables.get(&id)
    }

    /// The history.
    pub fn history(&self) -> &[HistoryEntry]
        ensures entries { result.now ≡ self.now.history }
        ensures world { history_of result.now ≡ self.now.world.store.history }
    {
        self.log.history()
    }

    /// Later entries carry this line and this party.
    pub fn set_actor(&mut self, line: u64, party: Party)
        ensures { self.new ≡ record self.old { line = line; party = party } }
    {
        self.log.set_actor(line, party);
    }

    /// A fault strikes the get or put with this number, counted from 1 from now on. If it is a put,
    /// it stands or is lost. A fault that waited before is dropped.
    pub fn set_fault(&mut self, k: u32, stands: bool)
        ensures { self.new ≡ record self.old {
          waits = Some (record { k = k; stands = stands });
        } }
    {
        self.log.set_fault(k, stands);
    }

    pub(crate) fn make_get_manifest(&mut self) -> Outcome<VersionedManifest>
        ensures { Makes (Plain event.GetManifest) []
            (λ manifest. IsManifest manifest self.old.world.store)
            (Never self.old.world.store) self.old self.new result }
    {
        let copy = Clone::clone(&self.manifest)?;
        let answer = Answer::Done(copy.id);
        let strike = self.log.add_plain(Event::GetManifest, answer)?;
        Ok((strike, Ok(copy)))
    }

    pub(crate) fn make_put_manifest(
        &mut self,
        version: u64,
        value: Manifest,
        why: ManifestChange,
        jobs: Option<Snapshot<Compactions>>,
    ) -> Outcome<u64>
        requires { version ≡ self.old.world.store.manifest.version
            → HasTrees value (jobs_shown jobs) (manifest_change_of why) self.old.world.store }
        ensures { Makes (manifest_put version value why (jobs_shown jobs) self.old.world.store) []
            (PutsNext version self.old.world.store.manifest.version)
            (ShowsStored version self.old.world.store.manifest.version)
            self.old self.new result }
    {
        let _many = self.log.len();
        let stored = self.manifest.id;
        let answer = put_answer(version, stored);
        let strike = self.log.add_manifest(version, &value, why, jobs, answer)?;
        let stands = replaces(strike, version, stored);
        replace_manifest(&mut self.manifest, stands, value);
        Ok((strike, put_end(version, stored)))
    }

    pub(crate) fn make_get_records(&mut self) -> Outcome<Option<VersionedCompactions>>
        ensures made { Makes (Plain event.GetRecords) []
            (λ records. AreRecords records self.old.world.store)
            (Never self.old.world.store) self.old self.new result }
        ensures whole { Answers (λ records.
            processed_by (jobs_or_none records) ≡ self.old.processed) result }
    {
        let copy = copied(&self.records)?;
        let answer = records_answer(&self.records);
        let strike = self.log.add_plain(Event::GetRecords, answer)?;
        Ok((strike, Ok(copy)))
    }

    pub(crate) fn make_put_records(
        &mut self,
        version: u64,
        value: Compactions,
        why: RecordChange,
    ) -> Outcome<u64>
        requires { version ≡ records_version self.old.world.store.records
            → DescribeTables value.jobs self.old.world.store }
        ensures { Makes (records_put version value why) (processed_by value.jobs)
            (PutsNext version (records_version self.old.world.store.records))
            (ShowsStored version (records_version self.old.world.store.records))
            self.old self.new result }
    {
        let _many = self.log.len();
        let stored = stored_version(&self.records);
        let answer = put_answer(version, stored);
        let strike = self.log.add_records(version, &value, why, answer)?;
        let stands = replaces(strike, version, stored);
        replace_records(&mut self.records, stands, stored, value);
        Ok((strike, put_end(version, stored)))
    }

    pub(crate) fn make_draw_job(&mut self, moment: u64) -> Outcome<Ulid>
        ensures { Makes (DrawsJob moment) [] (λ id. id ≡ next_job_id moment self.old.world.store)
            (Never self.old.world.store) self.old self.new result }
    {
        let _many = self.log.len();
        let number = self.jobs_drawn + 1;
        let id = Ulid::from_parts(moment, number as u128);
        let made = Made::DrawsJob(moment);
        let strike = self.log.add(made, Event::DrawJob(id), Answer::Done(0))?;
        self.jobs_drawn = number;
        Ok((strike, Ok(id)))
    }

    pub(crate) fn make_draw_table(&mut self, moment: u64) -> Outcome<Ulid>
        ensures { Makes (DrawsTable moment) []
            (λ id. id ≡ next_table_id moment self.old.world.store)
            (Never self.old.world.store) self.old self.new result }
    {
        let _many = self.log.len();
        let number = self.tables_drawn + 1;
        let id = Ulid::from_parts(moment, DRAWN_BASE + number as u128);
        let made = Made::DrawsTable(moment);
        let strike = self.log.add(made, Event::DrawTable(id), Answer::Done(0))?;
        self.tables_drawn = number;
        Ok((strike, Ok(id)))
    }

    pub(crate) fn make_note(&mut self, note: Note) -> Outcome<()>
        ensures { Makes (noted_exchange note) [] (λ done. ⊤) (Never self.old.world.store)
            self.old self.new result }
    {
        let strike = self.log.add_plain(note.into_event(), Answer::Done(0))?;
        Ok((strike, Ok(())))
    }
}

impl MemStore {
    pub(crate) fn make_put_table(&mut self, id: Ulid, table: TableData) -> Outcome<()>
        requires { is_among self.old.world.store.tables id ≡ false }
        ensures { Makes (PutsTable id table) [] (λ done. ⊤) (Never self.old.world.store)
            self.old self.new result }
    {
        let strike = hold(&mut self.log, &mut self.tables, id, table)?;
        Ok((strike, Ok(())))
    }

    pub(crate) fn make_get_table(&mut self, id: Ulid) -> Outcome<Option<TableData>>
        ensures { Makes (Plain (event.GetTable id)) []
            (λ rows. rows ≡ held_rows id self.old.world.store)
            (Never self.old.world.store) self.old self.new result }
    {
        let table = table_copy(&self.tables, id)?;
        let answer = table_answer(&table);
        let strike = self.log.add_plain(Event::GetTable(id), answer)?;
        Ok((strike, Ok(table)))
    }

    pub(crate) fn make_list_tables(&mut self, alloc: Global) -> Outcome<IdList>
        ensures { Makes ListsTables [] (λ ids. ids ≡ held_ids self.old.world.store)
            (Never self.old.world.store) self.old self.new result }
    {
        let ids = IdList::from_vec(ids_of(alloc, &self.tables)?);
        let count = ids.len();
        let made = Made::ListsTables;
        let strike = self
            .log
            .add(made, Event::ListTables(count), Answer::Done(0))?;
        Ok((strike, Ok(ids)))
    }
}

impl MemStore {
    pub(crate) fn make_delete_table(&mut self, id: Ulid) -> Outcome<()>
        requires { IsTrue (is_held self.old.world.store id) }
        ensures { Makes (DeletesTable id) [] (λ done. ⊤) (Never self.old.world.store)
            self.old self.new result }
    {
        let made = Made::DeletesTable(id);
        let strike = self.log.add(made, Event::DeleteTable(id), Answer::Done(0))?;
        drop_table(&mut self.tables, takes_effect(strike), id);
        Ok((strike, Ok(())))
    }
}

// Drops a table, if its deletion stands.
fn drop_table(tables: &mut BTreeMap<Ulid, TableData>, stands: bool, id: Ulid)
    ensures { tables.new.entries ≡ (if stands
        then remove_entry (is_at (nat_cmp id)) tables.old.entries
        else tables.old.entries) }
{
    if stands {
        tables.remove(&id);
    }
}

// The ids of the tables, in rising order.
fn ids_of(alloc: Global, tables: &BTreeMap<Ulid, TableData>) -> Result<Vec<Ulid>, AllocError>
    ensures { IfOk result (λ ids. ids.items ≡ keys_of tables.now.entries) }
{
    tables.keys().copied().collect(alloc)
}

// The manifest of a fresh store.
fn fresh_manifest(alloc: Global) -> VersionedManifest
    ensures { IsManifest result fresh_store }
{
    VersionedManifest {
        id: 1,
        manifest: Manifest {
            compactor_epoch: 0,
            core: ManifestCore {
                tree: LsmTreeState::new(alloc),
                segments: SegmentList::new(alloc),
                recent_snapshot_min_seq: 0,
                last_l0_clock_tick: i64::MIN,
                tracker: TrackerList::new(alloc),
                horizon: 0,
            },
        },
    }
}

// Puts a table into the log and, if the put takes effect, into the map.
fn hold(
    log: &mut Log,
    tables: &mut BTreeMap<Ulid, TableData>,
    id: Ulid,
    table: TableData,
) -> Result<Option<bool>, AllocError>
    requires { lookup (is_at (nat_cmp id)) tables.old.entries ≡ None }
    ensures added { IfOk result (Adds (PutsTable id table) log.old log.new) }
    ensures held { IfOk result (λ strike. tables.new.entries ≡ (if is_performed strike
        then insert_entry nat_cmp tables.old.entries id table
        else tables.old.entries)) }
    ensures same_log { OnErr result (log.new ≡ log.old) }
    ensures same_tables { OnErr result (tables.new.entries ≡ tables.old.entries) }
{
    let rows = table.rows();
    let kept = Snapshot::of(&table);
    tables.insert(id, table)?;
    let added = log.add_table(id, rows, kept);
    if !is_done(&added) {
        tables.remove(&id);
    }
    added
}

// Whether the call was made and takes effect.
fn is_done(added: &Result<Option<bool>, AllocError>) -> bool
    ensures { result ≡ is_done added.now }
{
    match added {
        Ok(strike) => takes_effect(*strike),
        Err(_) => false,
    }
}

// A copy of the table with this id, if it is held.
fn table_copy(tables: &BTreeMap<Ulid, TableData>, id: Ulid) -> Result<Option<TableData>, AllocError>
    ensures { IfOk result (λ table. table ≡ lookup (is_at (nat_cmp id)) tables.now.entries) }
{
    match tables.get(&id) {
        Some(table) => Ok(Some(Clone::clone(table)?)),
        None => Ok(None),
    }
}

// The answer to a get of a table.
fn table_answer(table: &Option<TableData>) -> Answer
    ensures { answer_of result
        ≡ (if is_some table.now then event.Done 0 else event.Absent) }
{
    match table {
        Some(_) => Answer::Done(0),
        None => Answer::Absent,
    }
}

// A copy of the records, if there are any.
fn copied(
    records: &Option<VersionedCompactions>,
) -> Result<Option<VersionedCompactions>, AllocError>
    ensures { IfOk result (λ copy. copy ≡ records.now) }
{
    match records {
        Some(records) => Ok(Some(Clone::clone(records)?)),
        None => Ok(None),
    }
}

// The answer to a get of the records.
fn records_answer(records: &Option<VersionedCompactions>) -> Answer
    ensures { answer_of result ≡ exchange.records_answer (option_map records_of records.now) }
{
    match records {
        Some(records) => Answer::Done(records.id()),
        None => Answer::Absent,
    }
}

// The version of the records, or 0 if there are none.
fn stored_version(records: &Option<VersionedCompactions>) -> u64
    ensures { result ≡ records_version (option_map records_of records.now) }
{
    match records {
        Some(records) => records.id(),
        None => 0,
    }
}

// Puts the value in the place of the records, if the put stands. `stored` is the stored version.
fn replace_records(
    records: &mut Option<VersionedCompactions>,
    stands: bool,
    stored: u64,
    value: Compactions,
)
    requires { stored < 2 ^ 63 }
    ensures { records.new ≡ (if stands
        then Some (record { id = stored + 1; compactions = value })
        else records.old) }
{
    if stands {
        *records = Some(VersionedCompactions::from_compactions(stored + 1, value));
    }
}

/// The end of a call.
pub(crate) fn ended<T: Drop>(made: Outcome<T>) -> Result<T, SlateDBError>
    ensures { result ≡ ended_of made }
{
    match made {
        Err(AllocError) => Err(SlateDBError::Memory),
        Ok((None, answer)) => answer,
        Ok((Some(_), _)) => Err(SlateDBError::StoreFault),
    }
}

// Whether a put of this version takes the place of the stored value.
fn replaces(strike: Option<bool>, version: u64, stored: u64) -> bool
    ensures { result ≡ (is_performed strike && (version == stored)) }
{
    takes_effect(strike) && version == stored
}

// The answer to a put of this version, given the stored version.
fn put_answer(version: u64, stored: u64) -> Answer
    requires { stored < 2 ^ 63 }
    ensures { answer_of result ≡ exchange.put_answer version stored }
{
    if version == stored {
        Answer::Done(stored + 1)
    } else {
        Answer::Conflict(stored)
    }
}

// What a put of this version gives without a fault, given the stored version.
fn put_end(version: u64, stored: u64) -> Result<u64, SlateDBError>
    requires { stored < 2 ^ 63 }
    ensures { Fits (PutsNext version stored) (ShowsStored version stored) result }
{
    if version == stored {
        Ok(stored + 1)
    } else {
        Err(SlateDBError::Conflict { seen: stored })
    }
}

// Puts the value in the place of the manifest, if the put stands.
fn replace_manifest(manifest: &mut VersionedManifest, stands: bool, value: Manifest)
    requires { manifest.old.id < 2 ^ 63 }
    ensures { manifest.new ≡ (if stands
        then record { id = manifest.old.id + 1; manifest = value }
        else manifest.old) }
{
    if stands {
        *manifest = VersionedManifest {
            id: manifest.id + 1,
            manifest: value,
        };
    }
}

fn sends<T: Send>(_value: &T) {}

// A store in memory is to go from thread to thread. This has no proof if it may not.
fn needs_send(store: &MemStore) {
    sends(store);
}
