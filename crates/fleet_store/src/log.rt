//! The calls of a store in memory.

ghost use Rattle.std.specs.Prelude.{◌≡◌, ◌+◌, ◌≤◌, ◌<◌, ◌^◌, ◌++◌, [], ◌∷◌, None, length, map, option_map, IfOk, OnErr, OnOk};
ghost use Rattle.fleet_model.specs.History as model;
ghost use Rattle.fleet_model.specs.History.{is_get_or_put};
ghost use Rattle.fleet_history.specs.Entries.{answer_of, event_of, history_of};
ghost use Rattle.fleet_history.specs.declared.party.Party.TheVariants.{Writer};
ghost use Rattle.step_model.specs.Past.{fresh_world};
ghost use Rattle.fleet_model.specs.Exchanges.{Plain, PutsTable};
ghost use Rattle.fleet_model.specs.Exchanges as exchange;
ghost use Rattle.fleet_store.specs.Calls.{exchange_of};
ghost use Rattle.fleet_store.specs.Exchanges.{manifest_put, records_put};
ghost use Rattle.fleet_store.specs.Log.{Adds, IsCall, fault_of};
ghost use Rattle.fleet_store.specs.Manifests.{jobs_shown};
ghost use Rattle.fleet_store.specs.Strikes.{answer_under, faults_after, is_performed, strike_by, waits_after};

use crate::call::{Call, Made};
use fleet_book::Compactions;
use fleet_history::{Answer, Event, HistoryEntry, ManifestChange, Party, RecordChange};
use fleet_rows::Ulid;
use fleet_table::TableData;
use fleet_tree::Manifest;
use std::alloc::{AllocError, Global};
use std::marker::Model;
use std::snapshot::Snapshot;

/// The history of a store in memory, and the fault that waits for a call. What each call was is
/// remembered for contracts alone, which takes no memory.
#[derive(Drop)]
pub(crate) struct Log {
    calls: Vec<Snapshot<Call>>,
    history: Vec<HistoryEntry>,
    line: u64,
    party: Party,
    faults: u64,
    waits: Option<(u32, bool)>,
}

impl Model for Log {
    ghost use Rattle.std.specs.Prelude.{map, option_map};
    ghost use Rattle.fleet_store.specs.Calls.{world_of};
    ghost use Rattle.fleet_store.specs.Log.{LogParts, IsLog, fault_of};

    ghost Value = { LogParts };

    ghost view = { λ l. record {
      world = world_of (map (λ s. s.value) l.calls.items);
      history = l.history.items;
      line = l.line;
      party = l.party;
      faults = l.faults;
      waits = option_map fault_of l.waits;
    } };

    ghost invariant = { λ l. IsLog
        (world_of (map (λ s. s.value) l.calls.items)) l.history.items l.faults };
}

impl Log {
    /// An empty history.
    pub(crate) fn new(alloc: Global) -> Log
        ensures { result ≡ record {
          world = fresh_world;
          history = [];
          line = 0;
          party = Writer;
          faults = 0;
          waits = None;
        } }
    {
        Log {
            calls: Vec::new(alloc),
            history: Vec::new(alloc),
            line: 0,
            party: Party::Writer,
            faults: 0,
            waits: None,
        }
    }

    /// Later entries carry this line and this party.
    pub(crate) fn set_actor(&mut self, line: u64, party: Party)
        ensures { self.new ≡ record self.old { line = line; party = party } }
    {
        self.line = line;
        self.party = party;
    }

    /// A fault strikes the get or put with this number, counted from 1 from now on.
    pub(crate) fn set_fault(&mut self, k: u32, stands: bool)
        ensures { self.new ≡ record self.old {
          waits = Some (record { k = k; stands = stands });
        } }
    {
        self.waits = Some((k, stands));
    }

    /// The entries, oldest first.
    pub(crate) fn history(&self) -> &[HistoryEntry]
        ensures entries { result.now ≡ self.now.history }
        ensures world { history_of result.now ≡ self.now.world.store.history }
    {
        self.history.as_slice()
    }

    /// Adds a call with its event and its answer without a fault. The answer is the fault that
    /// struck it, if one did.
    pub(crate) fn add(
        &mut self,
        made: Made,
        event: Event,
        answer: Answer,
    ) -> Result<Option<bool>, AllocError>
        requires { IsCall made event answer self.old.world }
        ensures ok { IfOk result
            (Adds (exchange_of made self.old.world.store) self.old self.new) }
        ensures err { OnErr result (self.new ≡ self.old) }
    {
        let counts = event.is_get_or_put();
        let strike = strike(counts, self.waits);
        let call = Call {
            line: self.line,
            party: self.party,
            made,
            strike,
        };
        let entry = HistoryEntry {
            line: self.line,
            party: self.party,
            event,
            answer: struck_answer(answer, strike),
        };
        remember(
            &mut self.calls,
            Snapshot::of(&call),
            &mut self.history,
            entry,
        )?;
        self.faults = counted(self.faults, strike);
        self.waits = left(counts, self.waits);
        Ok(strike)
    }
}

impl Log {
    /// The number of entries.
    pub(crate) fn len(&self) -> u64
        ensures value { result ≡ length self.now.history }
        ensures world { length self.now.world.store.history ≡ length self.now.history }
        ensures bound { length self.now.history ≤ 2 ^ 62 }
    {
        self.history.len() as u64
    }

    /// Adds a get or a note.
    pub(crate) fn add_plain(
        &mut self,
        event: Event,
        answer: Answer,
    ) -> Result<Option<bool>, AllocError>
        requires { answer_of answer
            ≡ exchange.answer_of (Plain (event_of event)) self.old.world.store }
        ensures ok { IfOk result (Adds (Plain (event_of event)) self.old self.new) }
        ensures err { OnErr result (self.new ≡ self.old) }
    {
        let made = Made::Plain(Snapshot::of(&event));
        self.add(made, event, answer)
    }

    /// Adds a put of a table with so many rows.
    pub(crate) fn add_table(
        &mut self,
        id: Ulid,
        rows: u64,
        table: Snapshot<TableData>,
    ) -> Result<Option<bool>, AllocError>
        requires { rows ≡ length table.value }
        ensures ok { IfOk result (Adds (PutsTable id table.value) self.old self.new) }
        ensures err { OnErr result (self.new ≡ self.old) }
    {
        let made = Made::PutsTable(id, table);
        self.add(made, Event::PutTable(id, rows), Answer::Done(0))
    }

    /// Adds a put of a manifest.
    pub(crate) fn add_manifest(
        &mut self,
        version: u64,
        value: &Manifest,
        why: ManifestChange,
        jobs: Option<Snapshot<Compactions>>,
        answer: Answer,
    ) -> Result<Option<bool>, AllocError>
        requires { answer_of answer
            ≡ exchange.put_answer version self.old.world.store.manifest.version }
        ensures ok { IfOk result (Adds
            (manifest_put version value.now why (jobs_shown jobs) self.old.world.store)
            self.old self.new) }
        ensures err { OnErr result (self.new ≡ self.old) }
    {
        let made = Made::PutsManifest(version, Snapshot::of(value), Snapshot::of(&why), jobs);
        self.add(made, Event::PutManifest(why), answer)
    }

    /// Adds a put of records.
    pub(crate) fn add_records(
        &mut self,
        version: u64,
        value: &Compactions,
        why: RecordChange,
        answer: Answer,
    ) -> Result<Option<bool>, AllocError>
        requires { answer_of answer
            ≡ exchange.put_answer version
            (exchange.records_version self.old.world.store.records) }
        ensures ok { IfOk result (Adds (records_put version value.now why) self.old self.new) }
        ensures err { OnErr result (self.new ≡ self.old) }
    {
        let made = Made::PutsRecords(version, Snapshot::of(value), Snapshot::of(&why));
        self.add(made, Event::PutRecords(why), answer)
    }
}

// The fault that strikes a call, if one does. `counts` says whether the call is a get or a put.
fn strike(counts: bool, waits: Option<(u32, bool)>) -> Option<bool>
    ensures { (event : model.Event) → is_get_or_put event ≡ counts
        → result ≡ strike_by event (option_map fault_of waits) }
{
    match waits {
        Some((1, stands)) if counts => Some(stands),
        _ => None,
    }
}

// The fault that waits after a call, if one does.
fn left(counts: bool, waits: Option<(u32, bool)>) -> Option<(u32, bool)>
    ensures { (event : model.Event) → is_get_or_put event ≡ counts
        → option_map fault_of result ≡ waits_after event (option_map fault_of waits) }
{
    if !counts {
        return waits;
    }
    let (k, stands) = waits?;
    if k == 1 {
        return None;
    }
    Some((k.saturating_sub(1), stands))
}

// The number of faults after a call.
fn counted(faults: u64, strike: Option<bool>) -> u64
    requires { faults ≤ 2 ^ 62 }
    ensures { result ≡ faults_after strike faults }
{
    match strike {
        Some(_) => faults + 1,
        None => faults,
    }
}

/// Whether a call takes effect, given the fault that strikes it, if one does.
pub(crate) fn takes_effect(strike: Option<bool>) -> bool
    ensures { result ≡ is_performed strike }
{
    match strike {
        Some(stands) => stands,
        None => true,
    }
}

// The answer to a call, given its answer without a fault.
fn struck_answer(answer: Answer, strike: Option<bool>) -> Answer
    ensures { answer_of result ≡ answer_under strike (answer_of answer) }
{
    match strike {
        None => answer,
        Some(false) => Answer::Lost,
        Some(true) => match answer {
            Answer::Conflict(_) => Answer::Lost,
            _ => Answer::Stands,
        },
    }
}

// Adds an entry and what is remembered of its call, or neither.
fn remember(
    calls: &mut Vec<Snapshot<Call>>,
    call: Snapshot<Call>,
    history: &mut Vec<HistoryEntry>,
    entry: HistoryEntry,
) -> Result<(), AllocError>
    ensures calls { OnOk result (calls.new.items ≡ calls.old.items ++ call ∷ []) }
    ensures history { OnOk result (history.new.items ≡ history.old.items ++ entry ∷ []) }
    ensures room { OnOk result (length history.old.items < 2 ^ 62) }
    ensures same_calls { OnErr result (calls.new.items ≡ calls.old.items) }
    ensures same_history { OnErr result (history.new.items ≡ history.old.items) }
{
    // No memory has room for so many.
    if history.len() >= 1 << 62 {
        return Err(AllocError);
    }
    calls.reserve(1)?;
    history.push(entry)?;
    if calls.push(call).is_err() {
        unreachable!()
    }
    Ok(())
}
