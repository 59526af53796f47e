//! The calls that a store in memory remembers for contracts.

use fleet_book::Compactions;
use fleet_history::{Event, ManifestChange, Party, RecordChange};
use fleet_rows::Ulid;
use fleet_table::TableData;
use fleet_tree::Manifest;
use std::snapshot::Snapshot;

/// What a call was. Values that are no longer needed are remembered for contracts alone.
#[derive(Drop)]
pub(crate) enum Made {
    /// A get or a note.
    Plain(Snapshot<Event>),
    /// The moment of the draw.
    DrawsJob(u64),
    DrawsTable(u64),
    PutsTable(Ulid, Snapshot<TableData>),
    /// The version, the value, the change, and the jobs that a commit does.
    PutsManifest(u64, Snapshot<Manifest>, Snapshot<ManifestChange>, Option<Snapshot<Compactions>>),
    PutsRecords(u64, Snapshot<Compactions>, Snapshot<RecordChange>),
    ListsTables,
    DeletesTable(Ulid),
}

/// A call, with the line and the party of its entry, and the fault that struck it, if one did. The
/// flag is true if puts stood.
#[derive(Drop)]
pub(crate) struct Call {
    pub line: u64,
    pub party: Party,
    pub made: Made,
    pub strike: Option<bool>,
}
