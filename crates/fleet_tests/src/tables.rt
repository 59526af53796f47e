// Copies of tables, of their descriptions and of manifests, and the size of a run.
ghost use Rattle.std.specs.Prelude.{◌≡◌, true, IfOk};
ghost use Rattle.std.specs.Ordering.{is_le};
ghost use Rattle.row_model.specs.Rows.{key_cmp};

use bytes::Bytes;
use fleet_rows::{RowEntry, SlateDBError, Ulid, ValueDeletable};
use fleet_table::{TableData, are_in_bounds, are_strictly_ordered};
use fleet_tree::{
    BlockList, LsmTreeState, Manifest, ManifestCore, SegmentList, SortedRun, SsTableHandle,
    SsTableView, TrackerList, VersionedManifest, ViewList,
};
use std::alloc::Global;

// A row: its key, the length of its value, and its sequence.
type Row = (&'static [u8], usize, u64);

fn row(alloc: Global, spelt: Row) -> Result<RowEntry, SlateDBError> {
    let (key, len, seq) = spelt;
    let value = Bytes::from_vec(vec![in alloc; b'v'; len]?)?;
    let key = Bytes::copy_from_slice(alloc, key)?;
    Ok(RowEntry::new(key, ValueDeletable::Value(value), seq, None, None))
}

fn table(alloc: Global, spelt: &[Row]) -> Result<TableData, SlateDBError> {
    let mut rows = Vec::new(alloc);
    'rows: for spelt in spelt {
        rows.push(row(alloc, *spelt)?)?;
    }
    if rows.is_empty() || !are_strictly_ordered(&rows) || !are_in_bounds(&rows) {
        return Err(SlateDBError::InvalidDBState);
    }
    Ok(TableData::from_rows(alloc, rows)?)
}

fn described(alloc: Global, spelt: &[Row], id: u64) -> Result<SsTableHandle, SlateDBError>
    ensures { IfOk result (λ handle. is_le (key_cmp handle.first_key handle.last_key) ≡ true) }
{
    Ok(table(alloc, spelt)?.describe(Ulid::from_parts(0, id as u128))?)
}

fn view(alloc: Global, id: u64, spelt: &[Row]) -> Result<SsTableView, SlateDBError> {
    Ok(SsTableView::identity(described(alloc, spelt, id)?)?)
}

static VERSIONS: [Row; 5] = [
    (b"a", 1, 5),
    (b"a", 1, 4),
    (b"a", 1, 3),
    (b"a", 1, 2),
    (b"a", 1, 1),
];

static KEYS: [Row; 5] = [
    (b"a", 0, 5),
    (b"a", 0, 3),
    (b"c", 0, 9),
    (b"c", 0, 4),
    (b"e", 0, 1),
];

fn copied_blocks(alloc: Global, blocks: &BlockList) -> Result<BlockList, SlateDBError> {
    let mut copies = BlockList::new(alloc);
    'blocks: for block in blocks.as_slice() {
        copies.push(block.clone()?)?;
    }
    Ok(copies)
}

#[test]
fn copies_descriptions(rt: HostRuntime) {
    let handle = described(rt.alloc(), &VERSIONS, 2).expect(&rt, "a description");
    let blocks = copied_blocks(rt.alloc(), &handle.blocks);
    assert!(rt; blocks.expect(&rt, "memory") == handle.blocks);
    assert!(rt; handle.clone().expect(&rt, "a copy") == handle);
}

#[test]
fn copies_views(rt: HostRuntime) {
    let view = view(rt.alloc(), 1, &KEYS).expect(&rt, "a view");
    assert!(rt; view.clone().expect(&rt, "a copy") == view);
}

#[test]
fn copies_a_table_of_one_row(rt: HostRuntime) {
    let table = table(rt.alloc(), &KEYS[4..]).expect(&rt, "a table");
    assert!(rt; table.rows() == 1);
    let again = table.clone().expect(&rt, "a copy");
    assert!(rt; again.as_bytes() == table.as_bytes());
}

// A fresh manifest to which these flushes are added. A flush has a segment, a name, and the
// sequence of its row. Its name is also the moment of its put. The retention is 3 milliseconds.
fn flushed(alloc: Global, flushes: &[(&[u8], u64, u64)]) -> Result<ManifestCore, SlateDBError> {
    let mut core = ManifestCore {
        tree: LsmTreeState::new(alloc),
        segments: SegmentList::new(alloc),
        recent_snapshot_min_seq: 0,
        last_l0_clock_tick: 0,
        tracker: TrackerList::new(alloc),
        horizon: 0,
    };
    'flushes: for (segment, name, seq) in flushes {
        flush(alloc, &mut core, *segment, *name, *seq)?;
    }
    Ok(core)
}

fn flush(
    alloc: Global,
    core: &mut ManifestCore,
    segment: &[u8],
    name: u64,
    seq: u64,
) -> Result<(), SlateDBError> {
    let segment = Bytes::copy_from_slice(alloc, segment)?;
    let view = view(alloc, name, &KEYS)?;
    Ok(core.add_flush(alloc, &segment, view, seq, seq, seq, -1, name, 3)?)
}

static FLUSHES: [(&[u8], u64, u64); 5] = [
    (b"", 1, 5),
    (b"s", 2, 6),
    (b"q", 3, 7),
    (b"s", 4, 8),
    (b"", 5, 9),
];

#[test]
fn copies_contents(rt: HostRuntime) {
    let core = flushed(rt.alloc(), &FLUSHES).expect(&rt, "a manifest");
    assert!(rt; core.trees().count() == 3);
    assert!(rt; core.clone().expect(&rt, "a copy") == core);
}

#[test]
fn copies_manifests(rt: HostRuntime) {
    let manifest = Manifest {
        compactor_epoch: 2,
        core: flushed(rt.alloc(), &FLUSHES).expect(&rt, "a manifest"),
    };
    assert!(rt; manifest.clone().expect(&rt, "a copy") == manifest);
    let manifest = VersionedManifest { id: 3, manifest };
    assert!(rt; (manifest.id(), manifest.compactor_epoch()) == (3, 2));
    let copy = manifest.clone().expect(&rt, "a copy");
    assert!(rt; copy == manifest);
    assert!(rt; *copy.core() == manifest.manifest.core);
}

// A view of a table of the size 45, or of the greatest size there is if `greatest` is true.
fn sized(alloc: Global, id: u64, greatest: bool) -> Result<SsTableView, SlateDBError> {
    let mut view = view(alloc, id, &KEYS)?;
    if greatest {
        view.sst.size = u64::MAX;
    }
    Ok(view)
}

// A run of two tables. The first one has the size 45. The second one has the greatest size there is
// if `greatest` is true, and the size 45 otherwise.
fn run_of_views(alloc: Global, greatest: bool) -> Result<SortedRun, SlateDBError> {
    let mut views = ViewList::new(alloc);
    views.push(sized(alloc, 1, false)?)?;
    views.push(sized(alloc, 2, greatest)?)?;
    Ok(SortedRun::new(3, views))
}

#[test]
fn measures_runs(rt: HostRuntime) {
    let run = run_of_views(rt.alloc(), false).expect(&rt, "a run");
    assert!(rt; (run.id, run.estimate_size(), run.sst_views().len()) == (3, 90, 2));
    assert!(rt; run.clone().expect(&rt, "a copy") == run);
}

#[test]
fn measures_great_runs(rt: HostRuntime) {
    let run = run_of_views(rt.alloc(), true).expect(&rt, "a run");
    assert!(rt; run.estimate_size() == u64::MAX);
}
