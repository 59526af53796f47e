//! Calls of `fleet_table` on trees and manifests.

use case_words::flaw::Flaw;
use case_words::tables::named_view;
use case_words::tell::{Tell, tell_list, tell_ok, tell_or_none};
use case_words::words::{bytes, number, parse_if_any, parse_list, parts, stamp};
use fleet_rows::Ulid;
use fleet_tree::{
    LsmTreeState, ManifestCore, SegmentList, SortedRun, TrackerList, ViewList, merge_from_writer,
};
use std::alloc::{AllocError, Global};

/// Answers the call of this name. Returns false if no call in this file has it.
pub fn answers(
    alloc: Global,
    name: &str,
    words: &[&str],
    answer: &mut String,
) -> Result<bool, Flaw> {
    match name {
        "flush" => flush(alloc, words, answer)?,
        "segment" => segment(alloc, words, answer)?,
        "cut" => cut(alloc, words, answer)?,
        "writer" => writer(alloc, words, answer)?,
        _ => return Ok(false),
    }
    Ok(true)
}

fn fresh(alloc: Global) -> ManifestCore {
    ManifestCore {
        tree: LsmTreeState::new(alloc),
        segments: SegmentList::new(alloc),
        recent_snapshot_min_seq: 0,
        last_l0_clock_tick: 0,
        tracker: TrackerList::new(alloc),
        horizon: 0,
    }
}

// Adds a flush. Its fields are the segment, the table's id, the greatest and the least sequence,
// the floor, the tick, and the moment of its put.
fn add_flush(
    alloc: Global,
    core: &mut ManifestCore,
    retention: u64,
    fields: &[&str],
) -> Result<(), Flaw> {
    let [segment, id, last_seq, least_seq, floor, tick, moment] = fields else {
        return Err(Flaw::Words);
    };
    let last_seq = number(last_seq)?;
    let least_seq = number(least_seq)?;
    let floor = number(floor)?;
    let tick = stamp(tick)?;
    let moment = number(moment)?;
    let segment = bytes(alloc, segment)?;
    let view = named_view(alloc, number(id)?)?;
    Ok(core.add_flush(
        alloc, &segment, view, last_seq, least_seq, floor, tick, moment, retention,
    )?)
}

// A fresh manifest to which these flushes are added.
fn flushed(alloc: Global, retention: &str, flushes: &str) -> Result<ManifestCore, Flaw> {
    let retention = number(retention)?;
    let mut core = fresh(alloc);
    'flushes: for word in flushes.split(',') {
        let fields = parts(alloc, word, ':')?;
        add_flush(alloc, &mut core, retention, fields.as_slice())?;
    }
    Ok(core)
}

// `flush` takes the retention and flushes, and answers the manifest.
fn flush(alloc: Global, words: &[&str], answer: &mut String) -> Result<(), Flaw> {
    let [retention, flushes] = words else {
        return Err(Flaw::Words);
    };
    let core = flushed(alloc, retention, flushes)?;
    Ok(tell_manifest(&core, answer)?)
}

fn tell_tree(answer: &mut String, prefix: &[u8], tree: &LsmTreeState) -> Result<(), AllocError> {
    answer.push(' ')?;
    prefix.tell(answer)?;
    answer.push('=')?;
    tree.tell(answer)
}

// Appends the trees, the floor, the tick, the tracked flushes and the horizon.
fn tell_manifest(core: &ManifestCore, answer: &mut String) -> Result<(), AllocError> {
    answer.push_str("ok")?;
    'trees: for (prefix, tree) in core.trees_with_prefix() {
        tell_tree(answer, prefix, tree)?;
    }
    let floor = core.recent_snapshot_min_seq;
    let tick = core.last_l0_clock_tick;
    let horizon = core.horizon;
    write!(answer, " {floor} {tick} ")?;
    tell_list(answer, core.tracker.as_slice(), ',')?;
    write!(answer, " {horizon}")
}

// `segment` takes the retention, flushes, and a segment. It answers the tree of the segment.
fn segment(alloc: Global, words: &[&str], answer: &mut String) -> Result<(), Flaw> {
    let [retention, flushes, segment] = words else {
        return Err(Flaw::Words);
    };
    let segment = bytes(alloc, segment)?;
    let core = flushed(alloc, retention, flushes)?;
    let tree = core.tree_for_segment(segment.as_slice());
    tell_or_none(answer, tree)
}

// `cut` takes a moment, the retention, the floor, and tracked flushes. It answers the cut.
fn cut(alloc: Global, words: &[&str], answer: &mut String) -> Result<(), Flaw> {
    let [moment, retention, floor, tracked] = words else {
        return Err(Flaw::Words);
    };
    let moment = number(moment)?;
    let retention = number(retention)?;
    let floor = number(floor)?;
    let mut core = fresh(alloc);
    core.recent_snapshot_min_seq = floor;
    core.tracker = TrackerList::from_vec(alloc, parse_list(alloc, tracked, ',')?)?;
    let cut = core.cut(moment, retention);
    Ok(write!(answer, "ok {cut}")?)
}

// A tree of flushes and runs with these ids.
fn tree(alloc: Global, flushes: &str, runs: &str) -> Result<LsmTreeState, Flaw> {
    let mut tree = LsmTreeState::new(alloc);
    let flushes: Vec<u64> = parse_list(alloc, flushes, ',')?;
    'flushes: for id in flushes.iter() {
        tree.l0.push(named_view(alloc, *id)?)?;
    }
    let runs: Vec<u32> = parse_list(alloc, runs, ',')?;
    'runs: for id in runs.iter() {
        tree.compacted
            .push(SortedRun::new(*id, ViewList::new(alloc)))?;
    }
    Ok(tree)
}

// `writer` takes the local watermark, flushes and runs, and the remote flushes and greatest
// sequence. It answers the merged tree.
fn writer(alloc: Global, words: &[&str], answer: &mut String) -> Result<(), Flaw> {
    let [watermark, flushes, runs, remote_flushes, last_seq] = words else {
        return Err(Flaw::Words);
    };
    let watermark: Option<u64> = parse_if_any(alloc, watermark, "-")?;
    let last_seq = parse_if_any(alloc, last_seq, "-")?;
    let mut local = tree(alloc, flushes, runs)?;
    local.last_compacted_l0_sst_view_id = watermark.map(|id| Ulid::from_parts(0, id as u128));
    let mut remote = tree(alloc, remote_flushes, "-")?;
    remote.last_seq = last_seq;
    tell_ok(answer, merge_from_writer(&local, &remote)?)
}
