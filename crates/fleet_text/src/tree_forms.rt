//! Reads the lines that name segments, keys, rows or nodes.

ghost use Rattle.std.specs.Prelude.{◌∷◌, [], IfOk, codes};
ghost use Rattle.script_model.specs.Script.{words, IsInBounds};
ghost use Rattle.fleet_text.specs.Lines.{line_of};
ghost use Rattle.fleet_text.specs.Reading.{ReadsAs};

use crate::line::Line;
use crate::node::{node_at, nodes_at};
use crate::row::rows_at;
use crate::word::{count_of, key_of, name_of, number_of, run_of, short_bytes_of, signed_of};
use std::alloc::{AllocError, Global};

/// Reads `flush`, a name, a segment, a floor, a tick and rows.
pub fn flush_from(
    alloc: Global,
    name: &[u8],
    segment: &[u8],
    floor: &[u8],
    tick: &[u8],
    rows: &[u8],
) -> Result<Option<Line>, AllocError>
    ensures { IfOk result (ReadsAs line_of words IsInBounds
        (codes "flush" ∷ name.now ∷ segment.now ∷ floor.now ∷ tick.now ∷ rows.now ∷ [])) }
{
    let Some(name) = name_of(name) else {
        return Ok(None);
    };
    let Some(floor) = number_of(floor) else {
        return Ok(None);
    };
    let Some(tick) = signed_of(tick) else {
        return Ok(None);
    };
    let Some(segment) = short_bytes_of(alloc, segment)? else {
        return Ok(None);
    };
    let Some(rows) = rows_at(alloc, rows)? else {
        return Ok(None);
    };
    Ok(Some(Line::Flush {
        name,
        segment,
        floor,
        tick,
        rows,
    }))
}

/// Reads `read`, a segment, a key, a sequence and a moment.
pub fn read_from(
    alloc: Global,
    segment: &[u8],
    key: &[u8],
    seq: &[u8],
    now: &[u8],
) -> Result<Option<Line>, AllocError>
    ensures { IfOk result (ReadsAs line_of words IsInBounds
        (codes "read" ∷ segment.now ∷ key.now ∷ seq.now ∷ now.now ∷ [])) }
{
    let Some(seq) = number_of(seq) else {
        return Ok(None);
    };
    let Some(now) = signed_of(now) else {
        return Ok(None);
    };
    let Some(segment) = short_bytes_of(alloc, segment)? else {
        return Ok(None);
    };
    let Some(key) = key_of(alloc, key)? else {
        return Ok(None);
    };
    Ok(Some(Line::Read {
        segment,
        key,
        seq,
        now,
    }))
}

/// Reads `scan`, a segment, the two ends of a range, a sequence, a moment and a limit.
pub fn scan_from(
    alloc: Global,
    segment: &[u8],
    from: &[u8],
    to: &[u8],
    seq: &[u8],
    now: &[u8],
    limit: &[u8],
) -> Result<Option<Line>, AllocError>
    ensures { IfOk result (ReadsAs line_of words IsInBounds (codes "scan" ∷ segment.now ∷ from.now
        ∷ to.now ∷ seq.now ∷ now.now ∷ limit.now ∷ [])) }
{
    let Some(seq) = number_of(seq) else {
        return Ok(None);
    };
    let Some(now) = signed_of(now) else {
        return Ok(None);
    };
    let Some(limit) = count_of(limit) else {
        return Ok(None);
    };
    let Some(segment) = short_bytes_of(alloc, segment)? else {
        return Ok(None);
    };
    let Some(from) = short_bytes_of(alloc, from)? else {
        return Ok(None);
    };
    let Some(to) = short_bytes_of(alloc, to)? else {
        return Ok(None);
    };
    Ok(Some(Line::Scan {
        segment,
        from,
        to,
        seq,
        now,
        limit,
    }))
}

/// Reads `submit`, a segment, a destination and sources.
pub fn submit_from(
    alloc: Global,
    segment: &[u8],
    destination: &[u8],
    sources: &[u8],
) -> Result<Option<Line>, AllocError>
    ensures { IfOk result (ReadsAs line_of words IsInBounds
        (codes "submit" ∷ segment.now ∷ destination.now ∷ sources.now ∷ [])) }
{
    let Some(destination) = run_of(destination) else {
        return Ok(None);
    };
    let Some(segment) = short_bytes_of(alloc, segment)? else {
        return Ok(None);
    };
    let Some(sources) = nodes_at(alloc, sources)? else {
        return Ok(None);
    };
    Ok(Some(Line::Submit {
        segment,
        destination,
        sources,
    }))
}

/// Reads `drain`, a segment and sources.
pub fn drain_from(alloc: Global, segment: &[u8], sources: &[u8]) -> Result<Option<Line>, AllocError>
    ensures { IfOk result (ReadsAs line_of words IsInBounds
        (codes "drain" ∷ segment.now ∷ sources.now ∷ [])) }
{
    let Some(segment) = short_bytes_of(alloc, segment)? else {
        return Ok(None);
    };
    let Some(sources) = nodes_at(alloc, sources)? else {
        return Ok(None);
    };
    Ok(Some(Line::Drain { segment, sources }))
}

/// Reads `full` and a segment.
pub fn full_from(alloc: Global, segment: &[u8]) -> Result<Option<Line>, AllocError>
    ensures { IfOk result (ReadsAs line_of words IsInBounds (codes "full" ∷ segment.now ∷ [])) }
{
    let Some(segment) = short_bytes_of(alloc, segment)? else {
        return Ok(None);
    };
    Ok(Some(Line::Full {
        segment: Some(segment),
    }))
}

/// Reads `tables`, a segment and a node.
pub fn tables_from(alloc: Global, segment: &[u8], node: &[u8]) -> Result<Option<Line>, AllocError>
    ensures { IfOk result (ReadsAs line_of words IsInBounds
        (codes "tables" ∷ segment.now ∷ node.now ∷ [])) }
{
    let Some(node) = node_at(node) else {
        return Ok(None);
    };
    let Some(segment) = short_bytes_of(alloc, segment)? else {
        return Ok(None);
    };
    Ok(Some(Line::Tables { segment, node }))
}

/// Reads `dump`, a segment and a node.
pub fn dump_from(alloc: Global, segment: &[u8], node: &[u8]) -> Result<Option<Line>, AllocError>
    ensures { IfOk result (ReadsAs line_of words IsInBounds
        (codes "dump" ∷ segment.now ∷ node.now ∷ [])) }
{
    let Some(node) = node_at(node) else {
        return Ok(None);
    };
    let Some(segment) = short_bytes_of(alloc, segment)? else {
        return Ok(None);
    };
    Ok(Some(Line::Dump { segment, node }))
}
