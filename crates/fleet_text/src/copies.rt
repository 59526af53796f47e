//! Copies of lines, kind by kind. A copy in one piece would take far longer to prove.

ghost use Rattle.std.specs.Prelude.{◌≡◌, true, false, IfOk};
ghost use Rattle.fleet_text.specs.Kinds.{takes_memory, names_party};
ghost use Rattle.fleet_text.specs.declared.line.Line.TheVariants as Line;

use crate::line::Line;
use crate::node::{NodeList, NodeName};
use bytes::Bytes;
use fleet_rows::{Copies, ListOf, RowEntry};
use std::alloc::AllocError;

/// A copy of a line that takes no memory.
pub fn plain_copy(line: &Line) -> Line
    requires { takes_memory line.now ≡ false }
    ensures { result ≡ line.now }
{
    match *line {
        Line::Options {
            timeout,
            concurrent,
            slots,
            ranges,
            table_size,
            moves,
            retention,
        } => Line::Options {
            timeout,
            concurrent,
            slots,
            ranges,
            table_size,
            moves,
            retention,
        },
        Line::Clock { moment } => Line::Clock { moment },
        Line::Finish { worker, job } => Line::Finish { worker, job },
        Line::Fault { k, stands } => Line::Fault { k, stands },
        Line::Trees => Line::Trees,
        Line::Jobs => Line::Jobs,
        Line::Sweep => Line::Sweep,
        Line::Together { workers, turns } => Line::Together { workers, turns },
        _ => party_copy(line),
    }
}

// A copy of a line that names a party and otherwise numbers.
fn party_copy(line: &Line) -> Line
    requires { names_party line.now ≡ true }
    ensures { result ≡ line.now }
{
    match *line {
        Line::StartCoordinator { number } => Line::StartCoordinator { number },
        Line::StartWorker { number, release } => Line::StartWorker { number, release },
        Line::KillCoordinator { number } => Line::KillCoordinator { number },
        Line::KillWorker { number } => Line::KillWorker { number },
        Line::StopCoordinator { number } => Line::StopCoordinator { number },
        Line::StopWorker { number } => Line::StopWorker { number },
        Line::Poll { coordinator } => Line::Poll { coordinator },
        Line::Commit { coordinator } => Line::Commit { coordinator },
        Line::Claim { worker } => Line::Claim { worker },
        Line::Heartbeat { worker } => Line::Heartbeat { worker },
        Line::Output {
            worker,
            job,
            range,
            rows,
        } => Line::Output {
            worker,
            job,
            range,
            rows,
        },
        Line::Settle {
            coordinator,
            worker,
            rounds,
        } => Line::Settle {
            coordinator,
            worker,
            rounds,
        },
        _ => unreachable!(),
    }
}

/// A copy of a `flush` line.
pub fn flush_copy(
    name: u64,
    segment: &Bytes,
    floor: u64,
    tick: i64,
    rows: &ListOf<RowEntry>,
) -> Result<Line, AllocError>
    ensures { IfOk result (λ copy. copy ≡ Line.Flush name segment.now floor tick rows.now) }
{
    Ok(Line::Flush {
        name,
        segment: segment.copied()?,
        floor,
        tick,
        rows: rows.copied()?,
    })
}

/// A copy of a `read` line.
pub fn read_copy(segment: &Bytes, key: &Bytes, seq: u64, now: i64) -> Result<Line, AllocError>
    ensures { IfOk result (λ copy. copy ≡ Line.Read segment.now key.now seq now) }
{
    Ok(Line::Read {
        segment: segment.copied()?,
        key: key.copied()?,
        seq,
        now,
    })
}

/// A copy of a `submit` line.
pub fn submit_copy(
    segment: &Bytes,
    destination: u32,
    sources: &NodeList,
) -> Result<Line, AllocError>
    ensures { IfOk result (λ copy. copy ≡ Line.Submit segment.now destination sources.now) }
{
    Ok(Line::Submit {
        segment: segment.copied()?,
        destination,
        sources: sources.copied()?,
    })
}

/// A copy of a `drain` line.
pub fn drain_copy(segment: &Bytes, sources: &NodeList) -> Result<Line, AllocError>
    ensures { IfOk result (λ copy. copy ≡ Line.Drain segment.now sources.now) }
{
    Ok(Line::Drain {
        segment: segment.copied()?,
        sources: sources.copied()?,
    })
}

/// A copy of a `full` line.
pub fn full_copy(segment: &Option<Bytes>) -> Result<Line, AllocError>
    ensures { IfOk result (λ copy. copy ≡ Line.Full segment.now) }
{
    let Some(segment) = segment else {
        return Ok(Line::Full { segment: None });
    };
    Ok(Line::Full {
        segment: Some(segment.copied()?),
    })
}

/// A copy of a `tables` line.
pub fn tables_copy(segment: &Bytes, node: NodeName) -> Result<Line, AllocError>
    ensures { IfOk result (λ copy. copy ≡ Line.Tables segment.now node) }
{
    Ok(Line::Tables {
        segment: segment.copied()?,
        node,
    })
}

/// A copy of a `dump` line.
pub fn dump_copy(segment: &Bytes, node: NodeName) -> Result<Line, AllocError>
    ensures { IfOk result (λ copy. copy ≡ Line.Dump segment.now node) }
{
    Ok(Line::Dump {
        segment: segment.copied()?,
        node,
    })
}

/// A copy of a `scan` line.
pub fn scan_copy(
    segment: &Bytes,
    from: &Bytes,
    to: &Bytes,
    seq: u64,
    now: i64,
    limit: u32,
) -> Result<Line, AllocError>
    ensures { IfOk result (λ copy. copy ≡ Line.Scan segment.now from.now to.now seq now limit) }
{
    Ok(Line::Scan {
        segment: segment.copied()?,
        from: from.copied()?,
        to: to.copied()?,
        seq,
        now,
        limit,
    })
}
