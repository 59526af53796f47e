//! The lines of a script.

ghost use Rattle.std.specs.Prelude.{◌≡◌, IfOk, IsOkUnless};
ghost use Rattle.fleet_rows.specs.declared.errors.SlateDBError.TheVariants as SlateDBError;

use crate::copies::{
    drain_copy, dump_copy, flush_copy, full_copy, plain_copy, read_copy, scan_copy, submit_copy,
    tables_copy,
};
use crate::node::{NodeList, NodeName};
use bytes::Bytes;
use fleet_rows::{ListOf, RowEntry, SlateDBError};
use std::alloc::AllocError;

/// One line of a script, with the fields that the language gives it, in their order. Parties are
/// named by their numbers, and a segment by its prefix.
#[derive(Debug, Drop, PartialEq)]
pub enum Line {
    /// Sets the options of the fleet. Only the first line of a script may do it.
    Options {
        timeout: u64,
        concurrent: u64,
        slots: u64,
        ranges: u64,
        table_size: u64,
        moves: bool,
        retention: Option<u64>,
    },
    /// Sets the moment, in milliseconds.
    Clock {
        moment: u64,
    },
    /// Starts a coordinator.
    StartCoordinator {
        number: u64,
    },
    /// Starts a worker of a release, which is 1 or 2.
    StartWorker {
        number: u64,
        release: Option<u64>,
    },
    KillCoordinator {
        number: u64,
    },
    KillWorker {
        number: u64,
    },
    StopCoordinator {
        number: u64,
    },
    StopWorker {
        number: u64,
    },
    /// Flushes rows into the tree of a segment.
    Flush {
        name: u64,
        segment: Bytes,
        floor: u64,
        tick: i64,
        rows: ListOf<RowEntry>,
    },
    /// Reads a key at a sequence and at the moment `now`, in milliseconds.
    Read {
        segment: Bytes,
        key: Bytes,
        seq: u64,
        now: i64,
    },
    /// Submits a job that makes a sorted run with the id `destination` from these sources.
    Submit {
        segment: Bytes,
        destination: u32,
        sources: NodeList,
    },
    /// Submits a job that drops these sources.
    Drain {
        segment: Bytes,
        sources: NodeList,
    },
    /// Submits the jobs that the scheduler makes of a segment, or of all.
    Full {
        segment: Option<Bytes>,
    },
    /// A coordinator polls: it commits finished jobs and opens submitted ones.
    Poll {
        coordinator: u64,
    },
    /// A coordinator commits finished jobs, and does nothing else of a poll.
    Commit {
        coordinator: u64,
    },
    /// A worker claims waiting jobs.
    Claim {
        worker: u64,
    },
    /// A worker says that it is live.
    Heartbeat {
        worker: u64,
    },
    /// A worker writes the next rows of a job's range, which is counted from 1.
    Output {
        worker: u64,
        job: u64,
        range: u64,
        rows: u32,
    },
    /// A worker writes the tables of a job and finishes it.
    Finish {
        worker: u64,
        job: u64,
    },
    /// Strikes the `k`-th call of the store from now on. A struck put takes effect if it `stands`.
    Fault {
        k: u32,
        stands: bool,
    },
    /// Shows the trees.
    Trees,
    /// Shows the jobs.
    Jobs,
    /// Shows the tables of a node.
    Tables {
        segment: Bytes,
        node: NodeName,
    },
    /// Shows the rows of a node.
    Dump {
        segment: Bytes,
        node: NodeName,
    },
    /// Deletes the tables that nothing can need.
    Sweep,
    /// Reads the keys from `from` on and below `to`, at most `limit` of them. An empty end is no
    /// bound.
    Scan {
        segment: Bytes,
        from: Bytes,
        to: Bytes,
        seq: u64,
        now: i64,
        limit: u32,
    },
    /// Runs a coordinator and a worker until nothing is left to do, for so many rounds at most.
    Settle {
        coordinator: u64,
        worker: u64,
        rounds: u64,
    },
    /// Runs a coordinator and so many workers at once, each for so many turns at most.
    Together {
        workers: u64,
        turns: u64,
    },
}

impl Line {
    /// A copy of the line. The only error is `Memory`.
    pub fn clone(&self) -> Result<Line, SlateDBError>
        ensures copy { IfOk result (λ copy. copy ≡ self.now) }
        ensures memory { IsOkUnless result SlateDBError.Memory }
    {
        Ok(Clone::clone(self)?)
    }
}

impl Clone for Line {
    ghost is_clone = { λ line copy. copy ≡ line };

    fn clone(&self) -> Result<Line, AllocError> {
        match self {
            Line::Flush {
                name,
                segment,
                floor,
                tick,
                rows,
            } => flush_copy(*name, segment, *floor, *tick, rows),
            Line::Read {
                segment,
                key,
                seq,
                now,
            } => read_copy(segment, key, *seq, *now),
            Line::Submit {
                segment,
                destination,
                sources,
            } => submit_copy(segment, *destination, sources),
            Line::Drain { segment, sources } => drain_copy(segment, sources),
            Line::Full { segment } => full_copy(segment),
            Line::Tables { segment, node } => tables_copy(segment, *node),
            Line::Dump { segment, node } => dump_copy(segment, *node),
            Line::Scan {
                segment,
                from,
                to,
                seq,
                now,
                limit,
            } => scan_copy(segment, from, to, *seq, *now, *limit),
            _ => Ok(plain_copy(self)),
        }
    }
}

/// The lines of a script, in order.
pub type LineList = ListOf<Line>;
