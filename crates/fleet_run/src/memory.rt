//! A source and a sink in memory.

ghost use Rattle.std.specs.Prelude.{◌≡◌, [], Some, false};
ghost use Rattle.fleet_run.specs.SourceAndSink.{SourceView, SinkView};

use crate::source_and_sink::{Failed, Sink, Source};
use std::alloc::Global;

/// A source that gives the bytes of a slice, as many as the buffer takes. It fails at the calls
/// that it was given.
#[derive(Drop)]
pub struct MemSource<'a> {
    left: &'a [u8],
    failing: &'a [u64],
    calls: u64,
    given: u64,
    ended: bool,
    faults: u64,
}

impl<'a> MemSource<'a> {
    ghost use Rattle.fleet_run.specs.Memory.{source_view, source_failing};

    /// A source of these bytes. Its calls of `read` are counted from 1, and the calls in `failing`
    /// fail.
    pub fn new(bytes: &'a [u8], failing: &'a [u64]) -> MemSource<'a>
        ensures fails_at { source_failing result ≡ failing.now }
        ensures view { source_view result
            ≡ record { left = Some bytes.now; given = 0; ended = false; faults = 0 } }
    {
        MemSource {
            left: bytes,
            failing,
            calls: 0,
            given: 0,
            ended: false,
            faults: 0,
        }
    }
}

impl Source for MemSource<'_> {
    ghost use Rattle.fleet_run.specs.Memory.{source_view};

    ghost view = { source_view };

    fn read(&mut self, into: &mut [u8]) -> Result<usize, Failed> {
        self.calls = self.calls.saturating_add(1);
        if self.failing.contains(&self.calls) {
            self.faults = self.faults.saturating_add(1);
            self.ended = self.ended && into.is_empty();
            return Err(Failed);
        }
        let n = into.len().min(self.left.len());
        let (front, left) = self.left.split_at(n);
        into[..n].copy_from_slice(front);
        self.left = left;
        self.given = self.given.saturating_add(n as u64);
        if !into.is_empty() {
            self.ended = n == 0;
        }
        Ok(n)
    }
}

/// A sink that keeps the bytes that it takes. It fails at the calls that it was given.
#[derive(Drop)]
pub struct MemSink<'a> {
    bytes: Vec<u8>,
    failing: &'a [u64],
    calls: u64,
    taken: u64,
    faults: u64,
}

impl<'a> MemSink<'a> {
    ghost use Rattle.fleet_run.specs.Memory.{sink_view, sink_bytes, sink_failing};

    /// An empty sink. Its calls of `write` are counted from 1, and the calls in `failing` fail.
    pub fn new(alloc: Global, failing: &'a [u64]) -> MemSink<'a>
        ensures fails_at { sink_failing result ≡ failing.now }
        ensures view { sink_view result ≡ record { written = Some []; taken = 0; faults = 0 } }
    {
        MemSink {
            bytes: Vec::new(alloc),
            failing,
            calls: 0,
            taken: 0,
            faults: 0,
        }
    }

    /// The bytes that the sink took.
    pub fn as_slice(&self) -> &[u8]
        ensures { result.now ≡ sink_bytes self.now }
    {
        self.bytes.as_slice()
    }
}

impl Sink for MemSink<'_> {
    ghost use Rattle.fleet_run.specs.Memory.{sink_view};

    ghost view = { sink_view };

    /// A write that is out of memory counts as a fault.
    fn write(&mut self, from: &[u8]) -> Result<usize, Failed> {
        self.calls = self.calls.saturating_add(1);
        if self.failing.contains(&self.calls) || self.bytes.extend_from_slice(from).is_err() {
            self.faults = self.faults.saturating_add(1);
            return Err(Failed);
        }
        self.taken = self.taken.saturating_add(from.len() as u64);
        Ok(from.len())
    }
}
