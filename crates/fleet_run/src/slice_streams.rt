//! A source and a sink that never fail.

ghost use Rattle.std.specs.Prelude.{◌≡◌, Some, None, false};
ghost use Rattle.fleet_run.specs.SourceAndSink.{SourceView, SinkView};

use crate::source_and_sink::{Failed, Sink, Source};

/// A source that gives the bytes of a slice and never fails.
#[derive(Drop)]
pub struct SafeSource<'a> {
    left: &'a [u8],
    given: u64,
    ended: bool,
}

impl<'a> SafeSource<'a> {
    ghost use Rattle.fleet_run.specs.SliceStreams.{safe_source_view};

    pub fn new(bytes: &'a [u8]) -> SafeSource<'a>
        ensures { safe_source_view result
            ≡ record { left = Some bytes.now; given = 0; ended = false; faults = 0 } }
    {
        SafeSource {
            left: bytes,
            given: 0,
            ended: false,
        }
    }
}

impl Source for SafeSource<'_> {
    ghost use Rattle.fleet_run.specs.SliceStreams.{safe_source_view};

    ghost view = { safe_source_view };

    fn read(&mut self, into: &mut [u8]) -> Result<usize, Failed> {
        let n = into.len().min(self.left.len());
        let (front, left) = self.left.split_at(n);
        into[..n].copy_from_slice(front);
        self.left = left;
        self.given = self.given.saturating_add(n as u64);
        if !into.is_empty() {
            self.ended = n == 0;
        }
        Ok(n)
    }
}

/// A sink that counts the bytes that it takes, keeps none of them, and never fails.
#[derive(Clone, Copy, Debug, PartialEq, Eq)]
pub struct SafeSink {
    taken: u64,
}

impl SafeSink {
    ghost use Rattle.fleet_run.specs.SliceStreams.{safe_sink_view};

    pub const fn new() -> SafeSink
        ensures { safe_sink_view result ≡ record { written = None; taken = 0; faults = 0 } }
    {
        SafeSink { taken: 0 }
    }

    /// The number of bytes that the sink took, at most `u64::MAX`.
    pub fn taken(&self) -> u64
        ensures { result ≡ (safe_sink_view self.now).taken }
    {
        self.taken
    }
}

impl Sink for SafeSink {
    ghost use Rattle.fleet_run.specs.SliceStreams.{safe_sink_view};

    ghost view = { safe_sink_view };

    fn write(&mut self, from: &[u8]) -> Result<usize, Failed> {
        self.taken = self.taken.saturating_add(from.len() as u64);
        Ok(from.len())
    }
}
