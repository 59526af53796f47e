//! Streams, such as standard input and output, as a source and a sink. They are trusted: no contract
//! can say which bytes a stream gives or takes. Contracts see only how many bytes were given or
//! taken, and how many calls failed.

ghost use Rattle.std.specs.Prelude.{◌≡◌, None, false};
ghost use Rattle.fleet_run.specs.SourceAndSink.{SourceView, SinkView};

use crate::source_and_sink::{Failed, Sink, Source};
use std::io::{Read, Write};

/// A source that reads from a stream. It counts the bytes that the stream gave and the reads that
/// failed.
#[derive(Drop)]
pub struct StreamSource<R> {
    reader: R,
    given: u64,
    ended: bool,
    faults: u64,
}

impl<R: Read> StreamSource<R> {
    ghost use Rattle.fleet_run.specs.Streams.{source_view};

    pub fn new(reader: R) -> StreamSource<R>
        ensures { source_view result
            ≡ record { left = None; given = 0; ended = false; faults = 0 } }
    {
        StreamSource {
            reader,
            given: 0,
            ended: false,
            faults: 0,
        }
    }

    /// How many bytes the stream gave, at most `u64::MAX`.
    pub fn given(&self) -> u64
        ensures { result ≡ (source_view self.now).given }
    {
        self.given
    }

    /// Whether the last read into a buffer with room came to the stream's end.
    pub fn has_ended(&self) -> bool
        ensures { result ≡ (source_view self.now).ended }
    {
        self.ended
    }

    /// How many reads failed, at most `u64::MAX`.
    pub fn faults(&self) -> u64
        ensures { result ≡ (source_view self.now).faults }
    {
        self.faults
    }
}

impl<R: Read> Source for StreamSource<R> {
    ghost use Rattle.fleet_run.specs.Streams.{source_view};

    ghost view = { source_view };

    fn read(&mut self, into: &mut [u8]) -> Result<usize, Failed> {
        match self.reader.read(into) {
            Ok(n) => {
                self.given = self.given.saturating_add(n as u64);
                if !into.is_empty() {
                    self.ended = n == 0;
                }
                Ok(n)
            }
            Err(_) => {
                self.faults = self.faults.saturating_add(1);
                self.ended = self.ended && into.is_empty();
                Err(Failed)
            }
        }
    }
}

/// A sink that writes to a stream. It counts the bytes that the stream took and the writes that
/// failed. A write that takes nothing of a piece that is not empty has failed.
#[derive(Drop)]
pub struct StreamSink<W> {
    writer: W,
    taken: u64,
    faults: u64,
}

impl<W: Write> StreamSink<W> {
    ghost use Rattle.fleet_run.specs.Streams.{sink_view};

    pub fn new(writer: W) -> StreamSink<W>
        ensures { sink_view result ≡ record { written = None; taken = 0; faults = 0 } }
    {
        StreamSink {
            writer,
            taken: 0,
            faults: 0,
        }
    }

    /// How many bytes the stream took, at most `u64::MAX`.
    pub fn taken(&self) -> u64
        ensures { result ≡ (sink_view self.now).taken }
    {
        self.taken
    }

    /// How many writes failed, at most `u64::MAX`.
    pub fn faults(&self) -> u64
        ensures { result ≡ (sink_view self.now).faults }
    {
        self.faults
    }
}

impl<W: Write> Sink for StreamSink<W> {
    ghost use Rattle.fleet_run.specs.Streams.{sink_view};

    ghost view = { sink_view };

    fn write(&mut self, from: &[u8]) -> Result<usize, Failed> {
        match self.writer.write(from) {
            Ok(n) if n > 0 || from.is_empty() => {
                self.taken = self.taken.saturating_add(n as u64);
                Ok(n)
            }
            _ => {
                self.faults = self.faults.saturating_add(1);
                Err(Failed)
            }
        }
    }
}
