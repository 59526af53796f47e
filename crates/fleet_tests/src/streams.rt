//! Tests of streams that fail, as a source and a sink.

use fleet_run::{Failed, Sink, Source, StreamSink, StreamSource};
use std::io::{self, ErrorKind, Read, Write};

// A stream that first gives or takes two bytes, then fails once, and then gives and takes
// nothing.
#[derive(Drop)]
struct Stream {
    calls: u64,
}

impl Stream {
    fn step(&mut self) -> io::Result<usize> {
        self.calls = self.calls.saturating_add(1);
        match self.calls {
            1 => Ok(2),
            2 => Err(io::Error::from(ErrorKind::Other)),
            _ => Ok(0),
        }
    }
}

impl Read for Stream {
    fn read(&mut self, buf: &mut [u8]) -> io::Result<usize> {
        let n = self.step()?.min(buf.len());
        buf[..n].fill(b'x');
        Ok(n)
    }
}

impl Write for Stream {
    fn write(&mut self, buf: &[u8]) -> io::Result<usize> {
        Ok(self.step()?.min(buf.len()))
    }

    fn flush(&mut self) -> io::Result<()> {
        Ok(())
    }
}

// The bytes and the faults that a source counted, and whether it has ended.
fn counted(source: &StreamSource<Stream>) -> (u64, u64, bool) {
    (source.given(), source.faults(), source.has_ended())
}

#[test]
fn source_counts(rt: HostRuntime) {
    let mut source = StreamSource::new(Stream { calls: 0 });
    let mut buffer = [0; 4];
    assert!(rt; source.read(&mut buffer) == Ok(2));
    assert!(rt; buffer.as_slice() == b"xx\0\0".as_slice());
    assert!(rt; counted(&source) == (2, 0, false));
    assert!(rt; source.read(&mut buffer) == Err(Failed));
    assert!(rt; counted(&source) == (2, 1, false));
    assert!(rt; source.read(&mut buffer) == Ok(0));
    assert!(rt; counted(&source) == (2, 1, true));
}

#[test]
fn sink_counts(rt: HostRuntime) {
    let mut sink = StreamSink::new(Stream { calls: 0 });
    assert!(rt; sink.write(b"abc") == Ok(2));
    assert!(rt; (sink.taken(), sink.faults()) == (2, 0));
    assert!(rt; sink.write(b"c") == Err(Failed));
    assert!(rt; sink.write(b"c") == Err(Failed));
    assert!(rt; (sink.taken(), sink.faults()) == (2, 2));
    assert!(rt; sink.write(b"") == Ok(0));
}
