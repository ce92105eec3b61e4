//! The adapters of std's readers and writers.
use cg_io::{Failed, Sink, Source, StdinSource, StdoutSink};
use std::io;
use std::io::{Read, Write};

/// What a rigged reader or writer does.
#[derive(Clone, Copy, PartialEq, Eq)]
enum Rig {
    Works,
    Fails,
    TakesNothing,
    FailsToFlush,
}

/// A reader of nothing.
#[derive(Drop)]
struct RiggedReader(Rig);

impl Read for RiggedReader {
    fn read(&mut self, _buffer: &mut [u8]) -> io::Result<usize> {
        if self.0 == Rig::Works {
            Ok(0)
        } else {
            Err(io::Error::from(io::ErrorKind::Other))
        }
    }
}

/// A writer that counts its flushes.
#[derive(Drop)]
struct RiggedWriter<'a> {
    rig: Rig,
    flushes: &'a mut u64,
}

impl Write for RiggedWriter<'_> {
    fn write(&mut self, piece: &[u8]) -> io::Result<usize> {
        match self.rig {
            Rig::Works | Rig::FailsToFlush => Ok(piece.len()),
            Rig::TakesNothing => Ok(0),
            Rig::Fails => Err(io::Error::from(io::ErrorKind::Other)),
        }
    }

    fn flush(&mut self) -> io::Result<()> {
        *self.flushes = self.flushes.saturating_add(1);
        if self.rig == Rig::FailsToFlush {
            return Err(io::Error::from(io::ErrorKind::Other));
        }
        Ok(())
    }
}

#[test]
fn source_fails_with_its_reader(rt: HostRuntime) {
    let mut buffer = [0; 4];
    assert!(rt; StdinSource::new(RiggedReader(Rig::Works)).read(&mut buffer) == Ok(0));
    assert!(rt; StdinSource::new(RiggedReader(Rig::Fails)).read(&mut buffer) == Err(Failed));
}

/// It flushes after each write that was taken. A failed flush is a fault, and so is a write of nothing.
#[test]
fn sink_flushes_what_was_taken(rt: HostRuntime) {
    let rows = [
        (Rig::Works, Ok(3), 1),
        (Rig::FailsToFlush, Err(Failed), 1),
        (Rig::TakesNothing, Err(Failed), 0),
        (Rig::Fails, Err(Failed), 0),
    ];
    for (rig, answer, flushed) in rows {
        let mut flushes = 0;
        let mut sink = StdoutSink::new(RiggedWriter {
            rig,
            flushes: &mut flushes,
        });
        let written = sink.write(b"abc");
        assert!(rt; written == answer);
        assert!(rt; flushes == flushed);
    }
}
