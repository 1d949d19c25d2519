//! The streams of std as sources and sinks.
ghost use Rattle.std.specs.Prelude.{◌≡◌, ◌<◌, ◌≤◌, length, None, IfOk, OnOk, OnErr};
ghost use Rattle.std.specs.Io.KnownBytes.{ReadConsumes, WriteAppends};
ghost use Rattle.luf_io.specs.Count.{Rose};

use luf_io::{Failed, Sink, Source};
use std::io::{Error, ErrorKind, Read, Result as IoResult, Write};

/// A reader as a source. It tells nothing of what is left, since a reader may not know.
#[derive(Drop)]
pub struct StreamSource<R> {
    reader: R,
    faults: u64,
}

impl<R: Read> StreamSource<R> {
    /// No pull has failed yet.
    pub fn new(reader: R) -> StreamSource<R>
        ensures { result ≡ record { reader = reader; faults = 0 } }
    {
        StreamSource { reader, faults: 0 }
    }
}

impl<R: Read> Source for StreamSource<R> {
    ghost faults = { λ s. s.faults };

    ghost left = { λ _. None };

    /// One read, tried again where a signal interrupts it.
    fn pull(&mut self, into: &mut [u8]) -> Result<usize, Failed>
        ensures count { IfOk result (λ count. count ≤ length into.new) }
        ensures reads { ReadConsumes (R.remaining self.old.reader) (R.remaining self.new.reader)
            result into.new }
        ensures calm { OnOk result (self.new.faults ≡ self.old.faults) }
        ensures failed { OnErr result (Rose self.old.faults self.new.faults) }
    {
        match read_some(&mut self.reader, into) {
            Ok(count) => Ok(count),
            Err(_) => {
                self.faults = self.faults.saturating_add(1);
                Err(Failed)
            }
        }
    }
}

/// A writer as a sink. It must have no buffer, since nothing flushes it. It tells nothing of what
/// was written, since a writer may not know.
#[derive(Drop)]
pub struct StreamSink<W> {
    writer: W,
    faults: u64,
}

impl<W: Write> StreamSink<W> {
    /// No put has failed yet.
    pub fn new(writer: W) -> StreamSink<W>
        ensures { result ≡ record { writer = writer; faults = 0 } }
    {
        StreamSink { writer, faults: 0 }
    }
}

impl<W: Write> Sink for StreamSink<W> {
    ghost faults = { λ s. s.faults };

    ghost written = { λ _. None };

    /// One write, tried again where a signal interrupts it.
    fn put(&mut self, piece: &[u8]) -> Result<usize, Failed>
        ensures count { IfOk result (λ count. count ≤ length piece.now) }
        ensures moves { IfOk result (λ count. 0 < length piece.now → 0 < count) }
        ensures writes { WriteAppends (W.contents self.old.writer) (W.contents self.new.writer)
            result piece.now }
        ensures calm { OnOk result (self.new.faults ≡ self.old.faults) }
        ensures failed { OnErr result (Rose self.old.faults self.new.faults) }
    {
        match write_some(&mut self.writer, piece) {
            Ok(count) => Ok(count),
            Err(_) => {
                self.faults = self.faults.saturating_add(1);
                Err(Failed)
            }
        }
    }
}

// One read, tried again where a signal interrupts it.
fn read_some<R: Read>(reader: &mut R, into: &mut [u8]) -> IoResult<usize>
    ensures count { IfOk result (λ count. count ≤ length into.new) }
    ensures reads { ReadConsumes (R.remaining reader.old) (R.remaining reader.new) result into.new }
{
    for _ in 0..u64::MAX {
        match reader.read(into) {
            Err(e) if e.kind() == ErrorKind::Interrupted => {}
            result => return result,
        }
    }
    Err(Error::from(ErrorKind::Interrupted))
}

// One write, tried again where a signal interrupts it. A write that takes nothing of a piece that
// is not empty has failed.
fn write_some<W: Write>(writer: &mut W, piece: &[u8]) -> IoResult<usize>
    ensures count { IfOk result (λ count. count ≤ length piece.now) }
    ensures moves { IfOk result (λ count. 0 < length piece.now → 0 < count) }
    ensures writes { WriteAppends (W.contents writer.old) (W.contents writer.new) result piece.now }
{
    for _ in 0..u64::MAX {
        match writer.write(piece) {
            Ok(0) if !piece.is_empty() => return Err(Error::from(ErrorKind::WriteZero)),
            Err(e) if e.kind() == ErrorKind::Interrupted => {}
            result => return result,
        }
    }
    Err(Error::from(ErrorKind::Interrupted))
}
