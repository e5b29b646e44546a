//! A reader as a source, and a writer as a sink.
ghost use Rattle.std.specs.Prelude.{◌≡◌, ◌≤◌, ◌<◌, length, take, drop, IfOk, OnErr};
ghost use Rattle.std.specs.Io.KnownBytes.{Consumes, Keeps, IsAtEnd};

use crate::outside::{Failed, Sink, SinkFault, Source};
use std::io::{Read, Write};
use std::marker::Model;

/// A reader as a source.
///
/// A read that is answered by an error counts as a fault. The count stands still at `2^64 - 1`.
#[derive(Drop)]
pub struct ReadSource<R: Read> {
    inner: R,
    faults: u64,
    own: [u8; 65536],
}

impl<R: Read> Model for ReadSource<R> {
    ghost use Rattle.ax_base.specs.Sinks.{Counted};

    ghost Value = { Counted };

    ghost view = { λ s. record { bytes = R.remaining s.inner; faults = s.faults } };
}

impl<R: Read> ReadSource<R> {
    /// The source that reads from this reader.
    pub fn new(inner: R) -> ReadSource<R>
        ensures { result ≡ record { bytes = R.remaining inner; faults = 0 } }
    {
        ReadSource {
            inner,
            faults: 0,
            own: [0; 65536],
        }
    }
}

impl<R: Read> Source for ReadSource<R> {
    ghost left = { λ s. s.bytes };

    ghost faults = { λ s. s.faults };

    fn read(&mut self, buf: &mut [u8]) -> Result<usize, Failed> {
        match read_through(&mut self.inner, &mut self.own[..], buf) {
            Ok(n) => Ok(n),
            Err(fault) => {
                self.faults = self.faults.saturating_add(1);
                Err(fault)
            }
        }
    }
}

// Reads by way of bytes of its own, since a reader may write behind what it says that it read.
fn read_through<R: Read>(inner: &mut R, own: &mut [u8], buf: &mut [u8]) -> Result<usize, Failed>
    requires room { 0 < length buf.old }
    requires own { 0 < length own.old }
    ensures bound { IfOk result (λ n. n ≤ length buf.old) }
    ensures taken { IfOk result (λ n. Consumes (R.remaining inner.old) (R.remaining inner.new) (take n buf.new)) }
    ensures rest { IfOk result (λ n. drop n buf.new ≡ drop n buf.old) }
    ensures end { IfOk result (λ n. n ≡ 0 → IsAtEnd (R.remaining inner.old)) }
    ensures kept { OnErr result (Keeps (R.remaining inner.old) (R.remaining inner.new)) }
{
    let most = buf.len().min(own.len());
    match inner.read(&mut own[..most]) {
        Ok(n) => {
            buf[..n].copy_from_slice(&own[..n]);
            Ok(n)
        }
        Err(_) => Err(Failed),
    }
}

/// A writer as a sink. It never lacks memory.
///
/// A write that is answered by an error, or that takes nothing, counts as a fault. The count
/// stands still at `2^64 - 1`.
#[derive(Drop)]
pub struct WriteSink<W: Write> {
    inner: W,
    faults: u64,
}

impl<W: Write> Model for WriteSink<W> {
    ghost use Rattle.ax_base.specs.Sinks.{Counted};

    ghost Value = { Counted };

    ghost view = { λ s. record { bytes = W.contents s.inner; faults = s.faults } };
}

impl<W: Write> WriteSink<W> {
    /// The sink that writes to this writer.
    pub fn new(inner: W) -> WriteSink<W>
        ensures { result ≡ record { bytes = W.contents inner; faults = 0 } }
    {
        WriteSink { inner, faults: 0 }
    }
}

impl<W: Write> Sink for WriteSink<W> {
    ghost holds = { λ s. s.bytes };

    ghost counts = { λ s. record { faults = s.faults; short = 0 } };

    ghost base = { λ s. 0 };

    fn write(&mut self, piece: &[u8]) -> Result<usize, SinkFault> {
        match self.inner.write(piece) {
            Ok(n) if n > 0 => Ok(n),
            _ => {
                self.faults = self.faults.saturating_add(1);
                Err(SinkFault::Failed)
            }
        }
    }
}
