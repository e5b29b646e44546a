//! A source and a sink that give up, or take little at a time.
ghost use Rattle.std.specs.Prelude.{None};

use ax_base::{Bytes, Failed, Sink, SinkFault, Source};
use std::alloc::Global;

/// A source that gives a few bytes a read, and fails after some reads.
#[derive(Drop)]
pub struct FaultySource {
    bytes: Bytes,
    at: usize,
    most: usize,
    good: u64,
    reads: u64,
    faults: u64,
}

impl FaultySource {
    /// It gives at most `most` bytes a read. Reads after the first `good` fail.
    pub fn new(bytes: Bytes, most: usize, good: u64) -> FaultySource {
        FaultySource {
            bytes,
            at: 0,
            most,
            good,
            reads: 0,
            faults: 0,
        }
    }

    /// How often it was read.
    pub fn reads(&self) -> u64 {
        self.reads
    }
}

impl Source for FaultySource {
    ghost left = { λ s. None };

    ghost faults = { λ s. s.faults };

    fn read(&mut self, buf: &mut [u8]) -> Result<usize, Failed> {
        let before = self.reads;
        self.reads = before.saturating_add(1);
        if before >= self.good {
            self.faults = self.faults.saturating_add(1);
            return Err(Failed);
        }
        let from = self.at.min(self.bytes.len());
        let n = buf.len().min(self.most).min(self.bytes.len() - from);
        buf[..n].copy_from_slice(&self.bytes.as_slice()[from..from + n]);
        self.at = from + n;
        Ok(n)
    }
}

/// A sink that takes a few bytes a write, and gives up after some writes.
#[derive(Drop)]
pub struct FaultySink {
    bytes: Bytes,
    most: usize,
    good: u64,
    fault: SinkFault,
    writes: u64,
    faults: u64,
    short: u64,
}

impl FaultySink {
    /// It takes at most `most` bytes a write. Writes after the first `good` give this fault.
    pub fn new(alloc: Global, most: usize, good: u64, fault: SinkFault) -> FaultySink {
        FaultySink {
            bytes: Bytes::new(alloc),
            most,
            good,
            fault,
            writes: 0,
            faults: 0,
            short: 0,
        }
    }

    pub fn bytes(&self) -> &[u8] {
        self.bytes.as_slice()
    }
}

impl Sink for FaultySink {
    ghost holds = { λ s. None };

    ghost counts = { λ s. record { faults = s.faults; short = s.short } };

    ghost base = { λ s. 0 };

    fn write(&mut self, piece: &[u8]) -> Result<usize, SinkFault> {
        let before = self.writes;
        self.writes = before.saturating_add(1);
        if before >= self.good {
            match self.fault {
                SinkFault::Failed => self.faults = self.faults.saturating_add(1),
                SinkFault::NoMemory => self.short = self.short.saturating_add(1),
            }
            return Err(self.fault);
        }
        let n = piece.len().min(self.most).max(1);
        if self.bytes.extend_from_slice(&piece[..n]).is_err() {
            self.short = self.short.saturating_add(1);
            return Err(SinkFault::NoMemory);
        }
        Ok(n)
    }
}
