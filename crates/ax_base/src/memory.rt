//! Sources and sinks in memory.
ghost use Rattle.std.specs.Prelude.{◌≡◌, ◌≤◌, ◌<◌, ◌++◌, if◌then◌else◌, [], ℕ, List, Some, length, take, drop, IfOk, IsOkAnd, OnErr, min};
ghost use Rattle.std.specs.Io.KnownBytes.{Consumes, Appends, Keeps, IsAtEnd};
ghost use Rattle.std.specs.List.{list_any};
ghost use Rattle.std.specs.Bool.{OnTrue, OnFalse};
ghost use Rattle.ax_base.specs.Outside.{RoseByOne, ReadCount, WriteCounts};
ghost use Rattle.ax_base.specs.Sinks.{Written, Scripted, Script, counts_of, ReadsBy, WritesBy, names_call, fails_next, called, failed};

use crate::lists::{Bytes, Nums};
use crate::outside::{Failed, NoMemory, Sink, SinkFault, Source};
use std::alloc::Global;
use std::marker::Model;

// Copies bytes to the front of `buf`, at most `most`, as many as it has room for and there are.
fn give(bytes: &[u8], buf: &mut [u8], most: usize) -> usize
    ensures count { result ≡ min (min (length buf.old) most) (length bytes.now) }
    ensures given { bytes.now ≡ take result buf.new ++ drop result bytes.now }
    ensures rest { drop result buf.new ≡ drop result buf.old }
{
    let n = buf.len().min(most).min(bytes.len());
    buf[..n].copy_from_slice(&bytes[..n]);
    n
}

/// A source in memory that never fails: its count of faults is 0.
///
/// Contracts see it as the bytes that are left. Each read gives as many of them as fit.
#[derive(Drop)]
pub struct SureSource {
    bytes: Bytes,
    at: usize,
}

impl Model for SureSource {
    ghost use Rattle.std.specs.Prelude.{List, ℕ, ◌≤◌, drop, length};

    ghost Value = { List ℕ };

    ghost view = { λ s. drop s.at s.bytes };

    ghost invariant = { λ s. s.at ≤ length s.bytes };
}

impl SureSource {
    /// A source of these bytes.
    pub fn new(bytes: Bytes) -> SureSource
        ensures { result ≡ bytes }
    {
        SureSource { bytes, at: 0 }
    }
}

impl Source for SureSource {
    ghost left = { λ s. Some s };

    ghost faults = { λ s. 0 };

    /// Gives as many bytes as the room takes and are left. It never fails.
    fn read(&mut self, buf: &mut [u8]) -> Result<usize, Failed>
        requires { 0 < length buf.old }
        ensures bound { IfOk result (λ n. n ≤ length buf.old) }
        ensures taken { IfOk result (λ n. Consumes (Some self.old) (Some self.new) (take n buf.new)) }
        ensures rest { IfOk result (λ n. drop n buf.new ≡ drop n buf.old) }
        ensures end { IfOk result (λ n. n ≡ 0 → IsAtEnd (Some self.old)) }
        ensures kept { OnErr result (Keeps (Some self.old) (Some self.new)) }
        ensures count { ReadCount 0 0 result }
        ensures all { IsOkAnd result (λ n. n ≡ min (length buf.old) (length self.old)) }
    {
        let n = give(&self.bytes.as_slice()[self.at..], buf, buf.len());
        self.at += n;
        Ok(n)
    }
}

/// A sink in memory that fails only for want of memory: its count of faults is 0.
///
/// Contracts see it as a record of the bytes that it took and of `short`, how often memory was
/// short. That count stands still at `2^64 - 1`.
#[derive(Drop)]
pub struct SureSink {
    bytes: Bytes,
    short: u64,
}

impl Model for SureSink {
    ghost use Rattle.ax_base.specs.Sinks.{Written};

    ghost Value = { Written };

    ghost view = { λ s. record { bytes = s.bytes; short = s.short } };
}

impl SureSink {
    /// A sink that took no bytes yet.
    pub fn new(alloc: Global) -> SureSink
        ensures { result ≡ record { bytes = []; short = 0 } }
    {
        SureSink {
            bytes: Bytes::new(alloc),
            short: 0,
        }
    }

    /// The bytes that it took, in order.
    pub fn bytes(&self) -> &[u8]
        ensures { result.now ≡ self.now.bytes }
    {
        self.bytes.as_slice()
    }
}

impl Sink for SureSink {
    ghost holds = { λ s. Some s.bytes };

    ghost counts = { λ s. record { faults = 0; short = s.short } };

    ghost base = { λ s. 0 };

    fn write(&mut self, piece: &[u8]) -> Result<usize, SinkFault> {
        match self.bytes.extend_from_slice(piece) {
            Ok(()) => Ok(piece.len()),
            Err(NoMemory) => {
                self.short = self.short.saturating_add(1);
                Err(SinkFault::NoMemory)
            }
        }
    }
}

// Whether this number names that call.
fn names_call(number: i64, call: u64) -> bool
    ensures { result ≡ names_call call number }
{
    number >= 0 && number as u64 == call
}

// Whether a call is one of those that fail.
fn is_failing(failing: &[i64], call: u64) -> bool
    ensures { result ≡ list_any (names_call call) failing.now }
{
    failing.iter().any(|number| names_call(*number, call))
}

// Which calls fail, and what was counted so far.
#[derive(Drop)]
struct Calls {
    most: usize,
    failing: Nums,
    calls: u64,
    faults: u64,
    short: u64,
}

impl Model for Calls {
    ghost use Rattle.ax_base.specs.Sinks.{Script};

    ghost Value = { Script };

    ghost view = { λ s. record { most = s.most; failing = s.failing; calls = s.calls; faults = s.faults; short = s.short } };
}

impl Calls {
    fn new(most: usize, failing: Nums) -> Calls
        ensures { result ≡ record { most = most; failing = failing; calls = 0; faults = 0; short = 0 } }
    {
        Calls {
            most,
            failing,
            calls: 0,
            faults: 0,
            short: 0,
        }
    }

    // Counts one more call, and tells whether it fails.
    fn begin(&mut self) -> bool
        ensures fails { result ≡ fails_next self.old }
        ensures counted { self.new ≡ (if fails_next self.old then failed self.old else called self.old) }
        ensures count { OnFalse result (self.new.faults ≡ self.old.faults) }
        ensures rose { OnTrue result (RoseByOne self.old.faults self.new.faults) }
        ensures short { self.new.short ≡ self.old.short }
    {
        self.calls = self.calls.saturating_add(1);
        let fails = is_failing(self.failing.as_slice(), self.calls);
        if fails {
            self.faults = self.faults.saturating_add(1);
        }
        fails
    }
}

/// A source in memory that gives few bytes a call, and of which chosen calls fail.
///
/// Contracts see it as the bytes that are left and a script: the most bytes a call, the numbers of
/// the calls that fail, how many calls were made and how many of them failed. Both counts stand
/// still at `2^64 - 1`.
#[derive(Drop)]
pub struct MemSource {
    bytes: Bytes,
    at: usize,
    calls: Calls,
}

impl Model for MemSource {
    ghost use Rattle.std.specs.Prelude.{◌≤◌, ◌<◌, drop, length};
    ghost use Rattle.ax_base.specs.Sinks.{Scripted};

    ghost Value = { Scripted };

    ghost view = { λ s. record { bytes = drop s.at s.bytes; script = s.calls } };

    ghost invariant = { λ s. (s.at ≤ length s.bytes) × (0 < s.calls.most) };
}

impl MemSource {
    /// A source of these bytes, which gives at most `most` of them a call. The calls whose numbers,
    /// from 1, stand in `failing` fail. Condition: `most` is at least 1.
    pub fn new(bytes: Bytes, most: usize, failing: Nums) -> MemSource
        requires { 0 < most }
        ensures { result ≡ record { bytes = bytes; script = record { most = most; failing = failing; calls = 0; faults = 0; short = 0 } } }
    {
        MemSource {
            bytes,
            at: 0,
            calls: Calls::new(most, failing),
        }
    }
}

impl Source for MemSource {
    ghost left = { λ s. Some s.bytes };

    ghost faults = { λ s. s.script.faults };

    /// Gives as many bytes as `most`, the room and what is left allow. It fails exactly where the
    /// number of the call stands in the list of those that fail.
    fn read(&mut self, buf: &mut [u8]) -> Result<usize, Failed>
        requires { 0 < length buf.old }
        ensures bound { IfOk result (λ n. n ≤ length buf.old) }
        ensures taken { IfOk result (λ n. Consumes (Some self.old.bytes) (Some self.new.bytes) (take n buf.new)) }
        ensures rest { IfOk result (λ n. drop n buf.new ≡ drop n buf.old) }
        ensures end { IfOk result (λ n. n ≡ 0 → IsAtEnd (Some self.old.bytes)) }
        ensures kept { OnErr result (Keeps (Some self.old.bytes) (Some self.new.bytes)) }
        ensures count { ReadCount self.old.script.faults self.new.script.faults result }
        ensures by_script { ReadsBy self.old self.new (length buf.old) result }
    {
        if self.calls.begin() {
            return Err(Failed);
        }
        let n = give(&self.bytes.as_slice()[self.at..], buf, self.calls.most);
        self.at += n;
        Ok(n)
    }
}

/// A sink in memory that takes few bytes a call, and of which chosen calls fail.
///
/// Contracts see it as the bytes that it took and a script: the most bytes a call, the numbers of
/// the calls that fail, how many calls were made, how many of them failed, and how often memory was
/// short. The counts stand still at `2^64 - 1`.
#[derive(Drop)]
pub struct MemSink {
    bytes: Bytes,
    calls: Calls,
}

impl Model for MemSink {
    ghost use Rattle.std.specs.Prelude.{◌<◌};
    ghost use Rattle.ax_base.specs.Sinks.{Scripted};

    ghost Value = { Scripted };

    ghost view = { λ s. record { bytes = s.bytes; script = s.calls } };

    ghost invariant = { λ s. 0 < s.calls.most };
}

impl MemSink {
    /// A sink that took no bytes yet, and takes at most `most` of them a call. The calls whose
    /// numbers, from 1, stand in `failing` fail. Condition: `most` is at least 1.
    pub fn new(alloc: Global, most: usize, failing: Nums) -> MemSink
        requires { 0 < most }
        ensures { result ≡ record { bytes = []; script = record { most = most; failing = failing; calls = 0; faults = 0; short = 0 } } }
    {
        MemSink {
            bytes: Bytes::new(alloc),
            calls: Calls::new(most, failing),
        }
    }

    /// The bytes that it took, in order.
    pub fn bytes(&self) -> &[u8]
        ensures { result.now ≡ self.now.bytes }
    {
        self.bytes.as_slice()
    }
}

impl Sink for MemSink {
    ghost holds = { λ s. Some s.bytes };

    ghost counts = { λ s. counts_of s.script };

    ghost base = { λ s. 0 };

    /// Takes as many bytes as `most` and the piece allow. It fails exactly where the number of the
    /// call stands in the list of those that fail.
    fn write(&mut self, piece: &[u8]) -> Result<usize, SinkFault>
        requires { 0 < length piece.now }
        ensures some { IfOk result (λ n. 0 < n) }
        ensures bound { IfOk result (λ n. n ≤ length piece.now) }
        ensures taken { IfOk result (λ n. Appends (Some self.old.bytes) (Some self.new.bytes) (take n piece.now)) }
        ensures kept { OnErr result (Keeps (Some self.old.bytes) (Some self.new.bytes)) }
        ensures counts { WriteCounts (counts_of self.old.script) (counts_of self.new.script) result }
        ensures by_script { WritesBy self.old self.new piece.now result }
    {
        if self.calls.begin() {
            return Err(SinkFault::Failed);
        }
        let n = piece.len().min(self.calls.most);
        match self.bytes.extend_from_slice(&piece[..n]) {
            Ok(()) => Ok(n),
            Err(NoMemory) => {
                self.calls.short = self.calls.short.saturating_add(1);
                Err(SinkFault::NoMemory)
            }
        }
    }
}
