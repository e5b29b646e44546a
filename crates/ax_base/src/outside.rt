//! Where bytes come from and where they go.
ghost use Rattle.std.specs.Prelude.{◌≡◌, ◌≤◌, ◌<◌, ℕ, List, Option, length, take, drop, IfOk, OnOk, OnErr};
ghost use Rattle.std.specs.Io.KnownBytes.{Consumes, Appends, Keeps, IsAtEnd};
ghost use Rattle.ax_base.specs.Outside.{ReadCount, Counts, WriteCounts, AppendsPart};

use thiserror::Error;

/// Want of memory. It may come at any call that can answer it, and the value that the call was to
/// change is as before, unless the call says otherwise.
#[derive(Clone, Copy, Debug, PartialEq, Eq, Error)]
#[error("memory was short")]
pub struct NoMemory;

/// A source could not be read. The bytes still to come are as before.
#[derive(Clone, Copy, Debug, PartialEq, Eq, Error)]
#[error("the input could not be read")]
pub struct Failed;

/// Why a sink took nothing. What it took before stays as it was.
#[derive(Clone, Copy, Debug, PartialEq, Eq, Error)]
pub enum SinkFault {
    /// It could not be written to.
    #[error("the output could not be written")]
    Failed,
    /// Memory was short.
    #[error("memory was short")]
    NoMemory,
}

/// Where bytes come from.
pub trait Source {
    /// The bytes still to come, where it tells them.
    ghost left: { Self → Option (List ℕ) };

    /// How often a read failed.
    ghost faults: { Self → ℕ };

    /// Reads at least one byte into the front of `buf`, and says how many; the rest of `buf` is
    /// unchanged. `Ok(0)` is the end. Condition: `buf` is not empty.
    ///
    /// A failure raises `faults` by one, or finds it at the end of its type, and nothing else changes it; after a failure the
    /// bytes still to come are as before.
    fn read(&mut self, buf: &mut [u8]) -> Result<usize, Failed>
        requires { 0 < length buf.old }
        ensures bound { IfOk result (λ n. n ≤ length buf.old) }
        ensures taken { IfOk result (λ n. Consumes (left self.old) (left self.new) (take n buf.new)) }
        ensures rest { IfOk result (λ n. drop n buf.new ≡ drop n buf.old) }
        ensures end { IfOk result (λ n. n ≡ 0 → IsAtEnd (left self.old)) }
        ensures kept { OnErr result (Keeps (left self.old) (left self.new)) }
        ensures count { ReadCount (faults self.old) (faults self.new) result };
}

/// Where bytes go.
pub trait Sink {
    /// The bytes taken so far, where it tells them.
    ghost holds: { Self → Option (List ℕ) };

    /// How often a write failed, and how often memory was short.
    ghost counts: { Self → Counts };

    /// By which name a sink that hands on to another one knows it. It never changes, so that whoever lent the other sink knows that it is still that one.
    ghost base: { Self → ℕ };

    /// Takes at least one byte from the front of `piece`, and says how many. Condition: `piece` is
    /// not empty.
    ///
    /// `Failed` raises the count of failures by one, `NoMemory` that of want of memory, or finds it at the end of its type; nothing
    /// else changes a count. After either nothing was taken.
    fn write(&mut self, piece: &[u8]) -> Result<usize, SinkFault>
        requires { 0 < length piece.now }
        ensures some { IfOk result (λ n. 0 < n) }
        ensures bound { IfOk result (λ n. n ≤ length piece.now) }
        ensures taken { IfOk result (λ n. Appends (holds self.old) (holds self.new) (take n piece.now)) }
        ensures kept { OnErr result (Keeps (holds self.old) (holds self.new)) }
        ensures counts { WriteCounts (counts self.old) (counts self.new) result }
        ensures base { base self.new ≡ base self.old };
}

/// Writes all of the bytes, in as many writes as it needs. It takes no memory of its own.
///
/// After a fault of the sink, which it hands on, the sink took a proper prefix of the bytes.
pub fn write_all<K: Sink>(out: &mut K, bytes: &[u8]) -> Result<(), SinkFault>
    ensures all { OnOk result (Appends (K.holds out.old) (K.holds out.new) bytes.now) }
    ensures part { OnErr result (AppendsPart (K.holds out.old) (K.holds out.new) bytes.now) }
    ensures counts { WriteCounts (K.counts out.old) (K.counts out.new) result }
    ensures base { K.base out.new ≡ K.base out.old }
{
    let mut done = 0;
    while done < bytes.len() {
        done += out.write(&bytes[done..])?;
    }
    Ok(())
}
