//! Bytes that were read and not yet given.
ghost use Rattle.std.specs.Prelude.{◌≡◌, ◌+◌, ◌-◌, ◌≤◌, ◌<◌, [], ◌++◌, length, drop, take, IfOk, OnErr};
ghost use Rattle.std.specs.Io.KnownBytes.{Consumes, Keeps, IsAtEnd};
ghost use Rattle.ax_base.specs.Outside.{ReadCount};

use crate::{Failed, NoMemory, Source};
use std::alloc::Global;
use std::marker::Model;

/// How many bytes one read asks for at most.
pub const PIECE: usize = 65536;

/// Bytes that were read and not yet given. There is room for two pieces.
#[derive(Drop)]
pub struct Window {
    bytes: Vec<u8>,
    from: usize,
    to: usize,
}

impl Model for Window {
    ghost use Rattle.std.specs.Prelude.{List, ℕ, ◌≡◌, ◌≤◌, ◌-◌, take, drop, vec_len};

    ghost Value = { List ℕ };

    ghost view = { λ w. take (w.to - w.from) (drop w.from w.bytes.items) };

    ghost invariant = { λ w. (w.from ≤ w.to) × (w.to ≤ 131072) × (vec_len w.bytes ≡ 131072) };
}

impl Window {
    /// A window that holds nothing.
    pub fn new(alloc: Global) -> Result<Window, NoMemory>
        ensures { IfOk result (λ w. w ≡ []) }
    {
        match vec![in alloc; 0u8; 131072] {
            Ok(bytes) => Ok(Window {
                bytes,
                from: 0,
                to: 0,
            }),
            Err(_) => Err(NoMemory),
        }
    }

    /// The bytes that it holds.
    pub fn as_slice(&self) -> &[u8]
        ensures value { result.now ≡ self.now }
        ensures small { length self.now ≤ 131072 }
    {
        &self.bytes[self.from..self.to]
    }

    /// Takes `n` bytes off the front. Condition: it holds as many.
    pub fn pass(&mut self, n: usize)
        requires { n ≤ length self.old }
        ensures { self.new ≡ drop n self.old }
    {
        self.from += n;
    }

    /// Reads at most `ask` bytes more, in one read, and says how many came. Conditions: `ask` is not
    /// 0, and there is room. After `Failed` it holds what it held.
    pub fn fill<S: Source>(&mut self, input: &mut S, ask: usize) -> Result<usize, Failed>
        requires some { 0 < ask }
        requires room { length self.old + ask ≤ 131072 }
        ensures grown { IfOk result (λ n. self.new ≡ self.old ++ drop (length self.old) self.new) }
        ensures size { IfOk result (λ n. length self.new ≡ length self.old + n) }
        ensures bound { IfOk result (λ n. n ≤ ask) }
        ensures taken { IfOk result (λ n. Consumes (S.left input.old) (S.left input.new) (drop (length self.old) self.new)) }
        ensures end { IfOk result (λ n. n ≡ 0 → IsAtEnd (S.left input.old)) }
        ensures err { OnErr result (self.new ≡ self.old) }
        ensures kept { OnErr result (Keeps (S.left input.old) (S.left input.new)) }
        ensures count { ReadCount (S.faults input.old) (S.faults input.new) result }
    {
        let held = self.to - self.from;
        let from = self.from;
        let to = self.to;
        self.from = 0;
        self.to = held;
        let n = refill(input, &mut self.bytes, from, to, ask)?;
        self.to = held + n;
        Ok(n)
    }
}

// Moves what lies between two places to the front, and reads behind it.
fn refill<S: Source>(
    input: &mut S,
    bytes: &mut [u8],
    from: usize,
    to: usize,
    ask: usize,
) -> Result<usize, Failed>
    requires some { 0 < ask }
    requires ordered { from ≤ to }
    requires within { to ≤ length bytes.old }
    requires room { to - from + ask ≤ length bytes.old }
    ensures front { take (to - from) bytes.new ≡ take (to - from) (drop from bytes.old) }
    ensures bound { IfOk result (λ n. n ≤ ask) }
    ensures taken { IfOk result (λ n. Consumes (S.left input.old) (S.left input.new) (take n (drop (to - from) bytes.new))) }
    ensures end { IfOk result (λ n. n ≡ 0 → IsAtEnd (S.left input.old)) }
    ensures kept { OnErr result (Keeps (S.left input.old) (S.left input.new)) }
    ensures count { ReadCount (S.faults input.old) (S.faults input.new) result }
{
    let held = to - from;
    bytes.copy_within(from..to, 0);
    input.read(&mut bytes[held..held + ask])
}
