//! A sink that gathers bytes, and hands them on to another one in large pieces.
ghost use Rattle.std.specs.Prelude.{◌≡◌, ◌≤◌, ◌<◌, ◌+◌, ◌++◌, ℕ, List, Option, None, [], IfOk, OnOk, OnErr, length, take, drop, min};
ghost use Rattle.std.specs.Io.KnownBytes.{Appends, Keeps, append_known};
ghost use Rattle.ax_base.specs.Outside.{WriteCounts};
ghost use Rattle.ax_base.specs.Gathered.{Begins, Extends, Moves};

use crate::outside::{NoMemory, Sink, SinkFault};
use std::alloc::Global;
use std::marker::{Brand, Model, PhantomData};

/// How many bytes are gathered at most.
pub const ROOM: usize = 65536;

/// What a sink was when gathering for it began: values for contracts alone, which the caller picks.
pub trait Begun {
    /// What it held, where it tells that.
    ghost held: { Option (List ℕ) };

    /// Its `base`.
    ghost base: { ℕ };
}

impl Begun for Brand {
    ghost held = { None };

    ghost base = { 0 };
}

/// Room for 65,536 bytes, which is taken once.
///
/// Contracts see it as the bytes that were gathered and not yet handed on.
#[derive(Drop)]
pub struct Room {
    bytes: Vec<u8>,
    from: usize,
    to: usize,
}

impl Model for Room {
    ghost use Rattle.std.specs.Prelude.{List, ℕ, ◌≡◌, ◌≤◌, ◌-◌, take, drop, vec_len};

    ghost Value = { List ℕ };

    ghost view = { λ r. take (r.to - r.from) (drop r.from r.bytes.items) };

    ghost invariant = { λ r. (r.from ≤ r.to) × (r.to ≤ 65536) × (vec_len r.bytes ≡ 65536) };
}

impl Room {
    /// A room that holds nothing. It takes its memory here, and `NoMemory` is its only fault.
    pub fn new(alloc: Global) -> Result<Room, NoMemory>
        ensures { IfOk result (λ r. r ≡ []) }
    {
        match vec![in alloc; 0u8; ROOM] {
            Ok(bytes) => Ok(Room {
                bytes,
                from: 0,
                to: 0,
            }),
            Err(_) => Err(NoMemory),
        }
    }

    fn as_slice(&self) -> &[u8]
        ensures { result.now ≡ self.now }
    {
        &self.bytes[self.from..self.to]
    }

    fn pass(&mut self, n: usize)
        requires { n ≤ length self.old }
        ensures { self.new ≡ drop n self.old }
    {
        self.from += n;
    }

    fn clear(&mut self)
        ensures { self.new ≡ [] }
    {
        self.from = 0;
        self.to = 0;
    }

    // Gathers as many bytes from the front of a piece as there is room for.
    fn gather(&mut self, piece: &[u8]) -> usize
        ensures bound { result ≤ length piece.now }
        ensures held { self.new ≡ self.old ++ take result piece.now }
        ensures some { self.old ≡ [] → 0 < length piece.now → 0 < result }
    {
        if self.from == self.to {
            self.from = 0;
            self.to = 0;
        }
        let n = put(&mut self.bytes, self.to, piece);
        self.to += n;
        n
    }
}

// Copies bytes from the front of a piece to a place, as many as there is room for behind it.
fn put(bytes: &mut [u8], to: usize, piece: &[u8]) -> usize
    requires { to ≤ length bytes.old }
    ensures bound { result ≤ length piece.now }
    ensures room { to + result ≤ length bytes.old }
    ensures some { to < length bytes.old → 0 < length piece.now → 0 < result }
    ensures put { take (to + result) bytes.new ≡ take to bytes.old ++ take result piece.now }
{
    let n = piece.len().min(bytes.len() - to);
    bytes[to..to + n].copy_from_slice(&piece[..n]);
    n
}

// Hands on what was gathered, from its front. After a fault the rest is held still.
fn hand_on<K: Sink>(room: &mut Room, out: &mut K) -> Result<(), SinkFault>
    ensures empty { OnOk result (room.new ≡ []) }
    ensures moved { Moves (K.holds out.old) (K.holds out.new) room.old room.new }
    ensures counts { WriteCounts (K.counts out.old) (K.counts out.new) result }
    ensures base { K.base out.new ≡ K.base out.old }
{
    while !room.as_slice().is_empty() {
        let n = out.write(room.as_slice())?;
        room.pass(n);
    }
    Ok(())
}

// Gathers bytes from the front of a piece. Where there is no room, what was gathered goes first.
fn take_in<K: Sink>(room: &mut Room, out: &mut K, piece: &[u8]) -> Result<usize, SinkFault>
    requires { 0 < length piece.now }
    ensures some { IfOk result (λ n. 0 < n) }
    ensures bound { IfOk result (λ n. n ≤ length piece.now) }
    ensures taken { IfOk result (λ n. Appends (append_known (K.holds out.old) room.old) (append_known (K.holds out.new) room.new) (take n piece.now)) }
    ensures kept { OnErr result (Keeps (append_known (K.holds out.old) room.old) (append_known (K.holds out.new) room.new)) }
    ensures extended { Extends (K.holds out.old) (K.holds out.new) }
    ensures counts { WriteCounts (K.counts out.old) (K.counts out.new) result }
    ensures base { K.base out.new ≡ K.base out.old }
{
    let n = room.gather(piece);
    if n > 0 {
        return Ok(n);
    }
    hand_on(room, out)?;
    Ok(room.gather(piece))
}

/// A sink that gathers bytes for another one, and writes to it only where 65,536 bytes are
/// gathered, and at `flush`. It takes no memory.
///
/// It holds what the inner sink holds and what is gathered. After a fault of the inner sink what
/// was not handed on is gathered still, and the next write that finds no room tries again.
///
/// What the inner sink held when gathering began stands at the front of what it holds.
#[derive(Drop)]
pub struct Gather<'a, K: Sink, B: Begun> {
    /// The sink to which bytes go.
    pub inner: &'a mut K,
    /// What is gathered.
    pub room: &'a mut Room,
    of: PhantomData<B>,
    ghost begun: { Begins B.held (K.holds inner.now) },
    ghost based: { K.base inner.now ≡ B.base },
}

impl<'a, K: Sink, B: Begun> Gather<'a, K, B> {
    /// Begins to gather for this sink. Conditions, for contracts alone: `held` of `B` is what the
    /// sink holds now, and `base` of `B` its base. What the room held is forgotten.
    pub fn new(room: &'a mut Room, inner: &'a mut K) -> Gather<'a, K, B>
        requires held { K.holds inner.now ≡ B.held }
        requires base { K.base inner.now ≡ B.base }
        ensures same { result.inner.ghost_name ≡ inner.entry.ghost_name }
        ensures now { result.inner.now ≡ inner.old }
        ensures empty { result.room.now ≡ [] }
    {
        room.clear();
        Gather {
            inner,
            room,
            of: PhantomData,
        }
    }

    /// Hands on what is gathered. After a fault the rest is gathered still.
    pub fn flush(&mut self) -> Result<(), SinkFault>
        ensures empty { OnOk result (self.new.room.now ≡ []) }
        ensures holds { Keeps (append_known (K.holds self.old.inner.now) self.old.room.now) (append_known (K.holds self.new.inner.now) self.new.room.now) }
        ensures counts { WriteCounts (K.counts self.old.inner.now) (K.counts self.new.inner.now) result }
        ensures same { self.new.inner.ghost_name ≡ self.old.inner.ghost_name }
    {
        hand_on(self.room, self.inner)
    }
}

impl<'a, K: Sink, B: Begun> Sink for Gather<'a, K, B> {
    ghost holds = { λ s. append_known (K.holds s.inner.now) s.room.now };

    ghost counts = { λ s. K.counts s.inner.now };

    ghost base = { λ s. s.inner.ghost_name };

    fn write(&mut self, piece: &[u8]) -> Result<usize, SinkFault> {
        take_in(self.room, self.inner, piece)
    }
}
