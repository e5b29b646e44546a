//! The shards of a task that serves them itself: each is home, or out with a batch until the batch is served.
ghost use Rattle.std.specs.Prelude.{◌≡◌, ◌≢◌, ◌<◌, ◌↔◌, ◌++◌, ◌∷◌, [], ℕ, List, IsTrue, IfOk, IfSome, IfNone, MatchOption, replicate, drop};
ghost use Rattle.ax_text.specs.Functions.{upd};
ghost use Rattle.ax_machine.specs.Entries.{Key as KeyBytes};
ghost use Rattle.ax_text.specs.Programs.{untouched};
ghost use Rattle.ax_state.specs.Decls.{kinds};
ghost use Rattle.ax_task.specs.Serving.{AllFit};
ghost use Rattle.ax_task.specs.Shards.{shard_count, held, out, Stays, Came, IsNext, place_in, nothing_held};

use crate::shard::Shard;
use ax_base::{Duplicate, NoMemory, Nums};
use ax_buffer::{Batch, Replies};
use ax_state::Decls;
use std::alloc::Global;
use std::collections::VecDeque;
use std::marker::Model;
use std::mem;

/// A batch that came back: its shard, and the replies in the order of its items.
#[derive(Drop)]
pub struct Back {
    pub shard: u16,
    pub replies: Result<Replies, NoMemory>,
}

/// Shards that serve batches when they are asked for one. Which of the batches that are out is served next is told by a list of
/// numbers.
#[derive(Drop)]
pub struct Shards {
    pub(crate) alloc: Global,
    pub(crate) decls: Decls,
    pub(crate) shards: Vec<Shard>,
    // The batch that each shard is out with, empty where it is home.
    batches: Vec<Batch>,
    // The shards that are out, in order of sending. It has room for all.
    sent: Vec<u16>,
    // The numbers that are left.
    order: VecDeque<i64>,
}

impl Model for Shards {
    ghost use Rattle.std.specs.Prelude.{◌≤◌, length, vec_capacity};
    ghost use Rattle.ax_state.specs.Decls.{kinds};
    ghost use Rattle.ax_task.specs.Shards.{Serving, AreSound};

    ghost Value = { Serving };

    ghost view = { λ s. record { kinds = kinds s.decls; shards = s.shards.items; batches = s.batches.items; sent = s.sent.items; order = s.order.items } };

    ghost invariant = { λ s. (AreSound (record { kinds = kinds s.decls; shards = s.shards.items; batches = s.batches.items; sent = s.sent.items; order = s.order.items })) × (length s.shards.items ≤ vec_capacity s.sent) };
}

impl Shards {
    /// So many shards, all home, whose keys were never touched. By `order` the batches are chosen that `poll` serves. It takes
    /// all memory that it needs for sending. The only fault is `NoMemory`.
    pub fn new(alloc: Global, count: u16, decls: &Decls, order: Nums) -> Result<Shards, NoMemory>
        ensures count { IfOk result (λ it. shard_count it ≡ count) }
        ensures kinds { IfOk result (λ it. it.kinds ≡ kinds decls.now) }
        ensures home { IfOk result (λ it. (s : ℕ) → out it s ≡ []) }
        ensures untouched { IfOk result (λ it. (s : ℕ) (k : KeyBytes) → held it s k ≡ untouched (kinds decls.now)) }
        ensures sent { IfOk result (λ it. it.sent ≡ []) }
        ensures order { IfOk result (λ it. it.order ≡ order) }
    {
        let Ok(sent) = Vec::with_capacity(alloc, usize::from(count)) else {
            return Err(NoMemory);
        };
        Ok(Shards {
            alloc,
            decls: decls.copy(alloc)?,
            shards: new_shards(alloc, count, decls)?,
            batches: no_batches(alloc, count)?,
            sent,
            order: VecDeque::from_vec(order.into_vec()),
        })
    }

    /// Whether a shard is home. Condition: it is one of the shards.
    pub fn is_home(&self, shard: u16) -> bool
        requires { shard < shard_count self.now }
        ensures { IsTrue result ↔ (out self.now shard ≡ []) }
    {
        self.batches[usize::from(shard)].is_empty()
    }

    /// Sends a batch to a shard, which is out with it until `poll` gives its replies. It takes no memory.
    ///
    /// Conditions: the shard is home, the batch isn't empty, and each of its requests fits the declared states.
    pub fn send(&mut self, shard: u16, batch: Batch)
        requires shard { shard < shard_count self.old }
        requires home { out self.old shard ≡ [] }
        requires some { batch ≢ [] }
        requires fit { AllFit self.old.kinds batch }
        ensures count { shard_count self.new ≡ shard_count self.old }
        ensures kinds { self.new.kinds ≡ self.old.kinds }
        ensures out { (s : ℕ) → out self.new s ≡ upd (out self.old) shard batch s }
        ensures held { (s : ℕ) → held self.new s ≡ held self.old s }
        ensures sent { self.new.sent ≡ self.old.sent ++ shard ∷ [] }
        ensures order { self.new.order ≡ self.old.order }
    {
        self.batches[usize::from(shard)] = batch;
        self.sent.push_reserved(shard);
    }

    /// Serves a batch that is out, and gives its replies. `None` exactly where nothing is out. Which batch it is, is told by the
    /// low 63 bits of the next number of the list, or by 0 where the list is used up: modulo the number of batches that are out
    /// it is the place of the batch in order of sending, from 0.
    ///
    /// The shard is then home. Where `NoMemory` came in place of replies, the first requests of the batch were served, and the
    /// others not.
    pub fn poll(&mut self) -> Option<Back>
        ensures count { shard_count self.new ≡ shard_count self.old }
        ensures kinds { self.new.kinds ≡ self.old.kinds }
        ensures gives { MatchOption result (Stays (out self.old) (out self.new) (held self.old) (held self.new)) (λ back. Came (shard_count self.old) (out self.old) (out self.new) (held self.old) (held self.new) back.shard back.replies) }
        ensures none { IfNone result ((s : ℕ) → out self.new s ≡ []) }
        ensures still { IfNone result (self.new ≡ self.old) }
        ensures next { IfSome result (λ back. IsNext self.old self.new back.shard) }
    {
        if self.sent.is_empty() {
            return None;
        }
        let place = next_place(&mut self.order, self.sent.len());
        let shard = self.sent.remove(place);
        let at = usize::from(shard);
        let batch = mem::replace(&mut self.batches[at], Batch::new(self.alloc));
        let replies = self.shards[at].serve(&batch);
        Some(Back { shard, replies })
    }
}

// Shards whose keys were never touched.
fn new_shards(alloc: Global, count: u16, decls: &Decls) -> Result<Vec<Shard>, NoMemory>
    ensures { IfOk result (λ shards. shards.items ≡ replicate count (nothing_held (kinds decls.now))) }
{
    let mut shards = Vec::new(alloc);
    for _ in 0..count {
        let Ok(()) = shards.push(Shard::new(alloc, decls)?) else {
            return Err(NoMemory);
        };
    }
    Ok(shards)
}

// No batch for any shard.
fn no_batches(alloc: Global, count: u16) -> Result<Vec<Batch>, NoMemory>
    ensures { IfOk result (λ batches. batches.items ≡ replicate count []) }
{
    let mut batches = Vec::new(alloc);
    for _ in 0..count {
        let Ok(()) = batches.push(Batch::new(alloc)) else {
            return Err(NoMemory);
        };
    }
    Ok(batches)
}

// Which of so many batches is served next. Its number is used up.
fn next_place(order: &mut VecDeque<i64>, count: usize) -> usize
    requires { 0 < count }
    ensures place { result ≡ place_in order.old.items count }
    ensures small { result < count }
    ensures rest { order.new.items ≡ drop 1 order.old.items }
{
    let choice = match order.pop_front() {
        Some(number) => number.cast_unsigned() % (1 << 63),
        None => 0,
    };
    choice as usize % count
}
