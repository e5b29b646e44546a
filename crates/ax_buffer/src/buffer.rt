//! The queues of all shards.
ghost use Rattle.std.specs.Prelude.{◌≡◌, ◌+◌, ◌<◌, ◌≤◌, [], ◌∷◌, ◌++◌, length, take, drop, replicate, slice_set, IfOk, OnOk, OnErr};
ghost use Rattle.ax_buffer.specs.Buffer.{queue_of, total};
ghost use Rattle.ax_buffer.specs.Chains.{empty_chain};

use crate::chain::{Chain, Node, append, detach};
use crate::items::{Batch, Item};
use ax_base::NoMemory;
use slab::Slab;
use std::alloc::Global;
use std::marker::Model;

/// The requests that wait to be served, one queue for each shard. One room bounds all queues
/// together: it is taken when the buffer is made, and a push takes no memory. An item is moved and
/// never copied.
///
/// The items lie in one arena, and each queue is a chain of places in it. So a push takes the same
/// time whatever the buffer holds, and a batch takes time by its own items alone.
#[derive(Drop)]
pub struct RequestBuffer {
    nodes: Slab<Node>,
    chains: Vec<Chain>,
    room: u32,
}

impl Model for RequestBuffer {
    ghost use Rattle.ax_buffer.specs.Buffer.{Buffer};

    ghost Value = { Buffer };

    ghost use Rattle.ax_buffer.specs.Chains.{IsSound, shown_buffer};

    ghost view = { λ b. shown_buffer b.nodes b.chains.items b.room };

    ghost invariant = { λ b. IsSound b.nodes b.chains.items b.room };
}

impl RequestBuffer {
    /// A buffer of empty queues, for so many shards, with room for so many items in all queues
    /// together. The only fault is `NoMemory`.
    pub fn with_room(alloc: Global, shards: u16, room: u32) -> Result<RequestBuffer, NoMemory>
        ensures queues { IfOk result (λ buffer. buffer.queues ≡ replicate shards []) }
        ensures empty { IfOk result (λ buffer. total length buffer.queues ≡ 0) }
        ensures room { IfOk result (λ buffer. buffer.room ≡ room) }
    {
        let Ok(nodes) = Slab::with_capacity(alloc, room as usize) else {
            return Err(NoMemory);
        };
        Ok(RequestBuffer {
            nodes,
            chains: empty_chains(alloc, shards)?,
            room,
        })
    }

    /// Puts an item last in a shard's queue. It takes no memory. Conditions: `len() < room()`, and
    /// a shard below the number for which the buffer was made.
    pub fn push(&mut self, shard: u16, item: Item)
        requires shard { shard < length self.old.queues }
        requires room { total length self.old.queues < self.old.room }
        ensures queues { self.new.queues ≡ slice_set self.old.queues shard (queue_of self.old shard ++ item ∷ []) }
        ensures len { total length self.new.queues ≡ total length self.old.queues + 1 }
        ensures room { self.new.room ≡ self.old.room }
    {
        let longer = append(&mut self.nodes, &self.chains[shard as usize], item);
        self.chains[shard as usize] = longer;
    }

    /// How many items a shard's queue has. Condition: a shard below the number for which the buffer
    /// was made.
    pub fn active_len(&self, shard: u16) -> u32
        requires { shard < length self.now.queues }
        ensures { result ≡ length (queue_of self.now shard) }
    {
        self.chains[shard as usize].length
    }

    /// How many items all queues together have. It is never above `room()`.
    pub fn len(&self) -> u32
        ensures value { result ≡ total length self.now.queues }
        ensures within { result ≤ self.now.room }
    {
        self.nodes.len() as u32
    }

    /// How many items all queues together may have, as `with_room` was told.
    pub fn room(&self) -> u32
        ensures { result ≡ self.now.room }
    {
        self.room
    }

    /// Takes the first `max` items of a shard's queue, or all where it has fewer, in order.
    /// Condition: a shard below the number for which the buffer was made. At `NoMemory`, the only
    /// fault, nothing has changed.
    pub fn take_batch(&mut self, alloc: Global, shard: u16, max: u32) -> Result<Batch, NoMemory>
        requires { shard < length self.old.queues }
        ensures batch { IfOk result (λ batch. batch ≡ take max (queue_of self.old shard)) }
        ensures queues { OnOk result (self.new.queues ≡ slice_set self.old.queues shard (drop max (queue_of self.old shard))) }
        ensures len { IfOk result (λ batch. total length self.new.queues + length batch ≡ total length self.old.queues) }
        ensures room { self.new.room ≡ self.old.room }
        ensures err { OnErr result (self.new ≡ self.old) }
    {
        let many = self.active_len(shard).min(max);
        let Ok(mut items) = Vec::with_capacity(alloc, many as usize) else {
            return Err(NoMemory);
        };
        for _ in 0..many {
            items.push_reserved(self.take_first(shard));
        }
        Ok(Batch::from_vec(items))
    }

    // Takes the first item of a shard's queue. Condition: there is one.
    fn take_first(&mut self, shard: u16) -> Item
        requires { 0 < length (queue_of self.old shard) }
        ensures first { queue_of self.old shard ≡ result ∷ queue_of self.new shard }
        ensures queues { self.new.queues ≡ slice_set self.old.queues shard (queue_of self.new shard) }
        ensures len { total length self.new.queues + 1 ≡ total length self.old.queues }
        ensures room { self.new.room ≡ self.old.room }
    {
        let (item, shorter) = detach(&mut self.nodes, &self.chains[shard as usize]);
        self.chains[shard as usize] = shorter;
        item
    }
}

// An empty queue for each shard.
fn empty_chains(alloc: Global, shards: u16) -> Result<Vec<Chain>, NoMemory>
    ensures { IfOk result (λ chains. chains.items ≡ replicate shards empty_chain) }
{
    match vec![in alloc; Chain::EMPTY; shards as usize] {
        Ok(chains) => Ok(chains),
        Err(_) => Err(NoMemory),
    }
}
