//! Requests on their way to a shard, and the replies that come back.

use ax_base::{Duplicate, ListOf, NoMemory};
use ax_context::Id;
use ax_keys::Key;
use ax_state::{Answer, Request};
use std::alloc::Global;

/// A request of a context, on its way to the shard that holds the states of its key.
#[derive(Debug, PartialEq, Eq, Drop)]
pub struct Item {
    /// The context that asks.
    pub id: Id,
    /// Which of the context's outstanding requests it is, from 0.
    pub slot: u8,
    /// The key whose states are asked.
    pub key: Key,
    /// What is asked.
    pub request: Request,
}

impl Duplicate for Item {
    fn copy(&self, alloc: Global) -> Result<Item, NoMemory> {
        Ok(Item {
            id: self.id,
            slot: self.slot,
            key: self.key.copy(alloc)?,
            request: self.request.copy(alloc)?,
        })
    }
}

/// The answer to an item, which bears the item's context and slot.
#[derive(Debug, PartialEq, Eq, Drop)]
pub struct Reply {
    /// The context that asked.
    pub id: Id,
    /// Which of the context's outstanding requests is answered, from 0.
    pub slot: u8,
    /// What was answered.
    pub answer: Answer,
}

impl Duplicate for Reply {
    fn copy(&self, alloc: Global) -> Result<Reply, NoMemory> {
        Ok(Reply {
            id: self.id,
            slot: self.slot,
            answer: self.answer.copy(alloc)?,
        })
    }
}

/// Items of one shard that are served together, in order.
pub type Batch = ListOf<Item>;

/// The replies to a batch, in the order of its items.
pub type Replies = ListOf<Reply>;
