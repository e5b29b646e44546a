//! Requests that wait to be served: one queue for each shard, and one room for all of them. After
//! Flink's buffer of state requests (FLIP-425), of which this is the active part.
//!
//! - `items`: a request on its way, a list of them, and the replies that come back.
//! - `buffer`: `RequestBuffer`, the queues. Contracts see it as the lists of its queues and its room
//!   (`specs/Buffer.antt`).
//! - `chain`: a queue as it lies in the arena that all shards share (`specs/Chains.antt`).
#![tactic(auto)]

pub mod buffer;
mod chain;
pub mod items;

pub use buffer::RequestBuffer;
pub use items::{Batch, Item, Replies, Reply};
