//! What is held of a context.

use ax_context::Id;
use ax_future::{Facts, Handler, Machine};

/// What a context runs, and where its handler stands once it has begun.
#[derive(Drop)]
pub struct Record {
    pub facts: Facts,
    pub handler: Handler,
    pub machine: Option<Machine>,
}

/// A request that is out, by the context that asked and the slot that waits.
#[derive(Clone, Copy, Debug, PartialEq, Eq)]
pub struct Name {
    pub id: Id,
    pub slot: u8,
}
