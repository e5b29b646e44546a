//! What a callback did.

use ax_future::Outs;
use ax_keys::Key;

/// A timer that fires: a new context, whose start mail is posted.
#[derive(Drop)]
pub struct Fired {
    /// The number of the new context.
    pub context: u64,
    pub key: Key,
    /// The event time of the timer.
    pub time: i64,
    /// The watermark at which the key fires.
    pub mark: i64,
}

/// The callback that ran, by the number of its context.
#[derive(Clone, Copy, Debug, PartialEq, Eq)]
pub enum Ran {
    /// The handler began.
    Start { context: u64 },
    /// It was given the answer that it waited for at this slot.
    Reply { context: u64, slot: u8 },
}

/// What a callback did.
#[derive(Drop)]
pub struct Effects {
    pub key: Key,
    pub ran: Ran,
    /// The lines that it wrote, in order.
    pub outs: Outs,
    /// Whether its context was given up: the handler has ended.
    pub gone: bool,
    /// The next timer of the key, where the mark in front fires one.
    pub fired: Option<Fired>,
}
