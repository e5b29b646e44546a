//! What a callback knows, and what it leaves.
ghost use Rattle.std.specs.Prelude.{◌≡◌, []};
ghost use Rattle.ax_future.specs.Talks.{facts_in, known_in};

use ax_base::{ListOf, Nums};
use ax_keys::Key;
use ax_text::{Request, TimerOp};
use std::alloc::Global;

/// What a handler knows besides the states of its key.
#[derive(Drop)]
pub struct Facts {
    /// The key of the row or of the timer.
    pub key: Key,
    /// The time of the row or of the timer.
    pub time: i64,
    /// The greatest watermark before the row, or the one that fires.
    pub wm: i64,
    /// The values of the row, and none for a timer. A value that is absent counts as 0.
    pub values: Nums,
}

/// What the statements of a handler may speak of besides its states: those parts of `Facts`, borrowed.
#[derive(Clone, Copy)]
pub struct Known<'a> {
    /// The time of the row or of the timer.
    pub time: i64,
    /// The greatest watermark before the row, or the one that fires.
    pub wm: i64,
    /// The values of the row, and none for a timer. A value that is absent counts as 0.
    pub values: &'a [i64],
}

impl Facts {
    /// What the statements may speak of.
    pub fn known(&self) -> Known<'_>
        ensures { known_in result ≡ facts_in self.now }
    {
        Known {
            time: self.time,
            wm: self.wm,
            values: self.values.as_slice(),
        }
    }
}

/// A request that goes out, and the slot that waits for its answer.
#[derive(Drop)]
pub struct Ask {
    /// The least slot that was free, from 0 to 15.
    pub slot: u8,
    pub request: Request,
}

/// Requests, in order.
pub type Asks = ListOf<Ask>;

/// The numbers of output lines, in order.
pub type Outs = ListOf<Nums>;

/// What was done to the key's timers, in order.
pub type TimerOps = ListOf<TimerOp>;

/// What a callback asked, wrote and did to its key's timers.
#[derive(Drop)]
pub struct Turn {
    /// Its requests, with rising slots.
    pub asks: Asks,
    pub outs: Outs,
    pub timer_ops: TimerOps,
}

impl Turn {
    /// A turn that says nothing. It takes no memory before a callback fills it.
    pub fn new(alloc: Global) -> Turn
        ensures { result ≡ record { asks = []; outs = []; timer_ops = [] } }
    {
        Turn {
            asks: ListOf::new(alloc),
            outs: ListOf::new(alloc),
            timer_ops: ListOf::new(alloc),
        }
    }
}
