//! A timer, and lists of timers and of keys.
use ax_base::{Duplicate, ListOf, NoMemory};
use ax_keys::Key;
use std::alloc::Global;

/// A timer of a key: the event time at which it is due.
#[derive(Debug, PartialEq, Eq, Drop)]
pub struct Timer {
    pub key: Key,
    pub time: i64,
}

/// A list of timers.
pub type TimerList = ListOf<Timer>;

impl Duplicate for Timer {
    fn copy(&self, alloc: Global) -> Result<Timer, NoMemory> {
        Ok(Timer {
            key: self.key.copy(alloc)?,
            time: self.time,
        })
    }
}
