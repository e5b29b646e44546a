//! What waits for a key, and what comes next at it.

use ax_context::Id;

/// What became of a row that came for a key.
#[derive(Clone, Copy, Debug, PartialEq, Eq)]
pub enum Occupied {
    /// It owns the key.
    Owner,
    /// It waits for the key.
    Waits,
}

/// What waits for a key.
#[derive(Clone, Copy, Debug, PartialEq, Eq)]
pub enum Waiting {
    /// A row, by its context.
    Row { id: Id },
    /// A watermark of this time that ended an epoch, and how many timers of the key it has fired.
    Mark { epoch: u64, time: i64, fired: u32 },
}

/// What comes next at a key.
#[derive(Clone, Copy, Debug, PartialEq, Eq)]
pub enum Next {
    /// A row, by its context.
    Row { id: Id },
    /// A watermark of this time that ended an epoch, and how many timers of the key it has fired.
    Mark { epoch: u64, time: i64, fired: u32 },
    /// Nothing waits.
    Free,
}
