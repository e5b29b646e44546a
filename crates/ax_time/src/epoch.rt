//! The final action of an epoch, and what is kept of an epoch until that action is taken.

/// The final action of an epoch.
#[derive(Clone, Copy, Debug, PartialEq, Eq)]
pub enum Marker {
    /// A watermark of this event time, in milliseconds, goes on.
    Mark { time: i64 },
    /// The snapshot of the barrier with this number is written.
    Barrier { id: i64 },
}

/// A closed epoch: its final action, and how much of its work is left.
#[derive(Debug, Drop)]
pub struct Closed {
    pub marker: Marker,
    pub count: u64,
}
