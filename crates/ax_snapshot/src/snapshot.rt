//! What a snapshot holds.
use ax_base::{Duplicate, ListOf, NoMemory, Nums};
use ax_keys::Key;
use ax_state::KeyCells;
use std::alloc::Global;

/// What a key has: its states, and the times of its timers.
#[derive(Debug, Drop)]
pub struct KeySnap {
    pub key: Key,
    pub cells: KeyCells,
    /// The event times at which the key's timers are due. A block has a line for each of them in the order of this list, also
    /// where the states are empty; whoever makes a snapshot lists them rising, each once, as `Timers::times_of` gives them.
    pub timers: Nums,
}

/// What each of some keys has.
pub type KeySnaps = ListOf<KeySnap>;

/// A snapshot at a barrier: the barrier's ID, the greatest watermark before it, and what each key has.
#[derive(Debug, Drop)]
pub struct Snapshot {
    pub id: i64,
    pub wm: i64,
    pub keys: KeySnaps,
}

impl Duplicate for KeySnap {
    fn copy(&self, alloc: Global) -> Result<KeySnap, NoMemory> {
        Ok(KeySnap {
            key: self.key.copy(alloc)?,
            cells: self.cells.copy(alloc)?,
            timers: self.timers.copy(alloc)?,
        })
    }
}
