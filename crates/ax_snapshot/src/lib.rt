//! Snapshot blocks: what each key has at a barrier, as lines.
//!
//! - `snapshot`: `Snapshot`, and `KeySnap`, what one key has.
//! - `write`: `write_snapshot`, the block as text.
//!
//! The private module `place` orders the keys by key group and then by their bytes, and `block` puts line behind line.
#![tactic(auto)]

mod block;
mod place;
pub mod snapshot;
pub mod write;

pub use snapshot::{KeySnap, KeySnaps, Snapshot};
pub use write::write_snapshot;
