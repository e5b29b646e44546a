//! Keys, the groups they fall into, and the parts into which the groups are cut.
//!
//! - `key`: `Key`, 1 to 256 printing bytes that are no space, ordered by bytes.
//! - `groups`: the group of a key, the part of a group, and the range of groups of a part. The
//!   formulas stand in `specs/Groups.antt`.
//! - `laws`: each group lies in the range of its own part alone, and the ranges have no gap.
//!
//! The private module `key_bytes` holds the bytes of a key.
#![tactic(auto)]

pub mod groups;
pub mod key;
mod key_bytes;
pub mod laws;

pub use groups::{group, index_of_group, range_of_index, spread};
pub use key::{Key, Keys};

/// How often a key may fire at one watermark.
pub const MOST_FIRINGS: u32 = 65_536;
