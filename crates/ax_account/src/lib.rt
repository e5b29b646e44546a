//! Accounts of the keys: which record in flight owns a key, and what waits for the key, after
//! Flink's `KeyAccountingUnit` (FLIP-425), which lets one record of a key run at a time.
//!
//! - `part`: what waits for a key, and what comes next at it.
//! - `accounting`: `Accounting`, the accounts of all keys. Contracts see, for each key, an owner or
//!   none and a list of waiting rows and marks, beside the list of idle keys, which nobody owns and
//!   whose mark in front waits to be fired.
//! - `laws`: what holds of the accounts at every moment.
//!
//! The private modules `entry` and `idle` hold what is kept of one key, and a list of distinct keys
//! that a key can leave from anywhere.
#![tactic(auto)]

pub mod accounting;
mod entry;
mod idle;
pub mod laws;
pub mod part;

pub use accounting::Accounting;
pub use ax_keys::{Keys, MOST_FIRINGS};
pub use part::{Next, Occupied, Waiting};
