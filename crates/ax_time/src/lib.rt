//! Event timers, after Flink's InternalTimerService: one timer for a key and a time. Epochs, after Flink's EpochManager
//! (FLIP-425): each ends with a final action, and the actions are taken in order when the work is done.
//!
//! - `timers`: `Timers`, the timers of all keys, kept by key and by time.
//! - `timer`: `Timer`, one of them, and the list `TimerList`.
//! - `epochs`: `Epochs`, the current epoch and those before it whose final action isn't taken.
//! - `epoch`: `Marker`, the final action of an epoch, and `Closed`, what is kept of a closed epoch.
//! - `epoch_laws`: what holds of epochs over several calls.
//!
//! The private module `kept` has both orders, `held` what is held of one key, and `due` looks for the keys that are due.
#![tactic(auto)]

mod due;
pub mod epoch;
pub mod epoch_laws;
pub mod epochs;
mod held;
mod kept;
pub mod timer;
pub mod timers;

pub use ax_keys::Keys;
pub use epoch::Marker;
pub use epochs::Epochs;
pub use timer::{Timer, TimerList};
pub use timers::Timers;
