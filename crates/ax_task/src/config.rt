//! How a run works.
use ax_core::Settings;

/// How a run works. None of it changes what a key's lines are.
#[derive(Clone, Copy, Debug, PartialEq, Eq)]
pub struct Config {
    /// The mode, the shards and groups of keys, and how many contexts may be in flight.
    pub settings: Settings,
    /// How many requests go to a shard at once, from 1 to 65,536.
    pub batch: u32,
}
