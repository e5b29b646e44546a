//! How a controller works.

/// The mode, the shards and groups of keys, and how many contexts may be in flight.
#[derive(Clone, Copy, Debug, PartialEq, Eq)]
pub struct Settings {
    /// Whether nothing is admitted or closed while a marker waits to be sent: FLIP-425's strict order of epochs.
    pub serial: bool,
    /// How many shards hold the states, from 1 to `groups`.
    pub shards: u16,
    /// How many groups the keys fall into, from 1 to 32,768.
    pub groups: u16,
    /// How many contexts may be in flight, at most 65,536. At 0 nothing is admitted.
    pub in_flight: u32,
}
