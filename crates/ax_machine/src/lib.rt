//! What the plain thread writes, and which lists of entries are lawful: the definitions that the top call's clause cites.
//!
//! The definitions stand in `specs/`. The functions of `laws`, `lawful` and `examples` do nothing; their contracts are laws over the definitions.
#![tactic(auto)]

pub mod examples;
pub mod lawful;
pub mod laws;
pub mod watermark;

pub use watermark::first_watermark;
