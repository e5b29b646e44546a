//! The plain thread: each event is finished before the next is looked at, on one map of what each key has.
//!
//! Only `PlainThread` is for the layer above, whose contract stands in `specs/Plain.antt`. The module `handler` runs a handler
//! on what one key has, `agenda` has the first timer of each key that may fire at a watermark, `firing` fires them, and `block`
//! writes the block of a barrier.
#![tactic(auto)]

mod agenda;
mod block;
mod firing;
mod handler;
pub mod plain;

pub use plain::PlainThread;
