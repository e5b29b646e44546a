//! Contexts of records in flight, counted by reference.
//!
//! - `id`: `Id`, the name of a context.
//! - `contexts`: `Contexts`, which makes contexts, counts their references and gives them up at zero.
//! - `laws`: what holds of all contexts at every moment.
//!
//! Written after Flink's `RecordContext` and its reference count in the `AsyncExecutionController`
//! (FLIP-425).
#![tactic(auto)]

pub mod contexts;
pub mod id;
pub mod laws;

pub use contexts::{Contexts, Released};
pub use id::Id;
