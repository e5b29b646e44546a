//! The states of one key: what is declared, what is held, and what a request does to it.
#![tactic(auto)]

pub mod cells;
pub mod decls;
pub mod laws;

pub use ax_text::{Answer, Kind, Request};
pub use cells::KeyCells;
pub use decls::{Decl, Decls, fits};
