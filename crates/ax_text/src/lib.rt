//! What a handler does on the states of one key, at once or as data that waits for answers: the definitions that every layer above cites.
//!
//! The definitions stand in `specs/`. Beside them stand the few plain types that they share with the code.
#![tactic(auto)]

pub mod examples;
pub mod laws;
pub mod vocabulary;

pub use vocabulary::{Answer, Atom, Handler, Keyword, Kind, Op, Request, TimerOp};
