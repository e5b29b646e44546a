//! Handlers as data: where a handler stands, and how it goes on.
//!
//! A `Machine` is a handler on its way. `start` runs it until each live arm waits for an answer or has ended, and
//! `resume` gives one answer and runs on. What it has left to do is a `Node`, which `then`, `compose` and `combine` put
//! together: the state futures of Flink (FLIP-424) as data.
//!
//! - `callback`: what a callback knows, asks and says.
//! - `node` and `nodes`: where a handler stands, and the three ways to put nodes together.
//! - `going`, `moves` and `begin`: statements, one step, and all steps until it waits.
//! - `answers` and `machine`: how an answer is taken.
#![tactic(auto)]

mod answers;
mod begin;
mod callback;
mod fresh;
mod going;
pub mod laws;
mod least;
mod machine;
mod moves;
mod node;
mod nodes;

pub use ax_text::{Handler, TimerOp};
pub use callback::{Ask, Asks, Facts, Known, Outs, TimerOps, Turn};
pub use machine::Machine;
pub use node::{Assign, Cursor, Frame, Next, Node, Repeat};
pub use nodes::{combine, compose, then};
