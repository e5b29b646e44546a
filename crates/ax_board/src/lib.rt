//! A board of cells, through which a task hands work to its workers.
//!
//! Each cell has one word and one slot for work. The task posts work to a cell, a worker claims it, runs
//! it and gives it back, and the task collects it. No lock is taken: each call makes single atomic steps
//! on the words, and the word gives the right to the slot. So what the task collects has the job that it
//! posted, was run, and has its result, whatever the threads do in between, and each work comes back once.
//!
//! - `work`: `Work`, what is handed over.
//! - `board`: `Board`, the cells with a stop word and two bells.
//! - `task_side` and `work_side`: the calls of the task, and those of a worker.
//! - `seats` and `held`: `TaskSeat` and `WorkSeat`, with which these calls are made, and `Held`, work that
//!   a worker has claimed.
//! - `laws`: the rule of the board (`specs/Rule.antt`) holds after each kind of step, and over each run of
//!   such steps in any order. Such a run is one of the steps in `specs/Runs.antt`.
//! - `view`: what a seat knows, for proofs alone.
//!
//! Nothing is said of progress: not that a worker claims, that a thread wakes or that a wait ends.
#![tactic(auto)]

mod bells;
pub mod board;
pub mod held;
pub mod laws;
mod plays;
pub mod seats;
mod task_side;
#[cfg(test)]
mod tests;
pub mod view;
pub mod work;
mod work_side;

pub use board::Board;
pub use held::Held;
pub use seats::{TaskSeat, WorkSeat};
pub use view::{Deed, Note, View};
pub use work::Work;
