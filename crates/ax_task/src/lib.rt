//! The task: the program section, then the events, which run asynchronously over a controller and shards in one thread.
//!
//! - `config`: `Config`, how a run works.
//! - `end`: `End`, how it ends.
//! - `step`: `Step`, what a step did.
//! - `task`: `Task`, a run behind the program section, which goes by steps, and `run_task_alone`, a whole run.
//! - `laws`: for a reader of the clauses.
//!
//! Private modules: `section` and `stream` read the section and the events, `reading` holds the event that isn't taken yet;
//! `engine` is the controller with its shards, `exchange` sends them requests and takes replies, `block` makes the block of a
//! barrier; `driver` does one thing over both; `shard`, `shards` and `cells` hold and serve the states of keys; `line` writes.
#![tactic(auto)]

mod block;
mod cells;
pub mod config;
mod driver;
mod end;
mod engine;
mod exchange;
pub mod laws;
mod line;
mod read_fault;
mod reading;
mod section;
mod shard;
mod shards;
mod step;
mod stream;
mod task;

pub use ax_core::Settings;
pub use config::Config;
pub use end::End;
pub use step::Step;
pub use task::{Task, run_task_alone};
