//! The run store: a map from bytes to bytes in layers, after log-structured merge trees.
//!
//! - `run_store`: `RunStore`, which contracts see as a finite map (`specs/Held.antt`).
//! - `cell`: what a scan gives.
//!
//! The private modules have the layers. An entry is a key and what became of it, a value or a delete.
//! The memtable has the newest entries, which are changed in place. Runs are sorted and never changed.
//! Their keys have their first bytes as numbers beside them (`key`).
//! `specs/Layers.antt` says which map the layers stand for: their entries, replayed from the oldest.
#![tactic(auto)]

pub mod cell;
mod change;
mod key;
mod layers;
mod memtable;
mod merge;
mod run;
pub mod run_store;

pub use cell::{Cell, Cells};
pub use run_store::RunStore;
