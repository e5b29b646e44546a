//! The service of states over a run store. So far it has the keys of cells.
//!
//! - `cell_keys`: `cell_key`, under which a store has the cell of a state.
//! - `laws`: cell keys are told apart, they sort as what they stand for, and a map is one range of them.
//! - `rows`: worked rows, which the prover works out.
//!
//! The form of the keys stands in `specs/CellKeys.antt`. No program uses it yet.
#![tactic(auto)]

pub mod cell_keys;
pub mod laws;
pub mod rows;

pub use cell_keys::cell_key;
