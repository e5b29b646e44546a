//! Tests of the task by itself, and what tests of whole runs share with them.
#![tactic(auto)]

pub mod by_key;
#[cfg(test)]
mod drawn;
#[cfg(test)]
mod draws;
pub mod inputs;
#[cfg(test)]
mod orders;
#[cfg(test)]
mod ways;
