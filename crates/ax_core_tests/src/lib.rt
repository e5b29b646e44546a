//! Tests of the controller: driven by hand, with batches that are answered in any order.
#![tactic(auto)]

#[cfg(test)]
mod by_hand;
#[cfg(test)]
mod calls;
#[cfg(test)]
mod drawn;
pub mod hand;
#[cfg(test)]
mod lines;
#[cfg(test)]
mod programs;
pub mod states;
