//! Tests of the crates that read and write text: bytes and lines, keys, expressions, programs and their first faults, events,
//! output lines and snapshot blocks.
#![tactic(auto)]

#[cfg(test)]
mod exprs;
pub mod fills;
#[cfg(test)]
mod futures;
#[cfg(test)]
mod keys;
#[cfg(test)]
mod rules;
#[cfg(test)]
mod sections;
#[cfg(test)]
mod shapes;
#[cfg(test)]
mod snapshots;
#[cfg(test)]
mod streams;
#[cfg(test)]
mod texts;
