//! Tests of whole runs, from the bytes of the input to those of the output, with faults of sources and sinks.
#![tactic(auto)]

#[cfg(test)]
mod events;
#[cfg(test)]
mod expect;
#[cfg(test)]
mod failing;
pub mod faulty;
#[cfg(test)]
mod language;
#[cfg(test)]
mod limits;
#[cfg(test)]
mod outside;
#[cfg(test)]
mod process;
#[cfg(test)]
mod programs;
#[cfg(test)]
mod timers;
