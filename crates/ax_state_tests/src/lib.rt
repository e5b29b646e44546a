//! Tests of the crates that keep something and hand it on: states, timers, epochs, contexts, accounts, buffer, mailbox, run store, and of
//! the keys of its cells.
//! Each is driven from outside, beside a plain list or map.
#![tactic(auto)]

#[cfg(test)]
mod accounts;
#[cfg(test)]
mod buffers;
#[cfg(test)]
mod cell_keys;
#[cfg(test)]
mod cells;
#[cfg(test)]
mod contexts;
pub mod draws;
#[cfg(test)]
mod epochs;
#[cfg(test)]
mod kept_timers;
#[cfg(test)]
mod mailboxes;
#[cfg(test)]
mod states;
#[cfg(test)]
mod stores;
