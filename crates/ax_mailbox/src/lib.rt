//! The mails that the task thread works through one after the other.
//!
//! - `mail`: `Mail`, one piece of work.
//! - `mailbox`: `Mailbox`, a first-in-first-out queue of mails with a fixed room.
//!
//! Written after the mailbox of Flink's task thread, through which the callbacks of state requests are
//! run (FLIP-425).
#![tactic(auto)]

pub mod mail;
pub mod mailbox;

pub use mail::Mail;
pub use mailbox::Mailbox;
