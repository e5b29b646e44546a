//! The words of the command line, and the options that they ask for.
//!
//! - `options`: the options, and why words are refused.
//! - `words`: the reader of the words.
//! - `laws`: of the table of options.
//!
//! The private module `command` tells `clap` which options there are. What the words ask for is
//! defined in `specs/Words.antt` for any table of options, and in `specs/Options.antt` for the
//! options of this program.
#![tactic(auto)]

mod command;
pub mod laws;
pub mod options;
#[cfg(test)]
mod tests;
pub mod words;

pub use options::{Options, WordFault};
pub use words::read_words;
