//! The words and the shapes of a program's lines: syntax alone, before any look at the lines around them.
#![tactic(auto)]

pub mod shape;
pub mod words;

pub use ax_text::Keyword;
pub use shape::{KindWord, Shape};
