//! The rules of a program: whether a line may follow the lines before it, what it adds to them, and its first fault there.
#![tactic(auto)]

mod blocks;
pub mod examples;
mod faults;
mod kinds;
pub mod laws;
mod section;
mod shapes;
mod tables;
mod taking;

pub use blocks::{Frame, Frames, Part, Print};
pub use kinds::FaultKind;
pub use laws::{arm_law, note_law, pass_law, rows_law, width_law};
pub use section::SectionEnd;
pub use tables::{DeclaredState, Tables};
