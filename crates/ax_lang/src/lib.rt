//! Programs of the operator language: the reader, with the exact first fault, and what it accepts.
#![tactic(auto)]

pub mod examples;
pub mod laws;
mod link;
pub mod program;
pub mod reader;
mod rows;
pub mod step;

pub use laws::{
    expression_law, form_law, known_law, limit_law, line_law, program_is_accepted,
    program_is_valid, spelling_law,
};
pub use program::Program;
pub use reader::{ProgFault, SectionEnd, read_program};
pub use step::{Loop, Step, Stmt};
