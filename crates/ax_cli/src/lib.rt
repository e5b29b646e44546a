//! The top call: all that the program does, over any source and sinks.
//!
//! `Options`, `WordFault` and `read_words` are those of `ax_words`.
#![tactic(auto)]

mod fault_line;
mod laws;
mod program;
mod run;
mod status;

pub use ax_words::{Options, WordFault, read_words};
pub use fault_line::write_fault_line;
pub use laws::{
    input_faults_end_the_events, ok_runs_wrote_a_lawful_list, program_faults_wrote_nothing,
    read_faults_wrote_a_lawful_list, runs_without_faults_end_as_the_bytes_say,
    write_faults_wrote_a_part,
};
pub use program::run_program;
pub use run::run_alone;
pub use status::Status;
