//! Events and output lines, both ways: what their texts say, and how they are spelled.
//!
//! - `event`: `Event`, read by `read_event` and written by `put_event`.
//! - `line`: `OutLine` and `SnapLine`, the lines of an output and of a snapshot block.
//! - `read` and `write`: `read_out_line` and `put_out_line`.
//! - `laws`: what was written is read back, whatever follows it, and the bytes of an output determine its entries.
//!
//! The grammar and the spellings stand in `specs/Events.antt` and `specs/OutLines.antt`.
#![tactic(auto)]

mod draft;
pub mod event;
pub mod laws;
pub mod line;
mod numbers;
pub mod read;
pub mod runs;
pub mod write;

pub use event::{Event, EventFault, is_skipped, read_event, read_line};
pub use line::{OutLine, SnapLine};
pub use read::read_out_line;
pub use write::{
    put_end, put_entry, put_event, put_head, put_item, put_out, put_out_line, put_timer, put_value,
    put_watermark,
};
