//! What every other layer stands on: where bytes come from and where they go, lists, numbers,
//! words and lines.
//!
//! - `outside`: the traits `Source` and `Sink`. A source tells, where it can, which bytes are left,
//!   and a sink which bytes it took. Both count their faults, so that a contract can say of a fault
//!   that it came from outside: the count rose in the call, or stands at `2^64 - 1`.
//! - `memory` and `stream`: sources and sinks in memory, and over a reader or a writer.
//! - `lists`: `ListOf`, which contracts see as the list of its elements.
//! - `numbers` and `words`: signed decimal numbers of 64 bits, and the words of a line.
//! - `heads`: the first eight bytes of a byte string as one number, and comparing by it.
//! - `lines`: the lines of a source. The lines that bytes have are defined in `specs/Pieces.antt`.
//!
//! The private modules `window` and `find` hold the bytes that were read and not yet given, and
//! look for the end of the next line.
#![tactic(auto)]

mod find;
pub mod gather;
pub mod heads;
pub mod laws;
pub mod lines;
pub mod lists;
pub mod memory;
pub mod numbers;
pub mod outside;
pub mod stream;
mod window;
pub mod words;

pub use gather::{Begun, Gather, Room};
pub use heads::{cmp_by_heads, head_of};
pub use lines::{Line, LineFault, Lines};
pub use lists::{Bytes, Duplicate, ListOf, Nums, Pair, Pairs};
pub use memory::{MemSink, MemSource, SureSink, SureSource};
pub use numbers::{put_i64, read_i64};
pub use outside::{Failed, NoMemory, Sink, SinkFault, Source, write_all};
pub use stream::{ReadSource, WriteSink};
pub use words::{Words, split_words};
