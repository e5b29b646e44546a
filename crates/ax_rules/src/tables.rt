//! What the lines so far have said.
use crate::blocks::Frames;
use ax_base::{Bytes, ListOf};
use ax_syntax::KindWord;

/// A declared state.
#[derive(Debug, PartialEq, Eq, Drop)]
pub struct DeclaredState {
    pub name: Bytes,
    pub kind: KindWord,
}

/// What the lines so far have said. The numbers hold where none of them has a fault.
#[derive(Debug, Drop)]
pub struct Tables {
    /// The number of values of a row, 0 to 16, behind the `input` line.
    pub fields: Option<u8>,
    /// The declared states, at most 64, in order.
    pub states: ListOf<DeclaredState>,
    /// Whether `on row` has begun.
    pub row: bool,
    /// Whether `on timer` has begun.
    pub timer: bool,
    /// The local names of the last handler that has begun, at most 256, in order of their first assignment.
    pub locals: ListOf<Bytes>,
    /// How many statements there were in both handlers, at most 10,000.
    pub statements: usize,
    /// The open blocks, at most 33: the innermost first, and the handler's the outermost.
    pub frames: Frames,
    /// The greatest width of a handler that has ended: how many of its requests may be out together, 0 to 16.
    pub widest: usize,
    /// The most local names that a handler has, at most 256.
    pub most: usize,
}
