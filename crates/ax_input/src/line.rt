//! The lines of an output.
use ax_base::{Bytes, Nums};
use ax_keys::Key;

/// A line of a snapshot block. A state is named by its name in the program.
#[derive(Debug, PartialEq, Eq, Drop)]
pub enum SnapLine {
    /// `s ID WM`: the head of the block of a barrier, with the greatest watermark so far.
    Head {
        id: i64,
        wm: i64,
    },
    /// `c KEY STATE N`: the number of a value state.
    Value {
        key: Key,
        state: Bytes,
        number: i64,
    },
    /// `l KEY STATE N`: one item of a list state.
    Item {
        key: Key,
        state: Bytes,
        number: i64,
    },
    /// `m KEY STATE K N`: one entry of a map state.
    Entry {
        key: Key,
        state: Bytes,
        at: i64,
        number: i64,
    },
    /// `t KEY TIME`: a timer.
    Timer {
        key: Key,
        time: i64,
    },
    /// `e ID COUNT`: the end of the block, with the number of lines between head and end.
    End {
        id: i64,
        count: u64,
    },
}

/// A line of an output. It has a spelling, and is read back, where an `Out` has 1 to 16 values, a state's name is a name
/// of the language, and a count is at most `2^63 - 1`.
#[derive(Debug, PartialEq, Eq, Drop)]
pub enum OutLine {
    /// `o KEY N1 .. Nn`: an emit.
    Out { key: Key, values: Nums },
    /// `w TIME`: a watermark.
    Mark { time: i64 },
    /// A line of a snapshot block.
    Snap { line: SnapLine },
}
