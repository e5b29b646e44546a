//! How a run ends.

/// How a run ends.
#[derive(Clone, Copy, Debug, PartialEq, Eq)]
pub enum End {
    /// The input was read to its end.
    Ok,
    NoMemory,
    /// The program section has this first fault.
    Program { line: u64, kind: u8 },
    /// The first line of the events with a fault, and its first kind.
    Input { line: u64, kind: u8 },
    /// The source failed.
    Read,
    /// The sink failed.
    Write,
}
