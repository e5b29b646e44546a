//! Why a reader of the input gives nothing more.

/// Why the reader of the section, or that of the events, gives nothing more.
#[derive(Clone, Copy, Debug, PartialEq, Eq)]
pub enum ReadFault {
    NoMemory,
    /// The line of this number is the first with a fault, and this is its first kind.
    Fault { line: u64, kind: u8 },
    /// The source failed.
    Read,
}
