//! The line that tells how a run ended. It is made without taking memory.
ghost use Rattle.std.specs.Prelude.{◌≡◌, ◌≤◌, ◌++◌, length, codes, decimal};
ghost use Rattle.ax_cli.specs.FaultLine.{WritesLine, line_of};

use crate::status::Status;
use arrayvec::ArrayString;
use ax_base::{Sink, write_all};
use itoa::Buffer;

// Room for the longest line, with 20 digits of a line and 3 of a kind.
type Text = ArrayString<64>;

// `ax: line LINE: WHAT fault KIND`
fn numbered(line: u64, what: &str, kind: u8) -> Text
    requires { length what.now ≤ 7 }
    ensures { result.bytes ≡ codes "ax: line " ++ decimal line ++ codes ": " ++ what.now ++ codes " fault " ++ decimal kind ++ codes "\n" }
{
    let mut digits = Buffer::new();
    let mut text = Text::new();
    text.push_str("ax: line ");
    text.push_str(digits.format(line));
    text.push_str(": ");
    text.push_str(what);
    text.push_str(" fault ");
    text.push_str(digits.format(kind));
    text.push_str("\n");
    text
}

// Writes one line. No answer of the sink matters.
fn put<E: Sink>(err: &mut E, line: &str)
    ensures { WritesLine (record { old = E.holds err.old; new = E.holds err.new }) (E.counts err.old) (E.counts err.new) line.now }
{
    let _ = write_all(err, line.as_bytes());
}

/// Writes the line that tells how a run ended; none where it ended well.
///
/// It takes no memory. Where the sink fails or lacks memory, a proper prefix is written.
pub fn write_fault_line<E: Sink>(err: &mut E, status: &Status)
    ensures { WritesLine (record { old = E.holds err.old; new = E.holds err.new }) (E.counts err.old) (E.counts err.new) (line_of status.now) }
{
    match *status {
        Status::Ok => {}
        Status::NoMemory => put(err, "ax: out of memory\n"),
        Status::Usage => put(err, "ax: usage\n"),
        Status::Program { line, kind } => put(err, numbered(line, "program", kind).as_str()),
        Status::Input { line, kind } => put(err, numbered(line, "input", kind).as_str()),
        Status::Read => put(err, "ax: read fault\n"),
        Status::Write => put(err, "ax: write fault\n"),
    }
}
