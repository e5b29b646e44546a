//! One run over memory, and what it must leave.
use ax_base::{Bytes, NoMemory, SureSink, SureSource};
use ax_cli::{Status, run_alone};
use ax_task_tests::by_key::by_key;
use ax_task_tests::inputs::{fed, with_events};
use std::alloc::{AllocError, AllocGlobal, Global};
use std::process::Abort;
use std::test::Fail;

/// Sums the values of each key. Its events begin at line 9.
pub const COUNTER: &str =
    "input 1\nstate c value\non row\nx = get c or 0\nput c x + v1\nemit x + v1\nend\n%%\n";

/// Bytes on both sides of each border: control bytes, spaces, signs, digits, letters, and bytes
/// that are no ASCII.
pub const BYTES: [u8; 40] = [
    0, 1, 8, 9, 10, 11, 12, 13, 14, 31, 32, 33, 34, 35, 36, 37, 43, 44, 45, 46, 47, 48, 57, 58, 95,
    97, 98, 114, 119, 126, 127, 128, 133, 160, 191, 194, 226, 239, 254, 255,
];

/// An input fault of this line.
pub fn input(line: u64, kind: u8) -> Status {
    Status::Input { line, kind }
}

/// A program fault of this line.
pub fn program(line: u64, kind: u8) -> Status {
    Status::Program { line, kind }
}

/// These pieces, one after another.
pub fn joined(alloc: Global, pieces: &[&[u8]]) -> Result<Bytes, NoMemory> {
    let mut bytes = Bytes::new(alloc);
    for piece in pieces {
        bytes.extend_from_slice(piece)?;
    }
    Ok(bytes)
}

/// What the line on `err` must be.
pub fn line_of(alloc: Global, status: Status) -> Result<String, AllocError> {
    match status {
        Status::Ok => format!(in alloc; ""),
        Status::NoMemory => format!(in alloc; "ax: out of memory\n"),
        Status::Usage => format!(in alloc; "ax: usage\n"),
        Status::Program { line, kind } => format!(in alloc;
            "ax: line {line}: program fault {kind}\n"
        ),
        Status::Input { line, kind } => format!(in alloc; "ax: line {line}: input fault {kind}\n"),
        Status::Read => format!(in alloc; "ax: read fault\n"),
        Status::Write => format!(in alloc; "ax: write fault\n"),
    }
}

// The last bytes of an input, for the message of a failed test.
fn end_of(alloc: Global, bytes: &[u8]) -> Result<String, AllocError> {
    let from = bytes.len().saturating_sub(40);
    bytes[from..].escape_ascii().to_string(alloc)
}

/// Words under which each input is run. Under none of them a key's lines or the place of a marker is another.
pub const WORDS: [[&str; 4]; 4] = [
    ["--in-flight", "1", "--io-threads", "0"],
    ["--batch", "1", "--io-threads", "0"],
    ["--shards", "1", "--io-threads", "0"],
    ["--in-flight", "3", "--batch", "2"],
];

// Runs these bytes under these words, and compares all that the run leaves.
fn expect_under(
    rt: &(impl Abort + AllocGlobal),
    words: &[&str],
    bytes: &[u8],
    out: &str,
    status: Status,
) -> Result<(), Fail> {
    let alloc = rt.alloc();
    let mut source = SureSource::new(Bytes::from_slice(alloc, bytes)?);
    let mut sink = SureSink::new(alloc);
    let mut err = SureSink::new(alloc);
    let found = run_alone(alloc, words, &mut source, &mut sink, &mut err);
    let shown = end_of(alloc, bytes)?;
    assert_eq!(rt; found, status, "at .. {shown} under {words:?}");
    let written = by_key(alloc, sink.bytes())?;
    assert_eq!(rt; written.as_str(), out, "at .. {shown} under {words:?}");
    let line = line_of(alloc, status)?;
    assert_eq!(rt; err.bytes(), line.as_bytes());
    Ok(())
}

// Runs these bytes with no words and under each of `WORDS`.
fn expect_everywhere(
    rt: &(impl Abort + AllocGlobal),
    bytes: &[u8],
    out: &[u8],
    status: Status,
) -> Result<(), Fail> {
    let sorted = by_key(rt.alloc(), out)?;
    expect_under(rt, &[], bytes, sorted.as_str(), status)?;
    for words in &WORDS {
        expect_under(rt, words, bytes, sorted.as_str(), status)?;
    }
    Ok(())
}

/// Runs an input of these pieces with no words and under each of `WORDS`, and compares all that each run leaves. Keys may
/// overtake each other between two markers.
pub fn expect(
    rt: &(impl Abort + AllocGlobal),
    pieces: &[&[u8]],
    out: &str,
    status: Status,
) -> Result<(), Fail> {
    let bytes = joined(rt.alloc(), pieces)?;
    expect_everywhere(rt, bytes.as_slice(), out.as_bytes(), status)
}

/// The same for events behind the program that counts.
pub fn expect_events(
    rt: &(impl Abort + AllocGlobal),
    events: &str,
    out: &str,
    status: Status,
) -> Result<(), Fail> {
    let input = with_events(rt.alloc(), COUNTER.as_bytes(), events.as_bytes())?;
    expect(rt, &[input.as_slice()], out, status)
}

// The status that a table names: none of it is Ok, and else `p` or `i` with line and kind.
fn status_of(name: &str) -> Status {
    let mut words = name.split(' ');
    let letter = words.next().unwrap_or("");
    let line = words.next().unwrap_or("").parse::<u64>().unwrap_or(0);
    let kind = words.next().unwrap_or("").parse::<u8>().unwrap_or(0);
    match letter {
        "p" => program(line, kind),
        "i" => input(line, kind),
        _ => Status::Ok,
    }
}

/// Runs each line of a table, between two pieces, with no words and under each of `WORDS`. It has a text, what must be written,
/// and the status, with `|` between them and `;` in place of each line feed.
pub fn expect_table(
    rt: &(impl Abort + AllocGlobal),
    before: &[u8],
    table: &str,
    after: &[u8],
) -> Result<(), Fail> {
    let alloc = rt.alloc();
    for case in table.lines() {
        let mut parts = case.split('|');
        let text = fed(alloc, parts.next().unwrap_or(""))?;
        let out = fed(alloc, parts.next().unwrap_or(""))?;
        let status = status_of(parts.next().unwrap_or(""));
        let bytes = joined(alloc, &[before, text.as_slice(), after])?;
        expect_everywhere(rt, bytes.as_slice(), out.as_slice(), status)?;
    }
    Ok(())
}
