//! What is written where one read or one write fails.
use crate::expect::{COUNTER, WORDS, joined, line_of};
use ax_base::{Bytes, MemSink, MemSource, Nums, SureSink, SureSource};
use ax_cli::{Status, run_alone};
use ax_task_tests::by_key::by_key;
use std::alloc::{AllocGlobal, Global};
use std::process::Abort;
use std::test::Fail;

// Rows, a watermark and a barrier, the last without a line feed, and what they write.
const EVENTS: &str = "r a 1 5\nr b 2 1\nw 3\nr a 3 7\nb 1";

const LINES: &str = "o a 5\no b 1\nw 3\no a 12\ns 1 3\nc b c 1\nc a c 12\ne 1 2\n";

fn input(alloc: Global) -> Result<Bytes, Fail> {
    Ok(joined(alloc, &[COUNTER.as_bytes(), EVENTS.as_bytes()])?)
}

// How many line feeds stand among the first bytes.
fn feeds(bytes: &[u8], first: usize) -> usize {
    let most = first.min(bytes.len());
    bytes[..most].iter().filter(|b| **b == b'\n').count()
}

// The first bytes of what the events write.
fn first(length: usize) -> &'static [u8] {
    let all = LINES.as_bytes();
    &all[..length.min(all.len())]
}

// What the events among the first lines write. Eight lines stand before them.
fn written(lines: usize) -> &'static [u8] {
    match lines {
        9 => first(6),
        10 => first(12),
        11 => first(16),
        12 => first(23),
        _ => b"",
    }
}

// One read fails, where each gives so many bytes.
fn read_fails(
    rt: &(impl Abort + AllocGlobal),
    words: &[&str],
    most: usize,
    call: i64,
    status: Status,
    out: &[u8],
) -> Result<(), Fail> {
    let alloc = rt.alloc();
    assert!(rt; most > 0);
    let mut source = MemSource::new(input(alloc)?, most, Nums::from_slice(alloc, &[call])?);
    let mut sink = SureSink::new(alloc);
    let mut err = SureSink::new(alloc);
    let found = run_alone(alloc, words, &mut source, &mut sink, &mut err);
    assert_eq!(rt; found, status, "at call {call} of {most} bytes");
    let written = by_key(alloc, sink.bytes())?;
    let expected = by_key(alloc, out)?;
    assert_eq!(rt; written, expected, "at call {call} of {most} bytes");
    assert_eq!(rt; err.bytes(), line_of(alloc, status)?.as_bytes());
    Ok(())
}

// What is written under these words where nothing fails.
fn whole(rt: &(impl Abort + AllocGlobal), words: &[&str]) -> Result<Bytes, Fail> {
    let alloc = rt.alloc();
    let mut source = SureSource::new(input(alloc)?);
    let mut sink = SureSink::new(alloc);
    let mut err = SureSink::new(alloc);
    let found = run_alone(alloc, words, &mut source, &mut sink, &mut err);
    assert_eq!(rt; found, Status::Ok);
    assert_eq!(rt;
        by_key(alloc, sink.bytes())?,
        by_key(alloc, LINES.as_bytes())?
    );
    Ok(Bytes::from_slice(alloc, sink.bytes())?)
}

// One write fails, where each takes so many bytes: so many of the whole output are written.
fn write_fails(
    rt: &(impl Abort + AllocGlobal),
    words: &[&str],
    most: usize,
    call: i64,
    status: Status,
    length: usize,
) -> Result<(), Fail> {
    let alloc = rt.alloc();
    assert!(rt; most > 0);
    let lines = whole(rt, words)?;
    let mut source = SureSource::new(input(alloc)?);
    let mut sink = MemSink::new(alloc, most, Nums::from_slice(alloc, &[call])?);
    let mut err = SureSink::new(alloc);
    let found = run_alone(alloc, words, &mut source, &mut sink, &mut err);
    assert_eq!(rt; found, status, "at call {call} of {most} bytes");
    let first = &lines.as_slice()[..length.min(lines.len())];
    assert_eq!(rt; sink.bytes(), first, "at call {call} of {most} bytes");
    assert_eq!(rt; err.bytes(), line_of(alloc, status)?.as_bytes());
    Ok(())
}

// Each read that is made fails once. The last line is whole once the end was read.
fn each_read_fails(
    rt: &(impl Abort + AllocGlobal),
    words: &[&str],
    most: usize,
) -> Result<(), Fail> {
    let bytes = input(rt.alloc())?;
    let mut taken = 0;
    for call in 1..200 {
        if taken >= bytes.len() {
            read_fails(rt, words, most, call, Status::Read, first(23))?;
            read_fails(rt, words, most, call + 1, Status::Read, first(52))?;
            read_fails(rt, words, most, call + 2, Status::Ok, first(52))?;
            return Ok(());
        }
        let out = written(feeds(bytes.as_slice(), taken));
        read_fails(rt, words, most, call, Status::Read, out)?;
        taken = taken.saturating_add(most);
    }
    Ok(())
}

#[test]
fn each_read_of_a_byte_fails(rt: HostRuntime) -> Result<(), Fail> {
    each_read_fails(&rt, &[], 1)
}

#[test]
fn each_read_of_seven_bytes_fails(rt: HostRuntime) -> Result<(), Fail> {
    each_read_fails(&rt, &[], 7)?;
    for words in &WORDS {
        each_read_fails(&rt, words, 7)?;
    }
    Ok(())
}

#[test]
fn each_write_of_a_byte_fails(rt: HostRuntime) -> Result<(), Fail> {
    for before in 0..52usize {
        write_fails(&rt, &[], 1, before as i64 + 1, Status::Write, before)?;
    }
    write_fails(&rt, &[], 1, 53, Status::Ok, 52)
}

fn each_write_fails(rt: &(impl Abort + AllocGlobal), words: &[&str]) -> Result<(), Fail> {
    write_fails(rt, words, 7, 1, Status::Write, 0)?;
    write_fails(rt, words, 7, 2, Status::Write, 7)?;
    write_fails(rt, words, 7, 3, Status::Write, 14)?;
    // behind the watermark
    write_fails(rt, words, 7, 4, Status::Write, 16)?;
    write_fails(rt, words, 7, 5, Status::Write, 23)?;
    write_fails(rt, words, 7, 6, Status::Write, 30)?;
    write_fails(rt, words, 7, 9, Status::Write, 51)?;
    write_fails(rt, words, 7, 10, Status::Ok, 52)
}

#[test]
fn each_write_of_seven_bytes_fails(rt: HostRuntime) -> Result<(), Fail> {
    each_write_fails(&rt, &[])?;
    for words in &WORDS {
        each_write_fails(&rt, words)?;
    }
    Ok(())
}

// The first read ends behind the second row's line feed, and the second fails.
#[test]
fn the_lines_of_whole_lines_are_written(rt: HostRuntime) -> Result<(), Fail> {
    let whole = COUNTER.len() + 16;
    read_fails(&rt, &[], whole, 2, Status::Read, b"o a 5\no b 1\n")?;
    for words in &WORDS {
        read_fails(&rt, words, whole, 2, Status::Read, b"o a 5\no b 1\n")?;
    }
    Ok(())
}

#[test]
fn the_second_byte_is_not_written(rt: HostRuntime) -> Result<(), Fail> {
    write_fails(&rt, &[], 1, 2, Status::Write, 1)?;
    for words in &WORDS {
        write_fails(&rt, words, 1, 2, Status::Write, 1)?;
    }
    Ok(())
}
