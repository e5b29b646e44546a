//! Words, and sources and sinks that fail or take little at a time.
use crate::expect::{COUNTER, WORDS, joined, line_of, program};
use crate::faulty::{FaultySink, FaultySource};
use ax_base::{SinkFault, SureSink, SureSource};
use ax_cli::{Status, run_alone};
use ax_task_tests::by_key::by_key;
use std::alloc::AllocGlobal;
use std::process::Abort;
use std::test::Fail;

#[test]
fn refused_words_read_nothing(rt: HostRuntime) -> Result<(), Fail> {
    let alloc = rt.alloc();
    for words in [
        ["--mode", "serial"],
        ["", ""],
        ["--", "--"],
        ["--help", "x"],
        ["--shards=8", "--max-parallelism=4"],
        ["--batch", "0"],
        ["--batch=5", "--batch=5"],
        ["--in-flight", "65537"],
        ["--io-threads", "4"],
    ] {
        let mut source = FaultySource::new(
            joined(alloc, &[COUNTER.as_bytes(), b"r a 1 5\n"])?,
            65536,
            10,
        );
        let mut sink = SureSink::new(alloc);
        let mut err = SureSink::new(alloc);
        let status = run_alone(alloc, &words, &mut source, &mut sink, &mut err);
        assert_eq!(rt; status, Status::Usage);
        assert_eq!(rt; status.code(), 2);
        assert_eq!(rt; source.reads(), 0);
        assert_eq!(rt; sink.bytes(), b"".as_slice());
        assert_eq!(rt; err.bytes(), b"ax: usage\n".as_slice());
    }
    Ok(())
}

#[test]
fn codes_and_lines(rt: HostRuntime) -> Result<(), Fail> {
    let cases = [
        (Status::Ok, 0, ""),
        (Status::NoMemory, 1, "ax: out of memory\n"),
        (Status::Usage, 2, "ax: usage\n"),
        (
            Status::Program { line: 1, kind: 10 },
            3,
            "ax: line 1: program fault 10\n",
        ),
        (
            Status::Program { line: 0, kind: 0 },
            3,
            "ax: line 0: program fault 0\n",
        ),
        (
            Status::Input { line: 10, kind: 3 },
            4,
            "ax: line 10: input fault 3\n",
        ),
        (
            Status::Input {
                line: 18446744073709551615,
                kind: 255,
            },
            4,
            "ax: line 18446744073709551615: input fault 255\n",
        ),
        (Status::Read, 5, "ax: read fault\n"),
        (Status::Write, 6, "ax: write fault\n"),
    ];
    for (status, code, line) in cases {
        assert_eq!(rt; status.code(), code);
        let mut err = SureSink::new(rt.alloc());
        ax_cli::write_fault_line(&mut err, &status);
        assert_eq!(rt; err.bytes(), line.as_bytes());
        assert_eq!(rt; line_of(rt.alloc(), status)?.as_str(), line);
    }
    Ok(())
}

// The source gives all at its first read, and fails at its second.
#[test]
fn source_fails_at_its_second_read(rt: HostRuntime) -> Result<(), Fail> {
    let alloc = rt.alloc();
    let cases = [
        ("", "r a 1 5\n", "o a 5\n", Status::Read),
        (
            "",
            "r a 1 5\nr a 2 7\nr a 3",
            "o a 5\no a 12\n",
            Status::Read,
        ),
        (
            "",
            "r a 1 5\nx\n",
            "o a 5\n",
            Status::Input { line: 10, kind: 1 },
        ),
        ("zzz\n", "r a 1 5\n", "", program(1, 1)),
        ("zzz\n", "", "", program(1, 1)),
    ];
    for (before, events, out, status) in cases {
        let mut source = FaultySource::new(
            joined(
                alloc,
                &[before.as_bytes(), COUNTER.as_bytes(), events.as_bytes()],
            )?,
            65536,
            1,
        );
        let mut sink = SureSink::new(alloc);
        let mut err = SureSink::new(alloc);
        let found = run_alone(alloc, &[], &mut source, &mut sink, &mut err);
        assert_eq!(rt; found, status);
        assert_eq!(rt; sink.bytes(), out.as_bytes());
        assert_eq!(rt; err.bytes(), line_of(alloc, status)?.as_bytes());
    }
    Ok(())
}

#[test]
fn source_fails_in_the_section(rt: HostRuntime) -> Result<(), Fail> {
    let alloc = rt.alloc();
    for (text, good) in [
        ("", 0),
        ("input 1\n", 0),
        ("input 1\n", 1),
        ("zzz\n", 1),
        ("zzz\n%", 1),
    ] {
        let mut source = FaultySource::new(joined(alloc, &[text.as_bytes()])?, 65536, good);
        let mut sink = SureSink::new(alloc);
        let mut err = SureSink::new(alloc);
        let found = run_alone(alloc, &[], &mut source, &mut sink, &mut err);
        assert_eq!(rt; found, Status::Read);
        assert_eq!(rt; found.code(), 5);
        assert_eq!(rt; sink.bytes(), b"".as_slice());
        assert_eq!(rt; err.bytes(), b"ax: read fault\n".as_slice());
    }
    Ok(())
}

#[test]
fn sink_fails(rt: HostRuntime) -> Result<(), Fail> {
    let alloc = rt.alloc();
    let cases = [
        (SinkFault::Failed, Status::Write, 6),
        (SinkFault::NoMemory, Status::NoMemory, 1),
    ];
    for (fault, status, code) in cases {
        for good in 0..8 {
            let mut source = SureSource::new(joined(
                alloc,
                &[COUNTER.as_bytes(), b"r a 1 5\nr a 2 7\n"],
            )?);
            let mut sink = FaultySink::new(alloc, 1, good, fault);
            let mut err = SureSink::new(alloc);
            let found = run_alone(alloc, &[], &mut source, &mut sink, &mut err);
            assert_eq!(rt; found, status);
            assert_eq!(rt; found.code(), code);
            assert!(rt; b"o a 5\no a 12\n".starts_with(sink.bytes()));
            assert_eq!(rt; sink.bytes().len() as u64, good);
            assert_eq!(rt; err.bytes(), line_of(alloc, status)?.as_bytes());
        }
    }
    Ok(())
}

#[test]
fn no_answer_of_err_changes_the_status(rt: HostRuntime) -> Result<(), Fail> {
    let alloc = rt.alloc();
    for fault in [SinkFault::Failed, SinkFault::NoMemory] {
        for good in 0..8 {
            let mut source = SureSource::new(joined(
                alloc,
                &[COUNTER.as_bytes(), b"r a 1 5\nx\n"],
            )?);
            let mut sink = SureSink::new(alloc);
            let mut err = FaultySink::new(alloc, 1, good, fault);
            let found = run_alone(alloc, &[], &mut source, &mut sink, &mut err);
            assert_eq!(rt; found, Status::Input { line: 10, kind: 1 });
            assert_eq!(rt; sink.bytes(), b"o a 5\n".as_slice());
            assert!(rt; b"ax: line 10: input fault 1\n".starts_with(err.bytes()));
            assert_eq!(rt; err.bytes().len() as u64, good);
        }
    }
    Ok(())
}

// The source gives a few bytes at a time, and the sinks take as few.
fn pieces_of(rt: &(impl Abort + AllocGlobal), words: &[&str], most: usize) -> Result<(), Fail> {
    let alloc = rt.alloc();
    let input = joined(
        alloc,
        &[COUNTER.as_bytes(), b"r a 1 5\r\n\nr b 2 1\nr a 3 7"],
    )?;
    let mut source = FaultySource::new(input, most, 1000);
    let mut sink = FaultySink::new(alloc, most, 1000, SinkFault::Failed);
    let mut err = FaultySink::new(alloc, most, 1000, SinkFault::Failed);
    let found = run_alone(alloc, words, &mut source, &mut sink, &mut err);
    assert_eq!(rt; found, Status::Ok);
    let written = by_key(alloc, sink.bytes())?;
    assert_eq!(rt; written.as_str(), "o a 5\no a 12\no b 1\n");
    assert_eq!(rt; err.bytes(), b"".as_slice());
    Ok(())
}

#[test]
fn bytes_come_and_go_in_any_pieces(rt: HostRuntime) -> Result<(), Fail> {
    for most in [1, 2, 3, 7, 64] {
        pieces_of(&rt, &[], most)?;
        for words in &WORDS {
            pieces_of(&rt, words, most)?;
        }
    }
    Ok(())
}
