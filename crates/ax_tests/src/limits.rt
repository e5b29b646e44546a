//! Limits, on both sides: long lines, full sections, many states and statements.
use crate::expect::{COUNTER, expect, input, joined, program};
use ax_base::{Bytes, NoMemory};
use ax_cli::Status;
use std::alloc::Global;
use std::test::Fail;

// The first three lines of a program with one state.
const HEAD: &[u8] = b"input 1\nstate c value\non row\n";

// A text made longer by many bytes of one kind.
fn filled(alloc: Global, text: &[u8], byte: u8, len: usize) -> Result<Bytes, NoMemory> {
    let mut line = joined(alloc, &[text])?;
    for _ in text.len()..len {
        line.push(byte)?;
    }
    Ok(line)
}

// So many lines, with their numbers from 0 on between two texts.
fn numbered(alloc: Global, before: &str, count: u32, after: &str) -> Result<String, Fail> {
    let mut text = String::new(alloc);
    for i in 0..count {
        text.push_str(before)?;
        text.push_str(&i.to_string(alloc)?)?;
        text.push_str(after)?;
    }
    Ok(text)
}

#[test]
fn lines_of_65536_bytes(rt: HostRuntime) -> Result<(), Fail> {
    let alloc = rt.alloc();
    let comment = filled(alloc, b"#", b'x', 65536)?;
    let row = filled(alloc, b"r a 1 5", b' ', 65536)?;
    let longer = filled(alloc, b"r a 1 5", b' ', 65537)?;
    expect(
        &rt,
        &[comment.as_slice(), b"\n", COUNTER.as_bytes(), b"r a 1 5\n"],
        "o a 5\n",
        Status::Ok,
    )?;
    expect(
        &rt,
        &[comment.as_slice(), b"x\n", COUNTER.as_bytes(), b"r a 1 5\n"],
        "",
        program(1, 11),
    )?;
    expect(
        &rt,
        &[b"input 1\n", comment.as_slice(), b"x"],
        "",
        program(2, 11),
    )?;
    expect(
        &rt,
        &[b"zzz\n", comment.as_slice(), b"x\n%%\n"],
        "",
        program(2, 11),
    )?;
    expect(
        &rt,
        &[
            COUNTER.as_bytes(),
            comment.as_slice(),
            b"\n",
            row.as_slice(),
            b"\n",
            row.as_slice(),
        ],
        "o a 5\no a 10\n",
        Status::Ok,
    )?;
    expect(
        &rt,
        &[COUNTER.as_bytes(), longer.as_slice(), b"\n"],
        "",
        input(9, 6),
    )?;
    expect(
        &rt,
        &[COUNTER.as_bytes(), b"r a 1 5\n", longer.as_slice()],
        "o a 5\n",
        input(10, 6),
    )?;
    expect(
        &rt,
        &[
            COUNTER.as_bytes(),
            b"r a 1 5\n",
            comment.as_slice(),
            b"x\nr a 2 7\n",
        ],
        "o a 5\n",
        input(10, 6),
    )
}

#[test]
fn sections_of_1048576_kept_bytes(rt: HostRuntime) -> Result<(), Fail> {
    let alloc = rt.alloc();
    let texts: [&[u8]; 16] = [
        b"input 1",
        b"state s0 value",
        b"state s1 value",
        b"state s2 value",
        b"state s3 value",
        b"state s4 value",
        b"state s5 value",
        b"state s6 value",
        b"state s7 value",
        b"state s8 value",
        b"on row",
        b"x = get s0 or 0",
        b"put s0 x + v1",
        b"emit x + v1",
        b"emit v1",
        b"end",
    ];
    let mut full = Bytes::new(alloc);
    for text in texts {
        full.extend_from_slice(filled(alloc, text, b' ', 65536)?.as_slice())?;
        full.push(b'\n')?;
    }
    let faulty = filled(alloc, b"z", b' ', 65536)?;
    expect(
        &rt,
        &[full.as_slice(), b"%%\nr a 1 5\n"],
        "o a 5\no a 5\n",
        Status::Ok,
    )?;
    expect(
        &rt,
        &[full.as_slice(), b"# note\n \n%%\nr a 1 5\n"],
        "o a 5\no a 5\n",
        Status::Ok,
    )?;
    expect(
        &rt,
        &[full.as_slice(), b"z\n%%\nr a 1 5\n"],
        "",
        program(17, 8),
    )?;
    expect(
        &rt,
        &[b"z\n\n# note\n", full.as_slice(), b"%%\n"],
        "",
        program(19, 8),
    )?;
    assert!(rt; full.len() >= 65537);
    expect(
        &rt,
        &[
            b"#\n",
            &full.as_slice()[65537..],
            faulty.as_slice(),
            b"\n%%\n",
        ],
        "",
        program(2, 1),
    )?;
    expect(
        &rt,
        &[
            b"#\n",
            &full.as_slice()[65537..],
            faulty.as_slice(),
            b"\nz\n%%\n",
        ],
        "",
        program(18, 8),
    )
}

#[test]
fn counts_in_a_program(rt: HostRuntime) -> Result<(), Fail> {
    let alloc = rt.alloc();
    let states = numbered(alloc, "state s", 64, " value\n")?;
    expect(
        &rt,
        &[
            b"input 1\n",
            states.as_bytes(),
            b"on row\nput s63 v1\nemit v1\nend\n%%\nr a 1 5\n",
        ],
        "o a 5\n",
        Status::Ok,
    )?;
    expect(
        &rt,
        &[b"input 1\n", states.as_bytes(), b"state more value\n%%\n"],
        "",
        program(66, 8),
    )?;
    let locals = numbered(alloc, "x", 256, " = get c or 0\n")?;
    expect(
        &rt,
        &[HEAD, locals.as_bytes(), b"emit x255\nend\n%%\nr a 1 5\n"],
        "o a 0\n",
        Status::Ok,
    )?;
    expect(
        &rt,
        &[HEAD, locals.as_bytes(), b"y = get c or 0\nend\n%%\n"],
        "",
        program(260, 8),
    )?;
    let statements = numbered(alloc, "put c ", 9999, "\n")?;
    expect(
        &rt,
        &[HEAD, statements.as_bytes(), b"emit v1\nend\n%%\nr a 1 5\n"],
        "o a 5\n",
        Status::Ok,
    )?;
    expect(
        &rt,
        &[HEAD, statements.as_bytes(), b"emit v1\nemit v1\nend\n%%\n"],
        "",
        program(10004, 8),
    )?;
    let terms = numbered(alloc, " + ", 127, "")?;
    expect(
        &rt,
        &[HEAD, b"emit v1", terms.as_bytes(), b"\nend\n%%\nr a 1 5\n"],
        "o a 8006\n",
        Status::Ok,
    )?;
    expect(
        &rt,
        &[HEAD, b"emit v1", terms.as_bytes(), b" - 1\nend\n%%\n"],
        "",
        program(4, 8),
    )
}

#[test]
fn blocks_of_the_greatest_depth_and_width(rt: HostRuntime) -> Result<(), Fail> {
    let alloc = rt.alloc();
    let tests = numbered(alloc, "if 1 + ", 32, "\n")?;
    let ends = numbered(alloc, "#", 32, "\nend\n")?;
    expect(
        &rt,
        &[
            HEAD,
            tests.as_bytes(),
            b"emit v1\n",
            ends.as_bytes(),
            b"end\n%%\nr a 1 5\n",
        ],
        "o a 5\n",
        Status::Ok,
    )?;
    expect(
        &rt,
        &[HEAD, tests.as_bytes(), b"if 1\n%%\n"],
        "",
        program(36, 7),
    )?;
    let arms = numbered(alloc, "both\nx", 15, " = get c or 7\nwith\n")?;
    let closed = numbered(alloc, "#", 15, "\nend\n")?;
    expect(
        &rt,
        &[
            HEAD,
            arms.as_bytes(),
            b"y = get c or 8\n",
            closed.as_bytes(),
            b"emit x0 + x14 + y\nend\n%%\nr a 1 5\n",
        ],
        "o a 22\n",
        Status::Ok,
    )?;
    let more = numbered(alloc, "both\nx", 16, " = get c or 7\nwith\n")?;
    expect(
        &rt,
        &[
            HEAD,
            more.as_bytes(),
            b"y = get c or 8\n",
            ends.as_bytes(),
            b"end\n%%\nr a 1 5\n",
        ],
        "",
        program(84, 9),
    )
}
