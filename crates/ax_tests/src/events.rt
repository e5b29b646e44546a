//! Events behind a program that counts: rows, and the faults of lines.
use crate::expect::{BYTES, COUNTER, expect, expect_events, expect_table, input};
use ax_cli::Status;
use std::alloc::{AllocError, AllocGlobal, Global};
use std::process::Abort;
use std::test::Fail;

// A line of these tables has events, what is written, and the fault of the input (`i`), with line and kind.

const ROWS: &str = "\
||
r a 1 5;r a 4 7;|o a 5;o a 12;|
r a 1 5;r b 2 1;r a 3 7;|o a 5;o b 1;o a 12;|
r a 1 1;r a 2 2;r a 3 3;r a 4 4;r a 5 5;r a 6 6;r a 7 7;r a 8 8;r a 9 9;r a 10 10;r a 11 11;r a 12 12;r a 13 13;r a 14 14;r a 15 15;r a 16 16;r a 17 17;r a 18 18;r a 19 19;r a 20 20;|o a 1;o a 3;o a 6;o a 10;o a 15;o a 21;o a 28;o a 36;o a 45;o a 55;o a 66;o a 78;o a 91;o a 105;o a 120;o a 136;o a 153;o a 171;o a 190;o a 210;|
r a 1 5;r a 2 7|o a 5;o a 12;|
r a 1 9223372036854775807;r a 2 1;|o a 9223372036854775807;o a -9223372036854775808;|
r a 1 -9223372036854775808;r a 2 -1;|o a -9223372036854775808;o a 9223372036854775807;|
r a 1 5;r a 1 -|o a 5;|i 10 3
r a 1 5;x;r a 2 7;|o a 5;|i 10 1
# note;; \t\r;\tr\ta\t1\t5\r;#;  r  a  2  7 \r|o a 5;o a 12;|
# note;; \t;x;||i 12 1
r a 1\r5;|o a 5;|";

const NUMBERS: &str = "\
r a 1 -0;|o a 0;|
r a -0 5;|o a 5;|
r a 0001 -0005;|o a -5;|
r a 1 00000000000000000000000000000000000000000000000000000000000007;|o a 7;|
r a 1 0000000000000000000009223372036854775807;|o a 9223372036854775807;|
r a 1 -9223372036854775808;|o a -9223372036854775808;|
r a 9223372036854775807 1;|o a 1;|
r a -9223372036854775808 1;|o a 1;|
r a 1 9223372036854775808;||i 9 3
r a 1 -9223372036854775809;||i 9 3
r a 9223372036854775808 1;||i 9 3
r a -9223372036854775809 1;||i 9 3
r a 1 18446744073709551616;||i 9 3
r a 1 18446744073709551621;||i 9 3
r a 1 340282366920938463463374607431768211461;||i 9 3
r a 1 +5;||i 9 3
r a 1 --5;||i 9 3
r a 1 5-;||i 9 3
r a 1 1.0;||i 9 3
r a 1 0x5;||i 9 3
r a 1 5_0;||i 9 3";

const FAULTS: &str = "\
R a 1 5;||i 9 1
rr a 1 5;||i 9 1
o a 5;||i 9 1
end;||i 9 1
%%;||i 9 1
r a 1 5;%%;r a 2 7;|o a 5;|i 10 1
w;||i 9 4
w 5 6;||i 9 4
w x;||i 9 3
w x y;||i 9 4
b;||i 9 4
b 0 0;||i 9 4
b x;||i 9 3
b 0;||i 9 3
b -1;||i 9 3
r a 1 5;w 5;w;|o a 5;w 5;|i 11 4
r;||i 9 4
r a;||i 9 4
r a 1;||i 9 4
r a 1 5 6;||i 9 4
r a 1 5 # note;||i 9 4
r a 1\x0b5;||i 9 4
r \x01 x y z;||i 9 4
r \x7f x y;||i 9 2
r é x 5;||i 9 2
r a x y;||i 9 3
r ! 1 5;r ~ 1 5;r # 1 5;r %% 1 5;r -1 1 5;|o ! 5;o ~ 5;o # 5;o %% 5;o -1 5;|";

#[test]
fn rows_in_input_order(rt: HostRuntime) -> Result<(), Fail> {
    expect_table(&rt, COUNTER.as_bytes(), ROWS, b"")
}

#[test]
fn numbers_to_the_ends_of_their_range(rt: HostRuntime) -> Result<(), Fail> {
    expect_table(&rt, COUNTER.as_bytes(), NUMBERS, b"")
}

#[test]
fn faults_of_one_line_in_their_order(rt: HostRuntime) -> Result<(), Fail> {
    expect_table(&rt, COUNTER.as_bytes(), FAULTS, b"")
}

#[test]
fn keys_of_256_letters(rt: HostRuntime) -> Result<(), Fail> {
    let key = "k".repeat(rt.alloc(), 256)?;
    let line = format!(in rt.alloc(); "r {key} 1 5\nr k{key} 1 5\n")?;
    let out = format!(in rt.alloc(); "o {key} 5\n")?;
    expect_events(&rt, &line, &out, input(10, 2))?;
    let longer = format!(in rt.alloc(); "r k{key} 1 5\n")?;
    expect_events(&rt, &longer, "", input(9, 2))
}

// The fault of a line with this byte as the key, where it is one.
fn fault_as_key(byte: u8) -> Status {
    match byte {
        b' ' | b'\t' | b'\r' | b'\n' => input(9, 4),
        33..=126 => Status::Ok,
        _ => input(9, 2),
    }
}

fn fault_as_value(byte: u8) -> Status {
    match byte {
        b' ' | b'\t' | b'\r' | b'\n' => input(9, 4),
        b'0'..=b'9' => Status::Ok,
        _ => input(9, 3),
    }
}

fn fault_as_first_word(byte: u8) -> Status {
    match byte {
        b'r' | b'#' => Status::Ok,
        b'w' | b'b' => input(9, 4),
        b'\n' => input(10, 1),
        _ => input(9, 1),
    }
}

// A line with this byte, or nothing.
fn line_if(
    alloc: Global,
    is_written: bool,
    before: &str,
    byte: u8,
    after: &str,
) -> Result<String, AllocError> {
    if !is_written {
        return format!(in alloc; "");
    }
    let byte = char::from(byte);
    format!(in alloc; "{before}{byte}{after}")
}

fn expect_as_key(rt: &(impl Abort + AllocGlobal), byte: u8) -> Result<(), Fail> {
    let status = fault_as_key(byte);
    let out = line_if(rt.alloc(), status == Status::Ok, "o ", byte, " 5\n")?;
    expect(
        rt,
        &[COUNTER.as_bytes(), b"r ", &[byte], b" 1 5\n"],
        out.as_str(),
        status,
    )
}

fn expect_as_value(rt: &(impl Abort + AllocGlobal), byte: u8) -> Result<(), Fail> {
    let status = fault_as_value(byte);
    let out = line_if(rt.alloc(), status == Status::Ok, "o a ", byte, "\n")?;
    expect(
        rt,
        &[COUNTER.as_bytes(), b"r a 1 ", &[byte], b"\n"],
        out.as_str(),
        status,
    )
}

fn expect_as_first_word(rt: &(impl Abort + AllocGlobal), byte: u8) -> Result<(), Fail> {
    let out = line_if(rt.alloc(), byte == b'r', "o a ", b'5', "\n")?;
    expect(
        rt,
        &[COUNTER.as_bytes(), &[byte], b" a 1 5\n"],
        out.as_str(),
        fault_as_first_word(byte),
    )
}

#[test]
fn any_byte_in_any_place(rt: HostRuntime) -> Result<(), Fail> {
    for byte in BYTES {
        expect_as_key(&rt, byte)?;
        expect_as_value(&rt, byte)?;
        expect_as_first_word(&rt, byte)?;
        expect(
            &rt,
            &[COUNTER.as_bytes(), b"# ", &[byte], b"\nr a 1 5\n"],
            "o a 5\n",
            Status::Ok,
        )?;
    }
    Ok(())
}
