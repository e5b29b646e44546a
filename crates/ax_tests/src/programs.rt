//! Program sections: how they end, and the faults of their lines.
use crate::expect::{BYTES, expect, expect_table, program};
use ax_cli::Status;
use std::test::Fail;

// A line of these tables has a text, what is written, and the fault: of a program (`p`) or an input (`i`), with line and kind.

const WHOLE: &str = "\
input 1;on row;emit v1;end;%%;r a 1 5;r a 2 6;|o a 5;o a 6;|
input 1;on row;end;%%;r a 1 5;||
input 0;on row;emit 7;end;%%;r a 1;|o a 7;|
input -0;on row;emit time;end;%%;r a 1;|o a 1;|
input 2;on row;emit v2 - v1 , -5 , 0 - v1 , time + 1;end;%%;r a 4 -9223372036854775808 3;|o a -9223372036854775805 -5 -9223372036854775808 5;|
input 1;state p value;state q value;on row;x = get p or 10;y = get q or x + 1;put p y;put q x - v1;emit x , y;end;%%;r a 1 3;r b 1 1;r a 2 4;|o a 10 11;o b 10 11;o a 11 7;|
;# note é; \t\r;\tinput\t1\r;; on\trow \r;#;emit  v1; end\r;\t %% \r;r a 1 5;|o a 5;|
input 1;on row;emit v1;end;%%||
input 016;on row;emit v1 , v2 , v3 , v4 , v5 , v6 , v7 , v8 , v9 , v10 , v11 , v12 , v13 , v14 , v15 , v16;end;%%;r a 0 1 2 3 4 5 6 7 8 9 10 11 12 13 14 15 16;|o a 1 2 3 4 5 6 7 8 9 10 11 12 13 14 15 16;|
input 16;on row;end;%%;r a 0 1 2 3 4 5 6 7 8 9 10 11 12 13 14 15 16 17;||i 5 4
input 16;on row;end;%%;r a 0 1 2 3 4 5 6 7 8 9 10 11 12 13 14 15;||i 5 4";

const UNENDED: &str = "\
||p 1 10
;||p 2 10
# note||p 2 10
%%||p 1 10
%%;||p 1 10
input 1;%%;||p 2 10
input 1;on row;%%;||p 3 10
input 1;on row;emit v1;;%%;r a 1 5;||p 5 10
input 1;state c value;on row;x = get c or 0;put c x + v1;emit x + v1;end;||p 8 10
input 1;state c value;on row;x = get c or 0;put c x + v1;emit x + v1;end||p 8 10
input 1;on row;end;%% x;%%;||p 4 1
input 1;on row;end;%%%;%%;||p 4 1
input 1;on row;end;% %;%%;||p 4 1";

// Behind the section stands one row.
const OUTSIDE: &str = "\
input||p 1 1
input x||p 1 1
input -1||p 1 1
input 17||p 1 1
input 1 2||p 1 1
INPUT 1||p 1 1
\u{feff}input 1||p 1 1
input\0 1||p 1 1
input 1\0||p 1 1
on row||p 1 1
state c value||p 1 1
r a 1 5||p 1 1
input 1;input 1||p 2 3
input 1;input 17||p 2 1
input 1;state c||p 2 1
input 1;state C value||p 2 1
input 1;state 1c value||p 2 1
input 1;state v1 value||p 2 1
input 1;state value value||p 2 1
input 1;state c counter||p 2 1
input 1;state abcdefghijklmnopqrstuvwxyz0123456 value||p 2 1
input 1;state abcdefghijklmnopqrstuvwxyz012345 value;z||p 3 1
input 1;state c list||p 3 10
input 1;state c map||p 3 10
input 1;state c value;state c value||p 3 3
input 1;emit v1||p 2 1
input 1;end||p 2 1
input 1;on row;end;end||p 4 1
input 1;on row;end;on row||p 4 3
input 1;on row;end;input 1||p 4 3
input 1;on row;end;state c value||p 4 1
input 1;on row;end;on timer||p 5 10
input 1;on row;end;on timer;end;on timer||p 6 3
input 1;on row;end;on timer;end;on row||p 6 3
input 1;on row;end;on timer;end;input 1||p 6 3
input 1;on row;end;on timer;on timer||p 5 1
input 1;on row;on timer||p 3 1
input 1;on row;end;on timer;emit v1||p 5 2
input 1;on row;end;on timer;emit v2||p 5 2
input 1;timer 1||p 2 1
input 1;untimer 1||p 2 1
input 1;on timer||p 2 1";

// The line behind `x = get c or 0` in a handler.
const INSIDE: &str = "\
input 1||p 5 1
on row||p 5 1
state d value||p 5 1
emit||p 5 1
emit v1 ,||p 5 1
emit v1 +||p 5 1
emit 1 2||p 5 1
emit v1+1||p 5 1
emit 9223372036854775808||p 5 1
emit v1\x01||p 5 1
emit 1 , 2 , 3 , 4 , 5 , 6 , 7 , 8 , 9 , 10 , 11 , 12 , 13 , 14 , 15 , 16 , 17||p 5 1
x = get c||p 5 1
or = get c or 0||p 5 1
put c||p 5 1
let y = z||p 5 2
emit v1 * z||p 5 2
emit ( v2 )||p 5 2
timer||p 5 1
timer 1 , 2||p 5 1
timer z||p 5 2
timer c||p 5 4
untimer||p 5 1
untimer z||p 5 2
wm = get c or 0||p 5 1
emit v1 < c||p 5 4
put c 1 , 2||p 5 4
if v1||p 7 10
if v1;else;else||p 7 1
both||p 6 1
both;with||p 8 10
both;emit 1||p 6 6
each x in x||p 5 4
clear x||p 5 4
emit z||p 5 2
emit v2||p 5 2
emit v0||p 5 2
emit v01||p 5 2
emit v17||p 5 2
y = get y or 0||p 5 2
y = get c or y||p 5 2
emit c||p 5 4
c = get c or 0||p 5 4
x = get x or 0||p 5 4
put x 1||p 5 4
emit c , z||p 5 2";

#[test]
fn whole_programs(rt: HostRuntime) -> Result<(), Fail> {
    expect_table(&rt, b"", WHOLE, b"")
}

#[test]
fn sections_that_do_not_end(rt: HostRuntime) -> Result<(), Fail> {
    expect_table(&rt, b"", UNENDED, b"")
}

#[test]
fn faults_of_lines_outside_a_handler(rt: HostRuntime) -> Result<(), Fail> {
    expect_table(&rt, b"", OUTSIDE, b"\n%%\nr a 1 5\n")
}

#[test]
fn faults_of_lines_in_a_handler(rt: HostRuntime) -> Result<(), Fail> {
    expect_table(
        &rt,
        b"input 1\nstate c value\non row\nx = get c or 0\n",
        INSIDE,
        b"\nend\n%%\nr a 1 5\n",
    )?;
    expect(
        &rt,
        &[b"input 1\nstate c value\non row\nx = get c or 0\nput c x + v1\nemit z\nend\n%%\n"],
        "",
        program(6, 2),
    )
}

// The fault of a section with a line of this byte at line 2.
fn fault_as_line(byte: u8) -> Status {
    match byte {
        b' ' | b'\t' | b'\r' | b'\n' | b'#' => Status::Ok,
        _ => program(2, 1),
    }
}

#[test]
fn any_byte_as_a_line_or_in_a_comment(rt: HostRuntime) -> Result<(), Fail> {
    for byte in BYTES {
        let place: &[u8] = &[byte];
        let line = fault_as_line(byte);
        let out = if line == Status::Ok { "o a 5\n" } else { "" };
        expect(
            &rt,
            &[
                b"input 1\n",
                place,
                b"\non row\nemit v1\nend\n%%\nr a 1 5\n",
            ],
            out,
            line,
        )?;
        expect(
            &rt,
            &[
                b"#",
                place,
                b"\ninput 1\non row\nemit v1\nend\n%%\nr a 1 5\n",
            ],
            "o a 5\n",
            Status::Ok,
        )?;
    }
    Ok(())
}
