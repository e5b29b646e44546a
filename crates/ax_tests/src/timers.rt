//! Watermarks, timers and barriers.
use crate::expect::{COUNTER, expect_table};
use std::test::Fail;

// Sets a timer at the value of a row. Its events begin at line 10.
const TIMERS: &str =
    "input 1\non row\ntimer v1\nemit 1 , time\nend\non timer\nemit 2 , time , wm\nend\n%%\n";

// The same without a handler of timers.
const UNHANDLED: &str = "input 1\non row\ntimer v1\nend\n%%\n";

// Each timer sets the next.
const CHAIN: &str = "input 1\non row\ntimer v1\nend\non timer\ntimer time + 1\nend\n%%\n";

// A row moves the key's timer to its value, and a timer counts how often that was.
const MOVED: &str = "\
input 1
state at value
state moves value
on row
n = get moves or 0
old = get at or 0
put moves n + 1
put at v1
untimer old
timer v1
end
on timer
n = get moves or 0
emit n , time , wm - time
put moves 0
end
%%
";

// A line of these tables has events, what they write, and the fault of the input (`i`), with line and kind.

const COUNTED: &str = "\
r a 1 5;w 3;r a 4 7;|o a 5;w 3;o a 12;|
w 5;w 5;w 4;|w 5;|
w 5;w 4;w 6;|w 5;w 6;|
w -9223372036854775808;w -9223372036854775807;|w -9223372036854775807;|
w 9223372036854775807;w 9223372036854775807;|w 9223372036854775807;|
b 1;|s 1 -9223372036854775808;e 1 0;|
b 1;b 2;|s 1 -9223372036854775808;e 1 0;s 2 -9223372036854775808;e 2 0;|
b 9223372036854775807;|s 9223372036854775807 -9223372036854775808;e 9223372036854775807 0;|
r a 1 5;r b 2 7;w 2;w 1;b 1;|o a 5;o b 7;w 2;s 1 2;c b c 7;c a c 5;e 1 2;|
r a 1 5;b 1;r a 2 -9;b 2;|o a 5;s 1 -9223372036854775808;c a c 5;e 1 1;o a -4;s 2 -9223372036854775808;c a c -4;e 2 1;|
# w 7;  w\t8  ;b  001 ;|w 8;s 1 8;e 1 0;|";

const FIRED: &str = "\
w 5;r a 1 3;w 6;|w 5;o a 1 1;o a 2 3 6;w 6;|
r a 1 5;w 4;w 5;|o a 1 1;w 4;o a 2 5 5;w 5;|
r b 1 5;r a 2 5;w 5;|o b 1 1;o a 1 2;o a 2 5 5;o b 2 5 5;w 5;|
r a 1 9;r b 2 3;w 9;|o a 1 1;o b 1 2;o b 2 3 9;o a 2 9 9;w 9;|
r a 1 5;r a 2 5;w 5;w 6;|o a 1 1;o a 1 2;o a 2 5 5;w 5;w 6;|
r a 1 7;w 6;b 1;w 7;b 2;|o a 1 1;w 6;s 1 6;t a 7;e 1 1;o a 2 7 7;w 7;s 2 7;e 2 0;|
r a 1 9;r a 2 7;r a 3 8;r b 4 6;b 1;|o a 1 1;o a 1 2;o a 1 3;o b 1 4;s 1 -9223372036854775808;t b 6;t a 7;t a 8;t a 9;e 1 4;|
r a 1 -5;w -6;w -5;|o a 1 1;w -6;o a 2 -5 -5;w -5;|
r a 1 -9223372036854775808;w -9223372036854775808;w 0;|o a 1 1;o a 2 -9223372036854775808 0;w 0;|
r a 1 5;r b 1 4;r c 1 6;w 5;w 9;|o a 1 1;o b 1 1;o c 1 1;o b 2 4 5;o a 2 5 5;w 5;o c 2 6 9;w 9;|";

const TAKEN_OFF: &str = "\
r a 1 5;b 1;w 5;b 2;|s 1 -9223372036854775808;t a 5;e 1 1;w 5;s 2 5;e 2 0;|
r a 1 5;w 5;w 6;|w 5;w 6;|";

const SESSIONS: &str = "\
r a 1 5;r a 2 7;w 6;w 8;|w 6;o a 2 7 1;w 8;|
r a 1 5;r b 1 5;r a 2 9;w 5;r a 3 5;w 6;b 1;|o b 1 5 0;w 5;o a 3 5 1;w 6;s 1 6;c b at 5;c b moves 0;c a at 5;c a moves 0;e 1 4;|";

// A key fires 65,536 times at one watermark, and another goes on behind it; what is left fires at the next one.
const MANY: &str = "\
r a 1 0;w 9223372036854775807;b 1;|w 9223372036854775807;s 1 9223372036854775807;t a 65536;e 1 1;|
r a 1 0;r b 1 70000;w 100000;b 1;|w 100000;s 1 100000;t b 100001;t a 65536;e 1 2;|
r a 1 0;w 65535;b 1;w 131072;b 2;|w 65535;s 1 65535;t a 65536;e 1 1;w 131072;s 2 131072;t a 131072;e 2 1;|";

// Barriers whose number isn't greater than those before.
const LATE: &str = "\
b 2;b 2;|s 2 -9223372036854775808;e 2 0;|i 10 5
b 2;b 1;|s 2 -9223372036854775808;e 2 0;|i 10 5
b 2;b 0;|s 2 -9223372036854775808;e 2 0;|i 10 3
b 2;w 7;r a 1 5;b 2;r a 2 7;|s 2 -9223372036854775808;e 2 0;w 7;o a 5;|i 12 5
b 1;b 3;b 2;|s 1 -9223372036854775808;e 1 0;s 3 -9223372036854775808;e 3 0;|i 11 5";

#[test]
fn watermarks_and_blocks_of_values(rt: HostRuntime) -> Result<(), Fail> {
    expect_table(&rt, COUNTER.as_bytes(), COUNTED, b"")
}

#[test]
fn timers_fire_by_time_and_then_key(rt: HostRuntime) -> Result<(), Fail> {
    expect_table(&rt, TIMERS.as_bytes(), FIRED, b"")
}

#[test]
fn timers_without_a_handler_are_taken_off(rt: HostRuntime) -> Result<(), Fail> {
    expect_table(&rt, UNHANDLED.as_bytes(), TAKEN_OFF, b"")
}

#[test]
fn a_timer_moves_with_each_row(rt: HostRuntime) -> Result<(), Fail> {
    expect_table(&rt, MOVED.as_bytes(), SESSIONS, b"")
}

#[test]
fn a_key_fires_65536_times_at_a_watermark(rt: HostRuntime) -> Result<(), Fail> {
    expect_table(&rt, CHAIN.as_bytes(), MANY, b"")
}

#[test]
fn a_barrier_has_a_greater_number(rt: HostRuntime) -> Result<(), Fail> {
    expect_table(&rt, COUNTER.as_bytes(), LATE, b"")
}
