//! A controller driven by hand: what each call tells.
ghost use Rattle.ax_core_tests.specs.Hands.{IsReady};

use crate::calls::make;
use crate::hand::Hand;
use crate::lines::kept;
use crate::programs::program;
use ax_core::Settings;
use std::alloc::Global;
use std::process::Abort;
use std::test::Fail;

// A controller for a program, with eight shards.
fn hand_for(rt: &impl Abort, alloc: Global, text: &str, serial: bool, in_flight: u32) -> Hand
    ensures { IsReady result }
{
    let settings = Settings {
        serial,
        shards: 8,
        groups: 128,
        in_flight,
    };
    assert!(rt; in_flight <= 65536);
    Hand::new(alloc, program(rt, alloc, text), settings).expect(rt, "memory")
}

// Sums the values of each key.
const SUMS: &str = "input 1;state c value;on row;x = get c or 0;put c x + v1;emit x + v1;end";

// A row sets a timer at its value.
const TIMERS: &str = "input 1;on row;timer v1;emit 1 , time;end;on timer;emit 2 , time , wm;end";

// Two requests at once.
const ARMS: &str =
    "input 0;state p value;state q value;on row;both;x = get p or 3;with;y = get q or 4;end;put p y;put q x;emit x , y;end";

// Each line has the mode, how many may be in flight, calls, and what they tell. The key a is of shard 5, b of shard 1.

const SUMMED: &str = "\
serial|6000|r a 1 5;w 3;r a 4 7;M;S;d 5;k;M;S;d 5;M;k;r a 4 7;M;S;d 5;M;S;d 5;M|A1;full;S1;B5x1;-;R1.0;B5x1;R1.0!;o a 5;w 3;A2;S2;B5x1;R2.0;B5x1;R2.0!;o a 12;
serial|1|n;r a 1 5;r a 2 6;m;n;s 5 1000;w 3;k;d 5;M;S;d 5;M;n;k;k|=0;A1;full;S1;=1;B5x1;-;R1.0;B5x1;R1.0!;o a 5;=0;w 3;-;
serial|6000|r a 1 5;r b 2 1;r a 3 7;n;M;S;w 9;k;r c 1 1;d 5;M;n;d 1;M;S;d 1;d 5;M;n;S;d 5;M;S;d 5;M;k;n;r c 1 1|A1;A2;A3;=3;S1;S2;B1x1;B5x1;-;full;R1.0;=3;R2.0;B1x1;B5x1;R2.0!;o b 1;R1.0!;o a 5;S3;=1;B5x1;R3.0;B5x1;R3.0!;o a 12;w 9;=0;A4;
parallel|6000|r a 1 5;M;w 3;r a 4 7;b 1;r b 5 1;w 9;k;S;d 5;M;S;d 5;M;k;k;S;d 5;M;S;d 5;M;k;k;r b 5 1;w 9;k;M;S;d 1;M;S;d 1;M;k|A1;S1;A2;full;shut;-;B5x1;R1.0;B5x1;R1.0!;o a 5;S2;w 3;-;B5x1;R2.0;B5x1;R2.0!;o a 12;s 1 3;-;A3;-;S3;B1x1;R3.0;B1x1;R3.0!;o b 1;w 9;";

const TIMED: &str = "\
parallel|1|r a 1 10;M;r b 2 10;M;w 10;n;r b 11 20;f;r b 11 20;M;f;M;k;r b 11 20;M;n|A1;S1!;o a 1 1;A2;S2!;o b 1 2;=0;full;F3a@10/10;full;S3!;o a 2 10 10;F4b@10/10;S4!;o b 2 10 10;w 10;A5;S5!;o b 1 11;=0;
serial|10|w 5;k;r a 1 3;M;f;w 6;f;M;k;w 6;n|w 5;A1;S1!;o a 1 1;calm;F2a@3/6;S2!;o a 2 3 6;w 6;shut;=0;
parallel|10|r a 1 3;w 6;r a 7 4;m;k;m;k;M;k;w 8;f;M;k|A1;A2;S1!;o a 1 1;F3a@3/6;-;S3!;o a 2 3 6;w 6;S2!;o a 1 7;-;F4a@4/8;S4!;o a 2 4 8;w 8;";

const BOTH: &str = "\
serial|10|r a 1;r a 2;M;s 5 1;d 5;M;s 5 1;n;d 5;M;S;d 5;M;S;d 5;M;S;d 5;M;S;d 5;M;S;d 5;M;S;d 5;M;n|A1;A2;S1;B5x1;R1.0;B5x1;=2;R1.1;B5x1;R1.0;B5x1;R1.0!;o a 3 4;S2;B5x2;R2.0;R2.1;B5x1;R2.0;B5x1;R2.0!;o a 4 3;=0;";

// Two batches of one shard are out at once, and come back in their order or in the other.

const TWO_KEYS: &str = "\
serial|10|r a 1 5;r j 2 7;M;t 5 1;t 5 1;d 5;M;t 5 1;t 5 1;d 5;M;n|A1;A2;S1;S2;T5x1;T5x1;R1.0;R2.0;T5x1;T5x1;R1.0!;o a 5;R2.0!;o j 7;=0;
serial|10|r a 1 5;r j 2 7;M;t 5 1;t 5 1;l 5 1;M;d 5;M;t 5 1;t 5 1;l 5 1;M;d 5;M;n|A1;A2;S1;S2;T5x1;T5x1;R2.0;R1.0;T5x1;T5x1;R1.0!;o a 5;R2.0!;o j 7;=0;";

const TWO_SLOTS: &str = "\
serial|10|r a 1;M;t 5 1;t 5 1;d 5;M;S;d 5;M;S;d 5;M;n|A1;S1;T5x1;T5x1;R1.0;R1.1;B5x1;R1.0;B5x1;R1.0!;o a 3 4;=0;
serial|10|r a 1;M;t 5 1;t 5 1;l 5 1;M;d 5;M;S;d 5;M;S;d 5;M;n|A1;S1;T5x1;T5x1;R1.1;R1.0;B5x1;R1.0;B5x1;R1.0!;o a 3 4;=0;";

// A barrier, and what may not be while its block waits.

const BARRIERS: &str = "\
serial|10|v;r a 1 5;b 1;r a 2 7;w 3;b 2;k;M;a 5;k;S;a 5;k;d 5;k;M;k;S;k;d 5;k;M;k;k;r a 2 7;w 3;n;v;M;S;d 5;M;S;d 5;M;k;b 2;k|10@-9223372036854775808;A1;full;shut;shut;-;S1;Q5x1;-;B5x1;Q5x0;-;-;R1.0;-;B5x1;-;-;R1.0!;o a 5;s 1 -9223372036854775808;-;A2;=1;10@3;S2;B5x1;R2.0;B5x1;R2.0!;o a 12;w 3;s 2 3;
parallel|10|r a 1 5;r b 1 2;b 1;M;a 5;a 1;S;d 5;M;S;d 5;M;n;k;r c 1 1;d 1;M;k;S;k;d 1;M;k;r c 1 1|A1;A2;S1;S2;Q5x1;Q1x1;B1x1;B5x1;R1.0;B5x1;R1.0!;o a 5;=1;-;full;R2.0;-;B1x1;-;R2.0!;o b 2;s 1 -9223372036854775808;A3;
serial|1|r a 1 5;r b 1 1;m;a 5;a 1;s 5 1000;a 5;w 3;k|A1;full;S1;Q5x1;Q1x0;B5x1;Q5x0;-;";

const TIMED_BARRIERS: &str = "\
serial|10|r a 1 3;M;w 6;b 1;k;f;b 1;M;k;b 1;r a 7 1;k;r a 7 9|A1;S1!;o a 1 1;shut;-;F2a@3/6;shut;S2!;o a 2 3 6;w 6;full;s 1 6;A3;
parallel|10|r a 1 3;M;w 6;b 1;w 9;k;f;k;M;k;k|A1;S1!;o a 1 1;shut;-;F2a@3/6;-;S2!;o a 2 3 6;w 6;s 1 6;";

// The next row comes, where there is one and it may.
fn next_row(rt: &impl Abort, hand: &mut Hand, next: i64, told: &mut String) -> bool
    requires { IsReady hand.old }
    ensures { IsReady hand.new }
{
    if next > 20 {
        return false;
    }
    let row = format!(in hand.alloc; "r a {next} {next}").expect(rt, "memory");
    make(rt, hand, row.as_str(), told).is_some()
}

// The next row where one may come; else all mails, all batches, and what was answered.
fn row_or_work(rt: &impl Abort, hand: &mut Hand, next: i64, told: &mut String) -> i64
    requires { IsReady hand.old }
    ensures { IsReady hand.new }
{
    if next_row(rt, hand, next, told) {
        next.wrapping_add(1)
    } else {
        let _event = make(rt, hand, "M;S;D", told);
        next
    }
}

// So many turns, from the first row on.
fn rows_and_work(rt: &impl Abort, hand: &mut Hand, turns: u32, told: &mut String)
    requires { IsReady hand.old }
    ensures { IsReady hand.new }
{
    let mut next: i64 = 1;
    for _turn in 0..turns {
        next = row_or_work(rt, hand, next, told);
    }
}

// The lines of twenty rows of one key, one after the other or all at once.
fn twenty_rows(rt: &impl Abort, alloc: Global, in_flight: u32) -> String {
    let mut told = String::new(alloc);
    let mut hand = hand_for(rt, alloc, SUMS, true, in_flight);
    rows_and_work(rt, &mut hand, 200, &mut told);
    kept(rt, alloc, told.as_str(), ';', "o ")
}

#[test]
fn twenty_rows_of_a_key(rt: HostRuntime) {
    let alloc = rt.alloc();
    let sums = "o a 1;o a 3;o a 6;o a 10;o a 15;o a 21;o a 28;o a 36;o a 45;o a 55;\
        o a 66;o a 78;o a 91;o a 105;o a 120;o a 136;o a 153;o a 171;o a 190;o a 210;";
    assert_eq!(rt; twenty_rows(&rt, alloc, 1).as_str(), sums);
    assert_eq!(rt; twenty_rows(&rt, alloc, 6000).as_str(), sums);
}

// What the calls of the first case tell that tells something else.
fn first_wrong(rt: &impl Abort, alloc: Global, text: &str, table: &str) -> String {
    for case in table.lines() {
        let mut parts = case.split('|');
        let serial = parts.next().unwrap_or("") == "serial";
        let in_flight = parts.next().unwrap_or("").parse::<u32>().unwrap_or(0);
        let mut told = String::new(alloc);
        let mut hand = hand_for(rt, alloc, text, serial, in_flight);
        let _event = make(rt, &mut hand, parts.next().unwrap_or(""), &mut told);
        if told.as_str() != parts.next().unwrap_or("") {
            return told;
        }
    }
    String::new(alloc)
}

#[test]
fn calls_by_hand(rt: HostRuntime) {
    let alloc = rt.alloc();
    assert_eq!(rt; first_wrong(&rt, alloc, SUMS, SUMMED).as_str(), "");
    assert_eq!(rt; first_wrong(&rt, alloc, SUMS, BARRIERS).as_str(), "");
    assert_eq!(rt; first_wrong(&rt, alloc, TIMERS, TIMED).as_str(), "");
    assert_eq!(rt;
        first_wrong(&rt, alloc, TIMERS, TIMED_BARRIERS).as_str(),
        ""
    );
    assert_eq!(rt; first_wrong(&rt, alloc, ARMS, BOTH).as_str(), "");
    assert_eq!(rt; first_wrong(&rt, alloc, SUMS, TWO_KEYS).as_str(), "");
    assert_eq!(rt; first_wrong(&rt, alloc, ARMS, TWO_SLOTS).as_str(), "");
}
