//! A controller whose calls are drawn, beside the plain thread: what it writes of each key, and the markers in their places.
ghost use Rattle.std.specs.Prelude.{◌≡◌};
ghost use Rattle.ax_lang.specs.Shown.{shown_kinds};
ghost use Rattle.ax_plain.specs.Plain.{ThreadFits};
ghost use Rattle.ax_core_tests.specs.Hands.{IsReady};

use crate::calls::make;
use crate::hand::Hand;
use crate::lines::{count, differs, is_early};
use crate::programs::program;
use ax_base::SureSink;
use ax_core::Settings;
use ax_input::Event;
use ax_lang::Program;
use ax_plain::PlainThread;
use std::alloc::Global;
use std::process::Abort;
use std::test::Fail;

// A number below `most`, by Knuth's linear congruential generator for 64 bits (MMIX).
fn below(draws: &mut u64, most: u64) -> u64 {
    *draws = draws
        .wrapping_mul(6364136223846793005)
        .wrapping_add(1442695040888963407);
    if most == 0 { 0 } else { (*draws >> 33) % most }
}

// A letter of a word.
fn letter_of(draws: &mut u64, word: &str) -> char {
    let place = below(draws, word.len() as u64) as usize;
    match word.as_bytes().get(place) {
        Some(letter) => char::from(*letter),
        None => '?',
    }
}

// Rows, watermarks and few barriers among what is done for them: one call, or all that can be done at once (`W`).
const LETTERS: &str = "rrrrrrrrrrrrwwwbmMsStdDlffkkkWWWWWWWWWW";

// Calls at a time, with one event at most.
fn drawn_line(rt: &impl Abort, alloc: Global, draws: &mut u64, time: i64) -> String {
    let letter = letter_of(draws, LETTERS);
    let key = letter_of(draws, "abc");
    let number = below(draws, 20);
    let shard = below(draws, 4);
    let line = match letter {
        'r' => format!(in alloc; "r {key} {time} {number}"),
        'w' | 'b' => format!(in alloc; "{letter} {time}"),
        'W' => format!(in alloc; "f;M;S;D;M;S;D;M;k"),
        _ => format!(in alloc; "{letter} {shard} {}", number % 4),
    };
    line.expect(rt, "memory")
}

// The plain thread takes the event, if there is one.
fn take_plain(
    rt: &impl Abort,
    thread: &mut PlainThread,
    program: &Program,
    event: &Option<Event>,
    out: &mut SureSink,
)
    requires { ThreadFits (shown_kinds program.now) thread.old }
    ensures { ThreadFits (shown_kinds program.now) thread.new }
{
    if let Some(event) = event {
        thread.take(program, 128, event, out).expect(rt, "memory");
    }
}

// So many calls that are drawn. The plain thread takes each event that they take.
fn both_take(
    rt: &impl Abort,
    alloc: Global,
    hand: &mut Hand,
    told: &mut String,
    thread: &mut PlainThread,
    program: &Program,
    out: &mut SureSink,
    seed: u64,
    calls: i64,
)
    requires hand { IsReady hand.old }
    requires thread { ThreadFits (shown_kinds program.now) thread.old }
    ensures hand { IsReady hand.new }
    ensures thread { ThreadFits (shown_kinds program.now) thread.new }
{
    let mut draws = seed;
    for time in 0..calls {
        let line = drawn_line(rt, alloc, &mut draws, time);
        let event = make(rt, hand, line.as_str(), told);
        take_plain(rt, thread, program, &event, out);
    }
}

// Goes on without new events, so many times.
fn finish(rt: &impl Abort, hand: &mut Hand, told: &mut String, turns: u32)
    requires { IsReady hand.old }
    ensures { IsReady hand.new }
{
    for _turn in 0..turns {
        let _event = make(rt, hand, "f;k;M;S;D", told);
    }
}

// What is wrong with what was told beside what the plain thread wrote, if anything.
fn wrong(rt: &impl Abort, alloc: Global, told: &str, written: &str, serial: bool) -> String {
    let mut wrong = String::new(alloc);
    let part = differs(rt, alloc, told, written, '\n', serial);
    write!(wrong, "{part}").expect(rt, "memory");
    for head in "o a ;o b ;o c ".split(';') {
        if is_early(rt, alloc, told, written, head) {
            write!(wrong, "a marker before {head}").expect(rt, "memory");
        }
    }
    let lines = count(told, ';', "o ");
    let markers = count(told, ';', "w ,s ");
    let barriers = count(told, ';', "s ");
    let fired = count(told, ';', "F");
    if lines < 100 || markers < 40 || barriers < 8 || fired < 50 {
        write!(
            wrong,
            "few: {lines} lines, {markers} markers, {barriers} barriers, {fired} fired"
        )
        .expect(rt, "memory");
    }
    wrong
}

// What is wrong with a run of so many calls that are drawn, if anything.
fn drawn_wrong(
    rt: &impl Abort,
    alloc: Global,
    text: &str,
    serial: bool,
    in_flight: u32,
    seed: u64,
    calls: i64,
) -> String {
    let settings = Settings {
        serial,
        shards: 4,
        groups: 128,
        in_flight,
    };
    assert!(rt; in_flight <= 65536);
    let plain = program(rt, alloc, text);
    let mut thread = PlainThread::new(alloc, &plain).expect(rt, "memory");
    let mut out = SureSink::new(alloc);
    let mut told = String::new(alloc);
    let mut hand = Hand::new(alloc, program(rt, alloc, text), settings).expect(rt, "memory");
    both_take(
        rt,
        alloc,
        &mut hand,
        &mut told,
        &mut thread,
        &plain,
        &mut out,
        seed,
        calls,
    );
    finish(rt, &mut hand, &mut told, 300);
    if hand.core.in_flight() != 0 {
        write!(told, "o a in flight;").expect(rt, "memory");
    }
    let written = str::from_utf8(out.bytes()).unwrap_or("?");
    wrong(rt, alloc, told.as_str(), written, serial)
}

// Each line has a program.
const PROGRAMS: &str = "\
input 1;state c value;on row;x = get c or 0;put c x + v1;emit x + v1;timer time;end;on timer;emit time , wm;end
input 1;state c value;state d value;on row;both;x = get c or 0;put c x + v1;with;y = get d or 1;put d y * 2;end;emit x , y;timer time + v1;end;on timer;x = get c or 0;put c x - 1;emit 0 - x , time , wm;end
input 1;state l list;on row;if v1 < 15;add l v1;else;each i in l;emit i , v1;end;clear l;end;timer time;end;on timer;each i in l;emit 0 - i;end;end
input 1;state m map;on row;put m v1 , time;n = get m v1 + 1 or 0;emit n;untimer n;timer time + 3;end;on timer;e = empty m;emit e , time;each k n in m;if k < 10;remove m k;end;end;end";

#[test]
fn drawn_calls(rt: HostRuntime) {
    let alloc = rt.alloc();
    let mut seed: u64 = 7;
    for text in PROGRAMS.lines() {
        for in_flight in [1, 5, 60] {
            for serial in [true, false] {
                seed = seed.wrapping_add(1);
                let wrong = drawn_wrong(&rt, alloc, text, serial, in_flight, seed, 1000);
                assert_eq!(rt; wrong.as_str(), "");
            }
        }
    }
}

// What is told and what is written, each line with another difference.
const DIFFERENT: &str = "\
o a 1;w 5;|w 5;o a 1;
w 5;o a 1;|o a 1;w 5;
w 5;|o a 1;w 5;
o a 1;o a 2;|o a 2;o a 1;
o a 1;s 1 5;o b 1;|o b 1;o a 1;s 1 5;
o c 1;w 5;|o c 1;w 6;";

#[test]
fn differences_are_seen(rt: HostRuntime) {
    let alloc = rt.alloc();
    for row in DIFFERENT.lines() {
        let mut parts = row.split('|');
        let told = parts.next().unwrap_or("");
        let written = parts.next().unwrap_or("");
        let part = differs(&rt, alloc, told, written, ';', true);
        assert!(rt; part.len() > 0);
    }
}
