//! Calls of a controller, each in a line of text, and what they tell.
//!
//! A call is the line of an event, which comes in (`r`, `w` or `b`), or one of these letters:
//!
//! - `m` runs a mail, if one waits, and `M` all that wait.
//! - `s SHARD MAX` takes a batch of a shard that is home, `S` one of each, and `t SHARD MAX` one more of a shard, home or not.
//! - `d SHARD` delivers all that is out of a shard, `D` of each, and `l SHARD COUNT` the last replies alone.
//! - `f` lets a key fire, and `k` takes the next marker.
//! - `a SHARD` asks how much a shard's queue holds, `n` how many are in flight, and `v` the limit and the watermark.
//!
//! What is told ends with `;` each time:
//!
//! - `A3`: a row came in as context 3; `full`: it may not. `shut`: the epoch may not be closed.
//! - `S3`: context 3 begins; `R3.1`: it is answered at slot 1. `!` behind it: the context is given up.
//! - `F3a@5/7`: context 3 is of the timer of key a at 5, which fires at watermark 7; `calm`: no key may fire.
//! - `B5x2` and `T5x2`: a batch of shard 5 with two requests.
//! - `Q5x2`: the queue of shard 5 holds two requests; `=2`: two are in flight; `60@7`: 60 may be, and the watermark is 7.
//! - `o`, `w` and `s` begin the lines of a key, of a watermark, and the head of a barrier's block; `-`: there is no marker to send.
ghost use Rattle.ax_core_tests.specs.Hands.{IsReady};

use crate::hand::Hand;
use ax_core::{Effects, Fired, Marker, Ran};
use ax_input::{Event, read_event};
use std::process::Abort;
use std::str::Split;

// The next word as a number, and 0 where it is none.
fn number(word: Option<&str>) -> u32 {
    word.unwrap_or("0").parse::<u32>().unwrap_or(0)
}

fn shard_in(word: Option<&str>) -> u16 {
    u16::try_from(number(word)).unwrap_or(99)
}

fn note_fired(rt: &impl Abort, told: &mut String, f: &Fired) {
    let key = str::from_utf8(f.key.as_bytes()).unwrap_or("?");
    write!(told, "F{}{key}@{}/{};", f.context, f.time, f.mark).expect(rt, "memory");
}

fn note_line(rt: &impl Abort, told: &mut String, key: &str, numbers: &[i64]) {
    write!(told, "o {key}").expect(rt, "memory");
    for number in numbers {
        write!(told, " {number}").expect(rt, "memory");
    }
    write!(told, ";").expect(rt, "memory");
}

// The callback, its lines, and the timer that fires behind it.
fn note_effects(rt: &impl Abort, told: &mut String, e: &Effects) {
    match e.ran {
        Ran::Start { context } => write!(told, "S{context}").expect(rt, "memory"),
        Ran::Reply { context, slot } => {
            write!(told, "R{context}.{slot}").expect(rt, "memory");
        }
    }
    let end = if e.gone { "!;" } else { ";" };
    write!(told, "{end}").expect(rt, "memory");
    let key = str::from_utf8(e.key.as_bytes()).unwrap_or("?");
    for line in e.outs.as_slice() {
        note_line(rt, told, key, line.as_slice());
    }
    if let Some(f) = &e.fired {
        note_fired(rt, told, f);
    }
}

// An event comes in, or is refused.
fn come(rt: &impl Abort, hand: &mut Hand, event: Event, told: &mut String) -> bool
    requires { IsReady hand.old }
    ensures { IsReady hand.new }
{
    match event {
        Event::Row { key, time, values } => {
            let admitted = hand.admit(key, time, values).expect(rt, "memory");
            match admitted {
                Some(n) => write!(told, "A{n};").expect(rt, "memory"),
                None => write!(told, "full;").expect(rt, "memory"),
            }
            admitted.is_some()
        }
        Event::Mark { time } => close(rt, hand, Marker::Mark { time }, told),
        Event::Barrier { id } => close(rt, hand, Marker::Barrier { id }, told),
    }
}

fn close(rt: &impl Abort, hand: &mut Hand, m: Marker, told: &mut String) -> bool
    requires { IsReady hand.old }
    ensures { IsReady hand.new }
{
    let closed = hand.close(m).expect(rt, "memory");
    if !closed {
        write!(told, "shut;").expect(rt, "memory");
    }
    closed
}

// One mail, if one waits.
fn mail(rt: &impl Abort, hand: &mut Hand, told: &mut String) -> bool
    requires { IsReady hand.old }
    ensures { IsReady hand.new }
{
    match hand.mail().expect(rt, "memory") {
        Some(e) => {
            note_effects(rt, told, &e);
            true
        }
        None => false,
    }
}

// All mails, up to a hundred.
fn mails(rt: &impl Abort, hand: &mut Hand, told: &mut String)
    requires { IsReady hand.old }
    ensures { IsReady hand.new }
{
    for _n in 0..100 {
        if !mail(rt, hand, told) {
            return;
        }
    }
}

fn batch(rt: &impl Abort, hand: &mut Hand, shard: u16, max: u32, told: &mut String)
    requires { IsReady hand.old }
    ensures { IsReady hand.new }
{
    let count = hand.batch(shard, max).expect(rt, "memory");
    if count > 0 {
        write!(told, "B{shard}x{count};").expect(rt, "memory");
    }
}

// A batch of each shard.
fn batches(rt: &impl Abort, hand: &mut Hand, told: &mut String)
    requires { IsReady hand.old }
    ensures { IsReady hand.new }
{
    for shard in 0..8 {
        batch(rt, hand, shard, 1000, told);
    }
}

// All that is out of each shard.
fn deliveries(hand: &mut Hand)
    requires { IsReady hand.old }
    ensures { IsReady hand.new }
{
    for shard in 0..8 {
        let _count = hand.deliver(shard);
    }
}

// The marker that is next, as its line or the head of its block.
fn marker(rt: &impl Abort, hand: &mut Hand, told: &mut String)
    requires { IsReady hand.old }
    ensures { IsReady hand.new }
{
    match hand.marker() {
        Some(Marker::Mark { time }) => write!(told, "w {time};").expect(rt, "memory"),
        Some(Marker::Barrier { id }) => {
            write!(told, "s {id} {};", hand.core.wm()).expect(rt, "memory");
        }
        None => write!(told, "-;").expect(rt, "memory"),
    }
}

// A call by its letter.
fn call_letter(
    rt: &impl Abort,
    hand: &mut Hand,
    letter: &str,
    words: Split<'_, char>,
    told: &mut String,
)
    requires { IsReady hand.old }
    ensures { IsReady hand.new }
{
    let mut words = words;
    let shard = shard_in(words.next());
    let count = number(words.next());
    match letter {
        "m" => {
            let _ran = mail(rt, hand, told);
        }
        "M" => mails(rt, hand, told),
        "s" => batch(rt, hand, shard, count, told),
        "S" => batches(rt, hand, told),
        "t" => {
            let count = hand.further(shard, count).expect(rt, "memory");
            write!(told, "T{shard}x{count};").expect(rt, "memory");
        }
        "d" => {
            let _count = hand.deliver(shard);
        }
        "D" => deliveries(hand),
        "l" => {
            let _count = hand
                .deliver_last(shard, count as usize)
                .expect(rt, "memory");
        }
        "f" => match hand.fire().expect(rt, "memory") {
            Some(f) => note_fired(rt, told, &f),
            None => write!(told, "calm;").expect(rt, "memory"),
        },
        "k" => marker(rt, hand, told),
        "a" => write!(told, "Q{shard}x{};", hand.active(shard)).expect(rt, "memory"),
        "v" => write!(told, "{}@{};", hand.core.limit(), hand.core.wm()).expect(rt, "memory"),
        _ => write!(told, "={};", hand.core.in_flight()).expect(rt, "memory"),
    }
}

// One call. The event that it took, if it took one.
fn call(rt: &impl Abort, hand: &mut Hand, line: &str, told: &mut String) -> Option<Event>
    requires { IsReady hand.old }
    ensures { IsReady hand.new }
{
    let fields = hand.core.program().fields();
    let Ok(event) = read_event(hand.alloc, line.as_bytes(), fields) else {
        let mut words = line.split(' ');
        let letter = words.next().unwrap_or("");
        call_letter(rt, hand, letter, words, told);
        return None;
    };
    if come(rt, hand, event, told) {
        read_event(hand.alloc, line.as_bytes(), fields).ok()
    } else {
        None
    }
}

/// Calls that `;` parts. The event that they took, and the last where they took several.
pub fn make(rt: &impl Abort, hand: &mut Hand, calls: &str, told: &mut String) -> Option<Event>
    requires { IsReady hand.old }
    ensures { IsReady hand.new }
{
    let mut taken = None;
    for line in calls.split(';') {
        if let Some(event) = call(rt, hand, line, told) {
            taken = Some(event);
        }
    }
    taken
}
