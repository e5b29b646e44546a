//! Drawn programs and events, under options that are drawn, beside the plain thread.
ghost use Rattle.std.specs.Prelude.{◌≤◌};
ghost use Rattle.ax_lang.specs.Shown.{shown_kinds};
ghost use Rattle.ax_plain.specs.Plain.{ThreadFits};

use crate::by_key::by_key;
use crate::draws::{Draws, drawn_events, drawn_groups, drawn_program, drawn_way};
use crate::inputs::with_events;
use crate::ways::written_by;
use ax_base::{Bytes, Line, SureSink};
use ax_input::read_event;
use ax_lang::Program;
use ax_lang::reader::{SectionEnd, read_program};
use ax_plain::PlainThread;
use std::alloc::{AllocGlobal, Global};
use std::process::Abort;
use std::test::Fail;

// The lines of a section.
fn section(alloc: Global, text: &str) -> Result<Vec<Line>, Fail> {
    let mut lines = Vec::new(alloc);
    let mut number: u64 = 0;
    for part in text.lines() {
        number = number.wrapping_add(1);
        let text = Bytes::from_slice(alloc, part.as_bytes())?;
        lines.push(Line { number, text })?;
    }
    Ok(lines)
}

fn program_of(rt: &impl Abort, alloc: Global, text: &str) -> Result<Program, Fail> {
    let section = section(alloc, text.strip_suffix("%%\n").unwrap_or(text))?;
    let end = SectionEnd {
        line: 1000,
        found: true,
    };
    Ok(
        read_program(alloc, &section, end)
            .ok()
            .expect(rt, "no fault"),
    )
}

fn take_line(
    rt: &impl Abort,
    alloc: Global,
    program: &Program,
    groups: u16,
    thread: &mut PlainThread,
    line: &str,
    out: &mut SureSink,
)
    requires least { 1 ≤ groups }
    requires most { groups ≤ 32768 }
    requires fits { ThreadFits (shown_kinds program.now) thread.old }
    ensures { ThreadFits (shown_kinds program.now) thread.new }
{
    let event = read_event(alloc, line.as_bytes(), 2)
        .ok()
        .expect(rt, "an event");
    thread
        .take(program, groups, &event, out)
        .expect(rt, "memory");
}

fn take_lines(
    rt: &impl Abort,
    alloc: Global,
    program: &Program,
    groups: u16,
    thread: &mut PlainThread,
    events: &str,
    out: &mut SureSink,
)
    requires least { 1 ≤ groups }
    requires most { groups ≤ 32768 }
    requires fits { ThreadFits (shown_kinds program.now) thread.old }
    ensures { ThreadFits (shown_kinds program.now) thread.new }
{
    for line in events.lines() {
        take_line(rt, alloc, program, groups, thread, line, out);
    }
}

// What the plain thread writes, sorted by key between two markers.
fn plainly(
    rt: &(impl Abort + AllocGlobal),
    text: &str,
    groups: u16,
    events: &str,
) -> Result<String, Fail>
    requires least { 1 ≤ groups }
    requires most { groups ≤ 32768 }
{
    let alloc = rt.alloc();
    let program = program_of(rt, alloc, text)?;
    let mut thread = PlainThread::new(alloc, &program)?;
    let mut out = SureSink::new(alloc);
    take_lines(rt, alloc, &program, groups, &mut thread, events, &mut out);
    Ok(by_key(alloc, out.bytes())?)
}

// A drawn program and what comes in, for which one way after another is drawn.
#[derive(Drop)]
struct Drawn {
    input: Bytes,
    // what the plain thread writes
    plain: String,
    groups: u16,
    draws: Draws,
}

fn case_of(
    rt: &(impl Abort + AllocGlobal),
    seed: u64,
    rows: u64,
    events: u64,
) -> Result<Drawn, Fail> {
    let alloc = rt.alloc();
    let mut draws = Draws::new(seed);
    let groups = drawn_groups(&mut draws);
    let program = drawn_program(alloc, seed)?;
    let events = drawn_events(alloc, seed, rows, events)?;
    let plain = plainly(rt, program.as_str(), groups, events.as_str())?;
    let input = with_events(alloc, program.as_bytes(), events.as_bytes())?;
    Ok(Drawn {
        input,
        plain,
        groups,
        draws,
    })
}

impl Drawn {
    // What is written in a way that is drawn, with so many rows in flight.
    fn expect_in_a_way(
        &mut self,
        rt: &(impl Abort + AllocGlobal),
        in_flight: u32,
    ) -> Result<(), Fail> {
        let way = drawn_way(rt.alloc(), &mut self.draws, in_flight, self.groups)?;
        let written = written_by(rt, way.as_str(), self.input.as_slice())?;
        assert_eq!(rt; written.as_str(), self.plain.as_str(), "under {way}");
        Ok(())
    }
}

#[test]
fn drawn_programs(rt: HostRuntime) -> Result<(), Fail> {
    for seed in 0..24 {
        let mut case = case_of(&rt, seed, 0, 60)?;
        for in_flight in [1, 5, 60] {
            case.expect_in_a_way(&rt, in_flight)?;
        }
    }
    Ok(())
}

#[test]
fn thousands_of_rows_in_flight(rt: HostRuntime) -> Result<(), Fail> {
    let mut case = case_of(&rt, 3, 6100, 20)?;
    case.expect_in_a_way(&rt, 6000)
}
