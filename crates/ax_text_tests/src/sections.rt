//! Programs and their first faults.
use ax_base::{Bytes, Line, ListOf, NoMemory};
use ax_lang::program::Program;
use ax_lang::reader::{ProgFault, SectionEnd, read_program};
use ax_lang::step::Stmt;
use ax_text::Handler;
use std::alloc::Global;

fn add(lines: &mut Vec<Line>, text: Bytes) -> Result<(), NoMemory> {
    let before = lines.len() as u64;
    let number = before.wrapping_add(1);
    match lines.push(Line { number, text }) {
        Ok(()) => Ok(()),
        Err(_) => Err(NoMemory),
    }
}

/// A line of this text.
pub fn add_text(alloc: Global, lines: &mut Vec<Line>, text: &str) -> Result<(), NoMemory> {
    add(lines, ListOf::from_slice(alloc, text.as_bytes())?)
}

/// A line of a word and a number, as `n7`, between two texts.
pub fn add_numbered(
    alloc: Global,
    lines: &mut Vec<Line>,
    front: &str,
    n: usize,
    back: &str,
) -> Result<(), NoMemory> {
    match format!(in alloc; "{front}{n}{back}") {
        Ok(text) => add_text(alloc, lines, text.as_str()),
        Err(_) => Err(NoMemory),
    }
}

/// The lines of a text in which `;` ends a line.
pub fn section(alloc: Global, text: &str) -> Result<Vec<Line>, NoMemory> {
    let mut lines = Vec::new(alloc);
    let mut line = ListOf::new(alloc);
    for b in text.as_bytes() {
        if *b == b';' {
            add(&mut lines, line)?;
            line = ListOf::new(alloc);
        } else {
            line.push(*b)?;
        }
    }
    if !line.as_slice().is_empty() {
        add(&mut lines, line)?;
    }
    Ok(lines)
}

/// The line and kind of the first fault; 0 and 0 where there is none.
pub fn fault_of(alloc: Global, lines: &[Line], found: bool) -> Result<(u64, u8), NoMemory> {
    let before = lines.len() as u64;
    let line = before.wrapping_add(1);
    match read_program(alloc, lines, SectionEnd { line, found }) {
        Ok(_) => Ok((0, 0)),
        Err(ProgFault::At { line, kind }) => Ok((line, kind)),
        Err(ProgFault::NoMemory) => Err(NoMemory),
    }
}

/// The same of a text in which `;` ends a line.
pub fn fault_in(alloc: Global, text: &str, found: bool) -> Result<(u64, u8), NoMemory> {
    let lines = section(alloc, text)?;
    fault_of(alloc, &lines, found)
}

// A line of these tables has a program with `;` between its lines, and behind `|` the line and kind of its first fault;
// 0 and 0 where there is none.

const WHOLE: &str = "\
input 0;on row;end|0 0
input 16;on row;emit v1 , v16;end|0 0
input 2;state s value;on row;n = get s or 0;put s n + v1 - 1;emit n , time , v2;end|0 0
input 1;state s value;on row;x = get s or 1 + v1;x = get s or x;end|0 0
\tinput   1\r;state v value;state v1x value;on row;x = get v1x or 0;put v x;end|0 0
input 0;on row;emit -9223372036854775808 - 007;end|0 0
input 0;on row;emit 1 , 2 , 3 , 4 , 5 , 6 , 7 , 8 , 9 , 10 , 11 , 12 , 13 , 14 , 15 , 16;end|0 0
input 0;state a value;state b value;on row;x = get b or 0;put a x;put b x;emit x;end|0 0
input 1;on row;emit wm;timer time + v1;untimer wm - 1;end|0 0
input 1;on row;end;on timer;end|0 0
input 1;on row;timer wm;end;on timer;emit wm , time;end|0 0
input 1;state s value;on row;x = get s or v1;end;on timer;x = get s or 0;put s x + 1;untimer x;timer time + wm;end|0 0
input 1;state s list;state t map;on row;emit ( 1 + v1 ) * 2 , 1 < 2;timer time * 2;untimer ( time );end;on timer;let x = 1;end|0 0
input 1;state s list;state t map;on row;if v1;each x in s;add s x;end;else;both;y = has t 1;with;let z = 2;end;end;clear t;end|0 0";

const MISPLACED: &str = "\
;|1 1
input|1 1
input 17|1 1
input -1|1 1
input 1;input 17|2 1
state s value|1 1
on row|1 1
on timer|1 1
input 1;on timer|2 1
input 1;on row;on timer|3 1
input 1;on row;on row|3 1
input 1;on row;input 1|3 1
input 1;on row;end;state s value|4 1
input 1;on row;end;end|4 1
input 1;on row;end;emit 1|4 1
input 1;on row;end;timer 1|4 1
input 1;on row;end;on timer;on timer|5 1
input 1;on row;end;on timer;on row|5 1
input 1;on row;end;on timer;input 1|5 1
input 1;on row;end;on timer;end;end|6 1
input 1;on row;end;on timer;end;emit 1|6 1
input 1;on row;end;on timer;end;untimer 1|6 1
input 1;on row;end;on timer;end;state s value|6 1
input 1;emit 1|2 1
input 1;emit 1 * 2|2 1
input 1;timer 1|2 1
input 1;untimer time * 2|2 1
input 1;on row;else|3 1
input 1;on row;with|3 1
input 1;on row;emit|3 1
input 1;on row;emit 1 *|3 1
input 1;on row;emit 1 + X|3 1
input 1;on row;emit 9223372036854775808|3 1
input 1;on row;emit 1 , 2 , 3 , 4 , 5 , 6 , 7 , 8 , 9 , 10 , 11 , 12 , 13 , 14 , 15 , 16 , 17|3 1
input 1;on row;timer|3 1
input 1;on row;untimer|3 1
input 1;on row;timer 1 , 2|3 1
input 1;on row;untimer 1 +|3 1
input 1;on row;end;on timer x|4 1
input 1;state input value|2 1
input 1;state timer value|2 1
input 1;state wm value|2 1
input 1;state v1 value|2 1
input 1;state s number|2 1";

const TWICE: &str = "\
input 1;input 1|2 3
input 1;state s value;state s value|3 3
input 1;on row;end;on row|4 3
input 1;on row;end;input 2|4 3
input 1;on row;end;on timer;end;on timer|6 3
input 1;on row;end;on timer;end;on row|6 3
input 1;on row;end;on timer;end;input 2|6 3
input 1;state s value;state s list|3 3";

const UNKNOWN: &str = "\
input 1;on row;emit x|3 2
input 1;on row;x = get x or 0|3 2
input 1;on row;put x 1|3 2
input 1;state s value;on row;x = get s or x|4 2
input 1;state s value;on row;s = get t or 0|4 2
input 1;state s value;on row;emit s + x|4 2
input 1;on row;emit v0|3 2
input 1;on row;emit v01|3 2
input 1;on row;emit 1 , v2|3 2
input 16;on row;emit v17|3 2
input 1;on row;timer x|3 2
input 1;on row;untimer 1 + x|3 2
input 1;on row;timer v2|3 2
input 1;on row;end;on timer;emit v1|5 2
input 16;on row;emit v1;end;on timer;timer time + v16|6 2
input 0;on row;end;on timer;untimer v1|5 2
input 1;state s value;on row;end;on timer;x = get s or v1|6 2
input 1;state s value;on row;x = get s or 0;end;on timer;emit x|7 2
input 1;on row;emit x;emit 1 * 2;on row|3 2
input 1;on row;emit x * 2|3 2
input 1;on row;end;on timer;emit v1 * 2|5 2
input 1;on row;clear s|3 2
input 1;on row;each x in s|3 2
input 1;on row;x = has s 1|3 2
input 1;on row;x = get s 1 or 2|3 2";

const WRONG_KIND: &str = "\
input 1;state s value;on row;emit 1 + s|4 4
input 1;state s value;on row;s = get s or 0|4 4
input 1;state s value;on row;x = get s or 0;put x 1|5 4
input 1;state s value;on row;x = get s or 0;y = get x or 0|5 4
input 1;state s value;on row;timer s|4 4
input 1;state s value;on row;end;on timer;untimer time + s|6 4
input 1;state s value;on row;emit s * 2|4 4
input 1;state s value;on row;put s 1 , 2|4 4";

const DUE: &str = "\
|1 10
input 1|2 10
input 1;on row;emit 1|4 10
input 1;on row;end;on timer|5 10
input 1;on row;end;on timer;emit wm|6 10
input 1;state s map|3 10
input 1;on row;if 1|4 10
input 1;on row;both|4 10";

// The line and kind that a table names.
fn named(fault: &str) -> (u64, u8) {
    let mut words = fault.split(' ');
    let line = words.next().unwrap_or("").parse::<u64>().unwrap_or(98);
    let kind = words.next().unwrap_or("").parse::<u8>().unwrap_or(98);
    (line, kind)
}

/// The first line of a table whose program has another fault.
pub fn first_wrong(alloc: Global, table: &str) -> Option<usize> {
    let mut at: usize = 0;
    for case in table.lines() {
        let mut parts = case.split('|');
        let text = parts.next().unwrap_or("");
        let expected = named(parts.next().unwrap_or(""));
        if fault_in(alloc, text, true).unwrap_or((99, 99)) != expected {
            return Some(at);
        }
        at = at.wrapping_add(1);
    }
    None
}

#[test]
fn first_faults(rt: HostRuntime) {
    let alloc = rt.alloc();
    assert_eq!(rt; first_wrong(alloc, WHOLE), None);
    assert_eq!(rt; first_wrong(alloc, MISPLACED), None);
    assert_eq!(rt; first_wrong(alloc, TWICE), None);
    assert_eq!(rt; first_wrong(alloc, UNKNOWN), None);
    assert_eq!(rt; first_wrong(alloc, WRONG_KIND), None);
    assert_eq!(rt; first_wrong(alloc, DUE), None);
}

#[test]
fn end_not_found(rt: HostRuntime) {
    let alloc = rt.alloc();
    let whole = fault_in(alloc, "input 0; on row; end", false).unwrap_or((99, 99));
    assert_eq!(rt; whole, (4, 10));
    let faulty = fault_in(alloc, "input 0; emit 1", false).unwrap_or((99, 99));
    assert_eq!(rt; faulty, (2, 1));
}

// This many states, then this line.
fn with_states(alloc: Global, count: usize, last: &str) -> Result<(u64, u8), NoMemory> {
    let mut lines = section(alloc, "input 1")?;
    for n in 0..count {
        add_numbered(alloc, &mut lines, "state s", n, " value")?;
    }
    add_text(alloc, &mut lines, last)?;
    add_text(alloc, &mut lines, "end")?;
    fault_of(alloc, &lines, true)
}

// This many statements in `on row`, and this many in `on timer`.
fn with_statements(alloc: Global, row: usize, timer: usize) -> Result<(u64, u8), NoMemory> {
    let mut lines = section(alloc, "input 1; on row")?;
    for _n in 0..row {
        add_text(alloc, &mut lines, "emit v1")?;
    }
    add_text(alloc, &mut lines, "end")?;
    add_text(alloc, &mut lines, "on timer")?;
    for _n in 0..timer {
        add_text(alloc, &mut lines, "timer wm")?;
    }
    add_text(alloc, &mut lines, "end")?;
    fault_of(alloc, &lines, true)
}

// This many local names in `on row`, and this many in `on timer`.
fn with_both_locals(alloc: Global, row: usize, timer: usize) -> Result<(u64, u8), NoMemory> {
    let mut lines = section(alloc, "input 1; state s value; on row")?;
    for n in 0..row {
        add_numbered(alloc, &mut lines, "n", n, " = get s or 0")?;
    }
    add_text(alloc, &mut lines, "end")?;
    add_text(alloc, &mut lines, "on timer")?;
    for n in 0..timer {
        add_numbered(alloc, &mut lines, "m", n, " = get s or 0")?;
    }
    add_text(alloc, &mut lines, "end")?;
    fault_of(alloc, &lines, true)
}

// This many local names, then this line.
fn with_locals(alloc: Global, count: usize, last: &str) -> Result<(u64, u8), NoMemory> {
    let mut lines = section(alloc, "input 1; state s value; on row")?;
    for n in 0..count {
        add_numbered(alloc, &mut lines, "n", n, " = get s or 0")?;
    }
    add_text(alloc, &mut lines, last)?;
    add_text(alloc, &mut lines, "end")?;
    fault_of(alloc, &lines, true)
}

// An expression of this many numbers, with `+` between them and this word behind.
fn with_numbers(alloc: Global, count: usize, last: &str) -> Result<(u64, u8), NoMemory> {
    let mut lines = section(alloc, "input 1; state s value; on row")?;
    let mut text = String::new(alloc);
    for word in ["emit 7 , ", last] {
        if text.push_str(word).is_err() {
            return Err(NoMemory);
        }
    }
    for _n in 0..count {
        if text.push_str(" + 1").is_err() {
            return Err(NoMemory);
        }
    }
    add_text(alloc, &mut lines, text.as_str())?;
    add_text(alloc, &mut lines, "end")?;
    fault_of(alloc, &lines, true)
}

#[test]
fn limits(rt: HostRuntime) {
    let alloc = rt.alloc();
    let cases = [
        (with_states(alloc, 64, "on row"), (0, 0)),
        (with_states(alloc, 64, "state t value"), (66, 8)),
        (with_states(alloc, 64, "state s7 value"), (66, 8)),
        (with_states(alloc, 64, "state t list"), (66, 8)),
        (with_states(alloc, 63, "state s7 value"), (65, 3)),
        (with_locals(alloc, 255, "m = get s or 0"), (0, 0)),
        (with_locals(alloc, 256, "m = get s or 0"), (260, 8)),
        (with_locals(alloc, 256, "m = get m or 0"), (260, 8)),
        (with_locals(alloc, 256, "n7 = get s or n255"), (0, 0)),
        (with_locals(alloc, 256, "s = get s or 0"), (260, 4)),
        (with_numbers(alloc, 127, "1"), (0, 0)),
        (with_numbers(alloc, 128, "1"), (4, 8)),
        (with_numbers(alloc, 128, "x"), (4, 8)),
        (with_numbers(alloc, 128, "s"), (4, 8)),
        (with_numbers(alloc, 127, "x"), (4, 2)),
        (with_numbers(alloc, 127, "s"), (4, 4)),
        (with_numbers(alloc, 127, "1 * 1"), (4, 8)),
        (with_numbers(alloc, 126, "1 * 1"), (0, 0)),
        (with_statements(alloc, 10000, 0), (0, 0)),
        (with_statements(alloc, 10001, 0), (10003, 8)),
        (with_statements(alloc, 6000, 4000), (0, 0)),
        (with_statements(alloc, 6000, 4001), (10005, 8)),
        (with_both_locals(alloc, 256, 256), (0, 0)),
        (with_both_locals(alloc, 256, 257), (518, 8)),
        (with_both_locals(alloc, 0, 257), (262, 8)),
    ];
    let mut at: usize = 0;
    for (found, expected) in cases.iter() {
        let right = match found {
            Ok(fault) => *fault == *expected,
            Err(_) => false,
        };
        assert!(&rt; right, "case {at}");
        at = at.wrapping_add(1);
    }
}

// What stands at a place, and the place that it leads to.
fn stands(program: &Program, place: usize) -> (&'static str, usize) {
    let Some(step) = program.step(place) else {
        return ("nothing", 0);
    };
    let name = match &step.stmt {
        Stmt::Let { .. } => "let",
        Stmt::Get { .. } => "get",
        Stmt::Put { .. } => "put",
        Stmt::PutAt { .. } => "put at",
        Stmt::PutAll { .. } => "put all",
        Stmt::Emit { .. } => "emit",
        Stmt::SetTimer { .. } => "timer",
        Stmt::UnsetTimer { .. } => "untimer",
        Stmt::If { .. } => "if",
        Stmt::Each { .. } => "each",
        Stmt::Both { .. } => "both",
        _ => "other",
    };
    (name, step.next)
}

// The places that a block names: its parts.
fn parts(program: &Program, place: usize) -> (usize, usize) {
    let Some(step) = program.step(place) else {
        return (0, 0);
    };
    match &step.stmt {
        Stmt::If { one, other, .. } => (*one, *other),
        Stmt::Each { body, .. } => (*body, 0),
        Stmt::Both { one, two } => (*one, *two),
        _ => (0, 0),
    }
}

/// The program of a text without fault.
pub fn program_of(alloc: Global, text: &str) -> Option<Program> {
    let lines = section(alloc, text).ok()?;
    let end = SectionEnd {
        line: 99,
        found: true,
    };
    read_program(alloc, &lines, end).ok()
}

#[test]
fn a_program_as_steps(rt: HostRuntime) {
    let text =
        "input 2; state a value; state b value; on row; x = get b or 0; put a x; emit x , 1; end";
    let Some(program) = program_of(rt.alloc(), text) else {
        assert!(&rt; false);
        return;
    };
    assert_eq!(rt; program.fields(), 2);
    assert_eq!(rt; program.decls().as_slice().len(), 2);
    assert_eq!(rt; program.width(), 1);
    assert!(&rt; !program.has_timer());
    assert_eq!(rt; program.locals(), 1);
    assert_eq!(rt; program.place_of(Handler::Row), 3);
    assert_eq!(rt; program.place_of(Handler::Timer), 0);
    assert_eq!(rt; stands(&program, 3), ("get", 2));
    assert_eq!(rt; stands(&program, 2), ("put", 1));
    assert_eq!(rt; stands(&program, 1), ("emit", 0));
    assert_eq!(rt; stands(&program, 0), ("nothing", 0));
    assert_eq!(rt; stands(&program, 4), ("nothing", 0));
}

#[test]
fn two_handlers_as_steps(rt: HostRuntime) {
    let text =
        "input 0; state a value; on row; timer 5; end; on timer; untimer wm; y = get a or 0; z = get a or y; end";
    let Some(program) = program_of(rt.alloc(), text) else {
        assert!(&rt; false);
        return;
    };
    assert!(&rt; program.has_timer());
    assert_eq!(rt; program.locals(), 2);
    assert_eq!(rt; program.place_of(Handler::Row), 1);
    assert_eq!(rt; program.place_of(Handler::Timer), 4);
    assert_eq!(rt; stands(&program, 1), ("timer", 0));
    assert_eq!(rt; stands(&program, 4), ("untimer", 3));
    assert_eq!(rt; stands(&program, 3), ("get", 2));
    assert_eq!(rt; stands(&program, 2), ("get", 0));
    assert_eq!(rt; stands(&program, 5), ("nothing", 0));
}

#[test]
fn an_empty_timer_handler(rt: HostRuntime) {
    let Some(program) = program_of(rt.alloc(), "input 0; on row; end; on timer; end") else {
        assert!(&rt; false);
        return;
    };
    assert!(&rt; program.has_timer());
    assert_eq!(rt; program.place_of(Handler::Timer), 0);
}

#[test]
fn blocks_as_steps(rt: HostRuntime) {
    let text =
        "input 1; state l list; state m map; on row; if v1; add l 1; else; put m 2 , 3; end; each i in l; emit i; end; both; each k n in m; let x = k; end; with; put l 1 , 2; end; emit 9; end";
    let Some(program) = program_of(rt.alloc(), text) else {
        assert!(&rt; false);
        return;
    };
    assert_eq!(rt; program.width(), 2);
    assert_eq!(rt; program.locals(), 4);
    let first = program.place_of(Handler::Row);
    assert_eq!(rt; stands(&program, first), ("if", 7));
    let (one, other) = parts(&program, first);
    assert_eq!(rt; stands(&program, one), ("other", 0));
    assert_eq!(rt; stands(&program, other), ("put at", 0));
    assert_eq!(rt; stands(&program, 7), ("each", 5));
    assert_eq!(rt; stands(&program, parts(&program, 7).0), ("emit", 0));
    assert_eq!(rt; stands(&program, 5), ("both", 1));
    let (one, two) = parts(&program, 5);
    assert_eq!(rt; stands(&program, one), ("each", 0));
    assert_eq!(rt; stands(&program, parts(&program, one).0), ("let", 0));
    assert_eq!(rt; stands(&program, two), ("put all", 0));
    assert_eq!(rt; stands(&program, 1), ("emit", 0));
}
