//! Programs from texts.
use ax_base::{Bytes, Line, ListOf};
use ax_lang::Program;
use ax_lang::reader::{SectionEnd, read_program};
use std::alloc::Global;
use std::process::Abort;

// The lines of a text in which `;` ends a line.
fn section(rt: &impl Abort, alloc: Global, text: &str) -> Vec<Line> {
    let mut lines = Vec::new(alloc);
    let mut number: u64 = 0;
    for part in text.split(';') {
        number = number.wrapping_add(1);
        let text: Bytes = ListOf::from_slice(alloc, part.as_bytes()).expect(rt, "memory");
        lines.push(Line { number, text }).expect(rt, "memory");
    }
    lines
}

/// The program of a text in which `;` ends a line.
pub fn program(rt: &impl Abort, alloc: Global, text: &str) -> Program {
    let lines = section(rt, alloc, text);
    let end = SectionEnd {
        line: 99,
        found: true,
    };
    read_program(alloc, &lines, end).ok().expect(rt, "no fault")
}
