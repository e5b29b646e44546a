//! The program section.
ghost use Rattle.std.specs.Prelude.{◌≡◌, ◌+◌, ◌≤◌, ◌<◌, ◌^◌, ◌++◌, ◌∷◌, [], ◌↔◌, IsTrue, MatchResult, IfOk, OnOk, length, false};
ghost use Rattle.ax_base.specs.Outside.{Told};
ghost use Rattle.ax_base.specs.Given.{ahead};
ghost use Rattle.ax_base.specs.Words.{words_of};
ghost use Rattle.ax_task.specs.Sections.{is_section_end, section_of, most_kept};
ghost use Rattle.ax_task.specs.Parse.{behind};
ghost use Rattle.ax_task.specs.Reads.{SectionOf, Keeps, ReaderCount};
ghost use Rattle.ax_task.specs.Passes.{SectionPasses};

use crate::read_fault::ReadFault;
use ax_base::words::first_word;
use ax_base::{Line, LineFault, Lines, ListOf, NoMemory, Source};
use ax_input::is_skipped;
use ax_lang::SectionEnd;
use ax_syntax::words::same;
use std::alloc::Global;

// The most bytes that kept lines have together.
const MOST_KEPT: u64 = 1048576;

// The kinds of a section's faults.
const TOO_MANY: u8 = 8;

const TOO_LONG: u8 = 11;

const TOO_MUCH: u8 = 12;

/// A program section: its lines without blank ones and comments, and where it ended.
#[derive(Debug, Drop)]
pub struct Gathered {
    pub lines: ListOf<Line>,
    pub end: SectionEnd,
}

// The lines that were kept, and how many bytes they have together.
#[derive(Drop)]
struct Kept {
    lines: ListOf<Line>,
    bytes: u64,
}

impl Kept {
    // Keeps a line, unless the kept lines then pass their limit; whether it was kept.
    fn keep(&mut self, line: Line) -> Result<bool, NoMemory>
        requires { self.old.bytes ≤ most_kept }
        ensures { Keeps self.old line self.new result }
    {
        let bytes = self.bytes + line.text.len() as u64;
        if bytes > MOST_KEPT {
            return Ok(false);
        }
        self.lines.push(line)?;
        self.bytes = bytes;
        Ok(true)
    }

    // The section of these lines, by where it ended.
    fn ended(self, line: u64, found: bool) -> Gathered
        ensures lines { result.lines ≡ self.lines }
        ensures line { result.end.line ≡ line }
        ensures found { result.end.found ≡ found }
    {
        Gathered {
            lines: self.lines,
            end: SectionEnd { line, found },
        }
    }
}

// A fault of the section.
fn fault(line: u64, kind: u8) -> ReadFault
    ensures { result ≡ ReadFault.Fault line kind }
{
    ReadFault::Fault { line, kind }
}

// Whether a line is `%%` alone.
fn is_section_end(text: &[u8]) -> bool
    ensures { result ≡ is_section_end text.now }
{
    match first_word(text) {
        None => false,
        Some((word, rest)) => same(word, b"%%") && first_word(rest).is_none(),
    }
}

/// Gathers the program section, up to its end or the end of the input.
///
/// `Fault` names the first line that is too long (kind 11), in which the input passes its
/// limit (12), or with which the kept lines have more than 1,048,576 bytes (8). `Read` comes
/// where the source failed. After an `Err` the reader of lines is done with.
pub fn gather<S: Source>(
    alloc: Global,
    lines: &mut Lines,
    input: &mut S,
) -> Result<Gathered, ReadFault>
    requires { lines.old.failed ≡ false }
    ensures told { Told (S.left input.old) (S.left input.new)
        (λ a b. SectionOf (section_of (lines.old.number + 1) 0 (ahead lines.old a)) (ahead lines.new b) result) }
    ensures passes { Told (S.left input.old) (S.left input.new) (λ a b. SectionPasses lines.old lines.new a b result) }
    ensures behind { IfOk result (λ g. behind g.end.line g.end.found ≡ lines.new.number + 1) }
    ensures sound { OnOk result (lines.new.failed ≡ false) }
    ensures count { ReaderCount (S.faults input.old) (S.faults input.new) result }
{
    let mut kept = Kept {
        lines: ListOf::new(alloc),
        bytes: 0,
    };
    'line: loop {
        match lines.next(input) {
            Ok(None) => {
                return Ok(kept.ended(lines.number() + 1, false));
            }
            Ok(Some(line)) => {
                let number = line.number;
                if is_section_end(line.text.as_slice()) {
                    return Ok(kept.ended(number, true));
                }
                if !is_skipped(line.text.as_slice()) {
                    match kept.keep(line) {
                        Ok(true) => {}
                        Ok(false) => return Err(fault(number, TOO_MANY)),
                        Err(NoMemory) => return Err(ReadFault::NoMemory),
                    }
                }
            }
            Err(LineFault::Read) => return Err(ReadFault::Read),
            Err(LineFault::TooLong { number }) => return Err(fault(number, TOO_LONG)),
            Err(LineFault::TooMuch { number }) => return Err(fault(number, TOO_MUCH)),
            Err(LineFault::NoMemory) => return Err(ReadFault::NoMemory),
        }
    }
}
