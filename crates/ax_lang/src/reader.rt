//! The reader of programs.
ghost use Rattle.std.specs.Prelude.{◌≡◌, ◌≤◌, ◌&&◌, ◌++◌, ◌∷◌, [], length, map, true, false, IfOk, OnOk};
ghost use Rattle.ax_base.specs.Words.{words_of};
ghost use Rattle.ax_text.specs.Programs.{State};
ghost use Rattle.ax_state.specs.Decls.{shown_states};
ghost use Rattle.ax_syntax.specs.Shapes.{shown_shape, shape_of};
ghost use Rattle.ax_rules.specs.Sections.{shape_in, is_whole};
ghost use Rattle.ax_lang.specs.Rows.{with_row};
ghost use Rattle.ax_lang.specs.Clean.{AreClean};
ghost use Rattle.ax_lang.specs.Forms.{shown_row};
ghost use Rattle.ax_lang.specs.Shown.{shown_program};
ghost use Rattle.ax_lang.specs.Steps.{rows_some, text_if};
ghost use Rattle.ax_lang.specs.Programs.{kind_in, state_in, fields_or, timer_text, row_some, shown_handlers, program_in, program_of, TakesLine, ReadsProgram};

use crate::program::Program;
use crate::rows::row_of;
use crate::step::HandlerLine;
use ax_base::{Duplicate, Line, ListOf, NoMemory};
pub use ax_rules::SectionEnd;
use ax_rules::{DeclaredState, FaultKind, Tables};
use ax_state::{Decl, Decls};
use ax_syntax::KindWord;
use ax_syntax::shape::shape_of;
use ax_syntax::words::words;
use ax_text::Kind;
use std::alloc::Global;
use thiserror::Error;

/// Why there is no program.
#[derive(Clone, Copy, Debug, PartialEq, Eq, Error)]
pub enum ProgFault {
    /// The first fault: the least line that has one, and its first kind there, by its number from 1 to 10.
    #[error("line {line} of the program has a fault of kind {kind}")]
    At { line: u64, kind: u8 },
    /// Memory was short.
    #[error("memory was short")]
    NoMemory,
}

/// The lines of the two handlers, each in order.
#[derive(Drop)]
pub(crate) struct Handlers {
    /// Those of `on row`.
    row: Vec<HandlerLine>,
    /// Those of `on timer`.
    timer: Vec<HandlerLine>,
}

fn push(rows: &mut Vec<HandlerLine>, row: HandlerLine) -> Result<(), NoMemory>
    ensures { OnOk result (map shown_row rows.new.items ≡ map shown_row rows.old.items ++ shown_row row ∷ []) }
{
    match rows.push(row) {
        Ok(()) => Ok(()),
        Err(_) => Err(NoMemory),
    }
}

impl Handlers {
    // A row, if there is one, goes last into a handler.
    fn push_some(&mut self, timer: bool, row: Option<HandlerLine>) -> Result<(), NoMemory>
        ensures { OnOk result (shown_handlers self.new ≡ with_row timer (row_some row) (shown_handlers self.old)) }
    {
        match row {
            None => Ok(()),
            Some(row) => {
                if timer {
                    push(&mut self.timer, row)
                } else {
                    push(&mut self.row, row)
                }
            }
        }
    }
}

// Takes a line, or tells its first kind of fault.
fn take_line(
    alloc: Global,
    tables: &mut Tables,
    handlers: &mut Handlers,
    line: &Line,
) -> Result<Option<FaultKind>, NoMemory>
    requires { length tables.old.states ≤ 64 }
    ensures { TakesLine (shape_in line.now) tables.old tables.new (shown_handlers handlers.old) (shown_handlers handlers.new) result }
{
    let words = words(alloc, line.text.as_slice())?;
    let Some(shape) = shape_of(words.as_slice()) else {
        return Ok(Some(FaultKind::Word));
    };
    if let Some(kind) = tables.take_line(alloc, &shape)? {
        return Ok(Some(kind));
    }
    let row = row_of(alloc, tables, &shape)?;
    handlers.push_some(tables.timer, row)?;
    Ok(None)
}

fn kind_in(kind: KindWord) -> Kind
    ensures { result ≡ kind_in kind }
{
    match kind {
        KindWord::Value => Kind::Value,
        KindWord::List => Kind::List,
        KindWord::Map => Kind::Map,
    }
}

// The declared states, as programs have them.
fn decls_of(alloc: Global, states: &[DeclaredState]) -> Result<Decls, NoMemory>
    ensures { IfOk result (λ decls. shown_states decls ≡ map state_in states.now) }
{
    let mut decls = ListOf::new(alloc);
    for state in states {
        let name = state.name.copy(alloc)?;
        let kind = kind_in(state.kind);
        decls.push(Decl { name, kind })?;
    }
    Ok(decls)
}

fn fields_or(fields: Option<u8>) -> u8
    ensures { result ≡ fields_or fields }
{
    match fields {
        None => 0,
        Some(n) => n,
    }
}

// The lines of `on timer`, where there is one; without one there are none.
fn timer_if(has: bool, rows: Vec<HandlerLine>) -> Option<Vec<HandlerLine>>
    requires { has ≡ false → map shown_row rows.items ≡ [] }
    ensures rows { rows_some result ≡ map shown_row rows.items }
    ensures text { text_if result ≡ timer_text has (map shown_row rows.items) }
{
    if has { Some(rows) } else { None }
}

// The program of a section's lines, none of which has a fault.
#[tactic(auto, unfolding(crate::specs::Programs::program_in))]
fn finish(alloc: Global, tables: Tables, handlers: Handlers) -> Result<Program, NoMemory>
    requires clean { AreClean tables (shown_handlers handlers) }
    requires whole { is_whole tables ≡ true }
    ensures { IfOk result (λ p. shown_program p ≡ program_in tables (shown_handlers handlers)) }
{
    let decls = decls_of(alloc, tables.states.as_slice())?;
    let fields = fields_or(tables.fields);
    let width = tables.widest.max(1) as u8;
    let Handlers { row, timer } = handlers;
    let timer = timer_if(tables.timer, timer);
    Program::new(alloc, fields, decls, tables.most, width, row, timer)
}

// Whether nothing is due at the end of the section.
fn is_done(tables: &Tables, end: SectionEnd) -> bool
    ensures { result ≡ (is_whole tables.now && end.found) }
{
    tables.is_whole() && end.found
}

/// The program of a section's lines, or its first fault: each line is tested against all lines before it, for one kind of
/// fault after another, and the least line that has a fault is told with its first kind there. Where no line has one,
/// what is due at the end is tested: `input` and `on row` must have come, no block may be open, and the section must have
/// ended with a line of `%%`; else the fault is of kind 10, at the line of the end.
///
/// `lines` are those before the end, in order, without blank lines and comments. At `NoMemory` nothing is kept.
pub fn read_program(alloc: Global, lines: &[Line], end: SectionEnd) -> Result<Program, ProgFault>
    ensures { ReadsProgram (program_of lines.now end) result }
{
    let mut tables = Tables::new(alloc);
    let mut handlers = Handlers {
        row: Vec::new(alloc),
        timer: Vec::new(alloc),
    };
    for line in lines {
        match take_line(alloc, &mut tables, &mut handlers, line) {
            Ok(None) => {}
            Ok(Some(kind)) => {
                return Err(ProgFault::At {
                    line: line.number,
                    kind: kind.number(),
                });
            }
            Err(NoMemory) => return Err(ProgFault::NoMemory),
        }
    }
    if !is_done(&tables, end) {
        return Err(ProgFault::At {
            line: end.line,
            kind: FaultKind::NoEnd.number(),
        });
    }
    match finish(alloc, tables, handlers) {
        Ok(program) => Ok(program),
        Err(NoMemory) => Err(ProgFault::NoMemory),
    }
}
