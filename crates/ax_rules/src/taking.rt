//! A line after the lines before it: its fault, or what is said behind it.
ghost use Rattle.std.specs.Prelude.{◌≡◌, ◌<◌, ◌+◌, ◌++◌, ◌∷◌, [], List, true, false, IfOk, OnOk, Ok, None, Some, if◌then◌else◌};
ghost use Rattle.std.specs.Option.{option_copied};
ghost use Rattle.ax_syntax.specs.Shapes.{Shape as LineShape, shown_shape};
ghost use Rattle.ax_rules.specs.Parts.{is_statement};
ghost use Rattle.ax_rules.specs.Frames.{print_of};
ghost use Rattle.ax_rules.specs.Lines.{names_of, fields_with, states_with, row_with, timer_with, locals_with, tables_of};
ghost use Rattle.ax_rules.specs.Faults.{print_in, fault_in, fault_by};
ghost use Rattle.ax_rules.specs.Taking.{behind, Steps};

use crate::blocks::{Frames, Print};
use crate::kinds::FaultKind;
use crate::shapes::{add_new, also_of, is_statement, set_of};
use crate::tables::{DeclaredState, Tables};
use ax_base::{Bytes, Duplicate, ListOf, NoMemory};
use ax_syntax::{KindWord, Shape};
use std::alloc::Global;

fn take_locals(alloc: Global, locals: &mut ListOf<Bytes>, shape: &Shape) -> Result<(), NoMemory>
    ensures { OnOk result (locals.new ≡ locals_with (shown_shape shape.now) locals.old) }
{
    match shape {
        Shape::OnRow | Shape::OnTimer => {
            *locals = ListOf::new(alloc);
            Ok(())
        }
        _ => {
            add_new(alloc, locals, set_of(shape))?;
            add_new(alloc, locals, also_of(shape))
        }
    }
}

fn take_states(
    alloc: Global,
    states: &mut ListOf<DeclaredState>,
    shape: &Shape,
) -> Result<(), NoMemory>
    ensures { OnOk result (states.new ≡ states_with (shown_shape shape.now) states.old) }
{
    match shape {
        Shape::State(name, kind) => {
            let name = name.copy(alloc)?;
            states.push(DeclaredState { name, kind: *kind })
        }
        _ => Ok(()),
    }
}

fn take_fields(fields: Option<u8>, shape: &Shape) -> Option<u8>
    ensures { result ≡ fields_with (shown_shape shape.now) fields }
{
    match shape {
        Shape::Input(n) => Some(*n),
        _ => fields,
    }
}

fn take_row(row: bool, shape: &Shape) -> bool
    ensures { result ≡ row_with (shown_shape shape.now) row }
{
    match shape {
        Shape::OnRow => true,
        _ => row,
    }
}

fn take_timer(timer: bool, shape: &Shape) -> bool
    ensures { result ≡ timer_with (shown_shape shape.now) timer }
{
    match shape {
        Shape::OnTimer => true,
        _ => timer,
    }
}

fn take_statement(statements: usize, shape: &Shape) -> usize
    requires { is_statement (shown_shape shape.now) ≡ true → statements < 10000 }
    ensures { result ≡ (if is_statement (shown_shape shape.now) then statements + 1 else statements) }
{
    if is_statement(shape) {
        statements + 1
    } else {
        statements
    }
}

impl Tables {
    /// Before the first line.
    #[tactic(auto, unfolding(crate::specs::Lines::tables_of))]
    pub fn new(alloc: Global) -> Tables
        ensures { result ≡ tables_of [] }
    {
        Tables {
            fields: None,
            states: ListOf::new(alloc),
            row: false,
            timer: false,
            locals: ListOf::new(alloc),
            statements: 0,
            frames: Frames::new(alloc),
            widest: 0,
            most: 0,
        }
    }

    // Takes a line, or tells its first kind of fault.
    #[tactic(auto, unfolding(crate::specs::Faults::print_in, crate::specs::Taking::behind))]
    pub(crate) fn step(
        &mut self,
        alloc: Global,
        shape: &Shape,
    ) -> Result<Option<FaultKind>, NoMemory>
        ensures { Steps self.old (Some (shown_shape shape.now)) self.new result }
    {
        if let Some(kind) = self.plain_fault(shape) {
            return Ok(Some(kind));
        }
        take_locals(alloc, &mut self.locals, shape)?;
        let print = Print::of_line(alloc, self.locals.as_slice(), self.states.as_slice(), shape)?;
        if let Some(kind) = self.frames.block_fault(&print, shape) {
            return Ok(Some(kind));
        }
        self.widest = self.frames.widest(self.widest, shape);
        self.most = self.most.max(self.locals.len());
        self.frames.take(alloc, &print, shape)?;
        take_states(alloc, &mut self.states, shape)?;
        self.fields = take_fields(self.fields, shape);
        self.row = take_row(self.row, shape);
        self.timer = take_timer(self.timer, shape);
        self.statements = take_statement(self.statements, shape);
        Ok(None)
    }

    /// Takes a line behind the lines that these tables are of, or tells the first kind of fault that it has there.
    ///
    /// After a fault, and where memory is wanting, the tables are of no more use.
    pub fn take_line(&mut self, alloc: Global, shape: &Shape) -> Result<Option<FaultKind>, NoMemory>
        ensures step { Steps self.old (Some (shown_shape shape.now)) self.new result }
        ensures fault { (before : List LineShape) → self.old ≡ tables_of before → IfOk result (λ fault. fault ≡ fault_by before (shown_shape shape.now)) }
        ensures tables { (before : List LineShape) → self.old ≡ tables_of before → result ≡ Ok None → self.new ≡ tables_of (shown_shape shape.now ∷ before) }
    {
        self.step(alloc, shape)
    }
}
