//! Makes steps of the lines of a handler, from the last one backwards: each step then names places below it.
ghost use Rattle.std.specs.Prelude.{◌≡◌, ◌≤◌, ◌++◌, ◌∷◌, [], length, map, IfOk, OnOk};
ghost use Rattle.ax_text.specs.Rows.{SecondLine, EndLine, BothLine, IfLine, EachLine, text_of};
ghost use Rattle.ax_expr.specs.Shown.{shown_expr};
ghost use Rattle.ax_lang.specs.Forms.{form_of, row_in, shown_loop, shown_row};
ghost use Rattle.ax_lang.specs.Steps.{text_at, text_some, text_if, rows_some, GoesOn};
ghost use Rattle.ax_lang.specs.Links.{AllUpTo, Taken, CanStand, Added, Linked, FitsWith};

use crate::step::{HandlerLine, Loop, Step, Stmt};
use ax_base::NoMemory;
use ax_expr::Expr;
use std::alloc::Global;

// Where what is left of a block's part begins, and where the block's second part does.
#[derive(Clone, Copy)]
struct Starts {
    text: usize,
    second: usize,
}

fn take_starts(blocks: &mut Vec<Starts>) -> Starts
    ensures { Taken blocks.old.items result blocks.new.items }
{
    match blocks.pop() {
        Some(starts) => starts,
        None => Starts { text: 0, second: 0 },
    }
}

fn push_starts(blocks: &mut Vec<Starts>, starts: Starts) -> Result<(), NoMemory>
    ensures { OnOk result (blocks.new.items ≡ blocks.old.items ++ starts ∷ []) }
{
    match blocks.push(starts) {
        Ok(()) => Ok(()),
        Err(_) => Err(NoMemory),
    }
}

fn push_step(steps: &mut Vec<Step>, stmt: Stmt, next: usize) -> Result<(), NoMemory>
    ensures { OnOk result (steps.new.items ≡ steps.old.items ++ record { stmt = stmt; next = next } ∷ []) }
{
    match steps.push(Step { stmt, next }) {
        Ok(()) => Ok(()),
        Err(_) => Err(NoMemory),
    }
}

// A statement stands first in a block's part.
fn add_step(
    steps: &mut Vec<Step>,
    blocks: &mut Vec<Starts>,
    block: Starts,
    stmt: Stmt,
) -> Result<(), NoMemory>
    requires { CanStand steps.old.items blocks.old.items block stmt }
    ensures { OnOk result (Added steps.old.items blocks.old.items block stmt steps.new.items blocks.new.items) }
{
    push_step(steps, stmt, block.text)?;
    let text = steps.len();
    let second = block.second;
    push_starts(blocks, Starts { text, second })?;
    Ok(())
}

fn link_if(steps: &mut Vec<Step>, blocks: &mut Vec<Starts>, test: Expr) -> Result<(), NoMemory>
    requires { AllUpTo (length steps.old.items) blocks.old.items }
    ensures { OnOk result (Linked (IfLine (shown_expr test)) steps.old.items blocks.old.items steps.new.items blocks.new.items) }
{
    let inner = take_starts(blocks);
    let block = take_starts(blocks);
    let one = inner.text;
    let other = inner.second;
    add_step(steps, blocks, block, Stmt::If { test, one, other })?;
    Ok(())
}

fn link_each(steps: &mut Vec<Step>, blocks: &mut Vec<Starts>, turn: Loop) -> Result<(), NoMemory>
    requires { AllUpTo (length steps.old.items) blocks.old.items }
    ensures { OnOk result (Linked (EachLine (shown_loop turn)) steps.old.items blocks.old.items steps.new.items blocks.new.items) }
{
    let inner = take_starts(blocks);
    let block = take_starts(blocks);
    let body = inner.text;
    add_step(steps, blocks, block, Stmt::Each { turn, body })?;
    Ok(())
}

fn link_both(steps: &mut Vec<Step>, blocks: &mut Vec<Starts>) -> Result<(), NoMemory>
    requires { AllUpTo (length steps.old.items) blocks.old.items }
    ensures { OnOk result (Linked BothLine steps.old.items blocks.old.items steps.new.items blocks.new.items) }
{
    let inner = take_starts(blocks);
    let block = take_starts(blocks);
    let one = inner.text;
    let two = inner.second;
    add_step(steps, blocks, block, Stmt::Both { one, two })?;
    Ok(())
}

fn link_stmt(steps: &mut Vec<Step>, blocks: &mut Vec<Starts>, stmt: Stmt) -> Result<(), NoMemory>
    requires { AllUpTo (length steps.old.items) blocks.old.items }
    ensures { OnOk result (Linked (row_in (form_of stmt)) steps.old.items blocks.old.items steps.new.items blocks.new.items) }
{
    match stmt {
        Stmt::If { test, .. } => link_if(steps, blocks, test),
        Stmt::Each { turn, .. } => link_each(steps, blocks, turn),
        Stmt::Both { .. } => link_both(steps, blocks),
        plain => {
            let block = take_starts(blocks);
            add_step(steps, blocks, block, plain)?;
            Ok(())
        }
    }
}

// The second part of a block is linked, and its first part ends.
fn link_second(steps: &[Step], blocks: &mut Vec<Starts>) -> Result<(), NoMemory>
    requires { AllUpTo (length steps.now) blocks.old.items }
    ensures { OnOk result (Linked SecondLine steps.now blocks.old.items steps.now blocks.new.items) }
{
    let second = take_starts(blocks).text;
    push_starts(blocks, Starts { text: 0, second })?;
    Ok(())
}

// A block ends.
fn link_end(steps: &[Step], blocks: &mut Vec<Starts>) -> Result<(), NoMemory>
    requires { AllUpTo (length steps.now) blocks.old.items }
    ensures { OnOk result (Linked EndLine steps.now blocks.old.items steps.now blocks.new.items) }
{
    push_starts(blocks, Starts { text: 0, second: 0 })?;
    Ok(())
}

// A line stands before those that are linked.
fn link_row(
    steps: &mut Vec<Step>,
    blocks: &mut Vec<Starts>,
    row: HandlerLine,
) -> Result<(), NoMemory>
    requires { AllUpTo (length steps.old.items) blocks.old.items }
    ensures { OnOk result (Linked (shown_row row) steps.old.items blocks.old.items steps.new.items blocks.new.items) }
{
    match row {
        HandlerLine::Statement(stmt) => link_stmt(steps, blocks, stmt),
        HandlerLine::Second => link_second(steps.as_slice(), blocks),
        HandlerLine::End => link_end(steps.as_slice(), blocks),
    }
}

// Puts a handler's lines into the table, and gives the place where it begins.
pub(crate) fn link(
    alloc: Global,
    steps: &mut Vec<Step>,
    rows: Vec<HandlerLine>,
) -> Result<usize, NoMemory>
    ensures text { IfOk result (λ first. text_at steps.new.items first ≡ text_of (map shown_row rows.items)) }
    ensures place { IfOk result (λ first. first ≤ length steps.new.items) }
    ensures stays { OnOk result (GoesOn steps.old.items steps.new.items) }
    ensures fits { OnOk result (FitsWith (map shown_row rows.items) steps.old.items steps.new.items) }
{
    let mut rows = rows;
    let mut blocks = Vec::new(alloc);
    while let Some(row) = rows.pop() {
        link_row(steps, &mut blocks, row)?;
    }
    Ok(take_starts(&mut blocks).text)
}

// The same for a handler that may be missing.
pub(crate) fn link_some(
    alloc: Global,
    steps: &mut Vec<Step>,
    rows: Option<Vec<HandlerLine>>,
) -> Result<Option<usize>, NoMemory>
    ensures text { IfOk result (λ first. text_some steps.new.items first ≡ text_if rows) }
    ensures stays { OnOk result (GoesOn steps.old.items steps.new.items) }
    ensures fits { OnOk result (FitsWith (rows_some rows) steps.old.items steps.new.items) }
{
    match rows {
        Some(rows) => {
            let first = link(alloc, steps, rows)?;
            Ok(Some(first))
        }
        None => Ok(None),
    }
}
