//! The states of a few keys, which serve batches.
ghost use Rattle.std.specs.Prelude.{◌≡◌, ◌++◌, IfOk, OnOk};
ghost use Rattle.ax_state.specs.KeyCells.{cell_kinds};
ghost use Rattle.ax_lang.specs.Shown.{shown_kinds};
ghost use Rattle.ax_core.specs.Events.{names_in, names_of};
ghost use Rattle.ax_core_tests.specs.Hands.{AreFor};

use ax_base::NoMemory;
use ax_buffer::{Batch, Item, Replies, Reply};
use ax_lang::Program;
use ax_state::{Answer, KeyCells, Request, fits};
use std::alloc::Global;

/// The states of the keys `a` and `b`, and those of all other keys together.
#[derive(Drop)]
pub struct States {
    pub a: KeyCells,
    pub b: KeyCells,
    pub others: KeyCells,
}

/// No key was touched.
pub fn no_states(alloc: Global, program: &Program) -> Result<States, NoMemory>
    ensures { IfOk result (AreFor program.now) }
{
    Ok(States {
        a: KeyCells::new(alloc, program.decls())?,
        b: KeyCells::new(alloc, program.decls())?,
        others: KeyCells::new(alloc, program.decls())?,
    })
}

// A request that fits, and nothing at another.
fn serve_request(
    program: &Program,
    cells: &mut KeyCells,
    request: &Request,
) -> Result<Answer, NoMemory>
    requires { cell_kinds cells.old ≡ shown_kinds program.now }
    ensures { cell_kinds cells.new ≡ shown_kinds program.now }
{
    if fits(program.decls(), request) {
        cells.apply(request)
    } else {
        Ok(Answer::Done)
    }
}

fn serve_item(program: &Program, states: &mut States, item: &Item) -> Result<Answer, NoMemory>
    requires { AreFor program.now states.old }
    ensures { AreFor program.now states.new }
{
    match item.key.as_bytes() {
        b"a" => serve_request(program, &mut states.a, &item.request),
        b"b" => serve_request(program, &mut states.b, &item.request),
        _ => serve_request(program, &mut states.others, &item.request),
    }
}

/// Serves a batch in order. Its replies go behind those that are there.
pub fn serve(
    program: &Program,
    states: &mut States,
    batch: Batch,
    replies: &mut Replies,
) -> Result<(), NoMemory>
    requires { AreFor program.now states.old }
    ensures states { AreFor program.now states.new }
    ensures names { OnOk result (names_of replies.new ≡ names_of replies.old ++ names_in batch) }
{
    for item in batch.into_vec() {
        let answer = serve_item(program, states, &item)?;
        replies.push(Reply {
            id: item.id,
            slot: item.slot,
            answer,
        })?;
    }
    Ok(())
}
