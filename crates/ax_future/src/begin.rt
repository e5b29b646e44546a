//! How a handler begins, and goes on.
ghost use Rattle.std.specs.Prelude.{◌≡◌, ◌≤◌, ◌<◌, ◌+◌, ◌++◌, ◌∷◌, [], ◌&&◌, length, IfOk, OnOk};
ghost use Rattle.ax_text.specs.Controls.{Rest, slots, is_done, least_free, waits, also, begin};
ghost use Rattle.ax_text.specs.Programs.{width};
ghost use Rattle.ax_lang.specs.declared.program.Program.{Program as AnyProgram};
ghost use Rattle.ax_lang.specs.Shown.{text_from};
ghost use Rattle.ax_future.specs.Sizes.{cursor_width};
ghost use Rattle.ax_future.specs.Nodes.{cursor_in, next_in, control_in, highest};
ghost use Rattle.ax_future.specs.Talks.{known_in, talk_of, asks_in};
ghost use Rattle.ax_future.specs.Moves.{turn_of};

use crate::callback::{Ask, Known};
use crate::fresh::least_free;
use crate::going::Going;
use crate::moves::{Move, advance, put};
use crate::node::{Cursor, Frame, Next, Node};
use crate::nodes::{arms, asking};
use ax_base::{Duplicate, NoMemory};
use ax_lang::Program;
use ax_text::Request;
use std::alloc::Global;

/// Goes on from a cursor until each live arm waits for an answer or has ended, and leaves in `node` where it stands then.
/// `used` are the slots of the other waits.
///
/// Condition: with as many waits as the text may have at once there are at most 256.
#[cycle(begin)]
#[inline(always)]
pub fn begin(
    alloc: Global,
    program: &Program,
    facts: &Known<'_>,
    used: &[u8],
    cursor: Cursor,
    going: &mut Going,
    node: &mut Node,
) -> Result<(), NoMemory>
    requires { length used.now + cursor_width (cursor_in program.now cursor.items) ≤ 256 }
    ensures { OnOk result (also (asks_in going.old.said.asks) (begin (known_in facts.now) (cursor_in program.now cursor.items) used.now (talk_of going.old)) ≡ turn_of program.now going.new node.new) }
{
    let mut cursor = cursor;
    loop {
        match advance(alloc, program, facts, &mut cursor, going)? {
            Move::End => {
                going.spare = cursor;
                *node = Node::Done;
                return Ok(());
            }
            Move::Go => {}
            Move::Wait { request, next } => {
                return wait(alloc, used, request, next, cursor, going, node);
            }
            Move::Split { one, two } => {
                let first = begin_arm(alloc, program, facts, used, one, going)?;
                let more = with_slots(alloc, used, &first)?;
                let second = begin_arm(alloc, program, facts, &more, two, going)?;
                if !are_done(&first, &second) {
                    let both = arms(alloc, first, second, cursor)?;
                    *node = both;
                    return Ok(());
                }
            }
        }
    }
}

// The text from a place on, as one arm of a `both`.
#[cycle(begin)]
fn begin_arm(
    alloc: Global,
    program: &Program,
    facts: &Known<'_>,
    used: &[u8],
    place: usize,
    going: &mut Going,
) -> Result<Node, NoMemory>
    requires { length used.now + width (text_from program.now place) ≤ 256 }
    ensures { IfOk result (λ node. also (asks_in going.old.said.asks) (begin (known_in facts.now) (Rest (text_from program.now place) ∷ []) used.now (talk_of going.old)) ≡ turn_of program.now going.new node) }
{
    let mut node = Node::Done;
    let cursor = only_in(Vec::new(alloc), place)?;
    begin(alloc, program, facts, used, cursor, going, &mut node)?;
    Ok(node)
}

// A request goes out at the least free slot, and its answer is waited for.
#[inline(always)]
fn wait(
    alloc: Global,
    used: &[u8],
    request: Request,
    next: Next,
    cursor: Cursor,
    going: &mut Going,
    node: &mut Node,
) -> Result<(), NoMemory>
    requires { length used.now < 256 }
    ensures { OnOk result ((p : AnyProgram) → also (asks_in going.old.said.asks) (waits (least_free used.now) request (next_in p next) (cursor_in p cursor.items) (talk_of going.old)) ≡ turn_of p going.new node.new) }
{
    let slot = least_free(used);
    let copied = request.copy(alloc)?;
    going.said.asks.push(Ask {
        slot,
        request: copied,
    })?;
    let waiting = asking(alloc, slot, request, next, cursor)?;
    *node = waiting;
    Ok(())
}

/// The text from a place on, in the memory of a cursor that is no longer needed.
pub fn only_in(spare: Cursor, place: usize) -> Result<Cursor, NoMemory>
    ensures cursor { IfOk result (λ cursor. (p : AnyProgram) → cursor_in p cursor.items ≡ Rest (text_from p place) ∷ []) }
    ensures highest { IfOk result (λ cursor. highest cursor.items ≡ place) }
{
    let mut cursor = spare;
    cursor.clear();
    let Ok(()) = cursor.reserve_exact(1) else {
        return Err(NoMemory);
    };
    put(&mut cursor, Frame::Rest { place })?;
    Ok(cursor)
}

// These slots, and those where a node waits.
fn with_slots(alloc: Global, used: &[u8], node: &Node) -> Result<Vec<u8>, NoMemory>
    ensures { IfOk result (λ more. (p : AnyProgram) → more.items ≡ used.now ++ slots (control_in p node.now)) }
{
    match Vec::from_slice(alloc, used) {
        Ok(more) => {
            let mut more = more;
            add_slots(node, &mut more)?;
            Ok(more)
        }
        Err(_) => Err(NoMemory),
    }
}

fn add_slots(node: &Node, more: &mut Vec<u8>) -> Result<(), NoMemory>
    ensures { OnOk result ((p : AnyProgram) → more.new.items ≡ more.old.items ++ slots (control_in p node.now)) }
{
    match node {
        Node::Done => Ok(()),
        Node::Wait { slot, .. } => match more.push(*slot) {
            Ok(()) => Ok(()),
            Err(_) => Err(NoMemory),
        },
        Node::Arms { one, two, .. } => {
            add_slots(one, more)?;
            add_slots(two, more)
        }
    }
}

/// Whether two arms are done.
pub fn are_done(one: &Node, two: &Node) -> bool
    ensures { (p : AnyProgram) → result ≡ (is_done (control_in p one.now) && is_done (control_in p two.now)) }
{
    matches!(one, Node::Done) && matches!(two, Node::Done)
}
