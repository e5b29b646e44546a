//! The three ways to put nodes together.
ghost use Rattle.std.specs.Prelude.{◌≡◌, ◌++◌, [], IsOk, IfOk, OnOk};
ghost use Rattle.ax_text.specs.Exprs.{Facts as AnyFacts};
ghost use Rattle.ax_text.specs.Run.{World};
ghost use Rattle.ax_text.specs.Controls.{Answers, Arms, Wait as WaitsFor, taken_by, compose, combine, left as what_is_left, run_cursor};
ghost use Rattle.ax_lang.specs.declared.program.Program.{Program as AnyProgram};
ghost use Rattle.ax_future.specs.Nodes.{cursor_in, after_in, next_in, control_in};
ghost use Rattle.ax_future.specs.Ways.{left_taken};

use crate::node::{Assign, Cursor, Frame, Next, Node};
use ax_base::NoMemory;
use ax_text::Request;
use std::alloc::Global;

/// The answer that `first` waits for goes to `assign`: `thenApply`, and `thenAccept` where nothing takes it, of a state
/// future (Flink, FLIP-424). A node that is done, or has arms, stays as it is. It takes no memory and always succeeds.
#[inline(always)]
pub fn then(_alloc: Global, first: Node, assign: Assign) -> Result<Node, NoMemory>
    ensures control { IfOk result (λ node. (p : AnyProgram) → control_in p node ≡ taken_by (control_in p first) (after_in assign)) }
    ensures left { IfOk result (λ node. (p : AnyProgram) (f : AnyFacts) (answers : Answers) (w : World) → what_is_left f answers (control_in p node) w ≡ left_taken f answers (control_in p first) (after_in assign) w) }
    ensures ok { IsOk result }
{
    match first {
        Node::Wait {
            slot,
            request,
            cursor,
            ..
        } => Ok(Node::Wait {
            slot,
            request,
            next: Next::Take { assign },
            cursor,
        }),
        other => Ok(other),
    }
}

/// The text goes on at `rest` where `first` has ended: `thenCompose` of a state future (Flink, FLIP-424). A wait, and two
/// arms, keep `rest` behind what they have left themselves; what is done becomes two arms that are done, with `rest`
/// behind. It takes time for the frames that `first` has left, and none for those of `rest`. The only fault is `NoMemory`,
/// after which both are gone.
#[inline(always)]
pub fn compose(alloc: Global, first: Node, rest: Cursor) -> Result<Node, NoMemory>
    ensures control { IfOk result (λ node. (p : AnyProgram) → control_in p node ≡ compose (control_in p first) (cursor_in p rest.items)) }
    ensures left { IfOk result (λ node. (p : AnyProgram) (f : AnyFacts) (answers : Answers) (w : World) → what_is_left f answers (control_in p node) w ≡ run_cursor f (cursor_in p rest.items) (what_is_left f answers (control_in p first) w)) }
{
    match first {
        Node::Done => pair(alloc, Node::Done, Node::Done, rest),
        Node::Wait {
            slot,
            request,
            next,
            cursor,
        } => {
            let cursor = behind(cursor, rest)?;
            Ok(Node::Wait {
                slot,
                request,
                next,
                cursor,
            })
        }
        Node::Arms { one, two, cursor } => {
            let cursor = behind(cursor, rest)?;
            Ok(Node::Arms { one, two, cursor })
        }
    }
}

/// Two arms side by side, and nothing behind them, also where an arm is done: `thenCombine` of two state futures (Flink,
/// FLIP-424). The only fault is `NoMemory`, after which both are gone.
pub fn combine(alloc: Global, left: Node, right: Node) -> Result<Node, NoMemory>
    ensures control { IfOk result (λ node. (p : AnyProgram) → control_in p node ≡ combine (control_in p left) (control_in p right)) }
    ensures left { IfOk result (λ node. (p : AnyProgram) (f : AnyFacts) (answers : Answers) (w : World) → what_is_left f answers (control_in p node) w ≡ what_is_left f answers (control_in p right) (what_is_left f answers (control_in p left) w)) }
{
    pair(alloc, left, right, Vec::new(alloc))
}

/// A request that waits at a slot, what becomes of its answer, and what goes on behind it: what `compose` makes of a request
/// with nothing behind it.
#[inline(always)]
pub fn asking(
    alloc: Global,
    slot: u8,
    request: Request,
    next: Next,
    cursor: Cursor,
) -> Result<Node, NoMemory>
    ensures { IfOk result (λ node. (p : AnyProgram) → control_in p node ≡ WaitsFor slot request (next_in p next) (cursor_in p cursor.items)) }
{
    match next {
        Next::Take { assign } => {
            let first = Node::Wait {
                slot,
                request,
                next: Next::Take {
                    assign: Assign::Ignore,
                },
                cursor,
            };
            let node = then(alloc, first, assign)?;
            Ok(node)
        }
        Next::Begin { turn, body } => Ok(Node::Wait {
            slot,
            request,
            next: Next::Begin { turn, body },
            cursor,
        }),
    }
}

/// Two arms that wait side by side, and what goes on behind them.
pub fn arms(alloc: Global, one: Node, two: Node, cursor: Cursor) -> Result<Node, NoMemory>
    ensures { IfOk result (λ node. (p : AnyProgram) → control_in p node ≡ Arms (control_in p one) (control_in p two) (cursor_in p cursor.items)) }
{
    let both = combine(alloc, one, two)?;
    let node = compose(alloc, both, cursor)?;
    Ok(node)
}

fn pair(alloc: Global, one: Node, two: Node, cursor: Cursor) -> Result<Node, NoMemory>
    ensures { IfOk result (λ node. (p : AnyProgram) → control_in p node ≡ Arms (control_in p one) (control_in p two) (cursor_in p cursor.items)) }
{
    let Ok(one) = Box::new(alloc, one) else {
        return Err(NoMemory);
    };
    let Ok(two) = Box::new(alloc, two) else {
        return Err(NoMemory);
    };
    Ok(Node::Arms { one, two, cursor })
}

// What is still to be run, and then more.
#[tactic(auto, using(crate::proofs::CursorLemmas::cursor_append))]
#[inline(always)]
fn behind(inner: Cursor, rest: Cursor) -> Result<Cursor, NoMemory>
    ensures { IfOk result (λ all. (p : AnyProgram) → cursor_in p all.items ≡ cursor_in p inner.items ++ cursor_in p rest.items) }
{
    if inner.is_empty() {
        return Ok(rest);
    }
    let mut all = rest;
    add_all(&mut all, inner)?;
    Ok(all)
}

fn add_all(to: &mut Cursor, more: Cursor) -> Result<(), NoMemory>
    ensures { OnOk result (to.new.items ≡ to.old.items ++ more.items) }
{
    let mut left = more;
    left.reverse();
    while let Some(frame) = left.pop() {
        let Ok(()) = to.push(frame) else {
            return Err(NoMemory);
        };
    }
    Ok(())
}
