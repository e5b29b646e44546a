//! How a handler takes an answer.
ghost use Rattle.std.specs.Prelude.{ℕ, List, ◌∷◌, ◌≡◌, ◌≤◌, ◌+◌, ◌++◌, [], length, map, max, IfOk, OnOk};
ghost use Rattle.ax_text.specs.Exprs.{Facts as AnyFacts};
ghost use Rattle.ax_text.specs.Run.{with_names, take_in, turns_of, number_or};
ghost use Rattle.ax_text.specs.Prints.{has};
ghost use Rattle.ax_text.specs.Controls.{Turns, slots, also, begin, resume, give_in, without};
ghost use Rattle.ax_lang.specs.declared.program.Program.{Program as AnyProgram};
ghost use Rattle.ax_lang.specs.Forms.{shown_loop};
ghost use Rattle.ax_lang.specs.Shown.{text_from};
ghost use Rattle.ax_future.specs.Sizes.{cursor_width, next_width, control_width};
ghost use Rattle.ax_future.specs.Nodes.{cursor_in, next_in, after_in, control_in};
ghost use Rattle.ax_future.specs.Talks.{known_in, talk_of, asks_in, turn_pair};
ghost use Rattle.ax_future.specs.Moves.{turn_of};

use crate::begin::{are_done, begin};
use crate::callback::Known;
use crate::going::{Going, assign};
use crate::moves::put;
use crate::node::{Assign, Cursor, Frame, Next, Node, Repeat};
use ax_base::{NoMemory, Pair, Pairs};
use ax_lang::{Loop, Program};
use ax_text::Answer;
use std::alloc::Global;
use std::mem;

// The number of an answer, or the default.
fn number_or(answer: &Answer, missing: i64) -> i64
    ensures { result ≡ number_or answer.now missing }
{
    match answer {
        Answer::Found { number } => *number,
        Answer::Flag { yes } => i64::from(*yes),
        _ => missing,
    }
}

// A local name takes an answer.
fn take_in(going: &mut Going, to: Assign, answer: &Answer) -> Result<(), NoMemory>
    ensures talk { OnOk result (talk_of going.new ≡ with_names (take_in (after_in to) answer.now (talk_of going.old).names) (talk_of going.old)) }
    ensures asks { going.new.said.asks ≡ going.old.said.asks }
{
    match to {
        Assign::Name { name, missing } => {
            let number = number_or(answer, missing);
            assign(&mut going.names, name, number)
        }
        Assign::Ignore => Ok(()),
    }
}

// The turns that a list gives an `each`.
fn item_turns(alloc: Global, items: &[i64]) -> Result<Pairs, NoMemory>
    ensures { IfOk result (λ turns. turns ≡ map turn_pair items.now) }
{
    let mut turns = Pairs::new(alloc);
    for item in items {
        turns.push(Pair {
            at: *item,
            number: 0,
        })?;
    }
    Ok(turns)
}

// The turns that an answer gives an `each`.
fn turns_of(alloc: Global, answer: Answer) -> Result<Pairs, NoMemory>
    ensures { IfOk result (λ turns. turns ≡ turns_of answer) }
{
    match answer {
        Answer::Items { items } => item_turns(alloc, items.as_slice()),
        Answer::Pairs { pairs } => Ok(pairs),
        _ => Ok(Pairs::new(alloc)),
    }
}

// The turns of an `each` go in front of what is still to be run.
fn put_turns(
    alloc: Global,
    cursor: &mut Cursor,
    turn: Loop,
    turns: Pairs,
    body: usize,
) -> Result<(), NoMemory>
    ensures { OnOk result ((p : AnyProgram) → cursor_in p cursor.new.items ≡ Turns (shown_loop turn) turns (text_from p body) ∷ cursor_in p cursor.old.items) }
{
    let repeat = Repeat {
        turn,
        turns,
        at: 0,
        body,
    };
    match Box::new(alloc, repeat) {
        Ok(repeat) => put(cursor, Frame::Turns { repeat }),
        Err(_) => Err(NoMemory),
    }
}

// An answer goes to what takes it, or its turns go in front of what is still to be run.
#[inline(always)]
fn accept(
    alloc: Global,
    next: Next,
    answer: Answer,
    cursor: &mut Cursor,
    going: &mut Going,
) -> Result<(), NoMemory>
    ensures same { OnOk result ((p : AnyProgram) (f : AnyFacts) (used : List ℕ) → begin f (cursor_in p cursor.new.items) used (talk_of going.new) ≡ resume f (next_in p next) answer (cursor_in p cursor.old.items) used (talk_of going.old)) }
    ensures narrow { OnOk result ((p : AnyProgram) → cursor_width (cursor_in p cursor.new.items) ≤ max (next_width (next_in p next)) (cursor_width (cursor_in p cursor.old.items))) }
    ensures asks { going.new.said.asks ≡ going.old.said.asks }
{
    match next {
        Next::Take { assign } => take_in(going, assign, &answer),
        Next::Begin { turn, body } => {
            let turns = turns_of(alloc, answer)?;
            put_turns(alloc, cursor, turn, turns, body)
        }
    }
}

// A wait takes its answer, and the handler goes on.
#[inline(always)]
fn resume(
    alloc: Global,
    program: &Program,
    facts: &Known<'_>,
    used: &[u8],
    next: Next,
    answer: Answer,
    cursor: Cursor,
    going: &mut Going,
    node: &mut Node,
) -> Result<(), NoMemory>
    requires { length used.now + max (next_width (next_in program.now next)) (cursor_width (cursor_in program.now cursor.items)) ≤ 256 }
    ensures { OnOk result (also (asks_in going.old.said.asks) (resume (known_in facts.now) (next_in program.now next) answer (cursor_in program.now cursor.items) used.now (talk_of going.old)) ≡ turn_of program.now going.new node.new) }
{
    let mut cursor = cursor;
    accept(alloc, next, answer, &mut cursor, going)?;
    begin(alloc, program, facts, used, cursor, going, node)?;
    Ok(())
}

// Two arms have ended, and the text behind them goes on.
fn go_on(
    alloc: Global,
    program: &Program,
    facts: &Known<'_>,
    used: &[u8],
    cursor: Cursor,
    going: &mut Going,
    node: &mut Node,
) -> Result<(), NoMemory>
    requires { length used.now + cursor_width (cursor_in program.now cursor.items) ≤ 256 }
    ensures { OnOk result (also (asks_in going.old.said.asks) (begin (known_in facts.now) (cursor_in program.now cursor.items) used.now (talk_of going.old)) ≡ turn_of program.now going.new node.new) }
{
    begin(alloc, program, facts, used, cursor, going, node)?;
    Ok(())
}

/// Whether a node waits at a slot.
pub fn waits_at(node: &Node, slot: u8) -> bool
    ensures { (p : AnyProgram) → result ≡ has slot (slots (control_in p node.now)) }
{
    match node {
        Node::Done => false,
        Node::Wait { slot: other, .. } => slot == *other,
        Node::Arms { one, two, .. } => waits_at(one, slot) || waits_at(two, slot),
    }
}

/// The slots where a node waits, but one.
#[tactic(auto, using(crate::proofs::AnswerLemmas::without_append))]
pub fn add_others(node: &Node, slot: u8, others: &mut Vec<u8>) -> Result<(), NoMemory>
    ensures { OnOk result ((p : AnyProgram) → others.new.items ≡ others.old.items ++ without slot (slots (control_in p node.now))) }
{
    match node {
        Node::Done => Ok(()),
        Node::Wait { slot: other, .. } => {
            if slot == *other {
                Ok(())
            } else {
                match others.push(*other) {
                    Ok(()) => Ok(()),
                    Err(_) => Err(NoMemory),
                }
            }
        }
        Node::Arms { one, two, .. } => {
            add_others(one, slot, others)?;
            add_others(two, slot, others)?;
            Ok(())
        }
    }
}

/// The wait of a slot takes an answer, and the handler goes on, all in the place of its node. `used` are the slots of the
/// other waits. After `NoMemory`, its only fault, the node is of no more use.
pub fn give_in(
    alloc: Global,
    program: &Program,
    facts: &Known<'_>,
    used: &[u8],
    slot: u8,
    answer: Answer,
    going: &mut Going,
    node: &mut Node,
) -> Result<(), NoMemory>
    requires { length used.now + control_width (control_in program.now node.old) ≤ 256 }
    ensures { OnOk result (also (asks_in going.old.said.asks) (give_in (known_in facts.now) (control_in program.now node.old) slot answer used.now (talk_of going.old)) ≡ turn_of program.now going.new node.new) }
{
    match node {
        Node::Done => Ok(()),
        Node::Wait { next, cursor, .. } => {
            let next = *next;
            let cursor = mem::replace(cursor, Vec::new(alloc));
            resume(
                alloc, program, facts, used, next, answer, cursor, going, node,
            )?;
            Ok(())
        }
        Node::Arms { one, two, cursor } => {
            if waits_at(one, slot) {
                give_in(alloc, program, facts, used, slot, answer, going, one)?;
                if are_done(one, two) {
                    let cursor = mem::replace(cursor, Vec::new(alloc));
                    go_on(alloc, program, facts, used, cursor, going, node)?;
                }
                Ok(())
            } else {
                give_in(alloc, program, facts, used, slot, answer, going, two)?;
                if are_done(one, two) {
                    let cursor = mem::replace(cursor, Vec::new(alloc));
                    go_on(alloc, program, facts, used, cursor, going, node)?;
                }
                Ok(())
            }
        }
    }
}
