//! One step of a handler.
ghost use Rattle.std.specs.Prelude.{◌≡◌, ◌≤◌, ◌<◌, ◌-◌, ◌+◌, drop, take, length, slice_get, Some, None, ◌++◌, ◌∷◌, [], max, suc, IfOk, IfSome, OnOk};
ghost use Rattle.ax_text.specs.Exprs.{Facts as AnyFacts};
ghost use Rattle.ax_text.specs.Controls.{Rest, Turns, Cursor as AnyCursor};
ghost use Rattle.ax_text.specs.Run.{loop_request};
ghost use Rattle.ax_lang.specs.declared.program.Program.{Program as AnyProgram};
ghost use Rattle.ax_lang.specs.Forms.{form_of, text_with, top_of, shown_loop, Branches};
ghost use Rattle.ax_lang.specs.Shown.{text_from};
ghost use Rattle.ax_expr.specs.Shown.{shown_expr};
ghost use Rattle.ax_future.specs.Nodes.{repeat_in, frame_in, cursor_in, behind, front_of, place_of, highest};
ghost use Rattle.ax_future.specs.Talks.{known_in, talk_of};
ghost use Rattle.ax_future.specs.Moves.{IsPlain, Moves, above};

use crate::callback::Known;
use crate::going::Going;
use crate::node::{Cursor, Frame, Next, Repeat};
use ax_base::{NoMemory, Pair, Pairs};
use ax_expr::Expr;
use ax_lang::{Loop, Program, Step, Stmt};
use ax_text::Request;
use std::alloc::Global;

/// What a step comes to.
#[derive(Drop)]
pub enum Move {
    /// Nothing is left to be run.
    End,
    /// It goes on.
    Go,
    /// It asks, and waits.
    Wait { request: Request, next: Next },
    /// Two arms begin.
    Split { one: usize, two: usize },
}

/// Puts a frame in front of what is still to be run.
#[tactic(auto, using(crate::proofs::CursorLemmas::cursor_more, crate::proofs::CursorLemmas::highest_more))]
pub fn put(cursor: &mut Cursor, frame: Frame) -> Result<(), NoMemory>
    ensures cursor { OnOk result ((p : AnyProgram) → cursor_in p cursor.new.items ≡ frame_in p frame ∷ cursor_in p cursor.old.items) }
    ensures highest { OnOk result (highest cursor.new.items ≡ max (highest cursor.old.items) (place_of frame)) }
{
    match cursor.push(frame) {
        Ok(()) => Ok(()),
        Err(_) => Err(NoMemory),
    }
}

// The place in front, where the steps from a place on are in front.
#[inline(always)]
fn front_of(cursor: &[Frame]) -> Option<usize>
    ensures { result ≡ front_of cursor.now }
{
    match cursor.last() {
        Some(Frame::Rest { place }) => Some(*place),
        _ => None,
    }
}

// The steps from a place on take the place of what is in front.
#[inline(always)]
#[tactic(auto, using(crate::proofs::CursorLemmas::cursor_set, crate::proofs::CursorLemmas::highest_set))]
fn go_to(cursor: &mut Cursor, place: usize)
    requires { 0 < length cursor.old.items }
    ensures cursor { (p : AnyProgram) → cursor_in p cursor.new.items ≡ Rest (text_from p place) ∷ behind (cursor_in p cursor.old.items) }
    ensures highest { highest cursor.new.items ≤ max (highest cursor.old.items) place }
{
    let last = cursor.len() - 1;
    cursor[last] = Frame::Rest { place };
}

// What an `each` asks.
fn loop_request(turn: Loop) -> Request
    ensures { result ≡ loop_request (shown_loop turn) }
{
    match turn {
        Loop::Items { state, .. } => Request::ListGet { state },
        Loop::Entries { state, .. } => Request::MapEntries { state },
    }
}

// A statement that asks at most once. What stands behind it is in front already.
#[inline(always)]
fn take_plain(
    alloc: Global,
    facts: &Known<'_>,
    step: &Step,
    going: &mut Going,
) -> Result<Move, NoMemory>
    requires { IsPlain (form_of step.now.stmt) }
    ensures moves { IfOk result (λ m. (p : AnyProgram) (k k' : AnyCursor) → k' ≡ Rest (text_from p step.now.next) ∷ k → Moves (known_in facts.now) p (Rest (text_with (text_from p) (form_of step.now.stmt) step.now.next) ∷ k) k' (talk_of going.old) (talk_of going.new) m) }
    ensures above { IfOk result (λ m. above m ≤ suc (top_of step.now)) }
    ensures asks { going.new.said.asks ≡ going.old.said.asks }
{
    match going.question(alloc, facts, &step.stmt)? {
        Some(question) => Ok(Move::Wait {
            request: question.request,
            next: Next::Take {
                assign: question.assign,
            },
        }),
        None => {
            going.act(alloc, facts, &step.stmt)?;
            Ok(Move::Go)
        }
    }
}

// An `if`: one of its parts comes first, and then what stands behind it, which is in front already.
fn take_branch(
    facts: &Known<'_>,
    going: &Going,
    test: &Expr,
    parts: &Parts,
    cursor: &mut Cursor,
) -> Result<Move, NoMemory>
    ensures moves { IfOk result (λ m. (p : AnyProgram) (k : AnyCursor) → cursor_in p cursor.old.items ≡ Rest (text_from p parts.now.next) ∷ k → Moves (known_in facts.now) p (Rest (text_with (text_from p) (Branches (shown_expr test.now) parts.now.one parts.now.other) parts.now.next) ∷ k) (cursor_in p cursor.new.items) (talk_of going.now) (talk_of going.now) m) }
    ensures places { OnOk result (highest cursor.new.items ≤ max (highest cursor.old.items) (max parts.now.next (max parts.now.one parts.now.other))) }
    ensures above { IfOk result (λ m. above m ≡ 0) }
{
    if going.is_zero(facts, test) {
        put(cursor, Frame::Rest { place: parts.other })?;
        Ok(Move::Go)
    } else {
        put(cursor, Frame::Rest { place: parts.one })?;
        Ok(Move::Go)
    }
}

// The places of an `if`.
#[derive(Clone, Copy)]
struct Parts {
    one: usize,
    other: usize,
    next: usize,
}

// One statement. What stands behind it is in front already.
#[inline(always)]
fn take_step(
    alloc: Global,
    facts: &Known<'_>,
    step: &Step,
    cursor: &mut Cursor,
    going: &mut Going,
) -> Result<Move, NoMemory>
    ensures moves { IfOk result (λ m. (p : AnyProgram) (k : AnyCursor) → cursor_in p cursor.old.items ≡ Rest (text_from p step.now.next) ∷ k → Moves (known_in facts.now) p (Rest (text_with (text_from p) (form_of step.now.stmt) step.now.next) ∷ k) (cursor_in p cursor.new.items) (talk_of going.old) (talk_of going.new) m) }
    ensures places { OnOk result (highest cursor.new.items ≤ max (highest cursor.old.items) (top_of step.now)) }
    ensures above { IfOk result (λ m. above m ≤ suc (top_of step.now)) }
    ensures asks { going.new.said.asks ≡ going.old.said.asks }
{
    match &step.stmt {
        Stmt::If { test, one, other } => {
            let parts = Parts {
                one: *one,
                other: *other,
                next: step.next,
            };
            take_branch(facts, going, test, &parts, cursor)
        }
        Stmt::Each { turn, body } => Ok(Move::Wait {
            request: loop_request(*turn),
            next: Next::Begin {
                turn: *turn,
                body: *body,
            },
        }),
        Stmt::Both { one, two } => Ok(Move::Split {
            one: *one,
            two: *two,
        }),
        _ => take_plain(alloc, facts, step, going),
    }
}

fn pair_at(turns: &Pairs, at: usize) -> Pair
    requires { at < length turns.now }
    ensures { slice_get turns.now at ≡ Some result }
{
    turns.as_slice()[at]
}

// One turn of an `each`, or its end.
fn take_turn(repeat: Box<Repeat>, cursor: &mut Cursor, going: &mut Going) -> Result<Move, NoMemory>
    ensures moves { IfOk result (λ m. (p : AnyProgram) (f : AnyFacts) → Moves f p (repeat_in p repeat.value ∷ cursor_in p cursor.old.items) (cursor_in p cursor.new.items) (talk_of going.old) (talk_of going.new) m) }
    ensures places { OnOk result (highest cursor.new.items ≤ max (highest cursor.old.items) repeat.value.body) }
    ensures above { IfOk result (λ m. above m ≡ 0) }
    ensures asks { going.new.said.asks ≡ going.old.said.asks }
{
    if repeat.at < repeat.turns.len() {
        let pair = pair_at(&repeat.turns, repeat.at);
        let place = repeat.body;
        going.bind(repeat.turn, &pair)?;
        let mut repeat = repeat;
        repeat.at += 1;
        put(cursor, Frame::Turns { repeat })?;
        put(cursor, Frame::Rest { place })?;
    }
    Ok(Move::Go)
}

// What is in front has come to its end.
fn end_text(cursor: &mut Cursor)
    requires { 0 < length cursor.old.items }
    ensures { cursor.new.items ≡ take (length cursor.old.items - 1) cursor.old.items }
{
    cursor.pop();
}

// The steps from a place on, which are in front.
#[inline(always)]
fn take_text(
    alloc: Global,
    program: &Program,
    facts: &Known<'_>,
    place: usize,
    cursor: &mut Cursor,
    going: &mut Going,
) -> Result<Move, NoMemory>
    requires { front_of cursor.old.items ≡ Some place }
    ensures moves { IfOk result (λ m. Moves (known_in facts.now) program.now (cursor_in program.now cursor.old.items) (cursor_in program.now cursor.new.items) (talk_of going.old) (talk_of going.new) m) }
    ensures places { OnOk result (highest cursor.new.items ≤ highest cursor.old.items) }
    ensures above { IfOk result (λ m. above m ≤ highest cursor.old.items) }
    ensures asks { going.new.said.asks ≡ going.old.said.asks }
{
    match program.step(place) {
        None => {
            end_text(cursor);
            Ok(Move::Go)
        }
        Some(step) => {
            go_to(cursor, step.next);
            let taken = take_step(alloc, facts, step, cursor, going)?;
            Ok(taken)
        }
    }
}

// What is in front, where that are the turns of an `each`, or nothing.
fn take_other(cursor: &mut Cursor, going: &mut Going) -> Result<Move, NoMemory>
    requires { front_of cursor.old.items ≡ None }
    ensures moves { IfOk result (λ m. (p : AnyProgram) (f : AnyFacts) → Moves f p (cursor_in p cursor.old.items) (cursor_in p cursor.new.items) (talk_of going.old) (talk_of going.new) m) }
    ensures places { OnOk result (highest cursor.new.items ≤ highest cursor.old.items) }
    ensures above { IfOk result (λ m. above m ≡ 0) }
    ensures asks { going.new.said.asks ≡ going.old.said.asks }
{
    match cursor.pop() {
        None => Ok(Move::End),
        Some(Frame::Rest { .. }) => unreachable!(),
        Some(Frame::Turns { repeat }) => {
            let taken = take_turn(repeat, cursor, going)?;
            Ok(taken)
        }
    }
}

/// One step of what is still to be run.
#[inline(always)]
pub fn advance(
    alloc: Global,
    program: &Program,
    facts: &Known<'_>,
    cursor: &mut Cursor,
    going: &mut Going,
) -> Result<Move, NoMemory>
    ensures moves { IfOk result (λ m. Moves (known_in facts.now) program.now (cursor_in program.now cursor.old.items) (cursor_in program.now cursor.new.items) (talk_of going.old) (talk_of going.new) m) }
    ensures places { OnOk result (highest cursor.new.items ≤ highest cursor.old.items) }
    ensures above { IfOk result (λ m. above m ≤ highest cursor.old.items) }
    ensures asks { going.new.said.asks ≡ going.old.said.asks }
{
    match front_of(cursor) {
        Some(place) => take_text(alloc, program, facts, place, cursor, going),
        None => take_other(cursor, going),
    }
}
