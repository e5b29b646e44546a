//! Expressions from their tokens.
ghost use Rattle.std.specs.Prelude.{◌≡◌, List, [], ◌∷◌, IfOk, OnOk};
ghost use Rattle.ax_text.specs.Exprs.{Join as TreeJoin};
ghost use Rattle.ax_expr.specs.declared.tree.Token.{Token as AnyToken};
ghost use Rattle.ax_expr.specs.Levels.{level_of};
ghost use Rattle.ax_expr.specs.Shown.{shown_expr};
ghost use Rattle.ax_expr.specs.Reading.{joined, tree_of, walk, stack_of, expr_some, shown_waiting, Steps, Reads, Tightens, OnlyMemory};

use crate::tree::{Expr, Token};
use ax_text::Op;
use sqlite_items::Boxed;
use std::alloc::Global;

/// Why there is no expression.
#[derive(Clone, Copy, Debug, PartialEq, Eq)]
pub enum Refusal {
    /// There was no memory for the tree.
    NoMemory,
    /// The tokens are no expression: a token stands where none of its kind may, a parenthesis has no partner, or the
    /// expression stops short.
    Word,
}

// What stands on the left of an operand that is still read.
#[derive(Drop)]
enum Pending {
    Open,
    Before(Expr, Op),
}

// How tightly a sign binds.
fn level_of(op: Op) -> u8
    ensures { result ≡ level_of op }
{
    match op {
        Op::Less | Op::AtMost | Op::Equal | Op::Differs | Op::AtLeast | Op::Greater => 1,
        Op::Add | Op::Subtract => 2,
        Op::Multiply | Op::Divide | Op::Remainder => 3,
    }
}

#[tactic(auto, using(crate::proofs::ShownLemmas::shown_join))]
fn join(alloc: Global, op: Op, left: Expr, right: Expr) -> Result<Expr, Refusal>
    ensures memory { OnlyMemory result }
    ensures value { IfOk result (λ x. shown_expr x ≡ TreeJoin op (shown_expr left) (shown_expr right)) }
{
    let Ok(left) = Boxed::new(alloc, left) else {
        return Err(Refusal::NoMemory);
    };
    let Ok(right) = Boxed::new(alloc, right) else {
        return Err(Refusal::NoMemory);
    };
    Ok(Expr::Join(op, left, right))
}

// Joins an operand with what stands on its left and binds at least as tightly.
#[tactic(auto, using(crate::proofs::ShownLemmas::stack_of_append))]
fn tighten(
    alloc: Global,
    level: u8,
    operand: Expr,
    waiting: &mut Vec<Pending>,
) -> Result<Expr, Refusal>
    ensures { Tightens (joined level (shown_expr operand) (stack_of waiting.old.items)) (stack_of waiting.new.items) result }
{
    let mut value = operand;
    'reduce: loop {
        match waiting.pop() {
            Some(Pending::Before(left, op)) => {
                if level <= level_of(op) {
                    value = join(alloc, op, left, value)?;
                } else {
                    put_last(waiting, Pending::Before(left, op))?;
                    return Ok(value);
                }
            }
            Some(Pending::Open) => {
                put_last(waiting, Pending::Open)?;
                return Ok(value);
            }
            None => return Ok(value),
        }
    }
}

// Lets one more wait, nearest to the operand to come.
#[tactic(auto, using(crate::proofs::ShownLemmas::stack_of_append))]
fn put_last(waiting: &mut Vec<Pending>, last: Pending) -> Result<(), Refusal>
    ensures memory { OnlyMemory result }
    ensures value { OnOk result (stack_of waiting.new.items ≡ shown_waiting last ∷ stack_of waiting.old.items) }
{
    match waiting.push(last) {
        Ok(()) => Ok(()),
        Err(_) => Err(Refusal::NoMemory),
    }
}

// Takes one token: the operand that it ends, if there is one, and what then waits.
#[tactic(auto, using(crate::proofs::ShownLemmas::stack_of_append, crate::proofs::ShownLemmas::shown_leaf))]
fn step(
    alloc: Global,
    operand: Option<Expr>,
    waiting: &mut Vec<Pending>,
    token: Token,
) -> Result<Option<Expr>, Refusal>
    ensures { (ms : List AnyToken) → Steps (walk (expr_some operand) (stack_of waiting.old.items) (token ∷ ms)) (λ x. walk x (stack_of waiting.new.items) ms) result }
{
    match operand {
        None => match token {
            Token::Operand(atom) => Ok(Some(Expr::Leaf(atom))),
            Token::Open => {
                put_last(waiting, Pending::Open)?;
                Ok(None)
            }
            Token::Close | Token::Sign(_) => Err(Refusal::Word),
        },
        Some(x) => match token {
            Token::Operand(_) | Token::Open => Err(Refusal::Word),
            Token::Close => {
                let value = tighten(alloc, 0, x, waiting)?;
                match waiting.pop() {
                    Some(Pending::Open) => Ok(Some(value)),
                    _ => Err(Refusal::Word),
                }
            }
            Token::Sign(op) => {
                let left = tighten(alloc, level_of(op), x, waiting)?;
                put_last(waiting, Pending::Before(left, op))?;
                Ok(None)
            }
        },
    }
}

/// Reads an expression from its tokens, all of them. `*`, `/` and `%` bind most tightly, then `+` and `-`, then the
/// comparisons; signs that bind equally join to the left.
///
/// Tokens that are no expression give `Word` where there is memory, and others never do. After an `Err` nothing is kept.
pub fn read_expr(alloc: Global, tokens: &[Token]) -> Result<Expr, Refusal>
    ensures { Reads (tree_of tokens.now) result }
{
    let mut waiting = Vec::new(alloc);
    let mut operand = None;
    for token in tokens {
        operand = step(alloc, operand, &mut waiting, *token)?;
    }
    finish(alloc, operand, waiting)
}

// At the end everything that waits is joined, and no parenthesis is open.
#[tactic(auto, using(crate::proofs::ShownLemmas::stack_of_append))]
fn finish(alloc: Global, operand: Option<Expr>, mut waiting: Vec<Pending>) -> Result<Expr, Refusal>
    ensures { Reads (walk (expr_some operand) (stack_of waiting.items) []) result }
{
    let Some(x) = operand else {
        return Err(Refusal::Word);
    };
    let value = tighten(alloc, 0, x, &mut waiting)?;
    match waiting.pop() {
        None => Ok(value),
        Some(_) => Err(Refusal::Word),
    }
}
