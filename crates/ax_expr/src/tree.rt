//! Expressions as trees.
ghost use Rattle.std.specs.Prelude.{◌≡◌, IfOk};

use ax_base::{Duplicate, NoMemory};
use ax_text::{Atom, Op};
use sqlite_items::Boxed;
use std::alloc::Global;

/// An expression.
#[derive(Drop)]
pub enum Expr {
    /// A single operand.
    Leaf(Atom),
    /// Two expressions and the sign between them.
    Join(Op, Boxed<Expr>, Boxed<Expr>),
}

fn boxed(alloc: Global, expr: Expr) -> Result<Boxed<Expr>, NoMemory>
    ensures { IfOk result (λ b. b ≡ expr) }
{
    match Boxed::new(alloc, expr) {
        Ok(boxed) => Ok(boxed),
        Err(_) => Err(NoMemory),
    }
}

impl Duplicate for Expr {
    fn copy(&self, alloc: Global) -> Result<Expr, NoMemory> {
        match self {
            Expr::Leaf(atom) => Ok(Expr::Leaf(*atom)),
            Expr::Join(op, a, b) => {
                let left = boxed(alloc, a.get().copy(alloc)?)?;
                let right = boxed(alloc, b.get().copy(alloc)?)?;
                Ok(Expr::Join(*op, left, right))
            }
        }
    }
}

/// What a word is in an expression.
#[derive(Clone, Copy, Debug, PartialEq, Eq)]
pub enum Token {
    /// A number, a name, a value of the row, or a time.
    Operand(Atom),
    /// `(`
    Open,
    /// `)`
    Close,
    /// A sign between two operands.
    Sign(Op),
}
