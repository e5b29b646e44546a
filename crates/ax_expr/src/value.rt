//! The value of an expression.
ghost use Rattle.std.specs.Prelude.{◌≡◌};
ghost use Rattle.ax_text.specs.Exprs.{apply_op, atom_value, value};
ghost use Rattle.ax_expr.specs.Shown.{shown_expr};
ghost use Rattle.ax_expr.specs.Scopes.{shown_facts, shown_names};

use crate::tree::Expr;
use ax_text::{Atom, Op};

/// What an expression may speak of.
#[derive(Clone, Copy)]
pub struct Scope<'a> {
    /// The time of the row, or of the timer.
    pub time: i64,
    /// The greatest watermark before the row, or the one that fires.
    pub wm: i64,
    /// The values of the row. One that is absent counts as 0.
    pub values: &'a [i64],
    /// The local names' numbers. One that is absent counts as 0.
    pub names: &'a [i64],
}

// Two numbers, passed together.
#[derive(Clone, Copy)]
struct Pair {
    left: i64,
    right: i64,
}

// What a sign makes of two numbers.
#[tactic(auto, unfolding(ax_text::specs::Exprs::apply_op))]
fn apply_op(op: Op, pair: &Pair) -> i64
    ensures { result ≡ apply_op op pair.now.left pair.now.right }
{
    let x = pair.left;
    let y = pair.right;
    match op {
        Op::Less => i64::from(x < y),
        Op::AtMost => i64::from(x <= y),
        Op::Equal => i64::from(x == y),
        Op::Differs => i64::from(x != y),
        Op::AtLeast => i64::from(x >= y),
        Op::Greater => i64::from(x > y),
        Op::Add => x.wrapping_add(y),
        Op::Subtract => x.wrapping_sub(y),
        Op::Multiply => x.wrapping_mul(y),
        Op::Divide => { if y == 0 { 0 } else { x.wrapping_div(y) } }
        Op::Remainder => { if y == 0 { 0 } else { x.wrapping_rem(y) } }
    }
}

// The number that an operand stands for.
fn atom_value(scope: &Scope<'_>, atom: &Atom) -> i64
    ensures { result ≡ atom_value (shown_facts scope.now) (shown_names scope.now) atom.now }
{
    match atom {
        Atom::Number(n) => *n,
        Atom::Name(i) => scope.names.get(*i).copied().unwrap_or(0),
        Atom::Field(i) => scope.values.get(*i as usize).copied().unwrap_or(0),
        Atom::Time => scope.time,
        Atom::Watermark => scope.wm,
    }
}

impl Expr {
    /// The value of the expression. Sums, differences and products wrap at 64 bits, and a comparison gives 1 or 0.
    ///
    /// `/` rounds toward 0, and `%` has the sign of its left side, as in Rust: `-7 / 2` is `-3`, and `-7 % 2` is `-1`. By 0
    /// both give 0. The least number divided by -1 wraps to itself, and its remainder by -1 is 0.
    ///
    /// No memory is taken; the calls nest as deep as the tree.
    #[tactic(auto, using(crate::proofs::ShownLemmas::shown_leaf, crate::proofs::ShownLemmas::shown_join))]
    pub fn value(&self, scope: &Scope<'_>) -> i64
        ensures { result ≡ value (shown_facts scope.now) (shown_names scope.now) (shown_expr self.now) }
    {
        match self {
            Expr::Leaf(atom) => atom_value(scope, atom),
            Expr::Join(op, a, b) => {
                let left = a.get().value(scope);
                let right = b.get().value(scope);
                apply_op(*op, &Pair { left, right })
            }
        }
    }
}
