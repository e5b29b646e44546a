//! The steps of a program.
use ax_base::ListOf;
use ax_expr::Expr;

/// What an `each` goes over, and the local names that take each turn.
#[derive(Clone, Copy)]
pub enum Loop {
    /// The items of a list, each in the name.
    Items {
        name: usize,
        state: u8,
    },
    /// The entries of a map by rising place, the place and the number in two names that differ.
    Entries {
        key: usize,
        number: usize,
        state: u8,
    },
}

/// A statement whose names are numbers; `one`, `other`, `two` and `body` are places of steps.
#[derive(Drop)]
pub enum Stmt {
    /// The local name takes the value.
    Let {
        name: usize,
        value: Expr,
    },
    /// One output line.
    Emit {
        values: ListOf<Expr>,
    },
    /// A timer of the key is set at this time.
    SetTimer {
        time: Expr,
    },
    /// The key's timer at this time is taken off.
    UnsetTimer {
        time: Expr,
    },
    /// The local name takes the number of the state, or the default where it has none.
    Get {
        name: usize,
        state: u8,
        missing: Expr,
    },
    /// The local name takes the number at a place of a map, or the default where there is none.
    GetAt {
        name: usize,
        state: u8,
        place: Expr,
        missing: Expr,
    },
    /// The local name takes 1 where a map has the place, and 0 where not.
    Has {
        name: usize,
        state: u8,
        place: Expr,
    },
    /// The local name takes 1 where a map has no place, and 0 where it has one.
    Empty {
        name: usize,
        state: u8,
    },
    /// The state's number is set.
    Put {
        state: u8,
        number: Expr,
    },
    /// The number at a place of a map is set.
    PutAt {
        state: u8,
        place: Expr,
        number: Expr,
    },
    /// A list becomes these numbers, 1 to 16.
    PutAll {
        state: u8,
        numbers: ListOf<Expr>,
    },
    /// A number goes to the end of a list.
    Add {
        state: u8,
        number: Expr,
    },
    /// A place of a map is taken off.
    Remove {
        state: u8,
        place: Expr,
    },
    /// The state is as it was before it was ever touched.
    Clear {
        state: u8,
    },
    /// The steps from `one` where the test isn't 0, and those from `other` where it is.
    If {
        test: Expr,
        one: usize,
        other: usize,
    },
    /// The steps from `body`, once for each item or entry.
    Each {
        turn: Loop,
        body: usize,
    },
    /// The steps from `one` and those from `two`, whose requests may be out at once.
    Both {
        one: usize,
        two: usize,
    },
}

/// A statement, and the place that comes after it. A place counts from 1, and 0 is the end.
#[derive(Drop)]
pub struct Step {
    pub stmt: Stmt,
    pub next: usize,
}

/// A line of a handler, before its places are known.
#[derive(Drop)]
pub(crate) enum HandlerLine {
    /// A statement, which names no places yet: 0 in place of each.
    Statement(Stmt),
    /// The second part of a block begins: `else`, or `with`.
    Second,
    /// The innermost block ends.
    End,
}
