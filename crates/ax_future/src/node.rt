//! Where a handler stands.
use ax_base::Pairs;
use ax_lang::Loop;
use ax_text::Request;

/// The turns of an `each` from the one numbered `at` on, each of which runs the steps from `body` on.
#[derive(Drop)]
pub struct Repeat {
    pub turn: Loop,
    pub turns: Pairs,
    pub at: usize,
    pub body: usize,
}

/// What is still to be run: the steps from a place on, or the turns that are left of an `each`. It is small, since most
/// frames are places.
#[derive(Drop)]
pub enum Frame {
    /// The steps from a place of the program on.
    Rest { place: usize },
    /// The turns that are left of an `each`.
    Turns { repeat: Box<Repeat> },
}

/// A place in a program's text, with the turns that are left of each open `each`. Frames stand innermost last.
pub type Cursor = Vec<Frame>;

/// What takes the answer of a request.
#[derive(Clone, Copy)]
pub enum Assign {
    /// A local name takes the number of the answer, or the default where it has none.
    Name { name: usize, missing: i64 },
    /// Nothing takes it.
    Ignore,
}

/// Where an answer goes: to a local name, or into an `each`.
#[derive(Clone, Copy)]
pub enum Next {
    /// To what takes it.
    Take { assign: Assign },
    /// Its items or entries are the turns of an `each`.
    Begin { turn: Loop, body: usize },
}

/// A handler that waits, or is done.
#[derive(Drop)]
pub enum Node {
    /// Nothing is left to do.
    Done,
    /// A request is out at a slot, and its answer is waited for.
    Wait {
        slot: u8,
        request: Request,
        next: Next,
        cursor: Cursor,
    },
    /// Two arms of a `both` wait side by side, and the text goes on behind both.
    Arms {
        one: Box<Node>,
        two: Box<Node>,
        cursor: Cursor,
    },
}
