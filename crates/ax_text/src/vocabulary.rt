//! The plain types that definitions and code share.
ghost use Rattle.std.specs.Prelude.{◌≡◌};
ghost use Rattle.ax_text.specs.Cells.{state_of, serves};

use ax_base::{Duplicate, NoMemory, Nums, Pairs};
use std::alloc::Global;

/// A reserved word.
#[derive(Clone, Copy, Debug, PartialEq, Eq)]
pub enum Keyword {
    Input,
    State,
    Value,
    List,
    Map,
    Reducing,
    Sum,
    Min,
    Max,
    On,
    Row,
    Timer,
    End,
    Let,
    Get,
    Or,
    Has,
    Empty,
    Put,
    Add,
    Remove,
    Clear,
    If,
    Else,
    Each,
    In,
    Both,
    With,
    Emit,
    Untimer,
    Time,
    Wm,
}

/// What a declared state holds for a key.
#[derive(Clone, Copy, Debug, PartialEq, Eq)]
pub enum Kind {
    /// One number, or none.
    Value,
    /// Numbers in order.
    List,
    /// A number for each of some keys.
    Map,
}

/// What stands between two operands of an expression. A comparison gives 1 where it holds, and else 0.
#[derive(Clone, Copy, Debug, PartialEq, Eq)]
pub enum Op {
    /// `<`
    Less,
    /// `<=`
    AtMost,
    /// `==`
    Equal,
    /// `!=`
    Differs,
    /// `>=`
    AtLeast,
    /// `>`
    Greater,
    /// `+`: the sum, which wraps at 64 bits.
    Add,
    /// `-`: the left side less the right side, which wraps at 64 bits.
    Subtract,
    /// `*`: the product, which wraps at 64 bits.
    Multiply,
    /// `/`: the quotient, rounded toward 0. By 0 it is 0, and the least number divided by -1 is itself.
    Divide,
    /// `%`: the remainder, with the sign of the left side. By 0 it is 0.
    Remainder,
}

/// An operand of one word.
#[derive(Clone, Copy, Debug, PartialEq, Eq)]
pub enum Atom {
    Number(i64),
    /// A local name, by its number from 0.
    Name(usize),
    /// A value of the row, by its number from 0.
    Field(u8),
    /// The time of the row, or of the timer.
    Time,
    /// The greatest watermark before the row, or the one that fires.
    Watermark,
}

/// A request to one state of a key. States are numbered from 0, in order of their declarations.
#[derive(Debug, PartialEq, Eq, Drop)]
pub enum Request {
    /// The number of a value is asked for: `Found`, or `Missing` where the state is empty. Nothing changes.
    ValueGet { state: u8 },
    /// The number of a value is set, whatever was there before: `Done`.
    ValuePut { state: u8, number: i64 },
    /// The items of a list are asked for, in order: `Items`. Nothing changes.
    ListGet { state: u8 },
    /// A number goes last into a list: `Done`.
    ListAdd { state: u8, number: i64 },
    /// A list is now these items, whatever was there before: `Done`.
    ListPut { state: u8, items: Nums },
    /// The number of a map at the key `at` is asked for: `Found`, or `Missing` where it has no such entry. Nothing changes.
    MapGet { state: u8, at: i64 },
    /// The number of a map at the key `at` is set, whatever was there before: `Done`.
    MapPut { state: u8, at: i64, number: i64 },
    /// The entry of a map at the key `at` is taken out, if there is one: `Done`.
    MapRemove { state: u8, at: i64 },
    /// Whether a map has an entry at the key `at`: `Flag`. Nothing changes.
    MapHas { state: u8, at: i64 },
    /// Whether a map has no entry: `Flag`. Nothing changes.
    MapEmpty { state: u8 },
    /// The entries of a map are asked for, by rising key: `Pairs`. Nothing changes.
    MapEntries { state: u8 },
    /// A state of any kind becomes empty: `Done`.
    Clear { state: u8 },
}

impl Request {
    /// The state that it names.
    pub fn state(&self) -> u8
        ensures { result ≡ state_of self.now }
    {
        match self {
            Request::ValueGet { state }
            | Request::ValuePut { state, .. }
            | Request::ListGet { state }
            | Request::ListAdd { state, .. }
            | Request::ListPut { state, .. }
            | Request::MapGet { state, .. }
            | Request::MapPut { state, .. }
            | Request::MapRemove { state, .. }
            | Request::MapHas { state, .. }
            | Request::MapEmpty { state }
            | Request::MapEntries { state }
            | Request::Clear { state } => *state,
        }
    }

    /// Whether a state of this kind serves it.
    pub fn fits(&self, kind: Kind) -> bool
        ensures { result ≡ serves kind self.now }
    {
        match self {
            Request::ValueGet { .. } | Request::ValuePut { .. } => matches!(kind, Kind::Value),
            Request::ListGet { .. } | Request::ListAdd { .. } | Request::ListPut { .. } => {
                matches!(kind, Kind::List)
            }
            Request::Clear { .. } => true,
            _ => matches!(kind, Kind::Map),
        }
    }
}

impl Duplicate for Request {
    fn copy(&self, alloc: Global) -> Result<Request, NoMemory> {
        Ok(match self {
            Request::ValueGet { state } => Request::ValueGet { state: *state },
            Request::ValuePut { state, number } => Request::ValuePut {
                state: *state,
                number: *number,
            },
            Request::ListGet { state } => Request::ListGet { state: *state },
            Request::ListAdd { state, number } => Request::ListAdd {
                state: *state,
                number: *number,
            },
            Request::ListPut { state, items } => Request::ListPut {
                state: *state,
                items: items.copy(alloc)?,
            },
            Request::MapGet { state, at } => Request::MapGet {
                state: *state,
                at: *at,
            },
            Request::MapPut { state, at, number } => Request::MapPut {
                state: *state,
                at: *at,
                number: *number,
            },
            Request::MapRemove { state, at } => Request::MapRemove {
                state: *state,
                at: *at,
            },
            Request::MapHas { state, at } => Request::MapHas {
                state: *state,
                at: *at,
            },
            Request::MapEmpty { state } => Request::MapEmpty { state: *state },
            Request::MapEntries { state } => Request::MapEntries { state: *state },
            Request::Clear { state } => Request::Clear { state: *state },
        })
    }
}

/// What a request answers.
#[derive(Debug, PartialEq, Eq, Drop)]
pub enum Answer {
    /// What was asked is done; there is nothing to tell.
    Done,
    /// The number that the state holds there.
    Found { number: i64 },
    /// The state holds nothing there.
    Missing,
    /// The items of a list, in order.
    Items { items: Nums },
    /// The entries of a map, by rising key.
    Pairs { pairs: Pairs },
    /// Yes or no.
    Flag { yes: bool },
}

impl Duplicate for Answer {
    fn copy(&self, alloc: Global) -> Result<Answer, NoMemory> {
        Ok(match self {
            Answer::Done => Answer::Done,
            Answer::Found { number } => Answer::Found { number: *number },
            Answer::Missing => Answer::Missing,
            Answer::Items { items } => Answer::Items {
                items: items.copy(alloc)?,
            },
            Answer::Pairs { pairs } => Answer::Pairs {
                pairs: pairs.copy(alloc)?,
            },
            Answer::Flag { yes } => Answer::Flag { yes: *yes },
        })
    }
}

/// What a handler does to the timers of its key.
#[derive(Clone, Copy, Debug, PartialEq, Eq)]
pub enum TimerOp {
    /// A timer is set at this time. One that is set stays as it is.
    Set { time: i64 },
    /// The timer at this time is taken off, where there is one.
    Unset { time: i64 },
}

/// Which handler of a program runs.
#[derive(Clone, Copy, Debug, PartialEq, Eq)]
pub enum Handler {
    /// `on row`: once for each row.
    Row,
    /// `on timer`: once for each timer that fires.
    Timer,
}
