//! The kinds of faults.
ghost use Rattle.std.specs.Prelude.{◌≡◌};
ghost use Rattle.ax_rules.specs.Kinds.{kind_number};

/// What is wrong with a line of a program. On one line the kinds are tried in the order that stands here; `NoEnd` comes
/// where no line has a fault.
#[derive(Clone, Copy, Debug, PartialEq, Eq)]
pub enum FaultKind {
    /// The line has no shape, or none that may stand there.
    Word,
    /// A 65th state, a 10,001st statement, a 257th local name of a handler, or an expression of more than 256 words.
    TooMany,
    /// A block is the 33rd inside one another in the handler, or a parenthesis the 33rd.
    TooDeep,
    /// A second `input`, `on row` or `on timer`, a second state of one name, or an `each` whose two names are equal.
    Twice,
    /// A name that is neither a state nor assigned by an earlier line of the handler, or a value that a row doesn't have.
    UnknownName,
    /// A statement that the state's kind doesn't have, a local name in a state's place, or a state in a local name's place.
    Kind,
    /// A line inside an arm of a `both` that writes, or sets a timer or takes one off.
    InArm,
    /// A line of a second arm, with the first arm of that `both`: one assigns a local name that the other assigns or reads, or
    /// one changes a state that the other uses.
    Conflict,
    /// An `end` of a `both` of which more than 16 requests may be out together.
    TooWide,
    /// The section ended where `input`, `on row`, an `end` or the line of `%%` was still due.
    NoEnd,
}

impl FaultKind {
    /// The number that a kind is told by, from 1 to 10.
    pub fn number(self) -> u8
        ensures { result ≡ kind_number self }
    {
        match self {
            FaultKind::Word => 1,
            FaultKind::UnknownName => 2,
            FaultKind::Twice => 3,
            FaultKind::Kind => 4,
            FaultKind::Conflict => 5,
            FaultKind::InArm => 6,
            FaultKind::TooDeep => 7,
            FaultKind::TooMany => 8,
            FaultKind::TooWide => 9,
            FaultKind::NoEnd => 10,
        }
    }
}
