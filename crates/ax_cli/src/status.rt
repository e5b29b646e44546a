//! How the program ends.
ghost use Rattle.std.specs.Prelude.{◌≡◌};
ghost use Rattle.ax_cli.specs.Status.{IsStatus, code_of};

use ax_task::End;

/// How the program ends.
#[derive(Clone, Copy, Debug, PartialEq, Eq)]
pub enum Status {
    /// The input was read to its end, and all its lines are written.
    Ok,
    /// Memory was short. Part of the lines may be written.
    NoMemory,
    /// The words were refused. Nothing was read or written.
    Usage,
    /// The program section has this first fault. Nothing was written.
    ///
    /// Lines count from 1. Kinds: 1 a line that has none of the shapes, 2 an unknown name, 3 what
    /// may stand once stands twice, 4 a name of the wrong kind, 5 two arms in conflict, 6 an arm that
    /// speaks, 7 too deep, 8 too many, 9 too wide, 10 no end, 11 a line that is too long, 12 too
    /// much input.
    Program { line: u64, kind: u8 },
    /// This line is the first with a fault among the events. What comes before it is written.
    ///
    /// Lines count from 1. Kinds: 1 the first word, 2 the key, 3 a number, 4 the count of words,
    /// 5 a barrier whose ID isn't greater than each before it, 6 a line that is too long, 7 too
    /// much input.
    Input { line: u64, kind: u8 },
    /// The source failed. What was read before it is written.
    Read,
    /// The sink failed. Part of the lines may be written.
    Write,
}

impl Status {
    /// The code with which the process ends, from 0 to 6.
    pub fn code(&self) -> u8
        ensures { result ≡ code_of self.now }
    {
        match *self {
            Status::Ok => 0,
            Status::NoMemory => 1,
            Status::Usage => 2,
            Status::Program { line: _, kind: _ } => 3,
            Status::Input { line: _, kind: _ } => 4,
            Status::Read => 5,
            Status::Write => 6,
        }
    }

    // The status of a run that ended so.
    pub(crate) fn of_end(end: End) -> Status
        ensures { IsStatus end result }
    {
        match end {
            End::Ok => Status::Ok,
            End::NoMemory => Status::NoMemory,
            End::Program { line, kind } => Status::Program { line, kind },
            End::Input { line, kind } => Status::Input { line, kind },
            End::Read => Status::Read,
            End::Write => Status::Write,
        }
    }
}
