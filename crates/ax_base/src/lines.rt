//! The lines of a source, in order.
//!
//! A line ends with a line feed (LF, 0x0A) or with the end of the input. Lines are numbered from 1,
//! and every line counts, blank ones too.
ghost use Rattle.std.specs.Prelude.{◌≡◌, ◌+◌, ◌≤◌, ◌<◌, ◌^◌, ◌++◌, ℕ, true, false, length, IfOk, OnErr, OnOk, IsTrue, IfSome, IsErrOf, ◌↔◌, []};
ghost use Rattle.ax_base.specs.Outside.{Told};
ghost use Rattle.ax_base.specs.Lines.{no_feed};
ghost use Rattle.ax_base.specs.Given.{ahead, Gives, Advances, IsReadFault, ReadsMore, LineCount, StaysNear};

use crate::find::{Stop, find};
use crate::lists::{Bytes, Duplicate};
use crate::window::Window;
use crate::{NoMemory, Source};
use std::alloc::Global;
use std::marker::Model;
use thiserror::Error;

/// A line.
#[derive(Debug, PartialEq, Eq, Drop)]
pub struct Line {
    /// Its number, from 1 on and below `2^63`.
    pub number: u64,
    /// Its bytes without the line feed, at most 65,536.
    pub text: Bytes,
}

impl Duplicate for Line {
    fn copy(&self, alloc: Global) -> Result<Line, NoMemory> {
        Ok(Line {
            number: self.number,
            text: self.text.copy(alloc)?,
        })
    }
}

/// Why there is no line. After any of these the reader has `failed`, and gives nothing more.
#[derive(Clone, Copy, Debug, PartialEq, Eq, Error)]
pub enum LineFault {
    /// The source could not be read: its count of faults rose in this call. Every whole line of the
    /// bytes that were read was given before.
    #[error("the input could not be read")]
    Read,
    /// The line of this number, the next, has more than 65,536 bytes before its line feed, and that
    /// many lie within the limit.
    #[error("line {number} has more than 65536 bytes")]
    TooLong { number: u64 },
    /// The line of this number, the next, does not end within the limit, and passes it before it is
    /// too long: as many bytes as the limit allows were taken, and one more was given.
    #[error("the input passes its limit in line {number}")]
    TooMuch { number: u64 },
    /// Memory was short for the line.
    #[error("memory was short")]
    NoMemory,
}

/// A reader of lines, which takes at most a given number of bytes.
///
/// Contracts see it as a record (`specs/Reader.antt`): the bytes that it read and did not give yet,
/// how many bytes from there on lie within the limit, how many lines it gave, and whether it failed.
#[derive(Drop)]
pub struct Lines {
    alloc: Global,
    window: Window,
    limit: u64,
    number: u64,
    failed: bool,
}

impl Model for Lines {
    ghost use Rattle.std.specs.Prelude.{◌+◌, ◌≤◌, ◌<◌, ◌^◌, length};
    ghost use Rattle.ax_base.specs.Reader.{Reader};

    ghost Value = { Reader };

    ghost view = { λ s. record { held = s.window; limit = s.limit; number = s.number; failed = s.failed } };

    ghost invariant = { λ s. (s.number + s.limit < 2 ^ 63) × (length s.window ≤ s.limit + 1) };
}

impl Lines {
    /// A reader that gives lines of at most `limit` bytes together, each with its line feed.
    /// Condition: `limit` is below `2^63`. It takes memory for two pieces of 65,536 bytes.
    pub fn with_limit(alloc: Global, limit: u64) -> Result<Lines, NoMemory>
        requires { limit < 2 ^ 63 }
        ensures { IfOk result (λ s. s ≡ record { held = []; limit = limit; number = 0; failed = false }) }
    {
        Ok(Lines {
            alloc,
            window: Window::new(alloc)?,
            limit,
            number: 0,
            failed: false,
        })
    }

    /// Whether `next` answered a fault. It is then not called again.
    pub fn failed(&self) -> bool
        ensures { result ≡ self.now.failed }
    {
        self.failed
    }

    /// How many lines were given: the number of the last line.
    pub fn number(&self) -> u64
        ensures count { result ≡ self.now.number }
        ensures small { self.now.number < 2 ^ 63 }
    {
        self.number
    }

    /// The next line, or `None` exactly at the end. A last line without line feed counts, where it is
    /// not empty. Condition: no fault was answered before. Hand in the same source each time.
    ///
    /// Each read asks for 65,536 bytes, or for one byte more than the limit still leaves where that
    /// is fewer. `told` speaks of the bytes that the source has left, where it tells them;
    /// `read_here` of the bytes that this call read, for every source.
    pub fn next<S: Source>(&mut self, input: &mut S) -> Result<Option<Line>, LineFault>
        requires { self.old.failed ≡ false }
        ensures told { Told (S.left input.old) (S.left input.new)
            (λ a b. Gives (ahead self.old a) (ahead self.new b) (self.new.held ++ b) result) }
        ensures read_here { ReadsMore (S.left input.old) (S.left input.new) self.old self.new result }
        ensures steps { Advances self.old self.new result }
        ensures count { LineCount (S.faults input.old) (S.faults input.new) result }
        ensures near { StaysNear self.new result }
        ensures waits { IsReadFault result → no_feed self.new.held ≡ true }
    {
        let room = Bytes::new(self.alloc);
        self.next_in(input, room)
    }

    /// The same, where the line's bytes lie in the room of an earlier text, so that memory is taken only for a line that is longer
    /// than all before it in that room. What the text said doesn't matter, and after any other answer than a line it is gone.
    pub fn next_in<S: Source>(
        &mut self,
        input: &mut S,
        room: Bytes,
    ) -> Result<Option<Line>, LineFault>
        requires { self.old.failed ≡ false }
        ensures told { Told (S.left input.old) (S.left input.new)
            (λ a b. Gives (ahead self.old a) (ahead self.new b) (self.new.held ++ b) result) }
        ensures read_here { ReadsMore (S.left input.old) (S.left input.new) self.old self.new result }
        ensures steps { Advances self.old self.new result }
        ensures count { LineCount (S.faults input.old) (S.faults input.new) result }
        ensures near { StaysNear self.new result }
        ensures waits { IsReadFault result → no_feed self.new.held ≡ true }
    {
        match find(&mut self.window, input, self.limit) {
            Ok(None) => Ok(None),
            Ok(Some((text, whole))) => {
                match put_in(room, &self.window.as_slice()[..text]) {
                    Ok(text) => {
                        self.window.pass(whole);
                        self.limit -= whole as u64;
                        self.number += 1;
                        Ok(Some(Line {
                            number: self.number,
                            text,
                        }))
                    }
                    Err(NoMemory) => {
                        self.failed = true;
                        Err(LineFault::NoMemory)
                    }
                }
            }
            Err(Stop::Read) => {
                self.failed = true;
                Err(LineFault::Read)
            }
            Err(Stop::Long) => {
                self.failed = true;
                Err(LineFault::TooLong {
                    number: self.number + 1,
                })
            }
            Err(Stop::Much) => {
                self.failed = true;
                Err(LineFault::TooMuch {
                    number: self.number + 1,
                })
            }
        }
    }
}

// A text in the room of an earlier one.
fn put_in(room: Bytes, text: &[u8]) -> Result<Bytes, NoMemory>
    ensures { IfOk result (λ bytes. bytes ≡ text.now) }
{
    let mut bytes = room.into_vec();
    bytes.clear();
    match bytes.extend_from_slice(text) {
        Ok(()) => Ok(Bytes::from_vec(bytes)),
        Err(_) => Err(NoMemory),
    }
}
