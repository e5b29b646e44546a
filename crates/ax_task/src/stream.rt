//! The events behind the section, one after another.
ghost use Rattle.std.specs.Prelude.{◌≡◌, ◌+◌, ◌≤◌, ◌<◌, ◌^◌, ◌++◌, ◌∷◌, [], IfOk, OnOk, IsSome, false};
ghost use Rattle.ax_base.specs.Outside.{Told};
ghost use Rattle.ax_base.specs.Given.{ahead};
ghost use Rattle.ax_input.specs.Events.{event_of, is_skipped};
ghost use Rattle.ax_input.specs.Shown.{shown_event};
ghost use Rattle.ax_task.specs.Parse.{stream_of, in_order, is_late, last_after};
ghost use Rattle.ax_task.specs.Reads.{NextOf, ReaderCount, kind_number, line_fault, ReadsInOrder, last_behind};
ghost use Rattle.ax_task.specs.Passes.{events_at, feed_of, NextPasses};

use crate::read_fault::ReadFault;
use ax_base::{Bytes, Line, LineFault, Lines, Source};
use ax_input::{Event, EventFault, read_line};
use std::alloc::Global;
use std::mem;

// A barrier's ID isn't greater than each before it.
const LATE: u8 = 5;

// The kinds of the faults that the reader of lines finds.
const TOO_LONG: u8 = 6;

const TOO_MUCH: u8 = 7;

// The number of a kind of fault; want of memory has none.
fn kind_of(fault: EventFault) -> Option<u8>
    ensures { result ≡ kind_number fault }
{
    match fault {
        EventFault::Word => Some(1),
        EventFault::Key => Some(2),
        EventFault::Number => Some(3),
        EventFault::Count => Some(4),
        EventFault::NoMemory => None,
    }
}

// The fault of a line that gave no event, by its kind; want of memory has none.
fn fault_at(line: u64, kind: Option<u8>) -> ReadFault
    ensures { result ≡ line_fault line kind }
{
    match kind {
        Some(kind) => ReadFault::Fault { line, kind },
        None => ReadFault::NoMemory,
    }
}

/// The reader of events: how many values a row has, the greatest ID of the barriers before, and room for the text of a line.
#[derive(Drop)]
pub struct EventReader {
    pub fields: u8,
    pub last: i64,
    room: Bytes,
}

impl EventReader {
    /// No event was read yet.
    pub fn new(alloc: Global, fields: u8, last: &i64) -> EventReader
        ensures fields { result.fields ≡ fields }
        ensures last { result.last ≡ last.now }
    {
        EventReader {
            fields,
            last: *last,
            room: Bytes::new(alloc),
        }
    }

    // Whether the event is a barrier whose ID isn't greater than each before it.
    fn is_late(&self, event: &Event) -> bool
        ensures { result ≡ is_late self.now.last (shown_event event.now) }
    {
        match event {
            Event::Barrier { id } => *id <= self.last,
            Event::Row { .. } | Event::Mark { .. } => false,
        }
    }

    // The event is behind.
    fn pass(&mut self, event: &Event)
        ensures fields { self.new.fields ≡ self.old.fields }
        ensures last { self.new.last ≡ last_after (shown_event event.now) self.old.last }
    {
        if let Event::Barrier { id } = event {
            self.last = *id;
        }
    }

    // The event of a line, none of a blank line or a comment, or the kind of its fault, which want of memory has not.
    fn event_at(&mut self, alloc: Global, line: &Line) -> Result<Option<Event>, Option<u8>>
        ensures fields { self.new.fields ≡ self.old.fields }
        ensures reads { ReadsInOrder (is_skipped line.now.text) (in_order self.old.last (event_of self.old.fields line.now.text)) result }
        ensures last { IfOk result (λ event. self.new.last ≡ last_behind event self.old.last) }
    {
        let event = match read_line(alloc, line.text.as_slice(), self.fields) {
            Ok(Some(event)) => event,
            Ok(None) => return Ok(None),
            Err(fault) => return Err(kind_of(fault)),
        };
        if self.is_late(&event) {
            return Err(Some(LATE));
        }
        self.pass(&event);
        Ok(Some(event))
    }

    /// The next event, over blank lines and comments; `None` at the end of the input.
    ///
    /// `Fault` names the first line with a fault and its first kind: those of events, a barrier whose ID isn't greater
    /// than each before it (5), a line that is too long (6), and one in which the input passes its limit (7). `Read`
    /// comes where the source failed. After an `Err` no further event is to be asked for.
    pub fn next<S: Source>(
        &mut self,
        alloc: Global,
        lines: &mut Lines,
        input: &mut S,
    ) -> Result<Option<Event>, ReadFault>
        requires { lines.old.failed ≡ false }
        ensures told { Told (S.left input.old) (S.left input.new)
            (λ a b. NextOf (stream_of self.old.fields self.old.last (lines.old.number + 1) (ahead lines.old a))
            (stream_of self.new.fields self.new.last (lines.new.number + 1) (ahead lines.new b)) b result) }
        ensures passes { Told (S.left input.old) (S.left input.new)
            (λ a b. NextPasses (events_at self.old.fields self.old.last lines.old) (events_at self.new.fields self.new.last lines.new) (feed_of lines.old a) (feed_of lines.new b) result) }
        ensures less { IfOk result (λ event. IsSome event → lines.new.limit < lines.old.limit) }
        ensures sound { OnOk result (lines.new.failed ≡ false) }
        ensures count { ReaderCount (S.faults input.old) (S.faults input.new) result }
    {
        'line: loop {
            let room = mem::replace(&mut self.room, Bytes::new(alloc));
            match lines.next_in(input, room) {
                Ok(None) => return Ok(None),
                Ok(Some(line)) => {
                    match self.event_at(alloc, &line) {
                        Ok(Some(event)) => {
                            self.room = line.text;
                            return Ok(Some(event));
                        }
                        Ok(None) => self.room = line.text,
                        Err(kind) => return Err(fault_at(line.number, kind)),
                    }
                }
                Err(LineFault::Read) => return Err(ReadFault::Read),
                Err(LineFault::TooLong { number }) => {
                    return Err(ReadFault::Fault {
                        line: number,
                        kind: TOO_LONG,
                    });
                }
                Err(LineFault::TooMuch { number }) => {
                    return Err(ReadFault::Fault {
                        line: number,
                        kind: TOO_MUCH,
                    });
                }
                Err(LineFault::NoMemory) => return Err(ReadFault::NoMemory),
            }
        }
    }
}
