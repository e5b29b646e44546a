//! The event that was read and not yet taken, and what the reader of events found behind the last.
ghost use Rattle.std.specs.Prelude.{◌≡◌, ◌≤◌, None, false, IfSome, OnOk, OnErr};
ghost use Rattle.ax_task.specs.Due.{due, IsLooked, HeldBeforeEnd};
ghost use Rattle.ax_task.specs.Things.{IsNextOf, Looks};
ghost use Rattle.ax_task.specs.Tasks.{Finds, MayRead, ReadsOn, ReadsShort};

use crate::end::End;
use crate::read_fault::ReadFault;
use crate::stream::EventReader;
use ax_base::{Lines, NoMemory, Source};
use ax_input::Event;
use std::alloc::Global;

/// The reader of events, the event that it gave last, until that is taken, and what it found behind the last event.
#[derive(Drop)]
pub struct Reading {
    pub events: EventReader,
    /// The next event, where one was read and isn't taken.
    pub next: Option<Event>,
    /// What ended the events: the end of the input, or a fault of it.
    pub found: Option<End>,
}

impl Reading {
    /// Nothing was read yet. A row has so many values, and `last` is the greatest ID of the barriers before.
    pub fn new(alloc: Global, fields: u8, last: &i64) -> Reading
        ensures fields { result.events.fields ≡ fields }
        ensures last { result.events.last ≡ last.now }
        ensures next { result.next ≡ None }
        ensures found { result.found ≡ None }
    {
        Reading {
            events: EventReader::new(alloc, fields, last),
            next: None,
            found: None,
        }
    }

    /// Reads the next event, unless one is held or an end was found. Want of memory is the only fault.
    pub fn look<S: Source>(
        &mut self,
        alloc: Global,
        lines: &mut Lines,
        input: &mut S,
    ) -> Result<(), NoMemory>
        requires { MayRead lines.old self.old.found }
        ensures reads { OnOk result (ReadsOn self.old self.new lines.old lines.new (S.left input.old) (S.left input.new) (S.faults input.old) (S.faults input.new)) }
        ensures may { OnOk result (MayRead lines.new self.new.found) }
        ensures looked { OnOk result (IsLooked self.new) }
        ensures none { HeldBeforeEnd self.old → OnOk result (HeldBeforeEnd self.new) }
        ensures due { OnOk result (due self.new lines.new ≤ due self.old lines.old) }
        ensures short { OnErr result (ReadsShort self.old lines.old (S.left input.old) (S.left input.new) (S.faults input.old)) }
        ensures count { OnErr result (S.faults input.new ≡ S.faults input.old) }
        ensures finds { Finds self.old.found self.new.found (S.left input.old) (S.left input.new) (S.faults input.old) (S.faults input.new) }
        ensures looks { OnOk result (Looks (record { reading = self.old; lines = lines.old; left = S.left input.old; reads = S.faults input.old }) (record { reading = self.new; lines = lines.new; left = S.left input.new; reads = S.faults input.new })) }
    {
        if self.next.is_some() || self.found.is_some() {
            return Ok(());
        }
        self.read(alloc, lines, input)
    }

    // Reads the next event. Condition: none is held, and no end was found.
    fn read<S: Source>(
        &mut self,
        alloc: Global,
        lines: &mut Lines,
        input: &mut S,
    ) -> Result<(), NoMemory>
        requires may { lines.old.failed ≡ false }
        requires next { self.old.next ≡ None }
        requires found { self.old.found ≡ None }
        ensures reads { OnOk result (ReadsOn self.old self.new lines.old lines.new (S.left input.old) (S.left input.new) (S.faults input.old) (S.faults input.new)) }
        ensures may { OnOk result (MayRead lines.new self.new.found) }
        ensures looked { OnOk result (IsLooked self.new) }
        ensures none { OnOk result (HeldBeforeEnd self.new) }
        ensures due { OnOk result (due self.new lines.new ≤ due self.old lines.old) }
        ensures short { OnErr result (ReadsShort self.old lines.old (S.left input.old) (S.left input.new) (S.faults input.old)) }
        ensures count { OnErr result (S.faults input.new ≡ S.faults input.old) }
        ensures gives { OnOk result (IfSome self.new.next (IsNextOf (record { reading = self.old; lines = lines.old; left = S.left input.old; reads = S.faults input.old }) (record { reading = self.new; lines = lines.new; left = S.left input.new; reads = S.faults input.new }))) }
        ensures finds { Finds self.old.found self.new.found (S.left input.old) (S.left input.new) (S.faults input.old) (S.faults input.new) }
    {
        match self.events.next(alloc, lines, input) {
            Ok(Some(event)) => {
                self.next = Some(event);
                Ok(())
            }
            Ok(None) => {
                self.found = Some(End::Ok);
                Ok(())
            }
            Err(ReadFault::NoMemory) => Err(NoMemory),
            Err(ReadFault::Fault { line, kind }) => {
                self.found = Some(End::Input { line, kind });
                Ok(())
            }
            Err(ReadFault::Read) => {
                self.found = Some(End::Read);
                Ok(())
            }
        }
    }
}
