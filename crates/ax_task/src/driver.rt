//! What there is to do for the events that were taken, and then the next event.
ghost use Rattle.std.specs.Prelude.{◌≡◌, true, false, IfOk, IfSome, Option, List, ℕ};
ghost use Rattle.std.specs.Io.KnownBytes.{append_known};
ghost use Rattle.ax_base.specs.Outside.{Counts};
ghost use Rattle.ax_core.specs.May.{has_mail};
ghost use Rattle.ax_task.specs.Reads.{sink_end, is_stopped};
ghost use Rattle.ax_task.specs.Engines.{IsReady, IsQuiet};
ghost use Rattle.ax_task.specs.Exchanged.{NothingWaits};
ghost use Rattle.ax_task.specs.Due.{IsFree, IsLooked, HeldBeforeEnd, Goes};
ghost use Rattle.ax_task.specs.Tasks.{Outer, MayRead, IsFound, Finds, Steps, TakesHeld, EndsWell};
ghost use Rattle.ax_task.specs.Causes.{IsAtRest, EndsAtRest, EndWrites, DidCounts};
ghost use Rattle.ax_task.specs.Things.{NoWork, CantTake, DoesNext, NothingLeft, StaysDone, LooksAndDoes, LooksAndRests, Does, Rests, Breaks, ByEnd, ByDid, DidStop};
ghost use Rattle.ax_task.specs.Steady.{CanGoOn, Where};

use crate::end::End;
use crate::engine::Engine;
use crate::reading::Reading;
use ax_base::{Begun, Gather, Lines, NoMemory, Sink, SinkFault, Source};
use std::alloc::Global;

/// The end of a run at a fault of its sink.
pub fn end_of(fault: SinkFault) -> End
    ensures { result ≡ sink_end fault }
{
    match fault {
        SinkFault::Failed => End::Write,
        SinkFault::NoMemory => End::NoMemory,
    }
}

/// Whether nothing more is written behind this end.
pub fn is_stopped(end: &End) -> bool
    ensures { result ≡ is_stopped end.now }
{
    matches!(end, End::Write | End::NoMemory)
}

/// What was done.
#[derive(Clone, Copy, Debug, PartialEq, Eq)]
pub enum Did {
    /// One thing was done for the events that were taken.
    Went,
    /// An event was taken.
    Took,
    /// The run has ended.
    End { end: End },
}

/// The controller with its shards, and what was read and isn't taken.
#[derive(Drop)]
pub struct Driver {
    pub alloc: Global,
    pub engine: Engine,
    pub reading: Reading,
}

impl Driver {
    // Takes the event that is held, where there is one and it can be taken. Whether it was.
    fn take_held(&mut self) -> Result<bool, NoMemory>
        requires ready { IsReady self.old.engine }
        requires none { HeldBeforeEnd self.old.reading }
        ensures taken { IfOk result (λ taken. taken ≡ true → TakesHeld self.old.engine self.new.engine self.old.reading self.new.reading) }
        ensures same { IfOk result (λ taken. taken ≡ false → (self.new.engine ≡ self.old.engine) × (self.new.reading ≡ self.old.reading)) }
        ensures blocked { IfOk result (λ taken. taken ≡ false → IfSome self.new.reading.next (λ _. IsFree self.new.engine.core → ⊥)) }
        ensures took { IfOk result (λ taken. taken ≡ true → DoesNext self.old.engine self.new.engine self.old.reading self.new.reading) }
        ensures cant { IfOk result (λ taken. taken ≡ false → CantTake self.old.engine self.old.reading) }
        ensures found { self.new.reading.found ≡ self.old.reading.found }
        ensures none { HeldBeforeEnd self.new.reading }
    {
        let Some(event) = self.reading.next.take() else {
            return Ok(false);
        };
        if !self.engine.may_take(&event) {
            self.reading.next = Some(event);
            return Ok(false);
        }
        self.engine.take(event)?;
        Ok(true)
    }

    /// Does one thing that is left to do for the events that were taken; else looks for the next event and takes it where it can
    /// be taken; else requests are sent, or served. Where there is nothing of that, the run has ended.
    pub fn work_on<S: Source, K: Sink, B: Begun>(
        &mut self,
        lines: &mut Lines,
        input: &mut S,
        out: &mut Gather<'_, K, B>,
    ) -> Did
        requires ready { IsReady self.old.engine }
        requires may { MayRead lines.old self.old.reading.found }
        requires found { IsFound self.old.reading.found }
        requires none { HeldBeforeEnd self.old.reading }
        ensures steps { Steps self.old.engine self.new.engine self.old.reading self.new.reading lines.old lines.new
            (record { left = S.left input.old; reads = S.faults input.old; holds = append_known (K.holds out.old.inner.now) out.old.room.now; writes = K.counts out.old.inner.now })
            (record { left = S.left input.new; reads = S.faults input.new; holds = append_known (K.holds out.new.inner.now) out.new.room.now; writes = K.counts out.new.inner.now }) result }
        ensures goes { Goes self.old.engine self.new.engine self.old.reading self.new.reading lines.old lines.new result }
        ensures finds { Finds self.old.reading.found self.new.reading.found (S.left input.old) (S.left input.new) (S.faults input.old) (S.faults input.new) }
        ensures rest { EndsAtRest self.new.engine.core self.new.reading.found result }
        ensures same { out.new.inner.ghost_name ≡ out.old.inner.ghost_name }
        ensures does { ByDid (Does (record { engine = self.old.engine; reading = self.old.reading; lines = lines.old; gathered = out.old.room.now }) (record { engine = self.new.engine; reading = self.new.reading; lines = lines.new; gathered = out.new.room.now }) (record { left = S.left input.old; reads = S.faults input.old; holds = K.holds out.old.inner.now; writes = K.counts out.old.inner.now }) (record { left = S.left input.new; reads = S.faults input.new; holds = K.holds out.new.inner.now; writes = K.counts out.new.inner.now }))
            (Rests (record { engine = self.old.engine; reading = self.old.reading; lines = lines.old; gathered = out.old.room.now }) (record { engine = self.new.engine; reading = self.new.reading; lines = lines.new; gathered = out.new.room.now }) (record { left = S.left input.old; reads = S.faults input.old; holds = K.holds out.old.inner.now; writes = K.counts out.old.inner.now }) (record { left = S.left input.new; reads = S.faults input.new; holds = K.holds out.new.inner.now; writes = K.counts out.new.inner.now })) result }
        ensures breaks { DidStop (Breaks (record { engine = self.old.engine; reading = self.old.reading; lines = lines.old; gathered = out.old.room.now }) (record { engine = self.new.engine; reading = self.new.reading; lines = lines.new; gathered = out.new.room.now }) (record { left = S.left input.old; reads = S.faults input.old; holds = K.holds out.old.inner.now; writes = K.counts out.old.inner.now }) (record { left = S.left input.new; reads = S.faults input.new; holds = K.holds out.new.inner.now; writes = K.counts out.new.inner.now })) result }
        ensures steady { Where result (CanGoOn self.new.engine self.new.reading lines.new) }
        ensures counts { DidCounts (K.counts out.old.inner.now) (K.counts out.new.inner.now) result }
    {
        match self.engine.work(out) {
            Ok(true) => Did::Went,
            Ok(false) => self.read_on(lines, input),
            Err(fault) => Did::End { end: end_of(fault) },
        }
    }

    // Looks for the next event and takes it where it can be taken; else requests are sent and served, and where none are, the run
    // has ended. Condition: nothing is left to do for the events that were taken but to send and serve requests.
    fn read_on<S: Source>(&mut self, lines: &mut Lines, input: &mut S) -> Did
        requires ready { IsReady self.old.engine }
        requires may { MayRead lines.old self.old.reading.found }
        requires found { IsFound self.old.reading.found }
        requires none { HeldBeforeEnd self.old.reading }
        requires quiet { IsQuiet self.old.engine.core }
        requires mails { has_mail self.old.engine.core ≡ false }
        requires work { NoWork self.old.engine }
        ensures steps { (holds : Option (List ℕ)) (writes : Counts) → Steps self.old.engine self.new.engine self.old.reading self.new.reading lines.old lines.new
            (record { left = S.left input.old; reads = S.faults input.old; holds = holds; writes = writes })
            (record { left = S.left input.new; reads = S.faults input.new; holds = holds; writes = writes }) result }
        ensures goes { Goes self.old.engine self.new.engine self.old.reading self.new.reading lines.old lines.new result }
        ensures finds { Finds self.old.reading.found self.new.reading.found (S.left input.old) (S.left input.new) (S.faults input.old) (S.faults input.new) }
        ensures rest { EndsAtRest self.new.engine.core self.new.reading.found result }
        ensures counts { (c : Counts) → DidCounts c c result }
        ensures does { ByDid (LooksAndDoes self.old.engine self.new.engine (record { reading = self.old.reading; lines = lines.old; left = S.left input.old; reads = S.faults input.old }) (record { reading = self.new.reading; lines = lines.new; left = S.left input.new; reads = S.faults input.new }))
            (LooksAndRests self.old.engine self.new.engine (record { reading = self.old.reading; lines = lines.old; left = S.left input.old; reads = S.faults input.old }) (record { reading = self.new.reading; lines = lines.new; left = S.left input.new; reads = S.faults input.new })) result }
        ensures steady { Where result (CanGoOn self.new.engine self.new.reading lines.new) }
    {
        match self.reading.look(self.alloc, lines, input) {
            Ok(()) => self.take_or_exchange(lines),
            Err(NoMemory) => Did::End { end: End::NoMemory },
        }
    }

    // The same, where the next event was looked for.
    fn take_or_exchange(&mut self, lines: &Lines) -> Did
        requires ready { IsReady self.old.engine }
        requires quiet { IsQuiet self.old.engine.core }
        requires mails { has_mail self.old.engine.core ≡ false }
        requires work { NoWork self.old.engine }
        requires looked { IsLooked self.old.reading }
        requires found { IsFound self.old.reading.found }
        requires none { HeldBeforeEnd self.old.reading }
        ensures steps { (now : Outer) → Steps self.old.engine self.new.engine self.old.reading self.new.reading lines.now lines.now now now result }
        ensures goes { Goes self.old.engine self.new.engine self.old.reading self.new.reading lines.now lines.now result }
        ensures found { self.new.reading.found ≡ self.old.reading.found }
        ensures rest { EndsAtRest self.new.engine.core self.new.reading.found result }
        ensures counts { (c : Counts) → DidCounts c c result }
        ensures does { ByDid (DoesNext self.old.engine self.new.engine self.old.reading self.new.reading) (StaysDone self.old.engine self.new.engine self.old.reading self.new.reading) result }
        ensures ready { Where result (IsReady self.new.engine) }
        ensures none { HeldBeforeEnd self.new.reading }
    {
        match self.take_held() {
            Ok(true) => Did::Took,
            Ok(false) => self.exchange(lines),
            Err(NoMemory) => Did::End { end: End::NoMemory },
        }
    }

    // The same, where the next event can't be taken or there is none.
    fn exchange(&mut self, lines: &Lines) -> Did
        requires ready { IsReady self.old.engine }
        requires quiet { IsQuiet self.old.engine.core }
        requires mails { has_mail self.old.engine.core ≡ false }
        requires work { NoWork self.old.engine }
        requires looked { IsLooked self.old.reading }
        requires found { IsFound self.old.reading.found }
        requires blocked { IfSome self.old.reading.next (λ _. IsFree self.old.engine.core → ⊥) }
        requires cant { CantTake self.old.engine self.old.reading }
        ensures steps { (now : Outer) → Steps self.old.engine self.new.engine self.old.reading self.new.reading lines.now lines.now now now result }
        ensures goes { Goes self.old.engine self.new.engine self.old.reading self.new.reading lines.now lines.now result }
        ensures found { self.new.reading.found ≡ self.old.reading.found }
        ensures rest { EndsAtRest self.new.engine.core self.new.reading.found result }
        ensures counts { (c : Counts) → DidCounts c c result }
        ensures same { self.new.reading ≡ self.old.reading }
        ensures does { ByDid (DoesNext self.old.engine self.new.engine self.old.reading self.new.reading) (StaysDone self.old.engine self.new.engine self.old.reading self.new.reading) result }
        ensures ready { Where result (IsReady self.new.engine) }
    {
        match self.engine.exchange() {
            Ok(true) => Did::Went,
            Ok(false) => Did::End { end: self.ended() },
            Err(NoMemory) => Did::End { end: End::NoMemory },
        }
    }

    // What ended the events, where nothing is left to do: then no event is held, and an end was found.
    fn ended(&self) -> End
        requires ready { IsReady self.now.engine }
        requires quiet { IsQuiet self.now.engine.core }
        requires mails { has_mail self.now.engine.core ≡ false }
        requires work { NoWork self.now.engine }
        requires waits { NothingWaits self.now.engine }
        requires looked { IsLooked self.now.reading }
        requires found { IsFound self.now.reading.found }
        requires blocked { IfSome self.now.reading.next (λ _. IsFree self.now.engine.core → ⊥) }
        ensures well { EndsWell self.now.engine self.now.reading result }
        ensures rest { IsAtRest self.now.engine.core self.now.reading.found result }
        ensures counts { (c : Counts) → EndWrites c c result }
        ensures left { ByEnd (NothingLeft self.now.engine self.now.reading) result }
    {
        match self.reading.found {
            Some(end) => end,
            None => unreachable!(),
        }
    }
}
