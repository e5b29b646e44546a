//! A run, step by step: a task behind the program section, and a whole run.
ghost use Rattle.std.specs.Prelude.{◌≡◌, ◌≢◌, ◌<◌, ◌+◌, true, false, IfOk, IfNone, Option, None, List, ℕ};
ghost use Rattle.std.specs.Io.KnownBytes.{append_known};
ghost use Rattle.ax_base.specs.Gathered.{Begins};
ghost use Rattle.ax_base.specs.Outside.{Told, Counts};
ghost use Rattle.ax_base.specs.Given.{ahead};
ghost use Rattle.ax_base.specs.Reader.{Reader};
ghost use Rattle.ax_machine.specs.Events as shown;
ghost use Rattle.ax_lang.specs.declared.program.Program.{Program as CodeProgram};
ghost use Rattle.ax_lang.specs.Shown.{shown_program};
ghost use Rattle.ax_core.specs.declared.settings.Settings.{Settings as AnySettings};
ghost use Rattle.ax_core.specs.declared.controller.Controller.{Controller as AnyController};
ghost use Rattle.ax_core.specs.Sound.{InRange};
ghost use Rattle.ax_core.specs.Views.{program_of};
ghost use Rattle.ax_task.specs.Parse.{parse, stream_of, first_last};
ghost use Rattle.ax_task.specs.Reads.{end_in_section, is_stopped};
ghost use Rattle.ax_task.specs.Clause.{WritesLawful, StreamEnds, RunEnds, Stops, EndCounts};
ghost use Rattle.ax_task.specs.Passes.{events_at, feed_of, Took, Wrote};
ghost use Rattle.ax_task.specs.Engines.{IsReady, batch_of, order_of};
ghost use Rattle.ax_task.specs.Due.{Goes, due, HeldBeforeEnd};
ghost use Rattle.ax_task.specs.Steady.{CanGoOn, Where};
ghost use Rattle.ax_task.specs.Things.{Does, Rests, Ends, Breaks, ByEnd, ByStop, ByDid, DidStop, StepDoes};
ghost use Rattle.ax_task.specs.Tasks.{Outer, From, MayRead, IsFound, Finds, HasEnded};
ghost use Rattle.ax_task.specs.Tasks as tasks;
ghost use Rattle.ax_task.specs.Causes.{IsAtRest, EndsAtRest, EndWrites, DidCounts, StepIsCaused};
ghost use Rattle.ax_task.specs.Unused.{IsUnused};
ghost use Rattle.ax_task.specs.Running.{State as AnyState, state_of, has_ended, found_of, controller_of, took_event, start, IsFresh, IsSteady, StaysSteady, IsRunning, DidLeaves, GoesOn, ComesNearer, is_end, step_of, RunEndsAs};
ghost use Rattle.ax_task.specs.declared.end.End.{End as AnyEnd};
ghost use Rattle.ax_task.specs.declared.engine.Engine.{Engine as AnyEngine};
ghost use Rattle.ax_task.specs.declared.reading.Reading.{Reading as AnyReading};

use crate::config::Config;
use crate::driver::{Did, Driver, end_of, is_stopped};
use crate::end::End;
use crate::engine::Engine;
use crate::read_fault::ReadFault;
use crate::reading::Reading;
use crate::section::gather;
use crate::step::Step;
use ax_base::{Begun, Gather, Lines, NoMemory, Nums, Room, Sink, Source};
use ax_core::Controller;
use ax_lang::{ProgFault, Program, read_program};
use std::alloc::Global;
use std::marker::Brand;
use std::mem;

// The most bytes of an input.
const MOST_BYTES: u64 = 1 << 40;

// The end of a run at a fault of the section.
fn end_in_section(fault: ReadFault) -> End
    ensures { result ≡ end_in_section fault }
{
    match fault {
        ReadFault::NoMemory => End::NoMemory,
        ReadFault::Fault { line, kind } => End::Program { line, kind },
        ReadFault::Read => End::Read,
    }
}

/// A run behind the program section, which goes by steps. It has read some events, taken those that came before the one that it
/// holds, if any, and written or gathered lines of them.
#[derive(Drop)]
pub struct Task {
    driver: Driver,
    lines: Lines,
    // What is gathered and isn't written.
    room: Room,
    // A sink that gathers begins with an empty room: this one, in place of which it then gets the other.
    spare: Room,
    // Whether the last step took an event.
    took: bool,
    ended: bool,
}

impl Task {
    /// A task that has taken nothing yet. `lines` gives the lines behind the program section, and `last_id` is the greatest ID of the
    /// barriers before them, 0 where there was none. `order` says which of the batches that are out is served next, as for
    /// `run_task_alone`. It takes the rooms for what is gathered, 65,536 bytes each. The only fault is `NoMemory`.
    ///
    /// Conditions: the controller was made with the settings of `c`, and nothing was admitted or closed in it; `lines` has not
    /// failed; contexts and batches have some room.
    pub fn new(
        alloc: Global,
        c: &Config,
        core: Controller,
        lines: Lines,
        last_id: i64,
        order: Nums,
    ) -> Result<Task, NoMemory>
        requires unused { IsUnused c.now.settings core }
        requires sound { lines.failed ≡ false }
        requires contexts { 0 < c.now.settings.in_flight }
        requires batch { 0 < c.now.batch }
        ensures begins { IfOk result (λ t. (p : CodeProgram) (now : Outer) → program_of core ≡ p → IsRunning c.now.settings p (start p last_id lines now) (state_of t) now) }
        ensures found { IfOk result (λ t. found_of t ≡ None) }
        ensures fresh { IfOk result (λ t. IsFresh (state_of t)) }
        ensures ended { IfOk result (λ t. has_ended t ≡ false) }
        ensures core { IfOk result (λ t. controller_of t ≡ core) }
        ensures steady { IfOk result IsSteady }
        ensures batch { IfOk result (λ t. batch_of (state_of t).engine ≡ c.now.batch) }
        ensures order { IfOk result (λ t. order_of (state_of t).engine ≡ order) }
    {
        let reading = Reading::new(alloc, core.program().fields(), &last_id);
        let engine = Engine::new(alloc, c, core, order)?;
        let room = Room::new(alloc)?;
        let spare = Room::new(alloc)?;
        Ok(Task {
            driver: Driver {
                alloc,
                engine,
                reading,
            },
            lines,
            room,
            spare,
            took: false,
            ended: false,
        })
    }

    /// Does one thing: a key fires, a mail is run, a marker is sent (with its block at a barrier), a batch is sent to a shard that is
    /// home, the next event is read and taken, or a batch that is out is served and its replies are delivered. Where there is
    /// nothing of that, the run has ended.
    ///
    /// Condition: the run has not ended. What is said of the bytes that are read and written is said of an `input` and an `out` that
    /// are where the last step left them; `new` makes a task for any.
    ///
    /// Lines are gathered, and written when 65,536 bytes are there, after each marker, and at an end by `Ok`, `Input` or `Read`.
    /// Looking at the input is no step of its own: what it finds, `found` tells from then on, and nothing more is read.
    ///
    /// - `Went`: one thing was done, the first that can be done of these: the key that has been idle longest fires; the first mail is
    ///   run; the oldest closed epoch's marker is sent; the next event is taken; a full batch is sent; a batch that is out is served;
    ///   one that isn't full is sent. The run is nearer to its end: fewer events may come, or as many and there is less to do.
    /// - `Wait` never comes, since the task serves batches itself.
    /// - `End` with `Ok`, `Input` or `Read`: it is what `found` tells, nothing is in flight, and no marker is to be sent. All lines
    ///   of the events that were read are written.
    /// - `End` with `Write`: the count of `out` rose in this step. With `NoMemory`: at any time. `out` has a part of what may be written.
    ///   What broke off is named: a mail or a marker, of whose text a first part was written or gathered behind what was gathered; or
    ///   what was gathered, where nothing else was left to do. Where memory was short for anything else, nothing was written.
    /// - `End` with `Program` never comes.
    pub fn step<S: Source, K: Sink>(&mut self, input: &mut S, out: &mut K) -> Step
        requires going { has_ended self.old ≡ false }
        requires steady { IsSteady self.old }
        ensures goes { GoesOn (state_of self.old) (state_of self.new) (record { left = S.left input.old; reads = S.faults input.old; holds = K.holds out.old; writes = K.counts out.old }) (record { left = S.left input.new; reads = S.faults input.new; holds = K.holds out.new; writes = K.counts out.new }) result }
        ensures nearer { ComesNearer (took_event self.new) (state_of self.old) (state_of self.new) result }
        ensures never { result ≢ Step.Wait }
        ensures finds { Finds (found_of self.old) (found_of self.new) (S.left input.old) (S.left input.new) (S.faults input.old) (S.faults input.new) }
        ensures cause { StepIsCaused (controller_of self.new) (found_of self.new) (K.counts out.old) (K.counts out.new) result }
        ensures does { StepDoes (state_of self.old) (state_of self.new) (record { left = S.left input.old; reads = S.faults input.old; holds = K.holds out.old; writes = K.counts out.old }) (record { left = S.left input.new; reads = S.faults input.new; holds = K.holds out.new; writes = K.counts out.new }) result }
        ensures steady { StaysSteady self.new result }
        ensures ended { has_ended self.new ≡ is_end result }
    {
        match advance::<S, K, Brand>(
            &mut self.driver,
            &mut self.lines,
            &mut self.room,
            &mut self.spare,
            input,
            out,
        ) {
            Did::Went => {
                self.took = false;
                Step::Went
            }
            Did::Took => {
                self.took = true;
                Step::Went
            }
            Did::End { end } => {
                self.ended = true;
                Step::End { end }
            }
        }
    }

    /// Whether a step ended the run.
    pub fn has_ended(&self) -> bool
        ensures { result ≡ has_ended self.now }
    {
        self.ended
    }

    /// What was found behind the last event: the end of the input (`Ok`), an input fault (`Input`) or a read fault (`Read`); `None`
    /// as long as no step found one of these.
    pub fn found(&self) -> Option<End>
        ensures { result ≡ found_of self.now }
    {
        self.driver.reading.found
    }

    /// The controller, as the last step left it.
    pub fn controller(&self) -> &Controller
        ensures { result.now ≡ controller_of self.now }
    {
        &self.driver.engine.core
    }

    // Goes by steps until an event was taken, or the run has ended so.
    fn until_taken<S: Source, K: Sink>(&mut self, input: &mut S, out: &mut K) -> Option<End>
        requires going { has_ended self.old ≡ false }
        requires steady { IsSteady self.old }
        ensures goes { GoesOn (state_of self.old) (state_of self.new) (record { left = S.left input.old; reads = S.faults input.old; holds = K.holds out.old; writes = K.counts out.old }) (record { left = S.left input.new; reads = S.faults input.new; holds = K.holds out.new; writes = K.counts out.new }) (step_of result) }
        ensures nearer { IfNone result (due (state_of self.new).reading (state_of self.new).lines < due (state_of self.old).reading (state_of self.old).lines) }
        ensures going { IfNone result (has_ended self.new ≡ false) }
        ensures steady { IfNone result (IsSteady self.new) }
    {
        'round: loop {
            match self.step(input, out) {
                Step::Went => {
                    if self.took {
                        return None;
                    }
                }
                Step::Wait => unreachable!(),
                Step::End { end } => return Some(end),
            }
        }
    }
}

// Writes what is gathered, at an end by Ok, Input or Read. How the run ends then.
fn finish_end<K: Sink, B: Begun>(end: End, out: &mut Gather<'_, K, B>) -> End
    ensures ended { (s : AnySettings) (p : CodeProgram) (from : From) (left : Option (List ℕ)) (reads : ℕ) → Begins from.outer.holds B.held
        → HasEnded s p from (record { left = left; reads = reads; holds = append_known (K.holds out.old.inner.now) out.old.room.now; writes = K.counts out.old.inner.now }) end
        → HasEnded s p from (record { left = left; reads = reads; holds = K.holds out.new.inner.now; writes = K.counts out.new.inner.now }) result }
    ensures rest { (a : AnyController) (found : Option AnyEnd) → IsAtRest a found end → IsAtRest a found result }
    ensures counts { (before : Counts) → EndWrites before (K.counts out.old.inner.now) end → EndWrites before (K.counts out.new.inner.now) result }
    ensures ends { (t : AnyState) (old : Outer) (e : AnyEngine) (r : AnyReading) (lines : Reader) (left : Option (List ℕ)) (reads : ℕ)
        → ByEnd (Rests t (record { engine = e; reading = r; lines = lines; gathered = out.old.room.now }) old (record { left = left; reads = reads; holds = K.holds out.old.inner.now; writes = K.counts out.old.inner.now })) end
        → ByEnd (Ends t (record { engine = e; reading = r; lines = lines; gathered = out.new.room.now }) old (record { left = left; reads = reads; holds = K.holds out.new.inner.now; writes = K.counts out.new.inner.now })) result }
    ensures breaks { (t : AnyState) (old : Outer) (e : AnyEngine) (r : AnyReading) (lines : Reader) (left : Option (List ℕ)) (reads : ℕ)
        → ByEnd (Rests t (record { engine = e; reading = r; lines = lines; gathered = out.old.room.now }) old (record { left = left; reads = reads; holds = K.holds out.old.inner.now; writes = K.counts out.old.inner.now })) end → ByStop (Breaks t (record { engine = e; reading = r; lines = lines; gathered = out.old.room.now }) old (record { left = left; reads = reads; holds = K.holds out.old.inner.now; writes = K.counts out.old.inner.now })) end
        → ByStop (Breaks t (record { engine = e; reading = r; lines = lines; gathered = out.new.room.now }) old (record { left = left; reads = reads; holds = K.holds out.new.inner.now; writes = K.counts out.new.inner.now })) result }
    ensures still { is_stopped end ≡ true → out.new ≡ out.old }
    ensures same { out.new.inner.ghost_name ≡ out.old.inner.ghost_name }
{
    if is_stopped(&end) {
        return end;
    }
    match out.flush() {
        Ok(()) => end,
        Err(fault) => end_of(fault),
    }
}

// The same behind each thing that was done.
fn finish<K: Sink, B: Begun>(did: Did, out: &mut Gather<'_, K, B>) -> Did
    ensures leaves { (s : AnySettings) (p : CodeProgram) (from : From) (e : AnyEngine) (r : AnyReading) (lines : Reader) (left : Option (List ℕ)) (reads : ℕ) → Begins from.outer.holds B.held
        → tasks.StepLeaves s p from e r lines (record { left = left; reads = reads; holds = append_known (K.holds out.old.inner.now) out.old.room.now; writes = K.counts out.old.inner.now }) did
        → DidLeaves s p from (record { engine = e; reading = r; lines = lines; gathered = out.new.room.now }) (record { left = left; reads = reads; holds = K.holds out.new.inner.now; writes = K.counts out.new.inner.now }) result }
    ensures goes { (e e2 : AnyEngine) (r r2 : AnyReading) (lines lines2 : Reader) → Goes e e2 r r2 lines lines2 did → Goes e e2 r r2 lines lines2 result }
    ensures rest { (a : AnyController) (found : Option AnyEnd) → EndsAtRest a found did → EndsAtRest a found result }
    ensures counts { (before : Counts) → DidCounts before (K.counts out.old.inner.now) did → DidCounts before (K.counts out.new.inner.now) result }
    ensures steady { (e : AnyEngine) (r : AnyReading) (lines : Reader) → Where did (CanGoOn e r lines) → Where result (CanGoOn e r lines) }
    ensures does { (t : AnyState) (old : Outer) (e : AnyEngine) (r : AnyReading) (lines : Reader) (left : Option (List ℕ)) (reads : ℕ)
        → ByDid (Does t (record { engine = e; reading = r; lines = lines; gathered = out.old.room.now }) old (record { left = left; reads = reads; holds = K.holds out.old.inner.now; writes = K.counts out.old.inner.now })) (Rests t (record { engine = e; reading = r; lines = lines; gathered = out.old.room.now }) old (record { left = left; reads = reads; holds = K.holds out.old.inner.now; writes = K.counts out.old.inner.now })) did
        → ByDid (Does t (record { engine = e; reading = r; lines = lines; gathered = out.new.room.now }) old (record { left = left; reads = reads; holds = K.holds out.new.inner.now; writes = K.counts out.new.inner.now })) (Ends t (record { engine = e; reading = r; lines = lines; gathered = out.new.room.now }) old (record { left = left; reads = reads; holds = K.holds out.new.inner.now; writes = K.counts out.new.inner.now })) result }
    ensures breaks { (t : AnyState) (old : Outer) (e : AnyEngine) (r : AnyReading) (lines : Reader) (left : Option (List ℕ)) (reads : ℕ)
        → ByDid (Does t (record { engine = e; reading = r; lines = lines; gathered = out.old.room.now }) old (record { left = left; reads = reads; holds = K.holds out.old.inner.now; writes = K.counts out.old.inner.now })) (Rests t (record { engine = e; reading = r; lines = lines; gathered = out.old.room.now }) old (record { left = left; reads = reads; holds = K.holds out.old.inner.now; writes = K.counts out.old.inner.now })) did → DidStop (Breaks t (record { engine = e; reading = r; lines = lines; gathered = out.old.room.now }) old (record { left = left; reads = reads; holds = K.holds out.old.inner.now; writes = K.counts out.old.inner.now })) did
        → DidStop (Breaks t (record { engine = e; reading = r; lines = lines; gathered = out.new.room.now }) old (record { left = left; reads = reads; holds = K.holds out.new.inner.now; writes = K.counts out.new.inner.now })) result }
    ensures same { out.new.inner.ghost_name ≡ out.old.inner.ghost_name }
{
    match did {
        Did::Went => Did::Went,
        Did::Took => Did::Took,
        Did::End { end } => Did::End {
            end: finish_end(end, out),
        },
    }
}

// One step. What it writes is gathered behind what `room` holds. What `spare` holds is forgotten.
fn advance<S: Source, K: Sink, B: Begun>(
    driver: &mut Driver,
    lines: &mut Lines,
    room: &mut Room,
    spare: &mut Room,
    input: &mut S,
    out: &mut K,
) -> Did
    requires held { K.holds out.now ≡ B.held }
    requires base { K.base out.now ≡ B.base }
    requires ready { IsReady driver.old.engine }
    requires may { MayRead lines.old driver.old.reading.found }
    requires found { IsFound driver.old.reading.found }
    requires none { HeldBeforeEnd driver.old.reading }
    ensures leaves { (s : AnySettings) (p : CodeProgram) (from : From)
        → IsRunning s p from (record { engine = driver.old.engine; reading = driver.old.reading; lines = lines.old; gathered = room.old }) (record { left = S.left input.old; reads = S.faults input.old; holds = K.holds out.old; writes = K.counts out.old })
        → DidLeaves s p from (record { engine = driver.new.engine; reading = driver.new.reading; lines = lines.new; gathered = room.new }) (record { left = S.left input.new; reads = S.faults input.new; holds = K.holds out.new; writes = K.counts out.new }) result }
    ensures goes { Goes driver.old.engine driver.new.engine driver.old.reading driver.new.reading lines.old lines.new result }
    ensures finds { Finds driver.old.reading.found driver.new.reading.found (S.left input.old) (S.left input.new) (S.faults input.old) (S.faults input.new) }
    ensures rest { EndsAtRest driver.new.engine.core driver.new.reading.found result }
    ensures counts { DidCounts (K.counts out.old) (K.counts out.new) result }
    ensures steady { Where result (CanGoOn driver.new.engine driver.new.reading lines.new) }
    ensures does { ByDid (Does (record { engine = driver.old.engine; reading = driver.old.reading; lines = lines.old; gathered = room.old }) (record { engine = driver.new.engine; reading = driver.new.reading; lines = lines.new; gathered = room.new }) (record { left = S.left input.old; reads = S.faults input.old; holds = K.holds out.old; writes = K.counts out.old }) (record { left = S.left input.new; reads = S.faults input.new; holds = K.holds out.new; writes = K.counts out.new }))
        (Ends (record { engine = driver.old.engine; reading = driver.old.reading; lines = lines.old; gathered = room.old }) (record { engine = driver.new.engine; reading = driver.new.reading; lines = lines.new; gathered = room.new }) (record { left = S.left input.old; reads = S.faults input.old; holds = K.holds out.old; writes = K.counts out.old }) (record { left = S.left input.new; reads = S.faults input.new; holds = K.holds out.new; writes = K.counts out.new })) result }
    ensures breaks { DidStop (Breaks (record { engine = driver.old.engine; reading = driver.old.reading; lines = lines.old; gathered = room.old }) (record { engine = driver.new.engine; reading = driver.new.reading; lines = lines.new; gathered = room.new }) (record { left = S.left input.old; reads = S.faults input.old; holds = K.holds out.old; writes = K.counts out.old }) (record { left = S.left input.new; reads = S.faults input.new; holds = K.holds out.new; writes = K.counts out.new })) result }
{
    let mut sink = Gather::<K, B>::new(spare, out);
    mem::swap(sink.room, room);
    let worked = driver.work_on(lines, input, &mut sink);
    let did = finish(worked, &mut sink);
    mem::swap(sink.room, room);
    did
}

// Goes by steps until the run has ended.
fn run_steps<S: Source, K: Sink>(task: &mut Task, input: &mut S, out: &mut K) -> End
    requires going { has_ended task.old ≡ false }
    requires steady { IsSteady task.old }
    ensures ended { RunEndsAs (state_of task.old) (record { left = S.left input.old; reads = S.faults input.old; holds = K.holds out.old; writes = K.counts out.old }) (record { left = S.left input.new; reads = S.faults input.new; holds = K.holds out.new; writes = K.counts out.new }) result }
{
    'step: loop {
        match task.until_taken(input, out) {
            None => {}
            Some(end) => return end,
        }
    }
}

// Runs the events behind the section.
fn run_events<S: Source, K: Sink>(
    alloc: Global,
    config: &Config,
    order: Nums,
    program: Program,
    lines: Lines,
    input: &mut S,
    out: &mut K,
) -> End
    requires sound { lines.failed ≡ false }
    requires ranges { InRange config.now.settings }
    requires contexts { 0 < config.now.settings.in_flight }
    requires batch { 0 < config.now.batch }
    ensures told { Told (S.left input.old) (S.left input.new)
        (λ a b. StreamEnds (λ events. WritesLawful config.now.settings.groups config.now.settings.serial (shown_program program) events (record { old = K.holds out.old; new = K.holds out.new }))
        (stream_of (shown_program program).fields first_last (lines.number + 1) (ahead lines a)) b result) }
    ensures stopped { (done : List shown.Event) × Told (S.left input.old) (S.left input.new)
        (λ a b. Took done (events_at (shown_program program).fields first_last lines) (feed_of lines a) b result)
        × Wrote config.now.settings.groups config.now.settings.serial (shown_program program) done (record { old = K.holds out.old; new = K.holds out.new }) result }
    ensures counts { EndCounts (record { reads = S.faults input.old; writes = K.counts out.old }) (record { reads = S.faults input.new; writes = K.counts out.new }) result }
{
    let Ok(core) = Controller::new(alloc, program, config.settings) else {
        return End::NoMemory;
    };
    let Ok(mut task) = Task::new(alloc, config, core, lines, 0, order) else {
        return End::NoMemory;
    };
    run_steps(&mut task, input, out)
}

/// Runs an input: reads the program section, then the events, which run asynchronously in one thread. `order` says which of the
/// batches that are out is served next, as `Shards::poll` tells.
///
/// Everything that is read comes from `input`, and everything that is written goes to `out`. Conditions: the settings are in
/// their ranges, and contexts and batches have some room. What is to be written is gathered in a room of 65,536 bytes, and
/// written when that is full, behind each watermark and barrier, and at the end.
///
/// `End::Program` names the first fault of the section, and then nothing was written. It comes where no read failed before the
/// section's end, and is then the only end but want of memory.
/// `End::Input` names the first line of the events with a fault and its first kind; the lines of all events before it were written.
/// `End::Read` and `End::Write` come only where the fault count of `input` or `out` rose in this call. At Read the lines of all events
/// were written that the whole lines taken have, and none of these has a fault; at Write and NoMemory some first bytes of them.
/// Nothing is written behind a write fault.
pub fn run_task_alone<S: Source, K: Sink>(
    alloc: Global,
    config: &Config,
    order: Nums,
    input: &mut S,
    out: &mut K,
) -> End
    requires ranges { InRange config.now.settings }
    requires contexts { 0 < config.now.settings.in_flight }
    requires batch { 0 < config.now.batch }
    ensures told { Told (S.left input.old) (S.left input.new)
        (λ a b. RunEnds config.now.settings.groups config.now.settings.serial (record { old = K.holds out.old; new = K.holds out.new }) (parse a) b result) }
    ensures stopped { Told (S.left input.old) (S.left input.new)
        (λ a b. Stops config.now.settings.groups config.now.settings.serial (record { old = K.holds out.old; new = K.holds out.new }) a b result) }
    ensures counts { EndCounts (record { reads = S.faults input.old; writes = K.counts out.old }) (record { reads = S.faults input.new; writes = K.counts out.new }) result }
{
    let Ok(mut lines) = Lines::with_limit(alloc, MOST_BYTES) else {
        return End::NoMemory;
    };
    let section = match gather(alloc, &mut lines, input) {
        Ok(section) => section,
        Err(fault) => return end_in_section(fault),
    };
    match read_program(alloc, section.lines.as_slice(), section.end) {
        Ok(program) => run_events(alloc, config, order, program, lines, input, out),
        Err(ProgFault::At { line, kind }) => End::Program { line, kind },
        Err(ProgFault::NoMemory) => End::NoMemory,
    }
}
