//! Laws of what inputs say and of what is written for them. The functions do nothing; their contracts are the laws.
ghost use Rattle.std.specs.Prelude.{◌≡◌, ℕ, List, [], Bool};
ghost use Rattle.std.specs.Io.KnownBytes.{Appends};
ghost use Rattle.ax_base.specs.Outside.{Counts};
ghost use Rattle.ax_text.specs.Programs.{Program};
ghost use Rattle.ax_machine.specs.Sync.{sync};
ghost use Rattle.ax_input.specs.PlainEntries.{IsRun};
ghost use Rattle.ax_task.specs.Parse.{Parsed, BadProgram, Stream, Clean, Fault, Runs, parse};
ghost use Rattle.ax_task.specs.Clause.{Holds, RunEnds, Stops};
ghost use Rattle.ax_core.specs.Numbers.{NothingNumbered};
ghost use Rattle.ax_task.specs.Tasks.{Outer};
ghost use Rattle.ax_task.specs.Causes.{StepIsCaused};
ghost use Rattle.ax_task.specs.Running.{State};
ghost use Rattle.ax_task.specs.Engines.{IsReady};
ghost use Rattle.ax_task.specs.Exchanged.{NothingWaits};
ghost use Rattle.ax_task.specs.Due.{IsFree};
ghost use Rattle.ax_task.specs.Things.{NoWork, StepDoes};
ghost use Rattle.ax_task.specs.Laws.{MayEndWith, MayHaveWritten, TextsTell, OfWholeLines, PartOf, WroteWhatIsRead, WroteAPart, WroteAll, IsFoundEnd, NothingGoesOn, LeftNothing, Stepped, AreSteps, AsCalls, AreCounted};
ghost use Rattle.ax_task.specs.declared.engine.Engine.{Engine as AnyEngine};
ghost use Rattle.ax_task.specs.declared.end.End.{End};
ghost use Rattle.ax_task.specs.declared.end.End.TheVariants as end;
ghost use Rattle.ax_task.specs.declared.step.Step.TheVariants as step;

use ax_core::laws::contexts_are_counted;

/// Where the bytes of an input say a program and events, they are a run: the program is valid, and lines spell the events.
pub fn parsed_input_is_a_run()
    ensures { (bytes : List ℕ) (p : Program) (s : Stream) → parse bytes ≡ Runs p s → IsRun p s.events }
{}

/// Two runs that have written the same bytes, fewer than 2^63, have written the same list of entries, whatever their inputs,
/// their programs, their modes and their numbers of key groups: where both ended, and where both have written some of it.
pub fn equal_outputs_have_equal_entries()
    ensures whole { (input other : List ℕ) → TextsTell MayEndWith input other }
    ensures so_far { (input other : List ℕ) → TextsTell MayHaveWritten input other }
{}

/// What the plain thread writes for the events of an input may be written, as a whole and so far, in either mode.
pub fn plain_list_may_be_written()
    ensures whole { (m : ℕ) (serial : Bool) (bytes : List ℕ) (p : Program) (s : Stream) → parse bytes ≡ Runs p s → MayEndWith m serial (parse bytes) (sync m p s.events).entries }
    ensures so_far { (m : ℕ) (serial : Bool) (bytes : List ℕ) (p : Program) (s : Stream) → parse bytes ≡ Runs p s → MayHaveWritten m serial (parse bytes) (sync m p s.events).entries }
{}

/// What `run_task_alone` says at a read fault, a write fault and want of memory, means: of the bytes of the input some were taken.
/// At `Read` the whole lines among them end before the program section does, and nothing was written; or they say a program and
/// events without a fault, and the text of a list was written that is lawful for all of these events. At `Write` they say a program,
/// and a first part was written of the text of a list that may be written so far for their events. At `NoMemory` it is the same, or
/// they say no program and nothing was written.
pub fn stopped_runs_wrote_a_part()
    ensures read { (m : ℕ) (serial : Bool) (out : Holds) (bytes left : List ℕ) → Stops m serial out bytes left end.Read → OfWholeLines bytes left (WroteWhatIsRead m serial out) }
    ensures write { (m : ℕ) (serial : Bool) (out : Holds) (bytes left : List ℕ) → Stops m serial out bytes left end.Write → OfWholeLines bytes left (WroteAPart m serial out) }
    ensures memory { (m : ℕ) (serial : Bool) (out : Holds) (bytes left : List ℕ) → Stops m serial out bytes left end.NoMemory → OfWholeLines bytes left (λ lines. PartOf m serial out (parse lines)) }
{}

/// What it says at the other ends, means: at `Ok` the input has no fault and nothing is left of it, and the text of a list was
/// written that is lawful for all its events; at `Input` the same up to the first fault, which is the one that is named; at
/// `Program` the fault is that of the section, and nothing was written.
pub fn runs_that_end_wrote_all()
    ensures ok { (m : ℕ) (serial : Bool) (out : Holds) (input : Parsed) (left : List ℕ) → RunEnds m serial out input left end.Ok → WroteAll m serial out input Clean × (left ≡ []) }
    ensures input { (m : ℕ) (serial : Bool) (out : Holds) (input : Parsed) (left : List ℕ) (line kind : ℕ) → RunEnds m serial out input left (end.Input line kind) → WroteAll m serial out input (Fault line kind) }
    ensures program { (m : ℕ) (serial : Bool) (out : Holds) (input : Parsed) (left : List ℕ) (line kind : ℕ) → RunEnds m serial out input left (end.Program line kind) → (input ≡ BadProgram line kind) × Appends out.old out.new [] }
{}

/// Where a step ends a run by `Ok`, `Input` or `Read`, that is what was found at the input; none of the things that a step does can
/// be done, nothing is in flight, no marker is to be sent, no key is idle, and nothing is gathered that isn't written.
pub fn ended_steps_left_nothing()
    ensures { (t u : State) (old now : Outer) (before behind : Counts) (e : End) → IsFoundEnd e → StepDoes t u old now (step.End e) → StepIsCaused u.engine.core u.reading.found before behind (step.End e) → LeftNothing u e }
{}

/// Where no key may fire, no mail waits, no marker is to be sent, no request waits and no batch is out, nothing is in flight: the
/// controller stands for no control but such in which nothing goes on. So a run never stops with a row that isn't finished.
pub fn tasks_without_work_are_at_rest()
    ensures free { (e : AnyEngine) → IsReady e → NoWork e → NothingWaits e → IsFree e.core }
    ensures none { (e : AnyEngine) → IsReady e → NoWork e → NothingWaits e → NothingGoesOn e.core }
{}

/// Each thing that a step does makes a context with the next number that no context in flight has, or none. So steps are calls
/// of a controller, and the contexts of a task get the numbers 1, 2, 3 and so on in the order in which they are made, where none
/// was made in its controller before, while there are fewer than `2^64 - 1` of them.
pub fn steps_number_contexts()
    ensures calls { (t : State) (steps : List Stepped) → AreSteps t steps → AsCalls t steps }
    ensures counted { (t : State) (steps : List Stepped) → NothingNumbered t.engine.core → AreSteps t steps → (run : AsCalls t steps) × AreCounted run.calls }
{
    contexts_are_counted();
}
