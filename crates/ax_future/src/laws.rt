//! Laws of machines. Each is what an empty function ensures.
ghost use Rattle.std.specs.Prelude.{◌≡◌, ◌≤◌, ◌<◌, ℕ, true, Some};
ghost use Rattle.ax_text.specs.declared.vocabulary.Answer.{Answer as AnyAnswer};
ghost use Rattle.ax_text.specs.declared.vocabulary.Handler.{Handler as AnyHandler};
ghost use Rattle.ax_text.specs.declared.vocabulary.Request.{Request as AnyRequest};
ghost use Rattle.ax_text.specs.Exprs.{Facts as AnyFacts};
ghost use Rattle.ax_text.specs.Cells.{Cells};
ghost use Rattle.ax_text.specs.Controls.{Going, request_at};
ghost use Rattle.ax_text.specs.Programs.{program_width};
ghost use Rattle.ax_text.specs.Suits.{fits_in};
ghost use Rattle.ax_text.specs.Underway.{HasSlots};
ghost use Rattle.ax_lang.specs.declared.program.Program.{Program as AnyProgram};
ghost use Rattle.ax_lang.specs.Shown.{shown_program, shown_kinds};
ghost use Rattle.ax_future.specs.declared.machine.Machine.{Machine as AnyMachine};
ghost use Rattle.ax_future.specs.declared.callback.Turn.{Turn as AnyTurn};
ghost use Rattle.ax_future.specs.Machines.{control_of, IsSound};
ghost use Rattle.ax_future.specs.Lives.{Starts, Serves, Moves, Ends};

/// Whatever the order in which a machine's requests are served and its answers given, what was done and what it has left to do come together to the run of its handler; where it is done, what was done is the run.
pub fn machines_come_to_the_run()
    ensures start { (p : AnyProgram) (h : AnyHandler) (f : AnyFacts) (cells : Cells) (m : AnyMachine) (t : AnyTurn) → Starts p h f cells m t }
    ensures serve { (p : AnyProgram) (h : AnyHandler) (f : AnyFacts) (cells : Cells) (m : AnyMachine) (g : Going) (s : ℕ) (r : AnyRequest) → Serves p h f cells m g s r }
    ensures give { (p : AnyProgram) (h : AnyHandler) (f : AnyFacts) (cells : Cells) (m : AnyMachine) (g : Going) (s : ℕ) (a : AnyAnswer) (n : AnyMachine) (t : AnyTurn) → Moves p h f cells m g s a n t }
    ensures done { (p : AnyProgram) (h : AnyHandler) (f : AnyFacts) (cells : Cells) (m : AnyMachine) (g : Going) → Ends p h f cells m g }
{}

/// A sound machine waits at different slots, at most as many as its program is wide, each below that, and a program is at most 16 wide.
pub fn machines_wait_within_the_width()
    ensures slots { (p : AnyProgram) (m : AnyMachine) → IsSound p m → HasSlots (program_width (shown_program p)) (control_of p m) }
    ensures few { (p : AnyProgram) → program_width (shown_program p) ≤ 16 }
{}

/// Each request that waits is to a state that the program declares, and of a kind that serves it.
pub fn requests_fit_the_program()
    ensures { (p : AnyProgram) (m : AnyMachine) (s : ℕ) (r : AnyRequest) → IsSound p m → request_at (control_of p m) s ≡ Some r → fits_in (shown_kinds p) r ≡ true }
{}
