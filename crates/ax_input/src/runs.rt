//! Laws of the entries of runs. The functions do nothing; their contracts are the laws.
ghost use Rattle.std.specs.Prelude.{ℕ, List, Bool};
ghost use Rattle.ax_text.specs.Programs.{Program};
ghost use Rattle.ax_machine.specs.Events.{Event};
ghost use Rattle.ax_machine.specs.Entries.{Entry};
ghost use Rattle.ax_input.specs.PlainEntries.{WritesPlain, SoFarIsPlain, WholeIsPlain, BytesTell};

/// For a valid program and events that lines spell, each entry that the plain thread writes is one that lines spell, and
/// so is each entry that may be written: whole, or so far, in serial mode and without it.
pub fn runs_write_plain_entries()
    ensures plain { (m : ℕ) (p : Program) (events : List Event) → WritesPlain m p events }
    ensures so_far { (m : ℕ) (serial : Bool) (p : Program) (events : List Event) (written : List Entry) → SoFarIsPlain m serial p events written }
    ensures whole { (m : ℕ) (serial : Bool) (p : Program) (events : List Event) (written : List Entry) → WholeIsPlain m serial p events written }
{}

/// The bytes that a run has written determine the entries that it has written.
pub fn bytes_of_runs_determine_entries()
    ensures { (m : ℕ) (serial : Bool) (p : Program) (events : List Event) (one two : List Entry) → BytesTell m serial p events one two }
{}
