//! Laws of how a run ends. The functions do nothing; their contracts are the laws.
ghost use Rattle.std.specs.Prelude.{◌≡◌, ◌<◌, ◌^◌, ◌-◌, ◌⊎◌, ℕ, List, [], Option, Some};
ghost use Rattle.ax_words.specs.declared.options.Options.{Options as AnyOptions};
ghost use Rattle.ax_task.specs.Parse.{Clean, Fault};
ghost use Rattle.ax_cli.specs.declared.status.Status.{Status as AnyStatus};
ghost use Rattle.ax_cli.specs.Status.{Streams, Leaves};
ghost use Rattle.ax_cli.specs.Laws.{WroteLawful, WroteNothing, WroteAllThatWasRead, WroteSome, Says};

use crate::status::Status;

/// A run that ended with Ok had accepted words and read its input to the end; the bytes say a program and events without a fault,
/// and a lawful list was written for all of them.
pub fn ok_runs_wrote_a_lawful_list()
    ensures { (asked : Option AnyOptions) (s : Streams) (bytes rest : List ℕ) → s.left ≡ Some bytes → s.left_behind ≡ Some rest → Leaves asked s Status.Ok → WroteLawful asked s.out bytes Clean × (rest ≡ []) }
{}

/// A run that ended with Input names the fault in which the events end, and wrote a lawful list for those before it.
pub fn input_faults_end_the_events()
    ensures { (asked : Option AnyOptions) (s : Streams) (bytes rest : List ℕ) (line kind : ℕ) → s.left ≡ Some bytes → s.left_behind ≡ Some rest → Leaves asked s (Status.Input line kind) → WroteLawful asked s.out bytes (Fault line kind) }
{}

/// A run that ended with Program names the fault for which the bytes say no program, and wrote nothing.
pub fn program_faults_wrote_nothing()
    ensures { (asked : Option AnyOptions) (s : Streams) (bytes rest : List ℕ) (line kind : ℕ) → s.left ≡ Some bytes → s.left_behind ≡ Some rest → Leaves asked s (Status.Program line kind) → WroteNothing s.out bytes line kind }
{}

/// A run that ended with Read had accepted words, and took some of the bytes. The whole lines among them end before the program section
/// does, and nothing was written; or they say a program and events without a fault, and a lawful list was written for all of these.
pub fn read_faults_wrote_a_lawful_list()
    ensures { (asked : Option AnyOptions) (s : Streams) (bytes rest : List ℕ) → s.left ≡ Some bytes → s.left_behind ≡ Some rest → Leaves asked s Status.Read → WroteAllThatWasRead asked s.out bytes rest }
{}

/// A run that ended with Write had accepted words, and took some of the bytes. The whole lines among them say a program, and some first
/// part was written of a list that is lawful so far for their events.
pub fn write_faults_wrote_a_part()
    ensures { (asked : Option AnyOptions) (s : Streams) (bytes rest : List ℕ) → s.left ≡ Some bytes → s.left_behind ≡ Some rest → Leaves asked s Status.Write → WroteSome asked s.out bytes rest }
{}

/// Where the words are accepted and no fault was counted, a run has ended as the bytes say, or memory was short.
pub fn runs_without_faults_end_as_the_bytes_say()
    ensures { (options : AnyOptions) (s : Streams) (bytes rest : List ℕ) (t : AnyStatus) → s.left ≡ Some bytes → s.left_behind ≡ Some rest
        → s.counts_behind.reads ≡ s.counts.reads → s.counts.reads < 2 ^ 64 - 1
        → s.counts_behind.writes.faults ≡ s.counts.writes.faults → s.counts.writes.faults < 2 ^ 64 - 1
        → Leaves (Some options) s t → (t ≡ Status.NoMemory) ⊎ Says bytes t }
{}
