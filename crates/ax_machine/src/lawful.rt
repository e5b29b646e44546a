//! Laws of lawful lists: what a list that is lawful, or lawful so far, says to a reader, and what makes one of another.
ghost use Rattle.std.specs.Prelude.{◌≡◌, ℕ, List, Bool, true, false, ◌∷◌, ◌++◌};
ghost use Rattle.ax_text.specs.Programs.{Program};
ghost use Rattle.ax_text.specs.Jobs.{lines_in};
ghost use Rattle.ax_machine.specs.Entries.{Key, Marker, Entry, Mark, lines_of};
ghost use Rattle.ax_machine.specs.Events.{Event};
ghost use Rattle.ax_machine.specs.Lawful.{IsPrefix, IsStrict, HasPlace, cuts, markers, Lawful, LawfulSoFar, LawfulFor, LawfulSoFarFor};
ghost use Rattle.ax_machine.specs.Sync.{sync};
ghost use Rattle.ax_machine.specs.KeySync.{key_sync};

/// What the plain thread writes is lawful: each list is lawful for itself.
pub fn lawful_itself()
    ensures { (serial : Bool) (entries : List Entry) → Lawful serial entries entries }
{}

/// A whole lawful list is lawful so far, and so is what was written first of a list that is lawful so far.
pub fn lawful_is_so_far()
    ensures whole { (serial : Bool) (written plain : List Entry) → Lawful serial written plain → LawfulSoFar serial written plain }
    ensures first { (serial : Bool) (front rest plain : List Entry) → LawfulSoFar serial (front ++ rest) plain → LawfulSoFar serial front plain }
{}

/// A list of which only the front was written is lawful so far.
pub fn front_is_lawful_so_far()
    ensures { (serial : Bool) (front rest : List Entry) → LawfulSoFar serial front (front ++ rest) }
{}

/// What may have been written so far for events may have been written so far for these and further ones.
pub fn further_events_change_nothing()
    ensures { (m : ℕ) (serial : Bool) (p : Program) (first further : List Event) (written : List Entry)
        → LawfulSoFarFor m serial p first written → LawfulSoFarFor m serial p (first ++ further) written }
{}

/// Each marker that was written stands in the plain thread's list too. Before it no marker is left out, and each key has the lines
/// that it has there in the plain thread: all of them, and where the marker is strict no more.
pub fn markers_have_their_places()
    ensures { (serial : Bool) (front rest plain : List Entry) (marker : Marker)
        → LawfulSoFar serial (front ++ Mark marker ∷ rest) plain → HasPlace serial front marker plain }
{}

/// A strict marker that isn't written yet holds back the lines that stand behind it in the plain thread's list.
pub fn strict_markers_hold_back()
    ensures { (serial : Bool) (written before behind : List Entry) (marker : Marker)
        → LawfulSoFar serial written (before ++ Mark marker ∷ behind) → IsStrict serial marker → IsPrefix (markers (cuts written)) (markers (cuts before))
        → (k : Key) → IsPrefix (lines_of k written) (lines_of k before) }
{}

/// In serial mode each marker stands behind equally many lines of each key in both lists.
/// A list is lawful exactly where that is so, and each key has the lines of the plain thread.
pub fn serial_keeps_cuts()
    ensures cuts { (written plain : List Entry) → Lawful true written plain → cuts written ≡ cuts plain }
    ensures enough { (serial : Bool) (written plain : List Entry) → ((k : Key) → lines_of k written ≡ lines_of k plain) → cuts written ≡ cuts plain → Lawful serial written plain }
{}

/// What is lawful in serial mode is lawful in parallel mode.
pub fn serial_is_parallel()
    ensures whole { (written plain : List Entry) → Lawful true written plain → Lawful false written plain }
    ensures so_far { (written plain : List Entry) → LawfulSoFar true written plain → LawfulSoFar false written plain }
{}

/// A list that is lawful for events has each key's lines as the thread of that key alone says them, one job after another,
/// and the markers of the plain thread.
pub fn lawful_lists_tell_the_same()
    ensures lines { (m : ℕ) (serial : Bool) (p : Program) (events : List Event) (written : List Entry) → LawfulFor m serial p events written
        → (k : Key) → lines_of k written ≡ lines_in (key_sync p k events).said.groups }
    ensures markers { (m : ℕ) (serial : Bool) (p : Program) (events : List Event) (written : List Entry) → LawfulFor m serial p events written
        → markers (cuts written) ≡ markers (cuts (sync m p events).entries) }
{}
