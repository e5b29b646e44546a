//! Laws of the texts. The functions do nothing; their contracts are the laws.
ghost use Rattle.std.specs.Prelude.{◌≡◌, ◌≤◌, ℕ, ℤ, List, true};
ghost use Rattle.ax_machine.specs.Events.{Event};
ghost use Rattle.ax_machine.specs.Entries.{Key, Entry, Watermark, Out as OutEntry, Mark as MarkEntry, entry_text};
ghost use Rattle.ax_input.specs.Events.{Good, event_of, is_event, event_line};
ghost use Rattle.ax_machine.specs.OutLines.{OutLine, Out, Mark, line_of, spelled};
ghost use Rattle.ax_input.specs.OutLines.{is_line};
ghost use Rattle.ax_input.specs.Laws.{IsEventBack, IsLineBack, IsOneLine, IsDetermined};

/// An event that was written is read back with as many fields as it has values, and it is no comment.
pub fn event_is_read_back()
    ensures { (e : Event) → IsEventBack e }
{}

/// The reader of lines gives an event that was written as one whole line, whatever follows it.
pub fn event_is_one_line()
    ensures { (e : Event) (rest : List ℕ) (limit : ℕ) → is_event e ≡ true → IsOneLine (event_line e) rest limit }
{}

/// Where a row has at most 16 values, the event that a line says is one that a line spells.
pub fn read_event_is_spelled()
    ensures { (fields : ℕ) (text : List ℕ) (e : Event) → fields ≤ 16 → event_of fields text ≡ Good e → is_event e ≡ true }
{}

/// An output line that was written is read back.
pub fn line_is_read_back()
    ensures { (l : OutLine) → IsLineBack l }
{}

/// The reader of lines gives an output line that was written as one whole line, whatever follows it.
pub fn line_is_one_line()
    ensures { (l : OutLine) (rest : List ℕ) (limit : ℕ) → is_line l ≡ true → IsOneLine (line_of l) rest limit }
{}

/// Emits and watermarks are spelled as the entries of an output are.
pub fn entries_are_spelled()
    ensures out { (key : Key) (values : List ℤ) → spelled (Out key values) ≡ entry_text (OutEntry key values) }
    ensures watermark { (time : ℤ) → spelled (Mark time) ≡ entry_text (MarkEntry (Watermark time)) }
{}

/// The bytes of an output of emits, watermarks and blocks determine its entries, and so their lines.
pub fn bytes_determine_entries()
    ensures { (es fs : List Entry) → IsDetermined es fs }
{}
