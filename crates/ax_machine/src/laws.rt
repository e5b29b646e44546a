//! Laws of the plain thread.
ghost use Rattle.std.specs.Prelude.{◌≡◌, ℕ, ℤ, List, Bool, [], false};
ghost use Rattle.std.specs.Str.{bytes_eq};
ghost use Rattle.std.specs.List.{list_any, filter};
ghost use Rattle.std.specs.List.Sorted.{IsStrictlySortedBy};
ghost use Rattle.std.specs.Ordering.{int_cmp};
ghost use Rattle.ax_keys.specs.Keys.{key_cmp};
ghost use Rattle.ax_text.specs.Cells.{Cells, empty_cell, kind_of};
ghost use Rattle.ax_text.specs.KeyStates.{fresh};
ghost use Rattle.ax_text.specs.Programs.{State, Program, kinds_of};
ghost use Rattle.ax_machine.specs.Entries.{Key, lines_of};
ghost use Rattle.ax_machine.specs.Blocks.{Part, part_lines, lines_among, block_text};
ghost use Rattle.ax_machine.specs.Events.{Event, has_row, without_skipped};
ghost use Rattle.ax_machine.specs.Sync.{Map, Plain, plain_steps, parts_of, first_wm, sync, silent, behind};
ghost use Rattle.ax_machine.specs.KeySync.{IsProjected};

/// Steps of the plain thread do the same whatever was written before, and write behind it.
pub fn steps_write_behind()
    ensures { (m : ℕ) (p : Program) (events : List Event) (s : Plain) → plain_steps m p events s ≡ behind s.entries (plain_steps m p events (silent s)) }
{}

/// What the plain thread of all keys has and writes of a key is what the thread of that key alone has and writes:
/// the order in which keys fire makes no difference to any of them.
pub fn keys_are_apart()
    ensures { (m : ℕ) (p : Program) (k : Key) (events : List Event) → IsProjected m p k events }
{}

/// The keys that had a row rise by their bytes, each once, and so do the times of each key.
pub fn keys_and_times_rise()
    ensures keys { (m : ℕ) (p : Program) (events : List Event) → IsStrictlySortedBy key_cmp (sync m p events).keys }
    ensures times { (m : ℕ) (p : Program) (events : List Event) (k : Key) → IsStrictlySortedBy int_cmp ((sync m p events).map k).times }
{}

/// The keys are those of the rows; of any other key the plain thread has and writes nothing. So a block misses no key.
pub fn keys_are_those_of_rows()
    ensures keys { (m : ℕ) (p : Program) (events : List Event) (k : Key) → list_any (bytes_eq k) (sync m p events).keys ≡ has_row k events }
    ensures states { (m : ℕ) (p : Program) (events : List Event) (k : Key) → has_row k events ≡ false → (sync m p events).map k ≡ fresh (kinds_of p.states) }
    ensures lines { (m : ℕ) (p : Program) (events : List Event) (k : Key) → has_row k events ≡ false → lines_of k (sync m p events).entries ≡ [] }
{}

/// A watermark that isn't greater than each one before changes nothing.
pub fn skipped_watermarks_change_nothing()
    ensures { (m : ℕ) (p : Program) (events : List Event) → sync m p (without_skipped first_wm events) ≡ sync m p events }
{}

/// A block has each key's lines, in whatever order the parts were given.
/// A key that has neither state nor timer, as one that was never touched, has no line, so it may be left out.
pub fn blocks_have_the_lines_of_keys()
    ensures lines { (m : ℕ) (states : List State) (id wm : ℤ) (parts others : List Part) → ((k : Key) → lines_among states k parts ≡ lines_among states k others)
        → block_text m states id wm parts ≡ block_text m states id wm others }
    ensures empty { (states : List State) (k : Key) (cells : Cells) → ((i : ℕ) → cells i ≡ empty_cell (kind_of (cells i)))
        → part_lines states (record { key = k; state = record { cells = cells; times = [] } }) ≡ [] }
    ensures untouched { (states : List State) (k : Key) → part_lines states (record { key = k; state = fresh (kinds_of states) }) ≡ [] }
    ensures left_out { (m : ℕ) (states : List State) (id wm : ℤ) (keys : List Key) (map : Map) (kept : Key → Bool)
        → ((k : Key) → kept k ≡ false → part_lines states (record { key = k; state = map k }) ≡ [])
        → block_text m states id wm (parts_of (filter kept keys) map) ≡ block_text m states id wm (parts_of keys map) }
{}
