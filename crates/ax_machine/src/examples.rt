//! Worked examples as laws: what the plain thread writes for small programs and events, and which lists are refused in its place.
ghost use Rattle.std.specs.Prelude.{◌≡◌, [], ◌∷◌, Bool, true, false, codes, pos};
ghost use Rattle.ax_text.specs.Jobs.{row_job, firing_job};
ghost use Rattle.ax_machine.specs.Entries.{Out};
ghost use Rattle.ax_machine.specs.Events.{Mark, Barrier};
ghost use Rattle.ax_machine.specs.Sync.{first_wm, sync};
ghost use Rattle.ax_machine.specs.KeySync.{key_sync};
ghost use Rattle.ax_machine.specs.Lawful.{LawfulFor, LawfulSoFarFor};
ghost use Rattle.ax_machine.specs.Examples.{counting, clicks, line, alarm, late_alarm, same_alarm, three_alarms, ticking, ticks, many_ticks, lasting, saved, watermark, block, mixed, mixed_entries, first_a, firing_a, mark_3, row_b, block_1, last_a, group};

/// The counting program, over rows of two keys by turns.
pub fn counts_by_key()
    ensures { (sync 128 counting clicks).entries ≡ line (codes "a") (pos 5) ∷ line (codes "b") (pos 1) ∷ line (codes "a") (pos 12) ∷ [] }
{}

/// A timer that is set at or below the present watermark fires at the next greater one.
pub fn late_timer_waits()
    ensures { (sync 128 alarm late_alarm).entries
        ≡ watermark (pos 5) ∷ Out (codes "a") (pos 1 ∷ pos 1 ∷ []) ∷ Out (codes "a") (pos 2 ∷ pos 3 ∷ pos 6 ∷ []) ∷ watermark (pos 6) ∷ [] }
{}

/// A timer that is set twice fires once.
pub fn same_timer_fires_once()
    ensures { (sync 128 alarm same_alarm).entries
        ≡ Out (codes "a") (pos 1 ∷ pos 1 ∷ []) ∷ Out (codes "a") (pos 1 ∷ pos 2 ∷ []) ∷ Out (codes "a") (pos 2 ∷ pos 3 ∷ pos 6 ∷ []) ∷ watermark (pos 6) ∷ watermark (pos 7) ∷ [] }
{}

/// Due timers fire by time and then key, in whatever order they were set.
pub fn timers_fire_in_order()
    ensures { (sync 128 alarm three_alarms).entries
        ≡ Out (codes "b") (pos 1 ∷ pos 1 ∷ []) ∷ Out (codes "a") (pos 1 ∷ pos 1 ∷ []) ∷ Out (codes "c") (pos 1 ∷ pos 1 ∷ [])
        ∷ Out (codes "c") (pos 2 ∷ pos 2 ∷ pos 3 ∷ []) ∷ Out (codes "a") (pos 2 ∷ pos 3 ∷ pos 3 ∷ []) ∷ Out (codes "b") (pos 2 ∷ pos 3 ∷ pos 3 ∷ []) ∷ watermark (pos 3) ∷ [] }
{}

/// A timer that a firing sets at or below the watermark fires at that watermark too, and a later one waits.
pub fn firing_may_set_a_timer()
    ensures { (sync 128 ticking ticks).entries
        ≡ line (codes "a") (pos 2) ∷ line (codes "a") (pos 3) ∷ line (codes "a") (pos 4) ∷ watermark (pos 4) ∷ line (codes "a") (pos 5) ∷ watermark (pos 5) ∷ [] }
{}

/// A key fires 65,536 times at one watermark and no more: of the timers from 0 on that its firings set, the next one is left.
pub fn firings_have_a_bound()
    ensures { ((sync 128 ticking many_ticks).map (codes "a")).times ≡ pos 65536 ∷ [] }
{}

/// A watermark that isn't greater than the last is skipped.
pub fn lower_watermark_is_skipped()
    ensures { (sync 128 alarm (Mark (pos 5) ∷ Mark (pos 5) ∷ Mark (pos 4) ∷ [])).entries ≡ watermark (pos 5) ∷ [] }
{}

/// The block of a barrier before any row and any watermark.
pub fn empty_block()
    ensures { (sync 128 alarm (Barrier (pos 1) ∷ [])).entries ≡ block (codes "s 1 -9223372036854775808" ∷ codes "e 1 0" ∷ []) ∷ [] }
{}

/// A block has its keys by group: `b` is of group 22 and `a` of group 81. A timer that fired is no longer there.
pub fn block_by_group()
    ensures { (sync 128 lasting saved).entries
        ≡ watermark (pos 2) ∷ block (codes "s 1 2" ∷ codes "c b c 1" ∷ codes "c a c 12" ∷ codes "t a 3" ∷ codes "e 1 3" ∷ []) ∷ [] }
{}

/// The groups of one key: each job that ran on it, with its lines and how many of its requests were served.
pub fn groups_of_one_key()
    ensures rows { (key_sync counting (codes "a") clicks).said.groups
        ≡ group (row_job first_wm (pos 1) (pos 5 ∷ [])) ((pos 5 ∷ []) ∷ []) 2 ∷ group (row_job first_wm (pos 3) (pos 7 ∷ [])) ((pos 12 ∷ []) ∷ []) 2 ∷ [] }
    ensures firing { (key_sync alarm (codes "a") mixed).said.groups
        ≡ group (row_job first_wm (pos 1) (pos 3 ∷ [])) ((pos 1 ∷ pos 1 ∷ []) ∷ []) 0 ∷ group (firing_job (pos 3) (pos 3)) ((pos 2 ∷ pos 3 ∷ pos 3 ∷ []) ∷ []) 0
        ∷ group (row_job (pos 3) (pos 5) (pos 9 ∷ [])) ((pos 1 ∷ pos 5 ∷ []) ∷ []) 0 ∷ [] }
{}

/// A timer that fires, a row behind its watermark, a barrier, and a row behind that: the list that those below are held against.
pub fn mixed_events()
    ensures { (sync 128 alarm mixed).entries ≡ mixed_entries }
{}

/// A watermark before the line of a timer that it fires is refused.
pub fn watermark_before_its_firing_is_refused()
    ensures { (serial : Bool) → LawfulFor 128 serial alarm mixed (first_a ∷ mark_3 ∷ firing_a ∷ row_b ∷ block_1 ∷ last_a ∷ []) → ⊥ }
{}

/// A later row's line before a watermark is refused in serial mode and accepted in parallel mode.
pub fn later_row_before_a_watermark()
    ensures serial { LawfulFor 128 true alarm mixed (first_a ∷ firing_a ∷ row_b ∷ mark_3 ∷ block_1 ∷ last_a ∷ []) → ⊥ }
    ensures parallel { LawfulFor 128 false alarm mixed (first_a ∷ firing_a ∷ row_b ∷ mark_3 ∷ block_1 ∷ last_a ∷ []) }
{}

/// In both modes a block before an earlier row's line is refused, and so is a block behind a later row's line.
pub fn block_elsewhere_is_refused()
    ensures earlier { (serial : Bool) → LawfulFor 128 serial alarm mixed (first_a ∷ firing_a ∷ mark_3 ∷ block_1 ∷ row_b ∷ last_a ∷ []) → ⊥ }
    ensures later { (serial : Bool) → LawfulFor 128 serial alarm mixed (first_a ∷ firing_a ∷ mark_3 ∷ row_b ∷ last_a ∷ block_1 ∷ []) → ⊥ }
{}

/// A line or a marker that is missing, or that stands there twice, is refused.
pub fn other_lines_are_refused()
    ensures line { (serial : Bool) → LawfulFor 128 serial alarm mixed (first_a ∷ firing_a ∷ mark_3 ∷ row_b ∷ block_1 ∷ []) → ⊥ }
    ensures marker { (serial : Bool) → LawfulFor 128 serial alarm mixed (first_a ∷ firing_a ∷ row_b ∷ block_1 ∷ last_a ∷ []) → ⊥ }
    ensures twice { (serial : Bool) → LawfulSoFarFor 128 serial alarm mixed (first_a ∷ firing_a ∷ mark_3 ∷ mark_3 ∷ []) → ⊥ }
{}

/// Of a list that was written so far, a watermark where a line before it is missing is refused.
/// A later row's line where the watermark isn't written is refused in serial mode only, and where a block isn't written in both modes.
pub fn lines_so_far()
    ensures missing { (serial : Bool) → LawfulSoFarFor 128 serial alarm mixed (first_a ∷ mark_3 ∷ []) → ⊥ }
    ensures serial { LawfulSoFarFor 128 true alarm mixed (first_a ∷ firing_a ∷ row_b ∷ []) → ⊥ }
    ensures parallel { LawfulSoFarFor 128 false alarm mixed (first_a ∷ firing_a ∷ row_b ∷ []) }
    ensures block { (serial : Bool) → LawfulSoFarFor 128 serial alarm mixed (first_a ∷ firing_a ∷ last_a ∷ []) → ⊥ }
{}

/// Lines of two keys may change places, lines of one key may not.
pub fn lines_of_two_keys()
    ensures two { (serial : Bool) → LawfulFor 128 serial counting clicks (line (codes "b") (pos 1) ∷ line (codes "a") (pos 5) ∷ line (codes "a") (pos 12) ∷ []) }
    ensures one { (serial : Bool) → LawfulFor 128 serial counting clicks (line (codes "a") (pos 12) ∷ line (codes "a") (pos 5) ∷ line (codes "b") (pos 1) ∷ []) → ⊥ }
{}
