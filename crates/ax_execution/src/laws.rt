//! Laws of the machine, over all key groups, programs whose handlers are accepted, rules and runs from the start.
ghost use Rattle.std.specs.Prelude.{◌≡◌, ℕ, suc, ◌+◌, ◌≤◌, ◌<◌, ℤ, int_lt, List, [], ◌∷◌, ◌++◌, length, true, false, Some, None};
ghost use Rattle.std.specs.Str.{bytes_eq};
ghost use Rattle.std.specs.List.{list_any};
ghost use Rattle.std.specs.List.Sorted.{IsStrictlySortedBy};
ghost use Rattle.ax_keys.specs.Keys.{key_cmp};
ghost use Rattle.ax_text.specs.Exprs.{Facts};
ghost use Rattle.ax_text.specs.KeyStates.{KeyState};
ghost use Rattle.ax_text.specs.Jobs.{Job};
ghost use Rattle.ax_text.specs.Programs.{Program};
ghost use Rattle.ax_machine.specs.Entries.{Key, Watermark, lines_of};
ghost use Rattle.ax_machine.specs.Entries as entry;
ghost use Rattle.ax_machine.specs.Events as event;
ghost use Rattle.ax_machine.specs.Events.{Event, without_skipped};
ghost use Rattle.ax_machine.specs.KeySync.{key_sync};
ghost use Rattle.ax_machine.specs.Sync.{sync};
ghost use Rattle.ax_machine.specs.Lawful.{Lawful, LawfulSoFar};
ghost use Rattle.ax_text.specs.Prints.{has};
ghost use Rattle.ax_text.specs.Controls.{is_done, slots, waiting};
ghost use Rattle.ax_execution.specs.Accepted.{AreAccepted};
ghost use Rattle.ax_execution.specs.Contexts.{Running, Unbegun, Begun, Context, Waiting, Mark, Part, rows_in, may_fire, is_idle};
ghost use Rattle.ax_execution.specs.KeyControls.{control_of, bare, SeesControl, owner_answer, keeps_answer};
ghost use Rattle.ax_execution.specs.Origins.{Origin, IsOrigin, first, sync_from, key_sync_from, IsProjectedFrom};
ghost use Rattle.ax_execution.specs.Turns.{admit, mark, fire, start, serve, deliver, start_effects, deliver_effects};
ghost use Rattle.ax_execution.specs.Rest.{rest_world, settled, silent_part, owed, part_work};
ghost use Rattle.ax_execution.specs.Machine.{Machine, Happening, Start, Serve, Deliver, Rules, happens, outcome, taken, machine_from, machine_of, in_flight, work, IsAtRest, IsWork};
ghost use Rattle.ax_execution.specs.Runs.{AcceptedRun, end_of, end_with, outcome_at};
ghost use Rattle.ax_execution.specs.Allowed.{NoneIsIdle, IsFinished, Allowed, IsRun};
ghost use Rattle.ax_execution.specs.Counts.{one_if_gone, references, reference_count, epoch_count, number_count, made, made_as, calls, counted};
ghost use Rattle.ax_execution.specs.Merges.{merge, firings_at};
ghost use Rattle.ax_text.specs.Underway.{SlotsRise, Differ};
ghost use Rattle.ax_execution.specs.Asks.{owner_waits, waits_behind, AreOutside, slots_beside};
ghost use Rattle.ax_execution.specs.Tests.{allowed, runs};

/// Before the first event is an origin, and the plain threads from there are the plain threads.
pub fn first_is_an_origin()
    ensures origin { (p : Program) → IsOrigin p (first p) }
    ensures plain { (m : ℕ) (p : Program) (events : List Event) → sync_from m p (first p) events ≡ sync m p events }
    ensures key { (p : Program) (k : Key) (events : List Event) → key_sync_from p (first p) k events ≡ key_sync p k events }
{}

/// Wherever they begin, what the plain thread of all keys has and writes of a key is what the thread of that key alone has and says.
pub fn keys_are_apart()
    ensures { (m : ℕ) (p : Program) (from : Origin) (k : Key) (events : List Event) → IsOrigin p from → IsProjectedFrom m p from k events }
{}

/// A watermark that isn't greater than each one before changes nothing, and the machine takes none. So what the plain thread does
/// with the events that were read is what it does with those that were taken.
pub fn skipped_watermarks_change_nothing()
    ensures none { (r : Rules) (g : ℕ) (p : Program) (from : Origin) (es : List Happening) → IsRun r g p es (machine_from from) → without_skipped from.wm (taken es) ≡ taken es }
    ensures same { (g : ℕ) (p : Program) (from : Origin) (es : List Happening) (events : List Event) → without_skipped from.wm events ≡ taken es
        → sync_from g p from (taken es) ≡ sync_from g p from events }
{}

/// What the plain thread writes at a watermark, wherever it began, is its keys' firings there, merged by time and then key, and then the
/// watermark. Each key's firings are those of its own thread, which sees no other key.
pub fn firings_are_merged_by_time_and_key()
    ensures order { (g : ℕ) (p : Program) (from : Origin) (events : List Event) (w : ℤ) → int_lt (sync_from g p from events).wm w ≡ true
        → (sync_from g p from (events ++ event.Mark w ∷ [])).entries
        ≡ (sync_from g p from events).entries ++ (merge (sync_from g p from events).keys (λ k. firings_at p w ((sync_from g p from events).map k)) ++ entry.Mark (Watermark w) ∷ []) }
    ensures alone { (g : ℕ) (p : Program) (from : Origin) (events : List Event) (w : ℤ) (k : Key) → IsOrigin p from → int_lt (sync_from g p from events).wm w ≡ true
        → (key_sync_from p from k (events ++ event.Mark w ∷ [])).said.groups ≡ (key_sync_from p from k events).said.groups ++ firings_at p w ((sync_from g p from events).map k) }
{}

/// Each key goes as alone, whatever events come: it comes to what its own plain thread has and has said for the events that were
/// taken, its states and timers are then those of the plain thread, and its lines that were written and then those that it owes
/// are its lines of the plain thread. An event that takes nothing of the input changes nothing of what it comes to, nor of its
/// lines that were written and then those that it owes.
pub fn key_goes_as_alone()
    ensures settles { (run : AcceptedRun) (k : Key) → settled run.program ((end_of run).parts k) ≡ (key_sync_from run.program run.from k (taken run.events)).said }
    ensures state { (run : AcceptedRun) (k : Key) → (settled run.program ((end_of run).parts k)).state ≡ (sync_from run.groups run.program run.from (taken run.events)).map k }
    ensures lines { (run : AcceptedRun) (k : Key) → lines_of k (end_of run).written ++ owed run.program ((end_of run).parts k) ≡ lines_of k (sync_from run.groups run.program run.from (taken run.events)).entries }
    ensures kept { (run : AcceptedRun) (e : Happening) (k : Key) → IsWork e → Allowed run.rules e (end_of run)
        → settled run.program ((end_with run e).parts k) ≡ settled run.program ((end_of run).parts k) }
    ensures kept_lines { (run : AcceptedRun) (e : Happening) (k : Key) → IsWork e → Allowed run.rules e (end_of run)
        → lines_of k (end_with run e).written ++ owed run.program ((end_with run e).parts k)
        ≡ lines_of k (end_of run).written ++ owed run.program ((end_of run).parts k) }
{}

/// Whatever events come, what was written may have been written so far for the events that were taken, in either mode,
/// with the watermarks and the blocks; and where the machine is at rest, it is a whole list that may be written.
pub fn written_is_lawful()
    ensures so_far { (run : AcceptedRun) → LawfulSoFar run.rules.serial (end_of run).written (sync_from run.groups run.program run.from (taken run.events)).entries }
    ensures at_rest { (run : AcceptedRun) → IsAtRest (end_of run)
        → Lawful run.rules.serial (end_of run).written (sync_from run.groups run.program run.from (taken run.events)).entries }
{}

/// Never more contexts are in flight than the limit; rows wait only behind an owner, or where their own key must fire; a key that must
/// fire is idle, and there is room for its context; and a handler that has begun waits for an answer. No two contexts have one number. The mark in front of a key without owner
/// is due. The owner of a key has a reference left: a callback that hasn't ended. The keys of rows strictly rise, and no other key has
/// an owner or anything that waits.
pub fn one_owner_and_limit()
    ensures limit { (run : AcceptedRun) → in_flight (end_of run) ≤ run.rules.limit }
    ensures rows { (run : AcceptedRun) (k : Key) → ((end_of run).must ≡ Some k → ⊥)
        → ((end_of run).parts k).owner ≡ None → rows_in ((end_of run).parts k).waiting ≡ 0 }
    ensures room { (run : AcceptedRun) (k : Key) → (end_of run).must ≡ Some k
        → (is_idle ((end_of run).parts k) ≡ true) × (in_flight (end_of run) < run.rules.limit) }
    ensures awake { (run : AcceptedRun) (k : Key) (c : Context) (running : Running) → ((end_of run).parts k).owner ≡ Some c → c.stage ≡ Begun running → is_done running.control ≡ false }
    ensures numbers { (run : AcceptedRun) (n : ℕ) → number_count n (end_of run) ≤ 1 }
    ensures idle { (run : AcceptedRun) (k : Key) (e : ℕ) (w : ℤ) (more : ℕ) (rest : List Waiting) → ((end_of run).parts k).owner ≡ None → ((end_of run).parts k).waiting ≡ Mark e w more ∷ rest
        → may_fire w more ((end_of run).parts k).said.state.times ≡ true }
    ensures referred { (run : AcceptedRun) (k : Key) (c : Context) → ((end_of run).parts k).owner ≡ Some c → 0 < references c.stage }
    ensures absent { (run : AcceptedRun) (k : Key) → list_any (bytes_eq k) (end_of run).keys ≡ false → (((end_of run).parts k).owner ≡ None) × (((end_of run).parts k).waiting ≡ []) }
    ensures keys_rise { (run : AcceptedRun) → IsStrictlySortedBy key_cmp (end_of run).keys }
{}

/// Admit and Fire make one context. One is given up exactly at an event whose outcome says so, the one whose callback has run;
/// no other event changes how many are in flight, nor how many have a number.
pub fn contexts_are_given_up()
    ensures flight { (run : AcceptedRun) (e : Happening) → Allowed run.rules e (end_of run)
        → in_flight (end_with run e) + one_if_gone (outcome_at run e).gone ≡ in_flight (end_of run) + made e }
    ensures numbers { (run : AcceptedRun) (e : Happening) (n : ℕ) → Allowed run.rules e (end_of run)
        → number_count n (end_with run e) + counted (calls n e (end_of run)) (one_if_gone (outcome_at run e).gone)
        ≡ number_count n (end_of run) + made_as n e }
{}

/// The references of a context are its requests that wait, each at a slot of its own, and one until its start has ended. They rise by
/// what a callback asks and fall by one as it ends. A context is in flight exactly while it has some, and it is given up exactly at
/// the event that leaves none. Answers stand only at slots that wait.
pub fn references_are_counted()
    ensures unbegun { references Unbegun ≡ 1 }
    ensures waiting { (running : Running) → references (Begun running) ≡ length (waiting running.control) }
    ensures slots { (run : AcceptedRun) (k : Key) (c : Context) (running : Running) → ((end_of run).parts k).owner ≡ Some c → c.stage ≡ Begun running → Differ (slots running.control) }
    ensures answers { (run : AcceptedRun) (k : Key) (c : Context) (running : Running) (slot : ℕ) → ((end_of run).parts k).owner ≡ Some c → c.stage ≡ Begun running → has slot (slots running.control) ≡ false → running.answers slot ≡ None }
    ensures changes { (run : AcceptedRun) (e : Happening) (n : ℕ) → Allowed run.rules e (end_of run)
        → reference_count n (end_with run e) + counted (calls n e (end_of run)) 1
        ≡ reference_count n (end_of run) + (made_as n e + counted (calls n e (end_of run)) (length (outcome_at run e).asks)) }
    ensures live { (run : AcceptedRun) (n : ℕ) → (number_count n (end_of run) ≡ 0 → reference_count n (end_of run) ≡ 0) × (reference_count n (end_of run) ≡ 0 → number_count n (end_of run) ≡ 0) }
    ensures gone { (run : AcceptedRun) (e : Happening) (n : ℕ) → Allowed run.rules e (end_of run)
        → calls n e (end_of run) ≡ true → (outcome_at run e).gone ≡ true → reference_count n (end_with run e) ≡ 0 }
    ensures last { (run : AcceptedRun) (e : Happening) (n : ℕ) → Allowed run.rules e (end_of run)
        → calls n e (end_of run) ≡ true → reference_count n (end_with run e) ≡ 0 → (outcome_at run e).gone ≡ true }
{}

/// What a callback asks is what its context waits for behind it and did not before: at its start just that, at a delivery that in the
/// place of what was answered. Its slots rise, and none is one that still waits. No other event asks, nor changes what waits.
pub fn asks_are_what_waits()
    ensures waits { (run : AcceptedRun) (e : Happening) (k : Key) → Allowed run.rules e (end_of run)
        → owner_waits ((end_with run e).parts k).owner ≡ waits_behind k e (outcome_at run e).asks (owner_waits ((end_of run).parts k).owner) }
    ensures rise { (run : AcceptedRun) (e : Happening) → Allowed run.rules e (end_of run)
        → SlotsRise (outcome_at run e).asks }
    ensures new { (run : AcceptedRun) (k : Key) (slot : ℕ) → Allowed run.rules (Deliver k slot) (end_of run)
        → AreOutside (slots_beside slot (owner_waits ((end_of run).parts k).owner)) (outcome_at run (Deliver k slot)).asks }
    ensures none { (g : ℕ) (p : Program) (e : Happening) (m : Machine) → ((k : Key) → e ≡ Start k → ⊥) → ((k : Key) (slot : ℕ) → e ≡ Deliver k slot → ⊥) → (outcome g p e m).asks ≡ [] }
{}

/// As many requests wait behind a start as it asks, and behind a delivery as many as before, those that it asks, and one fewer. A
/// handler comes to no fewer requests served than were served so far.
pub fn requests_are_counted()
    ensures started { (run : AcceptedRun) (k : Key) → Allowed run.rules (Start k) (end_of run)
        → length (owner_waits ((end_with run (Start k)).parts k).owner) ≡ length (outcome_at run (Start k)).asks }
    ensures delivered { (run : AcceptedRun) (k : Key) (slot : ℕ) → Allowed run.rules (Deliver k slot) (end_of run)
        → length (owner_waits ((end_with run (Deliver k slot)).parts k).owner) + 1
        ≡ length (owner_waits ((end_of run).parts k).owner) + length (outcome_at run (Deliver k slot)).asks }
    ensures served { (p : Program) (job : Job) (running : Running) (state : KeyState) → AreAccepted p → running.served ≤ (rest_world job running state).served }
{}

/// With room for one context the machine is never stuck: where no event is allowed that takes nothing of the input, it is at rest.
pub fn never_stuck()
    ensures { (run : AcceptedRun) → 0 < run.rules.limit
        → ((e : Happening) → IsWork e → Allowed run.rules e (end_of run) → ⊥) → IsAtRest (end_of run) }
{}

/// Each event that takes nothing of the input takes exactly one from the work left. What was said so far is no part of it:
/// it is computed from the control and the cells alone. At rest none is left.
pub fn work_falls()
    ensures falls { (run : AcceptedRun) (e : Happening) → IsWork e → Allowed run.rules e (end_of run)
        → suc (work run.program (end_with run e)) ≡ work run.program (end_of run) }
    ensures silent { (p : Program) (part : Part) → AreAccepted p → part_work p part ≡ part_work p (silent_part part) }
    ensures rest { (p : Program) (m : Machine) → IsAtRest m → work p m ≡ 0 }
{}

/// Where nothing is in flight and every marker is sent, the machine is at rest, and only there. No key waits to fire there.
pub fn rest_is_seen_from_outside()
    ensures enough { (run : AcceptedRun) → in_flight (end_of run) ≡ 0 → (end_of run).unsent ≡ [] → IsAtRest (end_of run) }
    ensures needed { (m : Machine) → IsAtRest m → (in_flight m ≡ 0) × (m.unsent ≡ []) × NoneIsIdle m }
    ensures none_must { (run : AcceptedRun) → IsAtRest (end_of run) → (end_of run).must ≡ None }
{}

/// A closed epoch is finished exactly where no context of a row of it or of an earlier one is in flight, and no mark of them is left:
/// a firing is covered by its mark.
pub fn finished_epochs_count_nothing()
    ensures finished { (e : ℕ) (m : Machine) → IsFinished e m → (u : ℕ) → u ≤ e → epoch_count u m ≡ 0 }
    ensures counts { (run : AcceptedRun) (e : ℕ) → ((u : ℕ) → u ≤ e → epoch_count u (end_of run) ≡ 0) → IsFinished e (end_of run) }
{}

/// What was written grows by just what an event's outcome says.
pub fn outcomes_are_written()
    ensures { (g : ℕ) (p : Program) (e : Happening) (m : Machine) → (happens g p e m).written ≡ m.written ++ (outcome g p e m).entries }
{}

/// Which events are allowed is decided by a test over the keys of rows.
pub fn allowed_is_decided()
    ensures passes { (r : Rules) (m : Machine) (e : Happening) → Allowed r e m → allowed r e m ≡ true }
    ensures is_so { (run : AcceptedRun) (e : Happening) → allowed run.rules e (end_of run) ≡ true → Allowed run.rules e (end_of run) }
    ensures run { (r : Rules) (g : ℕ) (p : Program) (from : Origin) (es : List Happening) → AreAccepted p → IsOrigin p from
        → runs r g p es (machine_from from) ≡ true → IsRun r g p es (machine_from from) }
    ensures is_passed { (r : Rules) (g : ℕ) (p : Program) (es : List Happening) (m : Machine) → IsRun r g p es m → runs r g p es m ≡ true }
{}

/// Each event of a key but Serve looks at its control alone, at no cell and at nothing that was said; so do the lines and the
/// requests of a callback. Serve takes one answer of the cells.
pub fn events_see_the_control()
    ensures admit { (n e : ℕ) (f : Facts) → SeesControl (admit n e f) }
    ensures mark { (e : ℕ) (w : ℤ) (more : ℕ) → SeesControl (mark e w more) }
    ensures fire { (n : ℕ) → SeesControl (fire n) }
    ensures start { (p : Program) → SeesControl (start p) }
    ensures deliver { (slot : ℕ) → SeesControl (deliver slot) }
    ensures serve { (slot : ℕ) (part : Part) → control_of (serve slot part) ≡ keeps_answer slot (owner_answer slot part.owner part.said.state.cells) (control_of part) }
    ensures started { (p : Program) (part : Part) → start_effects p part ≡ start_effects p (bare (control_of part)) }
    ensures delivered { (slot : ℕ) (part : Part) → deliver_effects slot part ≡ deliver_effects slot (bare (control_of part)) }
{}
