//! Laws of the control: what of the machine a controller knows goes on by itself, whatever cells gave the answers.
ghost use Rattle.std.specs.Prelude.{◌≡◌, ℕ, ◌+◌, List, ◌++◌, length, Option, Some, None};
ghost use Rattle.ax_text.specs.declared.vocabulary.Answer.{Answer};
ghost use Rattle.ax_text.specs.declared.vocabulary.Request.{Request};
ghost use Rattle.ax_text.specs.Cells.{Cells, cells_after};
ghost use Rattle.ax_text.specs.Programs.{Program};
ghost use Rattle.ax_text.specs.Underway.{Differ};
ghost use Rattle.ax_text.specs.Controls.{request_at, slots};
ghost use Rattle.ax_machine.specs.Entries.{Key};
ghost use Rattle.ax_execution.specs.Accepted.{AreAccepted};
ghost use Rattle.ax_execution.specs.Sums.{total};
ghost use Rattle.ax_execution.specs.Contexts.{Running, Begun, Context};
ghost use Rattle.ax_execution.specs.Origins.{Origin, IsOrigin};
ghost use Rattle.ax_execution.specs.Machine.{Machine, Happening, Start, Serve, Deliver, Rules, must_fire, happens, after_all, outcome, machine_from, machine_of, in_flight, work};
ghost use Rattle.ax_execution.specs.Counts.{epoch_count, number_count, reference_count, one_if_gone, made, made_as, counted};
ghost use Rattle.ax_execution.specs.Runs.{AcceptedRun, end_of, end_with, outcome_at};
ghost use Rattle.ax_execution.specs.Allowed.{Allowed, IsRun};
ghost use Rattle.ax_execution.specs.Tests.{allowed};
ghost use Rattle.ax_execution.specs.ControlTurns.{contexts_on};
ghost use Rattle.ax_execution.specs.MachineControls.{MachineControl, control_of_machine, at_origin, must_fire_on, happens_on, answer_of_event, outcome_on, sent_entries, in_flight_on, control_of_epoch, epoch_count_on, control_numbered, number_count_on, control_references, reference_count_on, control_work, work_on};
ghost use Rattle.ax_execution.specs.ControlsAllowed.{AllowedOn, IsRunOn, after_all_on, with_answers, allowed_on, HoldBusy, AreAllKeys};
ghost use Rattle.ax_execution.specs.ControlOrder.{IsInOrder, IsSoundRunning, AreSound};
ghost use Rattle.ax_execution.specs.ControlChanges.{enters, leaves, calls_on};

/// The control of the machine behind an event is that event of its control, with the answer that the cells give where a request is
/// served; so is that behind many events, and that at an origin.
pub fn control_goes_by_itself()
    ensures event { (g : ℕ) (p : Program) (e : Happening) (m : Machine) → control_of_machine (happens g p e m) ≡ happens_on p e (answer_of_event e m) (control_of_machine m) }
    ensures events { (g : ℕ) (p : Program) (es : List Happening) (m : Machine) → control_of_machine (after_all g p es m) ≡ after_all_on p (with_answers g p es m) (control_of_machine m) }
    ensures origin { (from : Origin) → control_of_machine (machine_from from) ≡ at_origin from }
{}

/// What an event does besides is seen of the control: the lines that it writes, the requests that it asks, whether a context is given
/// up and which key must fire. Of the marker that it sends only the text takes more.
pub fn outcomes_see_the_control()
    ensures entries { (g : ℕ) (p : Program) (e : Happening) (m : Machine) → (outcome g p e m).entries ≡ (outcome_on p e (control_of_machine m)).lines ++ sent_entries g p (outcome_on p e (control_of_machine m)).sent m }
    ensures asks { (g : ℕ) (p : Program) (e : Happening) (m : Machine) → (outcome g p e m).asks ≡ (outcome_on p e (control_of_machine m)).asks }
    ensures gone { (g : ℕ) (p : Program) (e : Happening) (m : Machine) → (outcome g p e m).gone ≡ (outcome_on p e (control_of_machine m)).gone }
    ensures fires { (g : ℕ) (p : Program) (e : Happening) (m : Machine) → (outcome g p e m).fires ≡ (outcome_on p e (control_of_machine m)).fires }
{}

/// Whether an event is allowed is seen of the control, and so is whether events are a run, once each serve has its answer.
pub fn allowed_sees_the_control()
    ensures seen { (r : Rules) (e : Happening) (m : Machine) → Allowed r e m → AllowedOn r e (control_of_machine m) }
    ensures is_so { (r : Rules) (e : Happening) (m : Machine) → AllowedOn r e (control_of_machine m) → Allowed r e m }
    ensures test { (r : Rules) (e : Happening) (m : Machine) → allowed_on r e (control_of_machine m) ≡ allowed r e m }
    ensures run { (r : Rules) (g : ℕ) (p : Program) (es : List Happening) (m : Machine) → IsRun r g p es m → IsRunOn r p (with_answers g p es m) (control_of_machine m) }
    ensures is_run { (r : Rules) (g : ℕ) (p : Program) (es : List Happening) (m : Machine) → IsRunOn r p (with_answers g p es m) (control_of_machine m) → IsRun r g p es m }
{}

/// The contexts in flight, the rows and marks of an epoch, and the contexts and references of a number are seen of the control.
pub fn counts_see_the_control()
    ensures flight { (m : Machine) → in_flight_on (control_of_machine m) ≡ in_flight m }
    ensures epochs { (u : ℕ) (m : Machine) → epoch_count_on u (control_of_machine m) ≡ epoch_count u m }
    ensures numbers { (n : ℕ) (m : Machine) → number_count_on n (control_of_machine m) ≡ number_count n m }
    ensures references { (n : ℕ) (m : Machine) → reference_count_on n (control_of_machine m) ≡ reference_count n m }
{}

/// These counts are the same over any rising keys that hold each key with an owner or with something that waits. The keys of rows do.
pub fn busy_keys_are_enough()
    ensures flight { (ks : List Key) (m : MachineControl) → HoldBusy ks m → HoldBusy m.keys m → total ks (λ k. contexts_on (m.controls k)) ≡ in_flight_on m }
    ensures epochs { (u : ℕ) (ks : List Key) (m : MachineControl) → HoldBusy ks m → HoldBusy m.keys m → total ks (λ k. control_of_epoch u (m.controls k)) ≡ epoch_count_on u m }
    ensures numbers { (n : ℕ) (ks : List Key) (m : MachineControl) → HoldBusy ks m → HoldBusy m.keys m → total ks (λ k. control_numbered n (m.controls k)) ≡ number_count_on n m }
    ensures references { (n : ℕ) (ks : List Key) (m : MachineControl) → HoldBusy ks m → HoldBusy m.keys m → total ks (λ k. control_references n (m.controls k)) ≡ reference_count_on n m }
    ensures keys { (run : AcceptedRun) → HoldBusy (end_of run).keys (control_of_machine (end_of run)) }
{}

/// A control's keys are all that have an owner, something that waits or a timer: at an origin, and behind each event that is allowed. So they
/// hold the busy ones.
pub fn keys_stay_all()
    ensures origin { (p : Program) (from : Origin) → IsOrigin p from → AreAllKeys (at_origin from) }
    ensures event { (r : Rules) (p : Program) (e : Happening) (a : Option Answer) (m : MachineControl) → AreAllKeys m → AllowedOn r e m → AreAllKeys (happens_on p e a m) }
    ensures busy { (m : MachineControl) → AreAllKeys m → HoldBusy m.keys m }
{}

/// At an origin a control is in order, and it stays so behind each event that is allowed, whatever answers come: contexts in flight are at
/// most the limit, a handler that has begun isn't done, the front mark of a key without owner may fire, rows wait only behind an owner or
/// where their own key must fire, and for that firing there is room. So is the control of each run.
pub fn controls_stay_in_order()
    ensures origin { (r : Rules) (p : Program) (from : Origin) → IsOrigin p from → IsInOrder r (at_origin from) }
    ensures event { (r : Rules) (p : Program) (e : Happening) (a : Option Answer) (m : MachineControl) → IsInOrder r m → AllowedOn r e m → IsInOrder r (happens_on p e a m) }
    ensures run { (run : AcceptedRun) → IsInOrder run.rules (control_of_machine (end_of run)) }
{}

/// Whatever answers come, the arms of a handler on its way stay apart and wait at different slots, it waits unless it is done, and answers
/// stand only at slots that wait. So it is in the control of each run.
pub fn handlers_stay_sound()
    ensures origin { (from : Origin) → AreSound (at_origin from) }
    ensures event { (r : Rules) (p : Program) (e : Happening) (a : Option Answer) (m : MachineControl) → AreAccepted p → AreSound m → AllowedOn r e m → AreSound (happens_on p e a m) }
    ensures slots { (running : Running) → IsSoundRunning running → Differ (slots running.control) }
    ensures run { (run : AcceptedRun) → AreSound (control_of_machine (end_of run)) }
{}

/// Only a serve changes cells, and only those of its key: by what is asked at its slot.
pub fn only_serves_change_cells()
    ensures others { (g : ℕ) (p : Program) (e : Happening) (m : Machine) (k : Key) → ((slot : ℕ) → e ≡ Serve k slot → ⊥) → ((happens g p e m).parts k).said.state.cells ≡ (m.parts k).said.state.cells }
    ensures served { (g : ℕ) (p : Program) (m : Machine) (k : Key) (slot : ℕ) (c : Context) (running : Running) (q : Request)
        → (m.parts k).owner ≡ Some c → c.stage ≡ Begun running → request_at running.control slot ≡ Some q
        → ((happens g p (Serve k slot) m).parts k).said.state.cells ≡ cells_after q (m.parts k).said.state.cells }
{}

/// A row enters its epoch as it is admitted, and marks as their watermark closes it, one for each key where it stays. A row leaves as it
/// is given up, and with a row or a firing that is given up leave the marks behind it that don't fire. Nothing else changes how many rows
/// and marks an epoch has.
pub fn epochs_gain_and_lose()
    ensures control { (r : Rules) (p : Program) (u : ℕ) (e : Happening) (a : Option Answer) (m : MachineControl) → HoldBusy m.keys m → AllowedOn r e m
        → epoch_count_on u (happens_on p e a m) + leaves u e (outcome_on p e m).gone m (happens_on p e a m) ≡ epoch_count_on u m + enters u e m }
    ensures run { (run : AcceptedRun) (e : Happening) (u : ℕ) → Allowed run.rules e (end_of run)
        → epoch_count u (end_with run e)
        + leaves u e (outcome_at run e).gone (control_of_machine (end_of run)) (control_of_machine (end_with run e))
        ≡ epoch_count u (end_of run) + enters u e (control_of_machine (end_of run)) }
{}

/// Behind a callback its key must fire exactly where it is idle there, and behind any other event that is allowed no key must. The outcome
/// says which.
pub fn callbacks_say_who_must_fire()
    ensures start { (p : Program) (k : Key) (a : Option Answer) (m : MachineControl) → (happens_on p (Start k) a m).must ≡ must_fire_on k ((happens_on p (Start k) a m).controls k) }
    ensures deliver { (p : Program) (k : Key) (slot : ℕ) (a : Option Answer) (m : MachineControl) → (happens_on p (Deliver k slot) a m).must ≡ must_fire_on k ((happens_on p (Deliver k slot) a m).controls k) }
    ensures none { (r : Rules) (p : Program) (e : Happening) (a : Option Answer) (m : MachineControl) → AllowedOn r e m
        → ((k : Key) → e ≡ Start k → ⊥) → ((k : Key) (slot : ℕ) → e ≡ Deliver k slot → ⊥) → (happens_on p e a m).must ≡ None }
    ensures machine_start { (g : ℕ) (p : Program) (k : Key) (m : Machine) → (happens g p (Start k) m).must ≡ must_fire k ((happens g p (Start k) m).parts k) }
    ensures machine_deliver { (g : ℕ) (p : Program) (k : Key) (slot : ℕ) (m : Machine) → (happens g p (Deliver k slot) m).must ≡ must_fire k ((happens g p (Deliver k slot) m).parts k) }
    ensures machine_none { (r : Rules) (g : ℕ) (p : Program) (e : Happening) (m : Machine) → Allowed r e m
        → ((k : Key) → e ≡ Start k → ⊥) → ((k : Key) (slot : ℕ) → e ≡ Deliver k slot → ⊥) → (happens g p e m).must ≡ None }
    ensures says { (r : Rules) (p : Program) (e : Happening) (a : Option Answer) (m : MachineControl) → AllowedOn r e m → (outcome_on p e m).fires ≡ (happens_on p e a m).must }
    ensures says_none { (p : Program) (e : Happening) (m : MachineControl) → ((k : Key) → e ≡ Start k → ⊥) → ((k : Key) (slot : ℕ) → e ≡ Deliver k slot → ⊥) → (outcome_on p e m).fires ≡ None }
    ensures machine_says { (r : Rules) (g : ℕ) (p : Program) (e : Happening) (m : Machine) → Allowed r e m → (outcome g p e m).fires ≡ (happens g p e m).must }
    ensures machine_says_none { (g : ℕ) (p : Program) (e : Happening) (m : Machine) → ((k : Key) → e ≡ Start k → ⊥) → ((k : Key) (slot : ℕ) → e ≡ Deliver k slot → ⊥) → (outcome g p e m).fires ≡ None }
{}

/// The work left is computed from the control and the cells alone, and over any rising keys that hold the busy ones.
pub fn work_sees_the_control()
    ensures control { (p : Program) (m : Machine) → AreAccepted p → work_on p (λ k. (m.parts k).said.state.cells) (control_of_machine m) ≡ work p m }
    ensures busy { (p : Program) (cells : Key → Cells) (m : MachineControl) (ks : List Key) → HoldBusy ks m → HoldBusy m.keys m
        → total ks (λ k. control_work p (m.controls k) (cells k)) + length m.unsent ≡ work_on p cells m }
{}
