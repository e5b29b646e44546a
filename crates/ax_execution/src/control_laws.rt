//! Laws of the controls that are reached: by events that are allowed each at its place, from an origin, whatever the cells answered.
ghost use Rattle.std.specs.Prelude.{◌≡◌, ◌↔◌, ℕ, ◌+◌, ◌≤◌, ◌<◌, List, [], ◌∷◌, length, true, Option, Some, None};
ghost use Rattle.ax_text.specs.declared.vocabulary.Answer.{Answer};
ghost use Rattle.ax_text.specs.Programs.{Program};
ghost use Rattle.ax_text.specs.Controls.{slots};
ghost use Rattle.ax_text.specs.Underway.{SlotsRise, Differ};
ghost use Rattle.ax_machine.specs.Entries.{Key};
ghost use Rattle.ax_execution.specs.Accepted.{AreAccepted};
ghost use Rattle.ax_execution.specs.Asks.{owner_waits, waits_behind, AreOutside, slots_beside};
ghost use Rattle.ax_execution.specs.Contexts.{Running, Begun, Context};
ghost use Rattle.ax_execution.specs.Counts.{references, one_if_gone, made, made_as, counted};
ghost use Rattle.ax_execution.specs.Origins.{Origin, IsOrigin};
ghost use Rattle.ax_execution.specs.Machine.{Closed, Happening, Start, Deliver, Rules, machine_from, machine_of, IsWork};
ghost use Rattle.ax_execution.specs.Allowed.{IsRun};
ghost use Rattle.ax_execution.specs.MachineControls.{MachineControl, control_of_machine, at_origin, happens_on, outcome_on, in_flight_on, epoch_count_on, number_count_on, reference_count_on};
ghost use Rattle.ax_execution.specs.ControlsAllowed.{NoneIsIdleOn, IsFinishedOn, FirstIsFinishedOn, AllowedOn, IsAnswered, allowed_on, over_keys, HoldBusy};
ghost use Rattle.ax_execution.specs.ControlChanges.{calls_on, enters, leaves};
ghost use Rattle.ax_execution.specs.ControlOrder.{IsInOrder, AreSound};
ghost use Rattle.ax_execution.specs.ControlRest.{IsAtRestOn};
ghost use Rattle.ax_execution.specs.Reached.{IsReached, owed_in, IsOrderly};
ghost use Rattle.ax_execution.specs.OwedChanges.{owed_more, owed_less};

/// An origin is reached, and so is what is behind an event that is allowed, with any answer where it serves a request.
pub fn reached_controls_go_on()
    ensures origin { (r : Rules) (p : Program) (from : Origin) → IsOrigin p from → IsReached r p (at_origin from) }
    ensures event { (r : Rules) (p : Program) (e : Happening) (a : Option Answer) (m : MachineControl) → IsReached r p m → AllowedOn r e m → IsAnswered e a → IsReached r p (happens_on p e a m) }
{}

/// A run of the machine reaches its control.
pub fn machines_reach_controls()
    ensures { (r : Rules) (g : ℕ) (p : Program) (from : Origin) (es : List Happening) → IsOrigin p from → IsRun r g p es (machine_from from) → IsReached r p (control_of_machine (machine_of g p from es)) }
{}

/// Never more contexts are in flight than the limit, no two have one number, a row waits only behind an owner or for a firing that must
/// come next, and for that firing there is room; a mark in front of a key that nobody owns may fire, and the mark of a firing stays in front
/// of its key; a handler that has begun isn't done, and has answers only at slots that wait; what is left is of epochs whose marker isn't
/// sent, and marks are of closed ones; the closed epochs whose markers aren't sent follow one another up to the current one; the times of
/// each key rise, and so do the keys of rows; a key that isn't among them has no owner, nothing that waits and no timer, so sums over them are sums over all
/// keys.
pub fn reached_controls_are_orderly()
    ensures orderly { (r : Rules) (p : Program) (m : MachineControl) → AreAccepted p → IsReached r p m → IsOrderly r m }
    ensures in_order { (r : Rules) (p : Program) (m : MachineControl) → AreAccepted p → IsReached r p m → IsInOrder r m }
    ensures sound { (r : Rules) (p : Program) (m : MachineControl) → AreAccepted p → IsReached r p m → AreSound m }
    ensures busy { (r : Rules) (p : Program) (m : MachineControl) → AreAccepted p → IsReached r p m → HoldBusy m.keys m }
{}

/// Owners gain one reference for each new owner and for each request that is asked, and lose one for each callback that ends. A row that
/// comes is a new owner where its key is free, a firing always is, and so is a row that takes a key behind a context that is given up.
pub fn owners_gain_and_lose()
    ensures { (r : Rules) (p : Program) (e : Happening) (a : Option Answer) (m : MachineControl) → AreAccepted p → IsReached r p m → AllowedOn r e m
        → owed_in (happens_on p e a m) + owed_less e ≡ owed_in m + owed_more p e m (happens_on p e a m) }
{}

/// Admit and Fire make one context, one is given up exactly where the outcome says so, and references rise by what is asked and fall by one
/// as a callback ends. Nothing else changes how many contexts are in flight or have a number, nor their references. Rows and marks enter an
/// epoch and leave it as in any control whose keys hold the busy ones.
pub fn reached_contexts_come_and_go()
    ensures flight { (r : Rules) (p : Program) (e : Happening) (a : Option Answer) (m : MachineControl) → AreAccepted p → IsReached r p m → AllowedOn r e m
        → in_flight_on (happens_on p e a m) + one_if_gone (outcome_on p e m).gone ≡ in_flight_on m + made e }
    ensures numbers { (r : Rules) (p : Program) (n : ℕ) (e : Happening) (a : Option Answer) (m : MachineControl) → AreAccepted p → IsReached r p m → AllowedOn r e m
        → number_count_on n (happens_on p e a m) + counted (calls_on n e m) (one_if_gone (outcome_on p e m).gone) ≡ number_count_on n m + made_as n e }
    ensures references { (r : Rules) (p : Program) (n : ℕ) (e : Happening) (a : Option Answer) (m : MachineControl) → AreAccepted p → IsReached r p m → AllowedOn r e m
        → reference_count_on n (happens_on p e a m) + counted (calls_on n e m) 1 ≡ reference_count_on n m + (made_as n e + counted (calls_on n e m) (length (outcome_on p e m).asks)) }
    ensures epochs { (r : Rules) (p : Program) (u : ℕ) (e : Happening) (a : Option Answer) (m : MachineControl) → AreAccepted p → IsReached r p m → AllowedOn r e m
        → epoch_count_on u (happens_on p e a m) + leaves u e (outcome_on p e m).gone m (happens_on p e a m) ≡ epoch_count_on u m + enters u e m }
{}

/// An epoch is finished exactly where no context of a row of it or of an earlier one is in flight, and no mark of them is left. So is each
/// whose marker was sent, and the oldest other one where nothing of its own is left.
pub fn finished_epochs_count_nothing()
    ensures finished { (e : ℕ) (m : MachineControl) → IsFinishedOn e m → (u : ℕ) → u ≤ e → epoch_count_on u m ≡ 0 }
    ensures counts { (r : Rules) (p : Program) (m : MachineControl) (e : ℕ) → AreAccepted p → IsReached r p m → ((u : ℕ) → u ≤ e → epoch_count_on u m ≡ 0) → IsFinishedOn e m }
    ensures sent { (r : Rules) (p : Program) (m : MachineControl) (e : ℕ) → AreAccepted p → IsReached r p m → e + length m.unsent < m.epoch → IsFinishedOn e m }
    ensures first { (r : Rules) (p : Program) (m : MachineControl) (c : Closed) (cs : List Closed) → AreAccepted p → IsReached r p m → m.unsent ≡ c ∷ cs → epoch_count_on c.epoch m ≡ 0 → IsFinishedOn c.epoch m }
{}

/// Which events are allowed is decided by the test over the keys of rows, or over any others that rise and hold the busy ones.
pub fn reached_events_are_decided()
    ensures passes { (r : Rules) (p : Program) (m : MachineControl) (e : Happening) → AreAccepted p → IsReached r p m → AllowedOn r e m → allowed_on r e m ≡ true }
    ensures is_so { (r : Rules) (p : Program) (m : MachineControl) (e : Happening) → AreAccepted p → IsReached r p m → allowed_on r e m ≡ true → AllowedOn r e m }
    ensures busy { (r : Rules) (e : Happening) (ks : List Key) (m : MachineControl) → HoldBusy ks m → HoldBusy m.keys m → allowed_on r e (over_keys ks m) ≡ allowed_on r e m }
{}

/// The owner of a key has a reference left, and waits at slots that differ. A context is in flight exactly while it has references, and it is
/// given up exactly at the event that leaves none.
pub fn reached_references_are_counted()
    ensures slots { (r : Rules) (p : Program) (m : MachineControl) (k : Key) (c : Context) (running : Running) → AreAccepted p → IsReached r p m
        → (m.controls k).owner ≡ Some c → c.stage ≡ Begun running → Differ (slots running.control) }
    ensures referred { (r : Rules) (p : Program) (m : MachineControl) (k : Key) (c : Context) → AreAccepted p → IsReached r p m → (m.controls k).owner ≡ Some c → 0 < references c.stage }
    ensures live { (r : Rules) (p : Program) (m : MachineControl) (n : ℕ) → AreAccepted p → IsReached r p m
        → (number_count_on n m ≡ 0 → reference_count_on n m ≡ 0) × (reference_count_on n m ≡ 0 → number_count_on n m ≡ 0) }
    ensures gone { (r : Rules) (p : Program) (m : MachineControl) (e : Happening) (a : Option Answer) (n : ℕ) → AreAccepted p → IsReached r p m → AllowedOn r e m
        → calls_on n e m ≡ true → (outcome_on p e m).gone ≡ true → reference_count_on n (happens_on p e a m) ≡ 0 }
    ensures last { (r : Rules) (p : Program) (m : MachineControl) (e : Happening) (a : Option Answer) (n : ℕ) → AreAccepted p → IsReached r p m → AllowedOn r e m
        → calls_on n e m ≡ true → reference_count_on n (happens_on p e a m) ≡ 0 → (outcome_on p e m).gone ≡ true }
{}

/// What a callback asks is what its context waits for behind it and did not before: at its start just that, at a delivery that in the
/// place of what was answered. Its slots rise, and none is one that still waits. No other event asks, nor changes what waits.
pub fn reached_asks_are_what_waits()
    ensures waits { (r : Rules) (p : Program) (m : MachineControl) (e : Happening) (a : Option Answer) (k : Key) → AreAccepted p → IsReached r p m → AllowedOn r e m
        → owner_waits ((happens_on p e a m).controls k).owner ≡ waits_behind k e (outcome_on p e m).asks (owner_waits (m.controls k).owner) }
    ensures rise { (r : Rules) (p : Program) (m : MachineControl) (e : Happening) → AreAccepted p → IsReached r p m → AllowedOn r e m → SlotsRise (outcome_on p e m).asks }
    ensures new { (r : Rules) (p : Program) (m : MachineControl) (k : Key) (slot : ℕ) → AreAccepted p → IsReached r p m → AllowedOn r (Deliver k slot) m
        → AreOutside (slots_beside slot (owner_waits (m.controls k).owner)) (outcome_on p (Deliver k slot) m).asks }
    ensures none { (p : Program) (e : Happening) (m : MachineControl) → ((k : Key) → e ≡ Start k → ⊥) → ((k : Key) (slot : ℕ) → e ≡ Deliver k slot → ⊥) → (outcome_on p e m).asks ≡ [] }
{}

/// With room for one context a control is never stuck: where no event is allowed that takes nothing of the input, nothing is in flight, every
/// key is free and every marker is sent; and there none is allowed. Between two callbacks nothing is in flight exactly where no request waits
/// and no handler is to begin; where besides no key may fire and no marker is to be sent, nothing is left. Nothing is left exactly where
/// nothing is in flight and every marker is sent, and there no key waits to fire.
pub fn reached_controls_are_never_stuck()
    ensures stuck { (r : Rules) (p : Program) (m : MachineControl) → AreAccepted p → IsReached r p m → 0 < r.limit
        → ((e : Happening) → IsWork e → AllowedOn r e m → ⊥) → IsAtRestOn m }
    ensures blocked { (r : Rules) (m : MachineControl) (e : Happening) → IsAtRestOn m → IsWork e → AllowedOn r e m → ⊥ }
    ensures owed { (r : Rules) (p : Program) (m : MachineControl) → AreAccepted p → IsReached r p m → m.must ≡ None → (owed_in m ≡ 0) ↔ (in_flight_on m ≡ 0) }
    ensures quiet { (r : Rules) (p : Program) (m : MachineControl) → AreAccepted p → IsReached r p m → in_flight_on m ≡ 0
        → NoneIsIdleOn m → (FirstIsFinishedOn m.unsent m → ⊥) → IsAtRestOn m }
    ensures enough { (r : Rules) (p : Program) (m : MachineControl) → AreAccepted p → IsReached r p m → in_flight_on m ≡ 0 → m.unsent ≡ [] → IsAtRestOn m }
    ensures needed { (m : MachineControl) → IsAtRestOn m → (in_flight_on m ≡ 0) × (m.unsent ≡ []) × NoneIsIdleOn m }
{}
