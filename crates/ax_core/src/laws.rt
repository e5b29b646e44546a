//! What holds of a controller between its calls. Each is the contract of a function that does nothing, which a caller's proof may cite.
ghost use Rattle.std.specs.Prelude.{◌≡◌, ◌↔◌, ◌<◌, ◌-◌, ◌^◌, ℕ, true, List, length};
ghost use Rattle.std.specs.List.{Contains, IsDistinct};
ghost use Rattle.ax_machine.specs.Entries.{Key};
ghost use Rattle.ax_execution.specs.Machine.{Happening, Start, Serve, Deliver, IsWork};
ghost use Rattle.ax_execution.specs.MachineControls.{MachineControl, in_flight_on};
ghost use Rattle.ax_execution.specs.ControlsAllowed.{AllowedOn};
ghost use Rattle.ax_execution.specs.ControlRest.{IsAtRestOn};
ghost use Rattle.ax_core.specs.Views.{settings_of};
ghost use Rattle.ax_core.specs.May.{may_admit};
ghost use Rattle.ax_core.specs.Sound.{rules_of, StandsFor, IsSound};
ghost use Rattle.ax_core.specs.declared.controller.Controller.{Controller as AnyController};
ghost use Rattle.ax_core.specs.Numbers.{NothingNumbered, Call, AreCalls, numbers_of, numbers_from};
ghost use Rattle.ax_core.specs.declared.effects.Ran.{Ran as AnyRan};
ghost use Rattle.ax_core.specs.declared.effects.Ran.TheVariants as ran;
ghost use Rattle.ax_core.specs.Order.{Asked, callbacks_in};
ghost use Rattle.ax_core.specs.Posted.{IsPosted, IsToRun, same_callback};
ghost use Rattle.ax_core.specs.Rest.{NothingIsOnTheWay, NothingIsLeft};
ghost use Rattle.ax_core.specs.Requests.{requests_in, all_requests, same_asked, IsQueuedOrOut, IsUnserved, IsToServe};

use crate::controller::Controller;
use ax_account::laws::accounts_law;
use ax_context::laws::numbers_law;

/// A request may be served exactly where it waits in the queue of its key's shard or is out of it: whatever was asked and wasn't
/// served stands there, nothing else does, and no request stands twice in all queues and batches together.
pub fn requests_stand_until_served(controller: &Controller)
    requires sound { IsSound controller.now }
    ensures served { (m : MachineControl) (key : Key) (slot : ℕ) → StandsFor controller.now m
        → AllowedOn (rules_of (settings_of controller.now)) (Serve key slot) m ↔ IsQueuedOrOut controller.now key slot (m.controls key).owner }
    ensures unserved { (m : MachineControl) (shard : ℕ) (r : Asked) → StandsFor controller.now m
        → Contains (requests_in controller.now shard) r ↔ IsUnserved controller.now m shard r }
    ensures all { (m : MachineControl) (r : Asked) → StandsFor controller.now m → Contains (all_requests controller.now) r ↔ IsToServe controller.now m r }
    ensures once { IsDistinct same_asked (all_requests controller.now) }
    ensures same { (r q : Asked) → (same_asked r q ≡ true) ↔ (r ≡ q) }
{
    numbers_law(&controller.contexts);
}

/// A handler may begin, or be given an answer, exactly where the mail for that waits in the mailbox: each mail is of the owner
/// of some key and may run, and no callback is posted twice.
pub fn callbacks_stand_until_run(controller: &Controller)
    requires sound { IsSound controller.now }
    ensures starts { (m : MachineControl) (key : Key) → StandsFor controller.now m
        → AllowedOn (rules_of (settings_of controller.now)) (Start key) m ↔ IsPosted controller.now (λ n. ran.Start n) (m.controls key).owner }
    ensures replies { (m : MachineControl) (key : Key) (slot : ℕ) → StandsFor controller.now m
        → AllowedOn (rules_of (settings_of controller.now)) (Deliver key slot) m ↔ IsPosted controller.now (λ n. ran.Reply n slot) (m.controls key).owner }
    ensures to_run { (m : MachineControl) (r : AnyRan) → StandsFor controller.now m → Contains (callbacks_in controller.now) r ↔ IsToRun controller.now m r }
    ensures once { IsDistinct same_callback (callbacks_in controller.now) }
    ensures same { (r q : AnyRan) → (same_callback r q ≡ true) ↔ (r ≡ q) }
{
    numbers_law(&controller.contexts);
}

/// The contexts that a run of calls makes, from a controller where none was made yet, get the numbers 1, 2, 3 and so on in the
/// order in which they are made, while there are fewer than `2^64 - 1` of them.
pub fn contexts_are_counted()
    ensures { (a : AnyController) (calls : List Call) → NothingNumbered a → AreCalls a calls → length (numbers_of calls) < 2 ^ 64 - 1
        → numbers_of calls ≡ numbers_from 1 (length (numbers_of calls)) }
{}

/// A controller is never stuck. While a context is in flight, a callback is to run, a request waits in a queue or one is out, and only then.
/// Where nothing is on its way, no key may fire and no marker is to be sent, there nothing is in flight, every key is free, every marker is
/// sent, and a row may come; and only there. That is exactly where the machine can do nothing by itself.
pub fn never_stuck(controller: &Controller)
    requires sound { IsSound controller.now }
    ensures flight { (m : MachineControl) → StandsFor controller.now m → NothingIsOnTheWay controller.now ↔ (in_flight_on m ≡ 0) }
    ensures rest { (m : MachineControl) → StandsFor controller.now m → 0 < (settings_of controller.now).in_flight → NothingIsLeft controller.now m ↔ IsAtRestOn m }
    ensures goes_on { (m : MachineControl) → StandsFor controller.now m → 0 < (settings_of controller.now).in_flight → NothingIsLeft controller.now m → may_admit controller.now ≡ true }
    ensures work { (m : MachineControl) → StandsFor controller.now m → 0 < (settings_of controller.now).in_flight
        → NothingIsLeft controller.now m ↔ ((e : Happening) → IsWork e → AllowedOn (rules_of (settings_of controller.now)) e m → ⊥) }
{
    accounts_law(&controller.accounts);
}
