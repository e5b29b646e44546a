//! Timers fire.
ghost use Rattle.std.specs.Prelude.{◌≡◌, ◌<◌, ◌↔◌, ◌∷◌, [], length, true, None, IsTrue, IsSome, IfOk, OnOk};
ghost use Rattle.ax_text.specs.Times.{least_time};
ghost use Rattle.ax_time.specs.Timers.{times_of};
ghost use Rattle.ax_context.specs.Slots.{live_count};
ghost use Rattle.ax_account.specs.Parts.{next_of, may_fire as mark_may_fire};
ghost use Rattle.ax_account.specs.Accounts.{owner_of, waiting_of, AreSound};
ghost use Rattle.ax_execution.specs.MachineControls.{MachineControl};
ghost use Rattle.ax_core.specs.Views.{outs_of};
ghost use Rattle.ax_core.specs.May.{may_fire};
ghost use Rattle.ax_core.specs.Sound.{StandsFor, IsSound};
ghost use Rattle.ax_core.specs.Events.{SameRules, KeysStay, Fires, MayFireOn};
ghost use Rattle.ax_core.specs.declared.effects.Ran.TheVariants as ran;
ghost use Rattle.ax_core.specs.Order.{Posts, idle_in};
ghost use Rattle.ax_core.specs.Numbers.{IsNumbered};
ghost use Rattle.ax_core.specs.Firings.{FiresAt};

use crate::controller::Controller;
use crate::effects::Fired;
use crate::record::Record;
use ax_account::Next;
use ax_base::{Duplicate, NoMemory, Nums};
use ax_future::{Facts, Handler};
use ax_keys::Key;
use ax_lang::program_is_accepted;
use ax_mailbox::Mail;

impl Controller {
    /// Whether the key that has been idle longest may fire: a key is idle, and there is room for one more context.
    pub fn may_fire(&self) -> bool
        ensures value { result ≡ may_fire self.now }
        ensures exact { (m : MachineControl) → IsSound self.now → StandsFor self.now m → IsTrue result ↔ MayFireOn self.now m }
    {
        self.fires()
    }

    // The same test.
    #[tactic(auto, using(crate::proofs::Open::none_first))]
    fn fires(&self) -> bool
        ensures value { result ≡ may_fire self.now }
        ensures sound { AreSound self.now.accounts }
    {
        let idle = self.accounts.first_idle().is_some();
        self.contexts.len() < self.contexts.limit() && idle
    }

    /// The key that has been idle longest fires its least timer: a new context owns it, and its start mail is posted.
    ///
    /// Condition: `may_fire()`.
    pub fn fire_next(&mut self) -> Result<Fired, NoMemory>
        requires sound { IsSound self.old }
        requires may { may_fire self.old ≡ true }
        ensures sound { OnOk result (IsSound self.new) }
        ensures same { OnOk result (SameRules self.old self.new) }
        ensures outs { OnOk result (outs_of self.new ≡ outs_of self.old) }
        ensures keys { OnOk result (KeysStay self.old self.new) }
        ensures order { IfOk result (λ f. Posts self.old self.new (ran.Start f.context ∷ [])) }
        ensures idle { IfOk result (λ f. idle_in self.old ≡ f.key ∷ idle_in self.new) }
        ensures number { IfOk result (λ f. IsNumbered self.old self.new f.context) }
        ensures event { IfOk result (λ f. (m : MachineControl) → StandsFor self.old m → Fires self.old self.new f m) }
    {
        program_is_accepted();
        let Some(idle) = self.accounts.first_idle() else {
            unreachable!()
        };
        let key = idle.copy(self.alloc)?;
        let fired = self.fire(key)?;
        Ok(fired)
    }

    // The mark in front of a key fires the key's least timer.
    #[inline(never)]
    pub(crate) fn fire(&mut self, key: Key) -> Result<Fired, NoMemory>
        requires owner { owner_of self.old.accounts key ≡ None }
        requires mark { mark_may_fire (next_of (waiting_of self.old.accounts key)) ≡ true }
        requires timer { IsSome (least_time (times_of self.old.timers key)) }
        requires contexts { live_count self.old.contexts < self.old.contexts.limit }
        requires mails { length self.old.mails.mails < self.old.mails.room }
        ensures { IfOk result (λ f. FiresAt self.old self.new key f) }
    {
        let Next::Mark {
            epoch,
            time: mark,
            ..
        } = self.accounts.front(&key)
        else {
            unreachable!()
        };
        let Some(time) = self.timers.take_least(&key) else {
            unreachable!()
        };
        let named = key.copy(self.alloc)?;
        let facts = Facts {
            key,
            time,
            wm: mark,
            values: Nums::new(self.alloc),
        };
        let id = self.contexts.make(
            Record {
                facts,
                handler: Handler::Timer,
                machine: None,
            },
            epoch,
        );
        self.accounts.fire(&named, id);
        self.mails.post(Mail::Fire { id });
        Ok(Fired {
            context: self.contexts.number(id),
            key: named,
            time,
            mark,
        })
    }
}
