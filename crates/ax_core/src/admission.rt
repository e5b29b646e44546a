//! Rows come in.
ghost use Rattle.std.specs.Prelude.{◌≡◌, ◌<◌, ◌^◌, ◌++◌, ◌↔◌, true, length, IsTrue, IfOk, OnOk};
ghost use Rattle.ax_context.specs.Slots.{live_count};
ghost use Rattle.ax_account.specs.Accounts.{AreSound};
ghost use Rattle.ax_time.specs.Epochs.{current_of, count_of, IsOpen};
ghost use Rattle.ax_execution.specs.Machine.{Admit};
ghost use Rattle.ax_execution.specs.MachineControls.{MachineControl};
ghost use Rattle.ax_execution.specs.OwedChanges.{is_free_on};
ghost use Rattle.ax_core.specs.Views.{outs_of};
ghost use Rattle.ax_core.specs.May.{may_admit};
ghost use Rattle.ax_core.specs.Sound.{StandsFor, IsSound};
ghost use Rattle.ax_core.specs.Events.{SameRules, KeysStay, Makes, MayAdmitOn};
ghost use Rattle.ax_core.specs.Order.{Posts, begins_where, idle_in};
ghost use Rattle.ax_core.specs.Numbers.{IsNumbered};
ghost use Rattle.ax_core.specs.Admissions.{row_record, start_mails, TakesIn};

use crate::controller::Controller;
use crate::record::Record;
use ax_account::Occupied;
use ax_base::{NoMemory, Nums};
use ax_context::Id;
use ax_future::{Facts, Handler};
use ax_keys::Key;
use ax_lang::program_is_accepted;
use ax_mailbox::{Mail, Mailbox};
use ax_time::epoch_laws::sizes_law;

impl Controller {
    /// Whether a row may come in: no barrier waits to be sent, in serial mode no marker, there is room for one more context,
    /// and no key is idle, that is, waits for a context in which a timer fires.
    pub fn may_admit(&self) -> bool
        ensures value { result ≡ may_admit self.now }
        ensures exact { (m : MachineControl) → IsSound self.now → StandsFor self.now m → IsTrue result ↔ MayAdmitOn self.now m }
    {
        self.admits()
    }

    // The same test.
    #[tactic(auto, using(crate::proofs::Open::none_first))]
    fn admits(&self) -> bool
        ensures value { result ≡ may_admit self.now }
        ensures sound { AreSound self.now.accounts }
    {
        let idle = self.accounts.first_idle().is_some();
        self.may_close() && self.contexts.len() < self.contexts.limit() && !idle
    }

    /// A row comes in, as a context of the current epoch. It owns a key that is free, and its start mail is posted; else it
    /// waits, the last of all. Gives the number of its context.
    ///
    /// Condition: `may_admit()`. There should be as many values as the program has fields: one that is absent counts as 0.
    pub fn admit(&mut self, key: Key, time: i64, values: Nums) -> Result<u64, NoMemory>
        requires sound { IsSound self.old }
        requires may { may_admit self.old ≡ true }
        ensures sound { OnOk result (IsSound self.new) }
        ensures same { OnOk result (SameRules self.old self.new) }
        ensures outs { OnOk result (outs_of self.new ≡ outs_of self.old) }
        ensures keys { OnOk result (KeysStay self.old self.new) }
        ensures order { IfOk result (λ n. (m : MachineControl) → StandsFor self.old m → Posts self.old self.new (begins_where (is_free_on (m.controls key)) n)) }
        ensures idle { OnOk result (idle_in self.new ≡ idle_in self.old) }
        ensures number { IfOk result (λ n. IsNumbered self.old self.new n) }
        ensures event { IfOk result (λ n. (m : MachineControl) → StandsFor self.old m → Makes self.old self.new (Admit n key time values) m) }
    {
        sizes_law(&self.epochs);
        program_is_accepted();
        let record = self.on_row(key, time, values);
        let id = self.take_in(record)?;
        Ok(self.contexts.number(id))
    }

    // A row that hasn't begun.
    fn on_row(&self, key: Key, time: i64, values: Nums) -> Record
        ensures { result ≡ row_record key time self.now.wm values }
    {
        let facts = Facts {
            key,
            time,
            wm: self.wm,
            values,
        };
        Record {
            facts,
            handler: Handler::Row,
            machine: None,
        }
    }

    // A context of the current epoch comes for its key.
    fn take_in(&mut self, r: Record) -> Result<Id, NoMemory>
        requires room { live_count self.old.contexts < self.old.contexts.limit }
        requires open { IsOpen self.old.epochs (current_of self.old.epochs) }
        requires few { count_of self.old.epochs (current_of self.old.epochs) < 2 ^ 63 }
        requires mails { length self.old.mails.mails < self.old.mails.room }
        ensures { IfOk result (λ id. TakesIn self.old self.new r id) }
    {
        let epoch = self.epochs.current();
        let id = self.contexts.make(r, epoch);
        let taken = self.accounts.occupy(&self.contexts.get(id).facts.key, id)?;
        self.epochs.enter(epoch);
        start_owner(&mut self.mails, taken, id);
        Ok(id)
    }
}

// An owner is to be started.
fn start_owner(mails: &mut Mailbox, taken: Occupied, id: Id)
    requires { length mails.old.mails < mails.old.room }
    ensures mails { mails.new.mails ≡ mails.old.mails ++ start_mails taken id }
    ensures room { mails.new.room ≡ mails.old.room }
{
    if let Occupied::Owner = taken {
        mails.post(Mail::Start { id });
    }
}
