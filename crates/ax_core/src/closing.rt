//! Epochs are closed, and their markers are sent.
ghost use Rattle.std.specs.Prelude.{◌≡◌, ◌↔◌, ◌+◌, ◌≤◌, ◌<◌, ◌^◌, ◌<ℤ◌, [], length, true, IsTrue, OnOk};
ghost use Rattle.ax_account.specs.Parts.{is_free};
ghost use Rattle.ax_account.specs.Accounts.{part_of};
ghost use Rattle.ax_execution.specs.Machine.{Close, ByWatermark, ByBarrier};
ghost use Rattle.ax_execution.specs.MachineControls.{MachineControl};
ghost use Rattle.ax_execution.specs.ControlsAllowed.{IsOpenOn};
ghost use Rattle.ax_core.specs.Views.{outs_of, settings_of};
ghost use Rattle.ax_core.specs.May.{may_close, IsNext};
ghost use Rattle.ax_core.specs.Epochs.{closing_of};
ghost use Rattle.ax_core.specs.Closings.{barrier_left, Marks, MarksIf, MarksAll, books, current_count, every};
ghost use Rattle.ax_core.specs.Sound.{rules_of, StandsFor, IsSound};
ghost use Rattle.ax_core.specs.Events.{SameRules, KeysStay, Makes, SendsNext};
ghost use Rattle.ax_core.specs.Numbers.{NoneNumbered};
ghost use Rattle.ax_core.specs.Order.{Posts, idle_in, BecomeIdle, IdleBehind};

use crate::controller::Controller;
use ax_account::Accounting;
use ax_base::NoMemory;
use ax_keys::Key;
use ax_time::epoch_laws::{counts_stay_law, one_epoch_law, sizes_law};
use ax_time::{Epochs, Marker};
use std::mem::size_of_val;

impl Controller {
    /// Whether an epoch may be closed: no barrier waits to be sent, and in serial mode no marker.
    pub fn may_close(&self) -> bool
        ensures value { result ≡ may_close self.now }
        ensures exact { (m : MachineControl) → StandsFor self.now m → IsTrue result ↔ IsOpenOn (rules_of (settings_of self.now)) m }
    {
        self.is_open()
    }

    // The same test.
    #[tactic(auto, using(crate::proofs::Open::none_pending))]
    fn is_open(&self) -> bool
        ensures { result ≡ may_close self.now }
    {
        !self.barrier && (!self.settings.serial || self.epochs.pending() == 0)
    }

    /// Ends the current epoch. A watermark waits, as a mark, at each key that isn't free and at each with a timer that is due.
    ///
    /// Conditions: `may_close()`, and a watermark is greater than `wm()`.
    pub fn close(&mut self, m: Marker) -> Result<(), NoMemory>
        requires sound { IsSound self.old }
        requires may { may_close self.old ≡ true }
        requires next { IsNext self.old m }
        ensures sound { OnOk result (IsSound self.new) }
        ensures same { OnOk result (SameRules self.old self.new) }
        ensures outs { OnOk result (outs_of self.new ≡ outs_of self.old) }
        ensures keys { OnOk result (KeysStay self.old self.new) }
        ensures order { OnOk result (Posts self.old self.new []) }
        ensures number { OnOk result (NoneNumbered self.old self.new) }
        ensures idle { OnOk result ((c : MachineControl) → StandsFor self.old c → IdleBehind self.old self.new m c) }
        ensures event { OnOk result ((c : MachineControl) → StandsFor self.old c → Makes self.old self.new (Close (closing_of m)) c) }
    {
        match m {
            Marker::Mark { time } => self.close_by_watermark(time),
            Marker::Barrier { id } => self.close_by_barrier(id),
        }
    }

    // Ends the current epoch with a watermark.
    fn close_by_watermark(&mut self, time: i64) -> Result<(), NoMemory>
        requires sound { IsSound self.old }
        requires may { may_close self.old ≡ true }
        requires next { self.old.wm <ℤ time }
        ensures sound { OnOk result (IsSound self.new) }
        ensures same { OnOk result (SameRules self.old self.new) }
        ensures outs { OnOk result (self.new.outs ≡ self.old.outs) }
        ensures keys { OnOk result (KeysStay self.old self.new) }
        ensures order { OnOk result (Posts self.old self.new []) }
        ensures number { OnOk result (NoneNumbered self.old self.new) }
        ensures idle { OnOk result ((c : MachineControl) → StandsFor self.old c → BecomeIdle self.old self.new time c) }
        ensures event { OnOk result ((c : MachineControl) → StandsFor self.old c → Makes self.old self.new (Close (ByWatermark time)) c) }
    {
        sizes_law(&self.epochs);
        counts_stay_law();
        one_epoch_law();
        let busy = self.accounts.busy(self.alloc)?;
        let due = self.timers.due_keys(self.alloc, time)?;
        few_keys(busy.as_slice());
        few_keys(due.as_slice());
        mark_all(&mut self.accounts, &mut self.epochs, busy.as_slice(), time)?;
        mark_free(&mut self.accounts, &mut self.epochs, due.as_slice(), time)?;
        self.wm = time;
        self.epochs.close(Marker::Mark { time })?;
        sizes_law(&self.epochs);
        Ok(())
    }

    // Ends the current epoch with a barrier.
    fn close_by_barrier(&mut self, id: i64) -> Result<(), NoMemory>
        requires sound { IsSound self.old }
        requires may { may_close self.old ≡ true }
        ensures sound { OnOk result (IsSound self.new) }
        ensures same { OnOk result (SameRules self.old self.new) }
        ensures outs { OnOk result (self.new.outs ≡ self.old.outs) }
        ensures keys { OnOk result (KeysStay self.old self.new) }
        ensures order { OnOk result (Posts self.old self.new []) }
        ensures number { OnOk result (NoneNumbered self.old self.new) }
        ensures idle { OnOk result (idle_in self.new ≡ idle_in self.old) }
        ensures event { OnOk result ((c : MachineControl) → StandsFor self.old c → Makes self.old self.new (Close (ByBarrier id)) c) }
    {
        sizes_law(&self.epochs);
        counts_stay_law();
        self.barrier = true;
        self.epochs.close(Marker::Barrier { id })?;
        sizes_law(&self.epochs);
        Ok(())
    }

    /// Sends the oldest closed epoch's marker, where its work and that of all before it is done. `None` exactly where the
    /// oldest closed epoch has work left, or none is closed; then nothing has changed.
    pub fn next_marker(&mut self) -> Option<Marker>
        requires { IsSound self.old }
        ensures sound { IsSound self.new }
        ensures same { SameRules self.old self.new }
        ensures outs { outs_of self.new ≡ outs_of self.old }
        ensures keys { KeysStay self.old self.new }
        ensures order { Posts self.old self.new [] }
        ensures number { NoneNumbered self.old self.new }
        ensures idle { idle_in self.new ≡ idle_in self.old }
        ensures event { (c : MachineControl) → StandsFor self.old c → SendsNext self.old self.new result c }
    {
        sizes_law(&self.epochs);
        counts_stay_law();
        let marker = self.epochs.take_finished();
        self.barrier = barrier_left(self.barrier, marker);
        marker
    }
}

// Whether a barrier is still to be sent behind a marker that is sent, if any is.
fn barrier_left(barrier: bool, sent: Option<Marker>) -> bool
    ensures { result ≡ barrier_left barrier sent }
{
    match sent {
        Some(Marker::Barrier { .. }) => false,
        Some(Marker::Mark { .. }) => barrier,
        None => barrier,
    }
}

// Memory has room for fewer than 2^60 keys.
fn few_keys(keys: &[Key])
    ensures { length keys.now < 2 ^ 60 }
{
    let _bytes = size_of_val(keys);
}

// A watermark waits at each of these keys.
fn mark_all(
    accounts: &mut Accounting,
    epochs: &mut Epochs,
    keys: &[Key],
    time: i64,
) -> Result<(), NoMemory>
    requires room { current_count epochs.old + length keys.now ≤ 2 ^ 63 }
    ensures marks { OnOk result (MarksAll every time keys.now (books accounts.old epochs.old) (books accounts.new epochs.new)) }
    ensures count { OnOk result (current_count epochs.new ≤ current_count epochs.old + length keys.now) }
{
    for key in keys {
        mark_key(accounts, epochs, key, time)?;
    }
    Ok(())
}

// A watermark waits at each of these keys that is free.
fn mark_free(
    accounts: &mut Accounting,
    epochs: &mut Epochs,
    keys: &[Key],
    time: i64,
) -> Result<(), NoMemory>
    requires room { current_count epochs.old + length keys.now ≤ 2 ^ 63 }
    ensures marks { OnOk result (MarksAll is_free time keys.now (books accounts.old epochs.old) (books accounts.new epochs.new)) }
{
    for key in keys {
        mark_if_free(accounts, epochs, key, time)?;
    }
    Ok(())
}

// A watermark waits at a key, the last of all.
fn mark_key(
    accounts: &mut Accounting,
    epochs: &mut Epochs,
    key: &Key,
    time: i64,
) -> Result<(), NoMemory>
    requires room { current_count epochs.old < 2 ^ 63 }
    ensures marks { OnOk result (Marks time key.now (books accounts.old epochs.old) (books accounts.new epochs.new)) }
    ensures count { OnOk result (current_count epochs.new ≡ current_count epochs.old + 1) }
{
    sizes_law(epochs);
    one_epoch_law();
    let epoch = epochs.current();
    accounts.wait_mark(key, epoch, time)?;
    epochs.enter(epoch);
    Ok(())
}

// The same where the key is free.
fn mark_if_free(
    accounts: &mut Accounting,
    epochs: &mut Epochs,
    key: &Key,
    time: i64,
) -> Result<(), NoMemory>
    requires room { current_count epochs.old < 2 ^ 63 }
    ensures marks { OnOk result (MarksIf (is_free (part_of accounts.old key.now)) time key.now (books accounts.old epochs.old) (books accounts.new epochs.new)) }
    ensures count { OnOk result (current_count epochs.new ≤ current_count epochs.old + 1) }
{
    if accounts.is_free(key) {
        mark_key(accounts, epochs, key, time)
    } else {
        Ok(())
    }
}
