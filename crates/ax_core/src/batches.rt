//! Requests go out in batches, and replies come back.
ghost use Rattle.std.specs.Prelude.{◌≡◌, ◌+◌, ◌<◌, ◌≤◌, ◌++◌, length, take, slice_set, true, IfOk, OnOk};
ghost use Rattle.std.specs.List.{remove_range, All};
ghost use Rattle.ax_text.specs.Suits.{fits_in};
ghost use Rattle.ax_lang.specs.Shown.{shown_kinds};
ghost use Rattle.ax_buffer.specs.Buffer.{queue_of};
ghost use Rattle.ax_execution.specs.MachineControls.{MachineControl};
ghost use Rattle.ax_core.specs.Views.{buffer_of, outs_of, program_of, settings_of};
ghost use Rattle.ax_core.specs.Flow.{out_of};
ghost use Rattle.ax_core.specs.Sound.{StandsFor, IsSound};
ghost use Rattle.ax_core.specs.Events.{SameRules, AsksAll, AreOut, IsBatchOut, ServesAll, names_in, KeysStay, OfKeys};
ghost use Rattle.ax_core.specs.Order.{Posts, replies_in, SendsFirst, idle_in};
ghost use Rattle.ax_core.specs.Numbers.{NoneNumbered};
ghost use Rattle.ax_core.specs.Batches.{IsPlaceOf, Forgets, OthersOut, mails_in};

use crate::controller::Controller;
use crate::record::Name;
use ax_base::{ListOf, NoMemory};
use ax_buffer::{Batch, Replies, Reply};
use ax_context::laws::limit_law;
use ax_mailbox::{Mail, Mailbox};
use std::alloc::Global;
use std::mem;

impl Controller {
    /// How many requests wait in a shard's queue. Condition: the shard is below the settings' `shards`.
    pub fn active_len(&self, shard: u16) -> u32
        requires sound { IsSound self.now }
        requires shard { shard < (settings_of self.now).shards }
        ensures { result ≡ length (queue_of (buffer_of self.now) shard) }
    {
        self.buffer.active_len(shard)
    }

    /// Takes the first `max` requests of a shard's queue, or all where it has fewer, in order. They are out until their
    /// replies are delivered. Each fits the states that the program declares.
    ///
    /// Conditions: the shard is below the settings' `shards`; `active_len(shard)` and `max` are above 0.
    pub fn batch_for(&mut self, shard: u16, max: u32) -> Result<Batch, NoMemory>
        requires sound { IsSound self.old }
        requires shard { shard < (settings_of self.old).shards }
        requires some { 0 < length (queue_of (buffer_of self.old) shard) }
        requires most { 0 < max }
        ensures sound { OnOk result (IsSound self.new) }
        ensures same { OnOk result (SameRules self.old self.new) }
        ensures batch { IfOk result (λ batch. batch ≡ take max (queue_of (buffer_of self.old) shard)) }
        ensures stands { OnOk result ((m : MachineControl) → StandsFor self.old m → StandsFor self.new m) }
        ensures asks { IfOk result (λ batch. (m : MachineControl) → StandsFor self.old m → AsksAll self.old shard m batch) }
        ensures fit { IfOk result (λ batch. All (λ i. fits_in (shown_kinds (program_of self.old)) i.request ≡ true) batch) }
        ensures out { IfOk result (λ batch. AreOut self.new shard batch) }
        ensures outs { IfOk result (λ batch. (outs_of self.new).items ≡ slice_set (outs_of self.old).items shard (out_of self.old shard ++ names_in batch)) }
        ensures keys_of { IfOk result (λ batch. OfKeys self.new batch) }
        ensures keys { OnOk result (KeysStay self.old self.new) }
        ensures order { IfOk result (λ batch. SendsFirst self.old self.new shard max batch) }
        ensures idle { OnOk result (idle_in self.new ≡ idle_in self.old) }
        ensures number { OnOk result (NoneNumbered self.old self.new) }
    {
        let batch = self.buffer.take_batch(self.alloc, shard, max)?;
        put_names(&mut self.outs[shard as usize], &batch)?;
        Ok(batch)
    }

    /// Takes the replies to a batch: each becomes a mail, in order.
    ///
    /// Condition: the replies name, in order, the ids and slots of one batch that was taken and not yet delivered. Each answer
    /// should have a form that its request has, as serving the batch gives them.
    pub fn deliver(&mut self, r: Replies)
        requires sound { IsSound self.old }
        requires out { IsBatchOut self.old r }
        ensures sound { IsSound self.new }
        ensures same { SameRules self.old self.new }
        ensures served { (m : MachineControl) → StandsFor self.old m → ServesAll self.old self.new r m }
        ensures outs { OthersOut self.old self.new r }
        ensures keys { KeysStay self.old self.new }
        ensures order { Posts self.old self.new (replies_in self.old r) }
        ensures idle { idle_in self.new ≡ idle_in self.old }
        ensures number { NoneNumbered self.old self.new }
    {
        limit_law(&self.contexts);
        self.forget(&r);
        post_all(&mut self.mails, r);
    }

    // The requests of these replies are out no longer.
    fn forget(&mut self, r: &Replies)
        requires sound { IsSound self.old }
        requires out { IsBatchOut self.old r.now }
        ensures { Forgets self.old self.new r.now }
    {
        let Some(first) = r.as_slice().first() else {
            return;
        };
        let name = Name {
            id: first.id,
            slot: first.slot,
        };
        let shard = self.shard_of(&self.contexts.get(name.id).facts.key);
        let place = place_of(self.outs[shard as usize].as_slice(), name);
        take_out(self.alloc, &mut self.outs[shard as usize], place, r.len());
    }
}

// What the requests of a batch are called goes last, in order.
fn put_names(out: &mut ListOf<Name>, batch: &Batch) -> Result<(), NoMemory>
    ensures { OnOk result (out.new ≡ out.old ++ names_in batch.now) }
{
    for item in batch.as_slice() {
        out.push(Name {
            id: item.id,
            slot: item.slot,
        })?;
    }
    Ok(())
}

// Where a request first stands among those that are out; the length, where it isn't out.
fn place_of(out: &[Name], name: Name) -> usize
    ensures { IsPlaceOf out.now name result }
{
    for (place, other) in out.iter().enumerate() {
        if *other == name {
            return place;
        }
    }
    out.len()
}

// So many are out no longer, from this place on.
fn take_out(alloc: Global, out: &mut ListOf<Name>, place: usize, count: usize)
    requires { place + count ≤ length out.old }
    ensures { out.new ≡ remove_range out.old place (place + count) }
{
    let mut names = mem::replace(out, ListOf::new(alloc)).into_vec();
    names.drain(place..place + count);
    *out = ListOf::from_vec(names);
}

// Each reply becomes a mail, in order.
fn post_all(mails: &mut Mailbox, r: Replies)
    requires { length mails.old.mails + length r ≤ mails.old.room }
    ensures mails { mails.new.mails ≡ mails.old.mails ++ mails_in r }
    ensures room { mails.new.room ≡ mails.old.room }
{
    for reply in r.into_vec() {
        let Reply { id, slot, answer } = reply;
        mails.post(Mail::Reply { id, slot, answer });
    }
}
