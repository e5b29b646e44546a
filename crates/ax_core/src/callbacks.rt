//! Callbacks run.
ghost use Rattle.std.specs.Prelude.{◌≡◌, ◌↔◌, ◌≤◌, ◌<◌, ◌+◌, ◌∷◌, [], true, false, length, IsTrue, IsSome, IfOk, OnOk};
ghost use Rattle.ax_text.specs.Run.{time_after, times_after};
ghost use Rattle.ax_time.specs.Timers.{PutsTimes, times_of};
ghost use Rattle.ax_context.specs.Slots.{Has, IsLive, live_count};
ghost use Rattle.ax_buffer.specs.Buffer.{total};
ghost use Rattle.ax_account.specs.Parts.{next_of, taken_up};
ghost use Rattle.ax_account.specs.Queues.{has_key};
ghost use Rattle.ax_account.specs.Accounts.{waiting_of, owner_of, Changes};
ghost use Rattle.ax_execution.specs.Contexts as times;
ghost use Rattle.ax_execution.specs.MachineControls.{MachineControl};
ghost use Rattle.ax_core.specs.Views.{outs_of};
ghost use Rattle.ax_core.specs.declared.effects.Ran.TheVariants as ran;
ghost use Rattle.ax_core.specs.May.{has_mail};
ghost use Rattle.ax_core.specs.Sound.{StandsFor, IsSound};
ghost use Rattle.ax_core.specs.Events.{SameRules, KeysStay, Runs, MayCallOn};
ghost use Rattle.ax_core.specs.Numbers.{NumbersBehind};
ghost use Rattle.ax_core.specs.Order.{RunsFirst, idle_in};
ghost use Rattle.ax_core.specs.Callbacks.{Begins, WaitsAt, ResumedAt, HasBegun, HasResumed, item_for, items_for, IsHeld, IsQueued, ending, behind_marks, ended, all_left, AllMayLeave, row_epochs, with_start, waits_next, HandsOver, GoesOn};
ghost use Rattle.ax_core.specs.Calls.{IsLast, CallEnds, IsReady, MayStart, MayReply, Started, Replied};

use crate::controller::Controller;
use crate::effects::{Effects, Fired, Ran};
use crate::record::Record;
use crate::spare::Spare;
use ax_account::laws::accounts_law;
use ax_account::{Accounting, MOST_FIRINGS, Next};
use ax_base::{Duplicate, NoMemory};
use ax_buffer::{Item, RequestBuffer};
use ax_context::{Contexts, Id, Released};
use ax_future::{Ask, Handler, Machine, TimerOp, Turn};
use ax_keys::Key;
use ax_lang::{Program, program_is_accepted};
use ax_mailbox::{Mail, Mailbox};
use ax_state::Answer;
use ax_time::epoch_laws::sizes_law;
use ax_time::{Epochs, Timers};
use std::alloc::Global;

impl Controller {
    /// Whether a mail waits: a handler that is to begin, or an answer that is to be given.
    pub fn mail_waits(&self) -> bool
        ensures value { result ≡ has_mail self.now }
        ensures exact { (m : MachineControl) → IsSound self.now → StandsFor self.now m → IsTrue result ↔ MayCallOn self.now m }
    {
        self.has_mail()
    }

    // The same test.
    fn has_mail(&self) -> bool
        ensures { result ≡ has_mail self.now }
    {
        self.mails.len() > 0
    }

    /// Runs the first mail: a handler begins, or is given the answer that it waited for. Its requests join the queue of its key's
    /// shard, in the order of their slots, its timers are set, and its lines are told. Where it has ended, its context is given
    /// up, and the next row of the key is to be started, or its next timer fires.
    ///
    /// Condition: `mail_waits()`.
    pub fn run_mail(&mut self) -> Result<Effects, NoMemory>
        requires sound { IsSound self.old }
        requires mail { has_mail self.old ≡ true }
        ensures sound { OnOk result (IsSound self.new) }
        ensures same { OnOk result (SameRules self.old self.new) }
        ensures outs { OnOk result (outs_of self.new ≡ outs_of self.old) }
        ensures number { IfOk result (λ f. NumbersBehind self.old self.new f.fired) }
        ensures event { IfOk result (λ f. (m : MachineControl) → StandsFor self.old m → Runs self.old self.new f m) }
        ensures keys { OnOk result (KeysStay self.old self.new) }
        ensures order { IfOk result (λ f. (m : MachineControl) → StandsFor self.old m → RunsFirst self.old self.new f m) }
        ensures idle { OnOk result (idle_in self.new ≡ idle_in self.old) }
    {
        program_is_accepted();
        sizes_law(&self.epochs);
        match self.mails.take() {
            Some(Mail::Start { id }) => self.run_start(id),
            Some(Mail::Fire { id }) => self.run_start(id),
            Some(Mail::Reply { id, slot, answer }) => self.run_reply(id, slot, answer),
            None => unreachable!(),
        }
    }

    // The handler of a context begins.
    #[inline(always)]
    fn run_start(&mut self, id: Id) -> Result<Effects, NoMemory>
        requires { MayStart self.old id }
        ensures ran { IfOk result (λ f. Has self.old.contexts id (λ h. f.ran ≡ ran.Start h.number)) }
        ensures started { IfOk result (λ f. Has self.old.contexts id (Started self.old self.new id f)) }
    {
        let ran = Ran::Start {
            context: self.contexts.number(id),
        };
        let mut turn = self.spare.turn();
        begin_at(
            &self.program,
            &mut self.contexts,
            id,
            &mut self.spare,
            &mut turn,
        )?;
        self.end_callback(id, ran, turn)
    }

    // It is given an answer.
    #[inline(always)]
    fn run_reply(&mut self, id: Id, slot: u8, answer: Answer) -> Result<Effects, NoMemory>
        requires { MayReply self.old id slot answer }
        ensures ran { IfOk result (λ f. Has self.old.contexts id (λ h. f.ran ≡ ran.Reply h.number slot)) }
        ensures replied { IfOk result (λ f. Has self.old.contexts id (Replied self.old self.new id slot answer f)) }
    {
        let ran = Ran::Reply {
            context: self.contexts.number(id),
            slot,
        };
        let mut turn = self.spare.turn();
        resume_at(
            &self.program,
            &mut self.contexts,
            id,
            slot,
            answer,
            &mut turn,
        )?;
        self.end_callback(id, ran, turn)
    }

    // Its timers are set, its requests asked, and a reference given up. Where that was the last, its key goes on.
    #[inline(always)]
    fn end_callback(&mut self, id: Id, ran: Ran, turn: Turn) -> Result<Effects, NoMemory>
        requires { IsReady self.old id turn }
        ensures ran { IfOk result (λ f. f.ran ≡ ran) }
        ensures ends { IfOk result (λ f. Has self.old.contexts id (λ h. CallEnds self.old self.new id h turn f)) }
    {
        let references = self.contexts.count(id);
        if turn.asks.is_empty() && references == 1 {
            self.end_context(id, ran, turn)
        } else {
            self.wait_on(id, ran, turn)
        }
    }

    // A callback behind which its context waits on. The key is copied for what it did, and once for each request.
    #[inline(always)]
    fn wait_on(&mut self, id: Id, ran: Ran, turn: Turn) -> Result<Effects, NoMemory>
        requires ready { IsReady self.old id turn }
        requires more { Has self.old.contexts id (λ h. 1 < h.count + length turn.asks) }
        ensures ran { IfOk result (λ f. f.ran ≡ ran) }
        ensures ends { IfOk result (λ f. Has self.old.contexts id (λ h. CallEnds self.old self.new id h turn f)) }
    {
        let Turn {
            asks,
            outs,
            timer_ops,
        } = turn;
        let key = self.contexts.get(id).facts.key.copy(self.alloc)?;
        let shard = self.shard_of(&key);
        set_timers(&mut self.timers, &key, timer_ops.as_slice())?;
        ask_all(
            self.alloc,
            &mut self.contexts,
            &mut self.buffer,
            shard,
            id,
            &key,
            asks.as_slice(),
        )?;
        self.spare.keep_turn(asks, timer_ops);
        self.contexts.release_one(id);
        Ok(Effects {
            key,
            ran,
            outs,
            gone: false,
            fired: None,
        })
    }

    // The last callback of a context. What it did bears the context's own key, and no copy.
    #[inline(always)]
    fn end_context(&mut self, id: Id, ran: Ran, turn: Turn) -> Result<Effects, NoMemory>
        requires ready { IsReady self.old id turn }
        requires silent { turn.asks ≡ [] }
        requires last { Has self.old.contexts id (λ h. h.count ≡ 1) }
        ensures ran { IfOk result (λ f. f.ran ≡ ran) }
        ensures ends { IfOk result (λ f. Has self.old.contexts id (λ h. CallEnds self.old self.new id h turn f)) }
    {
        let Turn {
            asks,
            outs,
            timer_ops,
        } = turn;
        set_timers(
            &mut self.timers,
            &self.contexts.get(id).facts.key,
            timer_ops.as_slice(),
        )?;
        self.spare.keep_turn(asks, timer_ops);
        let ended = give_up(&mut self.contexts, id, &mut self.spare);
        leave_row(&mut self.epochs, ended.handler, ended.epoch);
        let fired = self.go_on(&ended.key)?;
        Ok(Effects {
            key: ended.key,
            ran,
            outs,
            gone: true,
            fired,
        })
    }

    // A key whose owner is given up is handed over, and a row that owns it now is to be started. Tells what comes next.
    fn hand_on(&mut self, key: &Key) -> Next
        requires owner { IsSome (owner_of self.old.accounts key.now) }
        requires left { AllMayLeave (ended (times_of self.old.timers key.now) (waiting_of self.old.accounts key.now)) self.old.epochs }
        requires mails { length self.old.mails.mails < self.old.mails.room }
        ensures next { result ≡ next_of (waits_next self.old key.now) }
        ensures hands { HandsOver self.old self.new key.now }
    {
        let next = hand_over(&mut self.accounts, &mut self.epochs, &self.timers, key);
        post_start(&mut self.mails, next);
        next
    }

    // The same, and the mark in front fires, where one is there.
    #[inline(never)]
    fn go_on(&mut self, key: &Key) -> Result<Option<Fired>, NoMemory>
        requires owner { IsSome (owner_of self.old.accounts key.now) }
        requires left { AllMayLeave (ended (times_of self.old.timers key.now) (waiting_of self.old.accounts key.now)) self.old.epochs }
        requires contexts { live_count self.old.contexts < self.old.contexts.limit }
        requires mails { length self.old.mails.mails < self.old.mails.room }
        ensures { IfOk result (λ f. GoesOn self.old self.new key.now f) }
    {
        match self.hand_on(key) {
            Next::Mark { .. } => {
                let named = key.copy(self.alloc)?;
                let fired = self.fire(named)?;
                Ok(Some(fired))
            }
            Next::Row { .. } => Ok(None),
            Next::Free => Ok(None),
        }
    }
}

// The handler of a context begins, in the place of a machine.
#[inline(always)]
fn begin(
    program: &Program,
    record: &mut Record,
    machine: Machine,
    turn: &mut Turn,
) -> Result<(), NoMemory>
    ensures { OnOk result (Begins program.now record.old record.new turn.new) }
{
    record.machine = Some(machine);
    let Some(machine) = &mut record.machine else {
        unreachable!()
    };
    machine.start_into(program, record.handler, &record.facts, turn)
}

// The handler of a context is given an answer.
#[inline(always)]
fn resume(
    program: &Program,
    record: &mut Record,
    slot: u8,
    answer: Answer,
    turn: &mut Turn,
) -> Result<(), NoMemory>
    requires { WaitsAt program.now record.old.machine slot }
    ensures { OnOk result (ResumedAt program.now record.old record.new record.old.machine slot answer turn.new) }
{
    let Some(machine) = &mut record.machine else {
        unreachable!()
    };
    machine.resume_into(program, &record.facts, slot, answer, turn)
}

// The handler of a live context begins.
#[tactic(auto, using(crate::proofs::GetLemmas::has_begun))]
#[inline(always)]
fn begin_at(
    program: &Program,
    contexts: &mut Contexts<Record>,
    id: Id,
    spare: &mut Spare,
    turn: &mut Turn,
) -> Result<(), NoMemory>
    requires { IsLive contexts.old id }
    ensures { OnOk result (Has contexts.old id (λ c. HasBegun program.now contexts.old contexts.new id c turn.new)) }
{
    let record = contexts.get_mut(id);
    begin(program, record, spare.machine(), turn)
}

// The handler of a live context is given an answer.
#[tactic(auto, using(crate::proofs::GetLemmas::has_resumed, crate::proofs::GetLemmas::is_live, crate::proofs::GetLemmas::waits_there))]
#[inline(always)]
fn resume_at(
    program: &Program,
    contexts: &mut Contexts<Record>,
    id: Id,
    slot: u8,
    answer: Answer,
    turn: &mut Turn,
) -> Result<(), NoMemory>
    requires { Has contexts.old id (λ c. WaitsAt program.now c.payload.machine slot) }
    ensures { OnOk result (Has contexts.old id (λ c. HasResumed program.now contexts.old contexts.new id c slot answer turn.new)) }
{
    let record = contexts.get_mut(id);
    resume(program, record, slot, answer, turn)
}

// Sets or takes off a timer of the key.
#[inline(never)]
fn set_timer(timers: &mut Timers, key: &Key, op: &TimerOp) -> Result<(), NoMemory>
    ensures times { OnOk result (PutsTimes timers.old timers.new key.now (time_after op.now (times_of timers.old key.now))) }
{
    match op {
        TimerOp::Set { time } => timers.set(key, *time),
        TimerOp::Unset { time } => {
            timers.unset(key, *time);
            Ok(())
        }
    }
}

// What a callback did to the timers of its key, in order.
fn set_timers(timers: &mut Timers, key: &Key, ops: &[TimerOp]) -> Result<(), NoMemory>
    ensures times { OnOk result (PutsTimes timers.old timers.new key.now (times_after ops.now (times_of timers.old key.now))) }
{
    'op: for op in ops {
        set_timer(timers, key, op)?;
    }
    Ok(())
}

// A request of a callback goes last into the queue of its key's shard, with a reference to the context.
fn ask_one(
    alloc: Global,
    contexts: &mut Contexts<Record>,
    buffer: &mut RequestBuffer,
    shard: u16,
    id: Id,
    key: &Key,
    ask: &Ask,
) -> Result<(), NoMemory>
    requires few { Has contexts.old id (λ c. c.count < 17) }
    requires shard { shard < length buffer.old.queues }
    requires room { total length buffer.old.queues < buffer.old.room }
    ensures held { OnOk result (IsHeld contexts.old contexts.new id 1) }
    ensures queued { OnOk result (IsQueued buffer.old buffer.new shard (item_for id key.now ask.now ∷ [])) }
{
    let item = Item {
        id,
        slot: ask.slot,
        key: key.copy(alloc)?,
        request: ask.request.copy(alloc)?,
    };
    contexts.retain(id);
    buffer.push(shard, item);
    Ok(())
}

// The requests of a callback join the queue of their key's shard, in order, each with a reference to the context.
fn ask_all(
    alloc: Global,
    contexts: &mut Contexts<Record>,
    buffer: &mut RequestBuffer,
    shard: u16,
    id: Id,
    key: &Key,
    asks: &[Ask],
) -> Result<(), NoMemory>
    requires few { Has contexts.old id (λ c. c.count + length asks.now ≤ 17) }
    requires shard { shard < length buffer.old.queues }
    requires room { total length buffer.old.queues + length asks.now ≤ buffer.old.room }
    ensures held { OnOk result (IsHeld contexts.old contexts.new id (length asks.now)) }
    ensures queued { OnOk result (IsQueued buffer.old buffer.new shard (items_for id key.now asks.now)) }
{
    for ask in asks {
        ask_one(alloc, contexts, buffer, shard, id, key, ask)?;
    }
    Ok(())
}

// What is left of a context that has ended: its own key, its handler and its epoch.
#[derive(Drop)]
struct Ended {
    key: Key,
    handler: Handler,
    epoch: u64,
}

// The last reference is given up.
#[inline(never)]
fn give_up(contexts: &mut Contexts<Record>, id: Id, spare: &mut Spare) -> Ended
    requires { Has contexts.old id (λ c. c.count ≡ 1) }
    ensures { IsLast contexts.old contexts.new id result.key result.handler result.epoch }
{
    let Released::Gone { payload, epoch, .. } = contexts.release(id) else {
        unreachable!()
    };
    let Record {
        facts,
        handler,
        machine,
    } = payload;
    if let Some(machine) = machine {
        spare.keep_machine(machine);
    }
    Ended {
        key: facts.key,
        handler,
        epoch,
    }
}

// A timer of the key is at or below a watermark.
fn is_due(timers: &Timers, key: &Key, time: i64) -> bool
    ensures { result ≡ times.is_due time (times_of timers.now key.now) }
{
    match timers.least_of(key) {
        Some(least) => least <= time,
        None => false,
    }
}

// The epoch of the mark in front of a key, where that mark fires nothing.
fn ending_epoch(timers: &Timers, key: &Key, next: Next) -> Option<u64>
    ensures { result ≡ ending (times_of timers.now key.now) next }
{
    match next {
        Next::Mark { epoch, time, fired } => {
            if fired < MOST_FIRINGS && is_due(timers, key, time) {
                None
            } else {
                Some(epoch)
            }
        }
        _ => None,
    }
}

// A key whose owner is given up: the marks in front that fire nothing end. Tells what comes next.
fn hand_over(accounts: &mut Accounting, epochs: &mut Epochs, timers: &Timers, key: &Key) -> Next
    requires owner { IsSome (owner_of accounts.old key.now) }
    requires left { AllMayLeave (ended (times_of timers.now key.now) (waiting_of accounts.old key.now)) epochs.old }
    ensures next { result ≡ next_of (behind_marks (times_of timers.now key.now) (waiting_of accounts.old key.now)) }
    ensures part { Changes accounts.old accounts.new key.now (taken_up (behind_marks (times_of timers.now key.now) (waiting_of accounts.old key.now))) }
    ensures idle { accounts.new.idle ≡ accounts.old.idle }
    ensures busy { has_key accounts.new.idle key.now ≡ false }
    ensures epochs { epochs.new ≡ all_left (ended (times_of timers.now key.now) (waiting_of accounts.old key.now)) epochs.old }
{
    accounts_law(accounts);
    let mut next = accounts.release(key);
    while let Some(epoch) = ending_epoch(timers, key, next) {
        next = accounts.end_mark(key);
        epochs.leave(epoch);
    }
    next
}

// A row is work of its epoch no longer; a firing wasn't.
fn leave_row(epochs: &mut Epochs, handler: Handler, epoch: u64)
    requires { AllMayLeave (row_epochs handler epoch) epochs.old }
    ensures { epochs.new ≡ all_left (row_epochs handler epoch) epochs.old }
{
    if let Handler::Row = handler {
        epochs.leave(epoch);
    }
}

// A row that owns its key now is to be started.
fn post_start(mails: &mut Mailbox, next: Next)
    requires { length mails.old.mails < mails.old.room }
    ensures mails { mails.new.mails ≡ with_start next mails.old.mails }
    ensures room { mails.new.room ≡ mails.old.room }
{
    if let Next::Row { id } = next {
        mails.post(Mail::Start { id });
    }
}
