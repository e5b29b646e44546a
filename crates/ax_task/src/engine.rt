//! The controller with its shards: what there is to do between two events.
ghost use Rattle.std.specs.Prelude.{◌≡◌, ◌<◌, ◌⊎◌, [], true, false, int_lt, IfOk, OnOk, OnErr};
ghost use Rattle.std.specs.Io.KnownBytes.{Appends, append_known};
ghost use Rattle.ax_base.specs.Outside.{OwnCounts, AppendsSome};
ghost use Rattle.ax_machine.specs.Entries.{says, text_of};
ghost use Rattle.ax_machine.specs.Events.{Mark};
ghost use Rattle.ax_input.specs.Shown.{shown_event};
ghost use Rattle.ax_execution.specs.MachineControls.{MachineControl};
ghost use Rattle.ax_execution.specs.ControlsAllowed.{FirstIsFinishedOn};
ghost use Rattle.ax_core.specs.declared.effects.Fired.{Fired as AnyFired};
ghost use Rattle.ax_core.specs.declared.effects.Effects.{Effects as AnyEffects};
ghost use Rattle.ax_core.specs.May.{may_fire, may_close, has_mail};
ghost use Rattle.ax_core.specs.Sound.{StandsFor};
ghost use Rattle.ax_core.specs.Views.{program_of, wm_of};
ghost use Rattle.ax_task.specs.Exchanged.{LessIsLeft};
ghost use Rattle.ax_task.specs.Due.{IsFree};
ghost use Rattle.ax_task.specs.Calls.{HasFired, HasRun, HasMarked, HasTaken};
ghost use Rattle.ax_task.specs.Things.{OutputStays, SendsThrough, CutsThrough, DoesWork, WorkBreaks, NoWork};
ghost use Rattle.ax_task.specs.Unused.{IsUnused};
ghost use Rattle.ax_task.specs.Engines.{Stands, ShardsStay, batch_of, order_of, IsReady, MovesOn, Takes, Writes, WritesSome, IsQuiet, WroteMarker, WritesPart, may_take};

use crate::config::Config;
use crate::line::{write_lines, write_mark};
use crate::shards::Shards;
use ax_base::{Begun, Gather, NoMemory, Nums, Sink, SinkFault, write_all};
use ax_core::{Controller, Marker, Settings};
use ax_input::Event;
use std::alloc::Global;

// The marker of a watermark.
fn mark(time: &i64) -> Marker
    ensures { result ≡ Marker.Mark time.now }
{
    Marker::Mark { time: *time }
}

// The marker of a barrier.
fn barrier(id: &i64) -> Marker
    ensures { result ≡ Marker.Barrier id.now }
{
    Marker::Barrier { id: *id }
}

/// The controller, the shards that serve its requests, and room for the text of a line.
#[derive(Drop)]
pub struct Engine {
    pub(crate) alloc: Global,
    pub(crate) settings: Settings,
    pub(crate) batch: u32,
    pub(crate) core: Controller,
    pub(crate) shards: Shards,
    text: Vec<u8>,
}

impl Engine {
    /// Nothing was taken yet. By `order` the batches are chosen that are served.
    ///
    /// Conditions: the controller was made with the settings, and nothing was admitted or closed in it. Contexts and requests have
    /// some room.
    pub fn new(
        alloc: Global,
        config: &Config,
        core: Controller,
        order: Nums,
    ) -> Result<Engine, NoMemory>
        requires unused { IsUnused config.now.settings core }
        requires contexts { 0 < config.now.settings.in_flight }
        requires batch { 0 < config.now.batch }
        ensures stands { IfOk result (λ e. Stands config.now.settings (program_of core) e [] []) }
        ensures batch { IfOk result (λ e. batch_of e ≡ config.now.batch) }
        ensures order { IfOk result (λ e. order_of e ≡ order) }
        ensures core { IfOk result (λ e. e.core ≡ core) }
    {
        let shards = Shards::new(alloc, config.settings.shards, core.program().decls(), order)?;
        Ok(Engine {
            alloc,
            settings: config.settings,
            batch: config.batch,
            core,
            shards,
            text: Vec::new(alloc),
        })
    }

    // The key that has been idle longest fires. Condition: one may fire.
    fn fire(&mut self) -> Result<(), NoMemory>
        requires ready { IsReady self.old }
        requires may { may_fire self.old.core ≡ true }
        ensures moves { OnOk result (MovesOn self.old self.new) }
        ensures shards { ShardsStay self.old self.new }
        ensures falls { OnOk result (LessIsLeft self.old self.new) }
        ensures fired { OnOk result ((f : AnyFired) × HasFired self.old self.new f) }
    {
        self.core.fire_next()?;
        Ok(())
    }

    // Runs the first mail, and writes the lines of its handler. Condition: one waits. After an error the sink took a prefix of
    // what may be written.
    fn run_mail<K: Sink>(&mut self, out: &mut K) -> Result<(), SinkFault>
        requires ready { IsReady self.old }
        requires mail { has_mail self.old.core ≡ true }
        ensures writes { OnOk result (Writes self.old self.new (K.holds out.old) (K.holds out.new)) }
        ensures shards { ShardsStay self.old self.new }
        ensures falls { OnOk result (LessIsLeft self.old self.new) }
        ensures ran { OnOk result ((f : AnyEffects) × HasRun self.old self.new f × Appends (K.holds out.old) (K.holds out.new) (text_of (says f.key f.outs))) }
        ensures part { OnErr result (WritesSome self.old (K.holds out.old) (K.holds out.new)) }
        ensures broke { OnErr result ((out.new ≡ out.old) ⊎ ((f : AnyEffects) × HasRun self.old self.new f × AppendsSome (K.holds out.old) (K.holds out.new) (text_of (says f.key f.outs)))) }
        ensures counts { OwnCounts (K.counts out.old) (K.counts out.new) result }
        ensures base { K.base out.new ≡ K.base out.old }
    {
        let Ok(effects) = self.core.run_mail() else {
            return Err(SinkFault::NoMemory);
        };
        write_lines(&mut self.text, &effects.key, effects.outs.as_slice(), out)
    }

    // Writes a marker that was taken as the next. After an error the sink took a prefix of it.
    fn write_marker<K: Sink>(&mut self, marker: Marker, out: &mut K) -> Result<(), SinkFault>
        requires ready { IsReady self.old }
        ensures core { self.new.core ≡ self.old.core }
        ensures settings { self.new.settings ≡ self.old.settings }
        ensures batch { self.new.batch ≡ self.old.batch }
        ensures shards { self.new.shards ≡ self.old.shards }
        ensures wrote { OnOk result (WroteMarker self.old marker (K.holds out.old) (K.holds out.new)) }
        ensures part { OnErr result (WritesPart self.old marker (K.holds out.old) (K.holds out.new)) }
        ensures counts { OwnCounts (K.counts out.old) (K.counts out.new) result }
        ensures base { K.base out.new ≡ K.base out.old }
    {
        match marker {
            Marker::Mark { time } => write_mark(&mut self.text, &time, out),
            Marker::Barrier { id } => self.write_block(id, out),
        }
    }

    // Writes the block of a barrier. After an error the sink took a prefix of it.
    fn write_block<K: Sink>(&self, id: i64, out: &mut K) -> Result<(), SinkFault>
        requires ready { IsReady self.now }
        ensures wrote { OnOk result (WroteMarker self.now (Marker.Barrier id) (K.holds out.old) (K.holds out.new)) }
        ensures part { OnErr result (WritesPart self.now (Marker.Barrier id) (K.holds out.old) (K.holds out.new)) }
        ensures counts { OwnCounts (K.counts out.old) (K.counts out.new) result }
        ensures base { K.base out.new ≡ K.base out.old }
    {
        let Ok(bytes) = self.block(id) else {
            return Err(SinkFault::NoMemory);
        };
        write_all(out, bytes.as_slice())
    }

    // Writes a marker that was taken as the next, with all that was gathered before it. Then nothing is gathered.
    fn write_through<K: Sink, B: Begun>(
        &mut self,
        marker: Marker,
        out: &mut Gather<'_, K, B>,
    ) -> Result<(), SinkFault>
        requires ready { IsReady self.old }
        ensures core { self.new.core ≡ self.old.core }
        ensures settings { self.new.settings ≡ self.old.settings }
        ensures batch { self.new.batch ≡ self.old.batch }
        ensures shards { self.new.shards ≡ self.old.shards }
        ensures wrote { OnOk result (WroteMarker self.old marker (append_known (K.holds out.old.inner.now) out.old.room.now) (append_known (K.holds out.new.inner.now) out.new.room.now)) }
        ensures flushed { OnOk result (out.new.room.now ≡ []) }
        ensures part { OnErr result (WritesPart self.old marker (append_known (K.holds out.old.inner.now) out.old.room.now) (append_known (K.holds out.new.inner.now) out.new.room.now)) }
        ensures counts { OwnCounts (K.counts out.old.inner.now) (K.counts out.new.inner.now) result }
        ensures same { out.new.inner.ghost_name ≡ out.old.inner.ghost_name }
    {
        self.write_marker(marker, out)?;
        out.flush()
    }

    // Sends the next marker, and writes all that was gathered. Whether there was one; where there was, nothing is gathered then.
    fn send_marker<K: Sink, B: Begun>(
        &mut self,
        out: &mut Gather<'_, K, B>,
    ) -> Result<bool, SinkFault>
        requires ready { IsReady self.old }
        ensures writes { OnOk result (Writes self.old self.new (append_known (K.holds out.old.inner.now) out.old.room.now) (append_known (K.holds out.new.inner.now) out.new.room.now)) }
        ensures none { IfOk result (λ sent. sent ≡ false → (m : MachineControl) → StandsFor self.new.core m → FirstIsFinishedOn m.unsent m → ⊥) }
        ensures core { IfOk result (λ sent. sent ≡ false → self.new.core ≡ self.old.core) }
        ensures shards { ShardsStay self.old self.new }
        ensures still { IfOk result (λ sent. sent ≡ false → self.new ≡ self.old) }
        ensures falls { IfOk result (λ sent. sent ≡ true → LessIsLeft self.old self.new) }
        ensures flushed { IfOk result (λ sent. sent ≡ true → out.new.room.now ≡ []) }
        ensures sent { IfOk result (λ sent. sent ≡ true → SendsThrough self.old self.new (record { holds = K.holds out.old.inner.now; gathered = out.old.room.now }) (record { holds = K.holds out.new.inner.now; gathered = out.new.room.now })) }
        ensures unwritten { IfOk result (λ sent. sent ≡ false → OutputStays (record { holds = K.holds out.old.inner.now; gathered = out.old.room.now }) (record { holds = K.holds out.new.inner.now; gathered = out.new.room.now })) }
        ensures part { OnErr result (WritesSome self.old (append_known (K.holds out.old.inner.now) out.old.room.now) (append_known (K.holds out.new.inner.now) out.new.room.now)) }
        ensures broke { OnErr result (CutsThrough self.old self.new (record { holds = K.holds out.old.inner.now; gathered = out.old.room.now }) (record { holds = K.holds out.new.inner.now; gathered = out.new.room.now })) }
        ensures counts { OwnCounts (K.counts out.old.inner.now) (K.counts out.new.inner.now) result }
        ensures same { out.new.inner.ghost_name ≡ out.old.inner.ghost_name }
    {
        let Some(marker) = self.core.next_marker() else {
            return Ok(false);
        };
        self.write_through(marker, out)?;
        Ok(true)
    }

    /// Lets a key fire, runs a mail or sends a marker, and writes what there is to write. Whether there was something to do.
    /// After an error the sink took a prefix of what may be written.
    pub fn work<K: Sink, B: Begun>(&mut self, out: &mut Gather<'_, K, B>) -> Result<bool, SinkFault>
        requires ready { IsReady self.old }
        ensures writes { OnOk result (Writes self.old self.new (append_known (K.holds out.old.inner.now) out.old.room.now) (append_known (K.holds out.new.inner.now) out.new.room.now)) }
        ensures quiet { IfOk result (λ done. done ≡ false → IsQuiet self.new.core) }
        ensures mails { IfOk result (λ done. done ≡ false → has_mail self.new.core ≡ false) }
        ensures shards { ShardsStay self.old self.new }
        ensures still { IfOk result (λ done. done ≡ false → self.new ≡ self.old) }
        ensures falls { IfOk result (λ done. done ≡ true → LessIsLeft self.old self.new) }
        ensures works { IfOk result (λ done. done ≡ true → DoesWork self.old self.new (record { holds = K.holds out.old.inner.now; gathered = out.old.room.now }) (record { holds = K.holds out.new.inner.now; gathered = out.new.room.now })) }
        ensures no_work { IfOk result (λ done. done ≡ false → NoWork self.old) }
        ensures unwritten { IfOk result (λ done. done ≡ false → OutputStays (record { holds = K.holds out.old.inner.now; gathered = out.old.room.now }) (record { holds = K.holds out.new.inner.now; gathered = out.new.room.now })) }
        ensures part { OnErr result (WritesSome self.old (append_known (K.holds out.old.inner.now) out.old.room.now) (append_known (K.holds out.new.inner.now) out.new.room.now)) }
        ensures breaks { OnErr result (WorkBreaks self.old self.new (record { holds = K.holds out.old.inner.now; gathered = out.old.room.now }) (record { holds = K.holds out.new.inner.now; gathered = out.new.room.now })) }
        ensures counts { OwnCounts (K.counts out.old.inner.now) (K.counts out.new.inner.now) result }
        ensures same { out.new.inner.ghost_name ≡ out.old.inner.ghost_name }
    {
        if self.core.may_fire() {
            let Ok(()) = self.fire() else {
                return Err(SinkFault::NoMemory);
            };
            return Ok(true);
        }
        if self.core.mail_waits() {
            self.run_mail(out)?;
            return Ok(true);
        }
        self.send_marker(out)
    }

    /// Whether an event can be taken. Where nothing is in flight and no marker is to be sent, each can.
    pub fn may_take(&self, event: &Event) -> bool
        ensures value { result ≡ may_take self.now.core (shown_event event.now) }
        ensures free { IsFree self.now.core → result ≡ true }
    {
        match event {
            Event::Row { .. } => self.core.may_admit(),
            Event::Mark { .. } | Event::Barrier { .. } => self.core.may_close(),
        }
    }

    /// Takes an event: a row comes in, and a watermark that is greater than the last or a barrier ends the epoch. Any other
    /// watermark is left out. Condition: it can be taken.
    pub fn take(&mut self, event: Event) -> Result<(), NoMemory>
        requires ready { IsReady self.old }
        requires may { may_take self.old.core (shown_event event) ≡ true }
        ensures takes { OnOk result (Takes self.old self.new (shown_event event)) }
        ensures taken { OnOk result (HasTaken self.old self.new event) }
        ensures shards { ShardsStay self.old self.new }
    {
        match event {
            Event::Row { key, time, values } => {
                self.core.admit(key, time, values)?;
                Ok(())
            }
            Event::Mark { time } => self.take_watermark(&time),
            Event::Barrier { id } => self.core.close(barrier(&id)),
        }
    }

    // Whether a watermark is greater than the last.
    fn is_greater(&self, time: &i64) -> bool
        requires { IsReady self.now }
        ensures { result ≡ int_lt (wm_of self.now.core) time.now }
    {
        self.core.wm() < *time
    }

    // Takes a watermark. Condition: an epoch may be closed.
    fn take_watermark(&mut self, time: &i64) -> Result<(), NoMemory>
        requires ready { IsReady self.old }
        requires may { may_close self.old.core ≡ true }
        ensures takes { OnOk result (Takes self.old self.new (Mark time.now)) }
        ensures marked { OnOk result (HasMarked (int_lt (wm_of self.old.core) time.now) self.old self.new time.now) }
        ensures shards { ShardsStay self.old self.new }
    {
        if self.is_greater(time) {
            self.core.close(mark(time))
        } else {
            Ok(())
        }
    }
}
