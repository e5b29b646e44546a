//! Watermarks: what is due fires, and the watermark is written.
ghost use Rattle.std.specs.Prelude.{◌≡◌, ℕ, List, Some, true, OnOk, OnErr, int_lt};
ghost use Rattle.std.specs.Io.KnownBytes.{Appends};
ghost use Rattle.ax_text.specs.Times.{least_time};
ghost use Rattle.ax_time.specs.Timers.{times_of};
ghost use Rattle.ax_machine.specs.Entries.{Watermark, text_of};
ghost use Rattle.ax_machine.specs.Sync.{all_fired, at_watermark, fire, silent, watermark_step, writes};
ghost use Rattle.ax_lang.specs.Shown.{shown_program, shown_kinds};
ghost use Rattle.ax_plain.specs.Agenda.{shown_due};
ghost use Rattle.ax_base.specs.Outside.{AppendsSome, OwnCounts};
ghost use Rattle.ax_plain.specs.Plain.{shown_plain, ThreadFits};

use crate::agenda::{Agenda, Due};
use crate::plain::{PlainThread, run_facts};
use ax_base::{Sink, SinkFault, write_all};
use ax_future::Handler;
use ax_lang::Program;

impl PlainThread {
    // A watermark that is greater than the last comes, and all that is due fires before it is written. Any other is skipped.
    pub(crate) fn pass_watermark<K: Sink>(
        &mut self,
        program: &Program,
        time: &i64,
        out: &mut K,
    ) -> Result<(), SinkFault>
        requires { ThreadFits (shown_kinds program.now) self.old }
        ensures fits { ThreadFits (shown_kinds program.now) self.new }
        ensures steps { OnOk result (shown_plain (shown_kinds program.now) self.new
            ≡ silent (watermark_step (shown_program program.now) time.now (shown_plain (shown_kinds program.now) self.old))) }
        ensures lines { OnOk result (Appends (K.holds out.old) (K.holds out.new)
            (text_of (watermark_step (shown_program program.now) time.now (shown_plain (shown_kinds program.now) self.old)).entries)) }
        ensures part { OnErr result (AppendsSome (K.holds out.old) (K.holds out.new)
            (text_of (watermark_step (shown_program program.now) time.now (shown_plain (shown_kinds program.now) self.old)).entries)) }
        ensures counts { OwnCounts (K.counts out.old) (K.counts out.new) result }
        ensures base { K.base out.new ≡ K.base out.old }
    {
        if self.wm < *time {
            self.pass_greater(program, time, out)
        } else {
            Ok(())
        }
    }

    // The watermark is this one now, all that is due fires, and the watermark is written.
    fn pass_greater<K: Sink>(
        &mut self,
        program: &Program,
        time: &i64,
        out: &mut K,
    ) -> Result<(), SinkFault>
        requires { ThreadFits (shown_kinds program.now) self.old }
        ensures fits { ThreadFits (shown_kinds program.now) self.new }
        ensures steps { OnOk result (shown_plain (shown_kinds program.now) self.new
            ≡ silent (all_fired (shown_program program.now) (at_watermark time.now (shown_plain (shown_kinds program.now) self.old)))) }
        ensures lines { OnOk result (Appends (K.holds out.old) (K.holds out.new)
            (text_of (writes (Watermark time.now) (all_fired (shown_program program.now) (at_watermark time.now (shown_plain (shown_kinds program.now) self.old)))).entries)) }
        ensures part { OnErr result (AppendsSome (K.holds out.old) (K.holds out.new)
            (text_of (writes (Watermark time.now) (all_fired (shown_program program.now) (at_watermark time.now (shown_plain (shown_kinds program.now) self.old)))).entries)) }
        ensures counts { OwnCounts (K.counts out.old) (K.counts out.new) result }
        ensures base { K.base out.new ≡ K.base out.old }
    {
        self.wm = *time;
        self.fire_due(program, time, out)?;
        let Ok(()) = self.room.put_mark(time) else {
            return Err(SinkFault::NoMemory);
        };
        write_all(out, self.room.text())
    }

    // All timers that are due at the watermark, which is this time, fire by time and then by key.
    fn fire_due<K: Sink>(
        &mut self,
        program: &Program,
        time: &i64,
        out: &mut K,
    ) -> Result<(), SinkFault>
        requires fits { ThreadFits (shown_kinds program.now) self.old }
        requires mark { self.old.wm ≡ time.now }
        ensures fits { ThreadFits (shown_kinds program.now) self.new }
        ensures steps { OnOk result (shown_plain (shown_kinds program.now) self.new
            ≡ silent (all_fired (shown_program program.now) (shown_plain (shown_kinds program.now) self.old))) }
        ensures lines { OnOk result (Appends (K.holds out.old) (K.holds out.new)
            (text_of (all_fired (shown_program program.now) (shown_plain (shown_kinds program.now) self.old)).entries)) }
        ensures part { OnErr result (AppendsSome (K.holds out.old) (K.holds out.new)
            (text_of (all_fired (shown_program program.now) (shown_plain (shown_kinds program.now) self.old)).entries)) }
        ensures counts { OwnCounts (K.counts out.old) (K.counts out.new) result }
        ensures base { K.base out.new ≡ K.base out.old }
    {
        let Ok(mut agenda) = Agenda::begin(self.alloc, &self.timers, *time) else {
            return Err(SinkFault::NoMemory);
        };
        'due: while let Some((timer, left)) = agenda.pop() {
            self.fire(program, &timer, out)?;
            let least = self.timers.least_of(&timer.key);
            let Ok(()) = agenda.put(timer.key, least, left - 1, *time) else {
                return Err(SinkFault::NoMemory);
            };
        }
        Ok(())
    }

    // The first timer of a key is taken off, and the key's handler runs.
    fn fire<K: Sink>(
        &mut self,
        program: &Program,
        timer: &Due,
        out: &mut K,
    ) -> Result<(), SinkFault>
        requires fits { ThreadFits (shown_kinds program.now) self.old }
        requires first { least_time (times_of self.old.timers timer.now.key) ≡ Some timer.now.time }
        ensures fits { ThreadFits (shown_kinds program.now) self.new }
        ensures steps { OnOk result (shown_plain (shown_kinds program.now) self.new
            ≡ silent (fire (shown_program program.now) (shown_due timer.now) (shown_plain (shown_kinds program.now) self.old))) }
        ensures lines { OnOk result (Appends (K.holds out.old) (K.holds out.new)
            (text_of (fire (shown_program program.now) (shown_due timer.now) (shown_plain (shown_kinds program.now) self.old)).entries)) }
        ensures part { OnErr result (AppendsSome (K.holds out.old) (K.holds out.new)
            (text_of (fire (shown_program program.now) (shown_due timer.now) (shown_plain (shown_kinds program.now) self.old)).entries)) }
        ensures counts { OwnCounts (K.counts out.old) (K.counts out.new) result }
        ensures base { K.base out.new ≡ K.base out.old }
    {
        self.timers.take_least(&timer.key);
        let facts = run_facts(&timer.time, &self.wm, &[]);
        self.run_held(program, Handler::Timer, &timer.key, &facts, out)?;
        Ok(())
    }
}
