//! The plain thread: each event is finished before the next is looked at, on one map of what each key has.
ghost use Rattle.std.specs.Prelude.{◌≡◌, ◌≤◌, ℕ, ℤ, List, Some, None, true, false, IfOk, OnOk, OnErr, IsSome};
ghost use Rattle.std.specs.Io.KnownBytes.{Appends};
ghost use Rattle.std.specs.BTreeMap.{get, keys};
ghost use Rattle.std.specs.BTreeSet.{insert_key};
ghost use Rattle.ax_keys.specs.Keys.{key_cmp};
ghost use Rattle.ax_input.specs.Shown.{shown_event};
ghost use Rattle.ax_machine.specs.Entries.{text_of};
ghost use Rattle.ax_machine.specs.Sync.{plain_start, plain_step, row_step, knows, silent};
ghost use Rattle.ax_lang.specs.Shown.{shown_program, shown_kinds};
ghost use Rattle.ax_plain.specs.Handler.{shown_run_facts};
ghost use Rattle.ax_plain.specs.Plain.{shown_plain, run_at, ThreadFits, IsAbsent, LeavesKeys, LeavesRest};
ghost use Rattle.ax_base.specs.Outside.{AppendsSome, OwnCounts};

use crate::handler::{Room, RunFacts, run_handler};
use ax_base::{Duplicate, NoMemory, Sink, SinkFault};
use ax_future::Handler;
use ax_input::Event;
use ax_keys::Key;
use ax_lang::Program;
use ax_machine::first_watermark;
use ax_state::KeyCells;
use ax_time::Timers;
use std::alloc::Global;
use std::collections::BTreeMap;

/// The states of all keys that had a row.
pub type States = BTreeMap<Key, KeyCells>;

/// The plain thread: the greatest watermark so far, what each key has, and room for the run of one handler.
#[derive(Drop)]
pub struct PlainThread {
    pub(crate) alloc: Global,
    pub(crate) wm: i64,
    pub(crate) states: States,
    pub(crate) timers: Timers,
    pub(crate) room: Room,
}

// What the run of a handler knows.
pub(crate) fn run_facts<'a>(time: &i64, wm: &i64, values: &'a [i64]) -> RunFacts<'a>
    ensures { shown_run_facts result ≡ record { time = time.now; wm = wm.now; values = values.now } }
{
    RunFacts {
        time: *time,
        wm: *wm,
        values,
    }
}

impl PlainThread {
    /// No key had a row yet.
    pub fn new(alloc: Global, program: &Program) -> Result<PlainThread, NoMemory>
        ensures fits { IfOk result (λ thread. ThreadFits (shown_kinds program.now) thread) }
        ensures start { IfOk result (λ thread. shown_plain (shown_kinds program.now) thread ≡ plain_start (shown_program program.now)) }
    {
        Ok(PlainThread {
            alloc,
            wm: first_watermark(),
            states: States::new(alloc),
            timers: Timers::new(alloc),
            room: Room::new(alloc),
        })
    }

    /// Takes one event: a row runs to its end, at a greater watermark all that is due fires before it is written, and a
    /// barrier writes the block of what every key has, by `groups` key groups. Each line is written at once.
    ///
    /// Conditions: there are 1 to 32,768 key groups; and what is held fits the program, as it does after `new` and stays from
    /// event to event of one program. After an error the sink took a prefix of the text that the event writes, and some of what
    /// the event does was done: what is held still fits, and a row has left each other key alone. `Failed` comes only where the
    /// sink failed, and `NoMemory` where memory was short here or in the sink.
    pub fn take<K: Sink>(
        &mut self,
        program: &Program,
        groups: u16,
        event: &Event,
        out: &mut K,
    ) -> Result<(), SinkFault>
        requires fits { ThreadFits (shown_kinds program.now) self.old }
        requires least { 1 ≤ groups }
        requires most { groups ≤ 32768 }
        ensures fits { ThreadFits (shown_kinds program.now) self.new }
        ensures steps { OnOk result (shown_plain (shown_kinds program.now) self.new
            ≡ silent (plain_step groups (shown_program program.now) (shown_event event.now) (shown_plain (shown_kinds program.now) self.old))) }
        ensures lines { OnOk result (Appends (K.holds out.old) (K.holds out.new)
            (text_of (plain_step groups (shown_program program.now) (shown_event event.now) (shown_plain (shown_kinds program.now) self.old)).entries)) }
        ensures part { OnErr result (AppendsSome (K.holds out.old) (K.holds out.new)
            (text_of (plain_step groups (shown_program program.now) (shown_event event.now) (shown_plain (shown_kinds program.now) self.old)).entries)) }
        ensures rest { LeavesRest (shown_event event.now) (shown_plain (shown_kinds program.now) self.old).map (shown_plain (shown_kinds program.now) self.new).map }
        ensures counts { OwnCounts (K.counts out.old) (K.counts out.new) result }
        ensures base { K.base out.new ≡ K.base out.old }
    {
        match event {
            Event::Row { key, time, values } => self.run_row(
                program,
                key,
                time,
                values.as_slice(),
                out,
            ),
            Event::Mark { time } => self.pass_watermark(program, time, out),
            Event::Barrier { id } => self.write_block(program, groups, id, out),
        }
    }

    // Runs a row to its end, and writes each output line at once.
    fn run_row<K: Sink>(
        &mut self,
        program: &Program,
        key: &Key,
        time: &i64,
        values: &[i64],
        out: &mut K,
    ) -> Result<(), SinkFault>
        requires { ThreadFits (shown_kinds program.now) self.old }
        ensures fits { ThreadFits (shown_kinds program.now) self.new }
        ensures steps { OnOk result (shown_plain (shown_kinds program.now) self.new
            ≡ silent (row_step (shown_program program.now) key.now time.now values.now (shown_plain (shown_kinds program.now) self.old))) }
        ensures lines { OnOk result (Appends (K.holds out.old) (K.holds out.new)
            (text_of (row_step (shown_program program.now) key.now time.now values.now (shown_plain (shown_kinds program.now) self.old)).entries)) }
        ensures part { OnErr result (AppendsSome (K.holds out.old) (K.holds out.new)
            (text_of (row_step (shown_program program.now) key.now time.now values.now (shown_plain (shown_kinds program.now) self.old)).entries)) }
        ensures others { LeavesKeys key.now (shown_plain (shown_kinds program.now) self.old).map (shown_plain (shown_kinds program.now) self.new).map }
        ensures counts { OwnCounts (K.counts out.old) (K.counts out.new) result }
        ensures base { K.base out.new ≡ K.base out.old }
    {
        let facts = run_facts(time, &self.wm, values);
        if self.run_held(program, Handler::Row, key, &facts, out)? {
            return Ok(());
        }
        let Ok(()) = self.hold(program, key) else {
            return Err(SinkFault::NoMemory);
        };
        self.run_held(program, Handler::Row, key, &facts, out)?;
        Ok(())
    }

    // Holds a key of which nothing was held so far. After an error nothing has changed.
    fn hold(&mut self, program: &Program, key: &Key) -> Result<(), NoMemory>
        requires fits { ThreadFits (shown_kinds program.now) self.old }
        requires absent { get key_cmp self.old.states key.now ≡ None }
        ensures fits { ThreadFits (shown_kinds program.now) self.new }
        ensures knows { OnOk result (shown_plain (shown_kinds program.now) self.new ≡ knows key.now (shown_plain (shown_kinds program.now) self.old)) }
        ensures others { LeavesKeys key.now (shown_plain (shown_kinds program.now) self.old).map (shown_plain (shown_kinds program.now) self.new).map }
        ensures held { OnOk result (IsSome (get key_cmp self.new.states key.now)) }
    {
        let cells = KeyCells::new(self.alloc, program.decls())?;
        let key = key.copy(self.alloc)?;
        match self.states.insert(key, cells) {
            Ok(_) => Ok(()),
            Err(_) => Err(NoMemory),
        }
    }

    // Runs a handler on what is held of a key. The answer is false exactly where nothing is held of it; then nothing has happened.
    pub(crate) fn run_held<K: Sink>(
        &mut self,
        program: &Program,
        handler: Handler,
        key: &Key,
        facts: &RunFacts<'_>,
        out: &mut K,
    ) -> Result<bool, SinkFault>
        requires { ThreadFits (shown_kinds program.now) self.old }
        ensures fits { ThreadFits (shown_kinds program.now) self.new }
        ensures absent { IfOk result (λ held. held ≡ false → IsAbsent (shown_kinds program.now) key.now self.old self.new (K.holds out.old) (K.holds out.new)) }
        ensures held { IfOk result (λ held. held ≡ true → insert_key key_cmp (keys self.old.states) key.now ≡ keys self.old.states) }
        ensures present { IfOk result (λ held. IsSome (get key_cmp self.old.states key.now) → held ≡ true) }
        ensures steps { IfOk result (λ held. held ≡ true → shown_plain (shown_kinds program.now) self.new
            ≡ silent (run_at program.now handler facts.now key.now (shown_plain (shown_kinds program.now) self.old))) }
        ensures lines { IfOk result (λ held. held ≡ true → Appends (K.holds out.old) (K.holds out.new)
            (text_of (run_at program.now handler facts.now key.now (shown_plain (shown_kinds program.now) self.old)).entries)) }
        ensures part { OnErr result (AppendsSome (K.holds out.old) (K.holds out.new)
            (text_of (run_at program.now handler facts.now key.now (shown_plain (shown_kinds program.now) self.old)).entries)) }
        ensures others { LeavesKeys key.now (shown_plain (shown_kinds program.now) self.old).map (shown_plain (shown_kinds program.now) self.new).map }
        ensures counts { OwnCounts (K.counts out.old) (K.counts out.new) result }
        ensures base { K.base out.new ≡ K.base out.old }
    {
        let Some(cells) = self.states.get_mut(key) else {
            return Ok(false);
        };
        run_handler(
            &mut self.room,
            program,
            handler,
            key,
            facts,
            cells,
            &mut self.timers,
            out,
        )?;
        Ok(true)
    }
}
