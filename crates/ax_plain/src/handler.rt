//! The run of a handler on the states and timers of its key: each request is answered at once, and what a turn says is done when
//! the turn is over.
ghost use Rattle.std.specs.Prelude.{◌≡◌, ◌++◌, ◌∷◌, OnOk, OnErr, IfOk};
ghost use Rattle.std.specs.Fmt.{signed_decimal};
ghost use Rattle.std.specs.Io.KnownBytes.{Appends};
ghost use Rattle.ax_base.specs.Outside.{AppendsSome, OwnCounts};
ghost use Rattle.ax_text.specs.Run.{time_after, times_after};
ghost use Rattle.ax_machine.specs.Entries.{Out, says, text_of, entry_text, numbers_text, marker_text, Watermark};
ghost use Rattle.ax_state.specs.KeyCells.{shown_cells, cell_kinds};
ghost use Rattle.ax_time.specs.Timers.{PutsTimes, times_of};
ghost use Rattle.ax_lang.specs.Shown as lang;
ghost use Rattle.ax_future.specs.Talks.{known_in};
ghost use Rattle.ax_future.specs.Machines.{IsSound, said_by};
ghost use Rattle.ax_plain.specs.Handler.{shown_run_facts, run_from, TakesTurn, LeavesOthers};

use ax_base::{Duplicate, NoMemory, Nums, Sink, SinkFault, write_all};
use ax_future::{Handler, Known, Machine, TimerOp, Turn};
use ax_keys::Key;
use ax_lang::Program;
use ax_state::KeyCells;
use ax_time::Timers;
use itoa::Buffer;
use std::alloc::Global;

/// What a handler knows besides what its key has.
#[derive(Clone, Copy)]
pub struct RunFacts<'a> {
    /// The time of the row, or of the timer that fires.
    pub time: i64,
    /// The greatest watermark before the row, or the one that fires.
    pub wm: i64,
    /// The row's values; a timer has none.
    pub values: &'a [i64],
}

/// Room that the runs of handlers need, kept from one run to the next: for the text of one line, and for a machine.
#[derive(Drop)]
pub struct Room {
    text: Vec<u8>,
    machine: Machine,
}

impl Room {
    /// Empty room. A run that needs more than those before takes more.
    pub fn new(alloc: Global) -> Room {
        Room {
            text: Vec::new(alloc),
            machine: Machine::new(alloc),
        }
    }

    /// The text becomes the line of a watermark.
    pub fn put_mark(&mut self, time: &i64) -> Result<(), NoMemory>
        ensures { OnOk result (self.new.text.items ≡ marker_text (Watermark time.now)) }
    {
        let mut digits = Buffer::new();
        self.text.clear();
        put_bytes(&mut self.text, b"w ")?;
        put_bytes(&mut self.text, digits.format(*time).as_bytes())?;
        put_bytes(&mut self.text, b"\n")
    }

    /// The text of the line that was put last.
    pub fn text(&self) -> &[u8]
        ensures { result.now ≡ self.now.text.items }
    {
        self.text.as_slice()
    }
}

fn put_bytes(text: &mut Vec<u8>, bytes: &[u8]) -> Result<(), NoMemory>
    ensures { OnOk result (text.new.items ≡ text.old.items ++ bytes.now) }
{
    match text.extend_from_slice(bytes) {
        Ok(()) => Ok(()),
        Err(_) => Err(NoMemory),
    }
}

// Writes a space and a number.
fn put_number(text: &mut Vec<u8>, number: &i64) -> Result<(), NoMemory>
    ensures { OnOk result (text.new.items ≡ text.old.items ++ 32 ∷ signed_decimal number.now) }
{
    let mut digits = Buffer::new();
    put_bytes(text, b" ")?;
    put_bytes(text, digits.format(*number).as_bytes())
}

fn put_numbers(text: &mut Vec<u8>, numbers: &[i64]) -> Result<(), NoMemory>
    ensures { OnOk result (text.new.items ≡ text.old.items ++ numbers_text numbers.now) }
{
    for number in numbers {
        put_number(text, number)?;
    }
    Ok(())
}

// The text becomes one output line.
fn put_line(text: &mut Vec<u8>, key: &[u8], numbers: &[i64]) -> Result<(), NoMemory>
    ensures { OnOk result (text.new.items ≡ entry_text (Out key.now numbers.now)) }
{
    text.clear();
    put_bytes(text, b"o ")?;
    put_bytes(text, key)?;
    put_numbers(text, numbers)?;
    put_bytes(text, b"\n")
}

// Writes one output line. After an error the sink took a prefix of it.
fn write_line<K: Sink>(
    text: &mut Vec<u8>,
    key: &Key,
    numbers: &[i64],
    out: &mut K,
) -> Result<(), SinkFault>
    ensures lines { OnOk result (Appends (K.holds out.old) (K.holds out.new) (entry_text (Out key.now numbers.now))) }
    ensures part { OnErr result (AppendsSome (K.holds out.old) (K.holds out.new) (entry_text (Out key.now numbers.now))) }
    ensures counts { OwnCounts (K.counts out.old) (K.counts out.new) result }
    ensures base { K.base out.new ≡ K.base out.old }
{
    let Ok(()) = put_line(text, key.as_bytes(), numbers) else {
        return Err(SinkFault::NoMemory);
    };
    write_all(out, text.as_slice())
}

// Writes output lines, each at once. After an error the sink took a prefix of them.
fn write_lines<K: Sink>(
    text: &mut Vec<u8>,
    key: &Key,
    lines: &[Nums],
    out: &mut K,
) -> Result<(), SinkFault>
    ensures lines { OnOk result (Appends (K.holds out.old) (K.holds out.new) (text_of (says key.now lines.now))) }
    ensures part { OnErr result (AppendsSome (K.holds out.old) (K.holds out.new) (text_of (says key.now lines.now))) }
    ensures counts { OwnCounts (K.counts out.old) (K.counts out.new) result }
    ensures base { K.base out.new ≡ K.base out.old }
{
    'line: for line in lines {
        write_line(text, key, line.as_slice(), out)?;
    }
    Ok(())
}

// Sets or takes off a timer of the key. After an error nothing has changed.
fn do_timer(key: &Key, op: &TimerOp, timers: &mut Timers) -> Result<(), NoMemory>
    ensures times { OnOk result (PutsTimes timers.old timers.new key.now (time_after op.now (times_of timers.old key.now))) }
    ensures others { LeavesOthers key.now timers.old timers.new }
{
    match op {
        TimerOp::Set { time } => timers.set(key, *time),
        TimerOp::Unset { time } => {
            timers.unset(key, *time);
            Ok(())
        }
    }
}

// Sets and takes off timers of the key, in order. After an error some of this was done.
fn do_timers(key: &Key, ops: &[TimerOp], timers: &mut Timers) -> Result<(), NoMemory>
    ensures times { OnOk result (PutsTimes timers.old timers.new key.now (times_after ops.now (times_of timers.old key.now))) }
    ensures others { LeavesOthers key.now timers.old timers.new }
{
    'op: for op in ops {
        do_timer(key, op, timers)?;
    }
    Ok(())
}

// Does what a turn says: writes its lines, and sets and takes off timers. After an error the sink took a prefix of the lines.
fn do_turn<K: Sink>(
    text: &mut Vec<u8>,
    key: &Key,
    turn: &Turn,
    timers: &mut Timers,
    out: &mut K,
) -> Result<(), SinkFault>
    ensures times { OnOk result (PutsTimes timers.old timers.new key.now (times_after turn.now.timer_ops (times_of timers.old key.now))) }
    ensures others { LeavesOthers key.now timers.old timers.new }
    ensures lines { OnOk result (Appends (K.holds out.old) (K.holds out.new) (text_of (says key.now turn.now.outs))) }
    ensures part { OnErr result (AppendsSome (K.holds out.old) (K.holds out.new) (text_of (says key.now turn.now.outs))) }
    ensures counts { OwnCounts (K.counts out.old) (K.counts out.new) result }
    ensures base { K.base out.new ≡ K.base out.old }
{
    write_lines(text, key, turn.outs.as_slice(), out)?;
    match do_timers(key, turn.timer_ops.as_slice(), timers) {
        Ok(()) => Ok(()),
        Err(NoMemory) => Err(SinkFault::NoMemory),
    }
}

// Does what a machine said last. After an error the sink took a prefix of the lines.
fn do_said<K: Sink>(
    text: &mut Vec<u8>,
    key: &Key,
    machine: &Machine,
    timers: &mut Timers,
    out: &mut K,
) -> Result<(), SinkFault>
    ensures times { OnOk result (PutsTimes timers.old timers.new key.now (times_after (said_by machine.now).timer_ops (times_of timers.old key.now))) }
    ensures others { LeavesOthers key.now timers.old timers.new }
    ensures lines { OnOk result (Appends (K.holds out.old) (K.holds out.new) (text_of (says key.now (said_by machine.now).outs))) }
    ensures part { OnErr result (AppendsSome (K.holds out.old) (K.holds out.new) (text_of (says key.now (said_by machine.now).outs))) }
    ensures counts { OwnCounts (K.counts out.old) (K.counts out.new) result }
    ensures base { K.base out.new ≡ K.base out.old }
{
    do_turn(text, key, machine.said(), timers, out)
}

// What the statements of a handler may speak of.
fn known_of<'a>(facts: &RunFacts<'a>) -> Known<'a>
    ensures { known_in result ≡ shown_run_facts facts.now }
{
    Known {
        time: facts.time,
        wm: facts.wm,
        values: facts.values,
    }
}

// Answers what the least slot that waits has asked, and runs on; the machine has what is said then. The answer is false exactly
// where nothing waits: then it is done.
fn next_turn(
    machine: &mut Machine,
    program: &Program,
    facts: &Known<'_>,
    cells: &mut KeyCells,
) -> Result<bool, NoMemory>
    requires sound { IsSound program.now machine.old }
    requires kinds { cell_kinds cells.old ≡ lang.shown_kinds program.now }
    ensures sound { OnOk result (IsSound program.now machine.new) }
    ensures kinds { cell_kinds cells.new ≡ lang.shown_kinds program.now }
    ensures turn { IfOk result (λ more. TakesTurn (known_in facts.now) program.now machine.old machine.new (shown_cells cells.old) (shown_cells cells.new) (said_by machine.new) more) }
{
    let Some((slot, request)) = machine.least_waiting() else {
        return Ok(false);
    };
    let answer = cells.apply(request)?;
    machine.take_answer(program, facts, slot, answer)?;
    Ok(true)
}

/// Runs a handler on the states and timers of the key: what the least slot that waits has asked is answered at once, and when a
/// turn is over its lines are written and its timers set or taken off.
///
/// Condition: the states have the kinds that the program declares. They keep them, and the timers of other keys stay, also
/// after an error. After an error some of the turns have run, and the sink took a prefix of the text of the lines that the
/// whole run writes. `Failed` comes only where the sink failed, and `NoMemory` where memory was short here or in the sink.
pub fn run_handler<K: Sink>(
    room: &mut Room,
    program: &Program,
    handler: Handler,
    key: &Key,
    facts: &RunFacts<'_>,
    cells: &mut KeyCells,
    timers: &mut Timers,
    out: &mut K,
) -> Result<(), SinkFault>
    requires { cell_kinds cells.old ≡ lang.shown_kinds program.now }
    ensures kinds { cell_kinds cells.new ≡ lang.shown_kinds program.now }
    ensures cells { OnOk result (shown_cells cells.new ≡ (run_from program.now handler facts.now (shown_cells cells.old)).cells) }
    ensures times { OnOk result (PutsTimes timers.old timers.new key.now (times_after (run_from program.now handler facts.now (shown_cells cells.old)).talk.ops (times_of timers.old key.now))) }
    ensures others { LeavesOthers key.now timers.old timers.new }
    ensures lines { OnOk result (Appends (K.holds out.old) (K.holds out.new) (text_of (says key.now (run_from program.now handler facts.now (shown_cells cells.old)).talk.lines))) }
    ensures part { OnErr result (AppendsSome (K.holds out.old) (K.holds out.new) (text_of (says key.now (run_from program.now handler facts.now (shown_cells cells.old)).talk.lines))) }
    ensures counts { OwnCounts (K.counts out.old) (K.counts out.new) result }
    ensures base { K.base out.new ≡ K.base out.old }
{
    let known = known_of(facts);
    let Ok(()) = room.machine.restart(program, handler, &known) else {
        return Err(SinkFault::NoMemory);
    };
    'turns: loop {
        do_said(&mut room.text, key, &room.machine, timers, out)?;
        let Ok(more) = next_turn(&mut room.machine, program, &known, cells) else {
            return Err(SinkFault::NoMemory);
        };
        if !more {
            return Ok(());
        }
    }
}
