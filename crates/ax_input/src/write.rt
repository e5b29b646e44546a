//! Writes events and output lines.
ghost use Rattle.std.specs.Prelude.{◌≡◌, ◌++◌, ◌∷◌, [], map, OnOk, OnErr};
ghost use Rattle.std.specs.Fmt.{signed_decimal, decimal};
ghost use Rattle.ax_machine.specs.Entries.{Out as OutEntry, Mark as MarkEntry, Watermark, entry_text};
ghost use Rattle.ax_input.specs.Events.{event_text};
ghost use Rattle.ax_machine.specs.OutLines.{spelled, Out, Mark, Head, Value, Item, Entry, Timer, End, behind_spaces};
ghost use Rattle.ax_input.specs.Shown.{shown_event, shown_snap, shown_line};

use crate::draft::Draft;
use crate::event::Event;
use crate::line::{OutLine, SnapLine};
use ax_base::{Bytes, NoMemory, Pair};
use ax_keys::Key;
use itoa::Buffer;
use std::alloc::Global;

// Writes a space and a word.
fn put_word(draft: &mut Draft, word: &[u8]) -> Result<(), NoMemory>
    ensures front { draft.new.front ≡ draft.old.front }
    ensures line { OnOk result (draft.new.line ≡ draft.old.line ++ 32 ∷ word.now) }
{
    draft.put(b" ")?;
    draft.put(word)
}

// Writes a space and a number.
fn put_number(draft: &mut Draft, number: i64) -> Result<(), NoMemory>
    ensures front { draft.new.front ≡ draft.old.front }
    ensures line { OnOk result (draft.new.line ≡ draft.old.line ++ 32 ∷ signed_decimal number) }
{
    let mut digits = Buffer::new();
    put_word(draft, digits.format(number).as_bytes())
}

// Writes a space and a count.
fn put_count(draft: &mut Draft, count: u64) -> Result<(), NoMemory>
    ensures front { draft.new.front ≡ draft.old.front }
    ensures line { OnOk result (draft.new.line ≡ draft.old.line ++ 32 ∷ decimal count) }
{
    let mut digits = Buffer::new();
    put_word(draft, digits.format(count).as_bytes())
}

// Writes numbers, each behind a space.
fn put_numbers(draft: &mut Draft, numbers: &[i64]) -> Result<(), NoMemory>
    ensures front { draft.new.front ≡ draft.old.front }
    ensures line { OnOk result (draft.new.line ≡ draft.old.line ++ behind_spaces (map signed_decimal numbers.now)) }
{
    for number in numbers {
        put_number(draft, *number)?;
    }
    Ok(())
}

// Writes the line of an emit.
fn draft_out(draft: &mut Draft, key: &Key, values: &[i64]) -> Result<(), NoMemory>
    ensures front { draft.new.front ≡ draft.old.front }
    ensures line { OnOk result (draft.new.line ≡ draft.old.line ++ spelled (Out key.now values.now)) }
{
    draft.put(b"o")?;
    put_word(draft, key.as_bytes())?;
    put_numbers(draft, values)?;
    draft.put(b"\n")
}

// Writes the line of a watermark.
fn draft_watermark(draft: &mut Draft, time: i64) -> Result<(), NoMemory>
    ensures front { draft.new.front ≡ draft.old.front }
    ensures line { OnOk result (draft.new.line ≡ draft.old.line ++ spelled (Mark time)) }
{
    draft.put(b"w")?;
    put_number(draft, time)?;
    draft.put(b"\n")
}

// Writes the first word, a key, and the name of a state.
fn put_place(draft: &mut Draft, letter: u8, key: &Key, state: &Bytes) -> Result<(), NoMemory>
    ensures front { draft.new.front ≡ draft.old.front }
    ensures line { OnOk result (draft.new.line ≡ draft.old.line ++ letter ∷ (32 ∷ (key.now ++ 32 ∷ state.now))) }
{
    draft.put(&[letter])?;
    put_word(draft, key.as_bytes())?;
    put_word(draft, state.as_slice())
}

// Writes the head of a block.
fn draft_head(draft: &mut Draft, id: i64, wm: i64) -> Result<(), NoMemory>
    ensures front { draft.new.front ≡ draft.old.front }
    ensures line { OnOk result (draft.new.line ≡ draft.old.line ++ spelled (Head id wm)) }
{
    draft.put(b"s")?;
    put_number(draft, id)?;
    put_number(draft, wm)?;
    draft.put(b"\n")
}

// Writes the line of a value.
fn draft_value(draft: &mut Draft, key: &Key, state: &Bytes, number: i64) -> Result<(), NoMemory>
    ensures front { draft.new.front ≡ draft.old.front }
    ensures line { OnOk result (draft.new.line ≡ draft.old.line ++ spelled (Value key.now state.now number)) }
{
    put_place(draft, b'c', key, state)?;
    put_number(draft, number)?;
    draft.put(b"\n")
}

// Writes the line of an item of a list.
fn draft_item(draft: &mut Draft, key: &Key, state: &Bytes, number: i64) -> Result<(), NoMemory>
    ensures front { draft.new.front ≡ draft.old.front }
    ensures line { OnOk result (draft.new.line ≡ draft.old.line ++ spelled (Item key.now state.now number)) }
{
    put_place(draft, b'l', key, state)?;
    put_number(draft, number)?;
    draft.put(b"\n")
}

// Writes the line of an entry of a map.
fn draft_entry(
    draft: &mut Draft,
    key: &Key,
    state: &Bytes,
    at: i64,
    number: i64,
) -> Result<(), NoMemory>
    ensures front { draft.new.front ≡ draft.old.front }
    ensures line { OnOk result (draft.new.line ≡ draft.old.line ++ spelled (Entry key.now state.now at number)) }
{
    put_place(draft, b'm', key, state)?;
    put_number(draft, at)?;
    put_number(draft, number)?;
    draft.put(b"\n")
}

// Writes the line of a timer.
fn draft_timer(draft: &mut Draft, key: &Key, time: i64) -> Result<(), NoMemory>
    ensures front { draft.new.front ≡ draft.old.front }
    ensures line { OnOk result (draft.new.line ≡ draft.old.line ++ spelled (Timer key.now time)) }
{
    draft.put(b"t")?;
    put_word(draft, key.as_bytes())?;
    put_number(draft, time)?;
    draft.put(b"\n")
}

// Writes the end of a block.
fn draft_end(draft: &mut Draft, id: i64, count: u64) -> Result<(), NoMemory>
    ensures front { draft.new.front ≡ draft.old.front }
    ensures line { OnOk result (draft.new.line ≡ draft.old.line ++ spelled (End id count)) }
{
    draft.put(b"e")?;
    put_number(draft, id)?;
    put_count(draft, count)?;
    draft.put(b"\n")
}

// Writes the line of a block.
fn draft_snap_line(draft: &mut Draft, line: &SnapLine) -> Result<(), NoMemory>
    ensures front { draft.new.front ≡ draft.old.front }
    ensures line { OnOk result (draft.new.line ≡ draft.old.line ++ spelled (shown_snap line.now)) }
{
    match line {
        SnapLine::Head { id, wm } => draft_head(draft, *id, *wm),
        SnapLine::Value { key, state, number } => draft_value(draft, key, state, *number),
        SnapLine::Item { key, state, number } => draft_item(draft, key, state, *number),
        SnapLine::Entry {
            key,
            state,
            at,
            number,
        } => draft_entry(draft, key, state, *at, *number),
        SnapLine::Timer { key, time } => draft_timer(draft, key, *time),
        SnapLine::End { id, count } => draft_end(draft, *id, *count),
    }
}

// Writes an output line.
fn draft_line(draft: &mut Draft, line: &OutLine) -> Result<(), NoMemory>
    ensures front { draft.new.front ≡ draft.old.front }
    ensures line { OnOk result (draft.new.line ≡ draft.old.line ++ spelled (shown_line line.now)) }
{
    match line {
        OutLine::Out { key, values } => draft_out(draft, key, values.as_slice()),
        OutLine::Mark { time } => draft_watermark(draft, *time),
        OutLine::Snap { line } => draft_snap_line(draft, line),
    }
}

// Writes an event.
fn draft_event(draft: &mut Draft, event: &Event) -> Result<(), NoMemory>
    ensures front { draft.new.front ≡ draft.old.front }
    ensures line { OnOk result (draft.new.line ≡ draft.old.line ++ event_text (shown_event event.now)) }
{
    match event {
        Event::Row { key, time, values } => {
            draft.put(b"r")?;
            put_word(draft, key.as_bytes())?;
            put_number(draft, *time)?;
            put_numbers(draft, values.as_slice())?;
            draft.put(b"\n")
        }
        Event::Mark { time } => draft_watermark(draft, *time),
        Event::Barrier { id } => {
            draft.put(b"b")?;
            put_number(draft, *id)?;
            draft.put(b"\n")
        }
    }
}

/// Appends an event with its line feed: its words with one space between them, and numbers without leading zeros. After
/// `NoMemory` the bytes are as before. A row with at most 16 values is read back by `read_event` with as many fields.
pub fn put_event(alloc: Global, out: &mut Bytes, event: &Event) -> Result<(), NoMemory>
    ensures ok { OnOk result (out.new ≡ out.old ++ event_text (shown_event event.now)) }
    ensures err { OnErr result (out.new ≡ out.old) }
{
    let mut draft = Draft::behind(alloc, out);
    let put = draft_event(&mut draft, event);
    draft.end(out, put)
}

/// Appends the line of an emit, with its line feed. After `NoMemory` the bytes are as before.
#[tactic(auto, using(crate::proofs::EntryLemmas::out_spelled))]
pub fn put_out(alloc: Global, out: &mut Bytes, key: &Key, values: &[i64]) -> Result<(), NoMemory>
    ensures ok { OnOk result (out.new ≡ out.old ++ entry_text (OutEntry key.now values.now)) }
    ensures err { OnErr result (out.new ≡ out.old) }
{
    let mut draft = Draft::behind(alloc, out);
    let put = draft_out(&mut draft, key, values);
    draft.end(out, put)
}

/// Appends the line of a watermark, with its line feed. After `NoMemory` the bytes are as before.
#[tactic(auto, using(crate::proofs::EntryLemmas::mark_spelled))]
pub fn put_watermark(alloc: Global, out: &mut Bytes, time: i64) -> Result<(), NoMemory>
    ensures ok { OnOk result (out.new ≡ out.old ++ entry_text (MarkEntry (Watermark time))) }
    ensures err { OnErr result (out.new ≡ out.old) }
{
    let mut draft = Draft::behind(alloc, out);
    let put = draft_watermark(&mut draft, time);
    draft.end(out, put)
}

/// Appends the head of the block of a barrier, with its line feed. After `NoMemory` the bytes are as before.
pub fn put_head(alloc: Global, out: &mut Bytes, id: i64, wm: i64) -> Result<(), NoMemory>
    ensures ok { OnOk result (out.new ≡ out.old ++ spelled (Head id wm)) }
    ensures err { OnErr result (out.new ≡ out.old) }
{
    let mut draft = Draft::behind(alloc, out);
    let put = draft_head(&mut draft, id, wm);
    draft.end(out, put)
}

/// Appends the line of a value state, with its line feed. After `NoMemory` the bytes are as before.
pub fn put_value(
    alloc: Global,
    out: &mut Bytes,
    key: &Key,
    state: &Bytes,
    number: i64,
) -> Result<(), NoMemory>
    ensures ok { OnOk result (out.new ≡ out.old ++ spelled (Value key.now state.now number)) }
    ensures err { OnErr result (out.new ≡ out.old) }
{
    let mut draft = Draft::behind(alloc, out);
    let put = draft_value(&mut draft, key, state, number);
    draft.end(out, put)
}

/// Appends the line of an item of a list state, with its line feed. After `NoMemory` the bytes are as before.
pub fn put_item(
    alloc: Global,
    out: &mut Bytes,
    key: &Key,
    state: &Bytes,
    number: i64,
) -> Result<(), NoMemory>
    ensures ok { OnOk result (out.new ≡ out.old ++ spelled (Item key.now state.now number)) }
    ensures err { OnErr result (out.new ≡ out.old) }
{
    let mut draft = Draft::behind(alloc, out);
    let put = draft_item(&mut draft, key, state, number);
    draft.end(out, put)
}

/// Appends the line of an entry of a map state, with its line feed. After `NoMemory` the bytes are as before.
pub fn put_entry(
    alloc: Global,
    out: &mut Bytes,
    key: &Key,
    state: &Bytes,
    entry: Pair,
) -> Result<(), NoMemory>
    ensures ok { OnOk result (out.new ≡ out.old ++ spelled (Entry key.now state.now entry.at entry.number)) }
    ensures err { OnErr result (out.new ≡ out.old) }
{
    let mut draft = Draft::behind(alloc, out);
    let put = draft_entry(&mut draft, key, state, entry.at, entry.number);
    draft.end(out, put)
}

/// Appends the line of a timer, with its line feed. After `NoMemory` the bytes are as before.
pub fn put_timer(alloc: Global, out: &mut Bytes, key: &Key, time: i64) -> Result<(), NoMemory>
    ensures ok { OnOk result (out.new ≡ out.old ++ spelled (Timer key.now time)) }
    ensures err { OnErr result (out.new ≡ out.old) }
{
    let mut draft = Draft::behind(alloc, out);
    let put = draft_timer(&mut draft, key, time);
    draft.end(out, put)
}

/// Appends the end of a block, with the number of lines between head and end, with its line feed. After `NoMemory` the bytes are as before.
pub fn put_end(alloc: Global, out: &mut Bytes, id: i64, count: u64) -> Result<(), NoMemory>
    ensures ok { OnOk result (out.new ≡ out.old ++ spelled (End id count)) }
    ensures err { OnErr result (out.new ≡ out.old) }
{
    let mut draft = Draft::behind(alloc, out);
    let put = draft_end(&mut draft, id, count);
    draft.end(out, put)
}

/// Appends an output line with its line feed: its words with one space between them, and numbers without leading zeros.
/// After `NoMemory` the bytes are as before.
pub fn put_out_line(alloc: Global, out: &mut Bytes, line: &OutLine) -> Result<(), NoMemory>
    ensures ok { OnOk result (out.new ≡ out.old ++ spelled (shown_line line.now)) }
    ensures err { OnErr result (out.new ≡ out.old) }
{
    let mut draft = Draft::behind(alloc, out);
    let put = draft_line(&mut draft, line);
    draft.end(out, put)
}
