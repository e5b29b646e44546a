//! Reads output lines.
ghost use Rattle.std.specs.Prelude.{◌≡◌, true, false, IfOk, MatchOption};
ghost use Rattle.ax_base.specs.Words.{words_of};
ghost use Rattle.ax_input.specs.Spellings.{one_number, two_numbers};
ghost use Rattle.ax_input.specs.OutLines.{is_place, out_of, mark_by, head_by, value_of, item_of, entry_of, timer_of, end_by, snap_line_by, out_line_of};
ghost use Rattle.ax_input.specs.Shown.{snap_some, line_some};

use crate::line::{OutLine, SnapLine};
use crate::numbers::{few_words, numbers, one_number, two_numbers};
use ax_base::words::first_word;
use ax_base::{Bytes, NoMemory};
use ax_keys::Key;
use ax_syntax::words::{is_name, same};
use std::alloc::Global;

// A state of a key.
struct Place {
    key: Key,
    state: Bytes,
}

// The state that two words name.
fn read_place(alloc: Global, key: &[u8], state: &[u8]) -> Result<Option<Place>, NoMemory>
    ensures { IfOk result (λ place. MatchOption place (is_place key.now state.now ≡ false) (λ p. (p.key ≡ key.now) × (p.state ≡ state.now) × (is_place key.now state.now ≡ true))) }
{
    if !is_name(state) {
        return Ok(None);
    }
    match Key::read(alloc, key)? {
        Some(key) => Ok(Some(Place {
            key,
            state: Bytes::from_slice(alloc, state)?,
        })),
        None => Ok(None),
    }
}

fn read_out(alloc: Global, text: &[u8]) -> Result<Option<OutLine>, NoMemory>
    ensures { IfOk result (λ line. line_some line ≡ out_of (words_of text.now)) }
{
    let Some((key, text)) = first_word(text) else {
        return Ok(None);
    };
    let Some(count) = few_words(text) else {
        return Ok(None);
    };
    let Some(values) = numbers(alloc, text, count)? else {
        return Ok(None);
    };
    match Key::read(alloc, key)? {
        Some(key) => Ok(Some(OutLine::Out { key, values })),
        None => Ok(None),
    }
}

fn read_mark(text: &[u8]) -> Option<OutLine>
    ensures { line_some result ≡ mark_by (one_number (words_of text.now)) }
{
    let time = one_number(text)?;
    Some(OutLine::Mark { time })
}

fn read_head(text: &[u8]) -> Option<SnapLine>
    ensures { snap_some result ≡ head_by (two_numbers (words_of text.now)) }
{
    let (id, wm) = two_numbers(text)?;
    Some(SnapLine::Head { id, wm })
}

fn read_value(alloc: Global, text: &[u8]) -> Result<Option<SnapLine>, NoMemory>
    ensures { IfOk result (λ line. snap_some line ≡ value_of (words_of text.now)) }
{
    let Some((key, text)) = first_word(text) else {
        return Ok(None);
    };
    let Some((state, text)) = first_word(text) else {
        return Ok(None);
    };
    let Some(number) = one_number(text) else {
        return Ok(None);
    };
    match read_place(alloc, key, state)? {
        Some(Place { key, state }) => Ok(Some(SnapLine::Value { key, state, number })),
        None => Ok(None),
    }
}

fn read_item(alloc: Global, text: &[u8]) -> Result<Option<SnapLine>, NoMemory>
    ensures { IfOk result (λ line. snap_some line ≡ item_of (words_of text.now)) }
{
    let Some((key, text)) = first_word(text) else {
        return Ok(None);
    };
    let Some((state, text)) = first_word(text) else {
        return Ok(None);
    };
    let Some(number) = one_number(text) else {
        return Ok(None);
    };
    match read_place(alloc, key, state)? {
        Some(Place { key, state }) => Ok(Some(SnapLine::Item { key, state, number })),
        None => Ok(None),
    }
}

fn read_entry(alloc: Global, text: &[u8]) -> Result<Option<SnapLine>, NoMemory>
    ensures { IfOk result (λ line. snap_some line ≡ entry_of (words_of text.now)) }
{
    let Some((key, text)) = first_word(text) else {
        return Ok(None);
    };
    let Some((state, text)) = first_word(text) else {
        return Ok(None);
    };
    let Some((at, number)) = two_numbers(text) else {
        return Ok(None);
    };
    match read_place(alloc, key, state)? {
        Some(Place { key, state }) => Ok(Some(SnapLine::Entry {
            key,
            state,
            at,
            number,
        })),
        None => Ok(None),
    }
}

fn read_timer(alloc: Global, text: &[u8]) -> Result<Option<SnapLine>, NoMemory>
    ensures { IfOk result (λ line. snap_some line ≡ timer_of (words_of text.now)) }
{
    let Some((key, text)) = first_word(text) else {
        return Ok(None);
    };
    let Some(time) = one_number(text) else {
        return Ok(None);
    };
    match Key::read(alloc, key)? {
        Some(key) => Ok(Some(SnapLine::Timer { key, time })),
        None => Ok(None),
    }
}

fn read_end(text: &[u8]) -> Option<SnapLine>
    ensures { snap_some result ≡ end_by (two_numbers (words_of text.now)) }
{
    let (id, count) = two_numbers(text)?;
    if count < 0 {
        None
    } else {
        Some(SnapLine::End {
            id,
            count: count as u64,
        })
    }
}

// The line of a block that begins with this word and goes on with this text.
fn read_snap_line(alloc: Global, word: &[u8], text: &[u8]) -> Result<Option<SnapLine>, NoMemory>
    ensures { IfOk result (λ line. snap_some line ≡ snap_line_by word.now (words_of text.now)) }
{
    if same(word, b"s") {
        Ok(read_head(text))
    } else if same(word, b"c") {
        read_value(alloc, text)
    } else if same(word, b"l") {
        read_item(alloc, text)
    } else if same(word, b"m") {
        read_entry(alloc, text)
    } else if same(word, b"t") {
        read_timer(alloc, text)
    } else if same(word, b"e") {
        Ok(read_end(text))
    } else {
        Ok(None)
    }
}

/// The output line that a text spells, without its line feed. `None` comes exactly where the text has none of the shapes
/// of an output line; want of memory alone is an error. Further spaces, tabs and carriage returns between words, and
/// leading zeros, are accepted.
pub fn read_out_line(alloc: Global, text: &[u8]) -> Result<Option<OutLine>, NoMemory>
    ensures { IfOk result (λ line. line_some line ≡ out_line_of (words_of text.now)) }
{
    let Some((word, text)) = first_word(text) else {
        return Ok(None);
    };
    if same(word, b"o") {
        return read_out(alloc, text);
    }
    if same(word, b"w") {
        return Ok(read_mark(text));
    }
    match read_snap_line(alloc, word, text)? {
        Some(line) => Ok(Some(OutLine::Snap { line })),
        None => Ok(None),
    }
}
