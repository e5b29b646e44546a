//! The lines of events.
ghost use Rattle.std.specs.Prelude.{◌≡◌, ◌∷◌, MatchOption};
ghost use Rattle.ax_base.specs.Words.{words_of};
ghost use Rattle.ax_input.specs.Events.{is_skipped, only_word, row_by, mark_by, barrier_by, event_by, event_of};
ghost use Rattle.ax_input.specs.Reads.{ReadsEvent, ReadsLine, SplitsRow};

use crate::numbers::{RowValues, row_values};
use ax_base::words::first_word;
use ax_base::{NoMemory, Nums, read_i64};
use ax_keys::Key;
use ax_syntax::words::same;
use std::alloc::Global;
use thiserror::Error;

/// An event.
#[derive(Debug, PartialEq, Eq, Drop)]
pub enum Event {
    /// A row of a key, with as many values as the program's rows have, at most 16.
    Row { key: Key, time: i64, values: Nums },
    /// A watermark. It is meant to say that no row of this time or before it is still to come; nobody checks that, and a row that comes
    /// late all the same is taken like any other.
    Mark { time: i64 },
    /// A barrier, at which a snapshot is taken. Its ID is 1 or more.
    Barrier { id: i64 },
}

/// Why a line gives no event: its first fault.
#[derive(Clone, Copy, Debug, PartialEq, Eq, Error)]
pub enum EventFault {
    /// The first word begins no event.
    #[error("the first word begins no event")]
    Word,
    /// The key isn't 1 to 256 printing bytes.
    #[error("the key is none")]
    Key,
    /// A time, a value or an ID is no number of 64 bits, or the ID is below 1.
    #[error("a word is no such number")]
    Number,
    /// There are more words, or fewer, than the event has.
    #[error("the number of words is wrong")]
    Count,
    /// Memory was short.
    #[error("memory was short")]
    NoMemory,
}

/// Whether a line is blank or a comment: it has no word, or its first word begins with `#`. It takes no memory.
pub fn is_skipped(text: &[u8]) -> bool
    ensures { result ≡ is_skipped text.now }
{
    match first_word(text) {
        None => true,
        Some((word, _)) => matches!(word, [b'#', ..]),
    }
}

// The words of a row behind its first.
#[derive(Clone, Copy)]
struct RowWords<'a> {
    key: &'a [u8],
    time: &'a [u8],
    values: &'a [u8],
}

// The parts of a row, where it has a key and a time.
fn row_words(text: &[u8]) -> Option<RowWords<'_>>
    ensures { SplitsRow (words_of text.now) result }
{
    let (key, text) = first_word(text)?;
    let (time, values) = first_word(text)?;
    Some(RowWords { key, time, values })
}

// The row that these words are, behind its first word.
fn read_row(alloc: Global, text: &[u8], fields: u8) -> Result<Event, EventFault>
    ensures { ReadsEvent (row_by fields (words_of text.now)) result }
{
    let Some(words) = row_words(text) else {
        return Err(EventFault::Count);
    };
    let values = match row_values(alloc, words.values, fields) {
        Ok(RowValues::OtherCount) => return Err(EventFault::Count),
        Ok(values) => values,
        Err(NoMemory) => return Err(EventFault::NoMemory),
    };
    let key = match Key::read(alloc, words.key) {
        Ok(Some(key)) => key,
        Ok(None) => return Err(EventFault::Key),
        Err(NoMemory) => return Err(EventFault::NoMemory),
    };
    let Some(time) = read_i64(words.time) else {
        return Err(EventFault::Number);
    };
    match values {
        RowValues::Are(values) => Ok(Event::Row { key, time, values }),
        _ => Err(EventFault::Number),
    }
}

// The only word of a text; `None` where there is none, or another behind it.
fn only_word(text: &[u8]) -> Option<&[u8]>
    ensures { MatchOption result (only_word (words_of text.now) ≡ None) (λ word. only_word (words_of text.now) ≡ Some word.now) }
{
    let (word, rest) = first_word(text)?;
    match first_word(rest) {
        Some(_) => None,
        None => Some(word),
    }
}

// The watermark that these words are, behind its first word.
fn read_mark(text: &[u8]) -> Result<Event, EventFault>
    ensures { ReadsEvent (mark_by (only_word (words_of text.now))) result }
{
    let Some(time) = only_word(text) else {
        return Err(EventFault::Count);
    };
    match read_i64(time) {
        Some(time) => Ok(Event::Mark { time }),
        None => Err(EventFault::Number),
    }
}

// The barrier that these words are, behind its first word.
fn read_barrier(text: &[u8]) -> Result<Event, EventFault>
    ensures { ReadsEvent (barrier_by (only_word (words_of text.now))) result }
{
    let Some(id) = only_word(text) else {
        return Err(EventFault::Count);
    };
    match read_i64(id) {
        Some(id) if id >= 1 => Ok(Event::Barrier { id }),
        _ => Err(EventFault::Number),
    }
}

// The event that begins with this word and goes on with this text.
fn read_by(alloc: Global, word: &[u8], rest: &[u8], fields: u8) -> Result<Event, EventFault>
    ensures { ReadsEvent (event_by fields (word.now ∷ words_of rest.now)) result }
{
    if same(word, b"r") {
        return read_row(alloc, rest, fields);
    }
    if same(word, b"w") {
        return read_mark(rest);
    }
    if same(word, b"b") {
        read_barrier(rest)
    } else {
        Err(EventFault::Word)
    }
}

/// The event of a line, where a row has so many values: `r KEY TIME V1 .. VN`, `w TIME` or `b ID`.
///
/// Each fault comes exactly where the first fault is of that kind; `NoMemory` is free. They are tried in this order: Word,
/// Count, Key, Number. Blank lines and comments are told by `is_skipped`; here they are faults of kind Word.
#[tactic(auto, unfolding(crate::specs::Events::event_of))]
pub fn read_event(alloc: Global, text: &[u8], fields: u8) -> Result<Event, EventFault>
    ensures { ReadsEvent (event_of fields text.now) result }
{
    match first_word(text) {
        Some((word, rest)) => read_by(alloc, word, rest, fields),
        None => Err(EventFault::Word),
    }
}

/// The event of a line, and `None` exactly where the line is blank or a comment: `is_skipped` and `read_event` in one, which looks at
/// the line's first word once. `NoMemory` comes for want of memory alone, any other fault is the line's own.
#[tactic(auto, unfolding(crate::specs::Events::event_of))]
pub fn read_line(alloc: Global, text: &[u8], fields: u8) -> Result<Option<Event>, EventFault>
    ensures { ReadsLine (is_skipped text.now) (event_of fields text.now) result }
{
    let Some((word, rest)) = first_word(text) else {
        return Ok(None);
    };
    if matches!(word, [b'#', ..]) {
        return Ok(None);
    }
    match read_by(alloc, word, rest, fields) {
        Ok(event) => Ok(Some(event)),
        Err(fault) => Err(fault),
    }
}
