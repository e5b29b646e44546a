//! The words of a line.
ghost use Rattle.std.specs.Prelude.{◌≡◌, [], ◌∷◌, ◌≤◌, ◌<◌, false, slice_index, length, drop, take, MatchOption, All, IsTrue, ◌↔◌};
ghost use Rattle.std.specs.Iterator.{YieldsFirstRef, item_count};
ghost use Rattle.ax_base.specs.Words.{words_of, is_space, before_words};

use std::marker::Model;

// Whether a byte parts words.
fn is_space(b: u8) -> bool
    ensures { result ≡ is_space b }
{
    b == b' ' || b == b'\t' || b == b'\r'
}

// How many spaces stand in front.
fn spaces(text: &[u8]) -> usize
    ensures within { result ≤ length text.now }
    ensures same { words_of (drop result text.now) ≡ words_of text.now }
    ensures word { result < length text.now → is_space (slice_index text.now result) ≡ false }
{
    for (i, b) in text.iter().enumerate() {
        if !is_space(*b) {
            return i;
        }
    }
    text.len()
}

// How many bytes stand before the first space.
fn word_len(text: &[u8]) -> usize
    ensures within { result ≤ length text.now }
    ensures some { 0 < length text.now → is_space (slice_index text.now 0) ≡ false → 0 < result }
    ensures word { words_of text.now ≡ before_words (take result text.now) (words_of (drop result text.now)) }
{
    for (i, b) in text.iter().enumerate() {
        if is_space(*b) {
            return i;
        }
    }
    text.len()
}

/// The first word of a text, and what follows it. `None` comes exactly where there is no word:
/// the line is blank.
pub fn first_word(text: &[u8]) -> Option<(&[u8], &[u8])>
    ensures word { MatchOption result (words_of text.now ≡ []) (λ r. words_of text.now ≡ r.0.now ∷ words_of r.1.now) }
    ensures shorter { MatchOption result (Unit {0}) (λ r. length r.1.now < length text.now) }
{
    let text = &text[spaces(text)..];
    if text.is_empty() {
        return None;
    }
    let n = word_len(text);
    Some((&text[..n], &text[n..]))
}

/// The words that are still to come of a text, in order. It takes no memory.
///
/// Contracts see it as the list of these words.
#[derive(Drop)]
pub struct Words<'a> {
    rest: &'a [u8],
}

impl<'a> Model for Words<'a> {
    ghost use Rattle.std.specs.Prelude.{List, ℕ};
    ghost use Rattle.ax_base.specs.Words.{words_of};

    ghost Value = { List (List ℕ) };

    ghost view = { λ s. words_of s.rest.now };
}

/// The words of a text: its longest pieces without space (0x20), tab (0x09) and CR (0x0D).
pub fn split_words(text: &[u8]) -> Words<'_>
    ensures { result ≡ words_of text.now }
{
    Words { rest: text }
}

impl<'a> Iterator for Words<'a> {
    type Item = &'a [u8];

    ghost next_gives = { YieldsFirstRef (λ s. s) };

    ghost remaining = { item_count (λ s. s) };

    fn next(&mut self) -> Option<&'a [u8]> {
        let (word, rest) = first_word(self.rest)?;
        self.rest = rest;
        Some(word)
    }
}
