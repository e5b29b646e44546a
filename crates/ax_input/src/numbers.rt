//! Words that are numbers.
ghost use Rattle.std.specs.Prelude.{◌≡◌, ◌==◌, length, true, false, IfOk, MatchOption};
ghost use Rattle.ax_base.specs.Words.{words_of};
ghost use Rattle.ax_input.specs.Spellings.{numbers_of, one_number, two_numbers};
ghost use Rattle.ax_input.specs.OutLines.{is_few};
ghost use Rattle.ax_input.specs.Values.{ReadsValues, IsWithout};

use ax_base::words::first_word;
use ax_base::{NoMemory, Nums, read_i64, split_words};
use std::alloc::Global;

// The most values of a row, and the most numbers of an emit.
const MOST: u8 = 16;

// Whether a text has so many words.
fn has_words(text: &[u8], count: u8) -> bool
    ensures { result ≡ (length (words_of text.now) == count) }
{
    let mut missing = count;
    for _word in split_words(text) {
        if missing == 0 {
            return false;
        }
        missing -= 1;
    }
    missing == 0
}

// How many words a text has, where they are 1 to 16.
pub(crate) fn few_words(text: &[u8]) -> Option<u8>
    ensures { MatchOption result (is_few (length (words_of text.now)) ≡ false) (λ n. (n ≡ length (words_of text.now)) × (is_few n ≡ true)) }
{
    let mut count: u8 = 0;
    for _word in split_words(text) {
        if count == MOST {
            return None;
        }
        count += 1;
    }
    if count == 0 { None } else { Some(count) }
}

// What the words behind a row's time are.
#[derive(Drop)]
pub(crate) enum RowValues {
    // As many words as a row has values, each a number.
    Are(Nums),
    // As many words, of which one is no number.
    NoNumber,
    // More words, or fewer.
    OtherCount,
}

// The values of a row that has so many, from the words behind its time. Each word is looked at once.
#[tactic(auto, using(crate::proofs::NumberLemmas::onto_nil, crate::proofs::NumberLemmas::onto_number, crate::proofs::NumberLemmas::onto_no_number))]
pub(crate) fn row_values(alloc: Global, text: &[u8], fields: u8) -> Result<RowValues, NoMemory>
    ensures { ReadsValues fields (words_of text.now) result }
{
    let Ok(mut numbers) = Vec::with_capacity(alloc, usize::from(fields)) else {
        return Err(NoMemory);
    };
    let mut missing = fields;
    let mut text = text;
    'word: while let Some((word, rest)) = first_word(text) {
        if missing == 0 {
            return Ok(RowValues::OtherCount);
        }
        missing -= 1;
        text = rest;
        let Some(number) = read_i64(word) else {
            return Ok(without_number(rest, missing));
        };
        if numbers.push(number).is_err() {
            return Err(NoMemory);
        }
    }
    if missing == 0 {
        Ok(RowValues::Are(Nums::from_vec(numbers)))
    } else {
        Ok(RowValues::OtherCount)
    }
}

// What the values of a row are in which a word was no number, where so many words are still to come.
fn without_number(text: &[u8], missing: u8) -> RowValues
    ensures { IsWithout missing (words_of text.now) result }
{
    if has_words(text, missing) {
        RowValues::NoNumber
    } else {
        RowValues::OtherCount
    }
}

// The numbers that all words are, of which there may be so many without taking more memory; `None` where one is no
// number.
#[tactic(auto, using(crate::proofs::NumberLemmas::onto_nil, crate::proofs::NumberLemmas::onto_number, crate::proofs::NumberLemmas::onto_no_number))]
pub(crate) fn numbers(alloc: Global, text: &[u8], count: u8) -> Result<Option<Nums>, NoMemory>
    ensures { IfOk result (λ numbers. numbers ≡ numbers_of (words_of text.now)) }
{
    let Ok(mut numbers) = Vec::with_capacity(alloc, usize::from(count)) else {
        return Err(NoMemory);
    };
    for word in split_words(text) {
        let Some(number) = read_i64(word) else {
            return Ok(None);
        };
        if numbers.push(number).is_err() {
            return Err(NoMemory);
        }
    }
    Ok(Some(Nums::from_vec(numbers)))
}

// The number that the only word is.
pub(crate) fn one_number(text: &[u8]) -> Option<i64>
    ensures { result ≡ one_number (words_of text.now) }
{
    let (word, rest) = first_word(text)?;
    match first_word(rest) {
        Some(_) => None,
        None => read_i64(word),
    }
}

// The numbers that the only two words are.
pub(crate) fn two_numbers(text: &[u8]) -> Option<(i64, i64)>
    ensures { result ≡ two_numbers (words_of text.now) }
{
    let (word, rest) = first_word(text)?;
    let first = read_i64(word)?;
    let second = one_number(rest)?;
    Some((first, second))
}
