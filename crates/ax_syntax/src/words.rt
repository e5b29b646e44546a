//! What the words of a line are.
ghost use Rattle.std.specs.Prelude.{◌≡◌, IfOk};
ghost use Rattle.std.specs.List.{list_all};
ghost use Rattle.ax_base.specs.Numbers.{is_digit, are_digits, number_of};
ghost use Rattle.ax_base.specs.Words.{words_of};
ghost use Rattle.ax_text.specs.Names.{same_word, keyword_of, is_letter, is_name_byte, is_lettered, is_value_word, is_name};
ghost use Rattle.ax_syntax.specs.Words.{from_one_to_sixteen, unpadded, field_number, sign_of, is_moment, is_operand};

use ax_base::{Bytes, ListOf, NoMemory, read_i64, split_words};
use ax_text::{Keyword, Op};
use std::alloc::Global;

/// The words of a text, in order: its longest pieces without space, tab and carriage return. Fails only for want of memory.
pub fn words(alloc: Global, text: &[u8]) -> Result<ListOf<Bytes>, NoMemory>
    ensures { IfOk result (λ ws. ws ≡ words_of text.now) }
{
    let mut words = ListOf::new(alloc);
    for word in split_words(text) {
        words.push(ListOf::from_slice(alloc, word)?)?;
    }
    Ok(words)
}

/// Whether two words are equal.
pub fn same(a: &[u8], b: &[u8]) -> bool
    ensures { result ≡ same_word a.now b.now }
{
    a == b
}

/// The reserved word that a word is.
#[tactic(auto, unfolding(ax_text::specs::Names::keyword_of))]
pub fn keyword_of(word: &[u8]) -> Option<Keyword>
    ensures { result ≡ keyword_of word.now }
{
    if same(word, b"input") {
        Some(Keyword::Input)
    } else if same(word, b"state") {
        Some(Keyword::State)
    } else if same(word, b"value") {
        Some(Keyword::Value)
    } else if same(word, b"list") {
        Some(Keyword::List)
    } else if same(word, b"map") {
        Some(Keyword::Map)
    } else if same(word, b"reducing") {
        Some(Keyword::Reducing)
    } else if same(word, b"sum") {
        Some(Keyword::Sum)
    } else if same(word, b"min") {
        Some(Keyword::Min)
    } else if same(word, b"max") {
        Some(Keyword::Max)
    } else if same(word, b"on") {
        Some(Keyword::On)
    } else if same(word, b"row") {
        Some(Keyword::Row)
    } else if same(word, b"timer") {
        Some(Keyword::Timer)
    } else if same(word, b"end") {
        Some(Keyword::End)
    } else if same(word, b"let") {
        Some(Keyword::Let)
    } else if same(word, b"get") {
        Some(Keyword::Get)
    } else if same(word, b"or") {
        Some(Keyword::Or)
    } else if same(word, b"has") {
        Some(Keyword::Has)
    } else if same(word, b"empty") {
        Some(Keyword::Empty)
    } else if same(word, b"put") {
        Some(Keyword::Put)
    } else if same(word, b"add") {
        Some(Keyword::Add)
    } else if same(word, b"remove") {
        Some(Keyword::Remove)
    } else if same(word, b"clear") {
        Some(Keyword::Clear)
    } else if same(word, b"if") {
        Some(Keyword::If)
    } else if same(word, b"else") {
        Some(Keyword::Else)
    } else if same(word, b"each") {
        Some(Keyword::Each)
    } else if same(word, b"in") {
        Some(Keyword::In)
    } else if same(word, b"both") {
        Some(Keyword::Both)
    } else if same(word, b"with") {
        Some(Keyword::With)
    } else if same(word, b"emit") {
        Some(Keyword::Emit)
    } else if same(word, b"untimer") {
        Some(Keyword::Untimer)
    } else if same(word, b"time") {
        Some(Keyword::Time)
    } else if same(word, b"wm") {
        Some(Keyword::Wm)
    } else {
        None
    }
}

fn is_letter(b: u8) -> bool
    ensures { result ≡ is_letter b }
{
    b >= b'a' && b <= b'z'
}

fn is_digit(b: u8) -> bool
    ensures { result ≡ is_digit b }
{
    b >= b'0' && b <= b'9'
}

// A byte of a name behind its first.
fn is_name_byte(b: u8) -> bool
    ensures { result ≡ is_name_byte b }
{
    is_letter(b) || is_digit(b) || b == b'_'
}

fn are_name_bytes(word: &[u8]) -> bool
    ensures { result ≡ list_all is_name_byte word.now }
{
    word.iter().all(|b| is_name_byte(*b))
}

// A letter and up to 31 letters, digits and `_`.
fn is_lettered(word: &[u8]) -> bool
    ensures { result ≡ is_lettered word.now }
{
    match word {
        [] => false,
        [first, rest @ ..] => { is_letter(*first) && are_name_bytes(rest) && rest.len() <= 31 }
    }
}

fn all_digits(word: &[u8]) -> bool
    ensures { result ≡ list_all is_digit word.now }
{
    word.iter().all(|b| is_digit(*b))
}

// One or more digits.
fn are_digits(word: &[u8]) -> bool
    ensures { result ≡ are_digits word.now }
{
    !word.is_empty() && all_digits(word)
}

/// Whether a word is `v` and one or more digits, as the values of the row are named. Such a word is reserved.
pub fn is_value_word(word: &[u8]) -> bool
    ensures { result ≡ is_value_word word.now }
{
    match word {
        [b'v', digits @ ..] => are_digits(digits),
        _ => false,
    }
}

/// Whether a word is a name: a letter from `a` to `z` and up to 31 such letters, digits and `_`, and not reserved.
#[tactic(auto, unfolding(ax_text::specs::Names::is_name))]
pub fn is_name(word: &[u8]) -> bool
    ensures { result ≡ is_name word.now }
{
    is_lettered(word) && keyword_of(word).is_none() && !is_value_word(word)
}

// The number of a value, spelled without a leading zero.
fn unpadded(digits: &[u8]) -> Option<u8>
    ensures { result ≡ unpadded digits.now }
{
    match digits {
        [] => None,
        [b'0', ..] => None,
        _ => from_one_to_sixteen(digits),
    }
}

fn from_one_to_sixteen(digits: &[u8]) -> Option<u8>
    ensures { result ≡ from_one_to_sixteen (number_of digits.now) }
{
    let n = read_i64(digits)?;
    if n >= 1 && n <= 16 {
        Some(n as u8)
    } else {
        None
    }
}

/// The value of the row, from 1 to 16, that a word names: `v` and its number without a leading zero.
#[tactic(auto, unfolding(crate::specs::Words::field_number))]
pub fn field_number(word: &[u8]) -> Option<u8>
    ensures { result ≡ field_number word.now }
{
    match word {
        [b'v', digits @ ..] => unpadded(digits),
        _ => None,
    }
}

/// The sign that a word is.
#[tactic(auto, unfolding(crate::specs::Words::sign_of))]
pub fn sign_of(word: &[u8]) -> Option<Op>
    ensures { result ≡ sign_of word.now }
{
    if same(word, b"<") {
        Some(Op::Less)
    } else if same(word, b"<=") {
        Some(Op::AtMost)
    } else if same(word, b"==") {
        Some(Op::Equal)
    } else if same(word, b"!=") {
        Some(Op::Differs)
    } else if same(word, b">=") {
        Some(Op::AtLeast)
    } else if same(word, b">") {
        Some(Op::Greater)
    } else if same(word, b"+") {
        Some(Op::Add)
    } else if same(word, b"-") {
        Some(Op::Subtract)
    } else if same(word, b"*") {
        Some(Op::Multiply)
    } else if same(word, b"/") {
        Some(Op::Divide)
    } else if same(word, b"%") {
        Some(Op::Remainder)
    } else {
        None
    }
}

// Whether a word is `time` or `wm`.
fn is_moment(word: &[u8]) -> bool
    ensures { result ≡ is_moment (keyword_of word.now) }
{
    matches!(keyword_of(word), Some(Keyword::Time | Keyword::Wm))
}

/// Whether a word is an operand by its form: a number of 64 bits, a name, `time`, `wm`, or `v` and digits.
#[tactic(auto, unfolding(crate::specs::Words::is_operand))]
pub fn is_operand(word: &[u8]) -> bool
    ensures { result ≡ is_operand word.now }
{
    read_i64(word).is_some() || is_name(word) || is_moment(word) || is_value_word(word)
}
