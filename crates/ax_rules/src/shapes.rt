//! What a line says by itself.
ghost use Rattle.std.specs.Prelude.{◌≡◌, ◌++◌, ◌∷◌, [], OnOk};
ghost use Rattle.std.specs.Option.{option_copied};
ghost use Rattle.ax_syntax.specs.Shapes.{shown_shape};
ghost use Rattle.ax_rules.specs.Lines.{names_of};
ghost use Rattle.ax_rules.specs.Parts.{mem, set_of, also_of, reads_of, more_of, use_of, changes, is_loud, is_statement, opens, with_word, index_of, onto, numbers_in, number_some};

use crate::tables::DeclaredState;
use ax_base::{Bytes, Duplicate, ListOf, NoMemory};
use ax_syntax::Shape;
use ax_syntax::words::same;
use std::alloc::Global;

/// Whether a word is among others.
pub fn mem(word: &[u8], words: &[Bytes]) -> bool
    ensures { result ≡ mem word.now words.now }
{
    for other in words {
        if same(other.as_slice(), word) {
            return true;
        }
    }
    false
}

/// The local name that a line assigns.
pub fn set_of<'a>(shape: &Shape<'a>) -> Option<&'a Bytes>
    ensures { option_copied result ≡ set_of (shown_shape shape.now) }
{
    match shape {
        Shape::Let(name, _) => Some(name),
        Shape::Get(name, _, _) => Some(name),
        Shape::GetAt(name, _, _, _) => Some(name),
        Shape::Has(name, _, _) => Some(name),
        Shape::Empty(name, _) => Some(name),
        Shape::Each(name, _) => Some(name),
        Shape::EachPair(key, _, _) => Some(key),
        _ => None,
    }
}

/// The second name of an `each` over a map.
pub fn also_of<'a>(shape: &Shape<'a>) -> Option<&'a Bytes>
    ensures { option_copied result ≡ also_of (shown_shape shape.now) }
{
    match shape {
        Shape::EachPair(_, number, _) => Some(number),
        _ => None,
    }
}

/// The words of a line's expressions, with the commas between them.
pub fn reads_of<'a>(shape: &Shape<'a>) -> &'a [Bytes]
    ensures { result.now ≡ reads_of (shown_shape shape.now) }
{
    match shape {
        Shape::Let(_, value) => value,
        Shape::Get(_, _, missing) => missing,
        Shape::GetAt(_, _, at, _) => at,
        Shape::Has(_, _, at) => at,
        Shape::Put(_, values) => values,
        Shape::Add(_, value) => value,
        Shape::Remove(_, at) => at,
        Shape::If(test) => test,
        Shape::Emit(values) => values,
        Shape::Timer(time) => time,
        Shape::Untimer(time) => time,
        _ => &[],
    }
}

/// The words behind the `or` of a map's `get`.
pub fn more_of<'a>(shape: &Shape<'a>) -> &'a [Bytes]
    ensures { result.now ≡ more_of (shown_shape shape.now) }
{
    match shape {
        Shape::GetAt(_, _, _, missing) => missing,
        _ => &[],
    }
}

/// The word in a state's place.
pub fn use_of<'a>(shape: &Shape<'a>) -> Option<&'a Bytes>
    ensures { option_copied result ≡ use_of (shown_shape shape.now) }
{
    match shape {
        Shape::Get(_, state, _) => Some(state),
        Shape::GetAt(_, state, _, _) => Some(state),
        Shape::Has(_, state, _) => Some(state),
        Shape::Empty(_, state) => Some(state),
        Shape::Put(state, _) => Some(state),
        Shape::Add(state, _) => Some(state),
        Shape::Remove(state, _) => Some(state),
        Shape::Clear(state) => Some(state),
        Shape::Each(_, state) => Some(state),
        Shape::EachPair(_, _, state) => Some(state),
        _ => None,
    }
}

/// Whether a line changes its state.
pub fn changes(shape: &Shape) -> bool
    ensures { result ≡ changes (shown_shape shape.now) }
{
    matches!(
        shape,
        Shape::Put(..) | Shape::Add(..) | Shape::Remove(..) | Shape::Clear(_)
    )
}

/// Whether a line writes, or sets a timer or takes one off.
pub fn is_loud(shape: &Shape) -> bool
    ensures { result ≡ is_loud (shown_shape shape.now) }
{
    matches!(shape, Shape::Emit(_) | Shape::Timer(_) | Shape::Untimer(_))
}

/// Whether a line is one of the statements that are counted.
pub fn is_statement(shape: &Shape) -> bool
    ensures { result ≡ is_statement (shown_shape shape.now) }
{
    !matches!(
        shape,
        Shape::Input(_)
            | Shape::State(..)
            | Shape::OnRow
            | Shape::OnTimer
            | Shape::End
            | Shape::Else
            | Shape::With
    )
}

/// Whether a line begins a block.
pub fn opens(shape: &Shape) -> bool
    ensures { result ≡ opens (shown_shape shape.now) }
{
    matches!(
        shape,
        Shape::If(_) | Shape::Each(..) | Shape::EachPair(..) | Shape::Both
    )
}

/// Adds a word that isn't there.
pub fn add_new(
    alloc: Global,
    words: &mut ListOf<Bytes>,
    word: Option<&Bytes>,
) -> Result<(), NoMemory>
    ensures { OnOk result (words.new ≡ with_word (option_copied word.entry) words.old) }
{
    let Some(word) = word else {
        return Ok(());
    };
    if mem(word.as_slice(), words.as_slice()) {
        Ok(())
    } else {
        words.push(word.copy(alloc)?)
    }
}

/// The place of a word among names.
pub fn index_of(names: &[Bytes], word: &[u8]) -> Option<usize>
    ensures { result ≡ index_of 0 names.now word.now }
{
    for (i, name) in names.iter().enumerate() {
        if same(name.as_slice(), word) {
            return Some(i);
        }
    }
    None
}

fn push_some(out: &mut ListOf<usize>, number: Option<usize>) -> Result<(), NoMemory>
    ensures { OnOk result (out.new ≡ out.old ++ onto number []) }
{
    match number {
        None => Ok(()),
        Some(i) => out.push(i),
    }
}

/// Puts the numbers of those words that are among the names at the end.
pub fn push_numbers(
    out: &mut ListOf<usize>,
    names: &[Bytes],
    words: &[Bytes],
) -> Result<(), NoMemory>
    ensures { OnOk result (out.new ≡ out.old ++ numbers_in names.now words.now) }
{
    for word in words {
        push_some(out, index_of(names, word.as_slice()))?;
    }
    Ok(())
}

/// Puts the number of a word that is among the names at the end.
pub fn push_number(
    out: &mut ListOf<usize>,
    names: &[Bytes],
    word: Option<&Bytes>,
) -> Result<(), NoMemory>
    ensures { OnOk result (out.new ≡ out.old ++ number_some names.now (option_copied word.entry)) }
{
    match word {
        None => Ok(()),
        Some(word) => push_some(out, index_of(names, word.as_slice())),
    }
}

// The number of the state of this name.
fn index_of_state(states: &[DeclaredState], word: &[u8]) -> Option<usize>
    ensures { result ≡ index_of 0 (names_of states.now) word.now }
{
    for (i, state) in states.iter().enumerate() {
        if same(state.name.as_slice(), word) {
            return Some(i);
        }
    }
    None
}

/// Puts the number of a word that is a state at the end.
pub fn push_state(
    out: &mut ListOf<usize>,
    states: &[DeclaredState],
    word: Option<&Bytes>,
) -> Result<(), NoMemory>
    ensures { OnOk result (out.new ≡ out.old ++ number_some (names_of states.now) (option_copied word.entry)) }
{
    match word {
        None => Ok(()),
        Some(word) => push_some(out, index_of_state(states, word.as_slice())),
    }
}
