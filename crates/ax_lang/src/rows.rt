//! The row of a line.
ghost use Rattle.std.specs.Prelude.{◌≡◌, ◌≤◌, length, map, IfOk, true, false};
ghost use Rattle.ax_base.specs.Numbers.{number_of};
ghost use Rattle.ax_syntax.specs.Words.{keyword_of, field_number};
ghost use Rattle.ax_syntax.specs.Shapes.{shown_shape, parts_of};
ghost use Rattle.ax_expr.specs.Reading.{tree_of};
ghost use Rattle.ax_expr.specs.Shown.{shown_expr};
ghost use Rattle.ax_rules.specs.Parts.{index_of, changes, opens};
ghost use Rattle.ax_rules.specs.Lines.{names_of};
ghost use Rattle.ax_rules.specs.Faults.{kind_of};
ghost use Rattle.ax_rules.specs.Laws.{asks};
ghost use Rattle.ax_lang.specs.Forms.{Asks, form_of, shown_row};
ghost use Rattle.ax_lang.specs.Rows.{place_in, moment_or, field_or, atom_of, token_of, tree_or, tree_in, put_by, row_of};
ghost use Rattle.ax_lang.specs.Programs.{row_some};

use crate::step::{HandlerLine, Loop, Stmt};
use ax_base::{Bytes, ListOf, NoMemory, read_i64};
use ax_expr::{Expr, Refusal, Token, read_expr};
use ax_rules::{DeclaredState, Tables};
use ax_syntax::shape::first_part;
use ax_syntax::words::{field_number, keyword_of, same, sign_of};
use ax_syntax::{KindWord, Shape};
use ax_text::{Atom, Keyword};
use std::alloc::Global;

// The place of a word among others, or 0.
fn place_in(words: &[Bytes], word: &[u8]) -> usize
    ensures { result ≡ place_in words.now word.now }
{
    for (i, other) in words.iter().enumerate() {
        if same(other.as_slice(), word) {
            return i;
        }
    }
    0
}

// The number of the state of this name, or 0.
fn state_in(states: &[DeclaredState], word: &[u8]) -> u8
    requires { length states.now ≤ 64 }
    ensures { result ≡ place_in (names_of states.now) word.now }
{
    for (i, state) in states.iter().enumerate() {
        if same(state.name.as_slice(), word) {
            return i as u8;
        }
    }
    0
}

fn field_or(number: Option<u8>, other: Atom) -> Atom
    ensures { result ≡ field_or number other }
{
    match number {
        None => other,
        Some(n) => Atom::Field(n.saturating_sub(1)),
    }
}

fn moment_or(word: &[u8], other: Atom) -> Atom
    ensures { result ≡ moment_or (keyword_of word.now) other }
{
    match keyword_of(word) {
        Some(Keyword::Time) => Atom::Time,
        Some(Keyword::Wm) => Atom::Watermark,
        _ => other,
    }
}

// A word that is neither a parenthesis nor a sign.
fn atom_of(locals: &[Bytes], word: &[u8]) -> Atom
    ensures { result ≡ atom_of locals.now word.now }
{
    match read_i64(word) {
        Some(n) => Atom::Number(n),
        None => moment_or(
            word,
            field_or(field_number(word), Atom::Name(place_in(locals, word))),
        ),
    }
}

// What a word is in an expression.
#[tactic(auto, unfolding(crate::specs::Rows::token_of))]
fn token_of(locals: &[Bytes], word: &[u8]) -> Token
    ensures { result ≡ token_of locals.now word.now }
{
    if same(word, b"(") {
        Token::Open
    } else if same(word, b")") {
        Token::Close
    } else {
        match sign_of(word) {
            Some(op) => Token::Sign(op),
            None => Token::Operand(atom_of(locals, word)),
        }
    }
}

fn tokens_of(alloc: Global, locals: &[Bytes], words: &[Bytes]) -> Result<Vec<Token>, NoMemory>
    ensures { IfOk result (λ tokens. tokens.items ≡ map (token_of locals.now) words.now) }
{
    let mut tokens = Vec::new(alloc);
    for word in words {
        if tokens.push(token_of(locals, word.as_slice())).is_err() {
            return Err(NoMemory);
        }
    }
    Ok(tokens)
}

#[tactic(auto, using(crate::proofs::RowLemmas::leaf_shown))]
fn tree_or(alloc: Global, tokens: &[Token]) -> Result<Expr, NoMemory>
    ensures { IfOk result (λ tree. shown_expr tree ≡ tree_or (tree_of tokens.now)) }
{
    match read_expr(alloc, tokens) {
        Ok(tree) => Ok(tree),
        Err(Refusal::NoMemory) => Err(NoMemory),
        Err(Refusal::Word) => Ok(Expr::Leaf(Atom::Time)),
    }
}

// The expression of these words.
#[tactic(auto, unfolding(crate::specs::Rows::tree_in))]
fn tree_in(alloc: Global, locals: &[Bytes], words: &[Bytes]) -> Result<Expr, NoMemory>
    ensures { IfOk result (λ tree. shown_expr tree ≡ tree_in locals.now words.now) }
{
    let tokens = tokens_of(alloc, locals, words)?;
    tree_or(alloc, &tokens)
}

// The expressions of words with commas between them.
fn trees_in(alloc: Global, locals: &[Bytes], words: &[Bytes]) -> Result<ListOf<Expr>, NoMemory>
    ensures { IfOk result (λ trees. map shown_expr trees ≡ map (tree_in locals.now) (parts_of words.now)) }
{
    let mut trees = ListOf::new(alloc);
    let mut rest = words;
    'part: loop {
        let (part, more) = first_part(rest);
        trees.push(tree_in(alloc, locals, part)?)?;
        let Some(more) = more else {
            return Ok(trees);
        };
        rest = more;
    }
}

// A `put` of words with commas between them to a state of this kind and number.
fn put_by(
    alloc: Global,
    locals: &[Bytes],
    kind: Option<KindWord>,
    state: u8,
    values: &[Bytes],
) -> Result<Stmt, NoMemory>
    ensures { IfOk result (λ stmt. form_of stmt ≡ Asks (put_by kind state (map (tree_in locals.now) (parts_of values.now)))) }
{
    let (first, more) = first_part(values);
    match (kind, more) {
        (Some(KindWord::Value), _) => {
            let number = tree_in(alloc, locals, first)?;
            Ok(Stmt::Put { state, number })
        }
        (Some(KindWord::Map), Some(more)) => {
            let (second, _) = first_part(more);
            let place = tree_in(alloc, locals, first)?;
            let number = tree_in(alloc, locals, second)?;
            Ok(Stmt::PutAt {
                state,
                place,
                number,
            })
        }
        _ => {
            let numbers = trees_in(alloc, locals, values)?;
            Ok(Stmt::PutAll { state, numbers })
        }
    }
}

// A statement that reads a state.
#[tactic(auto, unfolding(crate::specs::Rows::row_of))]
fn read_of(alloc: Global, tables: &Tables, shape: &Shape) -> Result<Option<HandlerLine>, NoMemory>
    requires { length tables.now.states ≤ 64 }
    ensures { asks (shown_shape shape.now) ≡ true → changes (shown_shape shape.now) ≡ false → IfOk result (λ row. row_some row ≡ row_of tables.now (shown_shape shape.now)) }
{
    let locals = tables.locals.as_slice();
    let states = tables.states.as_slice();
    let stmt = match shape {
        Shape::Get(name, state, missing) => Stmt::Get {
            name: place_in(locals, name.as_slice()),
            state: state_in(states, state.as_slice()),
            missing: tree_in(alloc, locals, missing)?,
        },
        Shape::GetAt(name, state, at, missing) => Stmt::GetAt {
            name: place_in(locals, name.as_slice()),
            state: state_in(states, state.as_slice()),
            place: tree_in(alloc, locals, at)?,
            missing: tree_in(alloc, locals, missing)?,
        },
        Shape::Has(name, state, at) => Stmt::Has {
            name: place_in(locals, name.as_slice()),
            state: state_in(states, state.as_slice()),
            place: tree_in(alloc, locals, at)?,
        },
        Shape::Empty(name, state) => Stmt::Empty {
            name: place_in(locals, name.as_slice()),
            state: state_in(states, state.as_slice()),
        },
        _ => return Ok(None),
    };
    Ok(Some(HandlerLine::Statement(stmt)))
}

// A statement that changes a state.
#[tactic(auto, unfolding(crate::specs::Rows::row_of))]
fn change_of(alloc: Global, tables: &Tables, shape: &Shape) -> Result<Option<HandlerLine>, NoMemory>
    requires { length tables.now.states ≤ 64 }
    ensures { changes (shown_shape shape.now) ≡ true → IfOk result (λ row. row_some row ≡ row_of tables.now (shown_shape shape.now)) }
{
    let locals = tables.locals.as_slice();
    let states = tables.states.as_slice();
    let stmt = match shape {
        Shape::Put(state, values) => {
            let kind = tables.kind_of(state.as_slice());
            put_by(
                alloc,
                locals,
                kind,
                state_in(states, state.as_slice()),
                values,
            )?
        }
        Shape::Add(state, value) => Stmt::Add {
            state: state_in(states, state.as_slice()),
            number: tree_in(alloc, locals, value)?,
        },
        Shape::Remove(state, at) => Stmt::Remove {
            state: state_in(states, state.as_slice()),
            place: tree_in(alloc, locals, at)?,
        },
        Shape::Clear(state) => Stmt::Clear {
            state: state_in(states, state.as_slice()),
        },
        _ => return Ok(None),
    };
    Ok(Some(HandlerLine::Statement(stmt)))
}

// The line that begins a block.
#[tactic(auto, unfolding(crate::specs::Rows::row_of))]
fn block_of(alloc: Global, tables: &Tables, shape: &Shape) -> Result<Option<HandlerLine>, NoMemory>
    requires { length tables.now.states ≤ 64 }
    ensures { opens (shown_shape shape.now) ≡ true → IfOk result (λ row. row_some row ≡ row_of tables.now (shown_shape shape.now)) }
{
    let locals = tables.locals.as_slice();
    let states = tables.states.as_slice();
    let stmt = match shape {
        Shape::If(test) => Stmt::If {
            test: tree_in(alloc, locals, test)?,
            one: 0,
            other: 0,
        },
        Shape::Each(name, state) => Stmt::Each {
            turn: Loop::Items {
                name: place_in(locals, name.as_slice()),
                state: state_in(states, state.as_slice()),
            },
            body: 0,
        },
        Shape::EachPair(key, number, state) => Stmt::Each {
            turn: Loop::Entries {
                key: place_in(locals, key.as_slice()),
                number: place_in(locals, number.as_slice()),
                state: state_in(states, state.as_slice()),
            },
            body: 0,
        },
        Shape::Both => Stmt::Both { one: 0, two: 0 },
        _ => return Ok(None),
    };
    Ok(Some(HandlerLine::Statement(stmt)))
}

/// The row of a line, where the tables are those behind it: none of a declaration, of the line that begins a handler, and of
/// the `end` of a handler.
///
/// Condition: there are at most 64 states.
#[tactic(auto, unfolding(crate::specs::Rows::row_of))]
pub fn row_of(
    alloc: Global,
    tables: &Tables,
    shape: &Shape,
) -> Result<Option<HandlerLine>, NoMemory>
    requires { length tables.now.states ≤ 64 }
    ensures { IfOk result (λ row. row_some row ≡ row_of tables.now (shown_shape shape.now)) }
{
    let locals = tables.locals.as_slice();
    match shape {
        Shape::Input(_) | Shape::State(..) | Shape::OnRow | Shape::OnTimer => Ok(None),
        Shape::Let(name, value) => {
            let name = place_in(locals, name.as_slice());
            let value = tree_in(alloc, locals, value)?;
            Ok(Some(HandlerLine::Statement(Stmt::Let { name, value })))
        }
        Shape::Emit(values) => {
            let values = trees_in(alloc, locals, values)?;
            Ok(Some(HandlerLine::Statement(Stmt::Emit { values })))
        }
        Shape::Timer(time) => {
            let time = tree_in(alloc, locals, time)?;
            Ok(Some(HandlerLine::Statement(Stmt::SetTimer { time })))
        }
        Shape::Untimer(time) => {
            let time = tree_in(alloc, locals, time)?;
            Ok(Some(HandlerLine::Statement(Stmt::UnsetTimer { time })))
        }
        Shape::Put(..) | Shape::Add(..) | Shape::Remove(..) | Shape::Clear(_) => {
            change_of(alloc, tables, shape)
        }
        Shape::If(_) | Shape::Each(..) | Shape::EachPair(..) | Shape::Both => {
            block_of(alloc, tables, shape)
        }
        Shape::Else | Shape::With => Ok(Some(HandlerLine::Second)),
        Shape::End => {
            if tables.is_inside() {
                Ok(Some(HandlerLine::End))
            } else {
                Ok(None)
            }
        }
        _ => read_of(alloc, tables, shape),
    }
}
