//! The shapes of lines.
ghost use Rattle.std.specs.Prelude.{◌≡◌, ◌<◌, ◌∷◌, [], length, MatchOption};
ghost use Rattle.ax_syntax.specs.Words.{keyword_of};
ghost use Rattle.ax_syntax.specs.Shapes.{is_expr, is_exprs, parts_of, is_or, is_in, is_equals, kind_word, shown_shape, shape_some, input_of, state_of, on_of, let_of, before_or, behind_or, get_by, get_of, has_of, empty_of, assigned_by, assign_of, put_of, add_of, remove_of, clear_of, each_of, alone, when, shape_of, If as IfShape, Emit as EmitShape, Timer as TimerShape, Untimer as UntimerShape};

use crate::words::{is_name, is_operand, keyword_of, same, sign_of};
use ax_base::{Bytes, read_i64};
use ax_text::Keyword;

/// The kind that a `state` line names.
#[derive(Clone, Copy, Debug, PartialEq, Eq)]
pub enum KindWord {
    Value,
    List,
    Map,
}

/// A line as its words stand. An expression is its words, and expressions keep the commas between them.
#[derive(Clone, Copy)]
pub enum Shape<'a> {
    Input(u8),
    State(&'a Bytes, KindWord),
    OnRow,
    OnTimer,
    End,
    Let(&'a Bytes, &'a [Bytes]),
    Get(&'a Bytes, &'a Bytes, &'a [Bytes]),
    GetAt(&'a Bytes, &'a Bytes, &'a [Bytes], &'a [Bytes]),
    Has(&'a Bytes, &'a Bytes, &'a [Bytes]),
    Empty(&'a Bytes, &'a Bytes),
    Put(&'a Bytes, &'a [Bytes]),
    Add(&'a Bytes, &'a [Bytes]),
    Remove(&'a Bytes, &'a [Bytes]),
    Clear(&'a Bytes),
    If(&'a [Bytes]),
    Else,
    Each(&'a Bytes, &'a Bytes),
    EachPair(&'a Bytes, &'a Bytes, &'a Bytes),
    Both,
    With,
    Emit(&'a [Bytes]),
    Timer(&'a [Bytes]),
    Untimer(&'a [Bytes]),
}

/// Whether words have the form of an expression: operands and signs take turns, and parentheses balance.
#[tactic(auto, unfolding(crate::specs::Shapes::is_expr))]
pub fn is_expr(words: &[Bytes]) -> bool
    ensures { result ≡ is_expr words.now }
{
    let mut opened: usize = 0;
    let mut ended = false;
    for word in words {
        let word = word.as_slice();
        if ended {
            if same(word, b")") {
                if opened == 0 {
                    return false;
                }
                opened -= 1;
            } else if sign_of(word).is_some() {
                ended = false;
            } else {
                return false;
            }
        } else if same(word, b"(") {
            opened += 1;
        } else if is_operand(word) {
            ended = true;
        } else {
            return false;
        }
    }
    ended && opened == 0
}

/// The words before the first comma, and those behind it where there is one.
#[tactic(auto, using(crate::proofs::PartLemmas::passed, crate::proofs::PartLemmas::parted, crate::proofs::PartLemmas::single))]
pub fn first_part(words: &[Bytes]) -> (&[Bytes], Option<&[Bytes]>)
    ensures parts { MatchOption result.1 (parts_of words.now ≡ result.0.now ∷ []) (λ rest. parts_of words.now ≡ result.0.now ∷ parts_of rest.now) }
    ensures shorter { MatchOption result.1 (Unit {0}) (λ rest. length rest.now < length words.now) }
{
    for (i, word) in words.iter().enumerate() {
        if same(word.as_slice(), b",") {
            return (&words[..i], Some(&words[i + 1..]));
        }
    }
    (words, None)
}

/// Whether words are 1 to 16 expressions, with commas between them.
#[tactic(auto, using(crate::proofs::PartLemmas::parts_of_some), unfolding(crate::specs::Shapes::is_exprs))]
pub fn is_exprs(words: &[Bytes]) -> bool
    ensures { result ≡ is_exprs words.now }
{
    let mut rest = words;
    for _count in 0..16_usize {
        let (part, more) = first_part(rest);
        if !is_expr(part) {
            return false;
        }
        let Some(more) = more else {
            return true;
        };
        rest = more;
    }
    false
}

fn is_equals(word: &[u8]) -> bool
    ensures { result ≡ is_equals word.now }
{
    same(word, b"=")
}

fn is_or(word: &[u8]) -> bool
    ensures { result ≡ is_or (keyword_of word.now) }
{
    matches!(keyword_of(word), Some(Keyword::Or))
}

fn is_in(word: &[u8]) -> bool
    ensures { result ≡ is_in (keyword_of word.now) }
{
    matches!(keyword_of(word), Some(Keyword::In))
}

fn kind_word(word: &[u8]) -> Option<KindWord>
    ensures { result ≡ kind_word (keyword_of word.now) }
{
    match keyword_of(word) {
        Some(Keyword::Value) => Some(KindWord::Value),
        Some(Keyword::List) => Some(KindWord::List),
        Some(Keyword::Map) => Some(KindWord::Map),
        _ => None,
    }
}

// The words before the first `or`, and those behind it.
fn around_or(words: &[Bytes]) -> (&[Bytes], &[Bytes])
    ensures before { result.0.now ≡ before_or words.now }
    ensures behind { result.1.now ≡ behind_or words.now }
{
    for (i, word) in words.iter().enumerate() {
        if is_or(word.as_slice()) {
            return (&words[..i], &words[i + 1..]);
        }
    }
    (words, &words[words.len()..])
}

fn input_of(rest: &[Bytes]) -> Option<Shape<'_>>
    ensures { shape_some result ≡ input_of rest.now }
{
    let [n] = rest else {
        return None;
    };
    let n = read_i64(n.as_slice())?;
    if n >= 0 && n <= 16 {
        Some(Shape::Input(n as u8))
    } else {
        None
    }
}

fn state_of(rest: &[Bytes]) -> Option<Shape<'_>>
    ensures { shape_some result ≡ state_of rest.now }
{
    let [name, kind] = rest else {
        return None;
    };
    let kind = kind_word(kind.as_slice())?;
    if is_name(name.as_slice()) {
        Some(Shape::State(name, kind))
    } else {
        None
    }
}

fn on_of(rest: &[Bytes]) -> Option<Shape<'_>>
    ensures { shape_some result ≡ on_of rest.now }
{
    let [word] = rest else {
        return None;
    };
    match keyword_of(word.as_slice()) {
        Some(Keyword::Row) => Some(Shape::OnRow),
        Some(Keyword::Timer) => Some(Shape::OnTimer),
        _ => None,
    }
}

fn let_of(rest: &[Bytes]) -> Option<Shape<'_>>
    ensures { shape_some result ≡ let_of rest.now }
{
    match rest {
        [name, eq, value @ ..] => {
            if is_name(name.as_slice()) && is_equals(eq.as_slice()) && is_expr(value) {
                Some(Shape::Let(name, value))
            } else {
                None
            }
        }
        _ => None,
    }
}

fn get_by<'a>(
    name: &'a Bytes,
    state: &'a Bytes,
    at: &'a [Bytes],
    missing: &'a [Bytes],
) -> Option<Shape<'a>>
    ensures { shape_some result ≡ get_by name.now state.now at.now missing.now }
{
    if !is_expr(missing) {
        return None;
    }
    if at.is_empty() {
        Some(Shape::Get(name, state, missing))
    } else if is_expr(at) {
        Some(Shape::GetAt(name, state, at, missing))
    } else {
        None
    }
}

fn get_of<'a>(name: &'a Bytes, rest: &'a [Bytes]) -> Option<Shape<'a>>
    ensures { shape_some result ≡ get_of name.now rest.now }
{
    let [state, rest @ ..] = rest else {
        return None;
    };
    if !is_name(state.as_slice()) {
        return None;
    }
    let (at, missing) = around_or(rest);
    get_by(name, state, at, missing)
}

fn has_of<'a>(name: &'a Bytes, rest: &'a [Bytes]) -> Option<Shape<'a>>
    ensures { shape_some result ≡ has_of name.now rest.now }
{
    match rest {
        [state, at @ ..] => {
            if is_name(state.as_slice()) && is_expr(at) {
                Some(Shape::Has(name, state, at))
            } else {
                None
            }
        }
        _ => None,
    }
}

fn empty_of<'a>(name: &'a Bytes, rest: &'a [Bytes]) -> Option<Shape<'a>>
    ensures { shape_some result ≡ empty_of name.now rest.now }
{
    match rest {
        [state] => {
            if is_name(state.as_slice()) {
                Some(Shape::Empty(name, state))
            } else {
                None
            }
        }
        _ => None,
    }
}

fn assigned_by<'a>(verb: &[u8], name: &'a Bytes, rest: &'a [Bytes]) -> Option<Shape<'a>>
    ensures { shape_some result ≡ assigned_by (keyword_of verb.now) name.now rest.now }
{
    match keyword_of(verb) {
        Some(Keyword::Get) => get_of(name, rest),
        Some(Keyword::Has) => has_of(name, rest),
        Some(Keyword::Empty) => empty_of(name, rest),
        _ => None,
    }
}

fn assign_of<'a>(name: &'a Bytes, rest: &'a [Bytes]) -> Option<Shape<'a>>
    ensures { shape_some result ≡ assign_of name.now rest.now }
{
    match rest {
        [eq, verb, rest @ ..] => {
            if is_name(name.as_slice()) && is_equals(eq.as_slice()) {
                assigned_by(verb.as_slice(), name, rest)
            } else {
                None
            }
        }
        _ => None,
    }
}

fn put_of(rest: &[Bytes]) -> Option<Shape<'_>>
    ensures { shape_some result ≡ put_of rest.now }
{
    match rest {
        [state, values @ ..] => {
            if is_name(state.as_slice()) && is_exprs(values) {
                Some(Shape::Put(state, values))
            } else {
                None
            }
        }
        _ => None,
    }
}

fn add_of(rest: &[Bytes]) -> Option<Shape<'_>>
    ensures { shape_some result ≡ add_of rest.now }
{
    match rest {
        [state, value @ ..] => {
            if is_name(state.as_slice()) && is_expr(value) {
                Some(Shape::Add(state, value))
            } else {
                None
            }
        }
        _ => None,
    }
}

fn remove_of(rest: &[Bytes]) -> Option<Shape<'_>>
    ensures { shape_some result ≡ remove_of rest.now }
{
    match rest {
        [state, at @ ..] => {
            if is_name(state.as_slice()) && is_expr(at) {
                Some(Shape::Remove(state, at))
            } else {
                None
            }
        }
        _ => None,
    }
}

fn clear_of(rest: &[Bytes]) -> Option<Shape<'_>>
    ensures { shape_some result ≡ clear_of rest.now }
{
    match rest {
        [state] => {
            if is_name(state.as_slice()) {
                Some(Shape::Clear(state))
            } else {
                None
            }
        }
        _ => None,
    }
}

fn each_of(rest: &[Bytes]) -> Option<Shape<'_>>
    ensures { shape_some result ≡ each_of rest.now }
{
    match rest {
        [name, word, state] => {
            if is_name(name.as_slice()) && is_in(word.as_slice()) && is_name(state.as_slice()) {
                Some(Shape::Each(name, state))
            } else {
                None
            }
        }
        [key, number, word, state] => {
            if is_name(key.as_slice())
                && is_name(number.as_slice())
                && is_in(word.as_slice())
                && is_name(state.as_slice())
            {
                Some(Shape::EachPair(key, number, state))
            } else {
                None
            }
        }
        _ => None,
    }
}

fn alone<'a>(shape: Shape<'a>, rest: &'a [Bytes]) -> Option<Shape<'a>>
    ensures { shape_some result ≡ alone (shown_shape shape.entry) rest.now }
{
    if rest.is_empty() { Some(shape) } else { None }
}

fn emit_of(rest: &[Bytes]) -> Option<Shape<'_>>
    ensures { shape_some result ≡ when (is_exprs rest.now) (EmitShape rest.now) }
{
    if is_exprs(rest) {
        Some(Shape::Emit(rest))
    } else {
        None
    }
}

fn if_of(rest: &[Bytes]) -> Option<Shape<'_>>
    ensures { shape_some result ≡ when (is_expr rest.now) (IfShape rest.now) }
{
    if is_expr(rest) {
        Some(Shape::If(rest))
    } else {
        None
    }
}

fn timer_of(rest: &[Bytes]) -> Option<Shape<'_>>
    ensures { shape_some result ≡ when (is_expr rest.now) (TimerShape rest.now) }
{
    if is_expr(rest) {
        Some(Shape::Timer(rest))
    } else {
        None
    }
}

fn untimer_of(rest: &[Bytes]) -> Option<Shape<'_>>
    ensures { shape_some result ≡ when (is_expr rest.now) (UntimerShape rest.now) }
{
    if is_expr(rest) {
        Some(Shape::Untimer(rest))
    } else {
        None
    }
}

/// The shape of a line of these words; a line that has none is refused.
#[tactic(auto, unfolding(crate::specs::Shapes::shape_of))]
pub fn shape_of(words: &[Bytes]) -> Option<Shape<'_>>
    ensures { shape_some result ≡ shape_of words.now }
{
    let [word, rest @ ..] = words else {
        return None;
    };
    match keyword_of(word.as_slice()) {
        None => assign_of(word, rest),
        Some(Keyword::Input) => input_of(rest),
        Some(Keyword::State) => state_of(rest),
        Some(Keyword::On) => on_of(rest),
        Some(Keyword::End) => alone(Shape::End, rest),
        Some(Keyword::Let) => let_of(rest),
        Some(Keyword::Put) => put_of(rest),
        Some(Keyword::Add) => add_of(rest),
        Some(Keyword::Remove) => remove_of(rest),
        Some(Keyword::Clear) => clear_of(rest),
        Some(Keyword::If) => if_of(rest),
        Some(Keyword::Else) => alone(Shape::Else, rest),
        Some(Keyword::Each) => each_of(rest),
        Some(Keyword::Both) => alone(Shape::Both, rest),
        Some(Keyword::With) => alone(Shape::With, rest),
        Some(Keyword::Emit) => emit_of(rest),
        Some(Keyword::Timer) => timer_of(rest),
        Some(Keyword::Untimer) => untimer_of(rest),
        Some(_) => None,
    }
}
