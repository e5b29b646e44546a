//! The faults of a line, against what the lines before it have said.
ghost use Rattle.std.specs.Prelude.{◌≡◌, length, not, ◌&&◌, ◌||◌, ◌+◌, ◌<◌, nat_lt, map};
ghost use Rattle.std.specs.List.{list_any};
ghost use Rattle.std.specs.Option.{option_copied};
ghost use Rattle.ax_syntax.specs.Shapes.{shown_shape, parts_of};
ghost use Rattle.ax_rules.specs.Lines.{names_of};
ghost use Rattle.ax_rules.specs.Parts.{mem, some_is, set_of, also_of};
ghost use Rattle.ax_rules.specs.Faults.{is_state, is_local, is_inside, may_stand, one_if, is_new, count_new, is_long, has_long, is_last_state, is_too_many, goes_deep, is_too_deep, is_twice, is_up_to, is_unknown_name, is_unknown_value, is_unknown, is_unknown_use, has_unknown, is_value, is_list, is_map, takes, serves, kind_of, some_serves, is_unserved, has_wrong_kind};
ghost use Rattle.ax_rules.specs.Taking.{IsPlain};

use crate::kinds::FaultKind;
use crate::shapes::{also_of, is_statement, mem, more_of, opens, reads_of, set_of, use_of};
use crate::tables::{DeclaredState, Tables};
use ax_base::Bytes;
use ax_syntax::shape::first_part;
use ax_syntax::words::{field_number, is_name, is_value_word, same};
use ax_syntax::{KindWord, Shape};

fn one_if(new: bool) -> usize
    ensures { result ≡ one_if new }
{
    if new { 1 } else { 0 }
}

// Whether an expression among these, with commas between them, has more than 256 words.
fn has_long(words: &[Bytes]) -> bool
    ensures { result ≡ has_long words.now }
{
    let mut rest = words;
    loop {
        let (part, more) = first_part(rest);
        if part.len() > 256 {
            return true;
        }
        let Some(more) = more else {
            return false;
        };
        rest = more;
    }
}

// Whether a parenthesis is the 33rd inside one another.
fn goes_deep(words: &[Bytes]) -> bool
    ensures { result ≡ goes_deep 0 words.now }
{
    let mut opened: usize = 0;
    for word in words {
        let word = word.as_slice();
        if same(word, b"(") {
            if opened >= 32 {
                return true;
            }
            opened += 1;
        } else if same(word, b")") {
            opened = opened.saturating_sub(1);
        }
    }
    false
}

fn is_up_to(number: Option<u8>, fields: Option<u8>) -> bool
    ensures { result ≡ is_up_to number fields }
{
    let Some(number) = number else {
        return false;
    };
    let Some(fields) = fields else {
        return false;
    };
    number <= fields
}

fn is_declared(word: &[u8], states: &[DeclaredState]) -> bool
    ensures { result ≡ mem word.now (names_of states.now) }
{
    for state in states {
        if same(state.name.as_slice(), word) {
            return true;
        }
    }
    false
}

fn kind_of(states: &[DeclaredState], word: &[u8]) -> Option<KindWord>
    ensures { result ≡ kind_of states.now word.now }
{
    for state in states {
        if same(state.name.as_slice(), word) {
            return Some(state.kind);
        }
    }
    None
}

fn is_value(kind: KindWord) -> bool
    ensures { result ≡ is_value kind }
{
    matches!(kind, KindWord::Value)
}

fn is_list(kind: KindWord) -> bool
    ensures { result ≡ is_list kind }
{
    matches!(kind, KindWord::List)
}

fn is_map(kind: KindWord) -> bool
    ensures { result ≡ is_map kind }
{
    matches!(kind, KindWord::Map)
}

// Whether there is one expression.
#[tactic(auto, using(crate::proofs::PartCounts::single_parts, crate::proofs::PartCounts::more_parts))]
fn is_single(words: &[Bytes]) -> bool
    ensures { result ≡ takes KindWord.Value (length (parts_of words.now)) }
{
    let (_, more) = first_part(words);
    match more {
        None => true,
        Some(_) => false,
    }
}

// Whether there are two.
#[tactic(auto, using(crate::proofs::PartCounts::not_double, crate::proofs::PartCounts::double_parts))]
fn is_double(words: &[Bytes]) -> bool
    ensures { result ≡ takes KindWord.Map (length (parts_of words.now)) }
{
    let (_, more) = first_part(words);
    match more {
        None => false,
        Some(rest) => is_single(rest),
    }
}

fn takes(kind: KindWord, values: &[Bytes]) -> bool
    ensures { result ≡ takes kind (length (parts_of values.now)) }
{
    match kind {
        KindWord::Value => is_single(values),
        KindWord::List => true,
        KindWord::Map => is_double(values),
    }
}

// Whether a state of this kind has the statement.
fn serves(kind: KindWord, shape: &Shape) -> bool
    ensures { result ≡ serves kind (shown_shape shape.now) }
{
    match shape {
        Shape::Get(..) => is_value(kind),
        Shape::GetAt(..) | Shape::Has(..) | Shape::Empty(..) | Shape::Remove(..) => is_map(kind),
        Shape::Put(_, values) => takes(kind, values),
        Shape::Add(..) | Shape::Each(..) => is_list(kind),
        Shape::EachPair(..) => is_map(kind),
        _ => true,
    }
}

fn some_serves(kind: Option<KindWord>, shape: &Shape) -> bool
    ensures { result ≡ some_serves kind (shown_shape shape.now) }
{
    match kind {
        None => false,
        Some(kind) => serves(kind, shape),
    }
}

impl Tables {
    fn is_state(&self, word: &[u8]) -> bool
        ensures { result ≡ is_state self.now word.now }
    {
        is_declared(word, self.states.as_slice())
    }

    fn is_local(&self, word: &[u8]) -> bool
        ensures { result ≡ is_local self.now word.now }
    {
        mem(word, self.locals.as_slice())
    }

    /// Whether a handler is open.
    pub fn is_inside(&self) -> bool
        ensures { result ≡ is_inside self.now }
    {
        self.frames.len() > 0
    }

    fn is_new(&self, word: &[u8]) -> bool
        ensures { result ≡ is_new self.now word.now }
    {
        !(self.is_local(word) || self.is_state(word))
    }

    fn is_some_new(&self, name: Option<&Bytes>) -> bool
        ensures { result ≡ some_is (is_new self.now) (option_copied name.entry) }
    {
        match name {
            None => false,
            Some(name) => self.is_new(name.as_slice()),
        }
    }

    fn is_some_state(&self, name: Option<&Bytes>) -> bool
        ensures { result ≡ some_is (is_state self.now) (option_copied name.entry) }
    {
        match name {
            None => false,
            Some(name) => self.is_state(name.as_slice()),
        }
    }

    fn is_some_unknown(&self, name: Option<&Bytes>) -> bool
        ensures { result ≡ some_is (is_unknown_name self.now) (option_copied name.entry) }
    {
        match name {
            None => false,
            Some(name) => self.is_unknown_name(name.as_slice()),
        }
    }

    fn is_unknown_name(&self, word: &[u8]) -> bool
        ensures { result ≡ is_unknown_name self.now word.now }
    {
        is_name(word) && !(self.is_state(word) || self.is_local(word))
    }

    fn is_unknown_value(&self, word: &[u8]) -> bool
        ensures { result ≡ is_unknown_value self.now word.now }
    {
        is_value_word(word) && (self.timer || !is_up_to(field_number(word), self.fields))
    }

    fn is_unknown(&self, word: &[u8]) -> bool
        ensures { result ≡ is_unknown self.now word.now }
    {
        self.is_unknown_name(word) || self.is_unknown_value(word)
    }

    fn any_unknown(&self, words: &[Bytes]) -> bool
        ensures { result ≡ list_any (is_unknown self.now) words.now }
    {
        words.iter().any(|word| self.is_unknown(word.as_slice()))
    }

    fn any_state(&self, words: &[Bytes]) -> bool
        ensures { result ≡ list_any (is_state self.now) words.now }
    {
        words.iter().any(|word| self.is_state(word.as_slice()))
    }

    // Where a line of this shape may stand.
    #[tactic(auto, unfolding(crate::specs::Faults::may_stand))]
    fn may_stand(&self, shape: &Shape) -> bool
        ensures { result ≡ may_stand self.now (shown_shape shape.now) }
    {
        match shape {
            Shape::Input(_) => !self.is_inside(),
            Shape::State(..) => !self.is_inside() && self.fields.is_some() && !self.row,
            Shape::OnRow => !self.is_inside() && self.fields.is_some(),
            Shape::OnTimer => !self.is_inside() && self.row,
            Shape::Else => self.frames.is_at_yes(),
            Shape::With => self.frames.is_at_one(),
            Shape::End => self.is_inside() && !self.frames.is_at_one(),
            _ => self.is_inside(),
        }
    }

    // How many new local names a line has.
    fn count_new(&self, shape: &Shape) -> usize
        ensures count { result ≡ count_new self.now (shown_shape shape.now) }
        ensures few { result < 3 }
    {
        match shape {
            Shape::EachPair(key, number, _) => {
                let key = key.as_slice();
                let number = number.as_slice();
                one_if(self.is_new(key)) + one_if(self.is_new(number) && !same(key, number))
            }
            _ => one_if(self.is_some_new(set_of(shape))),
        }
    }

    fn has_too_many_locals(&self, shape: &Shape) -> bool
        ensures { result ≡ nat_lt 256 (length self.now.locals + count_new self.now (shown_shape shape.now)) }
    {
        self.locals.len().saturating_add(self.count_new(shape)) > 256
    }

    fn is_last_state(&self, shape: &Shape) -> bool
        ensures { result ≡ is_last_state self.now (shown_shape shape.now) }
    {
        match shape {
            Shape::State(..) => self.states.len() >= 64,
            _ => false,
        }
    }

    #[tactic(auto, unfolding(crate::specs::Faults::is_too_many))]
    fn is_too_many(&self, shape: &Shape) -> bool
        ensures { result ≡ is_too_many self.now (shown_shape shape.now) }
    {
        (is_statement(shape) && self.statements >= 10000)
            || self.is_last_state(shape)
            || self.has_too_many_locals(shape)
            || has_long(reads_of(shape))
            || has_long(more_of(shape))
    }

    #[tactic(auto, unfolding(crate::specs::Faults::is_too_deep))]
    fn is_too_deep(&self, shape: &Shape) -> bool
        ensures { result ≡ is_too_deep self.now (shown_shape shape.now) }
    {
        (opens(shape) && self.frames.len() > 32)
            || goes_deep(reads_of(shape))
            || goes_deep(more_of(shape))
    }

    #[tactic(auto, unfolding(crate::specs::Faults::is_twice))]
    fn is_twice(&self, shape: &Shape) -> bool
        ensures { result ≡ is_twice self.now (shown_shape shape.now) }
    {
        match shape {
            Shape::Input(_) => self.fields.is_some(),
            Shape::State(name, _) => self.is_state(name.as_slice()),
            Shape::OnRow => self.row,
            Shape::OnTimer => self.timer,
            Shape::EachPair(key, number, _) => same(key.as_slice(), number.as_slice()),
            _ => false,
        }
    }

    fn is_unknown_use(&self, shape: &Shape) -> bool
        ensures { result ≡ is_unknown_use self.now (shown_shape shape.now) }
    {
        match shape {
            Shape::Each(name, state) => {
                let state = state.as_slice();
                self.is_unknown_name(state) && !same(name.as_slice(), state)
            }
            Shape::EachPair(key, number, state) => {
                let state = state.as_slice();
                self.is_unknown_name(state)
                    && !(same(key.as_slice(), state) || same(number.as_slice(), state))
            }
            _ => self.is_some_unknown(use_of(shape)),
        }
    }

    #[tactic(auto, unfolding(crate::specs::Faults::has_unknown))]
    fn has_unknown(&self, shape: &Shape) -> bool
        ensures { result ≡ has_unknown self.now (shown_shape shape.now) }
    {
        self.any_unknown(reads_of(shape))
            || self.any_unknown(more_of(shape))
            || self.is_unknown_use(shape)
    }

    fn is_unserved(&self, shape: &Shape) -> bool
        ensures { result ≡ is_unserved self.now (shown_shape shape.now) }
    {
        match use_of(shape) {
            None => false,
            Some(state) => !some_serves(kind_of(self.states.as_slice(), state.as_slice()), shape),
        }
    }

    #[tactic(auto, unfolding(crate::specs::Faults::has_wrong_kind))]
    fn has_wrong_kind(&self, shape: &Shape) -> bool
        ensures { result ≡ has_wrong_kind self.now (shown_shape shape.now) }
    {
        self.any_state(reads_of(shape))
            || self.any_state(more_of(shape))
            || self.is_some_state(set_of(shape))
            || self.is_some_state(also_of(shape))
            || self.is_unserved(shape)
    }

    /// The kind of the state of this name, where there is one.
    pub fn kind_of(&self, name: &[u8]) -> Option<KindWord>
        ensures { result ≡ kind_of self.now.states name.now }
    {
        kind_of(self.states.as_slice(), name)
    }

    /// The first kind of fault that a line has here, of those that need no look at the open blocks.
    #[tactic(auto, unfolding(crate::specs::Faults::fault_in))]
    pub(crate) fn plain_fault(&self, shape: &Shape) -> Option<FaultKind>
        ensures { IsPlain self.now (shown_shape shape.now) result }
    {
        if !self.may_stand(shape) {
            Some(FaultKind::Word)
        } else if self.is_too_many(shape) {
            Some(FaultKind::TooMany)
        } else if self.is_too_deep(shape) {
            Some(FaultKind::TooDeep)
        } else if self.is_twice(shape) {
            Some(FaultKind::Twice)
        } else if self.has_unknown(shape) {
            Some(FaultKind::UnknownName)
        } else if self.has_wrong_kind(shape) {
            Some(FaultKind::Kind)
        } else {
            None
        }
    }
}
