//! What a handler has worked out so far.
ghost use Rattle.std.specs.Prelude.{◌≡◌, pos, ◌≤◌, ◌<◌, ◌++◌, ◌∷◌, [], map, length, IfOk, OnOk};
ghost use Rattle.std.specs.Ordering.{int_eq};
ghost use Rattle.ax_text.specs.Exprs.{value};
ghost use Rattle.ax_text.specs.Functions.{upd};
ghost use Rattle.ax_text.specs.Silent.{silent};
ghost use Rattle.ax_text.specs.Run.{with_names, bind, take_in, Assign as AssignTo, Ignore as IgnoreIt};
ghost use Rattle.ax_expr.specs.Shown.{shown_expr};
ghost use Rattle.ax_lang.specs.Forms.{form_of, shown_loop};
ghost use Rattle.ax_future.specs.Nodes.{after_in};
ghost use Rattle.ax_future.specs.Talks.{names_at, known_in, talk_of, act_by, question_by, reading_by, changing_by, question_in, seen_question};

use crate::callback::{Known, Turn};
use crate::node::{Assign, Cursor};
use ax_base::{ListOf, NoMemory, Nums, Pair};
use ax_expr::{Expr, Scope};
use ax_lang::{Loop, Stmt};
use ax_text::{Request, TimerOp};
use std::alloc::Global;
use std::mem;

/// What a handler has worked out.
#[derive(Drop)]
pub struct Going {
    pub names: Vec<i64>,
    /// What the callback has said.
    pub said: Turn,
    /// The memory of a cursor that has ended, for the next handler.
    pub spare: Cursor,
}

/// What a statement asks, and what becomes of the answer.
#[derive(Drop)]
pub struct Question {
    pub request: Request,
    pub assign: Assign,
}

/// Sets the number of a local name. One that was never set counts as 0.
pub fn assign(names: &mut Vec<i64>, name: usize, number: i64) -> Result<(), NoMemory>
    ensures { OnOk result (names_at names.new.items ≡ upd (names_at names.old.items) name number) }
{
    reach(names, name)?;
    names[name] = number;
    Ok(())
}

// Makes room for a local name.
#[tactic(auto, using(crate::proofs::TalkLemmas::names_more))]
fn reach(names: &mut Vec<i64>, name: usize) -> Result<(), NoMemory>
    ensures same { OnOk result (names_at names.new.items ≡ names_at names.old.items) }
    ensures long { OnOk result (name < length names.new.items) }
{
    while names.len() <= name {
        let Ok(()) = names.push(0) else {
            return Err(NoMemory);
        };
    }
    Ok(())
}

// The value of an expression.
fn value_in(facts: &Known<'_>, names: &Vec<i64>, expr: &Expr) -> i64
    ensures { result ≡ value (known_in facts.now) (names_at names.now.items) (shown_expr expr.now) }
{
    let scope = Scope {
        time: facts.time,
        wm: facts.wm,
        values: facts.values,
        names: names.as_slice(),
    };
    expr.value(&scope)
}

// The values of expressions.
fn values_in(
    alloc: Global,
    facts: &Known<'_>,
    names: &Vec<i64>,
    exprs: &[Expr],
) -> Result<Nums, NoMemory>
    ensures { IfOk result (λ line. line ≡ map (value (known_in facts.now) (names_at names.now.items)) (map shown_expr exprs.now)) }
{
    let mut line = Nums::new(alloc);
    for expr in exprs {
        line.push(value_in(facts, names, expr))?;
    }
    Ok(line)
}

// Empties a list, and keeps its memory.
#[inline(always)]
fn empty<T: Drop>(alloc: Global, list: &mut ListOf<T>)
    ensures { list.new ≡ [] }
{
    if list.is_empty() {
        return;
    }
    let mut items = mem::replace(list, ListOf::new(alloc)).into_vec();
    items.clear();
    *list = ListOf::from_vec(items);
}

impl Going {
    /// Nothing is worked out and nothing said.
    pub fn new(alloc: Global) -> Going {
        Going {
            names: Vec::new(alloc),
            said: Turn::new(alloc),
            spare: Vec::new(alloc),
        }
    }

    /// A callback begins: nothing is said yet.
    pub fn hush(&mut self, alloc: Global)
        ensures talk { talk_of self.new ≡ silent (names_at self.old.names.items) }
        ensures asks { self.new.said.asks ≡ [] }
    {
        empty(alloc, &mut self.said.asks);
        empty(alloc, &mut self.said.outs);
        empty(alloc, &mut self.said.timer_ops);
    }

    /// Forgets the local names, and takes the room of so many at once.
    pub fn make_room(&mut self, names: usize) -> Result<(), NoMemory>
        ensures { self.new.names.items ≡ [] }
    {
        self.names.clear();
        match self.names.reserve_exact(names) {
            Ok(()) => Ok(()),
            Err(_) => Err(NoMemory),
        }
    }

    /// A handler begins: nothing is worked out or said yet. The answer is the memory of a cursor that has ended.
    #[tactic(auto, using(crate::proofs::TalkLemmas::no_names))]
    pub fn renew(&mut self, alloc: Global) -> Cursor
        ensures talk { talk_of self.new ≡ silent (λ i. pos 0) }
        ensures asks { self.new.said.asks ≡ [] }
    {
        self.names.clear();
        self.hush(alloc);
        mem::replace(&mut self.spare, Vec::new(alloc))
    }

    /// Whether an expression is 0.
    pub fn is_zero(&self, facts: &Known<'_>, expr: &Expr) -> bool
        ensures { result ≡ int_eq (value (known_in facts.now) (names_at self.now.names.items) (shown_expr expr.now)) (pos 0) }
    {
        value_in(facts, &self.names, expr) == 0
    }

    /// Does what a statement says that asks nothing of the state.
    pub fn act(&mut self, alloc: Global, facts: &Known<'_>, stmt: &Stmt) -> Result<(), NoMemory>
        ensures talk { OnOk result (talk_of self.new ≡ act_by (known_in facts.now) (form_of stmt.now) (talk_of self.old)) }
        ensures asks { self.new.said.asks ≡ self.old.said.asks }
    {
        match stmt {
            Stmt::Let { name, value } => {
                let number = value_in(facts, &self.names, value);
                assign(&mut self.names, *name, number)
            }
            Stmt::Emit { values } => {
                let line = values_in(alloc, facts, &self.names, values.as_slice())?;
                self.said.outs.push(line)
            }
            Stmt::SetTimer { time } => {
                let time = value_in(facts, &self.names, time);
                self.said.timer_ops.push(TimerOp::Set { time })
            }
            Stmt::UnsetTimer { time } => {
                let time = value_in(facts, &self.names, time);
                self.said.timer_ops.push(TimerOp::Unset { time })
            }
            _ => Ok(()),
        }
    }

    /// What a statement asks, where it asks once.
    #[inline(always)]
    pub fn question(
        &self,
        alloc: Global,
        facts: &Known<'_>,
        stmt: &Stmt,
    ) -> Result<Option<Question>, NoMemory>
        ensures { IfOk result (λ q. seen_question q ≡ question_by (known_in facts.now) (form_of stmt.now) (names_at self.now.names.items)) }
    {
        match self.reading(facts, stmt) {
            Some(question) => Ok(Some(question)),
            None => self.changing(alloc, facts, stmt),
        }
    }

    // What a statement asks that reads one number or flag.
    #[inline(always)]
    fn reading(&self, facts: &Known<'_>, stmt: &Stmt) -> Option<Question>
        ensures { seen_question result ≡ reading_by (known_in facts.now) (form_of stmt.now) (names_at self.now.names.items) }
    {
        let names = &self.names;
        let question = match stmt {
            Stmt::Get {
                name,
                state,
                missing,
            } => {
                let missing = value_in(facts, names, missing);
                assigned(Request::ValueGet { state: *state }, *name, missing)
            }
            Stmt::GetAt {
                name,
                state,
                place,
                missing,
            } => {
                let at = value_in(facts, names, place);
                let missing = value_in(facts, names, missing);
                assigned(Request::MapGet { state: *state, at }, *name, missing)
            }
            Stmt::Has { name, state, place } => {
                let at = value_in(facts, names, place);
                assigned(Request::MapHas { state: *state, at }, *name, 0)
            }
            Stmt::Empty { name, state } => assigned(Request::MapEmpty { state: *state }, *name, 0),
            _ => return None,
        };
        Some(question)
    }

    // What a statement asks that changes a state.
    #[inline(always)]
    fn changing(
        &self,
        alloc: Global,
        facts: &Known<'_>,
        stmt: &Stmt,
    ) -> Result<Option<Question>, NoMemory>
        ensures { IfOk result (λ q. seen_question q ≡ changing_by (known_in facts.now) (form_of stmt.now) (names_at self.now.names.items)) }
    {
        let names = &self.names;
        let question = match stmt {
            Stmt::Put { state, number } => {
                let number = value_in(facts, names, number);
                ignored(Request::ValuePut {
                    state: *state,
                    number,
                })
            }
            Stmt::PutAt {
                state,
                place,
                number,
            } => {
                let at = value_in(facts, names, place);
                let number = value_in(facts, names, number);
                ignored(Request::MapPut {
                    state: *state,
                    at,
                    number,
                })
            }
            Stmt::PutAll { state, numbers } => {
                let items = values_in(alloc, facts, names, numbers.as_slice())?;
                ignored(Request::ListPut {
                    state: *state,
                    items,
                })
            }
            Stmt::Add { state, number } => {
                let number = value_in(facts, names, number);
                ignored(Request::ListAdd {
                    state: *state,
                    number,
                })
            }
            Stmt::Remove { state, place } => {
                let at = value_in(facts, names, place);
                ignored(Request::MapRemove { state: *state, at })
            }
            Stmt::Clear { state } => ignored(Request::Clear { state: *state }),
            _ => return Ok(None),
        };
        Ok(Some(question))
    }

    /// The names of an `each` take a turn.
    pub fn bind(&mut self, turn: Loop, pair: &Pair) -> Result<(), NoMemory>
        ensures talk { OnOk result (talk_of self.new ≡ with_names (bind (shown_loop turn) pair.now (talk_of self.old).names) (talk_of self.old)) }
        ensures asks { self.new.said.asks ≡ self.old.said.asks }
    {
        match turn {
            Loop::Items { name, .. } => assign(&mut self.names, name, pair.at),
            Loop::Entries { key, number, .. } => {
                assign(&mut self.names, key, pair.at)?;
                assign(&mut self.names, number, pair.number)
            }
        }
    }
}

// A local name takes the answer.
fn assigned(request: Request, name: usize, missing: i64) -> Question
    ensures { question_in result ≡ record { request = request; after = AssignTo name missing } }
{
    Question {
        request,
        assign: Assign::Name { name, missing },
    }
}

// The answer is of no use.
fn ignored(request: Request) -> Question
    ensures { question_in result ≡ record { request = request; after = IgnoreIt } }
{
    Question {
        request,
        assign: Assign::Ignore,
    }
}
