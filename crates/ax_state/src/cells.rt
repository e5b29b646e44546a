//! The states of one key.
ghost use Rattle.std.specs.Prelude.{◌≡◌, ◌↔◌, ◌++◌, ◌∷◌, [], true, ℕ, IsTrue, IfOk, OnOk, OnErr, map, All};
ghost use Rattle.std.specs.List.Sorted.{IsStrictlySortedBy};
ghost use Rattle.ax_text.specs.declared.vocabulary.Kind.TheVariants as kind;
ghost use Rattle.std.specs.Ordering.{int_cmp};
ghost use Rattle.std.specs.Map.{remove_entry};
ghost use Rattle.std.specs.BTreeMap.{is_at, insert_entry};
ghost use Rattle.ax_text.specs.Cells.{Items, Entries, number_in, items_in, entries_in, entry_at, pair_of, has_none, found, serves, answer_in, cell_after, answer_of, cells_after, kind_of, empty_cell};
ghost use Rattle.ax_text.specs.Programs.{untouched};
ghost use Rattle.ax_text.specs.Rising.{MapsRise};
ghost use Rattle.ax_state.specs.Decls.{kinds};
ghost use Rattle.ax_state.specs.Fits.{has_kind, fits_in};
ghost use Rattle.ax_state.specs.Held.{shown_cell};
ghost use Rattle.ax_state.specs.KeyCells.{IsEmptyCell, shown_cells, cell_kinds};

use crate::decls::{Decl, Decls};
use ax_base::{Duplicate, NoMemory, Nums, Pair, Pairs};
use ax_text::{Answer, Kind, Request};
use std::alloc::Global;
use std::collections::BTreeMap;
use std::marker::Model;

// What one state holds, by its kind.
#[derive(Debug, Drop)]
enum Held {
    Value { number: Option<i64> },
    Items { items: Nums },
    Entries { entries: BTreeMap<i64, i64> },
}

/// What the declared states of one key hold. A state's number is its place among the declarations, from 0.
#[derive(Debug, Drop)]
pub struct KeyCells {
    alloc: Global,
    held: Vec<Held>,
}

impl Model for KeyCells {
    ghost use Rattle.std.specs.Prelude.{List, map};
    ghost use Rattle.ax_text.specs.Cells.{Cell};

    ghost Value = { List Cell };

    ghost use Rattle.ax_state.specs.Held.{shown_cell};

    ghost view = { λ c. map shown_cell c.held.items };

    ghost use Rattle.ax_state.specs.KeyCells.{shown_cells};
    ghost use Rattle.ax_text.specs.Rising.{MapsRise};

    // The entries of each map strictly rise by their keys.
    ghost invariant = { λ c. MapsRise (shown_cells (map shown_cell c.held.items)) };
}

impl KeyCells {
    /// The states of a key that was never touched: all empty. `NoMemory` is its only fault.
    pub fn new(alloc: Global, decls: &Decls) -> Result<KeyCells, NoMemory>
        ensures kinds { IfOk result (λ cells. cell_kinds cells ≡ kinds decls.now) }
        ensures empty { IfOk result (λ cells. All IsEmptyCell cells) }
        ensures untouched { IfOk result (λ cells. (s : ℕ) → shown_cells cells s ≡ untouched (kinds decls.now) s) }
    {
        Ok(KeyCells {
            alloc,
            held: empty_states(alloc, decls.as_slice())?,
        })
    }

    /// Serves one request. Condition: the state that it names exists, and is of the kind that serves it.
    /// At `NoMemory` nothing has changed.
    pub fn apply(&mut self, r: &Request) -> Result<Answer, NoMemory>
        requires { fits_in (cell_kinds self.old) r.now ≡ true }
        ensures answer { IfOk result (λ answer. answer ≡ answer_of r.now (shown_cells self.old)) }
        ensures cells { OnOk result ((s : ℕ) → shown_cells self.new s ≡ cells_after r.now (shown_cells self.old) s) }
        ensures kinds { cell_kinds self.new ≡ cell_kinds self.old }
        ensures rising { MapsRise (shown_cells self.new) }
        ensures err { OnErr result (self.new ≡ self.old) }
    {
        let alloc = self.alloc;
        let held = &mut self.held[r.state() as usize];
        held.serve(alloc, r)
    }

    /// The number that a state holds. Condition: the state exists, and holds one number or none.
    pub fn value(&self, state: u8) -> Option<i64>
        requires { has_kind (cell_kinds self.now) state kind.Value ≡ true }
        ensures { result ≡ number_in (shown_cells self.now state) }
    {
        match &self.held[state as usize] {
            Held::Value { number } => *number,
            _ => None,
        }
    }

    /// The numbers that a state holds, in order. Condition: the state exists, and holds a list.
    pub fn items(&self, state: u8) -> &[i64]
        requires { has_kind (cell_kinds self.now) state kind.List ≡ true }
        ensures { result.now ≡ items_in (shown_cells self.now state) }
    {
        match &self.held[state as usize] {
            Held::Items { items } => items.as_slice(),
            _ => &[],
        }
    }

    /// The entries of a state, by strictly rising key. Condition: the state exists, and holds a map. At `NoMemory` nothing is
    /// kept.
    pub fn pairs(&self, alloc: Global, state: u8) -> Result<Pairs, NoMemory>
        requires { has_kind (cell_kinds self.now) state kind.Map ≡ true }
        ensures entries { IfOk result (λ pairs. pairs ≡ map pair_of (entries_in (shown_cells self.now state))) }
        ensures rising { IfOk result (λ pairs. IsStrictlySortedBy int_cmp (map (λ p. p.at) pairs)) }
    {
        self.held[state as usize].pairs(alloc)
    }

    /// Whether all states are empty.
    pub fn is_empty(&self) -> bool
        ensures { IsTrue result ↔ All IsEmptyCell self.now }
    {
        are_empty(&self.held)
    }
}

impl Duplicate for KeyCells {
    fn copy(&self, alloc: Global) -> Result<KeyCells, NoMemory> {
        Ok(KeyCells {
            alloc,
            held: copy_states(alloc, &self.held)?,
        })
    }
}

// The declared states, all empty.
fn empty_states(alloc: Global, decls: &[Decl]) -> Result<Vec<Held>, NoMemory>
    ensures { IfOk result (λ held. map shown_cell held.items ≡ map empty_cell (kinds decls.now)) }
{
    let mut held = Vec::new(alloc);
    for decl in decls {
        let Ok(()) = held.push(Held::empty(alloc, decl.kind)) else {
            return Err(NoMemory);
        };
    }
    Ok(held)
}

// Whether all states are empty.
fn are_empty(held: &[Held]) -> bool
    ensures { IsTrue result ↔ All (λ h. IsEmptyCell (shown_cell h)) held.now }
{
    held.iter().all(|h| h.is_empty())
}

// The same states again.
fn copy_states(alloc: Global, held: &[Held]) -> Result<Vec<Held>, NoMemory>
    ensures { IfOk result (λ other. map shown_cell other.items ≡ map shown_cell held.now) }
{
    let mut other = Vec::new(alloc);
    for h in held {
        let Ok(()) = other.push(h.copy(alloc)?) else {
            return Err(NoMemory);
        };
    }
    Ok(other)
}

// The answer of a number that may be missing.
fn found(number: Option<i64>) -> Answer
    ensures { result ≡ found number }
{
    match number {
        Some(number) => Answer::Found { number },
        None => Answer::Missing,
    }
}

// An entry is set among entries. After an error nothing has changed.
fn insert(entries: &mut BTreeMap<i64, i64>, at: i64, number: i64) -> Result<(), NoMemory>
    ensures ok { OnOk result (entries.new.entries ≡ insert_entry int_cmp entries.old.entries at number) }
    ensures err { OnErr result (entries.new.entries ≡ entries.old.entries) }
{
    match entries.insert(at, number) {
        Ok(_) => Ok(()),
        Err(_) => Err(NoMemory),
    }
}

// The entries of a map as pairs, by rising key.
fn pairs_of(alloc: Global, entries: &BTreeMap<i64, i64>) -> Result<Pairs, NoMemory>
    ensures entries { IfOk result (λ pairs. pairs ≡ map pair_of entries.now.entries) }
    ensures rising { IfOk result (λ pairs. IsStrictlySortedBy int_cmp (map (λ p. p.at) pairs)) }
{
    let mut pairs = Pairs::new(alloc);
    for (at, number) in entries.iter() {
        pairs.push(Pair {
            at: *at,
            number: *number,
        })?;
    }
    Ok(pairs)
}

impl Held {
    // An empty state of a kind.
    fn empty(alloc: Global, kind: Kind) -> Held
        ensures { shown_cell result ≡ empty_cell kind }
    {
        match kind {
            Kind::Value => Held::Value { number: None },
            Kind::List => Held::Items {
                items: Nums::new(alloc),
            },
            Kind::Map => Held::Entries {
                entries: BTreeMap::new(alloc),
            },
        }
    }

    // Its kind.
    fn kind(&self) -> Kind
        ensures { result ≡ kind_of (shown_cell self.now) }
    {
        match self {
            Held::Value { .. } => Kind::Value,
            Held::Items { .. } => Kind::List,
            Held::Entries { .. } => Kind::Map,
        }
    }

    // The number of a value, where there is one.
    fn number(&self) -> Option<i64>
        ensures { result ≡ number_in (shown_cell self.now) }
    {
        match self {
            Held::Value { number } => *number,
            _ => None,
        }
    }

    // A copy of a list's items.
    fn items(&self, alloc: Global) -> Result<Nums, NoMemory>
        ensures { IfOk result (λ items. items ≡ items_in (shown_cell self.now)) }
    {
        match self {
            Held::Items { items } => items.copy(alloc),
            _ => Ok(Nums::new(alloc)),
        }
    }

    // A map's entries, by rising key.
    #[tactic(auto, using(crate::proofs::RisingLemmas::no_pairs))]
    fn pairs(&self, alloc: Global) -> Result<Pairs, NoMemory>
        ensures entries { IfOk result (λ pairs. pairs ≡ map pair_of (entries_in (shown_cell self.now))) }
        ensures rising { IfOk result (λ pairs. IsStrictlySortedBy int_cmp (map (λ p. p.at) pairs)) }
    {
        match self {
            Held::Entries { entries } => pairs_of(alloc, entries),
            _ => Ok(Pairs::new(alloc)),
        }
    }

    // The number of a map at a key, where there is one.
    fn entry(&self, at: &i64) -> Option<i64>
        ensures { result ≡ entry_at at.now (entries_in (shown_cell self.now)) }
    {
        match self {
            Held::Entries { entries } => entries.get(at).copied(),
            _ => None,
        }
    }

    // Whether a map has no entry.
    fn has_none(&self) -> bool
        ensures { result ≡ has_none (entries_in (shown_cell self.now)) }
    {
        match self {
            Held::Entries { entries } => entries.is_empty(),
            _ => true,
        }
    }

    // A number goes last into a list. After an error nothing has changed.
    fn add(&mut self, number: i64) -> Result<(), NoMemory>
        requires { kind_of (shown_cell self.old) ≡ kind.List }
        ensures ok { OnOk result (shown_cell self.new ≡ Items (items_in (shown_cell self.old) ++ number ∷ [])) }
        ensures err { OnErr result (shown_cell self.new ≡ shown_cell self.old) }
    {
        match self {
            Held::Items { items } => items.push(number),
            _ => Ok(()),
        }
    }

    // An entry of a map is set. After an error nothing has changed.
    fn put_at(&mut self, at: i64, number: i64) -> Result<(), NoMemory>
        requires { kind_of (shown_cell self.old) ≡ kind.Map }
        ensures ok { OnOk result (shown_cell self.new ≡ Entries (insert_entry int_cmp (entries_in (shown_cell self.old)) at number)) }
        ensures err { OnErr result (shown_cell self.new ≡ shown_cell self.old) }
    {
        match self {
            Held::Entries { entries } => insert(entries, at, number),
            _ => Ok(()),
        }
    }

    // The entry of a map at a key is taken out, if there is one.
    fn remove(&mut self, at: &i64)
        requires { kind_of (shown_cell self.old) ≡ kind.Map }
        ensures { shown_cell self.new ≡ Entries (remove_entry (is_at (int_cmp at.now)) (entries_in (shown_cell self.old))) }
    {
        match self {
            Held::Entries { entries } => {
                entries.remove(at);
            }
            _ => {}
        }
    }

    // Serves one request. After an error nothing has changed.
    fn serve(&mut self, alloc: Global, r: &Request) -> Result<Answer, NoMemory>
        requires { serves (kind_of (shown_cell self.old)) r.now ≡ true }
        ensures answer { IfOk result (λ answer. answer ≡ answer_in r.now (shown_cell self.old)) }
        ensures cell { OnOk result (shown_cell self.new ≡ cell_after r.now (shown_cell self.old)) }
        ensures kind { kind_of (shown_cell self.new) ≡ kind_of (shown_cell self.old) }
        ensures err { OnErr result (shown_cell self.new ≡ shown_cell self.old) }
    {
        match r {
            Request::ValueGet { .. } => return Ok(found(self.number())),
            Request::ListGet { .. } => {
                let items = self.items(alloc)?;
                return Ok(Answer::Items { items });
            }
            Request::MapGet { at, .. } => return Ok(found(self.entry(at))),
            Request::MapHas { at, .. } => {
                return Ok(Answer::Flag {
                    yes: self.entry(at).is_some(),
                });
            }
            Request::MapEmpty { .. } => return Ok(Answer::Flag {
                yes: self.has_none(),
            }),
            Request::MapEntries { .. } => {
                let pairs = self.pairs(alloc)?;
                return Ok(Answer::Pairs { pairs });
            }
            Request::ValuePut { number, .. } => *self = Held::Value {
                number: Some(*number),
            },
            Request::ListAdd { number, .. } => self.add(*number)?,
            Request::ListPut { items, .. } => {
                let items = items.copy(alloc)?;
                *self = Held::Items { items };
            }
            Request::MapPut { at, number, .. } => self.put_at(*at, *number)?,
            Request::MapRemove { at, .. } => self.remove(at),
            Request::Clear { .. } => *self = Held::empty(alloc, self.kind()),
        }
        Ok(Answer::Done)
    }

    // Whether it is an empty state of its kind.
    fn is_empty(&self) -> bool
        ensures { IsTrue result ↔ IsEmptyCell (shown_cell self.now) }
    {
        match self {
            Held::Value { number } => number.is_none(),
            Held::Items { items } => items.is_empty(),
            Held::Entries { entries } => entries.is_empty(),
        }
    }
}

// The same entries again.
fn copy_entries(alloc: Global, entries: &BTreeMap<i64, i64>) -> Result<BTreeMap<i64, i64>, NoMemory>
    ensures { IfOk result (λ other. other.entries ≡ entries.now.entries) }
{
    match entries.clone() {
        Ok(other) => Ok(other),
        Err(_) => Err(NoMemory),
    }
}

impl Held {
    // The same state again.
    fn copy(&self, alloc: Global) -> Result<Held, NoMemory>
        ensures { IfOk result (λ other. shown_cell other ≡ shown_cell self.now) }
    {
        match self {
            Held::Value { number } => Ok(Held::Value { number: *number }),
            Held::Items { items } => Ok(Held::Items {
                items: items.copy(alloc)?,
            }),
            Held::Entries { entries } => Ok(Held::Entries {
                entries: copy_entries(alloc, entries)?,
            }),
        }
    }
}
