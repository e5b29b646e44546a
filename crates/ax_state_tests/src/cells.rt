//! Requests of a list and a map, as text.
ghost use Rattle.std.specs.Prelude.{◌≡◌};
ghost use Rattle.ax_state.specs.Decls.{kinds};
ghost use Rattle.ax_state.specs.KeyCells.{cell_kinds};

use ax_base::{Bytes, Duplicate, NoMemory, Nums, Pairs};
use ax_state::{Decl, Decls, KeyCells, fits};
use ax_text::{Answer, Kind, Request};
use std::alloc::{AllocError, Global};
use std::test::Fail;

// State 0 is a list, state 1 a map.
fn list_and_map(alloc: Global) -> Result<Decls, NoMemory> {
    let mut decls = Decls::new(alloc);
    for (name, kind) in [("items", Kind::List), ("entries", Kind::Map)] {
        decls.push(Decl {
            name: Bytes::from_slice(alloc, name.as_bytes())?,
            kind,
        })?;
    }
    Ok(decls)
}

// What a name asks of a state, with the numbers behind it.
fn request_of(alloc: Global, name: &str, state: u8, numbers: &[i64]) -> Result<Request, NoMemory> {
    let first = numbers.first().copied().unwrap_or(0);
    let second = numbers.get(1).copied().unwrap_or(0);
    Ok(match name {
        "get" => Request::ValueGet { state },
        "items" => Request::ListGet { state },
        "add" => Request::ListAdd {
            state,
            number: first,
        },
        "items-are" => Request::ListPut {
            state,
            items: Nums::from_slice(alloc, numbers)?,
        },
        "at" => Request::MapGet { state, at: first },
        "put" => Request::MapPut {
            state,
            at: first,
            number: second,
        },
        "remove" => Request::MapRemove { state, at: first },
        "has" => Request::MapHas { state, at: first },
        "is-empty" => Request::MapEmpty { state },
        "entries" => Request::MapEntries { state },
        _ => Request::Clear { state },
    })
}

// The numbers of some words.
fn numbers_of(alloc: Global, text: &str) -> Result<Vec<i64>, AllocError> {
    let mut numbers = Vec::new(alloc);
    for word in text.split(' ') {
        if let Ok(number) = word.parse::<i64>() {
            numbers.push(number)?;
        }
    }
    Ok(numbers)
}

// Numbers behind a word.
fn listed(alloc: Global, word: &str, items: &[i64]) -> Result<String, AllocError> {
    let mut text = String::new(alloc);
    text.push_str(word)?;
    for item in items {
        text.push_str(" ")?;
        text.push_str(&item.to_string(alloc)?)?;
    }
    Ok(text)
}

// Pairs as numbers, one after another.
fn numbers_in(alloc: Global, pairs: &Pairs) -> Result<Vec<i64>, AllocError> {
    let mut numbers = Vec::new(alloc);
    for pair in pairs.as_slice() {
        numbers.push(pair.at)?;
        numbers.push(pair.number)?;
    }
    Ok(numbers)
}

// An answer as text; `unfit` where there is none.
fn text_of(alloc: Global, answer: Option<Answer>) -> Result<String, AllocError> {
    match answer {
        None => listed(alloc, "unfit", &[]),
        Some(Answer::Done) => listed(alloc, "done", &[]),
        Some(Answer::Missing) => listed(alloc, "missing", &[]),
        Some(Answer::Found { number }) => listed(alloc, "found", &[number]),
        Some(Answer::Items { items }) => listed(alloc, "items", items.as_slice()),
        Some(Answer::Pairs { pairs }) => listed(alloc, "pairs", &numbers_in(alloc, &pairs)?),
        Some(Answer::Flag { yes }) => listed(alloc, if yes { "yes" } else { "no" }, &[]),
    }
}

// The answer, or none where what is asked does not fit.
fn answer(decls: &Decls, cells: &mut KeyCells, r: &Request) -> Result<Option<Answer>, NoMemory>
    requires { cell_kinds cells.old ≡ kinds decls.now }
    ensures { cell_kinds cells.new ≡ cell_kinds cells.old }
{
    if !fits(decls, r) {
        return Ok(None);
    }
    match cells.apply(r) {
        Ok(answer) => Ok(Some(answer)),
        Err(NoMemory) => Err(NoMemory),
    }
}

// The answer to a line: what is asked, of which state, and the numbers for it.
fn answer_to(alloc: Global, decls: &Decls, cells: &mut KeyCells, line: &str) -> Result<String, Fail>
    requires { cell_kinds cells.old ≡ kinds decls.now }
    ensures { cell_kinds cells.new ≡ cell_kinds cells.old }
{
    let (name, rest) = line.split_once(' ').unwrap_or((line, ""));
    let numbers = numbers_of(alloc, rest)?;
    let state = match numbers.first() {
        Some(number) => u8::try_from(*number).unwrap_or(255),
        None => 255,
    };
    let request = request_of(alloc, name, state, numbers.get(1..).unwrap_or(&[]))?;
    let answer = answer(decls, cells, &request)?;
    Ok(text_of(alloc, answer)?)
}

// The entries of a map, as numbers one after another; none where the state is no map.
fn entries(alloc: Global, decls: &Decls, cells: &KeyCells, state: u8) -> Result<Vec<i64>, Fail>
    requires { cell_kinds cells.now ≡ kinds decls.now }
{
    if !fits(decls, &Request::MapEntries { state }) {
        return Ok(Vec::new(alloc));
    }
    let pairs = cells.pairs(alloc, state)?;
    Ok(numbers_in(alloc, &pairs)?)
}

// Requests in turn, each with its answer.
const CALLS: &str = "\
items 0|items
add 0 5|done
add 0 -1|done
add 0 5|done
items 0|items 5 -1 5
items-are 0 9 8 7|done
items 0|items 9 8 7
items-are 0|done
items 0|items
add 0 -9223372036854775808|done
items 0|items -9223372036854775808
is-empty 1|yes
at 1 5|missing
has 1 5|no
put 1 5 1|done
put 1 -2 3|done
entries 1|pairs -2 3 5 1
is-empty 1|no
has 1 5|yes
at 1 -2|found 3
put 1 5 -7|done
at 1 5|found -7
entries 1|pairs -2 3 5 -7
remove 1 4|done
remove 1 -2|done
entries 1|pairs 5 -7
clear 0|done
items 0|items
entries 1|pairs 5 -7
clear 1|done
is-empty 1|yes
entries 1|pairs
items 1|unfit
entries 0|unfit
add 1 5|unfit
put 0 5 1|unfit
get 0|unfit
clear 2|unfit";

#[test]
fn lists_and_maps(rt: HostRuntime) -> Result<(), Fail> {
    let alloc = rt.alloc();
    let decls = list_and_map(alloc)?;
    let mut cells = KeyCells::new(alloc, &decls)?;
    for line in CALLS.lines() {
        let (call, wanted) = line.split_once('|').unwrap_or((line, ""));
        assert_eq!(rt;
            answer_to(alloc, &decls, &mut cells, call)?.as_str(),
            wanted,
            "{line}"
        );
    }
    assert!(rt; cells.is_empty());
    Ok(())
}

#[test]
fn a_copy_has_the_same_entries(rt: HostRuntime) -> Result<(), Fail> {
    let alloc = rt.alloc();
    let decls = list_and_map(alloc)?;
    let mut cells = KeyCells::new(alloc, &decls)?;
    answer_to(alloc, &decls, &mut cells, "put 1 5 1")?;
    answer_to(alloc, &decls, &mut cells, "put 1 -2 3")?;
    let copy = cells.copy(alloc)?;
    answer_to(alloc, &decls, &mut cells, "clear 1")?;
    assert_eq!(rt;
        entries(alloc, &decls, &copy, 1)?.as_slice(),
        [-2, 3, 5, 1].as_slice()
    );
    assert!(rt; cells.is_empty());
    Ok(())
}
