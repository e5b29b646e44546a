//! Runs of the accounts of keys, beside plain lists.
use ax_account::{Accounting, MOST_FIRINGS, Next, Occupied};
use ax_base::NoMemory;
use ax_context::{Contexts, Id};
use ax_keys::Key;
use std::alloc::{AllocError, Global};
use std::process::Abort;
use std::test::Fail;

// What comes next, in a word.
fn word(next: Next) -> &'static str {
    match next {
        Next::Row { .. } => "row",
        Next::Mark { .. } => "mark",
        Next::Free => "free",
    }
}

// A context with nothing in it, where there is room.
fn context(contexts: &mut Contexts<u32>) -> Option<Id> {
    if contexts.len() < contexts.limit() {
        return Some(contexts.make(0, 0));
    }
    None
}

// Takes the owner off a key, where it has one.
fn release(accounting: &mut Accounting, key: &Key) -> Option<Next> {
    if accounting.owner(key).is_some() {
        return Some(accounting.release(key));
    }
    None
}

// Takes the mark in front off a key, where it has no owner and a mark in front.
fn end_mark(accounting: &mut Accounting, key: &Key) -> Option<Next> {
    if let None = accounting.owner(key) {
        if let Next::Mark { .. } = accounting.front(key) {
            return Some(accounting.end_mark(key));
        }
    }
    None
}

// Fires the mark in front of a key, where it has no owner and a mark in front that may fire.
fn fire(accounting: &mut Accounting, key: &Key, id: Id) -> bool {
    if let None = accounting.owner(key) {
        if let Next::Mark { fired, .. } = accounting.front(key) {
            if fired < MOST_FIRINGS {
                accounting.fire(key, id);
                return true;
            }
        }
    }
    false
}

#[test]
fn one_key(rt: HostRuntime) -> Result<(), Fail> {
    let mut contexts = Contexts::with_limit(rt.alloc(), 2)?;
    let mut accounting = Accounting::new(rt.alloc());
    let a = Key::read(rt.alloc(), b"a")?.expect(&rt, "a key");
    let one = context(&mut contexts).expect(&rt, "a context");
    let two = context(&mut contexts).expect(&rt, "a context");
    assert_eq!(rt; accounting.occupy(&a, one)?, Occupied::Owner);
    assert_eq!(rt; accounting.occupy(&a, two)?, Occupied::Waits);
    accounting.wait_mark(&a, 7, -9)?;
    assert_eq!(rt; accounting.busy(rt.alloc())?.len(), 1);
    assert_eq!(rt; release(&mut accounting, &a), Some(Next::Row { id: two }));
    let mark = Next::Mark {
        epoch: 7,
        time: -9,
        fired: 0,
    };
    assert_eq!(rt; release(&mut accounting, &a), Some(mark));
    assert!(rt; accounting.first_idle().is_none());
    assert_eq!(rt; end_mark(&mut accounting, &a), Some(Next::Free));
    assert!(rt; accounting.busy(rt.alloc())?.is_empty());
    Ok(())
}

// Plain lists: the keys that have an owner, what waits for which key in the order of arrival, and
// the idle keys.
#[derive(Drop)]
struct Plain {
    owned: Vec<u8>,
    waiting: Vec<(u8, bool)>,
    idle: Vec<u8>,
}

// Whether a row is in front at a key, as the plain list has it.
fn front_of(waiting: &[(u8, bool)], key: u8) -> Option<bool> {
    for (at, is_row) in waiting {
        if *at == key {
            return Some(*is_row);
        }
    }
    None
}

// Takes the first item of a key off the plain list.
fn take_front(waiting: &mut Vec<(u8, bool)>, key: u8) {
    if let Some(place) = waiting.iter().position(|item| item.0 == key) {
        if place < waiting.len() {
            waiting.remove(place);
        }
    }
}

// What comes next at a key, in a word; a row in front then owns the key.
fn hand_on(plain: &mut Plain, key: u8) -> Result<&'static str, AllocError> {
    match front_of(&plain.waiting, key) {
        Some(true) => {
            take_front(&mut plain.waiting, key);
            plain.owned.push(key)?;
            Ok("row")
        }
        Some(false) => Ok("mark"),
        None => Ok("free"),
    }
}

// One call on the plain lists, and its answer in a word.
fn plain_call(plain: &mut Plain, call: &str, key: u8) -> Result<&'static str, AllocError> {
    let is_free = !plain.owned.contains(&key) && front_of(&plain.waiting, key).is_none();
    match call {
        "row" => {
            if is_free {
                plain.owned.push(key)?;
                return Ok("owner");
            }
            plain.waiting.push((key, true))?;
            Ok("waits")
        }
        "mark" => {
            if is_free {
                plain.idle.push(key)?;
            }
            plain.waiting.push((key, false))?;
            Ok("done")
        }
        "release" => {
            plain.owned.retain(|other| *other != key);
            hand_on(plain, key)
        }
        "fire" => {
            plain.idle.retain(|other| *other != key);
            plain.owned.push(key)?;
            Ok("fired")
        }
        _ => {
            plain.idle.retain(|other| *other != key);
            take_front(&mut plain.waiting, key);
            hand_on(plain, key)
        }
    }
}

// The same call on the accounts, and its answer in a word; "no" where its condition does not hold.
fn account_call(
    accounting: &mut Accounting,
    call: &str,
    key: &Key,
    id: Id,
) -> Result<&'static str, NoMemory> {
    match call {
        "row" => match accounting.occupy(key, id)? {
            Occupied::Owner => Ok("owner"),
            Occupied::Waits => Ok("waits"),
        },
        "mark" => {
            accounting.wait_mark(key, 1, 2)?;
            Ok("done")
        }
        "release" => Ok(release(accounting, key).map_or("no", word)),
        "fire" => {
            if fire(accounting, key, id) {
                return Ok("fired");
            }
            Ok("no")
        }
        _ => Ok(end_mark(accounting, key).map_or("no", word)),
    }
}

// Calls on the keys a, b and c, in which marks come between rows and idle keys leave from anywhere.
const CALLS: &str = "\
mark a
mark b
mark c
row b
mark b
fire b
row b
release b
end b
release b
fire b
release b
end b
mark b
fire c
mark c
end a
release c
end c
end c
row a
row a
row a
mark a
release a
release a
release a
fire a
mark a
release a
end a
end a
release b
end b
row c
release c";

#[test]
fn beside_plain_lists(rt: HostRuntime) -> Result<(), Fail> {
    let mut contexts = Contexts::with_limit(rt.alloc(), 1)?;
    let id = context(&mut contexts).expect(&rt, "a context");
    let mut accounting = Accounting::new(rt.alloc());
    let mut plain = Plain {
        owned: Vec::new(rt.alloc()),
        waiting: Vec::new(rt.alloc()),
        idle: Vec::new(rt.alloc()),
    };
    for line in CALLS.lines() {
        let (call, name) = line.split_once(' ').expect(&rt, "a call and a key");
        let letter = name.as_bytes().first().copied().expect(&rt, "a letter");
        let key = Key::read(rt.alloc(), name.as_bytes())?.expect(&rt, "a key");
        let answer = account_call(&mut accounting, call, &key, id)?;
        assert_eq!(rt; answer, plain_call(&mut plain, call, letter)?, "{line}");
        assert_eq!(rt;
            accounting.owner(&key).is_some(),
            plain.owned.contains(&letter),
            "{line}"
        );
        let first = accounting
            .first_idle()
            .map_or(b'-', |k| k.as_bytes().first().copied().unwrap_or(b'?'));
        assert_eq!(rt;
            first,
            plain.idle.first().copied().unwrap_or(b'-'),
            "{line}"
        );
    }
    assert!(rt; accounting.busy(rt.alloc())?.is_empty());
    Ok(())
}
