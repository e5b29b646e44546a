//! Runs of contexts, beside a plain list.
ghost use Rattle.std.specs.Prelude.{◌<◌, vec_len};
ghost use Rattle.ax_context.specs.Slots.{IsLive, IsPaid};

use crate::draws::next_draw;
use ax_context::{Contexts, Id, Released};
use std::alloc::AllocError;
use std::test::Fail;

// What a live context should have.
#[derive(Clone, Copy)]
struct Seen {
    id: Id,
    payload: u32,
    epoch: u64,
    number: u64,
    count: u32,
}

// What a release answers, as a tuple.
fn parts(released: Released<u32>) -> (bool, u32, u64, u64) {
    match released {
        Released::Live => (false, 0, 0, 0),
        Released::Gone {
            payload,
            epoch,
            number,
        } => (true, payload, epoch, number),
    }
}

// Whether there are exactly the contexts of the list.
fn agree(contexts: &Contexts<u32>, seen: &[Seen]) -> bool {
    contexts.len() as usize == seen.len() && seen.iter().all(|s| is_as_seen(contexts, s))
}

fn is_as_seen(contexts: &Contexts<u32>, s: &Seen) -> bool {
    contexts.is_live(s.id)
        && *contexts.get(s.id) == s.payload
        && contexts.number(s.id) == s.number
        && contexts.count(s.id) == s.count
}

// Makes a context where there is room, and lists it with the number that it should have.
fn make(
    contexts: &mut Contexts<u32>,
    seen: &mut Vec<Seen>,
    draw: u32,
    number: &mut u64,
) -> Result<(), AllocError> {
    if contexts.len() == contexts.limit() {
        return Ok(());
    }
    let epoch = draw as u64;
    let id = contexts.make(draw, epoch);
    seen.push(Seen {
        id,
        payload: draw,
        epoch,
        number: *number,
        count: 1,
    })?;
    *number = number.wrapping_add(1);
    Ok(())
}

fn retain(contexts: &mut Contexts<u32>, s: &mut Seen) {
    if contexts.is_live(s.id) && contexts.count(s.id) < 17 {
        contexts.retain(s.id);
        s.count = s.count.wrapping_add(1);
    }
}

// Writes another payload, as a caller's contract sees it.
fn set_payload(contexts: &mut Contexts<u32>, id: Id, payload: u32)
    requires { IsLive contexts.old id }
    ensures { IsPaid contexts.old contexts.new id payload }
{
    *contexts.get_mut(id) = payload;
}

fn write(contexts: &mut Contexts<u32>, s: &mut Seen, payload: u32) {
    if contexts.is_live(s.id) {
        set_payload(contexts, s.id, payload);
        s.payload = payload;
    }
}

// Gives up a reference, and tells whether the answer was what it should be.
fn release(contexts: &mut Contexts<u32>, seen: &mut Vec<Seen>, i: usize) -> bool
    requires { i < vec_len seen.old }
{
    let s = seen[i];
    if !contexts.is_live(s.id) {
        return false;
    }
    let answer = parts(contexts.release(s.id));
    if s.count > 1 {
        seen[i].count = s.count - 1;
        return answer == (false, 0, 0, 0);
    }
    seen.swap_remove(i);
    answer == (true, s.payload, s.epoch, s.number) && !contexts.is_live(s.id)
}

#[test]
fn one_context(rt: HostRuntime) -> Result<(), Fail> {
    let mut contexts = Contexts::with_limit(rt.alloc(), 1)?;
    assert_eq!(rt; contexts.limit(), 1);
    let id = contexts.make(7u32, 3);
    contexts.retain(id);
    assert_eq!(rt; contexts.count(id), 2);
    assert_eq!(rt; parts(contexts.release(id)), (false, 0, 0, 0));
    assert_eq!(rt; contexts.len(), 1);
    assert_eq!(rt; parts(contexts.release(id)), (true, 7, 3, 1));
    assert_eq!(rt; contexts.len(), 0);
    Ok(())
}

#[test]
fn many_calls(rt: HostRuntime) -> Result<(), Fail> {
    let mut contexts = Contexts::with_limit(rt.alloc(), 6)?;
    let mut seen = Vec::new(rt.alloc());
    let mut number = 1;
    let mut drawn: u64 = 1;
    for _step in 0..2000 {
        drawn = next_draw(drawn);
        let draw = (drawn >> 32) as u32;
        let choice = (draw >> 16) % 8;
        if choice < 2 || seen.len() == 0 {
            make(&mut contexts, &mut seen, draw, &mut number)?;
        } else {
            let i = (draw >> 20) as usize % seen.len();
            match choice {
                2 | 3 => retain(&mut contexts, &mut seen[i]),
                4 => write(&mut contexts, &mut seen[i], draw),
                _ => assert!(rt; release(&mut contexts, &mut seen, i)),
            }
        }
        assert!(rt; agree(&contexts, &seen));
    }
    assert!(rt; number > 100);
    Ok(())
}
