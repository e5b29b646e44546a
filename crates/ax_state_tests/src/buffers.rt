//! Batches of requests, and a longer run beside a plain list.
ghost use Rattle.std.specs.Prelude.{◌≡◌, ◌<◌, length};

use ax_base::NoMemory;
use ax_buffer::{Item, RequestBuffer};
use ax_context::{Contexts, Id};
use ax_keys::Key;
use ax_state::Request;
use std::alloc::Global;
use std::test::Fail;

// Two names of contexts.
fn two_ids(alloc: Global) -> Result<[Id; 2], NoMemory> {
    let mut contexts = Contexts::with_limit(alloc, 2)?;
    Ok([contexts.make(0u8, 0), contexts.make(0u8, 0)])
}

// The item of a number: its slot, its key, its context and what it asks go by the number.
fn item(alloc: Global, ids: &[Id; 2], number: u8) -> Result<Item, NoMemory> {
    let Some(key) = Key::read(alloc, &[b'a' + number % 16])? else {
        return Err(NoMemory);
    };
    Ok(Item {
        id: ids[number as usize % 2],
        slot: number,
        key,
        request: Request::ValueGet { state: number % 3 },
    })
}

// Whether a batch is the items of these numbers, in this order.
fn is_batch(
    alloc: Global,
    ids: &[Id; 2],
    batch: &[Item],
    numbers: &[u8],
) -> Result<bool, NoMemory> {
    if batch.len() != numbers.len() {
        return Ok(false);
    }
    for (found, number) in batch.iter().zip(numbers) {
        if *found != item(alloc, ids, *number)? {
            return Ok(false);
        }
    }
    Ok(true)
}

#[test]
fn first_two_of_three(rt: HostRuntime) -> Result<(), Fail> {
    let ids = two_ids(rt.alloc())?;
    let mut buffer = RequestBuffer::with_room(rt.alloc(), 1, 3)?;
    assert_eq!(rt; buffer.room(), 3);
    buffer.push(0, item(rt.alloc(), &ids, 5)?);
    buffer.push(0, item(rt.alloc(), &ids, 6)?);
    buffer.push(0, item(rt.alloc(), &ids, 7)?);
    let batch = buffer.take_batch(rt.alloc(), 0, 2)?;
    assert!(rt; is_batch(rt.alloc(), &ids, batch.as_slice(), &[5, 6])?);
    assert_eq!(rt; buffer.active_len(0), 1);
    assert_eq!(rt; buffer.len(), 1);
    let batch = buffer.take_batch(rt.alloc(), 0, 2)?;
    assert!(rt; is_batch(rt.alloc(), &ids, batch.as_slice(), &[7])?);
    assert_eq!(rt; buffer.len(), 0);
    Ok(())
}

// The same queues as one plain list: the shard and the number of each item, in the order of pushes.
#[derive(Drop)]
struct Plain {
    waiting: Vec<(u16, u8)>,
    next: u8,
}

impl Plain {
    // How many items a shard has.
    fn active_len(&self, shard: u16) -> usize {
        self.waiting.iter().filter(|w| w.0 == shard).count()
    }

    // The numbers of the first items of a shard, which go.
    fn take(&mut self, alloc: Global, shard: u16, max: u8) -> Result<Vec<u8>, NoMemory> {
        let mut numbers = Vec::new(alloc);
        for _ in 0..max {
            let Some(place) = self.waiting.iter().position(|w| w.0 == shard) else {
                break;
            };
            let (_, number) = self.waiting.remove(place);
            let Ok(()) = numbers.push(number) else {
                return Err(NoMemory);
            };
        }
        Ok(numbers)
    }
}

// Pushes the next item on both, and tells whether there was room.
fn push(
    alloc: Global,
    ids: &[Id; 2],
    buffer: &mut RequestBuffer,
    plain: &mut Plain,
    shard: u16,
) -> Result<bool, NoMemory>
    requires { shard < length buffer.old.queues }
    ensures { length buffer.new.queues ≡ length buffer.old.queues }
{
    if buffer.len() >= buffer.room() || plain.next == 255 {
        return Ok(false);
    }
    buffer.push(shard, item(alloc, ids, plain.next)?);
    let Ok(()) = plain.waiting.push((shard, plain.next)) else {
        return Err(NoMemory);
    };
    plain.next += 1;
    Ok(true)
}

// Takes a batch from both, and tells whether they gave the same.
fn take(
    alloc: Global,
    ids: &[Id; 2],
    buffer: &mut RequestBuffer,
    plain: &mut Plain,
    shard: u16,
    max: u8,
) -> Result<bool, NoMemory>
    requires { shard < length buffer.old.queues }
    ensures { length buffer.new.queues ≡ length buffer.old.queues }
{
    let batch = buffer.take_batch(alloc, shard, u32::from(max))?;
    let numbers = plain.take(alloc, shard, max)?;
    is_batch(alloc, ids, batch.as_slice(), &numbers)
}

// Whether both have as many items, in all and of each shard.
fn same_lengths(buffer: &RequestBuffer, plain: &Plain) -> bool
    requires { length buffer.now.queues ≡ 3 }
{
    buffer.len() as usize == plain.waiting.len()
        && (0..3u16).all(|shard| buffer.active_len(shard) as usize == plain.active_len(shard))
}

// Takes one step on both: `+` and a shard, or `-`, a shard and how many items at most.
fn step(
    alloc: Global,
    ids: &[Id; 2],
    buffer: &mut RequestBuffer,
    plain: &mut Plain,
    line: &[u8],
) -> Result<bool, NoMemory>
    requires { length buffer.old.queues ≡ 3 }
    ensures { length buffer.new.queues ≡ 3 }
{
    match line {
        [b'+', shard] => push(alloc, ids, buffer, plain, u16::from(*shard % 3)),
        [b'-', shard, max] => take(alloc, ids, buffer, plain, u16::from(*shard % 3), *max % 16),
        _ => Ok(false),
    }
}

const STEPS: &str = "\
+0
+1
+0
+2
+0
-02
+1
+1
-13
-01
-05
-11
+0
+0
+0
+0
-22
+1
-04
-00
+2
+2
+2
+2
-21
+0
-29
-01
-12
-00";

#[test]
fn same_as_plain_list(rt: HostRuntime) -> Result<(), Fail> {
    let ids = two_ids(rt.alloc())?;
    let mut buffer = RequestBuffer::with_room(rt.alloc(), 3, 5)?;
    let mut plain = Plain {
        waiting: Vec::new(rt.alloc()),
        next: 0,
    };
    for line in STEPS.lines() {
        assert!(rt; step(rt.alloc(), &ids, &mut buffer, &mut plain, line.as_bytes())?);
        assert!(rt; same_lengths(&buffer, &plain));
    }
    assert_eq!(rt; buffer.len(), 0);
    Ok(())
}
