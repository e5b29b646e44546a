//! What a controller takes when it is made.
ghost use Rattle.std.specs.Prelude.{◌≡◌, ◌≤◌, ◌+◌, ◌*◌, [], replicate, IfOk};
ghost use Rattle.ax_core.specs.Rooms.{AreTaken};

use crate::record::{Name, Record};
use crate::settings::Settings;
use ax_base::{ListOf, NoMemory};
use ax_buffer::RequestBuffer;
use ax_context::Contexts;
use ax_mailbox::Mailbox;
use std::alloc::Global;

/// The rooms for contexts, requests and mails, with nothing in them.
#[derive(Drop)]
pub struct Rooms {
    pub contexts: Contexts<Record>,
    pub buffer: RequestBuffer,
    pub outs: Vec<ListOf<Name>>,
    pub mails: Mailbox,
}

/// Takes the rooms for handlers that have so many requests out at once. The only fault is `NoMemory`.
pub fn take_rooms(alloc: Global, settings: Settings, width: u8) -> Result<Rooms, NoMemory>
    requires contexts { settings.in_flight ≤ 65536 }
    requires width { width ≤ 16 }
    ensures { IfOk result (λ rooms. AreTaken settings width rooms) }
{
    let contexts = Contexts::with_limit(alloc, settings.in_flight)?;
    let buffer = room_for_requests(alloc, settings.shards, settings.in_flight, width)?;
    let outs = no_batches(alloc, settings.shards)?;
    let mails = room_for_mails(alloc, settings.in_flight, width)?;
    Ok(Rooms {
        contexts,
        buffer,
        outs,
        mails,
    })
}

// Empty queues, with room for the requests of all contexts.
fn room_for_requests(
    alloc: Global,
    shards: u16,
    contexts: u32,
    width: u8,
) -> Result<RequestBuffer, NoMemory>
    requires contexts { contexts ≤ 65536 }
    requires width { width ≤ 16 }
    ensures queues { IfOk result (λ buffer. buffer.queues ≡ replicate shards []) }
    ensures room { IfOk result (λ buffer. buffer.room ≡ contexts * width) }
{
    RequestBuffer::with_room(alloc, shards, contexts * u32::from(width))
}

// No batch is out of any shard.
fn no_batches(alloc: Global, shards: u16) -> Result<Vec<ListOf<Name>>, NoMemory>
    ensures { IfOk result (λ outs. outs.items ≡ replicate shards []) }
{
    let mut outs = Vec::new(alloc);
    for _shard in 0..shards {
        let Ok(()) = outs.push(ListOf::new(alloc)) else {
            return Err(NoMemory);
        };
    }
    Ok(outs)
}

// No mails, with room for the replies of all contexts and one start of each.
fn room_for_mails(alloc: Global, contexts: u32, width: u8) -> Result<Mailbox, NoMemory>
    requires contexts { contexts ≤ 65536 }
    requires width { width ≤ 16 }
    ensures { IfOk result (λ mails. mails ≡ record { mails = []; room = contexts * (width + 1) }) }
{
    Mailbox::with_room(alloc, contexts * (u32::from(width) + 1))
}
