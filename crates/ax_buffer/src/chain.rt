//! A queue as it lies in the arena that all shards share.
ghost use Rattle.std.specs.Prelude.{◌≡◌, ◌≢◌, ℕ, ◌+◌, ◌<◌, ◌^◌};
ghost use Rattle.slab.specs.Slab.{get, ContainsKey, HasRoomFor, slab_len, Updates};
ghost use Rattle.ax_buffer.specs.Chains.{next_of, item_of, IsAppended, IsDetached};

use crate::items::Item;
use slab::Slab;

/// An item in the arena, and the place of the item behind it, which means nothing at the last.
#[derive(Debug, Drop)]
pub struct Node {
    pub item: Item,
    pub next: usize,
}

/// A queue: where its first and its last item lie, which mean nothing where it is empty, and how
/// many items it has.
#[derive(Clone, Copy, Debug)]
pub struct Chain {
    pub first: usize,
    pub last: usize,
    pub length: u32,
}

impl Chain {
    /// A queue with no item.
    pub const EMPTY: Chain = Chain {
        first: 0,
        last: 0,
        length: 0,
    };
}

// Has the item at a place followed by that at another.
fn link(nodes: &mut Slab<Node>, place: usize, next: usize)
    requires { ContainsKey nodes.old place }
    ensures next { next_of (get nodes.new place) ≡ next }
    ensures item { item_of (get nodes.new place) ≡ item_of (get nodes.old place) }
    ensures others { (p : ℕ) → p ≢ place → get nodes.new p ≡ get nodes.old p }
    ensures len { slab_len nodes.new ≡ slab_len nodes.old }
    ensures capacity { nodes.new.capacity ≡ nodes.old.capacity }
{
    nodes[place].next = next;
}

/// Puts an item behind the last of a queue, and gives the longer queue. It takes no memory.
pub fn append(nodes: &mut Slab<Node>, chain: &Chain, item: Item) -> Chain
    requires room { HasRoomFor nodes.old 1 }
    requires live { 0 < chain.now.length → ContainsKey nodes.old chain.now.last }
    requires short { chain.now.length + 1 < 2 ^ 32 }
    ensures appended { IsAppended nodes.old nodes.new chain.now result item }
    ensures len { slab_len nodes.new ≡ slab_len nodes.old + 1 }
    ensures capacity { nodes.new.capacity ≡ nodes.old.capacity }
{
    let place = nodes.insert_reserved(Node { item, next: 0 });
    if chain.length == 0 {
        return Chain {
            first: place,
            last: place,
            length: 1,
        };
    }
    link(nodes, chain.last, place);
    Chain {
        first: chain.first,
        last: place,
        length: chain.length + 1,
    }
}

/// Takes the first item of a queue, and gives it with the shorter queue. Condition: there is one.
pub fn detach(nodes: &mut Slab<Node>, chain: &Chain) -> (Item, Chain)
    requires some { 0 < chain.now.length }
    requires live { ContainsKey nodes.old chain.now.first }
    ensures detached { IsDetached nodes.old nodes.new chain.now result.1 result.0 }
    ensures len { slab_len nodes.new + 1 ≡ slab_len nodes.old }
    ensures capacity { nodes.new.capacity ≡ nodes.old.capacity }
{
    let node = nodes.remove(chain.first);
    let shorter = Chain {
        first: node.next,
        last: chain.last,
        length: chain.length - 1,
    };
    (node.item, shorter)
}
