//! A shard: what the states of its keys hold, and the batches that it serves.
ghost use Rattle.std.specs.Prelude.{◌≡◌, [], true, IfOk, IfSome, IfNone, OnOk, OnErr, None};
ghost use Rattle.std.specs.Map.{lookup};
ghost use Rattle.std.specs.BTreeMap.{is_at};
ghost use Rattle.ax_keys.specs.Keys.{key_cmp};
ghost use Rattle.ax_text.specs.Cells.{answer_of};
ghost use Rattle.ax_text.specs.Suits.{fits_in};
ghost use Rattle.ax_state.specs.Decls.{kinds};
ghost use Rattle.ax_task.specs.Serving.{Serves, AllFit, content_of, content_with, reply_to};

use ax_base::{Duplicate, NoMemory};
use ax_buffer::{Batch, Item, Replies, Reply};
use ax_keys::Key;
use ax_state::{Answer, Decls, KeyCells};
use std::alloc::Global;
use std::collections::BTreeMap;
use std::marker::Model;

/// A shard, which holds the states of each key that had a request.
#[derive(Drop)]
pub struct Shard {
    pub(crate) alloc: Global,
    pub(crate) decls: Decls,
    pub(crate) states: BTreeMap<Key, KeyCells>,
}

impl Model for Shard {
    ghost use Rattle.ax_task.specs.Serving.{Holding, HoldsKinds};
    ghost use Rattle.ax_state.specs.Decls.{kinds};

    ghost Value = { Holding };

    ghost view = { λ s. record { kinds = kinds s.decls; entries = s.states.entries } };

    ghost invariant = { λ s. HoldsKinds (kinds s.decls) s.states.entries };
}

impl Shard {
    /// A shard whose keys were never touched.
    pub fn new(alloc: Global, decls: &Decls) -> Result<Shard, NoMemory>
        ensures { IfOk result (λ shard. shard ≡ record { kinds = kinds decls.now; entries = [] }) }
    {
        Ok(Shard {
            alloc,
            decls: decls.copy(alloc)?,
            states: BTreeMap::new(alloc),
        })
    }

    /// Serves a batch: one reply for each item, in order. Condition: each request fits the declared states. After `NoMemory`,
    /// the only fault, the first requests of the batch were served, and the others not.
    pub fn serve(&mut self, batch: &Batch) -> Result<Replies, NoMemory>
        requires { AllFit self.old.kinds batch.now }
        ensures kinds { self.new.kinds ≡ self.old.kinds }
        ensures served { Serves batch.now (content_of self.old) result (content_of self.new) }
    {
        let mut replies = Replies::new(self.alloc);
        for item in batch.as_slice() {
            let reply = self.serve_item(item)?;
            replies.push(reply)?;
        }
        Ok(replies)
    }

    // Serves one request. After `NoMemory` the content is as before.
    fn serve_item(&mut self, item: &Item) -> Result<Reply, NoMemory>
        requires { fits_in self.old.kinds item.now.request ≡ true }
        ensures kinds { self.new.kinds ≡ self.old.kinds }
        ensures reply { IfOk result (λ reply. reply ≡ reply_to item.now (content_of self.old)) }
        ensures content { OnOk result (content_of self.new ≡ content_with item.now (content_of self.old)) }
        ensures err { OnErr result (content_of self.new ≡ content_of self.old) }
    {
        if let Some(answer) = self.apply_held(item)? {
            return Ok(reply_of(item, answer));
        }
        let answer = self.apply_first(item)?;
        Ok(reply_of(item, answer))
    }

    // Applies a request to what is held of its key. `None` exactly where nothing is; then, and after `NoMemory`, the content
    // is as before.
    fn apply_held(&mut self, item: &Item) -> Result<Option<Answer>, NoMemory>
        requires { fits_in self.old.kinds item.now.request ≡ true }
        ensures kinds { self.new.kinds ≡ self.old.kinds }
        ensures answer { IfOk result (λ r. IfSome r (λ answer. answer ≡ answer_of item.now.request (content_of self.old item.now.key))) }
        ensures content { IfOk result (λ r. IfSome r (λ _. content_of self.new ≡ content_with item.now (content_of self.old))) }
        ensures none { IfOk result (λ r. IfNone r (lookup (is_at (key_cmp item.now.key)) self.new.entries ≡ None)) }
        ensures same { IfOk result (λ r. IfNone r (self.new ≡ self.old)) }
        ensures err { OnErr result (content_of self.new ≡ content_of self.old) }
    {
        let Some(cells) = self.states.get_mut(&item.key) else {
            return Ok(None);
        };
        let answer = cells.apply(&item.request)?;
        Ok(Some(answer))
    }

    // Applies a request to the untouched states of its key. Condition: nothing is held of the key. After `NoMemory` nothing
    // has changed.
    fn apply_first(&mut self, item: &Item) -> Result<Answer, NoMemory>
        requires fits { fits_in self.old.kinds item.now.request ≡ true }
        requires absent { lookup (is_at (key_cmp item.now.key)) self.old.entries ≡ None }
        ensures kinds { self.new.kinds ≡ self.old.kinds }
        ensures answer { IfOk result (λ answer. answer ≡ answer_of item.now.request (content_of self.old item.now.key)) }
        ensures content { OnOk result (content_of self.new ≡ content_with item.now (content_of self.old)) }
        ensures err { OnErr result (content_of self.new ≡ content_of self.old) }
    {
        let mut cells = KeyCells::new(self.alloc, &self.decls)?;
        let answer = cells.apply(&item.request)?;
        let key = item.key.copy(self.alloc)?;
        let Ok(_) = self.states.insert(key, cells) else {
            return Err(NoMemory);
        };
        Ok(answer)
    }
}

// The reply to a request that was answered so.
fn reply_of(item: &Item, answer: Answer) -> Reply
    ensures { result ≡ record { id = item.now.id; slot = item.now.slot; answer = answer } }
{
    Reply {
        id: item.id,
        slot: item.slot,
        answer,
    }
}
