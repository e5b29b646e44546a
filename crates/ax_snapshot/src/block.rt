//! A block that is being put together.
ghost use Rattle.std.specs.Prelude.{◌≡◌, ◌+◌, ◌<◌, ◌++◌, length, IfOk, OnOk};
ghost use Rattle.ax_machine.specs.Blocks.{value_lines};
ghost use Rattle.ax_machine.specs.OutLines.{Head, Value, Item, Entry, Timer, End, spelled};
ghost use Rattle.ax_snapshot.specs.Added.{Adds};

use crate::snapshot::Snapshot;
use ax_base::{Bytes, NoMemory, Pair};
use ax_input::{put_end, put_entry, put_head, put_item, put_timer, put_value};
use ax_keys::Key;
use std::alloc::Global;
use std::marker::Model;

// The text of a block as far as it was put, and how many lines there are behind the head.
#[derive(Drop)]
pub(crate) struct Block {
    text: Bytes,
    count: u64,
}

impl Model for Block {
    ghost use Rattle.std.specs.Prelude.{◌≤◌, length};
    ghost use Rattle.ax_snapshot.specs.Added.{Put};

    ghost Value = { Put };

    ghost view = { λ b. record { text = b.text; count = b.count } };

    ghost invariant = { λ b. b.count ≤ length b.text };
}

// One line more. A text has at least as many bytes as lines, and so the count has room.
fn one_more(count: u64, text: &Bytes) -> u64
    requires { count < length text.now }
    ensures { result ≡ count + 1 }
{
    let _bytes = text.len();
    count + 1
}

impl Block {
    // The head of the block of a snapshot.
    pub(crate) fn begin(alloc: Global, s: &Snapshot) -> Result<Block, NoMemory>
        ensures text { IfOk result (λ block. block.text ≡ spelled (Head s.now.id s.now.wm)) }
        ensures count { IfOk result (λ block. block.count ≡ 0) }
    {
        let mut text = Bytes::new(alloc);
        put_head(alloc, &mut text, s.id, s.wm)?;
        Ok(Block { text, count: 0 })
    }

    // Puts the line of a value.
    #[tactic(auto, using(crate::proofs::AddedLemmas::has_room))]
    fn put_number(
        &mut self,
        alloc: Global,
        key: &Key,
        state: &Bytes,
        number: i64,
    ) -> Result<(), NoMemory>
        ensures text { OnOk result (self.new.text ≡ self.old.text ++ spelled (Value key.now state.now number)) }
        ensures count { OnOk result (self.new.count ≡ self.old.count + 1) }
    {
        put_value(alloc, &mut self.text, key, state, number)?;
        self.count = one_more(self.count, &self.text);
        Ok(())
    }

    // Puts the line of a value; an empty state has none.
    pub(crate) fn put_value(
        &mut self,
        alloc: Global,
        key: &Key,
        state: &Bytes,
        number: Option<i64>,
    ) -> Result<(), NoMemory>
        ensures { OnOk result (Adds self.old self.new (value_lines key.now state.now number)) }
    {
        match number {
            Some(number) => self.put_number(alloc, key, state, number),
            None => Ok(()),
        }
    }

    // Puts the line of an item of a list.
    #[tactic(auto, using(crate::proofs::AddedLemmas::has_room))]
    pub(crate) fn put_item(
        &mut self,
        alloc: Global,
        key: &Key,
        state: &Bytes,
        number: i64,
    ) -> Result<(), NoMemory>
        ensures text { OnOk result (self.new.text ≡ self.old.text ++ spelled (Item key.now state.now number)) }
        ensures count { OnOk result (self.new.count ≡ self.old.count + 1) }
    {
        put_item(alloc, &mut self.text, key, state, number)?;
        self.count = one_more(self.count, &self.text);
        Ok(())
    }

    // Puts the line of an entry of a map.
    #[tactic(auto, using(crate::proofs::AddedLemmas::has_room))]
    pub(crate) fn put_entry(
        &mut self,
        alloc: Global,
        key: &Key,
        state: &Bytes,
        entry: Pair,
    ) -> Result<(), NoMemory>
        ensures text { OnOk result (self.new.text ≡ self.old.text ++ spelled (Entry key.now state.now entry.at entry.number)) }
        ensures count { OnOk result (self.new.count ≡ self.old.count + 1) }
    {
        put_entry(alloc, &mut self.text, key, state, entry)?;
        self.count = one_more(self.count, &self.text);
        Ok(())
    }

    // Puts the line of a timer.
    #[tactic(auto, using(crate::proofs::AddedLemmas::has_room))]
    pub(crate) fn put_timer(&mut self, alloc: Global, key: &Key, time: i64) -> Result<(), NoMemory>
        ensures text { OnOk result (self.new.text ≡ self.old.text ++ spelled (Timer key.now time)) }
        ensures count { OnOk result (self.new.count ≡ self.old.count + 1) }
    {
        put_timer(alloc, &mut self.text, key, time)?;
        self.count = one_more(self.count, &self.text);
        Ok(())
    }

    // The whole block, with its end.
    pub(crate) fn end(self, alloc: Global, s: &Snapshot) -> Result<Bytes, NoMemory>
        ensures { IfOk result (λ text. text ≡ self.text ++ spelled (End s.now.id self.count)) }
    {
        let Block { mut text, count } = self;
        put_end(alloc, &mut text, s.id, count)?;
        Ok(text)
    }
}
