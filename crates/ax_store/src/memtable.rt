//! The newest layer, in which entries are changed in place.
ghost use Rattle.std.specs.Prelude.{◌≡◌, [], ◌∷◌, ◌<◌, ◌≤◌, ◌^◌, ◌+◌, if◌then◌else◌, Some, length, option_map, IfOk, OnOk, OnErr, MatchOption, false};
ghost use Rattle.std.specs.BTreeMap.{is_at};
ghost use Rattle.std.specs.List.{All};
ghost use Rattle.ax_store.specs.Held.{Text, bytes_cmp};
ghost use Rattle.ax_store.specs.Entries.{entry_at, IsRising, is_before, part, texts};

use crate::change::{Change, Entry};
use crate::key::Key;
use ax_base::{Bytes, NoMemory};
use std::alloc::Global;
use std::collections::BTreeMap;
use std::collections::btree_map::Range;
use std::marker::Model;

/// The newest entries, by their keys.
#[derive(Debug, Drop)]
pub(crate) struct Memtable {
    entries: BTreeMap<Vec<u8>, Change>,
}

impl Model for Memtable {
    ghost use Rattle.ax_store.specs.Entries.{Layer, texts};

    ghost Value = { Layer };

    ghost view = { λ m. texts m.entries.entries };
}

impl Memtable {
    pub(crate) fn new(alloc: Global) -> Memtable
        ensures { result ≡ [] }
    {
        Memtable {
            entries: BTreeMap::new(alloc),
        }
    }

    pub(crate) fn len(&self) -> usize
        ensures len { result ≡ length self.now }
        ensures small { result < 2 ^ 63 }
        ensures rising { IsRising self.now }
    {
        self.entries.len()
    }

    // What the memtable says of a key.
    pub(crate) fn get(&self, key: &[u8]) -> Option<&Change>
        ensures { option_map (λ c. c.now) result ≡ entry_at self.now key.now }
    {
        self.entries.get(key)
    }

    // Puts an entry in, in place of one of the same key. After `NoMemory` the memtable is as before.
    pub(crate) fn insert(&mut self, key: Vec<u8>, change: Change) -> Result<(), NoMemory>
        ensures ok { OnOk result ((q : Text) → entry_at self.new q ≡ (if is_at (bytes_cmp q) key.items then Some change else entry_at self.old q)) }
        ensures some { OnOk result (1 ≤ length self.new) }
        ensures least { length self.old ≤ length self.new }
        ensures most { length self.new ≤ length self.old + 1 }
        ensures err { OnErr result (self.new ≡ self.old) }
    {
        match self.entries.insert(key, change) {
            Ok(_) => Ok(()),
            Err(_) => Err(NoMemory),
        }
    }

    // Takes the entry with the least key off. `None` exactly where there is none.
    pub(crate) fn pop_first(&mut self) -> Option<Entry>
        ensures entry { MatchOption result (self.old ≡ []) (λ e. self.old ≡ e ∷ self.new) }
        ensures rest { MatchOption result (self.new ≡ []) (λ e. length self.new + 1 ≡ length self.old) }
    {
        let (key, change) = self.entries.pop_first()?;
        Some((Key::new(Bytes::from_vec(key)), change))
    }

    // Copies of the entries of which the keys begin with a prefix. No other entry is looked at, but for the one behind them.
    pub(crate) fn part(&self, alloc: Global, prefix: &[u8]) -> Result<Vec<Entry>, NoMemory>
        ensures part { IfOk result (λ v. v.items ≡ part prefix.now self.now) }
        ensures rising { IfOk result (λ v. IsRising v.items) }
    {
        let Ok(from) = Vec::from_slice(alloc, prefix) else {
            return Err(NoMemory);
        };
        let mut rest = self.entries.range(&from..);
        copy_first(alloc, &mut rest, prefix)
    }
}

// Copies of the first entries, as long as their keys begin with a prefix.
fn copy_first(
    alloc: Global,
    rest: &mut Range<'_, Vec<u8>, Change>,
    prefix: &[u8],
) -> Result<Vec<Entry>, NoMemory>
    requires rising { IsRising (texts rest.old) }
    requires from { All (λ e. is_before prefix.now e ≡ false) (texts rest.old) }
    ensures { IfOk result (λ v. v.items ≡ part prefix.now (texts rest.old)) }
{
    let mut found = Vec::new(alloc);
    while let Some((key, change)) = rest.next() {
        if !key.as_slice().starts_with(prefix) {
            return Ok(found);
        }
        let key = Key::new(Bytes::from_slice(alloc, key.as_slice())?);
        let change = change.seen(alloc, true)?;
        let Ok(()) = found.push((key, change)) else {
            return Err(NoMemory);
        };
    }
    Ok(found)
}
