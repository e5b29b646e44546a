//! The store.
ghost use Rattle.std.specs.Prelude.{◌≡◌, ◌≤◌, ◌<◌, ◌+◌, ◌==◌, if◌then◌else◌, min, not, length, map as each, IfOk, OnOk, OnErr};
ghost use Rattle.std.specs.FinMap as map;
ghost use Rattle.ax_store.specs.Held.{before_entry, begins, pair_of, runs_after_delete, runs_after_flush, Entered};
ghost use Rattle.ax_store.specs.Layers.{changed, over};

use crate::cell::Cells;
use crate::change::Change;
use crate::layers::Layers;
use crate::memtable::Memtable;
use crate::run::Run;
use ax_base::{Bytes, NoMemory};
use std::alloc::Global;
use std::marker::Model;

/// A map from bytes to bytes, in layers: a memtable, in which entries are changed in place, and at
/// most four sorted runs, which are never changed. A delete is an entry too, for as long as an older
/// layer may have the key. Contracts see the map, how many entries the memtable has and may have,
/// and how many runs there are.
///
/// After `NoMemory` the map is as before, whatever was being done.
#[derive(Debug, Drop)]
pub struct RunStore {
    alloc: Global,
    most: u32,
    layers: Layers,
}

impl Model for RunStore {
    ghost use Rattle.std.specs.Prelude.{◌≤◌, length};
    ghost use Rattle.ax_store.specs.Held.{Held, held_code};

    ghost Value = { Held };

    ghost coded = { held_code };

    ghost use Rattle.ax_store.specs.Layers.{content_of, layers_of};

    ghost view = { λ s. record { content = content_of (layers_of s.layers); memtable = length s.layers.memtable; most = s.most; runs = length s.layers.runs.items } };

    ghost invariant = { λ s. (1 ≤ s.most) × (length s.layers.memtable ≤ s.most) × (length s.layers.runs.items ≤ 4) };
}

impl RunStore {
    /// The empty map, with a memtable of at most so many entries. Condition: at least one.
    pub fn with_memtable(alloc: Global, most: u32) -> Result<RunStore, NoMemory>
        requires { 1 ≤ most }
        ensures { IfOk result (λ store. store ≡ record { content = map.empty; memtable = 0; most = most; runs = 0 }) }
    {
        let Ok(runs) = Vec::with_capacity(alloc, 4) else {
            return Err(NoMemory);
        };
        let memtable = Memtable::new(alloc);
        Ok(RunStore {
            alloc,
            most,
            layers: Layers { memtable, runs },
        })
    }

    /// The value of a key, and `None` exactly where the map has none.
    pub fn get(&self, key: &[u8]) -> Result<Option<Bytes>, NoMemory>
        ensures { IfOk result (λ value. value ≡ map.get self.now.content key.now) }
    {
        match self.layers.newest(key) {
            Some(Change::Put(value)) => Ok(Some(Bytes::from_slice(self.alloc, value.as_slice())?)),
            Some(Change::Delete) => Ok(None),
            None => Ok(None),
        }
    }

    /// Sets the value of a key. A full memtable becomes a run first.
    pub fn put(&mut self, key: &[u8], value: &[u8]) -> Result<(), NoMemory>
        ensures ok { OnOk result (self.new.content ≡ map.insert self.old.content key.now value.now) }
        ensures layers { OnOk result (Entered self.old self.new) }
        ensures err { OnErr result (self.new.content ≡ self.old.content) }
        ensures most { self.new.most ≡ self.old.most }
    {
        let value = Bytes::from_slice(self.alloc, value)?;
        self.enter(key, Change::Put(value))
    }

    /// Takes a key out of the map. A full memtable becomes a run first, and then an entry goes in, whether the map has the key
    /// or not.
    pub fn delete(&mut self, key: &[u8]) -> Result<(), NoMemory>
        ensures ok { OnOk result (self.new.content ≡ map.remove self.old.content key.now) }
        ensures layers { OnOk result (Entered self.old self.new) }
        ensures err { OnErr result (self.new.content ≡ self.old.content) }
        ensures most { self.new.most ≡ self.old.most }
    {
        self.enter(key, Change::Delete)
    }

    // A new entry, behind a flush where the memtable is full.
    fn enter(&mut self, key: &[u8], change: Change) -> Result<(), NoMemory>
        ensures ok { OnOk result (self.new.content ≡ changed key.now change self.old.content) }
        ensures layers { OnOk result (Entered self.old self.new) }
        ensures err { OnErr result (self.new.content ≡ self.old.content) }
        ensures most { self.new.most ≡ self.old.most }
    {
        let Ok(key) = Vec::from_slice(self.alloc, key) else {
            return Err(NoMemory);
        };
        self.make_room()?;
        self.insert(key, change)
    }

    // A full memtable becomes a run.
    fn make_room(&mut self) -> Result<(), NoMemory>
        ensures content { self.new.content ≡ self.old.content }
        ensures memtable { OnOk result (self.new.memtable ≡ before_entry self.old) }
        ensures room { OnOk result (self.new.memtable < self.new.most) }
        ensures runs { OnOk result (self.new.runs ≡ (if self.old.memtable == self.old.most then runs_after_flush self.old.memtable self.old.runs else self.old.runs)) }
        ensures most { self.new.most ≡ self.old.most }
    {
        if self.memtable_len() < self.most {
            return Ok(());
        }
        self.flush()
    }

    // A new entry in the memtable. After `NoMemory` nothing has changed.
    fn insert(&mut self, key: Vec<u8>, change: Change) -> Result<(), NoMemory>
        requires { self.old.memtable < self.old.most }
        ensures ok { OnOk result (self.new.content ≡ changed key.items change self.old.content) }
        ensures some { OnOk result (1 ≤ self.new.memtable) }
        ensures least { self.old.memtable ≤ self.new.memtable }
        ensures most_more { self.new.memtable ≤ self.old.memtable + 1 }
        ensures runs { self.new.runs ≡ self.old.runs }
        ensures most { self.new.most ≡ self.old.most }
        ensures err { OnErr result (self.new ≡ self.old) }
    {
        self.layers.memtable.insert(key, change)
    }

    /// The entries of which the keys begin with a prefix, by rising keys.
    pub fn scan_prefix(&self, prefix: &[u8]) -> Result<Cells, NoMemory>
        ensures { IfOk result (λ cells. each pair_of cells ≡ map.entries (map.retain_keys self.now.content (begins prefix.now))) }
    {
        let run = self.layers.part(self.alloc, prefix)?;
        run.into_cells(self.alloc)
    }

    /// Takes every key that begins with a prefix out of the map: makes a run of the memtable, where it has entries, makes four
    /// runs one, and then adds one run of deletes for the keys that it found, or none where it found none.
    pub fn delete_prefix(&mut self, prefix: &[u8]) -> Result<(), NoMemory>
        ensures ok { OnOk result (self.new.content ≡ map.retain_keys self.old.content (λ key. not (begins prefix.now key))) }
        ensures emptied { OnOk result (self.new.memtable ≡ 0) }
        ensures runs { OnOk result (self.new.runs ≡ runs_after_delete (map.retain_keys self.old.content (begins prefix.now)) (runs_after_flush self.old.memtable self.old.runs)) }
        ensures err { OnErr result (self.new.content ≡ self.old.content) }
        ensures most { self.new.most ≡ self.old.most }
    {
        self.flush()?;
        self.leave_place()?;
        let found = self.layers.marks(self.alloc, prefix)?;
        let deletes = found.into_deletes(self.alloc)?;
        self.push_run(deletes)
    }

    // Four runs become one.
    fn leave_place(&mut self) -> Result<(), NoMemory>
        ensures content { self.new.content ≡ self.old.content }
        ensures memtable { self.new.memtable ≡ self.old.memtable }
        ensures few { OnOk result (self.new.runs < 4) }
        ensures runs { OnOk result (self.new.runs ≡ (if self.old.runs == 4 then 1 else self.old.runs)) }
        ensures most { self.new.most ≡ self.old.most }
    {
        if self.runs() < 4 {
            return Ok(());
        }
        self.compact()
    }

    // Puts a run above the others, where it has entries.
    fn push_run(&mut self, run: Run) -> Result<(), NoMemory>
        requires few { self.old.runs < 4 }
        requires empty { self.old.memtable ≡ 0 }
        ensures ok { OnOk result (self.new.content ≡ over run self.old.content) }
        ensures err { OnErr result (self.new.content ≡ self.old.content) }
        ensures runs { OnOk result (self.new.runs ≡ self.old.runs + (if length run == 0 then 0 else 1)) }
        ensures memtable { self.new.memtable ≡ self.old.memtable }
        ensures most { self.new.most ≡ self.old.most }
    {
        if run.len() == 0 {
            return Ok(());
        }
        self.layers.push(run)
    }

    /// Makes a run of the memtable, where it has entries; where that makes five runs they become one.
    pub fn flush(&mut self) -> Result<(), NoMemory>
        ensures content { self.new.content ≡ self.old.content }
        ensures emptied { OnOk result (self.new.memtable ≡ 0) }
        ensures runs { OnOk result (self.new.runs ≡ runs_after_flush self.old.memtable self.old.runs) }
        ensures most { self.new.most ≡ self.old.most }
    {
        self.layers.flush(self.alloc)
    }

    /// Makes the runs one, where there are any.
    pub fn compact(&mut self) -> Result<(), NoMemory>
        ensures content { self.new.content ≡ self.old.content }
        ensures memtable { self.new.memtable ≡ self.old.memtable }
        ensures runs { OnOk result (self.new.runs ≡ min 1 self.old.runs) }
        ensures few { self.new.runs ≤ self.old.runs }
        ensures most { self.new.most ≡ self.old.most }
    {
        self.layers.compact(self.alloc)
    }

    /// How many entries the memtable has, deletes among them.
    pub fn memtable_len(&self) -> u32
        ensures value { result ≡ self.now.memtable }
        ensures bound { result ≤ self.now.most }
        ensures some { 1 ≤ self.now.most }
    {
        self.layers.memtable.len().min(self.most as usize) as u32
    }

    /// How many runs there are.
    pub fn runs(&self) -> u32
        ensures value { result ≡ self.now.runs }
        ensures bound { result ≤ 4 }
    {
        self.layers.runs.len() as u32
    }
}
