//! The layers of a store.
ghost use Rattle.std.specs.Prelude.{◌≡◌, ℕ, List, [], ◌∷◌, ◌+◌, ◌<◌, ◌≤◌, if◌then◌else◌, false, min, length, None, option_map, IfOk, OnOk, OnErr};
ghost use Rattle.std.specs.Vec.{vec_capacity};
ghost use Rattle.ax_store.specs.Held.{begins, runs_after_flush};
ghost use Rattle.ax_store.specs.Entries.{entry_at, or_below, seen};
ghost use Rattle.ax_store.specs.Layers.{content_of, layers_of, merged_first, newest_of};

use crate::change::{Change, Entry};
use crate::key::Sought;
use crate::memtable::Memtable;
use crate::run::Run;
use ax_base::NoMemory;
use std::alloc::Global;
use std::mem;

/// The memtable, and the runs from the newest on.
#[derive(Debug, Drop)]
pub(crate) struct Layers {
    pub(crate) memtable: Memtable,
    pub(crate) runs: Vec<Run>,
}

// Room for so many entries.
fn room_for(alloc: Global, entries: usize) -> Result<Vec<Entry>, NoMemory>
    ensures empty { IfOk result (λ v. v.items ≡ []) }
    ensures room { IfOk result (λ v. vec_capacity v ≡ entries) }
{
    match Vec::with_capacity(alloc, entries) {
        Ok(room) => Ok(room),
        Err(_) => Err(NoMemory),
    }
}

impl Layers {
    // The newest entry of a key.
    pub(crate) fn newest(&self, key: &[u8]) -> Option<&Change>
        ensures { option_map (λ c. c.now) result ≡ newest_of (layers_of self.now) key.now }
    {
        if let Some(change) = self.memtable.get(key) {
            return Some(change);
        }
        newest_in(&self.runs, &Sought::new(key))
    }

    // The newest entries of the keys that begin with a prefix.
    pub(crate) fn part(&self, alloc: Global, prefix: &[u8]) -> Result<Run, NoMemory>
        ensures { IfOk result (λ run. (q : List ℕ) → entry_at run q ≡ (if begins prefix.now q then newest_of (layers_of self.now) q else None)) }
    {
        let entries = self.memtable.part(alloc, prefix)?;
        merge_parts(alloc, Run::from_entries(entries), &self.runs, prefix, true)
    }

    // The newest entries of the keys that begin with a prefix, without their values.
    pub(crate) fn marks(&self, alloc: Global, prefix: &[u8]) -> Result<Run, NoMemory>
        requires { self.now.memtable ≡ [] }
        ensures { IfOk result (λ run. (q : List ℕ) → entry_at run q ≡ (if begins prefix.now q then option_map (seen false) (newest_of (layers_of self.now) q) else None)) }
    {
        merge_parts(alloc, Run::new(alloc), &self.runs, prefix, false)
    }

    // Puts a run above the others. After `NoMemory` nothing has changed.
    pub(crate) fn push(&mut self, run: Run) -> Result<(), NoMemory>
        ensures memtable { self.new.memtable ≡ self.old.memtable }
        ensures ok { OnOk result (self.new.runs.items ≡ run ∷ self.old.runs.items) }
        ensures err { OnErr result (self.new.runs.items ≡ self.old.runs.items) }
    {
        match self.runs.insert(0, run) {
            Ok(()) => Ok(()),
            Err(_) => Err(NoMemory),
        }
    }

    // Makes a run of the memtable. After `NoMemory` nothing has changed.
    fn push_memtable(&mut self, alloc: Global) -> Result<(), NoMemory>
        ensures emptied { OnOk result (self.new.memtable ≡ []) }
        ensures ok { OnOk result (self.new.runs.items ≡ self.old.memtable ∷ self.old.runs.items) }
        ensures memtable { OnErr result (self.new.memtable ≡ self.old.memtable) }
        ensures runs { OnErr result (self.new.runs.items ≡ self.old.runs.items) }
    {
        let room = room_for(alloc, self.memtable.len())?;
        let Ok(()) = self.runs.reserve(1) else {
            return Err(NoMemory);
        };
        let run = Run::from_memtable(&mut self.memtable, room);
        let _entered = self.runs.insert(0, run);
        Ok(())
    }

    // Makes the two newest runs one. After `NoMemory` nothing has changed.
    fn merge_newest(&mut self, alloc: Global) -> Result<(), NoMemory>
        requires { 2 ≤ length self.old.runs.items }
        ensures memtable { self.new.memtable ≡ self.old.memtable }
        ensures content { content_of (layers_of self.new) ≡ content_of (layers_of self.old) }
        ensures ok { OnOk result (length self.new.runs.items + 1 ≡ length self.old.runs.items) }
        ensures err { OnErr result (self.new.runs.items ≡ self.old.runs.items) }
    {
        merge_first(alloc, &mut self.runs)
    }

    // Makes the runs one, where there are any. No run is below that one, so deletes are left out of it,
    // which no public call shows.
    pub(crate) fn compact(&mut self, alloc: Global) -> Result<(), NoMemory>
        ensures memtable { self.new.memtable ≡ self.old.memtable }
        ensures content { content_of (layers_of self.new) ≡ content_of (layers_of self.old) }
        ensures runs { OnOk result (length self.new.runs.items ≡ min 1 (length self.old.runs.items)) }
        ensures few { length self.new.runs.items ≤ length self.old.runs.items }
    {
        while self.runs.len() > 1 {
            self.merge_newest(alloc)?;
        }
        drop_deletes(&mut self.runs);
        Ok(())
    }

    // Makes a run of the memtable, where it has entries; five runs become one. The two newest runs are merged before the fifth
    // comes, so that there are never more than four, and the oldest run, which is the largest, is moved once.
    pub(crate) fn flush(&mut self, alloc: Global) -> Result<(), NoMemory>
        requires { length self.old.runs.items ≤ 4 }
        ensures content { content_of (layers_of self.new) ≡ content_of (layers_of self.old) }
        ensures emptied { OnOk result (self.new.memtable ≡ []) }
        ensures runs { OnOk result (length self.new.runs.items ≡ runs_after_flush (length self.old.memtable) (length self.old.runs.items)) }
        ensures few { length self.new.runs.items ≤ 4 }
        ensures room { length self.new.memtable ≤ length self.old.memtable }
    {
        if self.memtable.len() == 0 {
            return Ok(());
        }
        if self.runs.len() < 4 {
            return self.push_memtable(alloc);
        }
        self.merge_newest(alloc)?;
        self.push_memtable(alloc)?;
        self.compact(alloc)
    }
}

// Drops the deletes of the only run, where there is one.
fn drop_deletes(runs: &mut Vec<Run>)
    requires { length runs.old.items ≤ 1 }
    ensures content { content_of runs.new.items ≡ content_of runs.old.items }
    ensures len { length runs.new.items ≡ length runs.old.items }
{
    if let Some(run) = runs.pop() {
        let _entered = runs.push(run.without_deletes());
    }
}

// The two newest of some runs become one. After `NoMemory` nothing has changed.
fn merge_first(alloc: Global, runs: &mut Vec<Run>) -> Result<(), NoMemory>
    requires { 2 ≤ length runs.old.items }
    ensures content { content_of runs.new.items ≡ content_of runs.old.items }
    ensures ok { OnOk result (runs.new.items ≡ merged_first runs.old.items) }
    ensures len { OnOk result (length runs.new.items + 1 ≡ length runs.old.items) }
    ensures err { OnErr result (runs.new.items ≡ runs.old.items) }
{
    let room = room_for(alloc, runs[0].len() + runs[1].len())?;
    let older = runs.remove(1);
    let newer = mem::replace(&mut runs[0], Run::new(alloc));
    runs[0] = Run::merge(newer, older, room);
    Ok(())
}

// The entries of the newest run and of the parts of the others, from the newest on; at a key of several, the newest one.
fn merge_parts(
    alloc: Global,
    newest: Run,
    runs: &[Run],
    prefix: &[u8],
    values: bool,
) -> Result<Run, NoMemory>
    ensures { IfOk result (λ run. (q : List ℕ) → entry_at run q ≡ or_below (entry_at newest q) (if begins prefix.now q then option_map (seen values) (newest_of runs.now q) else None)) }
{
    let mut found = newest;
    for run in runs {
        let older = run.part(alloc, prefix, values)?;
        let room = room_for(alloc, found.len() + older.len())?;
        found = Run::merge(found, older, room);
    }
    Ok(found)
}

// The newest entry of a key in runs.
fn newest_in<'a>(runs: &'a [Run], key: &Sought<'_>) -> Option<&'a Change>
    ensures { option_map (λ c. c.now) result ≡ newest_of runs.entry.now key.now }
{
    for run in runs {
        if let Some(change) = run.get(key) {
            return Some(change);
        }
    }
    None
}
