//! A sorted layer that is never changed.
ghost use Rattle.std.specs.Prelude.{◌≡◌, ℕ, List, [], ◌∷◌, ◌++◌, ◌+◌, ◌<◌, ◌≤◌, ◌^◌, false, true, if◌then◌else◌, length, map as each, None, option_map, IfOk};
ghost use Rattle.std.specs.Vec.{vec_len, vec_capacity};
ghost use Rattle.std.specs.List.{All, filter};
ghost use Rattle.std.specs.List.Sorted.{IsPartitionPoint};
ghost use Rattle.ax_store.specs.Held.{begins, bytes_cmp, pair_of};
ghost use Rattle.ax_store.specs.Entries.{deletes, entry_at, IsRising, is_before, is_put, live, merged, or_below, part, seen, seen_all};

use crate::cell::{Cell, Cells};
use crate::change::{Change, Entry};
use crate::key::{Key, Sought};
use crate::memtable::Memtable;
use crate::merge::merge_into;
use ax_base::{Bytes, Duplicate, ListOf, NoMemory};
use std::alloc::Global;
use std::cmp::Ordering;
use std::marker::Model;

/// Entries of which the keys strictly rise.
#[derive(Debug, Drop)]
pub(crate) struct Run {
    entries: Vec<Entry>,
}

impl Model for Run {
    ghost use Rattle.ax_store.specs.Entries.{Layer, IsRising};

    ghost Value = { Layer };

    ghost view = { λ r. r.entries.items };

    ghost invariant = { λ r. IsRising r.entries.items };
}

impl Run {
    // No entry.
    pub(crate) fn new(alloc: Global) -> Run
        ensures { result ≡ [] }
    {
        Run {
            entries: Vec::new(alloc),
        }
    }

    // These entries.
    pub(crate) fn from_entries(entries: Vec<Entry>) -> Run
        requires { IsRising entries.items }
        ensures { result ≡ entries.items }
    {
        Run { entries }
    }

    pub(crate) fn len(&self) -> usize
        ensures len { result ≡ length self.now }
        ensures small { result < 2 ^ 63 }
        ensures rising { IsRising self.now }
    {
        self.entries.len()
    }

    // What the run says of a key.
    pub(crate) fn get(&self, key: &Sought<'_>) -> Option<&Change>
        ensures { option_map (λ c. c.now) result ≡ entry_at self.now key.now }
    {
        entry_in(&self.entries, key)
    }

    // The entries of a memtable, moved into a list with room for them.
    pub(crate) fn from_memtable(memtable: &mut Memtable, room: Vec<Entry>) -> Run
        requires empty { room.items ≡ [] }
        requires fits { length memtable.old ≤ vec_capacity room }
        requires rising { IsRising memtable.old }
        ensures moved { result ≡ memtable.old }
        ensures empty { memtable.new ≡ [] }
    {
        let mut entries = room;
        drain_into(memtable, &mut entries);
        Run { entries }
    }

    // The entries of two runs, moved into a list with room for them; at a key of both, the newer one.
    pub(crate) fn merge(newer: Run, older: Run, room: Vec<Entry>) -> Run
        requires empty { room.items ≡ [] }
        requires fits { length newer + length older ≤ vec_capacity room }
        ensures merged { result ≡ merged newer older }
        ensures entries { (q : List ℕ) → entry_at result q ≡ or_below (entry_at newer q) (entry_at older q) }
    {
        let mut entries = room;
        merge_into(newer.entries, older.entries, &mut entries);
        Run { entries }
    }

    // Copies of the entries of which the keys begin with a prefix. No other entry is looked at, but for those of the search
    // for the first one, and the one behind the last.
    pub(crate) fn part(&self, alloc: Global, prefix: &[u8], values: bool) -> Result<Run, NoMemory>
        ensures { IfOk result (λ run. (q : List ℕ) → entry_at run q ≡ (if begins prefix.now q then option_map (seen values) (entry_at self.now q) else None)) }
    {
        let entries = part_of(alloc, &self.entries, prefix, values)?;
        Ok(Run { entries })
    }

    // The run without its deletes.
    pub(crate) fn without_deletes(self) -> Run
        ensures value { result ≡ filter is_put self }
        ensures rising { IsRising self }
    {
        let mut entries = self.entries;
        entries.retain(
            |entry: &Entry| -> bool
                ensures { result ≡ is_put entry.now }
            { matches!(entry.1, Change::Put(_)) },
        );
        Run { entries }
    }

    // A delete of the key of each value.
    pub(crate) fn into_deletes(self, alloc: Global) -> Result<Run, NoMemory>
        ensures deletes { IfOk result (λ run. run ≡ deletes (live self)) }
        ensures rising { IsRising self }
    {
        let entries = deletes_of(alloc, self.entries)?;
        Ok(Run { entries })
    }

    // The values, by their keys.
    pub(crate) fn into_cells(self, alloc: Global) -> Result<Cells, NoMemory>
        ensures cells { IfOk result (λ cells. each pair_of cells ≡ live self) }
        ensures rising { IsRising self }
    {
        cells_of(alloc, self.entries)
    }
}

// The entry of a key in a sorted list.
fn entry_in<'a>(entries: &'a [Entry], key: &Sought<'_>) -> Option<&'a Change>
    requires { IsRising entries.now }
    ensures { option_map (λ c. c.now) result ≡ entry_at entries.entry.now key.now }
{
    let found = entries.binary_search_by(
        |entry: &Entry| -> Ordering
            ensures { result ≡ bytes_cmp entry.now.0 key.entry.now }
        { entry.0.order(key) },
    );
    match found {
        Ok(at) => Some(&entries[at].1),
        Err(_) => None,
    }
}

// The entries of a memtable go behind those of a list that has room for them.
fn drain_into(memtable: &mut Memtable, entries: &mut Vec<Entry>)
    requires { vec_len entries.old + length memtable.old ≤ vec_capacity entries.old }
    ensures moved { entries.new.items ≡ entries.old.items ++ memtable.old }
    ensures empty { memtable.new ≡ [] }
{
    while let Some(entry) = memtable.pop_first() {
        let _entered = entries.push(entry);
    }
}

// The place of the first key that is not below the prefix.
fn start_of(entries: &[Entry], prefix: &[u8]) -> usize
    requires { IsRising entries.now }
    ensures bound { result ≤ length entries.now }
    ensures point { IsPartitionPoint (λ e. is_before prefix.now e ≡ true) (λ e. is_before prefix.now e ≡ false) entries.now result }
{
    let prefix = Sought::new(prefix);
    entries.partition_point(
        |entry: &Entry| -> bool
            ensures { result ≡ is_before prefix.entry entry.now }
        { entry.0.order(&prefix).is_lt() },
    )
}

// Copies of the entries of which the keys begin with a prefix.
fn part_of(
    alloc: Global,
    entries: &[Entry],
    prefix: &[u8],
    values: bool,
) -> Result<Vec<Entry>, NoMemory>
    requires { IsRising entries.now }
    ensures { IfOk result (λ v. v.items ≡ seen_all values (part prefix.now entries.now)) }
{
    let start = start_of(entries, prefix);
    copy_first(alloc, &entries[start..], prefix, values)
}

// Copies of the first entries, as long as their keys begin with a prefix.
fn copy_first(
    alloc: Global,
    rest: &[Entry],
    prefix: &[u8],
    values: bool,
) -> Result<Vec<Entry>, NoMemory>
    requires rising { IsRising rest.now }
    requires from { All (λ e. is_before prefix.now e ≡ false) rest.now }
    ensures { IfOk result (λ v. v.items ≡ seen_all values (part prefix.now rest.now)) }
{
    let mut found = Vec::new(alloc);
    for entry in rest {
        if !entry.0.starts_with(prefix) {
            return Ok(found);
        }
        let copy = (entry.0.copy(alloc)?, entry.1.seen(alloc, values)?);
        let Ok(()) = found.push(copy) else {
            return Err(NoMemory);
        };
    }
    Ok(found)
}

fn cell(key: Key, value: Bytes) -> Cell
    ensures { pair_of result ≡ (key, value) }
{
    let key = key.into_bytes();
    Cell { key, value }
}

// The values of entries, by their keys.
fn cells_of(alloc: Global, entries: Vec<Entry>) -> Result<Cells, NoMemory>
    ensures { IfOk result (λ cells. each pair_of cells ≡ live entries.items) }
{
    let mut cells = ListOf::new(alloc);
    let mut rest = entries.into_iter();
    while let Some((key, change)) = rest.next() {
        match change {
            Change::Put(value) => cells.push(cell(key, value))?,
            Change::Delete => {}
        }
    }
    Ok(cells)
}

// A delete of the key of each value.
fn deletes_of(alloc: Global, entries: Vec<Entry>) -> Result<Vec<Entry>, NoMemory>
    ensures { IfOk result (λ v. v.items ≡ deletes (live entries.items)) }
{
    let mut found = Vec::new(alloc);
    let mut rest = entries.into_iter();
    while let Some((key, change)) = rest.next() {
        if let Change::Put(_) = change {
            let Ok(()) = found.push((key, Change::Delete)) else {
                return Err(NoMemory);
            };
        }
    }
    Ok(found)
}
