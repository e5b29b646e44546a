//! The timers of all keys.
ghost use Rattle.std.specs.Prelude.{◌≡◌, ℕ, ℤ, List, [], ◌++◌, OnOk, OnErr, IfOk, ◌↔◌};
ghost use Rattle.std.specs.List.{Contains};
ghost use Rattle.std.specs.List.Sorted.{IsStrictlySortedBy};
ghost use Rattle.std.specs.Ordering.{int_cmp};
ghost use Rattle.ax_text.specs.Times.{insert_time, remove_time, least_time, later_times, HasDue};
ghost use Rattle.ax_keys.specs.Keys.{key_cmp};
ghost use Rattle.ax_time.specs.Timers.{PutsTimes, listed_cmp, times_of};
ghost use Rattle.ax_time.specs.Held.{listed, timers_at};

use crate::due::{due_set, list_keys};
use crate::held::Held;
use crate::kept::Kept;
use crate::timer::{Timer, TimerList};
use ax_base::{Duplicate, NoMemory, Nums};
use ax_keys::{Key, Keys};
use std::alloc::Global;
use std::collections::{BTreeMap, BTreeSet};
use std::marker::Model;

/// The timers of all keys, which contracts see as a list by key and then time. A key has a timer at a time once or not at all.
///
/// No call walks over all keys to answer for one: `set`, `unset`, `least_of` and `take_least` take logarithmic time, `times_of`
/// and `due_keys` time by what they name, and `all` time by the keys that ever had a timer. A key that had one keeps its room.
#[derive(Debug, Drop)]
pub struct Timers {
    alloc: Global,
    kept: Kept,
}

impl Model for Timers {
    ghost use Rattle.std.specs.Prelude.{List};
    ghost use Rattle.ax_time.specs.declared.timer.Timer.{Timer};

    ghost Value = { List Timer };

    ghost use Rattle.ax_time.specs.Held.{Agree, shown_timers};

    ghost view = { λ t. shown_timers t.kept };

    ghost invariant = { λ t. Agree t.kept };
}

impl Timers {
    /// No timer.
    pub fn new(alloc: Global) -> Timers
        ensures { result ≡ [] }
    {
        Timers {
            alloc,
            kept: Kept {
                by_key: BTreeMap::new(alloc),
                named: Vec::new(alloc),
                by_time: BTreeSet::new(alloc),
            },
        }
    }

    /// Sets a timer. One that is set already stays as it is. After `NoMemory` nothing has changed.
    pub fn set(&mut self, key: &Key, time: i64) -> Result<(), NoMemory>
        ensures ok { OnOk result (PutsTimes self.old self.new key.now (insert_time time (times_of self.old key.now))) }
        ensures err { OnErr result (self.new ≡ self.old) }
    {
        self.set_at(key, &time)
    }

    // The same, of a time behind a reference.
    fn set_at(&mut self, key: &Key, time: &i64) -> Result<(), NoMemory>
        ensures ok { OnOk result (PutsTimes self.old self.new key.now (insert_time time.now (times_of self.old key.now))) }
        ensures err { OnErr result (self.new ≡ self.old) }
    {
        self.kept.set(self.alloc, key, time)
    }

    /// Takes a timer off. One that isn't set changes nothing.
    pub fn unset(&mut self, key: &Key, time: i64)
        ensures { PutsTimes self.old self.new key.now (remove_time time (times_of self.old key.now)) }
    {
        self.unset_at(key, &time);
    }

    // The same, of a time behind a reference.
    fn unset_at(&mut self, key: &Key, time: &i64)
        ensures { PutsTimes self.old self.new key.now (remove_time time.now (times_of self.old key.now)) }
    {
        self.kept.unset(key, time);
    }

    /// The least time of a key's timers, and `None` exactly where it has none.
    pub fn least_of(&self, key: &Key) -> Option<i64>
        ensures least { result ≡ least_time (times_of self.now key.now) }
        ensures rising { IsStrictlySortedBy int_cmp (times_of self.now key.now) }
    {
        self.kept.least_of(key)
    }

    /// Takes off the timer of a key that has the least time, and gives that time. `None` exactly where the key has none.
    pub fn take_least(&mut self, key: &Key) -> Option<i64>
        ensures least { result ≡ least_time (times_of self.old key.now) }
        ensures times { PutsTimes self.old self.new key.now (later_times (times_of self.old key.now)) }
    {
        self.kept.take_least(key)
    }

    /// The times of a key's timers, rising. `NoMemory` is its only fault, and the timers stand as before.
    pub fn times_of(&self, alloc: Global, key: &Key) -> Result<Nums, NoMemory>
        ensures times { IfOk result (λ times. times ≡ times_of self.now key.now) }
        ensures rising { IfOk result (λ times. IsStrictlySortedBy int_cmp times) }
    {
        match self.kept.by_key.get(key) {
            Some(held) => list_times(alloc, &held.times),
            None => Ok(Nums::new(alloc)),
        }
    }

    /// All timers, by key and then by time. `NoMemory` is its only fault, and the timers stand as before.
    pub fn all(&self, alloc: Global) -> Result<TimerList, NoMemory>
        ensures timers { IfOk result (λ timers. timers ≡ self.now) }
        ensures rising { IfOk result (λ timers. IsStrictlySortedBy listed_cmp timers) }
    {
        list_all(alloc, &self.kept.by_key)
    }

    /// The keys with a timer at or below a watermark, rising by their bytes, each once. Takes time by the timers that are due.
    /// `NoMemory` is its only fault, and the timers stand as before.
    pub fn due_keys(&self, alloc: Global, w: i64) -> Result<Keys, NoMemory>
        ensures due { IfOk result (λ keys. (q : List ℕ) → Contains keys q ↔ HasDue w (times_of self.now q)) }
        ensures rising { IfOk result (λ keys. IsStrictlySortedBy key_cmp keys) }
    {
        let due = due_set(alloc, &self.kept.by_time, self.kept.named.as_slice(), &w)?;
        list_keys(alloc, due)
    }
}

// A list of times.
fn list_times(alloc: Global, times: &BTreeSet<i64>) -> Result<Nums, NoMemory>
    ensures { IfOk result (λ list. list ≡ times.now.keys) }
{
    let mut list = Nums::new(alloc);
    copy_times(&mut list, times)?;
    Ok(list)
}

// Puts times at the end of a list.
fn copy_times(list: &mut Nums, times: &BTreeSet<i64>) -> Result<(), NoMemory>
    ensures { OnOk result (list.new ≡ list.old ++ times.now.keys) }
{
    for time in times {
        list.push(*time)?;
    }
    Ok(())
}

// A list of all timers.
fn list_all(alloc: Global, by_key: &BTreeMap<Key, Held>) -> Result<TimerList, NoMemory>
    ensures { IfOk result (λ timers. timers ≡ listed by_key.now.entries) }
{
    let mut timers = TimerList::new(alloc);
    for (key, held) in by_key {
        list_timers(alloc, &mut timers, key, &held.times)?;
    }
    Ok(timers)
}

// Puts the timers of one key at the end of a list.
fn list_timers(
    alloc: Global,
    list: &mut TimerList,
    key: &Key,
    times: &BTreeSet<i64>,
) -> Result<(), NoMemory>
    ensures { OnOk result (list.new ≡ list.old ++ timers_at key.now times.now.keys) }
{
    for time in times {
        let key = key.copy(alloc)?;
        list.push(Timer { key, time: *time })?;
    }
    Ok(())
}
