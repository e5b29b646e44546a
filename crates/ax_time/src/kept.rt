// The timers of all keys, by key and by time.
ghost use Rattle.std.specs.Prelude.{◌≡◌, ℕ, ℤ, List, ◌++◌, true, false, None, IsSome, OnOk, OnErr, IfOk, IfSome, FitsSigned};
ghost use Rattle.std.specs.Int.{w64};
ghost use Rattle.std.specs.BTreeMap.{get};
ghost use Rattle.std.specs.List.Sorted.{IsStrictlySortedBy};
ghost use Rattle.std.specs.Ordering.{int_cmp};
ghost use Rattle.ax_text.specs.Times.{insert_time, remove_time, least_time, later_times};
ghost use Rattle.ax_keys.specs.Keys.{key_cmp};
ghost use Rattle.ax_time.specs.Timers.{PutsTimes, times_of};
ghost use Rattle.ax_time.specs.Held.{Agree, shown_timers};

use crate::held::{ByTime, Held, cut, cut_first, put};
use ax_base::{Duplicate, NoMemory};
use ax_keys::Key;
use std::alloc::Global;
use std::collections::{BTreeMap, BTreeSet};

/// The number and the times of each key that ever had a timer, the key of each number, and all timers by time.
#[derive(Debug, Drop)]
pub struct Kept {
    pub by_key: BTreeMap<Key, Held>,
    pub named: Vec<Key>,
    pub by_time: ByTime,
}

impl Kept {
    // Sets a timer.
    pub fn set(&mut self, alloc: Global, key: &Key, time: &i64) -> Result<(), NoMemory>
        requires { Agree self.old }
        ensures kept { Agree self.new }
        ensures ok { OnOk result (PutsTimes (shown_timers self.old) (shown_timers self.new) key.now (insert_time time.now (times_of (shown_timers self.old) key.now))) }
        ensures err { OnErr result (shown_timers self.new ≡ shown_timers self.old) }
    {
        if self.set_held(key, time)? {
            return Ok(());
        }
        self.hold(alloc, key)?;
        self.set_held(key, time)?;
        Ok(())
    }

    // Sets a timer of a key that ever had one. The answer is false exactly where it never had one; then nothing has happened.
    fn set_held(&mut self, key: &Key, time: &i64) -> Result<bool, NoMemory>
        requires { Agree self.old }
        ensures kept { Agree self.new }
        ensures absent { IfOk result (λ held. held ≡ false → get key_cmp self.new.by_key key.now ≡ None) }
        ensures same { IfOk result (λ held. held ≡ false → shown_timers self.new ≡ shown_timers self.old) }
        ensures present { IfOk result (λ held. IsSome (get key_cmp self.old.by_key key.now) → held ≡ true) }
        ensures set { IfOk result (λ held. held ≡ true → PutsTimes (shown_timers self.old) (shown_timers self.new) key.now (insert_time time.now (times_of (shown_timers self.old) key.now))) }
        ensures err { OnErr result (shown_timers self.new ≡ shown_timers self.old) }
    {
        let Some(held) = self.by_key.get_mut(key) else {
            return Ok(false);
        };
        put(&mut self.by_time, held, time)?;
        Ok(true)
    }

    // Gives a key that never had a timer a number.
    fn hold(&mut self, alloc: Global, key: &Key) -> Result<(), NoMemory>
        requires kept { Agree self.old }
        requires absent { get key_cmp self.old.by_key key.now ≡ None }
        ensures kept { Agree self.new }
        ensures same { shown_timers self.new ≡ shown_timers self.old }
        ensures held { OnOk result (IsSome (get key_cmp self.new.by_key key.now)) }
    {
        let number = self.named.len();
        let name = key.copy(alloc)?;
        let key = key.copy(alloc)?;
        let Ok(()) = self.named.try_reserve(1) else {
            return Err(NoMemory);
        };
        let times = BTreeSet::new(alloc);
        let Ok(_) = self.by_key.insert(key, Held { number, times }) else {
            return Err(NoMemory);
        };
        match self.named.push(name) {
            Ok(()) => Ok(()),
            Err(_) => Err(NoMemory),
        }
    }

    // Takes a timer off.
    pub fn unset(&mut self, key: &Key, time: &i64)
        requires { Agree self.old }
        ensures kept { Agree self.new }
        ensures times { PutsTimes (shown_timers self.old) (shown_timers self.new) key.now (remove_time time.now (times_of (shown_timers self.old) key.now)) }
    {
        if let Some(held) = self.by_key.get_mut(key) {
            cut(&mut self.by_time, held, time);
        }
    }

    // Takes the first timer of a key off.
    pub fn take_least(&mut self, key: &Key) -> Option<i64>
        requires { Agree self.old }
        ensures kept { Agree self.new }
        ensures least { result ≡ least_time (times_of (shown_timers self.old) key.now) }
        ensures times { PutsTimes (shown_timers self.old) (shown_timers self.new) key.now (later_times (times_of (shown_timers self.old) key.now)) }
    {
        let Some(held) = self.by_key.get_mut(key) else {
            return None;
        };
        cut_first(&mut self.by_time, held)
    }

    // The least time of a key's timers.
    pub fn least_of(&self, key: &Key) -> Option<i64>
        requires { Agree self.now }
        ensures least { result ≡ least_time (times_of (shown_timers self.now) key.now) }
        ensures rising { IsStrictlySortedBy int_cmp (times_of (shown_timers self.now) key.now) }
    {
        match self.by_key.get(key) {
            Some(held) => first_time(&held.times),
            None => None,
        }
    }
}

// The least of some times.
fn first_time(times: &BTreeSet<i64>) -> Option<i64>
    ensures least { result ≡ least_time times.now.keys }
    ensures fits { IfSome result (λ t. FitsSigned w64 t) }
{
    match times.first() {
        Some(time) => Some(*time),
        None => None,
    }
}
