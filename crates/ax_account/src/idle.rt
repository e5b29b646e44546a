//! A list of distinct keys that a key can leave from anywhere.
ghost use Rattle.std.specs.Prelude.{◌≡◌, ◌+◌, ◌^◌, ◌<◌, [], ◌∷◌, ◌++◌, ℕ, None, false, if◌then◌else◌, IfOk, OnOk, OnErr};
ghost use Rattle.std.specs.Option.{option_copied};
ghost use Rattle.std.specs.Ordering.{nat_cmp};
ghost use Rattle.std.specs.Map.{lookup, remove_entry};
ghost use Rattle.std.specs.BTreeMap.{is_at};
ghost use Rattle.ax_account.specs.Queues.{has_key, without, first_of};

use ax_base::{Duplicate, NoMemory};
use ax_keys::Key;
use std::alloc::Global;
use std::collections::BTreeMap;
use std::marker::Model;

/// A list of distinct keys. A key goes last and may leave from anywhere; both take time logarithmic
/// in the length, and leaving takes no memory. Each key has a number, greater than those before it.
#[derive(Drop)]
pub struct KeyQueue {
    alloc: Global,
    keys: BTreeMap<u64, Key>,
    numbers: BTreeMap<Key, u64>,
    next: u64,
}

impl Model for KeyQueue {
    ghost use Rattle.std.specs.Map.{values_of};
    ghost use Rattle.ax_account.specs.Queues.{Queue, AreLinked};

    ghost Value = { Queue };

    ghost view = { λ q. record { keys = values_of q.keys.entries; next = q.next } };

    ghost invariant = { λ q. AreLinked q.keys.entries q.numbers.entries q.next };
}

// Takes a number out with its key, where it is there.
fn forget(keys: &mut BTreeMap<u64, Key>, number: u64)
    ensures entries { keys.new.entries ≡ remove_entry (is_at (nat_cmp number)) keys.old.entries }
    ensures at { (n : ℕ) → lookup (is_at (nat_cmp n)) keys.new.entries ≡ (if is_at (nat_cmp number) n then None else lookup (is_at (nat_cmp n)) keys.old.entries) }
{
    keys.remove(&number);
}

impl KeyQueue {
    // The empty list. It takes no memory before the first key comes.
    pub(crate) fn new(alloc: Global) -> KeyQueue
        ensures keys { result.keys ≡ [] }
        ensures next { result.next ≡ 0 }
    {
        KeyQueue {
            alloc,
            keys: BTreeMap::new(alloc),
            numbers: BTreeMap::new(alloc),
            next: 0,
        }
    }

    // The first key, and `None` exactly where there is none.
    pub(crate) fn first(&self) -> Option<&Key>
        ensures { option_copied result ≡ first_of self.now.keys }
    {
        match self.keys.first_key_value() {
            Some((_, key)) => Some(key),
            None => None,
        }
    }

    // Puts a key last under the next number. After `NoMemory` the list is as before.
    fn put(&mut self, key: &Key) -> Result<(), NoMemory>
        requires next { self.old.next + 1 < 2 ^ 64 }
        requires absent { has_key self.old.keys key.now ≡ false }
        ensures ok { OnOk result (self.new.keys ≡ self.old.keys ++ key.now ∷ []) }
        ensures next { OnOk result (self.new.next ≡ self.old.next + 1) }
        ensures err { OnErr result (self.new ≡ self.old) }
    {
        let named = key.copy(self.alloc)?;
        let listed = key.copy(self.alloc)?;
        let Ok(_) = self.numbers.insert(named, self.next) else {
            return Err(NoMemory);
        };
        let Ok(_) = self.keys.insert(self.next, listed) else {
            self.numbers.remove(key);
            return Err(NoMemory);
        };
        self.next += 1;
        Ok(())
    }

    // Takes a key out, where it is there.
    pub(crate) fn remove(&mut self, key: &Key)
        ensures keys { self.new.keys ≡ without key.now self.old.keys }
        ensures next { self.new.next ≡ self.old.next }
    {
        if let Some(number) = self.numbers.remove(key) {
            forget(&mut self.keys, number);
        }
    }

    // The same list with numbers from 0 on.
    fn numbered_anew(&self) -> Result<KeyQueue, NoMemory>
        ensures keys { IfOk result (λ fresh. fresh.keys ≡ self.now.keys) }
        ensures next { IfOk result (λ fresh. fresh.next < 2 ^ 63) }
    {
        let mut fresh = KeyQueue::new(self.alloc);
        for key in self.keys.values() {
            fresh.put(key)?;
        }
        Ok(fresh)
    }

    // Puts a key last. After `NoMemory` the list is as before. Once in 2^64 calls the numbers have
    // come to their end, and all keys are numbered anew.
    pub(crate) fn push(&mut self, key: &Key) -> Result<(), NoMemory>
        requires { has_key self.old.keys key.now ≡ false }
        ensures ok { OnOk result (self.new.keys ≡ self.old.keys ++ key.now ∷ []) }
        ensures err { OnErr result (self.new.keys ≡ self.old.keys) }
    {
        if self.next == u64::MAX {
            *self = self.numbered_anew()?;
        }
        self.put(key)
    }
}
