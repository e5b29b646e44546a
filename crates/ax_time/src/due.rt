// The keys that are due at a watermark.
ghost use Rattle.std.specs.Prelude.{◌≡◌, ℕ, List, length, ◌||◌, IfOk, OnOk};
ghost use Rattle.std.specs.List.{list_any};
ghost use Rattle.std.specs.List.Sorted.{IsStrictlySortedBy};
ghost use Rattle.std.specs.declared.ops.Bound.TheVariants.{Excluded, Unbounded};
ghost use Rattle.std.specs.BTreeMap.{is_at};
ghost use Rattle.std.specs.BTreeSet.{contains, keys_between};
ghost use Rattle.ax_keys.specs.Keys.{key_cmp};
ghost use Rattle.ax_time.specs.Held.{due_order, names};

use crate::held::ByTime;
use ax_base::{Duplicate, NoMemory};
use ax_keys::{Key, Keys};
use std::alloc::Global;
use std::collections::BTreeSet;

// The keys of all timers up to a time.
pub fn due_set(
    alloc: Global,
    by_time: &ByTime,
    named: &[Key],
    w: &i64,
) -> Result<BTreeSet<Key>, NoMemory>
    ensures { IfOk result (λ found. (q : List ℕ) → contains key_cmp found q ≡ list_any (λ d. names named.now q d.1) (keys_between due_order Unbounded (Excluded (w.now, length named.now)) by_time.now)) }
{
    let mut found = BTreeSet::new(alloc);
    for due in by_time.range(..(*w, named.len())) {
        find_named(alloc, &mut found, named, due.1)?;
    }
    Ok(found)
}

// Puts the key of a number among those that were found.
fn find_named(
    alloc: Global,
    found: &mut BTreeSet<Key>,
    named: &[Key],
    number: usize,
) -> Result<(), NoMemory>
    ensures { OnOk result ((q : List ℕ) → contains key_cmp found.new q ≡ (contains key_cmp found.old q || names named.now q number)) }
{
    match named.get(number) {
        Some(key) => find_key(alloc, found, key),
        None => Ok(()),
    }
}

// Puts a key among those that were found, unless it is there.
fn find_key(alloc: Global, found: &mut BTreeSet<Key>, key: &Key) -> Result<(), NoMemory>
    ensures { OnOk result ((q : List ℕ) → contains key_cmp found.new q ≡ (contains key_cmp found.old q || is_at (key_cmp q) key.now)) }
{
    if found.contains(key) {
        return Ok(());
    }
    let key = key.copy(alloc)?;
    match found.insert(key) {
        Ok(_) => Ok(()),
        Err(_) => Err(NoMemory),
    }
}

// A list of keys.
pub fn list_keys(alloc: Global, keys: BTreeSet<Key>) -> Result<Keys, NoMemory>
    ensures keys { IfOk result (λ list. list ≡ keys.keys) }
    ensures rising { IfOk result (λ list. IsStrictlySortedBy key_cmp list) }
{
    let mut list = Keys::new(alloc);
    for key in keys {
        list.push(key)?;
    }
    Ok(list)
}
