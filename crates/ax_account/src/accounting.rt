//! The accounts of all keys.
ghost use Rattle.std.specs.Prelude.{◌≡◌, ◌++◌, [], ◌∷◌, Some, None, true, false, is_some, if◌then◌else◌, IsSome, IfOk, OnOk, OnErr};
ghost use Rattle.std.specs.Option.{option_copied, option_map, unwrap_or};
ghost use Rattle.std.specs.Map.{lookup};
ghost use Rattle.ax_account.specs.declared.part.Occupied.TheVariants.{Owner, Waits};
ghost use Rattle.ax_account.specs.declared.part.Waiting.TheVariants.{Row};
ghost use Rattle.ax_account.specs.Parts.{free, is_free, owned, next_of, taken_up, waits, fired_by, may_fire, is_mark, mark_ended, kept};
ghost use Rattle.ax_account.specs.Queues.{has_key, without, first_of, same_key};
ghost use Rattle.ax_account.specs.Accounts.{part_of, owner_of, waiting_of, busy_keys, Changes, AreSound, Sets, answer_to, occupied, mark, idle_with};

use crate::entry::Entry;
use crate::idle::KeyQueue;
use crate::part::{Next, Occupied, Waiting};
use ax_base::{Duplicate, ListOf, NoMemory};
use ax_context::Id;
use ax_keys::{Key, Keys};
use std::alloc::Global;
use std::collections::BTreeMap;
use std::collections::btree_map::Entry as Place;
use std::marker::Model;

/// Which record in flight owns each key, and what waits for it. A key that has no owner and for
/// which nothing waits is free, and nothing is kept of it.
///
/// Rows and marks go last and leave from the front. A call changes what is kept of its own key
/// alone, and that key's place among the idle ones. Each call but `busy` takes time logarithmic in
/// the number of keys that are not free, whatever waits for them, where the cost of a list that
/// grows is spread over the calls. Only `occupy`, `wait_mark` and `busy` take memory.
#[derive(Drop)]
pub struct Accounting {
    pub(crate) alloc: Global,
    entries: BTreeMap<Key, Entry>,
    idle: KeyQueue,
}

impl Model for Accounting {
    ghost use Rattle.ax_account.specs.Accounts.{Accounts, AreSound};

    ghost Value = { Accounts };

    ghost view = { λ a. record { parts = a.entries.entries; idle = a.idle.keys } };

    ghost invariant = { λ a. AreSound (record { parts = a.entries.entries; idle = a.idle.keys }) };
}

// Takes a key out, where it is there.
fn take_out(entries: &mut BTreeMap<Key, Entry>, key: &Key)
    ensures { Sets entries.old.entries entries.new.entries key.now None }
{
    entries.remove(key);
}

// A row comes for a key: it owns one that is not there, and else waits. After `NoMemory` the
// entries are as before.
fn occupy_at(
    alloc: Global,
    entries: &mut BTreeMap<Key, Entry>,
    key: &Key,
    id: Id,
) -> Result<Occupied, NoMemory>
    ensures answer { IfOk result (λ answer. answer ≡ (if is_some (lookup (same_key key.now) entries.old.entries) then Waits else Owner)) }
    ensures ok { OnOk result (Sets entries.old.entries entries.new.entries key.now (Some (unwrap_or (option_map (waits (Row id)) (lookup (same_key key.now) entries.old.entries)) (owned id)))) }
    ensures err { OnErr result (entries.new.entries ≡ entries.old.entries) }
{
    let Ok(place) = entries.entry(key.copy(alloc)?) else {
        return Err(NoMemory);
    };
    match place {
        Place::Vacant(place) => {
            place.insert(Entry::owned(alloc, id));
            Ok(Occupied::Owner)
        }
        Place::Occupied(place) => {
            place.into_mut().push(Waiting::Row { id })?;
            Ok(Occupied::Waits)
        }
    }
}

// What is kept of a free key for which an item comes to wait, where the key goes last among the
// idle ones. After `NoMemory` these are as before.
fn first_at(alloc: Global, idle: &mut KeyQueue, key: &Key, item: Waiting) -> Result<Entry, NoMemory>
    requires { has_key idle.old.keys key.now ≡ false }
    ensures entry { IfOk result (λ entry. entry ≡ waits item free) }
    ensures ok { OnOk result (idle.new.keys ≡ idle.old.keys ++ key.now ∷ []) }
    ensures err { OnErr result (idle.new.keys ≡ idle.old.keys) }
{
    let entry = Entry::waited(alloc, item)?;
    idle.push(key)?;
    Ok(entry)
}

// Lets an item wait at a key. One that is not there goes last among the idle ones. After `NoMemory`
// all is as before.
fn wait_at(
    alloc: Global,
    entries: &mut BTreeMap<Key, Entry>,
    idle: &mut KeyQueue,
    key: &Key,
    item: Waiting,
) -> Result<(), NoMemory>
    requires { lookup (same_key key.now) entries.old.entries ≡ None → has_key idle.old.keys key.now ≡ false }
    ensures ok { OnOk result (Sets entries.old.entries entries.new.entries key.now (Some (waits item (unwrap_or (lookup (same_key key.now) entries.old.entries) free)))) }
    ensures idle { OnOk result (idle.new.keys ≡ (if is_some (lookup (same_key key.now) entries.old.entries) then idle.old.keys else idle.old.keys ++ key.now ∷ [])) }
    ensures err { OnErr result (entries.new.entries ≡ entries.old.entries) }
    ensures err_idle { OnErr result (idle.new.keys ≡ idle.old.keys) }
{
    let Ok(place) = entries.entry(key.copy(alloc)?) else {
        return Err(NoMemory);
    };
    match place {
        Place::Vacant(place) => {
            let first = first_at(alloc, idle, key, item);
            Place::Vacant(place).or_try_insert_with(|| first)?;
            Ok(())
        }
        Place::Occupied(place) => place.into_mut().push(item),
    }
}

// Hands a key over, and keeps its entry.
fn hand_over_at(entries: &mut BTreeMap<Key, Entry>, key: &Key) -> Next
    ensures next { result ≡ next_of (unwrap_or (lookup (same_key key.now) entries.old.entries) free).waiting }
    ensures sets { Sets entries.old.entries entries.new.entries key.now (option_map (λ part. taken_up part.waiting) (lookup (same_key key.now) entries.old.entries)) }
{
    match entries.get_mut(key) {
        Some(entry) => entry.hand_over(),
        None => Next::Free,
    }
}

// Takes the mark in front off a key, hands it over, and keeps its entry.
fn end_mark_at(entries: &mut BTreeMap<Key, Entry>, key: &Key) -> Next
    ensures next { result ≡ next_of (mark_ended (unwrap_or (lookup (same_key key.now) entries.old.entries) free).waiting) }
    ensures sets { Sets entries.old.entries entries.new.entries key.now (option_map (λ part. taken_up (mark_ended part.waiting)) (lookup (same_key key.now) entries.old.entries)) }
{
    match entries.get_mut(key) {
        Some(entry) => entry.end_mark(),
        None => Next::Free,
    }
}

// The mark in front at a key fires once more.
fn fire_at(entries: &mut BTreeMap<Key, Entry>, key: &Key, id: Id)
    requires { may_fire (next_of (unwrap_or (lookup (same_key key.now) entries.old.entries) free).waiting) ≡ true }
    ensures { Sets entries.old.entries entries.new.entries key.now (Some (fired_by id (unwrap_or (lookup (same_key key.now) entries.old.entries) free))) }
{
    if let Some(entry) = entries.get_mut(key) {
        entry.fire(id);
    }
}

// Hands a key over.
fn hand_over(entries: &mut BTreeMap<Key, Entry>, key: &Key) -> Next
    ensures next { result ≡ next_of (unwrap_or (lookup (same_key key.now) entries.old.entries) free).waiting }
    ensures sets { Sets entries.old.entries entries.new.entries key.now (kept (taken_up (unwrap_or (lookup (same_key key.now) entries.old.entries) free).waiting)) }
{
    match hand_over_at(entries, key) {
        Next::Free => {
            take_out(entries, key);
            Next::Free
        }
        next => next,
    }
}

// Takes the mark in front off a key, and hands it over.
fn end_mark(entries: &mut BTreeMap<Key, Entry>, key: &Key) -> Next
    ensures next { result ≡ next_of (mark_ended (unwrap_or (lookup (same_key key.now) entries.old.entries) free).waiting) }
    ensures sets { Sets entries.old.entries entries.new.entries key.now (kept (taken_up (mark_ended (unwrap_or (lookup (same_key key.now) entries.old.entries) free).waiting))) }
{
    match end_mark_at(entries, key) {
        Next::Free => {
            take_out(entries, key);
            Next::Free
        }
        next => next,
    }
}

impl Accounting {
    /// Each key is free. It takes no memory before the first row or mark comes.
    pub fn new(alloc: Global) -> Accounting
        ensures { result ≡ record { parts = []; idle = [] } }
    {
        Accounting {
            alloc,
            entries: BTreeMap::new(alloc),
            idle: KeyQueue::new(alloc),
        }
    }

    /// Whether a key is free: it has no owner, and nothing waits for it. A row that comes for it then
    /// owns it, as `occupy` tells.
    pub fn is_free(&self, key: &Key) -> bool
        ensures value { result ≡ is_free (part_of self.now key.now) }
        ensures sound { AreSound self.now }
    {
        !self.entries.contains_key(key)
    }

    /// The owner of a key, and `None` exactly where it has none.
    pub fn owner(&self, key: &Key) -> Option<Id>
        ensures value { result ≡ owner_of self.now key.now }
        ensures sound { AreSound self.now }
    {
        match self.entries.get(key) {
            Some(entry) => entry.owner(),
            None => None,
        }
    }

    /// What waits in front at a key, and `Free` exactly where nothing waits.
    pub fn front(&self, key: &Key) -> Next
        ensures value { result ≡ next_of (waiting_of self.now key.now) }
        ensures sound { AreSound self.now }
    {
        match self.entries.get(key) {
            Some(entry) => entry.front(),
            None => Next::Free,
        }
    }

    /// The key that has been idle longest, and `None` exactly where no key is idle. An idle key has
    /// no owner and a mark in front.
    pub fn first_idle(&self) -> Option<&Key>
        ensures value { option_copied result ≡ first_of self.now.idle }
        ensures sound { AreSound self.now }
    {
        self.idle.first()
    }

    /// A row came for a key. It owns a key that is free, and else waits, the last of all: `Waits`
    /// exactly where the key has an owner or waiting items. After `NoMemory` all is as before.
    pub fn occupy(&mut self, key: &Key, id: Id) -> Result<Occupied, NoMemory>
        ensures answer { IfOk result (λ answer. answer ≡ answer_to (part_of self.old key.now)) }
        ensures part { OnOk result (Changes self.old self.new key.now (occupied id (part_of self.old key.now))) }
        ensures idle { OnOk result (self.new.idle ≡ self.old.idle) }
        ensures err { OnErr result (self.new ≡ self.old) }
    {
        occupy_at(self.alloc, &mut self.entries, key, id)
    }

    /// A watermark of this time that ended an epoch waits at a key, the last of all, with no firing
    /// yet. A key that was free goes last into the list of idle keys. After `NoMemory` all is as
    /// before.
    pub fn wait_mark(&mut self, key: &Key, epoch: u64, time: i64) -> Result<(), NoMemory>
        ensures part { OnOk result (Changes self.old self.new key.now (waits (mark epoch time) (part_of self.old key.now))) }
        ensures idle { OnOk result (self.new.idle ≡ idle_with key.now (part_of self.old key.now) self.old.idle) }
        ensures err { OnErr result (self.new ≡ self.old) }
    {
        let item = Waiting::Mark {
            epoch,
            time,
            fired: 0,
        };
        wait_at(self.alloc, &mut self.entries, &mut self.idle, key, item)
    }

    /// Takes the owner off a key, and tells what comes next. A waiting row in front leaves the list
    /// and owns the key. A mark in front stays there, and the key is not listed as idle: the caller
    /// fires the mark or ends it. `Free` comes exactly where nothing waits.
    ///
    /// Condition: the key has an owner, as `owner` tells.
    pub fn release(&mut self, key: &Key) -> Next
        requires { IsSome (owner_of self.old key.now) }
        ensures next { result ≡ next_of (waiting_of self.old key.now) }
        ensures part { Changes self.old self.new key.now (taken_up (waiting_of self.old key.now)) }
        ensures idle { self.new.idle ≡ self.old.idle }
    {
        hand_over(&mut self.entries, key)
    }

    /// Lets the mark in front of a key fire a timer: a context owns the key, and the mark, which
    /// stays in front, has fired once more. The key leaves the list of idle keys, where it is there.
    ///
    /// Condition: the key has no owner, as `owner` tells, and a mark in front that has fired less
    /// than 65,536 times, as `front` tells.
    pub fn fire(&mut self, key: &Key, id: Id)
        requires owner { owner_of self.old key.now ≡ None }
        requires mark { may_fire (next_of (waiting_of self.old key.now)) ≡ true }
        ensures part { Changes self.old self.new key.now (fired_by id (part_of self.old key.now)) }
        ensures idle { self.new.idle ≡ without key.now self.old.idle }
    {
        fire_at(&mut self.entries, key, id);
        self.idle.remove(key);
    }

    /// Takes the mark in front off a key, which leaves the list of idle keys, where it is there.
    /// Then tells what comes next, as `release` does: a waiting row in front leaves the list and owns
    /// the key, a mark in front stays there, and `Free` comes exactly where nothing waits.
    ///
    /// Condition: the key has no owner, as `owner` tells, and a mark in front, as `front` tells.
    pub fn end_mark(&mut self, key: &Key) -> Next
        requires owner { owner_of self.old key.now ≡ None }
        requires mark { is_mark (next_of (waiting_of self.old key.now)) ≡ true }
        ensures next { result ≡ next_of (mark_ended (waiting_of self.old key.now)) }
        ensures part { Changes self.old self.new key.now (taken_up (mark_ended (waiting_of self.old key.now))) }
        ensures idle { self.new.idle ≡ without key.now self.old.idle }
    {
        self.idle.remove(key);
        end_mark(&mut self.entries, key)
    }

    /// The keys that are not free, rising.
    pub fn busy(&self, alloc: Global) -> Result<Keys, NoMemory>
        ensures keys { IfOk result (λ keys. keys ≡ busy_keys self.now) }
        ensures sound { AreSound self.now }
    {
        let mut keys = ListOf::new(alloc);
        for key in self.entries.keys() {
            keys.push(key.copy(alloc)?)?;
        }
        Ok(keys)
    }
}
