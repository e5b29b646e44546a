//! Barriers: what every key has is written as a block.
ghost use Rattle.std.specs.Prelude.{◌≡◌, ◌||◌, ℕ, List, [], map, false, IfOk, OnOk};
ghost use Rattle.std.specs.List.{All, list_any};
ghost use Rattle.std.specs.BTreeMap.{is_at};
ghost use Rattle.std.specs.BTreeSet.{contains};
ghost use Rattle.ax_keys.specs.Keys.{key_cmp};
ghost use Rattle.ax_machine.specs.Sync.{parts_of};
ghost use Rattle.ax_state.specs.KeyCells.{cell_kinds};
ghost use Rattle.ax_snapshot.specs.Snaps.{shown_part};
ghost use Rattle.ax_text.specs.Programs.{untouched};
ghost use Rattle.ax_time.specs.Timers.{times_of};
ghost use Rattle.ax_task.specs.Shards.{held};
ghost use Rattle.ax_task.specs.Engines.{IsReady, IsBlockOf};
ghost use Rattle.ax_task.specs.Snapped.{state_at, part_at};

use crate::engine::Engine;
use crate::shards::Shards;
use ax_base::{Bytes, Duplicate, NoMemory};
use ax_keys::{Key, Keys, group, index_of_group};
use ax_snapshot::{KeySnap, KeySnaps, Snapshot, write_snapshot};
use ax_time::Timers;
use std::alloc::Global;
use std::collections::BTreeSet;

// Adds a key.
fn add_key(keys: &mut BTreeSet<Key>, key: Key) -> Result<(), NoMemory>
    ensures { OnOk result ((q : List ℕ) → contains key_cmp keys.new q ≡ (contains key_cmp keys.old q || is_at (key_cmp q) key)) }
{
    match keys.insert(key) {
        Ok(_) => Ok(()),
        Err(_) => Err(NoMemory),
    }
}

// Adds the keys of a list.
fn add_keys(keys: &mut BTreeSet<Key>, list: Keys) -> Result<(), NoMemory>
    ensures { OnOk result ((q : List ℕ) → contains key_cmp keys.new q ≡ (contains key_cmp keys.old q || list_any (is_at (key_cmp q)) list)) }
{
    for key in list.into_vec() {
        add_key(keys, key)?;
    }
    Ok(())
}

// Adds the keys that have a timer.
fn add_timers(alloc: Global, keys: &mut BTreeSet<Key>, timers: &Timers) -> Result<(), NoMemory>
    ensures { OnOk result ((q : List ℕ) → contains key_cmp keys.new q ≡ (contains key_cmp keys.old q || list_any (λ t. is_at (key_cmp q) t.key) timers.now)) }
{
    for timer in timers.all(alloc)?.into_vec() {
        add_key(keys, timer.key)?;
    }
    Ok(())
}

// The keys that had a request or have a timer. Each other was never touched, and has none.
fn known_keys(alloc: Global, shards: &Shards, timers: &Timers) -> Result<BTreeSet<Key>, NoMemory>
    ensures states { IfOk result (λ keys. (s : ℕ) (q : List ℕ) → contains key_cmp keys q ≡ false → held shards.now s q ≡ untouched shards.now.kinds) }
    ensures timers { IfOk result (λ keys. (q : List ℕ) → contains key_cmp keys q ≡ false → times_of timers.now q ≡ []) }
{
    let mut keys = BTreeSet::new(alloc);
    add_keys(&mut keys, shards.keys(alloc)?)?;
    add_timers(alloc, &mut keys, timers)?;
    Ok(keys)
}

impl Engine {
    // What a key has.
    fn snap(&self, key: &Key) -> Result<KeySnap, NoMemory>
        requires { IsReady self.now }
        ensures part { IfOk result (λ snap. shown_part snap ≡ part_at self.now key.now) }
        ensures kinds { IfOk result (λ snap. cell_kinds snap.cells ≡ self.now.shards.kinds) }
    {
        let groups = self.settings.groups;
        let shard = index_of_group(group(key, groups), groups, self.settings.shards);
        Ok(KeySnap {
            key: key.copy(self.alloc)?,
            cells: self.shards.cells_of(shard, key)?,
            timers: self.core.timers().times_of(self.alloc, key)?,
        })
    }

    // What each of these keys has.
    fn snaps(&self, keys: &BTreeSet<Key>) -> Result<KeySnaps, NoMemory>
        requires { IsReady self.now }
        ensures parts { IfOk result (λ snaps. map shown_part snaps ≡ parts_of keys.now.keys (state_at self.now)) }
        ensures kinds { IfOk result (λ snaps. All (λ snap. cell_kinds snap.cells ≡ self.now.shards.kinds) snaps) }
    {
        let mut snaps = KeySnaps::new(self.alloc);
        for key in keys {
            snaps.push(self.snap(key)?)?;
        }
        Ok(snaps)
    }

    // The block of a barrier.
    pub(crate) fn block(&self, id: i64) -> Result<Bytes, NoMemory>
        requires ready { IsReady self.now }
        ensures { IfOk result (λ bytes. IsBlockOf self.now id bytes) }
    {
        let keys = known_keys(self.alloc, &self.shards, self.core.timers())?;
        let snapshot = Snapshot {
            id,
            wm: self.core.wm(),
            keys: self.snaps(&keys)?,
        };
        write_snapshot(
            self.alloc,
            &snapshot,
            self.core.program().decls(),
            self.settings.groups,
        )
    }
}
