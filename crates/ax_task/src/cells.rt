//! What the shards hold of keys.
ghost use Rattle.std.specs.Prelude.{◌≡◌, ◌++◌, ◌<◌, ℕ, false, IfOk, OnOk};
ghost use Rattle.std.specs.List.{list_any};
ghost use Rattle.std.specs.Map.{keys_of};
ghost use Rattle.std.specs.BTreeMap.{is_at};
ghost use Rattle.ax_keys.specs.Keys.{key_cmp};
ghost use Rattle.ax_text.specs.Programs.{untouched};
ghost use Rattle.ax_machine.specs.Entries.{Key as KeyBytes};
ghost use Rattle.ax_state.specs.KeyCells.{shown_cells, cell_kinds};
ghost use Rattle.ax_task.specs.Serving.{content_of};
ghost use Rattle.ax_task.specs.Shards.{shard_count, held};
ghost use Rattle.ax_task.specs.HeldKeys.{held_keys};

use crate::shard::Shard;
use crate::shards::Shards;
use ax_base::{Duplicate, NoMemory};
use ax_keys::{Key, Keys};
use ax_state::KeyCells;
use std::alloc::Global;

impl Shard {
    // Adds the keys that had a request.
    fn add_keys(&self, keys: &mut Keys) -> Result<(), NoMemory>
        ensures { OnOk result (keys.new ≡ keys.old ++ keys_of self.now.entries) }
    {
        for (key, _) in &self.states {
            keys.push(key.copy(self.alloc)?)?;
        }
        Ok(())
    }

    // The states of a key.
    fn cells_of(&self, key: &Key) -> Result<KeyCells, NoMemory>
        ensures kinds { IfOk result (λ cells. cell_kinds cells ≡ self.now.kinds) }
        ensures content { IfOk result (λ cells. (s : ℕ) → shown_cells cells s ≡ content_of self.now key.now s) }
    {
        match self.states.get(key) {
            Some(cells) => cells.copy(self.alloc),
            None => KeyCells::new(self.alloc, &self.decls),
        }
    }
}

impl Shards {
    /// The keys that had a request. The states of all others were never touched.
    pub fn keys(&self, alloc: Global) -> Result<Keys, NoMemory>
        ensures keys { IfOk result (λ keys. keys ≡ held_keys self.now.shards) }
        ensures others { IfOk result (λ keys. (s : ℕ) (q : KeyBytes) → list_any (is_at (key_cmp q)) keys ≡ false → held self.now s q ≡ untouched self.now.kinds) }
    {
        let mut keys = Keys::new(alloc);
        for shard in &self.shards {
            shard.add_keys(&mut keys)?;
        }
        Ok(keys)
    }

    /// What a shard holds of a key. Condition: it is one of the shards.
    pub fn cells_of(&self, shard: u16, key: &Key) -> Result<KeyCells, NoMemory>
        requires { shard < shard_count self.now }
        ensures kinds { IfOk result (λ cells. cell_kinds cells ≡ self.now.kinds) }
        ensures content { IfOk result (λ cells. (s : ℕ) → shown_cells cells s ≡ held self.now shard key.now s) }
    {
        self.shards[usize::from(shard)].cells_of(key)
    }
}
