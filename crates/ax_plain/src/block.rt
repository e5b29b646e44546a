//! Barriers: what every key has is written as a block.
ghost use Rattle.std.specs.Prelude.{◌≡◌, ◌≤◌, map, Some, IfOk, OnOk, OnErr};
ghost use Rattle.std.specs.List.{All};
ghost use Rattle.std.specs.BTreeMap.{get};
ghost use Rattle.std.specs.Io.KnownBytes.{Appends};
ghost use Rattle.ax_keys.specs.Keys.{key_cmp};
ghost use Rattle.ax_machine.specs.Entries.{Mark, entry_text};
ghost use Rattle.ax_machine.specs.Sync.{block_of};
ghost use Rattle.ax_lang.specs.Shown.{shown_program, shown_kinds};
ghost use Rattle.ax_base.specs.Outside.{AppendsSome, OwnCounts};
ghost use Rattle.ax_plain.specs.Plain.{shown_plain, ThreadFits};
ghost use Rattle.ax_plain.specs.Snaps.{shown_snap};

use crate::plain::{PlainThread, States};
use ax_base::{Bytes, Duplicate, NoMemory, Sink, SinkFault, write_all};
use ax_keys::Key;
use ax_lang::Program;
use ax_snapshot::{KeySnap, KeySnaps, Snapshot, write_snapshot};
use ax_state::KeyCells;
use ax_time::Timers;
use std::alloc::Global;

// What a key has.
fn snap_key(
    alloc: Global,
    key: &Key,
    cells: &KeyCells,
    timers: &Timers,
) -> Result<KeySnap, NoMemory>
    ensures { IfOk result (λ snap. snap ≡ shown_snap timers.now (key.now, cells.now)) }
{
    Ok(KeySnap {
        key: key.copy(alloc)?,
        cells: cells.copy(alloc)?,
        timers: timers.times_of(alloc, key)?,
    })
}

// What each key has.
fn snap_keys(alloc: Global, states: &States, timers: &Timers) -> Result<KeySnaps, NoMemory>
    ensures snaps { IfOk result (λ snaps. snaps ≡ map (shown_snap timers.now) states.now.entries) }
    ensures found { OnOk result (All (λ e. get key_cmp states.now e.0 ≡ Some e.1) states.now.entries) }
{
    let mut snaps = KeySnaps::new(alloc);
    for (key, cells) in states {
        snaps.push(snap_key(alloc, key, cells, timers)?)?;
    }
    Ok(snaps)
}

impl PlainThread {
    // Writes the block of a barrier. After an error the sink took a prefix of it.
    pub(crate) fn write_block<K: Sink>(
        &self,
        program: &Program,
        groups: u16,
        id: &i64,
        out: &mut K,
    ) -> Result<(), SinkFault>
        requires fits { ThreadFits (shown_kinds program.now) self.now }
        requires least { 1 ≤ groups }
        requires most { groups ≤ 32768 }
        ensures lines { OnOk result (Appends (K.holds out.old) (K.holds out.new)
            (entry_text (Mark (block_of groups (shown_program program.now) id.now (shown_plain (shown_kinds program.now) self.now))))) }
        ensures part { OnErr result (AppendsSome (K.holds out.old) (K.holds out.new)
            (entry_text (Mark (block_of groups (shown_program program.now) id.now (shown_plain (shown_kinds program.now) self.now))))) }
        ensures counts { OwnCounts (K.counts out.old) (K.counts out.new) result }
        ensures base { K.base out.new ≡ K.base out.old }
    {
        let Ok(bytes) = self.block(program, groups, id) else {
            return Err(SinkFault::NoMemory);
        };
        write_all(out, bytes.as_slice())
    }

    // The block of a barrier.
    fn block(&self, program: &Program, groups: u16, id: &i64) -> Result<Bytes, NoMemory>
        requires fits { ThreadFits (shown_kinds program.now) self.now }
        requires least { 1 ≤ groups }
        requires most { groups ≤ 32768 }
        ensures { IfOk result (λ bytes. bytes ≡ entry_text (Mark (block_of groups (shown_program program.now) id.now (shown_plain (shown_kinds program.now) self.now)))) }
    {
        let snapshot = Snapshot {
            id: *id,
            wm: self.wm,
            keys: snap_keys(self.alloc, &self.states, &self.timers)?,
        };
        write_snapshot(self.alloc, &snapshot, program.decls(), groups)
    }
}
