//! Writes snapshot blocks.
ghost use Rattle.std.specs.Prelude.{◌≡◌, ◌≤◌, ◌<◌, length, map, true, IfOk, OnOk};
ghost use Rattle.std.specs.List.{All, AllByRecursion};
ghost use Rattle.std.specs.BTreeMap.{values};
ghost use Rattle.ax_keys.specs.Groups.{IsMaximum};
ghost use Rattle.ax_state.specs.Decls.{kinds, shown_states};
ghost use Rattle.ax_state.specs.Fits.{has_kind};
ghost use Rattle.ax_state.specs.KeyCells.{shown_cells, cell_kinds};
ghost use Rattle.ax_machine.specs.Blocks.{item_lines, cell_lines, state_lines, timer_lines, part_lines, inner_lines, block_text};
ghost use Rattle.ax_snapshot.specs.Snaps.{shown_part, pair_lines};
ghost use Rattle.ax_snapshot.specs.Places.{shown_places};
ghost use Rattle.ax_snapshot.specs.Added.{Adds};

use crate::block::Block;
use crate::place::{Place, place_keys};
use crate::snapshot::{KeySnap, Snapshot};
use ax_base::{Bytes, NoMemory, Pair};
use ax_keys::Key;
use ax_state::{Decl, Decls, KeyCells, Kind};
use std::alloc::Global;
use std::collections::BTreeMap;

// Puts the lines of a list's items, in order.
fn put_items(
    alloc: Global,
    block: &mut Block,
    key: &Key,
    name: &Bytes,
    items: &[i64],
) -> Result<(), NoMemory>
    ensures { OnOk result (Adds block.old block.new (item_lines key.now name.now items.now)) }
{
    for number in items {
        block.put_item(alloc, key, name, *number)?;
    }
    Ok(())
}

// Puts the lines of a map's entries, in order.
fn put_pairs(
    alloc: Global,
    block: &mut Block,
    key: &Key,
    name: &Bytes,
    pairs: &[Pair],
) -> Result<(), NoMemory>
    ensures { OnOk result (Adds block.old block.new (pair_lines key.now name.now pairs.now)) }
{
    for pair in pairs {
        block.put_entry(alloc, key, name, *pair)?;
    }
    Ok(())
}

// Puts the lines of one state. Condition: it is of the declared kind.
fn put_state(
    alloc: Global,
    block: &mut Block,
    key: &Key,
    decl: &Decl,
    cells: &KeyCells,
    state: u8,
) -> Result<(), NoMemory>
    requires { has_kind (cell_kinds cells.now) state decl.now.kind ≡ true }
    ensures { OnOk result (Adds block.old block.new (cell_lines key.now decl.now.name (shown_cells cells.now state))) }
{
    match decl.kind {
        Kind::Value => block.put_value(alloc, key, &decl.name, cells.value(state)),
        Kind::List => put_items(alloc, block, key, &decl.name, cells.items(state)),
        Kind::Map => {
            let pairs = cells.pairs(alloc, state)?;
            put_pairs(alloc, block, key, &decl.name, pairs.as_slice())
        }
    }
}

// The number of the state at this place of the declarations.
fn state_at(place: usize) -> u8
    requires { place < 256 }
    ensures { result ≡ place }
{
    place as u8
}

// Puts the lines of a key's states, in order of their declaration.
fn put_states(
    alloc: Global,
    block: &mut Block,
    key: &Key,
    cells: &KeyCells,
    decls: &[Decl],
) -> Result<(), NoMemory>
    requires few { length decls.now ≤ 256 }
    requires fits { cell_kinds cells.now ≡ kinds decls.now }
    ensures { OnOk result (Adds block.old block.new (state_lines key.now 0 (shown_states decls.now) (shown_cells cells.now))) }
{
    for (state, decl) in decls.iter().enumerate() {
        put_state(alloc, block, key, decl, cells, state_at(state))?;
    }
    Ok(())
}

// Puts the lines of a key's timers.
fn put_timers(alloc: Global, block: &mut Block, key: &Key, times: &[i64]) -> Result<(), NoMemory>
    ensures { OnOk result (Adds block.old block.new (timer_lines key.now times.now)) }
{
    for time in times {
        block.put_timer(alloc, key, *time)?;
    }
    Ok(())
}

// Puts the lines of a key.
fn put_key(alloc: Global, block: &mut Block, snap: &KeySnap, decls: &[Decl]) -> Result<(), NoMemory>
    requires few { length decls.now ≤ 256 }
    requires fits { cell_kinds snap.now.cells ≡ kinds decls.now }
    ensures { OnOk result (Adds block.old block.new (part_lines (shown_states decls.now) (shown_part snap.now))) }
{
    put_states(alloc, block, &snap.key, &snap.cells, decls)?;
    put_timers(alloc, block, &snap.key, snap.timers.as_slice())?;
    Ok(())
}

// Puts the lines of the keys, in order.
fn put_keys(
    alloc: Global,
    block: &mut Block,
    places: &BTreeMap<Place<'_>, &KeySnap>,
    decls: &[Decl],
) -> Result<(), NoMemory>
    requires few { length decls.now ≤ 256 }
    requires fits { AllByRecursion (λ snap. cell_kinds snap.now.cells ≡ kinds decls.now) (values places.now) }
    ensures { OnOk result (Adds block.old block.new (inner_lines (shown_states decls.now) (shown_places places.now))) }
{
    for snap in places.values() {
        put_key(alloc, block, snap, decls)?;
    }
    Ok(())
}

/// The block of a snapshot, where there are `m` key groups: the head, the lines of each key by key group and then by its
/// bytes, and the end with their number. Of each key come its states in order of their declaration, of which an empty one
/// has no line, and then its timers. Of a key that stands twice the last counts. `NoMemory` is the only fault, and gives no
/// block.
///
/// Conditions: `m` is 1 to 32,768; at most 256 states are declared, since a state's number is a byte; and each key's states
/// are of the declared kinds.
pub fn write_snapshot(alloc: Global, s: &Snapshot, decls: &Decls, m: u16) -> Result<Bytes, NoMemory>
    requires groups { IsMaximum m }
    requires few { length decls.now ≤ 256 }
    requires fits { All (λ k. cell_kinds k.cells ≡ kinds decls.now) s.now.keys }
    ensures { IfOk result (λ bytes. bytes ≡ block_text m (shown_states decls.now) s.now.id s.now.wm (map shown_part s.now.keys)) }
{
    let places = place_keys(alloc, s.keys.as_slice(), m)?;
    let mut block = Block::begin(alloc, s)?;
    put_keys(alloc, &mut block, &places, decls.as_slice())?;
    block.end(alloc, s)
}
