//! The keys under which a store has the cells of states.
ghost use Rattle.std.specs.Prelude.{◌≡◌, ◌≤◌, ◌++◌, IfOk, OnOk};
ghost use Rattle.ax_serve.specs.CellKeys.{cell_key, entry_bytes, turned};

use ax_base::{Bytes, NoMemory};
use ax_keys::{Key, group};
use std::alloc::Global;

// A number of two's complement with its highest bit turned.
fn turned(n: i64) -> u64
    ensures { result ≡ turned n }
{
    n.cast_unsigned() ^ 1 << 63
}

// Puts the key of an entry at the end, where there is one.
fn push_entry(bytes: &mut Bytes, at: Option<i64>) -> Result<(), NoMemory>
    ensures { OnOk result (bytes.new ≡ bytes.old ++ entry_bytes at) }
{
    match at {
        Some(at) => bytes.extend_from_slice(&turned(at).to_be_bytes()),
        None => Ok(()),
    }
}

/// The key under which a store has a cell: the group of the key among `m` as two bytes, the bytes of
/// the key, a byte 0, and the number of the state as two bytes, counted from 0 by declaration. For an
/// entry of a map, `at` is the entry's key, which stands behind these as eight bytes with its highest
/// bit turned. All numbers have their highest byte first. So cells lie by group, key, state and entry.
///
/// `m` is the maximum parallelism, 1 to 32,768. The only fault is `NoMemory`.
pub fn cell_key(
    alloc: Global,
    m: u16,
    key: &Key,
    state: u8,
    at: Option<i64>,
) -> Result<Bytes, NoMemory>
    requires some_group { 1 ≤ m }
    requires maximum { m ≤ 32768 }
    ensures { IfOk result (λ bytes. bytes ≡ cell_key m key.now state at) }
{
    let mut bytes = Bytes::new(alloc);
    bytes.extend_from_slice(&group(key, m).to_be_bytes())?;
    bytes.extend_from_slice(key.as_bytes())?;
    bytes.push(0)?;
    bytes.extend_from_slice(&u16::from(state).to_be_bytes())?;
    push_entry(&mut bytes, at)?;
    Ok(bytes)
}
