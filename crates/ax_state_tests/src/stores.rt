//! Worked calls of the run store, and a longer run beside std's ordered map.
ghost use Rattle.std.specs.Prelude.{◌≤◌};

use crate::draws::next_draw;
use ax_base::Duplicate;
use ax_store::RunStore;
use std::alloc::Global;
use std::collections::{BTreeMap, BTreeSet};
use std::process::Abort;
use std::test::Fail;

// A store with some keys and the value of each.
fn filled(alloc: Global, most: u32, keys: &[&[u8]], values: &[&[u8]]) -> Result<RunStore, Fail>
    requires { 1 ≤ most }
{
    let mut store = RunStore::with_memtable(alloc, most)?;
    for (key, value) in keys.iter().zip(values) {
        store.put(key, value)?;
    }
    Ok(store)
}

// The map has these keys, with the value of each, and no other.
fn has(rt: &impl Abort, store: &RunStore, keys: &[&[u8]], values: &[&[u8]]) -> Result<(), Fail> {
    let cells = store.scan_prefix(b"")?;
    let mut found = cells.as_slice().iter();
    for (key, value) in keys.iter().zip(values) {
        let cell = found.next();
        assert_eq!(rt; cell.map(|c| c.key.as_slice()), Some(*key));
        assert_eq!(rt; cell.map(|c| c.value.as_slice()), Some(*value));
        let got = store.get(key)?;
        assert_eq!(rt; got.as_ref().map(|v| v.as_slice()), Some(*value));
    }
    assert!(rt; found.next().is_none());
    Ok(())
}

#[test]
fn a_full_memtable_becomes_a_run(rt: HostRuntime) -> Result<(), Fail> {
    let keys: [&[u8]; 6] = [b"a", b"b", b"c", b"d", b"e", b"f"];
    let values: [&[u8]; 6] = [b"1", b"2", b"3", b"4", b"5", b"6"];
    for (count, runs) in [(2usize, 1u32), (5, 4), (6, 1)] {
        let (keys, values) = (&keys[..count.min(6)], &values[..count.min(6)]);
        let store = filled(rt.alloc(), 1, keys, values)?;
        assert_eq!(rt; store.memtable_len(), 1);
        assert_eq!(rt; store.runs(), runs);
        has(&rt, &store, keys, values)?;
    }
    Ok(())
}

#[test]
fn a_deleted_key_stays_deleted(rt: HostRuntime) -> Result<(), Fail> {
    let mut store = filled(rt.alloc(), 1, &[b"k"], &[b"1"])?;
    store.flush()?;
    has(&rt, &store, &[b"k"], &[b"1"])?;
    store.delete(b"k")?;
    store.flush()?;
    assert!(rt; store.get(b"k")?.is_none());
    store.compact()?;
    assert_eq!(rt; store.runs(), 1);
    assert!(rt; store.get(b"k")?.is_none());
    assert!(rt; store.scan_prefix(b"k")?.is_empty());
    Ok(())
}

#[test]
fn a_prefix_is_deleted(rt: HostRuntime) -> Result<(), Fail> {
    let mut store = filled(rt.alloc(), 2, &[b"ab", b"ac", b"b"], &[b"1", b"2", b"3"])?;
    store.delete_prefix(b"a")?;
    has(&rt, &store, &[b"b"], &[b"3"])
}

// The first sixteen bytes of keys are compared as two numbers, and the others as bytes.
#[test]
fn keys_of_each_length_are_in_order(rt: HostRuntime) -> Result<(), Fail> {
    let text = b"aaaaaaaaaaaaaaaaaa";
    let mut store = RunStore::with_memtable(rt.alloc(), 1)?;
    for len in 0..18usize {
        let turned = 17 - len;
        store.put(&text[..turned], &text[..1])?;
    }
    store.compact()?;
    let cells = store.scan_prefix(b"")?;
    let mut found = cells.as_slice().iter();
    for len in 0..18usize {
        let cell = found.next();
        assert_eq!(rt; cell.map(|c| c.key.as_slice()), Some(&text[..len]));
        assert_eq!(rt; store.get(&text[..len])?.is_some(), true);
    }
    assert!(rt; found.next().is_none());
    Ok(())
}

#[test]
fn a_cell_is_copied(rt: HostRuntime) -> Result<(), Fail> {
    let store = filled(rt.alloc(), 2, &[b"ab"], &[b"1"])?;
    let cells = store.scan_prefix(b"a")?;
    assert_eq!(rt; cells.len(), 1);
    for cell in cells.as_slice() {
        let copy = cell.copy(rt.alloc())?;
        assert_eq!(rt; copy.key.as_slice(), b"ab".as_slice());
        assert_eq!(rt; copy.value.as_slice(), b"1".as_slice());
    }
    Ok(())
}

// The same map as std's, with the keys that the memtable has entries of, and with the number of runs.
#[derive(Drop)]
struct Plain {
    map: BTreeMap<Vec<u8>, Vec<u8>>,
    memtable: BTreeSet<Vec<u8>>,
    most: usize,
    runs: u32,
}

impl Plain {
    // The memtable becomes a run, where it has entries; five runs become one.
    fn flush(&mut self) {
        if !self.memtable.is_empty() {
            self.runs = if self.runs < 4 { self.runs + 1 } else { 1 };
            self.memtable.clear();
        }
    }

    // An entry of a key goes into the memtable, behind a flush where that is full.
    fn enter(&mut self, alloc: Global, key: &[u8]) -> Result<(), Fail> {
        if self.memtable.len() >= self.most {
            self.flush();
        }
        let _ = self.memtable.insert(key.to_vec(alloc)?)?;
        Ok(())
    }

    // What begins with a prefix goes. Four runs become one before a run of deletes comes, which does so where there is a key.
    fn delete_prefix(&mut self, prefix: &[u8]) {
        self.flush();
        let before = self.map.len();
        self.map
            .retain(|key, _| !key.as_slice().starts_with(prefix));
        if self.runs >= 4 {
            self.runs = 1;
        }
        if self.map.len() < before {
            self.runs = self.runs.saturating_add(1);
        }
    }
}

// What begins with a prefix, in both.
fn same_scan(rt: &impl Abort, store: &RunStore, plain: &Plain, prefix: &[u8]) -> Result<(), Fail> {
    let cells = store.scan_prefix(prefix)?;
    let mut found = cells.as_slice().iter();
    for (key, value) in &plain.map {
        if key.as_slice().starts_with(prefix) {
            let cell = found.next();
            assert_eq!(rt; cell.map(|c| c.key.as_slice()), Some(key.as_slice()));
            assert_eq!(rt; cell.map(|c| c.value.as_slice()), Some(value.as_slice()));
        }
    }
    assert!(rt; found.next().is_none());
    Ok(())
}

// A key is set in both.
fn put(
    alloc: Global,
    store: &mut RunStore,
    plain: &mut Plain,
    key: &[u8],
    value: u8,
) -> Result<(), Fail> {
    store.put(key, &[value])?;
    plain.enter(alloc, key)?;
    plain
        .map
        .insert(key.to_vec(alloc)?, [value].to_vec(alloc)?)?;
    Ok(())
}

// A key is taken out of both, whether it is there or not.
fn delete(alloc: Global, store: &mut RunStore, plain: &mut Plain, key: &[u8]) -> Result<(), Fail> {
    store.delete(key)?;
    plain.enter(alloc, key)?;
    let _ = plain.map.remove(key);
    Ok(())
}

// One call on both, by a number.
fn call(
    rt: &impl Abort,
    alloc: Global,
    store: &mut RunStore,
    plain: &mut Plain,
    key: &[u8],
    kind: u8,
) -> Result<(), Fail> {
    match kind {
        0 => {
            store.flush()?;
            plain.flush();
        }
        1 => {
            store.compact()?;
            plain.runs = plain.runs.min(1);
        }
        2 => {
            store.delete_prefix(key)?;
            plain.delete_prefix(key);
        }
        3..=7 => same_scan(rt, store, plain, key)?,
        8..=30 => delete(alloc, store, plain, key)?,
        _ => put(alloc, store, plain, key, kind)?,
    }
    same_key(rt, store, plain, key)
}

// The value of a key and the counts, in both.
fn same_key(rt: &impl Abort, store: &RunStore, plain: &Plain, key: &[u8]) -> Result<(), Fail> {
    let value = store.get(key)?;
    assert_eq!(rt;
        value.as_ref().map(|v| v.as_slice()),
        plain.map.get(key).map(|v| v.as_slice())
    );
    assert_eq!(rt; store.memtable_len() as usize, plain.memtable.len());
    assert_eq!(rt; store.runs(), plain.runs);
    Ok(())
}

// Calls on both, by numbers that follow from the first.
fn mixed_calls(rt: &impl Abort, alloc: Global, most: u32) -> Result<(), Fail>
    requires { 1 ≤ most }
{
    let mut store = RunStore::with_memtable(alloc, most)?;
    let mut plain = Plain {
        map: BTreeMap::new(alloc),
        memtable: BTreeSet::new(alloc),
        most: most as usize,
        runs: 0,
    };
    let mut x = u64::from(most);
    for _ in 0..2500 {
        x = next_draw(x);
        let text = b"abcdabacbdcaddbccb";
        let start = (x >> 40) % 14;
        let len = (x >> 46) % 4;
        let key = &text[start as usize..(start + len) as usize];
        call(
            rt,
            alloc,
            &mut store,
            &mut plain,
            key,
            ((x >> 50) % 64) as u8,
        )?;
    }
    same_scan(rt, &store, &plain, b"")
}

#[test]
fn is_the_ordered_map(rt: HostRuntime) -> Result<(), Fail> {
    for most in 1..5u32 {
        mixed_calls(&rt, rt.alloc(), most)?;
    }
    Ok(())
}
