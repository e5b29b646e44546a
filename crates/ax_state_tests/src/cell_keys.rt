//! Worked cell keys, and a store under them: a scan for a state gives its own cells, in order.
use ax_keys::Key;
use ax_serve::cell_key;
use ax_store::RunStore;
use std::process::Abort;
use std::test::Fail;

#[test]
fn cells_have_these_keys(rt: HostRuntime) -> Result<(), Fail> {
    let key = Key::read(rt.alloc(), b"a")?.expect(&rt, "a key");
    let value = cell_key(rt.alloc(), 128, &key, 0, None)?;
    assert_eq!(rt; value.as_slice(), b"\x00\x51\x61\x00\x00\x00".as_slice());
    let entry = cell_key(rt.alloc(), 128, &key, 2, Some(-2))?;
    assert_eq!(rt;
        entry.as_slice(),
        b"\x00\x51\x61\x00\x00\x02\x7f\xff\xff\xff\xff\xff\xff\xfe".as_slice()
    );
    Ok(())
}

#[test]
fn a_scan_for_a_state_gives_its_cells(rt: HostRuntime) -> Result<(), Fail> {
    let mut store = RunStore::with_memtable(rt.alloc(), 2)?;
    for name in [b"a".as_slice(), b"aa", b"b"] {
        let key = Key::read(rt.alloc(), name)?.expect(&rt, "a key");
        for state in [1u8, 2, 3] {
            for at in [5i64, -2, i64::MIN, 0] {
                let cell = cell_key(rt.alloc(), 1, &key, state, Some(at))?;
                store.put(cell.as_slice(), &at.to_be_bytes())?;
            }
        }
    }
    let key = Key::read(rt.alloc(), b"a")?.expect(&rt, "a key");
    let prefix = cell_key(rt.alloc(), 1, &key, 2, None)?;
    let cells = store.scan_prefix(prefix.as_slice())?;
    let mut found = cells.as_slice().iter();
    for at in [i64::MIN, -2, 0, 5] {
        let value = found.next().map(|c| c.value.as_slice());
        assert_eq!(rt; value, Some(at.to_be_bytes().as_slice()));
    }
    assert!(rt; found.next().is_none());
    Ok(())
}
