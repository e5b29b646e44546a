//! Blocks of two keys and of none, and of a list and a map.
ghost use Rattle.std.specs.Prelude.{◌≡◌, IfOk};
ghost use Rattle.std.specs.List.{All};
ghost use Rattle.ax_state.specs.Decls.{kinds};
ghost use Rattle.ax_state.specs.KeyCells.{cell_kinds};

use ax_base::{Bytes, Duplicate, NoMemory, Nums};
use ax_keys::Key;
use ax_snapshot::{KeySnap, KeySnaps, Snapshot, write_snapshot};
use ax_state::{Decl, Decls, KeyCells, Kind, Request, fits};
use std::alloc::Global;
use std::test::Fail;

// Two states of these kinds.
fn two_states(alloc: Global, kinds: [Kind; 2]) -> Result<Decls, NoMemory> {
    let mut decls = Decls::new(alloc);
    for (name, kind) in [("c", kinds[0]), ("d", kinds[1])] {
        decls.push(Decl {
            name: Bytes::from_slice(alloc, name.as_bytes())?,
            kind,
        })?;
    }
    Ok(decls)
}

// Serves a request that fits.
fn ask(decls: &Decls, cells: &mut KeyCells, r: &Request) -> Result<(), NoMemory>
    requires { cell_kinds cells.old ≡ kinds decls.now }
    ensures { cell_kinds cells.new ≡ cell_kinds cells.old }
{
    if fits(decls, r) {
        cells.apply(r)?;
    }
    Ok(())
}

// What three requests leave.
fn cells_after(alloc: Global, decls: &Decls, requests: &[Request; 3]) -> Result<KeyCells, NoMemory>
    ensures { IfOk result (λ cells. cell_kinds cells ≡ kinds decls.now) }
{
    let mut cells = KeyCells::new(alloc, decls)?;
    ask(decls, &mut cells, &requests[0])?;
    ask(decls, &mut cells, &requests[1])?;
    ask(decls, &mut cells, &requests[2])?;
    Ok(cells)
}

// A key with what three requests leave, and its timers.
fn add_key(
    alloc: Global,
    decls: &Decls,
    keys: &mut KeySnaps,
    name: &str,
    requests: &[Request; 3],
    times: &[i64],
) -> Result<(), NoMemory>
    requires { All (λ k. cell_kinds k.cells ≡ kinds decls.now) keys.old }
    ensures { All (λ k. cell_kinds k.cells ≡ kinds decls.now) keys.new }
{
    let cells = cells_after(alloc, decls, requests)?;
    let timers = Nums::from_slice(alloc, times)?;
    match Key::read(alloc, name.as_bytes())? {
        Some(key) => keys.push(KeySnap { key, cells, timers }),
        None => Ok(()),
    }
}

// The block of some keys, where there are few states.
fn block(alloc: Global, keys: KeySnaps, wm: i64, decls: &Decls, m: u16) -> Result<Bytes, NoMemory>
    requires { All (λ k. cell_kinds k.cells ≡ kinds decls.now) keys }
{
    if decls.len() > 256 || m < 1 || m > 32768 {
        return Ok(Bytes::new(alloc));
    }
    let s = Snapshot { id: 1, wm, keys };
    write_snapshot(alloc, &s, decls, m)
}

fn put(state: u8, number: i64) -> Request {
    Request::ValuePut { state, number }
}

#[test]
fn blocks(rt: HostRuntime) -> Result<(), Fail> {
    let alloc = rt.alloc();
    let decls = two_states(alloc, [Kind::Value, Kind::Value])?;
    let none = block(alloc, KeySnaps::new(alloc), i64::MIN, &decls, 128)?;
    assert_eq!(rt;
        none.as_slice(),
        b"s 1 -9223372036854775808\ne 1 0\n".as_slice()
    );
    let mut keys = KeySnaps::new(alloc);
    let clear = Request::Clear { state: 0 };
    let five = [clear, put(0, 5), Request::Clear { state: 1 }];
    add_key(alloc, &decls, &mut keys, "a", &five, &[-3, 7])?;
    let none = [
        put(0, 1),
        Request::Clear { state: 0 },
        Request::Clear { state: 1 },
    ];
    add_key(alloc, &decls, &mut keys, "z", &none, &[])?;
    let both = [put(0, 1), put(0, -1), put(1, i64::MAX)];
    add_key(alloc, &decls, &mut keys, "b", &both, &[])?;
    let copy = keys.copy(alloc)?;
    let by_group = block(alloc, copy, 3, &decls, 128)?;
    assert_eq!(rt;
        by_group.as_slice(),
        b"s 1 3\nc b c -1\nc b d 9223372036854775807\nc a c 5\nt a -3\nt a 7\ne 1 5\n".as_slice()
    );
    let by_key = block(alloc, keys, -1, &decls, 1)?;
    assert_eq!(rt;
        by_key.as_slice(),
        b"s 1 -1\nc a c 5\nt a -3\nt a 7\nc b c -1\nc b d 9223372036854775807\ne 1 5\n".as_slice()
    );
    Ok(())
}

#[test]
fn a_block_of_a_list_and_a_map(rt: HostRuntime) -> Result<(), Fail> {
    let alloc = rt.alloc();
    let decls = two_states(alloc, [Kind::List, Kind::Map])?;
    let mut keys = KeySnaps::new(alloc);
    let items = Nums::from_slice(alloc, &[7, -1, 7])?;
    let requests = [
        Request::ListPut { state: 0, items },
        Request::MapPut {
            state: 1,
            at: 5,
            number: 1,
        },
        Request::MapPut {
            state: 1,
            at: -2,
            number: 3,
        },
    ];
    add_key(alloc, &decls, &mut keys, "a", &requests, &[4])?;
    let bytes = block(alloc, keys, 3, &decls, 128)?;
    assert_eq!(rt;
        bytes.as_slice(),
        b"s 1 3\nl a c 7\nl a c -1\nl a c 7\nm a d -2 3\nm a d 5 1\nt a 4\ne 1 6\n".as_slice()
    );
    Ok(())
}
