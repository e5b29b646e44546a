//! Requests of two states.
ghost use Rattle.std.specs.Prelude.{◌≡◌};
ghost use Rattle.ax_state.specs.Decls.{kinds};
ghost use Rattle.ax_state.specs.KeyCells.{cell_kinds};

use ax_base::{Bytes, Duplicate, NoMemory};
use ax_state::cells::KeyCells;
use ax_state::decls::{Decl, Decls, fits};
use ax_text::{Answer, Kind, Request};
use std::alloc::Global;
use std::test::Fail;

// Two states of one number each.
fn two_states(alloc: Global) -> Result<Decls, NoMemory> {
    let mut decls = Decls::new(alloc);
    for name in ["first", "second"] {
        decls.push(Decl {
            name: Bytes::from_slice(alloc, name.as_bytes())?,
            kind: Kind::Value,
        })?;
    }
    Ok(decls)
}

// The answer, or None where it does not fit.
fn answer(decls: &Decls, cells: &mut KeyCells, r: &Request) -> Result<Option<Answer>, NoMemory>
    requires { cell_kinds cells.old ≡ kinds decls.now }
    ensures { cell_kinds cells.new ≡ cell_kinds cells.old }
{
    if !fits(decls, r) {
        return Ok(None);
    }
    match cells.apply(r) {
        Ok(answer) => Ok(Some(answer)),
        Err(NoMemory) => Err(NoMemory),
    }
}

// The number of a state, or None where there is none.
fn number(decls: &Decls, cells: &KeyCells, state: u8) -> Option<i64>
    requires { cell_kinds cells.now ≡ kinds decls.now }
{
    if fits(decls, &Request::ValueGet { state }) {
        cells.value(state)
    } else {
        None
    }
}

// Requests in turn, each with its answer (none where it does not fit) and whether all states are empty behind it.
#[test]
fn serves_requests(rt: HostRuntime) -> Result<(), Fail> {
    let cases = [
        (Request::ValueGet { state: 0 }, Some(Answer::Missing), true),
        (
            Request::ValuePut {
                state: 1,
                number: 7,
            },
            Some(Answer::Done),
            false,
        ),
        (Request::ValueGet { state: 0 }, Some(Answer::Missing), false),
        (
            Request::ValueGet { state: 1 },
            Some(Answer::Found { number: 7 }),
            false,
        ),
        (
            Request::ValuePut {
                state: 0,
                number: i64::MIN,
            },
            Some(Answer::Done),
            false,
        ),
        (
            Request::ValueGet { state: 0 },
            Some(Answer::Found { number: i64::MIN }),
            false,
        ),
        (
            Request::ValuePut {
                state: 1,
                number: -1,
            },
            Some(Answer::Done),
            false,
        ),
        (
            Request::ValueGet { state: 1 },
            Some(Answer::Found { number: -1 }),
            false,
        ),
        (Request::ValueGet { state: 2 }, None, false),
        (
            Request::ValuePut {
                state: 255,
                number: 1,
            },
            None,
            false,
        ),
    ];
    let decls = two_states(rt.alloc())?;
    let mut cells = KeyCells::new(rt.alloc(), &decls)?;
    for (request, wanted, empty) in cases {
        assert_eq!(rt; answer(&decls, &mut cells, &request)?, wanted);
        assert_eq!(rt; cells.is_empty(), empty);
    }
    Ok(())
}

// A copy holds the same, and stays as it was when the original changes.
#[test]
fn copies(rt: HostRuntime) -> Result<(), Fail> {
    let decls = two_states(rt.alloc())?.copy(rt.alloc())?;
    let mut cells = KeyCells::new(rt.alloc(), &decls)?;
    let put = Request::ValuePut {
        state: 1,
        number: 5,
    };
    answer(&decls, &mut cells, &put)?;
    let copy = cells.copy(rt.alloc())?;
    let put = Request::ValuePut {
        state: 1,
        number: 6,
    };
    answer(&decls, &mut cells, &put)?;
    assert_eq!(rt; number(&decls, &copy, 0), None);
    assert_eq!(rt; number(&decls, &copy, 1), Some(5));
    assert_eq!(rt; number(&decls, &cells, 1), Some(6));
    Ok(())
}
