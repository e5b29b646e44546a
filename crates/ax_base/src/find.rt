//! Where the next line ends.
ghost use Rattle.std.specs.Prelude.{◌≡◌, ◌+◌, ◌-◌, ◌≤◌, ◌<◌, ◌++◌, ◌∷◌, ◌^◌, ℕ, true, length, drop, take, MatchOption, slice_index};
ghost use Rattle.ax_base.specs.Outside.{Told};
ghost use Rattle.ax_base.specs.Lines.{no_feed, NothingLeft, Sees, IsIn, Finds, Grows, FindCount};

use crate::Source;
use crate::window::{PIECE, Window};

/// What held bytes show of the next line.
#[derive(Clone, Copy, Debug, PartialEq, Eq)]
pub enum Found {
    /// Its line feed stands at this place, within the limit.
    Line(usize),
    /// It has more than 65,536 bytes, and that many lie within the limit.
    Long,
    /// It passes the limit.
    Much,
    /// More is needed.
    Rest,
}

/// Why there is no next line.
#[derive(Clone, Copy, Debug, PartialEq, Eq)]
pub enum Stop {
    /// The source could not be read.
    Read,
    /// It has more than 65,536 bytes, and that many lie within the limit.
    Long,
    /// It passes the limit.
    Much,
}

// The first line feed from a place on.
fn feed_from(held: &[u8], from: usize) -> Option<usize>
    requires within { from ≤ length held.now }
    requires none { no_feed (take from held.now) ≡ true }
    ensures { MatchOption result (no_feed held.now ≡ true)
        (λ n. (n < length held.now) × (no_feed (take n held.now) ≡ true) × (slice_index held.now n ≡ 10)) }
{
    for i in from..held.len() {
        if held[i] == b'\n' {
            return Some(i);
        }
    }
    None
}

// What held bytes show of the next line, where none of the first `from` bytes is a line feed and
// `limit` bytes lie within the limit.
fn look(held: &[u8], from: usize, limit: u64) -> Found
    requires within { from ≤ length held.now }
    requires none { no_feed (take from held.now) ≡ true }
    ensures { Sees held.now limit result }
{
    match feed_from(held, from) {
        Some(n) => {
            if n > 65536 && limit > 65536 {
                return Found::Long;
            }
            if (n as u64) < limit {
                return Found::Line(n);
            }
            Found::Much
        }
        None => {
            if held.len() > 65536 && limit > 65536 {
                return Found::Long;
            }
            if held.len() as u64 > limit {
                return Found::Much;
            }
            Found::Rest
        }
    }
}

/// Reads until the next line is held, and says where its text ends and where the line ends. `None`
/// is the end: nothing is held, and nothing is left. `limit` bytes lie within the limit.
///
/// Each read asks for 65,536 bytes, or for one byte more than the limit still leaves where that is
/// fewer.
pub fn find<S: Source>(
    window: &mut Window,
    input: &mut S,
    limit: u64,
) -> Result<Option<(usize, usize)>, Stop>
    requires small { limit < 2 ^ 63 }
    requires near { length window.old ≤ limit + 1 }
    ensures within { IsIn (NothingLeft (S.left input.old) (S.left input.new)) window.new limit result }
    ensures grown { Grows (S.left input.old) (S.left input.new) window.old window.new }
    ensures told { Told (S.left input.old) (S.left input.new) (λ a b. Finds limit (window.old ++ a) window.new b result) }
    ensures count { FindCount (S.faults input.old) (S.faults input.new) result }
    ensures near { length window.new ≤ limit + 1 }
{
    let mut from = 0;
    loop {
        match look(window.as_slice(), from, limit) {
            Found::Line(n) => return Ok(Some((n, n + 1))),
            Found::Long => return Err(Stop::Long),
            Found::Much => return Err(Stop::Much),
            Found::Rest => {}
        }
        from = window.as_slice().len();
        let ask = PIECE.min((limit - from as u64 + 1).min(65536) as usize);
        match window.fill(input, ask) {
            Err(_) => return Err(Stop::Read),
            Ok(0) => {
                if from == 0 {
                    return Ok(None);
                }
                return Ok(Some((from, from)));
            }
            Ok(_) => {}
        }
    }
}
