//! The merge of two sorted lists of entries.
ghost use Rattle.std.specs.Prelude.{◌≡◌, [], ◌∷◌, ◌++◌, ◌+◌, ◌≤◌, length, Some, None, MatchOption};
ghost use Rattle.std.specs.Vec.{vec_len, vec_capacity};
ghost use Rattle.std.specs.Vec.Iter.{into_iter_items, into_iter_len};
ghost use Rattle.ax_store.specs.Entries.{merged};
ghost use Rattle.ax_store.specs.Merge.{queued, left, IsCounted};

use crate::change::Entry;
use std::cmp::Ordering;
use std::vec::IntoIter;

/// What is left of two sorted lists of entries, of which the newer outweighs the older.
#[derive(Drop)]
struct Merge {
    above: Option<Entry>,
    newer: IntoIter<Entry>,
    below: Option<Entry>,
    older: IntoIter<Entry>,
}

// The slot has the first entry, where there is one.
fn refill(slot: &mut Option<Entry>, rest: &mut IntoIter<Entry>)
    requires { length (into_iter_items rest.old) ≡ into_iter_len rest.old }
    ensures same { queued slot.new rest.new ≡ queued slot.old rest.old }
    ensures none { slot.new ≡ None → queued slot.old rest.old ≡ [] }
    ensures counted { length (into_iter_items rest.new) ≡ into_iter_len rest.new }
{
    if slot.is_none() {
        *slot = rest.next();
    }
}

impl Merge {
    // The entry with the least key; at a key of both, the newer one.
    fn next(&mut self) -> Option<Entry>
        requires { IsCounted self.old }
        ensures entry { MatchOption result (left self.old ≡ []) (λ e. left self.old ≡ e ∷ left self.new) }
        ensures counted { IsCounted self.new }
    {
        refill(&mut self.above, &mut self.newer);
        refill(&mut self.below, &mut self.older);
        match (self.above.take(), self.below.take()) {
            (None, None) => None,
            (Some(above), None) => Some(above),
            (None, Some(below)) => Some(below),
            (Some(above), Some(below)) => match above.0.order(&below.0.sought()) {
                Ordering::Less => {
                    self.below = Some(below);
                    Some(above)
                }
                Ordering::Equal => Some(above),
                Ordering::Greater => {
                    self.above = Some(above);
                    Some(below)
                }
            },
        }
    }
}

/// Moves the entries of two sorted lists behind those of a third that has room for them. Takes linear time and no memory.
pub(crate) fn merge_into(newer: Vec<Entry>, older: Vec<Entry>, out: &mut Vec<Entry>)
    requires { vec_len out.old + (vec_len newer + vec_len older) ≤ vec_capacity out.old }
    ensures { out.new.items ≡ out.old.items ++ merged newer.items older.items }
{
    let mut merge = Merge {
        above: None,
        newer: newer.into_iter(),
        below: None,
        older: older.into_iter(),
    };
    while let Some(entry) = merge.next() {
        let _entered = out.push(entry);
    }
}
