// The bells of a board, and how a seat waits on one.
ghost use Rattle.std.specs.Prelude.{◌≡◌, ◌+◌, ◌%◌, ◌^◌, ◌<◌};
ghost use Rattle.ax_board.specs.Trail.{Looked, Rang, bare};

use crate::board::Board;
use crate::plays::{Look, Ring};
use crate::view::Known;
use crate::work::Work;
use atomic_table::Seat;
use std::sync::Wait;

impl<W: Work> Board<W> {
    // One more, and one thread that parks there is woken.
    pub(crate) fn ring(&self, seat: &mut Seat<Option<W>, Known<W::Job>>, bell: usize)
        requires board { seat.old.table_id ≡ self.now.table.shared.table_id }
        requires bell { (self.now.cells < bell) × (bell < self.now.cells + 3) }
        ensures board { seat.new.table_id ≡ seat.old.table_id }
        ensures same { bare seat.new.me ≡ bare seat.old.me }
        ensures rang { Rang bell seat.old.me.0.1 seat.new.me.0.1 }
    {
        self.table.shared.fetch_add::<Ring<W>>(seat, bell, 1);
        self.table.shared.wake_one(bell);
    }

    // Waits on the bell, where no cell's word is `wanted` and, with `ends`, the stop word is 0.
    pub(crate) fn wait_on<R: Wait>(
        &self,
        rt: &R,
        seat: &mut Seat<Option<W>, Known<W::Job>>,
        bell: usize,
        wanted: u64,
        ends: bool,
    )
        requires board { seat.old.table_id ≡ self.now.table.shared.table_id }
        requires bell { (self.now.cells < bell) × (bell < self.now.cells + 3) }
        ensures board { seat.new.table_id ≡ seat.old.table_id }
        ensures same { bare seat.new.me ≡ bare seat.old.me }
        ensures looked { Looked seat.old.me.0.1 seat.new.me.0.1 }
    {
        let cells = self.cells;
        let seen = self.table.shared.load::<Look<W>>(seat, bell);
        for at in 0..cells {
            if self.table.shared.load::<Look<W>>(seat, at) == wanted {
                return;
            }
        }
        if ends && self.table.shared.load::<Look<W>>(seat, cells) == 1 {
            return;
        }
        self.table.shared.park(rt, bell, (seen % (1 << 32)) as u32);
    }
}
