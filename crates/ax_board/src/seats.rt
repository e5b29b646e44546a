//! The seats of a board.
ghost use Rattle.std.specs.Prelude.{◌≡◌, ℕ, ◌<◌, ◌≤◌, ◌∷◌, map, length, is_none};
ghost use Rattle.std.specs.VecDeque.{deque_capacity};
ghost use Rattle.ax_board.specs.Seats.{IsTask, IsWorker, is_home, times, held_of, notes_of};
ghost use Rattle.ax_board.specs.Trail.{bare};

use crate::view::Known;
use crate::work::Work;
use atomic_table::Seat;
use std::collections::VecDeque;

/// The seat of the task, of which each board has one. Contracts see what it notes for each cell: whether
/// it is home, or out with which job.
#[derive(Drop)]
pub struct TaskSeat<W: Work> {
    pub(crate) seat: Seat<Option<W>, Known<W::Job>>,
    // The cells that are home. The seat holds their slots in this order.
    pub(crate) order: VecDeque<usize>,
    // For each cell, whether it is home.
    pub(crate) home: Vec<bool>,
    ghost task: { IsTask (bare seat.me) order.items (notes_of seat.me.0.0) },
    ghost wide: { length (notes_of seat.me.0.0) ≡ seat.table_id.slots },
    ghost room: { length (notes_of seat.me.0.0) ≤ deque_capacity order },
    ghost flags: { home.items ≡ map is_home (notes_of seat.me.0.0) },
}

/// The seat of a worker. Contracts see the cell and the job of the work that it holds, if any. It may be
/// sent to another thread.
#[derive(Drop)]
pub struct WorkSeat<W: Work> {
    pub(crate) seat: Seat<Option<W>, Known<W::Job>>,
    pub(crate) empty: bool,
    ghost worker: { IsWorker (bare seat.me) },
    ghost flag: { empty ≡ is_none (held_of seat.me.0.0) },
}

impl<W: Work> TaskSeat<W> {
    // The slot of the cell comes to the front.
    pub(crate) fn bring(&mut self, cell: usize)
        requires { 0 < times cell self.old.order.items }
        ensures seat { (self.new.seat.table_id ≡ self.old.seat.table_id) × (self.new.seat.me.0.0 ≡ self.old.seat.me.0.0) }
        ensures found { self.new.seat.me.0.1 ≡ self.old.seat.me.0.1 }
        ensures front { (rest : _) × (self.new.order.items ≡ cell ∷ rest) }
    {
        while self.order[0] != cell {
            let TaskSeat { seat, order, .. } = self;
            order.rotate_left(1);
            seat.turn();
        }
    }
}
