// The calls of the task.
ghost use Rattle.std.specs.Prelude.{◌≡◌, ℕ, ◌+◌, ◌<◌, ◌≤◌, true, false, replicate, slice_set, IfOk, IfSome, IfNone, IsSome, [], ◌∷◌, None};
ghost use lib.ListN.{get_elem?};
ghost use mathlib.Core.Option.{some};
ghost use Rattle.ax_board.specs.Seats.{at_home};
ghost use Rattle.ax_board.specs.Trail.{Rang, Tried, Looked};
ghost use Rattle.ax_board.specs.Words.{table, cell_count, task_table, work_table, notes, told, holds, task_found, work_found};
ghost use Rattle.ax_board.specs.declared.view.Deed.TheVariants.{Left};
ghost use Rattle.ax_board.specs.declared.view.Note.TheVariants.{Closed, Home, Out};

use crate::board::Board;
use crate::plays::{Collect, Hire, Open, Post, Retire, Stop};
use crate::seats::{TaskSeat, WorkSeat};
use crate::work::Work;
use atomic_table::Table;
use ax_base::NoMemory;
use std::alloc::Global;
use std::collections::VecDeque;
use std::sync::Wait;

// How many threads a stop wakes: there may be so many workers.
const WAKES: usize = 64;

impl<W: Work> Board<W> {
    /// A board with so many cells, each of which is home, and the task's seat. Condition: from 1 to 64
    /// cells. The only fault is `NoMemory`.
    pub fn new(alloc: Global, cells: u16) -> Result<(Board<W>, TaskSeat<W>), NoMemory>
        requires some { 0 < cells }
        requires few { cells ≤ 64 }
        ensures cells { IfOk result (λ r. cell_count r.0 ≡ cells) }
        ensures board { IfOk result (λ r. task_table r.1 ≡ table r.0) }
        ensures notes { IfOk result (λ r. notes r.1 ≡ replicate cells Home) }
        ensures told { IfOk result (λ r. told r.1 ≡ false) }
    {
        let (board, mut seat) = Board::closed(alloc, cells)?;
        for at in 0..board.cells {
            board.open(&mut seat, at);
        }
        Ok((board, seat))
    }

    // No cell is open.
    fn closed(alloc: Global, cells: u16) -> Result<(Board<W>, TaskSeat<W>), NoMemory>
        requires { (0 < cells) × (cells ≤ 64) }
        ensures { IfOk result (λ r. (cell_count r.0 ≡ cells) × (task_table r.1 ≡ table r.0) × (notes r.1 ≡ replicate cells Closed) × (told r.1 ≡ false)) }
    {
        let count = usize::from(cells);
        let Ok(order) = VecDeque::with_capacity(alloc, count) else {
            return Err(NoMemory);
        };
        let Ok(home) = Vec::from_elem(alloc, false, count) else {
            return Err(NoMemory);
        };
        let Ok(words) = Vec::from_elem(alloc, 0u64, count + 3) else {
            return Err(NoMemory);
        };
        match Table::vacant(alloc, words.as_slice(), count, &count) {
            Ok((table, seat)) => Ok((
                Board {
                    table,
                    cells: count,
                },
                TaskSeat { seat, order, home },
            )),
            Err(_) => Err(NoMemory),
        }
    }

    // The task takes the slot of a cell.
    fn open(&self, seat: &mut TaskSeat<W>, at: usize)
        requires board { task_table seat.old ≡ table self.now }
        requires cell { at < cell_count self.now }
        requires closed { get_elem? (notes seat.old) at ≡ some Closed }
        ensures board { task_table seat.new ≡ table self.now }
        ensures notes { notes seat.new ≡ slice_set (notes seat.old) at Home }
        ensures told { told seat.new ≡ told seat.old }
    {
        let TaskSeat { seat, order, home } = seat;
        self.table.shared.load::<Open<W>>(seat, at);
        order.push_front_reserved(at);
        home[at] = true;
    }

    /// The task has the slot of the cell: nothing is posted there that was not collected.
    pub fn is_home(&self, seat: &TaskSeat<W>, cell: u16) -> bool
        requires board { task_table seat.now ≡ table self.now }
        requires cell { cell < cell_count self.now }
        ensures { result ≡ at_home (notes seat.now) cell }
    {
        seat.home[usize::from(cell)]
    }

    /// Puts work out at a cell, and then rings the work bell. Conditions: `is_home`, and the work was not run.
    pub fn post(&self, seat: &mut TaskSeat<W>, cell: u16, work: W)
        requires board { task_table seat.old ≡ table self.now }
        requires cell { cell < cell_count self.now }
        requires home { at_home (notes seat.old) cell ≡ true }
        requires fresh { W.was_run work ≡ false }
        ensures board { task_table seat.new ≡ table self.now }
        ensures notes { notes seat.new ≡ slice_set (notes seat.old) cell (Out (W.job work)) }
        ensures told { told seat.new ≡ told seat.old }
        ensures rang { Rang (cell_count self.now + 1) (Left cell 1 ∷ task_found seat.old) (task_found seat.new) }
    {
        self.post_at(seat, usize::from(cell), work);
    }

    fn post_at(&self, seat: &mut TaskSeat<W>, at: usize, work: W)
        requires board { task_table seat.old ≡ table self.now }
        requires cell { at < cell_count self.now }
        requires home { at_home (notes seat.old) at ≡ true }
        requires fresh { W.was_run work ≡ false }
        ensures board { task_table seat.new ≡ table self.now }
        ensures notes { notes seat.new ≡ slice_set (notes seat.old) at (Out (W.job work)) }
        ensures told { told seat.new ≡ told seat.old }
        ensures rang { Rang (cell_count self.now + 1) (Left at 1 ∷ task_found seat.old) (task_found seat.new) }
    {
        seat.bring(at);
        let TaskSeat { seat, order, home } = seat;
        drop(self.table.shared.exchange(seat, at, Some(work)));
        self.table.shared.store::<Post<W>>(seat, at, 1);
        order.pop_front();
        home[at] = false;
        self.ring(seat, self.cells + 1);
    }

    /// Takes the work of a cell back, if it was given back. Condition: not `is_home`. It has the job
    /// of the work that was posted there last, was run, and has its result. `None` exactly where this
    /// call's exchange found the cell's word not at 3.
    pub fn collect(&self, seat: &mut TaskSeat<W>, cell: u16) -> Option<W>
        requires board { task_table seat.old ≡ table self.now }
        requires cell { cell < cell_count self.now }
        requires out { at_home (notes seat.old) cell ≡ false }
        ensures board { task_table seat.new ≡ table self.now }
        ensures found { Tried cell 3 (IsSome result) (task_found seat.old) (task_found seat.new) }
        ensures none { IfNone result (notes seat.new ≡ notes seat.old) }
        ensures some { IfSome result (λ _. notes seat.new ≡ slice_set (notes seat.old) cell Home) }
        ensures told { told seat.new ≡ told seat.old }
        ensures job { IfSome result (λ w. get_elem? (notes seat.old) cell ≡ some (Out (W.job w))) }
        ensures ran { IfSome result (λ w. W.was_run w ≡ true) }
        ensures result { IfSome result (λ w. W.has_result w) }
    {
        self.collect_at(seat, usize::from(cell))
    }

    fn collect_at(&self, seat: &mut TaskSeat<W>, at: usize) -> Option<W>
        requires board { task_table seat.old ≡ table self.now }
        requires cell { at < cell_count self.now }
        requires out { at_home (notes seat.old) at ≡ false }
        ensures board { task_table seat.new ≡ table self.now }
        ensures found { Tried at 3 (IsSome result) (task_found seat.old) (task_found seat.new) }
        ensures none { IfNone result (notes seat.new ≡ notes seat.old) }
        ensures some { IfSome result (λ _. notes seat.new ≡ slice_set (notes seat.old) at Home) }
        ensures told { told seat.new ≡ told seat.old }
        ensures job { IfSome result (λ w. get_elem? (notes seat.old) at ≡ some (Out (W.job w))) }
        ensures ran { IfSome result (λ w. W.was_run w ≡ true) }
        ensures result { IfSome result (λ w. W.has_result w) }
    {
        let TaskSeat { seat, order, home } = seat;
        let found = self
            .table
            .shared
            .compare_exchange::<Collect<W>>(seat, at, 3, 0);
        if found != 3 {
            return None;
        }
        order.push_front_reserved(at);
        home[at] = true;
        self.table.shared.exchange(seat, at, None)
    }

    /// Makes a worker's seat, which holds nothing.
    pub fn split(&self, seat: &mut TaskSeat<W>) -> WorkSeat<W>
        requires board { task_table seat.old ≡ table self.now }
        ensures board { task_table seat.new ≡ table self.now }
        ensures notes { notes seat.new ≡ notes seat.old }
        ensures told { told seat.new ≡ told seat.old }
        ensures found { task_found seat.new ≡ task_found seat.old }
        ensures worker { work_table result ≡ table self.now }
        ensures empty { holds result ≡ None }
        ensures unused { work_found result ≡ [] }
    {
        let TaskSeat { seat, .. } = seat;
        WorkSeat {
            seat: self.table.shared.split_seat::<Hire>(seat),
            empty: true,
        }
    }

    /// Ends a worker's seat. Condition: it is empty.
    /// No more is promised of it than that the board's rule holds on, and that what the task's seat knows
    /// stays.
    pub fn join(&self, seat: &mut TaskSeat<W>, other: WorkSeat<W>)
        requires board { task_table seat.old ≡ table self.now }
        requires worker { work_table other ≡ table self.now }
        requires empty { holds other ≡ None }
        ensures board { task_table seat.new ≡ table self.now }
        ensures notes { notes seat.new ≡ notes seat.old }
        ensures told { told seat.new ≡ told seat.old }
        ensures found { task_found seat.new ≡ task_found seat.old }
    {
        let TaskSeat { seat, .. } = seat;
        let WorkSeat { seat: other, .. } = other;
        self.table.shared.join_seat::<Retire>(seat, other);
    }

    /// Tells the workers to stop: the stop word is 1 from now on. Rings the work bell, and wakes 64 times.
    pub fn stop(&self, seat: &mut TaskSeat<W>)
        requires board { task_table seat.old ≡ table self.now }
        ensures board { task_table seat.new ≡ table self.now }
        ensures notes { notes seat.new ≡ notes seat.old }
        ensures told { told seat.new ≡ true }
        ensures rang { Rang (cell_count self.now + 1) (Left (cell_count self.now) 1 ∷ task_found seat.old) (task_found seat.new) }
    {
        let TaskSeat { seat, .. } = seat;
        self.table.shared.store::<Stop<W>>(seat, self.cells, 1);
        self.ring(seat, self.cells + 1);
        for _ in 1..WAKES {
            self.table.shared.wake_one(self.cells + 1);
        }
    }

    /// Returns where it sees a cell whose work is given back, and else waits until the back bell rings. It
    /// may return without cause, and nothing is said of whether it returns.
    pub fn await_back<R: Wait>(&self, rt: &R, seat: &mut TaskSeat<W>)
        requires board { task_table seat.old ≡ table self.now }
        ensures board { task_table seat.new ≡ table self.now }
        ensures notes { notes seat.new ≡ notes seat.old }
        ensures told { told seat.new ≡ told seat.old }
        ensures looked { Looked (task_found seat.old) (task_found seat.new) }
    {
        let TaskSeat { seat, .. } = seat;
        self.wait_on(rt, seat, self.cells + 2, 3, false);
    }

    /// Gives up the board, with the work that its cells hold, whatever was posted.
    pub fn close(self, _seat: TaskSeat<W>) {
        let Board { table, cells: _ } = self;
        drop(table);
    }
}
