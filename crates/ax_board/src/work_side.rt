// The calls of a worker.
ghost use Rattle.std.specs.Prelude.{◌≡◌, ℕ, ◌+◌, ◌<◌, true, false, IfSome, IfNone, IsSome, IsTrue, ◌↔◌, ◌∷◌, Some, None};
ghost use Rattle.ax_board.specs.Seats.{one_if};
ghost use Rattle.ax_board.specs.Trail.{Rang, Tried, Looked};
ghost use Rattle.ax_board.specs.declared.view.Deed.TheVariants.{Found, Left};
ghost use Rattle.ax_board.specs.Words.{table, cell_count, work_of, cell_of, is_run, work_table, holds, work_found};

use crate::board::Board;
use crate::held::Held;
use crate::plays::{Claim, GiveBack, Hear};
use crate::seats::WorkSeat;
use crate::work::Work;
use std::sync::Wait;

impl<W: Work> WorkSeat<W> {
    /// The seat holds no work.
    pub fn is_empty(&self) -> bool
        ensures { IsTrue result ↔ (holds self.now ≡ None) }
    {
        self.empty
    }
}

impl<W: Work> Held<W> {
    /// The cell to which the work was posted.
    pub fn cell(&self) -> u16
        ensures { result ≡ cell_of self.now }
    {
        self.cell
    }

    /// The work.
    pub fn work(&self) -> &W
        ensures { result.now ≡ work_of self.entry.now }
    {
        &self.work
    }

    /// The work was run.
    pub fn is_run(&self) -> bool
        ensures held { result ≡ is_run self.now }
        ensures work { result ≡ W.was_run (work_of self.now) }
    {
        self.is_run
    }

    /// Runs the work. Condition: not `is_run()`. It takes the memory that the work's own `run` takes.
    pub fn run(&mut self)
        requires { is_run self.old ≡ false }
        ensures ran { is_run self.new ≡ true }
        ensures cell { cell_of self.new ≡ cell_of self.old }
        ensures job { W.job (work_of self.new) ≡ W.job (work_of self.old) }
        ensures result { W.has_result (work_of self.new) }
    {
        self.work.run();
        self.is_run = true;
    }
}

impl<W: Work> Board<W> {
    /// The number of cells, from 1 to 64.
    pub fn cells(&self) -> u16
        ensures { result ≡ cell_count self.now }
    {
        self.cells as u16
    }

    /// Claims the work that is posted at a cell. Condition: the seat is empty. `None` exactly where this
    /// call's exchange found the cell's word not at 1. That no other worker holds the work is the law
    /// `one_worker_holds`.
    pub fn claim(&self, seat: &mut WorkSeat<W>, cell: u16) -> Option<Held<W>>
        requires board { work_table seat.old ≡ table self.now }
        requires cell { cell < cell_count self.now }
        requires empty { holds seat.old ≡ None }
        ensures board { work_table seat.new ≡ table self.now }
        ensures found { Tried cell 1 (IsSome result) (work_found seat.old) (work_found seat.new) }
        ensures none { IfNone result (holds seat.new ≡ None) }
        ensures some { IfSome result (λ h. holds seat.new ≡ Some (cell, W.job (work_of h))) }
        ensures cell { IfSome result (λ h. cell_of h ≡ cell) }
        ensures fresh { IfSome result (λ h. is_run h ≡ false) }
    {
        let work = self.claim_at(seat, usize::from(cell))?;
        let is_run = false;
        Some(Held { work, cell, is_run })
    }

    fn claim_at(&self, seat: &mut WorkSeat<W>, at: usize) -> Option<W>
        requires board { work_table seat.old ≡ table self.now }
        requires cell { at < cell_count self.now }
        requires empty { holds seat.old ≡ None }
        ensures board { work_table seat.new ≡ table self.now }
        ensures found { Tried at 1 (IsSome result) (work_found seat.old) (work_found seat.new) }
        ensures none { IfNone result (holds seat.new ≡ None) }
        ensures some { IfSome result (λ w. holds seat.new ≡ Some (at, W.job w)) }
        ensures fresh { IfSome result (λ w. W.was_run w ≡ false) }
    {
        let WorkSeat { seat, empty } = seat;
        let found = self
            .table
            .shared
            .compare_exchange::<Claim<W>>(seat, at, 1, 2);
        if found != 1 {
            return None;
        }
        *empty = false;
        self.table.shared.exchange(seat, at, None)
    }

    /// Gives work back at its cell, and then rings the back bell. Conditions: it was run, and this is the seat
    /// that claimed it. Then the seat is empty.
    pub fn give_back(&self, seat: &mut WorkSeat<W>, held: Held<W>)
        requires board { work_table seat.old ≡ table self.now }
        requires cell { cell_of held < cell_count self.now }
        requires ran { is_run held ≡ true }
        requires same { holds seat.old ≡ Some (cell_of held, W.job (work_of held)) }
        ensures board { work_table seat.new ≡ table self.now }
        ensures empty { holds seat.new ≡ None }
        ensures rang { Rang (cell_count self.now + 2) (Left (cell_of held) 3 ∷ work_found seat.old) (work_found seat.new) }
    {
        let Held {
            work,
            cell,
            is_run: _,
        } = held;
        self.give_at(seat, usize::from(cell), work);
        self.ring(&mut seat.seat, self.cells + 2);
    }

    fn give_at(&self, seat: &mut WorkSeat<W>, at: usize, work: W)
        requires board { work_table seat.old ≡ table self.now }
        requires cell { at < cell_count self.now }
        requires ran { W.was_run work ≡ true }
        requires same { holds seat.old ≡ Some (at, W.job work) }
        ensures board { work_table seat.new ≡ table self.now }
        ensures empty { holds seat.new ≡ None }
        ensures found { work_found seat.new ≡ Left at 3 ∷ work_found seat.old }
    {
        let WorkSeat { seat, empty } = seat;
        drop(self.table.shared.exchange(seat, at, Some(work)));
        self.table.shared.store::<GiveBack<W>>(seat, at, 3);
        *empty = true;
    }

    /// Whether the stop word is set. True exactly where this call's load found the stop word at 1, and false
    /// exactly where it found 0.
    pub fn stopped(&self, seat: &mut WorkSeat<W>) -> bool
        requires board { work_table seat.old ≡ table self.now }
        ensures board { work_table seat.new ≡ table self.now }
        ensures same { holds seat.new ≡ holds seat.old }
        ensures found { work_found seat.new ≡ Found (cell_count self.now) (one_if result) ∷ work_found seat.old }
    {
        let WorkSeat { seat, .. } = seat;
        self.table.shared.load::<Hear<W>>(seat, self.cells) == 1
    }

    /// Returns where it sees posted work or a stop, and else waits until the work bell rings. It may
    /// return without cause, and nothing is said of whether it returns.
    pub fn rest<R: Wait>(&self, rt: &R, seat: &mut WorkSeat<W>)
        requires board { work_table seat.old ≡ table self.now }
        ensures board { work_table seat.new ≡ table self.now }
        ensures same { holds seat.new ≡ holds seat.old }
        ensures looked { Looked (work_found seat.old) (work_found seat.new) }
    {
        let WorkSeat { seat, .. } = seat;
        self.wait_on(rt, seat, self.cells + 1, 1, true);
    }
}
