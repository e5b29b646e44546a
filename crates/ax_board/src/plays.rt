// The rule of the board's table, and what each of its ten kinds of step tells its caller.
ghost use Rattle.std.specs.Prelude.{ℕ, false, replicate, None, []};
ghost use Rattle.ax_board.specs.Rule.{Ruled};
ghost use Rattle.ax_board.specs.Trail.{Bare, adds, finds, leaves};
ghost use Rattle.ax_board.specs.Plays.{opened, posted, claimed, given_back, collected, looked, heard, stop_told};
ghost use Rattle.ax_board.specs.declared.view.View.TheVariants.{Task, Worker, Spent};
ghost use Rattle.ax_board.specs.declared.view.Note.TheVariants.{Closed};

use crate::view::Known;
use crate::work::Work;
use atomic_table::{Join, Play, Split, TableRule};
use std::marker::PhantomData;

/// The rule. The key is the number of cells, and the first seat is the task's, with each cell closed.
pub struct BoardRule<W> {
    of: PhantomData<W>,
}

impl<W: Work> TableRule<Option<W>, Known<W::Job>, usize> for BoardRule<W> {
    ghost holds = { λ n. Bare (Ruled W.job W.was_run W.has_result n) };

    ghost first = { λ n. (Task (replicate n Closed) false, []) };
}

/// The task takes the slot of a cell.
pub struct Open<W>(PhantomData<W>);

impl<W: Work> Play<Option<W>, Known<W::Job>> for Open<W> {
    ghost then = { finds opened };
}

/// The word goes from 0 to 1.
pub struct Post<W>(PhantomData<W>);

impl<W: Work> Play<Option<W>, Known<W::Job>> for Post<W> {
    ghost then = { leaves (posted W.job) };
}

/// The word goes from 1 to 2, or was another.
pub struct Claim<W>(PhantomData<W>);

impl<W: Work> Play<Option<W>, Known<W::Job>> for Claim<W> {
    ghost then = { finds (claimed W.job W.was_run) };
}

/// The word goes from 2 to 3.
pub struct GiveBack<W>(PhantomData<W>);

impl<W: Work> Play<Option<W>, Known<W::Job>> for GiveBack<W> {
    ghost then = { leaves given_back };
}

/// The word goes from 3 to 0, or was another.
pub struct Collect<W>(PhantomData<W>);

impl<W: Work> Play<Option<W>, Known<W::Job>> for Collect<W> {
    ghost then = { finds (collected W.job W.was_run W.has_result) };
}

/// A load of any word.
pub struct Look<W>(PhantomData<W>);

impl<W: Work> Play<Option<W>, Known<W::Job>> for Look<W> {
    ghost then = { finds looked };
}

/// A load of the stop word.
pub struct Hear<W>(PhantomData<W>);

impl<W: Work> Play<Option<W>, Known<W::Job>> for Hear<W> {
    ghost then = { finds heard };
}

/// A bell rises by one.
pub struct Ring<W>(PhantomData<W>);

impl<W: Work> Play<Option<W>, Known<W::Job>> for Ring<W> {
    ghost then = { adds looked };
}

/// The task tells stop: the stop word becomes 1.
pub struct Stop<W>(PhantomData<W>);

impl<W: Work> Play<Option<W>, Known<W::Job>> for Stop<W> {
    ghost then = { leaves stop_told };
}

/// The task's seat makes the seat of a worker.
pub struct Hire;

impl<J> Split<Known<J>> for Hire {
    ghost left = { λ v. v };

    ghost right = { λ v. (Worker None, []) };
}

/// The seat of a worker is spent into the task's.
pub struct Retire;

impl<J> Join<Known<J>> for Retire {
    ghost both = { λ v w. v };

    ghost spent = { (Spent, []) };
}
