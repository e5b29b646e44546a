//! Runs of a board, in one thread and in three.
ghost use Rattle.std.specs.Prelude.{◌≡◌, ◌+◌, ◌%◌, ◌^◌, ◌<◌, ◌≤◌, ℕ, Bool, true, false, None};
ghost use Rattle.ax_board.specs.Words.{table, task_table, work_table, holds};

use crate::{Board, TaskSeat, Work, WorkSeat};
use std::alloc::Global;
use std::sync::Wait;
use std::test::Fail;
use std::thread;
use std::thread::Threads;

// A number, and the next one once the work was run.
#[derive(Drop)]
struct Next {
    from: u64,
    to: u64,
    ran: bool,
    ghost result: { ran ≡ true → to ≡ (from + 1) % 2 ^ 64 },
}

impl Work for Next {
    type Job = u64;

    ghost job = { λ w. w.from };

    ghost was_run = { λ w. w.ran };

    ghost has_result = { λ w. w.to ≡ (w.from + 1) % 2 ^ 64 };

    fn run(&mut self) {
        self.to = self.from.wrapping_add(1);
        self.ran = true;
    }

    ghost keeps_result = { λ w e. w.result e };
}

fn next_of(from: u64) -> Next
    ensures { result.ran ≡ false }
{
    let to = 0;
    let ran = false;
    Next { from, to, ran }
}

#[test]
fn one_cell(rt: HostRuntime) -> Result<(), Fail> {
    let (board, mut task) = Board::new(rt.alloc(), 1)?;
    let mut one = board.split(&mut task);
    let mut two = board.split(&mut task);
    assert!(rt; board.is_home(&task, 0) && one.is_empty());
    board.post(&mut task, 0, next_of(5));
    let held = board.claim(&mut one, 0);
    assert!(rt; board.claim(&mut two, 0).is_none());
    assert!(rt; board.collect(&mut task, 0).is_none());
    let mut given = false;
    if let Some(mut held) = held {
        assert!(rt; !held.is_run() && held.cell() == 0 && held.work().from == 5);
        held.run();
        board.give_back(&mut one, held);
        given = true;
    }
    assert!(rt; given && one.is_empty() && !board.is_home(&task, 0));
    let mut to = 0;
    if let Some(work) = board.collect(&mut task, 0) {
        to = work.to;
    }
    assert!(rt; to == 6 && board.is_home(&task, 0));
    board.join(&mut task, one);
    board.close(task);
    Ok(())
}

// A stop is seen while one work is claimed and another is posted, and both are given up with the board.
#[test]
fn stop_while_work_is_out(rt: HostRuntime) -> Result<(), Fail> {
    let (board, mut task) = Board::new(rt.alloc(), 2)?;
    let mut seat = board.split(&mut task);
    board.post(&mut task, 0, next_of(1));
    board.post(&mut task, 1, next_of(2));
    let held = board.claim(&mut seat, 1);
    assert!(rt; held.is_some() && !board.stopped(&mut seat));
    board.stop(&mut task);
    assert!(rt; board.stopped(&mut seat));
    board.rest(&rt, &mut seat);
    assert!(rt; board.collect(&mut task, 1).is_none());
    drop(held);
    board.close(task);
    Ok(())
}

// Claims each cell once, runs what it gets and gives it back, and tells whether it got something.
fn serve_once(board: &Board<Next>, seat: &mut WorkSeat<Next>) -> bool
    requires board { work_table seat.old ≡ table board.now }
    requires empty { holds seat.old ≡ None }
    ensures board { work_table seat.new ≡ table board.now }
    ensures empty { holds seat.new ≡ None }
{
    let mut any = false;
    for cell in 0..board.cells() {
        if let Some(mut held) = board.claim(seat, cell) {
            held.run();
            board.give_back(seat, held);
            any = true;
        }
    }
    any
}

// Serves until it is told to stop.
fn serve<R: Wait>(rt: &R, board: &Board<Next>, mut seat: WorkSeat<Next>)
    requires board { work_table seat ≡ table board.now }
    requires empty { holds seat ≡ None }
{
    for _ in rt.forever() {
        if !serve_once(board, &mut seat) {
            if board.stopped(&mut seat) {
                break;
            }
            board.rest(rt, &mut seat);
        }
    }
}

// Collects at each cell that is out, posts the next number where one is home, and counts what came back.
fn hand_over_once(
    board: &Board<Next>,
    task: &mut TaskSeat<Next>,
    posted: &mut u64,
    times: &mut [u8],
) -> usize
    requires board { task_table task.old ≡ table board.now }
    ensures board { task_table task.new ≡ table board.now }
{
    let mut came: usize = 0;
    for cell in 0..board.cells() {
        if !board.is_home(task, cell)
            && let Some(work) = board.collect(task, cell)
        {
            came = came.saturating_add(1);
            if let Some(count) = times.get_mut(work.to.saturating_sub(1) as usize) {
                *count = count.saturating_add(1);
            }
        }
        if board.is_home(task, cell) && *posted < times.len() as u64 {
            board.post(task, cell, next_of(*posted));
            *posted = posted.saturating_add(1);
        }
    }
    came
}

// Hands each number below the length over once, and then stops the workers.
fn hand_over<R: Wait>(rt: &R, board: &Board<Next>, mut task: TaskSeat<Next>, times: &mut [u8])
    requires board { task_table task ≡ table board.now }
{
    let mut posted = 0;
    let mut collected: usize = 0;
    for _ in rt.forever() {
        let came = hand_over_once(board, &mut task, &mut posted, times);
        collected = collected.saturating_add(came);
        if collected >= times.len() {
            break;
        }
        if came == 0 {
            board.await_back(rt, &mut task);
        }
    }
    board.stop(&mut task);
}

// How often each of so many numbers comes back through four cells and two workers.
fn counts<R: Threads + Wait + Sync>(rt: &R, alloc: Global, many: usize) -> Result<Vec<u8>, Fail> {
    let mut times = Vec::from_elem(alloc, 0, many)?;
    let (made, mut task) = Board::new(alloc, 4)?;
    let one = made.split(&mut task);
    let two = made.split(&mut task);
    let board = &made;
    let (times, ((), ())) = thread::join(
        rt,
        move || -> Vec<u8>
            requires { task_table task ≡ table board.now }
        {
            hand_over(rt, board, task, times.as_mut_slice());
            times
        },
        move ||
            requires { (work_table one ≡ table board.now) × (holds one ≡ None) × (work_table two ≡ table board.now) × (holds two ≡ None) }
        { serve_both(rt, board, one, two) },
    );
    Ok(times)
}

fn serve_both<R: Threads + Wait + Sync>(
    rt: &R,
    board: &Board<Next>,
    one: WorkSeat<Next>,
    two: WorkSeat<Next>,
) -> ((), ())
    requires one { (work_table one ≡ table board.now) × (holds one ≡ None) }
    requires two { (work_table two ≡ table board.now) × (holds two ≡ None) }
{
    thread::join(
        rt,
        move ||
            requires { (work_table one ≡ table board.now) × (holds one ≡ None) }
        { serve(rt, board, one) },
        move ||
            requires { (work_table two ≡ table board.now) × (holds two ≡ None) }
        { serve(rt, board, two) },
    )
}

#[test]
fn each_of_many_comes_back_once(rt: HostRuntime) -> Result<(), Fail> {
    let times = counts(&rt, rt.alloc(), 10_000)?;
    let mut once: usize = 0;
    for count in times.as_slice() {
        if *count == 1 {
            once = once.saturating_add(1);
        }
    }
    assert_eq!(rt; once, 10_000);
    Ok(())
}
