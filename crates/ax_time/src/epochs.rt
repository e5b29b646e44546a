//! The epochs whose final action isn't taken.
ghost use Rattle.std.specs.Prelude.{◌≡◌, ◌+◌, ◌-◌, ◌^◌, ◌<◌, ◌≤◌, length, OnOk, OnErr};
ghost use Rattle.ax_time.specs.Epochs.{Book, fresh, current_of, place_of, IsOpen, count_at, count_of, put_closed, with_count, closed_by, next_action, taken};

use crate::epoch::{Closed, Marker};
use ax_base::NoMemory;
use std::alloc::Global;
use std::collections::VecDeque;
use std::marker::Model;

/// The current epoch and those before it whose final action isn't taken, each with a count of its work, after the
/// EpochManager of Flink's FLIP-425. An epoch is ended by `close`, and its action is taken when neither it nor an earlier
/// epoch has work: so actions are taken in the order of the epochs, each once.
///
/// Epochs are numbered from 0, and behind `u64::MAX` comes 0 again. Contracts see a book: the number of the oldest epoch, the
/// closed ones from the oldest on, and the work of the current one. Each call takes constant time, `close` on the average
/// over many; it alone takes memory.
#[derive(Debug, Drop)]
pub struct Epochs {
    oldest: u64,
    closed: VecDeque<Closed>,
    count: u64,
}

impl Model for Epochs {
    ghost use Rattle.ax_time.specs.Epochs.{Book};

    ghost Value = { Book };

    ghost view = { λ e. record { oldest = e.oldest; closed = e.closed.items; count = e.count } };
}

impl Epochs {
    /// The epoch 0, without work.
    pub fn new(alloc: Global) -> Epochs
        ensures { result ≡ fresh }
    {
        Epochs {
            oldest: 0,
            closed: VecDeque::new(alloc),
            count: 0,
        }
    }

    /// The number of the current epoch.
    pub fn current(&self) -> u64
        ensures { result ≡ current_of self.now }
    {
        self.oldest.wrapping_add(self.closed.len() as u64)
    }

    /// How many closed epochs are left, whose final action isn't taken.
    pub fn pending(&self) -> u64
        ensures { result ≡ length self.now.closed }
    {
        self.closed.len() as u64
    }

    /// The work of an epoch. One whose final action was taken, and one that hasn't begun, has none.
    pub fn count(&self, epoch: u64) -> u64
        ensures { result ≡ count_of self.now epoch }
    {
        let place = self.place(epoch);
        count_in(&self.closed, self.count, place)
    }

    /// One more piece of work in an epoch.
    /// Conditions: the epoch is the current one or a closed one that is left (`current().wrapping_sub(epoch) <= pending()`),
    /// and `count(epoch)` is below `2^63`.
    pub fn enter(&mut self, epoch: u64)
        requires open { IsOpen self.old epoch }
        requires room { count_of self.old epoch < 2 ^ 63 }
        ensures { self.new ≡ with_count self.old epoch (count_of self.old epoch + 1) }
    {
        let count = self.count(epoch);
        self.set_count(epoch, count + 1);
    }

    /// One piece of work fewer in an epoch.
    /// Conditions: the epoch is the current one or a closed one that is left (`current().wrapping_sub(epoch) <= pending()`),
    /// and `count(epoch)` is above 0.
    pub fn leave(&mut self, epoch: u64)
        requires open { IsOpen self.old epoch }
        requires work { 0 < count_of self.old epoch }
        ensures { self.new ≡ with_count self.old epoch (count_of self.old epoch - 1) }
    {
        let count = self.count(epoch);
        self.set_count(epoch, count - 1);
    }

    /// Ends the current epoch with a final action, and begins the next one. After `NoMemory` nothing has changed.
    pub fn close(&mut self, m: Marker) -> Result<(), NoMemory>
        ensures ok { OnOk result (self.new ≡ closed_by m self.old) }
        ensures err { OnErr result (self.new ≡ self.old) }
    {
        let closed = Closed {
            marker: m,
            count: self.count,
        };
        let Ok(()) = self.closed.push_back(closed) else {
            return Err(NoMemory);
        };
        self.count = 0;
        Ok(())
    }

    /// Takes the final action of the oldest closed epoch. `None` exactly where no closed epoch is left, or the oldest has work;
    /// then nothing has changed.
    pub fn take_finished(&mut self) -> Option<Marker>
        ensures action { result ≡ next_action self.old.closed }
        ensures book { self.new ≡ taken self.old }
    {
        let oldest = self.closed.front()?;
        if oldest.count > 0 {
            return None;
        }
        let finished = self.closed.pop_front()?;
        self.oldest = self.oldest.wrapping_add(1);
        Some(finished.marker)
    }

    // The number of the oldest epoch.
    pub(crate) fn oldest(&self) -> u64
        ensures { result ≡ self.now.oldest }
    {
        self.oldest
    }

    // The place of an epoch, where the closed ones and the current one stand from the oldest on.
    fn place(&self, epoch: u64) -> usize
        ensures { result ≡ place_of self.now epoch }
    {
        epoch.wrapping_sub(self.oldest) as usize
    }

    // Sets the work of an epoch.
    fn set_count(&mut self, epoch: u64, count: u64)
        requires open { IsOpen self.old epoch }
        ensures { self.new ≡ with_count self.old epoch count }
    {
        let place = self.place(epoch);
        if place == self.closed.len() {
            self.count = count;
        } else {
            put_count(&mut self.closed, place, count);
        }
    }
}

// The work of the epoch at a place, the current one standing behind the closed ones.
fn count_in(closed: &VecDeque<Closed>, count: u64, place: usize) -> u64
    ensures { result ≡ count_at closed.now.items count place }
{
    match closed.get(place) {
        Some(epoch) => epoch.count,
        None if place == closed.len() => count,
        None => 0,
    }
}

// Sets the work of the closed epoch at a place.
fn put_count(closed: &mut VecDeque<Closed>, place: usize, count: u64)
    requires { place < length closed.old.items }
    ensures { closed.new.items ≡ put_closed closed.old.items place count }
{
    closed[place].count = count;
}
