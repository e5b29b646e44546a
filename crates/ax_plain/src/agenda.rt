//! The agenda of a watermark.
ghost use Rattle.std.specs.Prelude.{◌≡◌, ◌<◌, ◌≤◌, ◌+◌, ℕ, ℤ, List, IfOk, OnOk, OnErr, IfNone, IfSome};
ghost use Rattle.ax_machine.specs.Firings.{most_firings};
ghost use Rattle.ax_time.specs.Timers.{times_of};
ghost use Rattle.ax_plain.specs.Agenda.{firings_left, IsFirstDue, Lists, NoneFires, Puts, without};

use ax_base::NoMemory;
use ax_keys::{Key, MOST_FIRINGS};
use ax_time::Timers;
use std::alloc::Global;
use std::collections::BTreeMap;
use std::marker::Model;

/// A timer that is due, and its key. Ordered by time, and then by the key's bytes.
#[derive(Debug, Drop, PartialEq, Eq, PartialOrd, Ord)]
pub struct Due {
    pub time: i64,
    pub key: Key,
}

/// The first timer of each key that may fire at a watermark, with the firings left of the key.
///
/// A firing changes the timers of its own key alone, so the loop that fires them takes one key off and puts it back.
/// Each call but `begin` takes logarithmic time.
#[derive(Debug, Drop)]
pub struct Agenda {
    entries: BTreeMap<Due, u32>,
}

impl Model for Agenda {
    ghost use Rattle.std.specs.Prelude.{ℕ, List};
    ghost use Rattle.ax_plain.specs.declared.agenda.Due.{Due};

    ghost Value = { List (Due × ℕ) };

    ghost use Rattle.ax_plain.specs.Agenda.{HasSome};

    ghost view = { λ a. a.entries.entries };

    ghost invariant = { λ a. HasSome a.entries.entries };
}

impl Agenda {
    /// The agenda as a watermark comes: each key with a timer at or below it may fire 65,536 times. Takes time by the timers that
    /// are due.
    pub fn begin(alloc: Global, timers: &Timers, w: i64) -> Result<Agenda, NoMemory>
        ensures { IfOk result (Lists w (λ k. most_firings) (times_of timers.now)) }
    {
        let keys = timers.due_keys(alloc, w)?;
        let mut agenda = Agenda {
            entries: BTreeMap::new(alloc),
        };
        for key in keys.into_vec() {
            let least = timers.least_of(&key);
            agenda.put(key, least, MOST_FIRINGS, w)?;
        }
        Ok(agenda)
    }

    /// Takes off the first timer, and gives it with the firings left of its key. `None` exactly where no key may fire.
    pub fn pop(&mut self) -> Option<(Due, u32)>
        ensures none { IfNone result ((w : ℤ) (more : List ℕ → ℕ) (times : List ℕ → List ℤ) → Lists w more times self.old → NoneFires w more times) }
        ensures next { IfSome result (λ r. (w : ℤ) (more : List ℕ → ℕ) (times : List ℕ → List ℤ) → Lists w more times self.old → IsFirstDue w more times r.0 r.1) }
        ensures rest { IfSome result (λ r. (w : ℤ) (more : List ℕ → ℕ) (times : List ℕ → List ℤ) → Lists w more times self.old → Lists w (without r.0.key more) times self.new) }
        ensures some { IfSome result (λ r. 0 < r.1) }
        ensures count { IfSome result (λ r. firings_left self.new + r.1 ≡ firings_left self.old) }
        ensures same { IfNone result (self.new ≡ self.old) }
    {
        self.entries.pop_first()
    }

    /// Puts a key on the agenda that isn't there, where firings are left of it and the first of its timers is due. After
    /// `NoMemory` nothing has changed.
    pub fn put(&mut self, key: Key, least: Option<i64>, left: u32, w: i64) -> Result<(), NoMemory>
        ensures ok { OnOk result (Puts w key least left self.old self.new) }
        ensures count { OnOk result (firings_left self.new ≤ firings_left self.old + left) }
        ensures err { OnErr result (self.new ≡ self.old) }
    {
        let Some(time) = least else {
            return Ok(());
        };
        if left == 0 || time > w {
            return Ok(());
        }
        match self.entries.insert(Due { time, key }, left) {
            Ok(_) => Ok(()),
            Err(_) => Err(NoMemory),
        }
    }
}
