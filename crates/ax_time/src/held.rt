// What is held of one key that ever had a timer, and how it changes together with the timers of all keys by time.
ghost use Rattle.std.specs.Prelude.{◌≡◌, true, false, OnOk, OnErr, IfNone, IfSome};
ghost use Rattle.std.specs.BTreeMap.{is_at};
ghost use Rattle.std.specs.BTreeSet.{insert_key, contains};
ghost use Rattle.std.specs.BTreeSet as sorted;
ghost use Rattle.std.specs.Set.{remove_key};
ghost use Rattle.std.specs.Ordering.{int_cmp};
ghost use Rattle.ax_text.specs.Times.{least_time, later_times};
ghost use Rattle.ax_time.specs.Held.{Due, due_order, Makes, MakesTime};

use ax_base::NoMemory;
use std::collections::BTreeSet;

/// The number and the times of one key. A key keeps its number also while it has no timer.
#[derive(Debug, Drop)]
pub struct Held {
    pub number: usize,
    pub times: BTreeSet<i64>,
}

/// The timers of all keys, by time: each is the time and the number of its key.
pub type ByTime = BTreeSet<(i64, usize)>;

// Sets a timer. After an error nothing has changed.
pub fn put(by_time: &mut ByTime, held: &mut Held, time: &i64) -> Result<(), NoMemory>
    requires rising { sorted.IsOrdered int_cmp held.old.times }
    requires same { contains due_order by_time.old (time.now, held.old.number) ≡ contains int_cmp held.old.times time.now }
    ensures number { held.new.number ≡ held.old.number }
    ensures rising { sorted.IsOrdered int_cmp held.new.times }
    ensures ok { OnOk result (held.new.times.keys ≡ insert_key int_cmp held.old.times.keys time.now) }
    ensures has { OnOk result (MakesTime true time.now held.old.times held.new.times) }
    ensures due { OnOk result (Makes true time.now held.old.number by_time.old by_time.new) }
    ensures err { OnErr result (held.new ≡ held.old) }
    ensures undue { OnErr result ((q : Due) → contains due_order by_time.new q ≡ contains due_order by_time.old q) }
{
    let number = held.number;
    let Ok(is_new) = by_time.insert((*time, number)) else {
        return Err(NoMemory);
    };
    if !is_new {
        return Ok(());
    }
    let Err(_) = held.times.insert(*time) else {
        return Ok(());
    };
    by_time.remove(&(*time, number));
    Err(NoMemory)
}

// Takes a timer off. Where the key has none at the time, the timers by time are not looked at.
pub fn cut(by_time: &mut ByTime, held: &mut Held, time: &i64)
    requires same { contains due_order by_time.old (time.now, held.old.number) ≡ contains int_cmp held.old.times time.now }
    ensures number { held.new.number ≡ held.old.number }
    ensures rising { sorted.IsOrdered int_cmp held.new.times }
    ensures times { held.new.times.keys ≡ remove_key (is_at (int_cmp time.now)) held.old.times.keys }
    ensures has { MakesTime false time.now held.old.times held.new.times }
    ensures due { Makes false time.now held.old.number by_time.old by_time.new }
{
    if held.times.remove(time) {
        by_time.remove(&(*time, held.number));
    }
}

// Takes the first timer off.
pub fn cut_first(by_time: &mut ByTime, held: &mut Held) -> Option<i64>
    ensures number { held.new.number ≡ held.old.number }
    ensures rising { sorted.IsOrdered int_cmp held.new.times }
    ensures least { result ≡ least_time held.old.times.keys }
    ensures times { held.new.times.keys ≡ later_times held.old.times.keys }
    ensures none { IfNone result ((held.new ≡ held.old) × (by_time.new ≡ by_time.old)) }
    ensures has { IfSome result (λ t. MakesTime false t held.old.times held.new.times) }
    ensures due { IfSome result (λ t. Makes false t held.old.number by_time.old by_time.new) }
{
    let time = held.times.pop_first()?;
    by_time.remove(&(time, held.number));
    Some(time)
}
