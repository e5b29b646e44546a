//! Counted contexts.
ghost use Rattle.std.specs.Prelude.{◌≡◌, ◌+◌, ◌-◌, ◌<◌, ◌≤◌, ◌^◌, ℕ, Some, None, IfOk, is_some, []};
ghost use Rattle.ax_context.specs.declared.id.Id.{Id as Name};
ghost use Rattle.ax_context.specs.Slots.{Slots, ahead, at, IsLive, Has, live_count, OthersStay, IsTaken, IsFirstFree, with_payload, IsPaid};
ghost use Rattle.ax_context.specs.Released.{Answers, left, gone_count};

use crate::id::Id;
use ax_base::NoMemory;
use slab::Slab;
use std::alloc::Global;
use std::marker::Model;

/// A live context, as contracts see it.
#[derive(Drop)]
pub struct Context<T> {
    pub payload: T,
    pub epoch: u64,
    /// No other live context has this number.
    pub number: u64,
    /// How many references there are, from 1 to 17.
    pub count: u32,
}

/// What giving up a reference leads to.
#[derive(Drop)]
pub enum Released<T> {
    /// There are further references.
    Live,
    /// This was the last. The id names nothing now, and this is what its context had.
    Gone { payload: T, epoch: u64, number: u64 },
}

/// The contexts of the records in flight: each has a payload, an epoch, a number and a count of
/// references (Flink's `RecordContext` and its reference count). Contracts see the context of each
/// slot, the limit, and the number from which the next one is looked for.
///
/// Each call takes constant time, but for those that `make` names. No call but `with_limit` takes
/// memory.
#[derive(Drop)]
pub struct Contexts<T> {
    pub(crate) table: Slab<Context<T>>,
    pub(crate) limit: u32,
    // The number from which the next one is looked for.
    pub(crate) next: u64,
    // So many numbers from `next` on are known to be free.
    pub(crate) spare: u64,
}

impl<T> Model for Contexts<T> {
    ghost use Rattle.ax_context.specs.Slots.{Slots, slots_code};
    ghost use Rattle.ax_context.specs.Sound.{IsSound};

    ghost Value = { Slots T };

    ghost coded = { slots_code T.code };

    ghost view = { λ a. record { slots = a.table.slots; limit = a.limit; next = a.next } };

    ghost invariant = { λ a. IsSound (record { slots = a.table.slots; limit = a.limit; next = a.next }) a.table.capacity a.spare };
}

impl<T: Drop> Contexts<T> {
    ghost use Rattle.std.specs.Borrow.{sem};
    ghost use Rattle.ax_context.specs.Lends.{lends_payload};

    /// No contexts yet, and room for `n`. The first one gets the number 1. The only fault is
    /// `NoMemory`.
    pub fn with_limit(alloc: Global, n: u32) -> Result<Contexts<T>, NoMemory>
        ensures { IfOk result (λ contexts. contexts ≡ record { slots = []; limit = n; next = 1 }) }
    {
        match Slab::with_capacity(alloc, n as usize) {
            Ok(table) => Ok(Contexts {
                table,
                limit: n,
                next: 1,
                spare: u64::MAX,
            }),
            Err(_) => Err(NoMemory),
        }
    }

    /// A new context with one reference. Its number is the next that no live context has; numbers
    /// count from 1, and 0 follows `2^64 - 1`. Condition: `len() < limit()`.
    ///
    /// It looks at no other context as long as the next number is known to be free: for the first
    /// `2^64 - 1` calls, and then until the numbers come to that of a context that is still live.
    /// There it goes over all slots, once for each number up to the next free one, and knows how many
    /// numbers behind that one are free.
    pub fn make(&mut self, payload: T, epoch: u64) -> Id
        requires { live_count self.old < self.old.limit }
        ensures free { at self.old result ≡ None }
        ensures made { Has self.new result (λ c. c ≡ record { payload = payload; epoch = epoch; number = c.number; count = 1 }) }
        ensures number { Has self.new result (λ c. IsFirstFree self.old c.number) }
        ensures next { Has self.new result (λ c. self.new.next ≡ ahead c.number 1) }
        ensures others { OthersStay self.old self.new result }
        ensures len { live_count self.new ≡ live_count self.old + 1 }
        ensures limit { self.new.limit ≡ self.old.limit }
    {
        let found = self.first_free();
        let slot = self.table.insert_reserved(Context {
            payload,
            epoch,
            number: found.number,
            count: 1,
        });
        self.next = found.number.wrapping_add(1);
        self.spare = found.spare - 1;
        Id { slot }
    }

    /// Whether the id names a context.
    pub fn is_live(&self, id: Id) -> bool
        ensures { result ≡ is_some (at self.now id) }
    {
        self.table.contains(id.slot)
    }

    /// One reference more. Conditions: `is_live(id)`, and `count(id)` is below 17.
    pub fn retain(&mut self, id: Id)
        requires live { IsLive self.old id }
        requires few { Has self.old id (λ c. c.count < 17) }
        ensures counted { Has self.old id (λ c. at self.new id ≡ Some (record c { count = c.count + 1 })) }
        ensures others { OthersStay self.old self.new id }
        ensures len { live_count self.new ≡ live_count self.old }
        ensures limit { self.new.limit ≡ self.old.limit }
        ensures next { self.new.next ≡ self.old.next }
    {
        let context = &mut self.table[id.slot];
        context.count += 1;
    }

    /// One reference less, where there are others. Conditions: `is_live(id)`, and `count(id)` is above 1.
    pub fn release_one(&mut self, id: Id)
        requires live { IsLive self.old id }
        requires more { Has self.old id (λ c. 1 < c.count) }
        ensures counted { Has self.old id (λ c. at self.new id ≡ Some (record c { count = c.count - 1 })) }
        ensures others { OthersStay self.old self.new id }
        ensures len { live_count self.new ≡ live_count self.old }
        ensures limit { self.new.limit ≡ self.old.limit }
        ensures next { self.new.next ≡ self.old.next }
    {
        let context = &mut self.table[id.slot];
        context.count -= 1;
    }

    /// One reference less. `Gone` comes exactly where this was the last: the context is given up, and
    /// its slot is free. Condition: `is_live(id)`.
    pub fn release(&mut self, id: Id) -> Released<T>
        requires { IsLive self.old id }
        ensures answer { Has self.old id (λ c. Answers c result) }
        ensures counted { Has self.old id (λ c. at self.new id ≡ left c result) }
        ensures others { OthersStay self.old self.new id }
        ensures len { live_count self.new + gone_count result ≡ live_count self.old }
        ensures limit { self.new.limit ≡ self.old.limit }
        ensures next { self.new.next ≡ self.old.next }
    {
        if self.count(id) > 1 {
            self.table[id.slot].count -= 1;
            return Released::Live;
        }
        let gone = self.table.remove(id.slot);
        Released::Gone {
            payload: gone.payload,
            epoch: gone.epoch,
            number: gone.number,
        }
    }

    /// The payload. Condition: `is_live(id)`.
    pub fn get(&self, id: Id) -> &T
        requires { IsLive self.now id }
        ensures { Has self.now id (λ c. result.now ≡ c.payload) }
    {
        &self.table[id.slot].payload
    }

    /// The payload, to be changed. All else stays as it is. Condition: `is_live(id)`.
    pub fn get_mut(&mut self, id: Id) -> &mut T
        requires { IsLive self.old id }
        ensures* lends { sem 𝓛 (lends_payload T.row self.entry id result) }
        ensures value { Has self.old id (λ c. result.now ≡ c.payload) }
        ensures after { (payload : T) → IsPaid self.old (with_payload self.old id payload) id payload }
    {
        let context = &mut self.table[id.slot];
        &mut context.payload
    }

    /// How many references there are. Condition: `is_live(id)`.
    pub fn count(&self, id: Id) -> u32
        requires { IsLive self.now id }
        ensures value { Has self.now id (λ c. result ≡ c.count) }
        ensures range { (1 ≤ result) × (result ≤ 17) }
    {
        self.table[id.slot].count
    }

    /// The number of the context, which no other live context has. Condition: `is_live(id)`.
    pub fn number(&self, id: Id) -> u64
        requires { IsLive self.now id }
        ensures value { Has self.now id (λ c. result ≡ c.number) }
        ensures own { (other : Name) → Has self.now other (λ c. c.number ≡ result) → other ≡ id }
    {
        self.table[id.slot].number
    }

    /// How many contexts are live.
    pub fn len(&self) -> u32
        ensures value { result ≡ live_count self.now }
        ensures within { result ≤ self.now.limit }
    {
        self.table.len() as u32
    }

    /// How many contexts may be live at once: the `n` of `with_limit`.
    pub fn limit(&self) -> u32
        ensures { result ≡ self.now.limit }
    {
        self.limit
    }

    // The first free number from the next on, and how many numbers from it on are known to be free.
    fn first_free(&self) -> Found
        requires { live_count self.now < self.now.limit }
        ensures number { IsFirstFree self.now result.number }
        ensures spare { 1 ≤ result.spare }
        ensures spared { (k : ℕ) → k < result.spare → IsTaken self.now (ahead result.number k) → ⊥ }
    {
        if self.spare > 0 {
            return Found {
                number: self.next,
                spare: self.spare,
            };
        }
        self.look_from(self.next)
    }

    // The same by a look at the live contexts, once for each number up to the first free one.
    fn look_from(&self, next: u64) -> Found
        requires next { next ≡ self.now.next }
        requires few { live_count self.now < 2 ^ 32 }
        ensures number { IsFirstFree self.now result.number }
        ensures spare { 1 ≤ result.spare }
        ensures spared { (k : ℕ) → k < result.spare → IsTaken self.now (ahead result.number k) → ⊥ }
    {
        let mut steps: u64 = 0;
        loop {
            let number = next.wrapping_add(steps);
            let spare = self.gap(number);
            if spare > 0 {
                return Found { number, spare };
            }
            steps += 1;
        }
    }

    // How many numbers from this one on are free.
    fn gap(&self, number: u64) -> u64
        ensures free { (k : ℕ) → k < result → IsTaken self.now (ahead number k) → ⊥ }
        ensures taken { result ≡ 0 → IsTaken self.now number }
    {
        let mut free = u64::MAX;
        for slot in 0..self.table.capacity() {
            if let Some(context) = self.table.get(slot) {
                free = free.min(steps_between(number, context.number));
            }
        }
        free
    }
}

// A free number, and how many numbers from it on are known to be free.
#[derive(Drop)]
struct Found {
    number: u64,
    spare: u64,
}

// How many steps ahead of the first number the second is.
fn steps_between(from: u64, to: u64) -> u64
    ensures { ahead from result ≡ to }
{
    to.wrapping_sub(from)
}
