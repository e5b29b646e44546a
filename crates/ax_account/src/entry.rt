//! What is kept of one key.
ghost use Rattle.std.specs.Prelude.{◌≡◌, [], ◌∷◌, true, IfOk, OnOk, OnErr};
ghost use Rattle.ax_account.specs.Parts.{free, next_of, taken_up, waits, owned, fired_by, may_fire, mark_ended, fired_once};

use crate::part::{Next, Waiting};
use ax_base::NoMemory;
use ax_context::Id;
use std::alloc::Global;
use std::collections::VecDeque;
use std::marker::Model;

/// What is kept of one key: its owner, and what waits for it, the oldest first.
#[derive(Drop)]
pub struct Entry {
    owner: Option<Id>,
    waiting: VecDeque<Waiting>,
}

impl Model for Entry {
    ghost use Rattle.ax_account.specs.Parts.{Part};

    ghost Value = { Part };

    ghost view = { λ e. record { owner = e.owner; waiting = e.waiting.items } };
}

// Counts one more firing of a mark.
fn raise(item: &mut Waiting)
    requires { may_fire (next_of (item.old ∷ [])) ≡ true }
    ensures { item.new ∷ [] ≡ fired_once (item.old ∷ []) }
{
    if let Waiting::Mark { fired, .. } = item {
        *fired += 1;
    }
}

impl Entry {
    // The key of a row for which nothing waits.
    pub(crate) fn owned(alloc: Global, id: Id) -> Entry
        ensures { result ≡ owned id }
    {
        Entry {
            owner: Some(id),
            waiting: VecDeque::new(alloc),
        }
    }

    // A key with no owner for which one item waits.
    pub(crate) fn waited(alloc: Global, item: Waiting) -> Result<Entry, NoMemory>
        ensures { IfOk result (λ e. e ≡ waits item free) }
    {
        let mut entry = Entry {
            owner: None,
            waiting: VecDeque::new(alloc),
        };
        entry.push(item)?;
        Ok(entry)
    }

    // Puts an item last.
    pub(crate) fn push(&mut self, item: Waiting) -> Result<(), NoMemory>
        ensures ok { OnOk result (self.new ≡ waits item self.old) }
        ensures err { OnErr result (self.new ≡ self.old) }
    {
        match self.waiting.push_back(item) {
            Ok(()) => Ok(()),
            Err(_) => Err(NoMemory),
        }
    }

    // The owner, and `None` exactly where there is none.
    pub(crate) fn owner(&self) -> Option<Id>
        ensures { result ≡ self.now.owner }
    {
        self.owner
    }

    // The item in front.
    pub(crate) fn front(&self) -> Next
        ensures { result ≡ next_of self.now.waiting }
    {
        match self.waiting.front() {
            Some(Waiting::Row { id }) => Next::Row { id: *id },
            Some(Waiting::Mark { epoch, time, fired }) => Next::Mark {
                epoch: *epoch,
                time: *time,
                fired: *fired,
            },
            None => Next::Free,
        }
    }

    // Takes the owner off. A row in front then owns the key; a mark in front stays there.
    pub(crate) fn hand_over(&mut self) -> Next
        ensures next { result ≡ next_of self.old.waiting }
        ensures part { self.new ≡ taken_up self.old.waiting }
    {
        let next = self.front();
        self.owner = None;
        if let Next::Row { id } = next {
            self.waiting.pop_front();
            self.owner = Some(id);
        }
        next
    }

    // Takes the mark in front off, and hands the key over.
    pub(crate) fn end_mark(&mut self) -> Next
        ensures next { result ≡ next_of (mark_ended self.old.waiting) }
        ensures part { self.new ≡ taken_up (mark_ended self.old.waiting) }
    {
        self.waiting.pop_front();
        self.hand_over()
    }

    // The mark in front fires once more, and a context owns the key.
    pub(crate) fn fire(&mut self, id: Id)
        requires { may_fire (next_of self.old.waiting) ≡ true }
        ensures { self.new ≡ fired_by id self.old }
    {
        if let Some(item) = self.waiting.front_mut() {
            raise(item);
        }
        self.owner = Some(id);
    }
}
