//! The mailbox.
ghost use Rattle.std.specs.Prelude.{◌≡◌, ◌+◌, ◌<◌, ◌≤◌, [], ◌∷◌, ◌++◌, length, IfOk, MatchOption, Bool};
ghost use Rattle.ax_mailbox.specs.declared.mail.Mail.{Mail as Work};
ghost use Rattle.ax_mailbox.specs.Queue.{Queue, one_of, some_of, mails_of};

use crate::mail::Mail;
use ax_base::NoMemory;
use circular_buffer::HeapCircularBuffer;
use std::alloc::Global;
use std::marker::Model;

/// A queue of mails with room for a fixed number of them: first in, first out. Contracts see the mails,
/// the one that waits longest first, and the room. No call but `with_room` takes memory, and each takes
/// constant time.
#[derive(Drop)]
pub struct Mailbox {
    queue: HeapCircularBuffer<Mail>,
}

impl Model for Mailbox {
    ghost use Rattle.std.specs.Prelude.{◌<◌, ◌^◌};
    ghost use Rattle.ax_mailbox.specs.Queue.{Queue};

    ghost Value = { Queue };

    ghost view = { λ a. record { mails = a.queue.items; room = a.queue.capacity } };

    ghost invariant = { λ a. a.queue.capacity < 2 ^ 32 };
}

impl Mailbox {
    /// No mails yet, and room for so many. The only fault is `NoMemory`.
    pub fn with_room(alloc: Global, room: u32) -> Result<Mailbox, NoMemory>
        ensures { IfOk result (λ mailbox. mailbox ≡ record { mails = []; room = room }) }
    {
        match HeapCircularBuffer::with_capacity(alloc, room as usize) {
            Ok(queue) => Ok(Mailbox { queue }),
            Err(_) => Err(NoMemory),
        }
    }

    /// The mail goes last. Condition: `len() < room()`.
    pub fn post(&mut self, m: Mail)
        requires { length self.old.mails < self.old.room }
        ensures mails { self.new.mails ≡ self.old.mails ++ m ∷ [] }
        ensures room { self.new.room ≡ self.old.room }
        ensures total { (test : Work → Bool) → mails_of test self.new.mails ≡ mails_of test self.old.mails + one_of test m }
    {
        self.queue.push_back(m);
    }

    /// Takes the mail that waits longest, and `None` exactly where there is none.
    pub fn take(&mut self) -> Option<Mail>
        ensures mails { MatchOption result ((self.old.mails ≡ []) × (self.new.mails ≡ [])) (λ m. self.old.mails ≡ m ∷ self.new.mails) }
        ensures room { self.new.room ≡ self.old.room }
        ensures total { (test : Work → Bool) → mails_of test self.old.mails ≡ some_of test result + mails_of test self.new.mails }
    {
        self.queue.pop_front()
    }

    /// How many mails wait.
    pub fn len(&self) -> u32
        ensures value { result ≡ length self.now.mails }
        ensures within { result ≤ self.now.room }
    {
        self.queue.len() as u32
    }

    /// How many mails may wait at once: the `room` of `with_room`.
    pub fn room(&self) -> u32
        ensures { result ≡ self.now.room }
    {
        self.queue.capacity() as u32
    }
}
