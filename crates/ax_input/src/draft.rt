//! A line that is being put behind bytes.
ghost use Rattle.std.specs.Prelude.{◌≡◌, ◌++◌, [], OnOk, OnErr};
ghost use Rattle.ax_input.specs.Drafts.{Drafted};

use ax_base::{Bytes, NoMemory};
use std::alloc::Global;
use std::marker::Model;
use std::mem;

// The bytes with the line behind them, as far as it has come. Contracts see the two apart, so that want of memory in the
// middle of a line leaves no part of it behind.
#[derive(Drop)]
pub(crate) struct Draft {
    text: Vec<u8>,
    front: usize,
}

impl Model for Draft {
    ghost use Rattle.std.specs.Prelude.{◌≤◌, length, take, drop};
    ghost use Rattle.ax_input.specs.Drafts.{Drafted};

    ghost Value = { Drafted };

    ghost view = { λ d. record { front = take d.front d.text.items; line = drop d.front d.text.items } };

    ghost invariant = { λ d. d.front ≤ length d.text.items };
}

impl Draft {
    // A line is begun behind these bytes, which the draft holds until its end.
    pub(crate) fn behind(alloc: Global, out: &mut Bytes) -> Draft
        ensures { result ≡ record { front = out.old; line = [] } }
    {
        let text = mem::replace(out, Bytes::new(alloc)).into_vec();
        let front = text.len();
        Draft { text, front }
    }

    pub(crate) fn put(&mut self, bytes: &[u8]) -> Result<(), NoMemory>
        ensures front { self.new.front ≡ self.old.front }
        ensures line { OnOk result (self.new.line ≡ self.old.line ++ bytes.now) }
    {
        match self.text.extend_from_slice(bytes) {
            Ok(()) => Ok(()),
            Err(_) => Err(NoMemory),
        }
    }

    // The bytes are given back, with the line where it was put whole.
    pub(crate) fn end(self, out: &mut Bytes, put: Result<(), NoMemory>) -> Result<(), NoMemory>
        ensures same { result ≡ put }
        ensures ok { OnOk put (out.new ≡ self.front ++ self.line) }
        ensures err { OnErr put (out.new ≡ self.front) }
    {
        let mut text = self.text;
        if put.is_err() {
            text.truncate(self.front);
        }
        *out = Bytes::from_vec(text);
        put
    }
}
