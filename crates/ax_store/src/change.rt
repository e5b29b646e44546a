//! What became of a key.
ghost use Rattle.std.specs.Prelude.{◌≡◌, IfOk};
ghost use Rattle.ax_store.specs.Entries.{seen};

use crate::key::Key;
use ax_base::{Bytes, NoMemory};
use std::alloc::Global;

/// What became of a key.
#[derive(Debug, Drop)]
pub(crate) enum Change {
    Put(Bytes),
    Delete,
}

/// A key and what became of it.
pub(crate) type Entry = (Key, Change);

impl Change {
    // A copy; where values are not wanted, with an empty value in place of each.
    pub(crate) fn seen(&self, alloc: Global, values: bool) -> Result<Change, NoMemory>
        ensures { IfOk result (λ c. c ≡ seen values self.now) }
    {
        match self {
            Change::Put(value) if values => {
                Ok(Change::Put(Bytes::from_slice(alloc, value.as_slice())?))
            }
            Change::Put(_) => Ok(Change::Put(Bytes::new(alloc))),
            Change::Delete => Ok(Change::Delete),
        }
    }
}
