//! What a scan gives.
ghost use Rattle.std.specs.Prelude.{◌≡◌, IfOk};

use ax_base::{Bytes, Duplicate, ListOf, NoMemory};
use std::alloc::Global;

/// A key and its value.
#[derive(Debug, PartialEq, Eq, Drop)]
pub struct Cell {
    pub key: Bytes,
    pub value: Bytes,
}

/// A list of cells.
pub type Cells = ListOf<Cell>;

impl Duplicate for Cell {
    fn copy(&self, alloc: Global) -> Result<Cell, NoMemory> {
        let key = Bytes::from_slice(alloc, self.key.as_slice())?;
        let value = Bytes::from_slice(alloc, self.value.as_slice())?;
        Ok(Cell { key, value })
    }
}
