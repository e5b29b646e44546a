//! The board.
ghost use Rattle.std.specs.Prelude.{◌≡◌, ◌+◌, ◌<◌, ◌≤◌};

use crate::plays::BoardRule;
use crate::view::Known;
use crate::work::Work;
use atomic_table::Table;
use std::alloc::Global;

/// Cells through which one task hands work to its workers. Word `c` of the table is that of cell `c`: 0
/// where the task has the slot, 1 where work is posted, 2 where it is claimed, 3 where it is given back.
/// Behind these come the stop word, the work bell and the back bell.
#[derive(Drop)]
pub struct Board<W: Work> {
    pub(crate) table: Table<Option<W>, Known<W::Job>, usize, BoardRule<W>, Global>,
    pub(crate) cells: usize,
    ghost words: { table.shared.table_id.words ≡ cells + 3 },
    ghost slots: { table.shared.table_id.slots ≡ cells },
    ghost some: { 0 < cells },
    ghost few: { cells ≤ 64 },
    ghost key: { table.shared.key ≡ cells },
}
