//! Work that was claimed.
ghost use Rattle.std.specs.Prelude.{◌≡◌};

use crate::work::Work;

/// Work that a worker has claimed, with its cell. Give it back once it was run: where it is dropped
/// instead, its cell stays claimed and its seat full for good.
#[derive(Drop)]
pub struct Held<W: Work> {
    pub(crate) work: W,
    pub(crate) cell: u16,
    pub(crate) is_run: bool,
    ghost run: { W.was_run work ≡ is_run },
}
