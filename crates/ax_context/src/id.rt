//! Names of contexts.

/// Names the slot of a context. It is small, and copied freely.
#[derive(Clone, Copy, Debug, PartialEq, Eq)]
pub struct Id {
    pub(crate) slot: usize,
}
