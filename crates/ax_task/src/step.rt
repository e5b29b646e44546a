//! What a step of a task did.
use crate::end::End;

/// What a step of a task did.
#[derive(Clone, Copy, Debug, PartialEq, Eq)]
pub enum Step {
    /// One thing was done.
    Went,
    /// Nothing can be done before a batch that is out comes back.
    Wait,
    /// The run has ended.
    End { end: End },
}
