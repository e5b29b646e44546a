//! Mails.
use ax_context::Id;
use ax_state::Answer;

/// One piece of work for the task thread, on the context that it names.
#[derive(Debug, PartialEq, Eq, Drop)]
pub enum Mail {
    /// The context of a row begins to run.
    Start { id: Id },
    /// The context of a firing timer begins to run.
    Fire { id: Id },
    /// A request of the context was served. The context waits for the answer at this slot.
    Reply { id: Id, slot: u8, answer: Answer },
}
