//! What a seat knows. These types serve the proofs: no value of them is made.
use std::collections::LinkedList;

/// What the task notes for a cell.
pub enum Note<J> {
    /// The board is being made, and the cell was not opened yet.
    Closed,
    /// The task has the cell's slot.
    Home,
    /// Work with this job was posted and not collected yet.
    Out(J),
}

/// The view of a seat.
pub enum View<J> {
    /// Of the task: a note for each cell, and whether stop was told.
    Task(LinkedList<Note<J>>, bool),
    /// Of a worker: the cell of the work that it holds, with its job.
    Worker(Option<(u64, J)>),
    /// Of a seat that was joined into the task's.
    Spent,
}

/// What a step of a seat did at a word. Each has the word first.
pub enum Deed {
    /// A load or an exchange found this number.
    Found(u64, u64),
    /// A store left this number.
    Left(u64, u64),
    /// An addition found the first number and added the second.
    Added(u64, u64, u64),
}

/// A view, and what the seat's steps did at the words, the last one first.
pub type Known<J> = (View<J>, LinkedList<Deed>);
