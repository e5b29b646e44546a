//! What holds of epochs. Each is the contract of a function that does nothing, which a caller's proof may cite.
ghost use Rattle.std.specs.Prelude.{◌≡◌, ℕ, ◌+◌, ◌-◌, ◌%◌, ◌^◌, ◌<◌, ◌≤◌, ◌↔◌, true, List, ◌∷◌, length, None, Some, IsSome};
ghost use Rattle.ax_time.specs.declared.epoch.Closed.{Closed};
ghost use Rattle.ax_time.specs.declared.epoch.Marker.{Marker};
ghost use Rattle.ax_time.specs.Epochs.{Book, Fits64, fresh, place_of, age_of, IsOpen, count_at, count_of, with_count, closed_by, is_finished, next_action, taken, markers_of};
ghost use Rattle.ax_time.specs.EpochRuns.{Call, AllWanted, book_after, Keeps, KeepsEach};

use crate::epochs::Epochs;

/// The number of the oldest epoch fits 64 bits, and so does the number of the closed epochs.
pub fn sizes_law(epochs: &Epochs)
    ensures { Fits64 epochs.now }
{
    let _ = epochs.oldest();
    let _ = epochs.pending();
}

/// An epoch is the current one or a closed one that is left exactly where the current one is ahead of it by at most the number
/// of the closed ones.
pub fn open_law()
    ensures { (book : Book) (epoch : ℕ) → Fits64 book → epoch < 2 ^ 64 → IsOpen book epoch ↔ (age_of book epoch ≤ length book.closed) }
{}

/// Where an epoch gets another count, no other epoch does, and all final actions stay.
pub fn one_epoch_law()
    ensures own { (book : Book) (epoch n : ℕ) → IsOpen book epoch → count_of (with_count book epoch n) epoch ≡ n }
    ensures others { (book : Book) (epoch other n : ℕ) → Fits64 book → epoch < 2 ^ 64 → other < 2 ^ 64 → (epoch ≡ other → ⊥) → count_of (with_count book epoch n) other ≡ count_of book other }
    ensures actions { (book : Book) (epoch n : ℕ) → markers_of (with_count book epoch n).closed ≡ markers_of book.closed }
    ensures pending { (book : Book) (epoch n : ℕ) → length (with_count book epoch n).closed ≡ length book.closed }
{}

/// No epoch's count is another where an epoch is closed or a final action is taken.
pub fn counts_stay_law()
    ensures closed { (book : Book) (m : Marker) (epoch : ℕ) → count_of (closed_by m book) epoch ≡ count_of book epoch }
    ensures taken { (book : Book) (epoch : ℕ) → Fits64 book → epoch < 2 ^ 64 → count_of (taken book) epoch ≡ count_of book epoch }
{}

/// A final action is there exactly where an epoch is closed and the oldest has no work: that of the oldest. When it is taken,
/// that epoch alone is gone, and the oldest has the next number. Where none is there, all stays.
pub fn oldest_is_taken_law()
    ensures there { (book : Book) → Fits64 book → IsSome (next_action book.closed) ↔ ((0 < length book.closed) × (count_of book book.oldest ≡ 0)) }
    ensures own { (book : Book) (c : Closed) (cs : List Closed) (m : Marker) → book.closed ≡ c ∷ cs → next_action book.closed ≡ Some m → m ≡ c.marker }
    ensures gone { (book : Book) (c : Closed) (cs : List Closed) → book.closed ≡ c ∷ cs → IsSome (next_action book.closed) → taken book ≡ record { oldest = (book.oldest + 1) % 2 ^ 64; closed = cs; count = book.count } }
    ensures stays { (book : Book) → next_action book.closed ≡ None → taken book ≡ book }
{}

/// A closed epoch is finished exactly where neither it nor an earlier one has work, so only where each earlier one is. The final
/// action of the oldest is there to be taken exactly where that is finished; a later epoch that is finished stays so when it is
/// taken.
pub fn finished_in_order_law()
    ensures means { (closed : List Closed) (count place : ℕ) → (is_finished closed place ≡ true) ↔ ((place < length closed) × ((before : ℕ) → before ≤ place → count_at closed count before ≡ 0)) }
    ensures earlier { (closed : List Closed) (place before : ℕ) → is_finished closed place ≡ true → before ≤ place → is_finished closed before ≡ true }
    ensures action { (closed : List Closed) → IsSome (next_action closed) ↔ (is_finished closed 0 ≡ true) }
    ensures rest { (book : Book) (place : ℕ) → is_finished book.closed (place + 1) ≡ true → is_finished (taken book).closed place ≡ true }
{}

/// From `new` on, whatever calls went well: the final actions that were taken, and then those that are left, are those that were
/// given to `close`, in order; the oldest epoch has the number of the actions taken, and the current one that of the calls of
/// `close`, wrapping; and the counts of all epochs are together the work that entered and has not left. The count of each epoch is
/// what entered there and has not left, and nothing is left of one whose final action was taken; epochs have their numbers in the
/// order in which they begin, wrapping.
pub fn epochs_law()
    ensures all { (calls : List Call) → AllWanted calls fresh → Keeps calls (book_after calls fresh) }
    ensures each { (calls : List Call) → AllWanted calls fresh → KeepsEach calls (book_after calls fresh) }
{}
