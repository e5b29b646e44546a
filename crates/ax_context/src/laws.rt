//! What holds of the contexts at every moment. Each is the contract of a function that does nothing,
//! which a caller's proof may cite.
ghost use Rattle.std.specs.Prelude.{◌≡◌, ◌≤◌, ℕ};
ghost use Rattle.ax_context.specs.Slots.{live_count, AreCounted, NumbersDiffer, IsFirstFree};

use crate::contexts::Contexts;

/// A live context has 1 to 17 references.
pub fn counts_law<T: Drop>(contexts: &Contexts<T>)
    ensures { AreCounted contexts.now }
{
    let _ = &contexts.limit;
}

/// No two live contexts have the same number.
pub fn numbers_law<T: Drop>(contexts: &Contexts<T>)
    ensures { NumbersDiffer contexts.now }
{
    let _ = &contexts.limit;
}

/// There are never more contexts than the limit.
pub fn limit_law<T: Drop>(contexts: &Contexts<T>)
    ensures { live_count contexts.now ≤ contexts.now.limit }
{
    let _ = &contexts.limit;
}

/// There is only one number that is the first free one, so `make` has no choice.
pub fn first_free_law<T: Drop>(contexts: &Contexts<T>)
    ensures { (one two : ℕ) → IsFirstFree contexts.now one → IsFirstFree contexts.now two → one ≡ two }
{}
