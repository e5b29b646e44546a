//! Laws of the groups, each the contract of an empty function.
ghost use Rattle.std.specs.Prelude.{ℕ};
ghost use Rattle.ax_keys.specs.Groups.{HasOwnRange, AreWhole, IsFollowed, HasNoOther};

/// Each group lies in the range of its own part.
#[tactic(auto, using(crate::proofs::RangeLemmas::has_own_range))]
pub fn own_range_law()
    ensures { (g m p : ℕ) → HasOwnRange g m p }
{}

/// The first range begins at group 0, and the last ends at the last group.
#[tactic(auto, using(crate::proofs::RangeLemmas::are_whole))]
pub fn whole_law()
    ensures { (m p : ℕ) → AreWhole m p }
{}

/// No range is empty, and each range begins one behind the end of the range before it: between two
/// ranges there is no gap, and no two have a group in common.
#[tactic(auto, using(crate::proofs::RangeLemmas::is_followed))]
pub fn next_range_law()
    ensures { (i m p : ℕ) → IsFollowed i m p }
{}

/// A group lies in the range of no part other than its own.
#[tactic(auto, using(crate::proofs::RangeLemmas::has_no_other))]
pub fn no_other_range_law()
    ensures { (g i m p : ℕ) → HasNoOther g i m p }
{}
