//! Laws of cell keys.
ghost use Rattle.std.specs.Prelude.{◌≡◌, ℕ, ◌<◌, ◌^◌, ℤ, List, true, Option, None};
ghost use Rattle.ax_keys.specs.Keys.{is_key};
ghost use Rattle.ax_keys.specs.Groups.{IsMaximum};
ghost use Rattle.ax_store.specs.Held.{bytes_cmp, begins};
ghost use Rattle.ax_serve.specs.CellKeys.{cell_key, Place, IsPlace, key_of, place_cmp};

/// Cells of different key, state or entry have different keys.
pub fn places_have_keys_of_their_own()
    ensures { (m : ℕ) (p q : Place) → IsMaximum m → IsPlace p → IsPlace q → key_of m p ≡ key_of m q → p ≡ q }
{}

/// Cell keys sort, byte by byte, as what they stand for: by group, by key, by the number of the state, and by the entry, the least
/// number first.
pub fn cell_keys_sort_as_their_places()
    ensures { (m : ℕ) (p q : Place) → IsMaximum m → IsPlace p → IsPlace q → bytes_cmp (key_of m p) (key_of m q) ≡ place_cmp m p q }
{}

/// The cell key of a state with no entry begins the keys of the cells of that state, and no others. So a scan for it gives just one map.
pub fn a_prefix_is_one_state()
    ensures all { (m : ℕ) (key : List ℕ) (state : ℕ) (at : Option ℤ) → begins (cell_key m key state None) (cell_key m key state at) ≡ true }
    ensures alone { (m : ℕ) (key : List ℕ) (state : ℕ) (p : Place) → IsMaximum m → is_key key ≡ true → state < 2 ^ 16 → IsPlace p
        → begins (cell_key m key state None) (key_of m p) ≡ true → (p.key ≡ key) × (p.state ≡ state) }
{}
