//! Worked rows of cell keys.
ghost use Rattle.std.specs.Prelude.{◌≡◌, [], ◌∷◌, codes, pos, negsuc, Some, None};
ghost use Rattle.ax_serve.specs.CellKeys.{cell_key};

/// The cell of a value state of the key `a`, which is of group 81 among 128, and entries of a map: -2, the least number, 0 and the greatest.
pub fn cells_of_a_key()
    ensures state { cell_key 128 (codes "a") 0 None ≡ 0 ∷ 81 ∷ 97 ∷ 0 ∷ 0 ∷ 0 ∷ [] }
    ensures entry { cell_key 128 (codes "a") 2 (Some (negsuc 1)) ≡ 0 ∷ 81 ∷ 97 ∷ 0 ∷ 0 ∷ 2 ∷ 127 ∷ 255 ∷ 255 ∷ 255 ∷ 255 ∷ 255 ∷ 255 ∷ 254 ∷ [] }
    ensures least { cell_key 128 (codes "a") 2 (Some (negsuc 9223372036854775807)) ≡ 0 ∷ 81 ∷ 97 ∷ 0 ∷ 0 ∷ 2 ∷ 0 ∷ 0 ∷ 0 ∷ 0 ∷ 0 ∷ 0 ∷ 0 ∷ 0 ∷ [] }
    ensures zero { cell_key 128 (codes "a") 2 (Some (pos 0)) ≡ 0 ∷ 81 ∷ 97 ∷ 0 ∷ 0 ∷ 2 ∷ 128 ∷ 0 ∷ 0 ∷ 0 ∷ 0 ∷ 0 ∷ 0 ∷ 0 ∷ [] }
{}
