//! Worked examples: programs that are valid, and such that are refused, each by one thing alone.
ghost use Rattle.std.specs.Prelude.{[], ◌∷◌, codes};
ghost use Rattle.ax_text.specs.declared.vocabulary.Kind.TheVariants as kind;
ghost use Rattle.ax_text.specs.Valid.{IsValid};
ghost use Rattle.ax_text.specs.ValidExamples.{c, m, with_states, with_row, with_timer, putting, timing, letting, emitting, going_over};

/// Programs that are valid: a put to a state that holds a number, a timer by the first value of a row, the last local name, an
/// emit of 16 values, an `each` over entries by two names.
pub fn valid_programs()
    ensures put { IsValid (with_row (putting 0)) }
    ensures value { IsValid (with_row (timing 0)) }
    ensures name { IsValid (with_row (letting 255)) }
    ensures sixteen { IsValid (with_row (emitting 16)) }
    ensures two_names { IsValid (with_row (going_over 0 1)) }
{}

/// Programs that are refused: a put to a state that is not there or holds a map, a value that rows do not have, any value of a row
/// at a timer, a local name past the 256th, an emit of 17 values or of none, an `each` over entries by one name, two states of one
/// name, a state that is named by a reserved word.
pub fn refused_programs()
    ensures no_state { IsValid (with_row (putting 2)) → ⊥ }
    ensures other_kind { IsValid (with_row (putting 1)) → ⊥ }
    ensures no_value { IsValid (with_row (timing 1)) → ⊥ }
    ensures timer { IsValid (with_timer (timing 0)) → ⊥ }
    ensures name { IsValid (with_row (letting 256)) → ⊥ }
    ensures seventeen { IsValid (with_row (emitting 17)) → ⊥ }
    ensures none { IsValid (with_row (emitting 0)) → ⊥ }
    ensures one_name { IsValid (with_row (going_over 0 0)) → ⊥ }
    ensures same_names { IsValid (with_states (c ∷ m ∷ record { name = codes "c"; kind = kind.List } ∷ [])) → ⊥ }
    ensures reserved { IsValid (with_states (record { name = codes "row"; kind = kind.Value } ∷ [])) → ⊥ }
{}
