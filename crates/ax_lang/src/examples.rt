//! Worked rows: expressions of a few words.
ghost use Rattle.std.specs.Prelude.{◌≡◌, [], codes, pos, negsuc};
ghost use Rattle.ax_text.specs.declared.vocabulary.Op.TheVariants as op;
ghost use Rattle.ax_text.specs.declared.vocabulary.Atom.TheVariants as atom;
ghost use Rattle.ax_text.specs.Exprs.{Leaf, Join};
ghost use Rattle.ax_lang.specs.Examples.{a, b, c, TextSpells, SpellsNone, SpellsNoneHere};
ghost use Rattle.ax_lang.specs.Programs.{Faulty};
ghost use Rattle.ax_lang.specs.Sections.{says, says_alone, IsAccepted};

/// Texts, and the expressions that their words spell. Products bind before sums, and these before comparisons;
/// signs that bind equally join to the left; parentheses leave no trace.
pub fn expressions_of_texts()
    ensures product_last { TextSpells (codes "a + b * c") (Join op.Add a (Join op.Multiply b c)) }
    ensures product_first { TextSpells (codes "a % b - c") (Join op.Subtract (Join op.Remainder a b) c) }
    ensures enclosed { TextSpells (codes "( a + b ) * c") (Join op.Multiply (Join op.Add a b) c) }
    ensures enclosed_twice { TextSpells (codes "( ( a ) )") a }
    ensures left { TextSpells (codes "a - b - c") (Join op.Subtract (Join op.Subtract a b) c) }
    ensures right { TextSpells (codes "a - ( b - c )") (Join op.Subtract a (Join op.Subtract b c)) }
    ensures compared { TextSpells (codes "a < b + 1") (Join op.Less a (Join op.Add b (Leaf (atom.Number (pos 1))))) }
    ensures compared_twice { TextSpells (codes "a >= b == c") (Join op.Equal (Join op.AtLeast a b) c) }
    ensures operands { TextSpells (codes "-07 + v2 != time / wm") (Join op.Differs (Join op.Add (Leaf (atom.Number (negsuc 6))) (Leaf (atom.Field 1))) (Join op.Divide (Leaf atom.Time) (Leaf atom.Watermark))) }
{}

/// Texts whose words spell no expression, whatever their operands stand for.
pub fn texts_that_are_none()
    ensures empty { SpellsNone [] }
    ensures stops_short { SpellsNone (codes "a +") }
    ensures no_sign { SpellsNone (codes "a b") }
    ensures two_signs { SpellsNone (codes "a + * b") }
    ensures left_open { SpellsNone (codes "( a") }
    ensures never_opened { SpellsNone (codes "a )") }
    ensures closed_first { SpellsNone (codes ") a (") }
    ensures nothing_inside { SpellsNone (codes "( )") }
    ensures reserved { SpellsNone (codes "a + let") }
    ensures in_one_word { SpellsNone (codes "a+b") }
{}

/// Texts with the form of an expression that speak of a name or a value that isn't there.
pub fn texts_of_nothing_here()
    ensures name { SpellsNoneHere (codes "a + d") }
    ensures value { SpellsNoneHere (codes "v3") }
    ensures padded { SpellsNoneHere (codes "v01") }
{}

/// The first fault of a section: its line, and its kind by number. 1: the line has no shape, or may not stand there. 2: a name
/// that no line before has said, or a value that is not there. 3: what stands twice. 4: a state of another kind, or a name in
/// another's place. 5: arms that are not apart. 6: an arm that speaks. 10: something is due at the end.
pub fn faults_of_texts()
    ensures no_shape { says (codes "input 0;on row;lett x = 1;end;") ≡ Faulty 3 1 }
    ensures out_of_place { says (codes "input 0;emit 1;") ≡ Faulty 2 1 }
    ensures reserved { says (codes "input 0;state row value;") ≡ Faulty 2 1 }
    ensures unknown_name { says (codes "input 1;on row;emit v1;let x = y;let y = 1;end;") ≡ Faulty 4 2 }
    ensures unknown_state { says (codes "input 1;state c value;on row;put d v1;") ≡ Faulty 4 2 }
    ensures unknown_value { says (codes "input 1;on row;emit v2;") ≡ Faulty 3 2 }
    ensures value_at_timer { says (codes "input 1;on row;end;on timer;emit v1;") ≡ Faulty 5 2 }
    ensures second_input { says (codes "input 1;input 1;") ≡ Faulty 2 3 }
    ensures second_state { says (codes "input 1;state c value;state c map;") ≡ Faulty 3 3 }
    ensures second_row { says (codes "input 1;on row;end;on row;") ≡ Faulty 4 3 }
    ensures other_kind { says (codes "input 1;state c value;on row;add c v1;") ≡ Faulty 4 4 }
    ensures two_values { says (codes "input 1;state c value;on row;put c 1 , 2;") ≡ Faulty 4 4 }
    ensures state_assigned { says (codes "input 1;state c value;on row;let c = 1;") ≡ Faulty 4 4 }
    ensures state_read { says (codes "input 1;state c value;on row;emit c;") ≡ Faulty 4 4 }
    ensures assigned_by_both { says (codes "input 0;on row;both;let x = 1;with;let x = 2;") ≡ Faulty 6 5 }
    ensures read_by_second { says (codes "input 0;on row;both;let x = 1;with;let y = x;") ≡ Faulty 6 5 }
    ensures read_by_first { says (codes "input 0;on row;let x = 1;both;let y = x;with;let x = 2;") ≡ Faulty 7 5 }
    ensures changed_by_first { says (codes "input 0;state m map;on row;both;clear m;with;if 1;a = empty m;") ≡ Faulty 8 5 }
    ensures emit_in_arm { says (codes "input 0;on row;both;emit 1;") ≡ Faulty 4 6 }
    ensures timer_deep_in_arm { says (codes "input 0;on row;both;with;if 1;timer 1;") ≡ Faulty 6 6 }
    ensures end_is_due { says (codes "input 0;on row;if 1;end;") ≡ Faulty 5 10 }
    ensures row_is_due { says (codes "input 0;state c value;") ≡ Faulty 3 10 }
    ensures mark_is_due { says_alone (codes "input 0;on row;end;") ≡ Faulty 4 10 }
{}

/// The first line with a fault is told. A line that has faults of two kinds tells the one that comes first in the order 3, 2,
/// 4, 6, 5.
pub fn first_faults_of_texts()
    ensures line { says (codes "input 0;state c value;on row;emit c;lett x = 1;") ≡ Faulty 4 4 }
    ensures twice_before_unknown { says (codes "input 0;on row;each i i in m;") ≡ Faulty 3 3 }
    ensures unknown_before_kind { says (codes "input 0;state c value;on row;let c = x;") ≡ Faulty 4 2 }
    ensures kind_before_arm { says (codes "input 0;state c value;on row;both;emit c;") ≡ Faulty 5 4 }
    ensures arm_before_conflict { says (codes "input 0;on row;both;let x = 1;with;emit x;") ≡ Faulty 6 6 }
{}

/// Sections without a fault say a program.
pub fn programs_of_texts()
    ensures least { IsAccepted (says (codes "input 0;on row;end;")) }
    ensures counter { IsAccepted (says (codes "input 1;state c value;on row;n = get c or 0;put c n + v1;emit n;end;")) }
    ensures arms { IsAccepted (says (codes "input 0;state m map;state c value;on row;both;a = get c or 0;with;b = empty m;end;emit a , b;end;")) }
    ensures timer { IsAccepted (says (codes "input 1;on row;timer time + v1;end;on timer;emit time;end;")) }
{}
