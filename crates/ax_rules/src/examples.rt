//! Worked examples: the first faults of small sections, and blocks at the limit of their width.
ghost use Rattle.std.specs.Prelude.{◌≡◌, [], ◌∷◌, ◌++◌, codes, true, false, Some, None};
ghost use Rattle.ax_syntax.specs.Shapes.{End};
ghost use Rattle.ax_rules.specs.declared.kinds.FaultKind.TheVariants as fault;
ghost use Rattle.ax_rules.specs.Frames.{no_print};
ghost use Rattle.ax_rules.specs.Faults.{block_fault};
ghost use Rattle.ax_rules.specs.Sections.{Faulty};
ghost use Rattle.ax_rules.specs.Examples.{section, head, at_row, at_timer, HasNoFault, two_arms};

/// Lines that have no fault.
pub fn sections_without_fault()
    ensures values { HasNoFault (at_row (codes "x = get c or v1" ∷ codes "put c x + time" ∷ codes "emit x , wm" ∷ [])) }
    ensures lists { HasNoFault (at_row (codes "add l v1" ∷ codes "put l 1 , 2 , 3" ∷ codes "each i in l" ∷ codes "emit i" ∷ codes "end" ∷ codes "clear l" ∷ [])) }
    ensures maps { HasNoFault (at_row (codes "x = has m 1" ∷ codes "y = empty m" ∷ codes "z = get m x or y" ∷ codes "put m 1 , z" ∷ codes "remove m 1" ∷ [])) }
    ensures blocks { HasNoFault (at_row (codes "if v1 < 3" ∷ codes "timer v1" ∷ codes "else" ∷ codes "untimer v1" ∷ codes "end" ∷ [])) }
    ensures arms { HasNoFault (at_row (codes "both" ∷ codes "x = get c or 0" ∷ codes "with" ∷ codes "y = get c or 0" ∷ codes "end" ∷ codes "emit x + y" ∷ [])) }
    ensures timer { HasNoFault (at_timer (codes "emit time , wm")) }
{}

/// A line that has no shape, or none that may stand there.
pub fn words_that_may_not_stand()
    ensures misspelt { at_row (codes "lett x = 1" ∷ []) ≡ Faulty 6 fault.Word }
    ensures other_first { section (codes "on row" ∷ []) true ≡ Faulty 1 fault.Word }
    ensures second_else { at_row (codes "if 1" ∷ codes "else" ∷ codes "else" ∷ codes "end" ∷ []) ≡ Faulty 8 fault.Word }
    ensures no_with { at_row (codes "both" ∷ codes "end" ∷ []) ≡ Faulty 7 fault.Word }
    ensures outside { section (codes "input 1" ∷ codes "emit 1" ∷ []) true ≡ Faulty 2 fault.Word }
{}

/// A name that no line before has said, or a value that is not there.
pub fn names_that_are_unknown()
    ensures name { at_row (codes "let x = y" ∷ codes "let y = x" ∷ []) ≡ Faulty 6 fault.UnknownName }
    ensures itself { at_row (codes "let x = x" ∷ []) ≡ Faulty 6 fault.UnknownName }
    ensures state { at_row (codes "put d 1" ∷ []) ≡ Faulty 6 fault.UnknownName }
    ensures value { at_row (codes "emit v1 , v2" ∷ []) ≡ Faulty 6 fault.UnknownName }
    ensures timer { at_timer (codes "emit v1") ≡ Faulty 8 fault.UnknownName }
{}

/// What stands twice.
pub fn seconds_are_refused()
    ensures input { section (codes "input 1" ∷ codes "input 1" ∷ []) true ≡ Faulty 2 fault.Twice }
    ensures state { section (codes "input 1" ∷ codes "state c value" ∷ codes "state c map" ∷ []) true ≡ Faulty 3 fault.Twice }
    ensures row { section (head ++ codes "end" ∷ codes "on row" ∷ codes "end" ∷ []) true ≡ Faulty 7 fault.Twice }
    ensures names { at_row (codes "each i i in m" ∷ codes "end" ∷ []) ≡ Faulty 6 fault.Twice }
{}

/// A statement that the state's kind does not have, and names in each other's place.
pub fn kinds_that_do_not_serve()
    ensures add { at_row (codes "add c 1" ∷ []) ≡ Faulty 6 fault.Kind }
    ensures one_value { at_row (codes "put m 1" ∷ []) ≡ Faulty 6 fault.Kind }
    ensures two_values { at_row (codes "put c 1 , 2" ∷ []) ≡ Faulty 6 fault.Kind }
    ensures assigned { at_row (codes "let c = 1" ∷ []) ≡ Faulty 6 fault.Kind }
    ensures read { at_row (codes "emit c" ∷ []) ≡ Faulty 6 fault.Kind }
    ensures local { at_row (codes "let x = 1" ∷ codes "put x 1" ∷ []) ≡ Faulty 7 fault.Kind }
    ensures itself { at_row (codes "each i in i" ∷ codes "end" ∷ []) ≡ Faulty 6 fault.Kind }
{}

/// Arms that speak, and arms that are not apart; an arm's line inside further blocks too.
pub fn arms_that_are_refused()
    ensures emit { at_row (codes "both" ∷ codes "emit 1" ∷ codes "with" ∷ codes "end" ∷ []) ≡ Faulty 7 fault.InArm }
    ensures deep { at_row (codes "both" ∷ codes "with" ∷ codes "if 1" ∷ codes "timer 1" ∷ codes "end" ∷ codes "end" ∷ []) ≡ Faulty 9 fault.InArm }
    ensures names { at_row (codes "both" ∷ codes "let x = 1" ∷ codes "with" ∷ codes "let x = 2" ∷ codes "end" ∷ []) ≡ Faulty 9 fault.Conflict }
    ensures read { at_row (codes "let x = 1" ∷ codes "both" ∷ codes "let y = x" ∷ codes "with" ∷ codes "let x = 2" ∷ codes "end" ∷ []) ≡ Faulty 10 fault.Conflict }
    ensures states { at_row (codes "both" ∷ codes "put c 1" ∷ codes "with" ∷ codes "x = get c or 0" ∷ codes "end" ∷ []) ≡ Faulty 9 fault.Conflict }
{}

/// A section that ends where something is still due: the rest of a handler, a handler of rows, the line of `%%`.
pub fn ends_that_come_early()
    ensures handler { section (codes "input 1" ∷ codes "on row" ∷ []) true ≡ Faulty 3 fault.NoEnd }
    ensures row { section (codes "input 1" ∷ []) true ≡ Faulty 2 fault.NoEnd }
    ensures mark { section (codes "input 1" ∷ codes "on row" ∷ codes "end" ∷ []) false ≡ Faulty 4 fault.NoEnd }
{}

/// The first fault is that of the first line, and at a line the first kind in their order.
pub fn the_first_fault_is_told()
    ensures line { at_row (codes "emit c" ∷ codes "lett x = 1" ∷ []) ≡ Faulty 6 fault.Kind }
    ensures name { at_row (codes "let c = y" ∷ []) ≡ Faulty 6 fault.UnknownName }
    ensures kind { at_row (codes "both" ∷ codes "with" ∷ codes "emit c" ∷ codes "end" ∷ []) ≡ Faulty 8 fault.Kind }
{}

/// The end of a `both` of which 16 requests may be out together, and one of which 17 may.
pub fn widths_are_limited()
    ensures width { block_fault no_print End (two_arms 9 7) ≡ None }
    ensures many { block_fault no_print End (two_arms 9 8) ≡ Some fault.TooWide }
{}
