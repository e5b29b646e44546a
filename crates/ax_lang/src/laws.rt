//! Laws of the language, each the contract of an empty function.
ghost use Rattle.std.specs.Prelude.{◌≡◌, ◌≤◌, ℕ, List, true};
ghost use Rattle.ax_base.specs.declared.lines.Line.{Line};
ghost use Rattle.ax_syntax.specs.Words.{Word};
ghost use Rattle.ax_text.specs.Exprs.{Expr as AnyExpr};
ghost use Rattle.ax_text.specs.Prints.{is_accepted};
ghost use Rattle.ax_text.specs.Programs.{Program, program_width, text_or_stop};
ghost use Rattle.ax_text.specs.Valid.{IsValid};
ghost use Rattle.ax_lang.specs.declared.program.Program.{Program as AnyProgram};
ghost use Rattle.ax_syntax.specs.Shapes.{Shape as LineShape};
ghost use Rattle.ax_expr.specs.Grammar.{Derivation};
ghost use Rattle.ax_lang.specs.Blocks.{CleanLinesHold};
ghost use Rattle.ax_lang.specs.Laws.{AreApart, HasTree};
ghost use Rattle.ax_lang.specs.Spelling.{TestsForm, ReadsSpelled, SpellOne, LimitsTell, KnownSpell, LineSpells};
ghost use Rattle.ax_lang.specs.Programs.{Accepted, program_of};
ghost use Rattle.ax_lang.specs.Shown.{shown_program};
ghost use Rattle.ax_rules.specs.declared.section.SectionEnd.{SectionEnd};

/// Every expression that a line may have has a tree.
#[tactic(auto, using(crate::proofs::TokenLemmas::has_tree))]
pub fn expression_law()
    ensures { (locals words : List Word) → HasTree locals words }
{}

/// Words pass the test of expressions exactly where the grammar spells an expression with them, with any parentheses,
/// whatever their operands stand for.
#[tactic(auto, using(crate::proofs::SpellingLemmas::tests_form))]
pub fn form_law()
    ensures { (words : List Word) → TestsForm words }
{}

/// Words spell an expression by the grammar, with any parentheses, exactly where they pass the test, speak only of local
/// names and values that are there, and are read as this expression. So they spell at most one.
pub fn spelling_law()
    ensures exact { (locals : List Word) (values : ℕ) (words : List Word) (tree : AnyExpr) → ReadsSpelled locals values words tree }
    ensures one { (locals : List Word) (values : ℕ) (words : List Word) → SpellOne locals values words }
{}

/// Words of an expression are refused as too deep exactly where more than 32 parentheses stand in one another, and as too
/// many exactly where there are more than 256 tokens.
#[tactic(auto, using(crate::proofs::DepthLemmas::limits_tell))]
pub fn limit_law()
    ensures { (words : List Word) (spelling : Derivation) → LimitsTell words spelling }
{}

/// Behind any lines, words without a state's name are refused neither for their form nor for an unknown name or value
/// exactly where they spell an expression.
pub fn known_law()
    ensures { (before : List LineShape) (words : List Word) → KnownSpell before words }
{}

/// The words of each expression of a line without fault spell the expression that its row has.
#[tactic(auto, using(crate::proofs::LineLemmas::line_spells))]
pub fn line_law()
    ensures { (before : List LineShape) (line : LineShape) → LineSpells before line }
{}

/// Every program is valid: everything exists that its statements and their expressions speak of.
pub fn program_is_valid()
    ensures { (p : AnyProgram) → IsValid (shown_program p) }
{}

/// Every program is accepted: the arms of each `both` are silent and apart, and at least 1 and at most 16 requests may be out at once.
#[tactic(auto, using(crate::proofs::ProgramLemmas::row_accepted, crate::proofs::ProgramLemmas::timer_accepted, crate::proofs::ProgramLemmas::some_wide, crate::proofs::ProgramLemmas::few_wide))]
pub fn program_is_accepted()
    ensures row { (p : AnyProgram) → is_accepted (shown_program p).row ≡ true }
    ensures timer { (p : AnyProgram) → is_accepted (text_or_stop (shown_program p).timer) ≡ true }
    ensures some { (p : AnyProgram) → 1 ≤ program_width (shown_program p) }
    ensures few { (p : AnyProgram) → program_width (shown_program p) ≤ 16 }
{}

/// Every program that lines say, as `read_program` reads them, is valid.
pub fn accepted_program_is_valid()
    ensures { (lines : List Line) (end : SectionEnd) (p : Program) → program_of lines end ≡ Accepted p → IsValid p }
{}

/// In every program that lines say, as `read_program` reads them, the arms of each `both` are silent and apart, and at most 16 requests may be out at once.
pub fn accepted_program_is_apart()
    ensures { (lines : List Line) (end : SectionEnd) (p : Program) → program_of lines end ≡ Accepted p → AreApart p }
{}

/// The rows of lines without fault close each block, keep the rule of arms, and are as wide as the tables say.
#[tactic(auto, using(crate::proofs::BlockLemmas::blocks_hold))]
pub fn blocks_law()
    ensures { (lines : List LineShape) → CleanLinesHold lines }
{}
