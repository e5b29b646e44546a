//! Laws of reading, each the contract of an empty function.
ghost use Rattle.std.specs.Prelude.{List};
ghost use Rattle.ax_text.specs.Exprs.{Expr as Tree};
ghost use Rattle.ax_expr.specs.declared.tree.Token.{Token as AnyToken};
ghost use Rattle.ax_expr.specs.Balance.{HasTree, HasNoTree};
ghost use Rattle.ax_expr.specs.Grammar.{Spells, IsReading, IsGrammatical, SpellsOne, SpellsWhereBalanced};
ghost use Rattle.ax_expr.specs.Spelling.{spelled, ReadsBack};

/// Tokens that balance have a tree.
#[tactic(auto, using(crate::proofs::BalanceLemmas::has_tree))]
pub fn tree_law()
    ensures { (tokens : List AnyToken) → HasTree tokens }
{}

/// Tokens that do not balance have no tree.
#[tactic(auto, using(crate::proofs::BalanceLemmas::has_no_tree))]
pub fn refusal_law()
    ensures { (tokens : List AnyToken) → HasNoTree tokens }
{}

/// What the grammar spells, with any parentheses, is read as the tree that it spells.
pub fn grammar_is_read()
    ensures { (tokens : List AnyToken) (tree : Tree) → IsReading tokens tree }
{}

/// What is read, the grammar spells.
#[tactic(auto, using(crate::proofs::DerivationLemmas::is_grammatical))]
pub fn read_is_grammatical()
    ensures { (tokens : List AnyToken) (tree : Tree) → IsGrammatical tokens tree }
{}

/// By the grammar tokens spell at most one tree.
pub fn one_tree()
    ensures { (tokens : List AnyToken) → SpellsOne tokens }
{}

/// By the grammar tokens spell a tree exactly where they balance.
#[tactic(auto, using(crate::proofs::DerivationLemmas::spells_where_balanced))]
pub fn balance_law()
    ensures { (tokens : List AnyToken) → SpellsWhereBalanced tokens }
{}

/// The least spelling of a tree is one by the grammar, and is read back.
#[tactic(auto, using(crate::proofs::SpellingLemmas::spells, crate::proofs::SpellingLemmas::reads_back))]
pub fn spelling_law()
    ensures spells { (tree : Tree) → Spells (spelled 1 tree) tree }
    ensures read { (tree : Tree) → ReadsBack tree }
{}
