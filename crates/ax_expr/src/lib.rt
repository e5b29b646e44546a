//! Expressions: their trees, how they are read from tokens, and their value.
//!
//! A tree here stands for an expression of the definitions; `shown_expr` says which.
#![tactic(auto)]

pub mod laws;
pub mod read;
pub mod tree;
pub mod value;

pub use laws::{
    balance_law, grammar_is_read, one_tree, read_is_grammatical, refusal_law, spelling_law,
    tree_law,
};
pub use read::{Refusal, read_expr};
pub use tree::{Expr, Token};
pub use value::Scope;
