//! The tokens of a text.
#![tactic(auto)]

pub mod front;
pub mod lex;
