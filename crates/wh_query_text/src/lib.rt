//! The rules of the grammar, as they are read from tokens. Each rule is a type that reads by a definition of the
//! grammar: rules that are made of rules are types made of types.
#![tactic(auto)]

pub mod parser;
pub mod query;
pub mod rule;
pub mod rules;
