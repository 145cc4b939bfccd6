//! A star query evaluated completely over a store of rows: the rows of its answer, and what a view of it stores.
#![tactic(auto)]

mod evaluation;
mod phases;
mod plain;

pub use evaluation::{evaluate, evaluate_view};
