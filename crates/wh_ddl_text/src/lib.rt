//! Statements from their tokens, exactly as the grammar has them: one rule for each form.
#![tactic(auto)]

pub mod asked;
pub mod changes;
pub mod dimensions;
pub mod logs;
pub mod name_lists;
pub mod partitions;
pub mod refreshes;
pub mod sessions;
pub mod statements;
pub mod tables;
pub mod views;
pub mod words;
