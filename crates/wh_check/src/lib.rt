//! What blocks of statements make of tables.
#![tactic(auto)]

mod block;
mod fresh;
mod making;
mod rows;
mod statement;

pub use block::{Checked, check_block};
