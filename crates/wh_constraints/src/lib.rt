//! Keys and foreign keys of a statement's changes: told by the indexes for what changed alone, which are changed with it.
#![tactic(auto)]

mod constraints;

pub use constraints::keys_refusal;
