//! CREATE TABLE: the definition of the new table and its partitions, or the first refusal.
#![tactic(auto)]

mod columns;
mod define;
mod foreign;
mod keys;
mod ranges;
mod sorts;

pub use define::{Defined, define_table};
pub use ranges::{bound_refusal, new_bound};
