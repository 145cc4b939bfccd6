//! The register of materialized views: up to which SCN each of them has seen the changes of its tables, so that a log
//! keeps the rows that one of them still needs.
#![tactic(auto)]

mod meaning;
mod register;

pub use meaning::laws;
pub use register::{Register, Room};

#[cfg(test)]
mod tests;
