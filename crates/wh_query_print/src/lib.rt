//! The canonical text of a query, which reads back as that query.
#![tactic(auto)]

mod clauses;
pub mod laws;
mod layout;
mod parts;
mod pieces;
pub mod query;
