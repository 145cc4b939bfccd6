//! Why a view whose text is that of a query can answer the query.
#![tactic(auto)]

pub mod laws;
