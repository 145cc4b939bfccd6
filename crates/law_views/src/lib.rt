//! What is so of the tables, the views and the sessions of every trace, and why a view may answer a query under ENFORCED.
#![tactic(auto)]

pub mod laws;
