//! What a refresh computes from what a view stored and from what changed, on lists alone.
#![tactic(auto)]

pub mod laws;
