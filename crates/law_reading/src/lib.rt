//! Why the tokens that are kept with what a script asks read as its query.
#![tactic(auto)]

pub mod laws;
