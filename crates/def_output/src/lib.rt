//! Definitions alone, without code: what the program writes for its words and its input,
//! what a run on threads may write, and what the counters of rows read rise by.
#![tactic(auto)]
