//! Laws of refreshes over the history of a trace: what the logs and the touched partitions tell is enough to bring a view up to date.
#![tactic(auto)]

pub mod laws;
