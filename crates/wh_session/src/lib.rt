//! Sessions: each takes its commands part by part, and keeps the text and the tally of its replies.
#![tactic(auto)]

mod parts;
mod session;
mod snapshots;
mod tally;
mod telling;

pub use session::Session;
pub use tally::Tally;
