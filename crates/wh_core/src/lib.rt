//! The catalog as a state machine: each call is the step of one entry of the journal.
#![tactic(auto)]

mod catalog;
mod changing;
mod names;
mod notes;
mod putting;
mod refreshing;
mod viewing;

pub use catalog::Core;
pub use notes::Noted;
pub use refreshing::Begun;
