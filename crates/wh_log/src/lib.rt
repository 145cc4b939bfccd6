//! The materialized view log of a table: the sides of its changes, numbered and by SCN, from its birth or its last purge on.
#![tactic(auto)]

mod buffers;
mod log;
mod meaning;
mod sides;

pub use log::MvLog;
pub use meaning::laws;

#[cfg(test)]
mod tests;
