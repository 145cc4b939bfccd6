//! The order of a script's parts: the journal that it has of itself, and what holds of each legal one.
#![tactic(auto)]

mod cursor;
mod meaning;
mod order;

pub use meaning::laws;
pub use order::order_of;
