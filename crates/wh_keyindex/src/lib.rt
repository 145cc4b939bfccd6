//! The indexes of a table: where the row with a key stands, and which values its rows have in a foreign key.
#![tactic(auto)]

mod child_index;
mod key_index;
mod marks;

pub use child_index::ChildIndex;
pub use key_index::KeyIndex;
