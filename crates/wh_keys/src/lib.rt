//! The indexes of a catalog's tables: where the row with a key stands, and how many rows refer to one. What a block changed
//! of them can be taken back.
#![tactic(auto)]

mod child_values;
mod entry;
mod key_places;
mod keys;
mod revoke;
mod table_keys;
mod was;

pub use entry::{Entry, entry_of};
pub use keys::Keys;
