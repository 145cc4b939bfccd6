//! Groups of tuples by their keys, the entries that a view stores of them, and the rows of an answer in order.
#![tactic(auto)]

mod answers;
mod groups;
mod key;
mod merging;
mod order;
mod small;
mod tally;

pub use answers::{entries, finish};
pub use groups::{Groups, Tallies, group, query_aggs};
pub use key::KeyPart;
pub use merging::merge;
pub use order::{sort_entries, sort_rows};
pub use small::{has_small_aggs, is_small_tuple};
pub use tally::{Summed, Tally};
