//! The tuples of a star query by look-ups of keys: one row after another of the root, and for each further table of the tree the
//! one row that its join leads to; and the partitions of the root that the query's conditions don't admit.
#![tactic(auto)]

mod equal;
mod joining;
mod key_index;
mod pruning;
mod range;
mod scan;

pub use joining::{Joining, joined};
pub use pruning::{misses, query_range};
pub use range::Range;
