//! The partitions of a range-partitioned table: their intervals, their past, and the touches by which the staleness of
//! views is told.
#![tactic(auto)]

mod bounds;
mod lists;
mod part_map;
#[cfg(test)]
mod tests;
mod told;

pub use lists::PartList;
pub use part_map::{PartFault, PartMap};
