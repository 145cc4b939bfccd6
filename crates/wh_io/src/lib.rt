//! The outside of mviewdb: where its bytes come from and where they go.
//!
//! A `Source` and a `Sink` are what the top call reads and writes. Both count their faults, so that an answer
//! `Failed` has its cause in a number that rose. Beside the adapters of standard input and output there are objects
//! in memory, with chosen faults or with none. The rules of this crate are this project's own.
#![tactic(auto)]

mod all;
mod count;
mod memory;
mod outside;
mod plan;
mod rest;
mod standard;
mod steady;
#[cfg(test)]
mod tests;

pub use all::{ReadFault, read_all, write_all};
pub use memory::{MemorySink, MemorySource};
pub use outside::{Failed, Sink, Source};
pub use standard::{StdSink, StdSource};
pub use steady::{SteadySink, SteadySource};
