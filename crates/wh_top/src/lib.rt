//! The top call: under `order` a script from a source, run in its own order, its transcript to a sink, in the second version of
//! transcripts, and under `order 1` in the first; under `gen` the summary of the generated script.
#![tactic(auto)]

mod input;
mod output;
mod running;
mod summary;
#[cfg(test)]
mod tests;
mod top;

pub use top::{Status, top_order};
