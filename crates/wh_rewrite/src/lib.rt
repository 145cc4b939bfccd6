//! Which plan answers a query: BASE, or a view that the query matches.
#![tactic(auto)]

mod choosing;
mod full_text;
mod staleness;

pub use choosing::choose;
pub use staleness::state;
