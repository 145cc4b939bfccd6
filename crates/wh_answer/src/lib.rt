//! What a session computes over an image of a catalog: the answer of a SELECT, SHOW VIEW, and a complete refresh.
#![tactic(auto)]

mod computing;
pub mod laws;
mod replies;
mod selecting;
mod showing;

pub use computing::{Computed, compute};
pub use selecting::select;
pub use showing::show_view;
