//! Materialized views as a catalog keeps them: their definitions, points and marks, and what they store.
#![tactic(auto)]

mod kept;
mod views;

pub use kept::KeptView;
pub use views::Views;
