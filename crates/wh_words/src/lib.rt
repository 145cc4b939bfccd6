//! The words of the command line, which the crate `clap` reads: the form that they name.
#![tactic(auto)]

mod named;
mod places;
mod plain;
mod words;

pub use words::{Words, form};
