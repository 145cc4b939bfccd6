//! The script of `gen N` as data, made number by number, and why the program can run it.
#![tactic(auto)]

mod again;
mod laws;
mod loads;
mod script;
mod series;
mod texts;

pub use laws::generated_script_runs;
pub use script::generated;
