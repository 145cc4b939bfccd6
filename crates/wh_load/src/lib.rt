//! LOAD: the values that the fields of its rows stand for, or the first field that stands for none.
#![tactic(auto)]

mod fields;
mod rows;

pub use rows::rows_loaded;
