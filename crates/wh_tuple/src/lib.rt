//! Tuples of rows, as joins make them and groups count them, and the values of columns in them. Values aren't copied: a tuple
//! borrows them from where its rows stand.
#![tactic(auto)]

mod cell;
mod columns;
mod row;
mod source;

pub use cell::Cell;
pub use columns::{cell_in, cell_of, condition_holds, edge_holds, expr_cell, is_one_of};
pub use row::TupleRow;
pub use source::TupleSource;
