//! The first step of the statements that change rows, INSERT, UPDATE, DELETE and LOAD: names, kinds and numbers of values,
//! the rows that conditions pick, and the values that a row gets.
#![tactic(auto)]

mod asking;
mod asks;
mod changes;
mod filter;
mod picking;
mod refusals;
mod set_list;

pub use asking::{Asks, statement_asked};
pub use asks::{Asked, insert_asked, table_number};
pub use changes::{PlacedRow, RowChange};
pub use filter::Filter;
pub use refusals::{delete_refusal, update_refusal};
pub use set_list::{PlacedSet, SetList, SetTo};
