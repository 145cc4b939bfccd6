//! The values, tables, queries, statements and replies that all other crates speak of, and the counter
//! through which base rows are read.
#![tactic(auto)]

pub mod boxed;
pub mod columns;
pub mod copied;
pub mod day;
pub mod fraction;
pub mod logs;
pub mod pair;
pub mod queries;
pub mod reads;
pub mod replies;
pub mod rows_of;
pub mod seq;
pub mod shared;
pub mod statements;
pub mod tables;
pub mod tokens;
pub mod txt;
pub mod values;
pub mod views;
pub mod wide;
