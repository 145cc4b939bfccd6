//! Tables of row versions, read and changed at an SCN.
#![tactic(auto)]

mod def_copy;
mod meaning;
mod table;
mod tables;

pub use def_copy::copied_def;
pub use meaning::{laws, tables_law};
pub use table::Table;
pub use tables::Tables;
