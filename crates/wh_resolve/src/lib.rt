//! A query over its tables: its star form, or its first refusal. What it asks of names, kinds and conditions serves UPDATE
//! and DELETE too.
#![tactic(auto)]

mod form;
mod kinds;
mod misfits;
mod names;
mod parts;
mod query;
mod sources;
mod star;
mod unknown;

pub use kinds::{Sort, agrees, any_differs, literal_sort, part_sort, printed_part};
pub use names::{column_named, column_number, name_refusal};
pub use parts::{condition_joins, resolved_conditions};
pub use query::{QueryFault, resolve};
pub use sources::Source;
pub use unknown::{Naming, first_unknown};
