//! Days as texts: YYYY-MM-DD, which is what a date literal of the SQL language has after the word DATE. The calendar is the
//! proleptic Gregorian one of the kit's crate `jiff_core`, from the year 1 on.
#![tactic(auto)]

mod printing;
mod reading;

pub use printing::{day_bytes, day_text};
pub use reading::day_of;
