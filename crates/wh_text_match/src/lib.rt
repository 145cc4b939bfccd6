//! Whether the text of a query is the text of a view's definition.
#![tactic(auto)]

mod matching;

pub use matching::{TextMatch, match_text};
