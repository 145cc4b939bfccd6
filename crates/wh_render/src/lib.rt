//! The text of replies in each version of transcripts, and the line of a journal.
#![tactic(auto)]

mod bodies;
mod fields;
mod lines;
mod plans;
mod refusals;
mod replies;
mod words;

pub use replies::{journal_text, push_first_line, push_journal, push_reply, reply_text};
