//! A ticket lock round one value, whose holders learn the value's journal.
//!
//! # The lock
//!
//! A value that the lock guards stands for a **journal**, a list of events that only grows, and each event bears a
//! number ([`Journaled`]). Threads take turns with the value. Each thread has a [`Pass`], which has no bytes and
//! exists for the proofs alone: it keeps what its thread has seen of the journal, and which events are the thread's
//! own. So a contract can say that a turn finds all that its pass has seen, and that the value at the end has each
//! thread's events, each once and in the thread's order. Which thread's turn comes when is not said.
//!
//! # The algorithm
//!
//! The threads share an [`atomic_table`] of three words and one slot:
//!
//! | | Name | What it has |
//! |---|---|---|
//! | word 0 | next | the ticket that the next caller draws |
//! | word 1 | serving | the ticket that may go inside |
//! | word 2 | length | the length of the journal |
//! | slot 0 | value | the value, or nothing while a turn has it |
//!
//! A turn is one walk through these steps, each a single atomic step on one word.
//!
//! 1. [`ScnLock::enter`] draws a ticket: it adds 1 to next and has the number that stood there.
//! 2. It reads serving until its own ticket stands there, and sleeps between two looks. From then on it is inside,
//!    and nobody else is: the tickets that are out differ.
//! 3. It takes the value out of the slot. The pass has now seen the whole journal. The caller works on the value by
//!    [`Turn::value`], with no step on the table.
//! 4. [`Turn::leave`] adds to length how many events the turn added, at most one. At this step the event enters the
//!    journal that all passes know of.
//! 5. It gives the value back to the slot, adds 1 to serving, and wakes those who sleep.
//!
//! Words and so the tickets that they have count modulo 2^64. Fewer than 2^32 tickets are ever out at once, since
//! each pass has at most one, so no two of them look alike.
//!
//! [`ScnLock::split`] makes further passes, [`ScnLock::join`] takes one back in, and [`ScnLock::close`] ends the lock
//! once a single pass is left, and says what the journal is.
//!
//! # The proof
//!
//! `specs/Rule.antt` has the rule: a fact about the words, the slot and all passes that holds between any two steps.
//! `specs/Laws.antt` says what it means for a ticket lock, `specs/Steps.antt` what each step does to its own pass, and
//! `proofs/` that each step keeps the rule.
#![tactic(auto)]

mod journal;
mod lock;
mod meaning;
mod pass;
mod passes;
mod plays;
mod steps;
#[cfg(test)]
mod tests;
mod turn;
mod turns;
mod view;

pub use journal::Journaled;
pub use lock::{Order, ScnLock};
pub use meaning::laws;
pub use pass::{Pass, PassOf};
pub use turn::Turn;
pub use view::View;
