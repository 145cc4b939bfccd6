//! What a pass knows.
use std::collections::LinkedList;

/// What a pass knows of its lock, and where it stands in a turn. No value of it is made: it exists in proofs alone.
///
/// The stages of a turn are numbers, so that proofs can compare them:
///
/// | Stage | |
/// |---|---|
/// | 0 | free: it has no ticket |
/// | 1 | it has a ticket and waits |
/// | 2 | inside: its ticket is served |
/// | 3 | inside, and holds the value |
/// | 4 | inside, holds the value, and has raised the length |
/// | 5 | inside, has raised the length, and gave the value back |
pub struct View<E> {
    /// 1, or 0 for what a join leaves of a pass.
    pub live: u64,
    /// The number of the pass: how many were made before it.
    pub number: u64,
    pub stage: u64,
    /// Its ticket, not reduced. It means nothing at stage 0.
    pub ticket: u64,
    /// The journal as the pass saw it last.
    pub seen: LinkedList<E>,
    /// What the last join found to be the shorter of the two journals seen.
    pub told: LinkedList<E>,
    /// The events that bear its number.
    pub own: LinkedList<E>,
    /// Of pass 0: how many passes were made.
    pub made: u64,
    /// Of pass 0: the number and the own events of each pass that it took in.
    pub joined: LinkedList<(u64, LinkedList<E>)>,
}
