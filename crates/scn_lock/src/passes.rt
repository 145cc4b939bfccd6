//! Making a lock and its passes, and taking them in again.
ghost use Rattle.std.specs.Prelude.{◌≡◌, ℕ, List, ◌<◌, ◌≤◌, [], IfOk, IfErr, IsOk};
ghost use Rattle.scn_lock.specs.Journal.{StartsWith, events_of};
ghost use Rattle.scn_lock.specs.Steps.{opener, made_one, one_made, taken_in};
ghost use Rattle.scn_lock.specs.Words.{view, number_of, seen_by, own_events, passes_made, IsOf, IsFree, IsFirst, IsAlone, HasKept};

use crate::journal::Journaled;
use crate::lock::{NEXT, ScnLock, VALUE};
use crate::pass::{Pass, PassOf};
use crate::plays::{Cut, Glue, Look};
use atomic_table::{Refused, Table};
use std::alloc::{AllocError, Global};

impl<C: Journaled> ScnLock<C> {
    /// A lock round a value with an empty journal, and its pass 0, which has seen nothing.
    ///
    /// The `Err` is for want of memory alone, and hands the value back.
    pub fn new(alloc: Global, value: C) -> Result<(ScnLock<C>, Pass<C>), C>
        requires { C.journal value ≡ [] }
        ensures ok { IfOk result (λ t. IsOf t.0 t.1 × (view t.1 ≡ opener)) }
        ensures err { IfErr result (λ x. x ≡ value) }
    {
        let Ok(mut slots) = Vec::with_capacity(alloc, 1) else {
            return Err(value);
        };
        slots.push_reserved(Some(value));
        match Table::new(alloc, &[0, 0, 0], slots, &()) {
            Ok((table, seat)) => Ok((ScnLock { table }, PassOf { seat })),
            Err(Refused { mut slots }) => {
                let value = slots.pop().unwrap().unwrap();
                slots.destroy_empty();
                Err(value)
            }
        }
    }

    /// Makes a pass, which has seen what pass 0 has and has no own events.
    ///
    /// Its number is how many passes were made before. No event of what it has seen bears that number or a greater
    /// one. It takes no memory and always answers `Ok`.
    ///
    /// The bound is that of the greatest use: pass 0, 64 sessions, 8 workers and the closer are 74 passes. A use
    /// without workers needs 65 of them. The rule itself would bear any number below 2^32.
    pub fn split(&self, pass: &mut Pass<C>) -> Result<Pass<C>, AllocError>
        requires first { IsOf self.now pass.old × IsFirst pass.old }
        requires few { passes_made pass.old < 74 }
        ensures ok { IsOk result }
        ensures counted { IsOf self.now pass.new × (view pass.new ≡ made_one (view pass.old)) }
        ensures made { IfOk result (λ p. IsOf self.now p × (view p ≡ one_made (view pass.old))) }
        ensures unborn { (n : ℕ) → passes_made pass.old ≤ n → events_of C.number n (seen_by pass.old) ≡ [] }
    {
        let shared = &self.table.shared;
        shared.load::<Look>(&mut pass.seat, NEXT);
        let seat = shared.split_seat::<Cut>(&mut pass.seat);
        Ok(PassOf { seat })
    }

    /// Takes a pass in: pass 0 then knows what the other knew, and keeps its number and its own events.
    pub fn join(&self, pass: &mut Pass<C>, other: Pass<C>)
        requires first { IsOf self.now pass.old × IsFirst pass.old × IsFree pass.old }
        requires other { IsOf self.now other × IsFree other }
        ensures taken { IsOf self.now pass.new × (view pass.new ≡ taken_in (view pass.old) (view other)) }
        ensures seen { StartsWith (seen_by pass.new) (seen_by pass.old) × StartsWith (seen_by pass.new) (seen_by other) }
        ensures own { events_of C.number 0 (seen_by pass.new) ≡ own_events pass.new }
    {
        let PassOf { seat } = other;
        let shared = &self.table.shared;
        shared.join_seat::<Glue>(&mut pass.seat, seat);
        shared.load::<Look>(&mut pass.seat, NEXT);
    }

    /// Ends the lock and gives the value, once every other pass was taken in.
    ///
    /// The value's journal is just what the pass has seen. In it the events of each number are the own events of the
    /// pass with that number, as the joins kept them, and no event bears a number that was never made.
    pub fn close(self, pass: Pass<C>) -> C
        requires first { IsOf self pass × IsFirst pass × IsFree pass }
        requires alone { IsAlone (view pass) }
        ensures journal { C.journal result ≡ seen_by pass }
        ensures first { events_of C.number 0 (C.journal result) ≡ own_events pass }
        ensures joined { (n : ℕ) (own : List C.Event) → HasKept (view pass) n own → events_of C.number n (C.journal result) ≡ own }
        ensures unborn { (n : ℕ) → passes_made pass ≤ n → events_of C.number n (C.journal result) ≡ [] }
    {
        let ScnLock { table } = self;
        let PassOf { seat } = pass;
        let mut closed = table.close_with(seat);
        let value = closed.take(VALUE).unwrap();
        closed.free();
        value
    }
}
