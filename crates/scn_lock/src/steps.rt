//! The walk of one turn, step by step.
ghost use Rattle.std.specs.Prelude.{◌≡◌, ◌+◌, length};
ghost use Rattle.scn_lock.specs.Journal.{Adds, StartsWith, events_of};
ghost use Rattle.scn_lock.specs.Rule.{as_word};
ghost use Rattle.scn_lock.specs.Steps.{with_ticket, inside, holding, raised_with, given_back, outside};
ghost use Rattle.scn_lock.specs.Words.{view, number_of, seen_by, own_events, IsOf, IsFree};

use crate::journal::Journaled;
use crate::lock::{LENGTH, NEXT, SERVING, ScnLock, VALUE};
use crate::pass::Pass;
use crate::plays::{Draw, Give, Leave, Raise, Serve, Take};
use std::sync::Wait;

impl<C: Journaled> ScnLock<C> {
    /// Draws a ticket. It gives the word that serving will be when the ticket's turn comes.
    pub(crate) fn draw(&self, pass: &mut Pass<C>) -> u64
        requires { IsOf self.now pass.old × IsFree pass.old }
        ensures own { IsOf self.now pass.new }
        ensures waits { view pass.new ≡ with_ticket (view pass.old) (view pass.new).ticket }
        ensures ticket { result ≡ as_word (view pass.new).ticket }
    {
        self.table.shared.fetch_add::<Draw>(&mut pass.seat, NEXT, 1)
    }

    /// Waits until the pass's ticket is served.
    pub(crate) fn wait<R: Wait>(&self, rt: &R, pass: &mut Pass<C>, ticket: u64)
        requires waits { IsOf self.now pass.old × ((view pass.old).stage ≡ 1) }
        requires ticket { ticket ≡ as_word (view pass.old).ticket }
        ensures own { IsOf self.now pass.new }
        ensures inside { view pass.new ≡ inside (view pass.old) }
    {
        let shared = &self.table.shared;
        for _ in rt.forever() {
            let serving = shared.load::<Serve>(&mut pass.seat, SERVING);
            if serving == ticket {
                return;
            }
            // It sleeps only while the word still is as it was read: a turn that ends in between isn't missed.
            shared.park(rt, SERVING, (serving % (1 << 32)) as u32);
        }
        unreachable!()
    }

    /// Takes the value out of the slot.
    pub(crate) fn take_out(&self, pass: &mut Pass<C>) -> C
        requires { IsOf self.now pass.old × ((view pass.old).stage ≡ 2) }
        ensures own { IsOf self.now pass.new }
        ensures holds { view pass.new ≡ holding C.journal (view pass.old) result }
        ensures begins { StartsWith (C.journal result) (seen_by pass.old) }
        ensures events { events_of C.number (number_of pass.old) (C.journal result) ≡ own_events pass.old }
    {
        let shared = &self.table.shared;
        shared.load::<Take>(&mut pass.seat, NEXT);
        shared.exchange(&mut pass.seat, VALUE, None).unwrap()
    }

    /// Raises the length by how many events the turn added, and gives the value back to the slot.
    ///
    /// The length comes first: while the value is at home, its journal is the one that the passes know of.
    pub(crate) fn give_back(&self, pass: &mut Pass<C>, value: C, added: u64)
        requires holds { IsOf self.now pass.old × ((view pass.old).stage ≡ 3) }
        requires adds { Adds C.number (number_of pass.old) (seen_by pass.old) (C.journal value) }
        requires counted { added + length (seen_by pass.old) ≡ length (C.journal value) }
        ensures own { IsOf self.now pass.new }
        ensures given { view pass.new ≡ given_back (raised_with C.journal (view pass.old) value) }
        ensures events { events_of C.number (number_of pass.old) (C.journal value) ≡ own_events pass.new }
    {
        let shared = &self.table.shared;
        let emptied = shared.exchange(&mut pass.seat, VALUE, Some(value));
        let None = emptied else { unreachable!() };
        shared.fetch_add::<Raise>(&mut pass.seat, LENGTH, added);
        shared.load::<Give>(&mut pass.seat, NEXT);
    }

    /// Ends the turn: the next ticket is served, and those who sleep look again.
    pub(crate) fn end(&self, pass: &mut Pass<C>)
        requires { IsOf self.now pass.old × ((view pass.old).stage ≡ 5) }
        ensures own { IsOf self.now pass.new }
        ensures over { view pass.new ≡ outside (view pass.old) }
    {
        let shared = &self.table.shared;
        shared.fetch_add::<Leave>(&mut pass.seat, SERVING, 1);
        shared.wake_all(SERVING);
    }
}
