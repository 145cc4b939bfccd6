//! Turns: waiting for one, working in it, and leaving it.
ghost use Rattle.std.specs.Prelude.{◌≡◌, ◌++◌, drop, length};
ghost use Rattle.std.specs.Borrow.{sem};
ghost use Rattle.scn_lock.specs.Journal.{Adds, StartsWith, events_of};
ghost use Rattle.scn_lock.specs.Lending.{LendsValue};
ghost use Rattle.scn_lock.specs.Words.{number_of, seen_by, own_events, IsOf, IsFree, IsTurnOf, IsSamePass};

use crate::journal::Journaled;
use crate::lock::ScnLock;
use crate::pass::Pass;
use crate::turn::Turn;
use std::sync::Wait;

impl<C: Journaled> ScnLock<C> {
    /// Waits for a turn. It may wait without end: no clause says that the others leave theirs.
    ///
    /// The journal found begins with all that the pass has seen, and the events in it that bear the pass's number are
    /// the pass's own. The pass has then seen it.
    pub fn enter<R: Wait>(&self, rt: &R, pass: &mut Pass<C>) -> Turn<C>
        requires own { IsOf self.now pass.old }
        requires free { IsFree pass.old }
        ensures same { IsOf self.now pass.new × IsSamePass pass.old pass.new × (own_events pass.new ≡ own_events pass.old) }
        ensures turn { IsTurnOf result pass.new }
        ensures journal { C.journal result.value ≡ seen_by pass.new }
        ensures seen { StartsWith (seen_by pass.new) (seen_by pass.old) }
        ensures own { events_of C.number (number_of pass.new) (seen_by pass.new) ≡ own_events pass.new }
    {
        let ticket = self.draw(pass);
        self.wait(rt, pass, ticket);
        let value = self.take_out(pass);
        let before = value.entries();
        Turn { value, before }
    }
}

impl<C> Turn<C> {
    /// The value, to read and to write.
    pub fn value(&mut self) -> &mut C
        ensures* writes_back { sem 𝓛 (LendsValue C.row self.entry result) }
        ensures value { result.now ≡ self.old.value }
    {
        &mut self.value
    }
}

impl<C: Journaled> Turn<C> {
    /// Ends the turn, with the value as it is now.
    ///
    /// The journal has to be that at the enter with at most one event added, which bears the pass's number. The pass
    /// has then seen it, and the event is the last of its own.
    pub fn leave(self, lock: &ScnLock<C>, pass: &mut Pass<C>)
        requires own { IsOf lock.now pass.old × IsTurnOf self pass.old }
        requires adds { Adds C.number (number_of pass.old) (seen_by pass.old) (C.journal self.value) }
        ensures same { IsOf lock.now pass.new × IsSamePass pass.old pass.new }
        ensures free { IsFree pass.new }
        ensures seen { seen_by pass.new ≡ C.journal self.value }
        ensures added { own_events pass.new ≡ own_events pass.old ++ drop (length (seen_by pass.old)) (C.journal self.value) }
        ensures own { events_of C.number (number_of pass.new) (seen_by pass.new) ≡ own_events pass.new }
    {
        let Turn { value, before } = self;
        let added = value.entries() - before;
        lock.give_back(pass, value, added);
        lock.end(pass);
    }
}
