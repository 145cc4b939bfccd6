ghost use Rattle.std.specs.Prelude.{◌≡◌, ◌≤◌, [], IfOk, OnErr, false, true};
ghost use Rattle.wh_session.specs.Run.{AreOverTables, CanRun, Continues, Grows, Takes, begun};

use crate::parts::{Pending, finish, start};
use crate::tally::Tally;
use crate::telling::Telling;
use law_trace::laws::sessions_stand_apart;
use std::alloc::{AllocError, Global};
use std::marker::Model;
use std::snapshot::Snapshot;
use std::vec::IntoIter;
use wh_base::reads::Reads;
use wh_base::shared::Shared;
use wh_base::statements::{Command, Id, Section};
use wh_base::values::Version;
use wh_core::Core;

/// A session, 0 for the setup. Contracts see its section, what is left of its parts, and the version, the text and the tally of its replies so far. A
/// command is gone once it has run.
#[derive(Drop)]
pub struct Session<L> {
    number: u32,
    // how many commands have begun
    taken: u32,
    rest: IntoIter<Shared<Command>>,
    pending: Option<Pending>,
    telling: Telling,
    section: Snapshot<Section>,
    seen: Option<Snapshot<Core<L>>>,
}

impl<L> Model for Session<L> {
    ghost use Rattle.std.specs.Vec.Iter.{into_iter_items, into_iter_len};
    ghost use Rattle.wh_base.specs.Lists.{option_case};
    ghost use Rattle.std.specs.Prelude.{[]};
    ghost use Rattle.wh_session.specs.Run.{Run};

    ghost Value = { Run };

    ghost use Rattle.wh_session.specs.Held.{Holds, run_of};

    ghost view = { λ s. run_of s.section.value (option_case s.seen [] (λ c. c.value)) s.number s.taken s.pending (into_iter_items s.rest) s.telling };

    ghost invariant = { λ s. Holds s.section.value (option_case s.seen [] (λ c. c.value)) s.number s.taken s.pending (into_iter_items s.rest) (into_iter_len s.rest) };
}

impl<L> Session<L> {
    /// A session with nothing done, that tells its replies in this version of transcripts. Its commands have to be of forms that are built, and each has to
    /// ask what its tokens read as. Takes no memory.
    pub fn new(alloc: Global, version: Version, section: Section) -> Session<L>
        requires { CanRun section }
        ensures { result ≡ begun version section }
    {
        let whole = Snapshot::of(&section);
        let Section { session, commands } = section;
        Session {
            number: session,
            taken: 0,
            rest: commands.into_vec().into_iter(),
            pending: None,
            telling: Telling::new(alloc, version),
            section: whole,
            seen: None,
        }
    }

    /// Its number.
    pub fn number(&self) -> u32
        ensures { result ≡ self.now.section.session }
    {
        self.number
    }

    /// The text of its replies so far: its part of a transcript. Takes no memory.
    pub fn into_text(self) -> Vec<u8>
        ensures { result.items ≡ self.text }
    {
        let Session { telling, .. } = self;
        telling.into_text()
    }

    /// What is counted of its replies so far.
    pub fn tally(&self) -> Tally
        ensures { result ≡ self.now.tally }
    {
        self.telling.tally()
    }

    /// Takes the session's next part: the event of the part is the next of the core's trace, and its reply, where the part gives one, is the definition's. It
    /// answers false exactly where no part is left; then nothing changes. A refresh is computed at its begin, over the image that is taken there.
    ///
    /// The core's trace has to go on from what it was at the session's last part, without an event of the session, and the session may create no view over
    /// one that a command of the trace creates. An error says that memory ran out, that the counter stands above 2^63 rows, that a number of the tally would
    /// have more than 64 bits, or one of the other things that `Core::commit` names, which no run brings about; then the core's trace may have the event of
    /// the part, and the session must not be run again.
    ///
    /// `reads` rises by the base rows that the reply says were read; for a refresh it rises at the begin by those of the install's reply. After an error it
    /// may have risen by more or less.
    pub fn run_step(
        &mut self,
        alloc: Global,
        core: &mut Core<L>,
        reads: &mut Reads<L>,
    ) -> Result<bool, AllocError>
        requires goes_on { Continues self.old core.old }
        requires over_tables { AreOverTables core.old self.old.section }
        ensures none { IfOk result (λ took. took ≡ false → self.old.left ≡ []) }
        ensures same { IfOk result (λ took. took ≡ false → self.new ≡ self.old) }
        ensures same_core { IfOk result (λ took. took ≡ false → core.new ≡ core.old) }
        ensures unread { IfOk result (λ took. took ≡ false → reads.new ≡ reads.old) }
        ensures takes { IfOk result (λ took. took ≡ true → Takes self.old self.new core.old core.new reads.old reads.new) }
        ensures least { reads.old ≤ reads.new }
        ensures err { OnErr result (Grows core.old core.new) }
    {
        if let Some(pending) = self.pending.take() {
            sessions_stand_apart();
            finish(core, pending, &mut self.telling)?;
            self.seen = Some(Snapshot::of(core));
            return Ok(true);
        }
        let Some(command) = self.rest.next() else {
            return Ok(false);
        };
        self.taken += 1;
        let id = Id {
            session: self.number,
            command: self.taken,
            worker: 0,
        };
        self.pending = start(alloc, core, id, command, &mut self.telling, reads)?;
        self.seen = Some(Snapshot::of(core));
        Ok(true)
    }
}
