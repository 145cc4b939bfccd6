ghost use Rattle.std.specs.Prelude.{◌≡◌, ◌&&◌, ◌==◌, ◌++◌, take, drop, not, option_to_list, true};
ghost use Rattle.wh_base.specs.Parts.{parts_of, section_entries};
ghost use Rattle.wh_order.specs.Left.{passed};

use std::marker::Model;
use wh_base::shared::Shared;
use wh_base::statements::{Command, Entry, Section, Statement};

/// How far a session has come in its commands. Contracts see the session's number and the entries that are left of it.
#[derive(Drop)]
pub struct Cursor<'a> {
    session: u32,
    /// How many commands are taken whole.
    taken: u32,
    /// How many parts are taken of the command after these.
    parts: u32,
    rest: &'a [Shared<Command>],
}

impl<'a> Model for Cursor<'a> {
    ghost use Rattle.std.specs.Prelude.{◌+◌, ◌<◌, ◌^◌, List, length, ℕ};
    ghost use Rattle.std.specs.Coded.{coded_list, coded_ℕ, coded×};
    ghost use Rattle.wh_base.specs.declared.statements.Entry.{Entry};
    ghost use Rattle.wh_base.specs.contracts.statements.Entry.{the_row};
    ghost use Rattle.wh_order.specs.Left.{IsWithin, left_of};

    ghost Value = { ℕ × List Entry };

    ghost coded = { coded× coded_ℕ (coded_list the_row.coded) };

    ghost view = { λ c. (c.session, left_of c.session c.taken c.parts c.rest.now) };

    ghost invariant = { λ c. record {
      few : c.taken + length c.rest.now < 2 ^ 32;
      within : IsWithin c.parts c.rest.now;
    } };
}

impl<'a> Cursor<'a> {
    /// At the first part of a section.
    #[tactic(auto, using(crate::proofs::Steps::cursors))]
    pub fn new(section: &'a Section) -> Cursor<'a>
        ensures { result ≡ (section.now.session, section_entries section.now) }
    {
        Cursor {
            session: section.session,
            taken: 0,
            parts: 0,
            rest: section.commands.as_slice(),
        }
    }

    /// Whether it is that of the session.
    pub fn is_of(&self, session: u32) -> bool
        ensures { result ≡ (self.now.0 == session) }
    {
        self.session == session
    }

    /// The next part; `None` where all are taken.
    #[tactic(auto, using(crate::proofs::Steps::cursors))]
    pub fn next(&self) -> Option<Entry>
        ensures { option_to_list result ≡ take 1 self.now.1 }
    {
        if self.rest.is_empty() {
            return None;
        }
        Some(Entry {
            session: self.session,
            command: self.taken + 1,
            part: self.parts + 1,
            worker: 0,
        })
    }

    /// Passes over the next part, where there is one.
    #[tactic(auto, using(crate::proofs::Steps::cursors))]
    pub fn pass(&mut self)
        ensures { self.new ≡ passed self.old }
    {
        let Some((command, behind)) = self.rest.split_first() else {
            return;
        };
        if self.parts + 1 < parts_of(command.get()) {
            self.parts += 1;
        } else {
            self.taken += 1;
            self.parts = 0;
            self.rest = behind;
        }
    }
}

/// How many parts a command has.
pub fn parts_of(command: &Command) -> u32
    ensures { result ≡ parts_of command.now }
{
    match command {
        Command::Other(Statement::Refresh(_)) => 2,
        _ => 1,
    }
}
