ghost use Rattle.std.specs.Prelude.{◌≡◌, [], ◌∷◌, ◌++◌, Some, IfOk, OnOk, OnErr, IsTrue};
ghost use Rattle.def_built.specs.Commands.{command_is_built};
ghost use Rattle.def_journal.specs.Journal.{event_of, reply_to};
ghost use Rattle.def_output.specs.Reads.{read_of};
ghost use Rattle.wh_answer.specs.Over.{IsImageOf};
ghost use Rattle.wh_base.specs.Lists.{option_case};
ghost use Rattle.wh_core.specs.Calls.{HasBegun, bearer_of, begins_of, install_of, takes_image};
ghost use Rattle.law_views.specs.Read.{IsRead};

use crate::catalog::Core;
use crate::notes::{install_note, note_of};
use crate::putting::put;
use std::alloc::{AllocError, Global};
use wh_answer::Computed;
use wh_base::replies::Reply;
use wh_base::statements::{Command, Id, RefreshView, Statement};
use wh_base::txt::Txt;
use wh_image::Image;

/// What is kept of the begin of a refresh: the name of its view, the view's number and point then, `None` where there was no such view or no
/// point, and the SCN of the image.
#[derive(Drop)]
pub struct Begun {
    pub name: Txt,
    pub view: Option<u64>,
    pub point: Option<u64>,
    pub scn: u64,
}

impl<L> Core<L> {
    /// The first part of a SELECT, a SHOW or a refresh: it enters the journal, and its image is taken. For a refresh room is kept for its
    /// install. An error says that memory ran out; then the catalog is as it was.
    pub fn snapshot(
        &mut self,
        alloc: Global,
        id: Id,
        command: &Command,
        statement: &Statement,
    ) -> Result<Image<L>, AllocError>
        requires command { command.now ≡ Command.Other statement.now }
        requires reads { IsTrue (takes_image statement.now) }
        requires built { IsTrue (command_is_built command.now) }
        requires read { IsRead command.now }
        ensures image { IfOk result (λ i. IsImageOf self.old i.tables.scn i.tables.tables.items i.views) }
        ensures ok { OnOk result (self.new ≡ self.old ++ event_of id command.now ∷ []) }
        ensures err { OnErr result (self.new ≡ self.old) }
    {
        let image = self.image.copy(alloc)?;
        let begins = begins_of(statement);
        self.notes.reserve(self.begun + begins + 1)?;
        self.notes.push_reserved(note_of(id, command));
        self.begun += begins;
        Ok(image)
    }

    /// The second part of a refresh: it enters the journal, and the view takes the rows that were computed over the image of the begin,
    /// `REFRESHED`. It is refused MV-02 where there was no such view at the begin or it was dropped since, and MV-24 where another refresh was
    /// installed since; then nothing but the journal changes. It takes no memory and cannot fail.
    ///
    /// `begun` and `computed` have to be what the session's begin kept and what was computed over its image.
    pub fn install(
        &mut self,
        id: Id,
        command: &Command,
        asked: &RefreshView,
        begun: Begun,
        computed: Option<Computed>,
    ) -> Reply
        requires command { command.now ≡ Command.Other (Statement.Refresh asked.now) }
        requires built { IsTrue (command_is_built command.now) }
        requires name { begun.name ≡ asked.now.name }
        requires begun { HasBegun self.old (bearer_of id) begun computed }
        ensures reply { reply_to self.old (install_of id command.now) ≡ Some result }
        ensures read { read_of result ≡ option_case computed 0 (λ x. x.read) }
        ensures trace { self.new ≡ self.old ++ install_of id command.now ∷ [] }
    {
        let _ = self.image.views.as_slice();
        self.notes.push_reserved(install_note(id, command));
        self.begun -= 1;
        put(&mut self.image.views, begun, computed)
    }
}

/// How many installs a statement will need.
fn begins_of(statement: &Statement) -> usize
    ensures { result ≡ begins_of statement.now }
{
    match statement {
        Statement::Refresh(_) => 1,
        _ => 0,
    }
}
