ghost use Rattle.std.specs.Prelude.{◌≡◌};
ghost use Rattle.def_journal.specs.Journal.{event_of};
ghost use Rattle.wh_core.specs.Calls.{install_of};

use std::marker::Model;
use std::snapshot::Snapshot;
use wh_base::statements::{Command, Entry, Id};

/// An entry of the journal, which contracts see with its command. The command itself isn't kept, since nothing is done
/// with it any more once it has run.
#[derive(Drop)]
pub struct Noted {
    entry: Entry,
    command: Snapshot<Command>,
}

impl Model for Noted {
    ghost use Rattle.wh_base.specs.declared.statements.Event.{Event};
    ghost use Rattle.wh_base.specs.contracts.statements.Event.{the_row};

    ghost Value = { Event };

    ghost coded = { the_row.coded };

    ghost view = { λ n. record { entry = n.entry; command = n.command.value } };
}

/// The entry of a command that has one part, or of the first of two.
pub(crate) fn note_of(id: Id, command: &Command) -> Noted
    ensures { result ≡ event_of id command.now }
{
    Noted {
        entry: Entry {
            session: id.session,
            command: id.command,
            part: 1,
            worker: id.worker,
        },
        command: Snapshot::of(command),
    }
}

/// The entry of the install of a refresh.
pub(crate) fn install_note(id: Id, command: &Command) -> Noted
    ensures { result ≡ install_of id command.now }
{
    Noted {
        entry: Entry {
            session: id.session,
            command: id.command,
            part: 2,
            worker: id.worker,
        },
        command: Snapshot::of(command),
    }
}
