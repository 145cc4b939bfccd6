ghost use Rattle.std.specs.Prelude.{◌≡◌, ◌≤◌, ◌+◌, ◌^◌, [], ◌∷◌, ◌++◌, IfOk, OnErr, OnOk, IsTrue, Some};
ghost use Rattle.def_built.specs.Commands.{command_is_built};
ghost use Rattle.def_journal.specs.Journal.{commands_of, event_of, reply_to};
ghost use Rattle.def_output.specs.Reads.{read_of};
ghost use Rattle.wh_answer.specs.Answered.{most_reads};
ghost use Rattle.wh_base.specs.Lists.{option_case};
ghost use Rattle.wh_core.specs.Calls.{IsOverTables, install_of};
ghost use Rattle.wh_session.specs.Parts.{IsFinished, IsFirst, IsPending, IsStarted};
ghost use Rattle.wh_session.specs.Run.{Grows};
ghost use Rattle.wh_session.specs.Tally.{told_after};
ghost use Rattle.law_views.specs.Read.{IsRead};

use crate::snapshots::{begin_part, select_part, show_part};
use crate::telling::Telling;
use std::alloc::{AllocError, Global};
use wh_answer::Computed;
use wh_base::reads::Reads;
use wh_base::replies::Reply;
use wh_base::shared::Shared;
use wh_base::statements::{Command, Id, Statement};
use wh_core::{Begun, Core};

/// Where a counter stands above so many rows, no more are read: what is read for one command is less than what is left up to 2^64.
const MOST_READ: u64 = 0x8000_0000_0000_0000;

/// A refresh that has begun: its command, what its begin kept, and what was computed over its image, `None` where there was no such view.
#[derive(Drop)]
pub struct Pending {
    pub id: Id,
    pub command: Shared<Command>,
    pub begun: Begun,
    pub computed: Option<Computed>,
}

/// What the first part of a command gives: its reply, or a refresh that has begun.
#[derive(Drop)]
pub enum Part {
    Replied(Reply),
    Begun(Begun, Option<Computed>),
}

/// Takes the first part of a command, and tells its reply; or it gives the refresh that has begun, and tells nothing. An error says that memory ran out,
/// that the counter stands above 2^63 rows, that a number of the tally would have more than 64 bits, or one of the other things that `Core::commit` names,
/// which no run brings about; then the core's trace may have the event of the part, the text a part of the reply, and some rows may have been read.
pub fn start<L>(
    alloc: Global,
    core: &mut Core<L>,
    id: Id,
    command: Shared<Command>,
    telling: &mut Telling,
    reads: &mut Reads<L>,
) -> Result<Option<Pending>, AllocError>
    requires built { IsTrue (command_is_built command) }
    requires over_tables { IsOverTables (commands_of core.old) command }
    requires read { IsRead command }
    ensures trace { OnOk result (core.new ≡ core.old ++ event_of id command ∷ []) }
    ensures started { IfOk result (λ pending. IsStarted core.old core.new id command pending telling.old telling.new reads.old reads.new) }
    ensures least { reads.old ≤ reads.new }
    ensures err { OnErr result (Grows core.old core.new) }
{
    match first_part(alloc, core, id, command.get(), reads)? {
        Part::Replied(reply) => {
            drop(command);
            tell(telling, id, reply)?;
            Ok(None)
        }
        Part::Begun(begun, computed) => {
            let pending = Pending {
                id,
                command,
                begun,
                computed,
            };
            Ok(Some(pending))
        }
    }
}

/// Takes the second part of a refresh, and tells its reply. An error is one of `Telling::tell`; then the text may have a part of the reply.
pub fn finish<L>(
    core: &mut Core<L>,
    pending: Pending,
    telling: &mut Telling,
) -> Result<(), AllocError>
    requires pending { IsPending core.old pending.id pending.command pending.begun pending.computed }
    ensures trace { core.new ≡ core.old ++ install_of pending.id pending.command ∷ [] }
    ensures told { OnOk result (IsFinished core.old pending telling.old telling.new) }
{
    let id = pending.id;
    let reply = second_part(core, pending);
    tell(telling, id, reply)?;
    Ok(())
}

/// Tells a reply and lets it go. An error is one of `Telling::tell`.
fn tell(telling: &mut Telling, id: Id, reply: Reply) -> Result<(), AllocError>
    ensures { OnOk result (telling.new ≡ told_after telling.old id reply) }
{
    let told = telling.tell(id, &reply);
    drop(reply);
    told?;
    Ok(())
}

/// Takes the first part of a command. An error says that memory ran out, that the counter stands above `MOST_READ`, or what else `Core::commit` names; then
/// the core's trace may have its event, and some rows may have been read.
#[tactic(auto, using(crate::proofs::Growing::growing))]
fn first_part<L>(
    alloc: Global,
    core: &mut Core<L>,
    id: Id,
    command: &Command,
    reads: &mut Reads<L>,
) -> Result<Part, AllocError>
    requires built { IsTrue (command_is_built command.now) }
    requires over_tables { IsOverTables (commands_of core.old) command.now }
    requires read { IsRead command.now }
    ensures trace { OnOk result (core.new ≡ core.old ++ event_of id command.now ∷ []) }
    ensures first { IfOk result (λ part. IsFirst core.old core.new id command.now part reads.old reads.new) }
    ensures least { reads.old ≤ reads.new }
    ensures err { OnErr result (Grows core.old core.new) }
{
    if reads.count() > MOST_READ {
        return Err(AllocError);
    }
    match command {
        Command::Block(block) => {
            let reply = core.commit(alloc, id, command, block, reads)?;
            Ok(Part::Replied(reply))
        }
        Command::Other(statement) => {
            let part = statement_part(alloc, core, id, command, statement, reads)?;
            Ok(part)
        }
        // No command of a form that is built hands a refresh to the workers.
        Command::Submit(_) => unreachable!(),
    }
}

/// The same for a statement by itself.
#[tactic(auto, using(crate::proofs::Growing::growing))]
fn statement_part<L>(
    alloc: Global,
    core: &mut Core<L>,
    id: Id,
    command: &Command,
    statement: &Statement,
    reads: &mut Reads<L>,
) -> Result<Part, AllocError>
    requires command { command.now ≡ Command.Other statement.now }
    requires built { IsTrue (command_is_built command.now) }
    requires over_tables { IsOverTables (commands_of core.old) command.now }
    requires read { IsRead command.now }
    requires room { reads.old ≤ 2 ^ 63 }
    ensures trace { OnOk result (core.new ≡ core.old ++ event_of id command.now ∷ []) }
    ensures first { IfOk result (λ part. IsFirst core.old core.new id command.now part reads.old reads.new) }
    ensures least { reads.old ≤ reads.new }
    ensures most { reads.new ≤ reads.old + most_reads }
    ensures err { OnErr result (Grows core.old core.new) }
{
    match statement {
        Statement::Select(asked) => {
            let reply = select_part(alloc, core, id, command, statement, asked.get(), reads)?;
            Ok(Part::Replied(reply))
        }
        Statement::Show(shown) => {
            let reply = show_part(alloc, core, id, command, statement, shown)?;
            Ok(Part::Replied(reply))
        }
        Statement::Refresh(asked) => {
            let part = begin_part(alloc, core, id, command, statement, asked, reads)?;
            Ok(part)
        }
        Statement::Table(_) => {
            let reply = core.ddl(alloc, id, command, statement, reads)?;
            Ok(Part::Replied(reply))
        }
        Statement::View(_) => {
            let reply = core.ddl(alloc, id, command, statement, reads)?;
            Ok(Part::Replied(reply))
        }
        _ => unreachable!(),
    }
}

/// Takes the second part of a refresh. It takes no memory.
fn second_part<L>(core: &mut Core<L>, pending: Pending) -> Reply
    requires pending { IsPending core.old pending.id pending.command pending.begun pending.computed }
    ensures reply { reply_to core.old (install_of pending.id pending.command) ≡ Some result }
    ensures read { read_of result ≡ option_case pending.computed 0 (λ x. x.read) }
    ensures trace { core.new ≡ core.old ++ install_of pending.id pending.command ∷ [] }
{
    let Pending {
        id,
        command,
        begun,
        computed,
    } = pending;
    match command.get() {
        Command::Other(Statement::Refresh(asked)) => {
            core.install(id, command.get(), asked, begun, computed)
        }
        _ => unreachable!(),
    }
}
