ghost use Rattle.std.specs.Prelude.{◌≡◌, ◌≤◌, ◌+◌, ◌^◌, [], ◌∷◌, ◌++◌, Some, IfOk, OnOk, OnErr, IsTrue, length};
ghost use Rattle.def_built.specs.Commands.{command_is_built};
ghost use Rattle.def_output.specs.Reads.{read_of};
ghost use Rattle.def_journal.specs.Journal.{event_of, reply_to};
ghost use Rattle.wh_keys.specs.Made.{empty_indexes};
ghost use Rattle.wh_table.specs.Stored.{begun};

use crate::catalog::{Core, done, refusal};
use crate::names::is_taken;
use crate::notes::note_of;
use law_views::laws::tables_have_sizes;
use std::alloc::{AllocError, Global};
use wh_base::reads::Reads;
use wh_base::replies::{Committed, Reply};
use wh_base::seq::Seq;
use wh_base::statements::{Block, Command, Id, NewTable, Statement, TableStatement};
use wh_base::tables::TableDef;
use wh_check::{Checked, check_block};
use wh_define::define_table;
use wh_keys::Keys;
use wh_table::Tables;

impl<L> Core<L> {
    /// The step of a block: it enters the journal and takes effect all or nothing, `COMMITTED` with the SCN after it, how many changes it
    /// made and no view; or its first refusal, with the number of the statement at fault, and then nothing but the journal changes. Both
    /// say how many base rows were read: for each UPDATE and DELETE that was reached and whose names and kinds are right, all rows that
    /// its table had then. It takes all its memory before its first change.
    ///
    /// An error says that memory ran out, or one of the other things that `check_block` names, which no script brings about; then the
    /// catalog is as it was, and some rows may have been read.
    pub fn commit(
        &mut self,
        alloc: Global,
        id: Id,
        command: &Command,
        block: &Block,
        reads: &mut Reads<L>,
    ) -> Result<Reply, AllocError>
        requires command { command.now ≡ Command.Block block.now }
        requires built { IsTrue (command_is_built command.now) }
        requires room { reads.old ≤ 2 ^ 63 }
        ensures reply { IfOk result (λ r. reply_to self.old (event_of id command.now) ≡ Some r) }
        ensures raised { IfOk result (λ r. reads.new ≡ reads.old + read_of r) }
        ensures least { reads.old ≤ reads.new }
        ensures ok { OnOk result (self.new ≡ self.old ++ event_of id command.now ∷ []) }
        ensures err { OnErr result (self.new ≡ self.old) }
    {
        tables_have_sizes();
        self.notes.reserve(self.begun + 1)?;
        match check_block(
            alloc,
            &self.image.tables,
            &mut self.keys,
            self.kept,
            block.statements.as_slice(),
            reads,
        )? {
            Ok(
                Checked {
                    tables,
                    rows,
                    versions,
                    read,
                },
            ) => {
                let scn = tables.scn();
                self.image.tables = tables;
                self.kept = versions;
                self.notes.push_reserved(note_of(id, command));
                Ok(Reply::Commit(Committed {
                    scn,
                    rows,
                    read,
                    views: Seq::new(alloc),
                }))
            }
            Err(refused) => {
                self.notes.push_reserved(note_of(id, command));
                Ok(Reply::Refuse(refused))
            }
        }
    }

    /// The step of a CREATE TABLE.
    pub(crate) fn create_table(
        &mut self,
        alloc: Global,
        id: Id,
        command: &Command,
        table: &NewTable,
    ) -> Result<Reply, AllocError>
        requires command { command.now ≡ Command.Other (Statement.Table (TableStatement.CreateTable table.now)) }
        requires built { IsTrue (command_is_built command.now) }
        ensures reply { IfOk result (λ r. reply_to self.old (event_of id command.now) ≡ Some r) }
        ensures unread { IfOk result (λ r. read_of r ≡ 0) }
        ensures ok { OnOk result (self.new ≡ self.old ++ event_of id command.now ∷ []) }
        ensures err { OnErr result (self.new ≡ self.old) }
    {
        self.notes.reserve(self.begun + 1)?;
        let taken = is_taken(&self.image, &table.name);
        match define_table(alloc, taken, self.image.tables(), table)? {
            Ok(defined) => {
                push_table(alloc, &mut self.image.tables, &mut self.keys, defined.def)?;
                self.image.tables.raise();
                self.notes.push_reserved(note_of(id, command));
                Ok(done(self.image.scn(), 0))
            }
            Err(code) => {
                self.notes.push_reserved(note_of(id, command));
                Ok(refusal(code, 0))
            }
        }
    }
}

/// One table more, with its indexes. After an error, which says that memory ran out or that there are 2^32 - 1 tables, the tables and
/// the indexes are as they were.
#[tactic(auto, using(crate::proofs::Indexing::indexing))]
fn push_table<L>(
    alloc: Global,
    tables: &mut Tables<L>,
    keys: &mut Keys,
    def: TableDef,
) -> Result<(), AllocError>
    requires count { length keys.old.now ≡ length tables.old.tables.items }
    requires settled { keys.old.before ≡ keys.old.now }
    ensures scn { tables.new.scn ≡ tables.old.scn }
    ensures tables { OnOk result (tables.new.tables.items ≡ tables.old.tables.items ++ begun def ∷ []) }
    ensures keys { OnOk result (keys.new ≡ record { now = keys.old.now ++ empty_indexes def ∷ []; before = keys.old.now ++ empty_indexes def ∷ [] }) }
    ensures tables_err { OnErr result (tables.new.tables.items ≡ tables.old.tables.items) }
    ensures keys_err { OnErr result (keys.new ≡ keys.old) }
{
    let count = tables.len();
    keys.push_table(alloc, &def)?;
    match tables.push_table(alloc, def) {
        Ok(()) => Ok(()),
        Err(error) => {
            keys.truncate(count);
            Err(error)
        }
    }
}
