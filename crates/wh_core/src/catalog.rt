ghost use Rattle.std.specs.Prelude.{◌≡◌, ◌≤◌, ◌+◌, ◌^◌, [], ◌∷◌, ◌++◌, Some, IfOk, OnOk, OnErr, IsTrue, true};
ghost use Rattle.def_built.specs.Commands.{command_is_built, commands_are_built};
ghost use Rattle.def_output.specs.Reads.{read_of};
ghost use Rattle.def_journal.specs.Journal.{commands_of, event_of, reply_to, state_of};
ghost use Rattle.wh_answer.specs.Answered.{most_reads};
ghost use Rattle.wh_core.specs.Calls.{IsOverTables, changes_catalog};
ghost use Rattle.wh_core.specs.Put.{refusal_after};
ghost use Rattle.law_views.specs.Read.{IsRead};

use crate::notes::Noted;
use std::alloc::{AllocError, Global};
use std::marker::Model;
use wh_base::reads::Reads;
use wh_base::replies::{Done, Refusal, Refused, Reply};
use wh_base::statements::{Command, Id, Statement, TableStatement, ViewStatement};
use wh_image::Image;
use wh_keys::Keys;

/// The catalog, which contracts see as its trace: the entries of its journal with their commands. What it keeps is the
/// image that the definitions make of that trace, the indexes of its tables, how many row versions it has, and room for the
/// install of each refresh that has begun.
#[derive(Drop)]
pub struct Core<L> {
    pub(crate) notes: Vec<Noted>,
    pub(crate) image: Image<L>,
    // the indexes of the image's tables
    pub(crate) keys: Keys,
    // how many row versions are kept
    pub(crate) kept: u64,
    // for how many installs of refreshes there is room
    pub(crate) begun: usize,
}

impl<L> Model for Core<L> {
    ghost use Rattle.std.specs.Prelude.{List, ◌-◌, vec_capacity, vec_len};
    ghost use Rattle.std.specs.Coded.{coded_list};
    ghost use Rattle.wh_base.specs.declared.statements.Event.{Event};
    ghost use Rattle.wh_base.specs.contracts.statements.Event.{the_row};
    ghost use Rattle.wh_core.specs.Kept.{IsIndexed};

    ghost Value = { List Event };

    ghost coded = { coded_list the_row.coded };

    ghost view = { λ c. c.notes.items };

    ghost invariant = { λ c. IsIndexed c.notes.items c.image.tables.scn c.image.tables.tables.items c.image.views c.kept c.begun (vec_capacity c.notes - vec_len c.notes) c.keys };
}

impl<L> Core<L> {
    /// The empty catalog, with an empty journal. An error says that memory ran out.
    #[tactic(auto, using(crate::proofs::Beginning::beginning))]
    pub fn new(alloc: Global) -> Result<Core<L>, AllocError>
        ensures { IfOk result (λ c. c ≡ []) }
    {
        Ok(Core {
            notes: Vec::new(alloc),
            image: Image::new(alloc)?,
            keys: Keys::new(alloc),
            kept: 0,
            begun: 0,
        })
    }

    /// The journal so far, each entry with its command for contracts. Takes no memory.
    pub fn notes(&self) -> &[Noted]
        ensures { result.now ≡ self.now }
    {
        self.notes.as_slice()
    }

    /// Each command of the journal is of a form that is built. It does nothing.
    pub fn built(&self)
        ensures { commands_are_built (commands_of self.now) ≡ true }
    {
        let _kept = self.kept;
    }

    /// The SCN that the commits of its trace have come to: that of its image. It is 0 for the empty catalog. Takes no memory.
    pub fn scn(&self) -> u64
        ensures { result ≡ (state_of self.now).catalog.scn }
    {
        self.image.scn()
    }

    /// The step of a statement on a table or a view (the Data Warehousing Guide's chapters on materialized views; CREATE TABLE is the SQL
    /// language's): it enters the journal and takes effect, `DONE` with the SCN after it and, for a view that is built at once, the base
    /// rows read; or it is refused, and then nothing but the journal changes: MV-01 for a name that is taken, MV-16 for too many objects,
    /// MV-02 for a view that isn't there, and what refuses the table's definition or the view's query. A view is created over tables: the
    /// caller has to know that no view of its FROM is one that the commands before it create. An error says that memory ran out;
    /// then the catalog is as it was, and some rows may have been read. At most `most_reads` rows are read in any case.
    pub fn ddl(
        &mut self,
        alloc: Global,
        id: Id,
        command: &Command,
        statement: &Statement,
        reads: &mut Reads<L>,
    ) -> Result<Reply, AllocError>
        requires command { command.now ≡ Command.Other statement.now }
        requires changes { IsTrue (changes_catalog statement.now) }
        requires built { IsTrue (command_is_built command.now) }
        requires over_tables { IsOverTables (commands_of self.old) command.now }
        requires read { IsRead command.now }
        requires room { reads.old ≤ 2 ^ 63 }
        ensures reply { IfOk result (λ r. reply_to self.old (event_of id command.now) ≡ Some r) }
        ensures raised { IfOk result (λ r. reads.new ≡ reads.old + read_of r) }
        ensures least { reads.old ≤ reads.new }
        ensures most { reads.new ≤ reads.old + most_reads }
        ensures ok { OnOk result (self.new ≡ self.old ++ event_of id command.now ∷ []) }
        ensures err { OnErr result (self.new ≡ self.old) }
    {
        match statement {
            Statement::Table(TableStatement::CreateTable(table)) => {
                self.create_table(alloc, id, command, table.get())
            }
            Statement::View(ViewStatement::CreateView(view)) => {
                self.create_view(alloc, id, command, view, reads)
            }
            Statement::View(ViewStatement::AlterView(view)) => {
                self.switch_view(alloc, id, command, view)
            }
            Statement::View(ViewStatement::DropView(name)) => self.drop_view(
                alloc, id, command, name,
            ),
            Statement::View(ViewStatement::Unregister(name)) => {
                self.unregister_view(alloc, id, command, name)
            }
            _ => unreachable!(),
        }
    }
}

/// A refusal that read so many base rows.
pub(crate) fn refusal(code: Refusal, read: u64) -> Reply
    ensures { result ≡ refusal_after read code }
{
    Reply::Refuse(Refused {
        code,
        at: None,
        read,
    })
}

/// `DONE` with the rows read.
pub(crate) fn done(scn: u64, read: u64) -> Reply
    ensures { result ≡ Reply.Catalog (record { scn = scn; read = read }) }
{
    Reply::Catalog(Done { scn, read })
}
