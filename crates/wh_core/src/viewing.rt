ghost use Rattle.std.specs.Prelude.{◌≡◌, ◌≤◌, ◌<◌, ◌+◌, ◌-◌, ◌^◌, [], ◌∷◌, ◌++◌, Some, IfOk, OnOk, OnErr, IsTrue, cond, length, map, not};
ghost use Rattle.def_built.specs.Commands.{command_is_built};
ghost use Rattle.def_journal.specs.Journal.{commands_of, event_of, reply_to};
ghost use Rattle.def_meaning.specs.Meaning.{stored};
ghost use Rattle.def_meaning.specs.Ranges.{base_reads};
ghost use Rattle.def_output.specs.Reads.{read_of};
ghost use Rattle.def_resolve.specs.Resolve.{resolve};
ghost use Rattle.wh_answer.specs.Answered.{most_reads};
ghost use Rattle.wh_base.specs.Lists.{where_true};
ghost use Rattle.wh_base.specs.Tables.{Base, def_at};
ghost use Rattle.wh_core.specs.Asked.{asked_def, asked_star, view_refusal};
ghost use Rattle.wh_core.specs.Calls.{IsOverTables};
ghost use Rattle.wh_evaluate.specs.Shown.{CanEvaluate, Shows};
ghost use Rattle.wh_table.specs.Kept.{defs_of, no_key, no_part, tables_at};
ghost use Rattle.wh_view.specs.Kept.{new_kept};
ghost use Rattle.law_views.specs.Read.{IsRead};

use crate::catalog::{Core, done, refusal};
use crate::names::{is_taken, number_of};
use crate::notes::note_of;
use std::alloc::{AllocError, Global};
use wh_answer::laws::known;
use wh_base::copied::Copied;
use wh_base::queries::StarQuery;
use wh_base::reads::Reads;
use wh_base::replies::{Counted, Refusal, Reply};
use wh_base::seq::Seq;
use wh_base::statements::{Command, Id, NewView, Statement, ViewStatement, ViewSwitch};
use wh_base::tables::TableDef;
use wh_base::txt::Txt;
use wh_base::views::{ViewDef, ViewRows};
use wh_evaluate::evaluate_view;
use wh_image::Image;
use wh_resolve::{QueryFault, resolve};
use wh_table::{Tables, copied_def};
use wh_view::KeptView;

/// The most views.
const MOST_VIEWS: usize = 64;

/// A new view with what it stores, and the base rows that were read for it.
#[derive(Drop)]
pub(crate) struct Built {
    kept: KeptView,
    read: u64,
}

impl<L> Core<L> {
    /// The step of a CREATE MATERIALIZED VIEW over tables: with BUILD IMMEDIATE it stores what its query means now.
    pub(crate) fn create_view(
        &mut self,
        alloc: Global,
        id: Id,
        command: &Command,
        view: &NewView,
        reads: &mut Reads<L>,
    ) -> Result<Reply, AllocError>
        requires command { command.now ≡ Command.Other (Statement.View (ViewStatement.CreateView view.now)) }
        requires built { IsTrue (command_is_built command.now) }
        requires over_tables { IsOverTables (commands_of self.old) command.now }
        requires read { IsRead command.now }
        requires room { reads.old ≤ 2 ^ 63 }
        ensures reply { IfOk result (λ r. reply_to self.old (event_of id command.now) ≡ Some r) }
        ensures raised { IfOk result (λ r. reads.new ≡ reads.old + read_of r) }
        ensures least { reads.old ≤ reads.new }
        ensures most { reads.new ≤ reads.old + most_reads }
        ensures ok { OnOk result (self.new ≡ self.old ++ event_of id command.now ∷ []) }
        ensures err { OnErr result (self.new ≡ self.old) }
    {
        self.notes.reserve(self.begun + 1)?;
        known(&self.image);
        match asked_star(alloc, &self.image, view)? {
            Ok(query) => {
                let built = built_view(alloc, &self.image, view, query, reads)?;
                self.image.views.add(built.kept)?;
                self.notes.push_reserved(note_of(id, command));
                Ok(done(self.image.scn(), built.read))
            }
            Err(code) => {
                self.notes.push_reserved(note_of(id, command));
                Ok(refusal(code, 0))
            }
        }
    }

    /// The step of an ALTER MATERIALIZED VIEW .. ENABLE or DISABLE QUERY REWRITE.
    pub(crate) fn switch_view(
        &mut self,
        alloc: Global,
        id: Id,
        command: &Command,
        view: &ViewSwitch,
    ) -> Result<Reply, AllocError>
        requires command { command.now ≡ Command.Other (Statement.View (ViewStatement.AlterView view.now)) }
        requires built { IsTrue (command_is_built command.now) }
        ensures reply { IfOk result (λ r. reply_to self.old (event_of id command.now) ≡ Some r) }
        ensures unread { IfOk result (λ r. read_of r ≡ 0) }
        ensures ok { OnOk result (self.new ≡ self.old ++ event_of id command.now ∷ []) }
        ensures err { OnErr result (self.new ≡ self.old) }
    {
        self.notes.reserve(self.begun + 1)?;
        let Some(number) = number_of(&self.image, &view.name) else {
            let name = view.name.copy(alloc)?;
            self.notes.push_reserved(note_of(id, command));
            return Ok(refusal(Refusal::NoSuchObject(name), 0));
        };
        self.image.views.switch(number, view.rewrite);
        self.notes.push_reserved(note_of(id, command));
        Ok(done(self.image.scn(), 0))
    }

    /// The step of a DROP MATERIALIZED VIEW.
    pub(crate) fn drop_view(
        &mut self,
        alloc: Global,
        id: Id,
        command: &Command,
        name: &Txt,
    ) -> Result<Reply, AllocError>
        requires command { command.now ≡ Command.Other (Statement.View (ViewStatement.DropView name.now)) }
        requires built { IsTrue (command_is_built command.now) }
        ensures reply { IfOk result (λ r. reply_to self.old (event_of id command.now) ≡ Some r) }
        ensures unread { IfOk result (λ r. read_of r ≡ 0) }
        ensures ok { OnOk result (self.new ≡ self.old ++ event_of id command.now ∷ []) }
        ensures err { OnErr result (self.new ≡ self.old) }
    {
        self.notes.reserve(self.begun + 1)?;
        let Some(number) = number_of(&self.image, name) else {
            let name = name.copy(alloc)?;
            self.notes.push_reserved(note_of(id, command));
            return Ok(refusal(Refusal::NoSuchObject(name), 0));
        };
        self.image.views.remove(number);
        self.notes.push_reserved(note_of(id, command));
        Ok(done(self.image.scn(), 0))
    }

    /// The step of an UNREGISTER.
    pub(crate) fn unregister_view(
        &mut self,
        alloc: Global,
        id: Id,
        command: &Command,
        name: &Txt,
    ) -> Result<Reply, AllocError>
        requires command { command.now ≡ Command.Other (Statement.View (ViewStatement.Unregister name.now)) }
        requires built { IsTrue (command_is_built command.now) }
        ensures reply { IfOk result (λ r. reply_to self.old (event_of id command.now) ≡ Some r) }
        ensures unread { IfOk result (λ r. read_of r ≡ 0) }
        ensures ok { OnOk result (self.new ≡ self.old ++ event_of id command.now ∷ []) }
        ensures err { OnErr result (self.new ≡ self.old) }
    {
        self.notes.reserve(self.begun + 1)?;
        let Some(number) = number_of(&self.image, name) else {
            let name = name.copy(alloc)?;
            self.notes.push_reserved(note_of(id, command));
            return Ok(refusal(Refusal::NoSuchObject(name), 0));
        };
        self.image.views.unregister(number);
        self.notes.push_reserved(note_of(id, command));
        Ok(done(self.image.scn(), 0))
    }
}

/// Why there can be no new view of this name in an image.
fn view_refusal<L>(
    alloc: Global,
    image: &Image<L>,
    view: &NewView,
) -> Result<Option<Refusal>, AllocError>
    ensures { IfOk result (λ r. r ≡ view_refusal image.now.tables.tables.items image.now.views view.now) }
{
    if is_taken(image, &view.name) {
        return Ok(Some(Refusal::NameTaken(view.name.copy(alloc)?)));
    }
    if image.views.as_slice().len() >= MOST_VIEWS {
        return Ok(Some(Refusal::TooManyObjects(Counted::Views)));
    }
    Ok(None)
}

/// The star form of a new view's query over the tables of an image, or why it has none.
fn star_of<L>(
    alloc: Global,
    image: &Image<L>,
    view: &NewView,
) -> Result<Result<StarQuery, Refusal>, AllocError>
    ensures { IfOk result (λ r. r ≡ resolve (defs_of image.now.tables.tables.items) view.now.asked.query) }
{
    match resolve(alloc, image.tables(), &view.asked.get().query) {
        Ok(query) => Ok(Ok(query)),
        Err(QueryFault::Refused(code)) => Ok(Err(code)),
        Err(QueryFault::Memory) => Err(AllocError),
    }
}

/// The star form of the query of a new view, or why there is no such view.
fn asked_star<L>(
    alloc: Global,
    image: &Image<L>,
    view: &NewView,
) -> Result<Result<StarQuery, Refusal>, AllocError>
    ensures { IfOk result (λ r. r ≡ asked_star image.now.tables.tables.items image.now.views view.now) }
{
    match view_refusal(alloc, image, view)? {
        Some(code) => Ok(Err(code)),
        None => {
            let star = star_of(alloc, image, view)?;
            Ok(star)
        }
    }
}

/// The point of a new view at an SCN: none where it is deferred.
fn first_point(deferred: bool, scn: u64) -> Option<u64>
    ensures { result ≡ where_true (not deferred) scn }
{
    if deferred { None } else { Some(scn) }
}

/// What a new view of a query stores: nothing where it is deferred, else what the query means over the tables. An error says
/// that memory ran out; then some rows may have been read.
fn first_rows<L>(
    alloc: Global,
    tables: &Tables<L>,
    deferred: bool,
    query: &StarQuery,
    reads: &mut Reads<L>,
) -> Result<ViewRows, AllocError>
    requires known { CanEvaluate (tables_at tables.now.scn tables.now.tables.items) (map no_key tables.now.tables.items) (map no_part tables.now.tables.items) query.now }
    requires room { reads.old ≤ 2 ^ 63 }
    ensures rows { (base : Base) → Shows (tables_at tables.now.scn tables.now.tables.items) (map no_key tables.now.tables.items) (map no_part tables.now.tables.items) base → IfOk result (λ rows. rows ≡ cond deferred [] (stored query.now base)) }
    ensures raised { (base : Base) → Shows (tables_at tables.now.scn tables.now.tables.items) (map no_key tables.now.tables.items) (map no_part tables.now.tables.items) base → OnOk result (reads.new ≡ reads.old + cond deferred 0 (base_reads query.now base)) }
    ensures least { reads.old ≤ reads.new }
    ensures most { (base : Base) → Shows (tables_at tables.now.scn tables.now.tables.items) (map no_key tables.now.tables.items) (map no_part tables.now.tables.items) base → reads.new ≤ reads.old + base_reads query.now base }
{
    if deferred {
        return Ok(Seq::new(alloc));
    }
    let rows = evaluate_view(alloc, query, tables, reads)?;
    Ok(rows)
}

/// The definition of the table with a number; an empty one where there is none. An error says that memory ran out.
fn table_def(alloc: Global, defs: &[TableDef], number: u32) -> Result<TableDef, AllocError>
    ensures { IfOk result (λ d. d ≡ def_at defs.now number) }
{
    match defs.get(number as usize) {
        Some(def) => {
            let copy = copied_def(alloc, def)?;
            Ok(copy)
        }
        None => Ok(TableDef {
            name: Txt::new(alloc),
            columns: Seq::new(alloc),
            keys: Seq::new(alloc),
            primary: None,
            foreign: Seq::new(alloc),
            part_key: None,
            movement: false,
        }),
    }
}

/// The definitions of the tables with these numbers. An error says that memory ran out.
fn table_defs(
    alloc: Global,
    defs: &[TableDef],
    numbers: &[u32],
) -> Result<Seq<TableDef>, AllocError>
    ensures { IfOk result (λ all. all ≡ map (def_at defs.now) numbers.now) }
{
    let mut all = Seq::new(alloc);
    for number in numbers {
        all.push(table_def(alloc, defs, *number)?)?;
    }
    Ok(all)
}

/// The definition of a new view of a query in star form. An error says that memory ran out.
fn asked_def<L>(
    alloc: Global,
    image: &Image<L>,
    view: &NewView,
    query: StarQuery,
) -> Result<ViewDef, AllocError>
    requires { image.now.views.made < 2 ^ 64 - 1 }
    ensures { IfOk result (λ d. d ≡ asked_def image.now.tables.tables.items image.now.views view.now query) }
{
    let tables = table_defs(alloc, image.tables().as_slice(), query.tables.as_slice())?;
    Ok(ViewDef {
        view: image.views.made() + 1,
        name: view.name.copy(alloc)?,
        query,
        tables,
        tokens: view.asked.get().tokens.copied(alloc)?,
        method: view.method,
        on_commit: view.on_commit,
        rewrite: view.rewrite,
        beneath: None,
    })
}

/// The new view of a query in star form, with what it stores. An error says that memory ran out; then some rows may have been
/// read.
fn built_view<L>(
    alloc: Global,
    image: &Image<L>,
    view: &NewView,
    query: StarQuery,
    reads: &mut Reads<L>,
) -> Result<Built, AllocError>
    requires known { CanEvaluate (tables_at image.now.tables.scn image.now.tables.tables.items) (map no_key image.now.tables.tables.items) (map no_part image.now.tables.tables.items) query }
    requires next { image.now.views.made < 2 ^ 64 - 1 }
    requires room { reads.old ≤ 2 ^ 63 }
    ensures kept { (base : Base) → Shows (tables_at image.now.tables.scn image.now.tables.tables.items) (map no_key image.now.tables.tables.items) (map no_part image.now.tables.tables.items) base → IfOk result (λ b. b.kept ≡ new_kept (asked_def image.now.tables.tables.items image.now.views view.now query) (where_true (not view.now.deferred) image.now.tables.scn) (cond view.now.deferred [] (stored query base))) }
    ensures read { (base : Base) → Shows (tables_at image.now.tables.scn image.now.tables.tables.items) (map no_key image.now.tables.tables.items) (map no_part image.now.tables.tables.items) base → IfOk result (λ b. b.read ≡ cond view.now.deferred 0 (base_reads query base)) }
    ensures raised { IfOk result (λ b. reads.new ≡ reads.old + b.read) }
    ensures least { reads.old ≤ reads.new }
    ensures most { (base : Base) → Shows (tables_at image.now.tables.scn image.now.tables.tables.items) (map no_key image.now.tables.tables.items) (map no_part image.now.tables.tables.items) base → reads.new ≤ reads.old + base_reads query base }
{
    let before = reads.count();
    let rows = first_rows(alloc, &image.tables, view.deferred, &query, reads)?;
    let point = first_point(view.deferred, image.scn());
    let def = asked_def(alloc, image, view, query)?;
    let kept = KeptView::new(alloc, def, point, rows)?;
    Ok(Built {
        kept,
        read: reads.count() - before,
    })
}
