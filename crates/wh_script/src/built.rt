ghost use Rattle.def_built.specs.Commands.{block_is_built, command_is_built, is_complete, method_is_built, new_table_is_built, new_view_is_built, part_change_is_built, part_of_block_is_built, query_is_built, refresh_is_built, show_is_built, statement_is_built, table_statement_is_built, view_statement_is_built};
ghost use Rattle.def_built.specs.Forms.{block_form, change_form, statement_form, table_form};
ghost use Rattle.std.specs.List.{list_all};
ghost use Rattle.std.specs.Prelude.{◌≡◌};

use def_built::forms::{Form, is_built};
use wh_base::queries::RawQuery;
use wh_base::statements::{
    ChangeStatement, Command, Method, NewTable, NewView, PartChange, RefreshView, ShowStatement,
    Statement, TableStatement, ViewStatement,
};

fn new_table_is_built(table: &NewTable) -> bool
    ensures { result ≡ new_table_is_built table.now }
{
    table.partitioning.is_none() && !table.movement
}

fn part_change_is_built(change: &PartChange) -> bool
    ensures { result ≡ part_change_is_built change.now }
{
    match change {
        PartChange::Add(_) | PartChange::DropPart(_) | PartChange::Truncate(_) => true,
        PartChange::Split(_) | PartChange::Merge(_) | PartChange::Movement(_) => false,
    }
}

fn table_statement_is_built(table: &TableStatement) -> bool
    ensures { result ≡ table_statement_is_built table.now }
{
    match table {
        TableStatement::CreateTable(table) => {
            is_built(Form::CreateTable) && new_table_is_built(table.get())
        }
        TableStatement::AlterTable(alter) => {
            is_built(Form::AlterTable) && part_change_is_built(&alter.get().change)
        }
    }
}

fn query_is_built(query: &RawQuery) -> bool
    ensures { result ≡ query_is_built query.now }
{
    query.as_of.is_none()
}

fn method_is_built(method: Method) -> bool
    ensures { result ≡ method_is_built method }
{
    match method {
        Method::Force | Method::Complete => true,
        Method::Fast | Method::Partition => false,
    }
}

fn new_view_is_built(view: &NewView) -> bool
    ensures { result ≡ new_view_is_built view.now }
{
    method_is_built(view.method) && !view.on_commit && query_is_built(&view.asked.get().query)
}

fn view_statement_is_built(view: &ViewStatement) -> bool
    ensures { result ≡ view_statement_is_built view.now }
{
    match view {
        ViewStatement::CreateView(view) => new_view_is_built(view),
        _ => true,
    }
}

fn is_complete(method: Option<Method>) -> bool
    ensures { result ≡ is_complete method }
{
    match method {
        Some(Method::Complete) => true,
        _ => false,
    }
}

fn refresh_is_built(refresh: &RefreshView) -> bool
    ensures { result ≡ refresh_is_built refresh.now }
{
    is_complete(refresh.method) && refresh.more.is_empty()
}

fn show_is_built(show: &ShowStatement) -> bool
    ensures { result ≡ show_is_built show.now }
{
    match show {
        ShowStatement::ShowView(_) => true,
        _ => false,
    }
}

fn change_form(change: &ChangeStatement) -> Form
    ensures { result ≡ change_form change.now }
{
    match change {
        ChangeStatement::Insert(_) => Form::Insert,
        ChangeStatement::Update(_) => Form::Update,
        ChangeStatement::Delete(_) => Form::Delete,
        ChangeStatement::Load(_) => Form::Load,
    }
}

fn table_form(table: &TableStatement) -> Form
    ensures { result ≡ table_form table.now }
{
    match table {
        TableStatement::CreateTable(_) => Form::CreateTable,
        TableStatement::AlterTable(_) => Form::AlterTable,
    }
}

fn statement_form(statement: &Statement) -> Form
    ensures { result ≡ statement_form statement.now }
{
    match statement {
        Statement::Select(_) => Form::Select,
        Statement::Change(change) => change_form(change),
        Statement::Table(table) => table_form(table),
        Statement::Log(_) => Form::Log,
        Statement::View(_) => Form::View,
        Statement::Dimension(_) => Form::Dimension,
        Statement::Refresh(_) => Form::Refresh,
        Statement::Purge(_) => Form::Purge,
        Statement::Show(_) => Form::Show,
        Statement::ExplainQuery(_) => Form::ExplainQuery,
        Statement::Session(_) => Form::Setting,
    }
}

// The form of a block by its statements.
fn block_form(statements: &[Statement]) -> Form
    ensures { result ≡ block_form statements.now }
{
    match statements {
        [Statement::Change(change)] => change_form(change),
        _ => Form::Block,
    }
}

fn statement_is_built(statement: &Statement) -> bool
    ensures { result ≡ statement_is_built statement.now }
{
    match statement {
        Statement::Select(asked) => is_built(Form::Select) && query_is_built(&asked.get().query),
        Statement::Change(_) => false,
        Statement::Table(table) => table_statement_is_built(table),
        Statement::View(view) => is_built(Form::View) && view_statement_is_built(view),
        Statement::Refresh(refresh) => is_built(Form::Refresh) && refresh_is_built(refresh),
        Statement::Show(show) => is_built(Form::Show) && show_is_built(show),
        _ => is_built(statement_form(statement)),
    }
}

// A statement of a block that changes rows is built by its form; every other is refused there when the block runs.
fn part_of_block_is_built(statement: &Statement) -> bool
    ensures { result ≡ part_of_block_is_built statement.now }
{
    match statement {
        Statement::Change(change) => is_built(change_form(change)),
        _ => true,
    }
}

fn parts_of_block_are_built(statements: &[Statement]) -> bool
    ensures { result ≡ list_all part_of_block_is_built statements.now }
{
    for statement in statements {
        if !part_of_block_is_built(statement) {
            return false;
        }
    }
    true
}

fn block_is_built(statements: &[Statement]) -> bool
    ensures { result ≡ block_is_built statements.now }
{
    is_built(block_form(statements)) && parts_of_block_are_built(statements)
}

/// Whether the program runs a command so far, whatever stands before it: whether its form is built, and of a form that is
/// built in part, whether it is of that part; of a block also whether the forms of its statements are. Which forms and parts are built is this project's own rule.
pub fn command_is_built(command: &Command) -> bool
    ensures { result ≡ command_is_built command.now }
{
    match command {
        Command::Block(block) => block_is_built(block.statements.as_slice()),
        Command::Other(statement) => statement_is_built(statement),
        Command::Submit(statement) => is_built(Form::Submit) && statement_is_built(statement),
    }
}
