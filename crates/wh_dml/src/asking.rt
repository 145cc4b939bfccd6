//! The first step of a statement: what it asks of tables at their SCN.
ghost use Rattle.std.specs.Prelude.{◌≡◌, ◌+◌, ◌≤◌, ◌<◌, ◌^◌, IfOk, length, map};
ghost use Rattle.def_effect.specs.Block.{the_table};
ghost use Rattle.wh_base.specs.Tables.{most_live};
ghost use Rattle.wh_base.specs.declared.statements.ChangeStatement.TheVariants.{Delete, Insert, Load, Update};
ghost use Rattle.wh_base.specs.declared.statements.Statement.TheVariants as about;
ghost use Rattle.wh_dml.specs.Asked.{IsAsked, scanned_by};
ghost use Rattle.wh_dml.specs.Picking.{deleted_of, inserts_from, updates_from};
ghost use Rattle.wh_dml.specs.Sized.{AreSized};
ghost use Rattle.wh_table.specs.Stored.{base_seen};

use crate::asks::{Asked, insert_asked, table_number};
use crate::changes::{PlacedRow, RowChange};
use crate::filter::Filter;
use crate::picking::{Picked, picked_rows};
use crate::refusals::{delete_refusal, update_refusal};
use crate::set_list::SetList;
use std::alloc::{AllocError, Global};
use wh_base::reads::Reads;
use wh_base::replies::Refusal;
use wh_base::seq::Seq;
use wh_base::statements::{
    ChangeStatement, DeleteRows, InsertRows, LoadRows, Statement, UpdateRows,
};
use wh_base::txt::Txt;
use wh_base::values::Value;
use wh_load::rows_loaded;
use wh_table::Tables;

/// What a statement asks: the number of its table, the changes of rows in the order in which they are made, and how many
/// rows it scanned for them.
#[derive(Drop)]
pub struct Asks {
    pub table: u32,
    pub changes: Vec<RowChange>,
    pub scanned: u64,
}

/// New rows of a table of which so many rowids were given and which has so many places. They get the next of both.
fn inserts(
    alloc: Global,
    given: u64,
    places: u64,
    rows: Vec<Seq<Value>>,
) -> Result<Vec<RowChange>, AllocError>
    requires given { given ≤ places }
    requires places { places < 2 ^ 32 }
    requires few { length rows.items < 2 ^ 32 }
    ensures { IfOk result (λ changes. changes.items ≡ inserts_from (given + 1) places rows.items) }
{
    let mut changes = Vec::with_capacity(alloc, rows.len())?;
    let mut rowid = given;
    let mut place = places;
    for values in rows {
        rowid += 1;
        changes.push(RowChange {
            rowid,
            old: None,
            new: Some(PlacedRow { place, values }),
        })?;
        place += 1;
    }
    Ok(changes)
}

/// New values for these rows of a table that has so many places. They get the next ones.
fn updates(
    alloc: Global,
    sets: &SetList,
    places: u64,
    rows: Vec<Picked>,
) -> Result<Vec<RowChange>, AllocError>
    requires places { places < 2 ^ 32 }
    ensures { IfOk result (λ changes. changes.items ≡ updates_from sets.now places rows.items) }
{
    let mut changes = Vec::with_capacity(alloc, rows.len())?;
    let mut place = places;
    for picked in rows {
        let values = sets.apply(alloc, &picked.row.values)?;
        changes.push(RowChange {
            rowid: picked.rowid,
            old: Some(picked.row),
            new: Some(PlacedRow { place, values }),
        })?;
        place += 1;
    }
    Ok(changes)
}

/// That these rows go.
fn deletes(alloc: Global, rows: Vec<Picked>) -> Result<Vec<RowChange>, AllocError>
    ensures { IfOk result (λ changes. changes.items ≡ map deleted_of rows.items) }
{
    let mut changes = Vec::with_capacity(alloc, rows.len())?;
    for gone in rows {
        changes.push(RowChange {
            rowid: gone.rowid,
            old: Some(gone.row),
            new: None,
        })?;
    }
    Ok(changes)
}

/// The number of the table of this name, or that there is none.
fn the_table<L>(
    alloc: Global,
    tables: &Tables<L>,
    name: &Txt,
) -> Result<Result<u32, Refusal>, AllocError>
    ensures number { IfOk result (λ r. r ≡ the_table (base_seen tables.now.scn tables.now.tables.items) name.now) }
    ensures within { IfOk result (λ r. IfOk r (λ n. n < length tables.now.tables.items)) }
{
    match table_number(tables.defs().as_slice(), name) {
        Some(number) => Ok(Ok(number)),
        None => Ok(Err(Refusal::NoSuchObject(name.copy(alloc)?))),
    }
}

/// What an INSERT asks.
fn insert_asks<L>(
    alloc: Global,
    tables: &Tables<L>,
    statement: &InsertRows,
) -> Result<Result<Asks, Refusal>, AllocError>
    ensures asked { IfOk result (λ r. IsAsked tables.now.scn tables.now.tables.items (about.Change (Insert statement.now)) r) }
    ensures scanned { IfOk result (λ r. scanned_by r ≡ 0) }
{
    let Asked { table, rows } = match insert_asked(alloc, tables.defs().as_slice(), statement)? {
        Ok(asked) => asked,
        Err(refusal) => return Ok(Err(refusal)),
    };
    let stored = tables.table(table);
    let changes = inserts(alloc, stored.given(), stored.places(), rows.into_vec())?;
    Ok(Ok(Asks {
        table,
        changes,
        scanned: 0,
    }))
}

/// What a LOAD asks.
fn load_asks<L>(
    alloc: Global,
    tables: &Tables<L>,
    statement: &LoadRows,
) -> Result<Result<Asks, Refusal>, AllocError>
    requires sized { AreSized tables.now.tables.items }
    ensures asked { IfOk result (λ r. IsAsked tables.now.scn tables.now.tables.items (about.Change (Load statement.now)) r) }
    ensures scanned { IfOk result (λ r. scanned_by r ≡ 0) }
{
    let table = match the_table(alloc, tables, &statement.table)? {
        Ok(table) => table,
        Err(refusal) => return Ok(Err(refusal)),
    };
    let stored = tables.table(table);
    let rows = match rows_loaded(alloc, stored.def(), statement.rows.as_slice())? {
        Ok(rows) => rows,
        Err(refusal) => return Ok(Err(refusal)),
    };
    let changes = inserts(alloc, stored.given(), stored.places(), rows.into_vec())?;
    Ok(Ok(Asks {
        table,
        changes,
        scanned: 0,
    }))
}

/// What an UPDATE asks.
fn update_asks<L>(
    alloc: Global,
    tables: &Tables<L>,
    statement: &UpdateRows,
    reads: &mut Reads<L>,
) -> Result<Result<Asks, Refusal>, AllocError>
    requires room { reads.old ≤ 2 ^ 63 + 2 ^ 51 }
    ensures asked { IfOk result (λ r. IsAsked tables.now.scn tables.now.tables.items (about.Change (Update statement.now)) r) }
    ensures raised { IfOk result (λ r. reads.new ≡ reads.old + scanned_by r) }
    ensures least { reads.old ≤ reads.new }
    ensures most { reads.new ≤ reads.old + most_live }
{
    let table = match the_table(alloc, tables, &statement.table)? {
        Ok(table) => table,
        Err(refusal) => return Ok(Err(refusal)),
    };
    let stored = tables.table(table);
    let def = stored.def();
    if let Some(refusal) = update_refusal(alloc, table, def, statement)? {
        return Ok(Err(refusal));
    }
    let filter = Filter::new(alloc, table, def, statement.conditions.as_slice())?;
    let sets = SetList::new(alloc, def, statement.sets.as_slice())?;
    let rows = picked_rows(alloc, tables, table, &filter, reads)?;
    let changes = updates(alloc, &sets, stored.places(), rows)?;
    Ok(Ok(Asks {
        table,
        changes,
        scanned: stored.live(),
    }))
}

/// What a DELETE asks.
fn delete_asks<L>(
    alloc: Global,
    tables: &Tables<L>,
    statement: &DeleteRows,
    reads: &mut Reads<L>,
) -> Result<Result<Asks, Refusal>, AllocError>
    requires room { reads.old ≤ 2 ^ 63 + 2 ^ 51 }
    ensures asked { IfOk result (λ r. IsAsked tables.now.scn tables.now.tables.items (about.Change (Delete statement.now)) r) }
    ensures raised { IfOk result (λ r. reads.new ≡ reads.old + scanned_by r) }
    ensures least { reads.old ≤ reads.new }
    ensures most { reads.new ≤ reads.old + most_live }
{
    let table = match the_table(alloc, tables, &statement.table)? {
        Ok(table) => table,
        Err(refusal) => return Ok(Err(refusal)),
    };
    let stored = tables.table(table);
    let def = stored.def();
    if let Some(refusal) = delete_refusal(alloc, table, def, statement)? {
        return Ok(Err(refusal));
    }
    let filter = Filter::new(alloc, table, def, statement.conditions.as_slice())?;
    let rows = picked_rows(alloc, tables, table, &filter, reads)?;
    let changes = deletes(alloc, rows)?;
    Ok(Ok(Asks {
        table,
        changes,
        scanned: stored.live(),
    }))
}

/// What a statement that changes rows asks.
fn change_asked<L>(
    alloc: Global,
    tables: &Tables<L>,
    statement: &ChangeStatement,
    reads: &mut Reads<L>,
) -> Result<Result<Asks, Refusal>, AllocError>
    requires sized { AreSized tables.now.tables.items }
    requires room { reads.old ≤ 2 ^ 63 + 2 ^ 51 }
    ensures asked { IfOk result (λ r. IsAsked tables.now.scn tables.now.tables.items (about.Change statement.now) r) }
    ensures raised { IfOk result (λ r. reads.new ≡ reads.old + scanned_by r) }
    ensures least { reads.old ≤ reads.new }
    ensures most { reads.new ≤ reads.old + most_live }
{
    match statement {
        ChangeStatement::Insert(rows) => {
            let asks = insert_asks(alloc, tables, rows)?;
            Ok(asks)
        }
        ChangeStatement::Update(rows) => {
            let asks = update_asks(alloc, tables, rows, reads)?;
            Ok(asks)
        }
        ChangeStatement::Delete(rows) => {
            let asks = delete_asks(alloc, tables, rows, reads)?;
            Ok(asks)
        }
        ChangeStatement::Load(rows) => {
            let asks = load_asks(alloc, tables, rows)?;
            Ok(asks)
        }
    }
}

/// What a statement of a block asks of tables at their SCN, or its first refusal: for a SELECT, and for every other
/// statement that changes no rows, that it has no place in a block; an unknown table or column; a column that is named
/// twice; a wrong number or kind of values, or of fields of a LOAD. Each live row of the table of an UPDATE or a DELETE is
/// read once, and one that is refused reads none. An error says that memory ran out, or that a sum leaves 128 bits.
///
/// A number of a LOAD that is greater than 10^38 in size is taken for 10^38 with its sign. The second step refuses it as it
/// refuses the number itself.
///
/// The number columns of the tables have at most 15 digits, and the counter is at most 2^63 + 2^51.
pub fn statement_asked<L>(
    alloc: Global,
    tables: &Tables<L>,
    statement: &Statement,
    reads: &mut Reads<L>,
) -> Result<Result<Asks, Refusal>, AllocError>
    requires sized { AreSized tables.now.tables.items }
    requires room { reads.old ≤ 2 ^ 63 + 2 ^ 51 }
    ensures asked { IfOk result (λ r. IsAsked tables.now.scn tables.now.tables.items statement.now r) }
    ensures raised { IfOk result (λ r. reads.new ≡ reads.old + scanned_by r) }
    ensures least { reads.old ≤ reads.new }
    ensures most { reads.new ≤ reads.old + most_live }
{
    match statement {
        Statement::Change(change) => {
            let asks = change_asked(alloc, tables, change, reads)?;
            Ok(asks)
        }
        _ => Ok(Err(Refusal::SelectInBlock)),
    }
}
