ghost use Rattle.std.specs.List.{list_any};
ghost use Rattle.std.specs.Prelude.{◌≡◌, ◌≤◌, ◌<◌, ◌^◌, IfOk, IsTrue, List, ℕ, [], false, length, map, option_and_then};
ghost use Rattle.def_effect.specs.Define.{is_not_null_mark, new_ranges, partitioning_refusal, size_holds};
ghost use Rattle.wh_base.specs.Lists.{has_text, option_case, same_text};
ghost use Rattle.wh_define.specs.Made.{column_from, counted, defined_from, defined_or_refused, lists_refusal, parts_from, table_from};
ghost use Rattle.wh_define.specs.Places.{place_in};
ghost use Rattle.wh_define.specs.Sizes.{AreSized};

use crate::columns::{
    ColumnAt, columns_of, columns_refusal, is_no_column, kind_of, kind_of_named, place_of,
};
use crate::foreign::{ForeignAt, foreign_defs, foreign_of, foreign_refusals};
use crate::keys::{KeyAt, is_primary, key_places, keys_of, keys_refusal, primary_place};
use crate::ranges::numbered_parts;
use std::alloc::{AllocError, Global};
use wh_base::replies::{Counted, Refusal};
use wh_base::seq::Seq;
use wh_base::statements::{ColumnMark, NewColumn, NewTable, Partitioning};
use wh_base::tables::{ColumnDef, Part, TableDef};
use wh_base::txt::Txt;

/// The most tables, columns of a table and partitions of a table.
const MOST_TABLES: usize = 64;

const MOST_COLUMNS: usize = 16;

const MOST_PARTS: usize = 256;

/// A table as its statement defines it, without rows.
#[derive(Drop)]
pub struct Defined {
    pub def: TableDef,
    pub parts: Seq<Part>,
}

/// What there is too many of.
fn counted(tables: usize, columns: usize, parts: usize) -> Option<Counted>
    ensures { result ≡ counted tables columns parts }
{
    if tables >= MOST_TABLES {
        return Some(Counted::Tables);
    }
    if columns > MOST_COLUMNS {
        return Some(Counted::Columns);
    }
    if parts > MOST_PARTS {
        return Some(Counted::Partitions);
    }
    None
}

/// How many partitions are written.
fn range_count(statement: &NewTable) -> usize
    ensures { result ≡ length (new_ranges statement.now) }
{
    match &statement.partitioning {
        Some(by) => by.ranges.len(),
        None => 0,
    }
}

/// The first refusal of the columns, the keys and the foreign keys.
fn lists_refusal(
    alloc: Global,
    defs: &[TableDef],
    table: &Txt,
    columns: &[ColumnAt<'_>],
    keys: &[KeyAt<'_>],
    foreign: &[ForeignAt<'_>],
) -> Result<Option<Refusal>, AllocError>
    ensures { IfOk result (λ r. r ≡ lists_refusal defs.now table.now columns.now keys.now foreign.now) }
{
    if let Some(refusal) = columns_refusal(alloc, table, columns)? {
        return Ok(Some(refusal));
    }
    if let Some(refusal) = keys_refusal(alloc, columns, keys)? {
        return Ok(Some(refusal));
    }
    match foreign_refusals(alloc, defs, table, columns, foreign)? {
        Some(refusal) => Ok(Some(refusal)),
        None => Ok(None),
    }
}

/// The partitions of the table, or the first refusal of PARTITION BY.
fn parts_from(
    alloc: Global,
    statement: &NewTable,
    columns: &[ColumnAt<'_>],
) -> Result<Result<Seq<Part>, Refusal>, AllocError>
    requires { AreSized columns.now }
    ensures { IfOk result (λ r. r ≡ parts_from statement.now columns.now) }
{
    let Some(by) = &statement.partitioning else {
        return Ok(Ok(Seq::new(alloc)));
    };
    if is_no_column(columns, &by.column) {
        return Ok(Err(Refusal::NoSuchColumn(by.column.copy(alloc)?)));
    }
    let kind = kind_of_named(columns, &by.column);
    let ranges = by.ranges.as_slice();
    match numbered_parts(alloc, &statement.name, &by.column, kind, ranges)? {
        Ok(parts) => Ok(Ok(parts)),
        Err(refusal) => Ok(Err(refusal)),
    }
}

fn is_not_null_mark(mark: &ColumnMark) -> bool
    ensures { result ≡ is_not_null_mark mark.now }
{
    matches!(mark, ColumnMark::NotNull)
}

/// Whether NOT NULL is written at a column.
fn is_not_null(column: &NewColumn) -> bool
    ensures { result ≡ list_any is_not_null_mark column.now.marks }
{
    column
        .marks
        .as_slice()
        .iter()
        .any(|mark| is_not_null_mark(mark))
}

/// Whether the column of this name is the partition key.
fn is_partition_key(by: &Option<Partitioning>, name: &Txt) -> bool
    ensures { result ≡ option_case by.now false (λ p. same_text p.column name.now) }
{
    match by {
        Some(by) => by.column.same_as(name),
        None => false,
    }
}

/// A column as it is defined: NOT NULL also where it is the primary key or the partition key.
fn column_from(
    alloc: Global,
    keys: &[KeyAt<'_>],
    by: &Option<Partitioning>,
    column: &NewColumn,
) -> Result<ColumnDef, AllocError>
    requires { IsTrue (size_holds column.now.kind) }
    ensures { IfOk result (λ d. d ≡ column_from keys.now by.now column.now) }
{
    let is_named = is_primary(keys, &column.name) || is_partition_key(by, &column.name);
    Ok(ColumnDef {
        name: column.name.copy(alloc)?,
        kind: kind_of(&column.kind),
        not_null: is_not_null(column) || is_named,
    })
}

/// The columns as they are defined.
fn columns_from(
    alloc: Global,
    keys: &[KeyAt<'_>],
    by: &Option<Partitioning>,
    columns: &[ColumnAt<'_>],
) -> Result<Seq<ColumnDef>, AllocError>
    requires { AreSized columns.now }
    ensures { IfOk result (λ defs. defs ≡ map (column_from keys.now by.now) columns.now) }
{
    let mut defs = Seq::from_vec(Vec::with_capacity(alloc, columns.len())?)?;
    for column in columns {
        defs.push(column_from(alloc, keys, by, column.get())?)?;
    }
    Ok(defs)
}

/// The place of the partition key.
fn partition_place(columns: &[ColumnAt<'_>], by: &Option<Partitioning>) -> Option<u32>
    requires { length columns.now ≤ 16 }
    ensures { result ≡ option_and_then (λ p. place_in columns.now p.column) by.now }
{
    match by {
        Some(by) => place_of(columns, &by.column),
        None => None,
    }
}

/// The definition of the table with these columns, keys and foreign keys.
fn table_from(
    alloc: Global,
    defs: &[TableDef],
    statement: &NewTable,
    columns: &[ColumnAt<'_>],
    keys: &[KeyAt<'_>],
    foreign: &[ForeignAt<'_>],
) -> Result<TableDef, AllocError>
    requires few_tables { length defs.now < 2 ^ 32 }
    requires few_columns { length columns.now ≤ 16 }
    requires sized { AreSized columns.now }
    ensures { IfOk result (λ d. d ≡ table_from defs.now statement.now columns.now keys.now foreign.now) }
{
    let by = &statement.partitioning;
    Ok(TableDef {
        name: statement.name.copy(alloc)?,
        columns: columns_from(alloc, keys, by, columns)?,
        keys: key_places(alloc, columns, keys)?,
        primary: primary_place(columns, keys),
        foreign: foreign_defs(alloc, defs, columns, foreign)?,
        part_key: partition_place(columns, by),
        movement: statement.movement,
    })
}

/// The table with these columns, keys and foreign keys, or its first refusal, where no other thing has its name.
#[tactic(auto, using(crate::proofs::Stages::stages))]
fn defined_from(
    alloc: Global,
    defs: &[TableDef],
    statement: &NewTable,
    columns: &[ColumnAt<'_>],
    keys: &[KeyAt<'_>],
    foreign: &[ForeignAt<'_>],
) -> Result<Result<Defined, Refusal>, AllocError>
    requires { length defs.now < 2 ^ 32 }
    ensures { IfOk result (λ r. r ≡ defined_from defs.now statement.now columns.now keys.now foreign.now) }
{
    if let Some(counted) = counted(defs.len(), columns.len(), range_count(statement)) {
        return Ok(Err(Refusal::TooManyObjects(counted)));
    }
    if let Some(refusal) = lists_refusal(alloc, defs, &statement.name, columns, keys, foreign)? {
        return Ok(Err(refusal));
    }
    match parts_from(alloc, statement, columns)? {
        Err(refusal) => Ok(Err(refusal)),
        Ok(parts) => Ok(Ok(Defined {
            def: table_from(alloc, defs, statement, columns, keys, foreign)?,
            parts,
        })),
    }
}

/// The same of the statement.
fn free_table(
    alloc: Global,
    defs: &Seq<TableDef>,
    statement: &NewTable,
) -> Result<Result<Defined, Refusal>, AllocError>
    ensures { IfOk result (λ r. r ≡ defined_or_refused [] defs.now statement.now) }
{
    let parts = statement.parts.as_slice();
    let columns = columns_of(alloc, parts)?;
    let keys = keys_of(alloc, parts)?;
    let foreign = foreign_of(alloc, parts)?;
    let defined = defined_from(
        alloc,
        defs.as_slice(),
        statement,
        columns.as_slice(),
        keys.as_slice(),
        foreign.as_slice(),
    )?;
    Ok(defined)
}

/// CREATE TABLE: the new table, or the first refusal. `is_taken` says whether another table, view or dimension has its
/// name.
///
/// The statement is the SQL language's CREATE TABLE, with RELY of Oracle's constraints; the order of refusals is this
/// project's own. MV-01 is for the table's name; MV-16 for the 65th table, the 17th column and the 257th partition;
/// then MV-01 and MV-04 of the columns, MV-03 and MV-01 of the keys, MV-03, MV-02 and MV-27 of the foreign keys, and
/// of PARTITION BY MV-03 for its column and MV-01, MV-04 and MV-11 for its partitions, each list in the order of the
/// text. An error says that memory ran out.
pub fn define_table(
    alloc: Global,
    is_taken: bool,
    defs: &Seq<TableDef>,
    statement: &NewTable,
) -> Result<Result<Defined, Refusal>, AllocError>
    // `taken` are the names of all tables, views and dimensions.
    ensures { IfOk result (λ r. (taken : List (List ℕ)) → has_text taken statement.now.name ≡ is_taken → r ≡ defined_or_refused taken defs.now statement.now) }
{
    if is_taken {
        return Ok(Err(Refusal::NameTaken(statement.name.copy(alloc)?)));
    }
    let defined = free_table(alloc, defs, statement)?;
    Ok(defined)
}
