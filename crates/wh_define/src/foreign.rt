ghost use Rattle.std.specs.Option.{option_copied};
ghost use Rattle.std.specs.Prelude.{◌≡◌, ◌≤◌, ◌<◌, ◌^◌, ◌++◌, IfOk, OnOk, filter_map, flat_map, length};
ghost use Rattle.def_effect.specs.Define.{foreign_refusal, is_key_of_sort, mark_foreign, parent_def, part_foreign, referred, refers_to_key};
ghost use Rattle.wh_base.specs.Lists.{first_of};
ghost use Rattle.wh_base.specs.Tables.{column_number, is_key, table_number};
ghost use Rattle.wh_define.specs.Made.{foreign_from};
ghost use Rattle.wh_define.specs.Sorts.{meant};

use crate::columns::{ColumnAt, is_no_column, place_of, sort_of_named};
use crate::sorts::Sort;
use std::alloc::{AllocError, Global};
use std::marker::Model;
use wh_base::replies::Refusal;
use wh_base::seq::Seq;
use wh_base::statements::{ColumnMark, NewColumn, Reference, TablePart};
use wh_base::tables::{ForeignDef, TableDef};
use wh_base::txt::Txt;

/// A foreign key of the statement, at its column or by itself: the name of its column, and what it refers to.
#[derive(Drop)]
pub struct ForeignAt<'a> {
    column: &'a Txt,
    reference: &'a Reference,
}

impl<'a> Model for ForeignAt<'a> {
    ghost use Rattle.wh_base.specs.declared.statements.NewForeign as new;

    ghost Value = { new.NewForeign };

    ghost view = { λ f. record { column = f.column.now; reference = f.reference.now } };
}

impl<'a> ForeignAt<'a> {
    fn new(column: &'a Txt, reference: &'a Reference) -> ForeignAt<'a>
        ensures column { result.column ≡ column.now }
        ensures reference { result.reference ≡ reference.now }
    {
        ForeignAt { column, reference }
    }

    /// The name of its column.
    fn column(&self) -> &Txt
        ensures { result.now ≡ self.now.column }
    {
        self.column
    }

    /// What it refers to.
    fn reference(&self) -> &Reference
        ensures { result.now ≡ self.now.reference }
    {
        self.reference
    }
}

/// The foreign keys that stand at a column, behind those before them. After an error, which says that memory ran out,
/// some of them are there.
fn push_marked<'a>(
    foreign: &mut Vec<ForeignAt<'a>>,
    column: &'a NewColumn,
) -> Result<(), AllocError>
    ensures { OnOk result (foreign.new.items ≡ foreign.old.items ++ flat_map (mark_foreign column.now.name) column.now.marks) }
{
    for mark in column.marks.as_slice() {
        if let ColumnMark::References(reference) = mark {
            foreign.push(ForeignAt::new(&column.name, reference))?;
        }
    }
    Ok(())
}

/// The foreign keys of the statement in the order of declaration.
pub fn foreign_of<'a>(
    alloc: Global,
    parts: &'a [TablePart],
) -> Result<Vec<ForeignAt<'a>>, AllocError>
    ensures { IfOk result (λ foreign. foreign.items ≡ flat_map part_foreign parts.now) }
{
    let mut foreign = Vec::new(alloc);
    for part in parts {
        match part {
            TablePart::Column(column) => push_marked(&mut foreign, column)?,
            TablePart::Key(_) => {}
            TablePart::Foreign(key) => foreign.push(ForeignAt::new(&key.column, &key.reference))?,
        }
    }
    Ok(foreign)
}

/// The place of the column of this name in a table, counted from 0.
#[tactic(auto, using(crate::proofs::Places::places))]
fn column_number(def: &TableDef, name: &Txt) -> Option<u32>
    ensures { result ≡ column_number def.now name.now }
{
    for at in 0..def.columns.len() {
        if def.columns.as_slice()[at].name.same_as(name) {
            return Some(at as u32);
        }
    }
    None
}

/// The number of the table of this name.
#[tactic(auto, using(crate::proofs::Places::places))]
fn table_number(defs: &[TableDef], name: &Txt) -> Option<u32>
    requires { length defs.now < 2 ^ 32 }
    ensures { result ≡ table_number defs.now name.now }
{
    for at in 0..defs.len() {
        if defs[at].name.same_as(name) {
            return Some(at as u32);
        }
    }
    None
}

/// The table that is referred to.
fn parent_def<'a>(defs: &'a [TableDef], reference: &Reference) -> Option<&'a TableDef>
    ensures { option_copied result ≡ parent_def defs.now reference.now }
{
    for def in defs {
        if def.name.same_as(&reference.table) {
            return Some(def);
        }
    }
    None
}

/// The place of the column of a table that is referred to: its primary key where none is named.
fn referred(parent: &TableDef, reference: &Reference) -> Option<u32>
    ensures { result ≡ referred parent.now reference.now }
{
    match &reference.column {
        Some(name) => column_number(parent, name),
        None => parent.primary,
    }
}

fn is_key(def: &TableDef, column: u32) -> bool
    ensures { result ≡ is_key def.now column }
{
    def.keys.as_slice().contains(&column)
}

/// Whether a column is a key of its table, and may be compared with what is of this kind.
fn is_key_of_sort(parent: &TableDef, column: u32, sort: Sort) -> bool
    ensures { result ≡ is_key_of_sort parent.now column (meant sort) }
{
    is_key(parent, column) && Sort::of_column(parent, column).agrees(sort)
}

/// Whether what is referred to in a table is a key, and may be compared with what is of this kind.
fn refers_to_key(parent: &TableDef, reference: &Reference, sort: Sort) -> bool
    ensures { result ≡ refers_to_key parent.now reference.now (meant sort) }
{
    match referred(parent, reference) {
        Some(column) => is_key_of_sort(parent, column, sort),
        None => false,
    }
}

/// That the column of a foreign key or its table is unknown, or that it refers to no key of its kind.
fn foreign_refusal(
    alloc: Global,
    defs: &[TableDef],
    table: &Txt,
    columns: &[ColumnAt<'_>],
    key: &ForeignAt<'_>,
) -> Result<Option<Refusal>, AllocError>
    ensures { IfOk result (λ r. r ≡ foreign_refusal defs.now table.now columns.now key.now) }
{
    if is_no_column(columns, key.column()) {
        return Ok(Some(Refusal::NoSuchColumn(key.column().copy(alloc)?)));
    }
    let reference = key.reference();
    let Some(parent) = parent_def(defs, reference) else {
        return Ok(Some(Refusal::NoSuchObject(reference.table.copy(alloc)?)));
    };
    if refers_to_key(parent, reference, sort_of_named(columns, key.column())) {
        return Ok(None);
    }
    let table = table.copy(alloc)?;
    Ok(Some(Refusal::NotAKey(table, key.column().copy(alloc)?)))
}

/// The first refusal of a foreign key.
pub fn foreign_refusals(
    alloc: Global,
    defs: &[TableDef],
    table: &Txt,
    columns: &[ColumnAt<'_>],
    foreign: &[ForeignAt<'_>],
) -> Result<Option<Refusal>, AllocError>
    ensures { IfOk result (λ r. r ≡ first_of (foreign_refusal defs.now table.now columns.now) foreign.now) }
{
    for key in foreign {
        if let Some(refusal) = foreign_refusal(alloc, defs, table, columns, key)? {
            return Ok(Some(refusal));
        }
    }
    Ok(None)
}

/// A foreign key by the numbers of its columns and its table; none where its table or what it refers to isn't there.
fn foreign_from(
    defs: &[TableDef],
    columns: &[ColumnAt<'_>],
    key: &ForeignAt<'_>,
) -> Option<ForeignDef>
    requires few_columns { length columns.now ≤ 16 }
    requires few_tables { length defs.now < 2 ^ 32 }
    ensures { result ≡ foreign_from defs.now columns.now key.now }
{
    let table = table_number(defs, &key.reference().table)?;
    let to = referred(defs.get(table as usize)?, key.reference())?;
    Some(ForeignDef {
        column: place_of(columns, key.column()).unwrap_or(0),
        table,
        to,
        rely: key.reference().rely,
    })
}

/// The foreign keys by the numbers of their columns and tables.
pub fn foreign_defs(
    alloc: Global,
    defs: &[TableDef],
    columns: &[ColumnAt<'_>],
    foreign: &[ForeignAt<'_>],
) -> Result<Seq<ForeignDef>, AllocError>
    requires few_columns { length columns.now ≤ 16 }
    requires few_tables { length defs.now < 2 ^ 32 }
    ensures { IfOk result (λ found. found ≡ filter_map (foreign_from defs.now columns.now) foreign.now) }
{
    let mut found = Seq::from_vec(Vec::with_capacity(alloc, foreign.len())?)?;
    for key in foreign {
        if let Some(def) = foreign_from(defs, columns, key) {
            found.push(def)?;
        }
    }
    Ok(found)
}
