//! The first step of an INSERT: what it asks, and of which table.
ghost use Rattle.std.specs.List.{position_from};
ghost use Rattle.std.specs.Prelude.{◌≡◌, ◌<◌, ◌^◌, ◌==◌, [], Some, IfOk, IfSome, filter_map, length, map, unwrap_or};
ghost use Rattle.def_effect.specs.Block.{given_row_refusal, repeated_column, value_misfits};
ghost use Rattle.wh_base.specs.Lists.{count_from, first_of, has_text};
ghost use Rattle.wh_base.specs.Tables.{def_at};
ghost use Rattle.wh_base.specs.Values.{given_value};
ghost use Rattle.wh_dml.specs.Asking.{asked_from, insert_refusal, is_misfit, kinds_refusal, number_in, place_in, places_in, rows_asked, sourced, sourced_row, sources, unknown_in};

use std::alloc::{AllocError, Global};
use wh_base::replies::Refusal;
use wh_base::seq::Seq;
use wh_base::statements::InsertRows;
use wh_base::tables::{ColumnDef, Kind, TableDef};
use wh_base::txt::Txt;
use wh_base::values::{Literal, Value};

/// What an INSERT asks: its table by number, and its new rows in declared order.
#[derive(Drop)]
pub struct Asked {
    pub table: u32,
    pub rows: Seq<Seq<Value>>,
}

/// The number of the table of this name, counted from 0.
#[tactic(auto, using(crate::proofs::Places::places), unfolding(crate::specs::Asking::number_in))]
pub fn table_number(defs: &[TableDef], name: &Txt) -> Option<u32>
    requires { length defs.now < 2 ^ 32 }
    ensures number { result ≡ number_in defs.now name.now }
    ensures within { IfSome result (λ n. n < length defs.now) }
{
    for at in 0..defs.len() {
        if defs[at].name.same_as(name) {
            return Some(at as u32);
        }
    }
    None
}

/// The place of the column of this name, counted from 0.
#[tactic(auto, using(crate::proofs::Places::places), unfolding(crate::specs::Asking::place_in))]
fn column_place(columns: &[ColumnDef], name: &Txt) -> Option<u32>
    requires { length columns.now < 2 ^ 32 }
    ensures { result ≡ place_in columns.now name.now }
{
    for at in 0..columns.len() {
        if columns[at].name.same_as(name) {
            return Some(at as u32);
        }
    }
    None
}

/// The first of these names that is no column.
fn unknown_column(
    alloc: Global,
    def: &TableDef,
    names: &[Txt],
) -> Result<Option<Refusal>, AllocError>
    ensures { IfOk result (λ r. r ≡ unknown_in def.now names.now) }
{
    for name in names {
        if column_place(def.columns.as_slice(), name).is_none() {
            return Ok(Some(Refusal::NoSuchColumn(name.copy(alloc)?)));
        }
    }
    Ok(None)
}

fn has_text(names: &[Txt], name: &Txt) -> bool
    ensures { result ≡ has_text names.now name.now }
{
    for other in names {
        if name.same_as(other) {
            return true;
        }
    }
    false
}

/// The first of these names that an earlier one is. It is asked of names of columns, so it comes before there are more
/// names than columns, and the earlier ones are few.
#[tactic(auto, using(crate::proofs::Names::names))]
fn repeated_column(alloc: Global, names: &[Txt]) -> Result<Option<Refusal>, AllocError>
    ensures { IfOk result (λ r. r ≡ repeated_column names.now) }
{
    for at in 0..names.len() {
        if has_text(&names[..at], &names[at]) {
            return Ok(Some(Refusal::NameTaken(names[at].copy(alloc)?)));
        }
    }
    Ok(None)
}

/// The columns that an INSERT lists, and none where it has no list.
fn names_of(statement: &InsertRows) -> &[Txt]
    ensures { result.now ≡ unwrap_or statement.now.columns [] }
{
    match &statement.columns {
        Some(names) => names.as_slice(),
        None => &[],
    }
}

/// The places of all columns, in declared order.
#[tactic(auto, using(crate::proofs::Places::counting))]
fn all_places(alloc: Global, columns: &[ColumnDef]) -> Result<Seq<u32>, AllocError>
    requires { length columns.now < 2 ^ 32 }
    ensures { IfOk result (λ places. places ≡ count_from 0 (length columns.now)) }
{
    let mut places = Seq::new(alloc);
    for place in 0..columns.len() {
        places.push(place as u32)?;
    }
    Ok(places)
}

/// The places of those of these names that are columns, in their order.
fn listed_places(
    alloc: Global,
    columns: &[ColumnDef],
    names: &[Txt],
) -> Result<Seq<u32>, AllocError>
    requires { length columns.now < 2 ^ 32 }
    ensures { IfOk result (λ places. places ≡ filter_map (place_in columns.now) names.now) }
{
    let mut places = Seq::new(alloc);
    for name in names {
        if let Some(place) = column_place(columns, name) {
            places.push(place)?;
        }
    }
    Ok(places)
}

/// The places of the columns for which an INSERT has values.
fn named_places(
    alloc: Global,
    def: &TableDef,
    names: &Option<Seq<Txt>>,
) -> Result<Seq<u32>, AllocError>
    ensures { IfOk result (λ places. places ≡ places_in def.now names.now) }
{
    let columns = def.columns.as_slice();
    match names {
        Some(names) => {
            let places = listed_places(alloc, columns, names.as_slice())?;
            Ok(places)
        }
        None => {
            let places = all_places(alloc, columns)?;
            Ok(places)
        }
    }
}

/// The value that a literal stands for: nothing written and a text of no bytes are NULL.
pub(crate) fn given_value(alloc: Global, literal: &Option<Literal>) -> Result<Value, AllocError>
    ensures { IfOk result (λ v. v ≡ given_value literal.now) }
{
    match literal {
        None => Ok(Value::Null),
        Some(Literal::Number(number)) => Ok(Value::Num(number.get())),
        Some(Literal::Quoted(text)) => {
            if text.is_empty() {
                Ok(Value::Null)
            } else {
                Ok(Value::Text(text.copy(alloc)?))
            }
        }
        Some(Literal::Dated(day)) => Ok(Value::Day(*day)),
    }
}

/// Whether a literal is of another kind than what a column holds; NULL is of every kind.
fn is_misfit(kind: Kind, literal: &Option<Literal>) -> bool
    ensures { result ≡ is_misfit kind literal.now }
{
    match (kind, literal) {
        (Kind::Number(_), Some(Literal::Quoted(text)))
        | (Kind::Date, Some(Literal::Quoted(text))) => !text.is_empty(),
        (Kind::Number(_), Some(Literal::Dated(_)))
        | (Kind::Text(_), Some(Literal::Number(_)))
        | (Kind::Text(_), Some(Literal::Dated(_)))
        | (Kind::Date, Some(Literal::Number(_))) => true,
        _ => false,
    }
}

/// That a value doesn't fit a column.
fn misfit(alloc: Global, table: &Txt, column: &Txt) -> Result<Option<Refusal>, AllocError>
    ensures { IfOk result (λ r. r ≡ Some (Refusal.ValueDoesNotFit table.now column.now)) }
{
    Ok(Some(Refusal::ValueDoesNotFit(table.copy(alloc)?, column.copy(alloc)?)))
}

/// That a literal is of another kind than the column at a place. No column fits everything.
#[tactic(auto, using(crate::proofs::Literals::kinds))]
pub(crate) fn value_misfits(
    alloc: Global,
    def: &TableDef,
    place: u32,
    literal: &Option<Literal>,
) -> Result<Option<Refusal>, AllocError>
    ensures { IfOk result (λ r. r ≡ value_misfits def.now place (given_value literal.now)) }
{
    let Some(column) = def.columns.get(place as usize) else {
        return Ok(None);
    };
    if is_misfit(column.kind, literal) {
        return misfit(alloc, &def.name, &column.name);
    }
    Ok(None)
}

/// The first literal of a row that is of another kind than its column; the columns are those at these places.
fn kinds_refusal(
    alloc: Global,
    def: &TableDef,
    places: &[u32],
    row: &[Option<Literal>],
) -> Result<Option<Refusal>, AllocError>
    requires { length places.now ≡ length row.now }
    ensures { IfOk result (λ r. r ≡ kinds_refusal def.now places.now row.now) }
{
    for at in 0..places.len() {
        if let Some(refusal) = value_misfits(alloc, def, places[at], &row[at])? {
            return Ok(Some(refusal));
        }
    }
    Ok(None)
}

/// The first thing wrong with the number and the kinds of a row's literals.
#[tactic(auto, using(crate::proofs::Literals::rows))]
fn given_row_refusal(
    alloc: Global,
    def: &TableDef,
    places: &[u32],
    row: &[Option<Literal>],
) -> Result<Option<Refusal>, AllocError>
    ensures { IfOk result (λ r. r ≡ given_row_refusal def.now places.now (map given_value row.now)) }
{
    if places.len() != row.len() {
        return misfit(alloc, &def.name, &Txt::from_slice(alloc, b"-")?);
    }
    kinds_refusal(alloc, def, places, row)
}

/// The first row with a wrong number of values or a literal of another kind than its column.
fn given_rows_refusal(
    alloc: Global,
    def: &TableDef,
    places: &[u32],
    rows: &[Seq<Option<Literal>>],
) -> Result<Option<Refusal>, AllocError>
    ensures { IfOk result (λ r. r ≡ first_of (given_row_refusal def.now places.now) (map (map given_value) rows.now)) }
{
    for row in rows {
        if let Some(refusal) = given_row_refusal(alloc, def, places, row.as_slice())? {
            return Ok(Some(refusal));
        }
    }
    Ok(None)
}

/// The first refusal of an INSERT into this table, where its values are for the columns at these places: an unknown
/// column, one that is listed twice, and then row by row a wrong number or kind of values.
fn insert_refusal(
    alloc: Global,
    def: &TableDef,
    places: &[u32],
    statement: &InsertRows,
) -> Result<Option<Refusal>, AllocError>
    ensures { IfOk result (λ r. r ≡ insert_refusal def.now places.now statement.now) }
{
    let names = names_of(statement);
    if let Some(refusal) = unknown_column(alloc, def, names)? {
        return Ok(Some(refusal));
    }
    if let Some(refusal) = repeated_column(alloc, names)? {
        return Ok(Some(refusal));
    }
    match given_rows_refusal(alloc, def, places, statement.rows.as_slice())? {
        Some(refusal) => Ok(Some(refusal)),
        None => Ok(None),
    }
}

/// Which of the values of a row is for a column, if one is: the place of the column among those listed.
fn source_of(places: &[u32], column: u32) -> Option<u32>
    requires { length places.now < 2 ^ 32 }
    ensures { result ≡ position_from (λ p. p == column) 0 places.now }
{
    for at in 0..places.len() {
        if places[at] == column {
            return Some(at as u32);
        }
    }
    None
}

/// For each column which of the values of a row is its, if one is.
fn sources(alloc: Global, def: &TableDef, places: &[u32]) -> Result<Seq<Option<u32>>, AllocError>
    requires { length places.now < 2 ^ 32 }
    ensures { IfOk result (λ s. s ≡ sources def.now places.now) }
{
    let columns = all_places(alloc, def.columns.as_slice())?;
    let mut sources = Seq::new(alloc);
    for column in columns.as_slice() {
        sources.push(source_of(places, *column))?;
    }
    Ok(sources)
}

/// The value that a row has for a column: NULL where none is given.
fn sourced(alloc: Global, row: &[Option<Literal>], source: Option<u32>) -> Result<Value, AllocError>
    ensures { IfOk result (λ v. v ≡ sourced row.now source) }
{
    let Some(at) = source else {
        return Ok(Value::Null);
    };
    match row.get(at as usize) {
        Some(literal) => {
            let value = given_value(alloc, literal)?;
            Ok(value)
        }
        None => Ok(Value::Null),
    }
}

/// The values of a row in declared order, in no more memory than they take.
fn sourced_row(
    alloc: Global,
    sources: &[Option<u32>],
    row: &[Option<Literal>],
) -> Result<Seq<Value>, AllocError>
    ensures { IfOk result (λ values. values ≡ sourced_row sources.now row.now) }
{
    let mut values = Vec::with_capacity(alloc, sources.len())?;
    for source in sources {
        values.push(sourced(alloc, row, *source)?)?;
    }
    Seq::from_vec(values)
}

/// The rows with their values in declared order.
fn sourced_rows(
    alloc: Global,
    sources: &[Option<u32>],
    rows: &[Seq<Option<Literal>>],
) -> Result<Seq<Seq<Value>>, AllocError>
    ensures { IfOk result (λ all. all ≡ map (sourced_row sources.now) rows.now) }
{
    let mut all = Vec::with_capacity(alloc, rows.len())?;
    for row in rows {
        all.push(sourced_row(alloc, sources, row.as_slice())?)?;
    }
    Seq::from_vec(all)
}

/// The rows of an INSERT into this table, with their values in declared order, or its first refusal.
fn rows_asked(
    alloc: Global,
    def: &TableDef,
    statement: &InsertRows,
) -> Result<Result<Seq<Seq<Value>>, Refusal>, AllocError>
    ensures { IfOk result (λ r. r ≡ rows_asked def.now statement.now) }
{
    let places = named_places(alloc, def, &statement.columns)?;
    if let Some(refusal) = insert_refusal(alloc, def, places.as_slice(), statement)? {
        return Ok(Err(refusal));
    }
    let sources = sources(alloc, def, places.as_slice())?;
    let rows = sourced_rows(alloc, sources.as_slice(), statement.rows.as_slice())?;
    Ok(Ok(rows))
}

/// The definition of the table with this number.
fn def_at(defs: &[TableDef], table: u32) -> &TableDef
    requires { table < length defs.now }
    ensures { result.now ≡ def_at defs.now table }
{
    match defs.get(table as usize) {
        Some(def) => def,
        None => unreachable!(),
    }
}

/// What an INSERT asks of tables with these definitions, or its first refusal: an unknown table, and then what is wrong
/// with its columns and with the number and the kinds of its values. An error says that memory ran out.
pub fn insert_asked(
    alloc: Global,
    defs: &[TableDef],
    statement: &InsertRows,
) -> Result<Result<Asked, Refusal>, AllocError>
    requires few { length defs.now < 2 ^ 32 }
    ensures asked { IfOk result (λ r. r ≡ asked_from defs.now statement.now) }
    ensures within { IfOk result (λ r. IfOk r (λ a. a.table < length defs.now)) }
{
    let Some(table) = table_number(defs, &statement.table) else {
        return Ok(Err(Refusal::NoSuchObject(statement.table.copy(alloc)?)));
    };
    match rows_asked(alloc, def_at(defs, table), statement)? {
        Ok(rows) => Ok(Ok(Asked { table, rows })),
        Err(refusal) => Ok(Err(refusal)),
    }
}
