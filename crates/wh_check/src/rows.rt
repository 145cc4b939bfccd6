//! The second step of a statement: whether each new row fits its table.
ghost use Rattle.std.specs.List.{list_all, list_any};
ghost use Rattle.std.specs.Prelude.{◌≡◌, ◌≤◌, ◌^◌, IfOk, IsTrue, nat_abs, nat_lt};
ghost use Rattle.def_effect.specs.Block.{byte_is_barred, column_refusal, fits_kind};
ghost use Rattle.wh_base.specs.Days.{is_day};
ghost use Rattle.wh_check.specs.Making.{change_refusal, changes_refusal};
ghost use Rattle.wh_check.specs.Rows.{row_refusal, size_refusal, sizes_refusal};
ghost use Rattle.wh_load.specs.Sized.{is_sized_def, kind_is_sized};

use std::alloc::{AllocError, Global};
use wh_base::day::Day;
use wh_base::replies::Refusal;
use wh_base::tables::{ColumnDef, Kind, TableDef};
use wh_base::txt::Txt;
use wh_base::values::Value;
use wh_dml::RowChange;

fn byte_is_barred(byte: u8) -> bool
    ensures { result ≡ byte_is_barred byte }
{
    byte < 32 || byte == 127
}

/// Whether a number has at most so many digits.
fn number_fits(number: i128, digits: u32) -> bool
    requires { digits ≤ 15 }
    ensures { result ≡ nat_lt (nat_abs number) (10 ^ digits) }
{
    number.unsigned_abs() < 10u128.pow(digits)
}

fn has_barred_byte(text: &[u8]) -> bool
    ensures { result ≡ list_any byte_is_barred text.now }
{
    text.iter().any(|byte| byte_is_barred(*byte))
}

/// Whether a text has at most so many bytes and none that a text column may not hold.
fn text_fits(text: &Txt, bytes: u32) -> bool
    ensures { result ≡ fits_kind (Kind.Text bytes) (Value.Text text.now) }
{
    text.len() <= bytes as usize && !has_barred_byte(text.as_slice())
}

/// Whether a column of days may hold a day. It may hold each of the calendar, and its number tells that it is one.
fn day_fits(day: Day) -> bool
    ensures { result ≡ is_day day }
{
    let _ = day.number();
    true
}

/// Whether a column may hold a value, but for NOT NULL: a number within its digits, a text within its bytes, a day, or NULL.
fn fits_kind(kind: Kind, value: &Value) -> bool
    requires small { IsTrue (kind_is_sized kind) }
    ensures { result ≡ fits_kind kind value.now }
{
    match (kind, value) {
        (_, Value::Null) => true,
        (Kind::Number(digits), Value::Num(number)) => number_fits(*number, digits),
        (Kind::Text(bytes), Value::Text(text)) => text_fits(text, bytes),
        (Kind::Date, Value::Day(day)) => day_fits(*day),
        _ => false,
    }
}

/// That a column may not hold a value, because of its kind and size, or because it is NULL.
fn column_refusal(
    alloc: Global,
    table: &Txt,
    column: &ColumnDef,
    value: &Value,
) -> Result<Option<Refusal>, AllocError>
    requires small { IsTrue (kind_is_sized column.now.kind) }
    ensures { IfOk result (λ r. r ≡ size_refusal table.now column.now value.now) }
{
    if !fits_kind(column.kind, value) {
        let table = table.copy(alloc)?;
        return Ok(Some(Refusal::ValueDoesNotFit(table, column.name.copy(alloc)?)));
    }
    if column.not_null && value.is_null() {
        return Ok(Some(Refusal::NullNotAllowed(table.copy(alloc)?, column.name.copy(alloc)?)));
    }
    Ok(None)
}

/// The first value of a row that its column may not hold.
#[tactic(auto, using(crate::proofs::Sizes::ends))]
fn sizes_refusal(
    alloc: Global,
    table: &Txt,
    columns: &[ColumnDef],
    row: &[Value],
) -> Result<Option<Refusal>, AllocError>
    requires { IsTrue (list_all (λ c. kind_is_sized c.kind) columns.now) }
    ensures { IfOk result (λ r. r ≡ sizes_refusal table.now columns.now row.now) }
{
    for at in 0..columns.len() {
        if at >= row.len() {
            return Ok(None);
        }
        if let Some(refusal) = column_refusal(alloc, table, &columns[at], &row[at])? {
            return Ok(Some(refusal));
        }
    }
    Ok(None)
}

/// The first value of a row that its column may not hold.
#[tactic(auto, using(crate::proofs::Sizes::rows))]
fn row_refusal(alloc: Global, def: &TableDef, row: &[Value]) -> Result<Option<Refusal>, AllocError>
    requires { IsTrue (is_sized_def def.now) }
    ensures { IfOk result (λ r. r ≡ row_refusal def.now row.now) }
{
    sizes_refusal(alloc, &def.name, def.columns.as_slice(), row)
}

/// The first value of the new row of a change that its column may not hold.
fn change_refusal(
    alloc: Global,
    def: &TableDef,
    change: &RowChange,
) -> Result<Option<Refusal>, AllocError>
    requires { IsTrue (is_sized_def def.now) }
    ensures { IfOk result (λ r. r ≡ change_refusal def.now change.now) }
{
    match &change.new {
        Some(row) => {
            let refusal = row_refusal(alloc, def, row.values.as_slice())?;
            Ok(refusal)
        }
        None => Ok(None),
    }
}

/// The first value of the new rows of changes of a table, change by change and from the left, that its column may not hold.
/// An error says that memory ran out.
pub(crate) fn changes_refusal(
    alloc: Global,
    def: &TableDef,
    changes: &[RowChange],
) -> Result<Option<Refusal>, AllocError>
    requires { IsTrue (is_sized_def def.now) }
    ensures { IfOk result (λ r. r ≡ changes_refusal def.now changes.now) }
{
    for change in changes {
        if let Some(refusal) = change_refusal(alloc, def, change)? {
            return Ok(Some(refusal));
        }
    }
    Ok(None)
}
