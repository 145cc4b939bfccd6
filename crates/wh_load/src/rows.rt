//! The rows of a LOAD.
ghost use Rattle.std.specs.Prelude.{◌≡◌, IfOk, length};
ghost use Rattle.wh_base.specs.declared.replies.Refusal.TheVariants.{ValueDoesNotFit};
ghost use Rattle.wh_load.specs.Capped.{line_loaded, row_loaded, rows_loaded};

use crate::fields::field_value;
use std::alloc::{AllocError, Global};
use wh_base::replies::Refusal;
use wh_base::seq::Seq;
use wh_base::tables::{ColumnDef, TableDef};
use wh_base::txt::Txt;
use wh_base::values::Value;

/// That a field doesn't fit a column.
fn misfit(alloc: Global, table: &Txt, column: &[u8]) -> Result<Refusal, AllocError>
    ensures { IfOk result (λ r. r ≡ ValueDoesNotFit table.now column.now) }
{
    Ok(Refusal::ValueDoesNotFit(table.copy(alloc)?, Txt::from_slice(alloc, column)?))
}

/// The values of as many fields as there are columns, or the first that is of another kind than its column.
fn line_loaded(
    alloc: Global,
    def: &TableDef,
    columns: &[ColumnDef],
    fields: &[Txt],
) -> Result<Result<Seq<Value>, Refusal>, AllocError>
    requires { length columns.now ≡ length fields.now }
    ensures { IfOk result (λ r. r ≡ line_loaded def.now columns.now fields.now) }
{
    let mut values = Vec::with_capacity(alloc, columns.len())?;
    for at in 0..columns.len() {
        let Some(value) = field_value(alloc, columns[at].kind, &fields[at])? else {
            return Ok(Err(misfit(alloc, &def.name, columns[at].name.as_slice())?));
        };
        values.push(value)?;
    }
    Ok(Ok(Seq::from_vec(values)?))
}

/// The values of a row, or what is wrong with it: another number of fields than of columns, and then its first field that is
/// of another kind than its column.
fn row_loaded(
    alloc: Global,
    def: &TableDef,
    fields: &[Txt],
) -> Result<Result<Seq<Value>, Refusal>, AllocError>
    ensures { IfOk result (λ r. r ≡ row_loaded def.now fields.now) }
{
    let columns = def.columns.as_slice();
    if columns.len() != fields.len() {
        return Ok(Err(misfit(alloc, &def.name, b"-")?));
    }
    let values = line_loaded(alloc, def, columns, fields)?;
    Ok(values)
}

/// The rows of a LOAD into a table with this definition, in the order of the text and with their values in declared order, or
/// the first refusal, row by row: MV-04 for another number of fields than of columns, where `-` stands for the column, and
/// then for the first field that is no number in a column of numbers, or no day YYYY-MM-DD in a column of days. A field of no
/// bytes is NULL. An error says that memory ran out.
///
/// A number may have any number of digits, and one of more than 10^38 in size is taken for 10^38 with its sign. No column
/// holds numbers of more than 15 digits, so a row with such a value is refused for it later, as with the number itself.
///
/// What a field may be is the rule of this project's own.
pub fn rows_loaded(
    alloc: Global,
    def: &TableDef,
    rows: &[Seq<Txt>],
) -> Result<Result<Seq<Seq<Value>>, Refusal>, AllocError>
    ensures { IfOk result (λ r. r ≡ rows_loaded def.now rows.now) }
{
    let mut loaded = Vec::with_capacity(alloc, rows.len())?;
    for row in rows {
        match row_loaded(alloc, def, row.as_slice())? {
            Ok(values) => loaded.push(values)?,
            Err(refusal) => return Ok(Err(refusal)),
        }
    }
    Ok(Ok(Seq::from_vec(loaded)?))
}
