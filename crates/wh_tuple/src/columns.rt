ghost use Rattle.def_meaning.specs.Joined.{column_value, condition_true, conditions_true, edge_true, empty_row, part_value, tuple_true};
ghost use Rattle.def_meaning.specs.Meaning.{expr_value};
ghost use Rattle.std.specs.List.{list_all, list_any};
ghost use Rattle.std.specs.Option.{option_copied};
ghost use Rattle.std.specs.Prelude.{◌≡◌, IsTrue};
ghost use Rattle.wh_base.specs.Values.{is_small, is_true_that};
ghost use Rattle.wh_base.specs.declared.values.Op.TheVariants.{Eq};
ghost use Rattle.wh_tuple.specs.Meant.{IsSmallTuple, cell_value, row_found};

use crate::cell::Cell;
use crate::row::TupleRow;
use wh_base::columns::{ColPart, ColRef, Expr};
use wh_base::queries::{Condition, Edge};
use wh_base::values::{Op, Value};

/// The value in a row: of a column by its place, NULL past the end; of ROWID the rowid, of PMARKER the number of the row's
/// partition.
pub fn cell_in<'a>(row: &TupleRow<'a>, part: ColPart) -> Cell<'a>
    ensures { cell_value result ≡ part_value row.now part }
{
    match part {
        ColPart::Col(place) => match row.values().get(place as usize) {
            Some(value) => Cell::Kept(value),
            None => Cell::Null,
        },
        ColPart::RowId => Cell::Number(i128::from(row.rowid())),
        ColPart::Mark => Cell::Number(i128::from(row.mark())),
    }
}

// The row of a table in a tuple that has one row of each of these tables, in this order; none where it has none.
#[tactic(auto, using(crate::proofs::Found::founds))]
fn row_found<'t, 'a>(
    tables: &[u32],
    tuple: &'t [TupleRow<'a>],
    table: u32,
) -> Option<&'t TupleRow<'a>>
    ensures { option_copied result ≡ row_found tables.now tuple.now table }
{
    for at in 0..tables.len() {
        if at >= tuple.len() {
            return None;
        }
        if tables[at] == table {
            return Some(&tuple[at]);
        }
    }
    None
}

// The value of a column of a row that isn't there.
fn absent<'a>(part: ColPart) -> Cell<'a>
    ensures { cell_value result ≡ part_value empty_row part }
{
    match part {
        ColPart::Col(_) => Cell::Null,
        _ => Cell::Number(0),
    }
}

/// The value of a column in a tuple that has one row of each of these tables, in this order.
#[tactic(auto, using(crate::proofs::Found::rows))]
pub fn cell_of<'a>(tables: &[u32], tuple: &[TupleRow<'a>], column: ColRef) -> Cell<'a>
    ensures { cell_value result ≡ column_value tables.now tuple.now column }
{
    match row_found(tables, tuple, column.table) {
        Some(row) => cell_in(row, column.part),
        None => absent(column.part),
    }
}

// The same of numbers below 10^15 in size.
#[tactic(auto, using(crate::proofs::Small::columns))]
fn small_cell<'a>(tables: &[u32], tuple: &[TupleRow<'a>], column: ColRef) -> Cell<'a>
    requires { IsSmallTuple tuple.now }
    ensures value { cell_value result ≡ column_value tables.now tuple.now column }
    ensures small { IsTrue (is_small (cell_value result)) }
{
    cell_of(tables, tuple, column)
}

/// The value of an expression in a tuple that has one row of each of these tables, in this order: that of a column, the
/// product of two columns, NULL where one of them is, or the number that is written. Each number in the tuple is below 10^15
/// in size, so that a product stays within 128 bits.
pub fn expr_cell<'a>(tables: &[u32], tuple: &[TupleRow<'a>], expr: Expr) -> Cell<'a>
    requires { IsSmallTuple tuple.now }
    ensures { cell_value result ≡ expr_value (column_value tables.now tuple.now) expr }
{
    match expr {
        Expr::Col(column) => cell_of(tables, tuple, column),
        Expr::Product(left, right) => {
            small_cell(tables, tuple, left).times(small_cell(tables, tuple, right))
        }
        Expr::Lit(number) => Cell::Number(number),
    }
}

/// Whether the cell equals one of the values, as IN has it: NULL equals none.
pub fn is_one_of(cell: Cell<'_>, values: &[Value]) -> bool
    ensures { result ≡ list_any (is_true_that (cell_value cell.entry) Eq) values.now }
{
    for value in values {
        if cell.is_true_that(Op::Eq, value) {
            return true;
        }
    }
    false
}

/// Whether a condition of WHERE is true in a tuple that has one row of each of these tables, in this order, as in the SQL
/// language: no comparison with NULL is true.
pub fn condition_holds(tables: &[u32], tuple: &[TupleRow<'_>], condition: &Condition) -> bool
    ensures { result ≡ condition_true (column_value tables.now tuple.now) condition.now }
{
    match condition {
        Condition::Compare(column, op, value) => {
            cell_of(tables, tuple, *column).is_true_that(*op, value)
        }
        Condition::OneOf(column, values) => {
            is_one_of(cell_of(tables, tuple, *column), values.as_slice())
        }
        Condition::IsNull(column) => cell_of(tables, tuple, *column).is_null(),
        Condition::NotNull(column) => !cell_of(tables, tuple, *column).is_null(),
    }
}

/// Whether the two columns of a join are equal and not NULL in a tuple that has one row of each of these tables, in this
/// order.
pub fn edge_holds(tables: &[u32], tuple: &[TupleRow<'_>], edge: Edge) -> bool
    ensures { result ≡ edge_true (column_value tables.now tuple.now) edge }
{
    cell_of(tables, tuple, edge.from).joins(cell_of(tables, tuple, edge.to))
}
