//! The rows that the conditions of an UPDATE or a DELETE pick.
ghost use Rattle.std.specs.List.{list_all};
ghost use Rattle.std.specs.Prelude.{◌≡◌, IfOk};
ghost use Rattle.def_effect.specs.Block.{own_value};
ghost use Rattle.def_meaning.specs.Joined.{condition_true, conditions_true, edge_true};
ghost use Rattle.wh_dml.specs.Changing.{filter_of, passes};
ghost use Rattle.wh_tuple.specs.Meant.{cell_value};

use crate::refusals::own_source;
use std::alloc::{AllocError, Global};
use wh_base::columns::ColRef;
use wh_base::queries::{Condition, Edge, RawCondition};
use wh_base::seq::Seq;
use wh_base::tables::TableDef;
use wh_base::values::Value;
use wh_resolve::{condition_joins, resolved_conditions};
use wh_tuple::{Cell, TupleRow, cell_in, is_one_of};

/// The conditions of an UPDATE or a DELETE with their columns found, once for all rows. An equality of two columns
/// compares two values of the row.
#[derive(Drop)]
pub struct Filter {
    pub conditions: Seq<Condition>,
    pub joins: Seq<Edge>,
}

// The value of a column in a row with these values. It is a plain column, so neither the rowid nor the number of the
// partition counts.
fn own_cell<'a>(values: &'a Seq<Value>, column: ColRef) -> Cell<'a>
    ensures { cell_value result ≡ own_value values.now column }
{
    cell_in(&TupleRow::new(0, 0, values), column.part)
}

// Whether a condition on one column is true of a row with these values.
fn condition_holds(values: &Seq<Value>, condition: &Condition) -> bool
    ensures { result ≡ condition_true (own_value values.now) condition.now }
{
    match condition {
        Condition::Compare(column, op, value) => own_cell(values, *column).is_true_that(*op, value),
        Condition::OneOf(column, list) => is_one_of(own_cell(values, *column), list.as_slice()),
        Condition::IsNull(column) => own_cell(values, *column).is_null(),
        Condition::NotNull(column) => !own_cell(values, *column).is_null(),
    }
}

// Whether two columns are equal and not NULL in a row with these values.
fn edge_holds(values: &Seq<Value>, edge: Edge) -> bool
    ensures { result ≡ edge_true (own_value values.now) edge }
{
    own_cell(values, edge.from).joins(own_cell(values, edge.to))
}

fn conditions_hold(values: &Seq<Value>, conditions: &[Condition]) -> bool
    ensures { result ≡ conditions_true (own_value values.now) conditions.now }
{
    for condition in conditions {
        if !condition_holds(values, condition) {
            return false;
        }
    }
    true
}

fn joins_hold(values: &Seq<Value>, joins: &[Edge]) -> bool
    ensures { result ≡ list_all (edge_true (own_value values.now)) joins.now }
{
    for join in joins {
        if !edge_holds(values, *join) {
            return false;
        }
    }
    true
}

impl Filter {
    /// These conditions on the table with this number and this definition. `update_refusal` and `delete_refusal` tell whether
    /// one of their columns is unknown; here such a one would be the rowid. An error says that memory ran out, or that there
    /// are 2^32 conditions or more.
    pub fn new(
        alloc: Global,
        number: u32,
        def: &TableDef,
        conditions: &[RawCondition],
    ) -> Result<Filter, AllocError>
        ensures { IfOk result (λ f. f ≡ filter_of number def.now conditions.now) }
    {
        let source = own_source(number, def);
        let sources = std::slice::from_ref(&source);
        Ok(Filter {
            conditions: resolved_conditions(alloc, sources, conditions)?,
            joins: condition_joins(alloc, sources, conditions)?,
        })
    }

    /// Whether all conditions are true of a row with these values, as in the SQL language: no comparison with NULL is true.
    pub fn passes(&self, values: &Seq<Value>) -> bool
        ensures { result ≡ passes self.now values.now }
    {
        conditions_hold(values, self.conditions.as_slice())
            && joins_hold(values, self.joins.as_slice())
    }
}
