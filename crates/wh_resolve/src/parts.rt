ghost use Rattle.std.specs.Prelude.{◌≡◌, ◌++◌, IfOk, OnOk, flat_map, map};
ghost use Rattle.def_resolve.specs.Names.{column_named};
ghost use Rattle.def_resolve.specs.Resolve.{is_agg, is_grouped, join_of_condition, join_of_table, joins_of, resolved_agg, resolved_condition, resolved_expr, resolved_item, resolved_test};
ghost use Rattle.wh_base.specs.Values.{literal_value};
ghost use Rattle.std.specs.List.{list_any};

use crate::names::column_named;
use crate::sources::Source;
use std::alloc::{AllocError, Global};
use wh_base::columns::{Agg, ColRef, Expr};
use wh_base::queries::{
    ColName, Condition, Edge, Item, RawAgg, RawCondition, RawExpr, RawItem, RawQuery, RawTable,
    RawTest, RawWhat, Test,
};
use wh_base::seq::Seq;
use wh_base::values::{Literal, Op, Value};

fn resolved_expr(sources: &[Source<'_>], expr: &RawExpr) -> Expr
    ensures { result ≡ resolved_expr (column_named sources.now) expr.now }
{
    match expr {
        RawExpr::Column(name) => Expr::Col(column_named(sources, name)),
        RawExpr::Times(a, b) => Expr::Product(column_named(sources, a), column_named(sources, b)),
        RawExpr::Constant(number) => Expr::Lit(*number),
    }
}

/// An aggregate over the columns that its names stand for.
pub fn resolved_agg(sources: &[Source<'_>], agg: &RawAgg) -> Agg
    ensures { result ≡ resolved_agg (column_named sources.now) agg.now }
{
    match agg {
        RawAgg::CountRows => Agg::CountAll,
        RawAgg::CountOf(e) => Agg::Count(resolved_expr(sources, e)),
        RawAgg::SumOf(e) => Agg::Sum(resolved_expr(sources, e)),
        RawAgg::AvgOf(e) => Agg::Avg(resolved_expr(sources, e)),
        RawAgg::MinOf(e) => Agg::Min(resolved_expr(sources, e)),
        RawAgg::MaxOf(e) => Agg::Max(resolved_expr(sources, e)),
    }
}

fn resolved_item(sources: &[Source<'_>], what: &RawWhat) -> Item
    ensures { result ≡ resolved_item (column_named sources.now) what.now }
{
    match what {
        RawWhat::Plain(name) => Item::Col(column_named(sources, name)),
        RawWhat::Computed(agg) => Item::Agg(resolved_agg(sources, agg)),
    }
}

/// The items over the columns that their names stand for.
pub fn resolved_items(
    alloc: Global,
    sources: &[Source<'_>],
    items: &[RawItem],
) -> Result<Seq<Item>, AllocError>
    ensures { IfOk result (λ all. all ≡ map (λ i. resolved_item (column_named sources.now) i.what) items.now) }
{
    let mut all = Seq::from_vec(Vec::with_capacity(alloc, items.len())?)?;
    for item in items {
        all.push(resolved_item(sources, &item.what))?;
    }
    Ok(all)
}

/// The group columns.
pub fn resolved_keys(
    alloc: Global,
    sources: &[Source<'_>],
    groups: &[ColName],
) -> Result<Seq<ColRef>, AllocError>
    ensures { IfOk result (λ all. all ≡ map (column_named sources.now) groups.now) }
{
    let mut all = Seq::from_vec(Vec::with_capacity(alloc, groups.len())?)?;
    for name in groups {
        all.push(column_named(sources, name))?;
    }
    Ok(all)
}

/// The value of a literal: a quoted text of no bytes is NULL.
fn literal_value(alloc: Global, literal: &Literal) -> Result<Value, AllocError>
    ensures { IfOk result (λ v. v ≡ literal_value literal.now) }
{
    match literal {
        Literal::Number(number) => Ok(Value::Num(number.get())),
        Literal::Quoted(text) => {
            if text.as_slice().is_empty() {
                Ok(Value::Null)
            } else {
                Ok(Value::Text(text.copy(alloc)?))
            }
        }
        Literal::Dated(day) => Ok(Value::Day(*day)),
    }
}

fn literal_values(alloc: Global, literals: &[Literal]) -> Result<Seq<Value>, AllocError>
    ensures { IfOk result (λ all. all ≡ map literal_value literals.now) }
{
    let mut all = Seq::from_vec(Vec::with_capacity(alloc, literals.len())?)?;
    for literal in literals {
        all.push(literal_value(alloc, literal)?)?;
    }
    Ok(all)
}

// The conditions that a condition of the text stands for: BETWEEN is two, and an equality of two columns, which is a
// join, none.
fn push_condition(
    alloc: Global,
    sources: &[Source<'_>],
    condition: &RawCondition,
    all: &mut Seq<Condition>,
) -> Result<(), AllocError>
    ensures { OnOk result (all.new ≡ all.old ++ resolved_condition (column_named sources.now) condition.now) }
{
    match condition {
        RawCondition::Compare(name, op, literal) => {
            let column = column_named(sources, name);
            let value = literal_value(alloc, literal)?;
            all.push(Condition::Compare(column, *op, value))?;
            Ok(())
        }
        RawCondition::Between(name, low, high) => {
            let column = column_named(sources, name);
            let least = literal_value(alloc, low)?;
            let greatest = literal_value(alloc, high)?;
            all.push(Condition::Compare(column, Op::Ge, least))?;
            all.push(Condition::Compare(column, Op::Le, greatest))?;
            Ok(())
        }
        RawCondition::Equal(_, _) => Ok(()),
        RawCondition::OneOf(name, literals) => {
            let column = column_named(sources, name);
            let values = literal_values(alloc, literals.as_slice())?;
            all.push(Condition::OneOf(column, values))?;
            Ok(())
        }
        RawCondition::IsNull(name) => {
            all.push(Condition::IsNull(column_named(sources, name)))?;
            Ok(())
        }
        RawCondition::NotNull(name) => {
            all.push(Condition::NotNull(column_named(sources, name)))?;
            Ok(())
        }
    }
}

/// The conditions on one column each: BETWEEN is two, and an equality of two columns, which is a join, none. An error says
/// that memory ran out, or that there are 2^32 conditions or more.
pub fn resolved_conditions(
    alloc: Global,
    sources: &[Source<'_>],
    conditions: &[RawCondition],
) -> Result<Seq<Condition>, AllocError>
    ensures { IfOk result (λ all. all ≡ flat_map (resolved_condition (column_named sources.now)) conditions.now) }
{
    let mut all = Seq::new(alloc);
    for condition in conditions {
        push_condition(alloc, sources, condition, &mut all)?;
    }
    Ok(all)
}

// The join of an ON.
fn push_table_join(
    sources: &[Source<'_>],
    table: &RawTable,
    joins: &mut Seq<Edge>,
) -> Result<(), AllocError>
    ensures { OnOk result (joins.new ≡ joins.old ++ join_of_table (column_named sources.now) table.now) }
{
    match &table.on {
        Some(join) => {
            joins.push(Edge {
                from: column_named(sources, &join.left),
                to: column_named(sources, &join.right),
            })?;
            Ok(())
        }
        None => Ok(()),
    }
}

// The join that an equality of two columns is.
fn push_condition_join(
    sources: &[Source<'_>],
    condition: &RawCondition,
    joins: &mut Seq<Edge>,
) -> Result<(), AllocError>
    ensures { OnOk result (joins.new ≡ joins.old ++ join_of_condition (column_named sources.now) condition.now) }
{
    match condition {
        RawCondition::Equal(a, b) => {
            joins.push(Edge {
                from: column_named(sources, a),
                to: column_named(sources, b),
            })?;
            Ok(())
        }
        _ => Ok(()),
    }
}

/// The joins that stand in ON.
pub fn table_joins(
    alloc: Global,
    sources: &[Source<'_>],
    tables: &[RawTable],
) -> Result<Seq<Edge>, AllocError>
    ensures { IfOk result (λ all. all ≡ flat_map (join_of_table (column_named sources.now)) tables.now) }
{
    let mut joins = Seq::new(alloc);
    for table in tables {
        push_table_join(sources, table, &mut joins)?;
    }
    Ok(joins)
}

/// The joins that stand in WHERE: the equalities of two columns. An error says that memory ran out, or that there are 2^32
/// joins or more.
pub fn condition_joins(
    alloc: Global,
    sources: &[Source<'_>],
    conditions: &[RawCondition],
) -> Result<Seq<Edge>, AllocError>
    ensures { IfOk result (λ all. all ≡ flat_map (join_of_condition (column_named sources.now)) conditions.now) }
{
    let mut joins = Seq::new(alloc);
    for condition in conditions {
        push_condition_join(sources, condition, &mut joins)?;
    }
    Ok(joins)
}

/// The joins: every equality of two columns, in ON or in WHERE.
pub fn joins_of(
    alloc: Global,
    sources: &[Source<'_>],
    query: &RawQuery,
) -> Result<Seq<Edge>, AllocError>
    ensures { IfOk result (λ all. all ≡ joins_of (column_named sources.now) query.now) }
{
    let mut joins = table_joins(alloc, sources, query.tables.as_slice())?;
    joins.append(condition_joins(alloc, sources, query.conditions.as_slice())?)?;
    Ok(joins)
}

/// The conditions of HAVING.
pub fn resolved_tests(
    alloc: Global,
    sources: &[Source<'_>],
    tests: &[RawTest],
) -> Result<Seq<Test>, AllocError>
    ensures { IfOk result (λ all. all ≡ map (resolved_test (column_named sources.now)) tests.now) }
{
    let mut all = Seq::from_vec(Vec::with_capacity(alloc, tests.len())?)?;
    for test in tests {
        all.push(Test {
            agg: resolved_agg(sources, &test.agg),
            op: test.op,
            value: literal_value(alloc, &test.literal)?,
        })?;
    }
    Ok(all)
}

fn any_is_agg(items: &[Item]) -> bool
    ensures { result ≡ list_any is_agg items.now }
{
    for item in items {
        if matches!(item, Item::Agg(_)) {
            return true;
        }
    }
    false
}

/// Whether a query is grouped: it has GROUP BY, HAVING or an aggregate.
pub fn is_grouped(query: &RawQuery, items: &[Item]) -> bool
    ensures { result ≡ is_grouped query.now items.now }
{
    !query.groups.is_empty() || !query.having.is_empty() || any_is_agg(items)
}
