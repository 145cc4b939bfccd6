ghost use Rattle.std.specs.Prelude.{◌≡◌, IfOk, List, Option, ℕ, flat_map};
ghost use Rattle.def_resolve.specs.Kinds.{condition_refusal, equal_refusal, test_refusal};
ghost use Rattle.def_resolve.specs.Names.{column_named};
ghost use Rattle.def_resolve.specs.Resolve.{join_of_table, kinds_refusal, order_kind_refusal, resolved_agg, what_refusal};
ghost use Rattle.wh_base.specs.Lists.{first_of};
ghost use Rattle.wh_base.specs.declared.columns.ColRef.{ColRef};
ghost use Rattle.wh_base.specs.declared.queries.ColName.{ColName};
ghost use Rattle.wh_base.specs.declared.replies.Refusal.{Refusal};
ghost use Rattle.wh_base.specs.declared.tables.TableDef.{TableDef};

use crate::kinds::{
    agg_refusal, between_refusal, column_compare_refusal, equal_refusal, test_refusal,
};
use crate::names::column_named;
use crate::parts::{resolved_agg, table_joins};
use crate::sources::Source;
use std::alloc::{AllocError, Global};
use wh_base::queries::{
    Edge, RawCondition, RawItem, RawKey, RawOrder, RawQuery, RawTable, RawTest, RawWhat,
};
use wh_base::replies::Refusal;
use wh_base::tables::TableDef;

/// A part of a query that asks kinds of its columns and literals.
trait Fitting {
    /// That one doesn't fit, by the tables, the first table of FROM and the column of each name.
    ghost misfit: { List TableDef → ℕ → (ColName → ColRef) → Self → Option Refusal };

    /// That a column or a literal doesn't fit: the first. `first` is the first table of FROM.
    fn misfit(
        &self,
        alloc: Global,
        defs: &[TableDef],
        sources: &[Source<'_>],
        first: u32,
    ) -> Result<Option<Refusal>, AllocError>
        ensures { IfOk result (λ r. r ≡ misfit defs.now first (column_named sources.now) self.now) };
}

impl Fitting for RawItem {
    ghost misfit = { λ defs first column i. what_refusal defs first column i.what };

    fn misfit(
        &self,
        alloc: Global,
        defs: &[TableDef],
        sources: &[Source<'_>],
        first: u32,
    ) -> Result<Option<Refusal>, AllocError> {
        match &self.what {
            RawWhat::Plain(_) => Ok(None),
            RawWhat::Computed(agg) => agg_refusal(alloc, defs, first, resolved_agg(sources, agg)),
        }
    }
}

impl Fitting for Edge {
    ghost misfit = { λ defs first column e. equal_refusal defs e.from e.to };

    fn misfit(
        &self,
        alloc: Global,
        defs: &[TableDef],
        _sources: &[Source<'_>],
        _first: u32,
    ) -> Result<Option<Refusal>, AllocError> {
        equal_refusal(alloc, defs, self.from, self.to)
    }
}

impl Fitting for RawCondition {
    ghost misfit = { λ defs first column c. condition_refusal defs column c };

    fn misfit(
        &self,
        alloc: Global,
        defs: &[TableDef],
        sources: &[Source<'_>],
        _first: u32,
    ) -> Result<Option<Refusal>, AllocError> {
        match self {
            RawCondition::Compare(name, _, literal) => {
                let column = column_named(sources, name);
                column_compare_refusal(alloc, defs, column, std::slice::from_ref(literal))
            }
            RawCondition::Between(name, low, high) => {
                let column = column_named(sources, name);
                between_refusal(alloc, defs, column, low, high)
            }
            RawCondition::OneOf(name, literals) => {
                let column = column_named(sources, name);
                column_compare_refusal(alloc, defs, column, literals.as_slice())
            }
            RawCondition::Equal(a, b) => {
                let left = column_named(sources, a);
                equal_refusal(alloc, defs, left, column_named(sources, b))
            }
            RawCondition::IsNull(_) | RawCondition::NotNull(_) => Ok(None),
        }
    }
}

impl Fitting for RawTest {
    ghost misfit = { λ defs first column t. test_refusal defs first (resolved_agg column t.agg) t.literal };

    fn misfit(
        &self,
        alloc: Global,
        defs: &[TableDef],
        sources: &[Source<'_>],
        first: u32,
    ) -> Result<Option<Refusal>, AllocError> {
        let agg = resolved_agg(sources, &self.agg);
        test_refusal(alloc, defs, first, agg, &self.literal)
    }
}

impl Fitting for RawKey {
    ghost misfit = { λ defs first column k. order_kind_refusal defs first column k.what };

    fn misfit(
        &self,
        alloc: Global,
        defs: &[TableDef],
        sources: &[Source<'_>],
        first: u32,
    ) -> Result<Option<Refusal>, AllocError> {
        match &self.what {
            RawOrder::Position(_) | RawOrder::Column(_) => Ok(None),
            RawOrder::Computed(agg) => agg_refusal(alloc, defs, first, resolved_agg(sources, agg)),
        }
    }
}

/// The first of a list of parts that doesn't fit.
fn first_misfit<T: Fitting>(
    alloc: Global,
    defs: &[TableDef],
    sources: &[Source<'_>],
    first: u32,
    parts: &[T],
) -> Result<Option<Refusal>, AllocError>
    ensures { IfOk result (λ r. r ≡ first_of (T.misfit defs.now first (column_named sources.now)) parts.now) }
{
    for part in parts {
        if let Some(refusal) = part.misfit(alloc, defs, sources, first)? {
            return Ok(Some(refusal));
        }
    }
    Ok(None)
}

/// The first join of an ON whose columns are of two kinds.
fn joins_refusal(
    alloc: Global,
    defs: &[TableDef],
    sources: &[Source<'_>],
    first: u32,
    tables: &[RawTable],
) -> Result<Option<Refusal>, AllocError>
    ensures { IfOk result (λ r. r ≡ first_of (λ e. equal_refusal defs.now e.from e.to) (flat_map (join_of_table (column_named sources.now)) tables.now)) }
{
    let joins = table_joins(alloc, sources, tables)?;
    let found = first_misfit(alloc, defs, sources, first, joins.as_slice())?;
    Ok(found)
}

/// The first column or literal in the text whose kind doesn't fit. `first` is the first table of FROM.
pub fn kinds_refusal(
    alloc: Global,
    defs: &[TableDef],
    sources: &[Source<'_>],
    first: u32,
    query: &RawQuery,
) -> Result<Option<Refusal>, AllocError>
    ensures { IfOk result (λ r. r ≡ kinds_refusal defs.now first (column_named sources.now) query.now) }
{
    if let Some(refusal) = first_misfit(alloc, defs, sources, first, query.items.as_slice())? {
        return Ok(Some(refusal));
    }
    let tables = query.tables.as_slice();
    if let Some(refusal) = joins_refusal(alloc, defs, sources, first, tables)? {
        return Ok(Some(refusal));
    }
    let conditions = query.conditions.as_slice();
    if let Some(refusal) = first_misfit(alloc, defs, sources, first, conditions)? {
        return Ok(Some(refusal));
    }
    if let Some(refusal) = first_misfit(alloc, defs, sources, first, query.having.as_slice())? {
        return Ok(Some(refusal));
    }
    let refusal = first_misfit(alloc, defs, sources, first, query.order.as_slice())?;
    Ok(refusal)
}
