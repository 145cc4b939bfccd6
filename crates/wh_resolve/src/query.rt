ghost use Rattle.std.specs.Prelude.{◌≡◌, ◌∷◌, ◌<◌, ◌^◌, IfOk, [], length};
ghost use Rattle.def_resolve.specs.Names.{column_named, names_refusal};
ghost use Rattle.def_resolve.specs.Resolve.{first_table, kinds_refusal, resolve, star_form};
ghost use Rattle.wh_base.specs.Lists.{first_some, unless_then};
ghost use Rattle.wh_resolve.specs.Gives.{Gives};

use crate::form::{first_table, star_form};
use crate::misfits::kinds_refusal;
use crate::sources::{Source, sources_of, table_refusal};
use crate::unknown::names_refusal;
use std::alloc::{AllocError, Global};
use wh_base::queries::{RawQuery, StarQuery};
use wh_base::replies::Refusal;
use wh_base::seq::Seq;
use wh_base::tables::TableDef;

/// Why a query has no star form.
#[derive(Drop)]
pub enum QueryFault {
    /// The first refusal of the query: MV-02 for a table, MV-03 for a column or a position of ORDER BY, MV-04 for a kind
    /// or a literal that is too long, MV-17 for joins that form no tree, MV-18 for the grouping or the order.
    Refused(Refusal),
    /// Memory ran out.
    Memory,
}

/// The star form of a query as it is written, over these tables, or the first of its refusals: the columns that its names
/// stand for, the joins as a tree of edges that lead outwards from the root, and the keys of ORDER BY as places of items.
/// A table's number is its place in `tables`, counted from 0.
///
/// `Refused` is the first refusal, of tables, names, kinds, the form and the grouping in this order, each in the order of
/// the text; `Memory` says that memory ran out. The star form is that of the Data Warehousing Guide (a fact table and the
/// dimension tables that its joins reach over keys); the order of refusals is this project's own.
pub fn resolve(
    alloc: Global,
    tables: &Seq<TableDef>,
    query: &RawQuery,
) -> Result<StarQuery, QueryFault>
    ensures { Gives result (resolve tables.now query.now) }
{
    match resolved(alloc, tables.as_slice(), query) {
        Ok(Ok(star)) => Ok(star),
        Ok(Err(refusal)) => Err(QueryFault::Refused(refusal)),
        Err(_) => Err(QueryFault::Memory),
    }
}

// The same, where an error is want of memory.
#[tactic(auto, using(crate::proofs::Whole::whole))]
fn resolved(
    alloc: Global,
    defs: &[TableDef],
    query: &RawQuery,
) -> Result<Result<StarQuery, Refusal>, AllocError>
    requires { length defs.now < 2 ^ 32 }
    ensures { IfOk result (λ r. r ≡ resolve defs.now query.now) }
{
    if let Some(refusal) = table_refusal(alloc, defs, query)? {
        return Ok(Err(refusal));
    }
    let sources = sources_of(alloc, defs, query)?;
    let form = form_of(alloc, defs, sources.as_slice(), query)?;
    Ok(form)
}

// The star form of a query whose tables are there.
fn form_of(
    alloc: Global,
    defs: &[TableDef],
    sources: &[Source<'_>],
    query: &RawQuery,
) -> Result<Result<StarQuery, Refusal>, AllocError>
    ensures { IfOk result (λ r. r ≡ unless_then (first_some (names_refusal sources.now query.now ∷ kinds_refusal defs.now (first_table sources.now) (column_named sources.now) query.now ∷ [])) (star_form defs.now query.now sources.now)) }
{
    if let Some(refusal) = names_refusal(alloc, sources, query)? {
        return Ok(Err(refusal));
    }
    let first = first_table(sources);
    if let Some(refusal) = kinds_refusal(alloc, defs, sources, first, query)? {
        return Ok(Err(refusal));
    }
    star_form(alloc, defs, sources, query)
}
