ghost use Rattle.std.specs.List.{list_any};
ghost use Rattle.std.specs.Prelude.{◌≡◌, ◌∷◌, IfOk, [], not};
ghost use Rattle.def_resolve.specs.Kinds.{agg_refusal, agg_sort, agrees, column_compare_refusal, column_sort, compare_refusal, equal_refusal, is_summed, is_too_long, literal_sort, literal_table, misfit, misfit_at, misfit_literal, part_sort, printed_part, product_refusal, sum_refusal, summed_refusal, test_refusal};
ghost use Rattle.wh_base.specs.Columns.{agg_columns};
ghost use Rattle.wh_base.specs.Lists.{head};
ghost use Rattle.wh_base.specs.Tables.{def_at};
ghost use Rattle.wh_base.specs.declared.values.Literal.TheVariants.{Number};
ghost use Rattle.wh_resolve.specs.Sorts.{meant};

use std::alloc::{AllocError, Global};
use wh_base::columns::{Agg, ColPart, ColRef, Expr};
use wh_base::replies::Refusal;
use wh_base::tables::{Kind, TableDef};
use wh_base::txt::Txt;
use wh_base::values::Literal;

/// The size of a number, and the bytes of a text, from which on a literal is too long for a query.
const NUMBER_LIMIT: u128 = 1_000_000_000_000_000;

const TEXT_LIMIT: usize = 64;

/// What may be compared: numbers with numbers, texts with texts, days with days, and NULL, which is of every kind, with all.
#[derive(Clone, Copy, Debug)]
pub enum Sort {
    Number,
    Text,
    Day,
    Any,
}

/// Whether the two may be compared.
pub fn agrees(a: Sort, b: Sort) -> bool
    ensures { result ≡ agrees (meant a) (meant b) }
{
    match (a, b) {
        (Sort::Number, Sort::Text) | (Sort::Text, Sort::Number) => false,
        (Sort::Number, Sort::Day) | (Sort::Day, Sort::Number) => false,
        (Sort::Text, Sort::Day) | (Sort::Day, Sort::Text) => false,
        _ => true,
    }
}

/// The kind of a column of a table; ROWID and PMARKER are numbers, and what is no column agrees with everything.
pub fn part_sort(def: &TableDef, part: ColPart) -> Sort
    ensures { meant result ≡ part_sort def.now part }
{
    match part {
        ColPart::Col(at) => match def.columns.get(at as usize) {
            Some(column) => match column.kind {
                Kind::Number(_) => Sort::Number,
                Kind::Text(_) => Sort::Text,
                Kind::Date => Sort::Day,
            },
            None => Sort::Any,
        },
        ColPart::RowId | ColPart::Mark => Sort::Number,
    }
}

/// The kind of a column.
pub fn column_sort(defs: &[TableDef], column: ColRef) -> Sort
    ensures { meant result ≡ column_sort defs.now column }
{
    match defs.get(column.table as usize) {
        Some(def) => part_sort(def, column.part),
        None => match column.part {
            ColPart::Col(_) => Sort::Any,
            ColPart::RowId | ColPart::Mark => Sort::Number,
        },
    }
}

/// The kind of a literal: a quoted text of no bytes is NULL.
pub fn literal_sort(literal: &Literal) -> Sort
    ensures { meant result ≡ literal_sort literal.now }
{
    match literal {
        Literal::Number(_) => Sort::Number,
        Literal::Quoted(text) => {
            if text.as_slice().is_empty() {
                Sort::Any
            } else {
                Sort::Text
            }
        }
        Literal::Dated(_) => Sort::Day,
    }
}

/// Whether a literal is too long for a query.
fn is_too_long(literal: &Literal) -> bool
    ensures { result ≡ is_too_long literal.now }
{
    match literal {
        Literal::Number(number) => is_long_number(number.get()),
        Literal::Quoted(text) => text.as_slice().len() > TEXT_LIMIT,
        Literal::Dated(_) => false,
    }
}

fn is_long_number(number: i128) -> bool
    ensures { result ≡ is_too_long (Number number) }
{
    number.unsigned_abs() >= NUMBER_LIMIT
}

/// Whether SUM, AVG and products take a column: a NUMBER column, and not ROWID or PMARKER.
fn is_summed(defs: &[TableDef], column: ColRef) -> bool
    ensures { result ≡ is_summed defs.now column }
{
    matches!(column.part, ColPart::Col(_)) && agrees(column_sort(defs, column), Sort::Number)
}

/// The name of a column as a refusal prints it, no bytes for what is no column. An error says that memory ran out.
pub fn printed_part(alloc: Global, def: &TableDef, part: ColPart) -> Result<Txt, AllocError>
    ensures { IfOk result (λ t. t ≡ printed_part def.now part) }
{
    match part {
        ColPart::Col(at) => match def.columns.get(at as usize) {
            Some(column) => Ok(column.name.copy(alloc)?),
            None => Ok(Txt::new(alloc)),
        },
        ColPart::RowId => Ok(Txt::from_slice(alloc, b"ROWID")?),
        ColPart::Mark => Ok(Txt::from_slice(alloc, b"PMARKER")?),
    }
}

// The name of a table, and no bytes where it isn't there.
fn table_name(alloc: Global, defs: &[TableDef], table: u32) -> Result<Txt, AllocError>
    ensures { IfOk result (λ t. t ≡ (def_at defs.now table).name) }
{
    match defs.get(table as usize) {
        Some(def) => def.name.copy(alloc),
        None => Ok(Txt::new(alloc)),
    }
}

// The name of a column of a table, and no bytes where the table or the column isn't there.
fn column_text(alloc: Global, defs: &[TableDef], column: ColRef) -> Result<Txt, AllocError>
    ensures { IfOk result (λ t. t ≡ printed_part (def_at defs.now column.table) column.part) }
{
    match (defs.get(column.table as usize), column.part) {
        (Some(def), part) => printed_part(alloc, def, part),
        (None, ColPart::Col(_)) => Ok(Txt::new(alloc)),
        (None, ColPart::RowId) => Ok(Txt::from_slice(alloc, b"ROWID")?),
        (None, ColPart::Mark) => Ok(Txt::from_slice(alloc, b"PMARKER")?),
    }
}

/// That a column doesn't fit.
fn misfit(alloc: Global, defs: &[TableDef], column: ColRef) -> Result<Refusal, AllocError>
    ensures { IfOk result (λ r. r ≡ misfit defs.now column) }
{
    Ok(Refusal::ValueDoesNotFit(
        table_name(alloc, defs, column.table)?,
        column_text(alloc, defs, column)?,
    ))
}

/// That a literal doesn't fit.
fn misfit_literal(alloc: Global, defs: &[TableDef], table: u32) -> Result<Refusal, AllocError>
    ensures { IfOk result (λ r. r ≡ misfit_literal defs.now table) }
{
    Ok(Refusal::ValueDoesNotFit(
        table_name(alloc, defs, table)?,
        Txt::from_slice(alloc, b"-")?,
    ))
}

/// That a literal is of another kind than what it is compared with.
fn misfit_at(
    alloc: Global,
    defs: &[TableDef],
    first: u32,
    column: Option<ColRef>,
) -> Result<Refusal, AllocError>
    ensures { IfOk result (λ r. r ≡ misfit_at defs.now first column) }
{
    match column {
        Some(column) => misfit(alloc, defs, column),
        None => misfit_literal(alloc, defs, first),
    }
}

fn literal_table(first: u32, column: Option<ColRef>) -> u32
    ensures { result ≡ literal_table first column }
{
    match column {
        Some(column) => column.table,
        None => first,
    }
}

/// That a column is between two literals of which one is of another kind or too long.
pub fn between_refusal(
    alloc: Global,
    defs: &[TableDef],
    column: ColRef,
    low: &Literal,
    high: &Literal,
) -> Result<Option<Refusal>, AllocError>
    ensures { IfOk result (λ r. r ≡ column_compare_refusal defs.now column (low.now ∷ high.now ∷ [])) }
{
    let sort = column_sort(defs, column);
    if !agrees(sort, literal_sort(low)) || !agrees(sort, literal_sort(high)) {
        return Ok(Some(misfit(alloc, defs, column)?));
    }
    if is_too_long(low) || is_too_long(high) {
        return Ok(Some(misfit_literal(alloc, defs, column.table)?));
    }
    Ok(None)
}

/// Whether one of the literals is of another kind.
pub fn any_differs(sort: Sort, literals: &[Literal]) -> bool
    ensures { result ≡ list_any (λ l. not (agrees (meant sort) (literal_sort l))) literals.now }
{
    for literal in literals {
        if !agrees(sort, literal_sort(literal)) {
            return true;
        }
    }
    false
}

// Whether one of the literals is too long.
fn any_is_too_long(literals: &[Literal]) -> bool
    ensures { result ≡ list_any is_too_long literals.now }
{
    for literal in literals {
        if is_too_long(literal) {
            return true;
        }
    }
    false
}

/// That a comparison of something of this kind has a literal of another kind, or one that is too long. `column` is the
/// column that prints, where there is one, and `first` the first table of FROM.
fn compare_refusal(
    alloc: Global,
    defs: &[TableDef],
    first: u32,
    column: Option<ColRef>,
    sort: Sort,
    literals: &[Literal],
) -> Result<Option<Refusal>, AllocError>
    ensures { IfOk result (λ r. r ≡ compare_refusal defs.now first column (meant sort) literals.now) }
{
    if any_differs(sort, literals) {
        return Ok(Some(misfit_at(alloc, defs, first, column)?));
    }
    if any_is_too_long(literals) {
        let table = literal_table(first, column);
        return Ok(Some(misfit_literal(alloc, defs, table)?));
    }
    Ok(None)
}

/// That a column is compared with a literal of another kind, or with one that is too long.
pub fn column_compare_refusal(
    alloc: Global,
    defs: &[TableDef],
    column: ColRef,
    literals: &[Literal],
) -> Result<Option<Refusal>, AllocError>
    ensures { IfOk result (λ r. r ≡ column_compare_refusal defs.now column literals.now) }
{
    let sort = column_sort(defs, column);
    compare_refusal(alloc, defs, column.table, Some(column), sort, literals)
}

/// That two columns that must be equal are of two kinds; the first prints.
pub fn equal_refusal(
    alloc: Global,
    defs: &[TableDef],
    a: ColRef,
    b: ColRef,
) -> Result<Option<Refusal>, AllocError>
    ensures { IfOk result (λ r. r ≡ equal_refusal defs.now a b) }
{
    if agrees(column_sort(defs, a), column_sort(defs, b)) {
        return Ok(None);
    }
    Ok(Some(misfit(alloc, defs, a)?))
}

// That a column can't be added or multiplied.
fn column_summed(
    alloc: Global,
    defs: &[TableDef],
    column: ColRef,
) -> Result<Option<Refusal>, AllocError>
    ensures { IfOk result (λ r. r ≡ summed_refusal defs.now (column ∷ [])) }
{
    if is_summed(defs, column) {
        return Ok(None);
    }
    Ok(Some(misfit(alloc, defs, column)?))
}

/// That an expression by itself has a product of what can't be multiplied, or a literal that is too long.
fn product_refusal(
    alloc: Global,
    defs: &[TableDef],
    first: u32,
    expr: Expr,
) -> Result<Option<Refusal>, AllocError>
    ensures { IfOk result (λ r. r ≡ product_refusal defs.now first expr) }
{
    match expr {
        Expr::Col(_) => Ok(None),
        Expr::Product(a, b) => match column_summed(alloc, defs, a)? {
            Some(refusal) => Ok(Some(refusal)),
            None => column_summed(alloc, defs, b),
        },
        Expr::Lit(number) => {
            if is_long_number(number) {
                return Ok(Some(misfit_literal(alloc, defs, first)?));
            }
            Ok(None)
        }
    }
}

/// The same for SUM or AVG, where a column by itself must be a number too.
fn sum_refusal(
    alloc: Global,
    defs: &[TableDef],
    first: u32,
    expr: Expr,
) -> Result<Option<Refusal>, AllocError>
    ensures { IfOk result (λ r. r ≡ sum_refusal defs.now first expr) }
{
    match expr {
        Expr::Col(column) => column_summed(alloc, defs, column),
        Expr::Product(_, _) | Expr::Lit(_) => product_refusal(alloc, defs, first, expr),
    }
}

/// That an aggregate ranges over what it can't.
pub fn agg_refusal(
    alloc: Global,
    defs: &[TableDef],
    first: u32,
    agg: Agg,
) -> Result<Option<Refusal>, AllocError>
    ensures { IfOk result (λ r. r ≡ agg_refusal defs.now first agg) }
{
    match agg {
        Agg::CountAll => Ok(None),
        Agg::Count(e) | Agg::Min(e) | Agg::Max(e) => product_refusal(alloc, defs, first, e),
        Agg::Sum(e) | Agg::Avg(e) => sum_refusal(alloc, defs, first, e),
    }
}

/// The kind of an aggregate: MIN and MAX have that of their expression, the others are numbers.
fn agg_sort(defs: &[TableDef], agg: Agg) -> Sort
    ensures { meant result ≡ agg_sort defs.now agg }
{
    match agg {
        Agg::Min(Expr::Col(column)) | Agg::Max(Expr::Col(column)) => column_sort(defs, column),
        _ => Sort::Number,
    }
}

// The first column of an aggregate.
fn first_column(agg: Agg) -> Option<ColRef>
    ensures { result ≡ head (agg_columns agg) }
{
    match agg {
        Agg::CountAll => None,
        Agg::Count(e) | Agg::Sum(e) | Agg::Avg(e) | Agg::Min(e) | Agg::Max(e) => match e {
            Expr::Col(column) | Expr::Product(column, _) => Some(column),
            Expr::Lit(_) => None,
        },
    }
}

/// That a condition of HAVING has an aggregate over what it can't range, or a literal that doesn't fit it.
pub fn test_refusal(
    alloc: Global,
    defs: &[TableDef],
    first: u32,
    agg: Agg,
    literal: &Literal,
) -> Result<Option<Refusal>, AllocError>
    ensures { IfOk result (λ r. r ≡ test_refusal defs.now first agg literal.now) }
{
    if let Some(refusal) = agg_refusal(alloc, defs, first, agg)? {
        return Ok(Some(refusal));
    }
    let sort = agg_sort(defs, agg);
    compare_refusal(
        alloc,
        defs,
        first,
        first_column(agg),
        sort,
        std::slice::from_ref(literal),
    )
}
