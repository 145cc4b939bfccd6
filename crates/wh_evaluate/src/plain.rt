ghost use Rattle.def_meaning.specs.Joined.{column_value};
ghost use Rattle.def_meaning.specs.Meaning.{plain_entries, plain_item};
ghost use Rattle.std.specs.Prelude.{◌≡◌, [], map, IfOk};

use std::alloc::{AllocError, Global};
use wh_base::queries::{Item, StarQuery};
use wh_base::seq::Seq;
use wh_base::values::Value;
use wh_base::views::ViewEntry;
use wh_tuple::{TupleRow, TupleSource, cell_of};

// The value of an item in a tuple. An error says that memory ran out.
fn item_value(
    alloc: Global,
    tables: &[u32],
    tuple: &[TupleRow<'_>],
    item: Item,
) -> Result<Value, AllocError>
    ensures { IfOk result (λ v. v ≡ plain_item (column_value tables.now tuple.now) item) }
{
    match item {
        Item::Col(column) => cell_of(tables, tuple, column).copy(alloc),
        Item::Agg(_) => Ok(Value::Null),
    }
}

// The row of a tuple: its values of the items. An error says that memory ran out.
fn row_of(
    alloc: Global,
    tables: &[u32],
    tuple: &[TupleRow<'_>],
    items: &[Item],
) -> Result<Seq<Value>, AllocError>
    ensures { IfOk result (λ row. row ≡ map (plain_item (column_value tables.now tuple.now)) items.now) }
{
    let mut row = Vec::with_capacity(alloc, items.len())?;
    for item in items {
        row.push(item_value(alloc, tables, tuple, *item)?)?;
    }
    Seq::from_vec(row)
}

// The row of a tuple of a query.
fn tuple_row(
    alloc: Global,
    query: &StarQuery,
    tuple: &[TupleRow<'_>],
) -> Result<Seq<Value>, AllocError>
    ensures { IfOk result (λ row. row ≡ map (plain_item (column_value query.now.tables tuple.now)) query.now.items) }
{
    let tables = query.tables.as_slice();
    row_of(alloc, tables, tuple, query.items.as_slice())
}

// The entry of a tuple of a query, which has no key.
fn tuple_entry(
    alloc: Global,
    query: &StarQuery,
    tuple: &[TupleRow<'_>],
) -> Result<ViewEntry, AllocError>
    ensures { IfOk result (λ e. e ≡ record { key = []; row = map (plain_item (column_value query.now.tables tuple.now)) query.now.items }) }
{
    let row = tuple_row(alloc, query, tuple)?;
    Ok(ViewEntry {
        key: Seq::new(alloc),
        row,
    })
}

/// The rows of a query that isn't grouped, one for each tuple that comes, in their order. An error says that memory ran out.
#[tactic(auto, using(crate::proofs::Turns::turns))]
pub fn plain_rows<'a, S: TupleSource<'a>>(
    alloc: Global,
    query: &StarQuery,
    source: &mut S,
) -> Result<Vec<Seq<Value>>, AllocError>
    ensures { IfOk result (λ rows. rows.items ≡ map (λ t. map (plain_item (column_value query.now.tables t)) query.now.items) (S.left source.old)) }
{
    let mut rows = Vec::new(alloc);
    let mut tuple = Vec::with_capacity(alloc, query.tables.len())?;
    'tuples: while source.next(&mut tuple)? {
        let row = tuple_row(alloc, query, tuple.as_slice())?;
        rows.push(row)?;
    }
    Ok(rows)
}

/// The entries of a query that isn't grouped, one without a key for each tuple that comes, in their order. An error says that
/// memory ran out.
#[tactic(auto, using(crate::proofs::Turns::turns))]
pub fn plain_entries<'a, S: TupleSource<'a>>(
    alloc: Global,
    query: &StarQuery,
    source: &mut S,
) -> Result<Vec<ViewEntry>, AllocError>
    ensures { IfOk result (λ entries. entries.items ≡ plain_entries (column_value query.now.tables) query.now (S.left source.old)) }
{
    let mut entries = Vec::new(alloc);
    let mut tuple = Vec::with_capacity(alloc, query.tables.len())?;
    'tuples: while source.next(&mut tuple)? {
        let entry = tuple_entry(alloc, query, tuple.as_slice())?;
        entries.push(entry)?;
    }
    Ok(entries)
}
