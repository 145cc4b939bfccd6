ghost use Rattle.std.specs.Prelude.{◌≡◌, ◌<◌, ◌^◌, IfOk, length, map, not, position, is_some, unwrap_or};
ghost use Rattle.std.specs.List.{list_all};
ghost use Rattle.def_resolve.specs.Names.{column_named};
ghost use Rattle.def_resolve.specs.Resolve.{first_table, grouping_holds, item_is_grouped, order_item, resolved_item, resolved_key, star_form, star_query};
ghost use Rattle.wh_base.specs.Columns.{has_column, same_item};
ghost use Rattle.def_resolve.specs.Resolve.{joins_of};
ghost use Rattle.def_resolve.specs.Star.{star_of};
ghost use Rattle.wh_base.specs.Lists.{head, unless, where_true};
ghost use Rattle.wh_base.specs.declared.replies.Refusal.TheVariants.{NotGrouped};

use crate::names::column_named;
use crate::parts::{
    is_grouped, joins_of, resolved_agg, resolved_conditions, resolved_items, resolved_keys,
    resolved_tests,
};
use crate::sources::Source;
use crate::star::{Tree, star_of};
use crate::unknown::{called_by, item_at_position};
use std::alloc::{AllocError, Global};
use wh_base::columns::ColRef;
use wh_base::queries::{Item, OrderKey, RawKey, RawOrder, RawQuery, StarQuery};
use wh_base::replies::Refusal;
use wh_base::seq::Seq;
use wh_base::tables::TableDef;

/// The place of the first item that is this very one.
#[tactic(auto, using(crate::proofs::Places::places))]
fn item_place(items: &[Item], item: Item) -> Option<u32>
    requires { length items.now < 2 ^ 32 }
    ensures { result ≡ position (same_item item) items.now }
{
    for at in 0..items.len() {
        if item.is(items[at]) {
            return Some(at as u32);
        }
    }
    None
}

/// The item that a key of ORDER BY names: by position, by alias, or the first that is this very column or aggregate.
fn order_item(
    sources: &[Source<'_>],
    query: &RawQuery,
    items: &[Item],
    key: &RawOrder,
) -> Option<u32>
    requires { length items.now < 2 ^ 32 }
    ensures { result ≡ order_item query.now (column_named sources.now) items.now key.now }
{
    match key {
        RawOrder::Position(position) => item_at_position(query, *position),
        RawOrder::Column(name) => match called_by(query, name) {
            Some(at) => Some(at),
            None => item_place(items, Item::Col(column_named(sources, name))),
        },
        RawOrder::Computed(agg) => item_place(items, Item::Agg(resolved_agg(sources, agg))),
    }
}

fn has_column(columns: &[ColRef], column: ColRef) -> bool
    ensures { result ≡ has_column columns.now column }
{
    for other in columns {
        if column.is(*other) {
            return true;
        }
    }
    false
}

/// Whether an item may stand in a grouped query: a plain one must be a group column itself.
fn item_is_grouped(keys: &[ColRef], item: Item) -> bool
    ensures { result ≡ item_is_grouped keys.now item }
{
    match item {
        Item::Col(column) => has_column(keys, column),
        Item::Agg(_) => true,
    }
}

fn items_are_grouped(keys: &[ColRef], items: &[Item]) -> bool
    ensures { result ≡ list_all (item_is_grouped keys.now) items.now }
{
    for item in items {
        if !item_is_grouped(keys, *item) {
            return false;
        }
    }
    true
}

fn order_is_of_items(
    sources: &[Source<'_>],
    query: &RawQuery,
    items: &[Item],
    order: &[RawKey],
) -> bool
    requires { length items.now < 2 ^ 32 }
    ensures { result ≡ list_all (λ k. is_some (order_item query.now (column_named sources.now) items.now k.what)) order.now }
{
    for key in order {
        if order_item(sources, query, items, &key.what).is_none() {
            return false;
        }
    }
    true
}

/// Whether plain items of a grouped query are group columns, and each key of ORDER BY is an item.
fn grouping_holds(sources: &[Source<'_>], query: &RawQuery, items: &[Item], keys: &[ColRef]) -> bool
    requires { length items.now < 2 ^ 32 }
    ensures { result ≡ grouping_holds query.now (column_named sources.now) items.now keys.now }
{
    if is_grouped(query, items) && !items_are_grouped(keys, items) {
        return false;
    }
    order_is_of_items(sources, query, items, query.order.as_slice())
}

fn resolved_key(sources: &[Source<'_>], query: &RawQuery, items: &[Item], key: &RawKey) -> OrderKey
    requires { length items.now < 2 ^ 32 }
    ensures { result ≡ resolved_key query.now (column_named sources.now) items.now key.now }
{
    OrderKey {
        item: order_item(sources, query, items, &key.what).unwrap_or(0),
        descending: key.descending,
    }
}

/// The keys of ORDER BY as places of items.
fn resolved_order(
    alloc: Global,
    sources: &[Source<'_>],
    query: &RawQuery,
    items: &[Item],
) -> Result<Seq<OrderKey>, AllocError>
    requires { length items.now < 2 ^ 32 }
    ensures { IfOk result (λ all. all ≡ map (resolved_key query.now (column_named sources.now) items.now) query.now.order) }
{
    let mut all = Seq::from_vec(Vec::with_capacity(alloc, query.order.len())?)?;
    for key in query.order.as_slice() {
        all.push(resolved_key(sources, query, items, key))?;
    }
    Ok(all)
}

/// The star form by the query's tree, its items and its group columns.
fn star_query(
    alloc: Global,
    sources: &[Source<'_>],
    query: &RawQuery,
    tree: Tree,
    items: Seq<Item>,
    keys: Seq<ColRef>,
) -> Result<StarQuery, AllocError>
    requires items { items ≡ map (λ i. resolved_item (column_named sources.now) i.what) query.now.items }
    requires keys { keys ≡ map (column_named sources.now) query.now.groups }
    ensures { IfOk result (λ q. q ≡ star_query query.now (column_named sources.now) tree) }
{
    let order = resolved_order(alloc, sources, query, items.as_slice())?;
    let (tables, edges) = tree.into_parts();
    Ok(StarQuery {
        root: first_number(tables.as_slice()),
        tables,
        edges,
        conditions: resolved_conditions(alloc, sources, query.conditions.as_slice())?,
        grouped: is_grouped(query, items.as_slice()),
        keys,
        items,
        having: resolved_tests(alloc, sources, query.having.as_slice())?,
        order,
        as_of: query.as_of,
    })
}

// The first of the numbers, and 0 where there is none.
fn first_number(numbers: &[u32]) -> u32
    ensures { result ≡ unwrap_or (head numbers.now) 0 }
{
    match numbers.first() {
        Some(number) => *number,
        None => 0,
    }
}

/// The numbers of the tables of FROM.
fn table_numbers(alloc: Global, sources: &[Source<'_>]) -> Result<Vec<u32>, AllocError>
    ensures { IfOk result (λ all. all.items ≡ map (λ s. s.table) sources.now) }
{
    let mut all = Vec::with_capacity(alloc, sources.len())?;
    for source in sources {
        all.push(source.table())?;
    }
    Ok(all)
}

/// The tree of the query's joins, where they form one.
fn tree_of(
    alloc: Global,
    defs: &[TableDef],
    sources: &[Source<'_>],
    query: &RawQuery,
) -> Result<Option<Tree>, AllocError>
    ensures { IfOk result (λ t. t ≡ star_of defs.now (joins_of (column_named sources.now) query.now) (map (λ s. s.table) sources.now)) }
{
    let joins = joins_of(alloc, sources, query)?;
    let from = table_numbers(alloc, sources)?;
    let tree = star_of(alloc, defs, joins.as_slice(), from.as_slice())?;
    Ok(tree)
}

/// The star form of a query whose names and kinds are right, or that its joins form no tree, or else that its grouping
/// or order is wrong.
pub fn star_form(
    alloc: Global,
    defs: &[TableDef],
    sources: &[Source<'_>],
    query: &RawQuery,
) -> Result<Result<StarQuery, Refusal>, AllocError>
    ensures { IfOk result (λ r. r ≡ star_form defs.now query.now sources.now) }
{
    let Some(tree) = tree_of(alloc, defs, sources, query)? else {
        return Ok(Err(Refusal::NotStar));
    };
    let form = grouped_form(alloc, sources, query, tree)?;
    Ok(form)
}

/// The star form by the query's tree, or that its grouping or order is wrong.
fn grouped_form(
    alloc: Global,
    sources: &[Source<'_>],
    query: &RawQuery,
    tree: Tree,
) -> Result<Result<StarQuery, Refusal>, AllocError>
    ensures { IfOk result (λ r. r ≡ unless (where_true (not (grouping_holds query.now (column_named sources.now) (map (λ i. resolved_item (column_named sources.now) i.what) query.now.items) (map (column_named sources.now) query.now.groups))) NotGrouped) (star_query query.now (column_named sources.now) tree)) }
{
    let items = resolved_items(alloc, sources, query.items.as_slice())?;
    let keys = resolved_keys(alloc, sources, query.groups.as_slice())?;
    if !grouping_holds(sources, query, items.as_slice(), keys.as_slice()) {
        return Ok(Err(Refusal::NotGrouped));
    }
    let star = star_query(alloc, sources, query, tree, items, keys)?;
    Ok(Ok(star))
}

/// The first table of FROM, and 0 where there is none.
pub fn first_table(sources: &[Source<'_>]) -> u32
    ensures { result ≡ first_table sources.now }
{
    match sources.first() {
        Some(source) => source.table(),
        None => 0,
    }
}
