ghost use Rattle.def_meaning.specs.Accumulated.{item_aggs, selected_aggs};
ghost use Rattle.def_meaning.specs.Joined.{column_value};
ghost use Rattle.def_meaning.specs.Meaning.{entry_cmp, grouped_entries, in_order};
ghost use Rattle.std.specs.Prelude.{◌≡◌, ◌<◌, ◌-◌, ◌^◌, List, drop, flat_map, length, map, IfOk};
ghost use Rattle.wh_base.specs.Lists.{sorted_by};
ghost use Rattle.wh_base.specs.declared.tables.RowAt.{RowAt};
ghost use Rattle.wh_group.specs.Entries.{item_value, items_row, kept_entries, kept_entry, kept_rows, next_place, tests_true, value_beside};
ghost use Rattle.wh_group.specs.Tallies.{kept_groups};

use crate::groups::Groups;
use crate::key::{KeyPart, values_of};
use crate::order::{sort_entries, sort_rows};
use crate::tally::Tally;
use std::alloc::{AllocError, Global};
use wh_base::columns::ColRef;
use wh_base::queries::{Item, StarQuery, Test};
use wh_base::seq::Seq;
use wh_base::values::{Rows, Value};
use wh_base::views::{ViewEntry, ViewRows};

// The value beside the first of the columns that is this one. An error says that memory ran out.
#[tactic(auto, using(crate::proofs::Places::besides))]
fn value_beside(
    alloc: Global,
    keys: &[ColRef],
    values: &[KeyPart<'_>],
    column: ColRef,
) -> Result<Value, AllocError>
    ensures { IfOk result (λ v. v ≡ value_beside keys.now values.now column) }
{
    for at in 0..keys.len() {
        if at >= values.len() {
            return Ok(Value::Null);
        }
        if column.is(keys[at]) {
            return values[at].copy(alloc);
        }
    }
    Ok(Value::Null)
}

// The value of an item, where the next aggregate has the tally at this place. An error says that memory ran out.
fn item_value(
    alloc: Global,
    keys: &[ColRef],
    key: &[KeyPart<'_>],
    tallies: &[Tally],
    at: usize,
    item: Item,
) -> Result<Value, AllocError>
    ensures { IfOk result (λ v. v ≡ item_value keys.now key.now tallies.now at item) }
{
    match item {
        Item::Col(column) => value_beside(alloc, keys, key, column),
        Item::Agg(agg) => match tallies.get(at) {
            Some(tally) => tally.value(alloc, agg),
            None => Ok(Value::Null),
        },
    }
}

// The place of the next aggregate's tally after an item.
fn next_place(at: usize, item: Item) -> usize
    requires { at < 2 ^ 64 - 1 }
    ensures { result ≡ next_place at item }
{
    match item {
        Item::Col(_) => at,
        Item::Agg(_) => at + 1,
    }
}

// The row of a group's items. An error says that memory ran out.
#[tactic(auto, using(crate::proofs::Places::rows))]
fn items_row(
    alloc: Global,
    keys: &[ColRef],
    key: &[KeyPart<'_>],
    tallies: &[Tally],
    items: &[Item],
) -> Result<Seq<Value>, AllocError>
    ensures { IfOk result (λ row. row ≡ items_row keys.now key.now tallies.now 0 items.now) }
{
    let mut row = Vec::with_capacity(alloc, items.len())?;
    let mut at = 0;
    for item in items {
        row.push(item_value(alloc, keys, key, tallies, at, *item)?)?;
        at = next_place(at, *item);
    }
    Seq::from_vec(row)
}

// How many of the items are aggregates.
#[tactic(auto, using(crate::proofs::Places::counts))]
fn count_aggs(items: &[Item]) -> usize
    ensures { result ≡ length (flat_map item_aggs items.now) }
{
    let mut count = 0;
    for item in items {
        count = next_place(count, *item);
    }
    count
}

// Whether all conditions of HAVING are true, each of the tally beside it, from a place on.
#[tactic(auto, using(crate::proofs::Places::tests))]
fn tests_hold(tests: &[Test], tallies: &[Tally]) -> bool
    ensures { result ≡ tests_true tests.now tallies.now }
{
    for at in 0..tests.len() {
        if at >= tallies.len() {
            return false;
        }
        if !tallies[at].is_true_that(tests[at].agg, tests[at].op, &tests[at].value) {
            return false;
        }
    }
    true
}

// Whether a group meets HAVING.
#[tactic(auto, using(crate::proofs::Places::parts))]
fn passes(query: &StarQuery, tallies: &[Tally]) -> bool
    ensures { result ≡ tests_true query.now.having (drop (length (selected_aggs query.now)) tallies.now) }
{
    let selected = count_aggs(query.items.as_slice()).min(tallies.len());
    tests_hold(query.having.as_slice(), tallies.split_at(selected).1)
}

// The row of a group. An error says that memory ran out.
fn row_of(
    alloc: Global,
    query: &StarQuery,
    key: &[KeyPart<'_>],
    tallies: &[Tally],
) -> Result<Seq<Value>, AllocError>
    ensures { IfOk result (λ row. row ≡ items_row query.now.keys key.now tallies.now 0 query.now.items) }
{
    items_row(
        alloc,
        query.keys.as_slice(),
        key,
        tallies,
        query.items.as_slice(),
    )
}

// The entry of a group. An error says that memory ran out.
fn entry_of(
    alloc: Global,
    query: &StarQuery,
    key: &[KeyPart<'_>],
    tallies: &[Tally],
) -> Result<ViewEntry, AllocError>
    ensures { IfOk result (λ e. e ≡ kept_entry query.now (key.now, tallies.now)) }
{
    let row = row_of(alloc, query, key, tallies)?;
    Ok(ViewEntry {
        key: values_of(alloc, key)?,
        row,
    })
}

// The entries of the groups, in their order. An error says that memory ran out.
#[tactic(auto, using(crate::proofs::Places::listed))]
fn list_entries(
    alloc: Global,
    query: &StarQuery,
    groups: Groups<'_>,
) -> Result<Vec<ViewEntry>, AllocError>
    ensures { IfOk result (λ entries. entries.items ≡ kept_entries query.now groups.entry.entries) }
{
    let mut entries = Vec::new(alloc);
    for (key, tallies) in groups {
        if passes(query, tallies.as_slice()) {
            entries.push(entry_of(alloc, query, key.as_slice(), tallies.as_slice())?)?;
        }
    }
    Ok(entries)
}

// The rows of the groups, in their order. An error says that memory ran out.
#[tactic(auto, using(crate::proofs::Places::rows_listed))]
fn list_rows(
    alloc: Global,
    query: &StarQuery,
    groups: Groups<'_>,
) -> Result<Vec<Seq<Value>>, AllocError>
    ensures { IfOk result (λ rows. rows.items ≡ kept_rows query.now groups.entry.entries) }
{
    let mut rows = Vec::new(alloc);
    for (key, tallies) in groups {
        if passes(query, tallies.as_slice()) {
            rows.push(row_of(alloc, query, key.as_slice(), tallies.as_slice())?)?;
        }
    }
    Ok(rows)
}

/// What a view of the query stores of these groups: an entry for each that meets HAVING, in the order of a view, which is this
/// project's own: by the keys and then by the rows, value by value, NULL last. An error says that memory ran out.
pub fn entries(alloc: Global, query: &StarQuery, groups: Groups<'_>) -> Result<ViewRows, AllocError>
    ensures { (ts : List (List RowAt)) → groups.entry.entries ≡ kept_groups (column_value query.now.tables) query.now ts → IfOk result (λ rows. rows ≡ sorted_by entry_cmp (grouped_entries (column_value query.now.tables) query.now ts)) }
{
    sort_entries(list_entries(alloc, query, groups)?)
}

/// The rows of the answer of the query from these groups: those that meet HAVING, in the order of ORDER BY, where DESC turns a
/// key round and NULL comes last, and then by all items from left to right, which is this project's own rule. An error says
/// that memory ran out.
pub fn finish(alloc: Global, query: &StarQuery, groups: Groups<'_>) -> Result<Rows, AllocError>
    ensures { (ts : List (List RowAt)) → groups.entry.entries ≡ kept_groups (column_value query.now.tables) query.now ts → IfOk result (λ rows. rows ≡ in_order query.now.order (map (λ e. e.row) (sorted_by entry_cmp (grouped_entries (column_value query.now.tables) query.now ts)))) }
{
    sort_rows(query.order.as_slice(), list_rows(alloc, query, groups)?)
}
