ghost use Rattle.def_meaning.specs.Meaning.{entry_cmp, order_cmp, row_cmp};
ghost use Rattle.std.specs.List.Sorted.{IsPermutation, IsSorted};
ghost use Rattle.std.specs.Prelude.{◌≡◌, IfOk, OnOk};
ghost use Rattle.wh_base.specs.Lists.{sorted_by};
ghost use Rattle.wh_base.specs.Tables.{value_at};
ghost use Rattle.wh_group.specs.Entries.{key_cmp};
ghost use Rattle.wh_tuple.specs.Meant.{cell_value};

use std::alloc::AllocError;
use std::cmp::Ordering;
use wh_base::queries::OrderKey;
use wh_base::seq::Seq;
use wh_base::values::{Rows, Value};
use wh_base::views::{ViewEntry, ViewRows};
use wh_tuple::Cell;

// The order of entries: by their keys and then by their rows.
fn compare_entries(left: &ViewEntry, right: &ViewEntry) -> Ordering
    ensures { result ≡ entry_cmp left.now right.now }
{
    left.key.cmp(&right.key).then(left.row.cmp(&right.row))
}

// The value at a place in a row, NULL past the end.
fn cell_at(row: &Seq<Value>, place: u32) -> Cell<'_>
    ensures { cell_value result ≡ value_at row.now place }
{
    match row.get(place as usize) {
        Some(value) => Cell::Kept(value),
        None => Cell::Null,
    }
}

// The order of two rows by one key of ORDER BY.
fn compare_key(key: OrderKey, left: &Seq<Value>, right: &Seq<Value>) -> Ordering
    ensures { result ≡ key_cmp key left.now right.now }
{
    let order = cell_at(left, key.item).compare_cell(cell_at(right, key.item));
    if key.descending {
        return order.reverse();
    }
    order
}

// The order of two rows by ORDER BY.
#[tactic(auto, using(crate::proofs::Turns::turns))]
fn compare_keys(keys: &[OrderKey], left: &Seq<Value>, right: &Seq<Value>) -> Ordering
    ensures { result ≡ order_cmp keys.now left.now right.now }
{
    for key in keys {
        let order = compare_key(*key, left, right);
        if !order.is_eq() {
            return order;
        }
    }
    Ordering::Equal
}

// The order of the rows of an answer: by ORDER BY, and then by all items from left to right.
fn compare_rows(keys: &[OrderKey], left: &Seq<Value>, right: &Seq<Value>) -> Ordering
    ensures { result ≡ row_cmp keys.now left.now right.now }
{
    compare_keys(keys, left, right).then(left.cmp(right))
}

// Puts entries in order. An error says that memory ran out.
fn order_entries(entries: &mut Vec<ViewEntry>) -> Result<(), AllocError>
    ensures sorted { OnOk result (IsSorted entry_cmp entries.new.items) }
    ensures same { IsPermutation entries.old.items entries.new.items }
{
    entries.sort_by(|left, right| compare_entries(left, right))?;
    Ok(())
}

// Puts rows in the order of these keys. An error says that memory ran out.
fn order_rows(keys: &[OrderKey], rows: &mut Vec<Seq<Value>>) -> Result<(), AllocError>
    ensures sorted { OnOk result (IsSorted (row_cmp keys.now) rows.new.items) }
    ensures same { IsPermutation rows.old.items rows.new.items }
{
    rows.sort_by(|left, right| compare_rows(keys, left, right))?;
    Ok(())
}

/// The entries in the order of a view. An error says that memory ran out.
#[tactic(auto, using(crate::proofs::Sorted::entry_orders))]
pub fn sort_entries(entries: Vec<ViewEntry>) -> Result<ViewRows, AllocError>
    ensures { IfOk result (λ sorted. sorted ≡ sorted_by entry_cmp entries.items) }
{
    let mut sorted = entries;
    order_entries(&mut sorted)?;
    Seq::from_vec(sorted)
}

/// The rows in the order of an answer with these keys of ORDER BY. An error says that memory ran out.
#[tactic(auto, using(crate::proofs::Sorted::row_orders))]
pub fn sort_rows(keys: &[OrderKey], rows: Vec<Seq<Value>>) -> Result<Rows, AllocError>
    ensures { IfOk result (λ sorted. sorted ≡ sorted_by (row_cmp keys.now) rows.items) }
{
    let mut sorted = rows;
    order_rows(keys, &mut sorted)?;
    Seq::from_vec(sorted)
}
