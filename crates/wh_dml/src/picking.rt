//! The rows of a table that the conditions of a statement pick.
ghost use Rattle.std.specs.Option.{option_to_list};
ghost use Rattle.std.specs.Prelude.{◌≡◌, ◌+◌, ◌-◌, ◌<◌, ◌≤◌, ◌^◌, IfOk, OnOk, length};
ghost use Rattle.wh_base.specs.Lists.{sorted_by};
ghost use Rattle.wh_base.specs.Tables.{live_rows, most_live, place_of, places_of};
ghost use Rattle.wh_dml.specs.Picking.{picked_at, picked_cmp, picked_from, picks, rows_picked};

use crate::changes::PlacedRow;
use crate::filter::Filter;
use std::alloc::{AllocError, Global};
use wh_base::copied::Copied;
use wh_base::reads::Reads;
use wh_base::rows_of::RowsOf;

/// A live row, with its place and its rowid.
#[derive(Drop)]
pub struct Picked {
    pub rowid: u64,
    pub row: PlacedRow,
}

/// The row at a place, where one lives there that the filter lets through. A live row is read, whether it passes or not.
#[tactic(auto, using(crate::proofs::Scanned::places))]
fn pick_at<L, R: RowsOf<L>>(
    alloc: Global,
    rows: &R,
    table: u32,
    place: u64,
    filter: &Filter,
    reads: &mut Reads<L>,
) -> Result<Option<Picked>, AllocError>
    requires table { table < length (R.tables rows.now) }
    requires place { place < length (places_of (R.tables rows.now) table) }
    requires room { reads.old < 2 ^ 64 - 1 }
    ensures picked { IfOk result (λ o. option_to_list o ≡ picks filter.now (picked_at place (place_of (R.tables rows.now) table place))) }
    ensures raised { reads.new ≡ reads.old + length (option_to_list (place_of (R.tables rows.now) table place)) }
{
    if !rows.lives(table, place) {
        return Ok(None);
    }
    let values = rows.row(table, place, reads);
    if !filter.passes(values) {
        return Ok(None);
    }
    let values = values.copied(alloc)?;
    Ok(Some(Picked {
        rowid: rows.rowid(table, place),
        row: PlacedRow { place, values },
    }))
}

/// The rows of a table that the filter lets through, in the order of their places. Each live row is read once.
#[tactic(auto, using(crate::proofs::Scanned::scanning))]
fn scan<L, R: RowsOf<L>>(
    alloc: Global,
    rows: &R,
    table: u32,
    filter: &Filter,
    reads: &mut Reads<L>,
) -> Result<Vec<Picked>, AllocError>
    requires table { table < length (R.tables rows.now) }
    requires room { reads.old ≤ 2 ^ 63 + 2 ^ 51 }
    ensures picked { IfOk result (λ found. found.items ≡ picks filter.now (picked_from 0 (places_of (R.tables rows.now) table))) }
    ensures raised { OnOk result (reads.new ≡ reads.old + length (live_rows (places_of (R.tables rows.now) table))) }
    ensures least { reads.old ≤ reads.new }
    ensures most { reads.new ≤ reads.old + most_live }
{
    let mut found = Vec::new(alloc);
    for place in 0..rows.places(table) {
        if let Some(row) = pick_at(alloc, rows, table, place, filter, reads)? {
            found.push(row)?;
        }
    }
    Ok(found)
}

/// The rows by ascending rowid.
fn sort_by_rowid(rows: &mut Vec<Picked>) -> Result<(), AllocError>
    ensures { OnOk result (rows.new.items ≡ sorted_by picked_cmp rows.old.items) }
{
    rows.sort_by_key(|row| row.rowid)?;
    Ok(())
}

/// The rows of a table that the filter lets through, by ascending rowid. Each live row is read once. An error says that
/// memory ran out.
pub fn picked_rows<L, R: RowsOf<L>>(
    alloc: Global,
    rows: &R,
    table: u32,
    filter: &Filter,
    reads: &mut Reads<L>,
) -> Result<Vec<Picked>, AllocError>
    requires table { table < length (R.tables rows.now) }
    requires room { reads.old ≤ 2 ^ 63 + 2 ^ 51 }
    ensures picked { IfOk result (λ found. found.items ≡ rows_picked filter.now (places_of (R.tables rows.now) table)) }
    ensures raised { OnOk result (reads.new ≡ reads.old + length (live_rows (places_of (R.tables rows.now) table))) }
    ensures least { reads.old ≤ reads.new }
    ensures most { reads.new ≤ reads.old + most_live }
{
    let mut found = scan(alloc, rows, table, filter, reads)?;
    sort_by_rowid(&mut found)?;
    Ok(found)
}
