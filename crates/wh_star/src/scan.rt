ghost use Rattle.std.specs.Option.{option_copied, option_to_list};
ghost use Rattle.std.specs.Prelude.{◌≡◌, ◌+◌, ◌<◌, ◌-◌, ◌≤◌, ◌^◌, IfOk, OnOk, length, true};
ghost use Rattle.wh_base.specs.Lists.{has_number, option_case, sorted_by};
ghost use Rattle.wh_base.specs.Tables.{live_rows, place_of, places_of, rowid_cmp};
ghost use Rattle.wh_star.specs.Lookups.{is_read, rows_in};

use std::alloc::{AllocError, Global};
use wh_base::reads::Reads;
use wh_base::rows_of::RowsOf;
use wh_tuple::TupleRow;

// Whether the number is among these.
fn has_number(numbers: &[u64], number: u64) -> bool
    ensures { result ≡ has_number numbers.now number }
{
    numbers.iter().any(|other| *other == number)
}

// Whether the number is among these, or all are read.
fn is_read(numbers: Option<&[u64]>, number: u64) -> bool
    ensures { result ≡ option_case (option_copied numbers.entry) true (λ ns. has_number ns number) }
{
    match numbers {
        None => true,
        Some(numbers) => has_number(numbers, number),
    }
}

// The row at a place, read, where one lives there in a partition of these numbers.
#[tactic(auto, using(crate::proofs::Scans::places))]
fn row_at<'a, L, R: RowsOf<L>>(
    rows: &'a R,
    table: u32,
    place: u64,
    numbers: Option<&[u64]>,
    reads: &mut Reads<L>,
) -> Option<TupleRow<'a>>
    requires table { table < length (R.tables rows.now) }
    requires place { place < length (places_of (R.tables rows.now) table) }
    requires room { reads.old < 2 ^ 64 - 1 }
    ensures row { option_to_list result ≡ rows_in (option_copied numbers.entry) (option_to_list (place_of (R.tables rows.now) table place)) }
    ensures raised { reads.new ≡ reads.old + length (option_to_list result) }
{
    if !rows.lives(table, place) {
        return None;
    }
    let number = rows.part(table, place);
    if !is_read(numbers, number) {
        return None;
    }
    let rowid = rows.rowid(table, place);
    let values = rows.row(table, place, reads);
    Some(TupleRow::new(rowid, number, values))
}

/// The rows of a table in the partitions of these numbers, and all its rows without numbers, each read once, in the order of
/// their places. An error says that memory ran out.
#[tactic(auto, using(crate::proofs::Scans::scanning))]
pub fn read_table<'a, L, R: RowsOf<L>>(
    alloc: Global,
    rows: &'a R,
    table: u32,
    numbers: Option<&[u64]>,
    reads: &mut Reads<L>,
) -> Result<Vec<TupleRow<'a>>, AllocError>
    requires table { table < length (R.tables rows.now) }
    requires room { reads.old < 2 ^ 63 + 2 ^ 62 }
    ensures rows { IfOk result (λ found. found.items ≡ rows_in (option_copied numbers.entry) (live_rows (places_of (R.tables rows.now) table))) }
    ensures raised { OnOk result (reads.new ≡ reads.old + length (rows_in (option_copied numbers.entry) (live_rows (places_of (R.tables rows.now) table)))) }
    ensures least { reads.old ≤ reads.new }
    ensures most { reads.new ≤ reads.old + length (rows_in (option_copied numbers.entry) (live_rows (places_of (R.tables rows.now) table))) }
{
    let mut found = Vec::new(alloc);
    for place in 0..rows.places(table) {
        if let Some(row) = row_at(rows, table, place, numbers, reads) {
            found.push(row)?;
        }
    }
    Ok(found)
}

/// The rows by ascending rowid. An error says that memory ran out.
pub fn sort_by_rowid(rows: &mut Vec<TupleRow<'_>>) -> Result<(), AllocError>
    ensures { OnOk result (rows.new.items ≡ sorted_by rowid_cmp rows.old.items) }
{
    rows.sort_by_key(|row| row.rowid())?;
    Ok(())
}
