ghost use Rattle.def_meaning.specs.Joined.{column_value, joined_over};
ghost use Rattle.def_meaning.specs.Ranges.{reads_over};
ghost use Rattle.std.specs.Prelude.{◌≡◌, ◌+◌, ◌≤◌, ◌^◌, false, length, true, IfOk, OnOk};
ghost use Rattle.wh_base.specs.Tables.{rows_shown};
ghost use Rattle.wh_evaluate.specs.Shown.{CanEvaluate, answer_of, stored_of};
ghost use Rattle.wh_group.specs.Tallies.{AreSmallTuples, HasSmallAggs, kept_groups};
ghost use Rattle.wh_star.specs.Lookups.{seen_in};

use crate::plain::{plain_entries, plain_rows};
use std::alloc::{AllocError, Global};
use wh_base::queries::StarQuery;
use wh_base::reads::Reads;
use wh_base::rows_of::RowsOf;
use wh_base::values::Rows;
use wh_base::views::ViewRows;
use wh_group::{Groups, entries, finish, group, sort_entries, sort_rows};
use wh_star::{Joining, joined};

/// The first phase: the tuples of the query over all rows. An error says that memory ran out.
pub fn join<'a, L, R: RowsOf<L>>(
    alloc: Global,
    query: &'a StarQuery,
    rows: &'a R,
    reads: &mut Reads<L>,
) -> Result<Joining<'a>, AllocError>
    requires known { CanEvaluate (R.tables rows.now) (R.keys rows.now) (R.partitions rows.now) query.now }
    requires room { reads.old ≤ 2 ^ 63 }
    ensures tuples { IfOk result (λ found. found ≡ joined_over query.now (rows_shown (R.tables rows.now))) }
    ensures few { IfOk result (λ found. length found ≤ 262144) }
    ensures small { IfOk result (λ found. AreSmallTuples found) }
    ensures raised { OnOk result (reads.new ≡ reads.old + reads_over query.now (seen_in (R.tables rows.now) (R.keys rows.now) (R.partitions rows.now))) }
    ensures least { reads.old ≤ reads.new }
    ensures most { reads.new ≤ reads.old + reads_over query.now (seen_in (R.tables rows.now) (R.keys rows.now) (R.partitions rows.now)) }
{
    let tuples = joined(alloc, query, rows, reads)?;
    Ok(tuples)
}

// The groups of a grouped query. What the join needed is given back at the end.
fn groups_of<'a>(
    alloc: Global,
    query: &StarQuery,
    tuples: Joining<'a>,
) -> Result<Groups<'a>, AllocError>
    requires few { length tuples ≤ 262144 }
    requires tuples { AreSmallTuples tuples }
    requires aggs { HasSmallAggs query.now }
    ensures { IfOk result (λ groups. groups.entries ≡ kept_groups (column_value query.now.tables) query.now tuples.entry) }
{
    let mut source = tuples;
    group(alloc, query, &mut source)
}

// The rows of the answer of a grouped query.
fn grouped_answer(alloc: Global, query: &StarQuery, tuples: Joining<'_>) -> Result<Rows, AllocError>
    requires grouped { query.now.grouped ≡ true }
    requires few { length tuples ≤ 262144 }
    requires tuples { AreSmallTuples tuples }
    requires aggs { HasSmallAggs query.now }
    ensures { IfOk result (λ rows. rows ≡ answer_of query.now tuples.entry) }
{
    let groups = groups_of(alloc, query, tuples)?;
    finish(alloc, query, groups)
}

// The rows of the answer of a query that isn't grouped.
fn plain_answer(alloc: Global, query: &StarQuery, tuples: Joining<'_>) -> Result<Rows, AllocError>
    requires { query.now.grouped ≡ false }
    ensures { IfOk result (λ rows. rows ≡ answer_of query.now tuples.entry) }
{
    let mut source = tuples;
    sort_rows(
        query.order.as_slice(),
        plain_rows(alloc, query, &mut source)?,
    )
}

/// The last phases of an answer: the groups of these tuples, and their rows in order; without groups a row for each tuple. An
/// error says that memory ran out.
pub fn answer(alloc: Global, query: &StarQuery, tuples: Joining<'_>) -> Result<Rows, AllocError>
    requires few { length tuples ≤ 262144 }
    requires tuples { AreSmallTuples tuples }
    requires aggs { HasSmallAggs query.now }
    ensures { IfOk result (λ rows. rows ≡ answer_of query.now tuples.entry) }
{
    if query.grouped {
        grouped_answer(alloc, query, tuples)
    } else {
        plain_answer(alloc, query, tuples)
    }
}

// What a view of a grouped query stores.
fn grouped_view(
    alloc: Global,
    query: &StarQuery,
    tuples: Joining<'_>,
) -> Result<ViewRows, AllocError>
    requires grouped { query.now.grouped ≡ true }
    requires few { length tuples ≤ 262144 }
    requires tuples { AreSmallTuples tuples }
    requires aggs { HasSmallAggs query.now }
    ensures { IfOk result (λ stored. stored ≡ stored_of query.now tuples.entry) }
{
    let groups = groups_of(alloc, query, tuples)?;
    entries(alloc, query, groups)
}

// What a view of a query that isn't grouped stores.
fn plain_view(alloc: Global, query: &StarQuery, tuples: Joining<'_>) -> Result<ViewRows, AllocError>
    requires { query.now.grouped ≡ false }
    ensures { IfOk result (λ stored. stored ≡ stored_of query.now tuples.entry) }
{
    let mut source = tuples;
    sort_entries(plain_entries(alloc, query, &mut source)?)
}

/// The last phases of a view: the groups of these tuples, and their entries in order; without groups an entry for each tuple.
/// An error says that memory ran out.
pub fn view(alloc: Global, query: &StarQuery, tuples: Joining<'_>) -> Result<ViewRows, AllocError>
    requires few { length tuples ≤ 262144 }
    requires tuples { AreSmallTuples tuples }
    requires aggs { HasSmallAggs query.now }
    ensures { IfOk result (λ stored. stored ≡ stored_of query.now tuples.entry) }
{
    if query.grouped {
        grouped_view(alloc, query, tuples)
    } else {
        plain_view(alloc, query, tuples)
    }
}
