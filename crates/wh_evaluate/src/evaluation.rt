ghost use Rattle.def_meaning.specs.Meaning.{meaning, stored};
ghost use Rattle.def_meaning.specs.Ranges.{base_reads};
ghost use Rattle.std.specs.Prelude.{◌≡◌, ◌+◌, ◌≤◌, ◌^◌, IfOk, OnOk};
ghost use Rattle.wh_base.specs.Tables.{Base};
ghost use Rattle.wh_evaluate.specs.Shown.{CanEvaluate, Shows};

use crate::phases::{answer, join, view};
use std::alloc::{AllocError, Global};
use wh_base::queries::StarQuery;
use wh_base::reads::Reads;
use wh_base::rows_of::RowsOf;
use wh_base::values::Rows;
use wh_base::views::ViewRows;

/// The rows of the answer of a query over a store: the meaning of the query over the base state that the store shows. As many
/// rows are read as the base plan reads: those of the root's admitted partitions and all of every other table. An error says
/// that memory ran out; then some of them may have been read.
pub fn evaluate<L, R: RowsOf<L>>(
    alloc: Global,
    query: &StarQuery,
    rows: &R,
    reads: &mut Reads<L>,
) -> Result<Rows, AllocError>
    requires known { CanEvaluate (R.tables rows.now) (R.keys rows.now) (R.partitions rows.now) query.now }
    requires room { reads.old ≤ 2 ^ 63 }
    ensures rows { (base : Base) → Shows (R.tables rows.now) (R.keys rows.now) (R.partitions rows.now) base → IfOk result (λ found. found ≡ meaning query.now base) }
    ensures raised { (base : Base) → Shows (R.tables rows.now) (R.keys rows.now) (R.partitions rows.now) base → OnOk result (reads.new ≡ reads.old + base_reads query.now base) }
    ensures least { reads.old ≤ reads.new }
    ensures most { (base : Base) → Shows (R.tables rows.now) (R.keys rows.now) (R.partitions rows.now) base → reads.new ≤ reads.old + base_reads query.now base }
{
    let tuples = join(alloc, query, rows, reads)?;
    let found = answer(alloc, query, tuples)?;
    Ok(found)
}

/// What a view of the query stores over the base state that the store shows: its entries in the order of a view. It reads as
/// an evaluation of the query does. An error says that memory ran out; then some of the rows may have been read.
pub fn evaluate_view<L, R: RowsOf<L>>(
    alloc: Global,
    query: &StarQuery,
    rows: &R,
    reads: &mut Reads<L>,
) -> Result<ViewRows, AllocError>
    requires known { CanEvaluate (R.tables rows.now) (R.keys rows.now) (R.partitions rows.now) query.now }
    requires room { reads.old ≤ 2 ^ 63 }
    ensures rows { (base : Base) → Shows (R.tables rows.now) (R.keys rows.now) (R.partitions rows.now) base → IfOk result (λ found. found ≡ stored query.now base) }
    ensures raised { (base : Base) → Shows (R.tables rows.now) (R.keys rows.now) (R.partitions rows.now) base → OnOk result (reads.new ≡ reads.old + base_reads query.now base) }
    ensures least { reads.old ≤ reads.new }
    ensures most { (base : Base) → Shows (R.tables rows.now) (R.keys rows.now) (R.partitions rows.now) base → reads.new ≤ reads.old + base_reads query.now base }
{
    let tuples = join(alloc, query, rows, reads)?;
    let found = view(alloc, query, tuples)?;
    Ok(found)
}
